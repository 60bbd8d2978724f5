// The map, and what is asked of it.
ghost use Rattle.std.specs.Prelude.{◌≡◌, ◌+◌, ◌-◌, ◌/◌, ◌%◌};
ghost use Rattle.std.specs.Prelude.{◌^◌, ◌<◌, ◌≤◌, ◌↔◌, ℕ};
ghost use Rattle.std.specs.Prelude.{List, [], length, Option, Some, None, IsSome, IsNone, IfOk};
ghost use Rattle.std.specs.Option.{option_map, option_copied};
ghost use Rattle.std.specs.Int.{bit_at};
ghost use Rattle.options.specs.declared.map.TheConstants.{MAX_LEVELS};
ghost use Rattle.tombstones.specs.declared.entry.Entry.{Entry};
ghost use Rattle.tombstones.specs.Entries.{IsAscending};
ghost use Rattle.levels.specs.Indexes.{IsIndex};
ghost use Rattle.log_levels.specs.declared.update.Update.{Update};
ghost use Rattle.log_levels.specs.Shapes.{Held, StandsFor, capacity_of, capacity_with};
ghost use Rattle.map_level.specs.Levels.{level_keys};
ghost use Rattle.log_levels.specs.Shapes.{level_of, from_bit};
ghost use Rattle.log_levels.specs.Maps.{map_after};
ghost use Rattle.log_levels.specs.Accepted.{entries_of};

use crate::bare::Bare;
use budget::NoMemory;
use levels::Index;
use map_level::Level;
use options::{EPS, EPS_REC};
use std::alloc::Global;
use std::marker::Model;
use std::sync::Arc;
use tombstones::Entry;

/// How many entries a flush takes from the buffer.
pub(crate) const BLOCK: u64 = 64;

/// A map of keys to values that changes, kept by the logarithmic method. Seen as what it holds: how
/// many entries it accepted, its buffer and its levels.
///
/// It stands for a list of updates. What it answers is what the ordered map after these updates
/// has, and what it holds are their entries, cut: a put or a deletion is an entry, and a sweep is a
/// deletion of each key that it takes away. With `f` the whole part of a 64th of their number, the
/// first `64f` entries are cut into blocks of `64 * 2^i` of them, one for each bit `i` of `f`, the
/// highest first. Level `i` holds the last entry of each key of its block, and the deepest level no
/// deletion. The rest is in the buffer.
///
/// A level is never changed. Copies share it.
///
/// Source: Bentley and Saxe, Decomposable searching problems, J. Algorithms 1(4), 1980.
#[derive(Drop)]
pub struct LogMap {
    pub(crate) accepted: u64,
    pub(crate) buffer: Vec<Entry>,
    pub(crate) stored: Vec<Option<Arc<Level>>>,
    /// The map has no key in it.
    pub(crate) bare: Bare,
}

impl Model for LogMap {
    ghost use Rattle.std.specs.Prelude.{vec_capacity};
    ghost use Rattle.log_levels.specs.Shapes.{Held};

    ghost Value = { Held };

    ghost use Rattle.log_levels.specs.Kept.{IsKept, held_of};

    ghost view = { λ map. held_of map.accepted map.buffer.items map.stored.items };

    ghost invariant = { λ map. IsKept (held_of map.accepted map.buffer.items map.stored.items)
        (vec_capacity map.buffer) map.bare };
}

/// How many entries a map with so many levels, up to 26, can accept: `64 * 2^levels - 1`.
pub fn capacity_with(levels: u32) -> u64
    requires { levels ≤ MAX_LEVELS }
    ensures { result ≡ capacity_with levels }
{
    (BLOCK << levels) - 1
}

impl LogMap {
    /// The empty map with so many levels, 1 to 26. It can accept `64 * 2^levels - 1` entries.
    ///
    /// # Errors
    ///
    /// `NoMemory` alone.
    pub fn new(alloc: Global, levels: u32) -> Result<LogMap, NoMemory>
        requires some { 1 ≤ levels }
        requires few { levels ≤ MAX_LEVELS }
        ensures empty { IfOk result (λ map. StandsFor map []) }
        ensures levels { IfOk result (λ map. length map.levels ≡ levels) }
    {
        let bare = Bare::none();
        let mut stored = Vec::with_capacity(alloc, levels as usize)?;
        for _level in 0..levels {
            stored.push(None)?;
        }
        let buffer = Vec::with_capacity(alloc, BLOCK as usize)?;
        Ok(LogMap {
            accepted: 0,
            buffer,
            stored,
            bare,
        })
    }

    /// An equal map. It shares the levels.
    ///
    /// # Errors
    ///
    /// `NoMemory` alone.
    pub fn copy(&self, alloc: Global) -> Result<LogMap, NoMemory>
        ensures { IfOk result (λ copy. copy ≡ self.now) }
    {
        let bare = self.bare;
        let count = self.stored.len();
        let mut stored = Vec::with_capacity(alloc, count)?;
        for i in 0..count {
            stored.push(self.shared_level(i)?)?;
        }
        let mut buffer = Vec::with_capacity(alloc, BLOCK as usize)?;
        buffer.extend_from_slice(&self.buffer)?;
        Ok(LogMap {
            accepted: self.accepted,
            buffer,
            stored,
            bare,
        })
    }

    /// How many entries were accepted. They are at most as many as the map can accept, and it
    /// stands for some updates.
    pub fn accepted(&self) -> u64
        ensures count { result ≡ self.now.accepted }
        ensures within { result ≤ capacity_of self.now }
        ensures stands { (updates : List Update) × StandsFor self.now updates }
    {
        self.accepted
    }

    /// How many entries can be accepted: `64 * 2^levels - 1`.
    pub fn capacity(&self) -> u64
        ensures { result ≡ capacity_of self.now }
    {
        capacity_with(self.stored.len() as u32)
    }

    /// How many entries came since the last flush.
    pub fn buffered(&self) -> u64
        ensures held { result ≡ length self.now.buffer }
        ensures rest { result ≡ self.now.accepted % BLOCK }
    {
        self.buffer.len() as u64
    }

    /// How many entries level `i` has, if it is occupied. It is where bit `i` of a 64th of
    /// [`LogMap::accepted`] is 1.
    pub fn level_len(&self, i: u32) -> Option<u64>
        requires { i < length self.now.levels }
        ensures count { result ≡ option_map length (level_of self.now i) }
        ensures free { IsNone result ↔ (bit_at (self.now.accepted / BLOCK) i ≡ 0) }
    {
        let _ = &self.accepted;
        match self.level(i as usize) {
            Some(level) => Some(level.entries().len() as u64),
            None => None,
        }
    }

    /// The entries of level `i`, which is occupied, by rising key: the last one of each key of its
    /// block, in the deepest level those with a value alone.
    pub fn entries(&self, i: u32) -> &[Entry]
        requires { IsSome (level_of self.now i) }
        ensures entries { level_of self.now i ≡ Some result.now }
        ensures ascending { IsAscending result.now }
    {
        match self.level(i as usize) {
            Some(level) => level.entries(),
            None => unreachable!(),
        }
    }

    /// The index of the keys of level `i`, which is occupied.
    pub fn index(&self, i: u32) -> &Index
        requires { IsSome (level_of self.now i) }
        ensures keys { option_map level_keys (level_of self.now i) ≡ Some result.now.keys }
        ensures eps { result.now.eps ≡ EPS }
        ensures eps_rec { result.now.eps_rec ≡ EPS_REC }
        ensures index { IsIndex result.now.keys EPS EPS_REC result.now.levels }
    {
        match self.level(i as usize) {
            Some(level) => level.index(),
            None => unreachable!(),
        }
    }

    /// Which levels are occupied: bit `i` is 1 where level `i` is.
    #[inline(always)]
    pub(crate) fn occupied(&self) -> u64
        ensures bits { result ≡ self.now.accepted / BLOCK }
        ensures within { result < 2 ^ length self.now.levels }
        ensures few { length self.now.levels ≤ MAX_LEVELS }
        ensures free { (i : ℕ) → i < length self.now.levels → bit_at result i ≡ 0 →
            level_of self.now i ≡ None }
        ensures taken { (i : ℕ) → bit_at result i ≡ 1 → IsSome (level_of self.now i) }
    {
        self.accepted / BLOCK
    }

    /// A level that is occupied.
    #[inline(always)]
    pub(crate) fn occupied_level(&self, i: usize) -> &Level
        requires { IsSome (level_of self.now i) }
        ensures { level_of self.now i ≡ Some result.now }
    {
        match &self.stored[i] {
            Some(level) => level,
            None => unreachable!(),
        }
    }

    /// A level, if it is occupied.
    pub(crate) fn level(&self, i: usize) -> Option<&Level>
        ensures { option_copied result ≡ level_of self.now i }
    {
        match self.stored.get(i) {
            Some(Some(level)) => Some(level),
            _ => None,
        }
    }
}

/// The place of the lowest bit that is 1, and the number without that bit.
#[inline(always)]
pub fn lowest_and_rest(bits: u64) -> (usize, u64)
    requires { 0 < bits }
    ensures set { bit_at bits result.0 ≡ 1 }
    ensures lowest { from_bit result.0 bits ≡ bits }
    ensures rest { result.1 ≡ from_bit (result.0 + 1) bits }
    ensures less { result.1 < bits }
{
    (bits.trailing_zeros() as usize, bits & (bits - 1))
}

/// A map stands for one map and one number of entries: two lists of updates for which it stands
/// leave the same pairs and have as many entries.
pub fn one_map()
    ensures map { (held : Held) (one two : List Update) → StandsFor held one →
        StandsFor held two → map_after one ≡ map_after two }
    ensures accepted { (held : Held) (one two : List Update) → StandsFor held one →
        StandsFor held two → length (entries_of one) ≡ length (entries_of two) }
{}
