// Maps of pairs, made at once.
ghost use Rattle.std.specs.Prelude.{◌≡◌, ◌+◌, ◌*◌, ◌/◌, ◌<◌, ◌≤◌, ◌^◌, ◌⊎◌, ◌++◌};
ghost use Rattle.std.specs.Prelude.{ℕ, List, length, map, IfOk, Err, IfSome, IsNone};
ghost use Rattle.std.specs.Prelude.{vec_len, vec_capacity};
ghost use Rattle.options.specs.declared.map.TheConstants.{MAX_LEVELS};
ghost use Rattle.tombstones.specs.declared.entry.Entry.{Entry};
ghost use Rattle.log_levels.specs.Accepted.{puts_of};
ghost use Rattle.log_levels.specs.declared.update.Update.{Update};
ghost use Rattle.log_levels.specs.declared.fault.MapFault.TheVariants.{Full};
ghost use Rattle.log_levels.specs.declared.fault.LoadFault.TheVariants.{Unsorted};
ghost use Rattle.log_levels.specs.Shapes.{IsCutOf, IsLevelFor, IsMapOf, StandsFor, capacity_with};
ghost use Rattle.log_levels.specs.Maps.{map_after, AreRising, IsFirstStall};
ghost use Rattle.log_levels.specs.Kept.{entries_put, shared_of};

use crate::bare::Bare;
use crate::fault::{LoadFault, MapFault};
use crate::growth::{entries_from_bit, part, shared};
use crate::log_map::{BLOCK, LogMap, capacity_with};
use budget::NoMemory;
use map_level::{Here, Level};
use std::alloc::Global;
use std::sync::Arc;
use tombstones::Entry;

impl LogMap {
    /// The map of pairs of key and value whose keys rise strictly, with so many levels, 1 to 26: as
    /// after a put of each.
    ///
    /// Each level is cut from the pairs as the logarithmic form says, and made once: nothing is
    /// merged, and no list of all entries is made.
    ///
    /// # Errors
    ///
    /// - `Unsorted` with the first place whose key isn't above the one before it. It is judged
    ///   first.
    /// - `Full` where the pairs are more than `64 * 2^levels - 1`. It is judged next.
    /// - `NoMemory` where memory wasn't found.
    pub fn of_sorted(alloc: Global, levels: u32, pairs: &[(u64, u64)]) -> Result<LogMap, LoadFault>
        requires some { 1 ≤ levels }
        requires few { levels ≤ MAX_LEVELS }
        ensures made { IfOk result (IsMapOf levels pairs.now) }
        ensures unsorted { (place : ℕ) → IsFirstStall pairs.now place →
            result ≡ Err (Unsorted place) }
        ensures unsorted_only { (place : ℕ) → result ≡ Err (Unsorted place) →
            IsFirstStall pairs.now place }
        ensures full { ((place : ℕ) → IsFirstStall pairs.now place → ⊥) →
            capacity_with levels < length pairs.now →
            result ≡ Err (LoadFault.Full (capacity_with levels)) }
        ensures full_only { (accepted : ℕ) → result ≡ Err (LoadFault.Full accepted) →
            (accepted ≡ capacity_with levels) × (accepted < length pairs.now) }
    {
        if let Some(place) = first_stall(pairs) {
            return Err(LoadFault::Unsorted {
                place: place as u64,
            });
        }
        let accepted = capacity_with(levels);
        if pairs.len() as u64 > accepted {
            return Err(LoadFault::Full { accepted });
        }
        let map = map_put(alloc, levels, pairs)?;
        Ok(map)
    }

    /// A map of the same pairs with so many levels, 1 to 26, that has accepted a put of each and no
    /// other entry: it goes on where this one is full, and passes no deleted key.
    ///
    /// # Errors
    ///
    /// - `Full` where the pairs are more than `64 * 2^levels - 1`, unless memory came first.
    /// - `NoMemory` where memory wasn't found.
    pub fn compacted(&self, alloc: Global, levels: u32) -> Result<LogMap, MapFault>
        requires some { 1 ≤ levels }
        requires few { levels ≤ MAX_LEVELS }
        ensures made { IfOk result (λ map. (updates : List Update) → StandsFor self.now updates →
            IsMapOf levels (map_after updates) map) }
        ensures same { (updates : List Update) →
            map_after (puts_of (map_after updates)) ≡ map_after updates }
        ensures levels { IfOk result (λ map. length map.levels ≡ levels) }
        ensures full { (updates : List Update) → StandsFor self.now updates →
            capacity_with levels < length (map_after updates) →
            (result ≡ Err (Full (capacity_with levels))) ⊎ (result ≡ Err MapFault.NoMemory) }
        ensures full_only { (accepted : ℕ) → result ≡ Err (Full accepted) →
            (accepted ≡ capacity_with levels) × ((updates : List Update) →
            StandsFor self.now updates → accepted < length (map_after updates)) }
    {
        let _ = self.accepted();
        let pairs = self.all_pairs(alloc)?;
        match LogMap::of_sorted(alloc, levels, &pairs) {
            Ok(map) => Ok(map),
            Err(LoadFault::Full { accepted }) => Err(MapFault::Full { accepted }),
            Err(LoadFault::NoMemory) => Err(MapFault::NoMemory),
            Err(LoadFault::Unsorted { .. }) => unreachable!(),
        }
    }

    /// All pairs of key and value, by rising key.
    fn all_pairs(&self, alloc: Global) -> Result<Vec<(u64, u64)>, NoMemory>
        ensures { IfOk result (λ pairs. (updates : List Update) → StandsFor self.now updates →
            pairs.items ≡ map_after updates) }
    {
        let mut walk = self.walk(0);
        let mut from = 0;
        let mut pairs = Vec::new(alloc);
        while let Some((key, value)) = self.next_pair(&mut walk, from) {
            pairs.push((key, value))?;
            from = u128::from(key) + 1;
        }
        Ok(pairs)
    }
}

/// The first place whose key isn't above the one before it, if there is one.
fn first_stall(pairs: &[(u64, u64)]) -> Option<usize>
    ensures some { IfSome result (IsFirstStall pairs.now) }
    ensures none { IsNone result → (place : ℕ) → IsFirstStall pairs.now place → ⊥ }
    ensures rising { IsNone result → AreRising pairs.now }
{
    for place in 1..pairs.len() {
        if pairs[place].0 <= pairs[place - 1].0 {
            return Some(place);
        }
    }
    None
}

/// The map of rising pairs, which fit it: each level's entries are made of its part of the pairs.
fn map_put(alloc: Global, levels: u32, pairs: &[(u64, u64)]) -> Result<LogMap, NoMemory>
    requires some { 1 ≤ levels }
    requires few { levels ≤ MAX_LEVELS }
    requires rising { AreRising pairs.now }
    requires fit { length pairs.now < 64 * 2 ^ levels }
    ensures cut { IfOk result (λ map. IsCutOf map (entries_put pairs.now)) }
    ensures levels { IfOk result (λ map. length map.levels ≡ levels) }
{
    let bare = Bare::none();
    let mut stored = Vec::with_capacity(alloc, levels as usize)?;
    for i in 0..levels as usize {
        stored.push(level_put(alloc, pairs, i)?)?;
    }
    let block = BLOCK as usize;
    let mut buffer = Vec::with_capacity(alloc, block)?;
    put_each(&mut buffer, &pairs[pairs.len() / block * block..]);
    Ok(LogMap {
        accepted: pairs.len() as u64,
        buffer,
        stored,
        bare,
    })
}

/// Level `i` of the map of rising pairs, if it is occupied.
fn level_put(alloc: Global, pairs: &[(u64, u64)], i: usize) -> Result<Option<Arc<Level>>, NoMemory>
    requires low { i < MAX_LEVELS }
    requires rising { AreRising pairs.now }
    requires few { length pairs.now < 2 ^ 32 }
    ensures { IfOk result (λ level.
        IsLevelFor (entries_put pairs.now) (length pairs.now / BLOCK) i (shared_of level)) }
{
    let blocks = pairs.len() as u64 / BLOCK;
    if (blocks >> i) % 2 == 0 {
        return Ok(None);
    }
    let start = entries_from_bit(i + 1, blocks);
    let end = entries_from_bit(i, blocks);
    let part = part(pairs, start as usize, end as usize);
    let mut entries = Vec::with_capacity(alloc, part.len())?;
    put_each(&mut entries, part);
    Ok(Some(shared(&Here { alloc }, alloc, entries)?))
}

/// Puts the entries of puts of these pairs behind those of a list, which has room for them.
fn put_each(into: &mut Vec<Entry>, pairs: &[(u64, u64)])
    requires room { vec_len into.old + length pairs.now ≤ vec_capacity into.old }
    ensures items { into.new.items ≡ into.old.items ++ entries_put pairs.now }
    ensures capacity { vec_capacity into.new ≡ vec_capacity into.old }
{
    for pair in pairs {
        into.push_reserved(Entry {
            key: pair.0,
            value: Some(pair.1),
        });
    }
}
