// What a map becomes when entries are added: made aside, by a builder.
ghost use Rattle.std.specs.Prelude.{◌≡◌, ◌+◌, ◌-◌, ◌*◌, ◌/◌};
ghost use Rattle.std.specs.Prelude.{◌^◌};
ghost use Rattle.std.specs.Prelude.{◌<◌, ◌≤◌, ◌==◌, ◌++◌, ℕ, List};
ghost use Rattle.std.specs.Prelude.{false, length, take, drop, vec_capacity, vec_len};
ghost use Rattle.std.specs.Prelude.{slice_index_or};
ghost use Rattle.std.specs.Prelude.{None, Some, IfOk, OnOk, OnErr, IsTrue, IsSome, All};
ghost use Rattle.std.specs.Int.{bit_at};
ghost use Rattle.std.specs.Arc.{arc_value};
ghost use Rattle.options.specs.declared.map.TheConstants.{MAX_LEVELS};
ghost use Rattle.tombstones.specs.declared.entry.Entry.{Entry};
ghost use Rattle.tombstones.specs.Entries.{IsAscending, entry_at, kept};
ghost use Rattle.map_level.specs.Levels.{IsLastOfEach};
ghost use Rattle.log_levels.specs.Shapes.{IsCutOf, capacity_of, level_of, from_bit};
ghost use Rattle.log_levels.specs.Kept.{IsGrowth, IsGrownLevel, IsMergedTo};
ghost use Rattle.log_levels.specs.Kept.{shared_of, levels_of};

use crate::log_map::{BLOCK, LogMap};
use budget::NoMemory;
use map_level::{Builder, Level, latest_of};
use std::alloc::Global;
use std::cmp::Ordering;
use std::sync::Arc;
use tombstones::Entry;

impl LogMap {
    /// The levels below level `top`, the buffer and new entries behind them, merged from the newest
    /// on, and where nothing lies below without deletions: dropped by a pass of their own, they
    /// would take as much room once more.
    fn merged_below<B: Builder>(
        &self,
        builder: &B,
        alloc: Global,
        top: usize,
        new: &[Entry],
    ) -> Result<Vec<Entry>, NoMemory>
        requires ready { B.ready builder.now }
        requires inside { top < length self.now.levels }
        ensures { IfOk result (λ merged. (entries : List Entry) → IsCutOf self.now entries →
            IsMergedTo entries (length entries / 64) top new.now merged.items) }
    {
        let _ = self.accepted();
        let blocks = self.blocks_with(0);
        let latest = self.latest_with(builder, alloc, new)?;
        let mut merged = kept_of(builder, latest, blocks == 0)?;
        for i in 0..top {
            if let Some(level) = self.level(i) {
                merged = builder.merge(&merged, level.entries(), blocks >> (i + 1) == 0)?;
            }
        }
        Ok(merged)
    }

    /// The last entry of each key of the buffer and of new entries behind it, by rising key.
    fn latest_with<B: Builder>(
        &self,
        builder: &B,
        alloc: Global,
        new: &[Entry],
    ) -> Result<Vec<Entry>, NoMemory>
        requires ready { B.ready builder.now }
        ensures { IfOk result (λ latest.
            IsLastOfEach false (self.now.buffer ++ new.now) latest.items) }
    {
        let mut entries = Vec::with_capacity(alloc, self.buffer.len() + new.len())?;
        entries.extend_from_slice(&self.buffer)?;
        entries.extend_from_slice(new)?;
        latest_of(builder, alloc, &entries)
    }

    /// Level `top`, where `new` more entries change bit `top` as the highest one: what was below
    /// it, and new entries up to the end of its block.
    fn merged_level<B: Builder>(
        &self,
        builder: &B,
        alloc: Global,
        new: &[Entry],
        top: usize,
    ) -> Result<Arc<Level>, NoMemory>
        requires ready { B.ready builder.now }
        requires growth { IsGrowth self.now (length new.now) top }
        ensures { IfOk result (λ level.
            IsGrownLevel self.now new.now top (Some (arc_value level))) }
    {
        let blocks = self.blocks_with(new.len());
        let end = entries_from_bit(top, blocks) - self.accepted();
        let merged = self.merged_below(builder, alloc, top, &new[..end as usize])?;
        shared(builder, alloc, merged)
    }

    /// A level below it, if it is occupied: a block of new entries.
    fn fresh_level<B: Builder>(
        &self,
        builder: &B,
        alloc: Global,
        new: &[Entry],
        top: usize,
        i: usize,
    ) -> Result<Option<Arc<Level>>, NoMemory>
        requires ready { B.ready builder.now }
        requires growth { IsGrowth self.now (length new.now) top }
        requires below { i < top }
        ensures { IfOk result (λ level. IsGrownLevel self.now new.now i (shared_of level)) }
    {
        let blocks = self.blocks_with(new.len());
        if (blocks >> i) % 2 == 0 {
            return Ok(None);
        }
        let accepted = self.accepted();
        let start = entries_from_bit(i + 1, blocks) - accepted;
        let end = entries_from_bit(i, blocks) - accepted;
        let latest = latest_of(builder, alloc, part(new, start as usize, end as usize))?;
        Ok(Some(shared(builder, alloc, latest)?))
    }

    /// Level `i` with new entries, where they change bit `top` of the number of blocks as the
    /// highest one.
    fn level_with<B: Builder>(
        &self,
        builder: &B,
        alloc: Global,
        new: &[Entry],
        top: usize,
        i: usize,
    ) -> Result<Option<Arc<Level>>, NoMemory>
        requires ready { B.ready builder.now }
        requires growth { IsGrowth self.now (length new.now) top }
        requires occupied { i < length self.now.levels }
        ensures { IfOk result (λ level. IsGrownLevel self.now new.now i (shared_of level)) }
    {
        match i.cmp(&top) {
            Ordering::Less => self.fresh_level(builder, alloc, new, top, i),
            Ordering::Equal => Ok(Some(self.merged_level(builder, alloc, new, top)?)),
            Ordering::Greater => self.shared_level(i),
        }
    }

    /// All levels with new entries.
    fn levels_with<B: Builder>(
        &self,
        builder: &B,
        alloc: Global,
        new: &[Entry],
        top: usize,
    ) -> Result<Vec<Option<Arc<Level>>>, NoMemory>
        requires ready { B.ready builder.now }
        requires growth { IsGrowth self.now (length new.now) top }
        ensures count { IfOk result (λ levels. length levels.items ≡ length self.now.levels) }
        ensures levels { IfOk result (λ levels. (i : ℕ) → i < length self.now.levels →
            IsGrownLevel self.now new.now i (slice_index_or (levels_of levels.items) i None)) }
    {
        let count = self.stored.len();
        let mut levels = Vec::with_capacity(alloc, count)?;
        for i in 0..count {
            levels.push(self.level_with(builder, alloc, new, top, i)?)?;
        }
        Ok(levels)
    }

    /// The map with new entries, which fill a block or more.
    ///
    /// Not inlined: most entries fill none, and then what this call would save is for nothing.
    #[inline(never)]
    pub(crate) fn with_entries<B: Builder>(
        &self,
        builder: &B,
        alloc: Global,
        new: &[Entry],
    ) -> Result<LogMap, NoMemory>
        requires ready { B.ready builder.now }
        requires flush { self.now.accepted / BLOCK < (self.now.accepted + length new.now) / BLOCK }
        requires room { self.now.accepted + length new.now ≤ capacity_of self.now }
        ensures cut { IfOk result (λ map. (entries : List Entry) → IsCutOf self.now entries →
            IsCutOf map (entries ++ new.now)) }
        ensures levels { IfOk result (λ map. length map.levels ≡ length self.now.levels) }
    {
        let bare = self.bare.without_puts(new);
        let blocks = self.blocks_with(new.len());
        let top = highest_change(self.accepted / BLOCK, blocks);
        let stored = self.levels_with(builder, alloc, new, top)?;
        let accepted = self.accepted + new.len() as u64;
        let start = blocks * BLOCK - self.accepted;
        let mut buffer = Vec::with_capacity(alloc, BLOCK as usize)?;
        buffer.extend_from_slice(&new[start as usize..])?;
        Ok(LogMap {
            accepted,
            buffer,
            stored,
            bare,
        })
    }

    /// Adds entries. After an error the map is as it was.
    pub(crate) fn append<B: Builder>(
        &mut self,
        builder: &B,
        alloc: Global,
        new: &[Entry],
    ) -> Result<(), NoMemory>
        requires ready { B.ready builder.now }
        requires room { self.old.accepted + length new.now ≤ capacity_of self.old }
        ensures cut { OnOk result ((entries : List Entry) → IsCutOf self.old entries →
            IsCutOf self.new (entries ++ new.now)) }
        ensures levels { length self.new.levels ≡ length self.old.levels }
        ensures unchanged { OnErr result (self.new ≡ self.old) }
    {
        let after = self.accepted + new.len() as u64;
        if self.accepted / BLOCK < after / BLOCK {
            *self = self.with_entries(builder, alloc, new)?;
            return Ok(());
        }
        push_each(&mut self.buffer, new);
        self.accepted = after;
        self.bare = self.bare.without_puts(new);
        Ok(())
    }

    /// How many blocks there are with so many entries more.
    fn blocks_with(&self, more: usize) -> u64
        requires { self.now.accepted + more ≤ capacity_of self.now }
        ensures blocks { result ≡ (self.now.accepted + more) / BLOCK }
        ensures few { result < 2 ^ length self.now.levels }
        ensures levels { length self.now.levels ≤ MAX_LEVELS }
        ensures stands { (entries : List Entry) × IsCutOf self.now entries }
    {
        (self.accepted + more as u64) / BLOCK
    }

    /// A level above it, which is shared.
    pub(crate) fn shared_level(&self, i: usize) -> Result<Option<Arc<Level>>, NoMemory>
        requires { i < length self.now.levels }
        ensures { IfOk result (λ level. shared_of level ≡ level_of self.now i) }
    {
        match &self.stored[i] {
            Some(level) => Ok(Some(Arc::try_clone(level)?)),
            None => Ok(None),
        }
    }
}

/// Puts entries behind those of a list, which has room for them: one by one, since they are one
/// mostly, and a call that copies any number takes longer.
#[inline(always)]
fn push_each(into: &mut Vec<Entry>, new: &[Entry])
    requires room { vec_len into.old + length new.now ≤ vec_capacity into.old }
    ensures items { into.new.items ≡ into.old.items ++ new.now }
    ensures capacity { vec_capacity into.new ≡ vec_capacity into.old }
{
    for entry in new {
        into.push_reserved(*entry);
    }
}

/// Entries, without deletions where no level lies below.
fn kept_of<B: Builder>(
    builder: &B,
    entries: Vec<Entry>,
    deepest: bool,
) -> Result<Vec<Entry>, NoMemory>
    requires ready { B.ready builder.now }
    requires ascending { IsAscending entries.items }
    ensures ascending { IfOk result (λ level. IsAscending level.items) }
    ensures keeps { IfOk result (λ level. (key : ℕ) →
        entry_at level.items key ≡ kept deepest (entry_at entries.items key)) }
{
    if !deepest {
        return Ok(entries);
    }
    if have_values(&entries) {
        return Ok(entries);
    }
    builder.merge(&entries, &[], true)
}

/// Whether no entry is a deletion.
fn have_values(entries: &[Entry]) -> bool
    ensures { IsTrue result → All (λ entry. IsSome entry.value) entries.now }
{
    entries.iter().all(|entry| entry.value.is_some())
}

/// A level of entries, to be shared.
pub fn shared<B: Builder>(
    builder: &B,
    alloc: Global,
    entries: Vec<Entry>,
) -> Result<Arc<Level>, NoMemory>
    requires ready { B.ready builder.now }
    requires ascending { IsAscending entries.items }
    requires few { vec_len entries < 2 ^ 32 }
    ensures { IfOk result (λ level. arc_value level ≡ entries.items) }
{
    let level = Level::of(builder, alloc, entries)?;
    Ok(Arc::new(alloc, level)?)
}

/// The highest bit in which a number differs from a smaller one.
fn highest_change(before: u64, after: u64) -> usize
    requires order { before < after }
    requires few { after < 2 ^ 32 }
    ensures inside { (count : ℕ) → after < 2 ^ count → result < count }
    ensures above { before / 2 ^ (result + 1) ≡ after / 2 ^ (result + 1) }
    ensures was_clear { bit_at before result ≡ 0 }
    ensures is_set { bit_at after result ≡ 1 }
{
    let mut top = 0;
    while before >> (top + 1) != after >> (top + 1) {
        top += 1;
    }
    top
}

/// The items from one place to another.
pub fn part<T>(items: &[T], start: usize, end: usize) -> &[T]
    requires order { start ≤ end }
    requires within { end ≤ length items.now }
    ensures part { result.now ≡ take (end - start) (drop start items.now) }
    ensures len { length result.now ≡ end - start }
{
    &items[start..end]
}

/// How many entries the blocks of the bits from bit `i` on have.
pub fn entries_from_bit(i: usize, blocks: u64) -> u64
    requires shift { i < 64 }
    requires few { blocks < 2 ^ 58 }
    ensures { result ≡ BLOCK * from_bit i blocks }
{
    (blocks >> i << i) * BLOCK
}
