// A level as it is kept.
ghost use Rattle.std.specs.Prelude.{◌≡◌, ◌-◌, ◌^◌, ◌<◌, ◌≤◌, ℕ};
ghost use Rattle.std.specs.Prelude.{None, Some, IfSome, length, vec_len, IfOk};
ghost use Rattle.std.specs.Prelude.{slice_index};
ghost use Rattle.std.specs.Bool.{OnFalse};
ghost use Rattle.std.specs.Option.{option_copied};
ghost use Rattle.levels.specs.Indexes.{IsIndex};
ghost use Rattle.tombstones.specs.Entries.{IsAscending, entry_at};
ghost use Rattle.map_level.specs.Levels.{IsBelow, level_keys};
ghost use Rattle.window_search.specs.Searches.{lb};

use crate::builder::Builder;
use crate::entry_keys::EntryKeys;
use crate::filter::{Filter, HashedKey, keys_with_filter};
use crate::grid::Grid;
use budget::NoMemory;
use key_search::position_near;
use levels::Index;
use options::{EPS, EPS_REC};
use std::alloc::Global;
use std::marker::Model;
use tombstones::Entry;

/// How many groups of eight entries are looked at where a grid leads. The rows of grids in
/// `map_tests` look at as many.
const GROUPS: usize = 1;

/// The entries of a level, by rising key, with the index of their keys, a filter of them, and a
/// grid where they are even. Seen as the entries. It is never changed.
///
/// A key is searched in three steps: a hint says where to look (`start`, from the grid, or else
/// from the index); eight entries there are looked at, or where the index led the keys of a window;
/// and where the key's place isn't among them, the index finds it. No clause says that a hint is
/// right: what is found is checked.
#[derive(Drop)]
pub struct Level {
    entries: Vec<Entry>,
    index: Index,
    filter: Filter,
    grid: Option<Grid>,
}

impl Model for Level {
    ghost use Rattle.std.specs.Prelude.{List};
    ghost use Rattle.tombstones.specs.declared.entry.Entry.{Entry};

    ghost Value = { List Entry };

    ghost use Rattle.map_level.specs.Levels.{IsIndexed};

    ghost view = { λ level. level.entries.items };

    ghost use Rattle.map_level.specs.Filters.{ArePassed};
    ghost use Rattle.map_level.specs.Levels.{level_keys};

    ghost invariant = { λ level. IsIndexed level.entries.items level.index ×
        ArePassed level.filter (level_keys level.entries.items) };
}

impl Level {
    /// A level of entries, of which each key has one.
    ///
    /// # Errors
    ///
    /// `NoMemory` alone.
    pub fn of<B: Builder>(
        builder: &B,
        alloc: Global,
        entries: Vec<Entry>,
    ) -> Result<Level, NoMemory>
        requires ready { B.ready builder.now }
        requires ascending { IsAscending entries.items }
        requires few { vec_len entries < 2 ^ 32 }
        ensures { IfOk result (λ level. level ≡ entries.items) }
    {
        let (keys, filter) = keys_with_filter(alloc, &entries)?;
        let index = builder.index(keys)?;
        // The keys are still in the cache.
        let grid = Grid::of(alloc, index.keys().as_slice())?;
        Ok(Level {
            entries,
            index,
            filter,
            grid,
        })
    }

    /// The entries, by rising key.
    #[inline]
    pub fn entries(&self) -> &[Entry]
        ensures entries { result.now ≡ self.now }
        ensures ascending { IsAscending self.now }
        ensures few { length self.now < 2 ^ 32 }
    {
        &self.entries
    }

    /// A hint for [`Level::place`], where to look for a key: the place of the first entry to look
    /// at. It tells nothing.
    #[inline(always)]
    pub fn start(&self, key: u64) -> usize {
        match &self.grid {
            Some(grid) => grid.start(key),
            None => self.index.start_near(key) as usize,
        }
    }

    /// How many keys are below `key`: the place of the first entry whose key is not. A hint of
    /// [`Level::start`] makes it fast; the answer is the same for all.
    #[inline]
    pub fn place(&self, start: usize, key: u64) -> usize
        ensures place { result ≡ lb (level_keys self.now) key }
        ensures within { result ≤ length self.now }
    {
        let entries = self.entries();
        if self.grid.is_none() {
            return self.index.position_near(start, key) as usize;
        }
        match position_near(EntryKeys { entries }, start, GROUPS, key) {
            Some(place) => place,
            None => self.index.position(key) as usize,
        }
    }

    /// Whether the level may have an entry with a key, by its filter: some keys pass that it
    /// hasn't.
    #[inline(always)]
    pub fn may_have(&self, key: &HashedKey) -> bool
        ensures { OnFalse result (entry_at self.now key.now ≡ None) }
    {
        self.filter.passes(key)
    }

    /// The entry with a key, if there is one. A key that the filter denies isn't searched.
    #[inline]
    pub fn entry(&self, key: &HashedKey) -> Option<&Entry>
        ensures { option_copied result ≡ entry_at self.now key.now }
    {
        if !self.may_have(key) {
            return None;
        }
        let key = key.key();
        self.entry_from(self.place(self.start(key), key), key)
    }

    /// The entry with a key, whose place is known, if there is one.
    #[inline]
    pub fn entry_from(&self, place: usize, key: u64) -> Option<&Entry>
        requires { place ≡ lb (level_keys self.now) key }
        ensures { option_copied result ≡ entry_at self.now key }
    {
        let entries = self.entries();
        if place >= entries.len() {
            return None;
        }
        if entries[place].key != key {
            return None;
        }
        Some(&entries[place])
    }

    /// The key at a place, if there is one.
    ///
    /// At the place of a bound it is the least key from the bound on.
    #[inline]
    pub fn key_at(&self, place: usize) -> Option<u64>
        ensures at { IfSome result (λ key. (place < length self.now) ×
            (slice_index (level_keys self.now) place ≡ key)) }
        ensures least { (from key : ℕ) → place ≡ lb (level_keys self.now) from → from ≤ key →
            IsBelow key result → entry_at self.now key ≡ None }
    {
        let entries = self.entries();
        if place >= entries.len() {
            return None;
        }
        Some(entries[place].key)
    }

    /// The one index of the keys, with the error bounds [`EPS`] and [`EPS_REC`].
    #[inline]
    pub fn index(&self) -> &Index
        ensures keys { result.now.keys ≡ level_keys self.now }
        ensures eps { result.now.eps ≡ EPS }
        ensures eps_rec { result.now.eps_rec ≡ EPS_REC }
        ensures index { IsIndex result.now.keys EPS EPS_REC result.now.levels }
    {
        &self.index
    }
}
