// The values at many keys.
ghost use Rattle.std.specs.Prelude.{◌≡◌, ◌≤◌, ◌<◌, ℕ, List, None, length, map, slice_index};
ghost use Rattle.std.specs.Prelude.{slice_index_or};
ghost use Rattle.tombstones.specs.declared.entry.Entry.{Entry};
ghost use Rattle.tombstones.specs.Entries.{entry_at};
ghost use Rattle.map_level.specs.Levels.{last_at};
ghost use Rattle.log_levels.specs.declared.many.Search.TheVariants.{Open};
ghost use Rattle.log_levels.specs.declared.update.Update.{Update};
ghost use Rattle.log_levels.specs.Kept.{IsBegun, searched, found_by, value_of};
ghost use Rattle.log_levels.specs.Maps.{map_after, value_at};
ghost use Rattle.log_levels.specs.Shapes.{IsCutOf, StandsFor};

use crate::log_map::{LogMap, lowest_and_rest};
use crate::questions::last_of;
use map_level::{HashedKey, Level};
use tombstones::Entry;

/// How many keys are searched side by side.
const AT_ONCE: usize = 32;

/// How far the search for one of many keys has come.
#[derive(Clone, Copy)]
pub enum Search {
    /// The key's last entry was found, or no level is left: this is its value, if there is one.
    Done(Option<u64>),
    /// What was searched has no entry with the key.
    Open,
    /// The level that is searched may have one: it is looked for from here on.
    Near(usize),
}

impl Search {
    /// The value that was found, if there is one.
    fn value(self) -> Option<u64>
        ensures { result ≡ found_by self }
    {
        match self {
            Search::Done(value) => value,
            _ => None,
        }
    }
}

impl LogMap {
    /// Writes the value at each key, if the map has the key, at its place.
    ///
    /// The same as [`LogMap::get`] for each. The levels are searched for 32 keys side by side, so
    /// that their reads of memory don't wait for one another. Takes no memory.
    pub fn get_many(&self, keys: &[u64], values: &mut [Option<u64>])
        requires { length values.old ≡ length keys.now }
        ensures { (updates : List Update) → StandsFor self.now updates →
            values.new ≡ map (value_at (map_after updates)) keys.now }
    {
        let mut from = 0;
        while from < keys.len() {
            let end = keys.len().min(from + AT_ONCE);
            self.get_block(&keys[from..end], &mut values[from..end]);
            from = end;
        }
    }

    /// The same for 32 keys or fewer.
    fn get_block(&self, keys: &[u64], values: &mut [Option<u64>])
        requires same { length values.old ≡ length keys.now }
        requires few { length keys.now ≤ 32 }
        ensures { (updates : List Update) → StandsFor self.now updates →
            values.new ≡ map (value_at (map_after updates)) keys.now }
    {
        let mut searches = [Search::Open; AT_ONCE];
        let searches = &mut searches[..keys.len()];
        self.search_buffer(keys, searches);
        self.search_levels(keys, searches);
        write_values(searches, values);
    }

    /// Looks for each key in the buffer.
    fn search_buffer(&self, keys: &[u64], searches: &mut [Search])
        requires { length searches.old ≡ length keys.now }
        ensures { searches.new ≡
            map (λ key. searched (last_at self.now.buffer key) Open) keys.now }
    {
        for i in 0..keys.len() {
            searches[i] = match last_of(&self.buffer, keys[i]) {
                Some(entry) => Search::Done(entry.value),
                None => Search::Open,
            };
        }
    }

    /// Looks for each key in the levels, the newest first.
    fn search_levels(&self, keys: &[u64], searches: &mut [Search])
        requires { searches.old ≡
            map (λ key. searched (last_at self.now.buffer key) Open) keys.now }
        ensures { (entries : List Entry) → IsCutOf self.now entries →
            map found_by searches.new ≡ map (λ key. value_of (last_at entries key)) keys.now }
    {
        let mut rest = self.occupied();
        while rest != 0 {
            let (i, behind) = lowest_and_rest(rest);
            let level = self.occupied_level(i);
            begin(level, keys, searches);
            finish(level, keys, searches);
            rest = behind;
        }
    }
}

/// Where to look in a level for each key that is still open and that the level may have.
fn begin(level: &Level, keys: &[u64], searches: &mut [Search])
    requires { length searches.old ≡ length keys.now }
    ensures length { length searches.new ≡ length searches.old }
    ensures begun { (k : ℕ) → k < length keys.now →
        IsBegun (entry_at level.now (slice_index keys.now k)) (slice_index_or searches.old k Open)
        (slice_index_or searches.new k Open) }
{
    for i in 0..keys.len() {
        searches[i] = begun(level, keys[i], searches[i]);
    }
}

/// Looks there.
fn finish(level: &Level, keys: &[u64], searches: &mut [Search])
    requires same { length searches.old ≡ length keys.now }
    requires missed { (k : ℕ) → k < length keys.now → slice_index_or searches.old k Open ≡ Open →
        entry_at level.now (slice_index keys.now k) ≡ None }
    ensures length { length searches.new ≡ length searches.old }
    ensures searched { (k : ℕ) → k < length keys.now → slice_index_or searches.new k Open
        ≡ searched (entry_at level.now (slice_index keys.now k))
        (slice_index_or searches.old k Open) }
{
    for i in 0..keys.len() {
        searches[i] = finished(level, keys[i], searches[i]);
    }
}

/// Where to look in a level for a key.
#[inline(always)]
fn begun(level: &Level, key: u64, search: Search) -> Search
    ensures { IsBegun (entry_at level.now key) search result }
{
    match search {
        Search::Open => {
            if level.may_have(&HashedKey::of(key)) {
                Search::Near(level.start(key))
            } else {
                Search::Open
            }
        }
        other => other,
    }
}

/// Looks there for the key.
#[inline(always)]
fn finished(level: &Level, key: u64, search: Search) -> Search
    requires { search ≡ Open → entry_at level.now key ≡ None }
    ensures { result ≡ searched (entry_at level.now key) search }
{
    match search {
        Search::Near(start) => match level.entry_from(level.place(start, key), key) {
            Some(entry) => Search::Done(entry.value),
            None => Search::Open,
        },
        other => other,
    }
}

/// Writes what was found.
fn write_values(searches: &[Search], values: &mut [Option<u64>])
    requires { length values.old ≡ length searches.now }
    ensures { values.new ≡ map found_by searches.now }
{
    for i in 0..searches.len() {
        values[i] = searches[i].value();
    }
}
