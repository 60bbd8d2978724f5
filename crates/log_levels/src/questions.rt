// Questions to a map.
ghost use Rattle.std.specs.Prelude.{◌≡◌};
ghost use Rattle.std.specs.Prelude.{◌==◌, List};
ghost use Rattle.std.specs.Prelude.{Option, Some, None, find};
ghost use Rattle.std.specs.Option.{option_copied};
ghost use Rattle.tombstones.specs.declared.entry.Entry.{Entry};
ghost use Rattle.log_levels.specs.declared.update.Update.{Update};
ghost use Rattle.log_levels.specs.Maps.{map_after, value_at, next_from, count_between};
ghost use Rattle.log_levels.specs.Maps.{previous_to};
ghost use Rattle.map_level.specs.Levels.{last_at};
ghost use Rattle.log_levels.specs.Shapes.{IsCutOf, StandsFor};
ghost use Rattle.log_levels.specs.Kept.{value_of};

use crate::log_map::{LogMap, lowest_and_rest};
use map_level::HashedKey;
use tombstones::Entry;

impl LogMap {
    /// The value at a key, if the map has the key.
    ///
    /// The buffer is gone through from its end, and then the levels are searched, the newest first,
    /// up to the first entry with the key: each whose filter doesn't deny the key, by a grid where
    /// its keys are even, and else by its index. Takes no memory.
    pub fn get(&self, key: u64) -> Option<u64>
        ensures { (updates : List Update) → StandsFor self.now updates →
            result ≡ value_at (map_after updates) key }
    {
        match last_of(&self.buffer, key) {
            Some(entry) => entry.value,
            None => self.value_in_levels(key),
        }
    }

    /// The least key from `q` on that the map has, with its value, if there is one.
    ///
    /// Each level is searched once, by its grid or its index, and from there on gone along key by
    /// key, past keys that were deleted: at worst past each key from `q` on that the levels and the
    /// buffer have. At each the next key of each level is looked at. Takes no memory.
    pub fn next(&self, q: u64) -> Option<(u64, u64)>
        ensures { (updates : List Update) → StandsFor self.now updates →
            result ≡ next_from (map_after updates) q }
    {
        let start = self.bare.behind(q);
        let mut walk = self.walk(start);
        self.next_pair(&mut walk, u128::from(start))
    }

    /// How many keys from `low` to `high` the map has, both included; none where `low` is above
    /// `high`.
    ///
    /// Each level is searched once, by its grid or its index, and from there on gone along key by
    /// key, past keys that were deleted. At each key in the range that the levels and the buffer
    /// have, and at one past it, the next key of each level is looked at. Takes no memory.
    pub fn count(&self, low: u64, high: u64) -> u64
        ensures { (updates : List Update) → StandsFor self.now updates →
            result ≡ count_between (map_after updates) low high }
    {
        let _ = self.accepted();
        let start = self.bare.behind(low);
        let mut walk = self.walk(start);
        let mut from = u128::from(start);
        let mut count = 0;
        while let Some((key, _)) = self.next_pair(&mut walk, from) {
            if key > high {
                return count;
            }
            count += 1;
            from = u128::from(key) + 1;
        }
        count
    }

    /// The greatest key up to `q` that the map has, with its value, if there is one.
    ///
    /// Each level is searched once, by its grid or its index, and from there on gone back along key
    /// by key, past keys that were deleted: at worst past each key up to `q` that the levels and
    /// the buffer have. At each the key before it of each level is looked at, and the buffer is
    /// gone through. Takes no memory.
    pub fn previous(&self, q: u64) -> Option<(u64, u64)>
        ensures { (updates : List Update) → StandsFor self.now updates →
            result ≡ previous_to (map_after updates) q }
    {
        let bound = self.bare.before(q);
        let mut places = self.places_behind(bound);
        self.previous_pair(&mut places, 0, u128::from(bound) + 1)
    }

    /// The value at a key, if the map has the key, where the buffer has no entry with it.
    pub(crate) fn value_in_levels(&self, key: u64) -> Option<u64>
        requires { last_at self.now.buffer key ≡ None }
        ensures { (entries : List Entry) → IsCutOf self.now entries →
            result ≡ value_of (last_at entries key) }
    {
        let hashed = HashedKey::of(key);
        let mut rest = self.occupied();
        while rest != 0 {
            let (i, behind) = lowest_and_rest(rest);
            if let Some(entry) = self.occupied_level(i).entry(&hashed) {
                return entry.value;
            }
            rest = behind;
        }
        None
    }
}

/// The last of the entries with a key, if there is one.
pub fn last_of(entries: &[Entry], key: u64) -> Option<&Entry>
    ensures { option_copied result ≡ last_at entries.now key }
{
    entries.iter().rev().find(|entry| entry.key == key)
}
