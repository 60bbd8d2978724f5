// A walk over the keys of a map in falling order.
ghost use Rattle.std.specs.Prelude.{◌≡◌, ◌+◌, ◌<◌, ◌≤◌, ◌⊎◌, ◌++◌, ◌∷◌, []};
ghost use Rattle.std.specs.Prelude.{ℕ, List, None, length, IfSome};
ghost use Rattle.tombstones.specs.declared.entry.Entry.{Entry};
ghost use Rattle.tombstones.specs.Entries.{IsAscending, entry_at};
ghost use Rattle.window_search.specs.Searches.{lb};
ghost use Rattle.map_level.specs.Levels.{last_at, level_keys};
ghost use Rattle.log_levels.specs.Shapes.{IsCutOf};
ghost use Rattle.log_levels.specs.Kept.{ArePlaces, IsAbsent, IsGreatestBelow, IsLastLive};
ghost use Rattle.log_levels.specs.Kept.{value_of};

use crate::log_map::{LogMap, lowest_and_rest};
use crate::walk::Places;
use tombstones::Entry;

impl LogMap {
    /// The places behind a key: how many keys of each level are up to it.
    pub(crate) fn places_behind(&self, key: u64) -> Places
        ensures { ArePlaces self.now result (key + 1) }
    {
        let mut places = self.places(key);
        let mut rest = self.occupied();
        while rest != 0 {
            let (i, behind) = lowest_and_rest(rest);
            places[i] = place_behind(self.occupied_level(i).entries(), places[i], key);
            rest = behind;
        }
        places
    }

    /// The greatest key from `low` on and below `end` that the map has, with its value, if there is
    /// one. The places, those of `end`, become those of this key.
    pub(crate) fn previous_pair(
        &self,
        places: &mut Places,
        low: u128,
        end: u128,
    ) -> Option<(u64, u64)>
        requires { ArePlaces self.now places.old end }
        ensures live { (entries : List Entry) → IsCutOf self.now entries →
            IsLastLive entries low end result }
        ensures from { IfSome result (λ pair. low ≤ pair.0) }
        ensures places { IfSome result (λ pair. ArePlaces self.now places.new pair.0) }
    {
        let mut high = end;
        while let Some(entry) = self.take_greatest(places, high) {
            high = u128::from(entry.key);
            if high < low {
                return None;
            }
            if let Some(value) = entry.value {
                return Some((entry.key, value));
            }
        }
        None
    }

    /// The last entry of the greatest key below `end`, if there is one. The places, those of `end`,
    /// become those of this key.
    fn take_greatest(&self, places: &mut Places, end: u128) -> Option<Entry>
        requires { ArePlaces self.now places.old end }
        ensures below { IfSome result (λ entry. entry.key < end) }
        ensures absent { (key : ℕ) → key < end → IfSome result (λ entry. entry.key < key) →
            IsAbsent self.now key }
        ensures last { IfSome result (λ entry. (entries : List Entry) → IsCutOf self.now entries →
            value_of (last_at entries entry.key) ≡ entry.value) }
        ensures places { IfSome result (λ entry. ArePlaces self.now places.new entry.key) }
    {
        let greatest = self.greatest_below(places, end)?;
        self.move_back(places, greatest.key);
        Some(greatest)
    }

    /// The last entry of the greatest key below `end`, whose places these are, if there is one: of
    /// the buffer, or else of the newest level that has it.
    fn greatest_below(&self, places: &Places, end: u128) -> Option<Entry>
        requires { ArePlaces self.now places.now end }
        ensures below { IfSome result (λ entry. entry.key < end) }
        ensures absent { (key : ℕ) → key < end → IfSome result (λ entry. entry.key < key) →
            IsAbsent self.now key }
        ensures last { IfSome result (λ entry. (entries : List Entry) → IsCutOf self.now entries →
            value_of (last_at entries entry.key) ≡ entry.value) }
    {
        let mut greatest = last_below(&self.buffer, end);
        let mut rest = self.occupied();
        while rest != 0 {
            let (i, behind) = lowest_and_rest(rest);
            let before = entry_before(self.occupied_level(i).entries(), places[i]);
            greatest = greater(greatest, before);
            rest = behind;
        }
        greatest
    }

    /// Moves the places of an end back to those of a key, from which on none is below the end.
    fn move_back(&self, places: &mut Places, key: u64)
        requires { (end : ℕ) × ((ArePlaces self.now places.old end) × (key < end) ×
            ((other : ℕ) → key < other → other < end → IsAbsent self.now other)) }
        ensures { ArePlaces self.now places.new key }
    {
        let mut rest = self.occupied();
        while rest != 0 {
            let (i, behind) = lowest_and_rest(rest);
            places[i] = place_before(self.occupied_level(i).entries(), places[i], key);
            rest = behind;
        }
    }
}

/// The place behind a key in a level, by the place of the key.
fn place_behind(entries: &[Entry], place: usize, key: u64) -> usize
    requires ascending { IsAscending entries.now }
    requires place { place ≡ lb (level_keys entries.now) key }
    ensures { result ≡ lb (level_keys entries.now) (key + 1) }
{
    if place >= entries.len() {
        return place;
    }
    if entries[place].key == key {
        return place + 1;
    }
    place
}

/// The place of a key in a level, by that of an end, where no key is between them.
fn place_before(entries: &[Entry], place: usize, key: u64) -> usize
    requires ascending { IsAscending entries.now }
    requires within { place ≤ length entries.now }
    ensures { (end : ℕ) → place ≡ lb (level_keys entries.now) end → key < end →
        ((other : ℕ) → key < other → other < end → entry_at entries.now other ≡ None) →
        result ≡ lb (level_keys entries.now) key }
{
    if place == 0 {
        return place;
    }
    if entries[place - 1].key == key {
        return place - 1;
    }
    place
}

/// The entry of a level before a place, if there is one: that of the greatest key below the end
/// whose place it is.
fn entry_before(entries: &[Entry], place: usize) -> Option<Entry>
    requires ascending { IsAscending entries.now }
    requires within { place ≤ length entries.now }
    ensures { (end : ℕ) → place ≡ lb (level_keys entries.now) end →
        IsGreatestBelow (entry_at entries.now) end result }
{
    if place == 0 {
        return None;
    }
    Some(entries[place - 1])
}

/// The last entry of the greatest key below `end`, if there is one.
#[inline(never)]
fn last_below(entries: &[Entry], end: u128) -> Option<Entry>
    ensures { IsGreatestBelow (last_at entries.now) end result }
{
    let mut last = None;
    for entry in entries {
        last = last_with(last, *entry, end);
    }
    last
}

/// That last entry with an entry more, by the one without it.
#[inline(always)]
fn last_with(last: Option<Entry>, entry: Entry, end: u128) -> Option<Entry>
    ensures { (entries : List Entry) → IsGreatestBelow (last_at entries) end last →
        IsGreatestBelow (last_at (entries ++ entry ∷ [])) end result }
{
    if u128::from(entry.key) >= end {
        return last;
    }
    match last {
        Some(other) if other.key > entry.key => last,
        _ => Some(entry),
    }
}

/// The entry with the greater key, of one key the first.
#[inline(always)]
fn greater(one: Option<Entry>, other: Option<Entry>) -> Option<Entry>
    ensures one { (key : ℕ) → IfSome result (λ entry. entry.key < key) →
        IfSome one (λ entry. entry.key < key) }
    ensures other { (key : ℕ) → IfSome result (λ entry. entry.key < key) →
        IfSome other (λ entry. entry.key < key) }
    ensures either { (result ≡ one) ⊎ ((result ≡ other) ×
        IfSome other (λ later. IfSome one (λ entry. entry.key < later.key))) }
{
    match (one, other) {
        (Some(a), Some(b)) if b.key <= a.key => one,
        (_, None) => one,
        _ => other,
    }
}
