// A walk over the keys of a map in rising order.
ghost use Rattle.std.specs.Prelude.{◌≡◌, ◌+◌, ◌-◌, ◌<◌, ◌≤◌, ◌^◌};
ghost use Rattle.std.specs.Prelude.{ℕ, List, length, max, MatchOption};
ghost use Rattle.std.specs.Prelude.{Some, None, IfSome, IsNone};
ghost use Rattle.options.specs.declared.map.TheConstants.{MAX_LEVELS};
ghost use Rattle.tombstones.specs.declared.entry.Entry.{Entry};
ghost use Rattle.map_level.specs.Levels.{last_at, IsBelow};
ghost use Rattle.std.specs.Int.{bit_at};
ghost use Rattle.arrayvec.specs.ArrayVec.{array_vec_len};
ghost use Rattle.log_levels.specs.Shapes.{IsCutOf, level_of, from_bit};
ghost use Rattle.tombstones.specs.Entries.{entry_at};
ghost use Rattle.log_levels.specs.Kept.{ArePlaces, AreBehind, AreHeads, IsFirst, IsLeft};
ghost use Rattle.log_levels.specs.Kept.{IsAbsent, IsNextLive, first_key};
ghost use Rattle.log_levels.specs.Kept.{left_of, value_of};

use crate::heads::{First, Heads, LEVELS, first_head, put_head};
use crate::log_map::{LogMap, lowest_and_rest};
use crate::upcoming::Upcoming;
use arrayvec::ArrayVec;
use tombstones::Entry;

/// A place in each level.
pub type Places = [usize; LEVELS];

/// What a walk has not passed: what it has left of the buffer, and what lies behind a place in each
/// level.
///
/// The keys at these places lie side by side (`heads`), so that a step reads no level but the one
/// whose entry it takes. Where several levels have a key, only the newest moves on with it. In the
/// others the entry of a key that was passed is met later, and left out.
#[derive(Drop)]
pub struct Walk {
    buffered: Upcoming,
    places: Places,
    heads: Heads,
}

impl LogMap {
    /// A walk from a key on.
    pub(crate) fn walk(&self, from: u64) -> Walk
        ensures { IsLeft self.now result from }
    {
        let places = self.places(from);
        let buffered = Upcoming::from(&self.buffer, from);
        let heads = self.heads(&places);
        Walk {
            buffered,
            places,
            heads,
        }
    }

    /// The keys at the places of the levels.
    #[inline(never)]
    fn heads(&self, places: &Places) -> Heads
        ensures { AreHeads self.now places.now 0 result.items }
    {
        let mut heads = ArrayVec::new();
        let mut rest = self.occupied();
        while rest != 0 {
            let (i, behind) = lowest_and_rest(rest);
            self.push_head(&mut heads, places, i);
            rest = behind;
        }
        heads
    }

    /// Puts the key at the place of level `i` behind those of lower levels, if there is one.
    #[inline(always)]
    fn push_head(&self, heads: &mut Heads, places: &Places, i: usize)
        requires low { i < MAX_LEVELS }
        requires room { array_vec_len heads.old < MAX_LEVELS }
        ensures { (rest : ℕ) → from_bit i rest ≡ rest → bit_at rest i ≡ 1 →
            AreHeads self.now places.now rest heads.old.items →
            AreHeads self.now places.now (from_bit (i + 1) rest) heads.new.items }
    {
        if let Some(level) = self.level(i) {
            if let Some(key) = level.key_at(places[i]) {
                heads.push((key, i));
            }
        }
    }

    /// The least key from `from` on that the map has, with its value, if there is one. The walk
    /// passes it.
    #[inline(always)]
    pub(crate) fn next_pair(&self, walk: &mut Walk, from: u128) -> Option<(u64, u64)>
        requires left { IsLeft self.now walk.old from }
        requires few { from ≤ 2 ^ 64 }
        ensures live { (entries : List Entry) → IsCutOf self.now entries →
            IsNextLive entries from result }
        ensures from { IfSome result (λ pair. from ≤ pair.0) }
        ensures left { IfSome result (λ pair. IsLeft self.now walk.new (pair.0 + 1)) }
    {
        let mut low = from;
        while let Some(entry) = self.take_least(walk, low) {
            if u128::from(entry.key) < low {
                continue;
            }
            if let Some(value) = entry.value {
                return Some((entry.key, value));
            }
            low = u128::from(entry.key) + 1;
        }
        None
    }

    /// Takes an entry with the least key that is left, of the buffer or else of the newest level
    /// that has it. Below `low` it is one that was left out, and else the last one of its key.
    #[inline(always)]
    fn take_least(&self, walk: &mut Walk, low: u128) -> Option<Entry>
        requires left { IsLeft self.now walk.old low }
        requires few { low ≤ 2 ^ 64 }
        ensures none { IsNone result → (key : ℕ) → low ≤ key → IsAbsent self.now key }
        ensures least { IfSome result (λ entry. (key : ℕ) → low ≤ key → key < entry.key →
            IsAbsent self.now key) }
        ensures last { IfSome result (λ entry. (entries : List Entry) → low ≤ entry.key →
            IsCutOf self.now entries → value_of (last_at entries entry.key) ≡ entry.value) }
        ensures left { IfSome result (λ entry.
            IsLeft self.now walk.new (max low (entry.key + 1))) }
        ensures fewer { IfSome result (λ entry.
            left_of walk.new.places (max low (entry.key + 1)) < left_of walk.old.places low) }
    {
        let found = first_head(&walk.heads);
        if let Some(entry) = next_of(walk.buffered.next, found) {
            walk.buffered.pass(&self.buffer, entry.key);
            return Some(entry);
        }
        let first = found?;
        Some(self.take_from_level(walk, first))
    }

    /// Takes the entry of the head that comes first, and puts the next key of its level in place of
    /// it.
    ///
    /// Where the level ends, which is seldom, all heads are made anew.
    #[inline(always)]
    fn take_from_level(&self, walk: &mut Walk, first: First) -> Entry
        requires first { IsFirst walk.old.heads.items first }
        requires heads { AreHeads self.now walk.old.places 0 walk.old.heads.items }
        requires count { length walk.old.places ≡ MAX_LEVELS }
        ensures key { result.key ≡ first.key }
        ensures entry { (level : List Entry) → level_of self.now first.level ≡ Some level →
            entry_at level first.key ≡ Some result }
        ensures buffered { walk.new.buffered ≡ walk.old.buffered }
        ensures behind { (low : ℕ) → AreBehind self.now walk.old.places low →
            AreBehind self.now walk.new.places (max low (first.key + 1)) }
        ensures heads { AreHeads self.now walk.new.places 0 walk.new.heads.items }
        ensures fewer { (low : ℕ) → low ≤ 2 ^ 64 →
            left_of walk.new.places (max low (first.key + 1)) < left_of walk.old.places low }
    {
        let entries = self.occupied_level(first.level).entries();
        let place = walk.places[first.level];
        let entry = entries[place];
        walk.places[first.level] = place + 1;
        if place + 1 < entries.len() {
            put_head(
                &mut walk.heads,
                first.place,
                (entries[place + 1].key, first.level),
            );
        } else {
            walk.heads = self.heads(&walk.places);
        }
        entry
    }

    /// The places of a key.
    ///
    /// The searches of all levels are interleaved, so that their reads of memory don't wait for one
    /// another.
    pub(crate) fn places(&self, key: u64) -> Places
        ensures { ArePlaces self.now result key }
    {
        let mut places = [0; LEVELS];
        self.put_starts(&mut places, key);
        let mut rest = self.occupied();
        while rest != 0 {
            let (i, behind) = lowest_and_rest(rest);
            if let Some(level) = self.level(i) {
                places[i] = level.place(places[i], key);
            }
            rest = behind;
        }
        places
    }

    /// Puts into each occupied level's place where to look there for a key. It tells nothing.
    #[inline(always)]
    fn put_starts(&self, starts: &mut Places, key: u64) {
        let mut rest = self.occupied();
        while rest != 0 {
            let (i, behind) = lowest_and_rest(rest);
            if let Some(level) = self.level(i) {
                starts[i] = level.start(key);
            }
            rest = behind;
        }
    }
}

/// The entry of the buffer, if it comes next: its key is at most that of a level.
#[inline(always)]
fn next_of(buffered: Option<Entry>, found: Option<First>) -> Option<Entry>
    ensures next { IfSome result (λ entry. (buffered ≡ Some entry) ×
        ((other : ℕ) → other < entry.key → IsBelow other (first_key found))) }
    ensures none { IsNone result →
        IfSome buffered (λ entry. MatchOption found ⊥ (λ first. first.key < entry.key)) }
{
    let entry = buffered?;
    match found {
        Some(first) => {
            if first.key < entry.key {
                None
            } else {
                Some(entry)
            }
        }
        None => Some(entry),
    }
}
