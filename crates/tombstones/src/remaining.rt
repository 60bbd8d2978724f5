ghost use Rattle.std.specs.Prelude.{◌≡◌, ℕ, ◌+◌, ◌<◌, ◌≤◌, ◌==◌};
ghost use Rattle.std.specs.Prelude.{if◌then◌else◌, length, drop, nat_le};
ghost use Rattle.std.specs.Int.{from_bool};
ghost use Rattle.std.specs.Prelude.{Some, None, IfNone, IfSome};
ghost use Rattle.tombstones.specs.Entries.{IsAscending, winner_at};
ghost use Rattle.tombstones.specs.Parts.{key_at};

use super::Entry;

/// What a merge has not yet taken of its two lists.
#[derive(Clone, Copy)]
pub struct Remaining<'a> {
    pub newer: &'a [Entry],
    pub older: &'a [Entry],
}

/// What a merge has not yet taken of two lists, with the next key of each.
#[derive(Clone, Copy)]
pub struct Heads<'a> {
    pub remaining: Remaining<'a>,
    pub new_key: u64,
    pub old_key: u64,
}

impl Remaining<'_> {
    /// Takes the winner of the lesser of the next keys of two lists, each of which has one.
    ///
    /// Where both lists have that key, the older entry goes with it.
    #[inline(always)]
    fn take_lesser(&mut self, new_key: u64, old_key: u64) -> Entry
        requires newer_left { 0 < length self.old.newer.now }
        requires older_left { 0 < length self.old.older.now }
        requires newer_ascending { IsAscending self.old.newer.now }
        requires older_ascending { IsAscending self.old.older.now }
        requires new_key { new_key ≡ key_at self.old.newer.now 0 }
        requires old_key { old_key ≡ key_at self.old.older.now 0 }

        // The entry is the winner at its key, and at every other key the winner stays.
        ensures taken { (key : ℕ) → winner_at self.old.newer.now self.old.older.now key ≡
            (if result.key == key then Some result
            else winner_at self.new.newer.now self.new.older.now key) }

        // Up to its key nothing is left.
        ensures least { (key : ℕ) → key ≤ result.key →
            winner_at self.new.newer.now self.new.older.now key ≡ None }

        // The lists with the lesser key lose their next entry, and that is one of them at least.
        ensures newer_left { self.new.newer.now ≡
            drop (from_bool (nat_le new_key old_key)) self.old.newer.now }
        ensures older_left { self.new.older.now ≡
            drop (from_bool (nat_le old_key new_key)) self.old.older.now }
        ensures shorter { length self.new.newer.now + length self.new.older.now <
            length self.old.newer.now + length self.old.older.now }
    {
        // The lists move by the answers: of branches on them half were mispredicted. The second
        // compares in the order of the first, since of the other order the compiler makes branches.
        let (new, old) = (&self.newer[0], &self.older[0]);
        let takes_new = new_key <= old_key;
        let takes_old = !(new_key < old_key);
        self.newer = &self.newer[usize::from(takes_new)..];
        self.older = &self.older[usize::from(takes_old)..];
        if takes_new { *new } else { *old }
    }

    /// Takes the winner of the least key off the fronts of the lists, or none where both are empty.
    ///
    /// Where both lists have that key, the older entry goes with it.
    pub fn take_least(&mut self) -> Option<Entry>
        requires newer_ascending { IsAscending self.old.newer.now }
        requires older_ascending { IsAscending self.old.older.now }
        ensures newer_ascending { IsAscending self.new.newer.now }
        ensures older_ascending { IsAscending self.new.older.now }

        // The entry is the winner at its key, and at every other key the winner stays.
        ensures taken { IfSome result (λ entry. (key : ℕ) →
            winner_at self.old.newer.now self.old.older.now key ≡
            (if entry.key == key then Some entry
            else winner_at self.new.newer.now self.new.older.now key)) }

        // Up to its key nothing is left.
        ensures least { IfSome result (λ entry. (key : ℕ) → key ≤ entry.key →
            winner_at self.new.newer.now self.new.older.now key ≡ None) }
        ensures none { IfNone result
            ((key : ℕ) → winner_at self.old.newer.now self.old.older.now key ≡ None) }

        // The lists get shorter, so a merge ends, and its room suffices.
        ensures shorter { IfSome result (λ _.
            length self.new.newer.now + length self.new.older.now <
            length self.old.newer.now + length self.old.older.now) }
    {
        match (self.newer.split_first(), self.older.split_first()) {
            (Some((new, _)), Some((old, _))) => Some(self.take_lesser(new.key, old.key)),
            (Some((new, newer)), None) => {
                self.newer = newer;
                Some(*new)
            }
            (None, Some((old, older))) => {
                self.older = older;
                Some(*old)
            }
            (None, None) => None,
        }
    }
}

impl Heads<'_> {
    /// Takes the winner of the lesser of the next keys, where each list has an entry behind it.
    #[inline(always)]
    pub fn take_lesser(&mut self) -> Entry
        requires newer_left { 1 < length self.old.remaining.newer.now }
        requires older_left { 1 < length self.old.remaining.older.now }
        requires newer_ascending { IsAscending self.old.remaining.newer.now }
        requires older_ascending { IsAscending self.old.remaining.older.now }
        requires new_key { self.old.new_key ≡ key_at self.old.remaining.newer.now 0 }
        requires old_key { self.old.old_key ≡ key_at self.old.remaining.older.now 0 }
        ensures newer_ascending { IsAscending self.new.remaining.newer.now }
        ensures older_ascending { IsAscending self.new.remaining.older.now }
        ensures new_key { self.new.new_key ≡ key_at self.new.remaining.newer.now 0 }
        ensures old_key { self.new.old_key ≡ key_at self.new.remaining.older.now 0 }

        // The entry is the winner at its key, and at every other key the winner stays.
        ensures taken { (key : ℕ) →
            winner_at self.old.remaining.newer.now self.old.remaining.older.now key ≡
            (if result.key == key then Some result
            else winner_at self.new.remaining.newer.now self.new.remaining.older.now key) }

        // Up to its key nothing is left.
        ensures least { (key : ℕ) → key ≤ result.key →
            winner_at self.new.remaining.newer.now self.new.remaining.older.now key ≡ None }

        // Each list loses one entry at most, and one of them does.
        ensures newer_length { length self.old.remaining.newer.now ≤
            length self.new.remaining.newer.now + 1 }
        ensures older_length { length self.old.remaining.older.now ≤
            length self.new.remaining.older.now + 1 }
        ensures shorter { length self.new.remaining.newer.now + length self.new.remaining.older.now
            < length self.old.remaining.newer.now + length self.old.remaining.older.now }
    {
        // A step ahead, so that no comparison waits for a load of its own step.
        let (next_new, next_old) = (self.remaining.newer[1].key, self.remaining.older[1].key);
        let (new_key, old_key) = (self.new_key, self.old_key);
        let least = self.remaining.take_lesser(new_key, old_key);

        // By the same two comparisons, since by others the compiler makes branches.
        self.new_key = if new_key <= old_key {
            next_new
        } else {
            new_key
        };
        self.old_key = if new_key < old_key { old_key } else { next_old };
        least
    }
}
