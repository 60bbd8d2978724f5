// A stretch of numbers in which a map has no key.
ghost use Rattle.std.specs.Prelude.{◌≡◌, ◌≢◌, ◌⊎◌, ◌<◌, ◌≤◌, ℕ, List, None, IfSome};
ghost use Rattle.tombstones.specs.declared.entry.Entry.{Entry};
ghost use Rattle.log_levels.specs.Shapes.{IsCutOf};
ghost use Rattle.map_level.specs.Levels.{last_at};
ghost use Rattle.log_levels.specs.Kept.{IsIn, ahead, value_of};

use crate::log_map::LogMap;
use tombstones::Entry;

/// So many numbers from `first` on, where 0 comes behind 2^64 - 1.
///
/// A map remembers one such stretch, in which it has no key. A search that begins in it goes on
/// behind it, and so doesn't pass the deletions there one by one. Where keys are taken from both
/// ends, the numbers above the greatest and those below the least are one stretch.
#[derive(Clone, Copy)]
pub struct Bare {
    first: u64,
    count: u64,
}

/// How many steps up it takes from a number to another, where 0 comes behind 2^64 - 1.
fn steps(from: u64, to: u64) -> u64
    ensures { result ≡ ahead from to }
{
    to.wrapping_sub(from)
}

impl Bare {
    /// No numbers.
    pub fn none() -> Bare
        ensures { (key : ℕ) → IsIn result key → ⊥ }
    {
        Bare { first: 0, count: 0 }
    }

    /// The numbers from `low` to `high`, both included; all but one where that is every number.
    fn between(low: u64, high: u64) -> Bare
        requires { low ≤ high }
        ensures { (key : ℕ) → IsIn result key → (low ≤ key) × (key ≤ high) }
    {
        Bare {
            first: low,
            count: (high - low).saturating_add(1),
        }
    }

    /// Where a search for the numbers from `from` on begins.
    pub fn behind(self, from: u64) -> u64
        ensures above { from ≤ result }
        ensures bare { (key : ℕ) → from ≤ key → key < result → IsIn self key }
    {
        from.saturating_add(self.count.saturating_sub(steps(self.first, from)))
    }

    /// Where a search for the numbers up to `to` begins.
    pub fn before(self, to: u64) -> u64
        ensures below { result ≤ to }
        ensures bare { (key : ℕ) → result < key → key ≤ to → IsIn self key }
    {
        let before = steps(self.first, to);
        if before < self.count {
            to.saturating_sub(before + 1)
        } else {
            to
        }
    }

    /// Both this stretch and that from `low` to `high`, where they touch, and else the longer one.
    pub fn with(self, low: u64, high: u64) -> Bare
        ensures { (key : ℕ) → IsIn result key → IsIn self key ⊎ ((low ≤ key) × (key ≤ high)) }
    {
        if low > high {
            return self;
        }
        let other = Bare::between(low, high);
        if let Some(both) = self.joined(other) {
            return both;
        }
        if let Some(both) = other.joined(self) {
            return both;
        }
        if self.count < other.count {
            other
        } else {
            self
        }
    }

    /// Both stretches as one, where the other begins in this one or right behind it.
    fn joined(self, other: Bare) -> Option<Bare>
        ensures { IfSome result (λ both. (key : ℕ) → IsIn both key →
            IsIn self key ⊎ IsIn other key) }
    {
        let before = steps(self.first, other.first);
        if before > self.count {
            return None;
        }
        Some(Bare {
            first: self.first,
            count: self.count.max(before.saturating_add(other.count)),
        })
    }

    /// The stretch without the keys that entries put.
    pub fn without_puts(self, entries: &[Entry]) -> Bare
        ensures { (key : ℕ) → IsIn result key →
            IsIn self key × (value_of (last_at entries.now key) ≡ None) }
    {
        let mut bare = self;
        for entry in entries {
            bare = bare.without_put(*entry);
        }
        bare
    }

    /// The stretch without the key that an entry puts, if it puts one.
    fn without_put(self, entry: Entry) -> Bare
        ensures { (key : ℕ) → IsIn result key →
            IsIn self key × ((entry.value ≡ None) ⊎ (key ≢ entry.key)) }
    {
        match entry.value {
            Some(_) => self.without(entry.key),
            None => self,
        }
    }

    /// The stretch without a key: the longer one of the parts on either side.
    fn without(self, key: u64) -> Bare
        ensures { (other : ℕ) → IsIn result other → IsIn self other × (other ≢ key) }
    {
        let before = steps(self.first, key);
        if before >= self.count {
            return self;
        }
        let behind = self.count - before - 1;
        if before < behind {
            Bare {
                first: key.wrapping_add(1),
                count: behind,
            }
        } else {
            Bare {
                first: self.first,
                count: before,
            }
        }
    }
}

impl LogMap {
    /// Remembers that the map has no key from `low` to `high`.
    pub(crate) fn leave_bare(&mut self, low: u64, high: u64)
        requires { (entries : List Entry) (key : ℕ) → IsCutOf self.old entries → low ≤ key →
            key ≤ high → value_of (last_at entries key) ≡ None }
        ensures { self.new ≡ self.old }
    {
        self.bare = self.bare.with(low, high);
    }
}
