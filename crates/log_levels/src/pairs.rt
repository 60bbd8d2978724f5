// The pairs of a range, gone over from both ends.
ghost use Rattle.std.specs.Prelude.{◌≡◌, ◌-◌, List, length, take, drop};
ghost use Rattle.log_levels.specs.declared.update.Update.{Update};
ghost use Rattle.log_levels.specs.Maps.{map_after, first_of, last_of, pairs_between};
ghost use Rattle.log_levels.specs.Shapes.{StandsFor, pairs_left};

use crate::log_map::LogMap;
use crate::walk::{Places, Walk};
use std::marker::Model;

/// What is left of the pairs of a range. Seen as the map, which is borrowed, with the least and the
/// greatest key that can be left; where the least is above the greatest, nothing is.
///
/// Unless nothing is left:
///
/// 1. The walk has passed what is below the least key.
/// 2. In each level as many keys as the place says are up to the greatest one.
#[derive(Drop)]
pub struct Pairs<'a> {
    map: &'a LogMap,
    walk: Walk,
    low: u128,
    places: Places,
    high: u64,
}

impl<'a> Model for Pairs<'a> {
    ghost use Rattle.log_levels.specs.Shapes.{Left};

    ghost Value = { Left };

    ghost use Rattle.log_levels.specs.Kept.{AreEnds};

    ghost view = { λ pairs. record { map = pairs.map.now; low = pairs.low; high = pairs.high } };

    ghost invariant = { λ pairs.
        AreEnds pairs.map.now pairs.walk pairs.low pairs.places pairs.high };
}

impl LogMap {
    /// The pairs of key and value from `low` to `high`, both included, to be gone over from both
    /// ends; none where `low` is above `high`.
    ///
    /// Each level is searched twice, by its grid or its index: for the least key of the range and
    /// for the greatest. Takes no memory.
    pub fn pairs(&self, low: u64, high: u64) -> Pairs<'_>
        ensures map { result.map ≡ self.now }
        ensures left { (updates : List Update) → StandsFor self.now updates →
            pairs_left result updates ≡ pairs_between (map_after updates) low high }
    {
        let low = self.bare.behind(low);
        let high = self.bare.before(high);
        Pairs {
            map: self,
            walk: self.walk(low),
            low: u128::from(low),
            places: self.places_behind(high),
            high,
        }
    }
}

impl<'a> Pairs<'a> {
    /// The pair with the least key that is left, which is left no more; none where nothing is left.
    ///
    /// The levels are gone along key by key, past keys that were deleted, as by
    /// [`LogMap::next`]; the last call goes on to a key behind the range. Takes no memory.
    pub fn next(&mut self) -> Option<(u64, u64)>
        ensures map { self.new.map ≡ self.old.map }
        ensures first { (updates : List Update) → StandsFor self.old.map updates →
            result ≡ first_of (pairs_left self.old updates) }
        ensures left { (updates : List Update) → StandsFor self.old.map updates →
            pairs_left self.new updates ≡ drop 1 (pairs_left self.old updates) }
    {
        let end = u128::from(self.high) + 1;
        if end <= self.low {
            return None;
        }
        let Some((key, value)) = self.map.next_pair(&mut self.walk, self.low) else {
            self.low = end;
            return None;
        };
        if self.high < key {
            self.low = end;
            return None;
        }
        self.low = u128::from(key) + 1;
        Some((key, value))
    }

    /// The pair with the greatest key that is left, which is left no more; none where nothing is
    /// left.
    ///
    /// The levels are gone back along key by key, past keys that were deleted, as by
    /// [`LogMap::previous`], but no further than the first key before the range. Takes no memory.
    pub fn next_back(&mut self) -> Option<(u64, u64)>
        ensures map { self.new.map ≡ self.old.map }
        ensures last { (updates : List Update) → StandsFor self.old.map updates →
            result ≡ last_of (pairs_left self.old updates) }
        ensures left { (updates : List Update) → StandsFor self.old.map updates →
            pairs_left self.new updates ≡
            (let pairs = pairs_left self.old updates in take (length pairs - 1) pairs) }
    {
        let end = u128::from(self.high) + 1;
        if end <= self.low {
            return None;
        }
        let Some((key, value)) = self.map.previous_pair(&mut self.places, self.low, end) else {
            self.low = end;
            return None;
        };
        if u128::from(key) == self.low {
            self.low = end;
            return Some((key, value));
        }
        self.high = key - 1;
        Some((key, value))
    }
}
