// The least and the greatest pair of a map, and taking them out.
ghost use Rattle.std.specs.Prelude.{◌≡◌, ◌↔◌, ◌++◌, [], List, None, Ok, IsTrue, IfOk, OnErr};
ghost use Rattle.std.specs.Prelude.{is_some, drop};
ghost use Rattle.log_levels.specs.declared.update.Update.{Update};
ghost use Rattle.log_levels.specs.Accepted.{taking};
ghost use Rattle.log_levels.specs.Maps.{map_after, value_at, first_of, last_of};
ghost use Rattle.log_levels.specs.Refusals.{AreApplied};
ghost use Rattle.log_levels.specs.Shapes.{StandsFor};

use crate::fault::MapFault;
use crate::log_map::LogMap;
use std::alloc::Global;

impl LogMap {
    /// Whether the map has a key: whether [`LogMap::get`] gives a value. Takes no memory.
    pub fn contains(&self, key: u64) -> bool
        ensures { (updates : List Update) → StandsFor self.now updates →
            result ≡ is_some (value_at (map_after updates) key) }
    {
        self.get(key).is_some()
    }

    /// Whether the map has no key. As long as [`LogMap::first`]. Takes no memory.
    pub fn is_empty(&self) -> bool
        ensures { (updates : List Update) → StandsFor self.now updates →
            IsTrue result ↔ (map_after updates ≡ []) }
    {
        self.first().is_none()
    }

    /// The least key of the map with its value, if there is one: [`LogMap::next`] from 0 on. Takes
    /// no memory.
    pub fn first(&self) -> Option<(u64, u64)>
        ensures { (updates : List Update) → StandsFor self.now updates →
            result ≡ first_of (map_after updates) }
    {
        self.next(0)
    }

    /// The greatest key of the map with its value, if there is one: [`LogMap::previous`] from
    /// 2^64 - 1 on. Takes no memory.
    pub fn last(&self) -> Option<(u64, u64)>
        ensures { (updates : List Update) → StandsFor self.now updates →
            result ≡ last_of (map_after updates) }
    {
        self.previous(u64::MAX)
    }

    /// Takes the least key out of the map, and gives it with its value. It is an entry, a deletion;
    /// none where the map has no key, which is as it was then.
    ///
    /// # Errors
    ///
    /// As at [`LogMap::put`], where the map has a key. After either the map is as it was.
    pub fn pop_first(&mut self, alloc: Global) -> Result<Option<(u64, u64)>, MapFault>
        ensures first { IfOk result (λ first. (updates : List Update) →
            StandsFor self.old updates → first ≡ first_of (map_after updates)) }
        ensures none { (updates : List Update) → StandsFor self.old updates →
            first_of (map_after updates) ≡ None → result ≡ Ok None }
        ensures unchanged_none { IfOk result (λ first. first ≡ None → self.new ≡ self.old) }
        ensures unchanged { OnErr result (self.new ≡ self.old) }
        ensures taken { (updates : List Update) → StandsFor self.old updates →
            AreApplied self.old self.new (taking (first_of (map_after updates))) result }
        ensures rest { (updates : List Update) →
            map_after (updates ++ taking (first_of (map_after updates)))
            ≡ drop 1 (map_after updates) }
    {
        let _ = self.accepted();
        let Some((key, value)) = self.first() else {
            return Ok(None);
        };
        match self.del(alloc, key) {
            Ok(()) => {
                self.leave_bare(0, key);
                Ok(Some((key, value)))
            }
            Err(fault) => Err(fault),
        }
    }

    /// Takes the greatest key out of the map, and gives it with its value. It is an entry, a
    /// deletion; none where the map has no key, which is as it was then.
    ///
    /// # Errors
    ///
    /// As at [`LogMap::put`], where the map has a key. After either the map is as it was.
    pub fn pop_last(&mut self, alloc: Global) -> Result<Option<(u64, u64)>, MapFault>
        ensures last { IfOk result (λ last. (updates : List Update) →
            StandsFor self.old updates → last ≡ last_of (map_after updates)) }
        ensures none { (updates : List Update) → StandsFor self.old updates →
            last_of (map_after updates) ≡ None → result ≡ Ok None }
        ensures unchanged_none { IfOk result (λ last. last ≡ None → self.new ≡ self.old) }
        ensures unchanged { OnErr result (self.new ≡ self.old) }
        ensures taken { (updates : List Update) → StandsFor self.old updates →
            AreApplied self.old self.new (taking (last_of (map_after updates))) result }
    {
        let _ = self.accepted();
        let Some((key, value)) = self.last() else {
            return Ok(None);
        };
        match self.del(alloc, key) {
            Ok(()) => {
                self.leave_bare(key, u64::MAX);
                Ok(Some((key, value)))
            }
            Err(fault) => Err(fault),
        }
    }
}
