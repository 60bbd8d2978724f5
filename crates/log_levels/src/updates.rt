// Updates of a map.
ghost use Rattle.std.specs.Prelude.{◌≡◌, ◌<◌, ◌++◌, ◌∷◌, [], List, length, IfOk, Err};
ghost use Rattle.tombstones.specs.declared.entry.Entry.{Entry};
ghost use Rattle.log_levels.specs.declared.update.Update.{Update};
ghost use Rattle.log_levels.specs.declared.update.Update.TheVariants.{Put, Del, Sweep};
ghost use Rattle.log_levels.specs.declared.fault.MapFault.TheVariants.{Full};
ghost use Rattle.log_levels.specs.Shapes.{StandsFor, capacity_of};
ghost use Rattle.log_levels.specs.Maps.{map_after, count_between};
ghost use Rattle.log_levels.specs.Accepted.{IsPlain, entries_of, entries_for};
ghost use Rattle.log_levels.specs.Refusals.{AreApplied};
ghost use Rattle.log_levels.specs.Kept.{plain_entry};

use crate::fault::MapFault;
use crate::log_map::LogMap;
use budget::NoMemory;
use map_level::{Builder, Here};
use std::alloc::Global;
use tombstones::Entry;

impl LogMap {
    /// Puts a value at a key. It is an entry, whatever was at the key.
    ///
    /// Where it is the last entry of a block of 64, the buffer and the levels below the lowest one
    /// that isn't occupied are merged into that one, from the newest on: each entry of level `i` is
    /// moved at most once for each level from it to the new one, so all together at most twice the
    /// new level's size.
    ///
    /// # Errors
    ///
    /// - `Full` where the map has accepted as many entries as it can. It is judged first.
    /// - `NoMemory` where memory wasn't found.
    ///
    /// After either the map is as it was.
    pub fn put(&mut self, alloc: Global, key: u64, value: u64) -> Result<(), MapFault>
        ensures { AreApplied self.old self.new (Put key value ∷ []) result }
    {
        self.add(
            alloc,
            Entry {
                key,
                value: Some(value),
            },
        )
    }

    /// Takes a key out of the map. It is an entry, whether or not the key was there.
    ///
    /// # Errors
    ///
    /// As at [`LogMap::put`].
    pub fn del(&mut self, alloc: Global, key: u64) -> Result<(), MapFault>
        ensures { AreApplied self.old self.new (Del key ∷ []) result }
    {
        self.add(alloc, Entry { key, value: None })
    }

    /// Takes the keys from `low` to `high`, both included, out of the map, and gives how many they
    /// were; none where `low` is above `high`. Each is an entry.
    ///
    /// # Errors
    ///
    /// - `Full` where the map can't accept as many entries. It is judged first.
    /// - `NoMemory` where memory wasn't found.
    ///
    /// After either the map is as it was.
    pub fn sweep(&mut self, alloc: Global, low: u64, high: u64) -> Result<u64, MapFault>
        ensures swept { AreApplied self.old self.new (Sweep low high ∷ []) result }
        ensures count { IfOk result (λ count. (updates : List Update) →
            StandsFor self.old updates → count ≡ count_between (map_after updates) low high) }
        ensures full { (updates : List Update) → StandsFor self.old updates →
            capacity_of self.old < length (entries_of (updates ++ Sweep low high ∷ [])) →
            result ≡ Err (Full self.old.accepted) }
    {
        self.sweep_by(&Here { alloc }, alloc, low, high)
    }

    /// Such a sweep, the levels made by a builder.
    pub(crate) fn sweep_by<B: Builder>(
        &mut self,
        builder: &B,
        alloc: Global,
        low: u64,
        high: u64,
    ) -> Result<u64, MapFault>
        requires { B.ready builder.now }
        ensures swept { AreApplied self.old self.new (Sweep low high ∷ []) result }
        ensures count { IfOk result (λ count. (updates : List Update) →
            StandsFor self.old updates → count ≡ count_between (map_after updates) low high) }
        ensures full { (updates : List Update) → StandsFor self.old updates →
            capacity_of self.old < length (entries_of (updates ++ Sweep low high ∷ [])) →
            result ≡ Err (Full self.old.accepted) }
    {
        let accepted = self.accepted();
        let count = self.count(low, high);
        if count > self.capacity() - accepted {
            return Err(MapFault::Full { accepted });
        }
        let deletions = self.deletions(alloc, low, high, count)?;
        self.append(builder, alloc, &deletions)?;
        self.leave_bare(low, high);
        Ok(count)
    }

    /// A deletion of each key from `low` to `high`, which are so many.
    fn deletions(
        &self,
        alloc: Global,
        low: u64,
        high: u64,
        count: u64,
    ) -> Result<Vec<Entry>, NoMemory>
        ensures { IfOk result (λ deletions. (updates : List Update) →
            StandsFor self.now updates →
            deletions.items ≡ entries_for (map_after updates) (Sweep low high)) }
    {
        let start = self.bare.behind(low);
        let mut walk = self.walk(start);
        let mut from = u128::from(start);
        let mut deletions = Vec::with_capacity(alloc, count as usize)?;
        while let Some((key, _)) = self.next_pair(&mut walk, from) {
            if key > high {
                return Ok(deletions);
            }
            deletions.push(Entry { key, value: None })?;
            from = u128::from(key) + 1;
        }
        Ok(deletions)
    }

    /// Adds an entry, where there is room.
    fn add(&mut self, alloc: Global, entry: Entry) -> Result<(), MapFault>
        ensures { (update : Update) → IsPlain update → entry ≡ plain_entry update →
            AreApplied self.old self.new (update ∷ []) result }
    {
        let accepted = self.accepted();
        if accepted == self.capacity() {
            return Err(MapFault::Full { accepted });
        }
        self.append(&Here { alloc }, alloc, &[entry])?;
        Ok(())
    }
}
