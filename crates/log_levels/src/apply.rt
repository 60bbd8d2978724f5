// Many updates at once.
ghost use Rattle.std.specs.Prelude.{◌≡◌, ◌+◌, ◌<◌, ◌≤◌, ◌++◌, ℕ, List};
ghost use Rattle.std.specs.Prelude.{length, map, take, slice_index_or};
ghost use Rattle.std.specs.Prelude.{All, IfOk, OnOk, Err, IsTrue};
ghost use Rattle.log_levels.specs.declared.update.Update.{Update};
ghost use Rattle.log_levels.specs.declared.fault.MapFault.TheVariants.{Full};
ghost use Rattle.tombstones.specs.Entries.{IsAscending};
ghost use Rattle.log_levels.specs.Accepted.{IsPlain, entries_of};
ghost use Rattle.log_levels.specs.Refusals.{AreApplied, Refuses};
ghost use Rattle.levels.specs.Indexes.{IsIndexOf};
ghost use Rattle.map_level.specs.Builders.{IsMergeOf};
ghost use Rattle.log_levels.specs.Kept.{IsFull, plain_entry};
ghost use Rattle.log_levels.specs.Shapes.{StandsFor, capacity_of};

use crate::fault::MapFault;
use crate::log_map::LogMap;
use crate::update::Update;
use budget::NoMemory;
use edge::Gate;
use levels::Keys;
use map_level::{Builder, Built, ByWorkers, Here, Merged, index_in_pieces};
use options::{EPS, EPS_REC, Workers};
use std::alloc::Global;
use std::thread::Threads;
use tombstones::{Entry, merge_in_pieces};

impl LogMap {
    /// Applies updates in order, all or none, on the calling thread.
    ///
    /// The map is the one that [`LogMap::apply`] makes.
    ///
    /// # Errors
    ///
    /// As of [`LogMap::apply`].
    pub fn apply_here(&mut self, alloc: Global, updates: &[Update]) -> Result<(), MapFault>
        ensures { AreApplied self.old self.new updates.now result }
    {
        *self = self.with_updates(&Here { alloc }, alloc, updates)?;
        Ok(())
    }

    /// Applies updates in order, all or none.
    ///
    /// They are applied to a copy, which shares the levels, and the map is replaced at the end. So
    /// many updates without a sweep between them are merged into the levels at once.
    ///
    /// The levels are made by workers: long lists are merged in parts, and each level's index is
    /// built in pieces. The gate is passed at `PieceBegun` before each piece of an index and at
    /// `PieceDone` after it, with the piece's number in that index. Worker threads are joined
    /// before the call returns, which it does only if the gate does; where one can't be started the
    /// caller does its work. The map is the same for all numbers of workers and gates.
    ///
    /// # Errors
    ///
    /// - `Full` where the map can't accept as many entries. It is judged first, where no update is
    ///   a sweep.
    /// - `NoMemory` where memory wasn't found.
    ///
    /// After either the map is as it was.
    pub fn apply<R: Threads + Sync, G: Gate>(
        &mut self,
        rt: &R,
        alloc: Global,
        updates: &[Update],
        workers: Workers,
        gate: &G,
    ) -> Result<(), MapFault>
        ensures { AreApplied self.old self.new updates.now result }
    {
        *self = self.applied(rt, alloc, updates, workers, gate)?;
        Ok(())
    }

    /// The map that [`LogMap::apply`] makes of this one, which stays as it is: they share levels.
    ///
    /// # Errors
    ///
    /// As of [`LogMap::apply`].
    pub fn applied<R: Threads + Sync, G: Gate>(
        &self,
        rt: &R,
        alloc: Global,
        updates: &[Update],
        workers: Workers,
        gate: &G,
    ) -> Result<LogMap, MapFault>
        ensures applied { IfOk result (λ map. (before : List Update) →
            StandsFor self.now before → StandsFor map (before ++ updates.now)) }
        ensures refused { Refuses self.now updates.now result }
        ensures levels { IfOk result (λ map. length map.levels ≡ length self.now.levels) }
    {
        let merge = |newer: &[Entry], older: &[Entry], deepest: bool| -> Merged
            requires newer_ascending { IsAscending newer.now }
            requires older_ascending { IsAscending older.now }
            ensures { IsMergeOf newer.now older.now deepest result }
        { merge_in_pieces(rt, alloc, newer, older, deepest, workers) };
        let index = |keys: Keys| -> Built
            ensures { IfOk result (IsIndexOf keys EPS EPS_REC) }
        { index_in_pieces(rt, alloc, keys, workers, gate) };
        let builder = ByWorkers { merge, index };
        self.with_updates(&builder, alloc, updates)
    }

    /// The map with updates.
    fn with_updates<B: Builder>(
        &self,
        builder: &B,
        alloc: Global,
        updates: &[Update],
    ) -> Result<LogMap, MapFault>
        requires { B.ready builder.now }
        ensures applied { IfOk result (λ map. (before : List Update) →
            StandsFor self.now before → StandsFor map (before ++ updates.now)) }
        ensures levels { IfOk result (λ map. length map.levels ≡ length self.now.levels) }
        ensures refused { Refuses self.now updates.now result }
    {
        let accepted = self.accepted();
        let room = self.capacity() - accepted;
        if are_too_many(updates, room) {
            return Err(MapFault::Full { accepted });
        }
        let mut map = self.copy(alloc)?;
        let mut done = 0;
        while done < updates.len() {
            match map.add_run(builder, alloc, &updates[done..]) {
                Ok(count) => done += count,
                Err(fault) => return Err(behind(fault, accepted)),
            }
        }
        Ok(map)
    }

    /// Applies the first updates of a list, a sweep or some without one, and gives how many they
    /// were.
    fn add_run<B: Builder>(
        &mut self,
        builder: &B,
        alloc: Global,
        updates: &[Update],
    ) -> Result<usize, MapFault>
        requires ready { B.ready builder.now }
        requires some { 0 < length updates.now }
        ensures some { IfOk result (λ count. 0 < count) }
        ensures within { IfOk result (λ count. count ≤ length updates.now) }
        ensures added { IfOk result (λ count. (before : List Update) →
            StandsFor self.old before → StandsFor self.new (before ++ take count updates.now)) }
        ensures full_only { (accepted : ℕ) → result ≡ Err (Full accepted) →
            (before : List Update) → StandsFor self.old before →
            capacity_of self.old < length (entries_of (before ++ updates.now)) }
        ensures levels { length self.new.levels ≡ length self.old.levels }
    {
        if let Update::Sweep(low, high) = updates[0] {
            return match self.sweep_by(builder, alloc, low, high) {
                Ok(_) => Ok(1),
                Err(fault) => Err(fault),
            };
        }
        let count = plain_len(updates);
        match self.add_plain(builder, alloc, &updates[..count]) {
            Ok(()) => Ok(count),
            Err(fault) => Err(fault),
        }
    }

    /// Applies updates without a sweep.
    fn add_plain<B: Builder>(
        &mut self,
        builder: &B,
        alloc: Global,
        updates: &[Update],
    ) -> Result<(), MapFault>
        requires ready { B.ready builder.now }
        requires plain { All IsPlain updates.now }
        ensures added { OnOk result ((before : List Update) → StandsFor self.old before →
            StandsFor self.new (before ++ updates.now)) }
        ensures full_only { (accepted : ℕ) → result ≡ Err (Full accepted) →
            capacity_of self.old < self.old.accepted + length updates.now }
        ensures levels { length self.new.levels ≡ length self.old.levels }
    {
        let accepted = self.accepted();
        if updates.len() as u64 > self.capacity() - accepted {
            return Err(MapFault::Full { accepted });
        }
        let entries = plain_entries(alloc, updates)?;
        self.append(builder, alloc, &entries)?;
        Ok(())
    }
}

/// Whether no update is a sweep, and they are more than `room`.
fn are_too_many(updates: &[Update], room: u64) -> bool
    ensures only { IsTrue result → (room < length updates.now) × All IsPlain updates.now }
    ensures wherever { All IsPlain updates.now → room < length updates.now → IsTrue result }
{
    if updates.len() as u64 <= room {
        return false;
    }
    plain_len(updates) == updates.len()
}

/// The entries of updates without a sweep.
fn plain_entries(alloc: Global, updates: &[Update]) -> Result<Vec<Entry>, NoMemory>
    requires { All IsPlain updates.now }
    ensures { IfOk result (λ entries. entries.items ≡ map plain_entry updates.now) }
{
    let mut entries = Vec::with_capacity(alloc, updates.len())?;
    for update in updates {
        entries.push(plain_entry(*update))?;
    }
    Ok(entries)
}

/// The entry of an update; of a sweep, one that nobody asks for.
fn plain_entry(update: Update) -> Entry
    ensures { result ≡ plain_entry update }
{
    match update {
        Update::Put(key, value) => Entry {
            key,
            value: Some(value),
        },
        Update::Del(key) | Update::Sweep(key, _) => Entry { key, value: None },
    }
}

/// How many updates there are before the first sweep.
fn plain_len(updates: &[Update]) -> usize
    ensures within { result ≤ length updates.now }
    ensures plain { All IsPlain (take result updates.now) }
    ensures sweep { (d : Update) → result < length updates.now →
        IsPlain (slice_index_or updates.now result d) → ⊥ }
{
    for (i, update) in updates.iter().enumerate() {
        if matches!(update, Update::Sweep(_, _)) {
            return i;
        }
    }
    updates.len()
}

/// The fault, with how many entries were accepted before.
fn behind(fault: MapFault, accepted: u64) -> MapFault
    ensures full { (other : ℕ) → result ≡ Full other →
        (other ≡ accepted) × IsFull fault }
{
    match fault {
        MapFault::Full { .. } => MapFault::Full { accepted },
        MapFault::NoMemory => MapFault::NoMemory,
    }
}
