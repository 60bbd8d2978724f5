// Readers, looks and notes. None of their calls waits or takes memory.
ghost use Rattle.std.specs.Prelude.{◌≡◌, ◌↔◌, ◌≤◌, ◌++◌, [], Some, OnOk, OnErr, IsTrue, is_some};
ghost use Rattle.std.specs.Prelude.{length, map, take, drop, min};
ghost use mathlib.Core.List.{IsPrefix};
ghost use Rattle.edge.specs.Risen.{HasRisen};
ghost use Rattle.log_levels.specs.Maps.{map_after, value_at, next_from, count_between};
ghost use Rattle.log_levels.specs.Maps.{previous_to, pairs_between, first_of, last_of};
ghost use Rattle.left_right.specs.Sides.{view};
ghost use Rattle.published.specs.Histories.{Front, IsLookOf, updates_of, count_of, longer_of};

use crate::copies::{OnlyGrows, Place, Sees};
use crate::door::Door;
use crate::history::Prefix;
use crate::version::Version;
use left_right::reader::Reading;
use std::marker::Model;

/// A reader that isn't looking, seen as the longest prefix of the history that it saw or learned.
#[derive(Drop)]
pub struct Reader {
    place: Place,
    known: Prefix,
    /// Whether that was learned, and is longer than what was seen.
    learned: bool,
}

impl Model for Reader {
    ghost use Rattle.left_right.specs.Sides.{view as view_of};
    ghost use Rattle.published.specs.Histories.{Front};
    ghost use Rattle.published.specs.Rules.{Knows};

    ghost Value = { Front };

    ghost view = { λ r. r.known };

    ghost invariant = { λ r. Knows (view_of r.place.place) r.known r.learned };
}

/// A look at the map, seen as the prefix of the history that it shows. The writer waits for it, as
/// long as it is kept. A look that is dropped gives up its reader.
pub struct Look {
    reading: Reading<Version, Option<Prefix>, OnlyGrows>,
}

impl Model for Look {
    ghost use Rattle.std.specs.Prelude.{◌≡◌, Some};
    ghost use Rattle.left_right.specs.Sides.{view as view_of};
    ghost use Rattle.published.specs.Histories.{Front};

    ghost Value = { Front };

    ghost view = { λ l. l.reading.part.value };

    ghost invariant = { λ l. view_of l.reading.place ≡ Some l.reading.part.value };
}

/// What was published when the writer told it, seen as that history. It takes 8 bytes.
#[derive(Drop)]
pub struct Note {
    told: Prefix,
}

impl Model for Note {
    ghost use Rattle.published.specs.Histories.{Front};

    ghost Value = { Front };

    ghost view = { λ n. n.told };
}

impl Note {
    /// A note of this history.
    pub(crate) fn of(told: Prefix) -> Note
        ensures { result ≡ told }
    {
        // Event: tell.
        Note { told }
    }

    /// The published length: how many updates.
    pub fn length(&self) -> u64
        ensures { result ≡ count_of self.now.batches }
    {
        self.told.len()
    }
}

impl Reader {
    /// A reader that has seen this much, as its place knows.
    pub(crate) fn at(place: Place, seen: Prefix) -> Reader
        requires { view place.place ≡ Some seen }
        ensures { result ≡ seen }
    {
        Reader {
            place,
            known: seen,
            learned: false,
        }
    }

    /// Takes in a note, which is used up. What was seen is the longer of the two then, and begins
    /// with both.
    pub fn learn(&mut self, note: Note)
        requires own { note.origin ≡ self.old.origin }
        ensures longer { self.new.batches ≡ longer_of self.old.batches note.batches }
        ensures seen { IsPrefix self.old.batches self.new.batches }
        ensures told { IsPrefix note.batches self.new.batches }
        ensures own { self.new.origin ≡ self.old.origin }
    {
        // Event: learn.
        if self.known.len() < note.told.len() {
            self.learned = true;
        }
        self.known = self.known.longer(&note.told);
    }

    /// The length of what was seen: how many updates.
    pub fn seen(&self) -> u64
        ensures { result ≡ count_of self.now.batches }
    {
        self.known.len()
    }

    /// Looks at the map, and counts in `refusals` a look that is refused. The count stays at its
    /// last value.
    ///
    /// The look shows a prefix of the history that ends a batch and begins with all that this
    /// reader saw and learned. It stays the same until the reader leaves. What the reader saw is
    /// shown by the rule of the copies. What it learned is compared, since a note is no part of
    /// them.
    ///
    /// # Errors
    ///
    /// The reader as it was, only where the count rose in this call, or stands at its last value.
    /// That comes once the writer is closed.
    pub fn look(self, refusals: &mut u64) -> Result<Look, Reader>
        ensures look { IsLookOf self result }
        ensures never_falls { refusals.old ≤ refusals.new }
        ensures passed { OnOk result (refusals.new ≡ refusals.old) }
        ensures refused { OnErr result (HasRisen refusals.old refusals.new) }
    {
        let Reader {
            place,
            known,
            learned,
        } = self;
        // Event: look. The version is the one that is shown at this step.
        let place = match place.enter_as::<Sees>() {
            Ok(reading) => {
                if !learned || reading.get().prefix().begins_with(&known) {
                    return Ok(Look { reading });
                }
                // Never comes: a note is told once its version is shown.
                reading.leave()
            }
            Err(place) => place,
        };
        *refusals = refusals.saturating_add(1);
        Err(Reader {
            place,
            known,
            learned,
        })
    }

    /// Looks at the map through a door.
    ///
    /// The look is as that of [`Reader::look`].
    ///
    /// # Errors
    ///
    /// The reader as it was, only where the door's count of refusals rose in this call, or stands
    /// at its last value.
    pub fn look_through<D: Door>(self, door: &mut D) -> Result<Look, Reader>
        ensures look { IsLookOf self result }
        ensures call { D.enters door.old result door.new }
        ensures passed { OnOk result (D.refused door.new ≡ D.refused door.old) }
        ensures refused { OnErr result (HasRisen (D.refused door.old) (D.refused door.new)) }
    {
        door.enter(self)
    }
}

impl Look {
    /// The length of what the look shows: how many updates.
    pub fn seen(&self) -> u64
        ensures { result ≡ count_of self.now.batches }
    {
        self.reading.get().prefix().len()
    }

    /// The value of a key, if the map has the key.
    pub fn get(&self, key: u64) -> Option<u64>
        ensures { result ≡ value_at (map_after (updates_of self.now.batches)) key }
    {
        self.reading.get().get(key)
    }

    /// Writes the value at each key, if the map has the key, at its place, as [`Look::get`] for
    /// each does. The levels are searched for 32 keys side by side.
    pub fn get_many(&self, keys: &[u64], values: &mut [Option<u64>])
        requires { length values.old ≡ length keys.now }
        ensures { values.new ≡
            map (value_at (map_after (updates_of self.now.batches))) keys.now }
    {
        self.reading.get().get_many(keys, values);
    }

    /// The least key not below `q` with its value, if there is one.
    pub fn next(&self, q: u64) -> Option<(u64, u64)>
        ensures { result ≡ next_from (map_after (updates_of self.now.batches)) q }
    {
        self.reading.get().next(q)
    }

    /// The greatest key not above `q` with its value, if there is one.
    pub fn previous(&self, q: u64) -> Option<(u64, u64)>
        ensures { result ≡ previous_to (map_after (updates_of self.now.batches)) q }
    {
        self.reading.get().previous(q)
    }

    /// Whether it has a key.
    pub fn contains(&self, key: u64) -> bool
        ensures { result ≡
            is_some (value_at (map_after (updates_of self.now.batches)) key) }
    {
        self.reading.get().contains(key)
    }

    /// Whether it has no key.
    pub fn is_empty(&self) -> bool
        ensures { IsTrue result ↔ (map_after (updates_of self.now.batches) ≡ []) }
    {
        self.reading.get().is_empty()
    }

    /// The least key with its value, if there is one.
    pub fn first(&self) -> Option<(u64, u64)>
        ensures { result ≡ first_of (map_after (updates_of self.now.batches)) }
    {
        self.reading.get().first()
    }

    /// The greatest key with its value, if there is one.
    pub fn last(&self) -> Option<(u64, u64)>
        ensures { result ≡ last_of (map_after (updates_of self.now.batches)) }
    {
        self.reading.get().last()
    }

    /// Writes the first pairs of key and value from `from` to `to`, both included, by rising key,
    /// as many as there is room for, and gives how many. What lies behind them in the room stays as
    /// it was. Where the room was filled, the rest comes from the last key plus 1 on, unless that
    /// key is `to`.
    pub fn range(&self, from: u64, to: u64, pairs: &mut [(u64, u64)]) -> usize
        ensures count { result ≡ min (length pairs.old)
            (count_between (map_after (updates_of self.now.batches)) from to) }
        ensures pairs { pairs.new ≡
            take result (pairs_between (map_after (updates_of self.now.batches)) from to)
            ++ drop result pairs.old }
    {
        self.reading.get().range(from, to, pairs)
    }

    /// How many keys there are from `a` to `b`, both included.
    pub fn count(&self, a: u64, b: u64) -> u64
        ensures { result ≡ count_between (map_after (updates_of self.now.batches)) a b }
    {
        self.reading.get().count(a, b)
    }

    /// Ends the look. The reader has seen what it showed.
    pub fn leave(self) -> Reader
        ensures { result ≡ self }
    {
        let Look { reading } = self;
        let seen = reading.get().prefix().again();
        Reader::at(reading.leave(), seen)
    }
}

impl Drop for Look {
    fn drop(self) {
        drop(self.leave());
    }
}
