// The writer.
ghost use Rattle.std.specs.Prelude.{◌≡◌, ◌+◌};
ghost use Rattle.std.specs.Prelude.{◌<◌, ◌≤◌};
ghost use Rattle.std.specs.Prelude.{◌++◌, [], length, All, Some};
ghost use Rattle.std.specs.Prelude.{IfOk, OnOk, OnErr, Err, vec_len, vec_capacity};
ghost use Rattle.left_right.specs.Sides.{view};
ghost use Rattle.log_levels.specs.Shapes.{capacity_with};
ghost use Rattle.options.specs.declared.map.TheConstants.{MAX_LEVELS, MAX_READERS};
ghost use Rattle.published.specs.Histories.{count_of, published};
ghost use Rattle.published.specs.Writers.{IsSameMap, Refuses};

use crate::copies::{Copies, give_up, show, told_place, with_room};
use crate::history::{Head, Prefix, open};
use crate::reader::{Note, Reader};
use crate::version::Version;
use budget::NoMemory;
use edge::Gate;
use log_levels::{LogMap, MapFault, Update};
use options::Workers;
use std::alloc::Global;
use std::marker::Model;
use std::mem::replace;
use std::sync::{Arc, Wait};
use std::thread::Threads;

/// The writer of a map, seen as the history that it published and the batch that it holds.
///
/// It can't be dropped: end it by [`Writer::close`].
pub struct Writer {
    /// Out of its place only while a version is being shown.
    copies: Option<Copies>,
    head: Head,
    front: Prefix,
    batch: Vec<Update>,
    /// The map after what is published and the batch.
    map: Arc<LogMap>,
}

impl Model for Writer {
    ghost use Rattle.std.specs.Prelude.{◌≡◌, ◌+◌, ◌<◌, ◌^◌, ◌++◌, IsSome};
    ghost use Rattle.std.specs.Prelude.{vec_len};
    ghost use Rattle.std.specs.Option.{option_map_or};
    ghost use Rattle.std.specs.Arc.{arc_value};
    ghost use Rattle.log_levels.specs.Shapes.{StandsFor, capacity_of};
    ghost use Rattle.published.specs.Books.{head_of};
    ghost use Rattle.published.specs.Histories.{updates_of, count_of};
    ghost use Rattle.published.specs.Writers.{Written};

    ghost Value = { Written };

    ghost view = { λ w. record {
      origin = w.front.origin;
      history = (option_map_or (λ c. c.desk.shown.value) w.copies w.front).batches;
      batch = w.batch.items;
      capacity = capacity_of (arc_value w.map);
    } };

    ghost invariant = { λ w. IsSome w.copies
        × (option_map_or (λ c. c.desk.shown.value) w.copies w.front ≡ w.front)
        × (w.head ≡ head_of w.front.origin)
        × StandsFor (arc_value w.map) (updates_of w.front.batches ++ w.batch.items)
        × (count_of w.front.batches + vec_len w.batch < 2 ^ 64) };
}

/// An empty map: its writer, and its readers, which have seen nothing.
///
/// The map has `levels` levels, 1 to 26: it can accept `64 * 2^levels - 1` entries. There are
/// `readers` readers, 0 to 16. A reader's place that isn't had is asked for again.
///
/// # Errors
///
/// `NoMemory` alone.
pub fn start_map<R: Wait>(
    rt: &R,
    alloc: Global,
    levels: u32,
    readers: u32,
) -> Result<(Writer, Vec<Reader>), NoMemory>
    requires some { 1 ≤ levels }
    requires few { levels ≤ MAX_LEVELS }
    requires few_readers { readers ≤ MAX_READERS }
    ensures history { IfOk result (λ made. made.0.history ≡ []) }
    ensures batch { IfOk result (λ made. made.0.batch ≡ []) }
    ensures capacity { IfOk result (λ made. made.0.capacity ≡ capacity_with levels) }
    ensures readers { IfOk result (λ made. length made.1.items ≡ readers) }
    ensures fresh { IfOk result (λ made. All (λ reader.
        (reader.origin ≡ made.0.origin) × (reader.batches ≡ [])) made.1.items) }
{
    let mut made = Vec::with_capacity(alloc, readers as usize)?;
    let (head, front) = open();
    let map = Arc::new(alloc, LogMap::new(alloc, levels)?)?;
    let first = Version::new(Arc::try_clone(&map)?, front.again());
    let (second, third) = (first.share()?, first.share()?);
    let fourth = first.share()?;
    let copies = Copies::new(alloc, first, second, readers.max(1) as usize)?;
    // Once for each copy: then the room that a version needs is there for good.
    let copies = with_room(rt, copies, third)?;
    let mut copies = with_room(rt, copies, fourth)?;
    make_readers(rt, &mut copies, &front, readers, &mut made);
    let writer = Writer {
        copies: Some(copies),
        head,
        front,
        batch: Vec::new(alloc),
        map,
    };
    Ok((writer, made))
}

/// Makes so many readers, each at a place of its own.
fn make_readers<R: Wait>(
    rt: &R,
    copies: &mut Copies,
    front: &Prefix,
    count: u32,
    readers: &mut Vec<Reader>,
)
    requires empty { readers.old.items ≡ [] }
    requires room { count ≤ vec_capacity readers.old }
    requires told { view copies.old.desk.place ≡ Some front.now }
    ensures shown { copies.new.desk.shown ≡ copies.old.desk.shown }
    ensures count { length readers.new.items ≡ count }
    ensures fresh { All (λ reader. reader ≡ front.now) readers.new.items }
{
    for _reader in 0..count {
        let place = told_place(rt, copies);
        readers.push_reserved(Reader::at(place, front.again()));
    }
}

impl Writer {
    /// Adds updates to the batch in hand, all or none.
    ///
    /// The next version of the map is made aside, by workers: they merge long lists of entries, and
    /// build the index of each new level in pieces, passing the gate at `PieceBegun` before each
    /// piece and at `PieceDone` after it. Readers go on meanwhile, and see nothing of it. The call
    /// returns only if the gate does.
    ///
    /// # Errors
    ///
    /// `Full` exactly where the entries of what is published, of the batch and of these updates
    /// would be more than the map can accept, with the entries before; it is judged before memory
    /// is taken, where no update is a sweep. `NoMemory` where memory isn't had, and where the
    /// updates of all time would be 2^64 or more, so that no length could tell them. After either
    /// nothing has changed.
    pub fn stage<R: Threads + Sync, G: Gate>(
        &mut self,
        rt: &R,
        alloc: Global,
        updates: &[Update],
        workers: Workers,
        gate: &G,
    ) -> Result<(), MapFault>
        ensures staged { OnOk result (self.new.batch ≡ self.old.batch ++ updates.now) }
        ensures history { self.new.history ≡ self.old.history }
        ensures unchanged { OnErr result (self.new ≡ self.old) }
        ensures same_map { IsSameMap self.old self.new }
        ensures refused { Refuses self.old updates.now result }
    {
        let next = self.map.applied(rt, alloc, updates, workers, gate)?;
        let staged = self.front.len() + self.batch.len() as u64;
        if u64::MAX - staged < updates.len() as u64 {
            return Err(MapFault::NoMemory);
        }
        let Ok(next) = Arc::new(alloc, next) else {
            return Err(MapFault::NoMemory);
        };
        self.batch.extend_from_slice(updates)?;
        self.map = next;
        Ok(())
    }

    /// Publishes the batch in hand: it stands at the end of the history as one batch, and readers
    /// see all of it or nothing. Answers the published length, in updates. An empty batch leaves
    /// the history as it is.
    ///
    /// It merges and builds nothing, and may wait for a look that is kept. Once the batch is in the
    /// history it asks again for its place in the queue of the copies and for a share of the map,
    /// where one isn't had. `start_map` took the room of the queue, and a share takes no memory.
    ///
    /// # Errors
    ///
    /// `NoMemory` alone. Then nothing was published, and the batch stands.
    pub fn publish<R: Wait>(&mut self, rt: &R) -> Result<u64, NoMemory>
        ensures published { OnOk result
            (self.new.history ≡ published self.old.history self.old.batch) }
        ensures length { IfOk result (λ length. length ≡ count_of self.new.history) }
        ensures emptied { OnOk result (self.new.batch ≡ []) }
        ensures unchanged { OnErr result (self.new ≡ self.old) }
        ensures same_map { IsSameMap self.old self.new }
    {
        if self.batch.is_empty() {
            return Ok(self.front.len());
        }
        let map = Arc::try_clone(&self.map)?;
        let mut front = self.front.again();
        front.publish(rt, &self.head, &self.batch);
        let version = Version::new(map, front.again());
        let Some(copies) = self.copies.take() else {
            unreachable!()
        };
        let shown = show(rt, copies, version);
        if let Some(copies) = replace(&mut self.copies, Some(shown)) {
            // Never comes: the place is empty.
            give_up(rt, copies);
        }
        self.front = front;
        self.batch.clear();
        Ok(self.front.len())
    }

    /// A note of what is published now. Takes no memory.
    pub fn tell(&mut self) -> Note
        ensures told { result.batches ≡ self.old.history }
        ensures own { result.origin ≡ self.old.origin }
        ensures same { self.new ≡ self.old }
    {
        Note::of(self.front.again())
    }

    /// Ends the writer. What it holds of a batch is given up. It waits for a look that is kept, and
    /// from then on a door may refuse every reader.
    pub fn close<R: Wait>(self, rt: &R) {
        let Writer {
            copies,
            head: _head,
            front: _front,
            batch: _batch,
            map: _map,
        } = self;
        if let Some(copies) = copies {
            give_up(rt, copies);
        }
    }
}
