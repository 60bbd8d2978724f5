// The readers, before they start, on their way and when they are done.
ghost use Rattle.std.specs.Prelude.{◌≡◌, []};

use crate::Question;
use crate::reading::{Reading, Sighting};
use published::{Look, MapName, Reader};
use std::marker::PhantomData;
use std::thread::{Promise, PromisedHandle};

/// A reader before it starts, with room for its sightings.
#[derive(Drop)]
pub struct WaitingReader<M: MapName> {
    pub number: u32,
    pub reader: Reader,
    pub sightings: Vec<Sighting>,
    pub of: PhantomData<M>,
    pub ghost own: { reader.origin ≡ M.origin },
    pub ghost empty: { sightings.items ≡ [] },
}

/// A reader that was started.
#[derive(Drop)]
pub enum StartedReader<'a, M: MapName> {
    /// In a thread of its own.
    Running(PromisedHandle<FinishedReader<M>, ReaderPromise<'a>>),
    /// Here, since no thread could be had for it, and is done.
    Finished(FinishedReader<M>),
}

/// A reader that went through its questions.
#[derive(Drop)]
pub struct FinishedReader<M: MapName> {
    pub reader: Reader,
    pub sightings: Vec<Sighting>,
    pub of: PhantomData<M>,
    pub ghost own: { reader.origin ≡ M.origin },
}

/// What a reader's thread promises: it asked these questions.
#[derive(Clone, Copy)]
pub struct ReaderPromise<'a> {
    pub questions: &'a [Question],
}

impl<'a, M: MapName> Promise<FinishedReader<M>> for ReaderPromise<'a> {
    ghost use Rattle.map_replay.specs.Watching.{WasAsked};

    ghost kept_by = { λ promise finished.
        WasAsked finished.reader.batches promise.questions.now finished.sightings.items };
}

/// All readers before they start, the first one last, and room for what they leave.
#[derive(Drop)]
pub struct PreparedReaders<M: MapName> {
    pub waiting: Vec<WaitingReader<M>>,
    pub finished: Vec<FinishedReader<M>>,
    pub readings: Vec<Reading>,
}

/// What the readers leave when all updates are published.
#[derive(Drop)]
pub struct FinalReadings {
    /// The first reader's last look.
    pub look: Look,
    pub readings: Vec<Reading>,
}
