// The senders on their way.

use crate::workload::Assignment;
use senders::Sender;
use std::snapshot::Snapshot;
use std::thread::{Promise, PromisedHandle};

/// A sender, and how far it is.
#[derive(Drop)]
pub struct SenderProgress {
    pub sender: Sender,
    /// The place of the update that it sends next.
    pub place: usize,
    /// Whether it passed the gate for this update.
    pub begun: bool,
}

/// What a sender's thread promises: the sender is another step further, if at all.
#[derive(Drop)]
pub struct SenderPromise<'a> {
    pub assignment: Assignment<'a>,
    pub progress: Snapshot<SenderProgress>,
}

impl<'a> Promise<SenderProgress> for SenderPromise<'a> {
    ghost use Rattle.map_replay.specs.SenderStates.{Keeps};

    ghost kept_by = { λ promise progress. Keeps promise.assignment.dealing.senders.count
        promise.assignment.updates.now promise.progress.value progress };
}

/// A sender that was started.
#[derive(Drop)]
pub enum StartedSender<'a> {
    /// In a thread of its own.
    Running(PromisedHandle<SenderProgress, SenderPromise<'a>>),
    /// Here, since no thread could be had for it: the writer lets it send.
    Served(SenderProgress),
}
