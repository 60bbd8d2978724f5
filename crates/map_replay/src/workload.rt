// What is published, from where it comes, and what comes of it.
ghost use Rattle.std.specs.Prelude.{◌≤◌};
ghost use Rattle.options.specs.declared.map.TheConstants.{MAX_ROOM};

use crate::Question;
use crate::reader_states::FinalReadings;
use log_levels::Update;
use options::{Plan, Senders};

/// How updates are dealt out to senders.
#[derive(Clone, Copy, Debug)]
pub struct Dealing {
    /// How many senders there are.
    pub senders: Senders,
    /// For how many updates the queue between them and the writer has room, from 1 to
    /// [`options::MAX_ROOM`].
    pub room: u32,
    pub ghost some_room: { 1 ≤ room },
    pub ghost small_room: { room ≤ MAX_ROOM },
}

/// Updates that are dealt out to senders in turn: the first one to the first sender, the next to
/// the next, and so on.
#[derive(Clone, Copy)]
pub struct Assignment<'a> {
    pub updates: &'a [Update],
    pub dealing: Dealing,
}

/// From where the updates come.
#[derive(Clone, Copy)]
pub enum Source {
    /// From the caller, in turn.
    InTurn,
    /// From the senders that they are dealt out to, as these send them.
    Assigned(Dealing),
}

/// What is published, and what the readers ask beside it.
#[derive(Clone, Copy)]
pub struct Workload<'a> {
    pub updates: &'a [Update],
    pub questions: &'a [Question],
    pub source: Source,
    pub plan: Plan,
}

/// The updates that came of senders, in the order in which they came; none where they came in turn.
#[derive(Drop)]
pub struct Arrivals {
    /// The numbers of their senders.
    pub numbers: Vec<u32>,
    pub updates: Vec<Update>,
}

/// What writer, senders and readers leave when all updates are published.
#[derive(Drop)]
pub struct ReplayResult {
    pub finals: FinalReadings,
    pub arrivals: Arrivals,
}
