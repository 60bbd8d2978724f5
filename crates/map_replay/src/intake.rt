// The writer's end of the queue: updates are taken in batches.
ghost use Rattle.std.specs.Prelude.{◌≡◌, ◌≤◌, ◌<◌, ℕ, true, false, length, vec_len};
ghost use Rattle.log_levels.specs.Accepted.{IsPlain};
ghost use Rattle.map_replay.specs.SenderStates.{AreStarted, HasRoom, IsIntake, IsStarted};
ghost use Rattle.map_replay.specs.SenderStates.{TookBatch, TookOne};
ghost use Rattle.senders.specs.Senders.{Origin};

use crate::sender_states::StartedSender;
use crate::sending::send_next;
use crate::workload::{Arrivals, Assignment};
use edge::Gate;
use log_levels::Update;
use senders::Inbox;
use std::sync::Wait;
use std::thread;

/// The inbox, and what was taken of it.
#[derive(Drop)]
pub struct Intake {
    pub inbox: Inbox,
    pub arrivals: Arrivals,
}

/// Takes the next batch: `size` updates, or all that are left; and fewer where the queue is found
/// empty behind some. At each turn each sender that has no thread tries once to send.
pub fn take_batch<R: Wait, G: Gate>(
    rt: &R,
    intake: &mut Intake,
    started: &mut Vec<StartedSender<'_>>,
    assignment: Assignment<'_>,
    size: usize,
    gate: &G,
)
    requires some { 1 ≤ size }
    requires left { length intake.old.arrivals.updates.items < length assignment.updates.now }
    requires intake { IsIntake (length assignment.updates.now) intake.old }
    requires started { AreStarted intake.old.inbox.origin assignment started.old.items }
    ensures intake { IsIntake (length assignment.entry.updates.now) intake.new }
    ensures took { TookBatch size intake.old intake.new }
    ensures started { AreStarted intake.old.inbox.origin assignment.entry started.new.items }
    ensures count { vec_len started.new ≡ vec_len started.old }
{
    let from = intake.arrivals.updates.len();
    for _turn in rt.forever() {
        serve_all(rt, started, assignment, gate);
        let took = take_next(rt, intake);
        let count = intake.arrivals.updates.len();
        if took && (count - from >= size || count >= assignment.updates.len()) {
            return;
        }
        if !took && count > from {
            return;
        }
        if !took {
            thread::yield_now();
        }
    }
    unreachable!()
}

/// Takes an update, and says whether one was there.
fn take_next<R: Wait>(rt: &R, intake: &mut Intake) -> bool
    requires { HasRoom intake.old }
    ensures took { result ≡ true → TookOne intake.old intake.new }
    ensures none { result ≡ false → intake.new ≡ intake.old }
{
    let Some((number, update)) = intake.inbox.take(rt) else {
        return false;
    };
    intake.arrivals.numbers.push_reserved(number);
    intake.arrivals.updates.push_reserved(plain(rt, update));
    true
}

/// The update, which is no sweep.
fn plain<R: Wait>(rt: &R, update: Update) -> Update
    ensures same { result ≡ update }
    ensures plain { IsPlain result }
{
    for _turn in rt.forever() {
        match update {
            Update::Put(..) | Update::Del(_) => return update,
            // Never comes: nobody promises a sweep.
            Update::Sweep(..) => {}
        }
    }
    unreachable!()
}

/// Lets each sender that has no thread try once to send.
fn serve_all<R: Wait, G: Gate>(
    rt: &R,
    started: &mut Vec<StartedSender<'_>>,
    assignment: Assignment<'_>,
    gate: &G,
)
    ensures started { (origin : Origin) → AreStarted origin assignment.entry started.old.items →
        AreStarted origin assignment.entry started.new.items }
    ensures count { vec_len started.new ≡ vec_len started.old }
{
    for place in 0..started.len() {
        serve(rt, &mut started[place], assignment, gate);
    }
}

/// Lets the sender try once to send, if it has no thread.
fn serve<R: Wait, G: Gate>(
    rt: &R,
    sender: &mut StartedSender<'_>,
    assignment: Assignment<'_>,
    gate: &G,
)
    ensures { (origin : Origin) (number : ℕ) → IsStarted origin assignment.entry number sender.old →
        IsStarted origin assignment.entry number sender.new }
{
    if let StartedSender::Served(progress) = sender {
        send_next(rt, progress, assignment, gate);
    }
}
