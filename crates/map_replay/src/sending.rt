// The senders' side: each sends the updates that are dealt to it, in their order.
ghost use Rattle.std.specs.Prelude.{◌≡◌, ◌≤◌, ℕ};
ghost use Rattle.map_replay.specs.Mixes.{dealt};
ghost use Rattle.map_replay.specs.SenderStates.{IsOnItsWay, Keeps};
ghost use Rattle.senders.specs.Senders.{Origin, of_sender};

use crate::sender_states::SenderProgress;
use crate::workload::Assignment;
use edge::{Gate, Place};
use std::sync::Wait;
use std::thread;

/// Tries once to send the next update that is dealt to the sender, and says whether it was sent. It
/// passes the gate before the first try.
pub fn send_next<R: Wait, G: Gate>(
    rt: &R,
    progress: &mut SenderProgress,
    assignment: Assignment<'_>,
    gate: &G,
) -> bool
    ensures { Keeps assignment.entry.dealing.senders.count assignment.entry.updates.now
        progress.old progress.new }
{
    let Some(update) = assignment.updates.get(progress.place) else {
        return false;
    };
    let senders = assignment.dealing.senders.count;
    pass_gate(progress, senders, gate);
    if progress.sender.send(rt, *update).is_err() {
        return false;
    }
    progress.place += senders as usize;
    progress.begun = false;
    true
}

/// Passes the gate, if the sender didn't for this update.
fn pass_gate<G: Gate>(progress: &mut SenderProgress, senders: u32, gate: &G)
    requires { 1 ≤ senders }
    ensures sender { progress.new.sender ≡ progress.old.sender }
    ensures place { progress.new.place ≡ progress.old.place }
{
    if progress.begun {
        return;
    }
    gate.at(Place::Send {
        sender: (progress.place % senders as usize) as u32,
        turn: progress.sender.sent(),
    });
    progress.begun = true;
}

/// Sends all updates that are dealt to the sender and not sent yet.
pub fn send_all<R: Wait, G: Gate>(
    rt: &R,
    mut progress: SenderProgress,
    assignment: Assignment<'_>,
    gate: &G,
) -> SenderProgress
    ensures keeps { Keeps assignment.entry.dealing.senders.count assignment.entry.updates.now
        progress result }
    ensures whole { (origin : Origin) (number : ℕ) →
        IsOnItsWay origin assignment.entry.dealing.senders.count assignment.entry.updates.now number
        progress → result.sender.sent ≡ of_sender number
        (dealt assignment.entry.dealing.senders.count assignment.entry.updates.now) }
{
    for _turn in rt.forever() {
        if assignment.updates.len() <= progress.place {
            return progress;
        }
        if !send_next(rt, &mut progress, assignment, gate) {
            thread::yield_now();
        }
    }
    unreachable!()
}
