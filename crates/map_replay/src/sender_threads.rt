// The writer's side where senders send the updates.
ghost use Rattle.std.specs.Prelude.{◌≡◌, ◌≤◌, ◌<◌, ◌-◌, [], ℕ, length};
ghost use Rattle.std.specs.Prelude.{IfOk, OnOk, vec_len, vec_capacity};
ghost use Rattle.map_replay.specs.Mixes.{IsMix};
ghost use Rattle.published.specs.Writers.{IsEmptyWriter};
ghost use Rattle.map_replay.specs.SenderStates.{AreDone, AreStarted, IsDone, IsIntake};
ghost use Rattle.map_replay.specs.SenderStates.{IsOnItsWay, IsStarted, Keeps};
ghost use Rattle.map_replay.specs.Readings.{AreCut};
ghost use Rattle.senders.specs.Senders.{AreFresh, Origin};

use crate::intake::{Intake, take_batch};
use crate::sender_states::{SenderProgress, SenderPromise, StartedSender};
use crate::sending::send_all;
use crate::workload::{Arrivals, Assignment, Dealing};
use batches::{Context, publish_batch};
use budget::NoMemory;
use edge::Gate;
use options::Plan;
use published::{MapName, Writer};
use senders::{Sender, start_senders};
use std::snapshot::Snapshot;
use std::sync::Wait;
use std::sync::atomic::{AtomicU32, Ordering};
use std::thread::{Scope, SpawnError, Threads};

/// Publishes all updates as their senders send them, each in a thread of the scope, and leaves each
/// reader a note of each batch. Answers the updates and their senders, in the order in which they
/// came.
///
/// A sender for which no thread can be had is served here. Where a batch can't be published, the
/// updates that come from then on are given up, until all came.
///
/// # Errors
///
/// `NoMemory` alone. All senders are done then.
pub fn publish_arrivals<
    's,
    E,
    M: MapName + Send + Sync + 's,
    R: Threads + Wait + Sync + 's,
    G: Gate + 's,
>(
    scope: &Scope<'s, E>,
    context: &Context<'s, M, R, G>,
    writer: &mut Writer,
    assignment: Assignment<'s>,
    plan: Plan,
    refused: &'s AtomicU32,
) -> Result<Arrivals, NoMemory>
    requires ready { IsEmptyWriter M.origin (length assignment.updates.now) writer.old }
    ensures own { writer.new.origin ≡ writer.old.origin }
    ensures mixed { IfOk result (λ arrivals. IsMix assignment.entry.dealing.senders.count
        assignment.entry.updates.now arrivals.numbers.items arrivals.updates.items) }
    ensures published { IfOk result (λ arrivals.
        AreCut plan.batch arrivals.updates.items writer.new.history) }
{
    let (alloc, total) = (context.alloc, assignment.updates.len());
    let Dealing { senders, room, .. } = assignment.dealing;
    let (inbox, senders) = start_senders(alloc, senders, room)?;
    let arrivals = Arrivals {
        numbers: Vec::with_capacity(alloc, total)?,
        updates: Vec::with_capacity(alloc, total)?,
    };
    let mut started = Vec::with_capacity(alloc, senders.len())?;
    let mut done = Vec::with_capacity(alloc, senders.len())?;
    let mut intake = Intake { inbox, arrivals };
    start_sender_threads(scope, context, senders, assignment, refused, &mut started);
    let published = publish_arriving(context, writer, &mut intake, &mut started, assignment, plan);
    join_senders(context, started, assignment, &mut done);
    let arrivals = close_inbox(context.rt, intake, done, assignment);
    published?;
    Ok(arrivals)
}

/// Starts all senders, the last one first.
fn start_sender_threads<
    's,
    E,
    M: MapName + Send + Sync + 's,
    R: Threads + Wait + Sync + 's,
    G: Gate + 's,
>(
    scope: &Scope<'s, E>,
    context: &Context<'s, M, R, G>,
    mut senders: Vec<Sender>,
    assignment: Assignment<'s>,
    refused: &'s AtomicU32,
    started: &mut Vec<StartedSender<'s>>,
)
    requires count { vec_len senders ≡ assignment.dealing.senders.count }
    requires none { started.old.items ≡ [] }
    requires room { assignment.dealing.senders.count ≤ vec_capacity started.old }
    ensures count { vec_len started.new ≡ assignment.entry.dealing.senders.count }
    ensures started { (origin : Origin) →
        AreFresh origin assignment.entry.dealing.senders.count senders.items →
        AreStarted origin assignment.entry started.new.items }
{
    while let Some(sender) = senders.pop() {
        let progress = SenderProgress {
            sender,
            place: senders.len(),
            begun: false,
        };
        started.push_reserved(start_sender(scope, context, progress, assignment, refused));
    }
}

/// Starts a sender, whose place is its number, in a thread of the scope, or leaves it here where no
/// thread can be had.
fn start_sender<'s, E, M: MapName + Send + Sync + 's, R: Threads + Wait + Sync + 's, G: Gate + 's>(
    scope: &Scope<'s, E>,
    context: &Context<'s, M, R, G>,
    progress: SenderProgress,
    assignment: Assignment<'s>,
    refused: &'s AtomicU32,
) -> StartedSender<'s>
    requires { progress.place < assignment.dealing.senders.count }
    ensures { (origin : Origin) →
        IsOnItsWay origin assignment.entry.dealing.senders.count assignment.entry.updates.now
        progress.place progress → IsStarted origin assignment.entry progress.place result }
{
    let promise = SenderPromise {
        assignment,
        progress: Snapshot::of(&progress),
    };
    let Assignment { updates, dealing } = assignment;
    let (rt, gate) = (context.rt, context.gate);
    // A closure comes back where its thread is refused. Called here it hands the sender back.
    let word = progress.place as u32 + 1;
    let going = move || -> SenderProgress
        ensures { Keeps dealing.senders.count updates.entry.now progress result }
    {
        if refused.load(Ordering::SeqCst) == word {
            progress
        } else {
            send_all(rt, progress, Assignment { updates, dealing }, gate)
        }
    };
    match scope.spawn_with(promise, going) {
        Ok(handle) => StartedSender::Running(handle),
        Err(SpawnError { value }) => {
            refused.store(word, Ordering::SeqCst);
            StartedSender::Served(value())
        }
    }
}

/// Takes until all updates came, and publishes each batch. After one that can't be published the
/// updates that come are given up.
///
/// # Errors
///
/// `NoMemory` alone, where not all updates were published.
fn publish_arriving<M: MapName + Send + Sync, R: Threads + Wait + Sync, G: Gate>(
    context: &Context<'_, M, R, G>,
    writer: &mut Writer,
    intake: &mut Intake,
    started: &mut Vec<StartedSender<'_>>,
    assignment: Assignment<'_>,
    plan: Plan,
) -> Result<(), NoMemory>
    requires ready { IsEmptyWriter M.origin (length assignment.updates.now) writer.old }
    requires none { intake.old.inbox.taken ≡ [] }
    requires intake { IsIntake (length assignment.updates.now) intake.old }
    requires started { AreStarted intake.old.inbox.origin assignment started.old.items }
    ensures own { writer.new.origin ≡ writer.old.origin }
    ensures origin { intake.new.inbox.origin ≡ intake.old.inbox.origin }
    ensures intake { IsIntake (length assignment.entry.updates.now) intake.new }
    ensures started { AreStarted intake.old.inbox.origin assignment.entry started.new.items }
    ensures count { vec_len started.new ≡ vec_len started.old }
    ensures published { OnOk result
        (AreCut plan.batch intake.new.arrivals.updates.items writer.new.history) }
    ensures all { length intake.new.arrivals.updates.items ≡ length assignment.entry.updates.now }
{
    let (rt, gate, size) = (context.rt, context.gate, plan.batch as usize);
    let mut published = Ok(());
    let mut number = 0;
    while intake.arrivals.updates.len() < assignment.updates.len() {
        let from = intake.arrivals.updates.len();
        take_batch(rt, intake, started, assignment, size, gate);
        if published.is_ok() {
            number += 1;
            let batch = &intake.arrivals.updates[from..];
            published = publish_batch(context, writer, batch, number, plan.workers);
        }
    }
    published
}

/// Waits until all senders are done. The last one that was started comes first.
fn join_senders<M: MapName, R: Threads + Wait, G: Gate>(
    context: &Context<'_, M, R, G>,
    mut started: Vec<StartedSender<'_>>,
    assignment: Assignment<'_>,
    done: &mut Vec<Sender>,
)
    requires count { vec_len started ≡ assignment.dealing.senders.count }
    requires none { done.old.items ≡ [] }
    requires room { assignment.dealing.senders.count ≤ vec_capacity done.old }
    ensures count { vec_len done.new ≡ assignment.entry.dealing.senders.count }
    ensures done { (origin : Origin) → AreStarted origin assignment.entry started.entry.items →
        AreDone origin assignment.entry done.new.items }
{
    while let Some(one) = started.pop() {
        done.push_reserved(join_sender(context.rt, one, assignment, context.gate));
    }
}

/// Waits until a sender is done.
fn join_sender<R: Threads + Wait, G: Gate>(
    rt: &R,
    started: StartedSender<'_>,
    assignment: Assignment<'_>,
    gate: &G,
) -> Sender
    ensures { (origin : Origin) (number : ℕ) →
        IsStarted origin assignment.entry number started.entry →
        IsDone origin assignment.entry number result }
{
    let progress = match started {
        StartedSender::Running(handle) => handle.join(rt),
        StartedSender::Served(progress) => progress,
    };
    // Nothing is left to send once all updates came.
    let SenderProgress { sender, .. } = send_all(rt, progress, assignment, gate);
    sender
}

/// Closes the inbox, and answers what came.
fn close_inbox<R: Wait>(
    rt: &R,
    intake: Intake,
    done: Vec<Sender>,
    assignment: Assignment<'_>,
) -> Arrivals
    requires count { vec_len done ≡ intake.inbox.origin.senders }
    requires senders { assignment.dealing.senders.count ≡ intake.inbox.origin.senders }
    requires intake { IsIntake (length assignment.updates.now) intake }
    requires all { length intake.arrivals.updates.items ≡ length assignment.updates.now }
    requires done { AreDone intake.inbox.origin assignment done.items }
    ensures mix { IsMix assignment.entry.dealing.senders.count assignment.entry.updates.now
        result.numbers.items result.updates.items }
    ensures same { result.updates.items ≡ intake.arrivals.updates.items }
{
    let Intake { inbox, arrivals } = intake;
    let left = inbox.close(done);
    for _turn in rt.forever() {
        // Always so: as many were taken as were dealt out.
        if left == 0 {
            return arrivals;
        }
    }
    unreachable!()
}
