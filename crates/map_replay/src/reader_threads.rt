// Readers in threads of their own, beside the writer.
ghost use Rattle.std.specs.Prelude.{◌≡◌, ◌≤◌, [], List, All, length};
ghost use Rattle.std.specs.Prelude.{IfOk, vec_len, vec_capacity};
ghost use Rattle.map_replay.specs.declared.question.Question.{Question};
ghost use Rattle.map_replay.specs.Watching.{WasAsked};
ghost use Rattle.map_replay.specs.ReaderStates.{ArePrepared, ArePublished, CanPublish};
ghost use Rattle.map_replay.specs.ReaderStates.{HasAsked, HasRoom, IsReplayed, IsStartedOn};

use crate::last_looks::take_last_looks;
use crate::question::{Asked, Question};
use crate::reader_states::{
    FinishedReader, PreparedReaders, ReaderPromise, StartedReader, WaitingReader,
};
use crate::reading::Sighting;
use crate::sender_threads::publish_arrivals;
use crate::workload::{Arrivals, Assignment, ReplayResult, Source, Workload};
use batches::{Context, learn_newest, look_until, publish_all};
use budget::NoMemory;
use edge::{Gate, Place};
use published::{MapName, Slot, Writer};
use std::sync::Wait;
use std::sync::atomic::AtomicU32;
use std::thread;
use std::thread::{Scope, SpawnError, Threads};

/// Lets the readers go through the questions while all updates are published, waits for them, and
/// lets each look once more.
///
/// # Errors
///
/// `NoMemory` alone, where not all updates were published. The readers are given up then.
pub fn read_beside<M: MapName + Send + Sync, R: Threads + Wait + Sync, G: Gate>(
    context: &Context<'_, M, R, G>,
    writer: &mut Writer,
    workload: Workload<'_>,
    prepared: PreparedReaders<M>,
) -> Result<ReplayResult, NoMemory>
    requires ready { CanPublish M.origin workload writer.old }
    requires prepared { ArePrepared (length workload.questions.now)
        (length context.now.slots.now) prepared }
    ensures { IfOk result (IsReplayed workload.entry (vec_len prepared.waiting)) }
{
    let pen = writer;
    let word = AtomicU32::new(0);
    let refused = &word;
    thread::scope(
        thread::scope_env(),
        context.rt,
        move |scope| -> Result<ReplayResult, NoMemory>
            requires ready { CanPublish M.origin workload pen.now }
            requires prepared { ArePrepared (length workload.questions.now)
                (length context.now.slots.now) prepared }
            ensures { IfOk result (IsReplayed workload.entry (vec_len prepared.waiting)) }
        { run_in_scope(scope, context, pen, workload, prepared, refused) },
    )
}

/// Runs readers, writer and senders in a scope for the threads.
fn run_in_scope<'s, E, M: MapName + Send + Sync + 's, R: Threads + Wait + Sync + 's, G: Gate + 's>(
    scope: &Scope<'s, E>,
    context: &Context<'s, M, R, G>,
    writer: &mut Writer,
    workload: Workload<'s>,
    prepared: PreparedReaders<M>,
    refused: &'s AtomicU32,
) -> Result<ReplayResult, NoMemory>
    requires ready { CanPublish M.origin workload writer.old }
    requires prepared { ArePrepared (length workload.questions.now)
        (length context.now.slots.now) prepared }
    ensures { IfOk result (IsReplayed workload.entry (vec_len prepared.waiting)) }
{
    let PreparedReaders {
        waiting,
        mut finished,
        readings,
    } = prepared;
    let questions = workload.questions;
    let mut started = Vec::with_capacity(context.alloc, waiting.len())?;
    start_readers(scope, context, waiting, questions, &mut started);
    let published = publish(scope, context, writer, workload, refused);
    join_readers(context.rt, started, questions, &mut finished);
    let arrivals = published?;
    let finals = take_last_looks(context.rt, writer, finished, readings);
    Ok(ReplayResult { finals, arrivals })
}

/// Publishes all updates. Answers what came of senders.
fn publish<'s, E, M: MapName + Send + Sync + 's, R: Threads + Wait + Sync + 's, G: Gate + 's>(
    scope: &Scope<'s, E>,
    context: &Context<'s, M, R, G>,
    writer: &mut Writer,
    workload: Workload<'s>,
    refused: &'s AtomicU32,
) -> Result<Arrivals, NoMemory>
    requires ready { CanPublish M.origin workload writer.old }
    ensures own { writer.new.origin ≡ writer.old.origin }
    ensures published { IfOk result (λ arrivals. ArePublished workload.entry
        arrivals.numbers.items arrivals.updates.items writer.new.history) }
{
    let Workload {
        updates,
        source,
        plan,
        ..
    } = workload;
    match source {
        Source::InTurn => {
            publish_all(context, writer, updates, plan)?;
            Ok(Arrivals {
                numbers: Vec::new(context.alloc),
                updates: Vec::new(context.alloc),
            })
        }
        Source::Assigned(dealing) => {
            let assignment = Assignment { updates, dealing };
            publish_arrivals(scope, context, writer, assignment, plan, refused)
        }
    }
}

/// Starts all readers, the first one last.
fn start_readers<'s, E, M: MapName + Send + Sync + 's, R: Threads + Wait + Sync + 's, G: Gate + 's>(
    scope: &Scope<'s, E>,
    context: &Context<'s, M, R, G>,
    mut waiting: Vec<WaitingReader<M>>,
    questions: &'s [Question],
    started: &mut Vec<StartedReader<'s, M>>,
)
    requires room { All (HasRoom (length questions.now)) waiting.items }
    requires slots { length context.now.slots.now ≡ vec_len waiting }
    requires none { started.old.items ≡ [] }
    requires kept { vec_len waiting ≤ vec_capacity started.old }
    ensures count { vec_len started.new ≡ vec_len waiting }
    ensures asked { All (IsStartedOn questions.now) started.new.items }
{
    let (rt, gate) = (context.rt, context.gate);
    while let Some(reader) = waiting.pop() {
        let slot = &context.slots[waiting.len()];
        started.push_reserved(start_reader(scope, rt, reader, questions, slot, gate));
    }
}

/// Starts a reader in a thread of the scope, or lets it go through its questions here.
fn start_reader<'s, E, M: MapName + Send + Sync + 's, R: Threads + Wait + Sync + 's, G: Gate + 's>(
    scope: &Scope<'s, E>,
    rt: &'s R,
    reader: WaitingReader<M>,
    questions: &'s [Question],
    slot: &'s Slot<M>,
    gate: &'s G,
) -> StartedReader<'s, M>
    requires room { HasRoom (length questions.now) reader }
    ensures { IsStartedOn questions.now result }
{
    let promise = ReaderPromise { questions };
    let going = move || -> FinishedReader<M>
        requires { length questions.now ≤ vec_capacity reader.sightings }
        ensures { WasAsked result.reader.batches questions.entry.now result.sightings.items }
    { ask_all(rt, reader, questions, slot, gate) };
    match scope.spawn_with(promise, going) {
        Ok(handle) => StartedReader::Running(handle),
        Err(SpawnError { value }) => StartedReader::Finished(value()),
    }
}

/// Goes once through the questions.
fn ask_all<M: MapName + Send + Sync, R: Wait + Sync, G: Gate>(
    rt: &R,
    waiting: WaitingReader<M>,
    questions: &[Question],
    slot: &Slot<M>,
    gate: &G,
) -> FinishedReader<M>
    requires room { length questions.now ≤ vec_capacity waiting.sightings }
    ensures { WasAsked result.reader.batches questions.now result.sightings.items }
{
    let WaitingReader {
        number,
        mut reader,
        mut sightings,
        of,
    } = waiting;
    for turn in 0..questions.len() {
        gate.at(Place::Look {
            reader: number,
            turn: turn as u64,
        });
        learn_newest(rt, &mut reader, slot);
        let known = reader.seen();
        let look = look_until(rt, reader);
        let sighting = Sighting {
            known,
            length: look.seen(),
            answer: look.answer(questions[turn]),
        };
        sightings.push_reserved(sighting);
        reader = look.leave();
    }
    FinishedReader {
        reader,
        sightings,
        of,
    }
}

/// Waits until all readers are done. The last one that was started comes first.
fn join_readers<M: MapName, R: Threads>(
    rt: &R,
    mut started: Vec<StartedReader<'_, M>>,
    questions: &[Question],
    finished: &mut Vec<FinishedReader<M>>,
)
    requires asked { All (IsStartedOn questions.now) started.items }
    requires none { finished.old.items ≡ [] }
    requires kept { vec_len started ≤ vec_capacity finished.old }
    ensures count { vec_len finished.new ≡ vec_len started.entry }
    ensures asked { All (HasAsked questions.now) finished.new.items }
{
    while let Some(reader) = started.pop() {
        finished.push_reserved(join_reader(rt, reader));
    }
}

/// Waits until a reader is done.
fn join_reader<M: MapName, R: Threads>(rt: &R, started: StartedReader<'_, M>) -> FinishedReader<M>
    ensures { (questions : List Question) → IsStartedOn questions started.entry →
        HasAsked questions result }
{
    match started {
        StartedReader::Running(handle) => handle.join(rt),
        StartedReader::Finished(finished) => finished,
    }
}
