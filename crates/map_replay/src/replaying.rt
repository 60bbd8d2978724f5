// Updates in batches beside readers, and what is left of it.
ghost use Rattle.std.specs.Prelude.{◌≡◌, ◌≤◌, All, length, IfOk, vec_len};
ghost use Rattle.log_levels.specs.Accepted.{IsPlain, entries_of};
ghost use Rattle.log_levels.specs.Shapes.{capacity_with};
ghost use Rattle.options.specs.declared.map.TheConstants.{MAX_READERS};
ghost use Rattle.map_replay.specs.Readings.{AreCut, IsWholeMixedReading, IsWholeReading};
ghost use Rattle.map_replay.specs.Mixes.{IsMix};
ghost use Rattle.map_replay.specs.ReaderStates.{AreForSource, CanPublish, IsOutcome, IsReplayed};

use crate::preparing::prepare;
use crate::question::{Answer, Asked, Question};
use crate::reader_states::FinalReadings;
use crate::reader_threads::read_beside;
use crate::reading::Reading;
use crate::workload::{Arrivals, Assignment, ReplayResult, Source, Workload};
use batches::{Context, slots_for};
use budget::NoMemory;
use edge::Gate;
use log_levels::Update;
use options::Plan;
use published::{Look, MapName, Reader, Writer, start_map};
use std::alloc::Global;
use std::marker::{Brand, Model};
use std::sync::Wait;
use std::thread::Threads;

/// What is left when all updates are published and all readers are done, seen as the batches that
/// were published, the updates after which it answers and what the readers saw.
///
/// It can't be dropped: end it by [`Replayed::close`].
pub struct Replayed {
    writer: Writer,
    look: Look,
    arrivals: Arrivals,
    readings: Vec<Reading>,
}

impl Model for Replayed {
    ghost use Rattle.published.specs.Histories.{updates_of};
    ghost use Rattle.map_replay.specs.Readings.{Outcome};

    ghost Value = { Outcome };

    ghost view = { λ r. record {
      batches = r.look.batches;
      updates = updates_of r.look.batches;
      numbers = r.arrivals.numbers.items;
      mixed = r.arrivals.updates.items;
      readings = r.readings.items;
    } };
}

/// Publishes all updates in batches, beside readers that go once through the questions.
///
/// The writer is the calling thread. It stages each batch, publishes it, leaves each reader a note,
/// and passes the gate at `Published`. A reader passes the gate at `Look` before each question,
/// learns its newest note if there is one, and looks once; where its door refuses, it looks again.
/// A reader for which no thread can be had goes through its questions before the first batch. At
/// the end each reader learns a last note and looks once more, until it sees all.
///
/// All room for the readers is taken before the first of them starts, and no reader takes memory.
///
/// # Errors
///
/// `NoMemory` alone. The readers went through their questions then, if they were started, and
/// nothing is left.
pub fn replay<R: Threads + Wait + Sync, G: Gate>(
    rt: &R,
    alloc: Global,
    updates: &[Update],
    questions: &[Question],
    plan: Plan,
    gate: &G,
) -> Result<Replayed, NoMemory>
    requires fits { length (entries_of updates.now) ≤ capacity_with plan.levels }
    ensures whole { IfOk result (λ outcome. outcome.updates ≡ updates.now) }
    ensures count { IfOk result (λ outcome. length outcome.readings ≡ plan.readers) }
    ensures each { IfOk result (λ outcome.
        All (IsWholeReading updates.now plan.batch questions.now) outcome.readings) }
{
    let source = Source::InTurn;
    let workload = Workload {
        updates,
        questions,
        source,
        plan,
    };
    replay_workload(rt, alloc, workload, gate)
}

/// Publishes all updates in batches as senders send them, beside readers as those of [`replay`].
///
/// Each sender sends what is dealt to it in its order, in a thread of its own, and passes the gate
/// at `Send` before each update's first try; where the queue is full it tries again. A sender for
/// which no thread can be had is served by the writer.
///
/// The writer takes what comes. It publishes when it has a batch of `plan.batch`, and a smaller one
/// when it has some updates and finds the queue empty. Where it can't, it goes on taking and gives
/// up what it takes.
///
/// # Errors
///
/// `NoMemory` alone, and nothing is left then. Readers and senders are done.
pub fn mix<R: Threads + Wait + Sync, G: Gate>(
    rt: &R,
    alloc: Global,
    assignment: Assignment<'_>,
    questions: &[Question],
    plan: Plan,
    gate: &G,
) -> Result<Replayed, NoMemory>
    requires plain { All IsPlain assignment.updates.now }
    requires fits { length (entries_of assignment.updates.now) ≤ capacity_with plan.levels }
    ensures whole { IfOk result (λ outcome. outcome.updates ≡ outcome.mixed) }
    ensures batches { IfOk result (λ outcome. AreCut plan.batch outcome.mixed outcome.batches) }
    ensures mixed { IfOk result (λ outcome. IsMix assignment.entry.dealing.senders.count
        assignment.entry.updates.now outcome.numbers outcome.mixed) }
    ensures count { IfOk result (λ outcome. length outcome.readings ≡ plan.readers) }
    ensures each { IfOk result (λ outcome.
        All (IsWholeMixedReading outcome.batches outcome.mixed questions.now) outcome.readings) }
{
    let Assignment { updates, dealing } = assignment;
    let source = Source::Assigned(dealing);
    let workload = Workload {
        updates,
        questions,
        source,
        plan,
    };
    replay_workload(rt, alloc, workload, gate)
}

/// Publishes what the workload says. Without readers one looks at the end alone.
fn replay_workload<R: Threads + Wait + Sync, G: Gate>(
    rt: &R,
    alloc: Global,
    workload: Workload<'_>,
    gate: &G,
) -> Result<Replayed, NoMemory>
    requires plain { AreForSource workload.source workload.updates.now }
    requires fits { length (entries_of workload.updates.now) ≤ capacity_with workload.plan.levels }
    ensures { IfOk result (IsOutcome workload.entry workload.entry.plan.readers) }
{
    let plan = workload.plan;
    let (writer, readers) = start_map(rt, alloc, plan.levels, plan.readers.max(1))?;
    if plan.readers > 0 {
        return replay_on::<Brand, R, G>(rt, alloc, writer, readers, workload, gate);
    }
    let none: [Question; 0] = [];
    let unread = Workload {
        questions: &none,
        ..workload
    };
    let mut left = replay_on::<Brand, R, G>(rt, alloc, writer, readers, unread, gate)?;
    left.readings.clear();
    Ok(left)
}

impl Replayed {
    /// The numbers of the updates' senders, in the order in which the updates came; none where they
    /// came in turn.
    pub fn numbers(&self) -> &[u32]
        ensures { result.now ≡ self.now.numbers }
    {
        &self.arrivals.numbers
    }

    /// The updates in the order in which they came; none where they came in turn.
    pub fn mixed(&self) -> &[Update]
        ensures { result.now ≡ self.now.mixed }
    {
        &self.arrivals.updates
    }

    /// What each reader saw, in turn.
    pub fn readings(&self) -> &[Reading]
        ensures { result.now ≡ self.now.readings }
    {
        &self.readings
    }

    /// Ends the look and the writer.
    pub fn close<R: Wait>(self, rt: &R) {
        let Replayed {
            writer,
            look,
            arrivals: _arrivals,
            readings: _readings,
        } = self;
        drop(look.leave());
        writer.close(rt);
    }
}

impl Asked for Replayed {
    ghost use Rattle.std.specs.Prelude.{◌≡◌};
    ghost use Rattle.log_levels.specs.Maps.{map_after};

    ghost answers_by = { λ outcome pairs. pairs ≡ map_after outcome.updates };

    /// The answer of the map after all updates, by the last look of the first reader.
    fn answer(&self, question: Question) -> Answer {
        self.look.answer(question)
    }
}

/// Publishes what the workload says on a map whose name is picked.
fn replay_on<M: MapName + Send + Sync, R: Threads + Wait + Sync, G: Gate>(
    rt: &R,
    alloc: Global,
    mut writer: Writer,
    readers: Vec<Reader>,
    workload: Workload<'_>,
    gate: &G,
) -> Result<Replayed, NoMemory>
    requires ready { CanPublish M.origin workload writer }
    requires some { 1 ≤ vec_len readers }
    requires few { vec_len readers ≤ MAX_READERS }
    requires readers { All (λ reader. reader.origin ≡ M.origin) readers.items }
    ensures { IfOk result (IsOutcome workload.entry (vec_len readers)) }
{
    match replay_prepared::<M, R, G>(rt, alloc, &mut writer, readers, workload, gate) {
        Ok(ReplayResult { finals, arrivals }) => {
            let FinalReadings { look, readings } = finals;
            Ok(Replayed {
                writer,
                look,
                arrivals,
                readings,
            })
        }
        Err(NoMemory) => {
            writer.close(rt);
            Err(NoMemory)
        }
    }
}

/// Takes all room for the readers, and lets them go through the questions beside the writer.
fn replay_prepared<M: MapName + Send + Sync, R: Threads + Wait + Sync, G: Gate>(
    rt: &R,
    alloc: Global,
    writer: &mut Writer,
    readers: Vec<Reader>,
    workload: Workload<'_>,
    gate: &G,
) -> Result<ReplayResult, NoMemory>
    requires ready { CanPublish M.origin workload writer.old }
    requires some { 1 ≤ vec_len readers }
    requires few { vec_len readers ≤ MAX_READERS }
    requires readers { All (λ reader. reader.origin ≡ M.origin) readers.items }
    ensures { IfOk result (IsReplayed workload.entry (vec_len readers)) }
{
    let all_slots = slots_for::<M>(alloc, readers.len())?;
    let slots = &all_slots;
    let prepared = prepare::<M>(alloc, readers, workload.questions.len())?;
    let context = Context {
        rt,
        alloc,
        slots,
        gate,
    };
    read_beside(&context, writer, workload, prepared)
}
