// The writer's side: batch after batch, with a note to each reader.
ghost use Rattle.std.specs.Prelude.{◌≡◌, ◌*◌, ◌-◌, ◌≤◌, ◌<◌, ◌++◌, ◌∷◌, [], length};
ghost use Rattle.std.specs.Prelude.{OnOk, OnErr};
ghost use mathlib.Core.List.{IsPrefix};
ghost use Rattle.log_levels.specs.Accepted.{entries_of};
ghost use Rattle.published.specs.Histories.{published, updates_of};
ghost use Rattle.published.specs.Writers.{IsEmptyWriter, IsSameMap};
ghost use Rattle.batches.specs.Batches.{AreBatches, AreFull};

use crate::context::Context;
use budget::NoMemory;
use edge::{Gate, Place};
use log_levels::{MapFault, Update};
use options::{Plan, Workers};
use published::{MapName, Slot, Writer};
use std::sync::Wait;
use std::thread::Threads;

/// Publishes all updates in batches of a plan's size, and leaves each reader a note of each batch.
///
/// # Errors
///
/// `NoMemory` alone, with the first batch that can't be published. What is published then are the
/// first updates, in full batches, and nothing is staged: [`publish_batch`] takes the next ones.
pub fn publish_all<M: MapName + Send + Sync, R: Threads + Wait + Sync, G: Gate>(
    context: &Context<'_, M, R, G>,
    writer: &mut Writer,
    updates: &[Update],
    plan: Plan,
) -> Result<(), NoMemory>
    requires { IsEmptyWriter M.origin (length (entries_of updates.now)) writer.old }
    ensures same_map { IsSameMap writer.old writer.new }
    ensures none_staged { writer.new.batch ≡ [] }
    ensures all { OnOk result (updates_of writer.new.history ≡ updates.now) }
    ensures batches { AreBatches plan.batch writer.new.history }
    ensures begins { IsPrefix (updates_of writer.new.history) updates.now }
    ensures full { OnErr result (AreFull plan.batch writer.new.history) }
{
    let size = plan.batch as usize;
    for number in 0..updates.len().div_ceil(size) {
        let from = number * size;
        let to = updates.len().min(from + size);
        let batch = &updates[from..to];
        publish_batch(context, writer, batch, number as u64 + 1, plan.workers)?;
    }
    Ok(())
}

/// Publishes a batch, leaves each reader a note of it, and passes the gate.
///
/// # Errors
///
/// `NoMemory` alone, where the batch can't be staged. The writer is as it was then, with nothing
/// staged and nothing published, and the same call may be made again.
pub fn publish_batch<M: MapName + Send + Sync, R: Threads + Wait + Sync, G: Gate>(
    context: &Context<'_, M, R, G>,
    writer: &mut Writer,
    batch: &[Update],
    number: u64,
    workers: Workers,
) -> Result<(), NoMemory>
    requires own { writer.old.origin ≡ M.origin }
    requires some { 0 < length batch.now }
    requires none_staged { writer.old.batch ≡ [] }
    requires fits { length (entries_of (updates_of writer.old.history ++ batch.now))
        ≤ writer.old.capacity }
    ensures same_map { IsSameMap writer.old writer.new }
    ensures none_staged { writer.new.batch ≡ [] }
    ensures published { OnOk result
        (writer.new.history ≡ writer.old.history ++ batch.now ∷ []) }
    ensures unchanged { OnErr result (writer.new ≡ writer.old) }
{
    match writer.stage(context.rt, context.alloc, batch, workers, context.gate) {
        Ok(()) => {}
        Err(MapFault::NoMemory) => return Err(NoMemory),
        Err(MapFault::Full { .. }) => unreachable!(),
    }
    publish_staged(context.rt, writer);
    tell_all(context.rt, writer, context.slots);
    context.gate.at(Place::Published(number));
    Ok(())
}

/// Publishes what is staged. The share of the map that is refused is asked for again: it takes no
/// memory, and is had unless the map has as many owners as can be counted.
fn publish_staged<R: Wait>(rt: &R, writer: &mut Writer)
    ensures published { writer.new.history ≡ published writer.old.history writer.old.batch }
    ensures emptied { writer.new.batch ≡ [] }
    ensures same_map { IsSameMap writer.old writer.new }
{
    for _turn in rt.forever() {
        if writer.publish(rt).is_ok() {
            return;
        }
    }
    unreachable!()
}

/// Leaves each reader a note of what is published.
fn tell_all<M: MapName + Send + Sync, R: Wait>(rt: &R, writer: &mut Writer, slots: &[Slot<M>])
    requires own { writer.old.origin ≡ M.origin }
    ensures same { writer.new ≡ writer.old }
{
    for slot in slots {
        slot.put(rt, writer.tell());
    }
}
