//! Notes of batches, which no clause follows through their slots.

ghost use Rattle.std.specs.Prelude.{◌≡◌, All, length};
ghost use Rattle.log_levels.specs.Accepted.{entries_of};
ghost use Rattle.published.specs.Writers.{IsEmptyWriter};

use batches::{Context, learn_newest, publish_all, slots_for};
use budget::NoMemory;
use edge::OpenGate;
use log_levels::Update;
use options::{Plan, Workers};
use published::{MapName, Reader, Slot, Writer, start_map};
use std::alloc::Global;
use std::marker::Brand;
use std::sync::Wait;
use std::test::Fail;
use std::thread::Threads;

/// What a reader that never looks has seen before and after it takes its newest note, and whether
/// nothing is left in its slot then.
fn informed<M: MapName + Send + Sync, R: Wait>(
    rt: &R,
    reader: Reader,
    slot: &Slot<M>,
) -> (u64, u64, bool)
    requires { reader.origin ≡ M.origin }
{
    let mut reader = reader;
    let before = reader.seen();
    learn_newest(rt, &mut reader, slot);
    (before, reader.seen(), slot.take(rt).is_none())
}

/// Publishes all updates, and lets each reader take its note. Answers what the readers knew.
fn all_informed<M: MapName + Send + Sync, R: Threads + Wait + Sync>(
    rt: &R,
    alloc: Global,
    writer: &mut Writer,
    readers: Vec<Reader>,
    updates: &[Update],
) -> Result<Vec<(u64, u64, bool)>, NoMemory>
    requires ready { IsEmptyWriter M.origin (length (entries_of updates.now)) writer.old }
    requires readers { All (λ reader. reader.origin ≡ M.origin) readers.items }
{
    let slots = slots_for::<M>(alloc, 2)?;
    let context = Context {
        rt,
        alloc,
        slots: &slots,
        gate: &OpenGate,
    };
    let plan = Plan {
        levels: 1,
        batch: 2,
        readers: 2,
        workers: Workers { count: 1 },
    };
    publish_all(&context, writer, updates, plan)?;
    let mut knew = Vec::new(alloc);
    let mut readers = readers;
    while let Some(reader) = readers.pop() {
        if let Some(slot) = slots.get(readers.len()) {
            knew.push(informed(rt, reader, slot))?;
        }
    }
    Ok(knew)
}

/// The writer leaves each reader a note of all that it published, the last in the place of the one
/// before, and a reader that takes it knows as much before it looks.
#[test]
fn each_reader_is_told(rt: HostRuntime) -> Result<(), Fail> {
    let updates = [Update::Put(1, 1), Update::Put(1, 2), Update::Put(1, 3)];
    let (mut writer, readers) = start_map(&rt, rt.alloc(), 1, 2)?;
    let knew = all_informed::<Brand, HostRuntime>(&rt, rt.alloc(), &mut writer, readers, &updates);
    writer.close(&rt);
    assert_eq!(rt; knew?.as_slice(), [(0, 3, true), (0, 3, true)].as_slice());
    Ok(())
}
