// The command `replay`.
ghost use Rattle.std.specs.Prelude.{◌≡◌, ◌<◌, List, IfOk};
ghost use Rattle.log_levels.specs.declared.update.Update.{Update};
ghost use Rattle.log_levels.specs.Maps.{map_after};
ghost use Rattle.log_levels.specs.Shapes.{StandsFor};
ghost use Rattle.written.specs.Writing.{WritesText};
ghost use Rattle.map_commands.specs.Replay.{IsReplayed};

use crate::history::History;
use crate::told::write_lines;
use budget::NoMemory;
use edge::{Gate, Sink};
use log_levels::{LogMap, MapFault};
use map_replay::{Reading, replay};
use std::alloc::Global;
use std::sync::Wait;
use std::thread::Threads;
use written::Unfinished;

/// Writes how many updates there are, what each reader was answered beside them, what the map after
/// all of them answers to each question, and how many keys it has.
///
/// Without readers the map is made at once, by workers, unless it is there already; with readers it
/// is published in batches.
///
/// All memory is taken before the first byte.
pub fn write_replay<R: Threads + Wait + Sync, S: Sink, G: Gate>(
    rt: &R,
    alloc: Global,
    history: History,
    out: &mut S,
    gate: &G,
) -> Result<(), Unfinished>
    ensures { WritesText S.Sink out.old result out.new (IsReplayed history.updates.items
        history.questions.items history.plan.batch history.plan.readers) }
{
    if history.plan.readers == 0 {
        return write_alone(rt, alloc, &history, out, gate);
    }
    write_beside(rt, alloc, &history, out, gate)
}

/// Writes the text where there are no readers.
fn write_alone<R: Threads + Sync, S: Sink, G: Gate>(
    rt: &R,
    alloc: Global,
    history: &History,
    out: &mut S,
    gate: &G,
) -> Result<(), Unfinished>
    requires { history.now.plan.readers ≡ 0 }
    ensures { WritesText S.Sink out.old result out.new (IsReplayed history.now.updates.items
        history.now.questions.items history.now.plan.batch history.now.plan.readers) }
{
    match &history.map {
        Some(map) => {
            let _ = map.accepted();
            write_by(out, map, history)
        }
        None => write_by(out, &map_of(rt, alloc, history, gate)?, history),
    }
}

/// Writes the text without readers, by the map after the updates.
fn write_by<S: Sink>(out: &mut S, map: &LogMap, history: &History) -> Result<(), Unfinished>
    requires alone { history.now.plan.readers ≡ 0 }
    requires map { (updates : List Update) × StandsFor map.now updates
        × (map_after history.now.updates.items ≡ map_after updates) }
    ensures { WritesText S.Sink out.old result out.new (IsReplayed history.now.updates.items
        history.now.questions.items history.now.plan.batch history.now.plan.readers) }
{
    let (numbers, readings): ([u32; 0], [Reading; 0]) = ([], []);
    let (updates, questions) = (&history.updates, &history.questions);
    Ok(write_lines(out, map, &numbers, updates, &readings, questions)?)
}

/// Writes the text where there are readers.
fn write_beside<R: Threads + Wait + Sync, S: Sink, G: Gate>(
    rt: &R,
    alloc: Global,
    history: &History,
    out: &mut S,
    gate: &G,
) -> Result<(), Unfinished>
    requires { 0 < history.now.plan.readers }
    ensures { WritesText S.Sink out.old result out.new (IsReplayed history.now.updates.items
        history.now.questions.items history.now.plan.batch history.now.plan.readers) }
{
    let (updates, questions) = (&history.updates, &history.questions);
    let left = replay(rt, alloc, updates, questions, history.plan, gate)?;
    let numbers: [u32; 0] = [];
    let done = write_lines(out, &left, &numbers, updates, left.readings(), questions);
    left.close(rt);
    Ok(done?)
}

/// The map after the updates, which it has room for.
fn map_of<R: Threads + Sync, G: Gate>(
    rt: &R,
    alloc: Global,
    history: &History,
    gate: &G,
) -> Result<LogMap, NoMemory>
    ensures { IfOk result (λ map. StandsFor map history.now.updates.items) }
{
    let mut map = LogMap::new(alloc, history.plan.levels)?;
    match map.apply(rt, alloc, &history.updates, history.plan.workers, gate) {
        Ok(()) => Ok(map),
        Err(MapFault::NoMemory) => Err(NoMemory),
        Err(MapFault::Full { .. }) => unreachable!(),
    }
}
