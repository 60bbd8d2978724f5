// The command `mix`.
ghost use Rattle.written.specs.Writing.{WritesText};
ghost use Rattle.map_commands.specs.Mix.{IsMixedText};

use crate::history::Mixing;
use crate::told::write_lines;
use edge::{Gate, Sink};
use map_replay::{Assignment, Dealing, mix};
use std::alloc::Global;
use std::sync::Wait;
use std::thread::Threads;
use written::Unfinished;

/// For how many updates the queue between senders and writer has room.
const QUEUE_ROOM: u32 = 64;

/// Writes how many updates there are, which sender sent each of them in the order in which they
/// came, what each reader was answered beside them, what the map after all of them answers to each
/// question, and how many keys it has.
///
/// All memory is taken before the first byte.
pub fn write_mix<R: Threads + Wait + Sync, S: Sink, G: Gate>(
    rt: &R,
    alloc: Global,
    mixing: Mixing,
    out: &mut S,
    gate: &G,
) -> Result<(), Unfinished>
    ensures { WritesText S.Sink out.old result out.new (IsMixedText mixing.history.updates.items
        mixing.history.questions.items mixing.history.plan.readers mixing.senders.count) }
{
    let Mixing { history, senders } = mixing;
    let dealing = Dealing {
        senders,
        room: QUEUE_ROOM,
    };
    let (updates, questions) = (&history.updates, &history.questions);
    let assignment = Assignment { updates, dealing };
    let left = mix(rt, alloc, assignment, questions, history.plan, gate)?;
    let (numbers, updates) = (left.numbers(), left.mixed());
    let done = write_lines(out, &left, numbers, updates, left.readings(), questions);
    left.close(rt);
    Ok(done?)
}
