// What the commands over an index share: building it, and its first text lines.
ghost use Rattle.std.specs.Prelude.{◌≡◌, ◌∷◌, ◌++◌, ◌<◌, ◌≤◌, [], length, IfOk};
ghost use Rattle.levels.specs.Indexes.{IsIndexOf};
ghost use Rattle.written.specs.Writing.{WritesPieces};
ghost use Rattle.commands.specs.Tasks.{bounds_of};
ghost use Rattle.commands.specs.Texts.Indexing.{keys_line, level_line_of};
ghost use Rattle.commands.specs.Texts.Indexing.{slack_at, slack_ending};

use crate::task::Indexing;
use budget::NoMemory;
use edge::{Failed, Gate, Sink};
use levels::{Index, Keys};
use options::Bounds;
use std::alloc::Global;
use std::thread::Threads;
use written::{TextLine, hand_over};

/// The index of the keys, level 0 of which is built in pieces by the workers.
pub fn index_of<R: Threads + Sync, G: Gate>(
    rt: &R,
    alloc: Global,
    indexing: Indexing,
    gate: &G,
) -> Result<Index, NoMemory>
    ensures { IfOk result (IsIndexOf indexing.sorted.keys.items indexing.bounds.eps
        indexing.bounds.eps_rec) }
{
    let Indexing {
        sorted,
        bounds,
        workers,
    } = indexing;
    Index::by_workers(rt, alloc, Keys::of(sorted.keys), bounds, workers, gate)
}

/// Writes how many keys there are, how many distinct ones, and how many levels.
pub fn write_keys<S: Sink>(out: &mut S, line: &mut TextLine, index: &Index) -> Result<(), Failed>
    ensures { WritesPieces S.Sink out.old result out.new
        (keys_line index.now.keys (length index.now.levels) ∷ []) }
{
    fill_keys_line(line, index);
    hand_over(out, line.as_bytes())
}

fn fill_keys_line(line: &mut TextLine, index: &Index)
    ensures { line.new ≡ keys_line index.now.keys (length index.now.levels) }
{
    line.clear();
    line.push(b"keys");
    line.push_number(index.keys().len());
    line.push(b" distinct");
    line.push_number(index.keys().distinct_count());
    line.push(b" levels");
    line.push_number(index.level_count());
    line.push(b"\n");
}

/// Fills the text line of level `i`, where level 0 has a slack or not.
pub fn fill_level_line(
    line: &mut TextLine,
    index: &Index,
    bounds: Bounds,
    slack: Option<u32>,
    i: u32,
)
    requires there { i < length index.now.levels }
    ensures { line.new
        ≡ level_line_of index.now.keys (bounds_of bounds) slack index.now.levels i }
{
    line.clear();
    line.push(b"level");
    line.push_number(i);
    line.push(b" list");
    line.push_number(index.point_count(i));
    line.push(b" eps");
    line.push_number(if i == 0 { bounds.eps } else { bounds.eps_rec });
    line.push(b" runs");
    line.push_number(index.segments(i).len());
    push_ending(line, slack_at(slack, i));
}

fn slack_at(slack: Option<u32>, i: u32) -> Option<u32>
    ensures { result ≡ slack_at slack i }
{
    if i == 0 { slack } else { None }
}

/// Ends the text line of a level that has a slack or not.
fn push_ending(line: &mut TextLine, slack: Option<u32>)
    requires { length line.old ≤ 128 }
    ensures { line.new ≡ line.old ++ slack_ending slack }
{
    if let Some(slack) = slack {
        line.push(b" slack");
        line.push_number(slack);
    }
    line.push(b"\n");
}
