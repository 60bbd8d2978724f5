// The command `explain`.
ghost use Rattle.std.specs.Prelude.{◌≡◌, ◌∷◌, ◌<◌, ◌≤◌};
ghost use Rattle.std.specs.Prelude.{◌+◌, ◌++◌};
ghost use Rattle.std.specs.Prelude.{ℕ, List, length, codes};
ghost use Rattle.std.specs.Prelude.{decimal};
ghost use Rattle.std.specs.Fmt.{signed_decimal};
ghost use Rattle.std.specs.List.{flat_map};
ghost use Rattle.exact_cross.specs.Points.{places};
ghost use Rattle.written.specs.Writing.{WritesPieces, WritesText};
ghost use Rattle.commands.specs.Tasks.{Bounds as TaskBounds, bounds_of};
ghost use Rattle.commands.specs.Texts.Indexing.{tells_levels};
ghost use Rattle.commands.specs.Texts.Explain.{IsExplained, level_lines, ending};
ghost use Rattle.commands.specs.Texts.Explain.{run_line, run_lines};

use crate::indexing::{fill_level_line, index_of, write_keys};
use crate::task::Indexing;
use edge::{Failed, Gate, Sink};
use exact_cross::{Line, Segment, Side, Witness, start_at};
use levels::Index;
use options::Bounds;
use std::alloc::Global;
use std::thread::Threads;
use written::{LINE_ROOM, TextLine, Unfinished, hand_over};

/// Writes the index of the keys: how many keys and levels, and each level with its runs.
pub fn write<R: Threads + Sync, S: Sink, G: Gate>(
    rt: &R,
    alloc: Global,
    indexing: Indexing,
    out: &mut S,
    gate: &G,
) -> Result<(), Unfinished>
    ensures { WritesText S.Sink out.old result out.new
        (IsExplained indexing.sorted.keys.items (bounds_of indexing.bounds)) }
{
    let bounds = indexing.bounds;
    let index = index_of(rt, alloc, indexing, gate)?;
    Ok(write_index(out, &index, bounds)?)
}

/// Writes the text line of the keys, and what is told of the levels.
fn write_index<S: Sink>(out: &mut S, index: &Index, bounds: Bounds) -> Result<(), Failed>
    ensures { WritesPieces S.Sink out.old result out.new
        (tells_levels index.now.keys index.now.levels
        (level_lines index.now.keys (bounds_of bounds) index.now.levels)) }
{
    let mut line = TextLine::new();
    write_keys(out, &mut line, index)?;
    write_levels(out, &mut line, index, bounds)
}

/// Writes the text lines of each level.
fn write_levels<S: Sink>(
    out: &mut S,
    line: &mut TextLine,
    index: &Index,
    bounds: Bounds,
) -> Result<(), Failed>
    ensures { WritesPieces S.Sink out.old result out.new
        (flat_map (level_lines index.now.keys (bounds_of bounds) index.now.levels)
        (places (length index.now.levels))) }
{
    for i in 0..index.level_count() {
        write_level(out, line, index, bounds, i)?;
    }
    Ok(())
}

/// Writes the text lines of level `i`.
fn write_level<S: Sink>(
    out: &mut S,
    line: &mut TextLine,
    index: &Index,
    bounds: Bounds,
    i: u32,
) -> Result<(), Failed>
    requires there { i < length index.now.levels }
    ensures { WritesPieces S.Sink out.old result out.new
        (level_lines index.now.keys (bounds_of bounds) index.now.levels i) }
{
    fill_level_line(line, index, bounds, None, i);
    hand_over(out, line.as_bytes())?;
    write_runs(out, line, index.segments(i), index.point_count(i))
}

/// Writes a text line for each run, the last of which ends at `to`.
fn write_runs<S: Sink>(
    out: &mut S,
    line: &mut TextLine,
    segments: &[Segment],
    to: u32,
) -> Result<(), Failed>
    ensures { WritesPieces S.Sink out.old result out.new (run_lines segments.now to) }
{
    for i in 0..segments.len() {
        let end = start_at(segments, i + 1, to);
        fill_run_line(line, &segments[i], end);
        hand_over(out, line.as_bytes())?;
    }
    Ok(())
}

fn fill_run_line(line: &mut TextLine, segment: &Segment, end: u32)
    ensures { line.new ≡ run_line segment.now end }
{
    line.clear();
    line.push_places(b"run", segment.start, end);
    line.push_places(b" pair", segment.a, segment.b);
    push_line(line, &segment.line);
    push_ending(line, &segment.cut);
}

/// Adds a line: its word, and behind it four numbers, each of at most 20 digits, or of 19 and a
/// sign, after a space.
fn push_line(text: &mut TextLine, line: &Line)
    requires { length text.old + 89 ≤ LINE_ROOM }
    ensures text { text.new
        ≡ text.old ++ codes " line" ++ 32 ∷ decimal line.now.x0
        ++ 32 ∷ signed_decimal line.now.y0
        ++ 32 ∷ decimal line.now.rise ++ 32 ∷ decimal line.now.run }
    ensures room { length text.new ≤ length text.old + 89 }
{
    text.push(b" line");
    text.push_number(line.x0);
    text.push_number(line.y0);
    text.push_number(line.rise);
    text.push_number(line.run);
}

/// Adds how a run ends, and ends the line of text.
fn push_ending(text: &mut TextLine, cut: &Option<Witness>)
    requires { length text.old + 44 ≤ LINE_ROOM }
    ensures { text.new ≡ text.old ++ ending cut.now }
{
    match cut {
        None => text.push(b" end\n"),
        Some(witness) => {
            match witness.side {
                Side::Over => text.push(b" cut over"),
                Side::Under => text.push(b" cut under"),
            }
            text.push_number(witness.p);
            text.push_number(witness.q);
            text.push_number(witness.r);
            text.push(b"\n");
        }
    }
}

/// Keys and error bounds have one text of `explain`: it depends on nothing else, so not on how many
/// workers there are. It does nothing.
pub fn one_explain()
    ensures { (keys : List ℕ) (bounds : TaskBounds) (one two : List (List ℕ)) →
        IsExplained keys bounds one → IsExplained keys bounds two → one ≡ two }
{}
