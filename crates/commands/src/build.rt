// The command `build`.
ghost use Rattle.std.specs.Prelude.{◌≡◌, ℕ, List, length, None};
ghost use Rattle.std.specs.List.{flat_map};
ghost use Rattle.exact_cross.specs.Points.{places};
ghost use Rattle.written.specs.Writing.{WritesPieces, WritesText};
ghost use Rattle.commands.specs.Tasks.{Bounds as TaskBounds, bounds_of};
ghost use Rattle.commands.specs.Texts.Indexing.{tells_levels};
ghost use Rattle.commands.specs.Texts.Build.{IsBuilt, built_level};

use crate::indexing::{fill_level_line, index_of, write_keys};
use crate::task::Indexing;
use edge::{Failed, Gate, Sink};
use levels::Index;
use options::Bounds;
use std::alloc::Global;
use std::thread::Threads;
use written::{TextLine, Unfinished, hand_over};

/// Writes the index of the keys: how many keys and levels, and of each level how many runs.
pub fn write<R: Threads + Sync, S: Sink, G: Gate>(
    rt: &R,
    alloc: Global,
    indexing: Indexing,
    out: &mut S,
    gate: &G,
) -> Result<(), Unfinished>
    ensures { WritesText S.Sink out.old result out.new
        (IsBuilt indexing.sorted.keys.items (bounds_of indexing.bounds)) }
{
    let bounds = indexing.bounds;
    let index = index_of(rt, alloc, indexing, gate)?;
    Ok(write_index(out, &index, bounds, None)?)
}

/// Writes the text line of the keys, and that of each level, where level 0 has a slack or not.
pub fn write_index<S: Sink>(
    out: &mut S,
    index: &Index,
    bounds: Bounds,
    slack: Option<u32>,
) -> Result<(), Failed>
    ensures { WritesPieces S.Sink out.old result out.new
        (tells_levels index.now.keys index.now.levels
        (built_level index.now.keys (bounds_of bounds) slack index.now.levels)) }
{
    let mut line = TextLine::new();
    write_keys(out, &mut line, index)?;
    write_levels(out, &mut line, index, bounds, slack)
}

/// Writes a text line for each level.
fn write_levels<S: Sink>(
    out: &mut S,
    line: &mut TextLine,
    index: &Index,
    bounds: Bounds,
    slack: Option<u32>,
) -> Result<(), Failed>
    ensures { WritesPieces S.Sink out.old result out.new
        (flat_map (built_level index.now.keys (bounds_of bounds) slack index.now.levels)
        (places (length index.now.levels))) }
{
    for i in 0..index.level_count() {
        fill_level_line(line, index, bounds, slack, i);
        hand_over(out, line.as_bytes())?;
    }
    Ok(())
}

/// Keys and error bounds have one text of `build`: it depends on nothing else, so not on how many
/// workers there are. It does nothing.
pub fn one_build()
    ensures { (keys : List ℕ) (bounds : TaskBounds) (one two : List (List ℕ)) →
        IsBuilt keys bounds one → IsBuilt keys bounds two → one ≡ two }
{}
