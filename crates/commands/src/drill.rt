// The command `drill`.
ghost use Rattle.std.specs.Prelude.{◌≡◌, ◌<◌, ◌≤◌, ◌^◌, [], ℕ, List};
ghost use Rattle.std.specs.Prelude.{IfOk, length, map, slice_index_or, sum};
ghost use Rattle.std.specs.List.{All};
ghost use Rattle.window_search.specs.Searches.{lb};
ghost use Rattle.zorder.specs.Points.{ArePoints};
ghost use Rattle.boxes.specs.PointCodes.{AreSortedCodes};
ghost use Rattle.boxes.specs.BoxAnswers.{IsLooked, codes_inside};
ghost use Rattle.log_levels.specs.Accepted.{IsPlain};
ghost use Rattle.log_levels.specs.Maps.{live_in, map_after};
ghost use Rattle.drill_inputs.specs.Inputs.{searched_region};
ghost use Rattle.written.specs.Writing.{WritesPieces, WritesText};
ghost use Rattle.options.specs.declared.drawing.TheConstants.{MAX_DRAWN};
ghost use Rattle.commands.specs.Tasks.{Bounds as TaskBounds, bounds_of};
ghost use Rattle.commands.specs.Texts.Drill.{IsCounted, IsDrilled, drill_line, drill_lines};
ghost use Rattle.commands.specs.Texts.Drill.{finds_line, index_line, points_line, updates_line};

use crate::finder::Finder;
use crate::indexing::index_of;
use crate::positions::positions_of;
use crate::task::{Indexing, SortedKeys};
use boxes::Boxes;
use budget::NoMemory;
use drill_inputs::{Inputs, searched_region};
use edge::{Failed, Gate, Sink};
use levels::Index;
use log_levels::{LogMap, MapFault, Update};
use options::{Bounds, Drill, Workers};
use std::alloc::Global;
use std::thread::Threads;
use written::{TextLine, Unfinished, hand_over};

/// How many levels the map of the drill has.
const MAP_LEVELS: u32 = 20;

/// What a drill counts.
#[derive(Clone, Copy)]
pub struct Counts {
    /// How many keys are distinct.
    pub distinct: u32,
    /// How many levels the index of the keys has.
    pub levels: u32,
    /// How many runs its level 0 has.
    pub runs: u32,
    /// The sum of the positions of the questions.
    pub sum: u64,
    /// How many points are in the region.
    pub found: u64,
    /// At how many places was looked.
    pub looked: u64,
    /// How many keys the map has after the updates.
    pub live: u64,
}

/// Writes what is counted of the inputs that are drawn for a number and a seed.
///
/// An index of the keys is built by the workers, which pass the gate, and finds the questions'
/// positions; the points are sorted and searched; and the updates are applied to a map. All memory
/// is taken before the first byte.
pub fn write<R: Threads + Sync, S: Sink, G: Gate>(
    rt: &R,
    alloc: Global,
    drill: Drill,
    bounds: Bounds,
    workers: Workers,
    out: &mut S,
    gate: &G,
) -> Result<(), Unfinished>
    ensures { WritesText S.Sink out.old result out.new
        (IsDrilled drill.number drill.seed (bounds_of bounds)) }
{
    let counts = counts_of(rt, alloc, drill, bounds, workers, gate)?;
    Ok(write_counts(out, drill, counts)?)
}

/// Draws the inputs, and counts.
fn counts_of<R: Threads + Sync, G: Gate>(
    rt: &R,
    alloc: Global,
    drill: Drill,
    bounds: Bounds,
    workers: Workers,
    gate: &G,
) -> Result<Counts, NoMemory>
    ensures { IfOk result
        (λ counts. IsCounted drill.number drill.seed (bounds_of bounds) counts) }
{
    let inputs = Inputs::drawn(alloc, drill)?;
    let Inputs {
        keys,
        finds,
        coordinates,
        updates,
    } = inputs;
    let sorted = SortedKeys { keys };
    let indexing = Indexing {
        sorted,
        bounds,
        workers,
    };
    let index = index_of(rt, alloc, indexing, gate)?;
    let sum = sum_of_positions(rt, alloc, &index, workers, &finds)?;
    let (found, looked) = points_in_region(rt, alloc, &coordinates)?;
    let live = live_after(rt, alloc, &updates, workers, gate)?;
    Ok(Counts {
        distinct: index.keys().distinct_count(),
        levels: index.level_count(),
        runs: index.runs(),
        sum,
        found,
        looked,
        live,
    })
}

/// The sum of the positions of the questions.
fn sum_of_positions<R: Threads + Sync>(
    rt: &R,
    alloc: Global,
    index: &Index,
    workers: Workers,
    finds: &[u64],
) -> Result<u64, NoMemory>
    requires { length finds.now ≤ MAX_DRAWN }
    ensures { IfOk result (λ sum_found. sum_found ≡ sum (map (lb index.now.keys) finds.now)) }
{
    let finder = Finder::Levels(index);
    let positions = positions_of(rt, alloc, &finder, workers, finds)?;
    Ok(sum_of(&positions))
}

/// The sum of fewer than 2^32 places.
fn sum_of(places: &[u32]) -> u64
    requires { length places.now < 2 ^ 32 }
    ensures { result ≡ sum places.now }
{
    places.iter().map(|place| u64::from(*place)).sum()
}

/// How many points are in the region that is searched, and at how many places is looked.
fn points_in_region<R: Threads + Sync>(
    rt: &R,
    alloc: Global,
    coordinates: &[u32],
) -> Result<(u64, u64), NoMemory>
    requires { ArePoints 2 coordinates.now }
    ensures { IfOk result (λ counts. (sorted : List ℕ)
        × AreSortedCodes 2 coordinates.now sorted
        × (counts.0 ≡ length (codes_inside searched_region sorted))
        × IsLooked searched_region sorted counts.1) }
{
    let boxes = Boxes::build(rt, alloc, 2, coordinates)?;
    let counts = boxes.count(&searched_region());
    Ok(counts)
}

/// How many keys a map has after updates, which it has room for.
fn live_after<R: Threads + Sync, G: Gate>(
    rt: &R,
    alloc: Global,
    updates: &[Update],
    workers: Workers,
    gate: &G,
) -> Result<u64, NoMemory>
    requires plain { All IsPlain updates.now }
    requires few { length updates.now ≤ MAX_DRAWN }
    ensures { IfOk result (λ live. live ≡ live_in (map_after updates.now)) }
{
    let mut map = LogMap::new(alloc, MAP_LEVELS)?;
    match map.apply(rt, alloc, updates, workers, gate) {
        Ok(()) => Ok(map.count(0, u64::MAX)),
        Err(MapFault::NoMemory) => Err(NoMemory),
        Err(MapFault::Full { .. }) => unreachable!(),
    }
}

/// Writes the text lines.
fn write_counts<S: Sink>(out: &mut S, drill: Drill, counts: Counts) -> Result<(), Failed>
    ensures { WritesPieces S.Sink out.old result out.new
        (drill_lines drill.number drill.seed counts) }
{
    let mut line = TextLine::new();
    for i in 0..5 {
        fill_line(&mut line, drill, counts, i);
        hand_over(out, line.as_bytes())?;
    }
    Ok(())
}

/// Fills text line `i`, counted from 0.
fn fill_line(line: &mut TextLine, drill: Drill, counts: Counts, i: usize)
    requires { i < 5 }
    ensures { line.new ≡ slice_index_or (drill_lines drill.number drill.seed counts) i [] }
{
    let n = drill.number;
    match i {
        0 => fill_drill_line(line, n, drill.seed),
        1 => fill_index_line(line, n, counts.distinct, counts.levels, counts.runs),
        2 => fill_finds_line(line, n, counts.sum),
        3 => fill_points_line(line, n, counts.found, counts.looked),
        _ => fill_updates_line(line, n, counts.live),
    }
}

fn fill_drill_line(line: &mut TextLine, n: u32, seed: u32)
    ensures { line.new ≡ drill_line n seed }
{
    line.clear();
    line.push(b"drill");
    line.push_number(n);
    line.push_number(seed);
    line.push(b"\n");
}

fn fill_index_line(line: &mut TextLine, n: u32, distinct: u32, levels: u32, runs: u32)
    ensures { line.new ≡ index_line n distinct levels runs }
{
    line.clear();
    line.push(b"keys");
    line.push_number(n);
    line.push(b" distinct");
    line.push_number(distinct);
    line.push(b" levels");
    line.push_number(levels);
    line.push(b" runs");
    line.push_number(runs);
    line.push(b"\n");
}

fn fill_finds_line(line: &mut TextLine, n: u32, sum: u64)
    ensures { line.new ≡ finds_line n sum }
{
    line.clear();
    line.push(b"finds");
    line.push_number(n);
    line.push(b" sum");
    line.push_number(sum);
    line.push(b"\n");
}

fn fill_points_line(line: &mut TextLine, n: u32, found: u64, looked: u64)
    ensures { line.new ≡ points_line n found looked }
{
    line.clear();
    line.push(b"points");
    line.push_number(n);
    line.push(b" found");
    line.push_number(found);
    line.push(b" looked");
    line.push_number(looked);
    line.push(b"\n");
}

fn fill_updates_line(line: &mut TextLine, n: u32, live: u64)
    ensures { line.new ≡ updates_line n live }
{
    line.clear();
    line.push(b"updates");
    line.push_number(n);
    line.push(b" live");
    line.push_number(live);
    line.push(b"\n");
}

/// A number, a seed and error bounds have one text: it depends on nothing else, so not on how many
/// workers there are. It does nothing.
pub fn one_drill()
    ensures { (n seed : ℕ) (bounds : TaskBounds) (one two : List (List ℕ)) →
        IsDrilled n seed bounds one → IsDrilled n seed bounds two → one ≡ two }
{}
