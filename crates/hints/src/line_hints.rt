// The hints of a run: the line in the middle of its steepest line and its flattest.
ghost use Rattle.std.specs.Prelude.{◌+◌, ◌*◌, ◌<◌, ◌≤◌, ◌^◌, length};
ghost use Rattle.std.specs.Prelude.{pos, ◌+ℤ◌, ◌≤ℤ◌, ◌<ℤ◌, unsigned_abs};
ghost use Rattle.exact_cross.specs.Checked.{IsInRange};
ghost use Rattle.exact_cross.specs.Floors.{IsFloorAt};
ghost use Rattle.exact_cross.specs.PointLists.{points_in};
ghost use Rattle.hulls.specs.FlatLines.{IsFlatInRange, MeanRises};
ghost use Rattle.hints.specs.Made.{AreLinesOfRun, IsFlatFloorAt, IsSumOfSlopes, TellsPoints};

use exact_cross::{Line, MAX_EPSILON, PointList};
use hulls::FlatLine;
use segmenter::run::Run;

/// The hints of a line.
#[derive(Clone, Copy)]
pub struct LineHints {
    /// The first x.
    pub first: u64,
    /// The slope, times two to so many binary places.
    pub multiplier: u64,
    /// The height at the first x, raised by ε, times 128, and how many binary places those are.
    pub packed: u64,
}

/// The hints of the run from `start` on.
///
/// The mean of the steepest and the flattest line is within ε, as both are. The sum of their
/// slopes, each rounded up, has one binary place more than the run is wide, so that it is less than
/// a place above the mean's climb; and the height at the first x is half of the floors' sum and
/// one. So where the mean passes whole numbers, these are told.
pub fn hints_of_run(points: PointList<'_>, start: u32, run: &Run, eps: u32) -> LineHints
    requires bounded { eps ≤ MAX_EPSILON }
    requires some { start < run.now.end }
    requires within { run.now.end ≤ length points.xs.now }
    requires lines { AreLinesOfRun (points_in points) eps start run.now.end
        run.now.segment.line run.now.flat }
    ensures { TellsPoints (points_in points.entry) eps result.first result.multiplier
        result.packed start run.now.end }
{
    let first = points.xs[start as usize];
    let width = points.xs[run.end as usize - 1] - first;
    let places = binary_places(width);
    let multiplier = sum_of_slopes(&run.segment.line, &run.flat, width, places);
    let steep_floor = run.segment.line.floor_at(first);
    let height = middle_height(steep_floor, flat_floor(&run.flat, first), eps);
    LineHints {
        first,
        multiplier,
        packed: height * 128 + u64::from(places + 1),
    }
}

/// Half of two floors and one, raised by ε.
fn middle_height(steep_floor: i128, flat_floor: i128, eps: u32) -> u64
    requires bounded { eps ≤ MAX_EPSILON }
    requires steep_not_below { pos 0 ≤ℤ (steep_floor +ℤ pos eps) }
    requires steep_low { steep_floor <ℤ pos (2 ^ 33) }
    requires flat_not_below { pos 0 ≤ℤ (flat_floor +ℤ pos eps) }
    requires flat_low { flat_floor <ℤ pos (2 ^ 33) }
    ensures not_above { pos (2 * result) ≤ℤ (steep_floor +ℤ flat_floor +ℤ pos (1 + 2 * eps)) }
    ensures half { (steep_floor +ℤ flat_floor +ℤ pos (1 + 2 * eps)) ≤ℤ pos (2 * result + 1) }
{
    (steep_floor + flat_floor + 1 + 2 * i128::from(eps)) as u64 / 2
}

/// The greatest whole number that isn't above a flat line at `q`.
///
/// A falling line is at `q` as high above `x0` as a line that rises as much, from `q` on, at `x0`.
fn flat_floor(line: &FlatLine, q: u64) -> i128
    requires in_range { IsFlatInRange line.now }
    ensures { IsFlatFloorAt line.now q result }
{
    let rise = line.rise.unsigned_abs();
    if line.rise < 0 {
        i128::from(line.y0) + climb(q, line.x0, rise, line.run)
    } else {
        i128::from(line.y0) + climb(line.x0, q, rise, line.run)
    }
}

/// What a line climbs from one x to another, rounded down.
fn climb(x0: u64, x: u64, rise: u64, run: u64) -> i128
    requires positive { 1 ≤ run }
    requires low { rise < 2 ^ 32 + 2 ^ 21 }
    ensures exact { IsFloorAt (record { x0 = x0; y0 = pos 0; rise = rise; run = run }) x result }
    ensures not_high { result <ℤ pos (2 ^ 100) }
    ensures not_low { pos 0 ≤ℤ (result +ℤ pos (2 ^ 100)) }
{
    let line = Line {
        x0,
        y0: 0,
        rise,
        run,
    };
    line.floor_at(x)
}

/// How many binary places a number has.
fn binary_places(width: u64) -> u32
    ensures most { result ≤ 64 }
    ensures fits { width < 2 ^ result }
    ensures least { 2 ^ result ≤ 2 * width + 1 }
{
    64 - width.leading_zeros()
}

/// The sum of the slopes of a steep and a flat line, each times two to so many places and rounded
/// up.
fn sum_of_slopes(steep: &Line, flat: &FlatLine, width: u64, places: u32) -> u64
    requires in_range { IsInRange steep.now }
    requires flat_in_range { IsFlatInRange flat.now }
    requires rises { MeanRises steep.now flat.now }
    requires climb { steep.now.rise * width ≤ 2 ^ 33 * steep.now.run }
    requires flat_climb { unsigned_abs flat.now.rise * width ≤ 2 ^ 33 * flat.now.run }
    requires most { places ≤ 64 }
    requires least { 2 ^ places ≤ 2 * width + 1 }
    ensures { IsSumOfSlopes steep.now flat.now (2 ^ places) result }
{
    let more = rounded_up(steep.rise, steep.run, width, places);
    let rise = flat.rise.unsigned_abs();
    if flat.rise < 0 {
        more - rounded_down(rise, flat.run, width, places)
    } else {
        more + rounded_up(rise, flat.run, width, places)
    }
}

/// A slope that climbs little over a width, times two to so many places, rounded up.
fn rounded_up(rise: u64, run: u64, width: u64, places: u32) -> u64
    requires positive { 1 ≤ run }
    requires low { rise < 2 ^ 33 }
    requires climb { rise * width ≤ 2 ^ 33 * run }
    requires most { places ≤ 64 }
    requires least { 2 ^ places ≤ 2 * width + 1 }
    ensures not_below { rise * 2 ^ places ≤ result * run }
    ensures nearest { result * run < rise * 2 ^ places + run }
    ensures small { result < 2 ^ 35 }
{
    let run = u128::from(run);
    (((u128::from(rise) << places) + (run - 1)) / run) as u64
}

/// A slope that climbs little over a width, times two to so many places, rounded down.
fn rounded_down(rise: u64, run: u64, width: u64, places: u32) -> u64
    requires positive { 1 ≤ run }
    requires low { rise < 2 ^ 33 }
    requires climb { rise * width ≤ 2 ^ 33 * run }
    requires most { places ≤ 64 }
    requires least { 2 ^ places ≤ 2 * width + 1 }
    ensures not_above { result * run ≤ rise * 2 ^ places }
    ensures nearest { rise * 2 ^ places < result * run + run }
{
    ((u128::from(rise) << places) / u128::from(run)) as u64
}
