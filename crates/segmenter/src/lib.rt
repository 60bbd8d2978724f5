//! The greedy segmentation of points: as few segments as lines can do.
//!
//! The points are cut from the left, and each run is as long as some line is within the error bound
//! `ε` at all its places. Of the keys 0, 1, 2, 10, each at the height of its rank, with `ε = 0` the
//! runs are `0..3`, on the line through 0 and 1, and `3..4`. Each run but the last keeps why it
//! ends: no line fits the places 0, 1 and 3, since the key 10 lies under the line through 0 and 1.
//!
//! Main clauses: `least` of [`segment`], and `cost` of [`segment_counted`]: at most 12 steps a
//! point. What a least segmentation is stands in `specs/Least.antt`, in the words of `exact_cross`.
#![tactic(auto)]

ghost use Rattle.std.specs.Prelude.{◌≡◌, ℕ, ◌+◌, ◌-◌, ◌*◌, ◌≤◌, List, length, IfOk};
ghost use Rattle.budget.specs.Ledgers.{IsNewLedger};
ghost use Rattle.exact_cross.specs.declared.segment.Segment.{Segment};
ghost use Rattle.exact_cross.specs.Points.{Points, IsAscending};
ghost use Rattle.exact_cross.specs.PointLists.{points_in};
ghost use Rattle.exact_cross.specs.Segmentation.{IsSegmentation};
ghost use Rattle.segmenter.specs.Least.{IsLeastSegmentation};

mod laws;
pub mod run;
mod whole;

use budget::{NoMemory, Steps};
use exact_cross::{MAX_EPSILON, PointList, Segment};
use hulls::Hulls;
pub use laws::some_segmentation;
use run::longest_run;
use std::alloc::Global;
use std::marker::Brand;
use std::sync::ledger::{Blank, Ledger};
use whole::whole_run;

/// The greedy segments of the places `from..to` of points, with places as in the whole list.
///
/// `eps` is the error bound `ε`, in places. Each segment has the steep pair of its run and that
/// pair's line, which fits the run. Each but the last has a cut, three places that no line fits:
/// those of the steep pair and the next run's start where this lies over all lines of the run, and
/// those of the flat pair and it where it lies under them. No cover of the range has fewer runs,
/// and the segments of a whole list show that by themselves. An empty range has no segment. It
/// takes the steps of [`segment_counted`], and counts nothing.
///
/// # Errors
///
/// `NoMemory` alone, where the list of segments or the two hulls find none. The hulls ask for 32
/// bytes a point, once for the whole range, and touch as much as the longest hulls of a run take.
///
/// Source: Ferragina and Vinciguerra, PVLDB 13(8), 2020, section 3.1; O'Rourke, CACM 24(9), 1981.
pub fn segment(
    alloc: Global,
    points: PointList<'_>,
    eps: u32,
    from: u32,
    to: u32,
) -> Result<Vec<Segment>, NoMemory>
    requires bounded { eps ≤ MAX_EPSILON }
    requires range { from ≤ to }
    requires within { to ≤ length points.xs.now }
    ensures least { IfOk result (λ segments.
        IsLeastSegmentation (points_in points.entry) eps from to segments.items) }
{
    segment_from::<Brand>(alloc, points, eps, from, to, Blank::new(1))
}

/// The segments of [`segment`], with the steps counted: at most 12 for each point of the range.
///
/// A step is a comparison of two slopes or a test of a point against a line.
///
/// # Errors
///
/// `NoMemory` alone, as in [`segment`].
pub fn segment_counted<L: Ledger>(
    alloc: Global,
    points: PointList<'_>,
    eps: u32,
    from: u32,
    to: u32,
    steps: &mut Steps<L>,
) -> Result<Vec<Segment>, NoMemory>
    requires bounded { eps ≤ MAX_EPSILON }
    requires range { from ≤ to }
    requires within { to ≤ length points.xs.now }
    ensures least { IfOk result (λ segments.
        IsLeastSegmentation (points_in points.entry) eps from to segments.items) }
    ensures cost { steps.new ≤ steps.old + 12 * (to - from) }
{
    let mut segments = Vec::new(alloc);
    if let Some(segment) = whole_run(points, eps, from, to, steps) {
        segments.push(segment)?;
        return Ok(segments);
    }
    let mut hulls = Hulls::new(alloc, eps, to - from)?;
    let mut start = from;
    while start < to {
        let run = longest_run(&mut hulls, points, start, to, steps);
        segments.push(run.segment)?;
        start = run.end;
    }
    Ok(segments)
}

/// The segments of [`segment`], their steps counted in a new ledger.
fn segment_from<L: Ledger>(
    alloc: Global,
    points: PointList<'_>,
    eps: u32,
    from: u32,
    to: u32,
    blank: Blank,
) -> Result<Vec<Segment>, NoMemory>
    requires bounded { eps ≤ MAX_EPSILON }
    requires range { from ≤ to }
    requires within { to ≤ length points.xs.now }
    requires ledger { IsNewLedger blank L.name L.parts }
    ensures least { IfOk result (λ segments.
        IsLeastSegmentation (points_in points.entry) eps from to segments.items) }
{
    let mut steps = Steps::<L>::new(blank);
    segment_counted(alloc, points, eps, from, to, &mut steps)
}

/// Points and an error bound have one segmentation: two lists of segments that are greedy, steep
/// and have their cuts are equal.
pub fn one_segmentation()
    ensures { (p : Points) (eps from to : ℕ) (one two : List Segment) → IsAscending p → to ≤ p.count
        → IsSegmentation p eps from to one → IsSegmentation p eps from to two → one ≡ two }
{}
