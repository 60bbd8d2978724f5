//! Checks that show how few segments a list of points needs, whoever made the segments.
//!
//! A witness is three places that no line fits. Where each run of a cover but the last ends with
//! one, no cover has fewer runs. Of the keys 0, 1, 2, 10, each at the height of its rank, with `ε =
//! 0` the run `0..3` ends with the places 0, 1 and 3: the line through the first two passes far
//! above the rank of the key 10.
//!
//! Main clauses: `certified` of [`check_cover`] and of [`slack`], and `exact` of [`is_steep`] and
//! [`is_flat`], which judge the pairs of a run. The words of the clauses are those of
//! `exact_cross`. No call takes memory.
#![tactic(auto)]

ghost use Rattle.std.specs.Prelude.{◌≡◌, ◌-◌, ◌<◌, ◌≤◌, ◌↔◌, length, IsTrue};
ghost use Rattle.std.specs.Prelude.{IsSome, IfSome};
ghost use Rattle.exact_cross.specs.PointLists.{points_in};
ghost use Rattle.exact_cross.specs.Lines.{RationalLine, IsWithin};
ghost use Rattle.exact_cross.specs.Witnesses.{IsBeyond, IsWitness};
ghost use Rattle.exact_cross.specs.Segments.{starts_of};
ghost use Rattle.exact_cross.specs.Checked.{IsCutIfAny, AreChecked, AreShown};
ghost use Rattle.exact_cross.specs.Checked.{IsLeastCover, IsCoverWithin, uncut};
ghost use Rattle.cut_witness.specs.Runs.{IsShownRun};

mod pairs;

use exact_cross::{MAX_EPSILON, PointList, Segment, Side, Witness};
pub use pairs::{is_flat, is_steep};

/// Whether the three places are in order, below the list's length, and beyond every line by the
/// side's inequality.
///
/// `eps` is the error bound `ε`, in places. Over: the chord of `ε` below the outer two points
/// passes more than `ε` above the middle one. Under: the chord of `ε` above them passes more than
/// `ε` below it. The inequalities are exact.
pub fn holds(w: &Witness, points: PointList<'_>, eps: u32) -> bool
    requires bounded { eps ≤ MAX_EPSILON }
    ensures exact { IsTrue result ↔ IsWitness (points_in points.entry) eps w.now }
    // No line is within `ε` at the three places.
    ensures no_line { IsTrue result → (line : RationalLine) → IsWithin
        (points_in points.entry) eps line w.now.p
        → IsWithin (points_in points.entry) eps line w.now.q → IsWithin
        (points_in points.entry) eps line w.now.r → ⊥ }
{
    w.p < w.q && w.q < w.r && (w.r as usize) < points.xs.len() && is_beyond(w, points, eps)
}

/// Whether these segments show by themselves that they are a cover of the points and that no cover
/// has fewer runs.
///
/// True exactly where the first start is 0, the starts rise below the list's length, each line is
/// in range and within `ε` at each place of its run, the last segment has no cut, and each other
/// one has a cut that holds, from its start on and with the next start as its `r`. No points need
/// no segments. `eps` is the error bound `ε`, in places. Source of such covers: Ferragina and
/// Vinciguerra, PVLDB 13(8), 2020, section 3.1; O'Rourke, CACM 24(9), 1981.
pub fn check_cover(points: PointList<'_>, eps: u32, segments: &[Segment]) -> bool
    requires bounded { eps ≤ MAX_EPSILON }
    ensures exact { IsTrue result ↔ AreChecked (points_in points.entry) eps segments.now }
    // Whoever made the segments.
    ensures certified { IsTrue result → IsLeastCover (points_in points.entry) eps 0
        (length points.entry.xs.now) (starts_of segments.now) }
{
    match slack(points, eps, segments) {
        Some(slack) => slack == 0,
        None => false,
    }
}

/// How many runs fewer another cover could have at most, where these segments show as much by
/// themselves: of segments that were made in pieces, side by side, what that may have cost.
///
/// Some exactly where what [`check_cover`] asks is so, but that any segment may lack its cut: then
/// the segments are a cover, and the answer is how many have none, less the last one's. Every cover
/// has at least as many runs as there are segments, less the answer, whoever made them. Of no
/// segments for no points it is 0. `eps` is the error bound `ε`, in places.
pub fn slack(points: PointList<'_>, eps: u32, segments: &[Segment]) -> Option<u32>
    requires bounded { eps ≤ MAX_EPSILON }
    ensures exact { IsSome result ↔ AreShown (points_in points.entry) eps segments.now }
    ensures count { IfSome result (λ slack. slack ≡ uncut segments.now - 1) }
    // Whoever made the segments.
    ensures certified { IfSome result (λ slack. IsCoverWithin slack (points_in points.entry) eps 0
        (length points.entry.xs.now) (starts_of segments.now)) }
{
    let mut end = points.xs.len() as u32;
    let mut uncut = 0u32;
    for i in (0..segments.len()).rev() {
        let segment = &segments[i];
        if !is_shown_run(points, eps, segment, end) {
            return None;
        }
        uncut += u32::from(segment.cut.is_none());
        end = segment.start;
    }
    if end == 0 {
        Some(uncut.saturating_sub(1))
    } else {
        None
    }
}

/// Whether the middle place of three in order lies beyond all lines within `ε` at the other two, by
/// the side's inequality.
fn is_beyond(w: &Witness, points: PointList<'_>, eps: u32) -> bool
    requires bounded { eps ≤ MAX_EPSILON }
    requires first { w.now.p < w.now.q }
    requires second { w.now.q < w.now.r }
    requires last { w.now.r < length points.xs.now }
    ensures exact { IsTrue result ↔ IsBeyond
        (points_in points.entry) eps w.now.side w.now.p w.now.q w.now.r }
{
    let (p, q, r) = (w.p as usize, w.q as usize, w.r as usize);
    let left = u128::from(points.xs[q] - points.xs[p]);
    let right = u128::from(points.xs[r] - points.xs[q]);
    let width = u128::from(points.xs[r] - points.xs[p]);
    // All heights are at the middle x, times the width.
    let chord = u128::from(points.ys[p]) * right + u128::from(points.ys[r]) * left;
    let middle = u128::from(points.ys[q]) * width;
    let slack = 2 * u128::from(eps) * width;
    match w.side {
        Side::Over => middle + slack < chord,
        Side::Under => chord + slack < middle,
    }
}

/// Whether the run from the segment's start to `end` has a place or more, a line in range that fits
/// it, and a cut that holds, if it has one.
fn is_shown_run(points: PointList<'_>, eps: u32, segment: &Segment, end: u32) -> bool
    requires bounded { eps ≤ MAX_EPSILON }
    requires within { end ≤ length points.xs.now }
    ensures exact { IsTrue result ↔ IsShownRun (points_in points.entry) eps
        (length points.entry.xs.now) segment.now end }
{
    segment.start < end
        && segment.line.in_range()
        && segment.line.fits(points, segment.start, end, eps)
        && is_cut_if_any(points, eps, segment, end)
}

/// Whether a run's cut, if it has one, lies between its start and its end, and holds. That of the
/// last run wouldn't: a witness's `r` is a place of the list.
fn is_cut_if_any(points: PointList<'_>, eps: u32, segment: &Segment, end: u32) -> bool
    requires bounded { eps ≤ MAX_EPSILON }
    requires within { end ≤ length points.xs.now }
    ensures exact { IsTrue result ↔ IsCutIfAny (points_in points.entry) eps
        (length points.entry.xs.now) segment.now end }
{
    match segment.cut {
        None => true,
        Some(w) => is_inside(&w, segment.start, end) && holds(&w, points, eps),
    }
}

/// Whether the places lie from a run's start on, and the last of them at its end.
fn is_inside(w: &Witness, start: u32, end: u32) -> bool
    ensures { IsTrue result ↔ ((start ≤ w.now.p) × (w.now.r ≡ end)) }
{
    start <= w.p && w.r == end
}
