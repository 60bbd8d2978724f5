// Whether a saved index is the one index of points.
ghost use Rattle.std.specs.List.Sorted.{IsStrictlyIncreasing};
ghost use Rattle.std.specs.Prelude.{◌≡◌, ◌⊎◌, ◌<◌, ◌≤◌, ◌^◌, ◌↔◌, ℕ, List, length, IsTrue};
ghost use Rattle.std.specs.Prelude.{IfOk, IfErr, OnOk, MatchResult, slice_index_or};
ghost use Rattle.exact_cross.specs.declared.segment.Segment.{Segment};
ghost use Rattle.exact_cross.specs.Points.{points_of, places};
ghost use Rattle.exact_cross.specs.PointLists.{points_in};
ghost use Rattle.exact_cross.specs.IndexLevels.{IsIndexOver};
ghost use Rattle.index_file.specs.Checks.{IsSavedIndexOf, IsFirstDifference, saved_levels};
ghost use Rattle.index_file.specs.Checks.{HasCheckCause};
ghost use Rattle.index_file.specs.Judged.{IsSavedSegmentation, IsJudged, HasSavedCut, start_xs};

use crate::{CheckFault, Saved, SavedCut, SavedRun};
use budget::NoMemory;
use cut_witness::{holds, is_flat, is_steep};
use exact_cross::{MAX_EPSILON, PointList, Side, Witness};
use key_points::places_of;
use std::alloc::Global;

/// Whether a saved index is the one index of these points for its own error bounds.
///
/// Nothing is assumed of the saved numbers. No level of the index is built: each saved one is
/// judged by what defines it, over the first x of the runs below it, from its last run back. So at
/// most two looks at each point of a level are taken, one for the steep pair of its run and one for
/// the flat pair, and a few steps for each run. A level is looked at where those below it are
/// right, and then has about half of their points at most. Memory is taken for the points of one
/// level above, at 12 bytes each, beside those of the level below it.
///
/// # Errors
///
/// - `Wrong` with the lowest level that isn't that of the index: its runs differ, or only one of
///   the two has it.
/// - `NoMemory` where memory for the points of a level wasn't found.
pub fn check(alloc: Global, points: PointList<'_>, saved: &Saved) -> Result<(), CheckFault>
    ensures right { OnOk result (IsSavedIndexOf points.entry.xs.now points.entry.ys.now saved.now) }
    ensures wrong { IfErr result (HasCheckCause points.entry.xs.now points.entry.ys.now saved.now) }
    // And the other way: what the saved index is, is the answer, unless memory was missing.
    ensures wherever_right { IsSavedIndexOf points.entry.xs.now points.entry.ys.now saved.now →
        IfErr result (λ fault. fault ≡ CheckFault.NoMemory) }
    ensures wherever_wrong { (levels : List (List Segment)) (level : ℕ) → IsIndexOver
        points.entry.xs.now points.entry.ys.now saved.now.eps saved.now.eps_rec levels →
        IsFirstDifference saved.now.levels (saved_levels levels) level →
        MatchResult result (λ _. ⊥)
        (λ fault. (fault ≡ CheckFault.NoMemory) ⊎ (fault ≡ CheckFault.Wrong level)) }
{
    check_all(alloc, points, saved)
}

/// Whether a saved index is the one index, or why it isn't known to be.
fn check_all(alloc: Global, points: PointList<'_>, saved: &Saved) -> Result<(), CheckFault>
    ensures right { OnOk result (IsSavedIndexOf points.entry.xs.now points.entry.ys.now saved.now) }
    ensures wrong { IfErr result (HasCheckCause points.entry.xs.now points.entry.ys.now saved.now) }
{
    if !points.xs.is_empty() {
        return check_levels(alloc, points, saved);
    }
    if saved.levels() == 0 {
        Ok(())
    } else {
        Err(CheckFault::Wrong { level: 0 })
    }
}

/// Whether a saved index is the one index of a point or more.
fn check_levels(alloc: Global, points: PointList<'_>, saved: &Saved) -> Result<(), CheckFault>
    requires some { 0 < length points.xs.now }
    ensures right { OnOk result (IsSavedIndexOf points.entry.xs.now points.entry.ys.now saved.now) }
    ensures wrong { IfErr result (HasCheckCause points.entry.xs.now points.entry.ys.now saved.now) }
{
    if saved.levels() == 0 {
        return Err(CheckFault::Wrong { level: 0 });
    }
    let lowest = saved.runs(0);
    if !is_level(points, saved.eps(), lowest) {
        return Err(CheckFault::Wrong { level: 0 });
    }
    let mut list = start_xs_of(alloc, points.xs, lowest)?;
    for level in 1..saved.levels() {
        // A level of one run is the last.
        if list.len() == 1 {
            return Err(CheckFault::Wrong { level });
        }
        let runs = saved.runs(level);
        let right = is_level_above(alloc, list.as_slice(), saved.eps_rec(), runs)?;
        if !right {
            return Err(CheckFault::Wrong { level });
        }
        list = start_xs_of(alloc, list.as_slice(), runs)?;
    }
    if list.len() == 1 {
        Ok(())
    } else {
        Err(CheckFault::Wrong {
            level: saved.levels(),
        })
    }
}

/// Whether the runs are those of the segmentation of these x, each at the height of its place.
fn is_level_above(alloc: Global, xs: &[u64], eps: u32, runs: &[SavedRun]) -> Result<bool, NoMemory>
    requires rising { IsStrictlyIncreasing xs.now }
    requires few { length xs.now < 2 ^ 32 }
    requires bounded { eps ≤ MAX_EPSILON }
    ensures exact { IfOk result (λ right. IsTrue right ↔ IsSavedSegmentation
        (points_of xs.now (places (length xs.now))) eps runs.now) }
{
    let places = places_of(alloc, xs.len() as u32)?;
    Ok(is_level(PointList::new(xs, places.as_slice()), eps, runs))
}

/// Whether the runs are those of the segmentation of the points.
fn is_level(points: PointList<'_>, eps: u32, runs: &[SavedRun]) -> bool
    requires bounded { eps ≤ MAX_EPSILON }
    ensures exact { IsTrue result ↔ IsSavedSegmentation (points_in points.entry) eps runs.now }
{
    let mut end = points.xs.len() as u32;
    for i in (0..runs.len()).rev() {
        let run = &runs[i];
        if !is_run(points, eps, run, end) {
            return false;
        }
        end = run.start;
    }
    end == 0
}

/// Whether the run to `end` has a place or more, its steep pair and its cut.
fn is_run(points: PointList<'_>, eps: u32, run: &SavedRun, end: u32) -> bool
    requires bounded { eps ≤ MAX_EPSILON }
    requires within { end ≤ length points.xs.now }
    ensures exact { IsTrue result ↔ IsJudged (points_in points.entry) eps run.now end }
{
    run.start < end
        && is_steep(points, eps, run.start, end, run.a, run.b)
        && is_cut(points, eps, run, end)
}

/// Whether the run to `end` has the cut that is told: none where it is the last, and else the place
/// `end` over its steep pair, or under its flat one.
fn is_cut(points: PointList<'_>, eps: u32, run: &SavedRun, end: u32) -> bool
    requires bounded { eps ≤ MAX_EPSILON }
    requires some { run.now.start < end }
    requires within { end ≤ length points.xs.now }
    ensures exact { IsTrue result ↔ HasSavedCut (points_in points.entry) eps run.now end }
{
    if end as usize == points.xs.len() {
        return run.cut == SavedCut::Last;
    }
    match run.cut {
        SavedCut::Last => false,
        SavedCut::Over => {
            let w = Witness {
                p: run.a,
                q: run.b,
                r: end,
                side: Side::Over,
            };
            holds(&w, points, eps)
        }
        SavedCut::Under(p, q) => {
            let w = Witness {
                p,
                q,
                r: end,
                side: Side::Under,
            };
            run.start + 1 < end
                && is_flat(points, eps, run.start, end, p, q)
                && holds(&w, points, eps)
        }
    }
}

/// The x of each run's start.
fn start_xs_of(alloc: Global, xs: &[u64], runs: &[SavedRun]) -> Result<Vec<u64>, NoMemory>
    requires { (k : ℕ) (d : SavedRun) → k < length runs.now →
        (slice_index_or runs.now k d).start < length xs.now }
    ensures { IfOk result (λ list. list.items ≡ start_xs xs.now runs.now) }
{
    let mut list = Vec::with_capacity(alloc, runs.len())?;
    for run in runs {
        list.push(xs[run.start as usize])?;
    }
    Ok(list)
}
