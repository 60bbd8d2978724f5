// Pieces put side by side.
ghost use Rattle.std.specs.Prelude.{◌≡◌, ◌+◌, ◌<◌, ◌≤◌, List, length, IfOk};
ghost use Rattle.exact_cross.specs.declared.segment.Segment.{Segment};
ghost use Rattle.exact_cross.specs.PointLists.{points_in};
ghost use Rattle.exact_cross.specs.Checked.{AreShown, uncut};
ghost use Rattle.piece_join.specs.Cuttings.{AreFewCuts};
ghost use Rattle.piece_join.specs.Relaxed.{IsRelaxed};
ghost use Rattle.piece_join.specs.Worked.{ArePlaced};

use crate::pieces::{all_parts, count_of};
use crate::work::Work;
use budget::NoMemory;
use edge::Gate;
use exact_cross::{MAX_EPSILON, PointList, Segment};
use options::Workers;
use std::alloc::Global;
use std::thread::Threads;

/// The segments of each piece by itself, in order, made by several workers: a cover that waits for
/// no neighbour, and has at most one run more for each cut than a least one.
///
/// Pieces, workers and gate are as in [`crate::segment_in_pieces`]. The last segment of each piece
/// has no cut, so the slack that a checker finds is the number of cuts. The list is the same for
/// all numbers of workers and gates.
///
/// # Errors
///
/// `NoMemory` alone, as in [`crate::segment_in_pieces`].
pub fn relaxed<R: Threads + Sync, G: Gate>(
    rt: &R,
    alloc: Global,
    points: PointList<'_>,
    eps: u32,
    cuts: &[u32],
    workers: Workers,
    gate: &G,
) -> Result<Vec<Segment>, NoMemory>
    requires bounded { eps ≤ MAX_EPSILON }
    requires cuts { AreFewCuts (length points.xs.now) cuts.now }
    ensures relaxed { IfOk result (λ segments. IsRelaxed
        (points_in points.entry) eps 0 (length points.entry.xs.now) cuts.now segments.items) }
    // It is the list that one thread makes of the pieces.
    ensures one_list { IfOk result (λ segments. (others : List Segment) → IsRelaxed
        (points_in points.entry) eps 0 (length points.entry.xs.now) cuts.now others →
        segments.items ≡ others) }
    // They show that they are a cover, and how many runs too many it may have.
    ensures shown { IfOk result (λ segments.
        AreShown (points_in points.entry) eps segments.items) }
    ensures slack { IfOk result (λ segments. 0 < length points.entry.xs.now →
        uncut segments.items ≡ length cuts.now + 1) }
{
    let work = Work { points, eps, cuts };
    let parts = all_parts(rt, alloc, &work, workers, gate)?;
    side_by_side(alloc, &work, &parts)
}

/// The segments of each piece, one piece behind the other.
fn side_by_side(
    alloc: Global,
    work: &Work,
    parts: &[Vec<Segment>],
) -> Result<Vec<Segment>, NoMemory>
    requires { ArePlaced work.now parts.now }
    ensures { IfOk result (λ segments. IsRelaxed (points_in work.now.points)
        work.now.eps 0 (length work.now.points.xs.now) work.now.cuts.now segments.items) }
{
    let mut whole = Vec::with_capacity(alloc, count_of(parts))?;
    for number in 0..work.pieces() {
        whole.extend_from_slice(&parts[number as usize])?;
    }
    Ok(whole)
}
