// Segmentation by pieces.
ghost use Rattle.std.specs.Prelude.{◌≡◌, ℕ, ◌+◌, ◌*◌, ◌<◌, ◌≤◌, List, length, vec_len};
ghost use Rattle.std.specs.Prelude.{All, IfOk, OnOk};
ghost use Rattle.budget.specs.Ledgers.{IsNewLedger};
ghost use Rattle.exact_cross.specs.declared.segment.Segment.{Segment};
ghost use Rattle.exact_cross.specs.PointLists.{points_in};
ghost use Rattle.exact_cross.specs.Segmentation.{IsSegmentation};
ghost use Rattle.claims.specs.Claims.{IsFresh, times};
ghost use Rattle.piece_join.specs.Cuttings.{AreFewCuts};
ghost use Rattle.piece_join.specs.declared.work.Work.{Work};
ghost use Rattle.piece_join.specs.Worked.{IsWorked, IsPlaced, ArePlaced, numbers_of};

use crate::joining::go_on;
use crate::piece::Piece;
use crate::work::Work;
use crate::worker::{Worked, work_on};
use budget::{NoMemory, Steps};
use claims::{Claims, Seat};
use edge::Gate;
use exact_cross::{MAX_EPSILON, PointList, Segment};
use hulls::Hulls;
use options::Workers;
use std::alloc::Global;
use std::marker::Brand;
use std::sync::ledger::{Blank, Ledger};
use std::thread;
use std::thread::Threads;

/// The segments of all points, made piece by piece by several workers: the same list as one thread
/// makes, for all cuts, numbers of workers and gates.
///
/// The places are cut into pieces before each place of `cuts`, which rise strictly from 1 to the
/// last place and are 65,535 at most. Each of the `workers` draws the number of the next
/// piece and segments it until there are none left, and then the pieces are joined. Worker threads
/// are joined before the call returns; where one can't be started the caller does its work. The
/// gate is passed at `PieceBegun` before each piece and at `PieceDone` after it. The call returns
/// only if the gate does. No more workers are started than there are pieces.
///
/// A joined run is fitted again from its start where it is the last one of its piece, or begins at
/// no start of its piece: no place is fitted more than once by a worker, who takes at most 12 steps
/// for each as [`segment`] does, and once by joining, which takes at most 10. Both are proved, the
/// one of `segment` and the other of the part that joins; no clause here says their sum.
///
/// [`segment`]: segmenter::segment
///
/// # Errors
///
/// `NoMemory` alone. A worker that finds none draws no more pieces, and the others go on to the
/// end.
///
/// Source: Ferragina and Vinciguerra, PVLDB 13(8), 2020, section 3.1.
pub fn segment_in_pieces<R: Threads + Sync, G: Gate>(
    rt: &R,
    alloc: Global,
    points: PointList<'_>,
    eps: u32,
    cuts: &[u32],
    workers: Workers,
    gate: &G,
) -> Result<Vec<Segment>, NoMemory>
    requires bounded { eps ≤ MAX_EPSILON }
    requires cuts { AreFewCuts (length points.xs.now) cuts.now }
    ensures segmentation { IfOk result (λ segments.
        IsSegmentation (points_in points.entry) eps 0 (length points.entry.xs.now) segments.items) }
    // It is the list that one thread makes of all points.
    ensures one_list { IfOk result (λ segments. (others : List Segment) →
        IsSegmentation (points_in points.entry) eps 0 (length points.entry.xs.now) others →
        segments.items ≡ others) }
{
    let work = Work { points, eps, cuts };
    let parts = all_parts(rt, alloc, &work, workers, gate)?;
    joined_from::<Brand>(alloc, &work, &parts, Blank::new(1))
}

/// The segments of each piece by itself, in order, made by several workers.
pub fn all_parts<'a, R: Threads + Sync, G: Gate>(
    rt: &R,
    alloc: Global,
    work: &'a Work<'a>,
    workers: Workers,
    gate: &G,
) -> Result<Vec<Vec<Segment>>, NoMemory>
    ensures { IfOk result (λ parts. ArePlaced work.now parts.items) }
{
    // A worker without a piece would only be started and told that there is none.
    let seated = workers.count.min(work.pieces());
    let (claims, seats) = Claims::new(alloc, work.pieces(), seated)?;
    let done = all_done(rt, alloc, work, &claims, gate, seats)?;
    placed(alloc, work, claims, done)
}

/// What all workers leave.
fn all_done<'a, R: Threads + Sync, G: Gate>(
    rt: &R,
    alloc: Global,
    work: &'a Work<'a>,
    claims: &Claims,
    gate: &G,
    seats: Vec<Seat>,
) -> Result<Vec<Worked<'a>>, NoMemory>
    requires fresh { All (IsFresh claims.now.origin) seats.items }
    requires pieces { claims.now.origin.pieces ≡ length work.now.cuts.now + 1 }
    ensures count { IfOk result (λ done. vec_len done ≡ vec_len seats) }
    ensures each { IfOk result (λ done. All (IsWorked work.now claims.now.origin) done.items) }
{
    let job = |seat: Seat| -> Worked
        requires fresh { IsFresh claims.now.origin seat }
        requires pieces { claims.now.origin.pieces ≡ length work.now.cuts.now + 1 }
        ensures { IsWorked work.entry.now claims.entry.now.origin result }
    { work_on(alloc, work, claims, gate, seat) };
    thread::map_vec(rt, seats, &job)
}

/// The segments of each piece, in order.
///
/// With all seats back the claims are closed: each number was drawn once, so each piece is there.
fn placed(
    alloc: Global,
    work: &Work,
    claims: Claims,
    done: Vec<Worked>,
) -> Result<Vec<Vec<Segment>>, NoMemory>
    requires staffed { 1 ≤ claims.workers }
    requires count { vec_len done ≡ claims.workers }
    requires pieces { claims.origin.pieces ≡ length work.now.cuts.now + 1 }
    requires each { All (IsWorked work.now claims.origin) done.items }
    ensures { IfOk result (λ parts. ArePlaced work.now parts.items) }
{
    let mut parts = empty_parts(alloc, work.pieces())?;
    let mut seats = Vec::with_capacity(alloc, done.len())?;
    let mut done = done;
    while let Some(worked) = done.pop() {
        let Worked { seat, pieces } = worked;
        place_all(&mut parts, pieces?);
        seats.push(seat)?;
    }
    claims.close(seats);
    Ok(parts)
}

/// Room for so many pieces.
fn empty_parts(alloc: Global, count: u32) -> Result<Vec<Vec<Segment>>, NoMemory>
    ensures { IfOk result (λ parts. vec_len parts ≡ count) }
{
    let mut parts = Vec::with_capacity(alloc, count as usize)?;
    for _number in 0..count {
        parts.push(Vec::new(alloc))?;
    }
    Ok(parts)
}

/// Puts each of a worker's pieces at the place of its number.
fn place_all(parts: &mut Vec<Vec<Segment>>, pieces: Vec<Piece>)
    requires { All (λ piece. length piece.of.cuts.now < vec_len parts.old) pieces.items }
    ensures len { vec_len parts.new ≡ vec_len parts.old }
    ensures kept { (work : Work) (i : ℕ) →
        All (λ piece. piece.of ≡ work) pieces.entry.items →
        IsPlaced work parts.old.items i → IsPlaced work parts.new.items i }
    ensures placed { (work : Work) (i : ℕ) →
        All (λ piece. piece.of ≡ work) pieces.entry.items →
        0 < times i (numbers_of pieces.entry.items) → IsPlaced work parts.new.items i }
{
    let mut pieces = pieces;
    while let Some(piece) = pieces.pop() {
        let (number, segments) = piece.into_parts();
        parts[number as usize] = segments;
    }
}

/// The segments of all points, from those of each piece, with a counter of its own from a new
/// ledger.
fn joined_from<L: Ledger>(
    alloc: Global,
    work: &Work,
    parts: &[Vec<Segment>],
    blank: Blank,
) -> Result<Vec<Segment>, NoMemory>
    requires placed { ArePlaced work.now parts.now }
    requires ledger { IsNewLedger blank L.name L.parts }
    ensures { IfOk result (λ segments. IsSegmentation (points_in work.now.points)
        work.now.eps 0 (length work.now.points.xs.now) segments.items) }
{
    let mut steps = Steps::<L>::new(blank);
    joined(alloc, work, parts, &mut steps)
}

/// The segments of all points, from those of each piece, at 10 steps a place.
fn joined<L: Ledger>(
    alloc: Global,
    work: &Work,
    parts: &[Vec<Segment>],
    steps: &mut Steps<L>,
) -> Result<Vec<Segment>, NoMemory>
    requires { ArePlaced work.now parts.now }
    ensures whole { IfOk result
        (λ segments. IsSegmentation (points_in work.now.points)
        work.now.eps 0 (length work.now.points.xs.now) segments.items) }
    ensures cost { OnOk result (steps.new ≤ steps.old + 10 * length work.now.points.xs.now) }
{
    let to = work.len();
    let mut whole = Vec::with_capacity(alloc, count_of(parts))?;
    let mut hulls = Hulls::new(alloc, work.eps, to)?;
    let mut at = 0;
    for number in 0..work.pieces() {
        let piece = &parts[number as usize];
        let end = work.edge(number + 1);
        at = go_on(
            &mut hulls,
            work.points,
            &mut whole,
            at,
            piece,
            end,
            to,
            steps,
        )?;
    }
    Ok(whole)
}

/// How many segments the pieces have together. All points have no more.
pub fn count_of(parts: &[Vec<Segment>]) -> usize {
    let mut count = 0usize;
    for part in parts {
        count = count.saturating_add(part.len());
    }
    count
}
