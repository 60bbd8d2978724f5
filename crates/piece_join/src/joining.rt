// Joining: from the last run known to be right until a run ends at a start of the next piece.
ghost use Rattle.std.specs.Prelude.{◌≡◌, ℕ, ◌+◌, ◌*◌, ◌<◌, ◌≤◌, List, length, IfOk};
ghost use Rattle.budget.specs.Ledgers.{IsNewLedger};
ghost use Rattle.exact_cross.specs.declared.segment.Segment.{Segment};
ghost use Rattle.exact_cross.specs.PointLists.{points_in};
ghost use Rattle.exact_cross.specs.Segmentation.{IsSegmentation};
ghost use Rattle.hulls.specs.Hulls.{room_of, bound_of};
ghost use Rattle.piece_join.specs.Joined.{IsBegun};

use budget::{NoMemory, Steps};
use exact_cross::{MAX_EPSILON, PointList, Segment};
use hulls::Hulls;
use segmenter::run::longest_run;
use std::alloc::Global;
use std::marker::Brand;
use std::sync::ledger::{Blank, Ledger};

/// The segments of the places `0..to`, from those of `0..edge` and those of `edge..to`.
///
/// `left` and `right` are as [`segmenter::segment`] gives them, with places as in the whole list,
/// and `edge` is from 1 to `to`. The last run on the left may go on past the edge, so it is fitted
/// again from its start. So is each run after it, until one ends where the right has a start: the
/// right runs from there on are taken as they are. They may never meet; then all of `edge..to` is
/// fitted again. The left list is extended in place.
///
/// # Errors
///
/// `NoMemory` alone, where the list or the two hulls find none. Then the left list is given up. The
/// hulls ask for 32 bytes for each place of `0..to`, and touch as much as the longest hulls of a
/// run take.
pub fn join(
    alloc: Global,
    points: PointList<'_>,
    eps: u32,
    left: Vec<Segment>,
    right: &[Segment],
    edge: u32,
    to: u32,
) -> Result<Vec<Segment>, NoMemory>
    requires bounded { eps ≤ MAX_EPSILON }
    requires some { 1 ≤ edge }
    requires edge { edge ≤ to }
    requires within { to ≤ length points.xs.now }
    requires left { IsSegmentation (points_in points) eps 0 edge left.items }
    requires right { IsSegmentation (points_in points) eps edge to right.now }
    ensures segmentation { IfOk result
        (λ segments. IsSegmentation (points_in points.entry) eps 0 to segments.items) }
    // It is the list that segmenting all of 0..to gives.
    ensures one_list { IfOk result (λ segments. (others : List Segment) →
        IsSegmentation (points_in points.entry) eps 0 to others → segments.items ≡ others) }
{
    if edge == to {
        return Ok(left);
    }
    join_from::<Brand>(alloc, points, eps, left, right, edge, to, Blank::new(1))
}

/// The segments of [`join`] where the right has a place, the steps counted in a new ledger.
fn join_from<L: Ledger>(
    alloc: Global,
    points: PointList<'_>,
    eps: u32,
    left: Vec<Segment>,
    right: &[Segment],
    _edge: u32,
    to: u32,
    blank: Blank,
) -> Result<Vec<Segment>, NoMemory>
    requires bounded { eps ≤ MAX_EPSILON }
    requires some { 1 ≤ _edge }
    requires edge { _edge < to }
    requires within { to ≤ length points.xs.now }
    requires left { IsSegmentation (points_in points) eps 0 _edge left.items }
    requires right { IsSegmentation (points_in points) eps _edge to right.now }
    requires ledger { IsNewLedger blank L.name L.parts }
    ensures { IfOk result
        (λ segments. IsSegmentation (points_in points.entry) eps 0 to segments.items) }
{
    let mut steps = Steps::<L>::new(blank);
    let mut joined = left;
    let Some(last) = joined.pop() else {
        unreachable!()
    };
    let mut hulls = Hulls::new(alloc, eps, to)?;
    go_on(
        &mut hulls,
        points,
        &mut joined,
        last.start,
        right,
        to,
        to,
        &mut steps,
    )?;
    Ok(joined)
}

/// Goes on from the place `at` to the end of the piece, or past it, and says where to.
///
/// `piece` is the segments of a piece that ends at `end`. The runs are fitted one by one until one
/// ends at a start of the piece, and from there on are the piece's own. Each place that it goes on
/// by is fitted once at most, at 10 steps.
pub fn go_on<L: Ledger>(
    hulls: &mut Hulls,
    points: PointList<'_>,
    joined: &mut Vec<Segment>,
    at: u32,
    piece: &[Segment],
    end: u32,
    to: u32,
    steps: &mut Steps<L>,
) -> Result<u32, NoMemory>
    requires bounded { bound_of hulls.old ≤ MAX_EPSILON }
    requires at { at ≤ to }
    requires end { end ≤ to }
    requires within { to ≤ length points.xs.now }
    requires room { to ≤ room_of hulls.old }
    requires begun { IsBegun (points_in points)
        (bound_of hulls.old) 0 to at joined.old.items }
    requires piece { (from : ℕ) ×
        IsSegmentation (points_in points) (bound_of hulls.old) from end piece.now }
    ensures begun { IfOk result (λ place. IsBegun (points_in points.entry)
        (bound_of hulls.old) 0 to place joined.new.items) }
    ensures within { IfOk result (λ place. place ≤ to) }
    ensures whole { IfOk result (λ place. end ≡ to → place ≡ to) }
    ensures cost { IfOk result (λ place. steps.new + 10 * at ≤ steps.old + 10 * place) }
    ensures room { room_of hulls.old ≤ room_of hulls.new }
    ensures bound { bound_of hulls.new ≡ bound_of hulls.old }
{
    let mut at = at;
    let mut next = 0;
    while at < end {
        next = first_from(piece, next, at);
        if next < piece.len() && piece[next].start == at {
            let rest = &piece[next..];
            return take_rest(hulls, points, joined, rest, end, to, steps);
        }
        at = add_run(hulls, points, joined, at, to, steps)?;
    }
    Ok(at)
}

/// The first of the segments from number `next` on that starts at the place or after it.
fn first_from(segments: &[Segment], next: usize, at: u32) -> usize {
    for number in next..segments.len() {
        if segments[number].start >= at {
            return number;
        }
    }
    segments.len()
}

/// Takes the piece's last segments, the first of which starts where the others end.
///
/// Its very last run may go on past the piece, so that it is fitted again, but where the piece is
/// the last one.
fn take_rest<L: Ledger>(
    hulls: &mut Hulls,
    points: PointList<'_>,
    joined: &mut Vec<Segment>,
    rest: &[Segment],
    end: u32,
    to: u32,
    steps: &mut Steps<L>,
) -> Result<u32, NoMemory>
    requires bounded { bound_of hulls.old ≤ MAX_EPSILON }
    requires end { end ≤ to }
    requires within { to ≤ length points.xs.now }
    requires room { to ≤ room_of hulls.old }
    requires some { 0 < length rest.now }
    requires meets { (at : ℕ) ×
        IsBegun (points_in points) (bound_of hulls.old) 0 to at joined.old.items ×
        IsSegmentation (points_in points) (bound_of hulls.old) at end rest.now }
    ensures begun { IfOk result (λ place. IsBegun (points_in points.entry)
        (bound_of hulls.old) 0 to place joined.new.items) }
    ensures within { IfOk result (λ place. place ≤ to) }
    ensures whole { IfOk result (λ place. end ≡ to → place ≡ to) }
    ensures cost { IfOk result (λ place. (at : ℕ) →
        IsSegmentation (points_in points.entry) (bound_of hulls.old) at end rest.now →
        steps.new + 10 * at ≤ steps.old + 10 * place) }
    ensures room { room_of hulls.old ≤ room_of hulls.new }
    ensures bound { bound_of hulls.new ≡ bound_of hulls.old }
{
    if end == to {
        joined.extend_from_slice(rest)?;
        return Ok(to);
    }
    let last = rest.len() - 1;
    joined.extend_from_slice(&rest[..last])?;
    add_run(hulls, points, joined, rest[last].start, to, steps)
}

/// Adds the longest run from the place, and says where it ends.
fn add_run<L: Ledger>(
    hulls: &mut Hulls,
    points: PointList<'_>,
    joined: &mut Vec<Segment>,
    at: u32,
    to: u32,
    steps: &mut Steps<L>,
) -> Result<u32, NoMemory>
    requires bounded { bound_of hulls.old ≤ MAX_EPSILON }
    requires at { at < to }
    requires within { to ≤ length points.xs.now }
    requires room { to ≤ room_of hulls.old }
    requires begun { IsBegun (points_in points)
        (bound_of hulls.old) 0 to at joined.old.items }
    ensures begun { IfOk result (λ place. IsBegun (points_in points.entry)
        (bound_of hulls.old) 0 to place joined.new.items) }
    ensures further { IfOk result (λ place. at < place) }
    ensures within { IfOk result (λ place. place ≤ to) }
    ensures cost { IfOk result (λ place. steps.new + 10 * at ≤ steps.old + 10 * place) }
    ensures room { room_of hulls.old ≤ room_of hulls.new }
    ensures bound { bound_of hulls.new ≡ bound_of hulls.old }
{
    let run = longest_run(hulls, points, at, to, steps);
    joined.push(run.segment)?;
    Ok(run.end)
}
