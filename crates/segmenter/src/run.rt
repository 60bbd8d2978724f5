// The longest run from a place that some line fits.
ghost use Rattle.std.specs.Prelude.{◌≡◌, ℕ, ◌+◌, ◌*◌, ◌<◌, ◌≤◌, length};
ghost use Rattle.exact_cross.specs.Points.{Points};
ghost use Rattle.exact_cross.specs.PointLists.{points_in};
ghost use Rattle.exact_cross.specs.Lines.{SomeLineFits};
ghost use Rattle.exact_cross.specs.Covers.{IsLongest};
ghost use Rattle.exact_cross.specs.Segments.{IsSteepSegment};
ghost use Rattle.exact_cross.specs.Cuts.{HasItsCut};
ghost use Rattle.hulls.specs.Hulls.{MatchOffer, room_of, bound_of, spare, StandsFor, AreEven};
ghost use Rattle.hulls.specs.Hulls.{EndOn};
ghost use Rattle.hulls.specs.FlatLines.{IsFlatLine, MeanRises};
ghost use Rattle.segmenter.specs.Stretches.{IsInStretch, IsRefused};

use budget::Steps;
use exact_cross::{MAX_EPSILON, PointList, Segment, Witness};
use hulls::{FlatLine, Hulls, Offer};
use std::sync::ledger::Ledger;

/// How many places at even steps are a stretch, which is passed by its ends.
const SHORTEST: u32 = 8;

/// A segment, the flattest line of its run and the run's end, a place.
#[derive(Clone, Copy)]
pub struct Run {
    pub segment: Segment,
    pub flat: FlatLine,
    pub end: u32,
}

/// The longest run from `start` that some line fits, `to` at the furthest, with its segment.
///
/// This is for a caller that goes from run to run by itself: the greedy segments are those of the
/// longest runs, each from the end of the one before it. The segment has the run's steep pair, and
/// its cut unless the run ends at `to`; the mean of its line and the flattest is within the error
/// bound, too, and exact where the run's places are at even steps. The hulls begin anew with the
/// error bound that they were made with, and have room for the places `start..to`. It takes at most
/// 10 steps for each place of the run, and no memory. Of places at even steps, eight or more in a
/// row, only the first two and the last of the run are looked at.
pub fn longest_run<L: Ledger>(
    hulls: &mut Hulls,
    points: PointList<'_>,
    start: u32,
    to: u32,
    steps: &mut Steps<L>,
) -> Run
    requires some { start < to }
    requires within { to ≤ length points.xs.now }
    requires room { to ≤ start + room_of hulls.old }
    requires bounded { bound_of hulls.old ≤ MAX_EPSILON }
    ensures start { result.segment.start ≡ start }
    ensures further { start < result.end }
    ensures within { result.end ≤ to }
    ensures longest { IsLongest (points_in points.entry) (bound_of hulls.old) to start result.end }
    ensures steep { IsSteepSegment (points_in points.entry)
        (bound_of hulls.old) result.segment result.end }
    ensures flat { IsFlatLine (points_in points.entry)
        (bound_of hulls.old) start result.end result.flat }
    ensures middle { MeanRises result.segment.line result.flat }
    ensures cut { HasItsCut (points_in points.entry)
        (bound_of hulls.old) to result.segment result.end }
    ensures cost { steps.new + 10 * start ≤ steps.old + 10 * result.end }
    ensures room { room_of hulls.old ≤ room_of hulls.new }
    ensures bound { bound_of hulls.new ≡ bound_of hulls.old }
{
    hulls.start(start, points.xs[start as usize], points.ys[start as usize]);
    let mut last = start;
    while last + 1 < to {
        if !may_begin_stretch(points, last, to) {
            let next = last as usize + 1;
            if let Offer::Cut(witness) = hulls.offer(
                points.xs[next],
                points.ys[next],
                false,
                steps,
            ) {
                return run_of(hulls, start, last + 1, Some(witness));
            }
            last += 1;
            continue;
        }
        let progress = go_on(hulls, points, last, to, steps);
        last = progress.last;
        if let Offer::Cut(witness) = progress.offer {
            let end = last + 1;
            return run_of(hulls, start, end, Some(witness));
        }
    }
    run_of(hulls, start, to, None)
}

/// How a run went on: its last place from now on, and the answer to the place after it, or
/// `Extended` where that wasn't asked.
#[derive(Clone, Copy)]
struct Progress {
    last: u32,
    offer: Offer,
}

/// Takes in the place after `last`, and with it as much of a stretch as some line fits.
#[inline(never)]
fn go_on<L: Ledger>(
    hulls: &mut Hulls,
    points: PointList<'_>,
    last: u32,
    to: u32,
    steps: &mut Steps<L>,
) -> Progress
    requires more { last + 1 < to }
    requires within { to ≤ length points.xs.now }
    requires stands { (s : ℕ) × StandsFor hulls.old (points_in points)
        (bound_of hulls.old) s (last + 1) × (to ≤ s + room_of hulls.old) }
    ensures onward { last ≤ result.last }
    ensures further { MatchOffer result.offer (last < result.last) (λ _. Unit {0}) }
    ensures within { MatchOffer result.offer (result.last < to) (λ _. result.last + 1 < to) }
    ensures stands { (s : ℕ) → StandsFor hulls.old (points_in points.entry)
        (bound_of hulls.old) s (last + 1) → StandsFor hulls.new (points_in points.entry)
        (bound_of hulls.old) s (result.last + 1) }
    ensures cut { MatchOffer result.offer (Unit {0}) (λ w. (s : ℕ) →
        StandsFor hulls.old (points_in points.entry) (bound_of hulls.old) s (last + 1) →
        IsRefused (points_in points.entry) (bound_of hulls.old) s (result.last + 1) w) }
    ensures cost { MatchOffer result.offer (steps.new + spare hulls.new + 10 * last ≤ steps.old +
        spare hulls.old + 10 * result.last) (λ _. steps.new + 10 * last ≤ steps.old +
        spare hulls.old + 10 * result.last + 10) }
    ensures room { room_of hulls.old ≤ room_of hulls.new }
    ensures bound { bound_of hulls.new ≡ bound_of hulls.old }
{
    let next = last + 1;
    let end = stretch_end(points, last, to);
    let in_stretch = next < end;
    if let Offer::Cut(witness) = hulls.offer(
        points.xs[next as usize],
        points.ys[next as usize],
        in_stretch,
        steps,
    ) {
        return Progress {
            last,
            offer: Offer::Cut(witness),
        };
    }
    if in_stretch {
        return pass_stretch(hulls, points, next, end, steps);
    }
    Progress {
        last: next,
        offer: Offer::Extended,
    }
}

/// The end of the stretch that begins at `from`: of eight places or more at even steps. Where
/// there are fewer, the next place.
#[inline(never)]
fn stretch_end(points: PointList<'_>, from: u32, to: u32) -> u32
    requires more { from + 1 < to }
    requires within { to ≤ length points.xs.now }
    ensures further { from < result }
    ensures within { result < to }
    ensures even { AreEven (points_in points.entry) from result }
{
    let next = from + 1;
    if !may_begin_stretch(points, from, to) {
        return next;
    }
    let step = points.xs[next as usize] - points.xs[from as usize];
    let climb = points.ys[next as usize] - points.ys[from as usize];
    let mut end = next;
    while end + 1 < to {
        if points.xs[end as usize + 1] - points.xs[end as usize] != step {
            break;
        }
        if points.ys[end as usize + 1] - points.ys[end as usize] != climb {
            break;
        }
        end += 1;
    }
    if end - from < SHORTEST - 1 { next } else { end }
}

/// Whether the last place that a shortest stretch would have lies where its first step leads to.
///
/// Few places that begin no stretch pass this one test, whatever the keys are.
#[inline(always)]
fn may_begin_stretch(points: PointList<'_>, from: u32, to: u32) -> bool
    requires more { from + 1 < to }
    requires within { to ≤ length points.xs.now }
{
    if to - from < SHORTEST {
        return false;
    }
    let first = points.xs[from as usize];
    let step = points.xs[from as usize + 1] - first;
    let last = points.xs[from as usize + SHORTEST as usize - 1];
    last - first == step.wrapping_mul(u64::from(SHORTEST - 1))
}

/// Takes in as much of the rest of a stretch, to its last place `end`, as some line fits, of which
/// `from` and the place before it are taken in.
///
/// Where some line fits all, the last place alone is looked at. Where none does, the last place
/// that some line fits is found by halving, and it and the one after it are looked at.
#[inline(never)]
fn pass_stretch<L: Ledger>(
    hulls: &mut Hulls,
    points: PointList<'_>,
    from: u32,
    end: u32,
    steps: &mut Steps<L>,
) -> Progress
    requires further { from < end }
    requires within { end < length points.xs.now }
    requires stretch { (s : ℕ) × IsInStretch hulls.old (points_in points)
        (bound_of hulls.old) s from end × (end < s + room_of hulls.old) }
    requires on_hulls { EndOn hulls.old }
    ensures onward { from ≤ result.last }
    ensures within { MatchOffer result.offer (result.last ≤ end) (λ _. result.last < end) }
    ensures stands { (s : ℕ) → IsInStretch hulls.old (points_in points.entry)
        (bound_of hulls.old) s from end → StandsFor hulls.new (points_in points.entry)
        (bound_of hulls.old) s (result.last + 1) }
    ensures cut { MatchOffer result.offer (Unit {0}) (λ w. (s : ℕ) →
        IsInStretch hulls.old (points_in points.entry) (bound_of hulls.old) s from end →
        IsRefused (points_in points.entry) (bound_of hulls.old) s (result.last + 1) w) }
    ensures cost { MatchOffer result.offer (steps.new + spare hulls.new + 10 * from ≤ steps.old +
        spare hulls.old + 10 * result.last) (λ _. steps.new + 10 * from ≤ steps.old +
        spare hulls.old + 10 * result.last + 10) }
    ensures room { room_of hulls.old ≤ room_of hulls.new }
    ensures bound { bound_of hulls.new ≡ bound_of hulls.old }
{
    if hulls.fits(end, points.xs[end as usize], points.ys[end as usize], steps) {
        extend(hulls, points, from, end, steps);
        return Progress {
            last: end,
            offer: Offer::Extended,
        };
    }
    let last = last_fitting(hulls, points, from, end, steps);
    extend(hulls, points, from, last, steps);
    let next = last + 1;
    if let Offer::Cut(witness) = hulls.offer(
        points.xs[next as usize],
        points.ys[next as usize],
        false,
        steps,
    ) {
        return Progress {
            last,
            offer: Offer::Cut(witness),
        };
    }
    // Never so: no line fits the run with `next`.
    Progress {
        last: next,
        offer: Offer::Extended,
    }
}

/// Takes in the places after `from` up to `last`, which some line fits.
fn extend<L: Ledger>(
    hulls: &mut Hulls,
    points: PointList<'_>,
    from: u32,
    last: u32,
    steps: &mut Steps<L>,
)
    requires onward { from ≤ last }
    requires within { last < length points.xs.now }
    requires stretch { (s : ℕ) × IsInStretch hulls.old (points_in points)
        (bound_of hulls.old) s from last × SomeLineFits (points_in points)
        (bound_of hulls.old) s (last + 1) × (last < s + room_of hulls.old) }
    requires on_hulls { EndOn hulls.old }
    ensures stands { (s : ℕ) → IsInStretch hulls.old (points_in points.entry)
        (bound_of hulls.old) s from last → SomeLineFits (points_in points.entry)
        (bound_of hulls.old) s (last + 1) → StandsFor hulls.new (points_in points.entry)
        (bound_of hulls.old) s (last + 1) }
    ensures none { from ≡ last → steps.new + spare hulls.new ≤ steps.old + spare hulls.old }
    ensures cost { steps.new + spare hulls.new ≤ steps.old + spare hulls.old + 8 }
    ensures room { room_of hulls.old ≤ room_of hulls.new }
    ensures bound { bound_of hulls.new ≡ bound_of hulls.old }
{
    if from < last {
        hulls.extend_to(
            last,
            points.xs[last as usize],
            points.ys[last as usize],
            false,
            steps,
        );
    }
}

/// The last place of a stretch up to which some line fits, where none fits to its `end`.
///
/// It is looked for from `from` on by steps that double, and then by halving, so that it takes no
/// more steps than the places up to it pay for.
fn last_fitting<L: Ledger>(
    hulls: &Hulls,
    points: PointList<'_>,
    from: u32,
    end: u32,
    steps: &mut Steps<L>,
) -> u32
    requires further { from < end }
    requires within { end < length points.xs.now }
    requires stretch { (s : ℕ) × IsInStretch hulls.now (points_in points)
        (bound_of hulls.now) s from end }
    requires refused { (s : ℕ) → IsInStretch hulls.now (points_in points)
        (bound_of hulls.now) s from end → SomeLineFits (points_in points)
        (bound_of hulls.now) s (end + 1) → ⊥ }
    ensures onward { from ≤ result }
    ensures within { result < end }
    ensures fits { (s : ℕ) → IsInStretch hulls.now (points_in points.entry)
        (bound_of hulls.now) s from end → SomeLineFits (points_in points.entry)
        (bound_of hulls.now) s (result + 1) }
    ensures refused { (s : ℕ) → IsInStretch hulls.now (points_in points.entry)
        (bound_of hulls.now) s from end → SomeLineFits (points_in points.entry)
        (bound_of hulls.now) s (result + 2) → ⊥ }
    ensures cost { steps.new + 4 * from ≤ steps.old + 4 * result + 2 }
{
    let mut fitting = from;
    let mut refused = end;
    while fitting + 1 < refused {
        let probe = fitting + (fitting - from + 1).min((refused - fitting) / 2);
        if hulls.fits(
            probe,
            points.xs[probe as usize],
            points.ys[probe as usize],
            steps,
        ) {
            fitting = probe;
        } else {
            refused = probe;
        }
    }
    fitting
}

/// The run that the hulls stand for.
fn run_of(hulls: &Hulls, start: u32, end: u32, cut: Option<Witness>) -> Run
    requires { (p : Points) × (eps : ℕ) × StandsFor hulls.now p eps start end }
    ensures start { result.segment.start ≡ start }
    ensures end { result.end ≡ end }
    ensures steep { (p : Points) (eps : ℕ) → StandsFor hulls.now p eps start end →
        IsSteepSegment p eps result.segment end }
    ensures flat { (p : Points) (eps : ℕ) → StandsFor hulls.now p eps start end →
        IsFlatLine p eps start end result.flat }
    ensures middle { MeanRises result.segment.line result.flat }
    ensures cut { result.segment.cut ≡ cut }
{
    let (a, b, line) = hulls.line();
    let segment = Segment {
        start,
        a,
        b,
        line,
        cut,
    };
    Run {
        segment,
        flat: hulls.flat_line(),
        end,
    }
}
