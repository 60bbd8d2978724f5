//! Worked lists, found by hand from the definitions, and pieces of two workers that meet.

ghost use Rattle.std.specs.Prelude.{◌≤◌, IsTrue, IfOk, length};
ghost use Rattle.exact_cross.specs.PointLists.{points_in};
ghost use Rattle.exact_cross.specs.Segmentation.{IsSegmentation};
ghost use Rattle.piece_join.specs.Cuttings.{AreFewCuts};

use crate::common::{Points, are_same, expect, points_of, workers_of};
use budget::NoMemory;
use cut_witness::slack;
use edge::{Gate, OpenGate, Place};
use exact_cross::{PointList, Segment};
use options::Pieces;
use piece_join::{even_cuts, join, relaxed, segment_in_pieces, uneven_cuts};
use segmenter::segment;
use std::alloc::Global;
use std::process::Abort;
use std::sync::atomic::{AtomicBool, Ordering};
use std::thread;
use std::thread::Threads;

const SQUARES: [u64; 6] = [0, 1, 4, 9, 16, 25];

const PLACES: [u32; 6] = [0, 1, 2, 3, 4, 5];

/// Whether these are cuts of `m` points, fewer than 100.
pub fn are_cuts(m: usize, cuts: &[u32]) -> bool
    ensures { IsTrue result → AreFewCuts m cuts.now }
{
    if cuts.len() >= 100 {
        return false;
    }
    let mut last = 0;
    for cut in cuts {
        if *cut <= last || *cut as usize >= m {
            return false;
        }
        last = *cut;
    }
    true
}

/// Whether segments have these first places.
pub fn has_starts(segments: &[Segment], starts: &[u32]) -> bool {
    if segments.len() != starts.len() {
        return false;
    }
    for i in 0..starts.len() {
        if segments[i].start != starts[i] {
            return false;
        }
    }
    true
}

/// Whether these are the segments that one thread makes, with `ε = 0`.
fn are_whole(alloc: Global, points: PointList<'_>, segments: &[Segment]) -> Result<bool, NoMemory> {
    let whole = segment(alloc, points, 0, 0, points.xs.len() as u32)?;
    Ok(segments == whole.as_slice())
}

/// Whether pieces give segments with these starts, with `ε = 0`, and whether they are those that
/// one thread makes.
fn compared<R: Threads + Abort + AllocGlobal + Sync, G: Gate>(
    rt: &R,
    points: Points<'_>,
    cuts: &[u32],
    workers: u32,
    gate: &G,
    starts: &[u32],
) -> Result<(bool, bool), NoMemory> {
    let points = points_of(rt, points);
    assert!(rt; are_cuts(points.xs.len(), cuts));
    let workers = workers_of(rt, workers);
    let segments = segment_in_pieces(rt, rt.alloc(), points, 0, cuts, workers, gate)?;
    let same = are_whole(rt.alloc(), points, &segments)?;
    Ok((has_starts(&segments, starts), same))
}

/// Fails with the cuts and the workers.
fn expect_same<R: Abort>(rt: &R, cuts: &[u32], workers: u32, same: bool) {
    assert!(rt; same, "{cuts:?} by {workers}");
}

/// Compares the starts that pieces give, with `ε = 0`, and the segments with those of one thread.
fn expect_starts<R: Threads + Abort + AllocGlobal + Sync, G: Gate>(
    rt: &R,
    points: Points<'_>,
    cuts: &[u32],
    workers: u32,
    gate: &G,
    starts: &[u32],
) -> Result<(), NoMemory> {
    let (same_starts, same) = compared(rt, points, cuts, workers, gate, starts)?;
    expect_same(rt, cuts, workers, same_starts && same);
    Ok(())
}

/// The segments of a part, with `ε = 0`.
fn part(alloc: Global, points: PointList<'_>, from: u32, to: u32) -> Result<Vec<Segment>, NoMemory>
    requires range { from ≤ to }
    requires within { to ≤ length points.xs.now }
    ensures { IfOk result
        (λ segments. IsSegmentation (points_in points.entry) 0 from to segments.items) }
{
    segment(alloc, points, 0, from, to)
}

const SQUARE_POINTS: Points<'static> = (&SQUARES, &PLACES);

/// Points, cuts, how many workers there are, and the starts.
type PieceRow = (Points<'static>, &'static [u32], u32, &'static [u32]);

/// Compares the pieces of a row.
fn check_pieces<R: Threads + Abort + AllocGlobal + Sync>(
    rt: &R,
    row: &PieceRow,
) -> Result<(), NoMemory> {
    let (points, cuts, workers, starts) = *row;
    expect_starts(rt, points, cuts, workers, &OpenGate, starts)
}

/// The right piece speculates 3 and 5, and the runs from the left start at 2 and 4: they never
/// meet.
static NEVER_MEETING: [PieceRow; 4] = [
    (SQUARE_POINTS, &[3], 1, &[0, 2, 4]),
    (SQUARE_POINTS, &[3], 2, &[0, 2, 4]),
    (SQUARE_POINTS, &[3], 3, &[0, 2, 4]),
    (SQUARE_POINTS, &[3], 64, &[0, 2, 4]),
];

#[test]
fn pieces_that_never_meet(rt: HostRuntime) -> Result<(), NoMemory> {
    for row in &NEVER_MEETING {
        check_pieces(&rt, row)?;
    }
    Ok(())
}

/// One place a piece, as of more pieces than points, no cut at all, and no point; and one run over
/// all pieces.
static ANY_CUTS: [PieceRow; 7] = [
    (SQUARE_POINTS, &[1, 2, 3, 4, 5], 3, &[0, 2, 4]),
    (SQUARE_POINTS, &[], 3, &[0, 2, 4]),
    (SQUARE_POINTS, &[1], 3, &[0, 2, 4]),
    (SQUARE_POINTS, &[5], 3, &[0, 2, 4]),
    (SQUARE_POINTS, &[2, 4], 3, &[0, 2, 4]),
    ((&[], &[]), &[], 2, &[]),
    ((&[7, 8, 9, 10, 11, 12], &PLACES), &[1, 3, 4], 2, &[0]),
];

#[test]
fn any_cuts(rt: HostRuntime) -> Result<(), NoMemory> {
    for row in &ANY_CUTS {
        check_pieces(&rt, row)?;
    }
    Ok(())
}

/// An edge in the points of four keys, and the starts on the left, on the right, and joined.
type JoinRow = (u32, &'static [u32], &'static [u32], &'static [u32]);

/// The run from 0 goes past the edge and ends at the second start of the right; and nothing on the
/// right.
static JOINS: [JoinRow; 2] = [(1, &[0], &[1, 3], &[0, 3]), (4, &[0, 3], &[], &[0, 3])];

/// Whether the left part, the right part and both joined at an edge have the row's starts.
fn join_compared<R: Abort + AllocGlobal>(rt: &R, row: &JoinRow) -> Result<[bool; 3], NoMemory> {
    let (edge, left_starts, right_starts, starts) = *row;
    let points = points_of(rt, (&FOUR, &[0, 1, 2, 3]));
    assert!(rt; points.xs.len() == 4 && 1 <= edge && edge <= 4);
    let left = part(rt.alloc(), points, 0, edge)?;
    let right = part(rt.alloc(), points, edge, 4)?;
    let same_left = has_starts(&left, left_starts);
    let same_right = has_starts(&right, right_starts);
    let joined = join(rt.alloc(), points, 0, left, &right, edge, 4)?;
    Ok([same_left, same_right, has_starts(&joined, starts)])
}

const FOUR: [u64; 4] = [0, 1, 2, 10];

#[test]
fn a_join_that_meets(rt: HostRuntime) -> Result<(), NoMemory> {
    for row in &JOINS {
        let [left, right, joined] = join_compared(&rt, row)?;
        expect(&rt, "left", left);
        expect(&rt, "right", right);
        expect(&rt, "joined", joined);
    }
    Ok(())
}

/// Points, pieces or workers, and the cuts.
type CutRow = (u32, u32, &'static [u32]);

/// 10k/4 is 2.5, 5 and 7.5; 2k/4 is 0.5, 1 and 1.5; 6k/10 is 0.6, 1.2, 1.8, 2.4, 3, 3.6, 4.2, 4.8
/// and 5.4.
static EVEN: [CutRow; 6] = [
    (10, 4, &[2, 5, 7]),
    (2, 4, &[1]),
    (0, 4, &[]),
    (9, 1, &[]),
    (6, 10, &[1, 2, 3, 4, 5]),
    (6, 2, &[3]),
];

/// Of 72 points the places are k(k + 1), and of 6 points k(k + 1)/12.
static UNEVEN: [CutRow; 2] = [
    (72, 1, &[2, 6, 12, 20, 30, 42, 56]),
    (6, 2, &[1, 2, 3, 4, 5]),
];

/// Whether points are cut evenly so.
fn cuts_evenly<R: Abort + AllocGlobal>(rt: &R, row: &CutRow) -> Result<bool, NoMemory> {
    let (points, pieces, wanted) = *row;
    assert!(rt; 1 <= pieces && pieces <= 64);
    let cuts = even_cuts(rt.alloc(), points, Pieces { count: pieces })?;
    Ok(are_same(&cuts, wanted))
}

/// Whether points are cut unevenly so.
fn cuts_unevenly<R: Abort + AllocGlobal>(rt: &R, row: &CutRow) -> Result<bool, NoMemory> {
    let (points, workers, wanted) = *row;
    let cuts = uneven_cuts(rt.alloc(), points, workers_of(rt, workers))?;
    Ok(are_same(&cuts, wanted))
}

#[test]
fn cuttings(rt: HostRuntime) -> Result<(), NoMemory> {
    for row in &EVEN {
        let same = cuts_evenly(&rt, row)?;
        expect_same(&rt, row.2, row.1, same);
    }
    for row in &UNEVEN {
        let same = cuts_unevenly(&rt, row)?;
        expect_same(&rt, row.2, row.1, same);
    }
    Ok(())
}

/// How often a thread looks for another one's place before it gives up.
const TURNS: u32 = 1_000_000;

/// A gate that holds a place until another was reached, and where `both` is set that one until the
/// first was reached.
#[derive(Drop)]
struct Holding {
    held: Place,
    until: Place,
    both: bool,
    held_reached: AtomicBool,
    until_reached: AtomicBool,
    gave_up: AtomicBool,
}

impl Holding {
    fn new(held: Place, until: Place, both: bool) -> Self {
        Holding {
            held,
            until,
            both,
            held_reached: AtomicBool::new(false),
            until_reached: AtomicBool::new(false),
            gave_up: AtomicBool::new(false),
        }
    }

    /// Waits until a place was reached, but not forever.
    fn wait_for(&self, reached: &AtomicBool) {
        for _turn in 0..TURNS {
            if reached.load(Ordering::SeqCst) {
                return;
            }
            thread::yield_now();
        }
        self.gave_up.store(true, Ordering::SeqCst);
    }

    /// Whether both places were reached, and no thread gave up.
    fn was_passed(&self) -> bool {
        self.held_reached.load(Ordering::SeqCst)
            && self.until_reached.load(Ordering::SeqCst)
            && !self.gave_up.load(Ordering::SeqCst)
    }
}

impl Gate for Holding {
    fn at(&self, place: Place) {
        if place == self.held {
            self.held_reached.store(true, Ordering::SeqCst);
            self.wait_for(&self.until_reached);
        }
        if place == self.until {
            self.until_reached.store(true, Ordering::SeqCst);
            if self.both {
                self.wait_for(&self.held_reached);
            }
        }
    }
}

/// Whether two workers pass a gate over the squares, and compares their starts.
fn passes<R: Threads + Abort + AllocGlobal + Sync>(
    rt: &R,
    held: Place,
    until: Place,
    both: bool,
    cuts: &[u32],
) -> Result<bool, NoMemory> {
    let gate = Holding::new(held, until, both);
    expect_starts(rt, SQUARE_POINTS, cuts, 2, &gate, &[0, 2, 4])?;
    Ok(gate.was_passed())
}

/// Two pieces wait for each other, so that two workers are at work at once.
#[test]
fn two_pieces_at_once(rt: HostRuntime) -> Result<(), NoMemory> {
    let (first, second) = (Place::PieceBegun(0), Place::PieceBegun(1));
    let passed = passes(&rt, first, second, true, &[3])?;
    expect(&rt, "both pieces", passed);
    Ok(())
}

/// Of six pieces the first is held until the third is done: the other worker draws on meanwhile.
#[test]
fn a_worker_draws_on_while_another_is_held(rt: HostRuntime) -> Result<(), NoMemory> {
    let (first, third) = (Place::PieceBegun(0), Place::PieceDone(2));
    let passed = passes(&rt, first, third, false, &[1, 2, 3, 4, 5])?;
    expect(&rt, "the first piece", passed);
    Ok(())
}

/// Cuts of points, the starts of the pieces side by side with `ε = 0`, and their slack.
struct SideBySide {
    xs: &'static [u64],
    ys: &'static [u32],
    cuts: &'static [u32],
    starts: &'static [u32],
    slack: u32,
}

static SIDE_BY_SIDE: [SideBySide; 6] = [
    SideBySide {
        xs: &SQUARES,
        ys: &PLACES,
        cuts: &[],
        starts: &[0, 2, 4],
        slack: 0,
    },
    SideBySide {
        xs: &SQUARES,
        ys: &PLACES,
        cuts: &[3],
        starts: &[0, 2, 3, 5],
        slack: 1,
    },
    SideBySide {
        xs: &SQUARES,
        ys: &PLACES,
        cuts: &[2, 4],
        starts: &[0, 2, 4],
        slack: 2,
    },
    SideBySide {
        xs: &SQUARES,
        ys: &PLACES,
        cuts: &[1, 2, 3, 4, 5],
        starts: &[0, 1, 2, 3, 4, 5],
        slack: 5,
    },
    SideBySide {
        xs: &[0, 1, 2, 10],
        ys: &[0, 1, 2, 3],
        cuts: &[2],
        starts: &[0, 2],
        slack: 1,
    },
    SideBySide {
        xs: &[],
        ys: &[],
        cuts: &[],
        starts: &[],
        slack: 0,
    },
];

/// Whether the pieces have the row's starts, and the slack that they show.
fn compared_side_by_side<R: Threads + Abort + AllocGlobal + Sync>(
    rt: &R,
    row: &SideBySide,
    workers: u32,
) -> Result<(bool, Option<u32>), NoMemory> {
    let points = points_of(rt, (row.xs, row.ys));
    assert!(rt; are_cuts(points.xs.len(), row.cuts));
    let workers = workers_of(rt, workers);
    let segments = relaxed(rt, rt.alloc(), points, 0, row.cuts, workers, &OpenGate)?;
    Ok((
        has_starts(&segments, row.starts),
        slack(points, 0, &segments),
    ))
}

fn expect_side_by_side<R: Threads + Abort + AllocGlobal + Sync>(
    rt: &R,
    row: &SideBySide,
    workers: u32,
) -> Result<(), NoMemory> {
    let (same_starts, slack) = compared_side_by_side(rt, row, workers)?;
    expect_same(
        rt,
        row.cuts,
        workers,
        same_starts && slack == Some(row.slack),
    );
    Ok(())
}

#[test]
fn pieces_side_by_side(rt: HostRuntime) -> Result<(), NoMemory> {
    for row in &SIDE_BY_SIDE {
        for workers in &[1, 2, 3, 64] {
            expect_side_by_side(&rt, row, *workers)?;
        }
    }
    Ok(())
}
