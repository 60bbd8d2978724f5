//! Indexes worked out by hand: how many runs each level has, and positions of questions.
ghost use Rattle.std.specs.Prelude.{◌≡◌, ◌+◌, ◌*◌, ◌<◌, ◌≤◌};
ghost use Rattle.std.specs.Prelude.{length, IfOk};
ghost use Rattle.budget.specs.Ledgers.{IsNewLedger};
ghost use Rattle.key_points.specs.KeyPoints.{xs_of};
ghost use Rattle.levels.specs.Indexes.{places_below};
ghost use Rattle.piece_join.specs.Cuttings.{AreFewCuts};

use crate::common::{
    expect_answers, expect_none, expect_of, index_of, keys_of, points_of, workers_of,
};
use crate::piece_join_rows::{are_cuts, has_starts};
use budget::{NoMemory, Steps};
use cut_witness::slack;
use edge::OpenGate;
use exact_cross::MAX_EPSILON;
use key_search::{positions_among, positions_grouped};
use levels::{Index, Keys, LevelWindow, is_sorted};
use options::{Bounds, Pieces};
use piece_join::even_cuts;
use std::alloc::Global;
use std::marker::Brand;
use std::process::Abort;
use std::sync::ledger::{Blank, Ledger};
use std::thread::Threads;

/// Keys, the error bound of level 0, how many runs each level has, and positions of questions.
type IndexRow = (&'static [u64], u32, &'static [usize], &'static [(u64, u32)]);

const LAST: u64 = u64::MAX;

/// No error at any level.
const EXACT: Bounds = Bounds { eps: 0, eps_rec: 0 };

static WORKED_LISTS: [IndexRow; 7] = [
    (&[], 0, &[], &[(5, 0)]),
    (&[7], 0, &[1], &[(6, 0), (7, 0), (8, 1)]),
    (
        &[0, 1, 2, 10],
        0,
        &[2, 1],
        &[(0, 0), (1, 1), (2, 2), (3, 3), (9, 3), (10, 3), (11, 4)],
    ),
    (
        &[0, 10, 11, 12],
        0,
        &[2, 1],
        &[(9, 1), (10, 1), (11, 2), (99, 4)],
    ),
    (
        &[0, 10, 11, 12],
        1,
        &[1],
        &[(9, 1), (10, 1), (11, 2), (99, 4)],
    ),
    (
        &SQUARES,
        0,
        &[3, 2, 1],
        &[(0, 0), (3, 2), (4, 2), (16, 4), (17, 5), (25, 5), (26, 6)],
    ),
    (&[0, LAST], 1_048_576, &[1], &[(1, 1), (LAST, 1)]),
];

const SQUARES: [u64; 6] = [0, 1, 4, 9, 16, 25];

/// Equal keys have a closing point, at both ends of 64 bits too.
static REPEATED_LISTS: [IndexRow; 2] = [
    (
        &[5, 5, 5, 9],
        0,
        &[2, 1],
        &[(4, 0), (5, 0), (6, 3), (8, 3), (9, 3), (10, 4)],
    ),
    (
        &[0, 0, 0, LAST, LAST],
        0,
        &[2, 1],
        &[(0, 0), (1, 3), (LAST - 1, 3), (LAST, 3)],
    ),
];

/// Whether the levels have that many runs.
fn has_runs(index: &Index, runs: &[usize]) -> bool {
    let levels = index.level_count();
    if levels as usize != runs.len() {
        return false;
    }
    for level in 0..levels {
        if index.segments(level).len() != runs[level as usize] {
            return false;
        }
    }
    true
}

/// The first question whose position is another one.
fn misplaced(index: &Index, asked: &[(u64, u32)]) -> Option<u64> {
    for (q, position) in asked {
        if index.position(*q) != *position {
            return Some(*q);
        }
    }
    None
}

/// The positions of questions that are asked together.
fn together(alloc: Global, index: &Index, qs: &[u64]) -> Result<Vec<u32>, NoMemory> {
    let mut found = Vec::with_capacity(alloc, qs.len())?;
    index.positions(qs, &mut found);
    Ok(found)
}

/// Questions without their positions.
fn questions(alloc: Global, asked: &[(u64, u32)]) -> Result<Vec<u64>, NoMemory> {
    let mut qs = Vec::new(alloc);
    for (q, _) in asked {
        qs.push(*q)?;
    }
    Ok(qs)
}

/// Whether the positions found are those of the questions.
fn are_positions(found: &[u32], asked: &[(u64, u32)]) -> bool {
    if found.len() != asked.len() {
        return false;
    }
    for i in 0..found.len() {
        if found[i] != asked[i].1 {
            return false;
        }
    }
    true
}

/// Whether the questions have these positions where they are asked together.
fn placed_together(alloc: Global, index: &Index, asked: &[(u64, u32)]) -> Result<bool, NoMemory> {
    let qs = questions(alloc, asked)?;
    let found = together(alloc, index, &qs)?;
    Ok(are_positions(&found, asked))
}

/// Whether an index has the row's runs, the first question that it answers otherwise, and whether
/// it answers them together.
type Compared = (bool, Option<u64>, bool);

fn compared_with(alloc: Global, index: &Index, row: &IndexRow) -> Result<Compared, NoMemory> {
    let (_, _, runs, asked) = *row;
    let placed = placed_together(alloc, index, asked)?;
    Ok((has_runs(index, runs), misplaced(index, asked), placed))
}

fn compared<R: Abort + AllocGlobal>(rt: &R, row: &IndexRow) -> Result<Compared, NoMemory> {
    let index = index_of(rt, row.0, row.1)?;
    compared_with(rt.alloc(), &index, row)
}

/// The index of keys, in at most 12 counted steps for each place of the lists of its levels.
fn counted<L: Ledger>(
    alloc: Global,
    keys: Keys,
    bounds: Bounds,
    steps: &mut Steps<L>,
) -> Result<Index, NoMemory>
    requires none { steps.old ≡ 0 }
    ensures few { IfOk result (λ index.
        steps.new ≤ 12 * places_below keys index.levels (length index.levels)) }
{
    Index::build_here(alloc, keys, bounds, steps)
}

/// What is compared of the index of a row's keys whose build counts its steps.
fn compared_counted<R: Abort + AllocGlobal, L: Ledger>(
    rt: &R,
    row: &IndexRow,
    blank: Blank,
) -> Result<Compared, NoMemory>
    requires { IsNewLedger blank L.name L.parts }
{
    let (keys, eps, _, _) = *row;
    assert!(rt; eps <= MAX_EPSILON);
    let mut steps = Steps::<L>::new(blank);
    let keys = keys_of(rt, keys)?;
    let index = counted(rt.alloc(), keys, Bounds { eps, eps_rec: 0 }, &mut steps)?;
    compared_with(rt.alloc(), &index, row)
}

/// Fails with the keys of a row whose index isn't as wanted: its runs by level and the positions.
fn expect_compared<R: Abort>(rt: &R, keys: &[u64], compared: Compared) {
    let (same_runs, misplaced, placed) = compared;
    expect_of(rt, "runs", keys, same_runs);
    expect_none(rt, "position", keys, misplaced);
    expect_of(rt, "positions together", keys, placed);
}

/// Compares the index of a row's keys, and the one whose build counts its steps.
fn expect_index<R: Abort + AllocGlobal>(rt: &R, row: &IndexRow) -> Result<(), NoMemory> {
    expect_compared(rt, row.0, compared(rt, row)?);
    let counted = compared_counted::<R, Brand>(rt, row, Blank::new(1))?;
    expect_compared(rt, row.0, counted);
    Ok(())
}

#[test]
fn worked_lists(rt: HostRuntime) -> Result<(), NoMemory> {
    for row in &WORKED_LISTS {
        expect_index(&rt, row)?;
    }
    Ok(())
}

/// The index of these keys, built by workers in two pieces, with both bounds 0.
fn built_in_pieces<R: Threads + Abort + AllocGlobal + Sync>(
    rt: &R,
    keys: &[u64],
    cut: u32,
    workers: u32,
) -> Result<Index, NoMemory> {
    let workers = workers_of(rt, workers);
    let keys = keys_of(rt, keys)?;
    assert!(rt; are_cuts(keys.point_count() as usize, &[cut]));
    Index::build(rt, rt.alloc(), keys, EXACT, &[cut], workers, &OpenGate)
}

/// The first level that isn't the same in both.
fn other_level(one: &Index, two: &Index) -> Option<u32> {
    let levels = one.level_count().max(two.level_count());
    for level in 0..levels {
        let both = level < one.level_count() && level < two.level_count();
        if !both || one.segments(level) != two.segments(level) {
            return Some(level);
        }
    }
    None
}

/// Whether both have the runs of the squares, and the first level that isn't the same in both.
fn squares_compared(one: &Index, two: &Index) -> (bool, Option<u32>) {
    let same_runs = has_runs(one, &[3, 2, 1]) && has_runs(two, &[3, 2, 1]);
    (same_runs, other_level(one, two))
}

/// The same of the index of the squares that is built here and the one that workers build.
fn squares_in_pieces<R: Threads + Abort + AllocGlobal + Sync>(
    rt: &R,
    workers: u32,
) -> Result<(bool, Option<u32>), NoMemory> {
    let here = index_of(rt, &SQUARES, 0)?;
    let index = built_in_pieces(rt, &SQUARES, 3, workers)?;
    Ok(squares_compared(&here, &index))
}

/// Fails with the level that workers built otherwise.
fn expect_levels<R: Abort>(rt: &R, workers: u32, same_runs: bool, other: Option<u32>) {
    assert!(rt;
        same_runs && other.is_none(),
        "level {other:?} by {workers}"
    );
}

/// How many workers build an index.
static WORKERS: [u32; 4] = [1, 2, 3, 64];

/// The runs of level 0 are 0..2, 2..4 and 4..6, so that no run starts at the cut.
#[test]
fn any_number_of_workers(rt: HostRuntime) -> Result<(), NoMemory> {
    for workers in &WORKERS {
        let (same_runs, other) = squares_in_pieces(&rt, *workers)?;
        expect_levels(&rt, *workers, same_runs, other);
    }
    Ok(())
}

/// Keys cut into equal pieces that aren't joined: the slack and how many runs each level has, with
/// both bounds 0, and the position of a question.
struct RelaxedRow {
    keys: &'static [u64],
    pieces: u32,
    slack: u32,
    runs: &'static [usize],
    found: (u64, u32),
}

/// Two pieces; a piece for each point, where more are asked for; the one piece of all; equal keys,
/// whose closing point is cut off; and no keys.
static RELAXED_ROWS: [RelaxedRow; 6] = [
    RelaxedRow {
        keys: &SQUARES,
        pieces: 2,
        slack: 1,
        runs: &[4, 2, 1],
        found: (17, 5),
    },
    RelaxedRow {
        keys: &[0, 1, 2, 10],
        pieces: 2,
        slack: 1,
        runs: &[2, 1],
        found: (3, 3),
    },
    RelaxedRow {
        keys: &[0, 1, 2, 10],
        pieces: 64,
        slack: 3,
        runs: &[4, 2, 1],
        found: (9, 3),
    },
    RelaxedRow {
        keys: &SQUARES,
        pieces: 1,
        slack: 0,
        runs: &[3, 2, 1],
        found: (26, 6),
    },
    RelaxedRow {
        keys: &[5, 5, 5],
        pieces: 2,
        slack: 1,
        runs: &[2, 1],
        found: (6, 3),
    },
    RelaxedRow {
        keys: &[],
        pieces: 2,
        slack: 0,
        runs: &[],
        found: (5, 0),
    },
];

/// Even cuts of the points of keys.
fn cuts_of<R: Abort + AllocGlobal>(rt: &R, keys: &Keys, pieces: u32) -> Result<Vec<u32>, NoMemory>
    ensures { IfOk result (λ cuts. AreFewCuts (length (xs_of keys.now)) cuts.items) }
{
    assert!(rt; 1 <= pieces && pieces <= 64);
    even_cuts(rt.alloc(), keys.point_count(), Pieces { count: pieces })
}

/// The relaxed index of these keys, built by workers, with both bounds 0.
fn relaxed_of<R: Threads + Abort + AllocGlobal + Sync>(
    rt: &R,
    keys: &[u64],
    pieces: u32,
    workers: u32,
) -> Result<Index, NoMemory> {
    let workers = workers_of(rt, workers);
    let keys = keys_of(rt, keys)?;
    let cuts = cuts_of(rt, &keys, pieces)?;
    Index::build_relaxed(rt, rt.alloc(), keys, EXACT, &cuts, workers, &OpenGate)
}

/// The slack that level 0 shows, which is 0 where there is none.
fn slack_of<R: Abort + AllocGlobal>(rt: &R, index: &Index) -> Result<Option<u32>, NoMemory> {
    if index.level_count() == 0 {
        return Ok(Some(0));
    }
    let (xs, ys) = (index.xs(rt.alloc(), 0)?, index.ys(rt.alloc(), 0)?);
    Ok(slack(points_of(rt, (&xs, &ys)), 0, index.segments(0)))
}

/// Whether workers build an index with the row's runs and position, and its slack.
fn compared_relaxed<R: Threads + Abort + AllocGlobal + Sync>(
    rt: &R,
    row: &RelaxedRow,
    workers: u32,
) -> Result<(bool, bool, Option<u32>), NoMemory> {
    let index = relaxed_of(rt, row.keys, row.pieces, workers)?;
    let (q, position) = row.found;
    let found = index.position(q) == position;
    let slack = slack_of(rt, &index)?;
    Ok((has_runs(&index, row.runs), found, slack))
}

fn expect_relaxed<R: Threads + Abort + AllocGlobal + Sync>(
    rt: &R,
    row: &RelaxedRow,
    workers: u32,
) -> Result<(), NoMemory> {
    let (same_runs, found, slack) = compared_relaxed(rt, row, workers)?;
    expect_of(rt, "relaxed runs", row.keys, same_runs);
    expect_of(rt, "relaxed position", row.keys, found);
    expect_of(rt, "slack", row.keys, slack == Some(row.slack));
    Ok(())
}

#[test]
fn pieces_that_are_not_joined(rt: HostRuntime) -> Result<(), NoMemory> {
    for row in &RELAXED_ROWS {
        for workers in &WORKERS {
            expect_relaxed(&rt, row, *workers)?;
        }
    }
    Ok(())
}

/// Questions over the squares, and their positions.
static ASKED_SQUARES: [(u64, u32); 17] = [
    (0, 0),
    (1, 1),
    (2, 2),
    (4, 2),
    (5, 3),
    (9, 3),
    (10, 4),
    (16, 4),
    (17, 5),
    (25, 5),
    (26, 6),
    (3, 2),
    (8, 3),
    (15, 4),
    (24, 5),
    (99, 6),
    (17, 5),
];

/// Whether windows are these: level, first and last place.
fn are_windows(windows: &[LevelWindow], wanted: &[(u32, u32, u32)]) -> bool {
    if windows.len() != wanted.len() {
        return false;
    }
    for (window, (level, low, high)) in windows.iter().zip(wanted) {
        let same = window.level == *level && window.low == *low && window.high == *high;
        if !same {
            return false;
        }
    }
    true
}

/// Whether the windows along a lookup are these: level, first and last place.
fn has_windows(
    alloc: Global,
    index: &Index,
    q: u64,
    wanted: &[(u32, u32, u32)],
) -> Result<bool, NoMemory> {
    let windows = index.windows(alloc, q)?;
    Ok(are_windows(&windows, wanted))
}

/// Whether an index of the squares in two pieces has their starts, windows and positions.
fn relaxed_squares(alloc: Global, index: &Index) -> Result<[bool; 3], NoMemory> {
    let same_starts = index.level_count() > 0 && has_starts(index.segments(0), &[0, 2, 3, 5]);
    let windows = has_windows(alloc, index, 17, &[(2, 0, 2), (1, 1, 3), (0, 3, 5)])?;
    let placed = placed_together(alloc, index, &ASKED_SQUARES)?;
    Ok([same_starts, windows, placed])
}

/// Compares them where so many workers built the index.
fn expect_squares<R: Threads + Abort + AllocGlobal + Sync>(
    rt: &R,
    workers: u32,
) -> Result<(), NoMemory> {
    let answers = relaxed_squares(rt.alloc(), &relaxed_of(rt, &SQUARES, 2, workers)?)?;
    expect_answers(rt, "starts, windows and positions", answers);
    Ok(())
}

/// Each number of workers gives the same pieces, and their questions the same windows.
#[test]
fn relaxed_windows(rt: HostRuntime) -> Result<(), NoMemory> {
    for workers in &WORKERS {
        expect_squares(&rt, *workers)?;
    }
    Ok(())
}

/// The points of the levels of keys that repeat: level, x and y.
static REPEATED_POINTS: [(u32, &[u64], &[u32]); 2] = [
    (0, &[5, 6, 9], &[0, 3, 3]),
    (1, &[5, 9], &[0, 1]),
];

/// Whether a level has these points, and as many.
fn has_level(
    alloc: Global,
    index: &Index,
    points: &(u32, &[u64], &[u32]),
) -> Result<bool, NoMemory> {
    let (level, xs, ys) = *points;
    if level >= index.level_count() || index.point_count(level) as usize != xs.len() {
        return Ok(false);
    }
    let (list, ranks) = (index.xs(alloc, level)?, index.ys(alloc, level)?);
    Ok(list.as_slice() == xs && ranks.as_slice() == ys)
}

/// Compares the points of a level of the index of these keys.
fn expect_level<R: Abort + AllocGlobal>(
    rt: &R,
    keys: &[u64],
    points: &(u32, &[u64], &[u32]),
) -> Result<(), NoMemory> {
    let same = has_level(rt.alloc(), &index_of(rt, keys, 0)?, points)?;
    expect_of(rt, "points", keys, same);
    Ok(())
}

#[test]
fn keys_that_repeat(rt: HostRuntime) -> Result<(), NoMemory> {
    for row in &REPEATED_LISTS {
        expect_index(&rt, row)?;
    }
    for points in &REPEATED_POINTS {
        expect_level(&rt, REPEATED_LISTS[0].0, points)?;
    }
    Ok(())
}

/// A question, and the windows along its lookup: level, first and last place.
struct WindowRow<'a> {
    keys: &'a [u64],
    q: u64,
    windows: &'a [(u32, u32, u32)],
}

/// Both error bounds are 0: a question below the first key, equal keys, and three levels.
static WINDOW_ROWS: [WindowRow; 6] = [
    WindowRow {
        keys: &[],
        q: 4,
        windows: &[],
    },
    WindowRow {
        keys: &[5, 5, 5, 9],
        q: 4,
        windows: &[],
    },
    WindowRow {
        keys: &[5, 5, 5, 9],
        q: 5,
        windows: &[(1, 0, 1), (0, 0, 1)],
    },
    WindowRow {
        keys: &[5, 5, 5, 9],
        q: 6,
        windows: &[(1, 0, 1), (0, 2, 4)],
    },
    WindowRow {
        keys: &[5, 5, 5, 9],
        q: 10,
        windows: &[(1, 0, 2), (0, 2, 4)],
    },
    WindowRow {
        keys: &SQUARES,
        q: 17,
        windows: &[(2, 0, 2), (1, 1, 3), (0, 3, 5)],
    },
];

/// The question of a row whose windows are others.
fn other_windows<R: Abort + AllocGlobal>(rt: &R, row: &WindowRow) -> Result<Option<u64>, NoMemory> {
    let index = index_of(rt, row.keys, 0)?;
    let same = has_windows(rt.alloc(), &index, row.q, row.windows)?;
    Ok(if same { None } else { Some(row.q) })
}

#[test]
fn windows_along_lookups(rt: HostRuntime) -> Result<(), NoMemory> {
    for row in &WINDOW_ROWS {
        let other = other_windows(&rt, row)?;
        expect_none(&rt, "windows", row.keys, other);
    }
    Ok(())
}

/// More questions than are interleaved, of which the last ones go one by one.
static NUMBERS: [u64; 37] = [
    0, 1, 2, 3, 4, 5, 6, 7, 8, 9, 10, 11, 12, 13, 14, 15, 16, 17, 18, 19, 20, 21, 22, 23, 24, 25,
    26, 27, 28, 29, 30, 31, 32, 33, 34, 35, 36,
];

/// The first number whose position isn't how many keys are below it, counted one by one.
fn miscounted(keys: &[u64], found: &[u32]) -> Option<u64> {
    if found.len() != NUMBERS.len() {
        return Some(0);
    }
    for (q, position) in NUMBERS.iter().zip(found) {
        let below = keys.iter().filter(|key| **key < *q).count();
        if *position as usize != below {
            return Some(*q);
        }
    }
    None
}

/// The positions of questions among keys, without an index.
fn among<R: Abort + AllocGlobal>(rt: &R, keys: &[u64], qs: &[u64]) -> Result<Vec<u32>, NoMemory> {
    assert!(rt; is_sorted(keys) && keys.len() < 1000);
    let mut found = Vec::with_capacity(rt.alloc(), qs.len())?;
    positions_among(keys, qs, &mut found);
    Ok(found)
}

/// The same with the questions in groups.
fn grouped<R: Abort + AllocGlobal>(rt: &R, keys: &[u64], qs: &[u64]) -> Result<Vec<u32>, NoMemory> {
    assert!(rt; is_sorted(keys) && keys.len() < 1000 && qs.len() < 1000);
    let mut found = Vec::with_capacity(rt.alloc(), qs.len())?;
    positions_grouped(rt.alloc(), keys, qs, &mut found);
    Ok(found)
}

/// The positions of questions, by an index.
fn indexed<R: Abort + AllocGlobal>(rt: &R, keys: &[u64], qs: &[u64]) -> Result<Vec<u32>, NoMemory> {
    let index = index_of(rt, keys, 0)?;
    together(rt.alloc(), &index, qs)
}

/// The first number that is miscounted by an index, among the keys alone, and in groups.
fn miscounted_by_ways<R: Abort + AllocGlobal>(
    rt: &R,
    keys: &[u64],
) -> Result<[Option<u64>; 3], NoMemory> {
    let by_index = miscounted(keys, &indexed(rt, keys, &NUMBERS)?);
    let alone = miscounted(keys, &among(rt, keys, &NUMBERS)?);
    let in_groups = miscounted(keys, &grouped(rt, keys, &NUMBERS)?);
    Ok([by_index, alone, in_groups])
}

static INTERLEAVED: [&[u64]; 3] = [&SQUARES, &[3, 5, 5, 5, 9, 9, 10, 20, 20, 30], &[]];

/// The numbers 0, 1, 2 and so on, whose positions are counted one key at a time. By an index and
/// without one.
#[test]
fn interleaved_questions(rt: HostRuntime) -> Result<(), NoMemory> {
    for keys in &INTERLEAVED {
        let [by_index, alone, in_groups] = miscounted_by_ways(&rt, keys)?;
        expect_none(&rt, "by an index", keys, by_index);
        expect_none(&rt, "without an index", keys, alone);
        expect_none(&rt, "without an index, grouped", keys, in_groups);
    }
    Ok(())
}

/// The multiples of 10 from 0 on.
fn tens(alloc: Global) -> Result<Vec<u64>, NoMemory> {
    let mut keys = Vec::new(alloc);
    for i in 0..900 {
        keys.push(i * 10)?;
    }
    Ok(keys)
}

/// Scattered questions, several in each part of those keys.
fn scattered(alloc: Global) -> Result<Vec<u64>, NoMemory> {
    let mut qs = Vec::new(alloc);
    for i in 0..700 {
        qs.push(i * 7919 % 8991)?;
    }
    Ok(qs)
}

/// The first question whose position isn't how many tens it has, a begun one too.
fn miscounted_tens(qs: &[u64], found: &[u32]) -> Option<u64> {
    if qs.len() != 700 || found.len() != 700 {
        return Some(0);
    }
    for (q, position) in qs.iter().zip(found) {
        if u64::from(*position) != q.div_ceil(10) {
            return Some(*q);
        }
    }
    None
}

/// The first of the scattered questions that is answered otherwise in groups.
fn misplaced_in_groups<R: Abort + AllocGlobal>(rt: &R) -> Result<Option<u64>, NoMemory> {
    let keys = tens(rt.alloc())?;
    let qs = scattered(rt.alloc())?;
    let found = grouped(rt, &keys, &qs)?;
    Ok(miscounted_tens(&qs, &found))
}

/// Of the multiples of 10 from 0 on as many are below a number as it has tens, a begun one too.
#[test]
fn groups_questions(rt: HostRuntime) -> Result<(), NoMemory> {
    let wrong = misplaced_in_groups(&rt)?;
    expect_none(&rt, "grouped tens", &[], wrong);
    Ok(())
}
