// Worked lists: their runs, pairs, lines and cuts were found by hand from the definitions.
ghost use Rattle.std.specs.Prelude.{◌≤◌, length};
ghost use Rattle.budget.specs.Ledgers.{IsNewLedger};
ghost use Rattle.exact_cross.specs.declared.TheConstants.{MAX_EPSILON};

use crate::common::{Points, expect_of, points_of};
use budget::{NoMemory, Steps};
use exact_cross::{Line, PointList, Segment, Side, Witness};
use segmenter::{segment, segment_counted};
use std::alloc::Global;
use std::marker::Brand;
use std::process::Abort;
use std::sync::ledger::{Blank, Ledger};

/// Three places and the side of the last one.
type Cut = (u32, u32, u32, Side);

/// A segment: its start, its pair, its line as x0, y0, rise and run, and its cut.
type Row = (u32, u32, u32, (u64, i64, u64, u64), Option<Cut>);

/// Points, the error bound, the places of the part, and its segments.
type Case = (Points<'static>, u32, (u32, u32), &'static [Row]);

fn segment_of(row: &Row) -> Segment {
    let (start, a, b, (x0, y0, rise, run), cut) = *row;
    let line = Line { x0, y0, rise, run };
    let cut = match cut {
        Some((p, q, r, side)) => Some(Witness { p, q, r, side }),
        None => None,
    };
    Segment {
        start,
        a,
        b,
        line,
        cut,
    }
}

/// Whether the segments are these.
fn are_rows(segments: &[Segment], rows: &[Row]) -> bool {
    if segments.len() != rows.len() {
        return false;
    }
    for i in 0..rows.len() {
        if segments[i] != segment_of(&rows[i]) {
            return false;
        }
    }
    true
}

/// Whether a part has these segments.
fn has_rows(
    alloc: Global,
    points: PointList<'_>,
    eps: u32,
    range: (u32, u32),
    rows: &[Row],
) -> Result<bool, NoMemory>
    requires bounded { eps ≤ MAX_EPSILON }
    requires range { range.0 ≤ range.1 }
    requires within { range.1 ≤ length points.xs.now }
{
    let segments = segment(alloc, points, eps, range.0, range.1)?;
    Ok(are_rows(&segments, rows))
}

/// Whether a part has these segments, also where steps are counted.
fn compared<R: Abort + AllocGlobal>(
    rt: &R,
    points: Points<'_>,
    eps: u32,
    range: (u32, u32),
    rows: &[Row],
) -> Result<(bool, bool), NoMemory> {
    let points = points_of(rt, points);
    let (from, to) = range;
    assert!(rt; eps <= 1_048_576);
    assert!(rt; from <= to && to as usize <= points.xs.len());
    let same = has_rows(rt.alloc(), points, eps, range, rows)?;
    let counted = counts_rows::<Brand>(rt.alloc(), points, eps, range, rows, Blank::new(1))?;
    Ok((same, counted))
}

/// Compares the segments of a part, also where steps are counted.
fn expect_rows<R: Abort + AllocGlobal>(
    rt: &R,
    points: Points<'_>,
    eps: u32,
    range: (u32, u32),
    rows: &[Row],
) -> Result<(), NoMemory> {
    let (same, counted) = compared(rt, points, eps, range, rows)?;
    expect_of(rt, "segments", points.0, same);
    expect_of(rt, "counted segments", points.0, counted);
    Ok(())
}

fn expect_cases<R: Abort + AllocGlobal>(rt: &R, cases: &[Case]) -> Result<(), NoMemory> {
    for (points, eps, range, rows) in cases {
        expect_rows(rt, *points, *eps, *range, rows)?;
    }
    Ok(())
}

/// Whether it has them where a counter of its own counts the steps.
fn counts_rows<L: Ledger>(
    alloc: Global,
    points: PointList<'_>,
    eps: u32,
    range: (u32, u32),
    rows: &[Row],
    blank: Blank,
) -> Result<bool, NoMemory>
    requires bounded { eps ≤ MAX_EPSILON }
    requires range { range.0 ≤ range.1 }
    requires within { range.1 ≤ length points.xs.now }
    requires ledger { IsNewLedger blank L.name L.parts }
{
    let mut steps = Steps::<L>::new(blank);
    let segments = segment_counted(alloc, points, eps, range.0, range.1, &mut steps)?;
    Ok(are_rows(&segments, rows))
}

const FOUR: Points<'static> = (&[0, 1, 2, 10], &[0, 1, 2, 3]);

const JUMP: Points<'static> = (&[0, 10, 11, 12], &[0, 1, 2, 3]);

const SQUARES: Points<'static> = (&[0, 1, 4, 9, 16, 25], &[0, 1, 2, 3, 4, 5]);

static WORKED_LISTS: [Case; 8] = [
    // The line through 0 and 1 fits 2 too, and passes far above the point of 10.
    (
        FOUR,
        0,
        (0, 4),
        &[
            (0, 0, 1, (0, 0, 1, 1), Some((0, 1, 3, Side::Under))),
            (3, 3, 3, (10, 3, 0, 1), None),
        ],
    ),
    (
        FOUR,
        0,
        (1, 4),
        &[
            (1, 1, 2, (1, 1, 1, 1), Some((1, 2, 3, Side::Under))),
            (3, 3, 3, (10, 3, 0, 1), None),
        ],
    ),
    (FOUR, 0, (2, 2), &[]),
    (
        JUMP,
        0,
        (0, 4),
        &[
            (0, 0, 1, (0, 0, 1, 10), Some((0, 1, 2, Side::Over))),
            (2, 2, 3, (11, 2, 1, 1), None),
        ],
    ),
    (JUMP, 1, (0, 4), &[(0, 0, 1, (0, -1, 3, 10), None)]),
    (
        SQUARES,
        0,
        (0, 6),
        &[
            (0, 0, 1, (0, 0, 1, 1), Some((0, 1, 2, Side::Under))),
            (2, 2, 3, (4, 2, 1, 5), Some((2, 3, 4, Side::Under))),
            (4, 4, 5, (16, 4, 1, 9), None),
        ],
    ),
    // All pairs have one slope, and the first of them is taken.
    (
        (&[0, 1, 2, 3], &[0, 1, 2, 3]),
        0,
        (0, 4),
        &[(0, 0, 1, (0, 0, 1, 1), None)],
    ),
    (
        (&[0, u64::MAX], &[0, 1]),
        1_048_576,
        (0, 2),
        &[(0, 0, 1, (0, -1_048_576, 2_097_153, u64::MAX), None)],
    ),
];

#[test]
fn worked_lists(rt: HostRuntime) -> Result<(), NoMemory> {
    expect_cases(&rt, &WORKED_LISTS)
}

/// Runs whose steep pair and flat pair differ, neither of them at the first two places.
static CUT_BY_SIDE: [Case; 2] = [
    // Over: 0 * 3 + 4 * 10 is above 3 * 13.
    (
        (&[3, 4, 14, 15, 16, 17, 20], &[0, 1, 2, 3, 4, 5, 6]),
        1,
        (0, 7),
        &[
            (0, 1, 2, (4, 0, 3, 10), Some((1, 2, 5, Side::Over))),
            (5, 5, 6, (17, 4, 3, 3), None),
        ],
    ),
    // Under: 2 * 10 + 7 * 5 is below 4 * 15.
    (
        (&[1, 4, 5, 6, 7, 9, 19], &[0, 1, 2, 3, 4, 5, 6]),
        1,
        (0, 7),
        &[
            (0, 0, 5, (1, -1, 7, 8), Some((1, 5, 6, Side::Under))),
            (6, 6, 6, (19, 6, 0, 1), None),
        ],
    ),
];

#[test]
fn cuts_by_the_pair_of_their_side(rt: HostRuntime) -> Result<(), NoMemory> {
    expect_cases(&rt, &CUT_BY_SIDE)
}

/// Heights that repeat and jump: y is not the place.
static HEIGHTS: [Case; 3] = [
    (
        (&[0, 1, 2, 3], &[5, 5, 5, 90]),
        0,
        (0, 4),
        &[
            (0, 0, 1, (0, 5, 0, 1), Some((0, 1, 3, Side::Over))),
            (3, 3, 3, (3, 90, 0, 1), None),
        ],
    ),
    // Of the steep slopes 5/2, 5/4, 8/6, 2/2, 5/4 and 5/2 that of the places 1 and 2 is the least.
    (
        (&[0, 2, 4, 6], &[0, 3, 3, 6]),
        1,
        (0, 4),
        &[(0, 1, 2, (2, 2, 2, 2), None)],
    ),
    // The greatest heights that a list can have.
    (
        (&[0, 10, 20, 21], &[0, 0, u32::MAX, u32::MAX]),
        0,
        (0, 4),
        &[
            (0, 0, 1, (0, 0, 0, 10), Some((0, 1, 2, Side::Over))),
            (2, 2, 3, (20, 4_294_967_295, 0, 1), None),
        ],
    ),
];

#[test]
fn heights_of_their_own(rt: HostRuntime) -> Result<(), NoMemory> {
    expect_cases(&rt, &HEIGHTS)
}

/// A hundred keys, 10 apart but for a jump after 48 places.
fn hundred(jump: u32) -> [u64; 100] {
    let mut xs = [0u64; 100];
    for i in 0..100 {
        let moved = if i < 48 { 0 } else { u64::from(jump) };
        xs[i] = moved + 10 * i as u64;
    }
    xs
}

/// The numbers from 0 on.
fn places() -> [u32; 100] {
    let mut ys = [0u32; 100];
    for i in 0..100 {
        ys[i] = i as u32;
    }
    ys
}

/// The steep slope of two places is 1 / 10 and 8 over their distance, so the ends are the pair.
static MANY_PLACES: [(u32, &[Row]); 2] = [
    (0, &[(0, 0, 99, (0, -4, 107, 990), None)]),
    // A jump of the keys after 48 places. The line of the least slope passes far above the next.
    (
        100_000,
        &[
            (0, 0, 47, (0, -4, 55, 470), Some((0, 47, 48, Side::Under))),
            (48, 48, 99, (100_480, 44, 59, 510), None),
        ],
    ),
];

#[test]
fn runs_of_many_places(rt: HostRuntime) -> Result<(), NoMemory> {
    for (jump, rows) in &MANY_PLACES {
        let points: Points<'_> = (&hundred(*jump), &places());
        expect_rows(&rt, points, 4, (0, 100), rows)?;
    }
    Ok(())
}

/// The first x, how many steps of which width and height follow one another from there, the error
/// bound and the segments.
type Stepped = (u64, &'static [(u32, u64, u32)], u32, &'static [Row]);

/// Places at even steps, eight or more in a row and fewer.
static STRETCHES: [Stepped; 11] = [
    // One stretch: all, with no bound, steps of 60 and a bound.
    (0, &[(11, 1, 1)], 0, &[(0, 0, 1, (0, 0, 1, 1), None)]),
    (
        7,
        &[(11, 60, 1)],
        64,
        &[(0, 0, 11, (7, -64, 139, 660), None)],
    ),
    // A stretch that is cut at its first place, its second, one in its midst and its last.
    (
        0,
        &[(3, 1, 1), (1, 50, 1), (9, 1, 1)],
        0,
        &[
            (0, 0, 1, (0, 0, 1, 1), Some((0, 1, 4, Side::Under))),
            (4, 4, 5, (53, 4, 1, 1), None),
        ],
    ),
    (
        0,
        &[(2, 1, 1), (9, 60, 1)],
        0,
        &[
            (0, 0, 1, (0, 0, 1, 1), Some((0, 1, 3, Side::Under))),
            (3, 3, 4, (62, 3, 1, 60), None),
        ],
    ),
    (
        0,
        &[(5, 9, 1), (12, 1, 1)],
        2,
        &[
            (0, 0, 5, (0, -2, 9, 45), Some((0, 5, 11, Side::Over))),
            (11, 11, 17, (51, 9, 10, 6), None),
        ],
    ),
    (
        0,
        &[(7, 9, 1), (8, 1, 1)],
        3,
        &[
            (0, 0, 7, (0, -3, 13, 63), Some((0, 7, 15, Side::Over))),
            (15, 15, 15, (71, 15, 0, 1), None),
        ],
    ),
    // Two that meet.
    (
        0,
        &[(9, 1, 1), (10, 2, 1)],
        1,
        &[
            (0, 9, 12, (9, 8, 5, 6), Some((0, 9, 13, Side::Under))),
            (13, 13, 19, (17, 12, 8, 12), None),
        ],
    ),
    // Keys that repeat, and one that heights stay at.
    (
        0,
        &[(9, 1, 1), (1, 1, 3), (9, 1, 1), (1, 1, 0), (9, 1, 1)],
        0,
        &[
            (0, 0, 1, (0, 0, 1, 1), Some((0, 1, 10, Side::Over))),
            (10, 10, 11, (10, 12, 1, 1), Some((10, 11, 20, Side::Under))),
            (20, 20, 21, (20, 21, 1, 1), None),
        ],
    ),
    // Seven places and eight.
    (
        0,
        &[(6, 1, 1), (1, 9, 1), (7, 1, 1), (1, 9, 1)],
        0,
        &[
            (0, 0, 1, (0, 0, 1, 1), Some((0, 1, 7, Side::Under))),
            (7, 7, 8, (15, 7, 1, 1), Some((7, 8, 15, Side::Under))),
            (15, 15, 15, (31, 15, 0, 1), None),
        ],
    ),
    // Up to the last key.
    (
        18446722083476996095,
        &[
            (8, 1099511627776, 1),
            (1, 4398046511104, 1),
            (8, 1099511627776, 1),
        ],
        0,
        &[
            (
                0,
                0,
                1,
                (18446722083476996095, 0, 1, 1099511627776),
                Some((0, 1, 9, Side::Under)),
            ),
            (9, 9, 10, (18446735277616529407, 9, 1, 1099511627776), None),
        ],
    ),
    // A jump far beyond the bound.
    (
        0,
        &[(20, 1099511627776, 7), (1, 1, 200), (9, 1099511627776, 7)],
        64,
        &[
            (
                0,
                0,
                20,
                (0, -64, 268, 21990232555520),
                Some((0, 20, 21, Side::Over)),
            ),
            (21, 21, 30, (21990232555521, 276, 191, 9895604649984), None),
        ],
    ),
];

/// The points that the steps lead over, from the height 0 on.
fn stepped(
    alloc: Global,
    first: u64,
    steps: &[(u32, u64, u32)],
) -> Result<(Vec<u64>, Vec<u32>), NoMemory> {
    let (mut x, mut y) = (first, 0u32);
    let mut xs = Vec::new(alloc);
    let mut ys = Vec::new(alloc);
    xs.push(x)?;
    ys.push(y)?;
    for &(count, right, up) in steps {
        for _ in 0..count {
            x = x.wrapping_add(right);
            y = y.wrapping_add(up);
            xs.push(x)?;
            ys.push(y)?;
        }
    }
    Ok((xs, ys))
}

#[test]
fn places_at_even_steps(rt: HostRuntime) -> Result<(), NoMemory> {
    for (first, steps, eps, rows) in &STRETCHES {
        let (xs, ys) = stepped(rt.alloc(), *first, steps)?;
        assert!(rt; xs.len() < 1000);
        expect_rows(&rt, (&xs, &ys), *eps, (0, xs.len() as u32), rows)?;
    }
    Ok(())
}
