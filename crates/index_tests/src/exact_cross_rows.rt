// Lines, their floors, and slopes, at the ends of their types too: all worked out by hand.
use crate::common::{Points, expect, points_of};
use exact_cross::{Line, Slope};
use std::cmp::Ordering;
use std::process::Abort;

/// A line by x0, y0, rise and run.
type Told = (u64, i64, u64, u64);

fn line(told: Told) -> Line {
    let (x0, y0, rise, run) = told;
    Line { x0, y0, rise, run }
}

const JUMP_LINE: Told = (0, -1, 3, 10);

const WIDEST: Told = (0, -1_048_576, 2_097_153, u64::MAX);

const STEEPEST: Told = (u64::MAX, 4_294_967_295, 4_297_064_447, 1);

/// The heights -1, -1 + 33/10, exactly 2, and left of the line's point -1 - 3/10 and -1 - 30/10;
/// and the ends of the types.
static FLOORS: [(Told, u64, i128); 10] = [
    (JUMP_LINE, 0, -1),
    (JUMP_LINE, 3, -1),
    (JUMP_LINE, 10, 2),
    (JUMP_LINE, 11, 2),
    ((10, -1, 3, 10), 9, -2),
    ((10, -1, 3, 10), 0, -4),
    (WIDEST, u64::MAX, 1_048_577),
    (WIDEST, u64::MAX - 1, 1_048_576),
    (STEEPEST, u64::MAX, 4_294_967_295),
    (
        STEEPEST,
        0,
        4_294_967_295 - 4_297_064_447 * 18_446_744_073_709_551_615,
    ),
];

fn expect_floor<R: Abort>(rt: &R, row: &(Told, u64, i128)) {
    let (told, q, floor) = *row;
    let line = line(told);
    assert!(rt; line.in_range());
    assert_eq!(rt; line.floor_at(q), floor, "at {q}");
}

#[test]
fn floors(rt: HostRuntime) {
    for row in &FLOORS {
        expect_floor(&rt, row);
    }
}

/// The ends of each range, and whether they are in it.
static RANGES: [(&str, Told, bool); 6] = [
    (
        "the ends",
        (u64::MAX, -1_048_576, 4_297_064_447, u64::MAX),
        true,
    ),
    ("the highest", (0, 4_294_967_295, 0, 1), true),
    ("no run", (0, 0, 0, 0), false),
    ("too low", (0, -1_048_577, 0, 1), false),
    ("too high", (0, 4_294_967_296, 0, 1), false),
    ("too steep", (0, 0, 4_297_064_448, 1), false),
];

#[test]
fn ranges(rt: HostRuntime) {
    for (name, told, within) in &RANGES {
        expect(&rt, name, line(*told).in_range() == *within);
    }
}

/// A line, points, their x and their y, the places from and to, the error bound, and whether it
/// fits.
type FitRow = (Told, Points<'static>, (u32, u32), u32, bool);

const JUMP: (&[u64], &[u32]) = (&[0, 10, 11, 12], &[0, 1, 2, 3]);

const STAIRS: (&[u64], &[u32]) = (&[0, 1, 2, 3], &[5, 5, 5, 90]);

const ENDS: (&[u64], &[u32]) = (&[0, u64::MAX], &[0, 1]);

/// The line's heights at the four x are -1, 2, 2.3 and 2.6.
static FITS: [FitRow; 11] = [
    (JUMP_LINE, JUMP, (0, 4), 1, true),
    (JUMP_LINE, JUMP, (0, 4), 0, false),
    (JUMP_LINE, JUMP, (1, 2), 0, false),
    (JUMP_LINE, JUMP, (2, 2), 0, true),
    ((10, 1, 1, 1), JUMP, (1, 4), 0, true),
    ((10, 1, 1, 1), JUMP, (0, 4), 0, false),
    // Equal heights, and one far above them.
    ((7, 5, 0, 1), STAIRS, (0, 3), 0, true),
    ((7, 5, 0, 1), STAIRS, (0, 4), 84, false),
    ((7, 5, 0, 1), STAIRS, (0, 4), 85, true),
    // Exactly the bound off at both ends of the keys.
    (WIDEST, ENDS, (0, 2), 1_048_576, true),
    (WIDEST, ENDS, (0, 2), 1_048_575, false),
];

/// Fails with the points' x, the places and the bound.
fn expect_fit<R: Abort>(rt: &R, row: &FitRow, same: bool) {
    assert!(rt; same, "{:?} {:?} {}", row.1.0, row.2, row.3);
}

fn check_fit<R: Abort>(rt: &R, row: &FitRow) {
    let (told, points, (s, e), eps, want) = *row;
    let line = line(told);
    let points = points_of(rt, points);
    assert!(rt; eps <= 1_048_576 && s <= e && e as usize <= points.xs.len());
    assert!(rt; line.in_range());
    expect_fit(rt, row, line.fits(points, s, e, eps) == want);
}

#[test]
fn fits_exactly(rt: HostRuntime) {
    for row in &FITS {
        check_fit(&rt, row);
    }
}

/// Fractions compared by hand: equal ones unreduced, ones between whole numbers, falling ones,
/// and the ends of the types.
static COMPARED: [((i64, u64), (i64, u64), Ordering); 5] = [
    ((1, 2), (2, 4), Ordering::Equal),
    ((1, 3), (1, 2), Ordering::Less),
    ((-1, 3), (-1, 2), Ordering::Greater),
    ((i64::MIN, 1), (i64::MIN, u64::MAX), Ordering::Less),
    ((i64::MAX, u64::MAX), (0, 1), Ordering::Greater),
];

fn expect_order<R: Abort>(rt: &R, one: (i64, u64), two: (i64, u64), wanted: Ordering) {
    let (rise, run) = one;
    let (other_rise, other_run) = two;
    assert!(rt; run > 0 && other_run > 0);
    let other = Slope {
        rise: other_rise,
        run: other_run,
    };
    let found = Slope { rise, run }.cmp(&other);
    assert!(rt; found == wanted, "{one:?} beside {two:?}");
}

#[test]
fn compares(rt: HostRuntime) {
    for (one, two, wanted) in &COMPARED {
        expect_order(&rt, *one, *two, *wanted);
    }
}
