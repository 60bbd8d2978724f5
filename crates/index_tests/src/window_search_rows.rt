//! Windows worked out by hand, and searches in them.

ghost use Rattle.std.specs.Prelude.{◌<◌, length};
ghost use Rattle.std.specs.List.Sorted.{IsNonDecreasing};
ghost use Rattle.budget.specs.Ledgers.{IsNewLedger};

use crate::common::expect_of;
use budget::Steps;
use exact_cross::Line;
use key_points::is_sorted;
use std::marker::Brand;
use std::process::Abort;
use std::sync::ledger::{Blank, Ledger};
use window_search::{CountedKeys, lower_in, predecessor_in, window};

/// A line by x0, y0, rise and run, its least and greatest place, the error bound, a question, how
/// many points there are, and the window.
type WindowRow = ((u64, i64, u64, u64), (u32, u32), u32, u64, u32, (u32, u32));

const LAST: u32 = u32::MAX;

const JUMP: (u64, i64, u64, u64) = (0, -1, 3, 10);

/// The keys 0, 10, 11, 12; the two ends of 64 bits; and the keys 0, 1, 4, 9, 16, 25, whose three
/// levels are asked for 17.
static WINDOWS: [WindowRow; 10] = [
    (JUMP, (0, 3), 1, 11, 4, (0, 4)),
    (JUMP, (0, 3), 1, 0, 4, (0, 2)),
    (JUMP, (0, 3), 1, 1000, 4, (1, 4)),
    (JUMP, (0, 3), 0, 11, 4, (1, 3)),
    (
        (0, -1_048_576, 2_097_153, u64::MAX),
        (0, 1),
        1_048_576,
        u64::MAX,
        2,
        (0, 2),
    ),
    ((0, 0, 1, 16), (0, 1), 0, 17, 2, (0, 2)),
    ((0, 0, 1, 4), (0, 1), 0, 17, 3, (0, 2)),
    ((16, 2, 0, 1), (2, 2), 0, 17, 3, (1, 3)),
    ((16, 4, 1, 9), (4, 5), 0, 17, 6, (3, 5)),
    // The greatest places of all.
    (
        (7, 4_294_967_295, 0, 1),
        (LAST, LAST),
        1_048_576,
        7,
        LAST,
        (4_293_918_718, LAST),
    ),
];

/// Fails with the question.
fn expect_window(rt: &impl Abort, q: u64, found: (u32, u32), wanted: (u32, u32)) {
    assert_eq!(rt; found, wanted, "question {q}");
}

fn check_window(rt: &impl Abort, row: &WindowRow) {
    let ((x0, y0, rise, run), (low, high), eps, q, len, wanted) = *row;
    let line = Line { x0, y0, rise, run };
    assert!(rt; line.in_range());
    assert!(rt; eps <= 1_048_576 && low <= high && high <= len);
    expect_window(rt, q, window(&line, low, high, eps, q, len), wanted);
}

#[test]
fn windows(rt: HostRuntime) {
    for row in &WINDOWS {
        check_window(&rt, row);
    }
}

/// The predecessor in the whole list, where the first key is at most `q`.
fn predecessor<L: Ledger>(keys: &[u64], q: u64, steps: &mut Steps<L>) -> Option<u32>
    requires order { IsNonDecreasing keys.now }
    requires few { length keys.now < 1000 }
{
    if keys.is_empty() || q < keys[0] {
        return None;
    }
    let counted = CountedKeys::new(keys);
    Some(predecessor_in(&counted, 0, keys.len() as u32, q, steps))
}

/// Whether the lower bound and the predecessor of a question are the row's.
fn finds<L: Ledger>(rt: &impl Abort, row: &Row, blank: Blank) -> bool
    requires ledger { IsNewLedger blank L.name L.parts }
{
    let (keys, q, lower, place) = *row;
    assert!(rt; is_sorted(keys) && keys.len() < 1000);
    let mut steps = Steps::<L>::new(blank);
    let counted = CountedKeys::new(keys);
    let found = lower_in(&counted, 0, keys.len() as u32, q, &mut steps);
    found == lower && predecessor(keys, q, &mut steps) == place
}

/// Keys, a question, its lower bound and its predecessor: no keys, equal keys, both ends of 64
/// bits.
type Row = (&'static [u64], u64, u32, Option<u32>);

static ROWS: [Row; 12] = [
    (&[], 5, 0, None),
    (&[7], 6, 0, None),
    (&[7], 7, 0, Some(0)),
    (&[7], 8, 1, Some(0)),
    (&[5, 5, 5, 9], 4, 0, None),
    (&[5, 5, 5, 9], 5, 0, Some(2)),
    (&[5, 5, 5, 9], 6, 3, Some(2)),
    (&[5, 5, 5, 9], 10, 4, Some(3)),
    (&[0, 1, 4, 9, 16, 25], 16, 4, Some(4)),
    (&[0, 1, 4, 9, 16, 25], 17, 5, Some(4)),
    (&[0, u64::MAX], u64::MAX, 1, Some(1)),
    (&[0, u64::MAX], u64::MAX - 1, 1, Some(0)),
];

#[test]
fn searches(rt: HostRuntime) {
    for row in &ROWS {
        let same = finds::<Brand>(&rt, row, Blank::new(1));
        expect_of(&rt, "bounds", row.0, same);
    }
}
