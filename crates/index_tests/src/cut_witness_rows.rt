// Worked lists: which places are witnesses and which segments pass was found by hand from the
// definitions.
use crate::common::{Points, expect_of, points_of};
use cut_witness::{check_cover, holds, is_flat, is_steep, slack};
use exact_cross::{Line, Segment, Side, Witness};
use std::process::Abort;

const FOUR: Points<'static> = (&[0, 1, 2, 10], &[0, 1, 2, 3]);

/// Points, the error bound, three places with the side of the last one, and whether they hold.
type HoldsRow = (Points<'static>, u32, (u32, u32, u32, Side), bool);

static HOLDS: [HoldsRow; 13] = [
    // At the key 1 the chord from 0 to 10 stands at 0.3, below the rank 1.
    (FOUR, 0, (0, 1, 3, Side::Under), true),
    (FOUR, 0, (0, 1, 3, Side::Over), false),
    (FOUR, 1, (0, 1, 3, Side::Under), false),
    (FOUR, 0, (1, 1, 3, Side::Under), false),
    (FOUR, 0, (0, 1, 4, Side::Under), false),
    // Three places on one line.
    (FOUR, 0, (0, 1, 2, Side::Under), false),
    (FOUR, 0, (0, 1, 2, Side::Over), false),
    // At the key 8 the chord from 0 to 9 stands at 16/9, above the rank 1.
    (LATE, 0, (0, 1, 2, Side::Over), true),
    (LATE, 1, (0, 1, 2, Side::Over), false),
    // Heights that repeat and jump: at 2 the chord from (0, 5) to (4, 9) stands at 7, two above 5
    // and two below 9.
    (FLAT, 0, (0, 1, 2, Side::Over), true),
    (FLAT, 1, (0, 1, 2, Side::Over), false),
    (LEAP, 0, (0, 1, 2, Side::Under), true),
    (LEAP, 1, (0, 1, 2, Side::Under), false),
];

const LATE: Points<'static> = (&[0, 8, 9], &[0, 1, 2]);

const FLAT: Points<'static> = (&[0, 2, 4], &[5, 5, 9]);

const LEAP: Points<'static> = (&[0, 2, 4], &[5, 9, 9]);

/// Fails with the numbers of a row.
fn expect_numbers<R: Abort>(rt: &R, name: &str, numbers: &[u32; 4], same: bool) {
    assert!(rt; same, "{name}: {numbers:?}");
}

fn expect_holds<R: Abort>(rt: &R, row: &HoldsRow) {
    let (points, eps, (p, q, r, side), want) = *row;
    let points = points_of(rt, points);
    assert!(rt; eps <= 1_048_576);
    let found = holds(&Witness { p, q, r, side }, points, eps);
    expect_numbers(rt, "witness and bound", &[p, q, r, eps], found == want);
}

#[test]
fn worked_witnesses(rt: HostRuntime) {
    for row in &HOLDS {
        expect_holds(&rt, row);
    }
}

const CUT: Option<Witness> = Some(Witness {
    p: 0,
    q: 1,
    r: 3,
    side: Side::Under,
});

const ONES: Line = Line {
    x0: 0,
    y0: 0,
    rise: 1,
    run: 1,
};

const LEVEL: Line = Line {
    x0: 10,
    y0: 3,
    rise: 0,
    run: 1,
};

const FIRST: Segment = Segment {
    start: 0,
    a: 0,
    b: 1,
    line: ONES,
    cut: CUT,
};

const LAST: Segment = Segment {
    start: 3,
    a: 3,
    b: 3,
    line: LEVEL,
    cut: None,
};

const UNCUT: Segment = Segment {
    start: 0,
    a: 0,
    b: 1,
    line: ONES,
    cut: None,
};

const CUT_AT_THE_END: Segment = Segment {
    start: 3,
    a: 3,
    b: 3,
    line: LEVEL,
    cut: CUT,
};

const NO_RUN: Segment = Segment {
    start: 3,
    a: 3,
    b: 3,
    line: Line {
        x0: 10,
        y0: 3,
        rise: 0,
        run: 0,
    },
    cut: None,
};

const TOO_LOW: Segment = Segment {
    start: 3,
    a: 3,
    b: 3,
    line: Line {
        x0: 10,
        y0: -1_048_577,
        rise: 0,
        run: 1,
    },
    cut: None,
};

const OF_ONE_POINT: Segment = Segment {
    start: 0,
    a: 0,
    b: 0,
    line: Line {
        x0: 7,
        y0: 0,
        rise: 0,
        run: 1,
    },
    cut: None,
};

/// Points, the error bound, segments, and the slack that they show.
type SlackRow = (
    &'static str,
    Points<'static>,
    u32,
    &'static [Segment],
    Option<u32>,
);

static COVERS: [SlackRow; 12] = [
    ("the cover", FOUR, 0, &[FIRST, LAST], Some(0)),
    ("a greater bound", FOUR, 1, &[FIRST, LAST], None),
    ("no segment", FOUR, 0, &[], None),
    ("the first alone", FOUR, 0, &[FIRST], None),
    ("the last alone", FOUR, 0, &[LAST], None),
    ("a first without a cut", FOUR, 0, &[UNCUT, LAST], Some(1)),
    ("a cut at the end", FOUR, 0, &[FIRST, CUT_AT_THE_END], None),
    ("a line without a run", FOUR, 0, &[FIRST, NO_RUN], None),
    ("a line too low", FOUR, 0, &[FIRST, TOO_LOW], None),
    ("no point and no segment", (&[], &[]), 0, &[], Some(0)),
    ("no point and a segment", (&[], &[]), 0, &[LAST], None),
    ("one point", (&[7], &[0]), 0, &[OF_ONE_POINT], Some(0)),
];

/// Compares the slack that segments show. A least cover is one that shows none.
fn expect_slack<R: Abort>(rt: &R, row: &SlackRow) {
    let (name, points, eps, segments, want) = *row;
    let points = points_of(rt, points);
    assert!(rt; eps <= 1_048_576);
    let found = slack(points, eps, segments);
    let covers = check_cover(points, eps, segments);
    expect_of(
        rt,
        name,
        points.xs,
        found == want && covers == (want == Some(0)),
    );
}

#[test]
fn worked_covers(rt: HostRuntime) {
    for row in &COVERS {
        expect_slack(&rt, row);
    }
}

/// Points, the error bound, a run, a pair, and whether it is the steep one of the run, and whether
/// the flat one.
type PairRow = (Points<'static>, u32, (u32, u32), (u32, u32), (bool, bool));

static PAIRS: [PairRow; 17] = [
    // Of equal slopes the first; no line fits all four exactly.
    (FOUR, 0, (0, 3), (0, 1), (true, true)),
    (FOUR, 0, (0, 3), (0, 2), (false, false)),
    (FOUR, 0, (0, 3), (1, 2), (false, false)),
    (FOUR, 0, (0, 4), (0, 1), (false, false)),
    (FOUR, 0, (0, 4), (2, 3), (false, false)),
    // The steep slopes up to the place 3 are 5/10, 4/9 and 3/8, the flat ones 1/10, 0 and -1/8.
    (FOUR, 1, (0, 4), (2, 3), (true, false)),
    (FOUR, 1, (0, 4), (0, 3), (false, true)),
    // One place, and pairs that aren't of the run.
    (FOUR, 0, (2, 3), (2, 2), (true, false)),
    (FOUR, 0, (2, 3), (2, 3), (false, false)),
    (FOUR, 0, (1, 3), (0, 1), (false, false)),
    (FOUR, 0, (0, 2), (0, 2), (false, false)),
    (FOUR, 0, (0, 2), (1, 0), (false, false)),
    // Two pairs up to the last place have the steep slope 1, 3/3 and 2/2, or the flat slope 1.
    (EVEN_END, 1, (0, 3), (0, 2), (true, true)),
    (EVEN_END, 1, (0, 3), (1, 2), (false, false)),
    (LEAP_END, 1, (0, 3), (0, 2), (true, true)),
    (LEAP_END, 1, (0, 3), (1, 2), (false, false)),
    // The greatest x and heights.
    (ENDS, 1_048_576, (0, 2), (0, 1), (true, true)),
];

const EVEN_END: Points<'static> = (&[0, 1, 3], &[0, 1, 1]);

const LEAP_END: Points<'static> = (&[0, 1, 3], &[0, 1, 5]);

const ENDS: Points<'static> = (&[0, u64::MAX], &[0, u32::MAX]);

fn expect_pair<R: Abort>(rt: &R, row: &PairRow) {
    let (points, eps, (s, e), (a, b), (steep, flat)) = *row;
    let points = points_of(rt, points);
    assert!(rt; eps <= 1_048_576);
    assert!(rt; s < e && e as usize <= points.xs.len());
    let same_steep = is_steep(points, eps, s, e, a, b) == steep;
    let same_flat = e - s == 1 || is_flat(points, eps, s, e, a, b) == flat;
    expect_numbers(rt, "run and steep pair", &[s, e, a, b], same_steep);
    expect_numbers(rt, "run and flat pair", &[s, e, a, b], same_flat);
}

#[test]
fn worked_pairs(rt: HostRuntime) {
    for row in &PAIRS {
        expect_pair(&rt, row);
    }
}
