// Worked points: how far a run goes, its pair and its cut were found by hand from the definitions.
ghost use Rattle.std.specs.Prelude.{◌<◌, ◌≤◌, length};
ghost use Rattle.budget.specs.Ledgers.{IsNewLedger};
ghost use Rattle.exact_cross.specs.declared.TheConstants.{MAX_EPSILON};

use crate::common::{Points, expect_of, points_of};
use budget::{NoMemory, Steps};
use exact_cross::{Line, PointList, Side, Witness};
use hulls::{FlatLine, Hulls, Offer};
use std::alloc::Global;
use std::marker::Brand;
use std::process::Abort;
use std::sync::ledger::{Blank, Ledger};

/// How many points were taken in, the cut if there was one, and the pair and the lines after it.
type Fitted = (u32, Option<Witness>, (u32, u32, Line), FlatLine);

/// Offers the points one after the other until one is refused.
fn fit<L: Ledger>(
    alloc: Global,
    points: PointList<'_>,
    eps: u32,
    blank: Blank,
) -> Result<Fitted, NoMemory>
    requires some { 1 ≤ length points.xs.now }
    requires bounded { eps ≤ MAX_EPSILON }
    requires ledger { IsNewLedger blank L.name L.parts }
{
    let (xs, ys) = (points.xs, points.ys);
    let len = xs.len() as u32;
    let mut steps = Steps::<L>::new(blank);
    let mut hulls = Hulls::new(alloc, eps, len)?;
    hulls.start(0, xs[0], ys[0]);
    for place in 1..len {
        let offer = hulls.offer(xs[place as usize], ys[place as usize], false, &mut steps);
        if let Offer::Cut(witness) = offer {
            return Ok((place, Some(witness), hulls.line(), hulls.flat_line()));
        }
    }
    Ok((len, None, hulls.line(), hulls.flat_line()))
}

/// Points, the error bound, how many were taken in, the cut as three places and the side of the
/// last one, the pair, and its line and the flattest as x0, y0, rise and run.
type Row = (
    Points<'static>,
    u32,
    u32,
    Option<(u32, u32, u32, Side)>,
    (u32, u32),
    (u64, i64, u64, u64),
    (u64, u64, i64, u64),
);

fn fitted_of(row: &Row) -> Fitted {
    let (_, _, count, cut, (a, b), steep, flat) = *row;
    let cut = match cut {
        Some((p, q, r, side)) => Some(Witness { p, q, r, side }),
        None => None,
    };
    let (x0, y0, rise, run) = steep;
    let line = Line { x0, y0, rise, run };
    let (x0, y0, rise, run) = flat;
    (count, cut, (a, b, line), FlatLine { x0, y0, rise, run })
}

/// Whether the points are taken in as the row says.
fn fits<R: Abort + AllocGlobal>(rt: &R, row: &Row) -> Result<bool, NoMemory> {
    let points = points_of(rt, row.0);
    let eps = row.1;
    assert!(rt; !points.xs.is_empty() && eps <= 1_048_576);
    Ok(fit::<Brand>(rt.alloc(), points, eps, Blank::new(1))? == fitted_of(row))
}

const EVEN: [u32; 7] = [0, 1, 2, 3, 4, 5, 6];

const JUMP: Points<'static> = (&[0, 10, 11, 12], &[0, 1, 2, 3]);

static ROWS: [Row; 10] = [
    (
        (&[0, 1, 2, 10], &[0, 1, 2, 3]),
        0,
        3,
        Some((0, 1, 3, Side::Under)),
        (0, 1),
        (0, 0, 1, 1),
        (0, 0, 1, 1),
    ),
    (
        JUMP,
        0,
        2,
        Some((0, 1, 2, Side::Over)),
        (0, 1),
        (0, 0, 1, 10),
        (0, 0, 1, 10),
    ),
    (JUMP, 1, 4, None, (0, 1), (0, -1, 3, 10), (0, 1, 1, 12)),
    // One point, and as many on one line, of which the first pair is taken.
    ((&[7], &[9]), 3, 1, None, (0, 0), (7, 9, 0, 1), (7, 9, 0, 1)),
    (
        (&[0, 1, 2, 3], &[0, 1, 2, 3]),
        0,
        4,
        None,
        (0, 1),
        (0, 0, 1, 1),
        (0, 0, 1, 1),
    ),
    // The tangents move on: over, 0 * 3 + 4 * 10 is above 3 * 13, and under, 2 * 10 + 7 * 5 is
    // below 4 * 15.
    (
        (&[3, 4, 14, 15, 16, 17, 20], &EVEN),
        1,
        5,
        Some((1, 2, 5, Side::Over)),
        (1, 2),
        (4, 0, 3, 10),
        (3, 1, 2, 13),
    ),
    (
        (&[1, 4, 5, 6, 7, 9, 19], &EVEN),
        1,
        6,
        Some((1, 5, 6, Side::Under)),
        (0, 5),
        (1, -1, 7, 8),
        (4, 2, 2, 5),
    ),
    // Equal heights, and one far above them.
    (
        (&[0, 1, 2, 3], &[5, 5, 5, 90]),
        0,
        3,
        Some((0, 1, 3, Side::Over)),
        (0, 1),
        (0, 5, 0, 1),
        (0, 5, 0, 1),
    ),
    // Even steps: of both lines the mean passes all points. Of two points the flattest falls.
    (
        (&[0, 10, 20, 30, 40, 50, 60], &EVEN),
        64,
        7,
        None,
        (0, 6),
        (0, -64, 134, 60),
        (0, 64, -122, 60),
    ),
    (
        (&[5, 7], &[0, 1]),
        2,
        2,
        None,
        (0, 1),
        (5, -2, 5, 2),
        (5, 2, -3, 2),
    ),
];

#[test]
fn worked_points(rt: HostRuntime) -> Result<(), NoMemory> {
    for row in &ROWS {
        let same = fits(&rt, row)?;
        expect_of(&rt, "fit", row.0.0, same);
    }
    Ok(())
}
