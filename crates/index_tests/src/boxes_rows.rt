//! Boxes of points, with answers worked out by hand or by going through all points.

ghost use Rattle.zorder.specs.Codes.{IsDimension, IsInRange};
ghost use Rattle.zorder.specs.Points.{ArePoints};
ghost use Rattle.zorder.specs.Regions.{IsRegion};
ghost use Rattle.std.specs.Prelude.{◌≡◌};

use crate::common::{expect, expect_answers};
use boxes::Boxes;
use budget::NoMemory;
use std::alloc::Global;
use std::process::Abort;
use std::thread::Threads;
use zorder::{Region, fits_range};

/// Points, a region, the codes inside and at how many places is looked.
type Row = (&'static str, [u32; 4], [u32; 4], &'static [u64], u64);

/// The sixteen points of the square of side 4, in no order.
pub static SQUARE: [u32; 32] = [
    3, 3, 0, 0, 2, 1, 1, 2, 0, 3, 3, 0, 1, 1, 2, 2, 0, 1, 1, 0, 3, 1, 1, 3, 2, 0, 0, 2, 3, 2, 2, 3,
];

static SQUARE_ROWS: [Row; 5] = [
    (
        "the four in the middle",
        [1, 1, 0, 0],
        [2, 2, 0, 0],
        &[3, 6, 9, 12],
        8,
    ),
    (
        "all",
        [0, 0, 0, 0],
        [3, 3, 0, 0],
        &[0, 1, 2, 3, 4, 5, 6, 7, 8, 9, 10, 11, 12, 13, 14, 15],
        16,
    ),
    ("one", [2, 1, 0, 0], [2, 1, 0, 0], &[6], 2),
    ("an empty region", [2, 2, 0, 0], [1, 1, 0, 0], &[], 0),
    (
        "past all points",
        [4, 4, 0, 0],
        [9, 4_294_967_295, 0, 0],
        &[],
        0,
    ),
];

/// The points (2, 0) and (1, 3), with the codes 4 and 11.
static PAIR: [u32; 4] = [2, 0, 1, 3];

static PAIR_ROWS: [Row; 3] = [
    ("between the two", [1, 1, 0, 0], [2, 2, 0, 0], &[], 2),
    ("an empty region", [2, 2, 0, 0], [1, 1, 0, 0], &[], 0),
    ("both", [1, 0, 0, 0], [2, 3, 0, 0], &[4, 11], 2),
];

/// Five times the point (1, 1), with (0, 0) and (3, 3).
static REPEATED: [u32; 14] = [1, 1, 3, 3, 1, 1, 1, 1, 0, 0, 1, 1, 1, 1];

static REPEATED_ROWS: [Row; 3] = [
    (
        "five of one code",
        [1, 1, 0, 0],
        [1, 1, 0, 0],
        &[3, 3, 3, 3, 3],
        6,
    ),
    ("before them", [0, 0, 0, 0], [0, 1, 0, 0], &[0], 2),
    ("behind them", [2, 2, 0, 0], [3, 3, 0, 0], &[15], 1),
];

/// Both ends of the coordinates of two dimensions.
static ENDS_OF_TWO: [u32; 6] = [4_294_967_295, 4_294_967_295, 0, 0, 4_294_967_295, 0];

static ENDS_OF_TWO_ROWS: [Row; 3] = [
    (
        "the high end",
        [4_294_967_295, 4_294_967_295, 0, 0],
        [4_294_967_295, 4_294_967_295, 0, 0],
        &[18_446_744_073_709_551_615],
        1,
    ),
    (
        "the last column",
        [4_294_967_295, 0, 0, 0],
        [4_294_967_295, 4_294_967_295, 0, 0],
        &[6_148_914_691_236_517_205, 18_446_744_073_709_551_615],
        2,
    ),
    (
        "what no point has",
        [0, 1, 0, 0],
        [4_294_967_294, 4_294_967_295, 0, 0],
        &[],
        2,
    ),
];

/// Both ends of the coordinates of four dimensions.
static ENDS_OF_FOUR: [u32; 12] = [0, 0, 0, 0, 65535, 65535, 65535, 65535, 65535, 0, 0, 0];

static ENDS_OF_FOUR_ROWS: [Row; 3] = [
    ("the low end", [0, 0, 0, 0], [0, 0, 0, 0], &[0], 2),
    (
        "the high end",
        [65535, 65535, 65535, 65535],
        [65535, 65535, 65535, 65535],
        &[18_446_744_073_709_551_615],
        1,
    ),
    (
        "all",
        [0, 0, 0, 0],
        [65535, 65535, 65535, 65535],
        &[0, 1_229_782_938_247_303_441, 18_446_744_073_709_551_615],
        3,
    ),
];

/// Both ends of the coordinates of three dimensions.
static ENDS_OF_THREE: [u32; 9] = [0, 0, 0, 2_097_151, 2_097_151, 2_097_151, 0, 0, 2_097_151];

static ENDS_OF_THREE_ROWS: [Row; 2] = [
    ("the low end", [0, 0, 0, 0], [0, 0, 0, 0], &[0], 2),
    (
        "all",
        [0, 0, 0, 0],
        [2_097_151, 2_097_151, 2_097_151, 0],
        &[0, 5_270_498_306_774_157_604, 9_223_372_036_854_775_807],
        3,
    ),
];

/// All points of the square of side 32, whose codes are 0 to 1,023, so that jumps and what is
/// passed by cells are long.
static GRID_ROWS: [GridRow; 6] = [
    ("all", [0, 0, 0, 0], [31, 31, 0, 0], 1024, 1024),
    ("the left half", [0, 0, 0, 0], [15, 31, 0, 0], 512, 514),
    ("the last column", [31, 0, 0, 0], [31, 31, 0, 0], 32, 63),
    ("the first row", [0, 0, 0, 0], [31, 0, 0, 0], 32, 48),
    ("the middle", [15, 15, 0, 0], [16, 16, 0, 0], 4, 8),
    ("the corner", [31, 31, 0, 0], [40, 40, 0, 0], 1, 1),
];

/// A region of the grid, how many codes are inside and at how many places is looked.
type GridRow = (&'static str, [u32; 4], [u32; 4], u64, u64);

/// Whether these are points of `d` coordinates in range.
fn are_points(rt: &impl Abort, d: u32, points: &[u32])
    requires { IsDimension d }
    ensures { ArePoints d points.now }
{
    assert!(rt; points.len() < 10_000 && points.len() % d as usize == 0);
    for value in points {
        assert!(rt; fits_range(d, *value));
    }
}

/// Whether this is a corner of `d` coordinates in range.
pub fn is_corner(rt: &impl Abort, d: u32, corner: [u32; 4])
    requires { IsDimension d }
    ensures { IsInRange d corner }
{
    assert!(rt; fits_range(d, corner[0]));
    assert!(rt; fits_range(d, corner[1]));
    assert!(rt; fits_range(d, corner[2]));
    assert!(rt; fits_range(d, corner[3]));
}

pub fn boxes_of<R: Abort + Threads + AllocGlobal + Sync>(
    rt: &R,
    d: u32,
    points: &[u32],
) -> Result<Boxes, NoMemory> {
    assert!(rt; d == 2 || d == 3 || d == 4);
    are_points(rt, d, points);
    Boxes::build(rt, rt.alloc(), d, points)
}

fn region_of(rt: &impl Abort, boxes: &Boxes, low: [u32; 4], high: [u32; 4]) -> Region
    ensures region { IsRegion result }
    ensures dims { result.d ≡ boxes.now.dims }
{
    let d = boxes.dims();
    is_corner(rt, d, low);
    is_corner(rt, d, high);
    Region { d, low, high }
}

/// Whether a count finds so many codes and looks at so many places.
fn counts(boxes: &Boxes, region: &Region, codes: &[u64], looked: u64) -> bool
    requires region { IsRegion region.now }
    requires dims { region.now.d ≡ boxes.now.dims }
{
    boxes.count(region) == (codes.len() as u64, looked)
}

/// Whether a search finds these codes and looks at so many places.
fn searches(
    alloc: Global,
    boxes: &Boxes,
    region: &Region,
    codes: &[u64],
    looked: u64,
) -> Result<bool, NoMemory>
    requires region { IsRegion region.now }
    requires dims { region.now.d ≡ boxes.now.dims }
{
    let found = boxes.search(alloc, region)?;
    Ok(found.looked() == looked && found.codes() == codes)
}

/// Whether the same codes are filled in.
fn fills(
    alloc: Global,
    boxes: &Boxes,
    region: &Region,
    codes: &[u64],
    looked: u64,
) -> Result<bool, NoMemory>
    requires region { IsRegion region.now }
    requires dims { region.now.d ≡ boxes.now.dims }
{
    let (count, _) = boxes.count(region);
    let mut into = Vec::with_capacity(alloc, count as usize)?;
    let filled = boxes.fill(region, &mut into);
    Ok(filled == looked && into.as_slice() == codes)
}

/// Counts, searches and fills in for a row over these points, and fails with which isn't as wanted.
fn check_row<R: Abort + AllocGlobal>(rt: &R, boxes: &Boxes, row: &Row) -> Result<(), NoMemory> {
    let (name, low, high, codes, looked) = *row;
    let region = region_of(rt, boxes, low, high);
    let counted = counts(boxes, &region, codes, looked);
    let searched = searches(rt.alloc(), boxes, &region, codes, looked)?;
    let filled = fills(rt.alloc(), boxes, &region, codes, looked)?;
    expect_answers(rt, name, [counted, searched, filled]);
    Ok(())
}

fn check_rows<R: Abort + AllocGlobal>(rt: &R, boxes: &Boxes, rows: &[Row]) -> Result<(), NoMemory> {
    for row in rows {
        check_row(rt, boxes, row)?;
    }
    Ok(())
}

/// The same for each row over these points of `d` coordinates.
fn check_points<R: Abort + Threads + AllocGlobal + Sync>(
    rt: &R,
    d: u32,
    points: &[u32],
    rows: &[Row],
) -> Result<(), NoMemory> {
    check_rows(rt, &boxes_of(rt, d, points)?, rows)
}

/// Whether these have the codes 0 to 15.
fn are_sixteen(boxes: &Boxes) -> bool {
    boxes.codes() == SIXTEEN.as_slice() && boxes.dims() == 2
}

static SIXTEEN: [u64; 16] = [0, 1, 2, 3, 4, 5, 6, 7, 8, 9, 10, 11, 12, 13, 14, 15];

#[test]
fn a_square(rt: HostRuntime) -> Result<(), NoMemory> {
    let coded = are_sixteen(&boxes_of(&rt, 2, &SQUARE)?);
    expect(&rt, "the square's codes", coded);
    check_points(&rt, 2, &SQUARE, &SQUARE_ROWS)
}

#[test]
fn two_points(rt: HostRuntime) -> Result<(), NoMemory> {
    check_points(&rt, 2, &PAIR, &PAIR_ROWS)
}

static NO_POINT_ROWS: [Row; 1] = [("any", [0, 0, 0, 0], [9, 9, 9, 0], &[], 0)];

#[test]
fn no_point(rt: HostRuntime) -> Result<(), NoMemory> {
    check_points(&rt, 3, &[], &NO_POINT_ROWS)
}

#[test]
fn many_points_of_one_code(rt: HostRuntime) -> Result<(), NoMemory> {
    check_points(&rt, 2, &REPEATED, &REPEATED_ROWS)
}

#[test]
fn ends_of_the_coordinates(rt: HostRuntime) -> Result<(), NoMemory> {
    check_points(&rt, 2, &ENDS_OF_TWO, &ENDS_OF_TWO_ROWS)?;
    check_points(&rt, 4, &ENDS_OF_FOUR, &ENDS_OF_FOUR_ROWS)?;
    check_points(&rt, 3, &ENDS_OF_THREE, &ENDS_OF_THREE_ROWS)
}

/// Counts for a row of the grid.
fn counts_in_grid(rt: &impl Abort, boxes: &Boxes, row: &GridRow) -> bool {
    let (_, low, high, count, looked) = *row;
    let region = region_of(rt, boxes, low, high);
    boxes.count(&region) == (count, looked)
}

/// The points of the grid.
fn grid_points(alloc: Global) -> Result<Vec<u32>, NoMemory> {
    let mut points = Vec::new(alloc);
    for place in 0..1024 {
        points.push(place / 32)?;
        points.push(place % 32)?;
    }
    Ok(points)
}

/// The boxes of the grid.
fn grid<R: Abort + Threads + AllocGlobal + Sync>(rt: &R) -> Result<Boxes, NoMemory> {
    let points = grid_points(rt.alloc())?;
    boxes_of(rt, 2, &points)
}

#[test]
fn long_jumps(rt: HostRuntime) -> Result<(), NoMemory> {
    let boxes = grid(&rt)?;
    for row in &GRID_ROWS {
        expect(&rt, row.0, counts_in_grid(&rt, &boxes, row));
    }
    Ok(())
}
