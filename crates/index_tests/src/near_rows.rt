//! Nearest points, with answers worked out by hand or by going through all points.

ghost use Rattle.std.specs.Prelude.{◌<◌, ◌≤◌};
ghost use Rattle.zorder.specs.Codes.{IsInRange};

use crate::boxes_rows::{SQUARE, boxes_of, is_corner};
use boxes::Boxes;
use budget::NoMemory;
use near::{nearest, nearest_into, room_for};
use std::alloc::Global;
use std::process::Abort;
use std::thread::Threads;

/// A centre, k, the distances and codes of the nearest points, and the number of boxes.
type Row<'a> = ([u32; 4], u32, &'a [(u32, u64)], u32);

/// Around (1, 1): itself, the eight beside it, and the other seven, each ring by codes.
const RINGS: [(u32, u64); 16] = [
    (0, 3),
    (1, 0),
    (1, 1),
    (1, 2),
    (1, 4),
    (1, 6),
    (1, 8),
    (1, 9),
    (1, 12),
    (2, 5),
    (2, 7),
    (2, 10),
    (2, 11),
    (2, 13),
    (2, 14),
    (2, 15),
];

static SQUARE_ROWS: [Row; 10] = [
    ([0, 0, 0, 0], 3, &[(0, 0), (1, 1), (1, 2)], 2),
    ([1, 1, 0, 0], 0, &[], 0),
    ([1, 1, 0, 0], 1, &[(0, 3)], 1),
    ([1, 1, 0, 0], 4, &[(0, 3), (1, 0), (1, 1), (1, 2)], 2),
    ([1, 1, 0, 0], 16, &RINGS, 3),
    ([1, 1, 0, 0], 17, &RINGS, 3),
    ([1, 1, 0, 0], 4_294_967_295, &RINGS, 3),
    ([3, 0, 0, 0], 3, &[(0, 5), (1, 4), (1, 6)], 2),
    ([5, 1, 0, 0], 4, &[(2, 5), (2, 7), (2, 13), (2, 15)], 3),
    (
        [4_294_967_295, 4_294_967_295, 0, 0],
        1,
        &[(4_294_967_292, 15)],
        33,
    ),
];

/// The points (2, 0) and (1, 3), with the codes 4 and 11.
static PAIR: [u32; 4] = [2, 0, 1, 3];

static PAIR_ROWS: [Row; 3] = [
    ([2, 2, 0, 0], 5, &[(1, 11), (2, 4)], 3),
    ([2, 2, 0, 0], 1, &[(1, 11)], 2),
    ([2, 2, 0, 0], 0, &[], 0),
];

/// Three times the point (6, 5).
static REPEATED: [u32; 6] = [6, 5, 6, 5, 6, 5];

static REPEATED_ROWS: [Row; 4] = [
    ([6, 5, 0, 0], 1, &[(0, 54)], 1),
    ([6, 5, 0, 0], 3, &[(0, 54), (0, 54), (0, 54)], 1),
    ([2, 2, 0, 0], 2, &[(4, 54), (4, 54)], 4),
    ([0, 9, 0, 0], 4_294_967_295, &[(6, 54), (6, 54), (6, 54)], 4),
];

/// Of each number of coordinates: it, their end, and for each coordinate the code of the point that
/// has it alone at the end; and the code of the point in the middle.
type Range = (u32, u32, [u64; 4], u64);

static RANGES: [Range; 3] = [
    (
        2,
        0xffff_ffff,
        [0x5555_5555_5555_5555, 0xaaaa_aaaa_aaaa_aaaa, 0, 0],
        0xc000_0000_0000_0000,
    ),
    (
        3,
        0x1f_ffff,
        [
            0x1249_2492_4924_9249,
            0x2492_4924_9249_2492,
            0x4924_9249_2492_4924,
            0,
        ],
        0x7000_0000_0000_0000,
    ),
    (
        4,
        0xffff,
        [
            0x1111_1111_1111_1111,
            0x2222_2222_2222_2222,
            0x4444_4444_4444_4444,
            0x8888_8888_8888_8888,
        ],
        0xf000_0000_0000_0000,
    ),
];

/// Whether a search finds these points and looks in so many boxes.
fn finds(alloc: Global, boxes: &Boxes, row: &Row) -> Result<bool, NoMemory>
    requires { IsInRange boxes.now.dims row.now.0 }
{
    let (centre, k, points, count) = *row;
    let near = nearest(alloc, boxes, &centre, k)?;
    Ok(near.points() == points && near.boxes() == count)
}

/// Whether a search in room that was taken before does.
fn finds_in_room(alloc: Global, boxes: &Boxes, row: &Row) -> Result<bool, NoMemory>
    requires { IsInRange boxes.now.dims row.now.0 }
{
    let (centre, k, points, count) = *row;
    let mut found = Vec::with_capacity(alloc, room_for(boxes, &centre, k))?;
    let looked = nearest_into(boxes, &centre, k, &mut found);
    Ok(found.as_slice() == points && looked == count)
}

/// Fails with the centre, with k, and whether it was in room that was taken before.
fn expect_found(rt: &impl Abort, row: &Row, in_room: bool, same: bool) {
    assert!(rt; same, "{:?}, {}, in room: {in_room}", row.0, row.1);
}

fn check_row<R: Abort + AllocGlobal>(rt: &R, boxes: &Boxes, row: &Row) -> Result<(), NoMemory> {
    is_corner(rt, boxes.dims(), row.0);
    let found = finds(rt.alloc(), boxes, row)?;
    expect_found(rt, row, false, found);
    let found = finds_in_room(rt.alloc(), boxes, row)?;
    expect_found(rt, row, true, found);
    Ok(())
}

fn check_rows<R: Abort + AllocGlobal>(rt: &R, boxes: &Boxes, rows: &[Row]) -> Result<(), NoMemory> {
    for row in rows {
        check_row(rt, boxes, row)?;
    }
    Ok(())
}

/// Checks each row over these points of `d` coordinates.
fn check_points<R: Abort + Threads + AllocGlobal + Sync>(
    rt: &R,
    d: u32,
    points: &[u32],
    rows: &[Row],
) -> Result<(), NoMemory> {
    check_rows(rt, &boxes_of(rt, d, points)?, rows)
}

/// The corner of the range that has the coordinates of these bits at their end.
fn corner_of(bits: usize, end: u32) -> [u32; 4] {
    let mut corner = [0; 4];
    for c in 0..4 {
        if bits >> c & 1 == 1 {
            corner[c] = end;
        }
    }
    corner
}

/// The code of that corner.
fn code_of(bits: usize, ends: &[u64; 4]) -> u64 {
    let mut code = 0;
    for c in 0..4 {
        if bits >> c & 1 == 1 {
            code |= ends[c];
        }
    }
    code
}

#[test]
fn a_square(rt: HostRuntime) -> Result<(), NoMemory> {
    check_points(&rt, 2, &SQUARE, &SQUARE_ROWS)
}

#[test]
fn two_points(rt: HostRuntime) -> Result<(), NoMemory> {
    check_points(&rt, 2, &PAIR, &PAIR_ROWS)
}

#[test]
fn all_points_equal(rt: HostRuntime) -> Result<(), NoMemory> {
    check_points(&rt, 2, &REPEATED, &REPEATED_ROWS)
}

static NO_POINT_ROWS: [Row; 2] = [([0, 0, 0, 0], 0, &[], 0), ([9, 9, 9, 0], 7, &[], 0)];

#[test]
fn no_point(rt: HostRuntime) -> Result<(), NoMemory> {
    check_points(&rt, 3, &[], &NO_POINT_ROWS)
}

/// The point in the middle of the range, and all its corners.
fn corner_points(alloc: Global, d: usize, end: u32) -> Result<Vec<u32>, NoMemory>
    requires { d ≤ 4 }
{
    let mut points = Vec::new(alloc);
    points.extend_from_slice(&[end / 2 + 1; 4][..d])?;
    for bits in 0..1usize << d {
        points.extend_from_slice(&corner_of(bits, end)[..d])?;
    }
    Ok(points)
}

/// How far the middle is from a corner, and in how many boxes is looked: from the last corner the
/// middle is one nearer than from the others.
fn far_and_count(d: u32, end: u32, bits: usize) -> (u32, u32)
    requires few { bits < 16 }
    requires least { 2 ≤ d }
    requires greatest { d ≤ 4 }
{
    if bits + 1 == 1 << d {
        (end / 2, 64 / d)
    } else {
        (end / 2 + 1, 64 / d + 1)
    }
}

/// Whether the two points nearest to a corner are itself and the middle.
fn check_corner<R: Abort + AllocGlobal>(
    rt: &R,
    boxes: &Boxes,
    range: &Range,
    bits: usize,
) -> Result<bool, NoMemory> {
    let (d, end, ends, middle) = *range;
    assert!(rt; 2 <= d && d <= 4 && bits < 16);
    let centre = corner_of(bits, end);
    is_corner(rt, boxes.dims(), centre);
    let (far, count) = far_and_count(d, end, bits);
    let points = [(0, code_of(bits, &ends)), (far, middle)];
    finds(rt.alloc(), boxes, &(centre, 2, &points, count))
}

/// The boxes of a range's middle and corners.
fn range_boxes<R: Abort + Threads + AllocGlobal + Sync>(
    rt: &R,
    range: &Range,
) -> Result<Boxes, NoMemory> {
    let (d, end, _, _) = *range;
    assert!(rt; d == 2 || d == 3 || d == 4);
    boxes_of(rt, d, &corner_points(rt.alloc(), d as usize, end)?)
}

/// The first corner of a range whose nearest points are others.
fn other_corner<R: Abort + AllocGlobal>(
    rt: &R,
    boxes: &Boxes,
    range: &Range,
) -> Result<Option<usize>, NoMemory> {
    assert!(rt; range.0 <= 4);
    for bits in 0..1usize << range.0 {
        if !check_corner(rt, boxes, range, bits)? {
            return Ok(Some(bits));
        }
    }
    Ok(None)
}

/// The same over boxes of their own.
fn check_range<R: Abort + Threads + AllocGlobal + Sync>(
    rt: &R,
    range: &Range,
) -> Result<Option<usize>, NoMemory> {
    other_corner(rt, &range_boxes(rt, range)?, range)
}

/// Fails with the number of coordinates, and the bits of the corner.
fn expect_corners(rt: &impl Abort, d: u32, other: Option<usize>) {
    assert!(rt; other.is_none(), "{d} coordinates: {other:?}");
}

#[test]
fn corners_of_the_range(rt: HostRuntime) -> Result<(), NoMemory> {
    for range in &RANGES {
        let other = check_range(&rt, range)?;
        expect_corners(&rt, range.0, other);
    }
    Ok(())
}

/// A step of a linear congruential generator (Knuth, The Art of Computer Programming 2, 3.3.4).
fn step(state: u64) -> u64 {
    state
        .wrapping_mul(6_364_136_223_846_793_005)
        .wrapping_add(1_442_695_040_888_963_407)
}

/// So many coordinates, each below a power of two.
fn scattered(alloc: Global, many: usize, mask: u32) -> Result<Vec<u32>, NoMemory> {
    let mut coords = Vec::new(alloc);
    let mut state = 7;
    for _ in 0..many {
        state = step(state);
        coords.push((state >> 33) as u32 & mask)?;
    }
    Ok(coords)
}

/// How many points each centre asks for in turn.
const ASKED: [u32; 5] = [1, 2, 17, 150, 900];

/// A number that the answers of a centre make, each place by its own factor.
fn mixed(alloc: Global, boxes: &Boxes, centre: &[u32; 4], sum: u64) -> Result<u64, NoMemory>
    requires { IsInRange boxes.now.dims centre.now }
{
    let mut sum = sum;
    for k in ASKED {
        let near = nearest(alloc, boxes, centre, k)?;
        sum = sum.wrapping_mul(31).wrapping_add(u64::from(near.boxes()));
        for point in near.points() {
            sum = sum.wrapping_mul(31).wrapping_add(u64::from(point.0));
            sum = sum.wrapping_mul(31).wrapping_add(point.1);
        }
    }
    Ok(sum)
}

/// What the answers of 24 centres make, over 800 points of few places: many of them are equal, or
/// equally far. Half of the centres are outside.
fn mixed_of_centres<R: Abort + Threads + AllocGlobal + Sync>(
    rt: &R,
    d: u32,
) -> Result<u64, NoMemory> {
    let points = scattered(rt.alloc(), 800 * d as usize, 15)?;
    let boxes = boxes_of(rt, d, &points)?;
    let places = scattered(rt.alloc(), 96, 31)?;
    assert!(rt; places.len() == 96, "{d} coordinates");
    let mut sum = 0;
    for i in 0..24 {
        let centre = [places[i], places[i + 24], places[i + 48], places[i + 72]];
        is_corner(rt, boxes.dims(), centre);
        sum = mixed(rt.alloc(), &boxes, &centre, sum)?;
    }
    Ok(sum)
}

/// Of each number of coordinates that number, by a search of all points.
static MIXED: [(u32, u64); 3] = [
    (2, 2_125_564_465_248_504_462),
    (3, 5_659_887_328_993_394_468),
    (4, 4_037_189_551_693_716_840),
];

#[test]
fn scattered_points(rt: HostRuntime) -> Result<(), NoMemory> {
    for (d, sum) in &MIXED {
        assert!(rt; mixed_of_centres(&rt, *d)? == *sum, "{d} coordinates");
    }
    Ok(())
}
