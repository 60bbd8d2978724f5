//! The places of boxes in codes that stay where they are, by a program in another language that
//! tests each code.

ghost use Rattle.zorder.specs.Regions.{IsRegion};

use crate::boxes_rows::is_corner;
use crate::common::expect;
use boxes::{count_places, next_places};
use budget::NoMemory;
use hints::hints_of;
use std::alloc::Global;
use std::process::Abort;
use zorder::{Corners, Region};

/// The number of coordinates, a region's corners and the stretches of its places.
type Row = (
    &'static str,
    u32,
    [u32; 4],
    [u32; 4],
    &'static [(usize, usize)],
);

/// Over the codes 0 to 511, each twice.
static ROWS: [Row; 11] = [
    ("all of two", 2, [0, 0, 0, 0], [40, 40, 0, 0], &[(0, 1024)]),
    ("the first of two", 2, [0, 0, 0, 0], [0, 0, 0, 0], &[(0, 2)]),
    (
        "the middle of two",
        2,
        [15, 7, 0, 0],
        [16, 8, 0, 0],
        &[(254, 256), (426, 428), (596, 598), (768, 770)],
    ),
    (
        "a corner of two",
        2,
        [20, 9, 0, 0],
        [31, 15, 0, 0],
        &[
            (804, 808),
            (812, 832),
            (864, 896),
            (900, 904),
            (908, 928),
            (932, 936),
            (940, 1024),
        ],
    ),
    ("past all of two", 2, [0, 16, 0, 0], [9, 99, 0, 0], &[]),
    ("an empty region", 2, [3, 1, 0, 0], [3, 0, 0, 0], &[]),
    (
        "the middle of three",
        3,
        [3, 3, 3, 0],
        [4, 4, 4, 0],
        &[
            (126, 128),
            (236, 238),
            (346, 348),
            (456, 458),
            (566, 568),
            (676, 678),
            (786, 788),
            (896, 898),
        ],
    ),
    (
        "an edge of three",
        3,
        [7, 0, 7, 0],
        [7, 1, 7, 0],
        &[(730, 732), (734, 736)],
    ),
    ("past all of three", 3, [8, 0, 0, 0], [9, 9, 9, 0], &[]),
    (
        "the last of four",
        4,
        [7, 3, 3, 3],
        [7, 3, 3, 3],
        &[(1022, 1024)],
    ),
    (
        "half of four",
        4,
        [0, 0, 0, 2],
        [7, 3, 3, 3],
        &[(256, 512), (768, 1024)],
    ),
];

/// Hints that lead nowhere.
static DAMAGED: [u64; 4] = [u64::MAX, 1, 7, 1 << 40];

/// Whether these are the stretches, one behind the other, and their places as many as are counted.
fn stretches_are(codes: &[u64], hints: &[u64], region: &Region, wanted: &[(usize, usize)]) -> bool
    requires { IsRegion region.now }
{
    let corners = Corners::of(region);
    let mut at = 0;
    let mut left = count_places(codes, hints, &corners);
    for (first, end) in wanted {
        let places = next_places(codes, hints, &corners, at);
        if (places.start, places.end) != (*first, *end) || left < places.end - places.start {
            return false;
        }
        left -= places.end - places.start;
        at = places.end;
    }
    left == 0 && next_places(codes, hints, &corners, at).start == codes.len()
}

/// Asks for a row's stretches, and fails where they are others.
fn check_row<R: Abort>(rt: &R, codes: &[u64], hints: &[u64], row: &Row) {
    let (name, d, low, high, wanted) = *row;
    assert!(rt; d == 2 || d == 3 || d == 4);
    is_corner(rt, d, low);
    is_corner(rt, d, high);
    let region = Region { d, low, high };
    expect(rt, name, stretches_are(codes, hints, &region, wanted));
}

/// The codes 0 to 511, each twice.
fn twice_each(alloc: Global) -> Result<Vec<u64>, NoMemory> {
    let mut codes = Vec::new(alloc);
    for place in 0..1024 {
        codes.push(place / 2)?;
    }
    Ok(codes)
}

#[test]
fn boxes_in_codes_that_stay(rt: HostRuntime) -> Result<(), NoMemory> {
    let codes = twice_each(rt.alloc())?;
    let Ok(hints) = hints_of(rt.alloc(), &codes, 1) else {
        panic!(rt; "no hints");
    };
    for row in &ROWS {
        check_row(&rt, &codes, &hints, row);
        check_row(&rt, &codes, &DAMAGED, row);
        check_row(&rt, &codes, &[], row);
    }
    Ok(())
}
