//! Codes that a plain program worked out bit by bit, and each call once.

ghost use Rattle.std.specs.Prelude.{IsTrue};
ghost use Rattle.zorder.specs.Codes.{IsCode, IsDimension, IsInRange};
ghost use Rattle.zorder.specs.Regions.{IsRegion};

use crate::expected::expect;
use std::process::Abort;
use zorder::{
    Corners, Region, decode, decode_pairs, decode_triples, encode, fits_range, inside, is_empty,
};

/// Points and their codes: the least and greatest of each coordinate, and mixed ones.
static ROWS: [(u32, [u32; 4], u64); 23] = [
    (2, [0, 0, 0, 0], 0),
    (2, [5, 3, 0, 0], 27),
    (2, [0xffff_ffff, 0, 0, 0], 0x5555_5555_5555_5555),
    (2, [0, 0xffff_ffff, 0, 0], 0xaaaa_aaaa_aaaa_aaaa),
    (2, [0xffff_ffff, 0xffff_ffff, 0, 0], 0xffff_ffff_ffff_ffff),
    (2, [0x8000_0000, 1, 0, 0], 0x4000_0000_0000_0002),
    (2, [0xdead_beef, 0x1234_5678, 0, 0], 0x535c_4e71_677c_7ed5),
    (3, [0, 0, 0, 0], 0),
    (3, [1, 1, 1, 0], 7),
    (3, [0x1f_ffff, 0, 0, 0], 0x1249_2492_4924_9249),
    (3, [0, 0x1f_ffff, 0, 0], 0x2492_4924_9249_2492),
    (3, [0, 0, 0x1f_ffff, 0], 0x4924_9249_2492_4924),
    (
        3,
        [0x1f_ffff, 0x1f_ffff, 0x1f_ffff, 0],
        0x7fff_ffff_ffff_ffff,
    ),
    (3, [0x10_0000, 0, 1, 0], 0x1000_0000_0000_0004),
    (3, [0x1_2345, 0xfedc, 0x15_5555, 0], 0x4105_59e5_9d5c_65c5),
    (4, [0, 0, 0, 0], 0),
    (4, [0xffff, 0, 0, 0], 0x1111_1111_1111_1111),
    (4, [0, 0xffff, 0, 0], 0x2222_2222_2222_2222),
    (4, [0, 0, 0xffff, 0], 0x4444_4444_4444_4444),
    (4, [0, 0, 0, 0xffff], 0x8888_8888_8888_8888),
    (4, [0xffff, 0xffff, 0xffff, 0xffff], 0xffff_ffff_ffff_ffff),
    (4, [1, 0, 0, 0x8000], 0x8000_0000_0000_0001),
    (4, [0xbeef, 0x1234, 0x8001, 0x7fff], 0x589b_99b8_99ba_9b9d),
];

/// Whether the coordinates are in range.
fn are_in_range(d: u32, coords: [u32; 4]) -> bool
    requires { IsDimension d }
    ensures { IsTrue result → IsInRange d coords }
{
    fits_range(d, coords[0])
        && fits_range(d, coords[1])
        && fits_range(d, coords[2])
        && fits_range(d, coords[3])
}

/// Fails unless the coordinates are in range.
pub(crate) fn expect_range(rt: &impl Abort, d: u32, coords: [u32; 4])
    requires { IsDimension d }
    ensures { IsInRange d coords }
{
    assert!(rt; are_in_range(d, coords));
}

/// Fails unless it is a code of so many coordinates, from 2 to 4.
pub(crate) fn expect_code(rt: &impl Abort, d: u32, z: u64)
    ensures dimension { IsDimension d }
    ensures code { IsCode d z }
{
    assert!(rt; d == 2 || d == 4 || d == 3 && z < 1 << 63);
}

/// A row, once it is known that its point and its code are in range.
fn check_row(rt: &impl Abort, d: u32, coords: [u32; 4], z: u64) {
    expect_code(rt, d, z);
    expect_range(rt, d, coords);
    expect(rt, (d, coords), encode(d, &coords), z);
    expect(rt, (d, z), decode(d, z), coords);
}

#[test]
fn rows_of_codes(rt: HostRuntime) {
    for (d, coords, z) in &ROWS {
        check_row(&rt, *d, *coords, *z);
    }
}

/// Codes of two coordinates above, ..
const PAIR_CODES: [u64; 7] = [
    0x535c_4e71_677c_7ed5,
    27,
    0x5555_5555_5555_5555,
    0xaaaa_aaaa_aaaa_aaaa,
    0xffff_ffff_ffff_ffff,
    0x4000_0000_0000_0002,
    0x535c_4e71_677c_7ed5,
];

/// .. and their coordinates, with what stands behind them.
const PAIRS: [(u32, u32); 8] = [
    (0xdead_beef, 0x1234_5678),
    (5, 3),
    (0xffff_ffff, 0),
    (0, 0xffff_ffff),
    (0xffff_ffff, 0xffff_ffff),
    (0x8000_0000, 1),
    (0xdead_beef, 0x1234_5678),
    (7, 9),
];

/// The codes of two coordinates above, once more: four at once, and three by themselves. What
/// stands behind them stays.
#[test]
fn pairs_at_once(rt: HostRuntime) {
    let mut firsts = [7u32; 8];
    let mut seconds = [9u32; 8];
    decode_pairs(&PAIR_CODES, &mut firsts, &mut seconds);
    for i in 0..8 {
        expect(&rt, i, (firsts[i], seconds[i]), PAIRS[i]);
    }
}

/// Codes of three coordinates above, and the greatest number, which is no code, ..
const TRIPLE_CODES: [u64; 10] = [
    0x4105_59e5_9d5c_65c5,
    7,
    0x1249_2492_4924_9249,
    0x2492_4924_9249_2492,
    0x4924_9249_2492_4924,
    0x7fff_ffff_ffff_ffff,
    0x1000_0000_0000_0004,
    0xffff_ffff_ffff_ffff,
    0x4105_59e5_9d5c_65c5,
    0x1000_0000_0000_0004,
];

/// .. and their coordinates, with what stands behind them.
const TRIPLES: [(u32, u32, u32); 11] = [
    (0x1_2345, 0xfedc, 0x15_5555),
    (1, 1, 1),
    (0x1f_ffff, 0, 0),
    (0, 0x1f_ffff, 0),
    (0, 0, 0x1f_ffff),
    (0x1f_ffff, 0x1f_ffff, 0x1f_ffff),
    (0x10_0000, 0, 1),
    (0x3f_ffff, 0x1f_ffff, 0x1f_ffff),
    (0x1_2345, 0xfedc, 0x15_5555),
    (0x10_0000, 0, 1),
    (7, 8, 9),
];

/// The codes of three coordinates above, once more, and the greatest number, which is no code: four
/// at once twice over, and two by themselves. What stands behind them stays.
#[test]
fn triples_at_once(rt: HostRuntime) {
    let mut firsts = [7u32; 11];
    let mut seconds = [8u32; 11];
    let mut thirds = [9u32; 11];
    decode_triples(&TRIPLE_CODES, &mut firsts, &mut seconds, &mut thirds);
    for i in 0..11 {
        expect(&rt, i, (firsts[i], seconds[i], thirds[i]), TRIPLES[i]);
    }
}

/// Dimensions, coordinates, and whether those are in range.
static RANGES: [(u32, u32, bool); 5] = [
    (2, 0xffff_ffff, true),
    (3, 0x1f_ffff, true),
    (3, 0x20_0000, false),
    (4, 0xffff, true),
    (4, 0x1_0000, false),
];

#[test]
fn ranges(rt: HostRuntime) {
    for (d, value, fits) in &RANGES {
        let (d, value) = (*d, *value);
        assert!(rt; d == 2 || d == 3 || d == 4);
        expect(&rt, (d, value), fits_range(d, value), *fits);
    }
}

/// Codes, and whether they are in the square from (1, 1) to (2, 2).
static SQUARE_CODES: [(u64, bool); 8] = [
    (3, true),
    (6, true),
    (9, true),
    (12, true),
    (4, false),
    (7, false),
    (11, false),
    (15, false),
];

#[test]
fn a_square(rt: HostRuntime) {
    let (low, high) = ([1, 1, 0, 0], [2, 2, 0, 0]);
    let square = Region { d: 2, low, high };
    expect(&rt, "the square", is_empty(&square), false);
    for (z, is_inside) in &SQUARE_CODES {
        expect(&rt, *z, inside(&square, *z), *is_inside);
    }
    let turned = Region {
        d: 2,
        low: high,
        high: low,
    };
    expect(&rt, "the ends exchanged", is_empty(&turned), true);
}

/// Dimensions and codes, and whether those are in the box from 1 to 2 in each coordinate: three
/// inside, and three with one coordinate too low or too high.
static BOX_CODES: [(u32, u64, bool); 18] = [
    (2, 3, true),
    (2, 6, true),
    (2, 12, true),
    (2, 1, false),
    (2, 7, false),
    (2, 11, false),
    (3, 7, true),
    (3, 35, true),
    (3, 56, true),
    (3, 6, false),
    (3, 15, false),
    (3, 27, false),
    (4, 15, true),
    (4, 135, true),
    (4, 240, true),
    (4, 14, false),
    (4, 31, false),
    (4, 47, false),
];

/// Whether a code is in a box, by its corners.
fn is_between(region: &Region, z: u64) -> bool
    requires { IsRegion region.now }
{
    Corners::of(region).inside(z)
}

#[test]
fn between_corners(rt: HostRuntime) {
    for (d, z, is_inside) in &BOX_CODES {
        let d = *d;
        assert!(rt; d == 2 || d == 3 || d == 4);
        let region = Region {
            d,
            low: [1, 1, 1, 1],
            high: [2, 2, 2, 2],
        };
        expect(&rt, (d, *z), is_between(&region, *z), *is_inside);
    }
}
