//! Next codes that a plain program found by going through all points of each box, and each call
//! once.

ghost use Rattle.zorder.specs.Regions.{IsEmpty, IsRegion};

use crate::expected::expect;
use crate::zorder_rows::{expect_code, expect_range};
use bigmin::{next_by_corners, next_in_box};
use std::process::Abort;
use zorder::{Corners, Region, is_empty};

/// A dimension, a box by its low and its high corner, a code, and the next code in the box.
type Row = (u32, [u32; 4], [u32; 4], u64, Option<u64>);

/// The square from (1, 1) to (2, 2), empty boxes and boxes of one point, both ends of the
/// coordinates, and some boxes by chance.
static ROWS: [Row; 45] = [
    (2, [1, 1, 0, 0], [2, 2, 0, 0], 0, Some(3)),
    (2, [1, 1, 0, 0], [2, 2, 0, 0], 2, Some(3)),
    (2, [1, 1, 0, 0], [2, 2, 0, 0], 3, Some(6)),
    (2, [1, 1, 0, 0], [2, 2, 0, 0], 4, Some(6)),
    (2, [1, 1, 0, 0], [2, 2, 0, 0], 5, Some(6)),
    (2, [1, 1, 0, 0], [2, 2, 0, 0], 6, Some(9)),
    (2, [1, 1, 0, 0], [2, 2, 0, 0], 9, Some(12)),
    (2, [1, 1, 0, 0], [2, 2, 0, 0], 11, Some(12)),
    (2, [1, 1, 0, 0], [2, 2, 0, 0], 12, None),
    (2, [1, 1, 0, 0], [2, 2, 0, 0], 15, None),
    (2, [2, 2, 0, 0], [1, 1, 0, 0], 0, None),
    (2, [5, 3, 0, 0], [5, 3, 0, 0], 26, Some(27)),
    (2, [5, 3, 0, 0], [5, 3, 0, 0], 27, None),
    (
        2,
        [4294967293, 4294967294, 0, 0],
        [4294967295, 4294967295, 0, 0],
        0,
        Some(18446744073709551609),
    ),
    (
        2,
        [4294967293, 4294967294, 0, 0],
        [4294967295, 4294967295, 0, 0],
        18446744073709551615,
        None,
    ),
    (
        2,
        [4294967293, 4294967294, 0, 0],
        [4294967295, 4294967295, 0, 0],
        18446744073709551606,
        Some(18446744073709551609),
    ),
    (
        2,
        [4294967295, 0, 0, 0],
        [4294967295, 3, 0, 0],
        12297829382473034410,
        None,
    ),
    (2, [0, 0, 0, 0], [3, 3, 0, 0], 18446744073709551615, None),
    (2, [20, 9, 0, 0], [32, 10, 0, 0], 1186, None),
    (2, [52, 34, 0, 0], [55, 45, 0, 0], 950, Some(3352)),
    (2, [58, 32, 0, 0], [64, 33, 0, 0], 1408, Some(3396)),
    (2, [27, 26, 0, 0], [29, 33, 0, 0], 1486, Some(2373)),
    (2, [35, 27, 0, 0], [36, 45, 0, 0], 2028, Some(3077)),
    (2, [14, 40, 0, 0], [32, 41, 0, 0], 6499, None),
    (2, [3, 14, 0, 0], [4, 31, 0, 0], 2181, None),
    (2, [18, 26, 0, 0], [22, 43, 0, 0], 1929, Some(2308)),
    (
        3,
        [2097150, 2097150, 2097150, 0],
        [2097151, 2097151, 2097151, 0],
        0,
        Some(9223372036854775800),
    ),
    (
        3,
        [2097150, 2097150, 2097150, 0],
        [2097151, 2097151, 2097151, 0],
        9223372036854775806,
        Some(9223372036854775807),
    ),
    (
        3,
        [2097150, 2097150, 2097150, 0],
        [2097151, 2097151, 2097151, 0],
        9223372036854775807,
        None,
    ),
    (
        3,
        [0, 2097151, 1, 0],
        [2, 2097151, 2, 0],
        2635249153387078811,
        Some(2635249153387078814),
    ),
    (3, [0, 0, 0, 0], [0, 0, 0, 0], 0, None),
    (3, [9, 4, 8, 0], [14, 5, 8, 0], 3078, None),
    (3, [5, 1, 8, 0], [10, 1, 12, 0], 976, Some(2115)),
    (3, [9, 3, 7, 0], [14, 7, 10, 0], 5146, None),
    (3, [7, 9, 7, 0], [9, 11, 8, 0], 2945, Some(3147)),
    (3, [11, 12, 3, 0], [11, 16, 5, 0], 8111, Some(8749)),
    (
        4,
        [65534, 65534, 65534, 65534],
        [65535, 65535, 65535, 65535],
        0,
        Some(18446744073709551600),
    ),
    (
        4,
        [65534, 65534, 65534, 65534],
        [65535, 65535, 65535, 65535],
        18446744073709551614,
        Some(18446744073709551615),
    ),
    (
        4,
        [65535, 65535, 65535, 65535],
        [65535, 65535, 65535, 65535],
        18446744073709551615,
        None,
    ),
    (
        4,
        [0, 65535, 0, 65535],
        [1, 65535, 2, 65535],
        12297829382473034426,
        Some(12297829382473034474),
    ),
    (4, [5, 7, 4, 9], [5, 7, 7, 10], 44833, None),
    (4, [2, 7, 6, 0], [2, 9, 8, 2], 65100, None),
    (4, [9, 7, 1, 1], [11, 10, 1, 1], 40580, None),
    (4, [9, 7, 4, 6], [11, 7, 7, 8], 22026, Some(38435)),
    (4, [9, 1, 7, 0], [10, 3, 8, 1], 52153, None),
];

/// The next code, from the corners that are made once for a box.
fn by_corners(z: u64, region: &Region) -> Option<u64>
    requires region { IsRegion region.now }
    requires some_inside { ¬ IsEmpty region.now }
{
    next_by_corners(z, &Corners::of(region))
}

/// Whether the next code, or the low corner where there is none, is between the corners.
fn is_next_inside(region: &Region, next: Option<u64>) -> bool
    requires { IsRegion region.now }
{
    let corners = Corners::of(region);
    corners.inside(next.unwrap_or(corners.low()))
}

fn check_row(rt: &impl Abort, row: &Row) {
    let (d, low, high, z, next) = *row;
    expect_code(rt, d, z);
    expect_range(rt, d, low);
    expect_range(rt, d, high);
    let region = Region { d, low, high };
    expect(rt, (low, high, z), next_in_box(z, &region), next);
    if !is_empty(&region) {
        expect(rt, (low, high, z), by_corners(z, &region), next);
        expect(rt, (low, high, z), is_next_inside(&region, next), true);
    }
}

#[test]
fn rows_of_boxes(rt: HostRuntime) {
    for row in &ROWS {
        check_row(&rt, row);
    }
}
