//! The head's example, numbers at both ends of 64 bits, and numbers that crowd at one end.

use crate::common::expect_of;
use key_points::is_sorted;
use radix_table::RadixTable;
use std::process::Abort;

/// The most entries, a question, and its first and last place.
type Asked = (u64, u64, Option<(u32, u32)>);

/// Compares a question's places among numbers.
fn expect_places<R: Abort + AllocGlobal>(rt: &R, numbers: &[u64], asked: &Asked) {
    let (most, q, places) = *asked;
    assert!(rt; is_sorted(numbers) && numbers.len() < 1000);
    let same = match RadixTable::over(rt.alloc(), numbers, most) {
        Ok(table) => table.places(q) == places,
        Err(_) => false,
    };
    expect_of(rt, "places", numbers, same);
}

static PLACES: [(&[u64], Asked); 5] = [
    (&[], (100, 7, None)),
    (&[0, 4, 16], (100, 9, Some((1, 1)))),
    (&[0, 4, 16], (2, 9, None)),
    (&[0, u64::MAX], (100, 5, Some((0, 0)))),
    (&[0, u64::MAX], (100, u64::MAX, Some((0, 1)))),
];

#[test]
fn places(rt: HostRuntime) {
    for (numbers, asked) in &PLACES {
        expect_places(&rt, numbers, asked);
    }
}

static CROWD: [u64; 21] = [
    0,
    1,
    2,
    3,
    4,
    5,
    6,
    7,
    8,
    9,
    10,
    11,
    12,
    13,
    14,
    15,
    16,
    17,
    18,
    19,
    u64::MAX,
];

/// Equal steps would have all numbers but one in the first. With two binary places kept, 8 to 11
/// are one step, and eight numbers stand before it.
static CROWDED: [Asked; 3] = [
    (100, 9, Some((7, 11))),
    (100, 3, Some((2, 3))),
    (100, 1 << 40, Some((19, 19))),
];

#[test]
fn crowded_numbers(rt: HostRuntime) {
    for asked in &CROWDED {
        expect_places(&rt, &CROWD, asked);
    }
}
