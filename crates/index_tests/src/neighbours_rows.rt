//! The nearest places by two metrics, in codes that stay where they are. All worked by hand.

use neighbours::{Centre, Chebyshev, Euclid, Metric, Neighbour, nearest_places};
use std::process::Abort;

/// The codes of the points (0, 0), (2, 0), (1, 3) and twice (3, 3).
const PAIRS: [u64; 5] = [0, 4, 11, 15, 15];

/// The codes of the points (1, 0, 0), (0, 0, 1), (1, 1, 1) and (2, 0, 0).
const TRIPLES: [u64; 4] = [1, 4, 7, 8];

/// The codes of the points (1, 1, 0, 0), (0, 0, 0, 1), (0, 2, 0, 0) and (3, 3, 3, 3).
const FOURS: [u64; 4] = [3, 8, 32, 255];

/// Room in which nothing was found.
const ROOM: [Neighbour; 6] = [Neighbour {
    place: 9,
    distance: 9,
    distance_high: 9,
}; 6];

/// Looks from (2, 2).
fn look<M: Metric>(codes: &[u64], hints: &[u64], room: &mut [Neighbour]) -> usize {
    let centre = Centre {
        d: 2,
        coords: [2, 2, 0, 0],
    };
    nearest_places::<M>(codes, hints, &centre, room)
}

/// Looks from (2, 1, 0).
fn look_from_triple<M: Metric>(codes: &[u64], room: &mut [Neighbour]) -> usize {
    let centre = Centre {
        d: 3,
        coords: [2, 1, 0, 0],
    };
    nearest_places::<M>(codes, &[], &centre, room)
}

/// Looks from (0, 1, 0, 2).
fn look_from_four<M: Metric>(codes: &[u64], room: &mut [Neighbour]) -> usize {
    let centre = Centre {
        d: 4,
        coords: [0, 1, 0, 2],
    };
    nearest_places::<M>(codes, &[], &centre, room)
}

/// The place and the distance at an index of the room.
fn at(room: &[Neighbour; 6], index: usize) -> (u64, u64) {
    if index < 6 {
        (room[index].place, room[index].distance)
    } else {
        (0, 0)
    }
}

#[test]
fn by_the_greatest_difference(rt: HostRuntime) {
    let mut room = ROOM;
    assert_eq!(rt; look::<Chebyshev>(&PAIRS, &[], &mut room), 5);
    assert_eq!(rt; at(&room, 0), (2, 1));
    assert_eq!(rt; at(&room, 1), (3, 1));
    assert_eq!(rt; at(&room, 2), (4, 1));
    assert_eq!(rt; at(&room, 3), (0, 2));
    assert_eq!(rt; at(&room, 4), (1, 2));
    assert_eq!(rt; at(&room, 5), (9, 9));
}

#[test]
fn by_the_squares_under_damaged_hints(rt: HostRuntime) {
    let mut room = ROOM;
    assert_eq!(rt; look::<Euclid>(&PAIRS, &[7, 0, 99], &mut room[..4]), 4);
    assert_eq!(rt; at(&room, 0), (2, 2));
    assert_eq!(rt; at(&room, 1), (3, 2));
    assert_eq!(rt; at(&room, 2), (4, 2));
    assert_eq!(rt; at(&room, 3), (1, 4));
    assert_eq!(rt; at(&room, 4), (9, 9));
}

#[test]
fn of_three_coordinates(rt: HostRuntime) {
    let mut room = ROOM;
    assert_eq!(rt; look_from_triple::<Chebyshev>(&TRIPLES, &mut room), 4);
    assert_eq!(rt; at(&room, 0), (0, 1));
    assert_eq!(rt; at(&room, 1), (2, 1));
    assert_eq!(rt; at(&room, 2), (3, 1));
    assert_eq!(rt; at(&room, 3), (1, 2));
    assert_eq!(rt; look_from_triple::<Euclid>(&TRIPLES, &mut room), 4);
    assert_eq!(rt; at(&room, 0), (3, 1));
    assert_eq!(rt; at(&room, 1), (0, 2));
    assert_eq!(rt; at(&room, 2), (2, 2));
    assert_eq!(rt; at(&room, 3), (1, 6));
}

#[test]
fn of_four_coordinates(rt: HostRuntime) {
    let mut room = ROOM;
    assert_eq!(rt; look_from_four::<Chebyshev>(&FOURS, &mut room), 4);
    assert_eq!(rt; at(&room, 0), (1, 1));
    assert_eq!(rt; at(&room, 1), (0, 2));
    assert_eq!(rt; at(&room, 2), (2, 2));
    assert_eq!(rt; at(&room, 3), (3, 3));
    assert_eq!(rt; look_from_four::<Euclid>(&FOURS, &mut room), 4);
    assert_eq!(rt; at(&room, 0), (1, 2));
    assert_eq!(rt; at(&room, 1), (0, 5));
    assert_eq!(rt; at(&room, 2), (2, 5));
    assert_eq!(rt; at(&room, 3), (3, 23));
}

#[test]
fn a_square_above_64_bits(rt: HostRuntime) {
    let mut room = ROOM;
    let centre = Centre {
        d: 2,
        coords: [0, 0, 0, 0],
    };
    let count = nearest_places::<Euclid>(&[u64::MAX], &[], &centre, &mut room);
    assert_eq!(rt; count, 1);
    assert_eq!(rt; at(&room, 0), (0, 0xffff_fffc_0000_0002));
    assert_eq!(rt; room[0].distance_high, 1);
}

#[test]
fn of_nothing_and_in_no_room(rt: HostRuntime) {
    let mut room = ROOM;
    assert_eq!(rt; look::<Euclid>(&[], &[], &mut room), 0);
    assert_eq!(rt; look::<Chebyshev>(&PAIRS, &[], &mut room[..0]), 0);
    assert_eq!(rt; at(&room, 0), (9, 9));
}

#[test]
fn of_codes_that_fall(rt: HostRuntime) {
    let mut room = ROOM;
    assert_eq!(rt; look::<Euclid>(&[15, 4], &[], &mut room), 2);
    assert_eq!(rt; at(&room, 0), (0, 2));
    assert_eq!(rt; at(&room, 1), (1, 4));
}

/// The highest bit of 2^63 + 1 doesn't count, so it is the code of (1, 0, 0).
#[test]
fn of_a_number_that_is_no_code(rt: HostRuntime) {
    let mut room = ROOM;
    assert_eq!(rt;
        look_from_triple::<Euclid>(&[0x8000_0000_0000_0001], &mut room),
        1
    );
    assert_eq!(rt; at(&room, 0), (0, 2));
}
