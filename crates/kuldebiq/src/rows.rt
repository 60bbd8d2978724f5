//! Rows by hand of calls from C.

use crate::answer::{
    ABSENT, Answer, DONE, FULL, NO_SUCH_KIND, NO_SUCH_METRIC, NOTHING_HELD, TOO_LITTLE_ROOM,
    UNSORTED,
};
use crate::box_calls::{RegionParts, Stretch, kuldebiq_box};
use crate::code_calls::{kuldebiq_code, kuldebiq_codes, kuldebiq_point};
use crate::end_calls::{kuldebiq_map_pop_first, kuldebiq_map_pop_last};
use crate::find_calls::{
    HintsFacts, kuldebiq_find, kuldebiq_find_many, kuldebiq_find_many32, kuldebiq_find_past,
    kuldebiq_find_past_many, kuldebiq_find_past_many32, kuldebiq_find_past32, kuldebiq_find32,
    kuldebiq_hints_of, kuldebiq_told,
};
use crate::get_many::kuldebiq_map_get_many;
use crate::hints_calls::{kuldebiq_hints_build32, kuldebiq_hints_count, kuldebiq_hints_write};
use crate::hints_handle::HintsHandle;
use crate::map_calls::{
    Pair, kuldebiq_map_accepted, kuldebiq_map_apply, kuldebiq_map_new, kuldebiq_map_put,
};
use crate::map_handle::MapHandle;
use crate::near_calls::{CHEBYSHEV, EUCLID, kuldebiq_nearest};
use crate::updates::UpdateParts;
use neighbours::Neighbour;
use std::process::Abort;

fn parts(answer: Answer) -> (u32, u64) {
    (answer.status, answer.number)
}

#[test]
fn a_kind_of_update_that_there_is_not(rt: HostRuntime) {
    let mut map = MapHandle::none(rt.alloc());
    let made = kuldebiq_map_new(rt.alloc(), &mut map, 1);
    assert_eq!(rt; parts(made), (DONE, 127));
    let mut updates = [
        UpdateParts {
            kind: 0,
            key: 5,
            value: 50,
        },
        UpdateParts {
            kind: 3,
            key: 0,
            value: 9,
        },
    ];
    let refused = kuldebiq_map_apply(rt.alloc(), &mut map, &updates);
    assert_eq!(rt; parts(refused), (NO_SUCH_KIND, 1));
    assert_eq!(rt;
        parts(kuldebiq_map_accepted(rt.alloc(), &mut map)),
        (DONE, 0)
    );
    updates[1].kind = 2;
    let done = kuldebiq_map_apply(rt.alloc(), &mut map, &updates);
    assert_eq!(rt; parts(done), (DONE, 2));
    assert_eq!(rt;
        parts(kuldebiq_map_accepted(rt.alloc(), &mut map)),
        (DONE, 2)
    );
    map.let_go();
}

/// Of 127 entries the puts are 125, so that two keys can be taken.
#[test]
fn keys_taken_at_both_ends(rt: HostRuntime) {
    let mut map = MapHandle::none(rt.alloc());
    let mut pair = Pair { key: 7, value: 77 };
    let none = kuldebiq_map_pop_first(rt.alloc(), &mut map, &mut pair);
    assert_eq!(rt; parts(none), (NOTHING_HELD, 0));
    let _made = kuldebiq_map_new(rt.alloc(), &mut map, 1);
    let absent = kuldebiq_map_pop_last(rt.alloc(), &mut map, &mut pair);
    assert_eq!(rt; (parts(absent), pair.key, pair.value), ((ABSENT, 0), 7, 77));
    for key in 0..125 {
        let _put = kuldebiq_map_put(rt.alloc(), &mut map, 10 * key, key);
    }
    let first = kuldebiq_map_pop_first(rt.alloc(), &mut map, &mut pair);
    assert_eq!(rt; (parts(first), pair.key, pair.value), ((DONE, 0), 0, 0));
    let last = kuldebiq_map_pop_last(rt.alloc(), &mut map, &mut pair);
    assert_eq!(rt; (parts(last), pair.key, pair.value), ((DONE, 0), 1240, 124));
    let full = kuldebiq_map_pop_first(rt.alloc(), &mut map, &mut pair);
    assert_eq!(rt;
        (parts(full), pair.key, pair.value),
        ((FULL, 127), 1240, 124)
    );
    map.let_go();
}

/// Of 65 keys, a block and one more, every third is there; one place too little is refused.
#[test]
fn values_at_many_keys(rt: HostRuntime) {
    let mut map = MapHandle::none(rt.alloc());
    let mut keys = [0; 65];
    for i in 0..65 {
        keys[i] = 10 * i as u64;
    }
    let mut values = [7; 66];
    let mut present = [9; 66];
    let none = kuldebiq_map_get_many(rt.alloc(), &mut map, &keys, &mut values, &mut present);
    assert_eq!(rt;
        (parts(none), values[0], present[0]),
        ((NOTHING_HELD, 0), 7, 9)
    );
    let _made = kuldebiq_map_new(rt.alloc(), &mut map, 1);
    for i in 0..22 {
        let _put = kuldebiq_map_put(rt.alloc(), &mut map, 30 * i, i + 1);
    }
    let refused = kuldebiq_map_get_many(
        rt.alloc(),
        &mut map,
        &keys,
        &mut values,
        &mut present[..64],
    );
    assert_eq!(rt;
        (parts(refused), values[0], present[0]),
        ((TOO_LITTLE_ROOM, 65), 7, 9)
    );
    let done = kuldebiq_map_get_many(rt.alloc(), &mut map, &keys, &mut values, &mut present);
    assert_eq!(rt; parts(done), (DONE, 65));
    assert_eq!(rt;
        (values[0], values[1], values[63], values[64], values[65]),
        (1, 0, 22, 0, 7)
    );
    assert_eq!(rt;
        (
            present[0],
            present[1],
            present[63],
            present[64],
            present[65]
        ),
        (1, 0, 1, 0, 9)
    );
    map.let_go();
}

/// Between 1 and 9, which take turns, the place of 5 is any odd one.
#[test]
fn places_in_keys_that_fall(rt: HostRuntime) {
    let keys = [1, 9, 1, 9, 1, 9, 1, 9, 1, 9, 1, 9, 1, 9, 1, 9];
    let mut places = [7, 7];
    assert_eq!(rt; kuldebiq_find(&keys, &[0, 0], 5) % 2, 1);
    let done = kuldebiq_find_many(&keys, &[0, 0], &[5], &mut places);
    assert_eq!(rt; parts(done), (DONE, 1));
    assert_eq!(rt; (places[0] % 2, places[1]), (1, 7));
    let refused = kuldebiq_find_many(&keys, &[0, 0], &[5, 5, 5], &mut places);
    assert_eq!(rt; parts(refused), (TOO_LITTLE_ROOM, 3));
}

/// Of the square of side 4 the middle has the codes 3, 6, 9 and 12.
#[test]
fn a_box_of_codes(rt: HostRuntime) {
    let mut codes = [0; 3];
    let coded = kuldebiq_codes(2, &[1, 1, 0, 3, 2, 2], &mut codes);
    assert_eq!(rt; (parts(coded), codes), ((DONE, 3), [3, 10, 12]));
    let mut point = [0; 2];
    let decoded = kuldebiq_point(10, &mut point);
    assert_eq!(rt; (parts(decoded), point), ((DONE, 2), [0, 3]));
    assert_eq!(rt; parts(kuldebiq_code(&[1, 1, 1])), (DONE, 7));
    let region = RegionParts {
        dims: 2,
        low: [1, 1, 0, 0],
        high: [2, 2, 0, 0],
    };
    let mut stretch = Stretch { first: 9, end: 9 };
    let first = kuldebiq_box(&codes, &[], &region, 0, &mut stretch);
    assert_eq!(rt;
        (parts(first), stretch.first, stretch.end),
        ((DONE, 1), 0, 1)
    );
    let next = kuldebiq_box(&codes, &[], &region, 1, &mut stretch);
    assert_eq!(rt;
        (parts(next), stretch.first, stretch.end),
        ((DONE, 1), 2, 3)
    );
    let last = kuldebiq_box(&codes, &[], &region, 3, &mut stretch);
    assert_eq!(rt;
        (parts(last), stretch.first, stretch.end),
        ((DONE, 0), 3, 3)
    );
}

/// Of the keys 7, 7, 7, 9 the place of 7 is 0, and behind it is 3; behind the greatest number is
/// the end.
#[test]
fn places_behind_questions(rt: HostRuntime) {
    let keys = [7, 7, 7, 9];
    let mut places = [8; 5];
    assert_eq!(rt; kuldebiq_find_past(&keys, &[], 7), 3);
    let done = kuldebiq_find_past_many(&keys, &[], &[7, u64::MAX, 6, 9], &mut places);
    assert_eq!(rt; (parts(done), places), ((DONE, 4), [3, 4, 0, 4, 8]));
    let refused = kuldebiq_find_past_many(&keys, &[], &[0; 6], &mut places);
    assert_eq!(rt; (parts(refused), places[0]), ((TOO_LITTLE_ROOM, 6), 3));
}

/// The same in keys of 32 bits, with hints of them.
#[test]
fn keys_of_32_bits(rt: HostRuntime) {
    let keys = [10, 20, 20, 4_294_967_295];
    let mut made = HintsHandle::none(rt.alloc());
    let fallen = kuldebiq_hints_build32(rt.alloc(), &mut made, &[10, 9], 0);
    assert_eq!(rt; parts(fallen), (UNSORTED, 1));
    let built = kuldebiq_hints_build32(rt.alloc(), &mut made, &keys, 0);
    let counted = kuldebiq_hints_count(rt.alloc(), &mut made);
    assert_eq!(rt; parts(built), parts(counted));
    let mut hints = [0; 64];
    let written = kuldebiq_hints_write(rt.alloc(), &mut made, &mut hints);
    assert_eq!(rt; parts(written), parts(counted));
    assert_eq!(rt; kuldebiq_find32(&keys, &hints, 11), 1);
    assert_eq!(rt; kuldebiq_find32(&keys, &hints, 4_294_967_296), 4);
    assert_eq!(rt; kuldebiq_find_past32(&keys, &hints, 20), 3);
    let mut places = [0; 3];
    let done = kuldebiq_find_many32(&keys, &hints, &[20, 0, 21], &mut places);
    assert_eq!(rt; (parts(done), places), ((DONE, 3), [1, 0, 3]));
    let past = kuldebiq_find_past_many32(&keys, &hints, &[20, 0, 1 << 40], &mut places);
    assert_eq!(rt; (parts(past), places), ((DONE, 3), [3, 0, 4]));
    made.let_go();
}

/// One line of one key, which tells the first place, and numbers that are no hints.
#[test]
fn what_hints_tell(rt: HostRuntime) {
    let hints = [0x3154_4e49_4851_424b, 3, 1, 0, 0, 0, 5, 1, 3 * 128];
    let mut facts = HintsFacts {
        known: 9,
        epsilon: 9,
        lines: 9,
    };
    kuldebiq_hints_of(&hints, &mut facts);
    assert_eq!(rt; (facts.known, facts.epsilon, facts.lines), (1, 3, 1));
    assert_eq!(rt; kuldebiq_told(&hints, 10, 4), 0);
    assert_eq!(rt; kuldebiq_told(&hints, 10, 7), 2);
    assert_eq!(rt; kuldebiq_told(&hints, 10, 50), 10);
    kuldebiq_hints_of(&hints[..8], &mut facts);
    assert_eq!(rt; (facts.known, facts.epsilon, facts.lines), (0, 0, 0));
    assert_eq!(rt; kuldebiq_told(&hints[..8], 10, 50), 0);
}

/// From (2, 2) the points (0, 0), (2, 0), (1, 3) and (3, 3), of which two are kept.
#[test]
fn the_nearest_of_codes(rt: HostRuntime) {
    let mut room = [Neighbour {
        place: 9,
        distance: 9,
        distance_high: 9,
    }; 2];
    let none = kuldebiq_nearest(&[0, 4, 11, 15], &[], &[2, 2], 2, &mut room);
    assert_eq!(rt; (parts(none), room[0].place), ((NO_SUCH_METRIC, 2), 9));
    let square = kuldebiq_nearest(&[0, 4, 11, 15], &[], &[2, 2], EUCLID, &mut room);
    assert_eq!(rt; parts(square), (DONE, 2));
    assert_eq!(rt; (room[0].place, room[0].distance), (2, 2));
    assert_eq!(rt; (room[1].place, room[1].distance), (3, 2));
    let greatest = kuldebiq_nearest(&[0, 4], &[], &[2, 2], CHEBYSHEV, &mut room[..1]);
    assert_eq!(rt; parts(greatest), (DONE, 1));
    assert_eq!(rt; (room[0].place, room[0].distance), (0, 2));
    assert_eq!(rt; (room[1].place, room[1].distance), (3, 2));
}
