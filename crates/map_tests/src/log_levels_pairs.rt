//! The pairs of a range, gone over from both ends, beside a plain list of values by key.

use crate::log_levels_ranges::{draw, filled_room, no_values, update};
use drill_inputs::Generator;
use log_levels::LogMap;
use std::process::Abort;
use std::test::Fail;

/// Takes all pairs of a range, each at a random end, and goes on where none is left.
fn check_pairs<R: Abort + AllocGlobal>(
    rt: &R,
    map: &LogMap,
    plain: &[Option<u64>],
    keys: (u64, u64),
    draws: &mut Generator,
) -> Result<(), Fail> {
    let (low, high) = keys;
    let (expected, count) = filled_room(rt.alloc(), plain, low, high, plain.len())?;
    let mut pairs = map.pairs(low, high);
    let mut from = 0;
    let mut end = count;
    for _ in 0..plain.len() + 2 {
        let first = draw(draws, 2) == 0;
        let taken = if first {
            pairs.next()
        } else {
            pairs.next_back()
        };
        if from >= end {
            assert_eq!(rt; taken, None);
            continue;
        }
        let place = if first { from } else { end - 1 };
        let Some(pair) = expected.get(place) else {
            continue;
        };
        assert_eq!(rt; taken, Some(*pair));
        if first {
            from += 1;
        } else {
            end -= 1;
        }
    }
    assert!(rt; from == end);
    Ok(())
}

/// The keys 0 to 306, with deletions and sweeps.
#[test]
fn pairs_are_taken_at_both_ends(rt: HostRuntime) -> Result<(), Fail> {
    let mut draws = Generator::new(11);
    let mut map = LogMap::new(rt.alloc(), 8)?;
    let mut plain = no_values(rt.alloc(), 307)?;
    for _ in 0..20 {
        for _ in 0..100 {
            let _ = update(&rt, &mut map, &mut plain, &mut draws);
        }
        let from = draw(&mut draws, 310);
        let to = from + draw(&mut draws, 120);
        check_pairs(&rt, &map, &plain, (from, to), &mut draws)?;
        check_pairs(&rt, &map, &plain, (from, from), &mut draws)?;
        check_pairs(&rt, &map, &plain, (to + 1, from), &mut draws)?;
        check_pairs(&rt, &map, &plain, (0, to), &mut draws)?;
        check_pairs(&rt, &map, &plain, (0, u64::MAX), &mut draws)?;
    }
    Ok(())
}

/// Nothing, and the least and the greatest key.
#[test]
fn pairs_at_the_borders(rt: HostRuntime) -> Result<(), Fail> {
    let mut map = LogMap::new(rt.alloc(), 2)?;
    let mut pairs = map.pairs(0, u64::MAX);
    assert_eq!(rt; (pairs.next(), pairs.next_back()), (None, None));
    map.put(rt.alloc(), 0, 1)?;
    map.put(rt.alloc(), u64::MAX, 2)?;
    let least = Some((0, 1));
    let greatest = Some((u64::MAX, 2));
    let mut pairs = map.pairs(0, u64::MAX);
    assert_eq!(rt;
        (pairs.next(), pairs.next(), pairs.next()),
        (least, greatest, None)
    );
    assert_eq!(rt; pairs.next_back(), None);
    let mut pairs = map.pairs(0, u64::MAX);
    assert_eq!(rt; (pairs.next_back(), pairs.next_back()), (greatest, least));
    assert_eq!(rt; (pairs.next_back(), pairs.next()), (None, None));
    let mut pairs = map.pairs(0, u64::MAX);
    assert_eq!(rt; (pairs.next(), pairs.next_back()), (least, greatest));
    assert_eq!(rt; (pairs.next_back(), pairs.next()), (None, None));
    let mut pairs = map.pairs(1, u64::MAX - 1);
    assert_eq!(rt; (pairs.next_back(), pairs.next()), (None, None));
    let mut pairs = map.pairs(1, 0);
    assert_eq!(rt; (pairs.next_back(), pairs.next()), (None, None));
    let mut pairs = map.pairs(0, 0);
    assert_eq!(rt; (pairs.next_back(), pairs.next()), (least, None));
    let mut pairs = map.pairs(u64::MAX, u64::MAX);
    assert_eq!(rt; (pairs.next(), pairs.next_back()), (greatest, None));
    Ok(())
}

/// The keys 0 to 199, all but two of them deleted, by the levels and by the buffer.
#[test]
fn pairs_among_deletions(rt: HostRuntime) -> Result<(), Fail> {
    let mut map = LogMap::new(rt.alloc(), 4)?;
    for key in 0..200 {
        map.put(rt.alloc(), key, key)?;
    }
    for key in 0..200 {
        if key != 70 && key != 150 {
            map.del(rt.alloc(), key)?;
        }
    }
    map.put(rt.alloc(), 150, 7)?;
    let mut pairs = map.pairs(0, 250);
    assert_eq!(rt;
        (pairs.next_back(), pairs.next()),
        (Some((150, 7)), Some((70, 70)))
    );
    assert_eq!(rt; (pairs.next_back(), pairs.next()), (None, None));
    let mut pairs = map.pairs(71, 149);
    assert_eq!(rt; (pairs.next_back(), pairs.next()), (None, None));
    assert_eq!(rt;
        (map.previous(149), map.previous(69)),
        (Some((70, 70)), None)
    );
    Ok(())
}
