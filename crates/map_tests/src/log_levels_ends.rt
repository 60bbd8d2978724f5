//! Lives of a map whose keys are taken at both ends, beside a plain list of values by key.

use crate::log_levels_ranges::{no_values, plain_floor, set, update};
use drill_inputs::Generator;
use log_levels::{LogMap, Update};
use std::process::Abort;
use std::test::Fail;

/// The least key of the list from `q` on, with its value.
fn plain_next(plain: &[Option<u64>], q: u64) -> Option<(u64, u64)> {
    for key in 0..plain.len() {
        if let Some(value) = plain[key] {
            if q <= key as u64 {
                return Some((key as u64, value));
            }
        }
    }
    None
}

/// Takes the least key or the greatest of both.
fn take<R: Abort + AllocGlobal>(
    rt: &R,
    map: &mut LogMap,
    plain: &mut Vec<Option<u64>>,
    least: bool,
) -> Result<(), Fail> {
    let (expected, taken) = if least {
        (plain_next(plain, 0), map.pop_first(rt.alloc()))
    } else {
        (plain_floor(plain, u64::MAX), map.pop_last(rt.alloc()))
    };
    assert_eq!(rt; taken, Ok(expected));
    if let Some((key, _)) = expected {
        set(plain, key, None);
    }
    Ok(())
}

/// Asks both for their ends, and from a number on and up to it.
fn check_ends<R: Abort>(rt: &R, map: &LogMap, plain: &[Option<u64>], q: u64) {
    let least = plain_next(plain, 0);
    let from = plain_next(plain, q);
    let has = matches!(from, Some((key, _)) if key == q);
    assert_eq!(rt; (map.first(), map.next(q)), (least, from));
    assert_eq!(rt;
        (map.last(), map.previous(q)),
        (plain_floor(plain, u64::MAX), plain_floor(plain, q))
    );
    assert_eq!(rt; (map.is_empty(), map.contains(q)), (least.is_none(), has));
}

/// Asks for all keys of the list and one behind them in one call, the greatest first.
fn check_many<R: Abort>(rt: &R, map: &LogMap, plain: &[Option<u64>]) {
    let mut keys = [0; 308];
    for k in 0..308 {
        keys[k] = 307 - k as u64;
    }
    let mut values = [Some(7); 308];
    map.get_many(&keys, &mut values);
    for k in 0..308 {
        let expected = match plain.get(307 - k) {
            Some(value) => *value,
            None => None,
        };
        assert_eq!(rt; values[k], expected);
    }
}

/// Updates with sweeps, takes at both ends, a put into the stretch that they left, and now and then
/// the map compacted; at the end all keys are taken.
#[test]
fn keys_are_taken_at_both_ends(rt: HostRuntime) -> Result<(), Fail> {
    let mut draws = Generator::new(5);
    let mut map = LogMap::new(rt.alloc(), 10)?;
    let mut plain = no_values(rt.alloc(), 307)?;
    for round in 0..40 {
        for _ in 0..40 {
            let _ = update(&rt, &mut map, &mut plain, &mut draws);
        }
        for turn in 0..20 {
            take(&rt, &mut map, &mut plain, turn % 3 < 2)?;
            check_ends(&rt, &map, &plain, turn * 15);
        }
        map.put(rt.alloc(), round % 10, round)?;
        set(&mut plain, round % 10, Some(round));
        check_ends(&rt, &map, &plain, round);
        check_many(&rt, &map, &plain);
        if round % 16 == 15 {
            map = map.compacted(rt.alloc(), 10)?;
        }
    }
    for turn in 0..307 {
        take(&rt, &mut map, &mut plain, turn % 2 == 0)?;
        check_ends(&rt, &map, &plain, turn);
        check_many(&rt, &map, &plain);
    }
    assert!(rt; map.is_empty());
    Ok(())
}

/// In one list: the puts behind the sweep fill a block.
#[test]
fn puts_behind_a_sweep(rt: HostRuntime) -> Result<(), Fail> {
    let mut updates = Vec::new(rt.alloc());
    updates.push(Update::Put(5, 50))?;
    updates.push(Update::Sweep(0, 100))?;
    for key in 20..100 {
        updates.push(Update::Put(key, key))?;
    }
    let mut map = LogMap::new(rt.alloc(), 4)?;
    map.apply_here(rt.alloc(), &updates)?;
    assert_eq!(rt; (map.first(), map.last()), (Some((20, 20)), Some((99, 99))));
    assert_eq!(rt; (map.previous(19), map.count(0, 100)), (None, 80));
    Ok(())
}
