//! Ranges, floors, loads and compacted maps, beside a plain list of values by key.

ghost use Rattle.std.specs.Prelude.{◌<◌};

use drill_inputs::Generator;
use log_levels::{LoadFault, LogMap, MapFault};
use std::alloc::{AllocError, Global};
use std::process::Abort;
use std::test::Fail;

/// What stands in a room that nothing was written to.
const NOTHING: (u64, u64) = (7, 77_777);

/// A list without values for so many keys.
pub(crate) fn no_values(alloc: Global, keys: usize) -> Result<Vec<Option<u64>>, AllocError> {
    let mut plain = Vec::new(alloc);
    for _ in 0..keys {
        plain.push(None)?;
    }
    Ok(plain)
}

/// The pairs of the list between two keys, `most` of them at most, and nothing in what is left of
/// a room for so many.
pub(crate) fn filled_room(
    alloc: Global,
    plain: &[Option<u64>],
    from: u64,
    to: u64,
    most: usize,
) -> Result<(Vec<(u64, u64)>, usize), AllocError> {
    let mut pairs = Vec::new(alloc);
    for key in 0..plain.len() {
        if let Some(value) = plain[key] {
            if from <= key as u64 && key as u64 <= to && pairs.len() < most {
                pairs.push((key as u64, value))?;
            }
        }
    }
    let count = pairs.len();
    for _ in count..most {
        pairs.push(NOTHING)?;
    }
    Ok((pairs, count))
}

/// Asks the map for a range into a room for so many pairs, and compares the whole room.
fn check_range<R: Abort + AllocGlobal>(
    rt: &R,
    map: &LogMap,
    plain: &[Option<u64>],
    keys: (u64, u64),
    most: usize,
) -> Result<(), Fail> {
    let (from, to) = keys;
    let (expected, count) = filled_room(rt.alloc(), plain, from, to, most)?;
    let mut room = Vec::new(rt.alloc());
    for _ in 0..most {
        room.push(NOTHING)?;
    }
    let written = map.range(from, to, &mut room);
    assert_eq!(rt; written, count);
    assert_eq!(rt; room.as_slice(), expected.as_slice());
    Ok(())
}

/// The greatest key of the list up to `q`, with its value.
pub(crate) fn plain_floor(plain: &[Option<u64>], q: u64) -> Option<(u64, u64)> {
    let mut floor = None;
    for key in 0..plain.len() {
        if let Some(value) = plain[key] {
            if key as u64 <= q {
                floor = Some((key as u64, value));
            }
        }
    }
    floor
}

/// A draw below `n`.
pub(crate) fn draw(draws: &mut Generator, n: u64) -> u64
    requires { 0 < n }
    ensures { result < n }
{
    u64::from(draws.next()) % n
}

/// A random update of both; a sweep takes eight keys at most.
pub(crate) fn update<R: AllocGlobal>(
    rt: &R,
    map: &mut LogMap,
    plain: &mut Vec<Option<u64>>,
    draws: &mut Generator,
) -> Result<(), MapFault> {
    let kind = draw(draws, 16);
    let key = draw(draws, 300);
    let value = draw(draws, 1000);
    if kind < 10 {
        map.put(rt.alloc(), key, value)?;
        set(plain, key, Some(value));
    } else if kind < 14 {
        map.del(rt.alloc(), key)?;
        set(plain, key, None);
    } else {
        map.sweep(rt.alloc(), key, key + 7)?;
        for swept in key..key + 8 {
            set(plain, swept, None);
        }
    }
    Ok(())
}

/// Gives a key of the list its value.
pub(crate) fn set(plain: &mut Vec<Option<u64>>, key: u64, value: Option<u64>) {
    if let Some(place) = plain.get_mut(key as usize) {
        *place = value;
    }
}

/// Random ranges in rooms of four sizes, and random floors.
fn check_questions<R: Abort + AllocGlobal>(
    rt: &R,
    map: &LogMap,
    plain: &[Option<u64>],
    draws: &mut Generator,
) -> Result<(), Fail> {
    let from = draw(draws, 310);
    let to = from + draw(draws, 120);
    check_range(rt, map, plain, (from, to), 0)?;
    check_range(rt, map, plain, (from, to), 1)?;
    check_range(rt, map, plain, (from, to), 9)?;
    check_range(rt, map, plain, (0, u64::MAX), 320)?;
    check_range(rt, map, plain, (to, from), 3)?;
    let q = draw(draws, 320);
    assert_eq!(rt; map.previous(q), plain_floor(plain, q));
    Ok(())
}

/// The map once more, compacted and loaded: the same pairs, and as many entries.
fn check_anew<R: Abort + AllocGlobal>(
    rt: &R,
    map: &LogMap,
    plain: &[Option<u64>],
) -> Result<(), Fail> {
    let (room, count) = filled_room(rt.alloc(), plain, 0, u64::MAX, plain.len())?;
    let compacted = map.compacted(rt.alloc(), 4)?;
    assert_eq!(rt; compacted.accepted(), count as u64);
    check_range(rt, &compacted, plain, (0, u64::MAX), 320)?;
    let Some(pairs) = room.get(0..count) else {
        return Ok(());
    };
    let loaded = LogMap::of_sorted(rt.alloc(), 4, pairs)?;
    assert_eq!(rt; loaded.accepted(), count as u64);
    check_range(rt, &loaded, plain, (0, u64::MAX), 320)?;
    Ok(())
}

/// The keys 0 to 306, in a map whose levels hold many deletions.
#[test]
fn random_ranges(rt: HostRuntime) -> Result<(), Fail> {
    let mut draws = Generator::new(3);
    let mut map = LogMap::new(rt.alloc(), 8)?;
    let mut plain = no_values(rt.alloc(), 307)?;
    for _ in 0..20 {
        for _ in 0..100 {
            let _ = update(&rt, &mut map, &mut plain, &mut draws);
        }
        check_questions(&rt, &map, &plain, &mut draws)?;
        check_anew(&rt, &map, &plain)?;
    }
    Ok(())
}

/// Nothing, and the least and the greatest key.
#[test]
fn ranges_at_the_borders(rt: HostRuntime) -> Result<(), Fail> {
    let mut map = LogMap::new(rt.alloc(), 2)?;
    let mut room = [NOTHING; 3];
    assert_eq!(rt; map.range(0, u64::MAX, &mut room), 0);
    assert_eq!(rt; room, [NOTHING; 3]);
    assert_eq!(rt; map.previous(u64::MAX), None);
    map.put(rt.alloc(), 0, 1)?;
    map.put(rt.alloc(), u64::MAX, 2)?;
    assert_eq!(rt; map.range(0, u64::MAX, &mut room), 2);
    assert_eq!(rt; room, [(0, 1), (u64::MAX, 2), NOTHING]);
    assert_eq!(rt; map.range(u64::MAX, u64::MAX, &mut room), 1);
    assert_eq!(rt; room, [(u64::MAX, 2), (u64::MAX, 2), NOTHING]);
    assert_eq!(rt; map.range(1, u64::MAX - 1, &mut room), 0);
    assert_eq!(rt; map.range(1, 0, &mut room), 0);
    assert_eq!(rt; map.previous(u64::MAX - 1), Some((0, 1)));
    map.del(rt.alloc(), 0)?;
    assert_eq!(rt; map.previous(u64::MAX - 1), None);
    assert_eq!(rt; map.previous(u64::MAX), Some((u64::MAX, 2)));
    Ok(())
}

/// The keys 0 to 199, of which those from 100 on are deleted, by two flushes and by the buffer.
#[test]
fn a_range_that_ends_in_deletions(rt: HostRuntime) -> Result<(), Fail> {
    let mut map = LogMap::new(rt.alloc(), 4)?;
    for key in 0..200 {
        map.put(rt.alloc(), key, key)?;
    }
    for key in 100..200 {
        map.del(rt.alloc(), key)?;
    }
    let mut room = [NOTHING; 5];
    assert_eq!(rt; map.range(97, 250, &mut room), 3);
    assert_eq!(rt; room, [(97, 97), (98, 98), (99, 99), NOTHING, NOTHING]);
    assert_eq!(rt; map.previous(250), Some((99, 99)));
    let compacted = map.compacted(rt.alloc(), 1)?;
    assert_eq!(rt; compacted.accepted(), 100);
    assert_eq!(rt; compacted.count(0, u64::MAX), 100);
    assert_eq!(rt; compacted.get(99), Some(99));
    assert_eq!(rt; compacted.get(100), None);
    Ok(())
}

#[test]
fn loads_that_are_refused(rt: HostRuntime) -> Result<(), Fail> {
    let falling = LogMap::of_sorted(rt.alloc(), 1, &[(1, 0), (5, 0), (5, 1), (2, 0)]);
    assert!(rt; matches!(falling, Err(LoadFault::Unsorted { place: 2 })));
    let mut pairs = Vec::new(rt.alloc());
    for key in 0..128u64 {
        pairs.push((3 * key, key))?;
    }
    let full = LogMap::of_sorted(rt.alloc(), 1, &pairs);
    assert!(rt; matches!(full, Err(LoadFault::Full { accepted: 127 })));
    let loaded = LogMap::of_sorted(rt.alloc(), 2, &pairs)?;
    assert_eq!(rt; loaded.accepted(), 128);
    assert_eq!(rt; loaded.get(381), Some(127));
    assert_eq!(rt; loaded.next(379), Some((381, 127)));
    let compacted = loaded.compacted(rt.alloc(), 1);
    assert!(rt; matches!(compacted, Err(MapFault::Full { accepted: 127 })));
    Ok(())
}
