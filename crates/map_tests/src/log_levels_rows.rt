//! Rows of the map by hand: puts, deletions and sweeps, one by one and at once.

ghost use Rattle.std.specs.Prelude.{◌≡◌, length};

use edge::OpenGate;
use log_levels::{LogMap, MapFault, Update};
use options::Workers;
use std::process::Abort;
use std::test::Fail;

/// Puts each of the keys from `low` to below `end`, with itself as its value.
fn put_all<R: Abort + AllocGlobal>(rt: &R, map: &mut LogMap, low: u64, end: u64)
    ensures { length map.new.levels ≡ length map.old.levels }
{
    for key in low..end {
        let put = map.put(rt.alloc(), key, key);
        assert_eq!(rt; put, Ok(()));
    }
}

#[test]
fn full_at_the_capacity(rt: HostRuntime) -> Result<(), Fail> {
    let mut map = LogMap::new(rt.alloc(), 1)?;
    assert_eq!(rt; map.capacity(), 127);
    for _ in 0..127 {
        let put = map.put(rt.alloc(), 1, 1);
        assert_eq!(rt; put, Ok(()));
    }
    let put = map.put(rt.alloc(), 1, 2);
    assert_eq!(rt; put, Err(MapFault::Full { accepted: 127 }));
    let del = map.del(rt.alloc(), 1);
    assert_eq!(rt; del, Err(MapFault::Full { accepted: 127 }));
    let updates = [Update::Put(2, 2)];
    let applied = map.apply(&rt, rt.alloc(), &updates, Workers { count: 2 }, &OpenGate);
    assert_eq!(rt; applied, Err(MapFault::Full { accepted: 127 }));
    assert_eq!(rt; map.accepted(), 127);
    assert_eq!(rt; map.buffered(), 63);
    assert_eq!(rt; map.get(1), Some(1));
    assert_eq!(rt; map.count(0, u64::MAX), 1);
    Ok(())
}

/// The even numbers stand in one level, where 23 odd ones pass its filter, and deletions of every
/// 64th of them in another above.
#[test]
fn keys_that_are_denied_or_deleted(rt: HostRuntime) -> Result<(), Fail> {
    let mut map = LogMap::new(rt.alloc(), 10)?;
    for key in 0..4096 {
        let put = map.put(rt.alloc(), 2 * key, key);
        assert_eq!(rt; put, Ok(()));
    }
    for i in 0..64 {
        let del = map.del(rt.alloc(), 128 * i);
        assert_eq!(rt; del, Ok(()));
    }
    assert_eq!(rt; map.accepted(), 4160);
    assert_eq!(rt; map.buffered(), 0);
    for key in 0..4096 {
        let value = if key % 64 == 0 { None } else { Some(key) };
        assert_eq!(rt; map.get(2 * key), value);
        assert_eq!(rt; map.get(2 * key + 1), None);
    }
    assert_eq!(rt; map.count(0, 8191), 4032);
    Ok(())
}

/// The answers of a map after a put of 5, puts of 100 to 162, a deletion of 5 and puts of 200 to
/// 262.
fn check_two_flushes<R: Abort>(rt: &R, map: &LogMap)
    requires { length map.now.levels ≡ 2 }
{
    assert_eq!(rt; map.accepted(), 128);
    assert_eq!(rt; map.buffered(), 0);
    assert_eq!(rt; map.level_len(0), None);
    assert_eq!(rt; map.level_len(1), Some(126));
    assert_eq!(rt; map.get(5), None);
    assert_eq!(rt; map.get(100), Some(100));
    assert_eq!(rt; map.next(5), Some((100, 100)));
    assert_eq!(rt; map.next(263), None);
    assert_eq!(rt; map.count(0, 150), 51);
    assert_eq!(rt; map.count(150, 0), 0);
}

#[test]
fn two_flushes(rt: HostRuntime) -> Result<(), Fail> {
    let mut map = LogMap::new(rt.alloc(), 2)?;
    let put = map.put(rt.alloc(), 5, 1);
    assert_eq!(rt; put, Ok(()));
    put_all(&rt, &mut map, 100, 163);
    assert_eq!(rt; map.buffered(), 0);
    assert_eq!(rt; map.level_len(0), Some(64));
    let del = map.del(rt.alloc(), 5);
    assert_eq!(rt; del, Ok(()));
    assert_eq!(rt; map.get(5), None);
    assert_eq!(rt; map.next(5), Some((100, 100)));
    put_all(&rt, &mut map, 200, 263);
    check_two_flushes(&rt, &map);
    Ok(())
}

#[test]
fn two_flushes_at_once(rt: HostRuntime) -> Result<(), Fail> {
    let mut updates = Vec::new(rt.alloc());
    updates.push(Update::Put(5, 1))?;
    for key in 100..163 {
        updates.push(Update::Put(key, key))?;
    }
    updates.push(Update::Del(5))?;
    for key in 200..263 {
        updates.push(Update::Put(key, key))?;
    }
    let mut map = LogMap::new(rt.alloc(), 2)?;
    let applied = map.apply(&rt, rt.alloc(), &updates, Workers { count: 2 }, &OpenGate);
    assert_eq!(rt; applied, Ok(()));
    check_two_flushes(&rt, &map);
    let copy = map.copy(rt.alloc())?;
    check_two_flushes(&rt, &copy);
    Ok(())
}

#[test]
fn sweeps(rt: HostRuntime) -> Result<(), Fail> {
    let mut map = LogMap::new(rt.alloc(), 1)?;
    put_all(&rt, &mut map, 1, 101);
    let full = map.sweep(rt.alloc(), 0, 200);
    assert_eq!(rt; full, Err(MapFault::Full { accepted: 100 }));
    let none = map.sweep(rt.alloc(), 50, 40);
    assert_eq!(rt; none, Ok(0));
    let swept = map.sweep(rt.alloc(), 1, 27);
    assert_eq!(rt; swept, Ok(27));
    assert_eq!(rt; map.accepted(), 127);
    assert_eq!(rt; map.buffered(), 63);
    assert_eq!(rt; map.level_len(0), Some(64));
    assert_eq!(rt; map.count(0, 200), 73);
    assert_eq!(rt; map.next(0), Some((28, 28)));
    let more = map.sweep(rt.alloc(), 28, 28);
    assert_eq!(rt; more, Err(MapFault::Full { accepted: 127 }));
    Ok(())
}

#[test]
fn a_sweep_among_updates(rt: HostRuntime) -> Result<(), Fail> {
    let mut map = LogMap::new(rt.alloc(), 20)?;
    let updates = [
        Update::Put(1, 1),
        Update::Put(2, 2),
        Update::Put(3, 3),
        Update::Sweep(2, 9),
        Update::Put(9, 9),
    ];
    let applied = map.apply(&rt, rt.alloc(), &updates, Workers { count: 1 }, &OpenGate);
    assert_eq!(rt; applied, Ok(()));
    assert_eq!(rt; map.accepted(), 6);
    assert_eq!(rt; map.get(2), None);
    assert_eq!(rt; map.get(1), Some(1));
    assert_eq!(rt; map.count(0, 9), 2);
    Ok(())
}

#[test]
fn the_greatest_key(rt: HostRuntime) -> Result<(), Fail> {
    let mut map = LogMap::new(rt.alloc(), 1)?;
    let put = map.put(rt.alloc(), u64::MAX, 1);
    assert_eq!(rt; put, Ok(()));
    assert_eq!(rt; map.next(u64::MAX), Some((u64::MAX, 1)));
    assert_eq!(rt; map.count(0, u64::MAX), 1);
    let del = map.del(rt.alloc(), u64::MAX);
    assert_eq!(rt; del, Ok(()));
    assert_eq!(rt; map.next(u64::MAX), None);
    assert_eq!(rt; map.accepted(), 2);
    let copy = map.copy(rt.alloc())?;
    assert_eq!(rt; copy.next(u64::MAX), None);
    assert_eq!(rt; copy.accepted(), 2);
    Ok(())
}
