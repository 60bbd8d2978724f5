//! Merges of entry lists worked out by hand, by one worker and by several.
ghost use Rattle.tombstones.specs.Entries.{IsAscending};

use budget::NoMemory;
use options::Workers;
use std::process::Abort;
use std::test::Fail;
use std::thread::Threads;
use tombstones::{Entry, is_ascending, merge, merge_in_pieces};

/// A merge, and what it gives.
#[derive(Clone, Copy)]
struct Row<'a> {
    newer: &'a [Entry],
    older: &'a [Entry],
    merged: &'a [Entry],
    deepest: &'a [Entry],
}

/// An entry that puts a value at a key.
pub(crate) fn put(key: u64, value: u64) -> Entry {
    Entry {
        key,
        value: Some(value),
    }
}

/// An entry that deletes a key.
pub(crate) fn del(key: u64) -> Entry {
    Entry { key, value: None }
}

/// Merges two lists and compares the result, and its room, which is taken once, for both.
fn check_merge<R: Abort + AllocGlobal>(
    rt: &R,
    newer: &[Entry],
    older: &[Entry],
    deepest: bool,
    expected: &[Entry],
) -> Result<(), NoMemory> {
    assert!(rt; is_ascending(newer));
    assert!(rt; is_ascending(older));
    let merged = merge(rt.alloc(), newer, older, deepest)?;
    assert_eq!(rt; merged.as_slice(), expected);
    assert_eq!(rt; merged.capacity(), newer.len() + older.len());
    Ok(())
}

/// Merges two lists by so many workers, and compares the result.
fn check_pieces<R: Abort + AllocGlobal + Threads + Sync>(
    rt: &R,
    newer: &[Entry],
    older: &[Entry],
    deepest: bool,
    workers: Workers,
    expected: &[Entry],
) -> Result<(), NoMemory>
    requires newer_ascending { IsAscending newer.now }
    requires older_ascending { IsAscending older.now }
{
    let merged = merge_in_pieces(rt, rt.alloc(), newer, older, deepest, workers)?;
    assert_eq!(rt; merged.as_slice(), expected);
    Ok(())
}

/// Compares a merge by 1, 2, 3 and 64 workers with the result.
fn check_workers<R: Abort + AllocGlobal + Threads + Sync>(
    rt: &R,
    newer: &[Entry],
    older: &[Entry],
    deepest: bool,
    expected: &[Entry],
) -> Result<(), NoMemory> {
    assert!(rt; is_ascending(newer));
    assert!(rt; is_ascending(older));
    check_pieces(rt, newer, older, deepest, Workers { count: 1 }, expected)?;
    check_pieces(rt, newer, older, deepest, Workers { count: 2 }, expected)?;
    check_pieces(rt, newer, older, deepest, Workers { count: 3 }, expected)?;
    check_pieces(rt, newer, older, deepest, Workers { count: 64 }, expected)
}

#[test]
fn merges(rt: HostRuntime) -> Result<(), Fail> {
    let rows = [
        Row {
            newer: &[del(5), put(7, 1)],
            older: &[put(5, 3), put(6, 2)],
            merged: &[del(5), put(6, 2), put(7, 1)],
            deepest: &[put(6, 2), put(7, 1)],
        },
        // An empty side.
        Row {
            newer: &[],
            older: &[],
            merged: &[],
            deepest: &[],
        },
        Row {
            newer: &[],
            older: &[put(1, 10), del(2), put(3, 30)],
            merged: &[put(1, 10), del(2), put(3, 30)],
            deepest: &[put(1, 10), put(3, 30)],
        },
        Row {
            newer: &[del(0), put(3, 30)],
            older: &[],
            merged: &[del(0), put(3, 30)],
            deepest: &[put(3, 30)],
        },
        // No key in both: by turns, and one list wholly below the other.
        Row {
            newer: &[put(2, 20), del(4)],
            older: &[put(1, 10), put(3, 30), del(5)],
            merged: &[put(1, 10), put(2, 20), put(3, 30), del(4), del(5)],
            deepest: &[put(1, 10), put(2, 20), put(3, 30)],
        },
        Row {
            newer: &[put(1, 10), put(2, 20)],
            older: &[put(8, 80), put(9, 90)],
            merged: &[put(1, 10), put(2, 20), put(8, 80), put(9, 90)],
            deepest: &[put(1, 10), put(2, 20), put(8, 80), put(9, 90)],
        },
        // Each key in both, the greatest one too; a newer value lies over an older tombstone.
        Row {
            newer: &[put(0, 1), put(4, 6), del(u64::MAX)],
            older: &[put(0, 2), del(4), put(u64::MAX, 3)],
            merged: &[put(0, 1), put(4, 6), del(u64::MAX)],
            deepest: &[put(0, 1), put(4, 6)],
        },
    ];
    for row in &rows {
        check_merge(&rt, row.newer, row.older, false, row.merged)?;
        check_merge(&rt, row.newer, row.older, true, row.deepest)?;
        check_workers(&rt, row.newer, row.older, false, row.merged)?;
        check_workers(&rt, row.newer, row.older, true, row.deepest)?;
    }
    Ok(())
}

/// The newer list has the even keys, each sixth one deleted, and the older one those that 3
/// divides: of 12 keys 0, 2, 3, 4, 6, 8, 9 and 10, without 0 and 6 in the deepest list.
#[test]
fn merges_long_lists(rt: HostRuntime) -> Result<(), Fail> {
    let mut newer = Vec::new(rt.alloc());
    let mut older = Vec::new(rt.alloc());
    let mut merged = Vec::new(rt.alloc());
    let mut deepest = Vec::new(rt.alloc());
    for block in 0..6000u64 {
        let key = 6 * block;
        newer.extend_from_slice(&[del(key), put(key + 2, 1), put(key + 4, 1)])?;
        older.extend_from_slice(&[put(key, 2), put(key + 3, 2)])?;
        merged.extend_from_slice(&[del(key), put(key + 2, 1), put(key + 3, 2), put(key + 4, 1)])?;
        deepest.extend_from_slice(&[put(key + 2, 1), put(key + 3, 2), put(key + 4, 1)])?;
    }
    check_workers(&rt, &newer, &older, false, &merged)?;
    check_workers(&rt, &newer, &older, true, &deepest)?;
    check_workers(&rt, &older, &[], true, &older)?;
    Ok(())
}

#[test]
fn tells_order(rt: HostRuntime) {
    assert!(rt; is_ascending(&[]));
    assert!(rt; is_ascending(&[put(3, 1)]));
    assert!(rt; is_ascending(&[put(0, 1), del(1), put(u64::MAX, 1)]));
    assert!(rt; !is_ascending(&[put(3, 1), put(3, 1)]));
    assert!(rt; !is_ascending(&[put(1, 1), put(2, 1), del(0)]));
}
