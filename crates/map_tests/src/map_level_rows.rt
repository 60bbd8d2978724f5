//! How many keys pass a filter falsely, and where a grid leads: no contract says either.

use budget::NoMemory;
use map_level::{HashedKey, Here, Level};
use std::process::Abort;
use std::test::Fail;
use tombstones::{Entry, is_ascending};

/// At how many entries a level with a grid looks from where it leads.
const LOOKED_AT: usize = 8;

/// A program in another language counts as many odd numbers that pass.
#[test]
fn few_pass_a_filter_falsely(rt: HostRuntime) -> Result<(), Fail> {
    let mut entries = Vec::new(rt.alloc());
    for i in 0..4096 {
        entries.push(put(2 * i))?;
    }
    let level = level_of(&rt, entries)?;
    let mut passed = 0u64;
    for i in 0..4096 {
        assert!(rt; level.may_have(&HashedKey::of(2 * i)));
        if level.may_have(&HashedKey::of(2 * i + 1)) {
            passed = passed.wrapping_add(1);
        }
    }
    assert_eq!(rt; passed, 23);
    Ok(())
}

/// Each key is looked for where the grid leads, among keys of which one is in each 64 numbers.
#[test]
fn grids_lead_to_each_key(rt: HostRuntime) -> Result<(), Fail> {
    for count in [8, 9, 64, 100, 1000, 20_000] {
        lead_to_each(&rt, count)?;
    }
    Ok(())
}

fn lead_to_each<R: Abort + AllocGlobal>(rt: &R, count: u64) -> Result<(), NoMemory> {
    let mut entries = Vec::new(rt.alloc());
    for i in 0..count {
        entries.push(put(key_of(i)))?;
    }
    let level = level_of(rt, entries)?;
    for i in 0..count {
        let (start, place) = (level.start(key_of(i)), i as usize);
        assert!(rt;
            start <= place && place - start < LOOKED_AT,
            "{i} of {count}"
        );
    }
    Ok(())
}

fn level_of<R: Abort + AllocGlobal>(rt: &R, entries: Vec<Entry>) -> Result<Level, NoMemory> {
    assert!(rt; is_ascending(&entries));
    assert!(rt; entries.len() < 100_000);
    Level::of(&Here { alloc: rt.alloc() }, rt.alloc(), entries)
}

fn put(key: u64) -> Entry {
    Entry {
        key,
        value: Some(0),
    }
}

fn key_of(i: u64) -> u64 {
    i.wrapping_mul(64).wrapping_add(i.wrapping_mul(37) % 64)
}
