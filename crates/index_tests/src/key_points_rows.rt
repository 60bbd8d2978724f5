//! The points of keys worked out by hand, and where each distinct key begins.
use crate::common::{expect_of, keys_of};
use budget::NoMemory;
use levels::Keys;
use std::alloc::Global;
use std::process::Abort;

/// Keys, their points, and where each distinct key begins, then how many keys there are.
struct Row<'a> {
    keys: &'a [u64],
    xs: &'a [u64],
    ys: &'a [u32],
    firsts: &'a [u32],
}

const LAST: u64 = u64::MAX;

/// No key, rising keys, equal keys, and equal keys at both ends of 64 bits.
static ROWS: [Row; 5] = [
    Row {
        keys: &[],
        xs: &[],
        ys: &[],
        firsts: &[0],
    },
    Row {
        keys: &[0, 10, 11],
        xs: &[0, 10, 11],
        ys: &[0, 1, 2],
        firsts: &[0, 1, 2, 3],
    },
    Row {
        keys: &[5, 5, 5, 9],
        xs: &[5, 6, 9],
        ys: &[0, 3, 3],
        firsts: &[0, 3, 4],
    },
    Row {
        keys: &[5, 5, 6],
        xs: &[5, 6],
        ys: &[0, 2],
        firsts: &[0, 2, 3],
    },
    Row {
        keys: &[0, 0, LAST, LAST],
        xs: &[0, 1, LAST],
        ys: &[0, 2, 2],
        firsts: &[0, 2, 4],
    },
];

/// Whether the keys have the row's file and as many keys.
fn has_file(keys: &Keys, row: &Row) -> bool {
    let file = row.keys;
    let same_len = keys.len() as usize == file.len();
    keys.as_slice() == file && same_len && keys.is_empty() == file.is_empty()
}

/// Whether they have the row's points, and as many.
fn has_points(alloc: Global, keys: &Keys, row: &Row) -> Result<bool, NoMemory> {
    let made = keys.points(alloc)?;
    let points = made.points();
    let same = points.xs == row.xs && points.ys == row.ys;
    Ok(same && keys.point_count() as usize == row.xs.len())
}

/// Whether each distinct key begins where the row says.
fn has_firsts(alloc: Global, keys: &Keys, row: &Row) -> Result<bool, NoMemory> {
    let distinct = keys.distinct(alloc)?.len();
    let count = keys.distinct_count();
    if distinct != count as usize || count as usize >= row.firsts.len() {
        return Ok(false);
    }
    for j in 0..=count {
        if keys.first(j) != row.firsts[j as usize] {
            return Ok(false);
        }
    }
    Ok(row.firsts.len() - 1 == distinct)
}

/// Whether the keys of a row have its file, its points and its firsts.
fn compared<R: Abort + AllocGlobal>(rt: &R, row: &Row) -> Result<(bool, bool, bool), NoMemory> {
    let keys = keys_of(rt, row.keys)?;
    let points = has_points(rt.alloc(), &keys, row)?;
    let firsts = has_firsts(rt.alloc(), &keys, row)?;
    Ok((has_file(&keys, row), points, firsts))
}

#[test]
fn points(rt: HostRuntime) -> Result<(), NoMemory> {
    for row in &ROWS {
        let (file, points, firsts) = compared(&rt, row)?;
        expect_of(&rt, "file", row.keys, file);
        expect_of(&rt, "points", row.keys, points);
        expect_of(&rt, "firsts", row.keys, firsts);
    }
    Ok(())
}
