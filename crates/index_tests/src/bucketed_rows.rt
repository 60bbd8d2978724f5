//! Tables worked out by hand.
ghost use Rattle.std.specs.Prelude.{◌≡◌, ◌+◌, ◌<◌};
ghost use Rattle.std.specs.Prelude.{length};

use crate::common::{expect_none, expect_of, index_of};
use bucketed::Buckets;
use budget::NoMemory;
use levels::Index;
use options::MAX_BITS;
use std::alloc::Global;
use std::process::Abort;

/// The first question whose position is another one.
fn misplaced(buckets: &Buckets<'_>, asked: &[(u64, u32)]) -> Option<u64> {
    for (q, position) in asked {
        if buckets.position(*q) != *position {
            return Some(*q);
        }
    }
    None
}

/// Twenty questions, each of these as often as needed.
fn twenty(alloc: Global, asked: &[(u64, u32)]) -> Result<Vec<u64>, NoMemory>
    requires { 0 < length asked.now }
{
    let mut qs = Vec::new(alloc);
    for i in 0..20 {
        qs.push(asked[i % asked.len()].0)?;
    }
    Ok(qs)
}

/// Whether they have their positions.
fn are_placed(found: &[u32], asked: &[(u64, u32)]) -> bool
    requires { 0 < length asked.now }
{
    for (i, position) in found.iter().enumerate() {
        if *position != asked[i % asked.len()].1 {
            return false;
        }
    }
    found.len() == 20
}

/// Whether twenty questions that are asked together have their positions.
fn placed_together(
    alloc: Global,
    buckets: &Buckets<'_>,
    asked: &[(u64, u32)],
) -> Result<bool, NoMemory> {
    if asked.is_empty() {
        return Ok(false);
    }
    let qs = twenty(alloc, asked)?;
    let mut found = Vec::with_capacity(alloc, qs.len())?;
    buckets.positions(&qs, &mut found);
    Ok(are_placed(&found, asked))
}

/// The first question that a table of so many bits answers otherwise, and whether it answers
/// together.
fn compared<R: Abort + AllocGlobal>(
    rt: &R,
    index: &Index,
    bits: u32,
    asked: &[(u64, u32)],
) -> Result<(Option<u64>, bool), NoMemory> {
    assert!(rt; 1 <= bits && bits <= MAX_BITS);
    let buckets = Buckets::build(rt.alloc(), index, bits)?;
    let placed = placed_together(rt.alloc(), &buckets, asked)?;
    Ok((misplaced(&buckets, asked), placed))
}

/// Compares positions by tables of 1, 4 and 20 bits.
fn expect_positions<R: Abort + AllocGlobal>(rt: &R, row: &Row) -> Result<(), NoMemory> {
    let (keys, eps, asked) = *row;
    let index = index_of(rt, keys, eps)?;
    for bits in &[1, 4, MAX_BITS] {
        let (misplaced, placed) = compared(rt, &index, *bits, asked)?;
        expect_none(rt, "position", keys, misplaced);
        expect_of(rt, "positions together", keys, placed);
    }
    Ok(())
}

/// Keys, the error bound, and questions with their positions.
type Row = (&'static [u64], u32, &'static [(u64, u32)]);

const LAST: u64 = u64::MAX;

const HALF: u64 = 1 << 63;

static ROWS: [Row; 6] = [
    (&[], 0, &[(5, 0), (LAST, 0)]),
    (&[7], 0, &[(6, 0), (7, 0), (8, 1)]),
    (&[0, LAST], 1_048_576, &[(0, 0), (1, 1), (LAST, 1)]),
    (&[5, 5, 5, 9], 0, &[(4, 0), (6, 3), (10, 4)]),
    (&[LAST - 2, LAST - 2, LAST], 0, &[(LAST - 1, 2), (LAST, 2)]),
    (
        &[0, 1, HALF, HALF + 5, HALF + 6],
        0,
        &[(2, 2), (HALF - 1, 2), (HALF, 2), (HALF + 1, 3), (LAST, 5)],
    ),
];

const SQUARES: [u64; 6] = [0, 1, 4, 9, 16, 25];

/// The runs begin at 0, 4 and 16, all of them in the lowest of 16 buckets.
static ASKED_SQUARES: [(u64, u32); 5] = [(17, 5), (1 << 60, 6), (0, 0), (16, 4), (LAST, 6)];

/// Whether the squares' table has 0 in its first entry, and 3 in each other one.
fn has_entries(buckets: &Buckets<'_>) -> bool
    requires { buckets.now.bits ≡ 4 }
{
    for h in 1..17 {
        if buckets.entry(h) != 3 {
            return false;
        }
    }
    buckets.entry(0) == 0
}

/// Whether the squares' table has its entries, and the first question that it answers otherwise.
fn squares_compared<R: Abort + AllocGlobal>(rt: &R) -> Result<(bool, Option<u64>), NoMemory> {
    let index = index_of(rt, &SQUARES, 0)?;
    let buckets = Buckets::build(rt.alloc(), &index, 4)?;
    Ok((has_entries(&buckets), misplaced(&buckets, &ASKED_SQUARES)))
}

#[test]
fn squares(rt: HostRuntime) -> Result<(), NoMemory> {
    let (entries, misplaced) = squares_compared(&rt)?;
    expect_of(&rt, "entries", &SQUARES, entries);
    expect_none(&rt, "position", &SQUARES, misplaced);
    Ok(())
}

#[test]
fn any_bits(rt: HostRuntime) -> Result<(), NoMemory> {
    for row in &ROWS {
        expect_positions(&rt, row)?;
    }
    Ok(())
}
