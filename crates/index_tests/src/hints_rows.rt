//! Hints that are made of keys, each worked out by a program in another language.
use hints::{hints_of, told};
use std::alloc::{AllocError, Global};
use std::process::Abort;

/// Keys and ε, and their hints.
struct Row<'a> {
    keys: &'a [u64],
    eps: u32,
    hints: &'a [u64],
}

/// `KBQHINT1`.
const FORMAT: u64 = 3_554_552_082_555_028_043;

const LAST: u64 = u64::MAX;

/// Two lines and a table, a key that repeats, both ends of 64 bits, no key, and lines that are ε
/// off, whose middle isn't.
static ROWS: [Row; 5] = [
    Row {
        keys: &[0, 1, 2, 10],
        eps: 0,
        hints: &[FORMAT, 0, 2, 3, 2, 0, 0, 1, 1, 0, 8, 3, 10, 0, 385],
    },
    Row {
        keys: &[7, 7, 7, 9],
        eps: 0,
        hints: &[FORMAT, 0, 2, 3, 0, 7, 0, 1, 1, 7, 12, 2, 9, 0, 385],
    },
    Row {
        keys: &[0, LAST],
        eps: 0,
        hints: &[FORMAT, 0, 1, 1, 0, 0, 0, 0, 4, 65],
    },
    Row {
        keys: &[],
        eps: 3,
        hints: &[FORMAT, 3, 0, 0, 0, 0],
    },
    Row {
        keys: &[5, 6, 7],
        eps: 1,
        hints: &[FORMAT, 1, 1, 1, 0, 5, 0, 5, 8, 131],
    },
];

#[test]
fn hints_of_keys(rt: HostRuntime) {
    for row in &ROWS {
        assert!(rt; row.eps <= 1_048_576);
        let Ok(hints) = hints_of(rt.alloc(), row.keys, row.eps) else {
            panic!(rt; "no hints");
        };
        assert_eq!(rt; hints.as_slice(), row.hints);
    }
}

/// Stretches of `count` keys at even steps, each so far behind the one before it.
fn stretches(alloc: Global, count: u64, step: u64, gap: u64) -> Result<Vec<u64>, AllocError> {
    let mut keys = Vec::new(alloc);
    let mut key = 10u64;
    for _ in 0..4u64 {
        for _ in 0..count {
            keys.push(key)?;
            key = key.wrapping_add(step);
        }
        key = key.wrapping_add(gap);
    }
    Ok(keys)
}

/// Expects that each key is told exactly.
fn expect_exact<R: AllocGlobal + Abort>(rt: &R, keys: &[u64], eps: u32) {
    assert!(rt; eps <= 1_048_576);
    let Ok(hints) = hints_of(rt.alloc(), keys, eps) else {
        panic!(rt; "no hints");
    };
    for place in 0..keys.len() {
        assert_eq!(rt; told(&hints, keys.len(), keys[place]), place);
    }
}

/// One stretch, whatever the error bound: ids, tens, minutes, and steps of 2^40.
#[test]
fn a_stretch_is_told_exactly(rt: HostRuntime) -> Result<(), AllocError> {
    for step in [1u64, 10, 60, 1 << 40] {
        let keys = stretches(rt.alloc(), 25, step, 0)?;
        for eps in [0u32, 1, 4, 64] {
            expect_exact(&rt, &keys, eps);
        }
    }
    Ok(())
}

/// Ids with holes and minutes with gaps, where each stretch has a line of its own.
#[test]
fn stretches_with_holes_are_told_exactly(rt: HostRuntime) -> Result<(), AllocError> {
    for (step, gap) in [(1u64, 1u64), (1, 150), (60, 7), (60, 86_400)] {
        let keys = stretches(rt.alloc(), 25, step, gap)?;
        expect_exact(&rt, &keys, 0);
    }
    Ok(())
}
