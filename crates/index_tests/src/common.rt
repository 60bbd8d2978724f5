//! What the rows of several crates need.
ghost use Rattle.std.specs.Prelude.{◌≡◌, ◌<◌, IsTrue, length};
ghost use Rattle.std.specs.List.Sorted.{IsStrictlyIncreasing, IsNonDecreasing};

use budget::NoMemory;
use exact_cross::{MAX_EPSILON, PointList};
use key_points::is_sorted;
use levels::{Index, Keys};
use options::{Bounds, MAX_WORKERS, Workers};
use std::process::Abort;

/// Fewer than 1000 keys that never fall.
pub fn keys_of<R: Abort + AllocGlobal>(rt: &R, keys: &[u64]) -> Result<Keys, NoMemory> {
    assert!(rt; is_sorted(keys));
    assert!(rt; keys.len() < 1000);
    Ok(Keys::of(Vec::from_slice(rt.alloc(), keys)?))
}

/// The index of these keys, with the bound 0 above level 0.
pub fn index_of<R: Abort + AllocGlobal>(rt: &R, keys: &[u64], eps: u32) -> Result<Index, NoMemory> {
    assert!(rt; eps <= MAX_EPSILON);
    let bounds = Bounds { eps, eps_rec: 0 };
    Index::of(rt.alloc(), keys_of(rt, keys)?, bounds)
}

/// So many workers, from 1 to 64.
pub fn workers_of<R: Abort>(rt: &R, count: u32) -> Workers {
    assert!(rt; 1 <= count && count <= MAX_WORKERS);
    Workers { count }
}

/// Whether each x is below the next one.
pub fn rises(xs: &[u64]) -> bool
    ensures { IsTrue result → IsStrictlyIncreasing xs.now }
{
    for i in 1..xs.len() {
        if xs[i - 1] >= xs[i] {
            return false;
        }
    }
    true
}

/// Whether no y is below the one before it.
pub fn never_falls(ys: &[u32]) -> bool
    ensures { IsTrue result → IsNonDecreasing ys.now }
{
    for i in 1..ys.len() {
        if ys[i - 1] > ys[i] {
            return false;
        }
    }
    true
}

/// The x and the y of points.
pub type Points<'a> = (&'a [u64], &'a [u32]);

/// Fewer than 1000 points of these x and y, asserted to be such.
pub fn points_of<'a>(rt: &impl Abort, points: Points<'a>) -> PointList<'a>
    ensures xs { result.xs.now ≡ points.entry.0.now }
    ensures few { length points.entry.0.now < 1000 }
{
    let (xs, ys) = points;
    assert!(rt; ys.len() == xs.len() && xs.len() < 1000);
    assert!(rt; rises(xs));
    assert!(rt; never_falls(ys));
    PointList::new(xs, ys)
}

/// Fails with what was asked, where it wasn't answered as wanted.
pub fn expect<R: Abort>(rt: &R, name: &str, same: bool) {
    assert!(rt; same, "{name}");
}

/// Fails with what was asked of keys, where it wasn't answered as wanted.
pub fn expect_of<R: Abort>(rt: &R, name: &str, keys: &[u64], same: bool) {
    assert!(rt; same, "{name} of {keys:?}");
}

/// Fails with the keys, and the question among them that wasn't answered as wanted.
pub fn expect_none<R: Abort>(rt: &R, name: &str, keys: &[u64], wrong: Option<u64>) {
    assert!(rt; wrong.is_none(), "{name} of {keys:?}: {wrong:?}");
}

/// Fails with which of three answers aren't as wanted.
pub fn expect_answers<R: Abort>(rt: &R, name: &str, answers: [bool; 3]) {
    assert!(rt;
        answers[0] && answers[1] && answers[2],
        "{name}: {answers:?}"
    );
}

/// Whether the numbers found are those that are wanted.
pub fn are_same(found: &[u32], wanted: &[u32]) -> bool {
    found == wanted
}
