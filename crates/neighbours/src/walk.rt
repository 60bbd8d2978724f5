// The walk over the cells of sorted codes, the nearer ones first.
ghost use Rattle.std.specs.Prelude.{◌≡◌, ◌+◌, ◌<◌, ◌≤◌, ◌^◌, All, length, slice_index};
ghost use Rattle.neighbours.specs.Chosen.{AreStillKept, IsHeap};
ghost use Rattle.neighbours.specs.Metrics.{AreInOrder, far};
ghost use Rattle.neighbours.specs.Neighbours.{neighbours_from};

use crate::heap::keep;
use crate::{Centre, Metric, Neighbour};

/// How many codes are gone through one by one. They are two lines of the cache.
const FEW: usize = 16;

/// Keeps the nearest of the places kept and those of a stretch of codes, which begins at the place
/// `first`. If the codes are in order, none is nearer than `away`.
///
/// Codes in order differ in fewer bits than `bits`, and each half of them in fewer still: so a walk
/// is at most 64 cuts deep, in any codes.
pub fn keep_nearest<M: Metric>(
    centre: &Centre,
    codes: &[u64],
    first: usize,
    bits: u32,
    away: u128,
    kept: &mut [Neighbour],
)
    requires within { first + length codes.now < 2 ^ 64 }
    requires away { AreInOrder centre.now.d codes.now
        → All (λ z. away ≤ far M.step centre.now.d centre.now.coords z) codes.now }
    requires some { 0 < length kept.old }
    requires heap { IsHeap 0 kept.old }
    ensures kept { AreStillKept (AreInOrder centre.now.d codes.now) kept.old
        (neighbours_from (far M.step centre.now.d centre.now.coords) first codes.now) kept.new }
    ensures heap { IsHeap 0 kept.new }
{
    if codes.is_empty() {
        return;
    }
    if !Neighbour::new(away, first).stands_before(kept[0]) {
        return;
    }
    if codes[0] == codes[codes.len() - 1] {
        keep_equal::<M>(centre, codes, first, kept);
        return;
    }
    let differing = 64 - (codes[0] ^ codes[codes.len() - 1]).leading_zeros();
    if codes.len() <= FEW || bits <= differing {
        keep_each::<M>(centre, codes, first, kept);
        return;
    }
    let middle = cut(codes);
    let (left, right) = codes.split_at(middle);
    let left_away = stretch_distance::<M>(centre, left);
    let right_away = stretch_distance::<M>(centre, right);
    if left_away <= right_away {
        keep_nearest::<M>(centre, left, first, differing, left_away, kept);
        keep_nearest::<M>(centre, right, first + middle, differing, right_away, kept);
    } else {
        keep_nearest::<M>(centre, right, first + middle, differing, right_away, kept);
        keep_nearest::<M>(centre, left, first, differing, left_away, kept);
    }
}

/// Goes through all places of codes.
fn keep_each<M: Metric>(centre: &Centre, codes: &[u64], first: usize, kept: &mut [Neighbour])
    requires within { first + length codes.now < 2 ^ 64 }
    requires some { 0 < length kept.old }
    requires heap { IsHeap 0 kept.old }
    ensures kept { AreStillKept (AreInOrder centre.now.d codes.now) kept.old
        (neighbours_from (far M.step centre.now.d centre.now.coords) first codes.now) kept.new }
    ensures heap { IsHeap 0 kept.new }
{
    for i in 0..codes.len() {
        let one = Neighbour::new(centre.distance::<M>(codes[i]), first + i);
        keep(kept, one);
    }
}

/// Goes through the places of codes that are equal if they are in order, up to the first that isn't
/// kept.
fn keep_equal<M: Metric>(centre: &Centre, codes: &[u64], first: usize, kept: &mut [Neighbour])
    requires within { first + length codes.now < 2 ^ 64 }
    requires equal { AreInOrder centre.now.d codes.now
        → All (λ z. z ≡ slice_index codes.now 0) codes.now }
    requires some { 0 < length kept.old }
    requires heap { IsHeap 0 kept.old }
    ensures kept { AreStillKept (AreInOrder centre.now.d codes.now) kept.old
        (neighbours_from (far M.step centre.now.d centre.now.coords) first codes.now) kept.new }
    ensures heap { IsHeap 0 kept.new }
{
    for i in 0..codes.len() {
        let one = Neighbour::new(centre.distance::<M>(codes[i]), first + i);
        if !one.stands_before(kept[0]) {
            return;
        }
        keep(kept, one);
    }
}

/// Where sorted codes are cut in two: where the highest bit in which they differ becomes 1.
fn cut(codes: &[u64]) -> usize
    requires { 2 ≤ length codes.now }
    ensures left { 0 < result }
    ensures right { result < length codes.now }
{
    let last = codes[codes.len() - 1];
    let bit = 63 - (codes[0] ^ last).leading_zeros().min(63);
    let border = last >> bit << bit;
    let place = codes.partition_point(|code| *code < border);
    place.max(1).min(codes.len() - 1)
}

/// How far a centre is from the least cell of sorted codes.
fn stretch_distance<M: Metric>(centre: &Centre, codes: &[u64]) -> u128
    requires some { 0 < length codes.now }
    ensures { AreInOrder centre.now.d codes.now
        → All (λ z. result ≤ far M.step centre.now.d centre.now.coords z) codes.now }
{
    centre.cell_distance::<M>(codes[0], codes[codes.len() - 1])
}
