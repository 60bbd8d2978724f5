// The walk over the cells of sorted codes, the nearer ones first.
ghost use Rattle.std.specs.Prelude.{◌≡◌, ◌<◌, ◌≤◌, All, length, slice_index};
ghost use Rattle.std.specs.List.Sorted.{IsNonDecreasing};
ghost use Rattle.zorder.specs.Codes.{IsCode, IsDimension};
ghost use Rattle.near.specs.Around.{distance};
ghost use Rattle.near.specs.Kept.{AreKept, IsHeapFrom};
ghost use Rattle.near.specs.Nearest.{pairs_of};

use crate::around::distance_from;
use crate::cells::cell_distance;
use crate::kept::{keep, stands_before};

/// How many codes are gone through one by one. They are two lines of the cache.
const FEW: usize = 16;

/// Keeps the nearest of the points kept and those of sorted codes, none of which is nearer than
/// `away`.
pub fn keep_nearest(d: u32, centre: &[u32; 4], codes: &[u64], away: u32, kept: &mut [(u32, u64)])
    requires dimension { IsDimension d }
    requires each { All (IsCode d) codes.now }
    requires never_falls { IsNonDecreasing codes.now }
    requires away { All (λ z. away ≤ distance d centre.now z) codes.now }
    requires some { 0 < length kept.old }
    requires heap { IsHeapFrom 0 kept.old }
    ensures kept { AreKept kept.old (pairs_of d centre.now codes.now) kept.new }
    ensures heap { IsHeapFrom 0 kept.new }
{
    if codes.is_empty() {
        return;
    }
    if !stands_before((away, codes[0]), kept[0]) {
        return;
    }
    if codes.len() <= FEW {
        keep_each(d, centre, codes, kept);
        return;
    }
    if codes[0] == codes[codes.len() - 1] {
        keep_equal(d, centre, codes, kept);
        return;
    }
    let (left, right) = codes.split_at(cut(codes));
    let left_away = stretch_distance(d, centre, left);
    let right_away = stretch_distance(d, centre, right);
    if left_away <= right_away {
        keep_nearest(d, centre, left, left_away, kept);
        keep_nearest(d, centre, right, right_away, kept);
    } else {
        keep_nearest(d, centre, right, right_away, kept);
        keep_nearest(d, centre, left, left_away, kept);
    }
}

/// Goes through all points of codes.
fn keep_each(d: u32, centre: &[u32; 4], codes: &[u64], kept: &mut [(u32, u64)])
    requires dimension { IsDimension d }
    requires each { All (IsCode d) codes.now }
    requires some { 0 < length kept.old }
    requires heap { IsHeapFrom 0 kept.old }
    ensures kept { AreKept kept.old (pairs_of d centre.now codes.now) kept.new }
    ensures heap { IsHeapFrom 0 kept.new }
{
    for code in codes {
        keep(kept, (distance_from(d, centre, *code), *code));
    }
}

/// Goes through points of equal codes, up to the first that isn't kept.
fn keep_equal(d: u32, centre: &[u32; 4], codes: &[u64], kept: &mut [(u32, u64)])
    requires dimension { IsDimension d }
    requires each { All (IsCode d) codes.now }
    requires equal { All (λ z. z ≡ slice_index codes.now 0) codes.now }
    requires some { 0 < length kept.old }
    requires heap { IsHeapFrom 0 kept.old }
    ensures kept { AreKept kept.old (pairs_of d centre.now codes.now) kept.new }
    ensures heap { IsHeapFrom 0 kept.new }
{
    for code in codes {
        let pair = (distance_from(d, centre, *code), *code);
        if !stands_before(pair, kept[0]) {
            return;
        }
        keep(kept, pair);
    }
}

/// Where sorted codes are cut in two: where the highest bit in which they differ becomes 1.
fn cut(codes: &[u64]) -> usize
    requires { 2 ≤ length codes.now }
    ensures left { 0 < result }
    ensures right { result < length codes.now }
{
    let last = codes[codes.len() - 1];
    let bit = 63 - (codes[0] ^ last).leading_zeros().min(63);
    let border = last >> bit << bit;
    let place = codes.partition_point(|code| *code < border);
    place.max(1).min(codes.len() - 1)
}

/// How far a centre is from the least cell of sorted codes.
fn stretch_distance(d: u32, centre: &[u32; 4], codes: &[u64]) -> u32
    requires dimension { IsDimension d }
    requires some { 0 < length codes.now }
    requires each { All (IsCode d) codes.now }
    requires never_falls { IsNonDecreasing codes.now }
    ensures { All (λ z. result ≤ distance d centre.now z) codes.now }
{
    cell_distance(d, centre, codes[0], codes[codes.len() - 1])
}
