// The search for the nearest points.
ghost use Rattle.std.specs.Prelude.{◌≡◌, ◌+◌, ◌<◌, ◌≤◌, ℕ, List, All, length, min};
ghost use Rattle.std.specs.Prelude.{slice_index, vec_capacity, vec_len, IfOk};
ghost use Rattle.std.specs.List.{slice_range};
ghost use Rattle.zorder.specs.Codes.{IsCode, IsDimension, IsInRange};
ghost use Rattle.boxes.specs.PointCodes.{AreCodes};
ghost use Rattle.near.specs.Around.{distance};
ghost use Rattle.near.specs.Kept.{AreFirst, HasBits, rank};
ghost use Rattle.near.specs.Nearest.{AreBoxes, AreNearest, IsNear, NearAnswer, pairs_of};

use crate::Near;
use crate::around::{distance_from, region_around};
use crate::kept::make_heap;
use crate::walk::keep_nearest;
use boxes::Boxes;
use budget::NoMemory;
use std::alloc::Global;
use zorder::{Corners, encode};

/// The `k` points that are nearest to a centre, or all where there are fewer, and in how many boxes
/// they are found.
///
/// How far a point is from the centre is the greatest difference of a coordinate. Of points that
/// are equally far the lesser code comes first, and equal points come as often as they are there.
/// The centre begins with [`Boxes::dims`] coordinates in their range; the unused ones don't count.
///
/// The boxes are those of what is within 0, 1, 3, 7, .. of the centre, up to the first that has as
/// many points as the answer; they are at most 33.
///
/// # Errors
///
/// `NoMemory` alone, before the search. The answer keeps 16 bytes for each of its points.
pub fn nearest(alloc: Global, boxes: &Boxes, centre: &[u32; 4], k: u32) -> Result<Near, NoMemory>
    requires centre { IsInRange boxes.now.dims centre.now }
    ensures points { IfOk result
        (λ near. AreNearest boxes.now.dims centre.now boxes.now.codes k near.points) }
    ensures boxes { IfOk result (λ near. AreBoxes boxes.now.dims centre.now boxes.now.codes
        (length near.points) near.boxes) }
    ensures few { IfOk result (λ near. near.boxes ≤ 33) }
{
    let mut points = Vec::with_capacity(alloc, room_for(boxes, centre, k))?;
    let count = nearest_into(boxes, centre, k, &mut points);
    Ok(Near::new(points, count))
}

/// How much room [`nearest_into`] asks for: how many points the answer has, `k` or all where they
/// are fewer. It is the same for every centre.
///
/// Cannot fail and takes no memory.
pub fn room_for(boxes: &Boxes, centre: &[u32; 4], k: u32) -> usize
    ensures room { result ≡ min (length boxes.now.codes) k }
    ensures answered { (answer : NearAnswer)
        × IsNear boxes.now.dims centre.now boxes.now.codes k answer }
{
    boxes.codes().len().min(k as usize)
}

/// Finds what [`nearest`] finds, in room made before: what was in the vector is dropped, and it
/// gets the points. Gives the number of boxes.
///
/// The vector has room for as many as [`room_for`] says. The other condition is that of
/// [`nearest`]. Cannot fail and takes no memory.
pub fn nearest_into(boxes: &Boxes, centre: &[u32; 4], k: u32, points: &mut Vec<(u32, u64)>) -> u32
    requires centre { IsInRange boxes.now.dims centre.now }
    requires room { min (length boxes.now.codes) k ≤ vec_capacity points.old }
    ensures points { AreNearest boxes.now.dims centre.now boxes.now.codes k points.new.items }
    ensures boxes { AreBoxes boxes.now.dims centre.now boxes.now.codes
        (length points.new.items) result }
    ensures few { result ≤ 33 }
    ensures capacity { vec_capacity points.old ≤ vec_capacity points.new }
{
    points.clear();
    let found = boxes.codes().len().min(k as usize);
    if found == 0 {
        return 0;
    }
    fill_nearest(boxes, centre, found, points);
    points.sort_unstable();
    box_count(points[found - 1].0)
}

/// In how many boxes the points up to a distance are found: one more than the distance has bits.
fn box_count(distance: u32) -> u32
    ensures bits { (i : ℕ) × (result ≡ 1 + i) × HasBits distance i }
    ensures few { result ≤ 33 }
{
    33 - distance.leading_zeros()
}

/// Fills an empty vector with so many nearest points, in any order.
fn fill_nearest(boxes: &Boxes, centre: &[u32; 4], found: usize, points: &mut Vec<(u32, u64)>)
    requires centre { IsInRange boxes.now.dims centre.now }
    requires some { 0 < found }
    requires enough { found ≤ length boxes.now.codes }
    requires empty { vec_len points.old ≡ 0 }
    requires room { found ≤ vec_capacity points.old }
    ensures first { AreFirst (pairs_of boxes.now.dims centre.now boxes.now.codes)
        points.new.items }
    ensures len { vec_len points.new ≡ found }
    ensures capacity { vec_capacity points.old ≤ vec_capacity points.new }
{
    let d = boxes.dims();
    let codes = boxes.codes();
    let place = boxes.lower_bound(encode(d, centre));
    let from = place.saturating_sub(found / 2).min(codes.len() - found);
    let to = from + found;
    fill_distances(d, centre, &codes[from..to], points);
    keep_nearest_of_all(boxes, centre, from, to, points);
}

/// Keeps as many of all points as there are codes between two places, whose pairs are given.
///
/// Those are within some distance of the centre, so the nearest points are too.
fn keep_nearest_of_all(
    boxes: &Boxes,
    centre: &[u32; 4],
    from: usize,
    to: usize,
    kept: &mut [(u32, u64)],
)
    requires centre { IsInRange boxes.now.dims centre.now }
    requires order { from < to }
    requires within { to ≤ length boxes.now.codes }
    requires kept { kept.old
        ≡ pairs_of boxes.now.dims centre.now (slice_range boxes.now.codes from to) }
    ensures first { AreFirst (pairs_of boxes.now.dims centre.now boxes.now.codes) kept.new }
{
    let d = boxes.dims();
    let codes = boxes.codes();
    make_heap(kept);
    let (first, last) = places_within(boxes, centre, kept[0]);
    let before = &codes[..from];
    let behind = &codes[to..];
    keep_nearest(d, centre, &before[first.min(from)..], 0, kept);
    keep_nearest(d, centre, &behind[..last.max(to) - to], 0, kept);
}

/// Two places of the codes, such that no point before the first or from the second on stands before
/// a pair: it is outside the box of what is as near.
fn places_within(boxes: &Boxes, centre: &[u32; 4], pair: (u32, u64)) -> (usize, usize)
    requires centre { IsInRange boxes.now.dims centre.now }
    ensures before { (k : ℕ) → k < result.0 → rank pair ≤ rank (
      distance boxes.now.dims centre.now (slice_index boxes.now.codes k),
      slice_index boxes.now.codes k,
    ) }
    ensures behind { (k : ℕ) → result.1 ≤ k → k < length boxes.now.codes → rank pair ≤ rank (
      distance boxes.now.dims centre.now (slice_index boxes.now.codes k),
      slice_index boxes.now.codes k,
    ) }
    ensures within { result.1 ≤ length boxes.now.codes }
{
    let codes = boxes.codes();
    let corners = Corners::of(&region_around(boxes.dims(), centre, pair.0));
    let first = boxes.lower_bound(corners.low());
    let highest = corners.high();
    if highest == u64::MAX {
        return (first, codes.len());
    }
    (first, boxes.lower_bound(highest + 1))
}

/// Fills a vector with codes, each with the distance of its point from a centre.
fn fill_distances(d: u32, centre: &[u32; 4], codes: &[u64], pairs: &mut Vec<(u32, u64)>)
    requires dimension { IsDimension d }
    requires each { All (λ z. IsCode d z) codes.now }
    requires empty { vec_len pairs.old ≡ 0 }
    requires room { length codes.now ≤ vec_capacity pairs.old }
    ensures pairs { pairs.new.items ≡ pairs_of d centre.now codes.now }
    ensures capacity { vec_capacity pairs.old ≤ vec_capacity pairs.new }
{
    for code in codes {
        pairs
            .push((distance_from(d, centre, *code), *code))
            .unwrap();
    }
}

/// A centre has one list of nearest points among codes, and one number of boxes. It does nothing.
pub fn one_answer()
    ensures points { (d k : ℕ) (centre codes : List ℕ) (one two : List (ℕ × ℕ))
        → AreCodes d codes → AreNearest d centre codes k one → AreNearest d centre codes k two
        → one ≡ two }
    ensures boxes { (d found : ℕ) (centre codes : List ℕ) (one two : ℕ)
        → AreBoxes d centre codes found one → AreBoxes d centre codes found two → one ≡ two }
{}
