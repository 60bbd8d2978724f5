// The walk over the sorted codes from one stretch of codes inside a region to the next.
ghost use Rattle.std.specs.Prelude.{◌≡◌, ◌↔◌, ◌+◌, ◌<◌, ◌≤◌, ◌^◌, ℕ, ◌++◌, IsTrue};
ghost use Rattle.std.specs.Prelude.{length, drop, slice_index};
ghost use Rattle.std.specs.List.Sorted.{IsNonDecreasing};
ghost use Rattle.zorder.specs.Codes.{IsDimension};
ghost use Rattle.zorder.specs.Dilated.{IsBetween};
ghost use Rattle.zorder.specs.Regions.{IsEmpty, IsInside};
ghost use Rattle.bigmin.specs.NextBetween.{AreOrdered};
ghost use Rattle.window_search.specs.Searches.{lb};
ghost use Rattle.boxes.specs.BoxAnswers.{codes_inside, IsLookedAt};
ghost use Rattle.boxes.specs.Walks.{HasWalked};

use crate::Boxes;
use crate::cells::over_cells;
use bigmin::next_by_corners;
use zorder::{Corners, dilated_coordinate, is_empty};

/// How many places behind a code are looked through for the end of a jump, before the index or the
/// hints are asked. They are four lines of the cache side by side; a lookup reads as many, one
/// after the other.
pub const NEAR: usize = 32;

/// How many codes are tested one by one before whole cells of them are tried, and between.
const ONE_BY_ONE: usize = 16;

/// Where a walk over the sorted codes has come to.
#[derive(Clone, Copy)]
pub struct Walk {
    /// The next place that is to be looked at, or the number of codes where there is none.
    pub at: usize,
    /// At how many places before it was looked.
    pub looked: u64,
}

impl Boxes {
    /// A walk over the codes inside a region, which begins at the lower bound of the low corner's
    /// code. Over an empty region it is at its end.
    ///
    /// It is for a caller that needs no list of them: until the walk is at the number of codes,
    /// [`Boxes::next_stretch`] gives the next ones where they stand. The region has as many
    /// coordinates as the points. Cannot fail and takes no memory.
    pub fn walk(&self, corners: &Corners) -> Walk
        requires dims { corners.now.region.d ≡ self.now.dims }
        ensures walked { HasWalked corners.now.region self.now.codes result.at result.looked }
        ensures all { codes_inside corners.now.region (drop result.at self.now.codes)
            ≡ codes_inside corners.now.region self.now.codes }
        ensures few { length self.now.codes < 2 ^ 32 }
    {
        let codes = self.codes();
        if is_empty(&corners.region) {
            let at = codes.len();
            return Walk { at, looked: 0 };
        }
        let at = self.lower_bound(corners.low());
        Walk { at, looked: 0 }
    }

    /// The codes inside the region that stand side by side from the walk's place on; there may be
    /// none. The walk goes behind them, and over those outside that follow.
    ///
    /// The walk is not at its end, and is one over this region. Cannot fail and takes no memory.
    pub fn next_stretch(&self, corners: &Corners, walk: &mut Walk) -> &[u64]
        requires dims { corners.now.region.d ≡ self.now.dims }
        requires here { walk.old.at < length self.now.codes }
        requires walked { HasWalked corners.now.region self.now.codes walk.old.at walk.old.looked }
        ensures walked { HasWalked corners.now.region self.now.codes walk.new.at walk.new.looked }
        ensures found { codes_inside corners.now.region (drop walk.old.at self.now.codes)
            ≡ result.now ++ codes_inside corners.now.region (drop walk.new.at self.now.codes) }
        ensures onwards { walk.old.at < walk.new.at }
        ensures few { walk.old.at + length result.now ≤ walk.new.at }
    {
        let codes = self.codes();
        let at = walk.at;
        let end = stretch_end(corners, codes, at);
        let looked = walk.looked + (end - at) as u64;
        *walk = self.over_outside(corners, Walk { at: end, looked });
        &codes[at..end]
    }

    /// A walk that is at a code outside, or at its end, when it has gone over what is outside.
    fn over_outside(&self, corners: &Corners, walk: Walk) -> Walk
        requires dims { corners.now.region.d ≡ self.now.dims }
        requires walked { HasWalked corners.now.region self.now.codes walk.at walk.looked }
        requires outside { walk.at < length self.now.codes
            → ¬ IsInside corners.now.region (slice_index self.now.codes walk.at) }
        ensures walked { HasWalked corners.now.region self.now.codes result.at result.looked }
        ensures same { codes_inside corners.now.region (drop walk.at self.now.codes)
            ≡ codes_inside corners.now.region (drop result.at self.now.codes) }
        ensures onwards { walk.at < length self.now.codes → walk.at < result.at }
        ensures not_back { walk.at ≤ result.at }
    {
        let codes = self.codes();
        if walk.at >= codes.len() {
            return walk;
        }
        let at = self.jump(corners, walk.at);
        let looked = walk.looked + 1;
        Walk { at, looked }
    }

    /// The place that is to be looked at after a code outside, or the end of the codes.
    fn jump(&self, corners: &Corners, at: usize) -> usize
        requires dims { corners.now.region.d ≡ self.now.dims }
        requires some_inside { ¬ IsEmpty corners.now.region }
        requires here { at < length self.now.codes }
        requires outside { ¬ IsInside corners.now.region (slice_index self.now.codes at) }
        ensures onwards { at < result }
        ensures within { result ≤ length self.now.codes }
        ensures skipped { (j : ℕ) → at < j → j < result
            → ¬ IsLookedAt corners.now.region self.now.codes j }
        ensures due { result < length self.now.codes
            → IsLookedAt corners.now.region self.now.codes result }
    {
        let codes = self.codes();
        let z = codes[at];
        if z > corners.high() {
            return codes.len();
        }
        if at + 1 < codes.len() && corners.inside(codes[at + 1]) {
            return at + 1;
        }
        match next_by_corners(z, corners) {
            None => codes.len(),
            Some(next) => self.lower_bound_past(at, next),
        }
    }

    /// The lower bound of a code that is above the one at a place.
    fn lower_bound_past(&self, at: usize, code: u64) -> usize
        requires here { at < length self.now.codes }
        requires above { slice_index self.now.codes at < code }
        ensures { result ≡ lb self.now.codes code }
    {
        let codes = self.codes();
        let end = codes.len().min(at + 1 + NEAR);
        if code <= codes[end - 1] {
            return at + 1 + front_below(&codes[at + 1..end], code);
        }
        if end == codes.len() {
            return end;
        }
        self.lower_bound(code)
    }
}

/// How many numbers are below another one. Where they never fall those stand in front.
///
/// All are counted: a branch on where the first other one stands is mispredicted half of the time.
#[inline(always)]
pub fn front_below(numbers: &[u64], least: u64) -> usize
    ensures within { result ≤ length numbers.now }
    ensures below { IsNonDecreasing numbers.now → (k : ℕ) → k < result
        → slice_index numbers.now k < least }
    ensures from { IsNonDecreasing numbers.now → result < length numbers.now
        → least ≤ slice_index numbers.now result }
{
    let mut count = 0usize;
    for number in numbers {
        count += usize::from(*number < least);
    }
    count
}

/// The end of the codes inside a region that stand side by side from a place on, where the codes
/// never fall. In any codes it is a place from there on whose code isn't inside, or the end.
pub fn stretch_end(corners: &Corners, codes: &[u64], at: usize) -> usize
    requires some_inside { ¬ IsEmpty corners.now.region }
    requires here { at ≤ length codes.now }
    ensures onwards { at ≤ result }
    ensures within { result ≤ length codes.now }
    ensures inside { IsNonDecreasing codes.now → (j : ℕ) → at ≤ j → j < result
        → IsInside corners.now.region (slice_index codes.now j) }
    ensures outside { result < length codes.now
        → ¬ IsInside corners.now.region (slice_index codes.now result) }
{
    let low = corners.low();
    let high = corners.high();
    match corners.region.d {
        2 => between_until(2, low, high, codes, at),
        3 => between_until(3, low, high, codes, at),
        _ => between_until(4, low, high, codes, at),
    }
}

/// The first place from one on whose code doesn't lie between two others, coordinate by coordinate,
/// or the end. Some are tested one by one, then cells of them are passed whole, and so on.
#[inline(always)]
fn between_until(d: u32, low: u64, high: u64, codes: &[u64], at: usize) -> usize
    requires dimension { IsDimension d }
    requires ordered { AreOrdered d low high }
    requires here { at ≤ length codes.now }
    ensures onwards { at ≤ result }
    ensures within { result ≤ length codes.now }
    ensures between { IsNonDecreasing codes.now → (j : ℕ) → at ≤ j → j < result
        → IsBetween d low high (slice_index codes.now j) }
    ensures not { result < length codes.now
        → ¬ IsBetween d low high (slice_index codes.now result) }
{
    let mut place = at;
    while codes.len() - place > ONE_BY_ONE {
        let limit = place + ONE_BY_ONE;
        let end = between_before(d, low, high, codes, place, limit);
        if end < limit {
            return end;
        }
        place = over_cells(d, low, high, codes, end);
    }
    between_before(d, low, high, codes, place, codes.len())
}

/// The first place from one on, and before a limit, whose code doesn't lie between two others,
/// coordinate by coordinate, or the limit.
#[inline(always)]
fn between_before(d: u32, low: u64, high: u64, codes: &[u64], at: usize, limit: usize) -> usize
    requires dimension { IsDimension d }
    requires ordered { AreOrdered d low high }
    requires here { at ≤ limit }
    requires within { limit ≤ length codes.now }
    ensures onwards { at ≤ result }
    ensures within { result ≤ limit }
    ensures between { (j : ℕ) → at ≤ j → j < result
        → IsBetween d low high (slice_index codes.now j) }
    ensures not { result < limit → ¬ IsBetween d low high (slice_index codes.now result) }
{
    for place in at..limit {
        if !is_within(d, low, high, codes[place]) {
            return place;
        }
    }
    limit
}

/// Whether a number lies between two others, none of whose coordinates is out of order. It is one
/// comparison a coordinate, of distances from the lower end, and there is no branch.
#[inline(always)]
pub fn is_within(d: u32, low: u64, high: u64, z: u64) -> bool
    requires dimension { IsDimension d }
    requires ordered { AreOrdered d low high }
    ensures { IsTrue result ↔ IsBetween d low high z }
{
    let mut within = true;
    for c in 0..d {
        let least = dilated_coordinate(d, c, low);
        let width = dilated_coordinate(d, c, high).wrapping_sub(least);
        within &= dilated_coordinate(d, c, z).wrapping_sub(least) <= width;
    }
    within
}
