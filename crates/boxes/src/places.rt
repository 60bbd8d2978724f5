// The places of a region's codes, in a list of codes that stays where it is.
ghost use Rattle.std.specs.Prelude.{◌≡◌, ◌+◌, ◌<◌, ◌≤◌, ℕ, ◌++◌, length, drop, slice_index};
ghost use Rattle.std.specs.List.{slice_range};
ghost use Rattle.std.specs.List.Sorted.{IsNonDecreasing};
ghost use Rattle.zorder.specs.Regions.{IsEmpty, IsInside};
ghost use Rattle.boxes.specs.BoxAnswers.{codes_inside};

use crate::walk::{NEAR, front_below, stretch_end};
use bigmin::next_by_corners;
use hints::position;
use std::ops::Range;
use zorder::{Corners, is_empty};

/// The next places, from one on, whose codes lie in a region, in a list of codes that stays where
/// it is. At the end of the list there are none.
///
/// Where the codes never fall these are all that stand side by side. So calls from 0 on, each from
/// the end of the one before, give all places of codes inside: each once, rising, in stretches none
/// of which is empty and no two of which touch. That holds whatever the hints are, which only lead
/// to where a jump over codes outside ends.
///
/// Nothing is asked of the codes either. Of codes that fall some stretches are given, each behind
/// the one before, and the end comes. Numbers that are no codes of so many coordinates lie in no
/// region. Cannot fail and takes no memory.
///
/// Source: Tropf and Herzog, Angewandte Informatik 2/1981.
pub fn next_places(codes: &[u64], hints: &[u64], corners: &Corners, from: usize) -> Range<usize>
    ensures within { (result.start ≤ result.end) × (result.end ≤ length codes.now) }
    ensures onwards { from ≤ length codes.now → from ≤ result.start }
    ensures ends { result.start < length codes.now → result.start < result.end }
    ensures behind { result.end < length codes.now
        → ¬ IsInside corners.now.region (slice_index codes.now result.end) }
    ensures skipped { IsNonDecreasing codes.now → (j : ℕ) → from ≤ j → j < result.start
        → ¬ IsInside corners.now.region (slice_index codes.now j) }
    ensures inside { IsNonDecreasing codes.now → (j : ℕ) → result.start ≤ j → j < result.end
        → IsInside corners.now.region (slice_index codes.now j) }
    ensures all { IsNonDecreasing codes.now → from ≤ length codes.now
        → codes_inside corners.now.region (drop from codes.now)
        ≡ slice_range codes.now result.start result.end
        ++ codes_inside corners.now.region (drop result.end codes.now) }
{
    if is_empty(&corners.region) {
        return codes.len()..codes.len();
    }
    let first = first_inside(codes, hints, corners, from);
    first..stretch_end(corners, codes, first)
}

/// How many codes lie in a region, in a list of codes that stays where it is.
///
/// The conditions are those of [`next_places`]; of codes that fall it is how many places some
/// stretches have. Cannot fail and takes no memory.
pub fn count_places(codes: &[u64], hints: &[u64], corners: &Corners) -> usize
    ensures found { IsNonDecreasing codes.now
        → result ≡ length (codes_inside corners.now.region codes.now) }
    ensures few { result ≤ length codes.now }
{
    let mut count = 0;
    let mut at = 0;
    while at < codes.len() {
        let places = next_places(codes, hints, corners, at);
        count += places.end - places.start;
        at = places.end;
    }
    count
}

/// The first place, from one on, whose code is inside, where the codes never fall.
fn first_inside(codes: &[u64], hints: &[u64], corners: &Corners, from: usize) -> usize
    requires some_inside { ¬ IsEmpty corners.now.region }
    ensures within { result ≤ length codes.now }
    ensures onwards { from ≤ length codes.now → from ≤ result }
    ensures found { result < length codes.now
        → IsInside corners.now.region (slice_index codes.now result) }
    ensures skipped { IsNonDecreasing codes.now → (j : ℕ) → from ≤ j → j < result
        → ¬ IsInside corners.now.region (slice_index codes.now j) }
{
    let mut at = from.min(codes.len());
    while at < codes.len() && !corners.inside(codes[at]) {
        at = place_past(codes, hints, corners, at);
    }
    at
}

/// A place behind a code outside such that, where the codes never fall, none before it is inside.
fn place_past(codes: &[u64], hints: &[u64], corners: &Corners, at: usize) -> usize
    requires some_inside { ¬ IsEmpty corners.now.region }
    requires here { at < length codes.now }
    requires outside { ¬ IsInside corners.now.region (slice_index codes.now at) }
    ensures onwards { at < result }
    ensures within { result ≤ length codes.now }
    ensures skipped { IsNonDecreasing codes.now → (j : ℕ) → at ≤ j → j < result
        → ¬ IsInside corners.now.region (slice_index codes.now j) }
{
    if at + 1 < codes.len() && corners.inside(codes[at + 1]) {
        return at + 1;
    }
    match next_by_corners(codes[at], corners) {
        None => codes.len(),
        Some(next) => place_of(codes, hints, at, next),
    }
}

/// A place behind another such that, where the codes never fall, those between are below a code.
fn place_of(codes: &[u64], hints: &[u64], at: usize, code: u64) -> usize
    requires here { at < length codes.now }
    ensures onwards { at < result }
    ensures within { result ≤ length codes.now }
    ensures below { IsNonDecreasing codes.now → (j : ℕ) → at < j → j < result
        → slice_index codes.now j < code }
{
    let end = codes.len().min(at + 1 + NEAR);
    if code <= codes[end - 1] {
        return at + 1 + front_below(&codes[at + 1..end], code);
    }
    if end == codes.len() {
        return end;
    }
    position(codes, hints, code).max(end)
}
