// The next code in a region.
ghost use Rattle.std.specs.Prelude.{◌<◌, max, IfSome, IfNone};
ghost use Rattle.zorder.specs.Codes.{IsCode, IsDimension};
ghost use Rattle.zorder.specs.Regions.{IsEmpty, IsRegion};
ghost use Rattle.bigmin.specs.Openings.{IsLeastFrom};
ghost use Rattle.bigmin.specs.NextBetween.{AreOrdered, IsNextBetween, HasNoneBetween};
ghost use Rattle.bigmin.specs.NextInBox.{IsNextInBox, HasNoNext};

use crate::openings::lowest_opening;
use zorder::{Corners, Region, dilated_coordinate, is_empty};

/// The least code above `z` that is inside the region (BIGMIN), or `None` where there is none.
///
/// The region's `d` is from 2 to 4 and its intervals' ends are in the coordinates' range; `z` is a
/// code of `d` coordinates, inside the region or not. An empty region has none. Takes some steps
/// for each coordinate, and none for a code or a bit; takes no memory.
/// Source: Tropf and Herzog, Angewandte Informatik 2/1981.
pub fn next_in_box(z: u64, region: &Region) -> Option<u64>
    requires region { IsRegion region.now }
    requires code { IsCode region.now.d z }
    ensures next { IfSome result (IsNextInBox region.now z) }
    ensures none { IfNone result (HasNoNext region.now z) }
{
    if is_empty(region) {
        return None;
    }
    next_by_corners(z, &Corners::of(region))
}

/// The least code above `z` that is inside the region of these corners, or `None` where there is
/// none, for a caller that jumps often in one region and made its corners once.
///
/// `z` may be any number, and the region isn't empty. Takes some steps for each coordinate; takes
/// no memory.
/// Source: Tropf and Herzog, Angewandte Informatik 2/1981.
pub fn next_by_corners(z: u64, corners: &Corners) -> Option<u64>
    requires some_inside { ¬ IsEmpty corners.now.region }
    ensures next { IfSome result (IsNextInBox corners.now.region z) }
    ensures none { IfNone result (HasNoNext corners.now.region z) }
{
    let low = corners.low();
    let high = corners.high();
    match corners.region.d {
        2 => next_between(2, z, low, high),
        3 => next_between(3, z, low, high),
        _ => next_between(4, z, low, high),
    }
}

/// The least number above `z` that lies between two others, coordinate by coordinate. Where `d` is
/// a literal, no loop is left.
#[inline(always)]
fn next_between(d: u32, z: u64, low: u64, high: u64) -> Option<u64>
    requires { IsDimension d }
    ensures next { IfSome result
        (λ next. AreOrdered d low high → IsNextBetween d low high z next) }
    ensures none { IfNone result (HasNoneBetween d low high z) }
{
    match lowest_opening(d, z, low, high) {
        None => None,
        // The bits of `z` above the place, a one there, and the least bits below.
        Some(place) => Some(least_from(d, ((z >> place) | 1) << place, low)),
    }
}

/// The code whose coordinates are each the greater of those of two codes.
#[inline(always)]
fn least_from(d: u32, first: u64, low: u64) -> u64
    requires { IsDimension d }
    ensures { IsLeastFrom d first low result }
{
    let mut code = 0;
    for c in 0..d {
        code |= dilated_coordinate(d, c, first).max(dilated_coordinate(d, c, low));
    }
    code
}
