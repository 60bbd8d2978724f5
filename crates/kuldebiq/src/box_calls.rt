// The places of a region's codes, in a list of codes that stays where it is.
ghost use Rattle.std.specs.Prelude.{◌≡◌, ◌≢◌, ◌-◌, ◌<◌, ◌≤◌, ℕ, length, slice_index};
ghost use Rattle.std.specs.Option.{MatchOption};
ghost use Rattle.std.specs.List.Sorted.{IsNonDecreasing};
ghost use Rattle.zorder.specs.Codes.{IsDimension};
ghost use Rattle.zorder.specs.Regions.{IsInside};
ghost use Rattle.kuldebiq.specs.Answers.{gives, refuses, IsDone};
ghost use Rattle.kuldebiq.specs.Points.{region_of, AreRegion, HasInterval, IsFirstWithout};

use crate::answer::{Answer, DIMS_OUT_OF_RANGE, NO_INTERVAL, given, refused};
use boxes::next_places;
use zorder::{Corners, Region, fits_range};

/// A region: for each coordinate the least number and the greatest, both included. Only the first
/// `dims` of them are read.
#[repr(C)]
#[derive(Clone, Copy)]
pub struct RegionParts {
    /// How many coordinates the points have.
    pub dims: u32,
    /// The least number of each coordinate.
    pub low: [u32; 4],
    /// The greatest number of each coordinate.
    pub high: [u32; 4],
}

/// Places that stand side by side: from the first on, before the end.
#[repr(C)]
#[derive(Clone, Copy)]
pub struct Stretch {
    /// The first place.
    pub first: usize,
    /// The place behind the last one.
    pub end: usize,
}

/// Writes the next places, from one on, whose codes lie in the region, in the caller's codes. The
/// number is how many they are; at the end of the codes there are none.
///
/// Where the codes never fall these are all that stand side by side. So calls from 0 on, each from
/// the end of the one before, give all places of codes inside, each once. The hints lead it there,
/// and nothing is asked of them or of the codes. Of codes that fall some stretches are given, each
/// behind the one before, and the end comes. A refusal is `DIMS_OUT_OF_RANGE` or `NO_INTERVAL`,
/// judged in this order, and then nothing is written. Takes no memory.
#[unsafe(no_mangle)]
pub extern "C" fn kuldebiq_box(
    codes: &[u64],
    hints: &[u64],
    region: &RegionParts,
    from: usize,
    stretch: &mut Stretch,
) -> Answer
    ensures dims { ¬ IsDimension region.now.dims →
        result ≡ refuses DIMS_OUT_OF_RANGE region.now.dims }
    ensures interval { IsDimension region.now.dims → (c : ℕ) → IsFirstWithout region.now c →
        result ≡ refuses NO_INTERVAL c }
    ensures done { AreRegion region.now → result ≡ gives (stretch.new.end - stretch.new.first) }
    ensures within { IsDone result →
        (stretch.new.first ≤ stretch.new.end) × (stretch.new.end ≤ length codes.now) }
    ensures onwards { IsDone result → from ≤ length codes.now → from ≤ stretch.new.first }
    ensures ends { IsDone result → stretch.new.first < length codes.now →
        stretch.new.first < stretch.new.end }
    ensures behind { IsDone result → stretch.new.end < length codes.now →
        ¬ IsInside (region_of region.now) (slice_index codes.now stretch.new.end) }
    ensures skipped { IsDone result → IsNonDecreasing codes.now → (j : ℕ) → from ≤ j →
        j < stretch.new.first → ¬ IsInside (region_of region.now) (slice_index codes.now j) }
    ensures inside { IsDone result → IsNonDecreasing codes.now → (j : ℕ) →
        stretch.new.first ≤ j → j < stretch.new.end →
        IsInside (region_of region.now) (slice_index codes.now j) }
    ensures refused { result.status ≢ 0 → stretch.new ≡ stretch.old }
{
    let dims = region.dims;
    if dims < 2 || 4 < dims {
        return refused(DIMS_OUT_OF_RANGE, u64::from(dims));
    }
    if let Some(place) = first_without(region) {
        return refused(NO_INTERVAL, u64::from(place));
    }
    let region = Region {
        d: dims,
        low: region.low,
        high: region.high,
    };
    let places = next_places(codes, hints, &Corners::of(&region), from);
    *stretch = Stretch {
        first: places.start,
        end: places.end,
    };
    given((places.end - places.start) as u64)
}

/// The first coordinate that has no interval, if there is one.
fn first_without(region: &RegionParts) -> Option<u32>
    requires { IsDimension region.now.dims }
    ensures { MatchOption result ((c : ℕ) → c < region.now.dims → HasInterval region.now c)
        (IsFirstWithout region.now) }
{
    let dims = region.dims;
    for c in 0..dims {
        let high = region.high[c as usize];
        if high < region.low[c as usize] || !fits_range(dims, high) {
            return Some(c);
        }
    }
    None
}
