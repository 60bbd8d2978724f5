//! The codes of a region's corners, between which a code is tested without decoding it.

ghost use Rattle.std.specs.Prelude.{◌≡◌, ◌↔◌, IsTrue};
ghost use Rattle.zorder.specs.Codes.{IsDimension, code};
ghost use Rattle.zorder.specs.Dilated.{IsBetween};
ghost use Rattle.zorder.specs.Regions.{IsInside, IsRegion};

use crate::codes::encode;
use crate::dilated::dilated_coordinate;
use crate::regions::Region;

/// A region, and the codes of its low and high corners.
///
/// They are made once for a region, and then each code is tested against them, or jumped from, by
/// its bits where they stand: dilated coordinates compare as coordinates do (Raman and Wise, 2008).
#[derive(Clone, Copy, Debug, PartialEq, Eq)]
pub struct Corners {
    /// The region; it may be empty.
    pub region: Region,
    /// The code of the point of all lows.
    low: u64,
    /// The code of the point of all highs.
    high: u64,
    pub ghost in_range: { IsRegion region },
    ghost low_is: { low ≡ code region.d region.low },
    ghost high_is: { high ≡ code region.d region.high },
}

impl Corners {
    /// The corners of a region.
    ///
    /// The region's `d` is from 2 to 4 and its intervals' ends are in the coordinates' range; it
    /// may be empty. Cannot fail and takes no memory.
    pub fn of(region: &Region) -> Corners
        requires { IsRegion region.now }
        ensures { result.region ≡ region.now }
    {
        Corners {
            region: *region,
            low: encode(region.d, &region.low),
            high: encode(region.d, &region.high),
        }
    }

    /// The code of the point of all lows. Cannot fail and takes no memory.
    #[inline(always)]
    pub fn low(&self) -> u64
        ensures { result ≡ code self.now.region.d self.now.region.low }
    {
        self.low
    }

    /// The code of the point of all highs. Cannot fail and takes no memory.
    #[inline(always)]
    pub fn high(&self) -> u64
        ensures { result ≡ code self.now.region.d self.now.region.high }
    {
        self.high
    }

    /// Whether a code is inside the region.
    ///
    /// `z` is a code of `d` coordinates. Says the same as [`inside`](crate::inside) in fewer steps.
    /// Cannot fail and takes no memory.
    #[inline(always)]
    pub fn inside(&self, z: u64) -> bool
        ensures exact { IsTrue result ↔ IsInside self.now.region z }
    {
        match self.region.d {
            2 => is_between(2, self.low, self.high, z),
            3 => is_between(3, self.low, self.high, z),
            _ => is_between(4, self.low, self.high, z),
        }
    }
}

/// Whether a number lies between two others, coordinate by coordinate.
///
/// `d` is the number of coordinates, from 2 to 4. Where it is a literal, no loop is left. Cannot
/// fail and takes no memory.
#[inline(always)]
pub fn is_between(d: u32, low: u64, high: u64, z: u64) -> bool
    requires { IsDimension d }
    ensures exact { IsTrue result ↔ IsBetween d low high z }
{
    for c in 0..d {
        let at = dilated_coordinate(d, c, z);
        if at < dilated_coordinate(d, c, low) || dilated_coordinate(d, c, high) < at {
            return false;
        }
    }
    true
}
