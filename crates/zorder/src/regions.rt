//! Regions: boxes of points, given by a closed interval for each coordinate.

ghost use Rattle.std.specs.Prelude.{ℕ, ◌≤◌, ◌↔◌, IsTrue};
ghost use Rattle.std.specs.Bool.{OnFalse, OnTrue};
ghost use Rattle.zorder.specs.Codes.{IsCode, code};
ghost use Rattle.zorder.specs.Regions.{IsEmpty, IsInside, IsRegion};

use crate::codes::decode;

/// A region: the points whose coordinates each lie between a low and a high, both included.
///
/// `d` is the number of coordinates, from 2 to 4; only the first `d` members of `low` and `high`
/// count. It is empty where some low is above its high.
#[derive(Clone, Copy, Debug, PartialEq, Eq)]
pub struct Region {
    /// How many coordinates a point has, from 2 to 4.
    pub d: u32,
    /// The least value of each coordinate.
    pub low: [u32; 4],
    /// The greatest value of each coordinate.
    pub high: [u32; 4],
}

/// Whether a code is inside a region: whether each of its coordinates lies between the low and the
/// high.
///
/// The region's `d` is from 2 to 4 and its intervals' ends are in the coordinates' range; `z` is a
/// code of `d` coordinates. A code inside lies between the codes of the region's corners, but not
/// each code between them is inside. Cannot fail and takes no memory.
/// Source: Tropf and Herzog, Angewandte Informatik 2/1981.
pub fn inside(region: &Region, z: u64) -> bool
    requires region { IsRegion region.now }
    requires code { IsCode region.now.d z }
    ensures exact { IsTrue result ↔ IsInside region.now z }
    ensures corners { OnTrue result
        ((code region.now.d region.now.low ≤ z) × (z ≤ code region.now.d region.now.high)) }
{
    let coords = decode(region.d, z);
    for c in 0..region.d as usize {
        if coords[c] < region.low[c] || region.high[c] < coords[c] {
            return false;
        }
    }
    true
}

/// Whether a region is empty: whether some low is above its high.
///
/// An empty region has no code inside; of another the code of its low corner is inside. Cannot fail
/// and takes no memory.
pub fn is_empty(region: &Region) -> bool
    requires { IsRegion region.now }
    ensures exact { IsTrue result ↔ IsEmpty region.now }
    ensures none_inside { OnTrue result ((z : ℕ) → ¬ IsInside region.now z) }
    ensures low_inside { OnFalse result (IsInside region.now (code region.now.d region.now.low)) }
{
    for c in 0..region.d as usize {
        if region.high[c] < region.low[c] {
            return true;
        }
    }
    false
}
