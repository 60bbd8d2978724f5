// How far points are from a centre, and the boxes about it.
ghost use Rattle.std.specs.Prelude.{◌≡◌};
ghost use Rattle.zorder.specs.Codes.{IsCode, IsDimension, IsInRange};
ghost use Rattle.zorder.specs.Regions.{IsRegion};
ghost use Rattle.near.specs.Around.{box_around, distance};

use zorder::{Region, decode};

/// How far the point of a code is from a centre: the greatest difference of a coordinate.
pub fn distance_from(d: u32, centre: &[u32; 4], z: u64) -> u32
    requires dimension { IsDimension d }
    requires code { IsCode d z }
    ensures { result ≡ distance d centre.now z }
{
    let coords = decode(d, z);
    let mut greatest = 0u32;
    for c in 0..d as usize {
        greatest = greatest.max(coords[c].abs_diff(centre[c]));
    }
    greatest
}

/// The region of all places within `reach` of a centre, clipped to the coordinates' range.
pub fn region_around(d: u32, centre: &[u32; 4], reach: u32) -> Region
    requires dimension { IsDimension d }
    requires range { IsInRange d centre.now }
    ensures region { result ≡ box_around d centre.now reach }
    ensures range { IsRegion result }
{
    let limit = ((1u64 << (64 / d)) - 1) as u32;
    let mut low = [0; 4];
    let mut high = [0; 4];
    for c in 0..4 {
        low[c] = centre[c].saturating_sub(reach);
        high[c] = centre[c].saturating_add(reach).min(limit);
    }
    Region { d, low, high }
}
