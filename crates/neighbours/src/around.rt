// The boxes about a centre.
ghost use Rattle.std.specs.Prelude.{◌≡◌};
ghost use Rattle.zorder.specs.Regions.{IsRegion};
ghost use Rattle.neighbours.specs.Around.{box_around};

use crate::Centre;
use zorder::Region;

/// The region of all places within `reach` of a centre, clipped to the coordinates' range.
pub fn region_around(centre: &Centre, reach: u32) -> Region
    ensures region { result ≡ box_around centre.now.d centre.now.coords reach }
    ensures range { IsRegion result }
{
    let limit = ((1u64 << (64 / centre.d)) - 1) as u32;
    let mut low = [0; 4];
    let mut high = [0; 4];
    for c in 0..4 {
        low[c] = centre.coords[c].saturating_sub(reach);
        high[c] = centre.coords[c].saturating_add(reach).min(limit);
    }
    Region {
        d: centre.d,
        low,
        high,
    }
}
