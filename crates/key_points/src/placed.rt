// Heights that are places.
ghost use Rattle.std.specs.Prelude.{◌≡◌, IfOk};
ghost use Rattle.exact_cross.specs.Points.{places};

use budget::NoMemory;
use std::alloc::Global;

/// The places 0, 1, .. of so many points: the y of keys of which none repeats, and of the levels
/// above level 0. 4 bytes each.
///
/// # Errors
///
/// `NoMemory` alone.
pub fn places_of(alloc: Global, count: u32) -> Result<Vec<u32>, NoMemory>
    ensures { IfOk result (λ list. list.items ≡ places count) }
{
    let mut list = Vec::with_capacity(alloc, count as usize)?;
    for place in 0..count {
        list.push(place)?;
    }
    Ok(list)
}
