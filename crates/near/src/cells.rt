// Cells of the Morton order: the places whose codes begin alike, and how far a centre is from one.
ghost use Rattle.std.specs.Prelude.{◌≡◌, ◌/◌, ◌^◌, ◌≤◌, ℕ};
ghost use Rattle.std.specs.Int.{abs_diff};
ghost use Rattle.zorder.specs.Codes.{IsCode, IsDimension};
ghost use Rattle.near.specs.Around.{distance};

use zorder::decode;

/// How far a centre is from the least cell that has two codes. No point of a code between them is
/// nearer.
pub fn cell_distance(d: u32, centre: &[u32; 4], first: u64, last: u64) -> u32
    requires dimension { IsDimension d }
    requires code { IsCode d first }
    ensures { (z : ℕ) → IsCode d z → first ≤ z → z ≤ last → result ≤ distance d centre.now z }
{
    let bits = 64 - (first ^ last).leading_zeros();
    let coords = decode(d, first);
    let mut greatest = 0u32;
    for c in 0..d {
        let free = (bits + d - 1 - c) / d;
        greatest = greatest.max(interval_distance(coords[c as usize], free, centre[c as usize]));
    }
    greatest
}

/// How far a number is from the interval of those that differ from another in `free` bits at most,
/// the lowest.
#[inline(always)]
fn interval_distance(value: u32, free: u32, from: u32) -> u32
    requires { free ≤ 32 }
    ensures { (other : ℕ) → other / 2 ^ free ≡ value / 2 ^ free → result ≤ abs_diff other from }
{
    let low = u64::from(value) >> free << free;
    let high = low + ((1 << free) - 1);
    let from = u64::from(from);
    low.saturating_sub(from).max(from.saturating_sub(high)) as u32
}
