// Intervals of coordinates.
ghost use Rattle.std.specs.Prelude.{◌≡◌, ◌/◌, ◌^◌, ◌≤◌, ℕ};
ghost use Rattle.std.specs.Int.{abs_diff};
/// How far a number is from the interval of those that differ from another in `free` bits at most,
/// the lowest.
#[inline(always)]
pub fn interval_distance(value: u32, free: u32, from: u32) -> u32
    requires { free ≤ 32 }
    ensures { (other : ℕ) → other / 2 ^ free ≡ value / 2 ^ free → result ≤ abs_diff other from }
{
    let low = u64::from(value) >> free << free;
    let high = low + ((1 << free) - 1);
    let from = u64::from(from);
    low.saturating_sub(from).max(from.saturating_sub(high)) as u32
}
