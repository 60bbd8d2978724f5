// The zeros of a code from which the next code in a region may begin to differ.
ghost use Rattle.std.specs.Prelude.{◌≡◌, ◌↔◌, ℕ, ◌%◌, ◌<◌, ◌≤◌, MatchOption};
ghost use Rattle.std.specs.Int.{bit_at};
ghost use Rattle.zorder.specs.Codes.{IsDimension};
ghost use Rattle.zorder.specs.Dilated.{dilated};
ghost use Rattle.zorder.proofs.CallerLemmas.{DiffersAt};
ghost use Rattle.bigmin.specs.Openings.{IsHighestDecision, Opens};

use crate::filled::filled_down;

/// The highest places at which coordinates of two numbers differ, of those coordinates that are
/// greater in the second.
#[inline(always)]
fn highest_rises(d: u32, lesser: u64, greater: u64) -> u64
    requires { IsDimension d }
    ensures { (t : ℕ) → (bit_at result t ≡ 1)
        ↔ DiffersAt t (dilated d (t % d) lesser) (dilated d (t % d) greater) }
{
    let filled = filled_down(d, lesser ^ greater);
    filled & !(filled >> d) & greater
}

/// The highest place that decides a coordinate of `z` to be out of its interval, or 0.
///
/// A code that agrees with `z` from there on is out of it too.
#[inline(always)]
fn highest_decision(d: u32, z: u64, low: u64, high: u64) -> u32
    requires { IsDimension d }
    ensures within { result < 64 }
    ensures highest { IsHighestDecision d z low high result }
{
    let decisions = highest_rises(d, z, low) | highest_rises(d, high, z);
    (decisions | 1).ilog2()
}

/// The lowest place from which on a code between `low` and `high`, coordinate by coordinate, can be
/// above `z`.
#[inline(always)]
pub fn lowest_opening(d: u32, z: u64, low: u64, high: u64) -> Option<u32>
    requires { IsDimension d }
    ensures { MatchOption result ((i : ℕ) → Opens d z low high i → ⊥)
        (λ place. Opens d z low high place × ((i : ℕ) → Opens d z low high i → place ≤ i)) }
{
    let undecided = u64::MAX << highest_decision(d, z, low, high);
    // The zeros of `z` that may be a one, as far as the high end is concerned. Those of a
    // coordinate that is above it are decided.
    let zeros = !z & filled_down(d, high ^ z);
    let open = zeros & undecided;
    if open == 0 {
        return None;
    }
    Some(open.trailing_zeros())
}
