// The model of a run: its line as a lookup computes it.
ghost use Rattle.std.specs.Prelude.{◌≡◌, ◌+◌, ◌-◌, ◌*◌, ◌<◌, ◌≤◌};
ghost use Rattle.std.specs.Prelude.{◌^◌, ℕ, pos, ◌+ℤ◌, ◌<ℤ◌, min};
ghost use Rattle.exact_cross.specs.Checked.{IsInRange};

use exact_cross::{Line, MAX_EPSILON};

/// A line from the first x of its run on, in steps of `2^-64` places.
///
/// Slope and height are divided once, when the index is built, and rounded down to whole steps. So
/// a prediction takes two products in place of a division, and is the floor of the line or one
/// below it: for each of the fewer than `2^64` keys to the right less than a step is lost.
///
/// Heights are raised by the error bound, so that none is below 0.
#[derive(Clone, Copy)]
pub struct RunModel {
    /// The first x of the run.
    pub first: u64,
    /// How many places the line rises with each key to the right, and the rest in steps.
    pub whole: u64,
    pub part: u64,
    /// The raised height of the line at the first x, and the rest in steps.
    pub base: u64,
    pub base_part: u64,
    /// The raised height of the run's last point.
    pub high: u64,
}

impl RunModel {
    ghost use Rattle.levels.specs.Models.{IsModelOf, clamped_at};

    /// The model of a line that is at most `eps` below 0 at the x `first`.
    pub fn of(line: &Line, first: u64, high: u32, eps: u32) -> RunModel
        requires in_range { IsInRange line.now }
        requires bounded { eps ≤ MAX_EPSILON }
        requires left { first ≤ line.now.x0 }
        requires not_below { (raised : ℕ) × (pos raised ≡ line.now.y0 +ℤ pos eps) ×
            (line.now.rise * (line.now.x0 - first) ≤ raised * line.now.run) }
        ensures { IsModelOf line.now first high eps result }
    {
        let raised = raised_by(line.y0, eps);
        let run = u128::from(line.run);
        let fall = u128::from(line.rise) * u128::from(line.x0 - first);
        let height = u128::from(raised) * run - fall;
        RunModel {
            first,
            whole: line.rise / line.run,
            part: steps_of(line.rise % line.run, line.run),
            base: (height / run) as u64,
            base_part: steps_of((height % run) as u64, line.run),
            high: u64::from(high) + u64::from(eps),
        }
    }

    /// The window of `q`: places that hold what is looked for in the run.
    #[inline(always)]
    pub fn window(&self, q: u64, eps: u32, len: u32) -> (u32, u32)
        requires from_first { self.now.first ≤ q }
        requires bounded { eps ≤ MAX_EPSILON }
        requires within { self.now.high ≤ len + eps }
        ensures low { result.0 ≡ clamped_at self.now q - 2 * eps }
        ensures high { result.1 ≡ min (clamped_at self.now q + 2) len }
    {
        let predicted = self.raised(q);
        let low = predicted.saturating_sub(2 * u64::from(eps));
        let high = (predicted + 2).min(u64::from(len));
        (low as u32, high as u32)
    }

    /// The place predicted for `q`, raised, and at most that of the run's last point.
    #[inline(always)]
    pub fn raised(&self, q: u64) -> u64
        requires { self.now.first ≤ q }
        ensures { result ≡ clamped_at self.now q }
    {
        let right = u128::from(q - self.first);
        let steps = u128::from(self.base_part) + u128::from(self.part) * right;
        let height = u128::from(self.base) + u128::from(self.whole) * right;
        (height + steps / STEPS).min(u128::from(self.high)) as u64
    }

    /// The place to look at first for `q` where the line begins at a whole height, as that of a run
    /// at even steps does: in such a run it is a key's position. No clause says so.
    ///
    /// There the line is ε below the first point and ε above the last one. So what it is too high
    /// grows evenly to `2ε` of its whole rise.
    #[inline(always)]
    pub fn told(&self, q: u64, eps: u32) -> Option<u64> {
        let top = self.high.saturating_add(u64::from(eps));
        if self.base_part > 0 || top <= self.base {
            return None;
        }
        let rise = top - self.base;
        let right = u128::from(q.saturating_sub(self.first));
        let height = u128::from(self.whole) * right + u128::from(self.part) * right / STEPS;
        let risen = height.min(u128::from(rise)) as u64;
        let too_high = (2 * u64::from(eps)).saturating_mul(risen) / rise;
        Some((self.base + risen).saturating_sub(too_high))
    }
}

/// Steps in a place.
const STEPS: u128 = 1 << 64;

/// A fraction below 1 in steps, rounded down.
fn steps_of(rest: u64, run: u64) -> u64
    requires { rest < run }
    ensures not_above { result * run ≤ rest * 2 ^ 64 }
    ensures greatest { rest * 2 ^ 64 < result * run + run }
{
    (u128::from(rest) * STEPS / u128::from(run)) as u64
}

/// A height raised by the error bound, where that isn't below 0.
fn raised_by(height: i64, eps: u32) -> u64
    requires bounded { eps ≤ MAX_EPSILON }
    requires low { (raised : ℕ) × (pos raised ≡ height +ℤ pos eps) }
    requires high { height <ℤ pos (2 ^ 32) }
    ensures { pos result ≡ height +ℤ pos eps }
{
    (height + i64::from(eps)) as u64
}
