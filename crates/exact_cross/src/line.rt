// The line of a segment.
ghost use Rattle.std.specs.Prelude.{◌<◌, ◌≤◌, ◌↔◌, length, IsTrue};

use crate::{MAX_EPSILON, PointList};

/// How far below rank 0 a line can start: the greatest error bound,
/// [`MAX_EPSILON`](crate::MAX_EPSILON).
const DEPTH: i64 = MAX_EPSILON as i64;

/// The line `y0 + rise * (x - x0) / run`: the rank that a segment predicts for the key `x`.
#[derive(Clone, Copy, Debug, PartialEq, Eq)]
pub struct Line {
    /// The key of the point that the line is told by.
    pub x0: u64,
    /// The line's rank at `x0`, which is below 0 where the first ranks lie less than `ε` above 0.
    pub y0: i64,
    /// Ranks upwards.
    pub rise: u64,
    /// Keys to the right, at least 1.
    pub run: u64,
}

impl Line {
    ghost use Rattle.exact_cross.specs.PointLists.{points_in};
    ghost use Rattle.exact_cross.specs.Lines.{IsWithin, FitsRun, rational};
    ghost use Rattle.exact_cross.specs.Checked.{IsInRange};

    /// Whether the numbers are those that a segment's line can have.
    ///
    /// `run` is at least 1, `y0` from `-2^20` to below `2^32`, and `rise` below `2^32 + 2^21`.
    pub fn in_range(&self) -> bool
        ensures exact { IsTrue result ↔ IsInRange self.now }
    {
        self.run >= 1 && self.y0 >= -DEPTH && self.y0 < 1 << 32 && self.rise < (1 << 32) + (1 << 21)
    }

    /// Whether the line is within `ε` at every place of `s..e`, exactly. An empty run has no such
    /// place.
    ///
    /// `eps` is the error bound `ε`, in places: the line passes a place where it is at most `ε`
    /// above or below the place's `y` at its `x`. It is compared times the line's run, in 128 bits,
    /// so nothing is rounded.
    pub fn fits(&self, points: PointList<'_>, s: u32, e: u32, eps: u32) -> bool
        requires in_range { IsInRange self.now }
        requires bounded { eps ≤ MAX_EPSILON }
        requires range { s ≤ e }
        requires within { e ≤ length points.xs.now }
        ensures exact { IsTrue result ↔
            ((positive : 0 < self.now.run) × FitsRun (points_in points.entry) eps
            (rational self.now positive) s e) }
    {
        for place in s..e {
            if !self.passes(points, place, eps) {
                return false;
            }
        }
        true
    }

    /// Whether the line is within `ε` at one place.
    fn passes(&self, points: PointList<'_>, place: u32, eps: u32) -> bool
        requires in_range { IsInRange self.now }
        requires bounded { eps ≤ MAX_EPSILON }
        requires within { place < length points.xs.now }
        ensures exact { IsTrue result ↔
            ((positive : 0 < self.now.run) × IsWithin (points_in points.entry) eps
            (rational self.now positive) place) }
    {
        let rise = u128::from(self.rise);
        let run = u128::from(self.run);
        let x = u128::from(points.xs[place as usize]);
        let y = u128::from(points.ys[place as usize]);
        // The heights of line and point at the x, times the run. Both are raised alike, so that
        // none is below 0.
        let line = rise * x + (self.y0 + DEPTH) as u128 * run;
        let point = rise * u128::from(self.x0) + (y + DEPTH as u128) * run;
        let slack = u128::from(eps) * run;
        line <= point + slack && point <= line + slack
    }
}
