// Slopes whose comparison is a step.
//
// `is_below` is the one comparison of two slopes in this crate, and no `Slope` leaves this file.
// Its clause bounds what is counted; that each comparison ticks is seen in its body.
ghost use Rattle.std.specs.Prelude.{◌≡◌, ◌+◌, ◌<◌, ◌≤◌};
ghost use Rattle.std.specs.Bool.{OnTrue, OnFalse};
ghost use Rattle.exact_cross.specs.Slopes.{IsAtMost};
ghost use Rattle.hulls.specs.Slopes.{steepest};
ghost use Rattle.hulls.specs.Vertices.{lifted_slope};

use crate::vertex::Vertex;
use budget::Steps;
use exact_cross::Slope;
use std::sync::ledger::Ledger;

/// A slope that is compared by [`is_below`](CountedSlope::is_below) alone, which takes a step.
#[derive(Clone, Copy)]
pub struct CountedSlope {
    slope: Slope,
}

/// Above the slope of any two points, whatever the error bound.
const STEEPEST: i64 = 1_099_511_627_776;

impl CountedSlope {
    /// The slope of a run of one point, which has no pair yet: steeper than any pair's.
    pub fn steepest() -> CountedSlope
        ensures { result.slope ≡ steepest }
    {
        let rise = STEEPEST;
        CountedSlope {
            slope: Slope { rise, run: 1 },
        }
    }

    /// The slope from a vertex to `lift` above another one to the right of it.
    #[inline(always)]
    pub fn between(low: Vertex, high: Vertex, lift: u32) -> CountedSlope
        requires right { low.x < high.x }
        requires lift { lift ≤ 2097152 }
        ensures { result.slope ≡ lifted_slope low high lift }
    {
        let rise = i64::from(high.height) + i64::from(lift) - i64::from(low.height);
        let run = high.x - low.x;
        CountedSlope {
            slope: Slope { rise, run },
        }
    }

    /// Whether this slope is less than the other one.
    #[inline(always)]
    pub fn is_below<L: Ledger>(&self, other: &CountedSlope, steps: &mut Steps<L>) -> bool
        requires this { 1 ≤ self.now.slope.run }
        requires that { 1 ≤ other.now.slope.run }
        ensures less { OnTrue result (IsAtMost other.now.slope self.now.slope → ⊥) }
        ensures not_less { OnFalse result (IsAtMost other.now.slope self.now.slope) }
        ensures step { steps.new ≡ steps.old + 1 }
    {
        steps.tick();
        self.slope.cmp(&other.slope).is_lt()
    }

    /// The rise and the run, which tell the line of this slope.
    pub fn rise_and_run(&self) -> (i64, u64)
        ensures rise { result.0 ≡ self.now.slope.rise }
        ensures run { result.1 ≡ self.now.slope.run }
    {
        (self.slope.rise, self.slope.run)
    }
}
