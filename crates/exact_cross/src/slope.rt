// The order of slopes.
ghost use Rattle.std.specs.Prelude.{◌≡◌, ◌≤◌};

use std::cmp::Ordering;

/// A slope as a fraction that need not be reduced: ranks upwards over keys to the right.
#[derive(Clone, Copy, Debug, PartialEq, Eq)]
pub struct Slope {
    /// Ranks upwards, below 0 where the line falls.
    pub rise: i64,
    /// Keys to the right, at least 1 where two slopes are compared.
    pub run: u64,
}

impl Slope {
    ghost use Rattle.exact_cross.specs.Slopes.{slope_cmp};

    /// The exact order of the two fractions, by their cross products in 128 bits.
    pub fn cmp(&self, other: &Slope) -> Ordering
        requires this { 1 ≤ self.now.run }
        requires that { 1 ≤ other.now.run }
        ensures order { result ≡ slope_cmp self.now other.now }
    {
        let this = i128::from(self.rise) * i128::from(other.run);
        let that = i128::from(other.rise) * i128::from(self.run);
        this.cmp(&that)
    }
}
