// The height of a line at a key, rounded down.

use crate::Line;

impl Line {
    ghost use Rattle.exact_cross.specs.Checked.{IsInRange};
    ghost use Rattle.exact_cross.specs.Floors.{IsFloorAt};

    /// The greatest whole number that isn't above the line at the key `q`, in places.
    ///
    /// Exact for every key, also for one below `x0` and for ranks below 0: the height is taken
    /// times the line's run, in 128 bits. This is what the line predicts for the key.
    /// Source: Ferragina and Vinciguerra, PVLDB 13(8), 2020, section 2.
    pub fn floor_at(&self, q: u64) -> i128
        requires in_range { IsInRange self.now }
        ensures exact { IsFloorAt self.now q result }
    {
        let rise = u128::from(self.rise);
        let run = u128::from(self.run);
        if self.x0 <= q {
            let climb = rise * u128::from(q - self.x0);
            i128::from(self.y0) + (climb / run) as i128
        } else {
            // Below `x0` the line is lower than there, so its fall is rounded up.
            let fall = rise * u128::from(self.x0 - q);
            i128::from(self.y0) - ((fall + (run - 1)) / run) as i128
        }
    }
}
