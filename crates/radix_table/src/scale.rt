// The steps that a range of numbers is cut into.
ghost use Rattle.std.specs.Prelude.{◌≡◌, ◌<◌, ◌≤◌, ◌^◌, IfSome, IsTrue, length};
ghost use Rattle.std.specs.List.Sorted.{IsNonDecreasing};
ghost use Rattle.radix_table.specs.Candidates.{AreFew};
ghost use Rattle.radix_table.specs.Tables.{IsScale, step_of};

/// How steps grow with the distance from the first number.
#[derive(Clone, Copy)]
pub enum Growth {
    /// All are equal.
    None,
    /// They get twice as long where distances do.
    Doubling,
}

/// How the numbers from `first` on are cut into steps.
///
/// The first steps have `2^shift` numbers each. Where a number's distance from `first` has more
/// than `kept + shift` binary places, steps get longer as distances do, twice as long for each
/// place more, so that only the highest `kept` places of the distance tell its step. With 64 places
/// kept all steps are equal.
#[derive(Clone, Copy)]
pub struct Scale {
    pub first: u64,
    pub shift: u32,
    pub kept: u32,
}

impl Scale {
    /// The scale of a table without an entry.
    pub const NONE: Scale = Scale {
        first: 0,
        shift: 0,
        kept: 64,
    };

    /// The step of a number.
    #[inline(always)]
    pub fn step(&self, x: u64) -> u64
        requires { IsScale self.now }
        ensures { result ≡ step_of self.now x }
    {
        let distance = x.saturating_sub(self.first);
        let places = 64 - distance.leading_zeros();
        let dropped = self.shift.max(places.saturating_sub(self.kept));
        (u64::from(dropped - self.shift) << (self.kept - 1)) + (distance >> dropped)
    }

    /// Whether the numbers stand in fewer than `most` steps.
    fn has_fewer_than(&self, most: u64, xs: &[u64]) -> bool
        requires scale { IsScale self.now }
        requires order { IsNonDecreasing xs.now }
        requires most { most ≤ 2 ^ 36 }
        ensures { IsTrue result → AreFew xs.now self.now }
    {
        xs.is_empty() || self.step(xs[xs.len() - 1]) < most
    }

    /// The scale from a first number on that is the finest of its growth, or so much coarser: its
    /// equal steps twice as long for each, or its steps with a binary place less kept.
    fn of(growth: Growth, first: u64, coarser: u32) -> Scale
        requires { coarser < 64 }
        ensures { IsScale result }
    {
        match growth {
            Growth::None => Scale {
                first,
                shift: coarser,
                kept: 64,
            },
            Growth::Doubling => Scale {
                first,
                shift: 0,
                kept: 64 - coarser,
            },
        }
    }

    /// The finest scale of a growth by which the numbers stand in fewer than `most` steps.
    pub fn finest(growth: Growth, xs: &[u64], most: u64) -> Option<Scale>
        requires some { 0 < length xs.now }
        requires order { IsNonDecreasing xs.now }
        requires most { most ≤ 2 ^ 36 }
        ensures scale { IfSome result IsScale }
        ensures few { IfSome result (AreFew xs.now) }
    {
        for coarser in 0..64 {
            let scale = Scale::of(growth, xs[0], coarser);
            if scale.has_fewer_than(most, xs) {
                return Some(scale);
            }
        }
        None
    }
}
