// A centre, and how far points are from it.
ghost use Rattle.std.specs.Prelude.{◌≡◌, ◌+◌, ◌*◌, ◌^◌, ◌<◌, ◌≤◌, ℕ};
ghost use Rattle.zorder.specs.Codes.{IsCode, IsDimension, IsInRange, code};
ghost use Rattle.neighbours.specs.Metrics.{code_in, far};

use crate::Metric;
use crate::cells::interval_distance;
use zorder::decode;

/// A centre of 2, 3 or 4 coordinates in their range.
#[derive(Clone, Copy, Debug)]
pub struct Centre {
    /// How many coordinates there are.
    pub d: u32,
    /// The coordinates; those from `d` on don't count.
    pub coords: [u32; 4],
    pub ghost dimension: { IsDimension d },
    pub ghost range: { IsInRange d coords },
}

impl Centre {
    /// How far the point of a number is, of whose bits only those of a code count.
    #[inline(always)]
    pub(crate) fn distance<M: Metric>(&self, z: u64) -> u128
        ensures { result ≡ far M.step self.now.d self.now.coords z }
    {
        let coords = decode(self.d, code_of(self.d, z));
        let mut far = 0;
        for c in 0..self.d as usize {
            far = M::with(far, coords[c].abs_diff(self.coords[c]));
        }
        far
    }

    /// How far the least cell is that has two codes. No point of a code between them is nearer.
    pub(crate) fn cell_distance<M: Metric>(&self, first: u64, last: u64) -> u128
        ensures { (z : ℕ) → IsCode self.now.d first → IsCode self.now.d z → first ≤ z → z ≤ last
            → result ≤ far M.step self.now.d self.now.coords z }
    {
        let bits = 64 - (first ^ last).leading_zeros();
        let coords = decode(self.d, code_of(self.d, first));
        let mut far = 0;
        for c in 0..self.d {
            let free = (bits + self.d - 1 - c) / self.d;
            let apart = interval_distance(coords[c as usize], free, self.coords[c as usize]);
            far = M::with(far, apart);
        }
        far
    }
}

/// The code of so many coordinates that a number's lowest bits are.
#[inline(always)]
fn code_of(d: u32, z: u64) -> u64
    requires { IsDimension d }
    ensures code { IsCode d result }
    ensures bits { result ≡ code_in d z }
{
    if d == 3 { z % (1 << 63) } else { z }
}
