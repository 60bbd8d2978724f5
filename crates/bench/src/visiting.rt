// The sum of the coordinates of points that are gone over.
ghost use Rattle.std.specs.Prelude.{◌≤◌};

use zorder::{decode, decode_pairs, decode_triples};

/// How many codes are decoded at once.
const BLOCK: usize = 256;

/// A stretch of fewer codes waits until a block of them is there.
const FEW: usize = 64;

/// Points of so many coordinates: how many wait to be decoded, which ones, and the sum of the
/// others.
#[derive(Drop)]
pub struct Visit {
    dims: u32,
    count: usize,
    waiting: [u64; BLOCK],
    sum: u64,
    columns: Columns,
}

/// The coordinates of a block of codes, the first, the second and the third ones.
#[derive(Drop)]
struct Columns {
    firsts: [u32; BLOCK],
    seconds: [u32; BLOCK],
    thirds: [u32; BLOCK],
}

impl Visit {
    pub fn new(dims: u32) -> Visit {
        let columns = Columns {
            firsts: [0; BLOCK],
            seconds: [0; BLOCK],
            thirds: [0; BLOCK],
        };
        Visit {
            dims,
            count: 0,
            waiting: [0; BLOCK],
            sum: 0,
            columns,
        }
    }

    /// Takes codes that stand side by side: a few wait.
    #[inline(always)]
    pub fn take(&mut self, codes: &[u64]) {
        if codes.len() >= FEW || self.dims == 4 {
            self.sum = self.sum.wrapping_add(self.columns.sum_of(self.dims, codes));
            return;
        }
        if self.count > BLOCK - FEW {
            self.decode_waiting();
        }
        let from = self.count.min(BLOCK - FEW);
        for i in 0..codes.len() {
            self.waiting[from + i] = codes[i];
        }
        self.count = from + codes.len();
    }

    /// The sum of all coordinates, the first of each point taken once, the second three times, the
    /// third five times and so on, in 64 bits.
    pub fn sum(mut self) -> u64 {
        self.decode_waiting();
        self.sum
    }

    /// Decodes the codes that wait.
    fn decode_waiting(&mut self) {
        let waiting = &self.waiting[..self.count.min(BLOCK)];
        let sum = self.columns.sum_of(self.dims, waiting);
        self.sum = self.sum.wrapping_add(sum);
        self.count = 0;
    }
}

impl Columns {
    fn sum_of(&mut self, dims: u32, codes: &[u64]) -> u64 {
        match dims {
            2 => self.sum_of_pairs(codes),
            3 => self.sum_of_triples(codes),
            _ => sum_of_quads(codes),
        }
    }

    /// The sum of two coordinates, of which a block is decoded at once.
    fn sum_of_pairs(&mut self, codes: &[u64]) -> u64 {
        let mut sum = 0u64;
        for block in codes.chunks(BLOCK) {
            decode_pairs(block, &mut self.firsts, &mut self.seconds);
            sum = sum.wrapping_add(total(&self.firsts[..block.len()]));
            sum = sum.wrapping_add(total(&self.seconds[..block.len()]).wrapping_mul(3));
        }
        sum
    }

    /// The same of three coordinates.
    fn sum_of_triples(&mut self, codes: &[u64]) -> u64 {
        let mut sum = 0u64;
        for block in codes.chunks(BLOCK) {
            decode_triples(block, &mut self.firsts, &mut self.seconds, &mut self.thirds);
            sum = sum.wrapping_add(self.weighed_total(block.len()));
        }
        sum
    }

    /// The sum of the first points of a block.
    ///
    /// Coordinates of three are below 2^22, so sums of 256 have 32 bits, of which a vector holds
    /// twice as many as of 64.
    fn weighed_total(&self, many: usize) -> u64
        requires { many ≤ 256 }
    {
        let mut first = 0u32;
        let mut second = 0u32;
        let mut third = 0u32;
        for i in 0..many {
            first = first.wrapping_add(self.firsts[i]);
            second = second.wrapping_add(self.seconds[i]);
            third = third.wrapping_add(self.thirds[i]);
        }
        let sum = u64::from(first).wrapping_add(u64::from(second).wrapping_mul(3));
        sum.wrapping_add(u64::from(third).wrapping_mul(5))
    }
}

/// The sum of numbers, in 64 bits.
fn total(numbers: &[u32]) -> u64 {
    let mut sum = 0u64;
    for number in numbers {
        sum = sum.wrapping_add(u64::from(*number));
    }
    sum
}

/// The sum of four coordinates, one point after the other.
fn sum_of_quads(codes: &[u64]) -> u64 {
    let mut sum = 0u64;
    for code in codes {
        sum = sum.wrapping_add(weighed(*code));
    }
    sum
}

/// The sum of the four coordinates of a point.
#[inline(always)]
fn weighed(code: u64) -> u64 {
    let [first, second, third, fourth] = decode(4, code);
    let sum = u64::from(first) + 3 * u64::from(second);
    sum + 5 * u64::from(third) + 7 * u64::from(fourth)
}
