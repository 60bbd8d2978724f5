// The generator.
ghost use Rattle.std.specs.Prelude.{◌≡◌, ◌<◌, ◌^◌};
ghost use Rattle.drill_inputs.specs.Draws.{drawn, state_after};

use std::marker::Model;

/// What the state is multiplied by in a draw.
const MULTIPLIER: u64 = 1_103_515_245;

/// What is added in a draw.
const INCREMENT: u64 = 12_345;

/// A linear congruential generator of numbers below 32768. Seen as its state.
///
/// The state is below 2^31, and a draw gives its upper 15 bits: of such a generator the lowest `k`
/// bits repeat after 2^k draws. Source: the example of `rand` in ISO/IEC 9899, 7.22.2; Knuth, The
/// Art of Computer Programming, vol. 2, 3.2.1.
#[derive(Drop)]
pub struct Generator {
    state: u32,
}

impl Model for Generator {
    ghost use Rattle.std.specs.Prelude.{ℕ, ◌<◌, ◌^◌};

    ghost Value = { ℕ };

    ghost view = { λ generator. generator.state };

    ghost invariant = { λ generator. generator.state < 2 ^ 31 };
}

impl Generator {
    /// The generator with a seed, which is its state at first.
    pub fn new(seed: u32) -> Generator
        requires { seed < 2 ^ 31 }
        ensures { result ≡ seed }
    {
        Generator { state: seed }
    }

    /// Draws a number.
    pub fn next(&mut self) -> u32
        ensures draw { result ≡ drawn self.old 0 }
        ensures state { self.new ≡ state_after self.old 1 }
        ensures small { result < 2 ^ 15 }
    {
        let product = MULTIPLIER * u64::from(self.state);
        self.state = ((product + INCREMENT) % (1 << 31)) as u32;
        self.state >> 16
    }
}
