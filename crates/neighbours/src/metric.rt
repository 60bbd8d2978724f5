// How far two points are from one another.
ghost use Rattle.std.specs.Prelude.{◌+◌, ◌*◌, max};

/// A metric, by what the difference of one more coordinate makes of the distance by those before.
///
/// A distance begins with 0, and is a number that orders points by how far they are.
pub trait Metric {
    ghost use Rattle.std.specs.Prelude.{◌≡◌, ◌+◌, ◌<◌, ◌≤◌, ◌^◌, ℕ};

    ghost step: { ℕ → ℕ → ℕ };

    /// The distance by one more coordinate, whose difference is `apart`.
    fn with(so_far: u128, apart: u32) -> u128
        requires room { so_far + 2 ^ 64 < 2 ^ 128 }
        ensures { result ≡ step so_far apart };

    /// No difference of a coordinate is greater where points are within a distance.
    fn reach(distance: u128) -> u32
        ensures { (so_far apart : ℕ) → apart < 2 ^ 32 → step so_far apart ≤ distance
            → apart ≤ result };

    ghost grows: { (so_far apart : ℕ) → so_far ≤ step so_far apart };

    ghost rises: { (near far less more : ℕ) → near ≤ far → less ≤ more
        → step near less ≤ step far more };

    ghost small: { (so_far apart : ℕ) → apart < 2 ^ 32 → step so_far apart ≤ so_far + 2 ^ 64 };
}

/// The greatest difference of a coordinate.
#[derive(Clone, Copy)]
pub struct Chebyshev;

/// The square of the distance: the sum of the squares of the differences, exactly.
#[derive(Clone, Copy)]
pub struct Euclid;

impl Metric for Chebyshev {
    ghost use Rattle.std.specs.Prelude.{ℕ};
    ghost use Rattle.std.proofs.Common.{arith};

    ghost step = { max };

    #[inline(always)]
    fn with(so_far: u128, apart: u32) -> u128 {
        so_far.max(u128::from(apart))
    }

    fn reach(distance: u128) -> u32 {
        distance.min(u128::from(u32::MAX)) as u32
    }

    ghost grows = { λ so_far apart. Prim.omega arith };

    ghost rises = { λ near far less more nearer lesser. Prim.omega arith };

    ghost small = { λ so_far apart small. Prim.omega arith };
}

impl Metric for Euclid {
    ghost use Rattle.std.specs.Prelude.{ℕ};
    ghost use Rattle.std.proofs.Common.{arith};
    ghost use Rattle.std.proofs.Math.Nat.{mul-le-mul};

    ghost step = { λ (so_far apart : ℕ). so_far + apart * apart };

    #[inline(always)]
    fn with(so_far: u128, apart: u32) -> u128 {
        let apart = u64::from(apart);
        so_far + u128::from(apart * apart)
    }

    fn reach(distance: u128) -> u32 {
        match u64::try_from(distance) {
            Ok(square) => square.isqrt() as u32,
            Err(_) => u32::MAX,
        }
    }

    ghost grows = { λ so_far apart. Prim.omega arith };

    ghost rises = { λ near far less more nearer lesser.
        Prim.omega (arith, mul-le-mul lesser lesser) };

    ghost small = { λ so_far apart small.
        Prim.omega (arith, mul-le-mul small small) };
}
