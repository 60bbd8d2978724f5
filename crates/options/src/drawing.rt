// What is drawn.
ghost use Rattle.std.specs.Prelude.{◌≤◌};
ghost use Rattle.options.specs.declared.drawing.TheConstants.{MAX_DRAWN, MAX_SEED};

/// How many inputs of each kind are drawn at most.
pub const MAX_DRAWN: u32 = 1_000_000;

/// The greatest seed.
pub const MAX_SEED: u32 = 0x7fff_ffff;

/// A number and a seed, for which inputs are drawn.
#[derive(Clone, Copy, Debug)]
pub struct Drill {
    /// How many inputs there are of each kind, from 1 to [`MAX_DRAWN`].
    pub number: u32,
    /// The seed, up to [`MAX_SEED`].
    pub seed: u32,
    pub ghost some: { 1 ≤ number },
    pub ghost few: { number ≤ MAX_DRAWN },
    pub ghost small: { seed ≤ MAX_SEED },
}
