// The hints that a handle holds.
ghost use Rattle.std.specs.Prelude.{◌≡◌};

use std::marker::Model;

/// Hints, seen as the list of them.
#[derive(Drop)]
pub struct KeptHints {
    hints: Vec<u64>,
}

impl Model for KeptHints {
    ghost use Rattle.std.specs.Prelude.{ℕ, List};

    ghost Value = { List ℕ };

    ghost view = { λ kept. kept.hints.items };
}

impl KeptHints {
    /// Hints, kept.
    pub(crate) fn of(hints: Vec<u64>) -> KeptHints
        ensures { result ≡ hints.items }
    {
        KeptHints { hints }
    }

    /// The hints.
    pub(crate) fn hints(&self) -> &[u64]
        ensures { result.now ≡ self.now }
    {
        &self.hints
    }
}
