// Why a text wasn't written whole.
ghost use Rattle.std.specs.Prelude.{◌≡◌};
ghost use Rattle.written.specs.declared.unfinished.Unfinished.TheVariants.{NoMemory, WriteFault};

use edge::Failed;
use std::alloc::AllocError;
use thiserror::Error;

/// Why a text wasn't written whole.
#[derive(Clone, Copy, Debug, PartialEq, Eq, Error)]
pub enum Unfinished {
    /// Memory wasn't found, before the first byte: nothing was handed over.
    #[error("memory wasn't found")]
    NoMemory,
    /// A call of the sink failed: a front part of the text was written.
    #[error("the text couldn't be written to its end")]
    WriteFault,
}

impl From<AllocError> for Unfinished {
    ghost from_gives = { λ _ unfinished. unfinished ≡ NoMemory };

    fn from(_: AllocError) -> Self {
        Unfinished::NoMemory
    }
}

impl From<Failed> for Unfinished {
    ghost from_gives = { λ _ unfinished. unfinished ≡ WriteFault };

    fn from(_: Failed) -> Self {
        Unfinished::WriteFault
    }
}
