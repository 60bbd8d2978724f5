// Why a list isn't taken as the keys of a file.
ghost use Rattle.std.specs.Prelude.{◌≡◌};
ghost use Rattle.key_points.specs.declared.fault.KeysFault.TheVariants.{NoMemory};

use std::alloc::AllocError;
use thiserror::Error;

/// Why a list isn't taken as the keys of a file.
#[derive(Clone, Copy, Debug, PartialEq, Eq, Error)]
pub enum KeysFault {
    /// There are 2^32 keys or more.
    #[error("{count} keys are too many")]
    TooMany {
        /// How many there are.
        count: usize,
    },
    /// A key is below the one before it.
    #[error("the key at place {place} is below the one before it")]
    Falls {
        /// The first place at which one is, counted from 0.
        place: usize,
    },
    /// Memory wasn't found.
    #[error("out of memory")]
    NoMemory,
}

impl From<AllocError> for KeysFault {
    ghost from_gives = { λ _ fault. fault ≡ NoMemory };

    fn from(_: AllocError) -> Self {
        KeysFault::NoMemory
    }
}
