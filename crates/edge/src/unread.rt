// Why a whole file wasn't read.
ghost use Rattle.std.specs.Prelude.{◌≡◌};
ghost use Rattle.edge.specs.declared.unread.Unread.TheVariants.{ReadFault, NoMemory};

use crate::Failed;
use std::alloc::AllocError;
use thiserror::Error;

/// Why [`crate::read_all`] gave no bytes.
#[derive(Clone, Copy, Debug, PartialEq, Eq, Error)]
pub enum Unread {
    /// The shelf failed, and its count of faults rose.
    #[error("the file could not be read")]
    ReadFault,
    /// More bytes are left than may be.
    #[error("the file has {got} bytes or more, which is too many")]
    TooLong {
        /// One more than may be left.
        got: u64,
    },
    /// Memory for the next chunk wasn't found.
    #[error("out of memory")]
    NoMemory,
}

impl From<Failed> for Unread {
    ghost from_gives = { λ _ fault. fault ≡ ReadFault };

    fn from(_: Failed) -> Self {
        Unread::ReadFault
    }
}

impl From<AllocError> for Unread {
    ghost from_gives = { λ _ fault. fault ≡ NoMemory };

    fn from(_: AllocError) -> Self {
        Unread::NoMemory
    }
}
