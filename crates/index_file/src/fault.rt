// Why the file of an index wasn't read, and why a saved index wasn't found right.
ghost use Rattle.std.specs.Prelude.{◌≡◌};
ghost use Rattle.index_file.specs.declared.fault.IndexFault.TheVariants.{ReadFault, NoMemory};
ghost use Rattle.index_file.specs.declared.fault.CheckFault.TheVariants.{NoMemory as Unchecked};

use edge::Failed;
use std::alloc::AllocError;
use thiserror::Error;

/// Why [`crate::read_index`] gave no index.
#[derive(Clone, Copy, Debug, PartialEq, Eq, Error)]
pub enum IndexFault {
    /// The shelf failed, and its count of faults rose.
    #[error("the file could not be read")]
    ReadFault,
    /// The file ends before the index does, and has no fault before its end.
    #[error("the file ends after {got} bytes")]
    Short {
        /// How many bytes the file has.
        got: u64,
    },
    /// One of the first eight bytes isn't that of `PGMINDEX`.
    #[error("byte {at} is not that of an index")]
    Magic {
        /// The offset of the first such byte, from 0 to 7.
        at: u64,
    },
    /// An error bound is above 1,048,576, the first of the two that is.
    #[error("the error bound {value} is too great")]
    Epsilon {
        /// The bound, in ranks.
        value: u32,
    },
    /// The byte that says why a run ends is above 2.
    #[error("byte {at} is {byte}, which says no side")]
    Side {
        /// The offset of the first such byte.
        at: u64,
        /// The byte.
        byte: u8,
    },
    /// A byte follows the last level.
    #[error("the byte {byte} follows the index")]
    Trailing {
        /// The first such byte.
        byte: u8,
    },
    /// Memory for the next runs wasn't found.
    #[error("out of memory")]
    NoMemory,
}

impl From<Failed> for IndexFault {
    ghost from_gives = { λ _ fault. fault ≡ ReadFault };

    fn from(_: Failed) -> Self {
        IndexFault::ReadFault
    }
}

impl From<AllocError> for IndexFault {
    ghost from_gives = { λ _ fault. fault ≡ NoMemory };

    fn from(_: AllocError) -> Self {
        IndexFault::NoMemory
    }
}

/// Why [`crate::check`] didn't find a saved index right.
#[derive(Clone, Copy, Debug, PartialEq, Eq, Error)]
pub enum CheckFault {
    /// A level isn't that of the one index.
    #[error("level {level} is not that of the index")]
    Wrong {
        /// The lowest such level. One that only the saved or only the true index has counts.
        level: u32,
    },
    /// Memory for the points of a level wasn't found.
    #[error("out of memory")]
    NoMemory,
}

impl From<AllocError> for CheckFault {
    ghost from_gives = { λ _ fault. fault ≡ Unchecked };

    fn from(_: AllocError) -> Self {
        CheckFault::NoMemory
    }
}
