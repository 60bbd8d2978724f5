// Why a key file or a point file wasn't read.
ghost use Rattle.std.specs.Prelude.{◌≡◌};
ghost use Rattle.sosd_reader.specs.declared.fault.KeyFault.TheVariants.{ReadFault, NoMemory};

use edge::Failed;
use std::alloc::AllocError;
use thiserror::Error;

/// Why [`crate::read_keys`] gave no keys, or [`crate::read_points`] no points.
#[derive(Clone, Copy, Debug, PartialEq, Eq, Error)]
pub enum KeyFault {
    /// The shelf failed, and its count of faults rose.
    #[error("the file could not be read")]
    ReadFault,
    /// The file says that it holds 2^32 keys or points or more.
    #[error("the file says that it holds {count} keys or points, which is too many")]
    TooMany {
        /// How many keys or points the file says it holds.
        count: u64,
    },
    /// The file ends before its count does, or its last key or coordinate.
    #[error("the file ends after {got} bytes")]
    Short {
        /// How many bytes the file has.
        got: u64,
    },
    /// A key is below the one before it. No point file has this fault.
    #[error("key {at} is {key}, below {before} before it")]
    Unsorted {
        /// The number of the first such key, counted from 0.
        at: u64,
        /// The key before it.
        before: u64,
        /// The key.
        key: u64,
    },
    /// A byte follows the last key or coordinate.
    #[error("the byte {byte} follows what the file is to hold")]
    Trailing {
        /// The first such byte.
        byte: u8,
    },
    /// A coordinate is out of the range of its dimension. No key file has this fault.
    #[error("coordinate {at} is {value}, out of range")]
    Wide {
        /// The number of the first such coordinate, counted from 0 over all points.
        at: u64,
        /// The coordinate.
        value: u32,
    },
    /// Memory for the next chunk wasn't found.
    #[error("out of memory")]
    NoMemory,
}

impl From<Failed> for KeyFault {
    ghost from_gives = { λ _ fault. fault ≡ ReadFault };

    fn from(_: Failed) -> Self {
        KeyFault::ReadFault
    }
}

impl From<AllocError> for KeyFault {
    ghost from_gives = { λ _ fault. fault ≡ NoMemory };

    fn from(_: AllocError) -> Self {
        KeyFault::NoMemory
    }
}
