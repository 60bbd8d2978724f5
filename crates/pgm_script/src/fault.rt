// Why a script wasn't read.
ghost use Rattle.std.specs.Prelude.{◌≡◌};
ghost use Rattle.pgm_script.specs.declared.fault.ScriptFault.TheVariants.{NoMemory};

use edge::Unread;
use std::alloc::AllocError;
use thiserror::Error;

/// Why a text is no script.
#[derive(Clone, Copy, Debug, PartialEq, Eq, Error)]
pub enum ScriptFault {
    /// The shelf failed, and its count of faults rose.
    #[error("the script could not be read")]
    ReadFault,
    /// The text has more bytes than it may have.
    #[error("the script has {got} bytes or more, which is too many")]
    TooLong {
        /// One more than it may have.
        got: u64,
    },
    /// A line is none of the script's kind.
    #[error("line {line} of the script: {why}")]
    At {
        /// The number of the first such line, counted from 1, blank lines and comments included.
        line: u64,
        /// What is wrong with it first.
        why: Why,
    },
    /// Memory wasn't found.
    #[error("out of memory")]
    NoMemory,
}

/// What is wrong with a line, in the order in which it is judged.
#[derive(Clone, Copy, Debug, PartialEq, Eq, Error)]
pub enum Why {
    /// Its bytes aren't UTF-8.
    #[error("the line is not UTF-8")]
    NotUtf8,
    /// Its first word is no command of the kind.
    #[error("the first word is no command")]
    Word,
    /// A word is no number, or one out of range.
    #[error("a word is no number in range")]
    Number,
    /// A number is missing.
    #[error("a number is missing")]
    Missing,
    /// A word follows the last number.
    #[error("a word follows the last number")]
    Extra,
}

impl From<Unread> for ScriptFault {
    ghost use Rattle.pgm_script.specs.Texts.{fault_of};

    ghost from_gives = { λ unread fault. fault ≡ fault_of unread };

    fn from(unread: Unread) -> Self {
        match unread {
            Unread::ReadFault => ScriptFault::ReadFault,
            Unread::TooLong { got } => ScriptFault::TooLong { got },
            Unread::NoMemory => ScriptFault::NoMemory,
        }
    }
}

impl From<AllocError> for ScriptFault {
    ghost from_gives = { λ _ fault. fault ≡ NoMemory };

    fn from(_: AllocError) -> Self {
        ScriptFault::NoMemory
    }
}
