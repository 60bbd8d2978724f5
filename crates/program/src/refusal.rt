// Refusals: why there is no text, and the one text line that says so.
ghost use Rattle.std.specs.Prelude.{◌≡◌, ◌∷◌, ◌+◌, ◌++◌, ◌≤◌, []};
ghost use Rattle.std.specs.Prelude.{length, decimal};
ghost use Rattle.written.specs.Writing.{WritesUntilFault};
ghost use Rattle.program.specs.Refusals.{refusal_line, status_of, why_word};

use crate::Status;
use edge::{Failed, Sink};
use index_file::{CheckFault, IndexFault};
use pgm_script::{ScriptFault, Why};
use sosd_reader::KeyFault;
use std::alloc::AllocError;
use written::{LINE_ROOM, TextLine, hand_over};

/// Why there is no text.
#[derive(Clone, Copy)]
pub enum Refusal {
    /// The words are no command.
    Usage,
    /// A file isn't there, or can't be read.
    ReadFault,
    /// A key file says that it holds 2^32 keys or more.
    TooMany { count: u64 },
    /// A key file ends before its count or its last key does.
    Short { got: u64 },
    /// A key is below the one before it.
    Unsorted { at: u64, before: u64, key: u64 },
    /// A byte follows the last key.
    Trailing { byte: u8 },
    /// A coordinate is out of the range of its dimension. No key file has this fault.
    Wide { at: u64, value: u32 },
    /// A script has more bytes than it may have.
    TooLong,
    /// A line of a script has something wrong with it.
    Script { line: u64, why: Why },
    /// The updates of a script have more entries than the map can accept.
    Full { asked: u64, room: u64 },
    /// A saved index ends before its last level does.
    IndexShort { got: u64 },
    /// One of the first eight bytes of a saved index isn't as it has to be.
    IndexMagic { at: u64 },
    /// An error bound of a saved index is too great.
    IndexEpsilon { value: u32 },
    /// A byte of a saved index says no side.
    IndexSide { at: u64, byte: u8 },
    /// A byte follows the last level of a saved index.
    IndexTrailing { byte: u8 },
    /// A level of a saved index isn't that of the index of the keys.
    IndexWrong { level: u32 },
}

/// Why a request's inputs weren't read.
#[derive(Clone, Copy)]
pub enum Stopped {
    /// Memory wasn't found.
    NoMemory,
    /// There is no text.
    Refused(Refusal),
}

impl Refusal {
    /// The status that the program ends with.
    pub fn status(self) -> Status
        ensures { result ≡ status_of self }
    {
        match self {
            Refusal::Usage => Status::Usage,
            Refusal::ReadFault => Status::ReadFault,
            Refusal::TooMany { .. }
            | Refusal::Short { .. }
            | Refusal::Unsorted { .. }
            | Refusal::Trailing { .. }
            | Refusal::Wide { .. } => Status::BadKeys,
            Refusal::TooLong | Refusal::Script { .. } => Status::BadScript,
            Refusal::Full { .. } => Status::Full,
            Refusal::IndexShort { .. }
            | Refusal::IndexMagic { .. }
            | Refusal::IndexEpsilon { .. }
            | Refusal::IndexSide { .. }
            | Refusal::IndexTrailing { .. }
            | Refusal::IndexWrong { .. } => Status::BadIndex,
        }
    }
}

/// Writes the one text line of the refusal. Its status stays, whatever the sink does.
pub fn refuse<S: Sink>(out: &mut S, refusal: Refusal) -> Status
    ensures status { result ≡ status_of refusal }
    ensures line { WritesUntilFault S.Sink out.old out.new (refusal_line refusal ∷ []) }
{
    let mut line = TextLine::new();
    fill_line(&mut line, refusal);
    let _ = hand_over(out, line.as_bytes());
    refusal.status()
}

fn fill_line(line: &mut TextLine, refusal: Refusal)
    ensures { line.new ≡ refusal_line refusal }
{
    line.clear();
    line.push(b"fault");
    match refusal {
        Refusal::Usage => line.push(b" usage"),
        Refusal::ReadFault => line.push(b" read"),
        Refusal::TooMany { count } => push_kind(line, b" keys too many", count),
        Refusal::Short { got } => push_kind(line, b" keys short", got),
        Refusal::Trailing { byte } => push_kind(line, b" keys trailing", u64::from(byte)),
        Refusal::Unsorted { at, before, key } => {
            push_kind(line, b" keys unsorted", at);
            line.push_number(before);
            line.push_number(key);
        }
        Refusal::Wide { at, value } => {
            push_kind(line, b" keys wide", at);
            line.push_number(value);
        }
        Refusal::TooLong => line.push(b" script too long"),
        Refusal::Script { line: number, why } => {
            push_kind(line, b" script", number);
            push_why(line, why);
        }
        Refusal::Full { asked, room } => {
            push_kind(line, b" full", asked);
            line.push_number(room);
        }
        Refusal::IndexShort { got } => push_kind(line, b" index short", got),
        Refusal::IndexMagic { at } => push_kind(line, b" index magic", at),
        Refusal::IndexEpsilon { value } => push_kind(line, b" index epsilon", u64::from(value)),
        Refusal::IndexSide { at, byte } => {
            push_kind(line, b" index side", at);
            line.push_number(byte);
        }
        Refusal::IndexTrailing { byte } => push_kind(line, b" index trailing", u64::from(byte)),
        Refusal::IndexWrong { level } => push_kind(line, b" index wrong", u64::from(level)),
    }
    line.push(b"\n");
}

/// Adds what kind of fault it is, and its first number, of at most twenty digits.
fn push_kind(line: &mut TextLine, kind: &[u8], number: u64)
    requires { length line.old + length kind.now + (1 + 20) ≤ LINE_ROOM }
    ensures text { line.new ≡ line.old ++ kind.now ++ 32 ∷ decimal number }
    ensures room { length line.new ≤ length line.old + length kind.now + (1 + 20) }
{
    line.push(kind);
    line.push_number(number);
}

/// Adds what is wrong with a line.
fn push_why(line: &mut TextLine, why: Why)
    requires { length line.old + 8 ≤ LINE_ROOM }
    ensures text { line.new ≡ line.old ++ 32 ∷ why_word why }
    ensures room { length line.new ≤ length line.old + 8 }
{
    match why {
        Why::NotUtf8 => line.push(b" utf8"),
        Why::Word => line.push(b" word"),
        Why::Number => line.push(b" number"),
        Why::Missing => line.push(b" missing"),
        Why::Extra => line.push(b" extra"),
    }
}

impl From<Failed> for Stopped {
    ghost use Rattle.program.specs.declared.refusal.Refusal.TheVariants.{ReadFault};
    ghost use Rattle.program.specs.declared.refusal.Stopped.TheVariants.{Refused};

    ghost from_gives = { λ _ stopped. stopped ≡ Refused ReadFault };

    fn from(_: Failed) -> Self {
        Stopped::Refused(Refusal::ReadFault)
    }
}

impl From<KeyFault> for Stopped {
    ghost use Rattle.program.specs.Stops.{IsStopOf};

    ghost from_gives = { IsStopOf };

    fn from(fault: KeyFault) -> Self {
        match fault {
            KeyFault::NoMemory => Stopped::NoMemory,
            KeyFault::ReadFault => Stopped::Refused(Refusal::ReadFault),
            KeyFault::TooMany { count } => Stopped::Refused(Refusal::TooMany { count }),
            KeyFault::Short { got } => Stopped::Refused(Refusal::Short { got }),
            KeyFault::Unsorted { at, before, key } => {
                Stopped::Refused(Refusal::Unsorted { at, before, key })
            }
            KeyFault::Trailing { byte } => Stopped::Refused(Refusal::Trailing { byte }),
            KeyFault::Wide { at, value } => Stopped::Refused(Refusal::Wide { at, value }),
        }
    }
}

impl From<ScriptFault> for Stopped {
    ghost use Rattle.program.specs.Stops.{IsStopOfScript};

    ghost from_gives = { IsStopOfScript };

    fn from(fault: ScriptFault) -> Self {
        match fault {
            ScriptFault::NoMemory => Stopped::NoMemory,
            ScriptFault::ReadFault => Stopped::Refused(Refusal::ReadFault),
            ScriptFault::TooLong { .. } => Stopped::Refused(Refusal::TooLong),
            ScriptFault::At { line, why } => Stopped::Refused(Refusal::Script { line, why }),
        }
    }
}

impl From<IndexFault> for Stopped {
    ghost use Rattle.program.specs.Stops.{IsStopOfIndex};

    ghost from_gives = { IsStopOfIndex };

    fn from(fault: IndexFault) -> Self {
        match fault {
            IndexFault::NoMemory => Stopped::NoMemory,
            IndexFault::ReadFault => Stopped::Refused(Refusal::ReadFault),
            IndexFault::Short { got } => Stopped::Refused(Refusal::IndexShort { got }),
            IndexFault::Magic { at } => Stopped::Refused(Refusal::IndexMagic { at }),
            IndexFault::Epsilon { value } => Stopped::Refused(Refusal::IndexEpsilon { value }),
            IndexFault::Side { at, byte } => Stopped::Refused(Refusal::IndexSide { at, byte }),
            IndexFault::Trailing { byte } => Stopped::Refused(Refusal::IndexTrailing { byte }),
        }
    }
}

impl From<CheckFault> for Stopped {
    ghost use Rattle.program.specs.Stops.{IsStopOfCheck};

    ghost from_gives = { IsStopOfCheck };

    fn from(fault: CheckFault) -> Self {
        match fault {
            CheckFault::NoMemory => Stopped::NoMemory,
            CheckFault::Wrong { level } => Stopped::Refused(Refusal::IndexWrong { level }),
        }
    }
}

impl From<AllocError> for Stopped {
    ghost use Rattle.program.specs.declared.refusal.Stopped.TheVariants.{NoMemory};

    ghost from_gives = { λ _ stopped. stopped ≡ NoMemory };

    fn from(_: AllocError) -> Self {
        Stopped::NoMemory
    }
}
