// Places that threads pass, so that a test can hold them there.

/// A place in the work that a thread passes.
#[derive(Clone, Copy, Debug, PartialEq, Eq)]
pub enum Place {
    /// Before the piece of this number is segmented, counted from 0.
    PieceBegun(u32),
    /// After the piece of this number was segmented.
    PieceDone(u32),
    /// Before a reader's first look for a question, both counted from 0.
    Look {
        /// The reader's number.
        reader: u32,
        /// The question's number.
        turn: u64,
    },
    /// After the publication of this number, counted from 1, when its notes were handed out.
    Published(u64),
    /// Before a sender's first try to send an update, both counted from 0.
    Send {
        /// The sender's number.
        sender: u32,
        /// The number of the update among the sender's own.
        turn: u64,
    },
}

/// What is told of each place that a thread passes. It has no meaning: it may hold a thread there,
/// and no more.
pub trait Gate: Sync {
    /// A thread passes the place.
    fn at(&self, place: Place);
}

/// Lets everybody pass.
#[derive(Clone, Copy, Debug)]
pub struct OpenGate;

impl Gate for OpenGate {
    fn at(&self, _place: Place) {}
}
