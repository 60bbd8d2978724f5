//! Text lines put together in room that is taken once, and pieces handed over to a sink.
//!
//! A text is a list of pieces, mostly lines of text. Each piece is handed over as one, and what the
//! sink left of it again, until all of it was taken or a call failed: a sink that takes two bytes a
//! call gets `abcde` as `abcde`, `cde` and `e`. What was written is then the text or, where a call
//! failed, a front part of it.
//!
//! The words of the clauses are in `specs/`: text lines, handing over, and what a sink gains by it.
#![tactic(auto)]

mod handing;
mod text_line;
mod unfinished;

pub use handing::hand_over;
pub use text_line::{LINE_ROOM, TextLine};
pub use unfinished::Unfinished;
