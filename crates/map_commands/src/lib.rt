//! The commands over a map, when their inputs are read: what each writes, and the work behind it.
//!
//! [`write_replay`] makes the map of updates, beside readers or alone, and hands its text to a
//! sink, line by line; [`write_mix`] has several senders send the updates. Both take all memory
//! before the first byte. Of the updates `put 1 10` and `del 1` and the question `get 1`, without
//! readers:
//!
//! ```text
//! updates 2
//! end get 1 none
//! live 0
//! ```
//!
//! The texts are defined over the inputs alone, in `specs/Replay` and `specs/Mix`.
#![tactic(auto)]

mod history;
mod mix;
mod replay;
mod told;

pub use history::{History, Mixing};
pub use map_replay::Question;
pub use mix::write_mix;
pub use replay::write_replay;
