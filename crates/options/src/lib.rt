//! The options of the commands, each with its range in its type: who makes one has shown the range,
//! and who takes one knows it.
#![tactic(auto)]

mod drawing;
mod index;
mod map;

pub use drawing::{Drill, MAX_DRAWN, MAX_SEED};
pub use index::{Bounds, EPS, EPS_REC, MAX_BITS, MAX_PIECES, MAX_WORKERS, Pieces, Table, Workers};
pub use map::{MAX_LEVELS, MAX_READERS, MAX_ROOM, MAX_SENDERS, Plan, Senders};
