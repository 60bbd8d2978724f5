//! The positions of questions among sorted keys: of many at a time, of very many grouped by where
//! they fall, and of one near where it is said to be.
//!
//! A position is how many keys are below a question. Of the keys 0, 10, 11, 12 that of 11 is 2. The
//! halvings of sixteen questions are interleaved, and no branch depends on a key, so that their
//! reads of memory don't wait for one another.
//!
//! Main clauses: `positions` of [`positions_among`] and of [`positions_grouped`], and those of
//! [`bounds_interleaved`], [`predecessors_interleaved`] and [`position_near`]. The words of the
//! clauses are in `specs/`.
#![tactic(auto)]

mod among;
mod grouped;
mod interleaved;
mod near;
mod sorted;

pub use among::positions_among;
pub use grouped::positions_grouped;
pub use interleaved::{LANES, bounds_interleaved, predecessors_interleaved};
pub use near::position_near;
