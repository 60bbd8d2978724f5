//! Updates that are published in batches, and notes of them to readers.
//!
//! A writer publishes the updates 1 to 5 in batches of two, and leaves each reader a note of each
//! batch in its slot, the newest in the place of the one before:
//!
//!     published   | 1 2 | 3 4 | 5
//!     a slot      |  2  |  4  | 5        how many updates the note tells of
//!
//! Main clauses: `all`, `batches` and `full` of [`publish_all`]; `published` and `unchanged` of
//! [`publish_batch`]. The words of the clauses are in `specs/`. No clause says that a note comes,
//! since none follows a value through a lock: a test does.
#![tactic(auto)]

mod context;
mod notes;
mod publishing;

pub use context::Context;
pub use notes::{learn_newest, look_until, slots_for};
pub use publishing::{publish_all, publish_batch};
