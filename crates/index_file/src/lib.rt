//! A saved index: its bytes, their reading, and whether it is the one index of some points.
//!
//! The file begins with the eight bytes `PGMINDEX`, the error bounds ε and ε' and the number of
//! levels. Each level is its number of runs, and then its runs: where a run starts, the two places
//! of its steep pair, and why it ends. Numbers have four bytes, the lowest first.
//!
//! ```text
//! run     start a b, and one byte:  0 it is the last one, or 1 the next point lies over its lines,
//!                                   or 2 under them, and then p q, the places of its flat pair
//! ```
//!
//! What the definition of an index gives, as the lines, isn't written. So an index has one
//! spelling, and a spelling is that of one index. All other bytes have one fault, the first in
//! their order.
//!
//! Main clauses: `saved`, `fault` and `wherever` of [`read_index`], `right` and `wrong` of
//! [`check`], and the law [`spellings_are_one`]. The words of the clauses are in
//! `specs/Spelling.antt`, `specs/Faults.antt` and `specs/Checks.antt`.
#![tactic(auto)]

mod checking;
mod fault;
mod reading;
mod saved;
mod spelling;

pub use checking::check;
pub use fault::{CheckFault, IndexFault};
pub use reading::read_index;
pub use saved::{Saved, SavedCut, SavedRun};
pub use spelling::{spell_head, spell_level, spellings_are_one};
