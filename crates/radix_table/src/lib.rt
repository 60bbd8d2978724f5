//! A table that leads a search in rising numbers to the few places that hold the predecessor.
//!
//! The numbers' range is cut into steps, and the table has for each how many of the numbers stand
//! before it. So one look at two neighbouring entries tells between which places the predecessor of
//! a question is. Of the numbers 0, 4, 16 with steps of four, the entries are 0, 1, 2, 2, 2, 3: the
//! question 9 is in step 2, and its predecessor is at place 1.
//!
//! Steps are equal, or, where the numbers crowd near the first one, longer the further they are
//! from it, as the steps of floating-point numbers are.
//!
//! Main clauses: `table` of [`RadixTable::over`], and those of [`RadixTable::counts`] and
//! [`RadixTable::places`]. The words of the clauses are in `specs/`.
#![tactic(auto)]

mod candidate;
mod entries;
mod scale;
mod table;

pub use entries::fill_to;
pub use table::RadixTable;
