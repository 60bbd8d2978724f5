//! An ordered map that changes, by the logarithmic method.
//!
//! New entries go to a buffer of 64, and full blocks of entries into levels of doubling size, each
//! with a PGM-index over its keys (Bentley and Saxe, Decomposable searching problems, J. Algorithms
//! 1(4), 1980; Ferragina and Vinciguerra, PVLDB 13(8), 2020). A deletion is an entry too, a
//! tombstone. With 200 entries there are 8 in the buffer, 64 behind 128, in level 0, and the 128
//! oldest in level 1; of each key a level has the last entry.
//!
//! Main clauses: of [`LogMap::put`], [`LogMap::del`], [`LogMap::sweep`] and [`LogMap::apply`] that
//! the map stands for these updates too, or is as it was, and when it is `Full` (`AreApplied`); the
//! answers of [`LogMap::get`], [`LogMap::next`], [`LogMap::previous`], [`LogMap::count`] and
//! [`LogMap::range`], by the map after the updates; `made` of [`LogMap::of_sorted`] and
//! [`LogMap::compacted`]; and the law [`one_map`]. The words of the clauses are in `specs/`.
#![tactic(auto)]

mod apply;
mod bare;
mod descent;
mod ends;
mod fault;
mod growth;
mod heads;
mod load;
mod log_map;
mod many;
mod names;
mod pairs;
mod questions;
mod range;
mod upcoming;
mod update;
mod updates;
mod walk;

pub use fault::{LoadFault, MapFault};
pub use log_map::{LogMap, capacity_with, one_map};
pub use pairs::Pairs;
pub use tombstones::Entry;
pub use update::Update;
