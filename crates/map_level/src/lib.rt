//! One level of the map that changes, as it is kept, and who makes it.
//!
//! A level is entries by rising key, the last one of each key, with a PGM-index over its keys, a
//! filter that denies most keys it hasn't, and a grid where its keys are even. It is never changed.
//! The entries 3, 8 and 9 are at the places 0, 1 and 2, and the place of 5 is 1.
//!
//! Main clauses: of [`Level`] the entry with a key ([`Level::entry`]) and a key's place
//! ([`Level::place`]); of a [`Builder`] that all make the same; of [`latest_of`] the last entry of
//! each key. The words of the clauses are in `specs/`.
#![tactic(auto)]

mod builder;
mod entry_keys;
mod filter;
mod grid;
mod latest;
mod level;

pub use builder::{Builder, Built, ByWorkers, Here, Merged, index_in_pieces};
pub use filter::HashedKey;
pub use latest::latest_of;
pub use level::Level;
