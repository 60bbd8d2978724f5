//! The points that an index over the keys of a file stands on.
//!
//! Each distinct key is a point at its first position in the file, and keys that are equal have a
//! closing point behind them. Of the keys 5, 5, 5, 9 the distinct ones are 5 and 9, and the points
//! are (5, 0), (6, 3) and (9, 3).
//!
//! Main clauses: those of [`Keys::of`], [`Keys::of_distinct`], [`Keys::tested`] and [`judge`],
//! those of [`Keys::distinct`], [`Keys::first`] and [`Keys::point_count`], and those of
//! [`KeyPoints::points`]. The words of the clauses are in `specs/`.
#![tactic(auto)]

mod alone;
mod fault;
mod keys;
mod order;
mod parts;
mod placed;
mod points;

pub use fault::KeysFault;
pub use keys::Keys;
pub use order::{is_sorted, judge};
pub use placed::places_of;
pub use points::KeyPoints;
