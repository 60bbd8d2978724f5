//! The places of the points that are nearest to a centre, in sorted codes that stay where they are.
//!
//! How far points are is told by a [`Metric`], coordinate by coordinate: the greatest difference
//! ([`Chebyshev`]), or the sum of the squares of the differences ([`Euclid`]). Of the points
//! (0, 0), (2, 0), (1, 3) and (3, 3), whose codes are 0, 4, 11 and 15, from (2, 2):
//!
//!     3   . * . *     Chebyshev   place, distance   (2, 1) (3, 1) (0, 2) (1, 2)
//!     2   . . c .     Euclid      place, square     (2, 2) (3, 2) (1, 4) (0, 8)
//!     1   . . . .
//!     0   * . * .
//!
//! Main clauses: `some` and `nearest` of [`nearest_places`]. The words of the clauses are in
//! `specs/`. No call takes memory, and none fails.
#![tactic(auto)]

mod around;
mod cells;
mod centre;
mod heap;
mod metric;
mod neighbour;
mod places;
mod walk;

pub use centre::Centre;
pub use metric::{Chebyshev, Euclid, Metric};
pub use neighbour::Neighbour;
pub use places::nearest_places;
