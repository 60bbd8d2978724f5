//! The nearest points of a centre, by the cells of their sorted codes.
//!
//! How far a point is from the centre is the greatest difference of a coordinate (Chebyshev). So
//! the places within a distance are a box, and no point outside it is nearer than one inside. An
//! answer tells in how many of the boxes of what is within 0, 1, 3, 7, .. of the centre its points
//! are found. Of the points (2, 0) and (1, 3) none is within 0 or 1 of (2, 2), and both are within
//! 3:
//!
//!     3   . 1 . .
//!     2   . . c .     distance, code   (1, 11) (2, 4)
//!     1   . . . .     boxes            3
//!     0   . . 2 .
//!
//! Main clauses: `points` and `boxes` of [`nearest`]. The words of the clauses are in `specs/`.
#![tactic(auto)]

mod answer;
mod around;
mod cells;
mod kept;
mod search;
mod walk;

pub use answer::Near;
pub use search::{nearest, nearest_into, one_answer, room_for};
