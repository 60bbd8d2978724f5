//! Jumps along the Morton order: the least code above a given one that is inside a region.
//!
//! A scan of sorted codes that has left a region would look at many codes before it comes back into
//! it; the jump says where that is. Of the square from (1, 1) to (2, 2), whose codes are 3, 6, 9
//! and 12, the next code after 4 is 6.
//!
//! The next code has the bits of the given one above some place, a one at that place, where the
//! given one has a zero, and the least bits below it that keep each coordinate in its interval. The
//! lowest such place is found from the highest places at which each coordinate differs from the
//! ends of its interval, all of them at once, and not bit by bit as by Tropf and Herzog. Main
//! clauses: those of [`next_in_box`]. The words of the clauses are in `specs/`. No call takes
//! memory.
#![tactic(auto)]

mod filled;
mod jump;
mod openings;

pub use jump::{next_by_corners, next_in_box};
