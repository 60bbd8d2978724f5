//! Points in sorted codes, and the points of a region by a walk that jumps over the codes between.
//!
//! The Morton codes of the points are kept sorted, with an index over them. Of the sixteen points
//! of a square of side 4 the region from (1, 1) to (2, 2) has four, with the codes 3, 6, 9 and 12:
//!
//!     codes    0 1 2 3 4 5 6 7 8 9 10 11 12 13 14 15
//!     inside         *     *     *        *
//!     looked         ^ ^   ^ ^   ^  ^     ^  ^
//!
//! The walk begins at the low corner's code. After a code inside it looks at the next place; after
//! a code outside it jumps to the next code of the region. So it looks at 8 places.
//!
//! Over codes that stay where they are [`next_places`] gives stretches of places.
//!
//! Main clauses: `codes` and `looked` of [`Boxes::search`], and `all` of [`next_places`]. The words
//! of the clauses are in `specs/`.
#![tactic(auto)]

mod answer;
mod boxes;
mod cells;
mod codes;
mod found;
mod places;
mod walk;

pub use answer::one_answer;
pub use boxes::Boxes;
pub use found::Found;
pub use places::{count_places, next_places};
pub use walk::Walk;
