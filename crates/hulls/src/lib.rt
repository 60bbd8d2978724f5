//! The lines within an error bound of a run of points that grows: whether one is left, exactly, in
//! at most 10 steps a point.
//!
//! Of the points (0, 0), (1, 1), (2, 2), (10, 3) with the error bound 0 the first three are taken
//! in, and the fourth is refused: it lies under the line through the places 0 and 1, and these
//! three places are its witness.
//!
//! Main clauses: `fits`, `witness` and `cost` of [`Hulls::offer`], and `line` of [`Hulls::line`].
//! The words of the clauses are those of `exact_cross`, and `StandsFor` of `specs/Hulls`, which
//! ties a [`Hulls`] to the points that it was given.
#![tactic(auto)]

mod fitting;
mod flat;
mod hull;
mod search;
mod slope;
mod vertex;

pub use fitting::{Hulls, Offer};
pub use flat::FlatLine;
