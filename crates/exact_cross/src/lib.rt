//! Slopes, lines and the plain types of a piecewise linear index, compared exactly by cross
//! products.
//!
//! A key list stands for points: the key of rank `j` is the point `(key, j)`. A line fits a run of
//! places within the error bound `ε` where it passes each of their points at a vertical distance of
//! at most `ε`. Of the keys 0, 10, 11, 12 no line passes all four points exactly, so with `ε = 0`
//! two runs are needed, `0..2` and `2..4`.
//!
//! The words of the clauses are in `specs/`: points, slopes, lines, covers, the steep and the flat
//! pair, witnesses. No call takes memory.
#![tactic(auto)]

mod floor;
mod line;
mod points;
mod segment;
mod slope;

pub use line::Line;
pub use points::PointList;
pub use segment::{Segment, Side, Witness, start_at};
pub use slope::Slope;

/// The greatest error bound `ε`, in places.
pub const MAX_EPSILON: u32 = 1_048_576;
