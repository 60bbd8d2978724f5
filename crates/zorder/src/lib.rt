//! Morton codes of points of two, three or four coordinates, and the regions that are asked for by
//! them.
//!
//! The code of a point takes its coordinates' bits in turn, the lowest first. Of the point (5, 3),
//! with `x` = 101 and `y` = 011 in bits, the code is 27:
//!
//!     y   0 . 1 . 1 .
//!     x   . 1 . 0 . 1
//!     z   0 1 1 0 1 1
//!
//! So points that are near one another mostly have codes that are, and a box of points is some runs
//! of codes between those of its corners. Main clauses: `bits` and `decodes` of [`encode`],
//! `encodes` of [`decode`], `exact` of [`inside`]. The words of the clauses are in
//! `specs/Codes.antt` and `specs/Regions.antt`.
#![tactic(auto)]

mod codes;
mod columns;
mod corner_codes;
mod dilated;
mod regions;
mod spread;
mod triples;

pub use codes::{decode, encode, fits_range};
pub use columns::decode_pairs;
pub use corner_codes::{Corners, is_between};
pub use dilated::dilated_coordinate;
pub use regions::{Region, inside, is_empty};
pub use triples::decode_triples;
