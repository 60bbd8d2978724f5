//! Segmentation by pieces: several workers segment parts of the points, and what they found is
//! joined to the one segmentation of them all.
//!
//! Each piece is segmented as if a run began at its edge, which may be wrong. So joining goes on
//! from the last run that is known to be right until a run ends where the next piece speculated a
//! start; from there on the piece's runs are the right ones, since from one start there is one run.
//! Of the keys 0, 1, 2, 10 with `ε = 0`, cut at the place 1, the right piece has the starts 1 and
//! 3. The run from 0 goes on to the place 3, meets the second of them, and the starts are 0 and 3.
//!
//! Pieces may also be put side by side as they are ([`relaxed`]): then no worker waits for another,
//! and there is at most one run too many for each cut.
//!
//! Main clauses: `segmentation` and `one_list` of [`segment_in_pieces`] and [`join`]; `relaxed`,
//! `shown` and `slack` of [`relaxed`]. The words of the clauses are those of `exact_cross` and
//! `segmenter`, and in `specs/Cuttings.antt` and `specs/Relaxed.antt`.
#![tactic(auto)]

mod cuttings;
mod joining;
mod piece;
mod pieces;
mod unjoined;
mod work;
mod worker;

pub use cuttings::{even_cuts, uneven_cuts};
pub use joining::join;
pub use pieces::segment_in_pieces;
pub use unjoined::relaxed;
