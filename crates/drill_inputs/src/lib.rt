//! Inputs of every kind, drawn from a number.
//!
//! A linear congruential generator draws, by a seed, numbers below 32768; of them `n` keys, `n`
//! questions, `n` points in the plane and `n` updates are made, one list after the other. With `n`
//! 2 and the seed 1:
//!
//!     draws 0 and 1     16838  5758                modulo 16, summed: the keys 6 and 20
//!     draws 2 and 3     10113 17515                modulo 32: the questions 1 and 11
//!     draws 4 to 7      31051  5627 23010  7419    modulo 256: the points (75, 251), (226, 251)
//!     draws 8 to 11     16212  4086  2749 12767    Put(0, 4086) and Put(1, 12767)
//!
//! Main clauses: `keys`, `finds`, `coordinates` and `updates` of [`Inputs::drawn`]. The words of
//! the clauses are in `specs/Draws.antt` and `specs/Inputs.antt`.
#![tactic(auto)]

mod generator;
mod inputs;
mod lists;

pub use generator::Generator;
pub use inputs::{Inputs, searched_region};
