//! Numbers that workers draw from one word, each number below a bound once, and none left out.
//!
//! Pieces of work are numbered from 0, and each worker has a seat. To draw is one step on a word
//! that all workers share: it is read and raised by one, and what was read is the worker's number.
//! A worker whose step finds no number below the bound has ended. Of three pieces, one worker may
//! draw 0 and 1 and another 2; then both are told that there are no more, and the word is 5.
//!
//! However the workers' steps interleave: the word is the number of draws that were made, and the
//! numbers drawn are those below the lesser of the word and the bound, each once.
//!
//! Main clauses: `draw` of [`Seat::draw`], `once` and `word` of [`Claims::close`]. The words of the
//! clauses are in `specs/Claims.antt`.
#![tactic(auto)]

mod seats;
mod views;

pub use seats::{Claims, Seat};
