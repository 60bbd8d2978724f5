//! The window of places that a segment's line leaves open for a key, and searches by it.
//!
//! A line that is within `ε` at each point of its run predicts the place of a key, and is at most
//! `ε` places off. So the places that are to be searched are few: of the keys 0, 10, 11, 12 with `ε
//! = 1` and the line `-1 + 3 * x / 10`, the key 11 is predicted at 2, and its window is 0..=4.
//!
//!     places   [0  1  2  3  4]
//!     keys      0 10 11 12
//!
//! Where no line is trusted, a search goes from a hint away: it finds a place that brackets the
//! question in any keys, sorted or not.
//!
//! Main clauses: `holds` of [`window`], the one and `cost` of [`predecessor_in`] and [`lower_in`],
//! and those of [`bracket_from`].
//! The words of the clauses are in `specs/`. No call takes memory.
#![tactic(auto)]

mod brackets;
mod keys;
mod searches;
mod windows;

pub use brackets::{bracket_from, bracket_of, is_bracket};
pub use keys::{CountedKeys, KeyList};
pub use searches::{lower_in, predecessor_in};
pub use windows::window;
