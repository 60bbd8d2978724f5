//! The PGM-index over sorted keys: levels of segments, and the position of a key in the file.
//!
//! Of the keys 0, 1, 2, 10 with both error bounds 0, level 0 has the runs `0..3` and `3..4`, and
//! level 1 stands on their first keys, 0 and 10, with one run. The question 9 is asked at level 1,
//! which leads to the first run, and at level 0, where 3 keys are below it.
//!
//! Main clauses: `index` of [`Index::of`] and of [`Index::build`], `cost` of
//! [`Index::build_here`], `relaxed` of [`Index::build_relaxed`], `found` and `cost` of
//! [`Index::lower_bound`], `windows` of [`Index::windows`], and the laws [`one_index`] and
//! [`some_index`]. The words of the clauses are in `specs/`.
#![tactic(auto)]

mod build;
mod counted;
mod entry;
mod index;
mod level;
mod lookup;
mod model;
mod names;
mod near;
mod positions;
mod runs;
mod windows;

pub use edge::OpenGate;
pub use index::{Index, each_index_is_laid, one_index, one_relaxed_index, some_index};
pub use key_points::{Keys, KeysFault, is_sorted};
pub use options::{Bounds, Workers};
pub use windows::{LevelWindow, one_list_of_windows, some_windows};
