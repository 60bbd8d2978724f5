//! Lookups over keys that stay where they are.
//!
//! An index holds no key here: a lookup borrows, for the time of one call, the caller's keys and
//! some hints that say where to look first. Nothing is asked of either. Hints that are right make a
//! lookup fast; hints that are old, damaged or another list's make it slow, and never wrong, since
//! what they tell is only where the search begins.
//!
//! Of the keys 0, 1, 2, 10 the place of 3 is 3, whatever the hints: three keys are below it. Where
//! keys fall, as 5, 1, 9, a lookup gives a place that brackets the question: the key before it is
//! below the question, and the key there isn't.
//!
//! Main clauses: `bracket`, `found`, `worst` and `near` of [`position_counted`], which [`position`]
//! is with nothing counted, and `lead`, `least` and `small` of [`hints_of`], which makes the hints.
//! The words of the clauses are in `specs/`. No lookup takes memory, and none fails.
#![tactic(auto)]

mod hint_list;
mod line_hints;
mod line_list;
mod lookup;
mod made;
mod many;
mod table;

pub use hint_list::{told, whole_lines};
pub use lookup::{position, position_counted, upper_bound, upper_bound_counted};
pub use made::hints_of;
pub use many::{positions, positions_counted};
