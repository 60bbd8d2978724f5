//! Scripts: lines of commands as text.
//!
//! The text `# two keys`, byte 10, `find 7`, byte 10, `find  007` is the script of two lines
//! `Find(7)`. In `find 7`, byte 10, `find` line 2 is the first with something wrong: its number is
//! missing.
//!
//! Main clauses: `script`, `fault` and `wherever` of [`parse`] and [`parse_as`], and `text` of
//! [`read_text`]. The words of the clauses are in `specs/`: lines and words in `Words.antt`, the
//! table of commands in `Commands.antt`, readings in `Scripts.antt`.
#![tactic(auto)]

mod fault;
mod grammar;
mod line;
mod list;
mod plain;
mod reading;
mod script;
mod verb;
mod words;

pub use fault::{ScriptFault, Why};
pub use grammar::{parse, parse_as, readings_are_one};
pub use list::{Finds, LineList};
pub use reading::read_text;
pub use script::{ScriptKind, ScriptLine};
