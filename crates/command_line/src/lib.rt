//! The words of the command line, and what they ask for.
//!
//! `pgmtool explain four.keys --eps 0` asks for the command `explain` over the key file
//! `four.keys`, with the error bounds 0 and, where no other is given, 4 for the levels above level
//! 0. `clap` reads the words, by one definition (`specs/Application.antt`) that both the program
//! and the clauses go by.
//!
//! Main clauses: `asks` and `usage` of [`requested`], and the law [`taken_words_ask`].
#![tactic(auto)]

mod definition;
mod request;
mod words;

pub use request::{
    Building, Checking, Drilling, Finding, Hinting, MAX_BATCH, Replaying, Request, Searching,
};
pub use words::{NoRequest, requested, taken_words_ask};
