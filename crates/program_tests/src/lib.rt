//! Worked rows through the whole program, by its one call, and the examples that READMEs quote.
//!
//! What a contract says isn't tested again. Expected values were worked out by hand or by a program
//! in another language.
#![tactic(auto)]

#[cfg(test)]
mod readme_examples;
#[cfg(test)]
mod tests;
