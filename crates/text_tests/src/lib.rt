//! Worked rows and outside vectors of the crates that read and write bytes, and of codes of points,
//! by their public calls alone.
//!
//! What a contract says isn't tested again. Expected values were worked out by hand or by a program
//! in another language.
#![tactic(auto)]

#[cfg(test)]
mod bigmin_rows;
#[cfg(test)]
mod command_line_rows;
#[cfg(test)]
mod expected;
#[cfg(test)]
mod pgm_script_rows;
#[cfg(test)]
mod readme_examples;
#[cfg(test)]
mod shelves;
#[cfg(test)]
mod sosd_reader_rows;
#[cfg(test)]
mod written_rows;
#[cfg(test)]
mod zorder_rows;
