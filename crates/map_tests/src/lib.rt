//! The examples that READMEs quote, and worked rows of merges, of the map and its versions, of
//! senders and of the inputs that are drawn, by public calls alone.
//!
//! What a contract says isn't tested again. Expected values were worked out by hand or by a program
//! in another language.
#![tactic(auto)]

#[cfg(test)]
mod batches_rows;
#[cfg(test)]
mod drill_inputs_rows;
#[cfg(test)]
mod log_levels_draws;
#[cfg(test)]
mod log_levels_ends;
#[cfg(test)]
mod log_levels_pairs;
#[cfg(test)]
mod log_levels_ranges;
#[cfg(test)]
mod log_levels_rows;
#[cfg(test)]
mod map_level_rows;
#[cfg(test)]
mod map_replay_rows;
#[cfg(test)]
mod published_rows;
#[cfg(test)]
mod readme_examples;
#[cfg(test)]
mod senders_rows;
#[cfg(test)]
mod tombstones_rows;
