//! Worked rows, outside vectors and threads that really ran, of the static index, its tables and
//! its boxes, by public calls alone.
//!
//! What a contract says isn't tested again. Expected values were worked out by hand or by a program
//! in another language.
#![tactic(auto)]

#[cfg(test)]
mod boxes_rows;
#[cfg(test)]
mod bucketed_rows;
#[cfg(test)]
mod claims_rows;
#[cfg(test)]
mod common;
#[cfg(test)]
mod cut_witness_rows;
#[cfg(test)]
mod exact_cross_rows;
#[cfg(test)]
mod hints_rows;
#[cfg(test)]
mod hulls_rows;
#[cfg(test)]
mod index_file_rows;
#[cfg(test)]
mod key_points_rows;
#[cfg(test)]
mod levels_rows;
#[cfg(test)]
mod near_rows;
#[cfg(test)]
mod neighbours_rows;
#[cfg(test)]
mod piece_join_rows;
#[cfg(test)]
mod places_rows;
#[cfg(test)]
mod radix_table_rows;
#[cfg(test)]
mod readme_examples;
#[cfg(test)]
mod segmenter_rows;
#[cfg(test)]
mod window_search_rows;
