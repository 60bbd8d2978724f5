//! Key files: an unsigned 64-bit count, then that many ascending unsigned keys of 64 or 32 bits,
//! all little endian (SOSD). And point files: a count like it, then the coordinates of that many
//! points, 32 bits each.
//!
//! The keys 7, 7, 9 are the file of the eight bytes 3, 0, .., the eight bytes 7, 0, .. twice, and
//! 9, 0, ...
//!
//! All other bytes have one fault, the first in their order: the keys 3, 2 fall at key 1, and a
//! file that says three keys and has two, in order, is short at 24 bytes.
//!
//! Main clauses: `fault`, `wherever` and `taken` of [`read_keys`] and of [`read_points`], and what
//! they read, `keys` and `points`. The words of the clauses are in `specs/NumberFiles.antt`
//! and `specs/FileFaults.antt`, for both kinds of files.
#![tactic(auto)]

mod fault;
mod keys;
mod number_list;
mod points;
mod reading;

pub use fault::KeyFault;
pub use keys::{read_keys, readings_are_one};
pub use points::{point_readings_are_one, read_points};
