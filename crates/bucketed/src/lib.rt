//! A PGM-index whose levels above level 0 are replaced by a table.
//!
//! The top bits of a question are its bucket, and the table has for each bucket how many runs of
//! level 0 begin before it. So one look into the table leads to the few runs that begin in the
//! bucket, and to the last one before it. Of the keys 0, 1, 4, 9, 16, 25 with the error bound 0,
//! three runs begin at 0, 4 and 16; with 4 bits all are in bucket 0, so that entry 0 is 0 and the
//! others are 3.
//!
//! Main clauses: `found` and `cost` of [`Buckets::lower_bound`], and that of [`Buckets::entry`].
//! The words of the clauses are in `specs/`.
#![tactic(auto)]

mod buckets;
mod lookup;
mod positions;
mod table;

pub use buckets::Buckets;
