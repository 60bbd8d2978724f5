// The table over an index.
ghost use Rattle.std.specs.Prelude.{◌≡◌, ◌-◌, ◌<◌, ◌≤◌, ◌^◌, IfOk};
ghost use Rattle.bucketed.specs.Tables.{entry_at};

use crate::table::table_of;
use budget::NoMemory;
use levels::Index;
use options::MAX_BITS;
use std::alloc::Global;
use std::marker::Model;

/// An index with a table of the runs of level 0, by the top bits of their first x. Seen as a record
/// of the index and of how many bits these are.
///
/// 1. Entry h is how many runs of level 0 have a first x whose top bits are below h.
/// 2. The index is borrowed, and its models are used; the table takes 4 bytes a bucket.
///
/// Source: Ferragina and Vinciguerra, the bucketing form of the PGM-index library, 2020.
#[derive(Drop)]
pub struct Buckets<'a> {
    index: &'a Index,
    bits: u32,
    table: Vec<u32>,
}

impl<'a> Model for Buckets<'a> {
    ghost use Rattle.bucketed.specs.Tables.{Bucketed, AreBuckets};

    ghost Value = { Bucketed };

    ghost view = { λ buckets. record { index = buckets.index.now; bits = buckets.bits } };

    ghost invariant = { λ buckets. AreBuckets buckets.index.now buckets.bits buckets.table.items };
}

impl<'a> Buckets<'a> {
    /// The table over an index, by the top `bits` bits, 1 to 20.
    ///
    /// The runs of level 0 are gone through once.
    ///
    /// # Errors
    ///
    /// `NoMemory` alone. The index is as it was.
    pub fn build(alloc: Global, index: &'a Index, bits: u32) -> Result<Buckets<'a>, NoMemory>
        requires some { 1 ≤ bits }
        requires few { bits ≤ MAX_BITS }
        ensures index { IfOk result (λ buckets. buckets.index ≡ index.now) }
        ensures bits { IfOk result (λ buckets. buckets.bits ≡ bits) }
    {
        let table = table_of(alloc, index, bits)?;
        Ok(Buckets { index, bits, table })
    }

    /// How many bits tell a bucket, 1 to 20.
    #[inline(always)]
    pub(crate) fn bits(&self) -> u32
        ensures bits { result ≡ self.now.bits }
        ensures some { 1 ≤ result }
        ensures few { result ≤ MAX_BITS }
    {
        self.bits
    }

    /// The index.
    #[inline(always)]
    pub(crate) fn index(&self) -> &Index
        ensures { result.now ≡ self.now.index }
    {
        self.index
    }

    /// How many runs of level 0 have a first x whose top bits are below `h`. The last entry, that
    /// of the number of buckets, is the number of runs. Cannot fail and takes no memory.
    #[inline(always)]
    pub fn entry(&self, h: u32) -> u32
        requires { h ≤ 2 ^ self.now.bits }
        ensures { result ≡ entry_at self.now.index self.now.bits h }
    {
        let table = &self.table;
        table[h as usize]
    }
}
