// The table, in one pass over the runs.
ghost use Rattle.std.specs.Prelude.{◌≤◌, IfOk};
ghost use Rattle.bucketed.specs.Tables.{IsTable};

use budget::NoMemory;
use levels::Index;
use options::MAX_BITS;
use radix_table::fill_to;
use std::alloc::Global;

/// The entries of all buckets, and one more, which is the number of runs.
pub fn table_of(alloc: Global, index: &Index, bits: u32) -> Result<Vec<u32>, NoMemory>
    requires some { 1 ≤ bits }
    requires few { bits ≤ MAX_BITS }
    ensures { IfOk result (λ table. IsTable index.now bits table.items) }
{
    let buckets = 1usize << bits;
    let mut table = Vec::with_capacity(alloc, buckets + 1)?;
    let runs = index.runs();
    for run in 0..runs {
        let bucket = index.first_x(run) >> (64 - bits);
        fill_to(&mut table, bucket as usize + 1, run)?;
    }
    fill_to(&mut table, buckets + 1, runs)?;
    Ok(table)
}
