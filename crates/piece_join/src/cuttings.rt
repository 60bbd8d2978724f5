// Where points are cut into pieces.
ghost use Rattle.std.specs.Prelude.{◌≡◌, ◌+◌, ◌*◌, ◌<◌, vec_len, IfOk};
ghost use Rattle.piece_join.specs.Cuttings.{AreCutsAt, AreFewCuts, even_place, uneven_place};
ghost use Rattle.piece_join.specs.Cuttings.{with_cut};

use budget::NoMemory;
use options::{Pieces, Workers};
use std::alloc::Global;

/// The cuts of `m` points into equal pieces.
///
/// They are the values of `k * m / pieces`, rounded down, for the k below `pieces`, without 0, `m`
/// and repeats: of 10 points and 4 pieces 2, 5 and 7.
///
/// # Errors
///
/// `NoMemory` alone.
pub fn even_cuts(alloc: Global, m: u32, pieces: Pieces) -> Result<Vec<u32>, NoMemory>
    ensures cuts { IfOk result (λ cuts. AreFewCuts m cuts.items) }
    ensures places { IfOk result
        (λ cuts. AreCutsAt m pieces.count (even_place m pieces.count) cuts.items) }
    ensures count { IfOk result (λ cuts. vec_len cuts < pieces.count) }
{
    let mut cuts = Vec::with_capacity(alloc, pieces.count as usize - 1)?;
    for k in 1..pieces.count {
        let place = u64::from(k) * u64::from(m) / u64::from(pieces.count);
        add_cut(&mut cuts, place as u32)?;
    }
    Ok(cuts)
}

/// The cuts of `m` points into 8 pieces a worker, each longer than the one before it by as much as
/// the first one is long.
///
/// With P pieces they are the values of `m * k * (k + 1) / (P * (P + 1))`, rounded down, for the k
/// below P, without 0, `m` and repeats: of 72 points and one worker 2, 6, 12, 20, 30, 42 and 56.
///
/// # Errors
///
/// `NoMemory` alone.
pub fn uneven_cuts(alloc: Global, m: u32, workers: Workers) -> Result<Vec<u32>, NoMemory>
    ensures cuts { IfOk result (λ cuts. AreFewCuts m cuts.items) }
    ensures places { IfOk result
        (λ cuts. AreCutsAt m (8 * workers.count) (uneven_place m (8 * workers.count)) cuts.items) }
    ensures count { IfOk result (λ cuts. vec_len cuts < 8 * workers.count) }
{
    let pieces = 8 * workers.count;
    let all = u64::from(pieces) * u64::from(pieces + 1);
    let mut cuts = Vec::with_capacity(alloc, pieces as usize - 1)?;
    for k in 1..pieces {
        let place = u64::from(m) * u64::from(k) * u64::from(k + 1) / all;
        add_cut(&mut cuts, place as u32)?;
    }
    Ok(cuts)
}

/// Adds a cut that is none of 0 and those before it, which are at most it.
fn add_cut(cuts: &mut Vec<u32>, cut: u32) -> Result<(), NoMemory>
    ensures { IfOk result (λ _. cuts.new.items ≡ with_cut cuts.old.items cut) }
{
    let last = cuts.last().copied().unwrap_or(0);
    if last < cut {
        cuts.push(cut)?;
    }
    Ok(())
}
