// Reading the file of an index: its head, its levels, and that nothing follows.
ghost use Rattle.std.specs.Prelude.{◌≡◌, ◌+◌, ◌*◌, ◌<◌, ◌≤◌, ◌^◌, ℕ, length, take, drop};
ghost use Rattle.std.specs.Prelude.{◌⊎◌, Result, slice_index, All, IfOk, OnOk, IfSome, MatchResult};
ghost use Rattle.std.specs.List.{flat_map};
ghost use Rattle.edge.specs.Readers.{Reads, GivesPiece};
ghost use Rattle.edge.specs.Risen.{StaysQuiet};
ghost use Rattle.index_file.specs.Spelling.{magic, number, cut_bytes, run_bytes};
ghost use Rattle.index_file.specs.Spelling.{level_bytes, head_bytes, runs_of, SavedIndex};
ghost use Rattle.index_file.specs.Spelling.{CutFits, RunFits, LevelFits, IsBounded};
ghost use Rattle.index_file.specs.Stops.{IsNumber, FollowsInCut, IsRun, IsBeforeCut, AreRuns};
ghost use Rattle.index_file.specs.Stops.{AreBeforeCut, IsLevel, IsBeforeLevelCut, AreLevels};
ghost use Rattle.index_file.specs.Stops.{AreBeforeLevelCut, IsNoCut, EndsIn, TakesIn, GivesCut};
ghost use Rattle.index_file.specs.Stops.{origin_of, ReadsIn, ReadsFew};
ghost use Rattle.index_file.specs.Faults.{ReadsAs, GivesIndex, ReadsFile};

use crate::spelling::MAGIC;
use crate::{IndexFault, Saved, SavedCut, SavedRun};
use edge::{Shelf, fill, next_byte};
use exact_cross::MAX_EPSILON;
use std::alloc::Global;

/// For how many runs at most memory is taken ahead of their bytes.
const CHUNK: u32 = 65_536;

/// Where a level begins at most: the runs of a longer file need more memory than there can be.
const FURTHEST: u64 = 1 << 62;

/// The index that the taken file holds.
///
/// Memory is taken by what was read: for at most 65,536 runs ahead of their bytes, and never by the
/// numbers of the file alone. At most one byte past the last level is read, and none past a fault
/// but for what is left of the first eight bytes. Each turn of a loop takes bytes or ends.
///
/// # Errors
///
/// The first fault in the order of the bytes that were left to read:
///
/// - `Magic` where one of the first eight bytes isn't that of `PGMINDEX`.
/// - `Epsilon` where an error bound is above 1,048,576.
/// - `Side` where the byte that says why a run ends is above 2.
/// - `Short` where the bytes end before the last level does, and have no fault before their end.
/// - `Trailing` where a byte follows the last level.
///
/// `ReadFault` at once where the shelf failed; then nothing is left. `NoMemory` where memory for
/// the next runs wasn't found, and where the levels so far have more than 2^62 bytes.
pub fn read_index<F: Shelf>(alloc: Global, shelf: &mut F) -> Result<Saved, IndexFault>
    // The files stay, and the count rises only where the shelf failed. Where the shelf tells the
    // bytes, they are the spelling of the index, or the fault is theirs. What is left is what was
    // left, but for a front part: one byte past the last level, at most.
    ensures reading { ReadsFile F.Shelf GivesIndex shelf.old result shelf.new }
    ensures wherever { IfSome (F.rest shelf.old)
        (λ bytes. (reading : Result SavedIndex IndexFault) → ReadsAs bytes reading →
        StaysQuiet (F.faults shelf.old) (F.faults shelf.new) →
        MatchResult result (λ saved. reading ≡ Ok saved)
        (λ fault. (fault ≡ IndexFault.NoMemory) ⊎ (reading ≡ Err fault))) }
    // Told or not.
    ensures bounded { IfOk result (λ saved. IsBounded saved.eps saved.eps_rec saved.levels) }
{
    match read_file(alloc, shelf) {
        Ok(saved) => Ok(saved),
        Err(fault) => Err(fault),
    }
}

/// The index that the file holds, or the fault that its bytes have.
fn read_file<F: Shelf>(alloc: Global, shelf: &mut F) -> Result<Saved, IndexFault>
    ensures bounded { IfOk result (λ saved. IsBounded saved.eps saved.eps_rec saved.levels) }
    ensures reading { ReadsFile F.Shelf GivesIndex shelf.old result shelf.new }
{
    let head = read_head(shelf)?;
    let mut at = 20;
    let levels = read_levels(alloc, shelf, head.levels, &mut at)?;
    let after = next_byte(shelf)?;
    if let Some(byte) = after {
        return Err(IndexFault::Trailing { byte });
    }
    Ok(Saved::from_levels(head.eps, head.eps_rec, levels))
}

/// The first twenty bytes: the two error bounds, and the number of levels.
#[derive(Clone, Copy)]
struct Head {
    eps: u32,
    eps_rec: u32,
    levels: u32,
}

/// The head of the file.
fn read_head<F: Shelf>(shelf: &mut F) -> Result<Head, IndexFault>
    ensures small { IfOk result (λ head. head.eps ≤ MAX_EPSILON) }
    ensures small_rec { IfOk result (λ head. head.eps_rec ≤ MAX_EPSILON) }
    ensures few { IfOk result (λ head. head.levels < 2 ^ 32) }
    ensures reading { ReadsFile F.Shelf
        (GivesPiece (λ head. head_bytes head.eps head.eps_rec head.levels))
        shelf.old result shelf.new }
{
    read_magic(shelf)?;
    let mut at = 8;
    let eps = read_number(shelf, &mut at)?;
    if eps > MAX_EPSILON {
        return Err(IndexFault::Epsilon { value: eps });
    }
    let eps_rec = read_number(shelf, &mut at)?;
    if eps_rec > MAX_EPSILON {
        return Err(IndexFault::Epsilon { value: eps_rec });
    }
    let levels = read_number(shelf, &mut at)?;
    Ok(Head {
        eps,
        eps_rec,
        levels,
    })
}

/// Takes `PGMINDEX`.
fn read_magic<F: Shelf>(shelf: &mut F) -> Result<(), IndexFault>
    ensures { ReadsFile F.Shelf (GivesPiece (λ _. magic)) shelf.old result shelf.new }
{
    let mut bytes = [0; 8];
    let got = fill(shelf, &mut bytes)?;
    for at in 0..got {
        if bytes[at] != MAGIC[at] {
            return Err(IndexFault::Magic { at: at as u64 });
        }
    }
    if got < 8 {
        return Err(IndexFault::Short { got: got as u64 });
    }
    Ok(())
}

/// Fills the buffer with the next bytes. `at` is the offset of the next byte, before and after.
fn fill_all<F: Shelf>(shelf: &mut F, bytes: &mut [u8], at: &mut u64) -> Result<(), IndexFault>
    requires room { at.old + length bytes.old < 2 ^ 64 }
    ensures at { OnOk result (at.new ≡ at.old + length bytes.old) }
    ensures small { (k : ℕ) → slice_index bytes.new k < 256 }
    ensures reading { Reads F.Shelf origin_of (GivesPiece (λ _. bytes.new))
        (EndsIn bytes.new at.old) (TakesIn IsNoCut at.old) shelf.old result shelf.new }
{
    let got = fill(shelf, bytes)?;
    *at += got as u64;
    if got < bytes.len() {
        return Err(IndexFault::Short { got: *at });
    }
    Ok(())
}

/// The next number, of four bytes.
fn read_number<F: Shelf>(shelf: &mut F, at: &mut u64) -> Result<u32, IndexFault>
    requires room { at.old + 4 < 2 ^ 64 }
    ensures at { OnOk result (at.new ≡ at.old + 4) }
    ensures reading { ReadsFew F.Shelf (GivesPiece number) IsNumber at.old
        shelf.old result shelf.new }
{
    let mut bytes = [0; 4];
    fill_all(shelf, &mut bytes, at)?;
    Ok(number_at(&bytes, 0))
}

/// The number of the four bytes from `i` on.
fn number_at(bytes: &[u8], i: usize) -> u32
    requires { i + 4 ≤ length bytes.now }
    ensures bytes { number result ≡ take 4 (drop i bytes.now) }
{
    let four = [bytes[i], bytes[i + 1], bytes[i + 2], bytes[i + 3]];
    u32::from_le_bytes(four)
}

/// The rest of a cut that begins with this byte, which is 0, 1 or 2.
fn read_cut<F: Shelf>(shelf: &mut F, at: &mut u64, byte: u8) -> Result<SavedCut, IndexFault>
    requires room { at.old + 8 < 2 ^ 64 }
    requires side { byte ≤ 2 }
    ensures fits { IfOk result CutFits }
    ensures at { IfOk result (λ cut. at.new + 1 ≡ at.old + length (cut_bytes cut)) }
    ensures few { OnOk result (at.new ≤ at.old + 8) }
    ensures reading { ReadsFew F.Shelf (GivesCut byte) (FollowsInCut byte) at.old
        shelf.old result shelf.new }
{
    if byte == 0 {
        return Ok(SavedCut::Last);
    }
    if byte == 1 {
        return Ok(SavedCut::Over);
    }
    let mut bytes = [0; 8];
    fill_all(shelf, &mut bytes, at)?;
    Ok(SavedCut::Under(number_at(&bytes, 0), number_at(&bytes, 4)))
}

/// The next run.
fn read_run<F: Shelf>(shelf: &mut F, at: &mut u64) -> Result<SavedRun, IndexFault>
    requires room { at.old + 21 < 2 ^ 64 }
    ensures fits { IfOk result RunFits }
    ensures at { IfOk result (λ run. at.new ≡ at.old + length (run_bytes run)) }
    ensures few { OnOk result (at.new ≤ at.old + 21) }
    ensures reading { ReadsIn F.Shelf (GivesPiece run_bytes) IsRun IsBeforeCut at.old
        shelf.old result shelf.new }
{
    let mut front = [0; 13];
    fill_all(shelf, &mut front, at)?;
    let byte = front[12];
    if byte > 2 {
        return Err(IndexFault::Side { at: *at - 1, byte });
    }
    let cut = read_cut(shelf, at, byte)?;
    Ok(SavedRun {
        start: number_at(&front, 0),
        a: number_at(&front, 4),
        b: number_at(&front, 8),
        cut,
    })
}

/// The next runs, for which memory is taken by chunks.
fn read_runs<F: Shelf>(
    alloc: Global,
    shelf: &mut F,
    count: u32,
    at: &mut u64,
) -> Result<Vec<SavedRun>, IndexFault>
    requires room { at.old + 21 * count < 2 ^ 64 }
    ensures fits { IfOk result (λ runs. All RunFits runs.items) }
    ensures len { IfOk result (λ runs. length runs.items ≡ count) }
    ensures at { IfOk result (λ runs. at.new ≡ at.old + length (flat_map run_bytes runs.items)) }
    ensures reading { ReadsIn F.Shelf (GivesPiece (λ runs. flat_map run_bytes runs.items))
        (AreRuns count) (AreBeforeCut count) at.old shelf.old result shelf.new }
{
    let mut runs = Vec::new(alloc);
    for done in 0..count {
        if done % CHUNK == 0 {
            runs.reserve_exact((count - done).min(CHUNK) as usize)?;
        }
        let run = read_run(shelf, at)?;
        if runs.push(run).is_err() {
            return Err(IndexFault::NoMemory);
        }
    }
    Ok(runs)
}

/// The next level.
fn read_level<F: Shelf>(
    alloc: Global,
    shelf: &mut F,
    at: &mut u64,
) -> Result<Vec<SavedRun>, IndexFault>
    requires room { at.old ≤ FURTHEST }
    ensures fits { IfOk result (λ runs. LevelFits runs.items) }
    ensures at { IfOk result (λ runs. at.new ≡ at.old + length (level_bytes runs.items)) }
    ensures reading { ReadsIn F.Shelf (GivesPiece (λ runs. level_bytes runs.items))
        IsLevel IsBeforeLevelCut at.old shelf.old result shelf.new }
{
    let count = read_number(shelf, at)?;
    let runs = read_runs(alloc, shelf, count, at)?;
    Ok(runs)
}

/// The levels.
fn read_levels<F: Shelf>(
    alloc: Global,
    shelf: &mut F,
    count: u32,
    at: &mut u64,
) -> Result<Vec<Vec<SavedRun>>, IndexFault>
    ensures fits { IfOk result (λ levels. All LevelFits (runs_of levels.items)) }
    ensures len { IfOk result (λ levels. length (runs_of levels.items) ≡ count) }
    ensures reading { ReadsIn F.Shelf
        (GivesPiece (λ levels. flat_map level_bytes (runs_of levels.items)))
        (AreLevels count) (AreBeforeLevelCut count) at.old shelf.old result shelf.new }
{
    let mut levels = Vec::new(alloc);
    for done in 0..count {
        if *at > FURTHEST {
            return Err(IndexFault::NoMemory);
        }
        let level = read_level(alloc, shelf, at)?;
        if levels.push(level).is_err() {
            return Err(IndexFault::NoMemory);
        }
    }
    Ok(levels)
}
