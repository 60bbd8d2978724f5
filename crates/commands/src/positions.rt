// The positions of a list of questions, by threads.
ghost use Rattle.std.specs.Prelude.{◌≡◌, ◌+◌, ◌++◌, ◌<◌};
ghost use Rattle.std.specs.Prelude.{◌≤◌};
ghost use Rattle.std.specs.Prelude.{All, length, map};
ghost use Rattle.std.specs.Prelude.{vec_capacity, vec_len, IfOk, OnOk};
ghost use Rattle.std.specs.List.{flat_map};
ghost use Rattle.window_search.specs.Searches.{lb};
ghost use Rattle.commands.specs.Finders.{keys_of};
ghost use Rattle.commands.specs.Pieces.{piece_of};

use crate::finder::Finder;
use budget::NoMemory;
use options::Workers;
use rayon::slice::par_for_each_mut;
use std::alloc::Global;
use std::thread::Threads;

/// How many questions a piece of a list has. A list of at most so many stays on one thread.
const PIECE: usize = 2048;

/// How many it has at least where a finder gains by grouping questions, and there are as many: the
/// more are grouped together, the nearer to one another are the keys that are read. So there are no
/// more pieces then than workers.
const LONG_PIECE: usize = 262_144;

/// How many keys are below each question. The pieces of the list are shared among threads, and the
/// answers stand in the order of the questions.
pub fn positions_of<R: Threads + Sync>(
    rt: &R,
    alloc: Global,
    finder: &Finder<'_>,
    workers: Workers,
    questions: &[u64],
) -> Result<Vec<u32>, NoMemory>
    ensures { IfOk result
        (λ positions. positions.items ≡ map (lb (keys_of finder.now)) questions.now) }
{
    let mut positions = Vec::with_capacity(alloc, questions.len())?;
    let size = piece_size(finder, workers, questions.len());
    if questions.len() <= size {
        finder.positions(alloc, questions, &mut positions);
        return Ok(positions);
    }
    let mut pieces = empty_pieces(alloc, questions.len().div_ceil(size), size)?;
    par_for_each_mut(
        rt,
        &mut pieces,
        |i: usize, piece: &mut Vec<u32>|
            requires empty { vec_len piece.old ≡ 0 }
            requires room { size ≤ vec_capacity piece.old }
            ensures positions { piece.new.items
                ≡ map (lb (keys_of finder.entry.now)) (piece_of questions.entry.now size i) }
        {
            finder.positions(alloc, piece_of(questions, size, i), piece);
        },
    );
    join_pieces(&pieces, &mut positions)?;
    Ok(positions)
}

/// How many questions a piece of a list of so many has.
fn piece_size(finder: &Finder<'_>, workers: Workers, count: usize) -> usize
    ensures { 1 ≤ result }
{
    if count >= LONG_PIECE && finder.is_grouping() {
        LONG_PIECE.max(count.div_ceil(workers.count as usize))
    } else {
        PIECE
    }
}

/// Lists without positions, each with the room of a piece.
fn empty_pieces(alloc: Global, count: usize, size: usize) -> Result<Vec<Vec<u32>>, NoMemory>
    ensures count { IfOk result (λ pieces. vec_len pieces ≡ count) }
    ensures room { IfOk result (λ pieces.
        All (λ piece. (vec_len piece ≡ 0) × (size ≤ vec_capacity piece)) pieces.items) }
{
    let mut pieces = Vec::with_capacity(alloc, count)?;
    for _ in 0..count {
        pieces.push(Vec::with_capacity(alloc, size)?)?;
    }
    Ok(pieces)
}

/// The questions of a piece. Behind the last there are none.
fn piece_of(questions: &[u64], size: usize, i: usize) -> &[u64]
    ensures piece { result.now ≡ piece_of questions.now size i }
    ensures few { length result.now ≤ size }
{
    let start = i.saturating_mul(size).min(questions.len());
    let rest = &questions[start..];
    &rest[..size.min(rest.len())]
}

/// Puts the positions of the pieces one behind the other.
fn join_pieces(pieces: &[Vec<u32>], into: &mut Vec<u32>) -> Result<(), NoMemory>
    ensures { OnOk result (into.new.items
        ≡ into.old.items ++ flat_map (λ piece. piece.items) pieces.now) }
{
    for i in 0..pieces.len() {
        into.extend_from_slice(&pieces[i])?;
    }
    Ok(())
}
