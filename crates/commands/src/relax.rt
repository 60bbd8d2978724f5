// The command `relax`.
ghost use Rattle.std.specs.Prelude.{◌≡◌, ◌<◌, ◌++◌, ℕ, false, List, map, Some};
ghost use Rattle.std.specs.Prelude.{IfOk};
ghost use Rattle.std.specs.List.Sorted.{IsNonDecreasing};
ghost use Rattle.window_search.specs.Searches.{lb};
ghost use Rattle.written.specs.Writing.{WritesPieces, WritesText};
ghost use Rattle.commands.specs.Finders.{IsRelaxedOf};
ghost use Rattle.commands.specs.Tasks.{Bounds as TaskBounds, bounds_of};
ghost use Rattle.commands.specs.Texts.Indexing.{tells_levels};
ghost use Rattle.commands.specs.Texts.Build.{built_level};
ghost use Rattle.commands.specs.Texts.Query.{IsAnswered};
ghost use Rattle.commands.specs.Texts.Relax.{IsBuiltRelaxed};

use crate::build::write_index;
use crate::finder::Finder;
use crate::positions::positions_of;
use crate::query::write_answers;
use crate::task::{Indexing, Relaxing};
use budget::NoMemory;
use edge::{Failed, Gate, Sink};
use levels::{Index, Keys};
use options::{Bounds, Pieces};
use piece_join::even_cuts;
use std::alloc::Global;
use std::thread::Threads;
use written::Unfinished;

/// Writes the relaxed index of the keys: how many keys and levels, of each level how many runs, of
/// level 0 also its slack, and then how many keys are below each question.
///
/// The slack is how many runs fewer a cover could have at most: one for each place where the points
/// are cut. All memory is taken before the first byte.
pub fn write<R: Threads + Sync, S: Sink, G: Gate>(
    rt: &R,
    alloc: Global,
    relaxing: Relaxing,
    out: &mut S,
    gate: &G,
) -> Result<(), Unfinished>
    ensures { WritesText S.Sink out.old result out.new
        (IsBuiltRelaxed relaxing.indexing.sorted.keys.items (bounds_of relaxing.indexing.bounds)
        relaxing.pieces.count relaxing.questions.items) }
{
    let Relaxing {
        indexing,
        pieces,
        questions,
    } = relaxing;
    let (bounds, workers) = (indexing.bounds, indexing.workers);
    let (index, slack) = relaxed_of(rt, alloc, indexing, pieces, gate)?;
    let questions = questions.as_slice();
    let positions = positions_of(rt, alloc, &Finder::Levels(&index), workers, questions)?;
    Ok(write_relaxed(out, alloc, &index, bounds, slack, questions, &positions)?)
}

/// The relaxed index of the keys, level 0 of which is built in even pieces by the workers, and at
/// how many places its points are cut.
fn relaxed_of<R: Threads + Sync, G: Gate>(
    rt: &R,
    alloc: Global,
    indexing: Indexing,
    pieces: Pieces,
    gate: &G,
) -> Result<(Index, u32), NoMemory>
    ensures { IfOk result (λ made. IsRelaxedOf indexing.sorted.keys.items
        (bounds_of indexing.bounds) pieces.count made.1 made.0) }
{
    let Indexing {
        sorted,
        bounds,
        workers,
    } = indexing;
    let keys = Keys::of(sorted.keys);
    let cuts = even_cuts(alloc, keys.point_count(), pieces)?;
    let index = Index::build_relaxed(rt, alloc, keys, bounds, &cuts, workers, gate)?;
    Ok((index, cuts.len() as u32))
}

/// Writes what is told of the index, and then the text line of each question.
fn write_relaxed<S: Sink>(
    out: &mut S,
    alloc: Global,
    index: &Index,
    bounds: Bounds,
    slack: u32,
    questions: &[u64],
    positions: &[u32],
) -> Result<(), Failed>
    requires positions { positions.now ≡ map (lb index.now.keys) questions.now }
    ensures { (answers : List (List ℕ)) × IsAnswered index.now.keys
        (bounds_of bounds) questions.now false answers × WritesPieces
        S.Sink out.old result out.new
        (tells_levels index.now.keys index.now.levels
        (built_level index.now.keys (bounds_of bounds) (Some slack) index.now.levels) ++ answers) }
{
    write_index(out, index, bounds, Some(slack))?;
    let mut room = Vec::new(alloc);
    let keys = index.keys().as_slice();
    write_answers(out, keys, bounds, questions, positions, None, &mut room)
}

/// Keys that never fall, error bounds, a number of pieces and questions have one text of `relax`:
/// it depends on nothing else, so not on how many workers there are. It does nothing.
pub fn one_relaxed()
    ensures { (keys : List ℕ) (bounds : TaskBounds) (pieces : ℕ) (questions : List ℕ)
        (one two : List (List ℕ)) → IsNonDecreasing keys
        → IsBuiltRelaxed keys bounds pieces questions one
        → IsBuiltRelaxed keys bounds pieces questions two → one ≡ two }
{}
