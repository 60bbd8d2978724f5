// The command `save`.
ghost use Rattle.std.specs.Prelude.{◌≡◌, ◌<◌, ◌^◌, ◌∷◌, ◌++◌, [], ℕ, List, length, map};
ghost use Rattle.std.specs.Prelude.{IfOk, OnOk};
ghost use Rattle.std.specs.List.Sorted.{IsNonDecreasing};
ghost use Rattle.levels.specs.Indexes.{IsIndex};
ghost use Rattle.index_file.specs.Spelling.{level_bytes};
ghost use Rattle.index_file.specs.Spelled.{saved_run};
ghost use Rattle.written.specs.Writing.{WritesPieces, WritesText};
ghost use Rattle.commands.specs.Tasks.{Bounds as TaskBounds, bounds_of};
ghost use Rattle.commands.specs.Texts.Save.{IsSaved, saved_pieces};

use crate::indexing::index_of;
use crate::task::Indexing;
use budget::NoMemory;
use edge::{Failed, Gate, Sink};
use exact_cross::Segment;
use index_file::{spell_head, spell_level};
use levels::Index;
use options::Bounds;
use std::alloc::Global;
use std::thread::Threads;
use written::{Unfinished, hand_over};

/// Writes the index of the keys as bytes that can be read again: the head as one piece, and then
/// each level as one.
///
/// All memory is taken before the first byte: the pieces are spelled before.
pub fn write<R: Threads + Sync, S: Sink, G: Gate>(
    rt: &R,
    alloc: Global,
    indexing: Indexing,
    out: &mut S,
    gate: &G,
) -> Result<(), Unfinished>
    ensures { WritesText S.Sink out.old result out.new
        (IsSaved indexing.sorted.keys.items (bounds_of indexing.bounds)) }
{
    let bounds = indexing.bounds;
    let index = index_of(rt, alloc, indexing, gate)?;
    let pieces = pieces_of(alloc, &index, bounds)?;
    Ok(write_pieces(out, &pieces)?)
}

/// The head and each level, as bytes.
fn pieces_of(alloc: Global, index: &Index, bounds: Bounds) -> Result<Vec<Vec<u8>>, NoMemory>
    requires never_falls { IsNonDecreasing index.now.keys }
    requires few { length index.now.keys < 2 ^ 32 }
    requires index { IsIndex index.now.keys bounds.eps bounds.eps_rec index.now.levels }
    ensures pieces { IfOk result (λ pieces. map (λ piece. piece.items) pieces.items
        ≡ saved_pieces (bounds_of bounds) index.now.levels) }
    ensures count { length index.now.levels < 2 ^ 32 }
{
    let levels = index.level_count();
    let head = spell_head(alloc, bounds.eps, bounds.eps_rec, levels)?;
    let mut pieces = Vec::with_capacity(alloc, levels as usize + 1)?;
    pieces.push(head)?;
    for i in 0..levels {
        push_level(alloc, &mut pieces, index.segments(i))?;
    }
    Ok(pieces)
}

/// Adds a level, as bytes.
fn push_level(
    alloc: Global,
    pieces: &mut Vec<Vec<u8>>,
    segments: &[Segment],
) -> Result<(), NoMemory>
    requires { length segments.now < 2 ^ 32 }
    ensures { OnOk result (map (λ piece. piece.items) pieces.new.items
        ≡ map (λ piece. piece.items) pieces.old.items
        ++ level_bytes (map saved_run segments.now) ∷ []) }
{
    let level = spell_level(alloc, segments)?;
    pieces.push(level)?;
    Ok(())
}

/// Hands each piece over.
fn write_pieces<S: Sink>(out: &mut S, pieces: &[Vec<u8>]) -> Result<(), Failed>
    ensures { WritesPieces S.Sink out.old result out.new (map (λ piece. piece.items) pieces.now) }
{
    for i in 0..pieces.len() {
        hand_over(out, pieces[i].as_slice())?;
    }
    Ok(())
}

/// Keys and error bounds have one text of `save`: it depends on nothing else, so not on how many
/// workers there are. It does nothing.
pub fn one_save()
    ensures { (keys : List ℕ) (bounds : TaskBounds) (one two : List (List ℕ)) →
        IsSaved keys bounds one → IsSaved keys bounds two → one ≡ two }
{}
