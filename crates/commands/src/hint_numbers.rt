// The command `hints`.
ghost use Rattle.std.specs.Prelude.{◌≡◌, ◌+◌, ◌<◌, ◌^◌, All, IfOk};
ghost use Rattle.hints.specs.Leads.{HaveLeastLines};
ghost use Rattle.hints.specs.Lookups.{LeadsWithin};
ghost use Rattle.written.specs.Writing.{WritesPieces, WritesText};
ghost use Rattle.commands.specs.Texts.Hints.{AreHints, hint_bytes, hint_pieces};

use crate::task::Fitting;
use budget::NoMemory;
use edge::{Failed, Sink};
use hints::hints_of;
use std::alloc::{AllocError, Global};
use written::{Unfinished, hand_over};

/// Writes hints of the keys, each as its eight bytes and one piece.
///
/// All memory is taken before the first byte: the hints are made before.
pub fn write<S: Sink>(alloc: Global, fitting: Fitting, out: &mut S) -> Result<(), Unfinished>
    ensures { WritesText S.Sink out.old result out.new
        (AreHints fitting.sorted.keys.items fitting.eps) }
{
    let hints = hints_for(alloc, &fitting)?;
    Ok(write_hints(out, &hints)?)
}

/// Hints of the keys. These never fall and are few, so nothing is wanting but memory.
fn hints_for(alloc: Global, fitting: &Fitting) -> Result<Vec<u64>, NoMemory>
    ensures lead { IfOk result
        (λ hints. LeadsWithin hints.items fitting.now.sorted.keys.items (fitting.now.eps + 2)) }
    ensures least { IfOk result
        (λ hints. HaveLeastLines fitting.now.sorted.keys.items fitting.now.eps hints.items) }
{
    match hints_of(alloc, &fitting.sorted.keys, fitting.eps) {
        Ok(hints) => Ok(hints),
        Err(_) => Err(AllocError),
    }
}

/// Hands the bytes of each hint over.
fn write_hints<S: Sink>(out: &mut S, hints: &[u64]) -> Result<(), Failed>
    ensures written { WritesPieces S.Sink out.old result out.new (hint_pieces hints.now) }
    ensures small { All (λ hint. hint < 2 ^ 64) hints.now }
{
    for i in 0..hints.len() {
        hand_over(out, &bytes_of(hints[i]))?;
    }
    Ok(())
}

/// The bytes of a hint, the lowest first.
#[tactic(auto, unfolding(crate::specs::Texts::Hints::hint_bytes))]
fn bytes_of(hint: u64) -> [u8; 8]
    ensures { result ≡ hint_bytes hint }
{
    hint.to_le_bytes()
}
