// The bytes of an index.
ghost use Rattle.std.specs.Prelude.{◌≡◌, ◌<◌, ◌^◌, ◌++◌, ℕ, List, length, map, IfOk, OnOk};
ghost use Rattle.index_file.specs.Spelling.{magic, number, cut_bytes, run_bytes};
ghost use Rattle.index_file.specs.Spelling.{level_bytes, head_bytes, SavedIndex, IsSpelling};
ghost use Rattle.index_file.specs.Spelled.{saved_cut, saved_run};

use crate::{SavedCut, SavedRun};
use budget::NoMemory;
use exact_cross::{Segment, Side};
use std::alloc::Global;

/// The first bytes of the file.
pub const MAGIC: [u8; 8] = *b"PGMINDEX";

/// Bytes are the spelling of one index at most, and an index has one spelling. It does nothing.
pub fn spellings_are_one()
    ensures one_index { (bytes : List ℕ) (i j : SavedIndex) → IsSpelling i bytes →
        IsSpelling j bytes → i ≡ j }
    ensures one_spelling { (index : SavedIndex) (first second : List ℕ) →
        IsSpelling index first → IsSpelling index second → first ≡ second }
{}

/// The head of a saved index: `PGMINDEX`, its error bounds ε and ε', in places, and its number of
/// levels, 20 bytes.
///
/// # Errors
///
/// `NoMemory` alone.
pub fn spell_head(alloc: Global, eps: u32, eps_rec: u32, levels: u32) -> Result<Vec<u8>, NoMemory>
    ensures { IfOk result (λ bytes. bytes.items ≡ head_bytes eps eps_rec levels) }
{
    let mut bytes = Vec::new(alloc);
    push_magic(&mut bytes)?;
    push_number(&mut bytes, eps)?;
    push_number(&mut bytes, eps_rec)?;
    push_number(&mut bytes, levels)?;
    Ok(bytes)
}

/// A level of a saved index: its number of runs, and its runs, 13 bytes each and 21 where the next
/// point lies under the run's lines.
///
/// Lines aren't written, nor the third place of a witness, nor the pair of one on the upper side:
/// they follow from the points.
///
/// # Errors
///
/// `NoMemory` alone.
pub fn spell_level(alloc: Global, segments: &[Segment]) -> Result<Vec<u8>, NoMemory>
    requires { length segments.now < 2 ^ 32 }
    ensures { IfOk result
        (λ bytes. bytes.items ≡ level_bytes (map saved_run segments.now)) }
{
    let mut bytes = Vec::new(alloc);
    let count = segments.len() as u32;
    push_number(&mut bytes, count)?;
    for segment in segments {
        let run = SavedRun {
            start: segment.start,
            a: segment.a,
            b: segment.b,
            cut: cut_of(segment),
        };
        push_run(&mut bytes, run)?;
    }
    Ok(bytes)
}

/// What is saved of why a run ends.
fn cut_of(segment: &Segment) -> SavedCut
    ensures { result ≡ saved_cut segment.now.cut }
{
    match segment.cut {
        None => SavedCut::Last,
        Some(w) => match w.side {
            Side::Over => SavedCut::Over,
            Side::Under => SavedCut::Under(w.p, w.q),
        },
    }
}

/// Adds the bytes of a run.
fn push_run(bytes: &mut Vec<u8>, run: SavedRun) -> Result<(), NoMemory>
    ensures { OnOk result (bytes.new.items ≡ bytes.old.items ++ run_bytes run) }
{
    push_number(bytes, run.start)?;
    push_number(bytes, run.a)?;
    push_number(bytes, run.b)?;
    push_cut(bytes, run.cut)?;
    Ok(())
}

/// Adds the bytes of why a run ends.
fn push_cut(bytes: &mut Vec<u8>, cut: SavedCut) -> Result<(), NoMemory>
    ensures { OnOk result (bytes.new.items ≡ bytes.old.items ++ cut_bytes cut) }
{
    match cut {
        SavedCut::Last => bytes.push(0)?,
        SavedCut::Over => bytes.push(1)?,
        SavedCut::Under(p, q) => {
            bytes.push(2)?;
            push_number(bytes, p)?;
            push_number(bytes, q)?;
        }
    }
    Ok(())
}

/// Adds `PGMINDEX`.
fn push_magic(bytes: &mut Vec<u8>) -> Result<(), NoMemory>
    ensures { OnOk result (bytes.new.items ≡ bytes.old.items ++ magic) }
{
    bytes.extend_from_slice(&MAGIC)
}

/// Adds the four bytes of a number.
#[tactic(auto, unfolding(crate::specs::Spelling::number))]
fn push_number(bytes: &mut Vec<u8>, n: u32) -> Result<(), NoMemory>
    ensures { OnOk result (bytes.new.items ≡ bytes.old.items ++ number n) }
{
    bytes.extend_from_slice(&n.to_le_bytes())
}
