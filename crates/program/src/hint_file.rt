// A file of hints, which says where among keys to look first. Whatever it holds is taken.
ghost use Rattle.std.specs.Prelude.{◌≡◌, ◌<◌, ◌^◌, List, ℕ, Option, Some, IsSome};
ghost use Rattle.command_line.specs.Requests.{Finding};
ghost use Rattle.command_line.specs.Requests.Request.{find as find_of};
ghost use Rattle.command_line.specs.Words.{AskFor};
ghost use Rattle.program.specs.Inputs.{no_hints, reads_hints};
ghost use Rattle.program.specs.Outcomes.{IsOutcome, Outcome};
ghost use Rattle.program.specs.Stops.{Answers};

use crate::refusal::{Refusal, Stopped};
use edge::{Shelf, Unread, read_all};
use std::alloc::{AllocError, Global};

/// How many hints are taken for each key at most. A line has three, and at most two more in the
/// table, and but for the last it leads to two keys or more.
const HINTS_A_KEY: u64 = 4;

/// How many hints are taken beside those: room for the head, and for the lines of few keys.
const HINTS_BESIDE: u64 = 4_096;

/// The hints in the file of this name, for so many keys.
///
/// A file of more hints than four for each key and 4,096 has none. Of others every eight bytes are
/// a hint, the lowest byte first, and what is left behind the last is passed over.
///
/// # Errors
///
/// `Refused` with `ReadFault` where a call on the files failed. `NoMemory` where memory wasn't
/// found.
pub fn file_hints<F: Shelf>(
    alloc: Global,
    files: &mut F,
    name: &str,
    keys: usize,
) -> Result<Vec<u64>, Stopped>
    requires { keys < 2 ^ 32 }
    ensures answer { Answers (reads_hints (F.files files.old) name.now) no_hints
        (F.faults files.old) (F.faults files.new) result }
    ensures files { F.files files.new ≡ F.files files.old }
{
    files.take_file(name)?;
    match read_all(alloc, files, room_for(keys)) {
        Ok(bytes) => Ok(hints_in(alloc, &bytes)?),
        Err(Unread::TooLong { .. }) => Ok(Vec::new(alloc)),
        Err(Unread::ReadFault) => Err(Stopped::Refused(Refusal::ReadFault)),
        Err(Unread::NoMemory) => Err(Stopped::NoMemory),
    }
}

/// How many bytes are taken of a file of hints of so many keys.
fn room_for(keys: usize) -> u64
    requires { keys < 2 ^ 32 }
    ensures { result < 2 ^ 63 }
{
    8 * (HINTS_A_KEY * keys as u64 + HINTS_BESIDE)
}

/// The hints that the bytes are.
fn hints_in(alloc: Global, bytes: &[u8]) -> Result<Vec<u64>, AllocError> {
    let (chunks, _) = bytes.as_chunks();
    let mut hints = Vec::with_capacity(alloc, chunks.len())?;
    for chunk in chunks {
        hints.push(u64::from_le_bytes(*chunk))?;
    }
    Ok(hints)
}

/// What a file of hints holds changes nothing: files with the same keys and the same script under
/// the names of a `find`, and any hints, define the same outcome. It does nothing.
pub fn find_ignores_hints()
    ensures { (words : List (List ℕ)) (finding : Finding) (outcome : Outcome)
        (files others : List ℕ → Option (List ℕ)) → AskFor words (find_of finding)
        → files finding.file ≡ others finding.file → files finding.script ≡ others finding.script
        → IsSome (files finding.hints) → IsSome (others finding.hints)
        → IsOutcome (Some files) words outcome → IsOutcome (Some others) words outcome }
{}
