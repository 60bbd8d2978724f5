//! What the program does, as one call: words, files, a sink and a gate in, a status out.
//!
//! `build FILE` writes how many levels the index has and how many segments each level, `explain
//! FILE` each segment too, with three places that show why it ends, `query FILE SCRIPT` how many
//! keys are below each question of the script, `relax FILE SCRIPT` both, of an index whose pieces
//! aren't joined, `box FILE SCRIPT` the points in each box of the script, `near FILE SCRIPT` those
//! nearest to each centre, `replay SCRIPT` what a map says beside the updates of the script and
//! after them, `mix SCRIPT` the same where senders send the updates, `save FILE` the index as
//! bytes, `check FILE INDEX` whether such bytes are the index of the keys, `hints FILE` hints that
//! say where among the keys to look first, `find FILE HINTS SCRIPT` what `query` does, by lookups
//! that such hints lead, and `drill N SEED` what is counted of drawn keys, questions, points and
//! updates.
//! Of the keys 0, 1, 2, 10, `explain` writes with both bounds 0:
//!
//! ```text
//! keys 4 distinct 4 levels 2
//! level 0 list 4 eps 0 runs 2
//! run 0 3 pair 0 1 line 0 0 1 1 cut under 0 1 3
//! run 3 4 pair 3 3 line 10 3 0 1 end
//! level 1 list 2 eps 0 runs 1
//! run 0 2 pair 0 1 line 0 0 1 10 end
//! ```
//!
//! Everything that is claimed of the program stands on [`run`]. The words of its clauses are in
//! `specs/`.
#![tactic(auto)]

ghost use Rattle.std.specs.Prelude.{◌≡◌, ◌⊎◌, ◌<◌, ◌∷◌, [], ℕ};
ghost use Rattle.std.specs.Prelude.{List, map, Result, IsSome};
ghost use Rattle.std.specs.String.{string_bytes};
ghost use Rattle.written.specs.Writing.{Writes, BreaksOff, WritesUntilFault};
ghost use Rattle.program.specs.declared.refusal.Refusal.{Refusal};
ghost use Rattle.program.specs.Files.{IsFirstMissing};
ghost use Rattle.program.specs.Refusals.{refusal_line, status_of};
ghost use Rattle.command_line.specs.Requests.{Request, first_file};
ghost use Rattle.command_line.specs.Words.{AreRefused, AskFor};
ghost use Rattle.commands.specs.Tasks.{Task};
ghost use Rattle.program.specs.Outcomes.{Defines, IsOutcome, IsCause, EndsAs};
ghost use Rattle.program.specs.Outcomes.Outcome.{text};

mod hint_file;
mod history;
mod inputs;
mod judging;
mod refusal;
mod status;
mod tasks;

use crate::refusal::{Refusal, Stopped, refuse};
use crate::tasks::read;
use command_line::{NoRequest, requested};
use commands::write;
use edge::{Gate, Shelf, Sink};
pub use hint_file::find_ignores_hints;
pub use status::Status;
use std::sync::Wait;
use std::thread::Threads;
use written::Unfinished;

/// Does what the words ask for, and writes the answer's text.
///
/// `words` begins with the program's name. All reading is done before anything is written. Each
/// text line is handed to the sink as one piece, and what it left of it again. Returns the status
/// that the program ends with. Threads that build an index or a map's level pass the gate, and so
/// do a map's readers, its writer and its senders.
pub fn run<R: AllocGlobal + Threads + Wait + Sync, F: Shelf, S: Sink, G: Gate>(
    rt: &R,
    words: &[String],
    files: &mut F,
    out: &mut S,
    gate: &G,
) -> Status
    // Done: the sink gained exactly a text that the words and the files define, and no fault was
    // counted.
    ensures done { result ≡ Status.Done → (pieces : List (List ℕ))
        × IsOutcome (F.files files.old) (map string_bytes words.now) (text pieces) ×
        Writes S.Sink out.old out.new pieces }
    ensures unfaulted { result ≡ Status.Done → F.faults files.new ≡ F.faults files.old }

    // WriteFault: a call of the sink failed, and a front part of such a text stands.
    ensures broke_off { result ≡ Status.WriteFault → (pieces : List (List ℕ))
        × IsOutcome (F.files files.old) (map string_bytes words.now) (text pieces) ×
        BreaksOff S.Sink out.old out.new pieces }

    // NoMemory: nothing was handed over.
    ensures no_memory { result ≡ Status.NoMemory → out.new ≡ out.old }

    // Any other status: a refusal that has a cause wrote its one text line, or a front part of it
    // where the sink failed.
    ensures refused { (result ≡ Status.Done) ⊎ (result ≡ Status.WriteFault) ⊎
        (result ≡ Status.NoMemory)
        ⊎ ((refusal : Refusal) × (result ≡ status_of refusal)
        × IsCause (F.files files.old) (map string_bytes words.now) (F.faults files.old)
        (F.faults files.new) refusal
        × WritesUntilFault S.Sink out.old out.new (refusal_line refusal ∷ [])) }

    // Where files are told, what they and the words define comes, or memory ran out, or a call on
    // them failed.
    ensures wherever { IsSome (F.files files.old) → (defined : Result Task Refusal)
        → Defines (F.files files.old) (map string_bytes words.now) defined
        → EndsAs defined result ⊎ (result ≡ Status.NoMemory)
        ⊎ (result ≡ Status.ReadFault) }

    // ReadFault: wherever a call on the files failed, and, where memory doesn't run out, where the
    // first file is told not to be there.
    ensures read_faulted { F.faults files.old < F.faults files.new → result ≡ Status.ReadFault }
    ensures missing { (request : Request) → AskFor (map string_bytes words.now) request
        → IsFirstMissing (F.files files.old) (first_file request)
        → (result ≡ Status.ReadFault) ⊎ (result ≡ Status.NoMemory) }

    // Usage: only where the words are refused, and there unless memory ran out. Then no file was
    // touched.
    ensures usage { result ≡ Status.Usage → AreRefused (map string_bytes words.now) }
    ensures refused_words { AreRefused (map string_bytes words.now)
        → (result ≡ Status.Usage) ⊎ (result ≡ Status.NoMemory) }
    ensures usage_reads_nothing { result ≡ Status.Usage → files.new ≡ files.old }
{
    let request = match requested(rt.alloc(), words) {
        Ok(request) => request,
        Err(NoRequest::Usage) => return refuse(out, Refusal::Usage),
        Err(NoRequest::NoMemory) => return Status::NoMemory,
    };
    match read(rt.alloc(), files, request) {
        Ok(task) => match write(rt, rt.alloc(), task, out, gate) {
            Ok(()) => Status::Done,
            Err(Unfinished::WriteFault) => Status::WriteFault,
            Err(Unfinished::NoMemory) => Status::NoMemory,
        },
        Err(Stopped::Refused(refusal)) => refuse(out, refusal),
        Err(Stopped::NoMemory) => Status::NoMemory,
    }
}
