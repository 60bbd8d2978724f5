// The task that a request asks for: its inputs, in turn.
ghost use Rattle.std.specs.Prelude.{◌≡◌, Err};
ghost use Rattle.command_line.specs.Requests.{asked_of, built_of, checked_of, first_file};
ghost use Rattle.command_line.specs.Requests.{found_by};
ghost use Rattle.command_line.specs.Requests.{replayed_of, searched_of};
ghost use Rattle.command_line.specs.Requests.Request.{box as search, near, query, relax};
ghost use Rattle.command_line.specs.Requests.Request.{check, find, mix, replay};
ghost use Rattle.commands.specs.Tasks.{task_of};
ghost use Rattle.program.specs.Files.{IsFirstMissing, IsMissing};
ghost use Rattle.program.specs.Inputs.{reads};
ghost use Rattle.program.specs.Stops.{Answers};

use crate::hint_file::file_hints;
use crate::history::{history_in, mixing_in};
use crate::inputs::{centres_in, coordinates, indexing, regions_in, script_lines, sorted_keys};
use crate::judging::{judged, saved_index};
use crate::refusal::{Refusal, Stopped};
use command_line::{Building, Checking, Finding, Replaying, Request, Searching};
use commands::{Asking, Fitting, Lookups, Neighbours, Points, Relaxing, Search, Task};
use edge::Shelf;
use options::{Pieces, Senders, Table};
use pgm_script::{Finds, ScriptKind, ScriptLine};
use std::alloc::Global;

/// Reads the inputs of the request in turn, up to the first that is none.
///
/// # Errors
///
/// `Refused` with the refusal that the first bad input gives, and with `ReadFault` where a call on
/// the files failed. `NoMemory` where memory wasn't found.
pub fn read<F: Shelf>(alloc: Global, files: &mut F, request: Request<'_>) -> Result<Task, Stopped>
    ensures answer { Answers (reads (F.files files.old) (asked_of request.entry)) task_of
        (F.faults files.old) (F.faults files.new) result }
    // No memory is needed to find that the first file isn't there.
    ensures missing { IsFirstMissing (F.files files.old) (first_file (asked_of request.entry))
        → result ≡ Err (Stopped.Refused Refusal.ReadFault) }
{
    match request {
        Request::Build { building } => Ok(Task::Build {
            indexing: indexing(alloc, files, building)?,
        }),
        Request::Explain { building } => Ok(Task::Explain {
            indexing: indexing(alloc, files, building)?,
        }),
        Request::Query {
            building,
            script,
            windows,
            table,
        } => query_task(alloc, files, building, script, windows, table),
        Request::Relax {
            building,
            script,
            pieces,
        } => relax_task(alloc, files, building, script, pieces),
        Request::Box { searching } => box_task(alloc, files, searching),
        Request::Near { searching } => near_task(alloc, files, searching),
        Request::Replay { replaying } => replay_task(alloc, files, replaying),
        Request::Mix { replaying, senders } => mix_task(alloc, files, replaying, senders),
        Request::Hints { hinting } => {
            let sorted = sorted_keys(alloc, files, hinting.file, !hinting.narrow)?;
            let eps = hinting.eps;
            Ok(Task::Hints {
                fitting: Fitting { sorted, eps },
            })
        }
        Request::Find { finding } => find_task(alloc, files, finding),
        Request::Drill { drilling } => Ok(Task::Drill {
            drill: drilling.drill,
            bounds: drilling.bounds,
            workers: drilling.workers,
        }),
        Request::Save { building } => Ok(Task::Save {
            indexing: indexing(alloc, files, building)?,
        }),
        Request::Check { checking } => check_task(alloc, files, checking),
    }
}

/// Keys, and questions for their positions.
fn query_task<F: Shelf>(
    alloc: Global,
    files: &mut F,
    building: Building<'_>,
    script: &str,
    windows: bool,
    table: Table,
) -> Result<Task, Stopped>
    ensures answer { Answers (reads (F.files files.old)
        (query (built_of building.entry) script.now windows table.bits)) task_of
        (F.faults files.old) (F.faults files.new) result }
    ensures missing { IsMissing (F.files files.old) building.entry.file.now
        → result ≡ Err (Stopped.Refused Refusal.ReadFault) }
{
    let indexing = indexing(alloc, files, building)?;
    let finds: Finds = script_lines(alloc, files, script, ScriptKind::Find)?;
    let asking = Asking {
        indexing,
        questions: finds.numbers,
        windows,
        table,
    };
    Ok(Task::Query { asking })
}

/// Keys of an index whose pieces aren't joined, and questions for their positions.
fn relax_task<F: Shelf>(
    alloc: Global,
    files: &mut F,
    building: Building<'_>,
    script: &str,
    pieces: Pieces,
) -> Result<Task, Stopped>
    ensures answer { Answers (reads (F.files files.old)
        (relax (built_of building.entry) script.now pieces.count)) task_of
        (F.faults files.old) (F.faults files.new) result }
    ensures missing { IsMissing (F.files files.old) building.entry.file.now
        → result ≡ Err (Stopped.Refused Refusal.ReadFault) }
{
    let indexing = indexing(alloc, files, building)?;
    let finds: Finds = script_lines(alloc, files, script, ScriptKind::Find)?;
    let relaxing = Relaxing {
        indexing,
        pieces,
        questions: finds.numbers,
    };
    Ok(Task::Relax { relaxing })
}

/// Points, and regions.
fn box_task<F: Shelf>(
    alloc: Global,
    files: &mut F,
    searching: Searching<'_>,
) -> Result<Task, Stopped>
    ensures answer { Answers (reads (F.files files.old)
        (search (searched_of searching.entry))) task_of
        (F.faults files.old) (F.faults files.new) result }
    ensures missing { IsMissing (F.files files.old) searching.entry.file.now
        → result ≡ Err (Stopped.Refused Refusal.ReadFault) }
{
    let dims = searching.dims;
    let coords = coordinates(alloc, files, searching.file, dims)?;
    let kind = ScriptKind::Region(dims);
    let lines: Vec<ScriptLine> = script_lines(alloc, files, searching.script, kind)?;
    let regions = regions_in(alloc, dims, &lines)?;
    let points = Points { dims, coords };
    let search = Search { points, regions };
    Ok(Task::Box { search })
}

/// Points, and centres.
fn near_task<F: Shelf>(
    alloc: Global,
    files: &mut F,
    searching: Searching<'_>,
) -> Result<Task, Stopped>
    ensures answer { Answers (reads (F.files files.old)
        (near (searched_of searching.entry))) task_of
        (F.faults files.old) (F.faults files.new) result }
    ensures missing { IsMissing (F.files files.old) searching.entry.file.now
        → result ≡ Err (Stopped.Refused Refusal.ReadFault) }
{
    let dims = searching.dims;
    let coords = coordinates(alloc, files, searching.file, dims)?;
    let kind = ScriptKind::Near(dims);
    let lines: Vec<ScriptLine> = script_lines(alloc, files, searching.script, kind)?;
    let centres = centres_in(alloc, dims, &lines)?;
    let points = Points { dims, coords };
    let neighbours = Neighbours { points, centres };
    Ok(Task::Near { neighbours })
}

/// Updates, and questions.
fn replay_task<F: Shelf>(
    alloc: Global,
    files: &mut F,
    replaying: Replaying<'_>,
) -> Result<Task, Stopped>
    ensures answer { Answers (reads (F.files files.old)
        (replay (replayed_of replaying.entry))) task_of
        (F.faults files.old) (F.faults files.new) result }
    ensures missing { IsMissing (F.files files.old) replaying.entry.script.now
        → result ≡ Err (Stopped.Refused Refusal.ReadFault) }
{
    let kind = ScriptKind::Replay;
    let lines: Vec<ScriptLine> = script_lines(alloc, files, replaying.script, kind)?;
    let history = history_in(alloc, replaying, &lines)?;
    Ok(Task::Replay { history })
}

/// Updates that senders send, and questions.
fn mix_task<F: Shelf>(
    alloc: Global,
    files: &mut F,
    replaying: Replaying<'_>,
    senders: Senders,
) -> Result<Task, Stopped>
    ensures answer { Answers (reads (F.files files.old)
        (mix (replayed_of replaying.entry) senders.count)) task_of
        (F.faults files.old) (F.faults files.new) result }
    ensures missing { IsMissing (F.files files.old) replaying.entry.script.now
        → result ≡ Err (Stopped.Refused Refusal.ReadFault) }
{
    let kind = ScriptKind::Mix;
    let lines: Vec<ScriptLine> = script_lines(alloc, files, replaying.script, kind)?;
    let mixing = mixing_in(alloc, replaying, senders, &lines)?;
    Ok(Task::Mix { mixing })
}

/// Keys, hints that say where among them to look first, and questions for their positions.
fn find_task<F: Shelf>(alloc: Global, files: &mut F, finding: Finding<'_>) -> Result<Task, Stopped>
    ensures answer { Answers (reads (F.files files.old) (find (found_by finding.entry))) task_of
        (F.faults files.old) (F.faults files.new) result }
    ensures missing { IsMissing (F.files files.old) finding.entry.file.now
        → result ≡ Err (Stopped.Refused Refusal.ReadFault) }
{
    let sorted = sorted_keys(alloc, files, finding.file, !finding.narrow)?;
    let hints = file_hints(alloc, files, finding.hints, sorted.keys.len())?;
    let finds: Finds = script_lines(alloc, files, finding.script, ScriptKind::Find)?;
    let lookups = Lookups {
        sorted,
        hints,
        questions: finds.numbers,
    };
    Ok(Task::Find { lookups })
}

/// Keys, and a saved index that is judged over them.
fn check_task<F: Shelf>(
    alloc: Global,
    files: &mut F,
    checking: Checking<'_>,
) -> Result<Task, Stopped>
    ensures answer { Answers (reads (F.files files.old) (check (checked_of checking.entry))) task_of
        (F.faults files.old) (F.faults files.new) result }
    ensures missing { IsMissing (F.files files.old) checking.entry.file.now
        → result ≡ Err (Stopped.Refused Refusal.ReadFault) }
{
    let keys = sorted_keys(alloc, files, checking.file, !checking.narrow)?;
    let saved = saved_index(alloc, files, checking.index)?;
    judged(alloc, keys, &saved)
}
