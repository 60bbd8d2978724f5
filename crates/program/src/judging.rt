// A saved index: reading it, and judging it over the keys of a file.
ghost use Rattle.std.specs.Prelude.{◌≡◌, ℕ};
ghost use Rattle.commands.specs.Tasks.{task_of};
ghost use Rattle.program.specs.Inputs.{judges, reads_saved};
ghost use Rattle.program.specs.Stops.{Answers};

use crate::refusal::Stopped;
use commands::{SortedKeys, Task};
use edge::Shelf;
use index_file::{Saved, check, read_index};
use key_points::KeyPoints;
use std::alloc::Global;

/// The saved index of the file of this name.
///
/// # Errors
///
/// `Refused` with the fault that the bytes have, and with `ReadFault` where a call on the files
/// failed. `NoMemory` where memory wasn't found.
pub fn saved_index<F: Shelf>(alloc: Global, files: &mut F, name: &str) -> Result<Saved, Stopped>
    ensures answer { Answers (reads_saved (F.files files.old) name.now) (λ saved. saved)
        (F.faults files.old) (F.faults files.new) result }
    ensures files { F.files files.new ≡ F.files files.old }
{
    files.take_file(name)?;
    Ok(read_index(alloc, files)?)
}

/// What there is to write of a saved index, which is that of the keys.
///
/// # Errors
///
/// `Refused` with the lowest level that isn't that of the index of the keys. `NoMemory` where
/// memory wasn't found.
pub fn judged(alloc: Global, sorted: SortedKeys, saved: &Saved) -> Result<Task, Stopped>
    ensures { (faults : ℕ) → Answers (judges sorted.keys.items saved.now) task_of faults faults
        result }
{
    let own = KeyPoints::of(alloc, &sorted.keys)?;
    check(alloc, own.points(), saved)?;
    Ok(Task::Check {
        levels: saved.levels(),
        runs: saved.run_count(),
    })
}
