//! The commands, when all their inputs are read: what each writes, and the work behind it.
//!
//! A [`Task`] is a command with its inputs and its options. [`write`] hands its text to a sink,
//! line by line, and takes all memory before the first byte:
//!
//! ```text
//! keys 4 distinct 4 levels 2
//! level 0 list 4 eps 0 runs 2
//! level 1 list 2 eps 0 runs 1
//! ```
//!
//! The text of each command is defined over the inputs alone, in `specs/Texts`.
#![tactic(auto)]

ghost use Rattle.written.specs.Writing.{WritesText};
ghost use Rattle.commands.specs.Tasks.{task_of};
ghost use Rattle.commands.specs.Texts.{IsText};

mod build;
mod check;
mod coordinates;
mod drill;
mod explain;
mod find;
mod finder;
mod hint_numbers;
mod indexing;
mod neighbours;
mod positions;
mod query;
mod regions;
mod relax;
mod save;
mod task;

pub use build::one_build;
pub use drill::one_drill;
use edge::{Gate, Sink};
pub use explain::one_explain;
pub use find::find_is_query;
pub use map_commands::{History, Mixing, Question};
use map_commands::{write_mix, write_replay};
pub use neighbours::one_near;
pub use query::one_query;
pub use regions::one_box;
pub use relax::one_relaxed;
pub use save::one_save;
use std::alloc::Global;
use std::sync::Wait;
use std::thread::Threads;
pub use task::{
    Asking, Centre, Fitting, Indexing, Lookups, Neighbours, Points, Relaxing, Search, SortedKeys,
    Task,
};
use written::Unfinished;

/// Writes the text of the task. An index and a map's levels are built by workers, which pass the
/// gate before and after each piece. Readers of a map pass it before each question, their writer
/// after each batch, and senders before each update's first try.
pub fn write<R: Threads + Wait + Sync, S: Sink, G: Gate>(
    rt: &R,
    alloc: Global,
    task: Task,
    out: &mut S,
    gate: &G,
) -> Result<(), Unfinished>
    ensures { WritesText S.Sink out.old result out.new (IsText (task_of task)) }
{
    match task {
        Task::Build { indexing } => build::write(rt, alloc, indexing, out, gate),
        Task::Explain { indexing } => explain::write(rt, alloc, indexing, out, gate),
        Task::Query { asking } => query::write(rt, alloc, asking, out, gate),
        Task::Relax { relaxing } => relax::write(rt, alloc, relaxing, out, gate),
        Task::Box { search } => regions::write(rt, alloc, search, out),
        Task::Near { neighbours } => neighbours::write(rt, alloc, neighbours, out),
        Task::Replay { history } => write_replay(rt, alloc, history, out, gate),
        Task::Mix { mixing } => write_mix(rt, alloc, mixing, out, gate),
        Task::Hints { fitting } => hint_numbers::write(alloc, fitting, out),
        Task::Find { lookups } => find::write(lookups, out),
        Task::Drill {
            drill,
            bounds,
            workers,
        } => drill::write(rt, alloc, drill, bounds, workers, out, gate),
        Task::Save { indexing } => save::write(rt, alloc, indexing, out, gate),
        Task::Check { levels, runs } => check::write(levels, runs, out),
    }
}
