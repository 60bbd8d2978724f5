// What a script of updates and questions asks for.
ghost use Rattle.std.specs.Prelude.{◌≡◌, ◌++◌, ◌∷◌, ◌≤◌, [], ℕ, Some};
ghost use Rattle.std.specs.Prelude.{List, All, length};
ghost use Rattle.std.specs.Prelude.{IfOk, IsTrue, IsFalse, OnOk};
ghost use Rattle.command_line.specs.Requests.{replayed_of};
ghost use Rattle.log_levels.specs.declared.update.Update.{Update};
ghost use Rattle.log_levels.specs.Accepted.{IsPlain, entries_of};
ghost use Rattle.log_levels.specs.Maps.{map_after};
ghost use Rattle.log_levels.specs.Shapes.{Held, StandsFor};
ghost use Rattle.commands.specs.Tasks.{mix_of, replay_of};
ghost use Rattle.program.specs.declared.inputs.TheConstants.{SCRIPT_LIMIT};
ghost use Rattle.program.specs.Inputs.{map_questions_in, reads_history, reads_mixing};
ghost use Rattle.program.specs.Inputs.{updates_in};
ghost use Rattle.program.specs.Stops.{Answers};
ghost use Rattle.pgm_script.specs.declared.script.ScriptKind.{ScriptKind};
ghost use Rattle.pgm_script.specs.Scripts.{IsLineOf};

use crate::refusal::{Refusal, Stopped};
use command_line::Replaying;
use commands::{History, Mixing, Question};
use log_levels::{LogMap, MapFault, Update, capacity_with, one_map};
use options::{MAX_LEVELS, Senders};
use pgm_script::ScriptLine;
use std::alloc::{AllocError, Global};

/// The updates and the questions of a script, which has no more lines than bytes.
///
/// # Errors
///
/// `Full` where the updates have more entries than the map can accept, and `NoMemory`.
#[tactic(auto, using(crate::proofs::FewEntries::few_updates))]
pub fn history_in(
    alloc: Global,
    replaying: Replaying<'_>,
    lines: &[ScriptLine],
) -> Result<History, Stopped>
    requires { length lines.now ≤ SCRIPT_LIMIT }
    ensures { (faults : ℕ) → Answers (reads_history (replayed_of replaying.entry) lines.now)
        replay_of faults faults result }
{
    let updates = updates_in(alloc, lines)?;
    let questions = map_questions_in(alloc, lines)?;
    let (asked, map) = counted(alloc, &updates)?;
    let room = capacity_with(replaying.plan.levels);
    if room < asked {
        return Err(Stopped::Refused(Refusal::Full { asked, room }));
    }
    Ok(History {
        plan: replaying.plan,
        updates,
        questions,
        map: unless_read(replaying.plan.readers, map),
    })
}

/// The updates that senders send, of which none is a sweep, and the questions of a script.
///
/// # Errors
///
/// `Full` where there are more updates than the map can accept, and `NoMemory`.
pub fn mixing_in(
    alloc: Global,
    replaying: Replaying<'_>,
    senders: Senders,
    lines: &[ScriptLine],
) -> Result<Mixing, Stopped>
    requires { All (IsLineOf ScriptKind.Mix) lines.now }
    ensures { (faults : ℕ) →
        Answers (reads_mixing (replayed_of replaying.entry) senders.count lines.now)
        mix_of faults faults result }
{
    let updates = updates_in(alloc, lines)?;
    let questions = map_questions_in(alloc, lines)?;
    let count = updates.len() as u64;
    let room = capacity_with(replaying.plan.levels);
    if room < count {
        return Err(Stopped::Refused(Refusal::Full { asked: count, room }));
    }
    Ok(Mixing {
        history: History {
            plan: replaying.plan,
            updates,
            questions,
            map: None,
        },
        senders,
    })
}

/// The updates of a script.
fn updates_in(alloc: Global, lines: &[ScriptLine]) -> Result<Vec<Update>, AllocError>
    ensures { IfOk result (λ updates. updates.items ≡ updates_in lines.now) }
{
    let mut updates = Vec::with_capacity(alloc, lines.len())?;
    for i in 0..lines.len() {
        push_update(&mut updates, &lines[i])?;
    }
    Ok(updates)
}

fn push_update(updates: &mut Vec<Update>, line: &ScriptLine) -> Result<(), AllocError>
    ensures { OnOk result
        (updates.new.items ≡ updates.old.items ++ updates_in (line.now ∷ [])) }
{
    match line {
        ScriptLine::Put(key, value) => updates.push(Update::Put(*key, *value))?,
        ScriptLine::Del(key) => updates.push(Update::Del(*key))?,
        ScriptLine::Sweep(low, high) => updates.push(Update::Sweep(*low, *high))?,
        _ => {}
    }
    Ok(())
}

/// The questions to a map of a script.
fn map_questions_in(alloc: Global, lines: &[ScriptLine]) -> Result<Vec<Question>, AllocError>
    ensures { IfOk result (λ questions. questions.items ≡ map_questions_in lines.now) }
{
    let mut questions = Vec::with_capacity(alloc, lines.len())?;
    for i in 0..lines.len() {
        push_map_question(&mut questions, &lines[i])?;
    }
    Ok(questions)
}

fn push_map_question(questions: &mut Vec<Question>, line: &ScriptLine) -> Result<(), AllocError>
    ensures { OnOk result
        (questions.new.items ≡ questions.old.items ++ map_questions_in (line.now ∷ [])) }
{
    match line {
        ScriptLine::Get(key) => questions.push(Question::Get(*key))?,
        ScriptLine::Next(from) => questions.push(Question::Next(*from))?,
        ScriptLine::Count(low, high) => questions.push(Question::Count(*low, *high))?,
        _ => {}
    }
    Ok(())
}

/// How many entries the updates have, and the map after them, where it was made.
///
/// A sweep has one for each key that it takes away, so the updates are made to the greatest map.
/// They don't fill it: a key that is taken away was put before, so each update has two at most.
fn counted(alloc: Global, updates: &[Update]) -> Result<(u64, Option<LogMap>), AllocError>
    requires { length updates.now ≤ SCRIPT_LIMIT }
    ensures count { IfOk result (λ counted. counted.0 ≡ length (entries_of updates.now)) }
    ensures after { IfOk result (λ counted. (held : Held) (others : List Update) →
        counted.1 ≡ Some held → StandsFor held others →
        map_after others ≡ map_after updates.now) }
{
    if are_plain(updates) {
        return Ok((updates.len() as u64, None));
    }
    let mut map = LogMap::new(alloc, MAX_LEVELS)?;
    match map.apply_here(alloc, updates) {
        Ok(()) => {}
        Err(MapFault::Full { .. }) => unreachable!(),
        Err(MapFault::NoMemory) => return Err(AllocError),
    }
    // Whatever updates it stands for leave the same pairs.
    one_map();
    Ok((map.accepted(), Some(map)))
}

/// The map, unless readers ask beside the updates, who look at one of their own.
fn unless_read(readers: u32, map: Option<LogMap>) -> Option<LogMap>
    ensures { (held : Held) → result ≡ Some held → map ≡ Some held }
{
    if readers > 0 { None } else { map }
}

/// Whether no update is a sweep.
fn are_plain(updates: &[Update]) -> bool
    ensures { IsTrue result → All IsPlain updates.now }
{
    for i in 0..updates.len() {
        if is_sweep(updates[i]) {
            return false;
        }
    }
    true
}

fn is_sweep(update: Update) -> bool
    ensures { IsFalse result → IsPlain update }
{
    matches!(update, Update::Sweep(_, _))
}
