// The command `query`.
ghost use Rattle.std.specs.Prelude.{◌≡◌, ◌≤◌, ℕ, Bool, List, Option, false};
ghost use Rattle.std.specs.Prelude.{is_some, length, map, IfSome};
ghost use Rattle.std.specs.Prelude.{vec_capacity};
ghost use Rattle.std.specs.List.Sorted.{IsNonDecreasing};
ghost use Rattle.window_search.specs.Searches.{lb};
ghost use Rattle.written.specs.Writing.{WritesPieces, WritesTold, WritesText};
ghost use Rattle.commands.specs.Finders.{FindsAsAsked, IsSortedIndexOf};
ghost use Rattle.commands.specs.Tasks.{Bounds as TaskBounds, bounds_of};
ghost use Rattle.commands.specs.Texts.Query.{IsAnswered, TellsAnswer, TellsWindows};
ghost use Rattle.commands.specs.Texts.Query.{find_line, window_line, window_lines};

use crate::finder::Finder;
use crate::indexing::index_of;
use crate::positions::positions_of;
use crate::task::Asking;
use edge::{Failed, Gate, Sink};
use levels::{Index, LevelWindow};
use options::{Bounds, Table, Workers};
use std::alloc::Global;
use std::thread::Threads;
use written::{TextLine, Unfinished, hand_over};

/// What is asked of the keys: which questions, by which table, and of the index how it is built.
#[derive(Clone, Copy)]
struct Asked<'a> {
    questions: &'a [u64],
    table: Table,
    bounds: Bounds,
    workers: Workers,
}

/// Writes how many keys are below each question, and the windows where they are asked for.
///
/// An index is built where windows or a table are asked for, or the questions are many enough to
/// pay for it; else the keys themselves are halved, as fast a search for few questions. All memory
/// is taken before the first byte: for the index, the table, the positions, and the windows of one
/// question.
pub fn write<R: Threads + Sync, S: Sink, G: Gate>(
    rt: &R,
    alloc: Global,
    asking: Asking,
    out: &mut S,
    gate: &G,
) -> Result<(), Unfinished>
    ensures { WritesText S.Sink out.old result out.new
        (IsAnswered asking.indexing.sorted.keys.items (bounds_of asking.indexing.bounds)
        asking.questions.items asking.windows) }
{
    let Asking {
        indexing,
        questions,
        windows,
        table,
    } = asking;
    let asked = Asked {
        questions: questions.as_slice(),
        table,
        bounds: indexing.bounds,
        workers: indexing.workers,
    };
    let keys = indexing.sorted.keys.len();
    if !windows && table.bits == 0 && !is_paid_for(questions.len(), keys) {
        let keys = indexing.sorted.keys.as_slice();
        let finder = Finder::Sorted(&indexing.sorted);
        return write_by(rt, alloc, &finder, keys, asked, None, out);
    }
    let index = index_of(rt, alloc, indexing, gate)?;
    let finder = Finder::of(alloc, &index, table)?;
    let told = if windows { Some(&index) } else { None };
    let keys = index.keys().as_slice();
    write_by(rt, alloc, &finder, keys, asked, told, out)
}

/// Whether so many questions pay for the index of so many keys: building costs a key some 10 to 30
/// nanoseconds, and a question gains up to 80 by it.
fn is_paid_for(questions: usize, keys: usize) -> bool {
    questions >= keys
}

/// Writes how many keys are below each question, by a finder that goes by the table asked for.
/// `told` is the index whose windows are told, if they are.
fn write_by<R: Threads + Sync, S: Sink>(
    rt: &R,
    alloc: Global,
    finder: &Finder<'_>,
    keys: &[u64],
    asked: Asked<'_>,
    told: Option<&Index>,
    out: &mut S,
) -> Result<(), Unfinished>
    requires finder { FindsAsAsked keys.now (bounds_of asked.bounds) asked.table.bits finder.now }
    requires index { IfSome told
        (λ index. IsSortedIndexOf keys.now (bounds_of asked.bounds) index.now) }
    ensures { WritesText S.Sink out.old result out.new (IsAnswered keys.now
        (bounds_of asked.entry.bounds) asked.entry.questions.now (is_some told.entry)) }
{
    let (bounds, questions) = (asked.bounds, asked.questions);
    let positions = positions_of(rt, alloc, finder, asked.workers, questions)?;
    let mut room = Vec::with_capacity(alloc, level_count(told))?;
    Ok(write_answers(out, keys, bounds, questions, &positions, told, &mut room)?)
}

/// How many levels the index has, if there is one.
fn level_count(told: Option<&Index>) -> usize
    ensures { IfSome told.entry (λ index. length index.now.levels ≤ result) }
{
    match told {
        Some(index) => index.level_count() as usize,
        None => 0,
    }
}

/// Writes the text lines of each question. `told` is the index whose windows are told, if they are.
pub fn write_answers<S: Sink>(
    out: &mut S,
    keys: &[u64],
    bounds: Bounds,
    questions: &[u64],
    positions: &[u32],
    told: Option<&Index>,
    room: &mut Vec<LevelWindow>,
) -> Result<(), Failed>
    requires positions { positions.now ≡ map (lb keys.now) questions.now }
    requires index { IfSome told (λ index. IsSortedIndexOf keys.now (bounds_of bounds) index.now) }
    requires room { IfSome told (λ index. length index.now.levels ≤ vec_capacity room.old) }
    ensures { WritesTold S.Sink out.old result out.new
        (IsAnswered keys.now (bounds_of bounds) questions.now (is_some told.entry)) }
{
    let mut line = TextLine::new();
    for i in 0..questions.len() {
        let asked = (questions[i], positions[i]);
        write_answer(out, &mut line, keys, bounds, asked, told, room)?;
    }
    Ok(())
}

/// Writes the text lines of a question.
fn write_answer<S: Sink>(
    out: &mut S,
    line: &mut TextLine,
    keys: &[u64],
    bounds: Bounds,
    asked: (u64, u32),
    told: Option<&Index>,
    room: &mut Vec<LevelWindow>,
) -> Result<(), Failed>
    requires position { asked.1 ≡ lb keys.now asked.0 }
    requires index { IfSome told (λ index. IsSortedIndexOf keys.now (bounds_of bounds) index.now) }
    requires room { IfSome told (λ index. length index.now.levels ≤ vec_capacity room.old) }
    ensures told { WritesTold S.Sink out.old result out.new
        (TellsAnswer keys.now (bounds_of bounds) (is_some told.entry) asked.0) }
    ensures capacity { vec_capacity room.old ≤ vec_capacity room.new }
{
    let (question, position) = asked;
    fill_find_line(line, question, position);
    fill_windows(keys, bounds, question, told, room);
    hand_over(out, line.as_bytes())?;
    write_windows(out, line, room)
}

/// Puts the windows of a question into the list, where they are told, and else none.
fn fill_windows(
    keys: &[u64],
    bounds: Bounds,
    question: u64,
    told: Option<&Index>,
    into: &mut Vec<LevelWindow>,
)
    requires index { IfSome told (λ index. IsSortedIndexOf keys.now (bounds_of bounds) index.now) }
    requires room { IfSome told (λ index. length index.now.levels ≤ vec_capacity into.old) }
    ensures tells { TellsWindows keys.now (bounds_of bounds) (is_some told.entry) question
        (window_lines into.new.items) }
    ensures capacity { vec_capacity into.old ≤ vec_capacity into.new }
{
    into.clear();
    if let Some(index) = told {
        index.windows_into(question, into);
    }
}

/// Writes a text line for each window.
fn write_windows<S: Sink>(
    out: &mut S,
    line: &mut TextLine,
    windows: &[LevelWindow],
) -> Result<(), Failed>
    ensures { WritesPieces S.Sink out.old result out.new (window_lines windows.now) }
{
    for i in 0..windows.len() {
        fill_window_line(line, windows[i]);
        hand_over(out, line.as_bytes())?;
    }
    Ok(())
}

/// Fills the text line that tells the position of a question's key.
pub fn fill_find_line(line: &mut TextLine, question: u64, position: u32)
    ensures { line.new ≡ find_line question position }
{
    line.clear();
    line.push(b"find");
    line.push_u64(question);
    line.push_u64(u64::from(position));
    line.push(b"\n");
}

fn fill_window_line(line: &mut TextLine, window: LevelWindow)
    ensures { line.new ≡ window_line window.level window.low window.high }
{
    line.clear();
    line.push(b"window");
    line.push_u64(u64::from(window.level));
    line.push_u64(u64::from(window.low));
    line.push_u64(u64::from(window.high));
    line.push(b"\n");
}

/// Keys that never fall, error bounds and questions have one text of `query`, with windows or
/// without: it depends on nothing else, so neither on workers nor on what finds the positions. It
/// does nothing.
pub fn one_query()
    ensures { (keys : List ℕ) (bounds : TaskBounds) (questions : List ℕ) (windows : Bool)
        (one two : List (List ℕ)) → IsNonDecreasing keys
        → IsAnswered keys bounds questions windows one
        → IsAnswered keys bounds questions windows two → one ≡ two }
{}
