// The command `find`.
ghost use Rattle.std.specs.Prelude.{◌≡◌, ℕ, false, List};
ghost use Rattle.window_search.specs.Searches.{lb};
ghost use Rattle.written.specs.Writing.{WritesPieces, WritesText};
ghost use Rattle.commands.specs.Tasks.{Bounds as TaskBounds};
ghost use Rattle.commands.specs.Texts.Find.{IsFound, found_lines};
ghost use Rattle.commands.specs.Texts.Query.{IsAnswered, find_line};

use crate::query::fill_find_line;
use crate::task::{Lookups, SortedKeys};
use edge::{Failed, Sink};
use hints::position;
use written::{TextLine, Unfinished, hand_over};

/// Writes how many keys are below each question, whatever the hints are that say where to look
/// first. It takes no memory.
pub fn write<S: Sink>(lookups: Lookups, out: &mut S) -> Result<(), Unfinished>
    ensures { WritesText S.Sink out.old result out.new
        (IsFound lookups.sorted.keys.items lookups.questions.items) }
{
    Ok(write_answers(out, &lookups.sorted, &lookups.hints, &lookups.questions)?)
}

/// Writes the text line of each question.
fn write_answers<S: Sink>(
    out: &mut S,
    sorted: &SortedKeys,
    hints: &[u64],
    questions: &[u64],
) -> Result<(), Failed>
    ensures { WritesPieces S.Sink out.old result out.new
        (found_lines sorted.now.keys.items questions.now) }
{
    let mut line = TextLine::new();
    for i in 0..questions.len() {
        fill_answer(&mut line, sorted, hints, questions[i]);
        hand_over(out, line.as_bytes())?;
    }
    Ok(())
}

/// Fills the text line of a question.
fn fill_answer(line: &mut TextLine, sorted: &SortedKeys, hints: &[u64], question: u64)
    ensures { line.new ≡ find_line question (lb sorted.now.keys.items question) }
{
    let place = position(sorted.keys.as_slice(), hints, question) as u32;
    fill_find_line(line, question, place);
}

/// `find` writes what `query` does where no windows are asked for, with any error bounds: its text
/// is that of the same keys and questions. It does nothing.
pub fn find_is_query()
    ensures query { (keys questions : List ℕ) (bounds : TaskBounds) (pieces : List (List ℕ)) →
        IsFound keys questions pieces → IsAnswered keys bounds questions false pieces }
    ensures find { (keys questions : List ℕ) (bounds : TaskBounds) (pieces : List (List ℕ)) →
        IsAnswered keys bounds questions false pieces → IsFound keys questions pieces }
{}
