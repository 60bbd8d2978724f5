// The text lines of both commands.
ghost use Rattle.std.specs.Prelude.{◌≡◌, ◌∷◌, ◌++◌, ◌+◌, ◌≤◌, [], ℕ, List, length, map, take};
ghost use Rattle.std.specs.Prelude.{decimal, All};
ghost use Rattle.std.specs.List.{join_with_byte, range_with_len};
ghost use Rattle.written.specs.Writing.{WritesPieces};
ghost use Rattle.written.specs.TextLines.{text_line};
ghost use Rattle.log_levels.specs.declared.update.Update.{Update};
ghost use Rattle.log_levels.specs.Maps.{live_in, map_after};
ghost use Rattle.map_replay.specs.Questions.{answer_of};
ghost use Rattle.map_replay.specs.Readings.{AreAnswers};
ghost use Rattle.map_commands.specs.Mix.{from_line};
ghost use Rattle.map_commands.specs.Replay.{answer_words, closing_lines};
ghost use Rattle.map_commands.specs.Replay.{count_words, end_line, end_lines, get_words};
ghost use Rattle.map_commands.specs.Replay.{last_line, next_words, reader_line};
ghost use Rattle.map_commands.specs.Replay.{reader_lines};
ghost use Rattle.map_commands.specs.MapLines.{IsTold, all_lines, read_lines, told_lines};

use edge::{Failed, Sink};
use log_levels::Update;
use map_replay::{Answer, Asked, Question, Reading, Sighting};
use written::{TextLine, hand_over};

/// Writes the whole text: how many updates there are, which senders sent them, if senders did, and
/// what is told of readers and of the map after all updates.
pub fn write_lines<S: Sink, A: Asked>(
    out: &mut S,
    asked: &A,
    numbers: &[u32],
    updates: &[Update],
    readings: &[Reading],
    questions: &[Question],
) -> Result<(), Failed>
    requires answers { A.answers_by asked.now (map_after updates.now) }
    requires each { All (IsTold updates.now questions.now) readings.now }
    ensures { WritesPieces S.Sink out.old result out.new
        (all_lines numbers.now updates.now questions.now readings.now) }
{
    let mut line = TextLine::new();
    fill_count(&mut line, b"updates", updates.len() as u64);
    hand_over(out, line.as_bytes())?;
    write_behind(out, &mut line, asked, numbers, updates, readings, questions)
}

/// Writes all behind the first line.
fn write_behind<S: Sink, A: Asked>(
    out: &mut S,
    line: &mut TextLine,
    asked: &A,
    numbers: &[u32],
    updates: &[Update],
    readings: &[Reading],
    questions: &[Question],
) -> Result<(), Failed>
    requires answers { A.answers_by asked.now (map_after updates.now) }
    requires each { All (IsTold updates.now questions.now) readings.now }
    ensures { WritesPieces S.Sink out.old result out.new
        (map from_line numbers.now ++ told_lines updates.now questions.now readings.now) }
{
    write_senders(out, line, numbers)?;
    write_rest(out, line, asked, readings, updates, questions)
}

/// Writes which sender sent each update.
fn write_senders<S: Sink>(out: &mut S, line: &mut TextLine, numbers: &[u32]) -> Result<(), Failed>
    ensures { WritesPieces S.Sink out.old result out.new (map from_line numbers.now) }
{
    for i in 0..numbers.len() {
        fill_from(line, numbers[i]);
        hand_over(out, line.as_bytes())?;
    }
    Ok(())
}

fn fill_from(line: &mut TextLine, number: u32)
    ensures { line.new ≡ from_line number }
{
    fill_count(line, b"from", u64::from(number));
}

/// Writes what each reader was answered beside the updates, and what comes behind.
fn write_rest<S: Sink, A: Asked>(
    out: &mut S,
    line: &mut TextLine,
    asked: &A,
    readings: &[Reading],
    updates: &[Update],
    questions: &[Question],
) -> Result<(), Failed>
    requires answers { A.answers_by asked.now (map_after updates.now) }
    requires each { All (IsTold updates.now questions.now) readings.now }
    ensures { WritesPieces S.Sink out.old result out.new
        (told_lines updates.now questions.now readings.now) }
{
    write_read(out, line, readings, updates, questions)?;
    write_closing(out, line, asked, readings, updates, questions)
}

/// Writes what each reader was answered beside the updates.
fn write_read<S: Sink>(
    out: &mut S,
    line: &mut TextLine,
    readings: &[Reading],
    updates: &[Update],
    questions: &[Question],
) -> Result<(), Failed>
    requires { All (IsTold updates.now questions.now) readings.now }
    ensures { WritesPieces S.Sink out.old result out.new
        (read_lines updates.now questions.now 0 readings.now) }
{
    for i in 0..readings.len() {
        write_reading(out, line, i, &readings[i].sightings, updates, questions)?;
    }
    Ok(())
}

/// Writes what a reader was answered beside the updates.
fn write_reading<S: Sink>(
    out: &mut S,
    line: &mut TextLine,
    reader: usize,
    sightings: &[Sighting],
    updates: &[Update],
    questions: &[Question],
) -> Result<(), Failed>
    requires { AreAnswers updates.now questions.now sightings.now }
    ensures { WritesPieces S.Sink out.old result out.new
        (reader_lines updates.now reader questions.now sightings.now) }
{
    for i in 0..questions.len() {
        fill_sighting(line, reader, questions[i], sightings[i]);
        hand_over(out, line.as_bytes())?;
    }
    Ok(())
}

/// Writes that each reader saw all updates, and what the map after them answers.
fn write_closing<S: Sink, A: Asked>(
    out: &mut S,
    line: &mut TextLine,
    asked: &A,
    readings: &[Reading],
    updates: &[Update],
    questions: &[Question],
) -> Result<(), Failed>
    requires answers { A.answers_by asked.now (map_after updates.now) }
    requires each { All (λ reading. reading.last ≡ length updates.now) readings.now }
    ensures { WritesPieces S.Sink out.old result out.new
        (closing_lines updates.now questions.now (length readings.now)) }
{
    write_lasts(out, line, readings, updates)?;
    write_ends(out, line, asked, updates, questions)
}

/// Writes how many updates each reader saw at the end.
fn write_lasts<S: Sink>(
    out: &mut S,
    line: &mut TextLine,
    readings: &[Reading],
    updates: &[Update],
) -> Result<(), Failed>
    requires { All (λ reading. reading.last ≡ length updates.now) readings.now }
    ensures { WritesPieces S.Sink out.old result out.new
        (map (last_line (length updates.now)) (range_with_len 0 (length readings.now))) }
{
    for i in 0..readings.len() {
        fill_last(line, i, readings[i].last);
        hand_over(out, line.as_bytes())?;
    }
    Ok(())
}

/// Writes what the map after all updates answers, and how many keys it has.
fn write_ends<S: Sink, A: Asked>(
    out: &mut S,
    line: &mut TextLine,
    asked: &A,
    updates: &[Update],
    questions: &[Question],
) -> Result<(), Failed>
    requires { A.answers_by asked.now (map_after updates.now) }
    ensures { WritesPieces S.Sink out.old result out.new
        (end_lines (map_after updates.now) questions.now) }
{
    write_answers(out, line, asked, updates, questions)?;
    fill_count(line, b"live", live_in(asked));
    hand_over(out, line.as_bytes())
}

/// How many keys there are, from the least key to the greatest.
fn live_in<A: Asked>(asked: &A) -> u64
    ensures { (pairs : List (ℕ × ℕ)) → A.answers_by asked.now pairs →
        result ≡ live_in pairs }
{
    match asked.answer(Question::Count(0, u64::MAX)) {
        Answer::Number(count) => count,
        _ => 0,
    }
}

/// Writes the answer to each question.
fn write_answers<S: Sink, A: Asked>(
    out: &mut S,
    line: &mut TextLine,
    asked: &A,
    updates: &[Update],
    questions: &[Question],
) -> Result<(), Failed>
    requires { A.answers_by asked.now (map_after updates.now) }
    ensures { WritesPieces S.Sink out.old result out.new
        (map (end_line (map_after updates.now)) questions.now) }
{
    for i in 0..questions.len() {
        fill_end(line, questions[i], asked.answer(questions[i]));
        hand_over(out, line.as_bytes())?;
    }
    Ok(())
}

fn fill_end(line: &mut TextLine, question: Question, answer: Answer)
    ensures { (pairs : List (ℕ × ℕ)) → answer ≡ answer_of pairs question →
        line.new ≡ end_line pairs question }
{
    line.clear();
    line.push(b"end");
    push_answer(line, question, answer);
    line.push(b"\n");
}

fn fill_sighting(line: &mut TextLine, reader: usize, question: Question, sighting: Sighting)
    ensures { (updates : List Update) →
        sighting.answer ≡ answer_of (map_after (take sighting.length updates)) question →
        line.new ≡ reader_line updates reader question sighting.length }
{
    line.clear();
    line.push(b"reader");
    line.push_number(reader);
    line.push_number(sighting.length);
    push_answer(line, question, sighting.answer);
    line.push(b"\n");
}

fn fill_last(line: &mut TextLine, reader: usize, count: u64)
    ensures { line.new ≡ last_line count reader }
{
    line.clear();
    line.push(b"reader");
    line.push_number(reader);
    line.push(b" last");
    line.push_number(count);
    line.push(b"\n");
}

/// Adds an answer to this question.
fn push_answer(line: &mut TextLine, question: Question, answer: Answer)
    requires { length line.old ≤ 64 }
    ensures text { (pairs : List (ℕ × ℕ)) → answer ≡ answer_of pairs question →
        line.new ≡ line.old ++ 32 ∷ join_with_byte 32 (answer_words pairs question) }
    ensures room { length line.new ≤ length line.old + 96 }
{
    match (question, answer) {
        (Question::Get(key), Answer::Value(value)) => push_value(line, key, value),
        (Question::Next(from), Answer::Pair(pair)) => push_pair(line, from, pair),
        (Question::Count(low, high), Answer::Number(count)) => {
            push_count(line, low, high, count);
        }
        // Never comes: an answer is of its question's kind.
        _ => {}
    }
}

/// Adds the value at a key, if there is one.
fn push_value(line: &mut TextLine, key: u64, value: Option<u64>)
    requires { length line.old ≤ 64 }
    ensures text { line.new ≡ line.old ++ 32 ∷ join_with_byte 32 (get_words key value) }
    ensures room { length line.new ≤ length line.old + 64 }
{
    line.push(b" get");
    line.push_number(key);
    match value {
        Some(value) => line.push_number(value),
        None => line.push(b" none"),
    }
}

/// Adds the least key from a key on, with its value, if there is one.
fn push_pair(line: &mut TextLine, from: u64, pair: Option<(u64, u64)>)
    requires { length line.old ≤ 64 }
    ensures text { line.new ≡ line.old ++ 32 ∷ join_with_byte 32 (next_words from pair) }
    ensures room { length line.new ≤ length line.old + 80 }
{
    line.push(b" next");
    line.push_number(from);
    match pair {
        Some((key, value)) => {
            line.push_number(key);
            line.push_number(value);
        }
        None => line.push(b" none"),
    }
}

/// Adds how many keys there are between two.
fn push_count(line: &mut TextLine, low: u64, high: u64, count: u64)
    requires { length line.old ≤ 64 }
    ensures text { line.new ≡ line.old ++ 32 ∷ join_with_byte 32 (count_words low high count) }
    ensures room { length line.new ≤ length line.old + 80 }
{
    line.push(b" count");
    line.push_number(low);
    line.push_number(high);
    line.push_number(count);
}

/// A word and a number.
fn fill_count(line: &mut TextLine, word: &[u8], count: u64)
    requires { length word.now ≤ 64 }
    ensures { line.new ≡ text_line (word.now ∷ decimal count ∷ []) }
{
    line.clear();
    line.push(word);
    line.push_number(count);
    line.push(b"\n");
}
