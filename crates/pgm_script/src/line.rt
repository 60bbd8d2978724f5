// What a line is.
ghost use Rattle.std.specs.Prelude.{◌≡◌};
ghost use Rattle.std.specs.Str.{is_utf8};
ghost use Rattle.std.specs.Str.Lines.{strip_carriage_return};
ghost use Rattle.pgm_script.specs.Scripts.{IsKind, line_reading, words_reading};
ghost use Rattle.pgm_script.specs.Words.{words_of};

use crate::verb::{count, most, script_line, verb_of};
use crate::words::{cut_word, numbers};
use crate::{ScriptKind, ScriptLine, Why};
use std::str::from_utf8;

/// The line of the script that this one is, if it isn't skipped; or what is wrong with it first.
pub(crate) fn read_line(kind: ScriptKind, line: &[u8]) -> Result<Option<ScriptLine>, Why>
    requires { IsKind kind }
    ensures { result ≡ line_reading kind line.now }
{
    if !is_utf8(line) {
        return Err(Why::NotUtf8);
    }
    read_words(kind, without_return(line))
}

#[inline]
fn is_utf8(line: &[u8]) -> bool
    ensures { result ≡ is_utf8 line.now }
{
    from_utf8(line).is_ok()
}

/// The line without the byte 13 at its end, if it has one.
#[inline]
fn without_return(line: &[u8]) -> &[u8]
    ensures { result.now ≡ strip_carriage_return line.now }
{
    match line {
        [front @ .., b'\r'] => front,
        _ => line,
    }
}

/// What a line says that is text.
fn read_words(kind: ScriptKind, line: &[u8]) -> Result<Option<ScriptLine>, Why>
    requires { IsKind kind }
    ensures { result ≡ words_reading kind (words_of line.now) }
{
    let (word, rest) = cut_word(line);
    if word.is_empty() || word[0] == b'#' {
        return Ok(None);
    }
    let Some(verb) = verb_of(kind, word) else {
        return Err(Why::Word);
    };
    let numbers = numbers(rest, &most(verb)[..count(verb)])?;
    Ok(Some(script_line(verb, &numbers)))
}
