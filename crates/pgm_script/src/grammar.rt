// Texts as scripts.
ghost use Rattle.std.specs.Prelude.{◌≡◌, ◌⊎◌, ℕ, List, All, Ok, Err};
ghost use Rattle.std.specs.Prelude.{Result, IfOk, IfErr, MatchResult};
ghost use Rattle.pgm_script.specs.declared.script.ScriptLine.{ScriptLine};
ghost use Rattle.pgm_script.specs.declared.script.ScriptKind.{ScriptKind};
ghost use Rattle.pgm_script.specs.declared.fault.ScriptFault.{ScriptFault};
ghost use Rattle.pgm_script.specs.Scripts.{ReadsAs, HasOneReading, IsKind, IsLineOf};

use crate::line::read_line;
use crate::list::LineList;
use crate::plain::plain_line;
use crate::words::cut_line;
use crate::{ScriptFault, ScriptKind, ScriptLine};
use std::alloc::Global;

/// Any text has exactly one reading as a script of a kind. It does nothing.
pub fn readings_are_one()
    ensures { (kind : ScriptKind) (text : List ℕ) → HasOneReading kind text }
{}

/// The script of this kind that a text is: its lines in order, without blank ones and comments.
///
/// A line ends at a byte 10, and one byte 13 at its end is dropped. Spaces and tabs divide words.
/// The first word is a command of the kind, and so many numbers follow: ASCII digits that write a
/// number below 2^64, in a region or a centre one in the range of its coordinates, and one below
/// 2^32 that says how many points are asked for. A line without a word is skipped, and so is one
/// whose first word begins with `#`. It is one pass, and memory is taken for the lines alone.
///
/// # Errors
///
/// - `At` with the first line that is none of the kind's, counted from 1 over all lines, and what
///   is wrong with it first: that it isn't UTF-8, in a comment too; its first word; from left to
///   right a number that is missing or none; a word after the last number.
/// - `NoMemory` where memory for the lines wasn't found.
///
/// Never `ReadFault` or `TooLong`.
pub fn parse(alloc: Global, kind: ScriptKind, text: &[u8]) -> Result<Vec<ScriptLine>, ScriptFault>
    requires { IsKind kind }
    ensures script { IfOk result (λ lines. ReadsAs kind text.now (Ok lines.items)) }
    ensures fault { IfErr result
        (λ fault. (fault ≡ ScriptFault.NoMemory) ⊎ ReadsAs kind text.now (Err fault)) }
    ensures wherever { (reading : Result (List ScriptLine) ScriptFault) →
        ReadsAs kind text.now reading →
        MatchResult result (λ lines. reading ≡ Ok lines.items)
        (λ fault. (fault ≡ ScriptFault.NoMemory) ⊎ (reading ≡ Err fault)) }
    ensures kind { IfOk result (λ lines. All (IsLineOf kind) lines.items) }
{
    parse_as(alloc, kind, text)
}

/// Parses the text, its lines kept as a list of the caller's choice that takes those of the kind.
///
/// # Errors
///
/// Those of [`parse`].
pub fn parse_as<L: LineList>(alloc: Global, kind: ScriptKind, text: &[u8]) -> Result<L, ScriptFault>
    requires kind { IsKind kind }
    requires takes { L.takes kind }
    ensures script { IfOk result (λ list. ReadsAs kind text.now (Ok (L.lines list))) }
    ensures fault { IfErr result
        (λ fault. (fault ≡ ScriptFault.NoMemory) ⊎ ReadsAs kind text.now (Err fault)) }
    ensures wherever { (reading : Result (List ScriptLine) ScriptFault) →
        ReadsAs kind text.now reading →
        MatchResult result (λ list. reading ≡ Ok (L.lines list))
        (λ fault. (fault ≡ ScriptFault.NoMemory) ⊎ (reading ≡ Err fault)) }
    ensures kind { IfOk result (λ list. All (IsLineOf kind) (L.lines list)) }
{
    let mut list = L::empty(alloc);
    let mut rest = text;
    let mut number = 0;
    while !rest.is_empty() {
        number += 1;
        if let Some((line, after)) = plain_line(kind, rest) {
            list.put(line)?;
            rest = after;
            continue;
        }
        let (line, after) = cut_line(rest);
        match read_line(kind, line) {
            Ok(Some(line)) => list.put(line)?,
            Ok(None) => {}
            Err(why) => return Err(ScriptFault::At { line: number, why }),
        }
        rest = after;
    }
    Ok(list)
}
