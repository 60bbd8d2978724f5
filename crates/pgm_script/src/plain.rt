// Lines as they are mostly written: a command, behind one space each number, and byte 10.
ghost use Rattle.std.specs.Prelude.{◌≡◌, ◌∷◌, IfSome};
ghost use Rattle.pgm_script.specs.Plain.{BeginsWithCommand, BeginsWithDigits, BeginsWithLine};
ghost use Rattle.pgm_script.specs.Commands.{map_kind};
ghost use Rattle.pgm_script.specs.Scripts.{IsKind};
ghost use Rattle.pgm_script.specs.Verbs.{command_of, IsVerb};

use crate::verb::{Verb, count, script_line};
use crate::words::digits;
use crate::{ScriptKind, ScriptLine};

/// The first line of the text, and the text after it, where it is such a line, by one pass that
/// cuts off no line and no word first. Of another line this says nothing.
pub(crate) fn plain_line(kind: ScriptKind, text: &[u8]) -> Option<(ScriptLine, &[u8])>
    requires { IsKind kind }
    ensures { IfSome result (λ cut. BeginsWithLine kind text.now cut.0 cut.1.now) }
{
    let (verb, rest) = plain_command(kind, text)?;
    let (first, rest) = plain_number(rest)?;
    if count(verb) == 1 {
        let after = plain_end(rest)?;
        return Some((script_line(verb, &[first, 0, 0, 0, 0, 0, 0, 0]), after));
    }
    let (second, rest) = plain_number(rest)?;
    let after = plain_end(rest)?;
    Some((script_line(verb, &[first, second, 0, 0, 0, 0, 0, 0]), after))
}

/// The command that the text begins with, if it has one or two numbers.
#[inline]
fn plain_command(kind: ScriptKind, text: &[u8]) -> Option<(Verb, &[u8])>
    requires { IsKind kind }
    ensures verb { IfSome result (λ cut. IsVerb cut.0) }
    ensures command { IfSome result
        (λ cut. BeginsWithCommand kind text.now (command_of cut.0) cut.1.now) }
{
    match kind {
        ScriptKind::Find => match text {
            [b'f', b'i', b'n', b'd', rest @ ..] => Some((Verb::Find, rest)),
            _ => None,
        },
        ScriptKind::Region(_) | ScriptKind::Near(_) => None,
        ScriptKind::Replay => plain_map_command(true, text),
        ScriptKind::Mix => plain_map_command(false, text),
    }
}

/// The plain command of a line of updates and questions, with sweeps or without.
#[inline]
fn plain_map_command(sweeps: bool, text: &[u8]) -> Option<(Verb, &[u8])>
    ensures verb { IfSome result (λ cut. IsVerb cut.0) }
    ensures command { IfSome result
        (λ cut. BeginsWithCommand (map_kind sweeps) text.now (command_of cut.0) cut.1.now) }
{
    if let [b'p', b'u', b't', rest @ ..] = text {
        return Some((Verb::Put, rest));
    }
    if let [b'd', b'e', b'l', rest @ ..] = text {
        return Some((Verb::Del, rest));
    }
    if let [b'g', b'e', b't', rest @ ..] = text {
        return Some((Verb::Get, rest));
    }
    if let [b'n', b'e', b'x', b't', rest @ ..] = text {
        return Some((Verb::Next, rest));
    }
    if let [b'c', b'o', b'u', b'n', b't', rest @ ..] = text {
        return Some((Verb::Count, rest));
    }
    match text {
        [b's', b'w', b'e', b'e', b'p', rest @ ..] if sweeps => Some((Verb::Sweep, rest)),
        _ => None,
    }
}

/// The number behind one space, and the text after its digits.
#[inline]
fn plain_number(text: &[u8]) -> Option<(u64, &[u8])>
    ensures { IfSome result (λ cut. BeginsWithDigits text.now cut.0 cut.1.now) }
{
    let [b' ', rest @ ..] = text else {
        return None;
    };
    let (number, len) = digits(rest)?;
    if len == 0 {
        return None;
    }
    Some((number, &rest[len..]))
}

/// The text after byte 10.
#[inline]
fn plain_end(text: &[u8]) -> Option<&[u8]>
    ensures { IfSome result (λ after. text.now ≡ 10 ∷ after.now) }
{
    match text {
        [b'\n', after @ ..] => Some(after),
        _ => None,
    }
}
