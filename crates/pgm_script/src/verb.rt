// The commands, as the program knows them.
ghost use Rattle.std.specs.Prelude.{◌≡◌, ◌≤◌, ◌<◌, ◌+◌, ◌^◌, ℕ, Option, IfSome, option_map};
ghost use Rattle.std.specs.Prelude.{find, bytes_eq, take, drop, length, slice_index};
ghost use Rattle.zorder.specs.Codes.{IsDimension};
ghost use Rattle.pgm_script.specs.Commands.{commands_of, corner, greatest, map_commands};
ghost use Rattle.pgm_script.specs.Scripts.{IsKind};
ghost use Rattle.pgm_script.specs.Verbs.{command_of, AreWithin, IsVerb};

use crate::{ScriptKind, ScriptLine};
use zorder::Region;

/// A command.
#[derive(Clone, Copy)]
pub(crate) enum Verb {
    Find,
    Box(u32),
    Near(u32),
    Put,
    Del,
    Get,
    Next,
    Count,
    Sweep,
}

/// The command of this word, if the kind has it.
pub(crate) fn verb_of(kind: ScriptKind, word: &[u8]) -> Option<Verb>
    requires { IsKind kind }
    ensures command { option_map command_of result ≡ find
        (λ command. bytes_eq word.now command.word) (commands_of kind) }
    ensures verb { IfSome result IsVerb }
{
    match kind {
        ScriptKind::Find => (word == b"find".as_slice()).then_some(Verb::Find),
        ScriptKind::Region(d) => (word == b"box".as_slice()).then_some(Verb::Box(d)),
        ScriptKind::Near(d) => (word == b"near".as_slice()).then_some(Verb::Near(d)),
        ScriptKind::Replay => map_verb(true, word),
        ScriptKind::Mix => map_verb(false, word),
    }
}

/// The command of this word on a map; `sweep` is one only where sweeps may stand.
fn map_verb(sweeps: bool, word: &[u8]) -> Option<Verb>
    ensures command { option_map command_of result ≡ find
        (λ command. bytes_eq word.now command.word) (map_commands sweeps) }
    ensures verb { IfSome result IsVerb }
{
    if word == b"put".as_slice() {
        Some(Verb::Put)
    } else if word == b"del".as_slice() {
        Some(Verb::Del)
    } else if word == b"get".as_slice() {
        Some(Verb::Get)
    } else if word == b"next".as_slice() {
        Some(Verb::Next)
    } else if word == b"count".as_slice() {
        Some(Verb::Count)
    } else if sweeps && word == b"sweep".as_slice() {
        Some(Verb::Sweep)
    } else {
        None
    }
}

/// How many numbers follow.
pub(crate) fn count(verb: Verb) -> usize
    requires { IsVerb verb }
    ensures count { result ≡ length (command_of verb).most }
    ensures few { result ≤ 8 }
{
    match verb {
        Verb::Find | Verb::Del | Verb::Get | Verb::Next => 1,
        Verb::Put | Verb::Count | Verb::Sweep => 2,
        Verb::Box(d) => 2 * d as usize,
        Verb::Near(d) => d as usize + 1,
    }
}

/// The greatest value of each. Past the last number's the list says nothing.
pub(crate) fn most(verb: Verb) -> [u64; 8]
    requires { IsVerb verb }
    ensures { take (length (command_of verb).most) result ≡ (command_of verb).most }
{
    match verb {
        Verb::Box(d) => [greatest(d); 8],
        Verb::Near(d) => {
            let mut most = [greatest(d); 8];
            most[d as usize] = u64::from(u32::MAX);
            most
        }
        _ => [u64::MAX; 8],
    }
}

/// The greatest coordinate.
fn greatest(d: u32) -> u64
    requires { IsDimension d }
    ensures { result ≡ greatest d }
{
    (1 << (64 / d)) - 1
}

/// The line that the command makes of its numbers.
pub(crate) fn script_line(verb: Verb, numbers: &[u64]) -> ScriptLine
    requires verb { IsVerb verb }
    requires enough { 8 ≤ length numbers.now }
    requires range { AreWithin (command_of verb).most numbers.now }
    ensures { result ≡ (command_of verb).line
        (take (length (command_of verb).most) numbers.now) }
{
    match verb {
        Verb::Find => ScriptLine::Find(numbers[0]),
        Verb::Box(d) => ScriptLine::Region(region(d, numbers)),
        Verb::Near(d) => {
            ScriptLine::Near(corner(d as usize, numbers), numbers[d as usize] as u32)
        }
        Verb::Put => ScriptLine::Put(numbers[0], numbers[1]),
        Verb::Del => ScriptLine::Del(numbers[0]),
        Verb::Get => ScriptLine::Get(numbers[0]),
        Verb::Next => ScriptLine::Next(numbers[0]),
        Verb::Count => ScriptLine::Count(numbers[0], numbers[1]),
        Verb::Sweep => ScriptLine::Sweep(numbers[0], numbers[1]),
    }
}

/// The region of these corners, the low one first.
fn region(d: u32, numbers: &[u64]) -> Region
    requires dimension { IsDimension d }
    requires enough { 8 ≤ length numbers.now }
    requires range { (c : ℕ) → c < d + d → slice_index numbers.now c < 2 ^ 32 }
    ensures d { result.d ≡ d }
    ensures low { result.low ≡ corner d numbers.now }
    ensures high { result.high ≡ corner d (drop d numbers.now) }
{
    Region {
        d,
        low: corner(d as usize, numbers),
        high: corner(d as usize, &numbers[d as usize..]),
    }
}

/// The first coordinates, with 0 for the others.
fn corner(d: usize, numbers: &[u64]) -> [u32; 4]
    requires dimension { IsDimension d }
    requires enough { d ≤ length numbers.now }
    requires range { (c : ℕ) → c < d → slice_index numbers.now c < 2 ^ 32 }
    ensures { result ≡ corner d numbers.now }
{
    let mut coords = [0; 4];
    for c in 0..d {
        coords[c] = numbers[c] as u32;
    }
    coords
}
