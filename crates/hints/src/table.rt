// The head of lines, with the table that leads to them.
ghost use Rattle.std.specs.Prelude.{◌+◌, ◌*◌, ◌/◌, ◌≤◌, IfOk, OnOk, length};
ghost use Rattle.hints.specs.Made.{AddsHints, IsHead};

use crate::hint_list::FORMAT;
use budget::NoMemory;
use std::alloc::Global;

/// How the numbers from `first` on are cut into `count` equal steps of `2^shift`, the last one
/// without an end.
#[derive(Clone, Copy)]
struct Cuts {
    first: u64,
    shift: u64,
    count: u64,
}

/// The head of lines, three numbers each, with its table: for each step how many lines begin before
/// it. It has at most two steps a line. No clause says what they tell.
pub fn head_of(alloc: Global, lines: &[u64], eps: u32) -> Result<Vec<u64>, NoMemory>
    ensures { IfOk result (λ head. IsHead eps (length lines.now / 3) head.items) }
{
    let cuts = cuts_of(lines);
    let count = lines.len() as u64 / 3;
    let head = [
        FORMAT,
        u64::from(eps),
        count,
        cuts.count,
        cuts.shift,
        cuts.first,
    ];
    let mut head = Vec::from_array(alloc, head)?;
    add_table(&mut head, lines, &cuts)?;
    Ok(head)
}

/// The steps of a table: as short as they are with at most two steps a line.
fn cuts_of(lines: &[u64]) -> Cuts
    ensures { result.count ≤ 2 * (length lines.now / 3) }
{
    let count = lines.len() / 3;
    if count == 0 {
        return Cuts {
            first: 0,
            shift: 0,
            count: 0,
        };
    }
    let first = lines[0];
    let last = lines[3 * (count - 1)];
    let width = last.saturating_sub(first);
    let mut shift: u32 = 0;
    while shift < 63 && (width >> shift) / 2 >= count as u64 {
        shift += 1;
    }
    Cuts {
        first,
        shift: u64::from(shift),
        count: (width >> shift).saturating_add(1),
    }
}

/// Adds for each step how many lines begin before it.
fn add_table(head: &mut Vec<u64>, lines: &[u64], cuts: &Cuts) -> Result<(), NoMemory>
    ensures { OnOk result (AddsHints cuts.now.count head.old.items head.new.items) }
{
    let mut begun = 0;
    for step in 0..cuts.count {
        let start = cuts.first.saturating_add(step << (cuts.shift % 64));
        begun = begun_before(lines, begun, start);
        head.push(begun as u64)?;
    }
    Ok(())
}

/// How many lines begin before a number, of which so many are known to.
fn begun_before(lines: &[u64], known: usize, start: u64) -> usize
    requires { known ≤ length lines.now / 3 }
    ensures { result ≤ length lines.now / 3 }
{
    let mut begun = known;
    while begun < lines.len() / 3 && lines[3 * begun] < start {
        begun += 1;
    }
    begun
}
