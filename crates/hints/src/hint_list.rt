// Where hints say that a place is.
ghost use Rattle.std.specs.Prelude.{◌≡◌, ◌+◌, ◌≤◌, IfNone, IfSome, length, slice_index};
ghost use Rattle.hints.specs.Told.{IsTold, IsWhole, lines_in};

use crate::line_list::{lines_begun, place_told};
use std::marker::Brand;
use std::sync::ledger::Blank;

/// The first number of hints in the format: `KBQHINT1`, the lowest byte first.
pub const FORMAT: u64 = 0x3154_4e49_4851_424b;

/// So many numbers stand before the table.
pub const HEAD_LEN: usize = 6;

/// Where the hints say that the place of `q` among `n` keys is: where to look first, for callers
/// whose keys lie where no slice leads. Any hints tell some place up to `n`.
///
/// The hints are a head, a table that leads to lines, and the lines. Each number may be anything:
/// hints in no format tell 0, and lines that don't rise tell some place. Cannot fail and takes no
/// memory.
///
/// ```text
/// number 0     1  2      3      4      5        6 .. 6 + table    three each
///      format  ε  lines  table  shift  first x  [lines begun ..]  [first x, slope, last number] ..
///
/// last number: the height at the first x, times 128, plus the shift of the slope
/// ```
pub fn told(hints: &[u64], n: usize, q: u64) -> usize
    ensures place { IsTold hints.now n q result }
    ensures within { result ≤ n }
{
    let Some(lines) = whole_lines(hints) else {
        return 0;
    };
    let (from, to) = step_of(hints, q);
    let begun = lines_begun::<Brand>(lines, from, to, q, Blank::new(1));
    place_told(lines, hints[1], n, q, begun)
}

/// The numbers of the lines, three of each, if the hints are in the format. Cannot fail and takes
/// no memory.
#[inline(always)]
pub fn whole_lines(hints: &[u64]) -> Option<&[u64]>
    ensures whole { IfSome result (λ lines. IsWhole hints.now × (lines.now ≡ lines_in hints.now)) }
    ensures none { IfNone result (IsWhole hints.now → ⊥) }
{
    if hints.len() < HEAD_LEN || hints[0] != FORMAT {
        return None;
    }
    let room = hints.len() - HEAD_LEN;
    let (count, table) = (hints[2], hints[3]);
    if table > room as u64 || count > (room as u64 - table) / 3 {
        return None;
    }
    let from = HEAD_LEN + table as usize;
    let to = from + 3 * count as usize;
    Some(&hints[from..to])
}

/// How many lines begin before the step that `q` is in, and before the next one, as the table says.
/// No clause says that they do.
#[inline(always)]
fn step_of(hints: &[u64], q: u64) -> (usize, usize)
    requires { HEAD_LEN + slice_index hints.now 3 ≤ length hints.now }
{
    let table = hints[3];
    if table == 0 {
        return (0, 0);
    }
    let step = q.saturating_sub(hints[5]) >> (hints[4] % 64) as u32;
    if step >= table - 1 {
        return (
            hints[HEAD_LEN + table as usize - 1] as usize,
            hints[2] as usize,
        );
    }
    let at = HEAD_LEN + step as usize;
    (hints[at] as usize, hints[at + 1] as usize)
}
