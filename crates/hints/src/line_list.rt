// Lines, three numbers each: the first x, the slope, and the height there with the slope's shift.
ghost use Rattle.std.specs.Prelude.{◌≡◌, ◌+◌, ◌-◌, ◌*◌, ◌/◌, ◌<◌, ◌≤◌, length, min};
ghost use Rattle.budget.specs.Ledgers.{IsNewLedger};
ghost use Rattle.window_search.specs.Brackets.{IsBracket};
ghost use Rattle.hints.specs.Told.{IsToldBy, first_xs, height_at};

use budget::Steps;
use std::sync::ledger::{Blank, Ledger};
use window_search::{CountedKeys, KeyList, bracket_from};

/// The first x of each line, as keys.
#[derive(Clone, Copy)]
pub struct FirstXs<'a> {
    pub lines: &'a [u64],
}

impl<'a> KeyList for FirstXs<'a> {
    ghost listed = { λ xs. first_xs xs.lines.now };

    #[inline(always)]
    fn len(&self) -> usize {
        let lines = self.lines;
        lines.len() / 3
    }

    #[inline(always)]
    fn at(&self, place: usize) -> u64 {
        let lines = self.lines;
        lines[3 * place]
    }
}

/// How many of the lines begin at or before `q`, if from so many to so many are said to; searched
/// anew where they don't. Of lines that don't rise, some place that brackets the number after it.
///
/// Its reads are counted in a new ledger, and no clause says how many they are.
#[inline(always)]
pub fn lines_begun<L: Ledger>(lines: &[u64], from: usize, to: usize, q: u64, blank: Blank) -> usize
    requires { IsNewLedger blank L.name L.parts }
    ensures { IsBracket (first_xs lines.now) (q + 1) result }
{
    if q == u64::MAX {
        return lines.len() / 3;
    }
    let mut steps = Steps::<L>::new(blank);
    let begun = begun_between(lines, from, to, q);
    bracket_from(
        &CountedKeys::new(FirstXs { lines }),
        begun,
        q + 1,
        &mut steps,
    )
}

/// How many lines begin at or before `q`, if from so many to so many do. No clause says that they
/// do.
#[inline(always)]
fn begun_between(lines: &[u64], from: usize, to: usize, q: u64) -> usize {
    let to = to.min(lines.len() / 3);
    let mut begun = from.min(to);
    let mut left = to - begun;
    while left > 0 {
        let half = left / 2;
        if lines[3 * (begun + half)] <= q {
            begun += half + 1;
            left -= half + 1;
        } else {
            left = half;
        }
    }
    begun
}

/// The place among `n` keys that the lines tell, of which `begun` begin at or before `q`.
#[inline(always)]
pub fn place_told(lines: &[u64], eps: u64, n: usize, q: u64, begun: usize) -> usize
    requires { begun ≤ length lines.now / 3 }
    ensures told { IsToldBy lines.now eps n q begun result }
    ensures within { result ≤ n }
{
    if begun == 0 {
        return 0;
    }
    let height = height(lines, begun - 1, q);
    if begun < lines.len() / 3 {
        return lowered(height.min(u128::from(lines[3 * begun + 2] / 128)), eps, n);
    }
    lowered(height, eps, n)
}

/// The height of a line at `q`, raised by the error bound.
#[inline(always)]
fn height(lines: &[u64], line: usize, q: u64) -> u128
    requires { 3 * line + 2 < length lines.now }
    ensures { result ≡ height_at lines.now line q }
{
    let distance = q.saturating_sub(lines[3 * line]);
    let slope = lines[3 * line + 1];
    let last = lines[3 * line + 2];
    let rise = u128::from(distance) * u128::from(slope);
    u128::from(last / 128) + (rise >> (last % 128) as u32)
}

/// A raised height, lowered by the error bound, as a place among `n` keys.
#[inline(always)]
fn lowered(height: u128, eps: u64, n: usize) -> usize
    ensures { result ≡ min n (height - eps) }
{
    height.saturating_sub(u128::from(eps)).min(n as u128) as usize
}
