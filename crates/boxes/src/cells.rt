// Cells of the Morton order: the codes that begin alike. Where the least and the greatest of a cell
// lie in a region, all of them do, so codes of it need not be tested one by one.
ghost use Rattle.std.specs.Prelude.{◌≡◌, ◌+◌, ◌-◌, ◌<◌, ◌≤◌, ◌^◌, ℕ, IsTrue, length, slice_index};
ghost use Rattle.std.specs.List.Sorted.{IsNonDecreasing};
ghost use Rattle.zorder.specs.Codes.{IsDimension};
ghost use Rattle.zorder.specs.Dilated.{IsBetween};
ghost use Rattle.bigmin.specs.NextBetween.{AreOrdered};

use crate::walk::is_within;

/// How many codes are passed at once. They are eight lines of the cache.
const AT_ONCE: usize = 64;

/// The ones of all places up to the highest at which two numbers differ.
#[inline(always)]
fn ones_up_to_difference(a: u64, b: u64) -> u64
    ensures { (k : ℕ) × (k ≤ 64) × (result ≡ 2 ^ k - 1) }
{
    u64::MAX >> (63 - ((a ^ b) | 1).ilog2())
}

/// Whether all numbers of the least cell that has two of them lie between two others, coordinate by
/// coordinate. If so, all from the first to the last do.
#[inline(always)]
fn is_cell_within(d: u32, low: u64, high: u64, first: u64, last: u64) -> bool
    requires dimension { IsDimension d }
    requires ordered { AreOrdered d low high }
    ensures { IsTrue result → (w : ℕ) → first ≤ w → w ≤ last → IsBetween d low high w }
{
    let below = ones_up_to_difference(first, last);
    let least = first & !below;
    let most = first | below;
    if last > most {
        return false;
    }
    is_within(d, low, high, least) && is_within(d, low, high, most)
}

/// A place from one on up to which all codes lie between two others, coordinate by coordinate,
/// where they never fall; found by whole cells. It need not be the last.
#[inline(always)]
pub fn over_cells(d: u32, low: u64, high: u64, codes: &[u64], at: usize) -> usize
    requires dimension { IsDimension d }
    requires ordered { AreOrdered d low high }
    requires here { at ≤ length codes.now }
    ensures onwards { at ≤ result }
    ensures within { result ≤ length codes.now }
    ensures between { IsNonDecreasing codes.now → (j : ℕ) → at ≤ j → j < result
        → IsBetween d low high (slice_index codes.now j) }
{
    let mut place = at;
    while codes.len() - place > AT_ONCE
        && is_cell_within(d, low, high, codes[place], codes[place + AT_ONCE])
    {
        place += AT_ONCE;
    }
    place
}
