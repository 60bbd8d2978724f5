// Interleaved searches of sixteen questions.
ghost use Rattle.std.specs.Prelude.{◌+◌, ◌-◌, ◌*◌, ◌<◌, ◌≤◌, ◌^◌, length};
ghost use Rattle.std.specs.List.Sorted.{IsNonDecreasing};
ghost use Rattle.key_search.specs.Interleaved.{AreAmong, HasBound, HaveBounds};

use crate::sorted::Sorted;

/// How many searches are interleaved. Their reads of memory don't wait for one another.
pub const LANES: usize = 16;

/// Leaves one place of `count` for the predecessor of each of sixteen questions.
///
/// Each step halves the places of all sixteen, and no branch depends on a key.
#[inline(always)]
pub fn predecessors_interleaved(list: &[u64], qs: &[u64; 16], bases: &mut [u32; 16], count: u32)
    requires order { IsNonDecreasing list.now }
    requires few { length list.now < 2 ^ 32 }
    requires some { 1 ≤ count }
    requires among { AreAmong list.now qs.now bases.old count }
    ensures { AreAmong list.now qs.now bases.new 1 }
{
    let sorted = Sorted { keys: list };
    let mut count = count;
    while count > 1 {
        let half = count / 2;
        halve_predecessors(sorted, qs, bases, half, count);
        count -= half;
    }
}

/// One step of it: `half` of the places are left out.
#[inline(always)]
fn halve_predecessors(
    sorted: Sorted<'_>,
    qs: &[u64; 16],
    bases: &mut [u32; 16],
    half: u32,
    count: u32,
)
    requires half { half < count }
    requires most { half + half ≤ count }
    requires among { AreAmong sorted.keys.now qs.now bases.old count }
    ensures { AreAmong sorted.entry.keys.now qs.now bases.new (count - half) }
{
    for lane in 0..LANES {
        let base = bases[lane];
        let middle = base + half;
        bases[lane] = if sorted.keys[middle as usize] <= qs[lane] {
            middle
        } else {
            base
        };
    }
}

/// Leaves one place of `count` for the lower bound of each of sixteen questions.
///
/// Each step halves the places of all sixteen, and no branch depends on a key.
#[inline(always)]
pub fn bounds_interleaved(list: &[u64], qs: &[u64; 16], bases: &mut [u32; 16], count: u64)
    requires order { IsNonDecreasing list.now }
    requires few { length list.now < 2 ^ 32 }
    requires some { 1 ≤ count }
    requires most { count ≤ 2 ^ 32 }
    requires bounds { HaveBounds list.now qs.now bases.old count }
    ensures { HaveBounds list.now qs.now bases.new 1 }
{
    if count < 2 {
        return;
    }
    let sorted = Sorted { keys: list };
    let mut shift = (count - 1).ilog2();
    halve_bounds(sorted, qs, bases, (count - (1 << shift)) as u32, count);
    while shift > 0 {
        shift -= 1;
        halve_bounds_evenly(sorted, qs, bases, shift);
    }
}

/// One step of it, which leaves `2^shift` places of twice as many.
#[inline(always)]
fn halve_bounds_evenly(sorted: Sorted<'_>, qs: &[u64; 16], bases: &mut [u32; 16], shift: u32)
    requires short { shift < 32 }
    requires bounds { HaveBounds sorted.keys.now qs.now bases.old (2 * 2 ^ shift) }
    ensures { HaveBounds sorted.entry.keys.now qs.now bases.new (2 ^ shift) }
{
    for lane in 0..LANES {
        bases[lane] = halved_evenly(sorted, qs[lane], bases[lane], shift);
    }
}

/// The first of the `2^shift` places that are left of twice as many from `base` on.
///
/// The answer of the comparison, shifted, is added to the place: of a selection the compiler makes
/// a branch, half of such branches are mispredicted, and then the lanes wait for one another.
#[inline(always)]
fn halved_evenly(sorted: Sorted<'_>, q: u64, base: u32, shift: u32) -> u32
    requires short { shift < 32 }
    requires bound { HasBound sorted.keys.now q base (2 * 2 ^ shift) }
    ensures { HasBound sorted.entry.keys.now q result (2 ^ shift) }
{
    let is_below = sorted.keys[base as usize + (1 << shift) - 1] < q;
    base + (u32::from(is_below) << shift)
}

/// The first step of it: `half` of the places are left out.
#[inline(always)]
fn halve_bounds(sorted: Sorted<'_>, qs: &[u64; 16], bases: &mut [u32; 16], half: u32, count: u64)
    requires some { 1 ≤ half }
    requires half { half < count }
    requires most { half + half ≤ count }
    requires bounds { HaveBounds sorted.keys.now qs.now bases.old count }
    ensures { HaveBounds sorted.entry.keys.now qs.now bases.new (count - half) }
{
    for lane in 0..LANES {
        let base = bases[lane];
        let middle = base + half;
        bases[lane] = if sorted.keys[middle as usize - 1] < qs[lane] {
            middle
        } else {
            base
        };
    }
}
