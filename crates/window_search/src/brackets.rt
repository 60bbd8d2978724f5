// The place of a question in any list of keys, from a hint away.
ghost use Rattle.std.specs.Prelude.{◌≡◌, ◌+◌, ◌-◌, ◌≤◌, ◌<◌, ◌↔◌, length, min, slice_index};
ghost use Rattle.std.specs.Prelude.{IsTrue};
ghost use Rattle.std.specs.List.Sorted.{IsNonDecreasing};
ghost use Rattle.window_search.specs.Brackets.{IsBracket, HoldsBracket, IsReached, ReadsNear};
ghost use Rattle.window_search.specs.Searches.{lb, HalvesPlaces};

use crate::{CountedKeys, KeyList};
use budget::Steps;
use std::sync::ledger::Ledger;

/// A place that brackets `q`: the key before it is below `q`, and the key there isn't. Where the
/// keys never fall it is the lower bound of `q`, how many of them are below it.
///
/// It is searched from the place `hint` away, by steps that double, and then by halving between the
/// last two: where the hint is the place, the two keys beside it tell. Nothing is asked of the keys
/// or the hint; a hint beyond the end is the end. One step is one key read, and where the place is
/// `d` from the hint, t steps are taken with `2^t <= 8 * (d + 1)^2`. Cannot fail and takes no
/// memory. Source: Bentley and Yao, Information Processing Letters 5(3), 1976.
#[inline]
pub fn bracket_from<K: KeyList, L: Ledger>(
    keys: &CountedKeys<K, L>,
    hint: usize,
    q: u64,
    steps: &mut Steps<L>,
) -> usize
    ensures bracket { IsBracket keys.now q result }
    ensures found { IsNonDecreasing keys.now →
        result ≡ lb keys.now q }
    ensures cost { ReadsNear (min hint (length keys.now)) result
        steps.old steps.new }
{
    let from = hint.min(keys.len());
    let (low, high) = reach_from(keys, from, q, steps);
    halve(keys, low, high, q, steps)
}

/// A place that brackets `q`, by halving all places. One step is one key read, and two to their
/// number is at most twice the places.
///
/// It reads fewer keys than the search from a hint that is far off. Cannot fail and takes no
/// memory.
#[inline]
pub fn bracket_of<K: KeyList, L: Ledger>(
    keys: &CountedKeys<K, L>,
    q: u64,
    steps: &mut Steps<L>,
) -> usize
    ensures bracket { IsBracket keys.now q result }
    ensures found { IsNonDecreasing keys.now →
        result ≡ lb keys.now q }
    ensures cost { HalvesPlaces steps.old steps.new (length keys.now + 1) }
{
    halve(keys, 0, keys.len(), q, steps)
}

/// Whether a place brackets `q`. One step is one key read, and at most two are taken.
#[inline(always)]
pub fn is_bracket<K: KeyList, L: Ledger>(
    keys: &CountedKeys<K, L>,
    place: usize,
    q: u64,
    steps: &mut Steps<L>,
) -> bool
    ensures exact { IsTrue result ↔ IsBracket keys.now q place }
    ensures cost { steps.new ≤ steps.old + 2 }
{
    let count = keys.len();
    if place > count || (place > 0 && keys.read(place - 1, steps) >= q) {
        return false;
    }
    place == count || keys.read(place, steps) >= q
}

/// Places on one side of `from` among which a bracket is.
#[inline(always)]
fn reach_from<K: KeyList, L: Ledger>(
    keys: &CountedKeys<K, L>,
    from: usize,
    q: u64,
    steps: &mut Steps<L>,
) -> (usize, usize)
    requires { from ≤ length keys.now }
    ensures held { HoldsBracket keys.now q result.0 result.1 }
    ensures reached { IsReached 4 from result.0 result.1 steps.old steps.new }
{
    if from < keys.len() && keys.read(from, steps) < q {
        return reach_up(keys, from, q, steps);
    }
    reach_down(keys, from, q, steps)
}

/// Places above `from` among which a bracket is, by steps that double.
#[inline(always)]
fn reach_up<K: KeyList, L: Ledger>(
    keys: &CountedKeys<K, L>,
    from: usize,
    q: u64,
    steps: &mut Steps<L>,
) -> (usize, usize)
    requires inside { from < length keys.now }
    requires below { slice_index keys.now from < q }
    ensures held { HoldsBracket keys.now q result.0 result.1 }
    ensures reached { IsReached 2 from result.0 result.1 steps.old steps.new }
{
    let count = keys.len();
    let mut low = from + 1;
    while low - from <= count - low {
        let place = low + (low - from - 1);
        if keys.read(place, steps) >= q {
            return (low, place);
        }
        low = place + 1;
    }
    (low, count)
}

/// Places up to `from` among which a bracket is, by steps that double.
#[inline(always)]
fn reach_down<K: KeyList, L: Ledger>(
    keys: &CountedKeys<K, L>,
    from: usize,
    q: u64,
    steps: &mut Steps<L>,
) -> (usize, usize)
    requires inside { from ≤ length keys.now }
    requires at { from < length keys.now → q ≤ slice_index keys.now from }
    ensures held { HoldsBracket keys.now q result.0 result.1 }
    ensures reached { IsReached 2 from result.0 result.1 steps.old steps.new }
{
    let _len = keys.len();
    let mut high = from;
    while from - high < high {
        let place = high - (from - high) - 1;
        if keys.read(place, steps) < q {
            return (place + 1, high);
        }
        high = place;
    }
    (0, high)
}

/// A bracket among the places `low..=high`, by halving.
#[inline(always)]
fn halve<K: KeyList, L: Ledger>(
    keys: &CountedKeys<K, L>,
    low: usize,
    high: usize,
    q: u64,
    steps: &mut Steps<L>,
) -> usize
    requires { HoldsBracket keys.now q low high }
    ensures bracket { IsBracket keys.now q result }
    ensures from { low ≤ result }
    ensures to { result ≤ high }
    ensures cost { HalvesPlaces steps.old steps.new (high - low + 1) }
{
    // A bracket is at `place` or one of the `more` places after it.
    let mut place = low;
    let mut more = high - low;
    while more > 0 {
        let half = more / 2;
        if keys.read(place + half, steps) < q {
            place += half + 1;
            more -= half + 1;
        } else {
            more = half;
        }
    }
    place
}
