// The searches in a window, by halving.
ghost use Rattle.std.specs.Prelude.{◌≡◌, ℕ, ◌+◌, ◌-◌, ◌≤◌, ◌<◌, length};
ghost use Rattle.std.specs.List.Sorted.{IsNonDecreasing};
ghost use Rattle.window_search.specs.Searches.{lb, IsPredecessor, HalvesPlaces};

use crate::{CountedKeys, KeyList};
use budget::Steps;
use std::sync::ledger::Ledger;

/// The predecessor of `q`: the last place whose key is at most `q`.
///
/// It is searched among the places `lo..=hi`, where the caller knows that it is. One step is one
/// key read, and t steps are taken with `2^t <= 2 * (hi - lo + 1)`. Cannot fail and takes no
/// memory.
pub fn predecessor_in<K: KeyList, L: Ledger>(
    keys: &CountedKeys<K, L>,
    lo: u32,
    hi: u32,
    q: u64,
    steps: &mut Steps<L>,
) -> u32
    requires order { IsNonDecreasing keys.now }
    requires range { lo ≤ hi }
    requires within { hi ≤ length keys.now }
    requires answer { (place : ℕ) × IsPredecessor keys.now q place × (lo ≤ place) × (place ≤ hi) }
    ensures found { IsPredecessor keys.now q result }
    ensures cost { HalvesPlaces steps.old steps.new (hi - lo + 1) }
{
    // The predecessor is one of the `count` places from `base` on. That at the list's end is none.
    let mut base = lo as usize;
    let mut count = (hi as usize + 1).min(keys.len()) - base;
    while count > 1 {
        let half = count / 2;
        if keys.read(base + half, steps) <= q {
            base += half;
            count -= half;
        } else {
            count = half;
        }
    }
    base as u32
}

/// The lower bound of `q`: how many keys are below `q`.
///
/// It is searched among the places `lo..=hi`, where the caller knows that it is. Equal keys may
/// stand side by side. One step is one key read, and t steps are taken with `2^t <= 2 * (hi - lo +
/// 1)`. Cannot fail and takes no memory.
pub fn lower_in<K: KeyList, L: Ledger>(
    keys: &CountedKeys<K, L>,
    lo: u32,
    hi: u32,
    q: u64,
    steps: &mut Steps<L>,
) -> u32
    requires order { IsNonDecreasing keys.now }
    requires range { lo ≤ hi }
    requires within { hi ≤ length keys.now }
    requires from { lo ≤ lb keys.now q }
    requires to { lb keys.now q ≤ hi }
    ensures found { result ≡ lb keys.now q }
    ensures cost { HalvesPlaces steps.old steps.new (hi - lo + 1) }
{
    // The lower bound is one of the `count` places from `bound` on.
    let mut bound = lo as usize;
    let mut count = hi as usize + 1 - bound;
    while count > 1 {
        let half = count / 2;
        if keys.read(bound + half - 1, steps) < q {
            bound += half;
            count -= half;
        } else {
            count = half;
        }
    }
    bound as u32
}
