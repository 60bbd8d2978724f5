// The position of one question, near where it is said to be.
ghost use Rattle.std.specs.Prelude.{◌≡◌, ◌≤◌, ◌<◌, ◌+◌, ◌^◌, ◌↔◌, length, IfSome, IsTrue};
ghost use Rattle.std.specs.List.Sorted.{IsNonDecreasing};
ghost use Rattle.budget.specs.Ledgers.{IsNewLedger};
ghost use Rattle.window_search.specs.Brackets.{IsBracket};
ghost use Rattle.window_search.specs.Searches.{lb};

use budget::Steps;
use std::marker::Brand;
use std::sync::ledger::{Blank, Ledger};
use window_search::{CountedKeys, KeyList, is_bracket};

/// How many keys are a group.
const GROUP: usize = 8;

/// How many keys are below a question, if that place is near a start or at the keys' end; or None.
///
/// Groups of eight keys are looked at from the start on, `groups` of them: the last key of each
/// group but one, and then all of one group, with no branch on an answer. So reads wait for main
/// memory twice, where those of halving do at each step. No clause says that the place is found
/// where it is near: what is found is checked.
#[inline(always)]
pub fn position_near<K: KeyList>(keys: K, start: usize, groups: usize, q: u64) -> Option<usize>
    requires never_falls { IsNonDecreasing (K.listed keys) }
    requires some { 1 ≤ groups }
    requires few { groups < 2 ^ 32 }
    ensures found { IfSome result (λ place. place ≡ lb (K.listed keys) q) }
    ensures within { IfSome result (λ place. place ≤ length (K.listed keys)) }
{
    let place = place_near(keys, start, groups, q);
    if brackets::<K, Brand>(keys, place, q, Blank::new(1)) {
        Some(place)
    } else {
        None
    }
}

/// Whether a place brackets a question, its reads counted in a new ledger.
#[inline(always)]
fn brackets<K: KeyList, L: Ledger>(keys: K, place: usize, q: u64, blank: Blank) -> bool
    requires { IsNewLedger blank L.name L.parts }
    ensures { IsTrue result ↔ IsBracket (K.listed keys) q place }
{
    let mut steps = Steps::<L>::new(blank);
    is_bracket(&CountedKeys::new(keys), place, q, &mut steps)
}

/// How many keys are below a question, if that place is near a start or at the keys' end.
#[inline(always)]
fn place_near<K: KeyList>(keys: K, start: usize, groups: usize, q: u64) -> usize
    requires some { 1 ≤ groups }
    requires few { groups < 2 ^ 32 }
{
    let count = keys.len();
    if count < GROUP * groups {
        return count_below(keys, 0, count, q);
    }
    let first = start.min(count - GROUP * groups);
    let mut at = first;
    for i in 1..groups {
        let is_below = keys.at(first + (GROUP * i - 1)) < q;
        at = at.wrapping_add(GROUP * usize::from(is_below));
    }
    let at = at.min(count - GROUP);
    at.wrapping_add(count_below(keys, at, GROUP, q))
}

/// How many of so many keys from a place on are below a question.
///
/// Those that aren't are taken off: of a sum of the others the compiler makes more.
#[inline(always)]
fn count_below<K: KeyList>(keys: K, from: usize, many: usize, q: u64) -> usize
    requires { from + many ≤ length (K.listed keys) }
{
    let _len = keys.len();
    let mut count = many;
    for i in 0..many {
        count = count.wrapping_sub(usize::from(keys.at(from + i) >= q));
    }
    count
}
