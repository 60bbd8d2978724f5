// The place of one question.
ghost use Rattle.std.specs.Prelude.{◌≡◌, ◌+◌, ◌<◌, ◌≤◌, ◌^◌, ℕ, length};
ghost use Rattle.std.specs.List.Sorted.{IsNonDecreasing};
ghost use Rattle.budget.specs.Ledgers.{IsNewLedger};
ghost use Rattle.window_search.specs.Brackets.{IsBracket, ReadsWithin};
ghost use Rattle.window_search.specs.Searches.{lb};
ghost use Rattle.hints.specs.Lookups.{IsPosition, LeadsWithin};

use crate::hint_list::told;
use budget::Steps;
use std::marker::Brand;
use std::sync::ledger::{Blank, Ledger};
use window_search::{CountedKeys, KeyList, bracket_from};

/// The place of `q`: where the keys never fall, how many of them are below `q`; in any keys a place
/// with a key below `q` before it and none at it.
///
/// The place that the hints tell is tried first, and where it is right, the two keys beside it are
/// all that is read. It takes the steps of [`position_counted`], and counts nothing. Nothing is
/// asked of keys or hints. Cannot fail and takes no memory.
#[inline]
pub fn position<K: KeyList>(keys: K, hints: &[u64], q: u64) -> usize
    ensures { IsPosition (K.listed keys) q result }
{
    position_from::<K, Brand>(keys, hints, q, Blank::new(1))
}

/// The place of [`position`], with the steps counted.
///
/// It is searched from where the hints tell away, by steps that double: where that is right, the
/// two keys beside it are read alone. One step is one key read, and t are taken with `2^t <= 8 * (n
/// + 1)^2` in `n` keys, and where the hints lead to within `off`, `2^t <= 8 * (off + 1)^2`. Hints
/// are read without a step: some of a head, and as many lines as a search in them takes. Cannot
/// fail and takes no memory.
#[inline]
pub fn position_counted<K: KeyList, L: Ledger>(
    keys: &CountedKeys<K, L>,
    hints: &[u64],
    q: u64,
    steps: &mut Steps<L>,
) -> usize
    ensures bracket { IsBracket keys.now q result }
    ensures found { IsNonDecreasing keys.now → result ≡ lb keys.now q }
    ensures worst { ReadsWithin 8 (length keys.now) steps.old steps.new }
    ensures near { (off : ℕ) → IsNonDecreasing keys.now → LeadsWithin hints.now keys.now off →
        ReadsWithin 8 off steps.old steps.new }
{
    let from = told(hints, keys.len(), q);
    bracket_from(keys, from, q, steps)
}

/// How many keys are at most `q`, where they never fall: the place of `q + 1`, or after the
/// greatest number there is, the end.
///
/// It takes the steps of [`upper_bound_counted`], and counts nothing. Cannot fail and takes no
/// memory.
#[inline]
pub fn upper_bound<K: KeyList>(keys: K, hints: &[u64], q: u64) -> usize
    ensures place { q + 1 < 2 ^ 64 → IsPosition (K.listed keys) (q + 1) result }
    ensures end { 2 ^ 64 ≤ q + 1 → result ≡ length (K.listed keys) }
{
    upper_bound_from::<K, Brand>(keys, hints, q, Blank::new(1))
}

/// The place of [`upper_bound`], with the steps counted: those of [`position_counted`] for `q + 1`,
/// and after the greatest number none.
#[inline]
pub fn upper_bound_counted<K: KeyList, L: Ledger>(
    keys: &CountedKeys<K, L>,
    hints: &[u64],
    q: u64,
    steps: &mut Steps<L>,
) -> usize
    ensures place { q + 1 < 2 ^ 64 → IsPosition keys.now (q + 1) result }
    ensures end { 2 ^ 64 ≤ q + 1 → result ≡ length keys.now }
    ensures worst { ReadsWithin 8 (length keys.now) steps.old steps.new }
    ensures near { (off : ℕ) → IsNonDecreasing keys.now → LeadsWithin hints.now keys.now off →
        ReadsWithin 8 off steps.old steps.new }
{
    if q == u64::MAX {
        return keys.len();
    }
    position_counted(keys, hints, q + 1, steps)
}

/// The place of [`position`], its steps counted in a new ledger.
#[inline]
fn position_from<K: KeyList, L: Ledger>(keys: K, hints: &[u64], q: u64, blank: Blank) -> usize
    requires { IsNewLedger blank L.name L.parts }
    ensures { IsPosition (K.listed keys) q result }
{
    let mut steps = Steps::<L>::new(blank);
    position_counted(&CountedKeys::new(keys), hints, q, &mut steps)
}

/// The place of [`upper_bound`], its steps counted in a new ledger.
#[inline]
fn upper_bound_from<K: KeyList, L: Ledger>(keys: K, hints: &[u64], q: u64, blank: Blank) -> usize
    requires { IsNewLedger blank L.name L.parts }
    ensures place { q + 1 < 2 ^ 64 → IsPosition (K.listed keys) (q + 1) result }
    ensures end { 2 ^ 64 ≤ q + 1 → result ≡ length (K.listed keys) }
{
    let mut steps = Steps::<L>::new(blank);
    upper_bound_counted(&CountedKeys::new(keys), hints, q, &mut steps)
}
