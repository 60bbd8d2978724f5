// The places of many questions.
ghost use Rattle.std.specs.Prelude.{◌≡◌, ◌⊎◌, ◌+◌, ◌-◌, ◌*◌, ◌/◌, ◌≤◌, ◌<◌, ℕ, length, min};
ghost use Rattle.std.specs.Prelude.{slice_index};
ghost use Rattle.std.specs.List.Sorted.{IsNonDecreasing};
ghost use Rattle.budget.specs.Ledgers.{IsNewLedger};
ghost use Rattle.hints.specs.Lookups.{ArePositions, IsPosition, IsSameOutside, LeadsWithin};
ghost use Rattle.hints.specs.Lookups.{TakesEach, ReadsEachWithin};
ghost use Rattle.hints.specs.Many.{AreTold, AreNear, AreSetOut, HaveRoom, HoldsBound, HoldBounds};

use crate::hint_list::told;
use budget::Steps;
use std::marker::Brand;
use std::sync::ledger::{Blank, Ledger};
use window_search::{CountedKeys, KeyList, bracket_of, is_bracket};

/// So many questions are asked at once, so that their reads of memory overlap.
const LANES: usize = 16;

/// The places of many questions, each as by [`position`](crate::position), written into the
/// caller's room: as many as there are questions and room. Room beyond that stays as it is. Where
/// keys fall, a place brackets its question as that of `position` does, and may be another one.
///
/// It takes the steps of [`positions_counted`], and counts nothing. Cannot fail and takes no
/// memory.
pub fn positions<K: KeyList>(keys: K, hints: &[u64], questions: &[u64], places: &mut [usize])
    ensures places { ArePositions (K.listed keys) questions.now places.new
        (min (length questions.now) (length places.old)) }
    ensures rest { IsSameOutside 0 (length questions.now) places.old places.new }
{
    positions_from::<K, Brand>(keys, hints, questions, places, Blank::new(1));
}

/// The places of [`positions`], with the steps counted.
///
/// Sixteen questions are told where to look first. Of each the places that right hints leave open
/// are halved in step, with no branch on an answer, so that reads of memory for one don't wait for
/// those of another. Where a place isn't among them, all keys are halved. One step is one key read,
/// and of each question at most t are taken, with `2^t <= 16 * (n + 1)^2` in `n` keys, and where
/// the hints lead to within their own ε + 2, `2^t <= 16 * (ε + 3)^2`. Cannot fail and takes no
/// memory.
pub fn positions_counted<K: KeyList, L: Ledger>(
    keys: &CountedKeys<K, L>,
    hints: &[u64],
    questions: &[u64],
    places: &mut [usize],
    steps: &mut Steps<L>,
)
    ensures places { ArePositions keys.now questions.now places.new
        (min (length questions.now) (length places.old)) }
    ensures rest { IsSameOutside 0 (length questions.now) places.old places.new }
    ensures worst { ReadsEachWithin 16 (length keys.now) (length questions.now) steps.old
        steps.new }
    ensures near { IsNonDecreasing keys.now →
        LeadsWithin hints.now keys.now (slice_index hints.now 1 + 2) →
        ReadsEachWithin 16 (slice_index hints.now 1 + 2) (length questions.now) steps.old
        steps.new }
{
    let width = width_of(hints, keys.len());
    let count = questions.len().min(places.len());
    let mut first = 0;
    while first < count {
        let end = first + LANES.min(count - first);
        tell(hints, keys.len(), questions, places, first, end);
        approach(keys, width, questions, places, first, end, steps);
        search(keys, questions, places, first, end, steps);
        first = end;
    }
}

/// How many places the hints leave open for a question: as many before the place told as behind
/// it, and one where those are more than there are keys.
#[inline(always)]
fn width_of(hints: &[u64], n: usize) -> usize
    ensures some { 1 ≤ result }
    ensures within { result ≤ n + 1 }
    ensures open { (result ≡ 2 * slice_index hints.now 1 + 5) ⊎
        ((result ≡ 1) × (n < 2 * slice_index hints.now 1 + 5)) }
{
    let eps = if hints.len() > 1 { hints[1] } else { 0 };
    if n < 5 || eps > (n as u64 - 5) / 2 {
        return 1;
    }
    2 * eps as usize + 5
}

/// Writes where the hints say that the places of the questions `first..end` are.
#[inline(always)]
fn tell(hints: &[u64], n: usize, questions: &[u64], places: &mut [usize], first: usize, end: usize)
    requires order { first ≤ end }
    requires asked { end ≤ length questions.now }
    requires room { end ≤ length places.old }
    ensures same { IsSameOutside first end places.old places.new }
    ensures told { AreTold hints.now n questions.now places.new first end }
{
    for lane in first..end {
        places[lane] = told(hints, n, questions[lane]);
    }
}

/// Goes nearer to the places of the questions `first..end`, each from where its room says: by
/// halving so many places about that, in step, with no branch on an answer.
#[inline(always)]
fn approach<K: KeyList, L: Ledger>(
    keys: &CountedKeys<K, L>,
    width: usize,
    questions: &[u64],
    places: &mut [usize],
    first: usize,
    end: usize,
    steps: &mut Steps<L>,
)
    requires order { first ≤ end }
    requires asked { end ≤ length questions.now }
    requires room { end ≤ length places.old }
    requires some { 1 ≤ width }
    requires within { width ≤ length keys.now + 1 }
    ensures same { IsSameOutside first end places.old places.new }
    ensures near { IsNonDecreasing keys.now →
        AreNear keys.now questions.now places.old first end width →
        HoldBounds keys.now questions.now places.new first end 1 }
    ensures cost { TakesEach (2 * width) (end - first) steps.old steps.new }
{
    set_out(places, first, end, width / 2, keys.len() - (width - 1));
    let mut left = width;
    while left > 1 {
        halve(keys, questions, places, first, end, left, steps);
        left -= left / 2;
    }
}

/// Goes so many places back from those in the room `first..end`, and to none above `last`.
#[inline(always)]
fn set_out(places: &mut [usize], first: usize, end: usize, back: usize, last: usize)
    requires order { first ≤ end }
    requires room { end ≤ length places.old }
    ensures same { IsSameOutside first end places.old places.new }
    ensures back { AreSetOut places.old places.new first end back last }
{
    for lane in first..end {
        places[lane] = places[lane].saturating_sub(back).min(last);
    }
}

/// One step of halving for each of the questions `first..end`, of which so many places are left.
#[inline(always)]
fn halve<K: KeyList, L: Ledger>(
    keys: &CountedKeys<K, L>,
    questions: &[u64],
    places: &mut [usize],
    first: usize,
    end: usize,
    left: usize,
    steps: &mut Steps<L>,
)
    requires order { first ≤ end }
    requires asked { end ≤ length questions.now }
    requires room { end ≤ length places.old }
    requires more { 1 < left }
    requires open { HaveRoom keys.now places.old first end left }
    ensures same { IsSameOutside first end places.old places.new }
    ensures open { HaveRoom keys.now places.new first end (left - left / 2) }
    ensures near { IsNonDecreasing keys.now →
        HoldBounds keys.now questions.now places.old first end left →
        HoldBounds keys.now questions.now places.new first end (left - left / 2) }
    ensures cost { steps.new ≡ steps.old + (end - first) }
{
    for lane in first..end {
        places[lane] = halved(keys, places[lane], left, questions[lane], steps);
    }
}

/// A place, or the one half of those left behind it, where the key before that is below `q`.
///
/// The answer of the comparison is multiplied: of a selection the compiler may make a branch, which
/// is mispredicted half of the time, and then the searches of many questions wait for one another.
#[inline(always)]
fn halved<K: KeyList, L: Ledger>(
    keys: &CountedKeys<K, L>,
    place: usize,
    left: usize,
    q: u64,
    steps: &mut Steps<L>,
) -> usize
    requires more { 1 < left }
    requires open { place + left ≤ length keys.now + 1 }
    ensures open { result + (left - left / 2) ≤ length keys.now + 1 }
    ensures near { IsNonDecreasing keys.now → HoldsBound keys.now q place left →
        HoldsBound keys.now q result (left - left / 2) }
    ensures cost { steps.new ≡ steps.old + 1 }
{
    let _len = keys.len();
    let half = left / 2;
    let is_below = keys.read(place + (half - 1), steps) < q;
    place + half * usize::from(is_below)
}

/// Searches the places of the questions `first..end`, each of which its room may say.
#[inline(always)]
fn search<K: KeyList, L: Ledger>(
    keys: &CountedKeys<K, L>,
    questions: &[u64],
    places: &mut [usize],
    first: usize,
    end: usize,
    steps: &mut Steps<L>,
)
    requires order { first ≤ end }
    requires asked { end ≤ length questions.now }
    requires room { end ≤ length places.old }
    ensures same { IsSameOutside first end places.old places.new }
    ensures places { (k : ℕ) → first ≤ k → k < end → IsPosition keys.now
        (slice_index questions.now k) (slice_index places.new k) }
    ensures worst { TakesEach (8 * (length keys.now + 1)) (end - first) steps.old steps.new }
    ensures near { IsNonDecreasing keys.now →
        HoldBounds keys.now questions.now places.old first end 1 →
        TakesEach 4 (end - first) steps.old steps.new }
{
    for lane in first..end {
        places[lane] = position_at(keys, places[lane], questions[lane], steps);
    }
}

/// The place of `q`: the one that is said, or else by halving all keys.
#[inline(always)]
fn position_at<K: KeyList, L: Ledger>(
    keys: &CountedKeys<K, L>,
    from: usize,
    q: u64,
    steps: &mut Steps<L>,
) -> usize
    ensures place { IsPosition keys.now q result }
    ensures worst { TakesEach (8 * (length keys.now + 1)) 1 steps.old steps.new }
    ensures near { IsNonDecreasing keys.now → HoldsBound keys.now q from 1 →
        TakesEach 4 1 steps.old steps.new }
{
    if is_bracket(keys, from, q, steps) {
        return from;
    }
    bracket_of(keys, q, steps)
}

/// The places of [`positions`], their steps counted in a new ledger.
#[inline(always)]
fn positions_from<K: KeyList, L: Ledger>(
    keys: K,
    hints: &[u64],
    questions: &[u64],
    places: &mut [usize],
    blank: Blank,
)
    requires { IsNewLedger blank L.name L.parts }
    ensures places { ArePositions (K.listed keys) questions.now places.new
        (min (length questions.now) (length places.old)) }
    ensures rest { IsSameOutside 0 (length questions.now) places.old places.new }
{
    let mut steps = Steps::<L>::new(blank);
    positions_counted(
        &CountedKeys::new(keys),
        hints,
        questions,
        places,
        &mut steps,
    );
}
