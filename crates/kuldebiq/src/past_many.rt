// The places behind many questions.
ghost use Rattle.std.specs.Prelude.{◌≡◌, ◌+◌, ◌-◌, ◌<◌, ◌≤◌, ◌^◌, ℕ, length, slice_index};
ghost use Rattle.hints.specs.Lookups.{IsPosition, IsSameOutside};
ghost use Rattle.kuldebiq.specs.Positions.{IsPast};

use hints::positions;
use window_search::KeyList;

/// So many questions are asked at once, so that their reads of memory overlap.
const AT_ONCE: usize = 64;

/// Writes the place behind each question at its place. What lies behind them stays.
pub(crate) fn write_past<K: KeyList>(
    keys: K,
    hints: &[u64],
    questions: &[u64],
    places: &mut [usize],
)
    requires { length questions.now ≤ length places.old }
    ensures past { (k : ℕ) → k < length questions.now →
        IsPast (K.listed keys) (slice_index questions.now k) (slice_index places.new k) }
    ensures rest { IsSameOutside 0 (length questions.now) places.old places.new }
{
    let mut first = 0;
    while first < questions.len() {
        let end = first + AT_ONCE.min(questions.len() - first);
        write_block(keys, hints, questions, places, first, end);
        first = end;
    }
}

/// Writes the places behind the questions `first..end`, few enough to be asked at once.
fn write_block<K: KeyList>(
    keys: K,
    hints: &[u64],
    questions: &[u64],
    places: &mut [usize],
    first: usize,
    end: usize,
)
    requires order { first ≤ end }
    requires few { end ≤ first + AT_ONCE }
    requires asked { end ≤ length questions.now }
    requires room { end ≤ length places.old }
    ensures same { IsSameOutside first end places.old places.new }
    ensures past { (k : ℕ) → first ≤ k → k < end →
        IsPast (K.listed keys) (slice_index questions.now k) (slice_index places.new k) }
{
    let next = next_numbers(questions, first, end);
    let mut found = [0; AT_ONCE];
    positions(keys, hints, &next[..end - first], &mut found);
    for lane in first..end {
        places[lane] = place_behind(keys, questions[lane], found[lane - first]);
    }
}

/// The place behind a question: what was found for the number after it, and the end where there is
/// none.
fn place_behind<K: KeyList>(keys: K, question: u64, found: usize) -> usize
    requires { question + 1 < 2 ^ 64 → IsPosition (K.listed keys) (question + 1) found }
    ensures { IsPast (K.listed keys) question result }
{
    if question == u64::MAX {
        return keys.len();
    }
    found
}

/// The numbers after the questions `first..end`, and the greatest number where there is none.
fn next_numbers(questions: &[u64], first: usize, end: usize) -> [u64; AT_ONCE]
    requires order { first ≤ end }
    requires few { end ≤ first + AT_ONCE }
    requires asked { end ≤ length questions.now }
    ensures { (k : ℕ) → first ≤ k → k < end → slice_index questions.now k + 1 < 2 ^ 64 →
        slice_index result (k - first) ≡ slice_index questions.now k + 1 }
{
    let mut next = [0; AT_ONCE];
    for lane in first..end {
        next[lane - first] = questions[lane].saturating_add(1);
    }
    next
}
