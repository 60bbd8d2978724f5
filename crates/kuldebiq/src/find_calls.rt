// Lookups over keys that stay where they are.
//
// Nothing is asked of keys or hints. None takes memory, and only one that writes is ever refused.
ghost use Rattle.std.specs.Prelude.{◌≡◌, ◌+◌, ◌<◌, ◌≤◌, ℕ, length, slice_index};
ghost use Rattle.hints.specs.Lookups.{ArePositions, IsPosition};
ghost use Rattle.hints.specs.Told.{IsTold, IsWhole};
ghost use Rattle.kuldebiq.specs.Answers.{IsDone};
ghost use Rattle.kuldebiq.specs.Positions.{ArePastPositions, IsPast, WritesEach};

use crate::answer::{Answer, TOO_LITTLE_ROOM, given, refused};
use crate::narrow_keys::NarrowKeys;
use crate::past_many::write_past;
use hints::{position, positions, told, upper_bound, whole_lines};
use window_search::KeyList;

/// The place of a question in the caller's keys: where they never fall, how many of them are below
/// it, and in any keys a place with a key below the question before it and none at it.
///
/// The hints lead it there: it is searched from where they say. Nothing is asked of keys or hints,
/// and no handle is used. Cannot fail and takes no memory.
#[unsafe(no_mangle)]
pub extern "C" fn kuldebiq_find(keys: &[u64], hints: &[u64], question: u64) -> usize
    ensures { IsPosition keys.now question result }
{
    position(keys, hints, question)
}

/// The place of [`kuldebiq_find`] in keys of 32 bits.
#[unsafe(no_mangle)]
pub extern "C" fn kuldebiq_find32(keys: &[u32], hints: &[u64], question: u64) -> usize
    ensures { IsPosition keys.now question result }
{
    position(NarrowKeys { keys }, hints, question)
}

/// The place behind a question in the caller's keys, which is that of the number after it: where
/// they never fall, how many of them are at most the question, and in any keys a place with a key
/// that is at most the question before it and none at it. Of the greatest number it is the end.
///
/// Nothing is asked of keys or hints. Cannot fail and takes no memory.
#[unsafe(no_mangle)]
pub extern "C" fn kuldebiq_find_past(keys: &[u64], hints: &[u64], question: u64) -> usize
    ensures { IsPosition keys.now (question + 1) result }
{
    upper_bound(keys, hints, question)
}

/// The place of [`kuldebiq_find_past`] in keys of 32 bits.
#[unsafe(no_mangle)]
pub extern "C" fn kuldebiq_find_past32(keys: &[u32], hints: &[u64], question: u64) -> usize
    ensures { IsPosition keys.now (question + 1) result }
{
    upper_bound(NarrowKeys { keys }, hints, question)
}

/// Writes the place of each question at its place. The number is how many there are. What lies
/// behind them stays.
///
/// Where the keys never fall these are the places that [`kuldebiq_find`] gives. In any keys each
/// brackets its question, and where they fall it may be another one than that of
/// [`kuldebiq_find`]. It is faster than one call for each, and takes no memory. Nothing is asked of
/// keys or hints. A refusal is `TOO_LITTLE_ROOM`, and then nothing is written.
#[unsafe(no_mangle)]
pub extern "C" fn kuldebiq_find_many(
    keys: &[u64],
    hints: &[u64],
    questions: &[u64],
    places: &mut [usize],
) -> Answer
    ensures answer { WritesEach questions.now places.old places.new result }
    ensures places { IsDone result →
        ArePositions keys.now questions.now places.new (length questions.now) }
{
    find_many(keys, hints, questions, places)
}

/// The places of [`kuldebiq_find_many`] in keys of 32 bits.
#[unsafe(no_mangle)]
pub extern "C" fn kuldebiq_find_many32(
    keys: &[u32],
    hints: &[u64],
    questions: &[u64],
    places: &mut [usize],
) -> Answer
    ensures answer { WritesEach questions.now places.old places.new result }
    ensures places { IsDone result →
        ArePositions keys.now questions.now places.new (length questions.now) }
{
    find_many(NarrowKeys { keys }, hints, questions, places)
}

/// Writes the place behind each question at its place. The number is how many there are. What lies
/// behind them stays.
///
/// Where the keys never fall these are the places that [`kuldebiq_find_past`] gives, and in any
/// keys such places. It is faster than one call for each, and takes no memory. Nothing is asked of
/// keys or hints. A refusal is `TOO_LITTLE_ROOM`, and then nothing is written.
#[unsafe(no_mangle)]
pub extern "C" fn kuldebiq_find_past_many(
    keys: &[u64],
    hints: &[u64],
    questions: &[u64],
    places: &mut [usize],
) -> Answer
    ensures answer { WritesEach questions.now places.old places.new result }
    ensures places { IsDone result →
        ArePastPositions keys.now questions.now places.new (length questions.now) }
{
    find_past_many(keys, hints, questions, places)
}

/// The places of [`kuldebiq_find_past_many`] in keys of 32 bits.
#[unsafe(no_mangle)]
pub extern "C" fn kuldebiq_find_past_many32(
    keys: &[u32],
    hints: &[u64],
    questions: &[u64],
    places: &mut [usize],
) -> Answer
    ensures answer { WritesEach questions.now places.old places.new result }
    ensures places { IsDone result →
        ArePastPositions keys.now questions.now places.new (length questions.now) }
{
    find_past_many(NarrowKeys { keys }, hints, questions, places)
}

fn find_many<K: KeyList>(keys: K, hints: &[u64], questions: &[u64], places: &mut [usize]) -> Answer
    ensures answer { WritesEach questions.now places.old places.new result }
    ensures places { IsDone result →
        ArePositions (K.listed keys) questions.now places.new (length questions.now) }
{
    let count = questions.len();
    if places.len() < count {
        return refused(TOO_LITTLE_ROOM, count as u64);
    }
    positions(keys, hints, questions, places);
    given(count as u64)
}

fn find_past_many<K: KeyList>(
    keys: K,
    hints: &[u64],
    questions: &[u64],
    places: &mut [usize],
) -> Answer
    ensures answer { WritesEach questions.now places.old places.new result }
    ensures places { IsDone result → (k : ℕ) → k < length questions.now →
        IsPast (K.listed keys) (slice_index questions.now k) (slice_index places.new k) }
{
    let count = questions.len();
    if places.len() < count {
        return refused(TOO_LITTLE_ROOM, count as u64);
    }
    write_past(keys, hints, questions, places);
    given(count as u64)
}

/// Where the hints say that the place of a question is among so many keys: where to look first, for
/// keys that lie in pages that no call can read. Hints in no format tell 0.
///
/// Nothing is asked of hints. Cannot fail and takes no memory.
#[unsafe(no_mangle)]
pub extern "C" fn kuldebiq_told(hints: &[u64], count: usize, question: u64) -> usize
    ensures place { IsTold hints.now count question result }
    ensures within { result ≤ count }
{
    told(hints, count, question)
}

/// What hints say of themselves.
#[repr(C)]
#[derive(Clone, Copy)]
pub struct HintsFacts {
    /// 1 where they are in the format, and else 0, as the rest is then.
    pub known: u64,
    /// The error bound that they were made with.
    pub epsilon: u64,
    /// How many lines they have.
    pub lines: u64,
}

/// Writes what hints say of themselves, which need not be true of any keys.
///
/// Nothing is asked of hints. Cannot fail and takes no memory.
#[unsafe(no_mangle)]
pub extern "C" fn kuldebiq_hints_of(hints: &[u64], facts: &mut HintsFacts)
    ensures known { IsWhole hints.now → facts.new ≡ record {
      known = 1;
      epsilon = slice_index hints.now 1;
      lines = slice_index hints.now 2;
    } }
    ensures unknown { (IsWhole hints.now → ⊥) →
        facts.new ≡ record { known = 0; epsilon = 0; lines = 0 } }
{
    *facts = match whole_lines(hints) {
        Some(_) => HintsFacts {
            known: 1,
            epsilon: hints[1],
            lines: hints[2],
        },
        None => HintsFacts {
            known: 0,
            epsilon: 0,
            lines: 0,
        },
    };
}
