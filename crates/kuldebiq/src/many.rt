// The position behind a key, and the positions of many questions, at the place of each.
ghost use Rattle.std.specs.Prelude.{◌≡◌, ◌⊎◌, ◌+◌, ◌^◌, ◌<◌, ◌≤◌};
ghost use Rattle.std.specs.Prelude.{ℕ, length, map, slice_index, vec_capacity};
ghost use Rattle.window_search.specs.Searches.{lb};
ghost use Rattle.kuldebiq.specs.Positions.{at_most};

use levels::Index;
use std::alloc::Global;

/// How many questions are asked at a time.
const AT_ONCE: usize = 4096;

/// How many keys are at most the question.
pub(crate) fn position_after(index: &Index, question: u64) -> u32
    ensures { result ≡ at_most index.now.keys question }
{
    match question.checked_add(1) {
        Some(next) => index.position(next),
        None => count_of(index.keys().as_slice()),
    }
}

/// How many keys are at most the greatest number: all of them.
fn count_of(keys: &[u64]) -> u32
    requires { length keys.now < 2 ^ 32 }
    ensures { result ≡ at_most keys.now 18446744073709551615 }
{
    keys.len() as u32
}

/// Writes the position of each question at its place. Takes memory for 4096 positions, and where it
/// isn't found asks one question after the other.
pub(crate) fn write_positions(
    alloc: Global,
    index: &Index,
    questions: &[u64],
    positions: &mut [u32],
)
    requires { length positions.old ≡ length questions.now }
    ensures { positions.new ≡ map (lb index.now.keys) questions.now }
{
    match Vec::with_capacity(alloc, questions.len().min(AT_ONCE)) {
        Ok(mut found) => in_blocks(index, questions, positions, &mut found),
        Err(_) => one_by_one(index, questions, positions),
    }
}

fn in_blocks(index: &Index, questions: &[u64], positions: &mut [u32], found: &mut Vec<u32>)
    requires same { length positions.old ≡ length questions.now }
    requires room { length questions.now ≤ vec_capacity found.old ⊎ 4096 ≤ vec_capacity found.old }
    ensures { positions.new ≡ map (lb index.now.keys) questions.now }
{
    let mut from = 0;
    while from < questions.len() {
        let size = AT_ONCE.min(questions.len() - from);
        found.clear();
        index.positions(&questions[from..from + size], found);
        copy_at(found, positions, from);
        from += size;
    }
}

/// Copies numbers to a place.
fn copy_at(found: &[u32], positions: &mut [u32], from: usize)
    requires { from + length found.now ≤ length positions.old }
    ensures length { length positions.new ≡ length positions.old }
    ensures before { (j : ℕ) → j < from →
        slice_index positions.new j ≡ slice_index positions.old j }
    ensures copied { (j : ℕ) → j < length found.now →
        slice_index positions.new (from + j) ≡ slice_index found.now j }
{
    positions[from..from + found.len()].copy_from_slice(found);
}

fn one_by_one(index: &Index, questions: &[u64], positions: &mut [u32])
    requires { length positions.old ≡ length questions.now }
    ensures { positions.new ≡ map (lb index.now.keys) questions.now }
{
    for i in 0..questions.len() {
        positions[i] = index.position(questions[i]);
    }
}
