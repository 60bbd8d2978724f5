// The calls that make hints.
ghost use Rattle.std.specs.Prelude.{◌≡◌, ◌≢◌, ◌⊎◌, ◌<◌, ◌≤◌, ◌++◌, ℕ, List, length, drop};
ghost use Rattle.std.specs.Option.{MatchOption};
ghost use Rattle.std.specs.declared.option.Option.TheVariants.{None, Some};
ghost use Rattle.kuldebiq.specs.Answers.{gives, refuses, IsDone};
ghost use Rattle.kuldebiq.specs.Hints.{CanHaveHints, HoldsHintsOf, IsHintsRefusal};

use crate::answer::{Answer, NO_MEMORY, NOTHING_HELD, TOO_LITTLE_ROOM, given, refused};
use crate::hints_handle::HintsHandle;
use crate::making::{boxed_hints, boxed_hints_of_narrow};
use std::alloc::Global;

/// Makes the hints of sorted keys, which are judged and not copied, and has the handle hold them.
/// The number is how many hints there are.
///
/// `epsilon` is the error bound, in positions: with a greater one there are fewer lines, and what
/// the hints tell is further off. What the handle held is let go. A refusal is `EPSILON_TOO_GREAT`,
/// `TOO_MANY_KEYS`, `UNSORTED` or `NO_MEMORY`, judged in this order, and then the handle holds what
/// it held.
#[unsafe(no_mangle)]
pub extern "C" fn kuldebiq_hints_build(
    alloc: Global,
    handle: &mut HintsHandle,
    keys: &[u64],
    epsilon: u32,
) -> Answer
    ensures done { IsDone result → HoldsHintsOf keys.now epsilon handle.new.hints }
    ensures judged { IsDone result → CanHaveHints keys.now epsilon }
    ensures number { (hints : List ℕ) → handle.new.hints ≡ Some hints → IsDone result →
        result.number ≡ length hints }
    ensures refused { result.status ≢ 0 → IsHintsRefusal keys.now epsilon result ⊎
        (CanHaveHints keys.now epsilon × (result ≡ refuses NO_MEMORY 0)) }
    ensures unchanged { result.status ≢ 0 → handle.new.hints ≡ handle.old.hints }
{
    match boxed_hints(alloc, keys, epsilon) {
        Ok(kept) => {
            let count = kept.hints().len();
            handle.put(kept);
            given(count as u64)
        }
        Err(refusal) => refusal,
    }
}

/// Makes the hints of sorted keys of 32 bits, and has the handle hold them, as
/// [`kuldebiq_hints_build`] does. The keys are judged, and then copied while the hints are made.
#[unsafe(no_mangle)]
pub extern "C" fn kuldebiq_hints_build32(
    alloc: Global,
    handle: &mut HintsHandle,
    keys: &[u32],
    epsilon: u32,
) -> Answer
    ensures done { IsDone result → HoldsHintsOf keys.now epsilon handle.new.hints }
    ensures judged { IsDone result → CanHaveHints keys.now epsilon }
    ensures number { (hints : List ℕ) → handle.new.hints ≡ Some hints → IsDone result →
        result.number ≡ length hints }
    ensures refused { result.status ≢ 0 → IsHintsRefusal keys.now epsilon result ⊎
        (CanHaveHints keys.now epsilon × (result ≡ refuses NO_MEMORY 0)) }
    ensures unchanged { result.status ≢ 0 → handle.new.hints ≡ handle.old.hints }
{
    match boxed_hints_of_narrow(alloc, keys, epsilon) {
        Ok(kept) => {
            let count = kept.hints().len();
            handle.put(kept);
            given(count as u64)
        }
        Err(refusal) => refusal,
    }
}

/// Lets go of the hints. The handle holds nothing then, and may be let go again.
#[unsafe(no_mangle)]
pub extern "C" fn kuldebiq_hints_free(alloc: Global, handle: &mut HintsHandle)
    ensures { handle.new.hints ≡ None }
{
    drop(handle.take(alloc));
}

/// How many hints the handle holds.
///
/// A refusal is `NOTHING_HELD`.
#[unsafe(no_mangle)]
pub extern "C" fn kuldebiq_hints_count(alloc: Global, handle: &mut HintsHandle) -> Answer
    ensures answer { MatchOption handle.old.hints (result ≡ refuses NOTHING_HELD 0)
        (λ hints. result ≡ gives (length hints)) }
    ensures unchanged { handle.new.hints ≡ handle.old.hints }
{
    match handle.take(alloc) {
        Some(kept) => {
            let count = kept.hints().len();
            handle.put(kept);
            given(count as u64)
        }
        None => refused(NOTHING_HELD, 0),
    }
}

/// Writes the hints. The number is how many they are. What lies behind them stays.
///
/// A refusal is `NOTHING_HELD` or `TOO_LITTLE_ROOM`, judged in this order, and then nothing is
/// written.
#[unsafe(no_mangle)]
pub extern "C" fn kuldebiq_hints_write(
    alloc: Global,
    handle: &mut HintsHandle,
    room: &mut [u64],
) -> Answer
    ensures none { handle.old.hints ≡ None → result ≡ refuses NOTHING_HELD 0 }
    ensures room { (hints : List ℕ) → handle.old.hints ≡ Some hints →
        length room.old < length hints → result ≡ refuses TOO_LITTLE_ROOM (length hints) }
    ensures done { (hints : List ℕ) → handle.old.hints ≡ Some hints →
        length hints ≤ length room.old → (result ≡ gives (length hints)) ×
        (room.new ≡ hints ++ drop (length hints) room.old) }
    ensures refused { result.status ≢ 0 → room.new ≡ room.old }
    ensures unchanged { handle.new.hints ≡ handle.old.hints }
{
    match handle.take(alloc) {
        Some(kept) => {
            let answer = write_hints(kept.hints(), room);
            handle.put(kept);
            answer
        }
        None => refused(NOTHING_HELD, 0),
    }
}

/// Writes hints at the front of the room.
fn write_hints(from: &[u64], room: &mut [u64]) -> Answer
    ensures room { length room.old < length from.now →
        result ≡ refuses TOO_LITTLE_ROOM (length from.now) }
    ensures done { length from.now ≤ length room.old → (result ≡ gives (length from.now)) ×
        (room.new ≡ from.now ++ drop (length from.now) room.old) }
    ensures refused { result.status ≢ 0 → room.new ≡ room.old }
{
    let count = from.len();
    if room.len() < count {
        return refused(TOO_LITTLE_ROOM, count as u64);
    }
    room[..count].copy_from_slice(from);
    given(count as u64)
}
