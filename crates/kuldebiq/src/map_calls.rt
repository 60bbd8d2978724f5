// The calls over a map.
ghost use Rattle.std.specs.Prelude.{◌≡◌, ◌≢◌, ◌⊎◌, ◌+◌, ◌<◌, ◌≤◌, ◌∷◌};
ghost use Rattle.std.specs.Prelude.{◌++◌, [], ⊤, List, length, map, All};
ghost use Rattle.std.specs.Option.{MatchOption};
ghost use Rattle.std.specs.declared.option.Option.TheVariants.{None, Some};
ghost use Rattle.log_levels.specs.declared.update.Update.{Update};
ghost use Rattle.log_levels.specs.declared.update.Update.TheVariants.{Put, Del, Sweep};
ghost use Rattle.log_levels.specs.Accepted.{entries_of};
ghost use Rattle.log_levels.specs.Maps.{map_after, value_at, next_from, count_between};
ghost use Rattle.log_levels.specs.Shapes.{Held, StandsFor, capacity_of};
ghost use Rattle.options.specs.declared.map.TheConstants.{MAX_LEVELS};
ghost use Rattle.kuldebiq.specs.Answers.{gives, refuses, found, IsDone};
ghost use Rattle.kuldebiq.specs.Changes.{HoldsEmpty, HasAdded, one_if_some};
ghost use Rattle.kuldebiq.specs.Loading.{IsLevelCount};
ghost use Rattle.kuldebiq.specs.Pairs.{IsFound};
ghost use Rattle.kuldebiq.specs.Updates.{IsUpdate, update_of, RefusesUpdates};

use crate::answer::{
    ABSENT, Answer, FULL, LEVELS_OUT_OF_RANGE, NO_MEMORY, NOTHING_HELD, fault_as, found_or_absent,
    given, refused,
};
use crate::map_handle::MapHandle;
use crate::updates::{UpdateParts, apply};
use log_levels::LogMap;
use options::MAX_LEVELS;
use std::alloc::Global;

/// A key with its value.
#[repr(C)]
#[derive(Clone, Copy)]
pub struct Pair {
    /// The key.
    pub key: u64,
    /// Its value.
    pub value: u64,
}

/// Makes the empty map with so many levels, 1 to 26, and has the handle hold it. The number is how
/// many entries it can accept, `64 * 2^levels - 1`.
///
/// What the handle held is let go. A refusal is `LEVELS_OUT_OF_RANGE` or `NO_MEMORY`, and then the
/// handle holds what it held.
#[unsafe(no_mangle)]
pub extern "C" fn kuldebiq_map_new(alloc: Global, handle: &mut MapHandle, levels: u32) -> Answer
    ensures done { IsDone result → HoldsEmpty levels handle.new.map }
    ensures number { (map : Held) → handle.new.map ≡ Some map → IsDone result →
        result.number ≡ capacity_of map }
    ensures outside { (levels ≡ 0) ⊎ (MAX_LEVELS < levels) →
        result ≡ refuses LEVELS_OUT_OF_RANGE levels }
    ensures inside { 1 ≤ levels → levels ≤ MAX_LEVELS →
        IsDone result ⊎ (result ≡ refuses NO_MEMORY 0) }
    ensures unchanged { result.status ≢ 0 → handle.new.map ≡ handle.old.map }
{
    if levels == 0 || levels > MAX_LEVELS {
        return refused(LEVELS_OUT_OF_RANGE, u64::from(levels));
    }
    match boxed_map(alloc, levels) {
        Some(map) => {
            let capacity = map.capacity();
            handle.put(map);
            given(capacity)
        }
        None => refused(NO_MEMORY, 0),
    }
}

/// An empty map in a box, where memory is found.
fn boxed_map(alloc: Global, levels: u32) -> Option<Box<LogMap>>
    requires { IsLevelCount levels }
    ensures { MatchOption result ⊤
        (λ map. StandsFor map.value [] × (length map.value.levels ≡ levels)) }
{
    match LogMap::new(alloc, levels) {
        Ok(map) => match Box::new(alloc, map) {
            Ok(map) => Some(map),
            Err(_) => None,
        },
        Err(_) => None,
    }
}

/// Lets go of the map. The handle holds nothing then, and may be let go again.
#[unsafe(no_mangle)]
pub extern "C" fn kuldebiq_map_free(alloc: Global, handle: &mut MapHandle)
    ensures { handle.new.map ≡ None }
{
    drop(handle.take(alloc));
}

/// Puts a value at a key. It is an entry, whatever was at the key. The number is 0.
///
/// A refusal is `NOTHING_HELD`, `FULL` or `NO_MEMORY`, judged in this order, and then the map is as
/// it was.
#[unsafe(no_mangle)]
pub extern "C" fn kuldebiq_map_put(
    alloc: Global,
    handle: &mut MapHandle,
    key: u64,
    value: u64,
) -> Answer
    ensures done { IsDone result → HasAdded (Put key value ∷ []) handle.old.map handle.new.map }
    ensures none { handle.old.map ≡ None → result ≡ refuses NOTHING_HELD 0 }
    ensures full { (map : Held) → handle.old.map ≡ Some map →
        capacity_of map < map.accepted + 1 → result ≡ refuses FULL map.accepted }
    ensures room { (map : Held) → handle.old.map ≡ Some map →
        map.accepted + 1 ≤ capacity_of map → (result ≡ gives 0) ⊎ (result ≡ refuses NO_MEMORY 0) }
    ensures unchanged { result.status ≢ 0 → handle.new.map ≡ handle.old.map }
{
    match handle.take(alloc) {
        Some(map) => {
            let mut map = map;
            let answer = match map.put(alloc, key, value) {
                Ok(()) => given(0),
                Err(fault) => fault_as(fault),
            };
            handle.put(map);
            answer
        }
        None => refused(NOTHING_HELD, 0),
    }
}

/// Takes a key out of the map. It is an entry, whether or not the key was there. The number is 1
/// where it was, and else 0.
///
/// A refusal is `NOTHING_HELD`, `FULL` or `NO_MEMORY`, judged in this order, and then the map is as
/// it was.
#[unsafe(no_mangle)]
pub extern "C" fn kuldebiq_map_del(alloc: Global, handle: &mut MapHandle, key: u64) -> Answer
    ensures done { IsDone result → HasAdded (Del key ∷ []) handle.old.map handle.new.map }
    ensures number { (map : Held) (updates : List Update) → handle.old.map ≡ Some map →
        StandsFor map updates → IsDone result →
        result ≡ gives (one_if_some (value_at (map_after updates) key)) }
    ensures none { handle.old.map ≡ None → result ≡ refuses NOTHING_HELD 0 }
    ensures full { (map : Held) → handle.old.map ≡ Some map →
        capacity_of map < map.accepted + 1 → result ≡ refuses FULL map.accepted }
    ensures room { (map : Held) → handle.old.map ≡ Some map →
        map.accepted + 1 ≤ capacity_of map → IsDone result ⊎ (result ≡ refuses NO_MEMORY 0) }
    ensures unchanged { result.status ≢ 0 → handle.new.map ≡ handle.old.map }
{
    match handle.take(alloc) {
        Some(map) => {
            let mut map = map;
            let was_there = map.get(key).is_some();
            let answer = match map.del(alloc, key) {
                Ok(()) => given(u64::from(was_there)),
                Err(fault) => fault_as(fault),
            };
            handle.put(map);
            answer
        }
        None => refused(NOTHING_HELD, 0),
    }
}

/// Takes the keys from `low` to `high`, both included, out of the map. The number is how many they
/// were; none where `low` is above `high`. Each is an entry.
///
/// A refusal is `NOTHING_HELD`, `FULL` or `NO_MEMORY`, judged in this order, and then the map is as
/// it was.
#[unsafe(no_mangle)]
pub extern "C" fn kuldebiq_map_sweep(
    alloc: Global,
    handle: &mut MapHandle,
    low: u64,
    high: u64,
) -> Answer
    ensures done { IsDone result → HasAdded (Sweep low high ∷ []) handle.old.map handle.new.map }
    ensures number { (map : Held) (updates : List Update) → handle.old.map ≡ Some map →
        StandsFor map updates → IsDone result →
        result.number ≡ count_between (map_after updates) low high }
    ensures none { handle.old.map ≡ None → result ≡ refuses NOTHING_HELD 0 }
    ensures full { (map : Held) (updates : List Update) → handle.old.map ≡ Some map →
        StandsFor map updates →
        capacity_of map < length (entries_of (updates ++ Sweep low high ∷ [])) →
        result ≡ refuses FULL map.accepted }
    ensures room { (map : Held) (updates : List Update) → handle.old.map ≡ Some map →
        StandsFor map updates →
        length (entries_of (updates ++ Sweep low high ∷ [])) ≤ capacity_of map →
        IsDone result ⊎ (result ≡ refuses NO_MEMORY 0) }
    ensures unchanged { result.status ≢ 0 → handle.new.map ≡ handle.old.map }
{
    match handle.take(alloc) {
        Some(map) => {
            let mut map = map;
            let answer = match map.sweep(alloc, low, high) {
                Ok(count) => given(count),
                Err(fault) => fault_as(fault),
            };
            handle.put(map);
            answer
        }
        None => refused(NOTHING_HELD, 0),
    }
}

/// Has the map take updates in order, all or none. The number is how many there are.
///
/// A refusal is `NOTHING_HELD`, `NO_SUCH_KIND`, `FULL` or `NO_MEMORY`, the first two judged in this
/// order, and then the map is as it was.
#[unsafe(no_mangle)]
pub extern "C" fn kuldebiq_map_apply(
    alloc: Global,
    handle: &mut MapHandle,
    updates: &[UpdateParts],
) -> Answer
    ensures done { IsDone result →
        HasAdded (map update_of updates.now) handle.old.map handle.new.map }
    ensures judged { IsDone result → All IsUpdate updates.now }
    ensures number { IsDone result → result ≡ gives (length updates.now) }
    ensures none { handle.old.map ≡ None → result ≡ refuses NOTHING_HELD 0 }
    ensures full { (held : Held) (before : List Update) → handle.old.map ≡ Some held →
        All IsUpdate updates.now → StandsFor held before →
        capacity_of held < length (entries_of (before ++ map update_of updates.now)) →
        (result ≡ refuses FULL held.accepted) ⊎ (result ≡ refuses NO_MEMORY 0) }
    ensures refused { (held : Held) → handle.old.map ≡ Some held → result.status ≢ 0 →
        RefusesUpdates held updates.now result }
    ensures unchanged { result.status ≢ 0 → handle.new.map ≡ handle.old.map }
{
    match handle.take(alloc) {
        Some(held) => {
            let mut held = held;
            let answer = apply(alloc, &mut held, updates);
            handle.put(held);
            answer
        }
        None => refused(NOTHING_HELD, 0),
    }
}

/// The value at a key.
///
/// A refusal is `NOTHING_HELD`, or `ABSENT` where the map doesn't have the key.
#[unsafe(no_mangle)]
pub extern "C" fn kuldebiq_map_get(alloc: Global, handle: &mut MapHandle, key: u64) -> Answer
    ensures answer { MatchOption handle.old.map (result ≡ refuses NOTHING_HELD 0)
        (λ map. (updates : List Update) → StandsFor map updates →
        result ≡ found (value_at (map_after updates) key)) }
    ensures unchanged { handle.new.map ≡ handle.old.map }
{
    match handle.take(alloc) {
        Some(map) => {
            let value = map.get(key);
            handle.put(map);
            found_or_absent(value)
        }
        None => refused(NOTHING_HELD, 0),
    }
}

/// Writes the least key from `from` on that the map has, with its value. The number is 0.
///
/// A refusal is `NOTHING_HELD`, or `ABSENT` where there is no such key. Then nothing is written.
#[unsafe(no_mangle)]
pub extern "C" fn kuldebiq_map_next(
    alloc: Global,
    handle: &mut MapHandle,
    from: u64,
    pair: &mut Pair,
) -> Answer
    ensures answer { MatchOption handle.old.map (result ≡ refuses NOTHING_HELD 0)
        (λ map. (updates : List Update) → StandsFor map updates →
        IsFound (next_from (map_after updates) from) pair.new result) }
    ensures refused { result.status ≢ 0 → pair.new ≡ pair.old }
    ensures unchanged { handle.new.map ≡ handle.old.map }
{
    match handle.take(alloc) {
        Some(map) => {
            let next = map.next(from);
            handle.put(map);
            write_found(next, pair)
        }
        None => refused(NOTHING_HELD, 0),
    }
}

/// Writes the pair that was found, if there is one.
pub(crate) fn write_found(found: Option<(u64, u64)>, pair: &mut Pair) -> Answer
    ensures found { IsFound found pair.new result }
    ensures refused { result.status ≢ 0 → pair.new ≡ pair.old }
{
    match found {
        Some((key, value)) => {
            *pair = Pair { key, value };
            given(0)
        }
        None => refused(ABSENT, 0),
    }
}

/// How many keys from `low` to `high` the map has, both included; none where `low` is above `high`.
///
/// A refusal is `NOTHING_HELD`.
#[unsafe(no_mangle)]
pub extern "C" fn kuldebiq_map_count(
    alloc: Global,
    handle: &mut MapHandle,
    low: u64,
    high: u64,
) -> Answer
    ensures answer { MatchOption handle.old.map (result ≡ refuses NOTHING_HELD 0)
        (λ map. (updates : List Update) → StandsFor map updates →
        result ≡ gives (count_between (map_after updates) low high)) }
    ensures unchanged { handle.new.map ≡ handle.old.map }
{
    match handle.take(alloc) {
        Some(map) => {
            let count = map.count(low, high);
            handle.put(map);
            given(count)
        }
        None => refused(NOTHING_HELD, 0),
    }
}

/// How many entries were accepted: each put, each deletion and each key that a sweep took is one.
///
/// A refusal is `NOTHING_HELD`.
#[unsafe(no_mangle)]
pub extern "C" fn kuldebiq_map_accepted(alloc: Global, handle: &mut MapHandle) -> Answer
    ensures answer { MatchOption handle.old.map (result ≡ refuses NOTHING_HELD 0)
        (λ map. result ≡ gives map.accepted) }
    ensures unchanged { handle.new.map ≡ handle.old.map }
{
    match handle.take(alloc) {
        Some(map) => {
            let accepted = map.accepted();
            handle.put(map);
            given(accepted)
        }
        None => refused(NOTHING_HELD, 0),
    }
}

/// How many entries can be accepted: `64 * 2^levels - 1`.
///
/// A refusal is `NOTHING_HELD`.
#[unsafe(no_mangle)]
pub extern "C" fn kuldebiq_map_capacity(alloc: Global, handle: &mut MapHandle) -> Answer
    ensures answer { MatchOption handle.old.map (result ≡ refuses NOTHING_HELD 0)
        (λ map. result ≡ gives (capacity_of map)) }
    ensures unchanged { handle.new.map ≡ handle.old.map }
{
    match handle.take(alloc) {
        Some(map) => {
            let capacity = map.capacity();
            handle.put(map);
            given(capacity)
        }
        None => refused(NOTHING_HELD, 0),
    }
}
