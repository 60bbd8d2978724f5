// The calls over a map's least and greatest key, also taking them, and whether it has a key.
ghost use Rattle.std.specs.Prelude.{◌≡◌, ◌≢◌, [], List};
ghost use Rattle.std.specs.Option.{MatchOption};
ghost use Rattle.std.specs.declared.option.Option.TheVariants.{None, Some};
ghost use Rattle.log_levels.specs.declared.update.Update.{Update};
ghost use Rattle.log_levels.specs.Maps.{map_after, value_at, first_of, last_of};
ghost use Rattle.log_levels.specs.Shapes.{Held, StandsFor};
ghost use Rattle.kuldebiq.specs.Answers.{gives, refuses};
ghost use Rattle.kuldebiq.specs.Changes.{TakesOut, one_if_some};
ghost use Rattle.kuldebiq.specs.Pairs.{IsFound, IsTaken};

use crate::answer::{Answer, NOTHING_HELD, fault_as, given, refused};
use crate::map_calls::{Pair, write_found};
use crate::map_handle::MapHandle;
use log_levels::{LogMap, MapFault};
use std::alloc::Global;

/// Whether the map has a key. The number is 1 where it has, and else 0.
///
/// A refusal is `NOTHING_HELD`.
#[unsafe(no_mangle)]
pub extern "C" fn kuldebiq_map_contains(alloc: Global, handle: &mut MapHandle, key: u64) -> Answer
    ensures answer { MatchOption handle.old.map (result ≡ refuses NOTHING_HELD 0)
        (λ map. (updates : List Update) → StandsFor map updates →
        result ≡ gives (one_if_some (value_at (map_after updates) key))) }
    ensures unchanged { handle.new.map ≡ handle.old.map }
{
    match handle.take(alloc) {
        Some(map) => {
            let value = map.get(key);
            handle.put(map);
            given(u64::from(value.is_some()))
        }
        None => refused(NOTHING_HELD, 0),
    }
}

/// Whether the map has no key. The number is 1 where it has none, and else 0.
///
/// A refusal is `NOTHING_HELD`.
#[unsafe(no_mangle)]
pub extern "C" fn kuldebiq_map_is_empty(alloc: Global, handle: &mut MapHandle) -> Answer
    ensures none { handle.old.map ≡ None → result ≡ refuses NOTHING_HELD 0 }
    ensures empty { (map : Held) (updates : List Update) → handle.old.map ≡ Some map →
        StandsFor map updates → map_after updates ≡ [] → result ≡ gives 1 }
    ensures some { (map : Held) (updates : List Update) → handle.old.map ≡ Some map →
        StandsFor map updates → (map_after updates ≡ [] → ⊥) → result ≡ gives 0 }
    ensures unchanged { handle.new.map ≡ handle.old.map }
{
    match handle.take(alloc) {
        Some(map) => {
            let empty = map.is_empty();
            handle.put(map);
            given(u64::from(empty))
        }
        None => refused(NOTHING_HELD, 0),
    }
}

/// Writes the least key of the map, with its value. The number is 0.
///
/// A refusal is `NOTHING_HELD`, or `ABSENT` where the map has no key. Then nothing is written.
#[unsafe(no_mangle)]
pub extern "C" fn kuldebiq_map_first(
    alloc: Global,
    handle: &mut MapHandle,
    pair: &mut Pair,
) -> Answer
    ensures answer { MatchOption handle.old.map (result ≡ refuses NOTHING_HELD 0)
        (λ map. (updates : List Update) → StandsFor map updates →
        IsFound (first_of (map_after updates)) pair.new result) }
    ensures refused { result.status ≢ 0 → pair.new ≡ pair.old }
    ensures unchanged { handle.new.map ≡ handle.old.map }
{
    match handle.take(alloc) {
        Some(map) => {
            let first = map.first();
            handle.put(map);
            write_found(first, pair)
        }
        None => refused(NOTHING_HELD, 0),
    }
}

/// Writes the greatest key of the map, with its value. The number is 0.
///
/// A refusal is `NOTHING_HELD`, or `ABSENT` where the map has no key. Then nothing is written.
#[unsafe(no_mangle)]
pub extern "C" fn kuldebiq_map_last(
    alloc: Global,
    handle: &mut MapHandle,
    pair: &mut Pair,
) -> Answer
    ensures answer { MatchOption handle.old.map (result ≡ refuses NOTHING_HELD 0)
        (λ map. (updates : List Update) → StandsFor map updates →
        IsFound (last_of (map_after updates)) pair.new result) }
    ensures refused { result.status ≢ 0 → pair.new ≡ pair.old }
    ensures unchanged { handle.new.map ≡ handle.old.map }
{
    match handle.take(alloc) {
        Some(map) => {
            let last = map.last();
            handle.put(map);
            write_found(last, pair)
        }
        None => refused(NOTHING_HELD, 0),
    }
}

/// Takes the least key out of the map, and writes it with its value. It is an entry. The number is
/// 0.
///
/// A refusal is `NOTHING_HELD`, `ABSENT` where the map has no key, `FULL` or `NO_MEMORY`, judged in
/// this order. Then the map is as it was, and nothing is written.
#[unsafe(no_mangle)]
pub extern "C" fn kuldebiq_map_pop_first(
    alloc: Global,
    handle: &mut MapHandle,
    pair: &mut Pair,
) -> Answer
    ensures taken { MatchOption handle.old.map (result ≡ refuses NOTHING_HELD 0)
        (λ map. TakesOut first_of map handle.new.map pair.new result) }
    ensures refused { result.status ≢ 0 → pair.new ≡ pair.old }
    ensures unchanged { result.status ≢ 0 → handle.new.map ≡ handle.old.map }
{
    match handle.take(alloc) {
        Some(map) => {
            let mut map = map;
            let answer = take_first(alloc, &mut map, pair);
            handle.put(map);
            answer
        }
        None => refused(NOTHING_HELD, 0),
    }
}

/// Takes the greatest key out of the map, and writes it with its value. It is an entry. The number
/// is 0.
///
/// A refusal is `NOTHING_HELD`, `ABSENT` where the map has no key, `FULL` or `NO_MEMORY`, judged in
/// this order. Then the map is as it was, and nothing is written.
#[unsafe(no_mangle)]
pub extern "C" fn kuldebiq_map_pop_last(
    alloc: Global,
    handle: &mut MapHandle,
    pair: &mut Pair,
) -> Answer
    ensures taken { MatchOption handle.old.map (result ≡ refuses NOTHING_HELD 0)
        (λ map. TakesOut last_of map handle.new.map pair.new result) }
    ensures refused { result.status ≢ 0 → pair.new ≡ pair.old }
    ensures unchanged { result.status ≢ 0 → handle.new.map ≡ handle.old.map }
{
    match handle.take(alloc) {
        Some(map) => {
            let mut map = map;
            let answer = take_last(alloc, &mut map, pair);
            handle.put(map);
            answer
        }
        None => refused(NOTHING_HELD, 0),
    }
}

/// Takes the least key out of a map, and writes it with its value.
fn take_first(alloc: Global, map: &mut LogMap, pair: &mut Pair) -> Answer
    ensures taken { TakesOut first_of map.old (Some map.new) pair.new result }
    ensures refused { result.status ≢ 0 → pair.new ≡ pair.old }
    ensures unchanged { result.status ≢ 0 → map.new ≡ map.old }
{
    write_taken(map.pop_first(alloc), pair)
}

/// Takes the greatest key out of a map, and writes it with its value.
fn take_last(alloc: Global, map: &mut LogMap, pair: &mut Pair) -> Answer
    ensures taken { TakesOut last_of map.old (Some map.new) pair.new result }
    ensures refused { result.status ≢ 0 → pair.new ≡ pair.old }
    ensures unchanged { result.status ≢ 0 → map.new ≡ map.old }
{
    write_taken(map.pop_last(alloc), pair)
}

/// Writes the pair that was taken, if there was one to take.
fn write_taken(taken: Result<Option<(u64, u64)>, MapFault>, pair: &mut Pair) -> Answer
    ensures taken { IsTaken taken pair.new result }
    ensures refused { result.status ≢ 0 → pair.new ≡ pair.old }
{
    match taken {
        Ok(found) => write_found(found, pair),
        Err(fault) => fault_as(fault),
    }
}
