// The values at many keys of a map.
ghost use Rattle.std.specs.Prelude.{◌≡◌, ◌≢◌, ◌<◌, ◌≤◌, ◌++◌};
ghost use Rattle.std.specs.Prelude.{List, length, map, drop, min, unwrap_or};
ghost use Rattle.std.specs.declared.option.Option.TheVariants.{None, Some};
ghost use Rattle.log_levels.specs.declared.update.Update.{Update};
ghost use Rattle.log_levels.specs.Maps.{map_after, value_at};
ghost use Rattle.log_levels.specs.Shapes.{Held, StandsFor};
ghost use Rattle.kuldebiq.specs.Answers.{gives, refuses, IsDone};
ghost use Rattle.kuldebiq.specs.Changes.{one_if_some};

use crate::answer::{Answer, NOTHING_HELD, TOO_LITTLE_ROOM, given, refused};
use crate::map_handle::MapHandle;
use log_levels::LogMap;
use std::alloc::Global;

/// How many keys are asked for at a time.
const AT_ONCE: usize = 64;

/// Writes the value at each key at its place, and whether the map has the key: 1 where it has, and
/// else 0, with 0 as the value. The number is how many keys there are. What lies behind them in
/// both rooms stays.
///
/// These are the values that [`kuldebiq_map_get`] gives. It takes no memory. A refusal is
/// `NOTHING_HELD`, or `TOO_LITTLE_ROOM` where either room is too little, judged in this order, and
/// then nothing is written.
#[unsafe(no_mangle)]
pub extern "C" fn kuldebiq_map_get_many(
    alloc: Global,
    handle: &mut MapHandle,
    keys: &[u64],
    values: &mut [u64],
    present: &mut [u8],
) -> Answer
    ensures none { handle.old.map ≡ None → result ≡ refuses NOTHING_HELD 0 }
    ensures room { (held : Held) → handle.old.map ≡ Some held →
        min (length values.old) (length present.old) < length keys.now →
        result ≡ refuses TOO_LITTLE_ROOM (length keys.now) }
    ensures done { (held : Held) → handle.old.map ≡ Some held →
        length keys.now ≤ min (length values.old) (length present.old) →
        result ≡ gives (length keys.now) }
    ensures values { (held : Held) (updates : List Update) → handle.old.map ≡ Some held →
        StandsFor held updates → IsDone result → values.new ≡
        map (λ key. unwrap_or (value_at (map_after updates) key) 0) keys.now
        ++ drop (length keys.now) values.old }
    ensures present { (held : Held) (updates : List Update) → handle.old.map ≡ Some held →
        StandsFor held updates → IsDone result → present.new ≡
        map (λ key. one_if_some (value_at (map_after updates) key)) keys.now
        ++ drop (length keys.now) present.old }
    ensures refused { result.status ≢ 0 →
        (values.new ≡ values.old) × (present.new ≡ present.old) }
    ensures unchanged { handle.new.map ≡ handle.old.map }
{
    match handle.take(alloc) {
        Some(held) => {
            let answer = values_at(&held, keys, values, present);
            handle.put(held);
            answer
        }
        None => refused(NOTHING_HELD, 0),
    }
}

fn values_at(held: &LogMap, keys: &[u64], values: &mut [u64], present: &mut [u8]) -> Answer
    ensures room { min (length values.old) (length present.old) < length keys.now →
        result ≡ refuses TOO_LITTLE_ROOM (length keys.now) }
    ensures done { length keys.now ≤ min (length values.old) (length present.old) →
        result ≡ gives (length keys.now) }
    ensures values { (updates : List Update) → StandsFor held.now updates → IsDone result →
        values.new ≡ map (λ key. unwrap_or (value_at (map_after updates) key) 0) keys.now
        ++ drop (length keys.now) values.old }
    ensures present { (updates : List Update) → StandsFor held.now updates → IsDone result →
        present.new ≡ map (λ key. one_if_some (value_at (map_after updates) key)) keys.now
        ++ drop (length keys.now) present.old }
    ensures refused { result.status ≢ 0 →
        (values.new ≡ values.old) × (present.new ≡ present.old) }
{
    let count = keys.len();
    if values.len() < count || present.len() < count {
        return refused(TOO_LITTLE_ROOM, count as u64);
    }
    write_values(held, keys, &mut values[..count], &mut present[..count]);
    given(count as u64)
}

/// Writes the value at each key and whether the map has it, block after block.
fn write_values(held: &LogMap, keys: &[u64], values: &mut [u64], present: &mut [u8])
    requires values { length values.old ≡ length keys.now }
    requires present { length present.old ≡ length keys.now }
    ensures values { (updates : List Update) → StandsFor held.now updates →
        values.new ≡ map (λ key. unwrap_or (value_at (map_after updates) key) 0) keys.now }
    ensures present { (updates : List Update) → StandsFor held.now updates →
        present.new ≡ map (λ key. one_if_some (value_at (map_after updates) key)) keys.now }
{
    let mut from = 0;
    while from < keys.len() {
        let end = keys.len().min(from + AT_ONCE);
        write_block(
            held,
            &keys[from..end],
            &mut values[from..end],
            &mut present[from..end],
        );
        from = end;
    }
}

/// The same for 64 keys or fewer.
fn write_block(held: &LogMap, keys: &[u64], values: &mut [u64], present: &mut [u8])
    requires values { length values.old ≡ length keys.now }
    requires present { length present.old ≡ length keys.now }
    requires few { length keys.now ≤ AT_ONCE }
    ensures values { (updates : List Update) → StandsFor held.now updates →
        values.new ≡ map (λ key. unwrap_or (value_at (map_after updates) key) 0) keys.now }
    ensures present { (updates : List Update) → StandsFor held.now updates →
        present.new ≡ map (λ key. one_if_some (value_at (map_after updates) key)) keys.now }
{
    let mut found = [None; AT_ONCE];
    let found = &mut found[..keys.len()];
    held.get_many(keys, found);
    write_found(found, values, present);
}

/// Writes what was found in two lists.
fn write_found(found: &[Option<u64>], values: &mut [u64], present: &mut [u8])
    requires values { length values.old ≡ length found.now }
    requires present { length present.old ≡ length found.now }
    ensures values { values.new ≡ map (λ value. unwrap_or value 0) found.now }
    ensures present { present.new ≡ map one_if_some found.now }
{
    for i in 0..found.len() {
        values[i] = found[i].unwrap_or(0);
        present[i] = u8::from(found[i].is_some());
    }
}
