// The calls that give a map's pairs: those of a range, and the one before a key.
ghost use Rattle.std.specs.Prelude.{◌≡◌, ◌≢◌, ◌≤◌, ◌++◌, List, length, map, take, drop, min};
ghost use Rattle.std.specs.Option.{MatchOption};
ghost use Rattle.log_levels.specs.declared.update.Update.{Update};
ghost use Rattle.log_levels.specs.Maps.{map_after, count_between, pairs_between, previous_to};
ghost use Rattle.log_levels.specs.Shapes.{StandsFor};
ghost use Rattle.kuldebiq.specs.Answers.{gives, refuses};
ghost use Rattle.kuldebiq.specs.Pairs.{IsFound, pair_of};

use crate::answer::{Answer, NOTHING_HELD, given, refused};
use crate::map_calls::{Pair, write_found};
use crate::map_handle::MapHandle;
use log_levels::LogMap;
use std::alloc::Global;

/// How many pairs are asked for at a time.
const AT_ONCE: usize = 64;

/// Writes the first pairs from `low` to `high`, both included, by rising key, as many as there is
/// room for. The number is how many they are; none where `low` is above `high`. What lies behind
/// them in the room stays.
///
/// A refusal is `NOTHING_HELD`, and then nothing is written.
#[unsafe(no_mangle)]
pub extern "C" fn kuldebiq_map_range(
    alloc: Global,
    handle: &mut MapHandle,
    low: u64,
    high: u64,
    pairs: &mut [Pair],
) -> Answer
    ensures answer { MatchOption handle.old.map (result ≡ refuses NOTHING_HELD 0)
        (λ held. (updates : List Update) → StandsFor held updates →
        result ≡ gives (min (length pairs.old) (count_between (map_after updates) low high))) }
    ensures pairs { MatchOption handle.old.map (pairs.new ≡ pairs.old)
        (λ held. (updates : List Update) → StandsFor held updates →
        pairs.new ≡ map pair_of (take result.number (pairs_between (map_after updates) low high))
        ++ drop result.number pairs.old) }
    ensures unchanged { handle.new.map ≡ handle.old.map }
{
    match handle.take(alloc) {
        Some(held) => {
            let count = write_range(&held, low, high, pairs);
            handle.put(held);
            given(count as u64)
        }
        None => refused(NOTHING_HELD, 0),
    }
}

/// Writes the greatest key up to `to` that the map has, with its value. The number is 0.
///
/// A refusal is `NOTHING_HELD`, or `ABSENT` where there is no such key. Then nothing is written.
#[unsafe(no_mangle)]
pub extern "C" fn kuldebiq_map_previous(
    alloc: Global,
    handle: &mut MapHandle,
    to: u64,
    pair: &mut Pair,
) -> Answer
    ensures answer { MatchOption handle.old.map (result ≡ refuses NOTHING_HELD 0)
        (λ map. (updates : List Update) → StandsFor map updates →
        IsFound (previous_to (map_after updates) to) pair.new result) }
    ensures refused { result.status ≢ 0 → pair.new ≡ pair.old }
    ensures unchanged { handle.new.map ≡ handle.old.map }
{
    match handle.take(alloc) {
        Some(map) => {
            let previous = map.previous(to);
            handle.put(map);
            write_found(previous, pair)
        }
        None => refused(NOTHING_HELD, 0),
    }
}

/// Writes the first pairs from `low` to `high`, as many as there is room for, and gives how many.
fn write_range(held: &LogMap, low: u64, high: u64, room: &mut [Pair]) -> usize
    ensures count { (updates : List Update) → StandsFor held.now updates →
        result ≡ min (length room.old) (count_between (map_after updates) low high) }
    ensures pairs { (updates : List Update) → StandsFor held.now updates → room.new ≡
        map pair_of (take result (pairs_between (map_after updates) low high))
        ++ drop result room.old }
{
    let mut from = low;
    let mut count = 0;
    while count < room.len() {
        let found = write_block(held, from, high, &mut room[count..]);
        count += found;
        if found < AT_ONCE {
            return count;
        }
        let last = room[count - 1].key;
        if last >= high {
            return count;
        }
        from = last + 1;
    }
    count
}

/// Writes the first pairs from `low` to `high`, as many as there is room for and at most 64, and
/// gives how many.
fn write_block(held: &LogMap, low: u64, high: u64, room: &mut [Pair]) -> usize
    ensures within { result ≤ length room.old }
    ensures count { (updates : List Update) → StandsFor held.now updates → result ≡
        min (min AT_ONCE (length room.old)) (count_between (map_after updates) low high) }
    ensures pairs { (updates : List Update) → StandsFor held.now updates → room.new ≡
        map pair_of (take result (pairs_between (map_after updates) low high))
        ++ drop result room.old }
{
    let mut block = [(0, 0); AT_ONCE];
    let size = AT_ONCE.min(room.len());
    let found = held.range(low, high, &mut block[..size]);
    write_pairs(&block[..found], &mut room[..found]);
    found
}

/// Writes keys and values as pairs of C.
fn write_pairs(found: &[(u64, u64)], room: &mut [Pair])
    requires { length room.old ≡ length found.now }
    ensures { room.new ≡ map pair_of found.now }
{
    for i in 0..found.len() {
        room[i] = Pair {
            key: found[i].0,
            value: found[i].1,
        };
    }
}
