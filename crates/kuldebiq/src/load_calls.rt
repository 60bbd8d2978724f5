// The calls that make a map at once: of pairs, and anew of its own.
ghost use Rattle.std.specs.Prelude.{◌≡◌, ◌≢◌, ◌⊎◌, ◌<◌, ◌≤◌};
ghost use Rattle.std.specs.Prelude.{List, length, IfOk, IfErr, IfSome, IsNone};
ghost use Rattle.std.specs.declared.option.Option.TheVariants.{None, Some};
ghost use Rattle.log_levels.specs.declared.update.Update.{Update};
ghost use Rattle.log_levels.specs.Maps.{map_after, AreRising, IsFirstStall};
ghost use Rattle.log_levels.specs.Shapes.{Held, IsMapOf, StandsFor, capacity_with};
ghost use Rattle.kuldebiq.specs.Answers.{gives, refuses, IsDone};
ghost use Rattle.kuldebiq.specs.Loading.{CanBeLoaded, IsLevelCount};
ghost use Rattle.kuldebiq.specs.Loading.{HoldsMapOf, HasCompacted};
ghost use Rattle.kuldebiq.specs.Loading.{IsLoadRefusal, RefusesPairs, RefusesCompact};
ghost use Rattle.kuldebiq.specs.Pairs.{tuples_of};

use crate::answer::{
    Answer, FULL, LEVELS_OUT_OF_RANGE, NO_MEMORY, NOTHING_HELD, UNSORTED, fault_as, given, refused,
};
use crate::map_calls::Pair;
use crate::map_handle::MapHandle;
use budget::NoMemory;
use log_levels::{LogMap, capacity_with};
use options::MAX_LEVELS;
use std::alloc::Global;

/// Makes the map of pairs whose keys rise, with so many levels, 1 to 26, and has the handle hold
/// it. The number is how many pairs there are: the map has accepted an entry for each.
///
/// What the handle held is let go. A refusal is `LEVELS_OUT_OF_RANGE`, `UNSORTED` with the first
/// place whose key isn't above the one before it, `FULL` with how many entries the map could
/// accept, or `NO_MEMORY`, judged in this order, and then the handle holds what it held. Memory is
/// taken only for pairs that can be loaded.
#[unsafe(no_mangle)]
pub extern "C" fn kuldebiq_map_load(
    alloc: Global,
    handle: &mut MapHandle,
    levels: u32,
    pairs: &[Pair],
) -> Answer
    ensures done { IsDone result → HoldsMapOf levels (tuples_of pairs.now) handle.new.map }
    ensures judged { IsDone result → CanBeLoaded levels (tuples_of pairs.now) }
    ensures number { IsDone result → result ≡ gives (length pairs.now) }
    ensures refused { result.status ≢ 0 → IsLoadRefusal levels (tuples_of pairs.now) result ⊎
        (CanBeLoaded levels (tuples_of pairs.now) × (result ≡ refuses NO_MEMORY 0)) }
    ensures unchanged { result.status ≢ 0 → handle.new.map ≡ handle.old.map }
{
    match loaded(alloc, levels, pairs) {
        Ok(map) => {
            handle.put(map);
            given(pairs.len() as u64)
        }
        Err(refusal) => refusal,
    }
}

/// Makes the handle's map anew with so many levels, 1 to 26, of the pairs that it has: it has
/// accepted an entry for each and no other. The number is how many they are.
///
/// A refusal is `NOTHING_HELD`, `LEVELS_OUT_OF_RANGE`, `FULL` with how many entries the map could
/// accept, or `NO_MEMORY`; the first two are judged in this order, and where the pairs are too many
/// either of the last two is told. Then the map is as it was.
#[unsafe(no_mangle)]
pub extern "C" fn kuldebiq_map_compact(alloc: Global, handle: &mut MapHandle, levels: u32) -> Answer
    ensures done { IsDone result → HasCompacted levels handle.old.map handle.new.map }
    ensures number { (map : Held) (updates : List Update) → handle.old.map ≡ Some map →
        StandsFor map updates → IsDone result → result.number ≡ length (map_after updates) }
    ensures none { handle.old.map ≡ None → result ≡ refuses NOTHING_HELD 0 }
    ensures full { (map : Held) (updates : List Update) → handle.old.map ≡ Some map →
        StandsFor map updates → IsLevelCount levels →
        capacity_with levels < length (map_after updates) →
        (result ≡ refuses FULL (capacity_with levels)) ⊎ (result ≡ refuses NO_MEMORY 0) }
    ensures refused { (map : Held) → handle.old.map ≡ Some map → result.status ≢ 0 →
        RefusesCompact levels map result }
    ensures unchanged { result.status ≢ 0 → handle.new.map ≡ handle.old.map }
{
    match handle.take(alloc) {
        Some(map) => match compacted(alloc, &map, levels) {
            Ok(smaller) => {
                let count = smaller.accepted();
                handle.put(smaller);
                given(count)
            }
            Err(refusal) => {
                handle.put(map);
                refusal
            }
        },
        None => refused(NOTHING_HELD, 0),
    }
}

/// The map of pairs in a box, or how they are refused.
fn loaded(alloc: Global, levels: u32, pairs: &[Pair]) -> Result<Box<LogMap>, Answer>
    ensures map { IfOk result (λ map. IsMapOf levels (tuples_of pairs.now) map.value) }
    ensures judged { IfOk result (λ _. CanBeLoaded levels (tuples_of pairs.now)) }
    ensures refused { IfErr result (λ answer.
        IsLoadRefusal levels (tuples_of pairs.now) answer ⊎
        (CanBeLoaded levels (tuples_of pairs.now) × (answer ≡ refuses NO_MEMORY 0))) }
{
    if levels == 0 || levels > MAX_LEVELS {
        return Err(refused(LEVELS_OUT_OF_RANGE, u64::from(levels)));
    }
    match refused_pairs(levels, pairs) {
        Some(refusal) => Err(refusal),
        None => match boxed_load(alloc, levels, pairs) {
            Some(map) => Ok(map),
            None => Err(refused(NO_MEMORY, 0)),
        },
    }
}

/// Why a map with so many levels doesn't take pairs, if it doesn't.
fn refused_pairs(levels: u32, pairs: &[Pair]) -> Option<Answer>
    requires { IsLevelCount levels }
    ensures some { IfSome result (RefusesPairs levels (tuples_of pairs.now)) }
    ensures rising { IsNone result → AreRising (tuples_of pairs.now) }
    ensures fit { IsNone result → length pairs.now ≤ capacity_with levels }
{
    match first_stall(pairs) {
        Some(place) => Some(refused(UNSORTED, place as u64)),
        None => too_many(levels, pairs.len() as u64),
    }
}

/// That so many pairs don't fit, if they don't.
fn too_many(levels: u32, count: u64) -> Option<Answer>
    requires { IsLevelCount levels }
    ensures some { IfSome result (λ answer. (answer ≡ refuses FULL (capacity_with levels)) ×
        (capacity_with levels < count)) }
    ensures none { IsNone result → count ≤ capacity_with levels }
{
    let capacity = capacity_with(levels);
    if count > capacity {
        return Some(refused(FULL, capacity));
    }
    None
}

/// The first place whose key isn't above the one before it, if there is one.
fn first_stall(pairs: &[Pair]) -> Option<usize>
    ensures some { IfSome result (IsFirstStall (tuples_of pairs.now)) }
    ensures rising { IsNone result → AreRising (tuples_of pairs.now) }
{
    for place in 1..pairs.len() {
        if pairs[place].key <= pairs[place - 1].key {
            return Some(place);
        }
    }
    None
}

/// The map of pairs that can be loaded, in a box, where memory is found.
fn boxed_load(alloc: Global, levels: u32, pairs: &[Pair]) -> Option<Box<LogMap>>
    requires { IsLevelCount levels }
    ensures { IfSome result (λ map. IsMapOf levels (tuples_of pairs.now) map.value) }
{
    match map_of(alloc, levels, pairs) {
        Ok(map) => match Box::new(alloc, map) {
            Ok(map) => Some(map),
            Err(_) => None,
        },
        Err(_) => None,
    }
}

/// The map of pairs.
///
/// # Errors
///
/// `NoMemory` alone, of pairs that can be loaded.
fn map_of(alloc: Global, levels: u32, pairs: &[Pair]) -> Result<LogMap, NoMemory>
    requires { IsLevelCount levels }
    ensures { IfOk result (IsMapOf levels (tuples_of pairs.now)) }
{
    let pairs = tuples_of(alloc, pairs)?;
    match LogMap::of_sorted(alloc, levels, &pairs) {
        Ok(map) => Ok(map),
        Err(_) => Err(NoMemory),
    }
}

/// Pairs of C as keys and values.
fn tuples_of(alloc: Global, pairs: &[Pair]) -> Result<Vec<(u64, u64)>, NoMemory>
    ensures { IfOk result (λ tuples. tuples.items ≡ tuples_of pairs.now) }
{
    let mut tuples = Vec::with_capacity(alloc, pairs.len())?;
    for pair in pairs {
        tuples.push((pair.key, pair.value))?;
    }
    Ok(tuples)
}

/// The map of a map's pairs in a box, or how that is refused.
fn compacted(alloc: Global, map: &LogMap, levels: u32) -> Result<Box<LogMap>, Answer>
    ensures map { IfOk result (λ smaller. (updates : List Update) → StandsFor map.now updates →
        IsMapOf levels (map_after updates) smaller.value) }
    ensures full { (updates : List Update) → StandsFor map.now updates → IsLevelCount levels →
        capacity_with levels < length (map_after updates) →
        IfErr result (λ answer. (answer ≡ refuses FULL (capacity_with levels)) ⊎
        (answer ≡ refuses NO_MEMORY 0)) }
    ensures refused { IfErr result (λ answer. RefusesCompact levels map.now answer) }
{
    if levels == 0 || levels > MAX_LEVELS {
        return Err(refused(LEVELS_OUT_OF_RANGE, u64::from(levels)));
    }
    match map.compacted(alloc, levels) {
        Ok(smaller) => match Box::new(alloc, smaller) {
            Ok(smaller) => Ok(smaller),
            Err(_) => Err(refused(NO_MEMORY, 0)),
        },
        Err(fault) => Err(fault_as(fault)),
    }
}
