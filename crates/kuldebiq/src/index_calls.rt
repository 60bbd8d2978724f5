// The calls over an index.
ghost use Rattle.std.specs.Prelude.{◌≡◌, ◌≢◌, ◌⊎◌, ◌<◌, ◌≤◌, ◌++◌};
ghost use Rattle.std.specs.Prelude.{⊤, length, map, drop, slice_index, slice_index_or};
ghost use Rattle.std.specs.Option.{MatchOption};
ghost use Rattle.std.specs.declared.option.Option.TheVariants.{None, Some};
ghost use Rattle.exact_cross.specs.declared.segment.Segment.{Segment};
ghost use Rattle.exact_cross.specs.IndexLevels.{level_at};
ghost use Rattle.window_search.specs.Searches.{lb};
ghost use Rattle.levels.specs.Indexes.{PgmIndex};
ghost use Rattle.kuldebiq.specs.Answers.{gives, refuses, IsDone};
ghost use Rattle.kuldebiq.specs.Building.{CanBeIndexed, IsRefusal, HoldsIndexOf};
ghost use Rattle.kuldebiq.specs.Positions.{at_most};
ghost use Rattle.kuldebiq.specs.Segments.{parts_of};

use crate::answer::{
    Answer, NO_MEMORY, NO_SUCH_LEVEL, NO_SUCH_PLACE, NO_SUCH_SEGMENT, NOTHING_HELD,
    TOO_LITTLE_ROOM, given, refused,
};
use crate::building::boxed_index;
use crate::index_handle::IndexHandle;
use crate::kept_index::KeptIndex;
use crate::many::{position_after, write_positions};
use crate::segment_parts::{SegmentParts, parts_of};
use levels::Index;
use std::alloc::Global;

/// Builds the index of sorted keys, which are judged and then copied, and has the handle hold it.
/// The number is how many keys there are.
///
/// `epsilon` is the error bound of level 0, in positions, and `epsilon_above` that of the levels
/// above. What the handle held is let go. A refusal is `EPSILON_TOO_GREAT`, `TOO_MANY_KEYS`,
/// `UNSORTED` or `NO_MEMORY`, judged in this order, and then the handle holds what it held. Memory
/// is taken only for keys and bounds that have an index.
#[unsafe(no_mangle)]
pub extern "C" fn kuldebiq_index_build(
    alloc: Global,
    handle: &mut IndexHandle,
    keys: &[u64],
    epsilon: u32,
    epsilon_above: u32,
) -> Answer
    ensures done { IsDone result → HoldsIndexOf keys.now epsilon epsilon_above handle.new.index }
    ensures judged { IsDone result → CanBeIndexed keys.now epsilon epsilon_above }
    ensures number { IsDone result → result.number ≡ length keys.now }
    ensures refused { result.status ≢ 0 → IsRefusal keys.now epsilon epsilon_above result ⊎
        (CanBeIndexed keys.now epsilon epsilon_above × (result ≡ refuses NO_MEMORY 0)) }
    ensures unchanged { result.status ≢ 0 → handle.new.index ≡ handle.old.index }
{
    match boxed_index(alloc, keys, epsilon, epsilon_above) {
        Ok(kept) => {
            handle.put(kept);
            given(keys.len() as u64)
        }
        Err(refusal) => refusal,
    }
}

/// Has a second handle hold the index of the first one, which keeps it too. The number is 0.
///
/// The two may be used side by side, each in a thread of its own. What the second handle held is
/// let go. A refusal is `NOTHING_HELD` or `NO_MEMORY`, and then it holds what it held.
#[unsafe(no_mangle)]
pub extern "C" fn kuldebiq_index_share(
    alloc: Global,
    handle: &mut IndexHandle,
    other: &mut IndexHandle,
) -> Answer
    ensures done { IsDone result → other.new.index ≡ handle.old.index }
    ensures none { handle.old.index ≡ None → result ≡ refuses NOTHING_HELD 0 }
    ensures some { (index : PgmIndex) → handle.old.index ≡ Some index →
        (result ≡ gives 0) ⊎ (result ≡ refuses NO_MEMORY 0) }
    ensures kept { handle.new.index ≡ handle.old.index }
    ensures unchanged { result.status ≢ 0 → other.new.index ≡ other.old.index }
{
    match handle.take(alloc) {
        Some(kept) => {
            let copy = boxed_share(alloc, &kept);
            handle.put(kept);
            match copy {
                Some(copy) => {
                    other.put(copy);
                    given(0)
                }
                None => refused(NO_MEMORY, 0),
            }
        }
        None => refused(NOTHING_HELD, 0),
    }
}

/// A handle of the index in a box of its own, where memory is found.
fn boxed_share(alloc: Global, kept: &KeptIndex) -> Option<Box<KeptIndex>>
    ensures { MatchOption result ⊤ (λ copy. copy.value ≡ kept.now) }
{
    match kept.share() {
        Ok(copy) => match Box::new(alloc, copy) {
            Ok(copy) => Some(copy),
            Err(_) => None,
        },
        Err(_) => None,
    }
}

/// Lets go of the index. The handle holds nothing then, and may be let go again.
#[unsafe(no_mangle)]
pub extern "C" fn kuldebiq_index_free(alloc: Global, handle: &mut IndexHandle)
    ensures { handle.new.index ≡ None }
{
    drop(handle.take(alloc));
}

/// The position of a question: how many keys are below it.
///
/// A refusal is `NOTHING_HELD`.
#[unsafe(no_mangle)]
pub extern "C" fn kuldebiq_position(
    alloc: Global,
    handle: &mut IndexHandle,
    question: u64,
) -> Answer
    ensures answer { MatchOption handle.old.index (result ≡ refuses NOTHING_HELD 0)
        (λ index. result ≡ gives (lb index.keys question)) }
    ensures unchanged { handle.new.index ≡ handle.old.index }
{
    match handle.take(alloc) {
        Some(kept) => {
            let position = kept.index().position(question);
            handle.put(kept);
            given(u64::from(position))
        }
        None => refused(NOTHING_HELD, 0),
    }
}

/// How many keys are at most the question: the position behind the last of them.
///
/// A refusal is `NOTHING_HELD`.
#[unsafe(no_mangle)]
pub extern "C" fn kuldebiq_position_after(
    alloc: Global,
    handle: &mut IndexHandle,
    question: u64,
) -> Answer
    ensures answer { MatchOption handle.old.index (result ≡ refuses NOTHING_HELD 0)
        (λ index. result ≡ gives (at_most index.keys question)) }
    ensures unchanged { handle.new.index ≡ handle.old.index }
{
    match handle.take(alloc) {
        Some(kept) => {
            let position = position_after(kept.index(), question);
            handle.put(kept);
            given(u64::from(position))
        }
        None => refused(NOTHING_HELD, 0),
    }
}

/// The key at a position. It is the number.
///
/// A refusal is `NOTHING_HELD` or `NO_SUCH_PLACE`.
#[unsafe(no_mangle)]
pub extern "C" fn kuldebiq_key_at(alloc: Global, handle: &mut IndexHandle, place: u64) -> Answer
    ensures none { handle.old.index ≡ None → result ≡ refuses NOTHING_HELD 0 }
    ensures outside { (index : PgmIndex) → handle.old.index ≡ Some index →
        length index.keys ≤ place → result ≡ refuses NO_SUCH_PLACE (length index.keys) }
    ensures answer { (index : PgmIndex) → handle.old.index ≡ Some index →
        place < length index.keys → result ≡ gives (slice_index index.keys place) }
    ensures unchanged { handle.new.index ≡ handle.old.index }
{
    match handle.take(alloc) {
        Some(kept) => {
            let answer = key_at(kept.index().keys().as_slice(), place);
            handle.put(kept);
            answer
        }
        None => refused(NOTHING_HELD, 0),
    }
}

fn key_at(keys: &[u64], place: u64) -> Answer
    ensures outside { length keys.now ≤ place → result ≡ refuses NO_SUCH_PLACE (length keys.now) }
    ensures answer { place < length keys.now → result ≡ gives (slice_index keys.now place) }
{
    if place >= keys.len() as u64 {
        return refused(NO_SUCH_PLACE, keys.len() as u64);
    }
    given(keys[place as usize])
}

/// Writes the position of each question at its place. The number is how many there are. What lies
/// behind them stays.
///
/// It is faster than one call for each. A refusal is `NOTHING_HELD` or `TOO_LITTLE_ROOM`, judged in
/// this order, and then nothing is written.
#[unsafe(no_mangle)]
pub extern "C" fn kuldebiq_positions(
    alloc: Global,
    handle: &mut IndexHandle,
    questions: &[u64],
    positions: &mut [u32],
) -> Answer
    ensures none { handle.old.index ≡ None → result ≡ refuses NOTHING_HELD 0 }
    ensures room { (index : PgmIndex) → handle.old.index ≡ Some index →
        length positions.old < length questions.now →
        result ≡ refuses TOO_LITTLE_ROOM (length questions.now) }
    ensures done { (index : PgmIndex) → handle.old.index ≡ Some index →
        length questions.now ≤ length positions.old →
        (result ≡ gives (length questions.now)) ×
        (positions.new ≡ map (lb index.keys) questions.now ++
        drop (length questions.now) positions.old) }
    ensures refused { result.status ≢ 0 → positions.new ≡ positions.old }
    ensures unchanged { handle.new.index ≡ handle.old.index }
{
    match handle.take(alloc) {
        Some(kept) => {
            let answer = positions_at(alloc, kept.index(), questions, positions);
            handle.put(kept);
            answer
        }
        None => refused(NOTHING_HELD, 0),
    }
}

fn positions_at(alloc: Global, index: &Index, questions: &[u64], positions: &mut [u32]) -> Answer
    ensures room { length positions.old < length questions.now →
        result ≡ refuses TOO_LITTLE_ROOM (length questions.now) }
    ensures done { length questions.now ≤ length positions.old →
        (result ≡ gives (length questions.now)) ×
        (positions.new ≡ map (lb index.now.keys) questions.now ++
        drop (length questions.now) positions.old) }
    ensures refused { result.status ≢ 0 → positions.new ≡ positions.old }
{
    let count = questions.len();
    if positions.len() < count {
        return refused(TOO_LITTLE_ROOM, count as u64);
    }
    write_positions(alloc, index, questions, &mut positions[..count]);
    given(count as u64)
}

/// How many keys there are.
///
/// A refusal is `NOTHING_HELD`.
#[unsafe(no_mangle)]
pub extern "C" fn kuldebiq_index_keys(alloc: Global, handle: &mut IndexHandle) -> Answer
    ensures answer { MatchOption handle.old.index (result ≡ refuses NOTHING_HELD 0)
        (λ index. result ≡ gives (length index.keys)) }
    ensures unchanged { handle.new.index ≡ handle.old.index }
{
    match handle.take(alloc) {
        Some(kept) => {
            let count = kept.index().keys().len();
            handle.put(kept);
            given(u64::from(count))
        }
        None => refused(NOTHING_HELD, 0),
    }
}

/// How many levels there are, none where there is no key.
///
/// A refusal is `NOTHING_HELD`.
#[unsafe(no_mangle)]
pub extern "C" fn kuldebiq_index_levels(alloc: Global, handle: &mut IndexHandle) -> Answer
    ensures answer { MatchOption handle.old.index (result ≡ refuses NOTHING_HELD 0)
        (λ index. result ≡ gives (length index.levels)) }
    ensures unchanged { handle.new.index ≡ handle.old.index }
{
    match handle.take(alloc) {
        Some(kept) => {
            let count = kept.index().level_count();
            handle.put(kept);
            given(u64::from(count))
        }
        None => refused(NOTHING_HELD, 0),
    }
}

/// How many segments a level has. Levels are counted from 0, the lowest.
///
/// A refusal is `NOTHING_HELD` or `NO_SUCH_LEVEL`.
#[unsafe(no_mangle)]
pub extern "C" fn kuldebiq_index_segments(
    alloc: Global,
    handle: &mut IndexHandle,
    level: u32,
) -> Answer
    ensures none { handle.old.index ≡ None → result ≡ refuses NOTHING_HELD 0 }
    ensures outside { (index : PgmIndex) → handle.old.index ≡ Some index →
        length index.levels ≤ level → result ≡ refuses NO_SUCH_LEVEL (length index.levels) }
    ensures answer { (index : PgmIndex) → handle.old.index ≡ Some index →
        level < length index.levels → result ≡ gives (length (level_at index.levels level)) }
    ensures unchanged { handle.new.index ≡ handle.old.index }
{
    match handle.take(alloc) {
        Some(kept) => {
            let answer = count_of_segments(&kept, level);
            handle.put(kept);
            answer
        }
        None => refused(NOTHING_HELD, 0),
    }
}

fn count_of_segments(kept: &KeptIndex, level: u32) -> Answer
    ensures outside { length kept.now.levels ≤ level →
        result ≡ refuses NO_SUCH_LEVEL (length kept.now.levels) }
    ensures answer { level < length kept.now.levels →
        result ≡ gives (length (level_at kept.now.levels level)) }
{
    let index = kept.index();
    let levels = index.level_count();
    if level >= levels {
        return refused(NO_SUCH_LEVEL, u64::from(levels));
    }
    given(index.segments(level).len() as u64)
}

/// Writes a segment of a level. The number is 0.
///
/// A refusal is `NOTHING_HELD`, `NO_SUCH_LEVEL` or `NO_SUCH_SEGMENT`, judged in this order, and
/// then nothing is written.
#[unsafe(no_mangle)]
pub extern "C" fn kuldebiq_index_segment(
    alloc: Global,
    handle: &mut IndexHandle,
    level: u32,
    place: u64,
    segment: &mut SegmentParts,
) -> Answer
    ensures none { handle.old.index ≡ None → result ≡ refuses NOTHING_HELD 0 }
    ensures no_level { (index : PgmIndex) → handle.old.index ≡ Some index →
        length index.levels ≤ level → result ≡ refuses NO_SUCH_LEVEL (length index.levels) }
    ensures no_segment { (index : PgmIndex) → handle.old.index ≡ Some index →
        level < length index.levels → length (level_at index.levels level) ≤ place →
        result ≡ refuses NO_SUCH_SEGMENT (length (level_at index.levels level)) }
    ensures done { (index : PgmIndex) → handle.old.index ≡ Some index →
        level < length index.levels → place < length (level_at index.levels level) →
        result ≡ gives 0 }
    ensures segment { (index : PgmIndex) (d : Segment) → handle.old.index ≡ Some index →
        level < length index.levels → place < length (level_at index.levels level) →
        segment.new ≡ parts_of (slice_index_or (level_at index.levels level) place d) }
    ensures refused { result.status ≢ 0 → segment.new ≡ segment.old }
    ensures unchanged { handle.new.index ≡ handle.old.index }
{
    match handle.take(alloc) {
        Some(kept) => {
            let answer = write_segment(&kept, level, place, segment);
            handle.put(kept);
            answer
        }
        None => refused(NOTHING_HELD, 0),
    }
}

fn write_segment(kept: &KeptIndex, level: u32, place: u64, segment: &mut SegmentParts) -> Answer
    ensures no_level { length kept.now.levels ≤ level →
        result ≡ refuses NO_SUCH_LEVEL (length kept.now.levels) }
    ensures no_segment { level < length kept.now.levels →
        length (level_at kept.now.levels level) ≤ place →
        result ≡ refuses NO_SUCH_SEGMENT (length (level_at kept.now.levels level)) }
    ensures done { level < length kept.now.levels →
        place < length (level_at kept.now.levels level) → result ≡ gives 0 }
    ensures segment { (d : Segment) → level < length kept.now.levels →
        place < length (level_at kept.now.levels level) →
        segment.new ≡ parts_of (slice_index_or (level_at kept.now.levels level) place d) }
    ensures refused { result.status ≢ 0 → segment.new ≡ segment.old }
{
    let index = kept.index();
    let levels = index.level_count();
    if level >= levels {
        return refused(NO_SUCH_LEVEL, u64::from(levels));
    }
    let segments = index.segments(level);
    if place >= segments.len() as u64 {
        return refused(NO_SUCH_SEGMENT, segments.len() as u64);
    }
    *segment = parts_of(&segments[place as usize]);
    given(0)
}
