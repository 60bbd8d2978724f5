// Times a map of 64-bit keys that changes: `bench map N`.
use crate::shared::{ROUNDS, nanos_each, number};
use anyhow::{Result, bail, ensure};
use budget::NoMemory;
use edge::OpenGate;
use log_levels::{LoadFault, LogMap, MapFault, Update};
use options::Workers;
use std::alloc::{AllocError, Global};
use std::rt::Clock;
use std::thread::Threads;
use std::time::{Duration, Instant};

/// How many updates are applied at once.
const BATCH: usize = 1000;

/// How many levels the map has: it can accept `64 * 2^20 - 1` entries.
const LEVELS: u32 = 20;

/// How many numbers a stream has; keys are the first, questions are drawn from others.
const STREAM: u64 = 1 << 40;

/// How many pairs a range has.
const RANGE: usize = 100;

/// How many pairs a walk takes at once.
const BLOCK: usize = 1024;

/// How many keys are asked for at once at most.
const AT_ONCE: usize = 1000;

/// How many of the least keys are taken from a map of so many.
const TAKEN: usize = 1_000_000;

/// The greatest number of the lower half.
const MIDDLE: u64 = u64::MAX / 2;

/// How many phases there are.
const PHASES: usize = 24;

/// What is timed, in order.
#[derive(Clone, Copy)]
enum Phase {
    Put,
    Hit,
    Miss,
    Many(u64),
    Next(u64),
    Range(u64),
    Walk,
    Back,
    Count(u64),
    Mixed,
    Apply,
    GiveUp,
    Load,
    Sweep,
    First,
    Take,
    Ends,
}

/// The phases by name.
const NAMED: [(&str, Phase); PHASES] = [
    ("put", Phase::Put),
    ("hit", Phase::Hit),
    ("miss", Phase::Miss),
    ("many16", Phase::Many(16)),
    ("many1000", Phase::Many(1000)),
    ("next", Phase::Next(2)),
    ("range", Phase::Range(8)),
    ("walk", Phase::Walk),
    ("back", Phase::Back),
    ("count", Phase::Count(9)),
    ("mixed", Phase::Mixed),
    ("next2", Phase::Next(3)),
    ("range2", Phase::Range(10)),
    ("walk2", Phase::Walk),
    ("count2", Phase::Count(11)),
    ("apply", Phase::Apply),
    ("next3", Phase::Next(4)),
    ("drop", Phase::GiveUp),
    ("load", Phase::Load),
    ("walk3", Phase::Walk),
    ("sweep", Phase::Sweep),
    ("first", Phase::First),
    ("take", Phase::Take),
    ("ends", Phase::Ends),
];

/// How many things a phase did, and its checksum.
#[derive(Clone, Copy)]
struct Done {
    things: u64,
    sum: u64,
}

impl Done {
    /// One more thing: a pair.
    fn add(&mut self, key: u64, value: u64) {
        self.things = self.things.wrapping_add(1);
        self.sum = self.sum.wrapping_add(key).wrapping_add(value);
    }
}

/// What a phase took at least, and what it did.
#[derive(Clone, Copy)]
struct Taken {
    least: Duration,
    done: Done,
}

/// How many keys there are, two lists of updates, and the pairs of the keys by rising key.
#[derive(Clone, Copy)]
struct Work<'a> {
    n: u64,
    first: &'a [Update],
    second: &'a [Update],
    pairs: &'a [(u64, u64)],
}

/// The map of most phases, one whose least keys are taken, and one that is taken from at both ends.
#[derive(Drop)]
struct Maps {
    map: LogMap,
    queue: LogMap,
    deque: LogMap,
}

/// Goes through all phases three times, each time on a new map.
///
/// Puts N keys, one by one (`put`); asks for N of them (`hit`), for N others (`miss`), for those
/// that are there by 16 and by 1000 at once (`many16`, `many1000`), and for the least key from each
/// of N numbers on (`next`); takes the hundred pairs from each of N/10 numbers on (`range`), goes
/// over all pairs by 1024 at once (`walk`) and one by one from the greatest down (`back`), and
/// counts some hundred keys N/10 times (`count`). Puts N/2 further keys and deletes N/2 keys, in
/// turn (`mixed`), and asks so once more (`next2`, `range2`, `walk2`, `count2`). Does as many puts
/// and deletions again by lists of 1000 (`apply`), and asks (`next3`). Gives the map up (`drop`),
/// makes one of the N sorted pairs (`load`), goes over it (`walk3`), sweeps the lower half of all
/// numbers (`sweep`), and asks for the least key N times (`first`). Of a map of up to a million
/// keys takes the least key (`pop_first`) until none is left (`take`), and of another one the least
/// and the greatest in turn (`ends`).
pub fn run<R: AllocGlobal + Print + Clock + Threads + Sync>(
    rt: &R,
    words: &[String],
) -> Result<()> {
    match words {
        [n] => {
            let n = number(n.as_str(), "the number of keys")?;
            ensure!(1 <= n && n <= 1 << 24, "there are 1 to 2^24 keys");
            time_all(rt, u64::from(n))
        }
        _ => bail!("usage: bench map N"),
    }
}

/// Times all phases, and prints nanoseconds of each thing that is done.
fn time_all<R: AllocGlobal + Print + Clock + Threads + Sync>(rt: &R, n: u64) -> Result<()> {
    let first = updates(rt.alloc(), n, n, 5)?;
    let second = updates(rt.alloc(), n, n.wrapping_add(n), 6)?;
    let pairs = sorted_pairs(rt.alloc(), n)?;
    let work = Work {
        n,
        first: &first,
        second: &second,
        pairs: &pairs,
    };
    let mut taken = [Taken {
        least: Duration::MAX,
        done: Done { things: 0, sum: 0 },
    }; PHASES];
    for _ in 0..ROUNDS {
        one_round(rt, &work, &mut taken)?;
    }
    tell(rt, &taken)
}

fn tell<R: Print>(rt: &R, taken: &[Taken; PHASES]) -> Result<()> {
    for k in 0..PHASES {
        let (name, _) = NAMED[k];
        let Taken { least, done } = taken[k];
        let each = nanos_each(least, done.things as usize);
        println!(rt; "{name} {each:.1} checksum {}", done.sum)?;
    }
    Ok(())
}

/// Goes through all phases on a new map.
fn one_round<R: AllocGlobal + Clock + Threads + Sync>(
    rt: &R,
    work: &Work<'_>,
    taken: &mut [Taken; PHASES],
) -> Result<()> {
    let mut maps = Maps {
        map: LogMap::new(rt.alloc(), LEVELS)?,
        queue: LogMap::of_sorted(rt.alloc(), LEVELS, least_pairs(work.pairs))?,
        deque: LogMap::of_sorted(rt.alloc(), LEVELS, least_pairs(work.pairs))?,
    };
    for k in 0..PHASES {
        let (_, phase) = NAMED[k];
        let start = Instant::now(rt)?;
        let done = go_through(rt, rt.alloc(), &mut maps, phase, work)?;
        let least = taken[k].least.min(start.elapsed(rt)?);
        taken[k] = Taken { least, done };
    }
    Ok(())
}

/// Does what a phase does.
fn go_through<R: Threads + Sync>(
    rt: &R,
    alloc: Global,
    maps: &mut Maps,
    phase: Phase,
    work: &Work<'_>,
) -> Result<Done> {
    let Maps { map, queue, deque } = maps;
    match phase {
        Phase::Put => Ok(put_all(alloc, map, work.n)?),
        Phase::Hit => Ok(sum_of_hits(map, work.n)),
        Phase::Miss => Ok(sum_of_misses(map, work.n)),
        Phase::Many(many) => Ok(sum_of_many(map, work.n, many)),
        Phase::Next(stream) => Ok(sum_of_nexts(map, work.n, stream)),
        Phase::Range(stream) => Ok(sum_of_ranges(map, work.n, stream)),
        Phase::Walk => Ok(walk_all(map)),
        Phase::Back => Ok(walk_back(map)),
        Phase::Count(stream) => Ok(sum_of_counts(map, work.n, stream)),
        Phase::Mixed => Ok(update_each(alloc, map, work.first)?),
        Phase::Apply => Ok(apply_all(rt, alloc, map, work.second)?),
        Phase::GiveUp => Ok(empty(alloc, map, work.n)?),
        Phase::Load => Ok(load(alloc, map, work.pairs)?),
        Phase::Sweep => Ok(sweep(alloc, map)?),
        Phase::First => Ok(sum_of_firsts(map, work.n)),
        Phase::Take => Ok(take_all(alloc, queue, false)?),
        Phase::Ends => Ok(take_all(alloc, deque, true)?),
    }
}

/// A number of 64 bits for each, no two the same: splitmix64 (Steele, Lea and Flood 2014).
#[inline(always)]
fn scattered(number: u64) -> u64 {
    let word = number.wrapping_add(1).wrapping_mul(0x9E37_79B9_7F4A_7C15);
    let word = (word ^ (word >> 30)).wrapping_mul(0xBF58_476D_1CE4_E5B9);
    let word = (word ^ (word >> 27)).wrapping_mul(0x94D0_49BB_1331_11EB);
    word ^ (word >> 31)
}

/// A number of a stream.
#[inline(always)]
fn drawn(stream: u64, number: u64) -> u64 {
    scattered(stream.wrapping_mul(STREAM).wrapping_add(number))
}

/// One of the first `n` keys, which are fewer than 2^32.
#[inline(always)]
fn some_key(n: u64, word: u64) -> u64 {
    scattered((word >> 32).wrapping_mul(n) >> 32)
}

/// Puts of keys from a number on and deletions of the first `n`, in turn, `n` in all.
fn updates(alloc: Global, n: u64, from: u64, stream: u64) -> Result<Vec<Update>, AllocError> {
    let mut updates = Vec::new(alloc);
    for i in 0..n {
        let update = if i % 2 == 0 {
            Update::Put(scattered(from.wrapping_add(i)), i)
        } else {
            Update::Del(some_key(n, drawn(stream, i)))
        };
        updates.push(update)?;
    }
    Ok(updates)
}

/// The first `n` keys with their numbers, by rising key.
fn sorted_pairs(alloc: Global, n: u64) -> Result<Vec<(u64, u64)>, AllocError> {
    let mut pairs = Vec::new(alloc);
    for i in 0..n {
        pairs.push((scattered(i), i))?;
    }
    pairs.sort_unstable();
    Ok(pairs)
}

/// The first of the pairs, up to a million.
fn least_pairs(pairs: &[(u64, u64)]) -> &[(u64, u64)] {
    let many = TAKEN.min(pairs.len());
    &pairs[..many]
}

fn put_all(alloc: Global, map: &mut LogMap, n: u64) -> Result<Done, MapFault> {
    for i in 0..n {
        map.put(alloc, scattered(i), i)?;
    }
    Ok(Done { things: n, sum: 0 })
}

/// The sum of the values.
fn sum_of_hits(map: &LogMap, n: u64) -> Done {
    let mut sum = 0u64;
    for i in 0..n {
        let value = map.get(some_key(n, drawn(1, i)));
        sum = sum.wrapping_add(value.unwrap_or(0));
    }
    Done { things: n, sum }
}

/// One for each key that isn't there.
fn sum_of_misses(map: &LogMap, n: u64) -> Done {
    let mut sum = 0u64;
    for i in 0..n {
        let value = map.get(drawn(7, i));
        sum = sum.wrapping_add(value.unwrap_or(1));
    }
    Done { things: n, sum }
}

/// The sum of the values of the same keys as of [`sum_of_hits`], so many at once.
fn sum_of_many(map: &LogMap, n: u64, many: u64) -> Done {
    let mut keys = [0u64; AT_ONCE];
    let mut values = [None; AT_ONCE];
    let mut sum = 0u64;
    let many = many.clamp(1, AT_ONCE as u64);
    for block in 0..n.div_ceil(many) {
        let from = block.wrapping_mul(many);
        let here = many.min(n.saturating_sub(from)) as usize;
        for k in 0..here {
            keys[k] = some_key(n, drawn(1, from.wrapping_add(k as u64)));
        }
        map.get_many(&keys[..here], &mut values[..here]);
        for value in &values[..here] {
            sum = sum.wrapping_add(value.unwrap_or(0));
        }
    }
    Done { things: n, sum }
}

/// The sum of the keys and values.
fn sum_of_nexts(map: &LogMap, n: u64, stream: u64) -> Done {
    let mut sum = 0u64;
    for i in 0..n {
        let (key, value) = map.next(drawn(stream, i)).unwrap_or((0, 0));
        sum = sum.wrapping_add(key).wrapping_add(value);
    }
    Done { things: n, sum }
}

/// The sum of the keys and values of the hundred pairs from each number on.
fn sum_of_ranges(map: &LogMap, n: u64, stream: u64) -> Done {
    let mut pairs = [(0u64, 0u64); RANGE];
    let mut sum = 0u64;
    let things = n.div_ceil(10);
    for i in 0..things {
        let many = map.range(drawn(stream, i), u64::MAX, &mut pairs);
        sum = sum.wrapping_add(sum_of(&pairs[..many]));
    }
    Done { things, sum }
}

/// The sum of all keys and values, by blocks.
fn walk_all(map: &LogMap) -> Done {
    let mut pairs = [(0u64, 0u64); BLOCK];
    let mut done = Done { things: 0, sum: 0 };
    let mut from = 0;
    for _ in 0..map.accepted() / BLOCK as u64 + 1 {
        let many = map.range(from, u64::MAX, &mut pairs);
        done.things = done.things.wrapping_add(many as u64);
        done.sum = done.sum.wrapping_add(sum_of(&pairs[..many]));
        let (last, _) = pairs[BLOCK - 1];
        if many < BLOCK || last == u64::MAX {
            return done;
        }
        from = last + 1;
    }
    done
}

/// The sum of all keys and values, from the greatest key down.
fn walk_back(map: &LogMap) -> Done {
    let mut done = Done { things: 0, sum: 0 };
    let mut pairs = map.pairs(0, u64::MAX);
    for _ in 0..map.accepted() {
        let Some((key, value)) = pairs.next_back() else {
            return done;
        };
        done.add(key, value);
    }
    done
}

fn sum_of(pairs: &[(u64, u64)]) -> u64 {
    let mut sum = 0u64;
    for (key, value) in pairs {
        sum = sum.wrapping_add(*key).wrapping_add(*value);
    }
    sum
}

/// The sum of how many keys there are from each number on, up to one behind which a hundred would
/// be if all keys were even.
fn sum_of_counts(map: &LogMap, n: u64, stream: u64) -> Done {
    let step = u64::MAX.checked_div(n).unwrap_or(0);
    let width = step.saturating_mul(RANGE as u64);
    let mut sum = 0u64;
    let things = n.div_ceil(10);
    for i in 0..things {
        let low = drawn(stream, i);
        sum = sum.wrapping_add(map.count(low, low.saturating_add(width)));
    }
    Done { things, sum }
}

fn update_each(alloc: Global, map: &mut LogMap, updates: &[Update]) -> Result<Done, MapFault> {
    for update in updates {
        match *update {
            Update::Put(key, value) => map.put(alloc, key, value)?,
            Update::Del(key) => map.del(alloc, key)?,
            Update::Sweep(..) => {}
        }
    }
    Ok(Done {
        things: updates.len() as u64,
        sum: 0,
    })
}

fn apply_all<R: Threads + Sync>(
    rt: &R,
    alloc: Global,
    map: &mut LogMap,
    updates: &[Update],
) -> Result<Done, MapFault> {
    for batch in updates.chunks(BATCH) {
        map.apply(rt, alloc, batch, Workers { count: 1 }, &OpenGate)?;
    }
    Ok(Done {
        things: updates.len() as u64,
        sum: 0,
    })
}

/// Gives up a map of so many keys, for an empty one.
fn empty(alloc: Global, map: &mut LogMap, n: u64) -> Result<Done, NoMemory> {
    *map = LogMap::new(alloc, LEVELS)?;
    Ok(Done { things: n, sum: 0 })
}

/// Makes a map of sorted pairs, in place of an empty one.
fn load(alloc: Global, map: &mut LogMap, pairs: &[(u64, u64)]) -> Result<Done, LoadFault> {
    *map = LogMap::of_sorted(alloc, LEVELS, pairs)?;
    Ok(Done {
        things: pairs.len() as u64,
        sum: 0,
    })
}

/// How many keys of the lower half there were, taken out.
fn sweep(alloc: Global, map: &mut LogMap) -> Result<Done, MapFault> {
    let many = map.sweep(alloc, 0, MIDDLE)?;
    Ok(Done {
        things: many,
        sum: many,
    })
}

/// The sum of the least key and its value, asked for so many times.
fn sum_of_firsts(map: &LogMap, n: u64) -> Done {
    let mut done = Done { things: 0, sum: 0 };
    for _ in 0..n {
        let (key, value) = map.first().unwrap_or((0, 0));
        done.add(key, value);
    }
    done
}

/// The sum of the keys and values, the least one taken each time, or the least and the greatest in
/// turn, until none is left.
fn take_all(alloc: Global, map: &mut LogMap, both: bool) -> Result<Done, MapFault> {
    let mut done = Done { things: 0, sum: 0 };
    for i in 0..map.accepted() {
        let Some((key, value)) = take_one(alloc, map, both && i % 2 == 1)? else {
            break;
        };
        done.add(key, value);
    }
    Ok(done)
}

fn take_one(
    alloc: Global,
    map: &mut LogMap,
    greatest: bool,
) -> Result<Option<(u64, u64)>, MapFault> {
    if greatest {
        map.pop_last(alloc)
    } else {
        map.pop_first(alloc)
    }
}
