// Times readers of a map beside its writer: `bench read KEYS LOOKS`.
ghost use Rattle.std.specs.Prelude.{◌≤◌};
ghost use Rattle.options.specs.declared.map.TheConstants.{MAX_READERS};

use crate::shared::number;
use anyhow::{Result, bail, ensure};
use edge::OpenGate;
use log_levels::Update;
use options::Workers;
use published::{Reader, Writer, start_map};
use std::alloc::{AllocError, Global};
use std::rt::Clock;
use std::sync::Wait;
use std::sync::atomic::{AtomicBool, Ordering};
use std::thread;
use std::thread::Threads;
use std::time::{Duration, Instant};

/// How many levels the map has: it can accept `64 * 2^20 - 1` entries.
const LEVELS: u32 = 20;

/// How many updates the writer publishes at once beside the readers.
const BATCH: usize = 16;

/// How many updates are staged at once to fill the map.
const FILL: u64 = 65536;

/// How many keys there are, and how often each reader looks.
#[derive(Clone, Copy)]
struct Work {
    keys: u64,
    looks: u32,
}

/// A reader that has looked, and what it came to.
#[derive(Drop)]
struct Looked {
    reader: Reader,
    looks: Looks,
}

/// The sum of the values, how many looks were refused, and the longest time of one.
#[derive(Clone, Copy)]
struct Looks {
    sum: u64,
    refused: u64,
    longest: Duration,
}

/// Has one, two and four readers look at a map of so many keys, first while the writer is still and
/// then while it publishes batches without pause.
pub fn run<R: AllocGlobal + Print + Clock + Threads + Wait + Sync>(
    rt: &R,
    words: &[String],
) -> Result<()> {
    match words {
        [keys, looks] => {
            let keys = u64::from(number(keys.as_str(), "the number of keys")?);
            let looks = number(looks.as_str(), "the number of looks")?;
            ensure!(0 < keys, "there is no key");
            let work = Work { keys, looks };
            for readers in [1u32, 2, 4] {
                with_readers(rt, readers, work)?;
            }
            Ok(())
        }
        _ => bail!("usage: bench read KEYS LOOKS"),
    }
}

/// Starts a map, and measures so many readers of it.
fn with_readers<R: AllocGlobal + Print + Clock + Threads + Wait + Sync>(
    rt: &R,
    readers: u32,
    work: Work,
) -> Result<()>
    requires { readers ≤ MAX_READERS }
{
    let (mut writer, seats) = start_map(rt, rt.alloc(), LEVELS, readers)?;
    let done = measure(rt, &mut writer, seats, work);
    writer.close(rt);
    done
}

/// Fills the map, and measures with the writer still and with it publishing.
fn measure<R: AllocGlobal + Print + Clock + Threads + Wait + Sync>(
    rt: &R,
    writer: &mut Writer,
    seats: Vec<Reader>,
    work: Work,
) -> Result<()> {
    fill(rt, rt.alloc(), writer, work.keys)?;
    let seats = measure_one(rt, writer, seats, work, false)?;
    let _seats = measure_one(rt, writer, seats, work, true)?;
    Ok(())
}

/// Measures with the writer still or publishing, prints that, and gives the readers again.
fn measure_one<R: AllocGlobal + Print + Clock + Threads + Wait + Sync>(
    rt: &R,
    writer: &mut Writer,
    seats: Vec<Reader>,
    work: Work,
    writing: bool,
) -> Result<Vec<Reader>> {
    let start = Instant::now(rt)?;
    let (looked, batches) = round(rt, rt.alloc(), writer, seats, work, writing, false)?;
    let taken = start.elapsed(rt)?;
    let looks = together(&looked);
    tell_rate(rt, looked.len(), work, writing, taken, batches)?;
    let seats = readers_of(rt.alloc(), looked)?;
    let (timed, _) = round(rt, rt.alloc(), writer, seats, work, writing, true)?;
    tell_looks(rt, looks, together(&timed).longest)?;
    Ok(readers_of(rt.alloc(), timed)?)
}

/// Prints millions of looks a second.
fn tell_rate<R: Print>(
    rt: &R,
    readers: usize,
    work: Work,
    writing: bool,
    taken: Duration,
    batches: u64,
) -> Result<()> {
    let readers = u32::try_from(readers).unwrap_or(0);
    let all = f64::from(readers) * f64::from(work.looks);
    let rate = all / taken.as_secs_f64() / 1e6;
    println!(rt; "readers {readers} writing {writing} looks {rate:.2} batches {batches}")?;
    Ok(())
}

fn tell_looks<R: Print>(rt: &R, looks: Looks, longest: Duration) -> Result<()> {
    let Looks { sum, refused, .. } = looks;
    let micros = longest.as_secs_f64() * 1e6;
    println!(rt; "  refused {refused} longest {micros:.1} sum {sum}")?;
    Ok(())
}

/// Publishes the keys below `keys`, each with itself for its value.
fn fill<R: Threads + Wait + Sync>(
    rt: &R,
    alloc: Global,
    writer: &mut Writer,
    keys: u64,
) -> Result<()> {
    for part in 0..keys.div_ceil(FILL) {
        let from = part.saturating_mul(FILL);
        fill_part(rt, alloc, writer, from, keys.min(from.saturating_add(FILL)))?;
    }
    Ok(())
}

fn fill_part<R: Threads + Wait + Sync>(
    rt: &R,
    alloc: Global,
    writer: &mut Writer,
    from: u64,
    to: u64,
) -> Result<()> {
    let updates = puts(alloc, from, to)?;
    let staged = writer
        .stage(rt, alloc, &updates, Workers { count: 4 }, &OpenGate)
        .is_ok();
    ensure!(staged, "the keys don't fit");
    writer.publish(rt)?;
    Ok(())
}

fn puts(alloc: Global, from: u64, to: u64) -> Result<Vec<Update>, AllocError> {
    let mut updates = Vec::new(alloc);
    for key in from..to {
        updates.push(Update::Put(key, key))?;
    }
    Ok(updates)
}

/// All readers look, in threads of their own, and the writer publishes beside them or is still.
/// Answers what they leave and how many batches were published.
fn round<R: Clock + Threads + Wait + Sync>(
    rt: &R,
    alloc: Global,
    writer: &mut Writer,
    seats: Vec<Reader>,
    work: Work,
    writing: bool,
    timed: bool,
) -> Result<(Vec<Looked>, u64), AllocError> {
    let done = AtomicBool::new(!writing);
    let flag = &done;
    let (looked, batches) = thread::join(
        rt,
        || {
            let looked = thread::map_vec(
                rt,
                seats,
                &|reader| { look_all(rt, reader, work, timed) },
            );
            flag.store(true, Ordering::SeqCst);
            looked
        },
        || publish_on(rt, alloc, writer, work.keys, flag),
    );
    Ok((looked?, batches))
}

/// Publishes batches until it is told that all is done, and answers how many.
fn publish_on<R: Threads + Wait + Sync>(
    rt: &R,
    alloc: Global,
    writer: &mut Writer,
    keys: u64,
    done: &AtomicBool,
) -> u64 {
    let mut batches = 0u64;
    for turn in 0..u64::MAX {
        if done.load(Ordering::SeqCst) {
            break;
        }
        if publish_batch(rt, alloc, writer, scattered(turn, keys)) {
            batches = batches.saturating_add(1);
        }
    }
    batches
}

/// Puts a key so often, and tells whether that was published.
fn publish_batch<R: Threads + Wait + Sync>(
    rt: &R,
    alloc: Global,
    writer: &mut Writer,
    key: u64,
) -> bool {
    let batch = [Update::Put(key, key); BATCH];
    let workers = Workers { count: 1 };
    writer.stage(rt, alloc, &batch, workers, &OpenGate).is_ok() && writer.publish(rt).is_ok()
}

/// One of the keys, by the number of a turn.
fn scattered(turn: u64, keys: u64) -> u64 {
    let word = turn.wrapping_mul(0x9E37_79B9_7F4A_7C15);
    word.checked_rem(keys).unwrap_or(0)
}

/// Looks so often, each time at one key.
fn look_all<R: Clock>(rt: &R, reader: Reader, work: Work, timed: bool) -> Looked {
    let mut reader = reader;
    let (mut sum, mut refused, mut longest) = (0u64, 0u64, Duration::ZERO);
    for turn in 0..work.looks {
        let start = if timed { Instant::now(rt).ok() } else { None };
        let key = scattered(u64::from(turn), work.keys);
        let (back, value) = look_at(reader, key, &mut refused);
        reader = back;
        sum = sum.wrapping_add(value);
        longest = longest.max(time_since(rt, start));
    }
    let looks = Looks {
        sum,
        refused,
        longest,
    };
    Looked { reader, looks }
}

/// Looks at a key, and gives its value, or 0 where the look was refused, which it counts.
#[inline(always)]
fn look_at(reader: Reader, key: u64, refused: &mut u64) -> (Reader, u64) {
    match reader.look(refused) {
        Ok(look) => {
            let value = look.get(key).unwrap_or(0);
            (look.leave(), value)
        }
        Err(back) => (back, 0),
    }
}

#[inline(always)]
fn time_since<R: Clock>(rt: &R, start: Option<Instant>) -> Duration {
    match start {
        Some(start) => start.elapsed(rt).unwrap_or(Duration::ZERO),
        None => Duration::ZERO,
    }
}

/// What the readers came to together.
fn together(looked: &[Looked]) -> Looks {
    let (mut sum, mut refused, mut longest) = (0u64, 0u64, Duration::ZERO);
    for one in looked {
        sum = sum.wrapping_add(one.looks.sum);
        refused = refused.saturating_add(one.looks.refused);
        longest = longest.max(one.looks.longest);
    }
    Looks {
        sum,
        refused,
        longest,
    }
}

/// The readers again.
fn readers_of(alloc: Global, looked: Vec<Looked>) -> Result<Vec<Reader>, AllocError> {
    let mut readers = Vec::with_capacity(alloc, looked.len())?;
    for one in looked {
        readers.push(one.reader)?;
    }
    Ok(readers)
}
