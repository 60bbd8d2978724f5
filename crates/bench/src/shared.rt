// What two commands or more say.
ghost use Rattle.std.specs.Prelude.{◌≤◌, ◌<◌, ◌^◌, IfOk, vec_len};
ghost use Rattle.std.specs.List.Sorted.{IsNonDecreasing};

use anyhow::{Context, Result, ensure};
use byteorder::{ByteOrder, LittleEndian};
use edge::{FileShelf, Shelf};
use exact_cross::MAX_EPSILON;
use hints::hints_of;
use key_points::KeysFault;
use sosd_reader::read_keys;
use std::alloc::{AllocError, Global};
use std::fs;
use std::rt::{Clock, Files};
use std::time::{Duration, Instant};

/// How often a thing is timed, where nothing else is said.
pub const ROUNDS: u32 = 3;

/// The number that a word is.
pub fn number(word: &str, what: &'static str) -> Result<u32> {
    word.parse::<u32>().context(what)
}

/// The error bound that a word is.
pub fn error_bound(word: &str) -> Result<u32>
    ensures { IfOk result (λ eps. eps ≤ MAX_EPSILON) }
{
    let eps = number(word, "the error bound")?;
    ensure!(
        eps <= MAX_EPSILON,
        "the error bound is at most {MAX_EPSILON}"
    );
    Ok(eps)
}

/// The 64-bit keys of a file.
pub fn keys_of<R: AllocGlobal + Files>(rt: &R, name: &str) -> Result<Vec<u64>>
    ensures never_falls { IfOk result (λ keys. IsNonDecreasing keys.items) }
    ensures few { IfOk result (λ keys. vec_len keys < 2 ^ 32) }
{
    let mut files = FileShelf::new(rt);
    ensure!(files.take_file(name).is_ok(), "the key file isn't there");
    Ok(read_keys(rt.alloc(), &mut files, true)?)
}

/// The numbers of a file of questions: those after its count.
pub fn questions_of<R: AllocGlobal + Files>(rt: &R, name: &str) -> Result<Vec<u64>> {
    let bytes = fs::read(rt, name)?;
    Ok(numbers_in(rt.alloc(), &bytes)?)
}

fn numbers_in(alloc: Global, bytes: &[u8]) -> Result<Vec<u64>, AllocError> {
    let mut numbers = Vec::with_capacity(alloc, bytes.len() / 8)?;
    for number in bytes.chunks_exact(8).skip(1) {
        numbers.push(LittleEndian::read_u64(number))?;
    }
    Ok(numbers)
}

/// The hints of keys, and the least seconds of making them.
pub fn hints_for<R: AllocGlobal + Clock>(rt: &R, keys: &[u64], eps: u32) -> Result<(Vec<u64>, f64)>
    requires { eps ≤ MAX_EPSILON }
{
    let mut least = Duration::MAX;
    for _ in 0..ROUNDS {
        let start = Instant::now(rt)?;
        make_and_drop(rt.alloc(), keys, eps)?;
        least = least.min(start.elapsed(rt)?);
    }
    let hints = hints_of(rt.alloc(), keys, eps)?;
    Ok((hints, least.as_secs_f64()))
}

fn make_and_drop(alloc: Global, keys: &[u64], eps: u32) -> Result<(), KeysFault>
    requires { eps ≤ MAX_EPSILON }
{
    let _hints = hints_of(alloc, keys, eps)?;
    Ok(())
}

/// How many bytes numbers of 64 bits take.
pub fn bytes_of(numbers: &[u64]) -> usize {
    numbers.len().saturating_mul(8)
}

/// Does a work so often, and gives the least time of one and what the last one came to.
pub fn least_of<R: Clock, T: Copy + Default, F: FnMut() -> Result<T>>(
    rt: &R,
    rounds: u32,
    mut work: F,
) -> Result<(Duration, T)>
    requires { F.IsAlwaysCallable work }
{
    let mut least = Duration::MAX;
    let mut last = T::default();
    for _ in 0..rounds {
        let start = Instant::now(rt)?;
        last = work()?;
        least = least.min(start.elapsed(rt)?);
    }
    Ok((least, last))
}

/// Nanoseconds that each of so many things took.
pub fn nanos_each(taken: Duration, many: usize) -> f64 {
    let many = u32::try_from(many).unwrap_or(u32::MAX).max(1);
    taken.as_secs_f64() * 1e9 / f64::from(many)
}
