// Times an index: `bench lookup KEYS QUERIES EPS [BITS]`.
ghost use Rattle.std.specs.Prelude.{◌≤◌};

use crate::shared::{ROUNDS, error_bound, keys_of, least_of, nanos_each, number, questions_of};
use anyhow::{Result, bail, ensure};
use bucketed::Buckets;
use exact_cross::MAX_EPSILON;
use levels::{Index, Keys};
use options::{Bounds, EPS_REC, MAX_BITS};
use std::alloc::{AllocError, Global};
use std::rt::{Clock, Files};
use std::time::{Duration, Instant};

/// What is asked for positions.
pub trait Asked {
    /// How many keys are below the question.
    fn position(&self, q: u64) -> u64;

    /// The sum of the positions of many questions, whose searches are interleaved.
    fn sum_together(&self, alloc: Global, questions: &[u64]) -> Result<u64, AllocError>;
}

impl Asked for Index {
    #[inline(always)]
    fn position(&self, q: u64) -> u64 {
        u64::from(Index::position(self, q))
    }

    fn sum_together(&self, alloc: Global, questions: &[u64]) -> Result<u64, AllocError> {
        let mut positions = Vec::with_capacity(alloc, questions.len())?;
        Index::positions(self, questions, &mut positions);
        Ok(sum_of(&positions))
    }
}

impl<'a> Asked for Buckets<'a> {
    #[inline(always)]
    fn position(&self, q: u64) -> u64 {
        u64::from(Buckets::position(self, q))
    }

    fn sum_together(&self, alloc: Global, questions: &[u64]) -> Result<u64, AllocError> {
        let mut positions = Vec::with_capacity(alloc, questions.len())?;
        Buckets::positions(self, questions, &mut positions);
        Ok(sum_of(&positions))
    }
}

fn sum_of(positions: &[u32]) -> u64 {
    let mut sum = 0u64;
    for position in positions {
        sum = sum.wrapping_add(u64::from(*position));
    }
    sum
}

/// Times an index over the keys of a file by the questions of another, and a table over it where
/// its bits are told.
///
/// Both files are a 64-bit count and numbers of 64 bits, little-endian; those of the key file never
/// fall.
pub fn run<R: AllocGlobal + Files + Print + Clock>(rt: &R, words: &[String]) -> Result<()> {
    match words {
        [keys, questions, eps] => {
            let eps = error_bound(eps.as_str())?;
            let index = index_of(rt, keys.as_str(), eps)?;
            let questions = questions_for(rt, &index, questions.as_str())?;
            ask(rt, &index, &questions)
        }
        [keys, questions, eps, bits] => {
            let eps = error_bound(eps.as_str())?;
            let bits = number(bits.as_str(), "the bits")?;
            let index = index_of(rt, keys.as_str(), eps)?;
            let questions = questions_for(rt, &index, questions.as_str())?;
            ask(rt, &index, &questions)?;
            ask_bucketed(rt, &index, bits, &questions)
        }
        _ => bail!("usage: bench lookup KEYS QUERIES EPS [BITS]"),
    }
}

/// Reads the keys and builds their index, and prints how long either takes.
fn index_of<R: AllocGlobal + Files + Print + Clock>(rt: &R, name: &str, eps: u32) -> Result<Index>
    requires { eps ≤ MAX_EPSILON }
{
    let start = Instant::now(rt)?;
    let keys = keys_of(rt, name)?;
    let reading = start.elapsed(rt)?.as_secs_f64();
    let start = Instant::now(rt)?;
    let keys = Keys::of(keys);
    let bounds = Bounds {
        eps,
        eps_rec: EPS_REC,
    };
    let index = Index::of(rt.alloc(), keys, bounds)?;
    let building = start.elapsed(rt)?.as_secs_f64();
    println!(rt; "read {reading}\nbuild {building}")?;
    Ok(index)
}

/// The questions of a file, whose number is printed with those of keys and levels.
fn questions_for<R: AllocGlobal + Files + Print>(
    rt: &R,
    index: &Index,
    name: &str,
) -> Result<Vec<u64>> {
    let questions = questions_of(rt, name)?;
    let (keys, levels, many) = (index.keys().len(), index.level_count(), questions.len());
    println!(rt; "keys {keys} levels {levels} questions {many}")?;
    Ok(questions)
}

/// Makes a table over the index, and asks it.
fn ask_bucketed<R: AllocGlobal + Print + Clock>(
    rt: &R,
    index: &Index,
    bits: u32,
    questions: &[u64],
) -> Result<()> {
    ensure!(
        1 <= bits && bits <= MAX_BITS,
        "the bits are 1 to {MAX_BITS}"
    );
    let start = Instant::now(rt)?;
    let buckets = Buckets::build(rt.alloc(), index, bits)?;
    let building = start.elapsed(rt)?.as_secs_f64();
    println!(rt; "bits {bits} table {building}")?;
    ask(rt, &buckets, questions)
}

/// Asks all questions in three ways, and prints what each took.
pub fn ask<R: AllocGlobal + Print + Clock, A: Asked>(
    rt: &R,
    asked: &A,
    questions: &[u64],
) -> Result<()> {
    let (alone, sum) = least_of(rt, ROUNDS, || Ok(sum_alone(asked, questions)))?;
    let (chained, sum_of_chain) = least_of(rt, ROUNDS, || Ok(sum_chained(asked, questions)))?;
    let (together, sum_of_all) = least_of(
        rt,
        ROUNDS,
        || Ok(asked.sum_together(rt.alloc(), questions)?),
    )?;
    ensure!(
        sum == sum_of_chain && sum == sum_of_all,
        "the three ways differ"
    );
    println!(rt; "checksum {sum}")?;
    tell(rt, "alone", alone, questions.len())?;
    tell(rt, "chained", chained, questions.len())?;
    tell(rt, "together", together, questions.len())
}

fn tell<R: Print>(rt: &R, way: &str, taken: Duration, questions: usize) -> Result<()> {
    let each = nanos_each(taken, questions);
    println!(rt; "{way} {each:.0}")?;
    Ok(())
}

fn sum_alone<A: Asked>(asked: &A, questions: &[u64]) -> u64 {
    let mut sum = 0u64;
    for question in questions {
        sum = sum.wrapping_add(asked.position(*question));
    }
    sum
}

/// Each question waits for the last answer.
fn sum_chained<A: Asked>(asked: &A, questions: &[u64]) -> u64 {
    // A mask that no compiler knows to be 0: it ties a question to the last answer.
    let mask = u64::from(questions.len() > 1 << 40);
    let mut sum = 0u64;
    let mut last = 0;
    for question in questions {
        last = asked.position(*question ^ (last & mask));
        sum = sum.wrapping_add(last);
    }
    sum
}
