// Times lookups over keys that stay where they are: `bench hints KEYS QUERIES EPS`.
ghost use Rattle.std.specs.Prelude.{◌≤◌};

use crate::lookups::{Asked, ask};
use crate::shared::{bytes_of, error_bound, hints_for, keys_of, questions_of};
use anyhow::{Result, bail};
use exact_cross::MAX_EPSILON;
use hints::{position, positions};
use std::alloc::{AllocError, Global};
use std::rt::{Clock, Files};

/// How many questions are asked in the same room.
const ROOM: usize = 1024;

/// Keys that stay where they are, and hints that say where to look first.
#[derive(Clone, Copy)]
struct Hinted<'a> {
    keys: &'a [u64],
    hints: &'a [u64],
}

impl<'a> Asked for Hinted<'a> {
    #[inline(always)]
    fn position(&self, q: u64) -> u64 {
        position(self.keys, self.hints, q) as u64
    }

    fn sum_together(&self, _alloc: Global, questions: &[u64]) -> Result<u64, AllocError> {
        let mut places = [0usize; ROOM];
        let mut sum = 0u64;
        for few in questions.chunks(ROOM) {
            positions(self.keys, self.hints, few, &mut places);
            for k in 0..few.len().min(ROOM) {
                sum = sum.wrapping_add(places[k] as u64);
            }
        }
        Ok(sum)
    }
}

/// Times lookups over the keys of a file by the questions of another, first with the hints of the
/// keys, and then with those of the questions, which lead anywhere.
///
/// Both files are a 64-bit count and numbers of 64 bits, little-endian; those of the key file never
/// fall.
pub fn run<R: AllocGlobal + Files + Print + Clock>(rt: &R, words: &[String]) -> Result<()> {
    match words {
        [keys, questions, eps] => {
            let eps = error_bound(eps.as_str())?;
            let keys = keys_of(rt, keys.as_str())?;
            let questions = questions_of(rt, questions.as_str())?;
            println!(rt; "keys {} questions {}", keys.len(), questions.len())?;
            ask_by_hints(rt, &keys, &questions, eps)
        }
        _ => bail!("usage: bench hints KEYS QUERIES EPS"),
    }
}

/// Asks all questions with the hints of the keys, and with those of the questions.
fn ask_by_hints<R: AllocGlobal + Print + Clock>(
    rt: &R,
    keys: &[u64],
    questions: &[u64],
    eps: u32,
) -> Result<()>
    requires { eps ≤ MAX_EPSILON }
{
    let hints = told_hints(rt, "own", keys, eps)?;
    let hinted = Hinted {
        keys,
        hints: &hints,
    };
    ask(rt, &hinted, questions)?;
    let others = sorted(rt.alloc(), questions)?;
    let hints = told_hints(rt, "other", &others, eps)?;
    let hinted = Hinted {
        keys,
        hints: &hints,
    };
    ask(rt, &hinted, questions)
}

fn sorted(alloc: Global, questions: &[u64]) -> Result<Vec<u64>, AllocError> {
    let mut sorted = Vec::with_capacity(alloc, questions.len())?;
    sorted.extend_from_slice(questions)?;
    sorted.sort_unstable();
    Ok(sorted)
}

/// The hints of keys. Prints how many lines and bytes they are, and the seconds of making them.
fn told_hints<R: AllocGlobal + Print + Clock>(
    rt: &R,
    whose: &str,
    keys: &[u64],
    eps: u32,
) -> Result<Vec<u64>>
    requires { eps ≤ MAX_EPSILON }
{
    let (hints, building) = hints_for(rt, keys, eps)?;
    let (lines, bytes) = (hints.get(2).copied().unwrap_or(0), bytes_of(&hints));
    println!(rt; "hints {whose} lines {lines} bytes {bytes} build {building}")?;
    Ok(hints)
}
