// Where a key stands in a level, nearly, where the level's keys are even.
ghost use Rattle.std.specs.Prelude.{◌<◌, ◌≤◌, ◌^◌, length};

use crate::filter::WORDS;
use budget::NoMemory;
use std::alloc::Global;

/// So many keys a step has in the mean.
const KEYS_A_STEP: usize = 8;

/// Of so many keys the last one is counted, so that a count is up to three too low.
const COUNT_EACH: usize = 4;

/// How far before the place that is told for a key the look for it begins: half of its places, less
/// what counts are too low in the mean.
const ENTRIES_BEFORE: u64 = 2;

/// A step with more keys is crowded.
const UNCROWDED_TO: u32 = 16;

/// How keys from the least one on are cut into steps, all of one length.
#[derive(Clone, Copy)]
struct Scale {
    least: u64,
    range: u64,
    /// Steps by a key's distance from the least one, in `2^-64` of a step.
    factor: u64,
}

/// How many of a level's keys, nearly, are below each of even steps of their range.
///
/// ```text
/// keys     least |  8 or so  |  8 or so  |  8 or so  | greatest      steps of equal length
/// counts         0           8          17          24               keys before each step, each
///                                                                    up to three too low
/// ```
///
/// Where keys are even a key's place is told by the counts of two neighbouring steps, and by how
/// far between them the key is. Source of such tables: Kipf et al., RadixSpline, aiDM 2020.
#[derive(Drop)]
pub struct Grid {
    scale: Scale,
    counts: Vec<u32>,
}

impl Grid {
    /// The grid of keys, if they are even: if no more than an eighth of them is in crowded steps.
    pub fn of(alloc: Global, keys: &[u64]) -> Result<Option<Grid>, NoMemory>
        requires { length keys.now < 2 ^ 32 }
    {
        let len = keys.len();
        if len < KEYS_A_STEP {
            return Ok(None);
        }
        let steps = len / KEYS_A_STEP;
        let scale = Scale::of(keys[0], keys[len - 1], steps);
        if !are_spread(keys, &scale, steps) {
            return Ok(None);
        }
        let mut counts = vec![in alloc; 0; steps + 2]?;
        count(&mut counts, keys, &scale);
        if add_up(&mut counts) > len as u64 / 8 {
            return Ok(None);
        }
        Ok(Some(Grid { scale, counts }))
    }

    /// The first of eight places among which a key is said to be.
    #[inline(always)]
    pub fn start(&self, key: u64) -> usize {
        let counts = self.counts.as_slice();
        if counts.len() < 2 {
            return 0;
        }
        let (step, part) = self.scale.step(key);
        let step = step.min(counts.len() - 2);
        let (low, high) = (u64::from(counts[step]), u64::from(counts[step + 1]));
        let between = high.wrapping_sub(low).wrapping_mul(part) >> 8;
        low.wrapping_add(between).saturating_sub(ENTRIES_BEFORE) as usize
    }
}

impl Scale {
    /// The scale of so many steps over the keys from one to another.
    fn of(least: u64, greatest: u64, steps: usize) -> Scale {
        let range = greatest.wrapping_sub(least);
        let factor = steps as u128 * WORDS / (u128::from(range) + 1);
        Scale {
            least,
            range,
            factor: factor.min(WORDS - 1) as u64,
        }
    }

    /// The step of a key, and how far in the step it is, in 256ths.
    #[inline(always)]
    fn step(&self, key: u64) -> (usize, u64) {
        let distance = key.saturating_sub(self.least).min(self.range);
        let product = u128::from(distance) * u128::from(self.factor);
        ((product / WORDS) as usize, (product % WORDS) as u64 >> 56)
    }
}

/// Whether a quarter, a half and three quarters of the keys are in about as much of the steps. Most
/// lists of uneven keys are told so without a pass over them.
fn are_spread(keys: &[u64], scale: &Scale, steps: usize) -> bool
    requires { 4 ≤ length keys.now }
{
    for quarter in 1..4 {
        let (step, _) = scale.step(keys[keys.len() / 4 * quarter]);
        if step.abs_diff(steps / 4 * quarter) > steps / 8 + 2 {
            return false;
        }
    }
    true
}

/// Counts each fourth key at the end of its step, with all before it. The last count of a step
/// stays.
fn count(counts: &mut Vec<u32>, keys: &[u64], scale: &Scale)
    requires { length keys.now < 2 ^ 32 }
{
    let scale = *scale;
    for i in 0..keys.len() / COUNT_EACH {
        let place = i * COUNT_EACH + (COUNT_EACH - 1);
        let (step, _) = scale.step(keys[place]);
        let end = step.wrapping_add(1);
        if end < counts.len() {
            counts[end] = (place + 1) as u32;
        }
    }
}

/// Puts into each step without a key the count of the step before, and gives how many keys are in
/// crowded steps.
fn add_up(counts: &mut Vec<u32>) -> u64 {
    let mut before = 0u32;
    let mut crowded = 0u64;
    for i in 0..counts.len() {
        let count = counts[i].max(before);
        let more = count.wrapping_sub(before);
        if more > UNCROWDED_TO {
            crowded = crowded.wrapping_add(u64::from(more));
        }
        counts[i] = count;
        before = count;
    }
    crowded
}
