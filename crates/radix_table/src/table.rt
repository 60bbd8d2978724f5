// The table.
ghost use Rattle.std.specs.Prelude.{◌+◌, ◌-◌, ◌*◌, ◌<◌, ◌≤◌, ◌^◌, ℕ, List, IfOk, IfSome};
ghost use Rattle.std.specs.Prelude.{length};
ghost use Rattle.std.specs.List.Sorted.{IsNonDecreasing};
ghost use Rattle.radix_table.specs.Candidates.{IsCandidateOf};
ghost use Rattle.radix_table.specs.Tables.{IsBetween, IsLedTo, IsScale, IsTableOf};

use crate::candidate::Candidate;
use crate::scale::{Growth, Scale};
use budget::NoMemory;
use std::alloc::Global;
use std::marker::Model;

/// Up to so many entries a table has eight for each number, which is 1 MB; a longer one has at most
/// two.
const EIGHTFOLD_TO_ENTRIES: u64 = 1 << 18;

/// A step with no more numbers than these is searched as fast as a shorter one.
const SHORT_STEP_NUMBERS: u32 = 8;

/// How many of a list of rising numbers stand before each of many steps. Seen as a record of how
/// the steps are cut, and the entries.
///
/// ```text
/// numbers   0     4                 16
/// steps     | 0 1 2 3 | 4 .. 7 | 8 .. 11 | 12 .. 15 | 16 .. |
/// entries   0         1        2         2          2       3        numbers before each step
/// ```
///
/// Source: Kipf et al., RadixSpline, aiDM 2020.
#[derive(Drop)]
pub struct RadixTable {
    scale: Scale,
    entries: Vec<u32>,
}

impl Model for RadixTable {
    ghost use Rattle.radix_table.specs.Tables.{IsScale, RadixEntries};

    ghost Value = { RadixEntries };

    ghost view = { λ table. record {
      scale = table.scale;
      entries = table.entries.items;
    } };

    ghost invariant = { λ table. IsScale table.scale };
}

impl RadixTable {
    /// The table that leads nowhere, without an entry. Cannot fail and takes no memory.
    pub fn empty(alloc: Global) -> RadixTable
        ensures { (xs : List ℕ) (most : ℕ) → IsTableOf xs most result }
    {
        let entries = Vec::new(alloc);
        let scale = Scale::NONE;
        RadixTable { scale, entries }
    }

    /// The table of numbers that never fall, with at most eight entries a number and two more.
    ///
    /// Its steps are equal, or where some of these have many numbers, longer the further they are
    /// from the first number, if that leaves fewer in the fullest. No step leaves open more places
    /// than half of `most`; where one would, there is no entry.
    ///
    /// # Errors
    ///
    /// `NoMemory` alone.
    pub fn over(alloc: Global, xs: &[u64], most: u64) -> Result<RadixTable, NoMemory>
        requires order { IsNonDecreasing xs.now }
        requires few { length xs.now < 2 ^ 32 }
        ensures table { IfOk result (IsTableOf xs.now most) }
    {
        if xs.is_empty() {
            return Ok(RadixTable::empty(alloc));
        }
        let entries = most_entries(xs.len());
        let even = Candidate::of(alloc, xs, Scale::finest(Growth::None, xs, entries))?;
        if even.fullest <= SHORT_STEP_NUMBERS {
            return Ok(narrow_table(alloc, even, most));
        }
        let growing = Candidate::of(alloc, xs, Scale::finest(Growth::Doubling, xs, entries))?;
        Ok(narrow_table(alloc, even.or_narrower(growing), most))
    }

    /// How many of the numbers are at most `q`, from below and from above: those in lower steps,
    /// and those in steps up to that of `q`. None where the table has no entry.
    ///
    /// Cannot fail and takes no memory.
    #[inline(always)]
    pub fn counts(&self, q: u64) -> Option<(u32, u32)>
        ensures between { (xs : List ℕ) (most : ℕ) → IsNonDecreasing xs →
            IsTableOf xs most self.now →
            IfSome result (λ counts. IsBetween xs q counts.0 counts.1) }
        ensures narrow { (xs : List ℕ) (most : ℕ) → IsTableOf xs most self.now →
            IfSome result (λ counts. 2 * (counts.1 - counts.0 + 1) ≤ most) }
    {
        let entries = &self.entries;
        let count = entries.len();
        if count < 2 {
            return None;
        }
        let step = self.scale.step(q).min(count as u64 - 2) as usize;
        Some((entries[step], entries[step + 1]))
    }

    /// The first and the last of the places among which the predecessor of `q` is, the last number
    /// that is at most `q`. None where the table has no entry.
    ///
    /// Cannot fail and takes no memory.
    #[inline(always)]
    pub fn places(&self, q: u64) -> Option<(u32, u32)>
        ensures { (xs : List ℕ) (most : ℕ) → IsNonDecreasing xs → IsTableOf xs most self.now →
            IfSome result (λ places. IsLedTo xs q most places.0 places.1) }
    {
        let (low, high) = self.counts(q)?;
        Some((low.saturating_sub(1), high.saturating_sub(1)))
    }
}

/// How many entries the table of so many numbers may have.
fn most_entries(count: usize) -> u64
    requires { count < 2 ^ 32 }
    ensures { result ≤ 2 ^ 36 }
{
    let count = count as u64;
    (8 * count).min(EIGHTFOLD_TO_ENTRIES).max(2 * count)
}

/// The table of a candidate, or the empty one where a step leaves open too many places.
fn narrow_table(alloc: Global, candidate: Candidate, most: u64) -> RadixTable
    requires { IsScale candidate.scale }
    ensures { (xs : List ℕ) → IsCandidateOf xs candidate → IsTableOf xs most result }
{
    let Candidate {
        scale,
        entries,
        fullest,
    } = candidate;
    if 2 * (u64::from(fullest) + 1) > most {
        return RadixTable::empty(alloc);
    }
    RadixTable { scale, entries }
}
