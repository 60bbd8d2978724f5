// What may become the table: numbers counted by the steps of a scale.
ghost use Rattle.std.specs.Prelude.{◌<◌, ◌^◌, ℕ, List, IfOk, IfSome, length};
ghost use Rattle.std.specs.List.Sorted.{IsNonDecreasing};
ghost use Rattle.radix_table.specs.Candidates.{AreFew, IsCandidateOf};
ghost use Rattle.radix_table.specs.Tables.{IsScale};

use crate::entries::{entries_of, fullest};
use crate::scale::Scale;
use budget::NoMemory;
use std::alloc::Global;

/// The entries by a scale, and how many numbers the fullest step has at most.
#[derive(Drop)]
pub struct Candidate {
    pub scale: Scale,
    pub entries: Vec<u32>,
    pub fullest: u32,
}

impl Candidate {
    /// The entries of numbers by a scale. Where there is none, there is no entry, and the fullest
    /// step counts as full as can be.
    pub fn of(alloc: Global, xs: &[u64], scale: Option<Scale>) -> Result<Candidate, NoMemory>
        requires order { IsNonDecreasing xs.now }
        requires few { length xs.now < 2 ^ 32 }
        requires scale { IfSome scale IsScale }
        requires steps { IfSome scale (AreFew xs.now) }
        ensures { IfOk result (IsCandidateOf xs.now) }
    {
        let Some(scale) = scale else {
            return Ok(Candidate {
                scale: Scale::NONE,
                entries: Vec::new(alloc),
                fullest: u32::MAX,
            });
        };
        let entries = entries_of(alloc, xs, &scale)?;
        let fullest = fullest(&entries);
        Ok(Candidate {
            scale,
            entries,
            fullest,
        })
    }

    /// The one whose fullest step has fewer numbers.
    pub fn or_narrower(self, other: Candidate) -> Candidate
        ensures { (xs : List ℕ) → IsCandidateOf xs self → IsCandidateOf xs other →
            IsCandidateOf xs result }
    {
        if self.fullest <= other.fullest {
            self
        } else {
            other
        }
    }
}
