// An index as it was saved.
ghost use Rattle.std.specs.Prelude.{◌≡◌, ◌<◌, ◌≤◌, ◌^◌, length, slice_index_or, All, []};
ghost use Rattle.index_file.specs.Spelling.{LevelFits, run_count, count_runs, runs_of};

use exact_cross::MAX_EPSILON;
use std::alloc::Global;
use std::marker::Model;

/// Why a run of a saved index ends.
#[derive(Clone, Copy, Debug, PartialEq, Eq)]
pub enum SavedCut {
    /// It is the last one.
    Last,
    /// The next point lies over its steepest line. The witness is its steep pair and that point.
    Over,
    /// The next point lies under its flattest line. The witness is these two places, its flat pair,
    /// and that point.
    Under(u32, u32),
}

/// A run of a saved index, as it was read. Nothing is known of its numbers.
#[derive(Clone, Copy, Debug, PartialEq, Eq)]
pub struct SavedRun {
    /// The first place of the run.
    pub start: u32,
    /// The lower place of the steep pair.
    pub a: u32,
    /// The upper place of the steep pair.
    pub b: u32,
    /// Why the run ends.
    pub cut: SavedCut,
}

/// An index as it was saved: two error bounds of at most 1,048,576, in places, and the runs of each
/// level, the lowest first. Seen as a record of these. Nothing is known of the runs: they may be
/// those of the index of no points.
#[derive(Drop)]
pub struct Saved {
    eps: u32,
    eps_rec: u32,
    levels: Vec<Vec<SavedRun>>,
}

impl Model for Saved {
    ghost use Rattle.index_file.specs.Spelling.{SavedIndex, runs_of, IsBounded};

    ghost Value = { SavedIndex };

    ghost view = { λ saved. record {
      eps = saved.eps;
      eps_rec = saved.eps_rec;
      levels = runs_of saved.levels.items;
    } };

    ghost invariant = { λ saved. IsBounded saved.eps saved.eps_rec (runs_of saved.levels.items) };
}

impl Saved {
    ghost use Rattle.index_file.specs.Spelling.{IsBounded, runs_of};

    /// A saved index of its parts.
    pub(crate) fn from_levels(eps: u32, eps_rec: u32, levels: Vec<Vec<SavedRun>>) -> Self
        requires { IsBounded eps eps_rec (runs_of levels.items) }
        ensures { result ≡ record {
          eps = eps;
          eps_rec = eps_rec;
          levels = runs_of levels.items;
        } }
    {
        Saved {
            eps,
            eps_rec,
            levels,
        }
    }

    /// The error bound ε of level 0, in ranks. Takes no memory.
    pub fn eps(&self) -> u32
        ensures value { result ≡ self.now.eps }
        ensures bounded { result ≤ MAX_EPSILON }
    {
        self.eps
    }

    /// The error bound ε' of the levels above level 0, in ranks. Takes no memory.
    pub fn eps_rec(&self) -> u32
        ensures value { result ≡ self.now.eps_rec }
        ensures bounded { result ≤ MAX_EPSILON }
    {
        self.eps_rec
    }

    /// How many levels there are. Takes no memory.
    pub fn levels(&self) -> u32
        ensures { result ≡ length self.now.levels }
    {
        self.levels.len() as u32
    }

    /// The runs of level `i`, counted from the lowest, as they were read. Takes no memory.
    pub fn runs(&self, i: u32) -> &[SavedRun]
        requires inside { i < length self.now.levels }
        ensures { result.now ≡ slice_index_or self.now.levels i [] }
    {
        &self.levels[i as usize]
    }

    /// How many runs all levels have together. Takes no memory.
    pub fn run_count(&self) -> u64
        ensures { result ≡ run_count self.now }
    {
        count_runs(&self.levels)
    }
}

/// How many runs these levels have together.
fn count_runs(levels: &[Vec<SavedRun>]) -> u64
    requires few { length levels.now < 2 ^ 32 }
    requires each { All LevelFits (runs_of levels.now) }
    ensures { result ≡ count_runs (runs_of levels.now) }
{
    let mut count = 0;
    for i in 0..levels.len() {
        count += levels[i].len() as u64;
    }
    count
}
