// The keys of an index to a lookup whose steps are bounded: each read of one is a step.
ghost use Rattle.std.specs.Prelude.{◌≡◌, ◌<◌, ◌^◌, length};
ghost use Rattle.std.specs.List.Sorted.{IsNonDecreasing};
ghost use Rattle.levels.specs.Indexes.{xs_at};

use crate::index::Index;
use std::sync::ledger::Ledger;
use window_search::{CountedKeys, KeyList};

/// The first x of the runs of level 0, as they stand in the runs' models.
#[derive(Clone, Copy)]
pub struct RunStarts<'a> {
    index: &'a Index,
}

impl<'a> KeyList for RunStarts<'a> {
    ghost use Rattle.levels.specs.Indexes.{xs_at};

    ghost listed = { λ starts. xs_at starts.index.now.keys starts.index.now.levels 1 };

    #[inline(always)]
    fn len(&self) -> usize {
        self.index.runs() as usize
    }

    #[inline(always)]
    fn at(&self, place: usize) -> u64 {
        let _runs = self.index.runs();
        self.index.first_x(place as u32)
    }
}

impl Index {
    /// The keys of the file.
    #[inline(always)]
    pub(crate) fn counted_file<L: Ledger>(&self) -> CountedKeys<&[u64], L>
        ensures keys { result ≡ self.now.keys }
        ensures never_falls { IsNonDecreasing self.now.keys }
        ensures few { length self.now.keys < 2 ^ 32 }
    {
        CountedKeys::new(self.keys().as_slice())
    }

    /// The x of level `i`, above level 0: the first x of the runs below. They rise.
    #[inline(always)]
    pub(crate) fn counted_firsts<L: Ledger>(&self, i: u32) -> CountedKeys<&[u64], L>
        requires above { 0 < i }
        requires inside { i < length self.now.levels }
        ensures { result ≡ xs_at self.now.keys self.now.levels i }
    {
        CountedKeys::new(self.firsts(i))
    }

    /// The first x of the runs of level 0. They rise.
    #[inline(always)]
    pub(crate) fn counted_starts<L: Ledger>(&self) -> CountedKeys<RunStarts<'_>, L>
        ensures starts { result ≡ xs_at self.now.keys self.now.levels 1 }
        ensures order { IsNonDecreasing (xs_at self.now.keys self.now.levels 1) }
    {
        let _runs = self.runs();
        CountedKeys::new(RunStarts { index: self })
    }
}
