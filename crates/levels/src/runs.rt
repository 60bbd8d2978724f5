// The runs of level 0, and lookups among those that a caller's own table leaves open.
ghost use Rattle.std.specs.Prelude.{◌≡◌, ◌+◌, ◌-◌, ◌*◌, ◌<◌, ◌^◌, ℕ, length, slice_index};
ghost use Rattle.std.specs.List.Sorted.{IsNonDecreasing};
ghost use Rattle.window_search.specs.Searches.{lb};
ghost use Rattle.radix_table.specs.Tables.{IsBetween};
ghost use Rattle.levels.specs.Costs.{TakesAtMost};
ghost use Rattle.levels.specs.Indexes.{IsLaidIndex, xs_at};

use crate::index::Index;
use budget::Steps;
use key_search::LANES;
use std::sync::ledger::Ledger;
use window_search::{CountedKeys, KeyList, lower_in};

impl Index {
    /// How many runs level 0 has, none where there is no key.
    #[inline(always)]
    pub fn runs(&self) -> u32
        ensures count { result ≡ length (xs_at self.now.keys self.now.levels 1) }
        ensures never_falls { IsNonDecreasing self.now.keys }
        ensures few { length self.now.keys < 2 ^ 32 }
        ensures index { IsLaidIndex self.now.keys self.now.eps self.now.eps_rec self.now.levels }
    {
        let keys = self.keys();
        let _file = keys.as_slice();
        if self.level_count() == 0 {
            return 0;
        }
        self.segments(0).len() as u32
    }

    /// The first x of a run of level 0.
    #[inline(always)]
    pub fn first_x(&self, run: u32) -> u64
        requires { run < length (xs_at self.now.keys self.now.levels 1) }
        ensures { result ≡ slice_index (xs_at self.now.keys self.now.levels 1) run }
    {
        let _runs = self.runs();
        self.model_of(0, run).first
    }

    /// The lower bound of `q`, where at least `least` and at most `most` runs of level 0 are known
    /// to begin at or before it: how many keys of the file are below `q`.
    ///
    /// The last run that begins at or before `q` is searched among those left open, which the
    /// index's own table narrows, and then the position in its window. A step is a key read; two to
    /// their number is at most 4 times a window's places, times one more than the runs left open.
    /// Cannot fail and takes no memory.
    #[inline(always)]
    pub fn lower_bound_between<L: Ledger>(
        &self,
        q: u64,
        least: u32,
        most: u32,
        steps: &mut Steps<L>,
    ) -> u32
        requires between { IsBetween (xs_at self.now.keys self.now.levels 1) q least most }
        ensures found { result ≡ lb self.now.keys q }
        ensures cost { TakesAtMost (4 * (most - least + 1) * (2 * self.now.eps + 3)) steps.old
            steps.new }
    {
        let _runs = self.runs();
        let keys = self.counted_file();
        let (low, high) = self.begun_between(q, least, most);
        let begun = begun_in(&self.counted_starts(), low, high, q, steps);
        if begun == 0 {
            return 0;
        }
        let (low, high) = self.window_by_model(0, begun - 1, q);
        lower_in(&keys, low, high, q, steps)
    }

    /// The lower bounds of sixteen questions, where at least and at most so many runs of level 0
    /// are known to begin at or before each: how many keys of the file are below each.
    ///
    /// They are searched as by [`Index::lower_bound_between`], interleaved, so that their reads of
    /// memory don't wait for one another. No steps are counted. Cannot fail and takes no memory.
    #[inline(always)]
    pub fn lower_bounds_between(
        &self,
        qs: &[u64; 16],
        least: &[u32; 16],
        most: &[u32; 16],
        places: &mut [u32; 16],
    )
        requires between { (k : ℕ) → k < 16 → IsBetween (xs_at self.now.keys self.now.levels 1)
            (slice_index qs.now k) (slice_index least.now k) (slice_index most.now k) }
        ensures lanes { length places.new ≡ 16 }
        ensures found { (k : ℕ) → k < 16 → slice_index places.new k ≡ lb self.now.keys
            (slice_index qs.now k) }
    {
        let _runs = self.runs();
        *places = [0; LANES];
        let keys = self.keys();
        if keys.is_empty() {
            return;
        }
        let first = keys.as_slice()[0];
        let mut asked = [0; LANES];
        for lane in 0..LANES {
            asked[lane] = qs[lane].max(first);
        }
        let mut lows = [0; LANES];
        let mut count: u32 = 1;
        for lane in 0..LANES {
            let (low, high) = self.begun_between(qs[lane], least[lane], most[lane]);
            let run = low.saturating_sub(1);
            lows[lane] = run;
            count = count.max(high.saturating_sub(run));
        }
        if self.level_count() > 1 {
            self.runs_among(&asked, &lows, count, places);
        } else {
            self.runs_by_levels_interleaved(&asked, places);
        }
        self.bounds_below(&asked, places);
    }
}

/// How many rising numbers are at most `q`, where it is known that at least `low` are and at most
/// `high`. A step is a key read.
#[inline(always)]
fn begun_in<K: KeyList, L: Ledger>(
    starts: &CountedKeys<K, L>,
    low: u32,
    high: u32,
    q: u64,
    steps: &mut Steps<L>,
) -> u32
    requires order { IsNonDecreasing starts.now }
    requires between { IsBetween starts.now q low high }
    ensures begun { IsBetween starts.now q result result }
    ensures cost { TakesAtMost (2 * (high - low + 1)) steps.old steps.new }
{
    let mut begun = low;
    let mut left = high.saturating_sub(low);
    while left > 0 {
        let half = left / 2;
        if starts.read((begun + half) as usize, steps) <= q {
            begun += half + 1;
            left -= half + 1;
        } else {
            left = half;
        }
    }
    begun
}
