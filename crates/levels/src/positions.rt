// The positions of many questions.
ghost use Rattle.std.specs.Prelude.{◌≡◌, ◌+◌, ◌*◌, ◌++◌, ◌<◌, ◌≤◌, ℕ, length};
ghost use Rattle.std.specs.Prelude.{map, min, slice_index, vec_len, vec_capacity, IfSome};
ghost use Rattle.window_search.specs.Searches.{lb, IsPredecessor};
ghost use Rattle.exact_cross.specs.IndexLevels.{eps_at};
ghost use Rattle.levels.specs.Indexes.{IsLaidFile, xs_at};
ghost use Rattle.key_search.specs.Interleaved.{IsAmong, HasBound};
ghost use Rattle.levels.specs.Interleaved.{AreFromFirst, AreNear, AreRuns};

use crate::index::Index;
use key_search::{LANES, bounds_interleaved, predecessors_interleaved};

impl Index {
    /// The position of each question in the file, in order, behind what the list has: how many keys
    /// of the file are below the question.
    ///
    /// The list has room for as many more. The searches of sixteen questions are interleaved, so
    /// that their reads of memory don't wait for one another. No steps are counted. Cannot fail and
    /// takes no memory.
    pub fn positions(&self, qs: &[u64], into: &mut Vec<u32>)
        requires room { vec_len into.old + length qs.now ≤ vec_capacity into.old }
        ensures positions { into.new.items ≡ into.old.items ++ map (lb self.now.keys) qs.now }
        ensures capacity { vec_capacity into.old ≤ vec_capacity into.new }
    {
        let mut rest = qs;
        if !self.keys().is_empty() {
            while rest.len() >= LANES {
                let (block, later) = rest.split_at(LANES);
                self.push_block(block, into);
                rest = later;
            }
        }
        self.push_each(rest, into);
    }

    /// The positions of questions, one after the other.
    fn push_each(&self, qs: &[u64], into: &mut Vec<u32>)
        requires room { vec_len into.old + length qs.now ≤ vec_capacity into.old }
        ensures positions { into.new.items ≡ into.old.items ++ map (lb self.now.keys) qs.now }
        ensures capacity { vec_capacity into.old ≤ vec_capacity into.new }
    {
        for q in qs {
            into.push_reserved(self.position(*q));
        }
    }

    /// The positions of sixteen questions, whose searches are interleaved.
    #[inline(always)]
    fn push_block(&self, qs: &[u64], into: &mut Vec<u32>)
        requires some { 0 < length self.now.keys }
        requires sixteen { length qs.now ≡ 16 }
        requires room { vec_len into.old + length qs.now ≤ vec_capacity into.old }
        ensures positions { into.new.items ≡ into.old.items ++ map (lb self.now.keys) qs.now }
        ensures capacity { vec_capacity into.old ≤ vec_capacity into.new }
    {
        let first = self.keys().as_slice()[0];
        let _levels = self.level_count();
        let mut asked = [0; LANES];
        for lane in 0..LANES {
            asked[lane] = qs[lane].max(first);
        }
        let mut places = [0; LANES];
        self.find_block(&asked, &mut places);
        for place in &places {
            into.push_reserved(*place);
        }
    }

    /// The positions of sixteen questions, none of them below the first key.
    #[inline(always)]
    fn find_block(&self, qs: &[u64; 16], places: &mut [u32; 16])
        requires laid { IsLaidFile self.now }
        requires some { 0 < length self.now.keys }
        requires zeros { (k : ℕ) → k < 16 → slice_index places.old k ≡ 0 }
        requires from_first { AreFromFirst self.now.keys qs.now }
        ensures lanes { length places.new ≡ 16 }
        ensures found { (k : ℕ) → k < 16 → slice_index places.new k ≡ lb self.now.keys
            (slice_index qs.now k) }
    {
        let mut lows = [0; LANES];
        match self.spans_near(qs, &mut lows) {
            Some(count) => self.runs_among(qs, &lows, count, places),
            None => self.runs_by_levels_interleaved(qs, places),
        }
        self.bounds_below(qs, places);
    }

    /// Where the places begin among which the table says that the runs of level 0 are, and how many
    /// they are at most. None where it doesn't say.
    #[inline(always)]
    fn spans_near(&self, qs: &[u64; 16], lows: &mut [u32; 16]) -> Option<u32>
        requires laid { IsLaidFile self.now }
        requires some { 0 < length self.now.keys }
        requires from_first { AreFromFirst self.now.keys qs.now }
        ensures above { IfSome result (λ _. 1 < length self.now.levels) }
        ensures near { IfSome result (λ count. AreNear (xs_at self.now.keys self.now.levels 1)
            qs.now lows.new count) }
    {
        if self.level_count() < 2 {
            return None;
        }
        let mut count = 1;
        for lane in 0..LANES {
            let Some((low, high)) = self.runs_near(qs[lane]) else {
                return None;
            };
            lows[lane] = low;
            count = count.max(high - low + 1);
        }
        Some(count)
    }

    /// The runs of level 0, each of which is among `count` places from its low end on.
    #[inline(always)]
    pub(crate) fn runs_among(
        &self,
        qs: &[u64; 16],
        lows: &[u32; 16],
        count: u32,
        runs: &mut [u32; 16],
    )
        requires laid { IsLaidFile self.now }
        requires some { 0 < length self.now.keys }
        requires above { 1 < length self.now.levels }
        requires from_first { AreFromFirst self.now.keys qs.now }
        requires near { AreNear (xs_at self.now.keys self.now.levels 1) qs.now lows.now count }
        ensures { AreRuns (xs_at self.now.keys self.now.levels 1) qs.now runs.new }
    {
        let list = self.firsts(1);
        let last = list.len() as u32 - count;
        for lane in 0..LANES {
            runs[lane] = lows[lane].min(last);
        }
        predecessors_interleaved(list, qs, runs, count);
    }

    /// The runs of level 0 by the levels above.
    #[inline(never)]
    pub(crate) fn runs_by_levels_interleaved(&self, qs: &[u64; 16], places: &mut [u32; 16])
        requires laid { IsLaidFile self.now }
        requires some { 0 < length self.now.keys }
        requires zeros { (k : ℕ) → k < 16 → slice_index places.old k ≡ 0 }
        requires from_first { AreFromFirst self.now.keys qs.now }
        ensures { AreRuns (xs_at self.now.keys self.now.levels 1) qs.now places.new }
    {
        let mut level = self.level_count() - 1;
        while level > 0 {
            self.runs_below(level, qs, places);
            level -= 1;
        }
    }

    /// From runs of a level above level 0 to those of the level below it, which are the
    /// predecessors in the level's list.
    #[inline(always)]
    fn runs_below(&self, level: u32, qs: &[u64; 16], runs: &mut [u32; 16])
        requires laid { IsLaidFile self.now }
        requires above { 0 < level }
        requires inside { level < length self.now.levels }
        requires runs { AreRuns (xs_at self.now.keys self.now.levels (level + 1)) qs.now runs.old }
        ensures { AreRuns (xs_at self.now.keys self.now.levels level) qs.now runs.new }
    {
        let list = self.firsts(level);
        let count = (2 * self.eps_of(level) + 3).min(list.len() as u32);
        for lane in 0..LANES {
            runs[lane] = self.start_among(level, runs[lane], qs[lane], count);
        }
        predecessors_interleaved(list, qs, runs, count);
    }

    /// Where `count` places begin that hold the predecessor in the list of a level.
    #[inline(always)]
    fn start_among(&self, level: u32, run: u32, q: u64, count: u32) -> u32
        requires laid { IsLaidFile self.now }
        requires above { 0 < level }
        requires inside { level < length self.now.levels }
        requires run { IsPredecessor (xs_at self.now.keys self.now.levels (level + 1)) q run }
        requires count { count ≡ min (2 * eps_at self.now.eps self.now.eps_rec level + 3)
            (length (xs_at self.now.keys self.now.levels level)) }
        ensures { IsAmong (xs_at self.now.keys self.now.levels level) q result count }
    {
        let (low, _) = self.window_by_model(level, run, q);
        low.min(self.firsts(level).len() as u32 - count)
    }

    /// From runs of level 0 to the positions in the file.
    #[inline(always)]
    pub(crate) fn bounds_below(&self, qs: &[u64; 16], runs: &mut [u32; 16])
        requires laid { IsLaidFile self.now }
        requires inside { 0 < length self.now.levels }
        requires runs { AreRuns (xs_at self.now.keys self.now.levels 1) qs.now runs.old }
        ensures lanes { length runs.new ≡ 16 }
        ensures found { (k : ℕ) → k < 16 → slice_index runs.new k ≡ lb self.now.keys
            (slice_index qs.now k) }
    {
        let file = self.keys().as_slice();
        let count = (2 * u64::from(self.eps_of(0)) + 3).min(file.len() as u64 + 1);
        for lane in 0..LANES {
            runs[lane] = self.start_bound(runs[lane], qs[lane], count);
        }
        bounds_interleaved(file, qs, runs, count);
    }

    /// Where `count` places begin that hold the position in the file.
    #[inline(always)]
    pub(crate) fn start_bound(&self, run: u32, q: u64, count: u64) -> u32
        requires laid { IsLaidFile self.now }
        requires inside { 0 < length self.now.levels }
        requires run { IsPredecessor (xs_at self.now.keys self.now.levels 1) q run }
        requires count { count ≡ min (2 * self.now.eps + 3) (length self.now.keys + 1) }
        ensures { HasBound self.now.keys q result count }
    {
        let (low, _) = self.window_by_model(0, run, q);
        let most = u64::from(self.keys().len()) + 1 - count;
        u64::from(low).min(most) as u32
    }
}
