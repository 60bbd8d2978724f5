// The lookup, from the last level down.
ghost use Rattle.std.specs.Prelude.{◌≡◌, ◌+◌, ◌-◌, ◌*◌, ◌<◌, ◌≤◌};
ghost use Rattle.std.specs.Prelude.{◌^◌, ℕ, length, slice_index, slice_index_or};
ghost use Rattle.std.specs.List.Sorted.{IsNonDecreasing};
ghost use Rattle.budget.specs.Ledgers.{IsNewLedger};
ghost use Rattle.exact_cross.specs.declared.segment.Segment.{Segment};
ghost use Rattle.window_search.specs.Searches.{lb, IsPredecessor};
ghost use Rattle.levels.specs.Costs.{TakesAtMost, lookup_bound};
ghost use Rattle.levels.specs.Entries.{IsEntry, share_of};
ghost use Rattle.exact_cross.specs.IndexLevels.{level_at};
ghost use Rattle.levels.specs.Indexes.{IsLaidFile, xs_at, ys_at};
ghost use Rattle.levels.specs.Models.{IsEndOf};
ghost use Rattle.levels.specs.Lookups.{IsWindowAt, IsNarrow, HoldsAnswers, extent_at};

use crate::index::Index;
use budget::Steps;
use exact_cross::Segment;
use std::marker::Brand;
use std::sync::ledger::{Blank, Ledger};
use window_search::{CountedKeys, KeyList, lower_in, predecessor_in, window};

impl Index {
    /// The position of `q` in the file: how many of its keys are below `q`.
    ///
    /// The run of level 0 is found as in [`Index::lower_bound`]. If its model tells a place, that
    /// is tried first, and then what is left of its window: of keys at even steps it is the
    /// position, which no clause says. No steps are counted for the caller. Cannot fail and takes
    /// no memory.
    pub fn position(&self, q: u64) -> u32
        ensures { result ≡ lb self.now.keys q }
    {
        position_from::<Brand>(self, q, Blank::new(1))
    }

    /// The lower bound of `q`: how many keys of the file are below `q`.
    ///
    /// The run of level 0 is one of few to which a table leads. Without a table the levels are gone
    /// through, from the lowest one whose runs' first x are few enough to be halved in place of the
    /// levels above, or else from the last one: of each the predecessor of `q` is searched in a
    /// window of the run found, and is the run of the level below. At level 0 the position is
    /// searched among the keys of the file. Where there is no key, or the first one is above `q`,
    /// no window is formed. A step is a key read; two to their number is at most the product over
    /// all levels of four times the places that a window may have. Cannot fail and takes no memory.
    ///
    /// The windows that are searched are those of the runs' models, and not those that
    /// [`Index::windows`] gives: they hold the same answer in as few places.
    ///
    /// Source: Ferragina and Vinciguerra, PVLDB 13(8), 2020, section 2.
    pub fn lower_bound<L: Ledger>(&self, q: u64, steps: &mut Steps<L>) -> u32
        ensures found { result ≡ lb self.now.keys q }
        ensures cost { 0 < length self.now.levels → TakesAtMost (lookup_bound self.now.eps
            self.now.eps_rec (length self.now.levels)) steps.old steps.new }
        ensures cost_empty { length self.now.levels ≡ 0 → steps.new ≡ steps.old }
    {
        let keys = self.counted_file();
        let levels = self.level_count();
        if levels == 0 {
            return 0;
        }
        let first = keys.read(0, steps);
        if q < first {
            return 0;
        }
        let run = self.run_of(q, steps);
        let (low, high) = self.window_by_model(0, run, q);
        lower_in(&keys, low, high, q, steps)
    }

    /// The run of level 0 that begins last at or before `q`, where the first key does: among those
    /// that the table leads to, or by the levels above.
    #[inline(always)]
    pub(crate) fn run_of<L: Ledger>(&self, q: u64, steps: &mut Steps<L>) -> u32
        requires laid { IsLaidFile self.now }
        requires some { 0 < length self.now.levels }
        requires from_first { slice_index self.now.keys 0 ≤ q }
        ensures found { IsPredecessor (xs_at self.now.keys self.now.levels 1) q result }
        ensures cost { TakesAtMost (share_of self.now.eps_rec (length self.now.levels)) steps.old
            steps.new }
    {
        if self.level_count() > 1 {
            if let Some((low, high)) = self.runs_near(q) {
                return predecessor_in(&self.counted_firsts(1), low, high, q, steps);
            }
        }
        self.run_by_levels(q, steps)
    }

    /// The run of level 0 that begins last at or before `q`, by the levels above.
    #[inline(never)]
    fn run_by_levels<L: Ledger>(&self, q: u64, steps: &mut Steps<L>) -> u32
        requires laid { IsLaidFile self.now }
        requires some { 0 < length self.now.levels }
        requires from_first { slice_index self.now.keys 0 ≤ q }
        ensures found { IsPredecessor (xs_at self.now.keys self.now.levels 1) q result }
        ensures cost { TakesAtMost (share_of self.now.eps_rec (length self.now.levels)) steps.old
            steps.new }
    {
        let mut level = self.entry();
        let mut run = self.entry_run(level, q, steps);
        while level > 0 {
            run = self.predecessor_below(level, run, q, steps);
            level -= 1;
        }
        run
    }

    /// The run of the entry level, found among the first x of all its runs.
    fn entry_run<L: Ledger>(&self, entry: u32, q: u64, steps: &mut Steps<L>) -> u32
        requires laid { IsLaidFile self.now }
        requires some { 0 < length self.now.levels }
        requires entry { IsEntry self.now.keys self.now.eps_rec self.now.levels entry }
        requires from_first { slice_index self.now.keys 0 ≤ q }
        ensures found { IsPredecessor (xs_at self.now.keys self.now.levels (entry + 1)) q result }
        ensures cost { TakesAtMost ((4 * (2 * self.now.eps_rec + 3)) ^ (length self.now.levels
            - 1 - entry)) steps.old steps.new }
    {
        let levels = self.level_count();
        if entry + 1 == levels {
            return 0;
        }
        let list = self.counted_firsts(entry + 1);
        predecessor_in(&list, 0, list.len() as u32 - 1, q, steps)
    }

    /// The predecessor of `q` in the list of a level above level 0, where the run with it is known.
    fn predecessor_below<L: Ledger>(
        &self,
        level: u32,
        run: u32,
        q: u64,
        steps: &mut Steps<L>,
    ) -> u32
        requires laid { IsLaidFile self.now }
        requires above { 0 < level }
        requires inside { level < length self.now.levels }
        requires run { IsPredecessor (xs_at self.now.keys self.now.levels (level + 1)) q run }
        ensures found { IsPredecessor (xs_at self.now.keys self.now.levels level) q result }
        ensures cost { TakesAtMost (2 * (2 * self.now.eps_rec + 3)) steps.old steps.new }
    {
        let (low, high) = self.window_by_model(level, run, q);
        predecessor_in(&self.counted_firsts(level), low, high, q, steps)
    }

    /// A window of `q` in a run of a level, by the run's model. It holds what that of the run's
    /// line holds, in at most `2ε + 3` places too, but needn't be that one: it may stand one place
    /// higher, and, where the line passes below the run's first point, up to ε places lower.
    #[inline(always)]
    pub(crate) fn window_by_model(&self, level: u32, run: u32, q: u64) -> (u32, u32)
        requires laid { IsLaidFile self.now }
        requires inside { level < length self.now.levels }
        requires run { IsPredecessor (xs_at self.now.keys self.now.levels (level + 1)) q run }
        ensures order { result.0 ≤ result.1 }
        ensures narrow { IsNarrow self.now.eps self.now.eps_rec level result.0 result.1 }
        ensures within { result.1 ≤ extent_at self.now.keys self.now.levels level }
        ensures holds { HoldsAnswers self.now.keys self.now.levels level q result.0 result.1 }
    {
        let eps = self.eps_of(level);
        let len = self.extent_of(level);
        self.model_of(level, run).window(q, eps, len)
    }

    /// The place to look at first for `q` in a run of level 0, where its model tells one.
    #[inline(always)]
    fn told_by_model(&self, run: u32, q: u64) -> Option<u64>
        requires laid { IsLaidFile self.now }
        requires inside { 0 < length self.now.levels }
        requires run { IsPredecessor (xs_at self.now.keys self.now.levels 1) q run }
    {
        self.model_of(0, run).told(q, self.eps_of(0))
    }

    /// The window of `q` in a run of a level, by the run's line, as [`Index::windows`] gives it.
    pub(crate) fn window_of(&self, level: u32, run: u32, q: u64) -> (u32, u32)
        requires laid { IsLaidFile self.now }
        requires inside { level < length self.now.levels }
        requires run { IsPredecessor (xs_at self.now.keys self.now.levels (level + 1)) q run }
        ensures exact { IsWindowAt self.now.keys self.now.eps self.now.eps_rec self.now.levels level
            q result.0 result.1 }
        ensures order { result.0 ≤ result.1 }
        ensures narrow { IsNarrow self.now.eps self.now.eps_rec level result.0 result.1 }
        ensures within { level ≡ 0 → result.1 ≤ length self.now.keys }
        ensures within_list { 0 < level → result.1 ≤ length (xs_at self.now.keys self.now.levels
            level) }
        ensures holds { HoldsAnswers self.now.keys self.now.levels level q result.0 result.1 }
    {
        let (low, high) = self.heights_of(level, run);
        let segments = self.segments(level);
        let segment = &segments[run as usize];
        let eps = self.eps_of(level);
        let len = self.extent_of(level);
        window(&segment.line, low, high, eps, q, len)
    }

    /// The y of the first and of the last point of a run. At level 0 the first one is the position
    /// of the run's first x, which is searched; the last one stands in the run's model.
    fn heights_of(&self, level: u32, run: u32) -> (u32, u32)
        requires laid { IsLaidFile self.now }
        requires inside { level < length self.now.levels }
        requires run { run < length (level_at self.now.levels level) }
        ensures { (e : ℕ) (d : Segment) → IsEndOf (level_at self.now.levels level)
            (length (xs_at self.now.keys self.now.levels level)) run e →
            (result.0 ≡ slice_index (ys_at self.now.keys self.now.levels level)
            (slice_index_or (level_at self.now.levels level) run d).start) ×
            (result.1 ≡ slice_index (ys_at self.now.keys self.now.levels level) (e - 1)) }
    {
        let model = self.model_of(level, run);
        let high = (model.high - u64::from(self.eps_of(level))) as u32;
        if level == 0 {
            return (self.position(model.first), high);
        }
        let segments = self.segments(level);
        let segment = &segments[run as usize];
        (segment.start, high)
    }

    /// The greatest place of the windows of a level.
    fn extent_of(&self, level: u32) -> u32
        requires inside { level < length self.now.levels }
        requires few { length (xs_at self.now.keys self.now.levels level) < 2 ^ 32 }
        ensures { result ≡ extent_at self.now.keys self.now.levels level }
    {
        if level == 0 {
            self.keys().len()
        } else {
            self.firsts(level).len() as u32
        }
    }
}

/// The position of `q` in the file, the steps counted in a new ledger.
fn position_from<L: Ledger>(index: &Index, q: u64, blank: Blank) -> u32
    requires { IsNewLedger blank L.name L.parts }
    ensures { result ≡ lb index.now.keys q }
{
    let mut steps = Steps::<L>::new(blank);
    let keys = index.counted_file();
    if index.level_count() == 0 || q < keys.read(0, &mut steps) {
        return 0;
    }
    let run = index.run_of(q, &mut steps);
    let (low, high) = index.window_by_model(0, run, q);
    match index.told_by_model(run, q) {
        Some(told) => {
            let told = told.clamp(u64::from(low), u64::from(high)) as u32;
            lower_from(&keys, low, told, high, q, &mut steps)
        }
        None => lower_in(&keys, low, high, q, &mut steps),
    }
}

/// The lower bound of `q`, searched from `told` on among the places `low..=high`, where the caller
/// knows that it is.
#[inline(always)]
fn lower_from<K: KeyList, L: Ledger>(
    keys: &CountedKeys<K, L>,
    low: u32,
    told: u32,
    high: u32,
    q: u64,
    steps: &mut Steps<L>,
) -> u32
    requires order { IsNonDecreasing keys.now }
    requires above { low ≤ told }
    requires below { told ≤ high }
    requires within { high ≤ length keys.now }
    requires from { low ≤ lb keys.now q }
    requires to { lb keys.now q ≤ high }
    ensures { result ≡ lb keys.now q }
{
    if told < high && keys.read(told as usize, steps) < q {
        return lower_in(keys, told + 1, high, q, steps);
    }
    if told == low || keys.read(told as usize - 1, steps) < q {
        return told;
    }
    lower_in(keys, low, told - 1, q, steps)
}
