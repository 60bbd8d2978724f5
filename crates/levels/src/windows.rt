// The windows along a lookup.
ghost use Rattle.std.specs.Prelude.{◌≡◌, ◌+◌, ◌<◌, ◌≤◌};
ghost use Rattle.std.specs.Prelude.{ℕ, List, All, IfOk, length};
ghost use Rattle.std.specs.Prelude.{slice_index, vec_len, vec_capacity};
ghost use Rattle.std.specs.List.Sorted.{IsNonDecreasing};
ghost use Rattle.budget.specs.Ledgers.{IsNewLedger};
ghost use Rattle.exact_cross.specs.declared.segment.Segment.{Segment};
ghost use Rattle.window_search.specs.Searches.{IsPredecessor};
ghost use Rattle.levels.specs.Indexes.{IsIndex, IsLaidFile, IsLaidIndex, xs_at};
ghost use Rattle.levels.specs.declared.windows.LevelWindow.{LevelWindow};
ghost use Rattle.levels.specs.Lookups.{AreWindows, HoldsAnswers, HoldsNarrowly, HasWindowsTo};

use crate::index::Index;
use budget::{NoMemory, Steps};
use std::alloc::Global;
use std::marker::Brand;
use std::sync::ledger::{Blank, Ledger};
use window_search::predecessor_in;

/// The window of a level along a lookup: places that hold what is looked for there.
#[derive(Clone, Copy, Debug, PartialEq, Eq)]
pub struct LevelWindow {
    /// The number of the level, 0 the lowest.
    pub level: u32,
    /// The first place of the window and the last.
    pub low: u32,
    pub high: u32,
}

impl Index {
    /// The windows along the lookup of `q`, one of each level, from the last level down to level 0.
    ///
    /// Above level 0 a place is one of the level's list, and at level 0 a position in the file. A
    /// window is that of the run whose points include the last one with an x at most `q`. It has
    /// at most 2ε + 3 places, ε being the level's bound, and holds what is looked for there. No
    /// window exactly where there is no key, or `q` is below the first one.
    ///
    /// These are the windows of the lookup as it is defined, through all levels.
    /// [`Index::lower_bound`] searches others, and reads no more than searching these may take.
    ///
    /// # Errors
    ///
    /// `NoMemory` alone.
    ///
    /// Source: Ferragina and Vinciguerra, PVLDB 13(8), 2020, section 2.
    pub fn windows(&self, alloc: Global, q: u64) -> Result<Vec<LevelWindow>, NoMemory>
        ensures windows { IfOk result (λ windows. AreWindows self.now.keys self.now.eps
            self.now.eps_rec self.now.levels q windows.items) }
        ensures holds { IfOk result (λ windows. All (HoldsNarrowly self.now q) windows.items) }
    {
        let mut windows = Vec::with_capacity(alloc, self.level_count() as usize)?;
        self.windows_into(q, &mut windows);
        Ok(windows)
    }

    /// Puts what [`Index::windows`] gives into a list that is empty and has room for
    /// [`Index::level_count`] windows.
    ///
    /// Cannot fail and takes no memory.
    pub fn windows_into(&self, q: u64, into: &mut Vec<LevelWindow>)
        requires empty { vec_len into.old ≡ 0 }
        requires room { length self.now.levels ≤ vec_capacity into.old }
        ensures windows { AreWindows self.now.keys self.now.eps self.now.eps_rec self.now.levels q
            into.new.items }
        ensures holds { All (HoldsNarrowly self.now q) into.new.items }
        ensures capacity { vec_capacity into.old ≤ vec_capacity into.new }
    {
        windows_from::<Brand>(self, q, into, Blank::new(1));
    }

    /// The windows of the levels, where `q` isn't below the first key.
    fn windows_down<L: Ledger>(&self, q: u64, into: &mut Vec<LevelWindow>, steps: &mut Steps<L>)
        requires laid { IsLaidFile self.now }
        requires some { 0 < length self.now.keys }
        requires from_first { slice_index self.now.keys 0 ≤ q }
        requires empty { vec_len into.old ≡ 0 }
        requires room { length self.now.levels ≤ vec_capacity into.old }
        ensures windows { HasWindowsTo self.now q 0 into.new.items }
        ensures capacity { vec_capacity into.old ≤ vec_capacity into.new }
    {
        let mut level = self.level_count() - 1;
        let mut run = 0;
        while level > 0 {
            let (low, high) = self.push_window(level, run, q, into);
            run = predecessor_in(&self.counted_firsts(level), low, high, q, steps);
            level -= 1;
        }
        let _ = self.push_window(0, run, q, into);
    }

    /// Adds the window of `q` in a run of a level to those of the levels above it, and gives it.
    fn push_window(&self, level: u32, run: u32, q: u64, into: &mut Vec<LevelWindow>) -> (u32, u32)
        requires laid { IsLaidFile self.now }
        requires inside { level < length self.now.levels }
        requires run { IsPredecessor (xs_at self.now.keys self.now.levels (level + 1)) q run }
        requires room { length self.now.levels ≤ vec_capacity into.old }
        requires above { HasWindowsTo self.now q (level + 1) into.old.items }
        ensures windows { HasWindowsTo self.now q level into.new.items }
        ensures capacity { vec_capacity into.old ≤ vec_capacity into.new }
        ensures order { result.0 ≤ result.1 }
        ensures within_list { 0 < level → result.1 ≤ length (xs_at self.now.keys self.now.levels
            level) }
        ensures holds { HoldsAnswers self.now.keys self.now.levels level q result.0 result.1 }
    {
        let (low, high) = self.window_of(level, run, q);
        into.push_reserved(LevelWindow { level, low, high });
        (low, high)
    }
}

/// The windows of `q`, the steps counted in a new ledger.
fn windows_from<L: Ledger>(index: &Index, q: u64, into: &mut Vec<LevelWindow>, blank: Blank)
    requires ledger { IsNewLedger blank L.name L.parts }
    requires empty { vec_len into.old ≡ 0 }
    requires room { length index.now.levels ≤ vec_capacity into.old }
    ensures windows { AreWindows index.now.keys index.now.eps index.now.eps_rec index.now.levels q
        into.new.items }
    ensures holds { All (HoldsNarrowly index.now q) into.new.items }
    ensures capacity { vec_capacity into.old ≤ vec_capacity into.new }
{
    let keys = index.keys().as_slice();
    if keys.is_empty() || q < keys[0] {
        return;
    }
    let _levels = index.level_count();
    let mut steps = Steps::<L>::new(blank);
    index.windows_down(q, into, &mut steps);
}

/// An index has one list of windows for a question: two lists that are it are equal. So has a
/// relaxed one.
pub fn one_list_of_windows()
    ensures index { (keys : List ℕ) (eps eps_rec : ℕ) (levels : List (List Segment)) (q : ℕ)
        (one two : List LevelWindow) → IsNonDecreasing keys →
        IsIndex keys eps eps_rec levels → AreWindows keys eps eps_rec levels q one →
        AreWindows keys eps eps_rec levels q two → one ≡ two }
    ensures laid { (keys : List ℕ) (eps eps_rec : ℕ) (levels : List (List Segment)) (q : ℕ)
        (one two : List LevelWindow) → IsNonDecreasing keys →
        IsLaidIndex keys eps eps_rec levels → AreWindows keys eps eps_rec levels q one →
        AreWindows keys eps eps_rec levels q two → one ≡ two }
{}

/// A question has windows in each index, a relaxed one too: there is a list that is it.
pub fn some_windows()
    ensures index { (keys : List ℕ) (eps eps_rec : ℕ) (levels : List (List Segment)) (q : ℕ) →
        IsNonDecreasing keys → IsIndex keys eps eps_rec levels →
        (windows : List LevelWindow) × AreWindows keys eps eps_rec levels q windows }
    ensures laid { (keys : List ℕ) (eps eps_rec : ℕ) (levels : List (List Segment)) (q : ℕ) →
        IsNonDecreasing keys → IsLaidIndex keys eps eps_rec levels →
        (windows : List LevelWindow) × AreWindows keys eps eps_rec levels q windows }
{}
