// Where a question's position is, for callers that interleave searches of several files.
ghost use Rattle.std.specs.Prelude.{◌≡◌, ◌+◌, ◌*◌, ◌<◌, min, length};
ghost use Rattle.budget.specs.Ledgers.{IsNewLedger};
ghost use Rattle.key_search.specs.Interleaved.{HasBound};
ghost use Rattle.window_search.specs.Searches.{lb};

use crate::index::Index;
use budget::Steps;
use key_search::position_near;
use std::marker::Brand;
use std::sync::ledger::{Blank, Ledger};

/// How many groups of eight keys have the `2ε + 3` places of a window.
const GROUPS: usize = 17;

impl Index {
    /// Where the places of the file begin among which the position of `q` is: how many of its keys
    /// are below `q`. They are `2ε + 3`, as many as a window has, or, where that is more than the
    /// positions are, all. Where there is no key, 0.
    ///
    /// The run of level 0 is found as in [`Index::lower_bound`]. Of the file the first key alone is
    /// read, so that callers may let the reads of several files overlap. No steps are counted for
    /// the caller. Cannot fail and takes no memory.
    #[inline]
    pub fn start_near(&self, q: u64) -> u32
        ensures { 0 < length self.now.keys →
            HasBound self.now.keys q result (min (2 * self.now.eps + 3)
            (length self.now.keys + 1)) }
    {
        if self.keys().is_empty() {
            return 0;
        }
        start_from::<Brand>(self, q, Blank::new(1))
    }

    /// The position of `q` in the file, by where its places are said to begin. It is the position
    /// whatever is said.
    ///
    /// Seventeen groups of eight keys are looked at from there on
    /// ([`key_search::position_near`]), in which are the places of [`Index::start_near`] where the
    /// error bound is at most [`options::EPS`]. Where the position isn't there it is searched as by
    /// [`Index::position`]. Cannot fail and takes no memory.
    #[inline]
    pub fn position_near(&self, start: usize, q: u64) -> u32
        ensures { result ≡ lb self.now.keys q }
    {
        let keys = self.keys().as_slice();
        match position_near(keys, start, GROUPS, q) {
            Some(place) => place as u32,
            None => self.position(q),
        }
    }
}

/// Where the places of `q` begin, as [`Index::start_near`] says, the steps counted in a new ledger.
#[inline(always)]
fn start_from<L: Ledger>(index: &Index, q: u64, blank: Blank) -> u32
    requires some { 0 < length index.now.keys }
    requires ledger { IsNewLedger blank L.name L.parts }
    ensures { HasBound index.now.keys q result (min (2 * index.now.eps + 3)
        (length index.now.keys + 1)) }
{
    let mut steps = Steps::<L>::new(blank);
    let keys = index.keys().as_slice();
    let _levels = index.level_count();
    let asked = q.max(keys[0]);
    let run = index.run_of(asked, &mut steps);
    let count = (2 * u64::from(index.eps_of(0)) + 3).min(keys.len() as u64 + 1);
    index.start_bound(run, asked, count)
}
