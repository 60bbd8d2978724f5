// What finds positions: the levels of an index, a table in place of those above level 0, or the
// sorted keys alone.
ghost use Rattle.std.specs.Prelude.{◌≡◌, ◌+◌, ◌++◌, ◌<◌, ◌≤◌, ◌^◌, length, map};
ghost use Rattle.std.specs.Prelude.{vec_capacity, vec_len, IfOk};
ghost use Rattle.std.specs.List.Sorted.{IsNonDecreasing};
ghost use Rattle.window_search.specs.Searches.{lb};
ghost use Rattle.commands.specs.Finders.{keys_of, FindsBy};

use crate::task::SortedKeys;
use bucketed::Buckets;
use budget::NoMemory;
use key_search::{positions_among, positions_grouped};
use levels::Index;
use options::Table;
use std::alloc::Global;

/// So many questions are grouped by where they fall among the sorted keys: fewer gain little by it.
const GROUP_FROM_QUESTIONS: usize = 65_536;

/// Finds how many keys are below a question.
#[derive(Drop)]
pub enum Finder<'a> {
    /// By the levels of an index.
    Levels(&'a Index),
    /// By a table over level 0.
    Table(Buckets<'a>),
    /// By halving the keys, without an index.
    Sorted(&'a SortedKeys),
}

impl<'a> Finder<'a> {
    /// A finder over an index: by a table, or where it goes by no bits of a key by the levels.
    pub fn of(alloc: Global, index: &'a Index, table: Table) -> Result<Finder<'a>, NoMemory>
        ensures keys { IfOk result (λ finder. keys_of finder ≡ index.now.keys) }
        ensures way { IfOk result (FindsBy index.now table.bits) }
    {
        if table.bits == 0 {
            Ok(Finder::Levels(index))
        } else {
            Ok(Finder::Table(Buckets::build(alloc, index, table.bits)?))
        }
    }

    /// Whether it gains by many questions at once: it groups them by where they fall.
    pub fn is_grouping(&self) -> bool {
        matches!(self, Finder::Sorted(_))
    }

    /// The positions of questions, behind what the list has, which has room for them.
    ///
    /// Memory that it asks for is given up again, and where there is none it goes without.
    pub fn positions(&self, alloc: Global, questions: &[u64], into: &mut Vec<u32>)
        requires room { vec_len into.old + length questions.now ≤ vec_capacity into.old }
        ensures positions { into.new.items
            ≡ into.old.items ++ map (lb (keys_of self.now)) questions.now }
        ensures capacity { vec_capacity into.old ≤ vec_capacity into.new }
    {
        match self {
            Finder::Levels(index) => index.positions(questions, into),
            Finder::Table(buckets) => buckets.positions(questions, into),
            Finder::Sorted(sorted) => positions_of_keys(alloc, &sorted.keys, questions, into),
        }
    }
}

/// The positions of questions by halving the keys, many of them grouped by where they fall.
fn positions_of_keys(alloc: Global, keys: &[u64], questions: &[u64], into: &mut Vec<u32>)
    requires never_falls { IsNonDecreasing keys.now }
    requires few { length keys.now < 2 ^ 32 }
    requires room { vec_len into.old + length questions.now ≤ vec_capacity into.old }
    ensures positions { into.new.items ≡ into.old.items ++ map (lb keys.now) questions.now }
    ensures capacity { vec_capacity into.old ≤ vec_capacity into.new }
{
    if questions.len() < GROUP_FROM_QUESTIONS || questions.len() > u32::MAX as usize {
        positions_among(keys, questions, into);
    } else {
        positions_grouped(alloc, keys, questions, into);
    }
}
