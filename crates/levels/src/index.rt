// The recursive index, and its parts.
ghost use Rattle.std.specs.Prelude.{◌≡◌, ◌-◌, ◌<◌, ◌≤◌, ℕ, List, IfOk, IfSome, length};
ghost use Rattle.std.specs.Prelude.{slice_index, slice_index_or};
ghost use Rattle.std.specs.List.Sorted.{IsNonDecreasing};
ghost use Rattle.exact_cross.specs.declared.segment.Segment.{Segment};
ghost use Rattle.exact_cross.specs.Checked.{IsLeastCover, AreChecked, AreShown};
ghost use Rattle.exact_cross.specs.Segments.{starts_of};
ghost use Rattle.exact_cross.specs.IndexLevels.{level_at};
ghost use Rattle.levels.specs.Indexes.{IsIndex, IsRelaxedIndex, IsLaidIndex, IsLevel};
ghost use Rattle.exact_cross.specs.IndexLevels.{eps_at};
ghost use Rattle.levels.specs.Indexes.{xs_at, ys_at, points_at};
ghost use Rattle.key_points.specs.KeyPoints.{xs_of};
ghost use Rattle.piece_join.specs.Cuttings.{AreCuts};
ghost use Rattle.levels.specs.Heights.{IsLow, IsLowOverRuns, HasLongRuns, least_places};
ghost use Rattle.levels.specs.Models.{IsEndOf, IsModelOf};
ghost use Rattle.levels.specs.Entries.{IsEntry};
ghost use Rattle.levels.specs.Stored.{AreLevels, AreStored, index_of, segments_of};
ghost use Rattle.levels.specs.Entries.{share_of};
ghost use Rattle.radix_table.specs.Tables.{IsBetween, IsLedTo, IsTableOf};

use crate::entry::{entry_of, share};
use crate::level::Level;
use crate::model::RunModel;
use budget::NoMemory;
use exact_cross::{MAX_EPSILON, Segment};
use key_points::{Keys, places_of};
use options::Bounds;
use radix_table::RadixTable;
use std::alloc::Global;
use std::marker::Model;

/// The recursive PGM-index of the keys of a file. Seen as a record of the keys, the two error
/// bounds and the segments of each level, the lowest first.
///
/// 1. Level 0 stands on the points of the keys, and each level above on the first x of the runs
///    below it. Each run has a line within the level's bound. The last level is the first with one
///    run. No key, no level.
/// 2. Each level above level 0 has the fewest segments that lines within its bound can do with. So
///    has level 0 of the one index of its keys and bounds ([`Index::build`]). That of a relaxed one
///    ([`Index::build_relaxed`]) has at most one more for each cut. A lookup is the same in both.
/// 3. What a lookup doesn't read isn't kept. Of the keys that is all but the keys themselves: their
///    points are made while level 0 is built, and dropped.
/// 4. A run takes 72 bytes for its segment and 48 for its model, by which a lookup predicts places
///    without a division, and 8 for its first x, where there is a level above.
/// 5. A table leads to the few runs of level 0 that a question can be in, where that takes no more
///    steps than the levels above may. It has at most 32 bytes a run and 8 more.
///
/// Source: Ferragina and Vinciguerra, PVLDB 13(8), 2020, section 2.
#[derive(Drop)]
pub struct Index {
    keys: Keys,
    bounds: Bounds,
    stored: Vec<Level>,
    /// Where lookups start that the table doesn't lead.
    entry: u32,
    /// Over the first x of the runs of level 0.
    table: RadixTable,
}

impl Model for Index {
    ghost use Rattle.levels.specs.Indexes.{PgmIndex};

    ghost Value = { PgmIndex };

    ghost use Rattle.levels.specs.Stored.{segments_of};
    ghost use Rattle.levels.specs.Entries.{IsWhole};

    ghost view = { λ index. record {
      keys = index.keys;
      eps = index.bounds.eps;
      eps_rec = index.bounds.eps_rec;
      levels = segments_of index.stored.items;
    } };

    ghost invariant = { λ index.
        IsWhole index.keys index.bounds.eps index.bounds.eps_rec index.stored.items index.entry
        index.table };
}

impl Index {
    /// An index of its parts.
    ///
    /// # Errors
    ///
    /// `NoMemory` alone.
    pub(crate) fn from_levels(
        alloc: Global,
        keys: Keys,
        bounds: Bounds,
        stored: Vec<Level>,
    ) -> Result<Index, NoMemory>
        requires { AreStored keys bounds.eps bounds.eps_rec stored.items }
        ensures { IfOk result (λ index.
            index ≡ index_of keys bounds.eps bounds.eps_rec stored.items) }
    {
        let entry = entry_of(&keys, bounds.eps_rec, &stored);
        let table = table_of(alloc, &keys, bounds.eps_rec, &stored)?;
        Ok(Index {
            keys,
            bounds,
            stored,
            entry,
            table,
        })
    }

    /// The first and the last of the runs of level 0 among which is the last one that begins at or
    /// before `q`, where the table leads there. Their number keeps to what the levels above may
    /// take.
    #[inline(always)]
    pub(crate) fn runs_near(&self, q: u64) -> Option<(u32, u32)>
        ensures { IfSome result (λ runs. IsLedTo (xs_at self.now.keys self.now.levels 1) q
            (share_of self.now.eps_rec (length self.now.levels)) runs.0 runs.1) }
    {
        self.table.places(q)
    }

    /// At least and at most how many runs of level 0 begin at or before `q`: the counts that are
    /// known, narrowed by the table of the runs' first x.
    #[inline(always)]
    pub(crate) fn begun_between(&self, q: u64, least: u32, most: u32) -> (u32, u32)
        requires between { IsBetween (xs_at self.now.keys self.now.levels 1) q least most }
        ensures between { IsBetween (xs_at self.now.keys self.now.levels 1) q result.0 result.1 }
        ensures narrower { result.1 - result.0 ≤ most - least }
    {
        match self.table.counts(q) {
            Some((from, to)) => (least.max(from), most.min(to)),
            None => (least, most),
        }
    }

    /// The level at which lookups start that the table doesn't lead.
    pub(crate) fn entry(&self) -> u32
        ensures entry { IsEntry self.now.keys self.now.eps_rec self.now.levels result }
        ensures index { IsLaidIndex self.now.keys self.now.eps self.now.eps_rec self.now.levels }
    {
        self.entry
    }

    /// How many levels there are, none where there is no key.
    ///
    /// They are few: two levels or more have more than `(2ε' + 2)^(levels - 2)` runs at level 0,
    /// where ε' is the bound above level 0. In the one index of the keys, where each run but the
    /// last one has two points or more, they stand on more than twice as many points.
    pub fn level_count(&self) -> u32
        ensures count { result ≡ length self.now.levels }
        ensures index { IsLaidIndex self.now.keys self.now.eps self.now.eps_rec self.now.levels }
        ensures few_over_runs { IsLowOverRuns self.now.eps_rec result
            (length (level_at self.now.levels 0)) }
        ensures few { IsIndex self.now.keys self.now.eps self.now.eps_rec self.now.levels →
            IsLow self.now.eps_rec result (length (xs_of self.now.keys)) }
    {
        self.stored.len() as u32
    }

    /// The segments of level `i`, counted from 0, the lowest.
    ///
    /// They cover the level's points, and a checker of covers whose runs may lack a cut takes them.
    /// Where they are the segmentation of these points, as those of each level above level 0 are,
    /// they are as few as lines within the level's bound can do with, a checker of covers takes
    /// them, and each run but the last one has 2 places or more at level 0, and `2ε' + 2` above it.
    pub fn segments(&self, i: u32) -> &[Segment]
        requires { i < length self.now.levels }
        ensures segments { result.now ≡ level_at self.now.levels i }
        ensures shown { AreShown (points_at self.now.keys self.now.levels i)
            (eps_at self.now.eps self.now.eps_rec i) result.now }
        ensures above { 0 < i →
            IsLevel self.now.keys self.now.eps self.now.eps_rec self.now.levels i }
        ensures least { IsLevel self.now.keys self.now.eps self.now.eps_rec self.now.levels i →
            IsLeastCover (points_at self.now.keys self.now.levels i)
            (eps_at self.now.eps self.now.eps_rec i) 0
            (length (xs_at self.now.keys self.now.levels i)) (starts_of result.now) }
        ensures checked { IsLevel self.now.keys self.now.eps self.now.eps_rec self.now.levels i →
            AreChecked (points_at self.now.keys self.now.levels i)
            (eps_at self.now.eps self.now.eps_rec i) result.now }
        ensures long { IsLevel self.now.keys self.now.eps self.now.eps_rec self.now.levels i →
            HasLongRuns (least_places self.now.eps_rec i) result.now }
    {
        let level = &self.stored[i as usize];
        &level.segments
    }

    /// How many points level `i` has: at level 0 those of the keys, and above one for each run
    /// below. Cannot fail and takes no memory.
    pub fn point_count(&self, i: u32) -> u32
        requires { i < length self.now.levels }
        ensures { result ≡ length (xs_at self.now.keys self.now.levels i) }
    {
        if i == 0 {
            self.keys.point_count()
        } else {
            self.firsts(i).len() as u32
        }
    }

    /// The x of level `i`: at level 0 those of the points of the keys, above the first x of the
    /// runs below. They rise. The list is made, and at level 0 the points before it.
    ///
    /// # Errors
    ///
    /// `NoMemory` alone.
    pub fn xs(&self, alloc: Global, i: u32) -> Result<Vec<u64>, NoMemory>
        requires { i < length self.now.levels }
        ensures { IfOk result (λ xs. xs.items ≡ xs_at self.now.keys self.now.levels i) }
    {
        if i == 0 {
            let points = self.keys.points(alloc)?;
            let list = points.points();
            return Ok(Vec::from_slice(alloc, list.xs)?);
        }
        Ok(Vec::from_slice(alloc, self.firsts(i))?)
    }

    /// The y of level `i`: at level 0 the positions of its x in the file, above the places 0, 1, ..
    /// The list is made, and at level 0 the points before it.
    ///
    /// # Errors
    ///
    /// `NoMemory` alone.
    pub fn ys(&self, alloc: Global, i: u32) -> Result<Vec<u32>, NoMemory>
        requires { i < length self.now.levels }
        ensures { IfOk result (λ ys. ys.items ≡ ys_at self.now.keys self.now.levels i) }
    {
        if i == 0 {
            let points = self.keys.points(alloc)?;
            let list = points.points();
            return Ok(Vec::from_slice(alloc, list.ys)?);
        }
        places_of(alloc, self.firsts(i).len() as u32)
    }

    /// The x of level `i`, above level 0: the first x of the runs below. They rise.
    #[inline(always)]
    pub(crate) fn firsts(&self, i: u32) -> &[u64]
        requires above { 0 < i }
        requires inside { i < length self.now.levels }
        ensures { result.now ≡ xs_at self.now.keys self.now.levels i }
    {
        firsts_at(&self.stored, i as usize)
    }

    /// The error bound of level `i`.
    pub(crate) fn eps_of(&self, i: u32) -> u32
        ensures bound { result ≡ eps_at self.now.eps self.now.eps_rec i }
        ensures bounded { result ≤ MAX_EPSILON }
    {
        if i == 0 {
            self.bounds.eps
        } else {
            self.bounds.eps_rec
        }
    }

    /// The model of a run of a level.
    #[inline(always)]
    pub(crate) fn model_of(&self, level: u32, run: u32) -> &RunModel
        requires inside { level < length self.now.levels }
        requires run { run < length (level_at self.now.levels level) }
        ensures { (e : ℕ) (d : Segment) → IsEndOf (level_at self.now.levels level)
            (length (xs_at self.now.keys self.now.levels level)) run e →
            let segment = slice_index_or (level_at self.now.levels level) run d in
            IsModelOf segment.line
            (slice_index (xs_at self.now.keys self.now.levels level) segment.start)
            (slice_index (ys_at self.now.keys self.now.levels level) (e - 1))
            (eps_at self.now.eps self.now.eps_rec level) result.now }
    {
        let level = &self.stored[level as usize];
        &level.models[run as usize]
    }

    /// The keys.
    pub fn keys(&self) -> &Keys
        ensures { result.now ≡ self.now.keys }
    {
        &self.keys
    }
}

/// The table over the first x of the runs of level 0, which has no entry where there is but one
/// level.
fn table_of(
    alloc: Global,
    _keys: &Keys,
    eps_rec: u32,
    levels: &[Level],
) -> Result<RadixTable, NoMemory>
    requires stored { (eps : ℕ) × AreStored _keys.now eps eps_rec levels.now }
    ensures { IfOk result (IsTableOf (xs_at _keys.now (segments_of levels.now) 1)
        (share_of eps_rec (length levels.now))) }
{
    if levels.len() < 2 {
        return Ok(RadixTable::empty(alloc));
    }
    RadixTable::over(alloc, firsts_at(levels, 1), share(eps_rec, levels.len()))
}

/// The x that a level above level 0 keeps.
#[inline(always)]
pub fn firsts_at(levels: &[Level], i: usize) -> &[u64]
    requires above { 0 < i }
    requires inside { i < length levels.now }
    ensures { (keys : List ℕ) (eps eps_rec : ℕ) → AreLevels keys eps eps_rec levels.now →
        result.now ≡ xs_at keys (segments_of levels.now) i }
{
    let level = &levels[i];
    &level.xs
}

/// Keys and error bounds have one index: two lists of levels that are one are equal.
pub fn one_index()
    ensures { (keys : List ℕ) (eps eps_rec : ℕ) (one two : List (List Segment)) →
        IsIndex keys eps eps_rec one → IsIndex keys eps eps_rec two → one ≡ two }
{}

/// Keys that never fall have an index, whatever the error bounds: there is a list of levels that is
/// it.
pub fn some_index()
    ensures { (keys : List ℕ) (eps eps_rec : ℕ) → IsNonDecreasing keys →
        (levels : List (List Segment)) × IsIndex keys eps eps_rec levels }
{}

/// Keys, error bounds and cuts have one relaxed index: two lists of levels that are one are equal.
pub fn one_relaxed_index()
    ensures { (keys : List ℕ) (eps eps_rec : ℕ) (cuts : List ℕ) (one two : List (List Segment)) →
        IsRelaxedIndex keys eps eps_rec cuts one → IsRelaxedIndex keys eps eps_rec cuts two →
        one ≡ two }
{}

/// The one index of keys has what lookups need of levels, and so has a relaxed one.
pub fn each_index_is_laid()
    ensures index { (keys : List ℕ) (eps eps_rec : ℕ) (levels : List (List Segment)) →
        IsIndex keys eps eps_rec levels → IsLaidIndex keys eps eps_rec levels }
    ensures relaxed { (keys : List ℕ) (eps eps_rec : ℕ) (cuts : List ℕ)
        (levels : List (List Segment)) →
        AreCuts (length (xs_of keys)) cuts → IsRelaxedIndex keys eps eps_rec cuts levels →
        IsLaidIndex keys eps eps_rec levels }
{}
