// Building an index, level by level.
ghost use Rattle.std.specs.Prelude.{◌≡◌, ℕ, ◌+◌, ◌*◌, ◌<◌};
ghost use Rattle.std.specs.Prelude.{◌≤◌, length, vec_len};
ghost use Rattle.std.specs.Prelude.{◌-◌, slice_index, slice_index_or, IfOk};
ghost use Rattle.budget.specs.Ledgers.{IsNewLedger};
ghost use Rattle.exact_cross.specs.Points.{points_of};
ghost use Rattle.exact_cross.specs.PointLists.{points_in};
ghost use Rattle.key_points.specs.KeyPoints.{xs_of, ys_of};
ghost use Rattle.exact_cross.specs.declared.segment.Segment.{Segment};
ghost use Rattle.exact_cross.specs.Segmentation.{IsSegmentation};
ghost use Rattle.exact_cross.specs.Checked.{IsCoverWithin, uncut};
ghost use Rattle.exact_cross.specs.Segments.{starts_of};
ghost use Rattle.piece_join.specs.Cuttings.{AreFewCuts};
ghost use Rattle.piece_join.specs.Laid.{IsLaid};
ghost use Rattle.exact_cross.specs.IndexLevels.{first_xs, level_at};
ghost use Rattle.levels.specs.Indexes.{IsIndexOf, IsRelaxedIndexOf, xs_at, places_below};
ghost use Rattle.levels.specs.Models.{AreModels, IsEndOf, IsModelOf};
ghost use Rattle.levels.specs.Stored.{AreLevels, AreStored, IsNextLevel, segments_of};

use crate::index::{Index, firsts_at};
use crate::level::{Level, Runs};
use crate::model::RunModel;
use budget::{NoMemory, Steps};
use edge::Gate;
use exact_cross::{MAX_EPSILON, PointList, Segment, start_at};
use key_points::{KeyPoints, Keys, places_of};
use options::{Bounds, Workers};
use piece_join::{relaxed, segment_in_pieces, uneven_cuts};
use segmenter::segment_counted;
use std::alloc::Global;
use std::marker::Brand;
use std::sync::ledger::{Blank, Ledger};
use std::thread::Threads;

impl Index {
    /// The index of keys, built on the calling thread.
    ///
    /// The bound ε of level 0 is in positions of the file, and that of the levels above in places
    /// of their lists; 64 and 4 serve most keys. A caller that hasn't shown that its keys never
    /// fall makes them by [`Keys::tested`].
    ///
    /// # Errors
    ///
    /// `NoMemory` alone. Then the keys are given up.
    ///
    /// Source: Ferragina and Vinciguerra, PVLDB 13(8), 2020, section 2.
    pub fn of(alloc: Global, keys: Keys, bounds: Bounds) -> Result<Index, NoMemory>
        ensures index { IfOk result (IsIndexOf keys bounds.eps bounds.eps_rec) }
    {
        Index::here::<Brand>(alloc, keys, bounds, Blank::new(1))
    }

    /// The index of keys that [`Index::of`] gives, its level 0 built by several workers.
    ///
    /// The points of the keys are cut into 8 uneven pieces a worker, and each of the `workers`
    /// draws pieces until there are none left. Where a thread can't be started the caller does its
    /// work. The gate is passed as by [`Index::build`]; `&OpenGate` holds nobody.
    ///
    /// # Errors
    ///
    /// `NoMemory` alone. Then the keys are given up.
    ///
    /// Source: Ferragina and Vinciguerra, PVLDB 13(8), 2020, sections 2 and 3.1.
    pub fn by_workers<R: Threads + Sync, G: Gate>(
        rt: &R,
        alloc: Global,
        keys: Keys,
        bounds: Bounds,
        workers: Workers,
        gate: &G,
    ) -> Result<Index, NoMemory>
        ensures index { IfOk result (IsIndexOf keys bounds.eps bounds.eps_rec) }
    {
        let cuts = uneven_cuts(alloc, keys.point_count(), workers)?;
        Index::build(rt, alloc, keys, bounds, &cuts, workers, gate)
    }

    /// The index of keys, built on the calling thread, which counts its steps.
    ///
    /// It takes at most 12 steps for each place of the lists of all its levels; a step is a
    /// comparison of two slopes or a test of a point against a line.
    ///
    /// # Errors
    ///
    /// `NoMemory` alone. Then the keys are given up.
    ///
    /// Source: Ferragina and Vinciguerra, PVLDB 13(8), 2020, section 2.
    pub fn build_here<L: Ledger>(
        alloc: Global,
        keys: Keys,
        bounds: Bounds,
        steps: &mut Steps<L>,
    ) -> Result<Index, NoMemory>
        ensures index { IfOk result (IsIndexOf keys bounds.eps bounds.eps_rec) }
        ensures cost { IfOk result (λ index. steps.new ≤ steps.old
            + 12 * places_below keys index.levels (length index.levels)) }
    {
        let points = keys.points(alloc)?;
        let list = points.points();
        let segments = segment_counted(alloc, list, bounds.eps, 0, list.xs.len() as u32, steps)?;
        let stored = levels_over(alloc, &points, segments, bounds, steps)?;
        drop(points);
        Index::from_levels(alloc, keys, bounds, stored)
    }

    /// The index of keys, level 0 built piece by piece by several workers, and the levels above on
    /// the calling thread: the same index as [`Index::of`] gives, for all cuts, numbers of workers
    /// and gates.
    ///
    /// The points of the keys are cut into pieces before each place of `cuts`, which rise strictly
    /// from 1 to the last place and are 65,535 at most. Each of the `workers` draws pieces until
    /// there are none left. The gate is passed at `PieceBegun` before each piece of level 0 and at
    /// `PieceDone` after it, with the piece's number. The call returns only if the gate does, and
    /// then no worker runs any more.
    ///
    /// # Errors
    ///
    /// `NoMemory` alone. Then the keys are given up.
    ///
    /// Source: Ferragina and Vinciguerra, PVLDB 13(8), 2020, sections 2 and 3.1.
    pub fn build<R: Threads + Sync, G: Gate>(
        rt: &R,
        alloc: Global,
        keys: Keys,
        bounds: Bounds,
        cuts: &[u32],
        workers: Workers,
        gate: &G,
    ) -> Result<Index, NoMemory>
        requires cuts { AreFewCuts (length (xs_of keys)) cuts.now }
        ensures index { IfOk result (IsIndexOf keys bounds.eps bounds.eps_rec) }
    {
        let points = keys.points(alloc)?;
        let list = points.points();
        let segments = segment_in_pieces(rt, alloc, list, bounds.eps, cuts, workers, gate)?;
        let ledger = Blank::new(1);
        let stored = levels_from::<Brand>(alloc, &points, segments, bounds, ledger)?;
        drop(points);
        Index::from_levels(alloc, keys, bounds, stored)
    }

    /// A relaxed index of keys: level 0 is built piece by piece by several workers as by
    /// [`Index::build`], but the pieces are put side by side as they are. The levels above stand on
    /// the first x of these runs as ever.
    ///
    /// No piece waits for another, and level 0 has at most one run more for each cut than a least
    /// cover. The last run of each piece has no cut, so the slack that a checker finds is the
    /// number of cuts. Lookups find what they find in [`Index::build`]'s index. The index is the
    /// same for all numbers of workers and gates. Conditions, gate and workers are as there.
    ///
    /// # Errors
    ///
    /// `NoMemory` alone. Then the keys are given up.
    pub fn build_relaxed<R: Threads + Sync, G: Gate>(
        rt: &R,
        alloc: Global,
        keys: Keys,
        bounds: Bounds,
        cuts: &[u32],
        workers: Workers,
        gate: &G,
    ) -> Result<Index, NoMemory>
        requires cuts { AreFewCuts (length (xs_of keys)) cuts.now }
        ensures relaxed { IfOk result
            (IsRelaxedIndexOf keys bounds.eps bounds.eps_rec cuts.now) }
        ensures slack { IfOk result (λ index. 0 < length keys →
            uncut (level_at index.levels 0) ≡ length cuts.now + 1) }
        // Level 0 is a cover, and any other one has at most one run fewer for each cut.
        ensures within { IfOk result (λ index. 0 < length keys → IsCoverWithin (length cuts.now)
            (points_of (xs_of keys) (ys_of keys)) bounds.eps 0 (length (xs_of keys))
            (starts_of (level_at index.levels 0))) }
    {
        let points = keys.points(alloc)?;
        let list = points.points();
        let segments = relaxed(rt, alloc, list, bounds.eps, cuts, workers, gate)?;
        let ledger = Blank::new(1);
        let stored = levels_from::<Brand>(alloc, &points, segments, bounds, ledger)?;
        drop(points);
        Index::from_levels(alloc, keys, bounds, stored)
    }

    /// The index of keys, its steps counted from a new ledger.
    fn here<L: Ledger>(
        alloc: Global,
        keys: Keys,
        bounds: Bounds,
        blank: Blank,
    ) -> Result<Index, NoMemory>
        requires ledger { IsNewLedger blank L.name L.parts }
        ensures index { IfOk result (IsIndexOf keys bounds.eps bounds.eps_rec) }
    {
        let mut steps = Steps::<L>::new(blank);
        Index::build_here(alloc, keys, bounds, &mut steps)
    }
}

/// All levels over the segments of level 0, the steps counted in a new ledger.
fn levels_from<L: Ledger>(
    alloc: Global,
    points: &KeyPoints,
    segments: Vec<Segment>,
    bounds: Bounds,
    blank: Blank,
) -> Result<Vec<Level>, NoMemory>
    requires segments { IsLaid (points_of (xs_of points.now) (ys_of points.now)) bounds.eps 0
        (length (xs_of points.now)) segments.items }
    requires ledger { IsNewLedger blank L.name L.parts }
    ensures stored { IfOk result (λ levels.
        AreStored points.now bounds.eps bounds.eps_rec levels.items) }
    ensures base { IfOk result (λ levels. 0 < vec_len levels →
        level_at (segments_of levels.items) 0 ≡ segments.items) }
{
    let mut steps = Steps::<L>::new(blank);
    levels_over(alloc, points, segments, bounds, &mut steps)
}

/// All levels, over the segments of level 0.
fn levels_over<L: Ledger>(
    alloc: Global,
    points: &KeyPoints,
    segments: Vec<Segment>,
    bounds: Bounds,
    steps: &mut Steps<L>,
) -> Result<Vec<Level>, NoMemory>
    requires segments { IsLaid (points_of (xs_of points.now) (ys_of points.now)) bounds.eps 0
        (length (xs_of points.now)) segments.items }
    ensures stored { IfOk result (λ levels.
        AreStored points.now bounds.eps bounds.eps_rec levels.items) }
    ensures base { IfOk result (λ levels. 0 < vec_len levels →
        level_at (segments_of levels.items) 0 ≡ segments.items) }
    // The steps that level 0 takes are left to the caller.
    ensures cost { IfOk result (λ levels. steps.new + 12 * length (xs_of points.now) ≤ steps.old
        + 12 * places_below points.now (segments_of levels.items) (vec_len levels)) }
{
    let mut levels = Vec::new(alloc);
    if points.keys().is_empty() {
        return Ok(levels);
    }
    let mut runs = segments.len();
    levels.push(level_0(alloc, points, segments, bounds.eps)?)?;
    while runs != 1 {
        let level = level_above(alloc, points, &levels, bounds, steps)?;
        runs = level.segments.len();
        levels.push(level)?;
    }
    Ok(levels)
}

/// Level 0 of its segments.
fn level_0(
    alloc: Global,
    points: &KeyPoints,
    segments: Vec<Segment>,
    eps: u32,
) -> Result<Level, NoMemory>
    requires bounded { eps ≤ MAX_EPSILON }
    requires segments { IsLaid (points_of (xs_of points.now) (ys_of points.now)) eps 0
        (length (xs_of points.now)) segments.items }
    ensures segments { IfOk result (λ level. level.segments ≡ segments) }
    ensures models { IfOk result (λ level. AreModels
        (points_of (xs_of points.now) (ys_of points.now)) eps (length (xs_of points.now))
        segments.items level.models.items) }
{
    let models = models_over(alloc, points.points(), &segments, eps)?;
    Ok(Level {
        segments,
        models,
        xs: Vec::new(alloc),
    })
}

/// The level above those so far.
fn level_above<L: Ledger>(
    alloc: Global,
    points: &KeyPoints,
    levels: &[Level],
    bounds: Bounds,
    steps: &mut Steps<L>,
) -> Result<Level, NoMemory>
    requires levels { AreLevels points.now bounds.eps bounds.eps_rec levels.now }
    requires some { 0 < length levels.now }
    ensures next { IfOk result (IsNextLevel points.now bounds.eps bounds.eps_rec levels.now) }
    ensures cost { IfOk result (λ level. steps.new ≤ steps.old
        + 12 * length (xs_at points.now (segments_of levels.now) (length levels.now))) }
{
    let below = levels.len() - 1;
    let level = &levels[below];
    let xs = first_xs_of(alloc, list_at(points, levels, below), &level.segments)?;
    let ys = places_of(alloc, xs.len() as u32)?;
    let list = PointList::new(xs.as_slice(), ys.as_slice());
    let runs = runs_over(alloc, list, bounds.eps_rec, steps)?;
    let Runs { segments, models } = runs;
    Ok(Level {
        segments,
        models,
        xs,
    })
}

/// The x of level `i` of the levels so far.
fn list_at<'a>(points: &'a KeyPoints, levels: &'a [Level], i: usize) -> &'a [u64]
    requires inside { i < length levels.now }
    requires levels { (eps : ℕ) × (eps_rec : ℕ) × AreLevels points.now eps eps_rec levels.now }
    ensures { result.now ≡ xs_at points.now (segments_of levels.now) i }
{
    if i == 0 {
        return points.points().xs;
    }
    firsts_at(levels, i)
}

/// The segmentation of all points of a list, with the models of its runs.
fn runs_over<L: Ledger>(
    alloc: Global,
    points: PointList<'_>,
    eps: u32,
    steps: &mut Steps<L>,
) -> Result<Runs, NoMemory>
    requires bounded { eps ≤ MAX_EPSILON }
    ensures segments { IfOk result (λ runs. IsSegmentation (points_in points.entry) eps 0
        (length points.entry.xs.now) runs.segments.items) }
    ensures models { IfOk result (λ runs. AreModels (points_in points.entry) eps
        (length points.entry.xs.now) runs.segments.items runs.models.items) }
    ensures cost { steps.new ≤ steps.old + 12 * length points.entry.xs.now }
{
    let segments = segment_counted(alloc, points, eps, 0, points.xs.len() as u32, steps)?;
    let models = models_over(alloc, points, &segments, eps)?;
    Ok(Runs { segments, models })
}

/// The model of each run.
fn models_over(
    alloc: Global,
    points: PointList<'_>,
    segments: &[Segment],
    eps: u32,
) -> Result<Vec<RunModel>, NoMemory>
    requires bounded { eps ≤ MAX_EPSILON }
    requires segments { IsLaid (points_in points) eps 0 (length points.xs.now) segments.now }
    ensures { IfOk result (λ models. AreModels (points_in points.entry) eps
        (length points.entry.xs.now) segments.now models.items) }
{
    let mut models = Vec::with_capacity(alloc, segments.len())?;
    for run in 0..segments.len() {
        models.push(model_at(points, segments, eps, run))?;
    }
    Ok(models)
}

/// The model of a run.
fn model_at(points: PointList<'_>, segments: &[Segment], eps: u32, run: usize) -> RunModel
    requires bounded { eps ≤ MAX_EPSILON }
    requires segments { IsLaid (points_in points) eps 0 (length points.xs.now) segments.now }
    requires inside { run < length segments.now }
    ensures { (e : ℕ) (d : Segment) → IsEndOf segments.now (length points.entry.xs.now) run e →
        IsModelOf (slice_index_or segments.now run d).line
        (slice_index points.entry.xs.now (slice_index_or segments.now run d).start)
        (slice_index points.entry.ys.now (e - 1)) eps result }
{
    let segment = &segments[run];
    let end = start_at(segments, run + 1, points.xs.len() as u32) as usize;
    let first = points.xs[segment.start as usize];
    let high = points.ys[end - 1];
    RunModel::of(&segment.line, first, high, eps)
}

/// The first x of each run.
fn first_xs_of(alloc: Global, xs: &[u64], segments: &[Segment]) -> Result<Vec<u64>, NoMemory>
    requires { (k : ℕ) (d : Segment) → k < length segments.now →
        (slice_index_or segments.now k d).start < length xs.now }
    ensures { IfOk result (λ list. list.items ≡ first_xs xs.now segments.now) }
{
    let mut list = Vec::with_capacity(alloc, segments.len())?;
    for segment in segments {
        list.push(xs[segment.start as usize])?;
    }
    Ok(list)
}
