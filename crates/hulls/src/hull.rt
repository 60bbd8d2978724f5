// The steep pair of a run, and the hull on which the next pair's lower place is found.
ghost use Rattle.std.specs.Prelude.{◌≡◌, ℕ, ◌+◌, ◌*◌, ◌-◌, ◌<◌, ◌≤◌, IfOk, length, []};
ghost use Rattle.std.specs.Prelude.{vec_capacity};
ghost use Rattle.std.specs.Bool.{OnTrue, OnFalse};
ghost use Rattle.exact_cross.specs.Points.{Points};
ghost use Rattle.hulls.specs.Slopes.{steepest};
ghost use Rattle.exact_cross.specs.Slopes.{IsAtMost};
ghost use Rattle.hulls.specs.Vertices.{vertex_at, vertex_of, lifted_slope};
ghost use Rattle.hulls.specs.Hull.{IsHullOf, IsHullUpTo, IsFittable, IsShadowed, IsUnderLine};
ghost use Rattle.hulls.specs.Hull.{IsNextVertex, IsVertexOf, lower_of, spare_of};
ghost use Rattle.hulls.specs.Hull.{IsPassed, AreSpanned, last_of};

use crate::search::{kept_before, tangent_to};
use crate::slope::CountedSlope;
use crate::vertex::Vertex;
use budget::{NoMemory, Steps};
use exact_cross::{MAX_EPSILON, Side, Witness};
use std::alloc::Global;
use std::sync::ledger::Ledger;

/// The steep pair of a run of points, and the upper hull of the points from the pair's lower place
/// on.
///
/// For the flat pair the points are turned upside down, so that both are found by the same code.
#[derive(Drop)]
pub struct Hull {
    /// The vertices from left to right; those before `tangent` are done with.
    vertices: Vec<Vertex>,
    /// Where the pair's lower place stands among the vertices.
    tangent: usize,
    /// The pair's upper place.
    upper: u32,
    /// The slope of the pair.
    slope: CountedSlope,
}

impl Hull {
    /// No run yet, and room for `room` points. Nothing takes memory afterwards.
    pub fn new(alloc: Global, room: u32) -> Result<Hull, NoMemory>
        ensures empty { IfOk result (λ hull. hull.vertices.items ≡ []) }
        ensures tangent { IfOk result (λ hull. hull.tangent ≡ 0) }
        ensures capacity { IfOk result (λ hull. vec_capacity hull.vertices ≡ room) }
    {
        let vertices = Vec::with_capacity(alloc, room as usize)?;
        Ok(Hull {
            vertices,
            tangent: 0,
            upper: 0,
            slope: CountedSlope::steepest(),
        })
    }

    /// Begins a run with its first point.
    pub fn start(&mut self, first: Vertex)
        requires { 1 ≤ vec_capacity self.old.vertices }
        ensures hull { (q : Points) (eps : ℕ) → IsVertexOf q first → IsHullOf q eps first.place
            (first.place + 1) self.new }
        ensures spare { spare_of self.new ≡ 0 }
        ensures capacity { vec_capacity self.old.vertices ≤ vec_capacity self.new.vertices }
    {
        self.vertices.clear();
        self.vertices.push_reserved(first);
        self.tangent = 0;
        self.upper = first.place;
        self.slope = CountedSlope::steepest();
    }

    /// The point at the pair's lower place.
    pub fn lower(&self) -> Vertex
        requires { self.now.tangent < length self.now.vertices.items }
        ensures { result ≡ vertex_at self.now.vertices.items self.now.tangent }
    {
        self.vertices[self.tangent]
    }

    /// The pair's upper place.
    pub fn upper(&self) -> u32
        ensures { result ≡ self.now.upper }
    {
        self.upper
    }

    /// The rise and the run of the pair's line.
    pub fn rise_and_run(&self) -> (i64, u64)
        ensures rise { result.0 ≡ self.now.slope.slope.rise }
        ensures run { result.1 ≡ self.now.slope.slope.run }
    {
        self.slope.rise_and_run()
    }

    /// The pair with the place before which the run ends.
    #[cold]
    pub fn cut_before(&self, place: u32, side: Side) -> Witness
        requires { self.now.tangent < length self.now.vertices.items }
        ensures { result
            ≡ record { p = lower_of self.now; q = self.now.upper; r = place; side = side } }
    {
        Witness {
            p: self.lower().place,
            q: self.upper,
            r: place,
            side,
        }
    }

    /// Whether a later point lies above the line of the pair.
    #[inline(always)]
    pub fn is_over<L: Ledger>(&self, next: Vertex, steps: &mut Steps<L>) -> bool
        requires { (q : Points) × (eps : ℕ) × (s : ℕ) × (e : ℕ) × (m : ℕ) × (e ≤ m) ×
            IsHullOf q eps s e self.now × IsNextVertex q m next }
        ensures over { OnTrue result
            ((q : Points) (eps s e m : ℕ) → e ≤ m → IsHullOf q eps s e self.now →
            IsNextVertex q m next
            → IsUnderLine q (lower_of self.now) self.now.slope.slope m → ⊥) }
        ensures not_over { OnFalse result
            ((q : Points) (eps s e m : ℕ) → e ≤ m → IsHullOf q eps s e self.now →
            IsNextVertex q m next
            → IsUnderLine q (lower_of self.now) self.now.slope.slope m) }
        ensures step { steps.new ≡ steps.old + 1 }
    {
        let low = self.vertices[self.tangent];
        // It is not over where the slope to it is at most the pair's.
        self.slope
            .is_below(&CountedSlope::between(low, next, 0), steps)
    }

    /// Finds the pair of the run that goes on to the point, which no pair of the run lies above or
    /// below of, and says whether it is another one.
    ///
    /// `lift` is twice the error bound.
    #[inline(always)]
    pub fn turn_to<L: Ledger>(&mut self, next: Vertex, lift: u32, steps: &mut Steps<L>) -> bool
        requires { (q : Points) × (eps : ℕ) × (s : ℕ) × (e : ℕ) × (m : ℕ) × (e ≤ m) ×
            IsHullOf q eps s e self.old × IsNextVertex q m next × (lift ≡ 2 * eps) ×
            (eps ≤ MAX_EPSILON) }
        ensures pair { (q : Points) (eps s e m : ℕ) → IsHullOf q eps s e self.old →
            IsPassed q eps s e m → IsNextVertex q m next → lift ≡ 2 * eps → eps ≤ MAX_EPSILON
            → IsFittable q eps s e m → IsUnderLine q (lower_of self.old) self.old.slope.slope m →
            IsHullUpTo q eps s e (m + 1) self.new }
        ensures stays { OnFalse result (self.new ≡ self.old) }
        ensures cost { steps.new + spare_of self.new ≤ steps.old + spare_of self.old + 2 }
        ensures vertices { self.new.vertices ≡ self.old.vertices }
    {
        let low = self.vertices[self.tangent];
        if !CountedSlope::between(low, next, lift).is_below(&self.slope, steps) {
            return false;
        }
        self.turn(next.x, next.height, next.place, lift, steps);
        true
    }

    /// Finds the pair of the run that goes on to the point, to which the slope is less than the
    /// pair's.
    ///
    /// The point is passed by its numbers, so that those who seldom call it needn't store it.
    #[inline(never)]
    fn turn<L: Ledger>(&mut self, x: u64, height: u32, place: u32, lift: u32, steps: &mut Steps<L>)
        requires ahead { (q : Points) × (eps : ℕ) × (s : ℕ) × (e : ℕ) × (m : ℕ) × (e ≤ m) ×
            IsHullOf q eps s e self.old × IsNextVertex q m (vertex_of x height place) ×
            (lift ≡ 2 * eps) × (eps ≤ MAX_EPSILON) }
        requires less { IsAtMost self.old.slope.slope (lifted_slope
            (vertex_at self.old.vertices.items self.old.tangent) (vertex_of x height place) lift)
            → ⊥ }
        ensures pair { (q : Points) (eps s e m : ℕ) → IsHullOf q eps s e self.old →
            IsPassed q eps s e m → IsNextVertex q m (vertex_of x height place) →
            lift ≡ 2 * eps → IsFittable q eps s e m → IsHullUpTo q eps s e (m + 1) self.new }
        ensures cost { steps.new + spare_of self.new ≤ steps.old + spare_of self.old + 1 }
        ensures vertices { self.new.vertices ≡ self.old.vertices }
    {
        let next = Vertex { x, height, place };
        let found = tangent_to(&self.vertices, self.tangent, next, lift, steps);
        self.tangent = found.vertex;
        self.slope = found.slope;
        self.upper = place;
    }

    /// Puts the next point on the hull, if it can be the lower place of a later pair.
    #[inline(always)]
    pub fn take_in<L: Ledger>(&mut self, next: Vertex, stands_out: bool, steps: &mut Steps<L>)
        requires next { (q : Points) × (eps : ℕ) × (s : ℕ) × (e : ℕ) × (m : ℕ) × (e ≤ m) ×
            IsHullUpTo q eps s e (m + 1) self.old × IsNextVertex q m next }
        requires room { length self.old.vertices.items < vec_capacity self.old.vertices }
        ensures hull { (q : Points) (eps s e m : ℕ) → e ≤ m →
            IsHullUpTo q eps s e (m + 1) self.old → IsNextVertex q m next →
            AreSpanned q self.old e m →
            OnFalse stands_out ((j : ℕ) → e ≤ j → j ≤ m → IsShadowed q eps s j)
            → IsHullOf q eps s (m + 1) self.new }
        ensures end { OnTrue stands_out (last_of self.new ≡ next.place) }
        ensures cost { steps.new + spare_of self.new ≤ steps.old + spare_of self.old + 2 }
        ensures capacity { vec_capacity self.old.vertices ≤ vec_capacity self.new.vertices }
    {
        if stands_out {
            self.cover(next.x, next.height, next.place, steps);
        }
    }

    /// Puts the next point on the hull, and takes off what it covers.
    #[inline(never)]
    fn cover<L: Ledger>(&mut self, x: u64, height: u32, place: u32, steps: &mut Steps<L>)
        requires next { (q : Points) × (eps : ℕ) × (s : ℕ) × (e : ℕ) × (m : ℕ) × (e ≤ m) ×
            IsHullUpTo q eps s e (m + 1) self.old × IsNextVertex q m (vertex_of x height place) }
        requires room { length self.old.vertices.items < vec_capacity self.old.vertices }
        ensures hull { (q : Points) (eps s e m : ℕ) → e ≤ m →
            IsHullUpTo q eps s e (m + 1) self.old →
            IsNextVertex q m (vertex_of x height place) → AreSpanned q self.old e m →
            IsHullOf q eps s (m + 1) self.new }
        ensures end { last_of self.new ≡ place }
        ensures tangent { self.new.tangent ≡ self.old.tangent }
        ensures inside { self.new.tangent < length self.new.vertices.items }
        ensures cost { steps.new + length self.new.vertices.items
            ≤ steps.old + length self.old.vertices.items + 2 }
        ensures capacity { vec_capacity self.old.vertices ≤ vec_capacity self.new.vertices }
    {
        let next = Vertex { x, height, place };
        let kept = kept_before(&self.vertices, self.tangent, next, steps);
        self.vertices.truncate(kept);
        self.vertices.push_reserved(next);
    }
}
