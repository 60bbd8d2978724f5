// Fitting a line to a run of points that grows.
ghost use Rattle.std.specs.Bool.{OnTrue, OnFalse};
ghost use Rattle.std.specs.Prelude.{◌≡◌, ℕ, ◌+◌, ◌-◌, ◌*◌, ◌^◌, ◌<◌, ◌≤◌, IfOk};
ghost use Rattle.exact_cross.specs.Points.{Points, IsAscending};
ghost use Rattle.exact_cross.specs.Lines.{SomeLineFits};
ghost use Rattle.exact_cross.specs.Steep.{IsSteepOf, line_of_pair};
ghost use Rattle.exact_cross.specs.Cuts.{IsCutOf};
ghost use Rattle.hulls.specs.Hulls.{MatchOffer, mirrored, bound_of, room_of, spare, StandsFor};
ghost use Rattle.hulls.specs.Hulls.{IsNext, IsAhead, EndOn};
ghost use Rattle.hulls.specs.FlatLines.{IsFlatLine};

use crate::flat::FlatLine;
use crate::hull::Hull;
use crate::vertex::Vertex;
use budget::{NoMemory, Steps};
use exact_cross::{Line, MAX_EPSILON, Side, Witness};
use std::alloc::Global;
use std::sync::ledger::Ledger;

/// The answer to a point that is offered.
#[derive(Clone, Copy, Debug, PartialEq, Eq)]
pub enum Offer {
    /// Some line fits the run with the point, which belongs to the run from now on.
    Extended,
    /// No line does, as the witness shows. The run is as before.
    Cut(Witness),
}

/// The lines within the error bound of a run of points, kept as the steepest and the flattest of
/// them.
///
/// Source: O'Rourke, CACM 24(9), 1981.
#[derive(Drop)]
pub struct Hulls {
    /// The steep pair, with the upper hull of the points.
    steep: Hull,
    /// The flat pair, with the upper hull of the points upside down.
    flat: Hull,
    /// The error bound.
    eps: u32,
    /// The last place of the run.
    last: u32,
}

impl Hulls {
    /// No run yet, with room for `room` points of one run.
    ///
    /// `eps` is the error bound `ε`. This call alone takes memory: `room` points of 16 bytes for
    /// each of the two hulls, which aren't touched before they are used.
    ///
    /// # Errors
    ///
    /// `NoMemory` alone.
    pub fn new(alloc: Global, eps: u32, room: u32) -> Result<Hulls, NoMemory>
        requires { eps ≤ MAX_EPSILON }
        ensures room { IfOk result (λ hulls. room_of hulls ≡ room) }
        ensures bound { IfOk result (λ hulls. bound_of hulls ≡ eps) }
        ensures spare { IfOk result (λ hulls. spare hulls ≡ 0) }
    {
        let steep = Hull::new(alloc, room)?;
        let flat = Hull::new(alloc, room)?;
        Ok(Hulls {
            steep,
            flat,
            eps,
            last: 0,
        })
    }

    /// Forgets all, and begins a run with the point `(x, y)` at `place`. Takes no step.
    pub fn start(&mut self, place: u32, x: u64, y: u32)
        requires room { 1 ≤ room_of self.old }
        requires bounded { bound_of self.old ≤ MAX_EPSILON }
        ensures stands { (p : Points) → IsAscending p → place < p.count → p.x place ≡ x → p.y place
            ≡ y → StandsFor self.new p (bound_of self.old) place (place + 1) }
        ensures spare { spare self.new ≡ 0 }
        ensures room { room_of self.old ≤ room_of self.new }
        ensures bound { bound_of self.new ≡ bound_of self.old }
    {
        self.steep.start(Vertex {
            x,
            height: y,
            place,
        });
        self.flat.start(Vertex {
            x,
            height: u32::MAX - y,
            place,
        });
        self.last = place;
    }

    /// Whether some line fits the run with its next point `(x, y)`, exactly, and if so takes the
    /// point in.
    ///
    /// A step is a comparison of two slopes or a test of the point against a line. A point that no
    /// line fits is answered with the run's witness, after at most two steps: the steep pair and
    /// the point, where it lies above every line that fits the run, and else the flat pair and the
    /// point, below every such line. A point that is taken in takes at most 10 steps, and as many
    /// more as fewer points stand on the two hulls past the tangents afterwards (`spare`). So all
    /// points of a run together take at most 10 steps each. Takes no memory.
    ///
    /// With `stays` the point is put on both hulls also where it needn't be, so that the run may go
    /// on past what lies at even steps with it ([`extend_to`](Hulls::extend_to)).
    ///
    /// Source: O'Rourke, CACM 24(9), 1981.
    #[inline(always)]
    pub fn offer<L: Ledger>(&mut self, x: u64, y: u32, stays: bool, steps: &mut Steps<L>) -> Offer
        requires { (p : Points) × (eps : ℕ) × (s : ℕ) × (e : ℕ) × IsNext self.old p eps s e x y ×
            (e < 2 ^ 32) × (e < s + room_of self.old) }
        ensures fits { MatchOffer result
            ((p : Points) (eps s e : ℕ) → IsNext self.old p eps s e x y → SomeLineFits p eps s
            (e + 1))
            (λ _. (p : Points) (eps s e : ℕ) → IsNext self.old p eps s e x y → SomeLineFits p eps s
            (e + 1) → ⊥) }
        ensures stands { MatchOffer result
            ((p : Points) (eps s e : ℕ) → IsNext self.old p eps s e x y →
            StandsFor self.new p eps s (e + 1))
            (λ _. self.new ≡ self.old) }
        ensures witness { MatchOffer result (Unit {0})
            (λ w. (p : Points) (eps s e : ℕ) → IsNext self.old p eps s e x y →
            IsCutOf p eps s e w) }
        ensures end { MatchOffer result (OnTrue stays (EndOn self.new)) (λ _. Unit {0}) }
        ensures cost { MatchOffer result
            (steps.new + spare self.new ≤ steps.old + spare self.old + 10)
            (λ _. steps.new ≤ steps.old + 2) }
        ensures room { room_of self.old ≤ room_of self.new }
        ensures bound { bound_of self.new ≡ bound_of self.old }
    {
        let place = self.last + 1;
        let point = Vertex {
            x,
            height: y,
            place,
        };
        if self.steep.is_over(point, steps) {
            return Offer::Cut(self.steep.cut_before(place, Side::Over));
        }
        let mirrored = Vertex {
            x,
            height: u32::MAX - y,
            place,
        };
        if self.flat.is_over(mirrored, steps) {
            return Offer::Cut(self.flat.cut_before(place, Side::Under));
        }
        self.extend_to(place, x, y, stays, steps);
        Offer::Extended
    }

    /// Whether some line fits the run with all up to the point `(x, y)` at `place`, exactly, where
    /// what lies between is at even steps with it and the run's last two points.
    ///
    /// A line within `ε` of the run's last point and of this one is so between them. Takes at most
    /// two steps and leaves the run as it is.
    pub fn fits<L: Ledger>(&self, place: u32, x: u64, y: u32, steps: &mut Steps<L>) -> bool
        requires { (p : Points) × (eps : ℕ) × (s : ℕ) × (e : ℕ) ×
            IsAhead self.now p eps s e place x y }
        ensures fits { OnTrue result ((p : Points) (eps s e : ℕ) →
            IsAhead self.now p eps s e place x y → SomeLineFits p eps s (place + 1)) }
        ensures fits_not { OnFalse result ((p : Points) (eps s e : ℕ) →
            IsAhead self.now p eps s e place x y → SomeLineFits p eps s (place + 1) → ⊥) }
        ensures cost { steps.new ≤ steps.old + 2 }
    {
        let point = Vertex {
            x,
            height: y,
            place,
        };
        if self.steep.is_over(point, steps) {
            return false;
        }
        let mirrored = Vertex {
            x,
            height: u32::MAX - y,
            place,
        };
        if self.flat.is_over(mirrored, steps) {
            return false;
        }
        true
    }

    /// Takes in the point `(x, y)` at `place` and all before it, which some line fits with the run,
    /// where what lies between is at even steps with it and the run's last two points.
    ///
    /// Of these points this one alone is looked at: those between lie on the chord from the run's
    /// last point, which stands on both hulls where there are any. Takes at most 8 steps, and as
    /// many more as fewer points stand on the two hulls past the tangents afterwards. `stays` is as
    /// in [`offer`](Hulls::offer).
    #[inline(always)]
    pub fn extend_to<L: Ledger>(
        &mut self,
        place: u32,
        x: u64,
        y: u32,
        stays: bool,
        steps: &mut Steps<L>,
    )
        requires ahead { (p : Points) × (eps : ℕ) × (s : ℕ) × (e : ℕ) ×
            IsAhead self.old p eps s e place x y × SomeLineFits p eps s (place + 1) ×
            (e < s + room_of self.old) }
        requires end { self.old.last + 1 < place → EndOn self.old }
        ensures stands { (p : Points) (eps s e : ℕ) → IsAhead self.old p eps s e place x y →
            SomeLineFits p eps s (place + 1) → StandsFor self.new p eps s (place + 1) }
        ensures end { OnTrue stays (EndOn self.new) }
        ensures cost { steps.new + spare self.new ≤ steps.old + spare self.old + 8 }
        ensures room { room_of self.old ≤ room_of self.new }
        ensures bound { bound_of self.new ≡ bound_of self.old }
    {
        let point = Vertex {
            x,
            height: y,
            place,
        };
        let mirrored = Vertex {
            x,
            height: u32::MAX - y,
            place,
        };
        let lift = 2 * self.eps;
        let falls = self.steep.turn_to(point, lift, steps);
        let rises = self.flat.turn_to(mirrored, lift, steps);
        // A point that leaves the flat line as it is can be no lower place of a later steep pair,
        // and the other way round.
        self.steep.take_in(point, rises | stays, steps);
        self.flat.take_in(mirrored, falls | stays, steps);
        self.last = place;
    }

    /// The steep pair of the run and its line.
    ///
    /// Of a run of one point it is the point's place twice, and the level line through the point.
    /// Takes no step.
    pub fn line(&self) -> (u32, u32, Line)
        requires { (p : Points) × (eps : ℕ) × (s : ℕ) × (e : ℕ) × StandsFor self.now p eps s e }
        ensures pair { (p : Points) (eps s e : ℕ) → StandsFor self.now p eps s e →
            IsSteepOf p eps s e result.0 result.1 }
        ensures line { (p : Points) (eps s e : ℕ) → StandsFor self.now p eps s e → result.2
            ≡ line_of_pair p eps result.0 result.1 }
    {
        let low = self.steep.lower();
        let b = self.steep.upper();
        let x0 = low.x;
        let y = i64::from(low.height);
        let line = if low.place == b {
            Line {
                x0,
                y0: y,
                rise: 0,
                run: 1,
            }
        } else {
            let (rise, run) = self.steep.rise_and_run();
            Line {
                x0,
                y0: y - i64::from(self.eps),
                rise: rise as u64,
                run,
            }
        };
        (low.place, b, line)
    }

    /// The flattest line within the error bound of the run.
    ///
    /// Of a run of one point it is the level line through the point. Where the run's places are at
    /// even steps, the mean of this line and that of [`line`](Hulls::line) passes all of them
    /// exactly. Takes no step.
    pub fn flat_line(&self) -> FlatLine
        requires { (p : Points) × (eps : ℕ) × (s : ℕ) × (e : ℕ) × StandsFor self.now p eps s e }
        ensures { (p : Points) (eps s e : ℕ) → StandsFor self.now p eps s e →
            IsFlatLine p eps s e result }
    {
        let low = self.flat.lower();
        let height = u64::from(u32::MAX - low.height);
        if low.place == self.flat.upper() {
            return FlatLine {
                x0: low.x,
                y0: height,
                rise: 0,
                run: 1,
            };
        }
        let (fall, run) = self.flat.rise_and_run();
        FlatLine {
            x0: low.x,
            y0: height + u64::from(self.eps),
            rise: -fall,
            run,
        }
    }
}
