// Whether a pair of places is the steep or the flat pair of a run.
ghost use Rattle.std.specs.Prelude.{◌≡◌, ◌+◌, ◌<◌, ◌≤◌, ◌^◌, ◌↔◌, length, IsTrue};
ghost use Rattle.exact_cross.specs.PointLists.{points_in};
ghost use Rattle.cut_witness.specs.Pairs.{HasSteepPair, HasFlatPair, steep_gap, flat_gap, Allows};

use exact_cross::{MAX_EPSILON, PointList};

/// Whether some line is within `ε` at every place of the run `s..e`, and (`a`, `b`) is its steep
/// pair.
///
/// The steep pair of two places or more is the one with the least slope from `ε` below its lower
/// place to `ε` above its upper one; of equal slopes the least `b`, then the least `a`. Of the one
/// place `s` it is (`s`, `s`). Nothing is assumed of `a` and `b`. `eps` is the error bound `ε`, in
/// places.
///
/// Looks once at each place of the run, and takes no memory: where the pair's line fits, pairs of
/// the same slope touch that same line. Source of such pairs: O'Rourke, CACM 24(9), 1981.
pub fn is_steep(points: PointList<'_>, eps: u32, s: u32, e: u32, a: u32, b: u32) -> bool
    requires bounded { eps ≤ MAX_EPSILON }
    requires some { s < e }
    requires within { e ≤ length points.xs.now }
    ensures exact { IsTrue result ↔ HasSteepPair (points_in points.entry) eps s e a b }
{
    if e - s == 1 {
        return a == s && b == s;
    }
    if a < s || b <= a || e <= b {
        return false;
    }
    for place in s..e {
        let gap = steep_gap(points, eps, a, b, place);
        if !gap.allows(a, b, place) {
            return false;
        }
    }
    true
}

/// Whether some line is within `ε` at every place of the run `s..e`, which has two places or more,
/// and (`a`, `b`) is its flat pair.
///
/// The flat pair is the one with the greatest slope from `ε` above its lower place to `ε` below its
/// upper one; of equal slopes the least `b`, then the least `a`. Nothing is assumed of `a` and `b`.
///
/// Looks once at each place of the run, and takes no memory.
pub fn is_flat(points: PointList<'_>, eps: u32, s: u32, e: u32, a: u32, b: u32) -> bool
    requires bounded { eps ≤ MAX_EPSILON }
    requires two { s + 1 < e }
    requires within { e ≤ length points.xs.now }
    ensures exact { IsTrue result ↔ HasFlatPair (points_in points.entry) eps s e a b }
{
    if a < s || b <= a || e <= b {
        return false;
    }
    for place in s..e {
        let gap = flat_gap(points, eps, a, b, place);
        if !gap.allows(a, b, place) {
            return false;
        }
    }
    true
}

/// How the line of a pair lies at a place: it is within `ε` where `upper` is from `lower` to `most`
/// above it. At `lower` it touches the place as it touches the pair's lower place, and `most` above
/// as it touches the pair's upper one. All is times the pair's width.
#[derive(Clone, Copy)]
struct Gap {
    lower: u128,
    upper: u128,
    most: u128,
}

impl Gap {
    /// Whether the line is within `ε` at the place, and no pair with this place comes before (`a`,
    /// `b`).
    fn allows(&self, a: u32, b: u32, place: u32) -> bool
        requires { self.now.lower + self.now.most < 2 ^ 128 }
        ensures exact { IsTrue result ↔ Allows self.now a b place }
    {
        let top = self.lower + self.most;
        self.lower <= self.upper
            && self.upper <= top
            && (a <= place || self.lower < self.upper)
            && (place <= a || b <= place || self.upper < top)
    }
}

/// The gap of the line from `ε` below `a` to `ε` above `b`, the steepest that fits both.
fn steep_gap(points: PointList<'_>, eps: u32, a: u32, b: u32, place: u32) -> Gap
    requires bounded { eps ≤ MAX_EPSILON }
    requires pair { a < b }
    requires to_end { b < length points.xs.now }
    requires within { place < length points.xs.now }
    ensures value { result ≡ steep_gap (points_in points.entry) eps a b place }
    ensures small { result.lower + result.most < 2 ^ 128 }
{
    let (a, b, j) = (a as usize, b as usize, place as usize);
    let width = u128::from(points.xs[b] - points.xs[a]);
    let slack = 2 * u128::from(eps);
    let rise = u128::from(points.ys[b] - points.ys[a]) + slack;
    Gap {
        lower: u128::from(points.ys[j]) * width + rise * u128::from(points.xs[a]),
        upper: u128::from(points.ys[a]) * width + rise * u128::from(points.xs[j]),
        most: slack * width,
    }
}

/// The gap of the line from `ε` above `a` to `ε` below `b`, the flattest that fits both.
fn flat_gap(points: PointList<'_>, eps: u32, a: u32, b: u32, place: u32) -> Gap
    requires bounded { eps ≤ MAX_EPSILON }
    requires pair { a < b }
    requires to_end { b < length points.xs.now }
    requires within { place < length points.xs.now }
    ensures value { result ≡ flat_gap (points_in points.entry) eps a b place }
    ensures small { result.lower + result.most < 2 ^ 128 }
{
    let (a, b, j) = (a as usize, b as usize, place as usize);
    let width = u128::from(points.xs[b] - points.xs[a]);
    let slack = 2 * u128::from(eps);
    let climb = u128::from(points.ys[b] - points.ys[a]);
    Gap {
        lower: u128::from(points.ys[a]) * width
            + climb * u128::from(points.xs[j])
            + slack * u128::from(points.xs[a]),
        upper: u128::from(points.ys[j]) * width
            + climb * u128::from(points.xs[a])
            + slack * u128::from(points.xs[j]),
        most: slack * width,
    }
}
