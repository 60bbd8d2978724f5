// The two searches on a hull: for the tangent to a new point, and for the vertices that stay under
// it.
ghost use Rattle.std.specs.Prelude.{◌≡◌, ℕ, ◌+◌, ◌<◌, ◌≤◌, length};
ghost use Rattle.exact_cross.specs.Slopes.{IsAtMost};
ghost use Rattle.hulls.specs.Vertices.{vertex_at, lifted_slope, AreLeftOf, IsNoTurn};

use crate::slope::CountedSlope;
use crate::vertex::Vertex;
use budget::Steps;
use std::sync::ledger::Ledger;

/// A vertex and the slope from it to the lifted new point.
#[derive(Clone, Copy)]
pub struct Tangent {
    pub vertex: usize,
    pub slope: CountedSlope,
}

/// Walks from the vertex `from` on as long as the slope to `lift` above the next point falls.
#[inline(never)]
pub fn tangent_to<L: Ledger>(
    vertices: &[Vertex],
    from: usize,
    next: Vertex,
    lift: u32,
    steps: &mut Steps<L>,
) -> Tangent
    requires inside { from < length vertices.now }
    requires left { AreLeftOf vertices.now from next }
    requires lift { lift ≤ 2097152 }
    ensures onward { from ≤ result.vertex }
    ensures inside { result.vertex < length vertices.now }
    ensures slope { result.slope.slope ≡ lifted_slope
        (vertex_at vertices.now result.vertex) next lift }
    ensures falls { (k : ℕ) → from ≤ k → k < result.vertex
        → IsAtMost (lifted_slope (vertex_at vertices.now k) next lift)
        (lifted_slope (vertex_at vertices.now (k + 1)) next lift) → ⊥ }
    ensures stops { result.vertex + 1 < length vertices.now
        → IsAtMost (lifted_slope (vertex_at vertices.now result.vertex) next lift)
        (lifted_slope (vertex_at vertices.now (result.vertex + 1)) next lift) }
    ensures cost { steps.new + from ≤ steps.old + result.vertex + 1 }
{
    let mut vertex = from;
    let mut slope = CountedSlope::between(vertices[from], next, lift);
    while vertex + 1 < vertices.len() {
        let further = CountedSlope::between(vertices[vertex + 1], next, lift);
        if !further.is_below(&slope, steps) {
            break;
        }
        vertex += 1;
        slope = further;
    }
    Tangent { vertex, slope }
}

/// How many vertices stay where the next point comes on the hull.
///
/// From the end on, those go from which it is straight on to the next point or up. The tangent's
/// vertex stays.
pub fn kept_before<L: Ledger>(
    vertices: &[Vertex],
    tangent: usize,
    next: Vertex,
    steps: &mut Steps<L>,
) -> usize
    requires inside { tangent < length vertices.now }
    requires left { AreLeftOf vertices.now tangent next }
    ensures some { tangent < result }
    ensures inside { result ≤ length vertices.now }
    ensures dropped { (k : ℕ) → result ≤ k + 1 → k + 1 < length vertices.now → IsNoTurn
        (vertex_at vertices.now k) (vertex_at vertices.now (k + 1)) next }
    ensures turns { (k : ℕ) → tangent ≤ k → k + 2 ≡ result → IsNoTurn (vertex_at vertices.now k)
        (vertex_at vertices.now (k + 1)) next → ⊥ }
    ensures cost { steps.new + result ≤ steps.old + length vertices.now + 1 }
{
    let mut kept = vertices.len();
    while kept > tangent + 1 {
        let last = vertices[kept - 1];
        let onward = CountedSlope::between(last, next, 0);
        if onward.is_below(&CountedSlope::between(vertices[kept - 2], last, 0), steps) {
            break;
        }
        kept -= 1;
    }
    kept
}
