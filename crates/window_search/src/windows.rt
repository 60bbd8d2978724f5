// The window of a key.
ghost use Rattle.std.specs.Prelude.{ℕ, ◌+◌, ◌*◌, ◌≤◌};
ghost use Rattle.exact_cross.specs.Points.{Points};
ghost use Rattle.exact_cross.specs.Checked.{IsInRange};
ghost use Rattle.window_search.specs.Windows.{IsWindow, IsLineOf, IsLastAtMost, IsClose, IsNext};

use exact_cross::{Line, MAX_EPSILON};

/// The window of the key `q`: the first and the last of the places that the line of a run leaves
/// open for it.
///
/// `low` and `high` are the heights of the run's first and last point, `eps` the error bound `ε`,
/// in places, and `len` the greatest place. The line predicts the place of `q`, rounded down and
/// clamped to `low..=high`; the window is the places at most `ε + 1` off, clipped to `0..=len`.
/// Cannot fail and takes no memory. Source: Ferragina and Vinciguerra, PVLDB 13(8), 2020, section
/// 2.
pub fn window(line: &Line, low: u32, high: u32, eps: u32, q: u64, len: u32) -> (u32, u32)
    requires in_range { IsInRange line.now }
    requires bounded { eps ≤ MAX_EPSILON }
    requires rises { low ≤ high }
    requires within { high ≤ len }
    ensures exact { IsWindow line.now low high eps q len result.0 result.1 }
    ensures clipped { (result.0 ≤ result.1) × (result.1 ≤ len) }
    // At most 2ε + 3 places.
    ensures narrow { result.1 + 1 ≤ result.0 + (2 * eps + 3) }
    // Where the line fits the run of the last point with x at most q, it holds that point's height
    // and the next place.
    ensures holds { (points : Points) (s e i place : ℕ) → IsLineOf points eps line.now low high s e
        → IsLastAtMost points s e q i
        → IsClose points e q i → IsNext points i place → place ≤ len → (result.0 ≤ place) ×
        (place ≤ result.1) }
{
    let reach = eps + 1;
    let predicted = line.floor_at(q).clamp(i128::from(low), i128::from(high)) as u32;
    (
        predicted.saturating_sub(reach),
        predicted.saturating_add(reach).min(len),
    )
}
