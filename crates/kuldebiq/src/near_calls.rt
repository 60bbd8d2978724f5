// The places that are nearest to a centre, in a list of codes that stays where it is.
ghost use Rattle.std.specs.Prelude.{◌≡◌, ◌≢◌, ◌⊎◌, ◌<◌, ◌≤◌, ℕ};
ghost use Rattle.std.specs.Prelude.{length, take, drop, min, slice_index};
ghost use Rattle.std.specs.Option.{MatchOption};
ghost use Rattle.zorder.specs.Codes.{IsDimension, IsInRange};
ghost use Rattle.neighbours.specs.Metrics.{AreInOrder, far};
ghost use Rattle.neighbours.specs.Neighbours.{AreNearestPlaces, AreSomePlaces};
ghost use Rattle.kuldebiq.specs.Answers.{gives, refuses, IsDone};
ghost use Rattle.kuldebiq.specs.Points.{IsFirstTooGreat};
ghost use Rattle.kuldebiq.specs.MetricNumbers.{IsMetric, step_of};

use crate::answer::{
    Answer, COORDINATE_TOO_GREAT, DIMS_OUT_OF_RANGE, NO_SUCH_METRIC, given, refused,
};
use crate::code_calls::first_too_great;
use neighbours::{Centre, Chebyshev, Euclid, Neighbour, nearest_places};

/// The greatest difference of a coordinate.
pub const CHEBYSHEV: u32 = 0;

/// The square of the distance: the sum of the squares of the differences.
pub const EUCLID: u32 = 1;

/// Writes the places in the caller's codes whose points are nearest to a centre, as many as there
/// is room for, or all. The number is how many were written. The nearest comes first, and of those
/// that are equally far the lower place.
///
/// Where the codes never fall and all are codes of so many coordinates, no other place stands
/// before one of these. In any numbers each place is written at most once, with its own distance.
/// The hints lead the search, and nothing is asked of them. A refusal is `DIMS_OUT_OF_RANGE`,
/// `COORDINATE_TOO_GREAT` or `NO_SUCH_METRIC`, judged in this order, and then nothing is written.
/// Takes no memory.
#[unsafe(no_mangle)]
pub extern "C" fn kuldebiq_nearest(
    codes: &[u64],
    hints: &[u64],
    centre: &[u32],
    metric: u32,
    neighbours: &mut [Neighbour],
) -> Answer
    ensures dims { ¬ IsDimension (length centre.now) →
        result ≡ refuses DIMS_OUT_OF_RANGE (length centre.now) }
    ensures great { IsDimension (length centre.now) → (place : ℕ) →
        IsFirstTooGreat (length centre.now) centre.now place →
        result ≡ refuses COORDINATE_TOO_GREAT place }
    ensures metric { IsDimension (length centre.now) →
        IsInRange (length centre.now) centre.now → ¬ IsMetric metric →
        result ≡ refuses NO_SUCH_METRIC metric }
    ensures done { IsDimension (length centre.now) → IsInRange (length centre.now) centre.now →
        IsMetric metric → result ≡ gives (min (length codes.now) (length neighbours.old)) }
    ensures some { IsDone result →
        AreSomePlaces (far (step_of metric) (length centre.now) centre.now) codes.now
        (take result.number neighbours.new) }
    ensures nearest { IsDone result → AreInOrder (length centre.now) codes.now →
        AreNearestPlaces (far (step_of metric) (length centre.now) centre.now) codes.now
        result.number (take result.number neighbours.new) }
    ensures rest { IsDone result →
        drop result.number neighbours.new ≡ drop result.number neighbours.old }
    ensures refused { result.status ≢ 0 → neighbours.new ≡ neighbours.old }
{
    let dims = centre.len();
    if dims < 2 || 4 < dims {
        return refused(DIMS_OUT_OF_RANGE, dims as u64);
    }
    if let Some(place) = first_too_great(dims as u32, centre) {
        return refused(COORDINATE_TOO_GREAT, place as u64);
    }
    let centre = centre_of(centre);
    if metric == CHEBYSHEV {
        let found = nearest_places::<Chebyshev>(codes, hints, &centre, neighbours);
        return given(found as u64);
    }
    if metric == EUCLID {
        let found = nearest_places::<Euclid>(codes, hints, &centre, neighbours);
        return given(found as u64);
    }
    refused(NO_SUCH_METRIC, u64::from(metric))
}

/// The centre of a point.
fn centre_of(point: &[u32]) -> Centre
    requires dimension { IsDimension (length point.now) }
    requires range { IsInRange (length point.now) point.now }
    ensures dims { result.d ≡ length point.now }
    ensures coords { (c : ℕ) → c < length point.now →
        slice_index result.coords c ≡ slice_index point.now c }
{
    let mut coords = [0; 4];
    for c in 0..point.len() {
        coords[c] = point[c];
    }
    Centre {
        d: point.len() as u32,
        coords,
    }
}
