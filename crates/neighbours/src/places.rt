// The search for the nearest places, in a list of codes that stays where it is.
ghost use Rattle.std.specs.Prelude.{◌≡◌, ◌+◌, ◌*◌, ◌<◌, ◌≤◌, ◌^◌, ℕ, length, take, drop, min};
ghost use Rattle.std.specs.Prelude.{slice_index};
ghost use Rattle.std.specs.List.{slice_range};
ghost use Rattle.std.specs.List.Sorted.{IsNonDecreasingBy};
ghost use Rattle.neighbours.specs.Chosen.{AreChosen};
ghost use Rattle.neighbours.specs.Metrics.{AreInOrder, far};
ghost use Rattle.neighbours.specs.Neighbours.{AreNearestPlaces, AreSomePlaces};
ghost use Rattle.neighbours.specs.Neighbours.{neighbour_at, neighbours_from, rank_of};

use crate::around::region_around;
use crate::heap::make_heap;
use crate::walk::keep_nearest;
use crate::{Centre, Metric, Neighbour};
use hints::{position, upper_bound};
use std::ops::Range;
use zorder::{Corners, encode};

/// Writes the places in a list of codes whose points are nearest to a centre, as many as there is
/// room for, or all where they are fewer, and gives how many they are. The nearest comes first, and
/// of those that are equally far the lower place. What lies behind them stays.
///
/// Where the codes never fall, and all are codes of so many coordinates, no other place stands
/// before one of these, whatever the hints are. Nothing is asked of codes or hints: in any numbers
/// each place is given at most once, with its own distance, that of the code that its lowest bits
/// are. The search works in the room. Cannot fail and takes no memory.
pub fn nearest_places<M: Metric>(
    codes: &[u64],
    hints: &[u64],
    centre: &Centre,
    neighbours: &mut [Neighbour],
) -> usize
    ensures number { result ≡ min (length codes.now) (length neighbours.old) }
    ensures some { AreSomePlaces (far M.step centre.now.d centre.now.coords) codes.now
        (take result neighbours.new) }
    ensures nearest { AreInOrder centre.now.d codes.now
        → AreNearestPlaces (far M.step centre.now.d centre.now.coords) codes.now result
        (take result neighbours.new) }
    ensures rest { drop result neighbours.new ≡ drop result neighbours.old }
{
    let found = codes.len().min(neighbours.len());
    if found == 0 {
        return 0;
    }
    fill_nearest::<M>(codes, hints, centre, &mut neighbours[..found]);
    found
}

/// Fills all the room with the nearest places.
fn fill_nearest<M: Metric>(codes: &[u64], hints: &[u64], centre: &Centre, kept: &mut [Neighbour])
    requires some { 0 < length kept.old }
    requires enough { length kept.old ≤ length codes.now }
    ensures chosen { AreChosen (AreInOrder centre.now.d codes.now)
        (neighbours_from (far M.step centre.now.d centre.now.coords) 0 codes.now) kept.new }
    ensures order { IsNonDecreasingBy rank_of kept.new }
    ensures len { length kept.new ≡ length kept.old }
{
    let found = kept.len();
    let place = position(codes, hints, encode(centre.d, &centre.coords));
    let from = place.saturating_sub(found / 2).min(codes.len() - found);
    let to = from + found;
    write_places::<M>(centre, &codes[from..to], from, kept);
    keep_around::<M>(codes, hints, centre, from, to, kept);
    kept.sort_unstable_by(|one, other| one.order(*other));
}

/// Keeps as many of all places as there are between two, which are given.
///
/// Those are within some distance of the centre, so the nearest are too.
fn keep_around<M: Metric>(
    codes: &[u64],
    hints: &[u64],
    centre: &Centre,
    from: usize,
    to: usize,
    kept: &mut [Neighbour],
)
    requires order { from < to }
    requires within { to ≤ length codes.now }
    requires kept { kept.old ≡ neighbours_from (far M.step centre.now.d centre.now.coords) from
        (slice_range codes.now from to) }
    requires some { 0 < length kept.old }
    ensures chosen { AreChosen (AreInOrder centre.now.d codes.now)
        (neighbours_from (far M.step centre.now.d centre.now.coords) 0 codes.now) kept.new }
{
    make_heap(kept);
    let places = places_within::<M>(codes, hints, centre, kept[0]);
    let first = places.start.min(from);
    let last = places.end.max(to);
    keep_nearest::<M>(centre, &codes[first..from], first, 65, 0, kept);
    keep_nearest::<M>(centre, &codes[to..last], to, 65, 0, kept);
}

/// Some places, such that none before them or behind stands before another, if the codes are in
/// order: it is outside the box of what is as near.
fn places_within<M: Metric>(
    codes: &[u64],
    hints: &[u64],
    centre: &Centre,
    one: Neighbour,
) -> Range<usize>
    ensures before { AreInOrder centre.now.d codes.now → (k : ℕ) → k < result.start
        → rank_of one ≤ rank_of (neighbour_at
        (far M.step centre.now.d centre.now.coords (slice_index codes.now k)) k) }
    ensures behind { AreInOrder centre.now.d codes.now → (k : ℕ) → result.end ≤ k
        → k < length codes.now → rank_of one ≤ rank_of (neighbour_at
        (far M.step centre.now.d centre.now.coords (slice_index codes.now k)) k) }
    ensures within { result.end ≤ length codes.now }
{
    let reach = M::reach(one.whole_distance());
    let corners = Corners::of(&region_around(centre, reach));
    position(codes, hints, corners.low())..upper_bound(codes, hints, corners.high())
}

/// Writes the places of codes, the first of which stands at `first`.
fn write_places<M: Metric>(centre: &Centre, codes: &[u64], first: usize, places: &mut [Neighbour])
    requires within { first + length codes.now < 2 ^ 64 }
    requires room { length codes.now ≡ length places.old }
    ensures { places.new ≡ neighbours_from (far M.step centre.now.d centre.now.coords) first
        codes.now }
{
    for i in 0..codes.len() {
        places[i] = Neighbour::new(centre.distance::<M>(codes[i]), first + i);
    }
}
