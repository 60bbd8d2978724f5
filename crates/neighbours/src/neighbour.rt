// A place in a list of codes, and how far its point is from a centre.
ghost use Rattle.std.specs.Prelude.{◌≡◌, ◌+◌, ◌*◌, ◌^◌, ◌<◌, ◌↔◌, IsTrue};
ghost use Rattle.std.specs.Ordering.{nat_cmp};
ghost use Rattle.neighbours.specs.Neighbours.{neighbour_at, rank_of};

use std::cmp::Ordering;

/// A place in a list of codes, and how far the point of its code is from a centre.
///
/// It is laid out as C lays it out.
#[repr(C)]
#[derive(Clone, Copy, Debug)]
pub struct Neighbour {
    /// The place.
    pub place: u64,
    /// The distance's lowest 64 bits.
    pub distance: u64,
    /// How many times 2^64 more.
    pub distance_high: u64,
}

impl Neighbour {
    /// A place that is so far.
    #[inline(always)]
    pub(crate) fn new(distance: u128, place: usize) -> Neighbour
        ensures { result ≡ neighbour_at distance place }
    {
        Neighbour {
            place: place as u64,
            distance: (distance % (1 << 64)) as u64,
            distance_high: (distance >> 64) as u64,
        }
    }

    /// Its distance.
    #[inline(always)]
    pub fn whole_distance(self) -> u128
        ensures { result ≡ self.distance_high * 2 ^ 64 + self.distance }
    {
        u128::from(self.distance_high) * (1 << 64) + u128::from(self.distance)
    }

    /// Whether it stands before another: by its distance, and of equal ones by its place.
    #[inline(always)]
    pub(crate) fn stands_before(self, other: Neighbour) -> bool
        ensures { IsTrue result ↔ (rank_of self < rank_of other) }
    {
        if self.distance_high != other.distance_high {
            return self.distance_high < other.distance_high;
        }
        if self.distance != other.distance {
            return self.distance < other.distance;
        }
        self.place < other.place
    }

    /// How it compares with another: by its distance, and of equal ones by its place.
    #[inline(always)]
    pub(crate) fn order(self, other: Neighbour) -> Ordering
        ensures { result ≡ nat_cmp (rank_of self) (rank_of other) }
    {
        if self.stands_before(other) {
            return Ordering::Less;
        }
        if other.stands_before(self) {
            return Ordering::Greater;
        }
        Ordering::Equal
    }
}
