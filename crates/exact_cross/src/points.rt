// Points, as two lists of coordinates.
ghost use Rattle.std.specs.List.Sorted.{IsStrictlyIncreasing, IsNonDecreasing};
ghost use Rattle.std.specs.Prelude.{◌≡◌, ◌<◌, ◌^◌, ℕ, length, slice_index};

/// Points from left to right, never down: the place `j` is the point `(xs[j], ys[j])`.
///
/// Who makes a list has shown that it is one, and who takes it knows it. Both lists are borrowed.
#[derive(Clone, Copy)]
pub struct PointList<'a> {
    /// The x of each place, which rise strictly.
    pub xs: &'a [u64],
    /// The y of each place, which never fall.
    pub ys: &'a [u32],
    pub ghost same_length: { length ys.now ≡ length xs.now },
    pub ghost rising: { IsStrictlyIncreasing xs.now },
    pub ghost never_falls: { IsNonDecreasing ys.now },
    pub ghost few: { length xs.now < 2 ^ 32 },
    pub ghost narrow: { (j : ℕ) → slice_index xs.now j < 2 ^ 64 },
    pub ghost low: { (j : ℕ) → slice_index ys.now j < 2 ^ 32 },
}

impl<'a> PointList<'a> {
    /// The points of two lists.
    pub fn new(xs: &'a [u64], ys: &'a [u32]) -> PointList<'a>
        requires same_length { length ys.now ≡ length xs.now }
        requires rising { IsStrictlyIncreasing xs.now }
        requires never_falls { IsNonDecreasing ys.now }
        requires few { length xs.now < 2 ^ 32 }
        ensures xs { result.xs.now ≡ xs.now }
        ensures ys { result.ys.now ≡ ys.now }
    {
        PointList { xs, ys }
    }
}
