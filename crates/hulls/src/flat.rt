// The flattest line of a run.

/// The line `y0 + rise * (x - x0) / run`, the flattest within the error bound of a run.
///
/// It falls where `rise` is below 0: of few points, or of points that rise by less than twice the
/// error bound.
#[derive(Clone, Copy, Debug, PartialEq, Eq)]
pub struct FlatLine {
    /// The x of the point that the line is told by.
    pub x0: u64,
    /// The line's height at `x0`, in places.
    pub y0: u64,
    /// Places upwards.
    pub rise: i64,
    /// Keys to the right, at least 1.
    pub run: u64,
}
