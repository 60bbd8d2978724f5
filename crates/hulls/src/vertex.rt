// A point that stands on a hull.

/// A point of the run, as a hull keeps it: 16 bytes.
#[derive(Clone, Copy)]
pub struct Vertex {
    pub x: u64,
    /// The point's `y`, or for the flat pair `u32::MAX - y`.
    pub height: u32,
    /// The point's place.
    pub place: u32,
}
