// A segment: a run of places, the line that fits it, and what shows that no line goes on.
ghost use Rattle.std.specs.Prelude.{◌≡◌};
ghost use Rattle.exact_cross.specs.Segments.{start_at};

use crate::Line;

/// On which side of all lines that fit a run the next point lies.
#[derive(Clone, Copy, Debug, PartialEq, Eq)]
pub enum Side {
    /// The point lies wholly above the steepest line that fits the run.
    Over,
    /// The point lies wholly below the flattest line that fits the run.
    Under,
}

/// Three places that no line fits: a proof that a run had to end.
#[derive(Clone, Copy, Debug, PartialEq, Eq)]
pub struct Witness {
    /// The first place of the pair in the run.
    pub p: u32,
    /// The second place of the pair in the run.
    pub q: u32,
    /// The place that the run had to leave out.
    pub r: u32,
    /// On which side `r` lies.
    pub side: Side,
}

/// A segment of a piecewise linear index. Its run goes to the next segment's start, the last one's
/// to the list's end.
#[derive(Clone, Copy, Debug, PartialEq, Eq)]
pub struct Segment {
    /// The first place of the run.
    pub start: u32,
    /// The lower place of the steep pair.
    pub a: u32,
    /// The upper place of the steep pair, which is `a` where the run has one place.
    pub b: u32,
    /// The line of the steep pair.
    pub line: Line,
    /// Why the run ends, where the witness is kept and the run isn't the last one.
    pub cut: Option<Witness>,
}

/// Where the run of the segment at this place starts, and past the last one `to`, where all end.
pub fn start_at(segments: &[Segment], place: usize, to: u32) -> u32
    ensures { result ≡ start_at to segments.now place }
{
    if place < segments.len() {
        segments[place].start
    } else {
        to
    }
}
