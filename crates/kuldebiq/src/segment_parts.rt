// A segment as C sees it.
ghost use Rattle.std.specs.Prelude.{◌≡◌};
ghost use Rattle.kuldebiq.specs.Segments.{side_number, parts_of};

use exact_cross::{Segment, Side};

/// A segment: where its run begins, its line, and what shows that the run had to end.
#[repr(C)]
#[derive(Clone, Copy)]
pub struct SegmentParts {
    /// The first place of the run. It goes to the next segment's start, the last one's to the
    /// list's end.
    pub start: u32,
    /// The lower place of the steep pair.
    pub a: u32,
    /// The upper place of the steep pair.
    pub b: u32,
    /// The side on which the place that was left out lies of all lines that fit the run: 1 over the
    /// steepest, 2 under the flattest, 0 where the run is the last one.
    pub side: u32,
    /// The first place of the pair in the run.
    pub p: u32,
    /// The second place of the pair in the run.
    pub q: u32,
    /// The place that the run had to leave out.
    pub r: u32,
    /// The key of the point that the line is told by.
    pub x0: u64,
    /// The line's rank at `x0`.
    pub y0: i64,
    /// Ranks upwards.
    pub rise: u64,
    /// Keys to the right, at least 1.
    pub run: u64,
}

/// The parts of a segment.
pub(crate) fn parts_of(segment: &Segment) -> SegmentParts
    ensures { result ≡ parts_of segment.now }
{
    let mut parts = SegmentParts {
        start: segment.start,
        a: segment.a,
        b: segment.b,
        side: 0,
        p: 0,
        q: 0,
        r: 0,
        x0: segment.line.x0,
        y0: segment.line.y0,
        rise: segment.line.rise,
        run: segment.line.run,
    };
    if let Some(witness) = segment.cut {
        parts.side = side_number(witness.side);
        parts.p = witness.p;
        parts.q = witness.q;
        parts.r = witness.r;
    }
    parts
}

fn side_number(side: Side) -> u32
    ensures { result ≡ side_number side }
{
    match side {
        Side::Over => 1,
        Side::Under => 2,
    }
}
