// What all workers share: the points and their cuts.
ghost use Rattle.std.specs.Prelude.{◌≡◌, ◌<◌, ◌≤◌, length};
ghost use Rattle.exact_cross.specs.declared.TheConstants.{MAX_EPSILON};
ghost use Rattle.options.specs.declared.index.TheConstants.{MAX_PIECES};
ghost use Rattle.piece_join.specs.Cuttings.{AreCuts};

use exact_cross::PointList;

/// Points, an error bound and the cuts between the pieces.
#[derive(Drop)]
pub struct Work<'a> {
    pub points: PointList<'a>,
    pub eps: u32,
    pub cuts: &'a [u32],
    ghost bounded: { eps ≤ MAX_EPSILON },
    ghost inside: { AreCuts (length points.xs.now) cuts.now },
    ghost few_cuts: { length cuts.now < MAX_PIECES },
}

impl<'a> Work<'a> {
    ghost use Rattle.std.specs.Prelude.{◌+◌};
    ghost use Rattle.piece_join.specs.Pieces.{edge_of};

    /// How many places there are.
    pub fn len(&self) -> u32
        ensures { result ≡ length self.now.points.xs.now }
    {
        self.points.xs.len() as u32
    }

    /// How many pieces there are.
    pub fn pieces(&self) -> u32
        ensures { result ≡ length self.now.cuts.now + 1 }
    {
        self.cuts.len() as u32 + 1
    }

    /// Where the piece of this number begins, and the one before it ends.
    pub fn edge(&self, number: u32) -> u32
        requires { number ≤ length self.now.cuts.now + 1 }
        ensures { result ≡ edge_of (length self.now.points.xs.now) self.now.cuts.now number }
    {
        if number == 0 {
            return 0;
        }
        if number < self.pieces() {
            return self.cuts[number as usize - 1];
        }
        self.len()
    }
}
