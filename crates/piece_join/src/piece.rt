// A piece that a worker has segmented.
ghost use Rattle.std.specs.Prelude.{◌≡◌, ◌≤◌, length, IfOk};

use crate::work::Work;
use budget::NoMemory;
use edge::{Gate, Place};
use exact_cross::Segment;
use segmenter::segment;
use std::alloc::Global;
use std::marker::Model;

/// The number of a piece, and the piece's segments: of its places, as if a run began at its edge.
#[derive(Drop)]
pub struct Piece<'a> {
    of: &'a Work<'a>,
    number: u32,
    segments: Vec<Segment>,
}

impl<'a> Model for Piece<'a> {
    ghost use Rattle.piece_join.specs.Pieces.{Pieced, IsPiece};

    ghost Value = { Pieced };

    ghost view = { λ piece. record {
      of = piece.of.now;
      number = piece.number;
      segments = piece.segments.items;
    } };

    ghost invariant = { λ piece. IsPiece (record {
      of = piece.of.now;
      number = piece.number;
      segments = piece.segments.items;
    }) };
}

impl<'a> Piece<'a> {
    ghost use Rattle.piece_join.specs.Pieces.{IsPart};

    /// Segments the piece of this number, between its two places of the gate.
    pub fn segmented<G: Gate>(
        alloc: Global,
        of: &'a Work<'a>,
        number: u32,
        gate: &G,
    ) -> Result<Self, NoMemory>
        requires { number ≤ length of.now.cuts.now }
        ensures of { IfOk result (λ piece. piece.of ≡ of.now) }
        ensures number { IfOk result (λ piece. piece.number ≡ number) }
    {
        let from = of.edge(number);
        let to = of.edge(number + 1);
        gate.at(Place::PieceBegun(number));
        let segments = segment(alloc, of.points, of.eps, from, to)?;
        gate.at(Place::PieceDone(number));
        Ok(Piece {
            of,
            number,
            segments,
        })
    }

    /// Its number and its segments.
    pub fn into_parts(self) -> (u32, Vec<Segment>)
        ensures number { result.0 ≡ self.entry.number }
        ensures inside { result.0 ≤ length self.entry.of.cuts.now }
        ensures part { IsPart self.entry.of result.0 result.1.items }
    {
        let Piece {
            of: _,
            number,
            segments,
        } = self;
        (number, segments)
    }
}
