// A worker: it draws pieces until there are none left.
ghost use Rattle.std.specs.Prelude.{◌≡◌, ◌+◌, true, length, All, IfOk};
ghost use Rattle.claims.specs.Claims.{IsFresh};
ghost use Rattle.piece_join.specs.Worked.{IsWorked, numbers_of};

use crate::piece::Piece;
use crate::work::Work;
use budget::NoMemory;
use claims::{Claims, Seat};
use edge::Gate;
use std::alloc::Global;

/// What a worker leaves: its seat, and the pieces of the numbers that it drew, in order.
#[derive(Drop)]
pub struct Worked<'a> {
    pub seat: Seat,
    pub pieces: Result<Vec<Piece<'a>>, NoMemory>,
}

/// Draws and segments pieces until there are none left. Where memory runs out it draws no more.
pub fn work_on<'a, G: Gate>(
    alloc: Global,
    work: &'a Work<'a>,
    claims: &Claims,
    gate: &G,
    seat: Seat,
) -> Worked<'a>
    requires fresh { IsFresh claims.now.origin seat }
    requires pieces { claims.now.origin.pieces ≡ length work.now.cuts.now + 1 }
    ensures { IsWorked work.now claims.now.origin result }
{
    let mut seat = seat;
    let pieces = draw_all(alloc, work, claims, gate, &mut seat);
    Worked { seat, pieces }
}

/// The pieces of all numbers that the seat draws.
fn draw_all<'a, G: Gate>(
    alloc: Global,
    work: &'a Work<'a>,
    claims: &Claims,
    gate: &G,
    seat: &mut Seat,
) -> Result<Vec<Piece<'a>>, NoMemory>
    requires fresh { IsFresh claims.now.origin seat.old }
    requires pieces { claims.now.origin.pieces ≡ length work.now.cuts.now + 1 }
    ensures own { seat.new.origin ≡ claims.now.origin }
    ensures ended { IfOk result (λ pieces. seat.new.ended ≡ true) }
    ensures drawn { IfOk result (λ pieces. numbers_of pieces.items ≡ seat.new.drawn) }
    ensures same { IfOk result (λ pieces. All (λ piece. piece.of ≡ work.now) pieces.items) }
{
    let mut pieces = Vec::new(alloc);
    while let Some(number) = seat.draw(claims) {
        pieces.push(Piece::segmented(alloc, work, number, gate)?)?;
    }
    Ok(pieces)
}
