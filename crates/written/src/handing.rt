// Handing pieces over.
ghost use Rattle.std.specs.Prelude.{◌∷◌, []};
ghost use Rattle.written.specs.Writing.{WritesPieces};

use edge::{Failed, Sink};

/// Hands the piece over, and what was left of it again, until all of it was taken or a call failed.
///
/// A piece may have any length; an empty one is never handed over. Takes no memory.
///
/// # Errors
///
/// `Failed` where a call of the sink failed: the sink has gained what was taken before it, a front
/// part of the piece.
pub fn hand_over<S: Sink>(out: &mut S, piece: &[u8]) -> Result<(), Failed>
    ensures { WritesPieces S.Sink out.old result out.new (piece.now ∷ []) }
{
    let mut rest = piece;
    while !rest.is_empty() {
        match out.put(rest) {
            Ok(taken) => rest = &rest[taken..],
            Err(failed) => return Err(failed),
        }
    }
    Ok(())
}
