// Where text is written.
ghost use Rattle.std.specs.Prelude.{◌≡◌, ◌<◌, ◌≤◌, ℕ, List, length, Option, Result, Ok, IfOk};
ghost use Rattle.std.specs.Prelude.{OnErr};
ghost use Rattle.edge.specs.declared.failed.Failed.{Failed};
ghost use Rattle.edge.specs.Counts.{HasCause};
ghost use Rattle.edge.specs.Sink.{TakesPart};
ghost use Rattle.edge.specs.Telling.{TellsAsBefore};

use crate::Failed;

/// Takes bytes, in pieces. A sink that tells what was written goes on telling it, and one that
/// doesn't goes on not to.
pub trait Sink {
    /// The bytes written so far, where the sink tells them.
    ghost written: { Self → Option (List ℕ) };

    /// How often a call has failed.
    ghost faults: { Self → ℕ };

    /// A call of `put` may lead from a sink, with this piece and this answer, to this sink.
    ghost puts: { Self → List ℕ → Result ℕ Failed → Self → Type 0 };

    /// Takes a front part of the piece, at least one byte unless the piece is empty, and answers
    /// how many bytes. Of an empty piece it takes 0.
    ///
    /// # Errors
    ///
    /// `Failed` only where the count of faults rose. Then nothing was taken.
    fn put(&mut self, piece: &[u8]) -> Result<usize, Failed>
        ensures within { IfOk result (λ n. n ≤ length piece.now) }
        ensures some { IfOk result (λ n. 0 < length piece.now → 0 < n) }
        ensures nothing { length piece.now ≡ 0 → result ≡ Ok 0 }
        ensures taken { IfOk result
            (λ n. TakesPart (written self.old) piece.now n (written self.new)) }
        ensures failed { OnErr result (written self.new ≡ written self.old) }
        ensures tells { TellsAsBefore (written self.old) (written self.new) }
        ensures call { puts self.old piece.now result self.new }
        ensures cause { HasCause (faults self.old) (faults self.new) result };
}
