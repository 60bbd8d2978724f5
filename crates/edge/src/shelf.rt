// Files by name, read one at a time.
ghost use Rattle.std.specs.Prelude.{◌≡◌, ◌≤◌, ℕ, List, length, Option, Result, Ok, IfOk, OnOk};
ghost use Rattle.std.specs.Prelude.{OnErr, ⊤};
ghost use Rattle.edge.specs.declared.failed.Failed.{Failed};
ghost use Rattle.edge.specs.Counts.{HasCause};
ghost use Rattle.edge.specs.Shelf.{TakesFile, ReadsNext, HasNothingLeft};
ghost use Rattle.edge.specs.Telling.{TellsAsBefore};

use crate::Failed;

/// Files by name, of which one is taken and read.
///
/// A shelf that tells what its files hold, or what is left, goes on telling it, and one that
/// doesn't goes on not to.
pub trait Shelf {
    /// What is in each file, by its name, where the shelf tells it.
    ghost files: { Self → Option (List ℕ → Option (List ℕ)) };

    /// What is left to read of the taken file, where the shelf tells it: nothing where no file is
    /// taken.
    ghost rest: { Self → Option (List ℕ) };

    /// How often a call has failed.
    ghost faults: { Self → ℕ };

    /// A call of `take_file` may lead from a shelf, with this name and this answer, to this shelf.
    ghost takes: { Self → List ℕ → Result ⊤ Failed → Self → Type 0 };

    /// A call of `read` may lead from a shelf, with a buffer of this many bytes and this answer, to
    /// this shelf.
    ghost reads: { Self → ℕ → Result ℕ Failed → Self → Type 0 };

    /// Makes the file of this name the taken one, from its start. A name that isn't there is a
    /// fault.
    ///
    /// # Errors
    ///
    /// `Failed` only where the count of faults rose. Then nothing is taken.
    fn take_file(&mut self, name: &str) -> Result<(), Failed>
        ensures taken { OnOk result (TakesFile (files self.old) name.now (rest self.new)) }
        ensures failed { OnErr result (HasNothingLeft (rest self.new)) }
        ensures files { files self.new ≡ files self.old }
        ensures tells { TellsAsBefore (rest self.old) (rest self.new) }
        ensures call { takes self.old name.now result self.new }
        ensures cause { HasCause (faults self.old) (faults self.new) result };

    /// Reads the next bytes of the taken file into the front of `buf`, at least one unless `buf` is
    /// empty or nothing is left, and answers how many. A read into an empty buffer gives 0.
    ///
    /// # Errors
    ///
    /// `Failed` only where the count of faults rose. Then nothing is taken.
    fn read(&mut self, buf: &mut [u8]) -> Result<usize, Failed>
        ensures within { IfOk result (λ n. n ≤ length buf.old) }
        ensures next { IfOk result
            (λ n. ReadsNext (rest self.old) (length buf.old) n buf.new (rest self.new)) }
        ensures nothing { length buf.old ≡ 0 → result ≡ Ok 0 }
        ensures failed { OnErr result (HasNothingLeft (rest self.new)) }
        ensures files { files self.new ≡ files self.old }
        ensures tells { TellsAsBefore (rest self.old) (rest self.new) }
        ensures call { reads self.old (length buf.old) result self.new }
        ensures cause { HasCause (faults self.old) (faults self.new) result };
}
