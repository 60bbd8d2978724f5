// Reading the text of a file.
ghost use Rattle.std.specs.Prelude.{◌≡◌, ◌⊎◌, ◌<◌, ◌≤◌, ◌^◌, ℕ, List, Err};
ghost use Rattle.std.specs.Prelude.{Result, vec_len, IfOk, IfSome, MatchResult};
ghost use Rattle.edge.specs.Risen.{StaysQuiet};
ghost use Rattle.pgm_script.specs.declared.fault.ScriptFault.{ScriptFault};
ghost use Rattle.pgm_script.specs.Texts.{IsTextOf, ReadsText};

use crate::ScriptFault;
use edge::{Shelf, read_all};
use std::alloc::Global;

/// All bytes that are left of the taken file, which may be `limit` at most.
///
/// Memory is taken by chunks of at most 65,536 bytes, each before it is read. At most one byte more
/// than `limit` is read.
///
/// # Errors
///
/// - `TooLong` where more bytes were left. `got` is one more than `limit`.
/// - `ReadFault` at once where the shelf failed. Then nothing is left.
/// - `NoMemory` where memory for the next chunk wasn't found.
///
/// Never `At`.
pub fn read_text<F: Shelf>(alloc: Global, shelf: &mut F, limit: u64) -> Result<Vec<u8>, ScriptFault>
    requires { limit < 2 ^ 63 }
    // The files stay, and the count of faults rises only where the shelf failed. Where the shelf
    // tells the bytes: what they are, unless it failed or memory ran out. What is left is what was
    // left, but for a front part.
    ensures reading { ReadsText F.Shelf limit (λ text. text.items) shelf.old result shelf.new }
    ensures wherever { IfSome (F.rest shelf.old)
        (λ bytes. (reading : Result (List ℕ) ScriptFault) → IsTextOf limit bytes reading →
        StaysQuiet (F.faults shelf.old) (F.faults shelf.new) →
        MatchResult result (λ text. reading ≡ Ok text.items)
        (λ fault. (fault ≡ ScriptFault.NoMemory) ⊎ (reading ≡ Err fault))) }
    // Told or not.
    ensures within { IfOk result (λ text. vec_len text ≤ limit) }
{
    Ok(read_all(alloc, shelf, limit)?)
}
