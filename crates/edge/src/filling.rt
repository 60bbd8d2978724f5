// Reading from a shelf whose reads may give less than they were asked for.
ghost use Rattle.std.specs.Prelude.{◌<◌, ◌≤◌, ◌^◌, ◌+◌, length, vec_len, IfOk};
ghost use Rattle.edge.specs.Reading.{Fills, GivesByte, GivesAll};
ghost use Rattle.edge.specs.Readers.{Reads};
ghost use Rattle.edge.specs.Readers.Origin.{of_shelf};
ghost use Rattle.edge.specs.Unread.{origin_of, AreTooMany, AreAtMost};

use crate::{Failed, Shelf, Unread};
use std::alloc::Global;

/// How many bytes a chunk has at most: so far memory is taken ahead of the bytes.
const CHUNK: u64 = 65_536;

/// Reads until the buffer is full or nothing is left, and answers how many bytes stand in its
/// front.
///
/// # Errors
///
/// `Failed` at once where a read failed. Then nothing is left.
pub fn fill<F: Shelf>(shelf: &mut F, buf: &mut [u8]) -> Result<usize, Failed>
    ensures within { IfOk result (λ n. n ≤ length buf.old) }
    ensures reading { Reads F.Shelf (λ _. of_shelf) (λ n before after. Fills before n buf.new after)
        (λ _ _. ⊥) (λ _ _. ⊥) shelf.old result shelf.new }
{
    let mut filled = 0;
    while filled < buf.len() {
        let n = shelf.read(&mut buf[filled..])?;
        if n == 0 {
            return Ok(filled);
        }
        filled += n;
    }
    Ok(filled)
}

/// The next byte, or nothing at the end of the file.
///
/// # Errors
///
/// `Failed` where the read failed. Then nothing is left.
pub fn next_byte<F: Shelf>(shelf: &mut F) -> Result<Option<u8>, Failed>
    ensures { Reads F.Shelf (λ _. of_shelf) GivesByte (λ _ _. ⊥) (λ _ _. ⊥)
        shelf.old result shelf.new }
{
    let mut byte = [0u8];
    let n = shelf.read(&mut byte)?;
    Ok((n > 0).then_some(byte[0]))
}

/// All bytes that are left of the taken file, which may be `limit` at most.
///
/// Memory is taken by chunks of at most 65,536 bytes, each before it is read. At most one byte more
/// than `limit` is read.
///
/// # Errors
///
/// - `TooLong` where more bytes were left. `got` is one more than `limit`.
/// - `ReadFault` at once where the shelf failed. Then nothing is left.
/// - `NoMemory` where memory for the next chunk wasn't found.
pub fn read_all<F: Shelf>(alloc: Global, shelf: &mut F, limit: u64) -> Result<Vec<u8>, Unread>
    requires { limit < 2 ^ 63 }
    ensures within { IfOk result (λ all. vec_len all ≤ limit) }
    ensures reading { Reads F.Shelf origin_of (λ all. GivesAll all.items) (AreTooMany limit)
        (AreAtMost (limit + 1)) shelf.old result shelf.new }
{
    let mut all = Vec::new(alloc);
    let mut chunk = vec![in alloc; 0; (limit + 1).min(CHUNK) as usize]?;
    while all.len() as u64 <= limit {
        let room = (limit + 1 - all.len() as u64).min(CHUNK) as usize;
        all.reserve(room)?;
        let part = &mut chunk[..room];
        let got = fill(shelf, part)?;
        all.extend_from_slice(&part[..got])?;
        if got < room {
            return Ok(all);
        }
    }
    Err(Unread::TooLong { got: limit + 1 })
}
