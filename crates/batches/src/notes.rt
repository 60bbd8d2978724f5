// A reader's slot, and its side of the notes in it.
ghost use Rattle.std.specs.Prelude.{◌≡◌, IfOk, vec_len};
ghost use mathlib.Core.List.{IsPrefix};

use published::{Look, MapName, Reader, Slot};
use std::alloc::{AllocError, Global};
use std::sync::Wait;

/// So many empty slots.
pub fn slots_for<M: MapName>(alloc: Global, count: usize) -> Result<Vec<Slot<M>>, AllocError>
    ensures { IfOk result (λ slots. vec_len slots ≡ count) }
{
    let mut slots = Vec::with_capacity(alloc, count)?;
    for _number in 0..count {
        slots.push(Slot::new())?;
    }
    Ok(slots)
}

/// Takes the newest note out of the reader's slot, if there is one, and learns it.
pub fn learn_newest<M: MapName + Send + Sync, R: Wait>(rt: &R, reader: &mut Reader, slot: &Slot<M>)
    requires { reader.old.origin ≡ M.origin }
    ensures seen { IsPrefix reader.old.batches reader.new.batches }
    ensures own { reader.new.origin ≡ reader.old.origin }
{
    if let Some(note) = slot.take(rt) {
        reader.learn(note);
    }
}

/// Looks until the reader is let in.
pub fn look_until<R: Wait>(rt: &R, reader: Reader) -> Look
    ensures shown { IsPrefix reader.batches result.batches }
    ensures own { result.origin ≡ reader.origin }
{
    let mut reader = reader;
    let mut refusals = 0;
    for _turn in rt.forever() {
        match reader.look(&mut refusals) {
            Ok(look) => return look,
            Err(back) => reader = back,
        }
    }
    unreachable!()
}
