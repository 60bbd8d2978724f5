// The readers before they start, with all room that they need.
ghost use Rattle.std.specs.Prelude.{◌≡◌, ◌≤◌, All, IfOk, vec_len};
ghost use Rattle.options.specs.declared.map.TheConstants.{MAX_READERS};
ghost use Rattle.map_replay.specs.ReaderStates.{ArePrepared, HasRoom};

use crate::reader_states::{PreparedReaders, WaitingReader};
use crate::reading::Sighting;
use published::{MapName, Reader};
use std::alloc::{AllocError, Global};
use std::marker::PhantomData;

/// The readers, each with room for so many sightings, and room for what they leave.
pub fn prepare<M: MapName>(
    alloc: Global,
    readers: Vec<Reader>,
    questions: usize,
) -> Result<PreparedReaders<M>, AllocError>
    requires some { 1 ≤ vec_len readers }
    requires few { vec_len readers ≤ MAX_READERS }
    requires own { All (λ reader. reader.origin ≡ M.origin) readers.items }
    ensures count { IfOk result (λ prepared. vec_len prepared.waiting ≡ vec_len readers) }
    ensures room { IfOk result (ArePrepared questions (vec_len readers)) }
{
    let count = readers.len();
    Ok(PreparedReaders {
        finished: Vec::with_capacity(alloc, count)?,
        readings: Vec::with_capacity(alloc, count)?,
        waiting: waiting_readers::<M>(alloc, readers, questions)?,
    })
}

/// The readers, each with room for so many sightings, the first one last.
fn waiting_readers<M: MapName>(
    alloc: Global,
    mut readers: Vec<Reader>,
    questions: usize,
) -> Result<Vec<WaitingReader<M>>, AllocError>
    requires few { vec_len readers ≤ MAX_READERS }
    requires own { All (λ reader. reader.origin ≡ M.origin) readers.items }
    ensures count { IfOk result (λ waiting. vec_len waiting ≡ vec_len readers) }
    ensures room { IfOk result (λ waiting. All (HasRoom questions) waiting.items) }
{
    let mut waiting = Vec::with_capacity(alloc, readers.len())?;
    while let Some(reader) = readers.pop() {
        let sightings: Vec<Sighting> = Vec::with_capacity(alloc, questions)?;
        waiting.push(WaitingReader {
            number: readers.len() as u32,
            reader,
            sightings,
            of: PhantomData,
        })?;
    }
    Ok(waiting)
}
