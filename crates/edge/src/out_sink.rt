// A real writer.

ghost use Rattle.std.specs.Prelude.{◌≡◌, IfOk};
ghost use Rattle.edge.specs.Counts.{HasCause};

use crate::failed::raise;
use crate::{Failed, Sink};
use budget::NoMemory;
use std::alloc::Global;
use std::io::{BufWriter, Write};

/// A writer behind a buffer of fixed size. It tells nothing of what was written.
///
/// Each error of the writer is a fault, and so is a write that takes no byte. What the buffer holds
/// is written when it is full and by [`OutSink::flush`]; a write of it that a signal interrupts is
/// tried again there and is no fault. A piece as long as the buffer goes straight to the writer,
/// and there an interrupted write is one.
#[derive(Drop)]
pub struct OutSink<W: Write + Drop> {
    writer: BufWriter<W>,
    faults: u64,
}

impl<W: Write + Drop> OutSink<W> {
    /// A sink with no fault counted, whose buffer of `room` bytes is taken here. The only error is
    /// want of memory.
    pub fn new(alloc: Global, writer: W, room: usize) -> Result<Self, NoMemory>
        ensures { IfOk result (λ sink. ⟦<OutSink<W> as Sink>⟧.faults sink ≡ 0) }
    {
        match BufWriter::with_capacity(alloc, room, writer) {
            Ok(writer) => Ok(OutSink { writer, faults: 0 }),
            Err(_) => Err(NoMemory),
        }
    }

    /// Writes what the buffer holds.
    ///
    /// # Errors
    ///
    /// `Failed` where the writer failed, and only where the count of faults rose. Then what was
    /// left in the buffer may be lost.
    pub fn flush(&mut self) -> Result<(), Failed>
        ensures cause { HasCause (⟦<OutSink<W> as Sink>⟧.faults self.old)
            (⟦<OutSink<W> as Sink>⟧.faults self.new) result }
    {
        match self.writer.flush() {
            Ok(()) => Ok(()),
            Err(_) => Err(raise(&mut self.faults)),
        }
    }
}

impl<W: Write + Drop> Sink for OutSink<W> {
    ghost use Rattle.std.specs.Prelude.{None};

    ghost written = { λ _. None };

    ghost faults = { λ s. s.faults };

    ghost puts = { λ _ _ _ _. Unit {0} };

    fn put(&mut self, piece: &[u8]) -> Result<usize, Failed> {
        if piece.is_empty() {
            return Ok(0);
        }
        match self.writer.write(piece) {
            Ok(0) | Err(_) => Err(raise(&mut self.faults)),
            Ok(n) => Ok(n),
        }
    }
}
