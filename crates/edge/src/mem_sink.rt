// A sink in memory, with faults where the caller wants them.
ghost use Rattle.std.specs.Prelude.{◌≡◌, ◌≤◌, [], Some, IfOk, vec_len, vec_capacity};

use crate::failed::raise;
use crate::{Failed, Sink};
use budget::NoMemory;
use std::alloc::Global;

/// A sink in memory of a fixed size, which tells all that it holds.
///
/// Calls are numbered from 1.
#[derive(Drop)]
pub struct MemSink {
    bytes: Vec<u8>,
    room: usize,
    failing: Vec<u64>,
    most: usize,
    calls: u64,
    faults: u64,
    ghost positive: { 1 ≤ most },
    ghost within: { vec_len bytes ≤ room },
    ghost taken: { room ≤ vec_capacity bytes },
}

impl MemSink {
    ghost use Rattle.edge.specs.Device.{fresh_device};
    ghost use Rattle.edge.specs.Memories.{memory_of};

    /// An empty sink of room for `room` bytes, with no fault counted. The only error is want of
    /// memory.
    ///
    /// The calls whose numbers are in `failing` fail, one call takes at most `most` bytes, and a
    /// call that would pass the room fails.
    pub fn new(alloc: Global, room: usize, failing: Vec<u64>, most: usize) -> Result<Self, NoMemory>
        requires { 1 ≤ most }
        ensures memory { IfOk result
            (λ sink. memory_of sink
            ≡ record { device = fresh_device failing.items most; room = room; bytes = [] }) }
        ensures written { IfOk result (λ sink. ⟦<MemSink as Sink>⟧.written sink ≡ Some []) }
        ensures faults { IfOk result (λ sink. ⟦<MemSink as Sink>⟧.faults sink ≡ 0) }
    {
        Ok(MemSink {
            bytes: Vec::with_capacity(alloc, room)?,
            room,
            failing,
            most,
            calls: 0,
            faults: 0,
        })
    }

    /// The bytes that were written. Takes no memory.
    pub fn bytes(&self) -> &[u8]
        ensures { ⟦<MemSink as Sink>⟧.written self.now ≡ Some result.now }
    {
        &self.bytes
    }

    /// How many calls of `put` were made, those that failed and those of an empty piece among them.
    /// It stays at its last value. Takes no memory.
    pub fn calls(&self) -> u64
        ensures { result ≡ (memory_of self.now).device.calls }
    {
        self.calls
    }
}

impl Sink for MemSink {
    ghost use Rattle.std.specs.Prelude.{Some};
    ghost use Rattle.edge.specs.Puts.{PutsInMemory};
    ghost use Rattle.edge.specs.Memories.{memory_of};

    ghost written = { λ s. Some s.bytes.items };

    ghost faults = { λ s. s.faults };

    ghost puts = { λ old piece result new.
        PutsInMemory (memory_of old) piece result (memory_of new) };

    fn put(&mut self, piece: &[u8]) -> Result<usize, Failed> {
        self.calls = self.calls.saturating_add(1);
        if piece.is_empty() {
            return Ok(0);
        }
        let n = piece.len().min(self.most);
        if self.failing.contains(&self.calls) || n > self.room - self.bytes.len() {
            return Err(raise(&mut self.faults));
        }
        if self.bytes.extend_from_slice(&piece[..n]).is_err() {
            return Err(raise(&mut self.faults));
        }
        Ok(n)
    }
}
