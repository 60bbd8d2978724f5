// Files in memory, with faults where the caller wants them.
ghost use Rattle.std.specs.Prelude.{◌≡◌, ◌+◌, ◌<◌, ◌≤◌, min, true, [], length, drop, Contains};
ghost use Rattle.std.specs.Prelude.{None, Some, MatchOption, ⊤};
ghost use Rattle.edge.specs.Files.{contents_of, file_at};
ghost use Rattle.edge.specs.Shelf.{ReadsBytes};
ghost use Rattle.edge.specs.Taken.{IsTakenOf};

use crate::failed::raise;
use crate::{Failed, Shelf};

/// Files in memory, which tell all that they hold.
///
/// Calls of both kinds are numbered from 1.
#[derive(Drop)]
pub struct MemShelf {
    files: Vec<(String, Vec<u8>)>,
    failing: Vec<u64>,
    most: usize,
    calls: u64,
    faults: u64,
    taken: Option<Taken>,
    ghost positive: { 1 ≤ most },
    ghost in_range: { IsTakenOf files.items taken },
}

/// The file that is taken, and how many of its bytes were read.
#[derive(Clone, Copy)]
struct Taken {
    file: usize,
    at: usize,
}

impl MemShelf {
    ghost use Rattle.edge.specs.Device.{fresh_device};
    ghost use Rattle.edge.specs.Shelves.{device_of};

    /// A shelf of these files, the first of each name, with no fault counted and none taken.
    ///
    /// The calls whose numbers are in `failing` fail, but for a read into an empty buffer, and one
    /// read gives at most `most` bytes. Takes no memory.
    pub fn new(files: Vec<(String, Vec<u8>)>, failing: Vec<u64>, most: usize) -> Self
        requires { 1 ≤ most }
        ensures device { device_of result ≡ fresh_device failing.items most }
        ensures files { ⟦<MemShelf as Shelf>⟧.files result ≡ Some (contents_of files.items) }
        ensures rest { ⟦<MemShelf as Shelf>⟧.rest result ≡ Some [] }
        ensures faults { ⟦<MemShelf as Shelf>⟧.faults result ≡ 0 }
    {
        MemShelf {
            files,
            failing,
            most,
            calls: 0,
            faults: 0,
            taken: None,
        }
    }

    /// How many calls of `take_file` and `read` were made, those that failed among them. It stays
    /// at its last value. Takes no memory.
    pub fn calls(&self) -> u64
        ensures { result ≡ (device_of self.now).calls }
    {
        self.calls
    }
}

impl Shelf for MemShelf {
    ghost use Rattle.std.specs.Prelude.{Some};
    ghost use Rattle.edge.specs.Files.{contents_of};
    ghost use Rattle.edge.specs.Taken.{bytes_left};
    ghost use Rattle.edge.specs.Shelves.{TakesInMemory, ReadsInMemory};

    ghost files = { λ s. Some (contents_of s.files.items) };

    ghost rest = { λ s. Some (bytes_left s.files.items s.taken) };

    ghost faults = { λ s. s.faults };

    ghost takes = { TakesInMemory };

    ghost reads = { ReadsInMemory };

    fn take_file(&mut self, name: &str) -> Result<(), Failed> {
        self.taken = None;
        if is_listed(&mut self.calls, &self.failing) {
            return Err(raise(&mut self.faults));
        }
        match find(&self.files, name) {
            Some(file) => {
                self.taken = Some(Taken { file, at: 0 });
                Ok(())
            }
            None => Err(raise(&mut self.faults)),
        }
    }

    fn read(&mut self, buf: &mut [u8]) -> Result<usize, Failed> {
        let listed = is_listed(&mut self.calls, &self.failing);
        if buf.is_empty() {
            return Ok(0);
        }
        if listed {
            self.taken = None;
            return Err(raise(&mut self.faults));
        }
        let Some(taken) = self.taken else {
            return Ok(0);
        };
        let left = &file_of(&self.files, taken.file)[taken.at..];
        let n = copy_front(left, buf, self.most);
        self.taken = Some(Taken {
            file: taken.file,
            at: taken.at + n,
        });
        Ok(n)
    }
}

// Counts a call, and says whether it is to fail.
fn is_listed(calls: &mut u64, failing: &[u64]) -> bool
    ensures counted { calls.new ≡ min (calls.old + 1) 18446744073709551615 }
    ensures listed { result ≡ true → Contains failing.now calls.new }
    ensures others { Contains failing.now calls.new → result ≡ true }
{
    *calls = calls.saturating_add(1);
    failing.contains(calls)
}

// The contents of the file in this place.
fn file_of(files: &[(String, Vec<u8>)], i: usize) -> &[u8]
    requires { i < length files.now }
    ensures { result.now ≡ file_at files.now i }
{
    &files[i].1
}

// Copies the first bytes of what is left, at most `most`, and answers how many.
fn copy_front(left: &[u8], buf: &mut [u8], most: usize) -> usize
    requires { 1 ≤ most }
    ensures bytes { ReadsBytes left.now (length buf.old) result buf.new
        (Some (drop result left.now)) }
    ensures count { result ≡ min (min (length left.now) (length buf.old)) most }
{
    let n = left.len().min(buf.len()).min(most);
    buf[..n].copy_from_slice(&left[..n]);
    n
}

// The place of the first file of this name.
fn find(files: &[(String, Vec<u8>)], name: &str) -> Option<usize>
    ensures found { MatchOption result (contents_of files.now name.now ≡ None)
        (λ i. contents_of files.now name.now ≡ Some (file_at files.now i)) }
    ensures there { MatchOption result ⊤ (λ i. i < length files.now) }
{
    for (i, file) in files.iter().enumerate() {
        if file.0.as_str() == name {
            return Some(i);
        }
    }
    None
}
