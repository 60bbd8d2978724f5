// Real files.

ghost use Rattle.std.specs.Prelude.{◌≡◌};

use crate::failed::raise;
use crate::{Failed, Shelf};
use std::fs::File;
use std::io::Read;
use std::rt::Files;

/// The files of the system, by their paths. It tells nothing of what they hold.
///
/// Each error of the system is a fault: a missing file, a directory that is read, an interrupted
/// call.
#[derive(Drop)]
pub struct FileShelf<'a, R: Files> {
    rt: &'a R,
    taken: Option<R::File>,
    faults: u64,
}

impl<'a, R: Files> FileShelf<'a, R> {
    /// A shelf with no file taken and no fault counted.
    pub fn new(rt: &'a R) -> Self
        ensures { ⟦<FileShelf<'a, R> as Shelf>⟧.faults result ≡ 0 }
    {
        FileShelf {
            rt,
            taken: None,
            faults: 0,
        }
    }
}

impl<'a, R: Files> Shelf for FileShelf<'a, R> {
    ghost use Rattle.std.specs.Prelude.{None, ⊤};

    ghost files = { λ _. None };

    ghost rest = { λ _. None };

    ghost faults = { λ s. s.faults };

    ghost takes = { λ _ _ _ _. ⊤ };

    ghost reads = { λ _ _ _ _. ⊤ };

    fn take_file(&mut self, name: &str) -> Result<(), Failed> {
        self.taken = None;
        match File::open(self.rt, name) {
            Ok(file) => {
                self.taken = Some(file);
                Ok(())
            }
            Err(_) => Err(raise(&mut self.faults)),
        }
    }

    fn read(&mut self, buf: &mut [u8]) -> Result<usize, Failed> {
        if buf.is_empty() {
            return Ok(0);
        }
        let Some(file) = &mut self.taken else {
            return Ok(0);
        };
        match file.read(buf) {
            Ok(n) => Ok(n),
            Err(_) => {
                self.taken = None;
                Err(raise(&mut self.faults))
            }
        }
    }
}
