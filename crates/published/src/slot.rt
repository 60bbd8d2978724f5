// A slot in which the writer leaves a reader's newest note.
ghost use Rattle.std.specs.Prelude.{◌≡◌, IfSome};
ghost use Rattle.std.specs.Option.{ForSome};

use crate::reader::Note;
use std::marker::{Brand, PhantomData};
use std::sync::{Mutex, Wait};

/// Which map it is. A caller picks it once, at a call with `Brand`, and the slot's type says then
/// that its notes are of that map.
pub trait MapName {
    ghost use Rattle.logbook.specs.Pages.{Book};

    ghost origin: { Book };
}

impl MapName for Brand {
    ghost origin = { record { number = 0; log_name = 0; cells_name = 0 } };
}

/// What stands in a slot.
#[derive(Drop)]
struct Newest<M: MapName> {
    note: Option<Note>,
    of: PhantomData<M>,
    ghost own: { ForSome note (λ note. note.origin ≡ M.origin) },
}

/// A slot for a reader's newest note. The writer puts one in the place of another, and the reader
/// takes it. Threads share it.
#[derive(Drop)]
pub struct Slot<M: MapName> {
    newest: Mutex<Newest<M>>,
}

impl<M: MapName> Slot<M> {
    /// An empty slot. Takes no memory.
    pub fn new() -> Slot<M> {
        Slot {
            newest: Mutex::new(Newest {
                note: None,
                of: PhantomData,
            }),
        }
    }

    /// Leaves a note, in the place of the one that stands there.
    pub fn put<R: Wait>(&self, rt: &R, note: Note)
        requires { note.origin ≡ M.origin }
    {
        let mut newest = self.newest.lock(rt);
        newest.note = Some(note);
    }

    /// Takes the note, if there is one.
    pub fn take<R: Wait>(&self, rt: &R) -> Option<Note>
        ensures { IfSome result (λ note. note.origin ≡ M.origin) }
    {
        let mut newest = self.newest.lock(rt);
        newest.note.take()
    }
}
