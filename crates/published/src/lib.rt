//! A map that one writer changes and many readers search.
//!
//! The writer holds a batch of updates in hand and publishes it at once. No call of a reader waits
//! or takes memory. What a reader sees is the map after a prefix of what was published, which ends
//! a batch and begins with all that this reader saw before, and with all that it was told of:
//!
//!     published   | put 1 10 | put 2 20, del 1 | put 3 30
//!     a look      | put 1 10 | put 2 20, del 1                 2 has 20, 1 nothing
//!     a later one | put 1 10 | put 2 20, del 1 | put 3 30      or the same as before
//!
//! The published batches in their order are the *history*. It exists in the proofs alone, in a book
//! that only grows (crate `logbook`); what runs of it is the published length, a `u64` beside each
//! finished version of the map. The rule has three parts. A version's prefix is how the history
//! began, and so is what a reader saw and what a note tells: their types say so, and of two such
//! prefixes the longer begins with the other. A version's map stands for the updates of its prefix:
//! its type says so. The version that is shown begins with all that anyone has seen who stands at
//! its copies: that is the rule of `left_right`'s table.
//!
//! The steps on what threads share, each one event:
//!
//! | Event | Where | Step |
//! |---|---|---|
//! | open | `start_map` | the book is opened, with an empty history |
//! | publish | `Writer::publish` | the book's word is exchanged: the batch stands in the history |
//! | | | the copies are swapped: it is shown |
//! | look | `Reader::look` | the copy that is shown is entered |
//! | tell, learn | `Writer::tell`, `Reader::learn` | none: a note is a prefix that is copied |
//!
//! Main clauses: `published` of [`Writer::publish`], `look` of [`Reader::look`], `told` of
//! [`Reader::learn`], and those of [`Look::get`], [`Look::next`] and [`Look::count`]. The words of
//! the clauses are in `specs/Histories.antt` and `specs/Writers.antt`.
//!
//! Sources: the copies are those of J. Gjengset's crate `left-right`, after P. Ramalhete and A.
//! Correia, Left-Right: a concurrency control technique with wait-free population oblivious reads,
//! 2013.
#![tactic(auto)]

mod copies;
mod door;
mod history;
mod reader;
mod slot;
mod version;
mod writer;

pub use door::{Door, Inner, Inside, PlainDoor, ShutDoor};
pub use history::Batch;
pub use reader::{Look, Note, Reader};
pub use slot::{MapName, Slot};
pub use writer::{Writer, start_map};
