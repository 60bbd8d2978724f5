//! The outside as traits: files that are read, a sink that is written, a gate that threads pass.
//!
//! A call fails only where the object's count of faults rises, so a reader that gives up by itself
//! meets no contract. [`MemShelf`], [`MemSink`] and [`OpenGate`] stand in for the outside and tell
//! all that they hold; [`FileShelf`] and [`OutSink`] carry real files and a real writer and tell
//! nothing.
//!
//! The words of the clauses are in `specs/`.
#![tactic(auto)]

mod failed;
mod file_shelf;
mod filling;
mod gate;
mod mem_shelf;
mod mem_sink;
mod out_sink;
mod shelf;
mod sink;
mod unread;

pub use failed::Failed;
pub use file_shelf::FileShelf;
pub use filling::{fill, next_byte, read_all};
pub use gate::{Gate, OpenGate, Place};
pub use mem_shelf::MemShelf;
pub use mem_sink::MemSink;
pub use out_sink::OutSink;
pub use shelf::Shelf;
pub use sink::Sink;
pub use unread::Unread;
