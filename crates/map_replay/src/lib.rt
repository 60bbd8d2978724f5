//! Updates that are published in batches beside readers, which ask all their questions in turn.
//!
//! One writer stages and publishes a batch after the other, and tells each reader of it. Each
//! reader goes once through the questions, in a thread of its own, and keeps what it was answered
//! and how many updates that answer is after:
//!
//!     published   | put 1 10 | put 2 20
//!     a reader    | get 1: 10 after 1 | get 2: 20 after 2        or none after 0, or after 1
//!
//! In which order writer and readers get on is left open. What is promised whatever the order: each
//! answer is that of the ordered map after the first so many updates, these end a batch, and no
//! reader sees fewer than it saw before. At the end each reader looks once more and sees all.
//!
//! Main clauses: `each` and `whole` of [`replay`]. The words of the clauses are in `specs/`.
#![tactic(auto)]

mod intake;
mod last_looks;
mod preparing;
mod question;
mod reader_states;
mod reader_threads;
mod reading;
mod replaying;
mod sender_states;
mod sender_threads;
mod sending;
mod workload;

pub use options::Plan;
pub use question::{Answer, Asked, Question};
pub use reading::{Reading, Sighting};
pub use replaying::{Replayed, mix, replay};
pub use workload::{Assignment, Dealing};
