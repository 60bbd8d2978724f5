//! Updates that several senders send to one inbox, each in its order.
//!
//! A queue of bounded room stands between them. To send is to put an update at its back, and to
//! take is to have the one at its front: two senders may send `a`, `b` and `x`, `y`, and the inbox
//! may take `a`, `x`, `b`, `y`, or `x`, `y`, `a`, `b`, but never `b` before `a`.
//!
//! However the calls interleave, what was taken of a sender, followed by what is queued of it, is
//! what it sent: nothing is lost, doubled or turned round.
//!
//! Main clauses: `sent` and `full` of [`Sender::send`], `took` and `empty` of [`Inbox::take`],
//! `delivered` and `left` of [`Inbox::close`]. The words of the clauses are in
//! `specs/Senders.antt`.
#![tactic(auto)]

mod ends;
mod views;

pub use ends::{Inbox, Sender, start_senders};
