// What a reader saw.

use crate::Answer;

/// An answer, and after how many updates it is.
#[derive(Clone, Copy, Debug, PartialEq, Eq)]
pub struct Sighting {
    /// How many updates the reader knew of when it looked: as many as it saw before, or more, where
    /// it learned a note of more.
    pub known: u64,
    /// How many updates the answer is after.
    pub length: u64,
    /// The answer.
    pub answer: Answer,
}

/// What a reader saw, beside the writer and at the end.
#[derive(Drop)]
pub struct Reading {
    /// One sighting for each question, in turn.
    pub sightings: Vec<Sighting>,
    /// How many updates its last look showed.
    pub last: u64,
}
