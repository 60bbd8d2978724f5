// What the seats of the claim word know, and the kinds of step on it.

use atomic_table::{Join, Play, Split, TableRule};
use std::collections::LinkedList;

/// How many numbers there are, and how many workers. It is told to the rule when the word is made.
#[derive(Clone, Copy)]
pub struct Plan {
    pub pieces: u32,
    pub workers: u32,
}

/// What a seat knows. No value of it is made.
pub struct View {
    /// How many numbers there are.
    pub pieces: u32,
    /// The numbers that were drawn, in order.
    pub drawn: LinkedList<u32>,
    /// How many workers draw with this seat.
    pub workers: u32,
    /// How many of them have ended.
    pub ended: u32,
}

/// The rule: the word counts the draws, and the numbers drawn are those below it, each once.
pub struct EachOnce;

impl TableRule<(), View, Plan> for EachOnce {
    ghost use Rattle.claims.specs.Views.{AreClaimed, view_of};

    ghost holds = { AreClaimed };

    ghost first = { view_of };
}

/// The step of a draw.
pub struct Drew;

impl Play<(), View> for Drew {
    ghost use Rattle.claims.specs.Views.{drew};

    ghost then = { drew };
}

/// The step that gives one worker a seat of its own.
pub struct OneApart;

impl Split<View> for OneApart {
    ghost use Rattle.claims.specs.Views.{without_one, one_of};

    ghost left = { without_one };

    ghost right = { one_of };
}

/// The step that puts two seats together.
pub struct Together;

impl Join<View> for Together {
    ghost use Rattle.claims.specs.Views.{joined, spent};

    ghost both = { joined };

    ghost spent = { spent };
}
