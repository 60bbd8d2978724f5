// What the passes of the queue know, and the kinds of step on it.

use crossbeam_queue::protocol::{Join, Lesson, Outcome, Protocol, Split};
use crossbeam_queue::{Pass, RuledArrayQueue};
use log_levels::Update;
use std::collections::LinkedList;

/// An update beside its sender's number.
pub type Item = (u32, Update);

/// A sender as the rule knows it. No value of it is made.
pub struct Hand {
    pub number: u32,
    /// The updates that it sent, in order.
    pub sent: LinkedList<Update>,
}

/// What a pass knows. No value of it is made.
pub struct View {
    /// How many senders there are, at most.
    pub senders: u32,
    /// How many of them were made, where the pass is the inbox's.
    pub made: u32,
    /// The senders that it stands for.
    pub hands: LinkedList<Hand>,
    /// Whether it is the inbox's.
    pub takes: bool,
    /// What the inbox took, in order.
    pub taken: LinkedList<Item>,
    /// What the inbox knows to wait in the queue.
    pub waiting: LinkedList<Item>,
}

/// The queue, under its rule.
pub type Line = RuledArrayQueue<Item, View, EachInOrder>;

/// The right to send as one sender, or to take. It has no bytes.
pub type Right = Pass<Item, View>;

/// The rule: what was taken of each sender, followed by what is queued of it, is what it sent.
pub struct EachInOrder;

impl Protocol<Item, View> for EachInOrder {
    ghost use Rattle.std.specs.Prelude.{[]};
    ghost use Rattle.options.specs.declared.map.TheConstants.{MAX_SENDERS};
    ghost use Rattle.senders.specs.Views.{Delivers, taking};

    ghost holds = { Delivers };

    ghost first = { taking MAX_SENDERS 0 [] [] [] };
}

/// The step by which the last number gets no sender.
pub struct OneFewer;

impl Split<View> for OneFewer {
    ghost use Rattle.senders.specs.Views.{one_fewer, spent};

    ghost left = { one_fewer };

    ghost right = { λ _. spent };
}

/// The step by which the next number gets its sender.
pub struct OneApart;

impl Split<View> for OneApart {
    ghost use Rattle.senders.specs.Views.{one_made, one_apart};

    ghost left = { one_made };

    ghost right = { one_apart };
}

/// The step by which the inbox's pass stands for a sender too.
pub struct Together;

impl Join<View> for Together {
    ghost use Rattle.senders.specs.Views.{joined, spent};

    ghost both = { joined };

    ghost spent = { spent };
}

/// The step of a send, and what a sender learns of a queue that is full.
pub struct Sends;

impl Outcome<Item, View> for Sends {
    ghost use Rattle.senders.specs.Views.{sends};

    ghost then = { sends };
}

impl Lesson<Item, View> for Sends {
    ghost use Rattle.senders.specs.Views.{Knows};

    ghost fact = { Knows };
}

/// The step of a take, and what the inbox learns of a queue that is empty.
pub struct Takes;

impl Outcome<Item, View> for Takes {
    ghost use Rattle.senders.specs.Views.{Took};

    ghost then = { Took };
}

impl Lesson<Item, View> for Takes {
    ghost use Rattle.senders.specs.Views.{Awaits};

    ghost fact = { Awaits };
}

/// What is known of the queue by the inbox and all senders together.
pub struct Closes;

impl Lesson<Item, View> for Closes {
    ghost use Rattle.senders.specs.Views.{Settles};

    ghost fact = { Settles };
}
