// The history of a map: the batches of updates that were published, in order. It stands in a book
// of the crate `logbook`, which exists in the proofs alone: what runs is a word, the published
// length.
ghost use Rattle.std.specs.Prelude.{◌≡◌, ◌+◌, ◌<◌, ◌^◌};
ghost use Rattle.std.specs.Prelude.{◌++◌, ◌∷◌, []};
ghost use Rattle.std.specs.Prelude.{vec_len};
ghost use Rattle.std.specs.Bool.{OnTrue};
ghost use mathlib.Core.List.{IsPrefix};
ghost use Rattle.published.specs.Histories.{count_of, longer_of};
ghost use Rattle.published.specs.Books.{head_of};

use log_levels::Update;
use logbook::{Gain, Offer, Plain, Play, Rule, Seen, Start, Word};
use std::collections::LinkedList;
use std::marker::Model;
use std::sync::Wait;

/// Updates that are published at once.
pub type Batch = LinkedList<Update>;

/// The rule of a history's book: its word is the published length, and no batch is empty.
pub struct Grows;

impl Rule<Batch, u64> for Grows {
    ghost use Rattle.std.specs.Prelude.{[]};
    ghost use base.Fml.{ftrue};
    ghost use Rattle.published.specs.Books.{IsKept};

    ghost holds = { λ cells log. IsKept cells log };

    ghost first = { [] };

    ghost hinted = { λ n log. Unit {0} };

    ghost shows = { λ log. [] };

    ghost keeps = { λ names log. ftrue };

    ghost moves = { λ ask before after answer. Unit {0} };
}

/// A step trades nothing.
pub struct Nothing;

impl Gain<Batch, u64> for Nothing {
    ghost use base.Fml.{ftrue};

    ghost after = { λ names about answer. ftrue };
}

/// The step that adds a batch.
pub struct Publishes;

impl Play<Batch, u64> for Publishes {
    ghost use Rattle.published.specs.Books.{Adds};

    ghost then = { Adds };
}

/// What that step asks for: the batch.
impl Plain<Vec<Update>, Batch, u64> for Publishes {
    ghost use Rattle.std.specs.Prelude.{None};

    ghost ask = { λ batch. batch.items };

    ghost state = { λ batch. None };
}

/// A prefix of a history, seen as which history that is and the prefix's batches. It ends a batch,
/// and takes 8 bytes.
///
/// That its batches are how the history began is in its type, so it can be copied and handed on.
#[derive(Drop)]
pub struct Prefix {
    updates: u64,
    seen: Seen<Batch, u64, Grows>,
}

impl Model for Prefix {
    ghost use Rattle.std.specs.Prelude.{◌≡◌};
    ghost use Rattle.published.specs.Histories.{Front, count_of, AreFilled};

    ghost Value = { Front };

    ghost view = { λ p. record { origin = p.seen.book; batches = p.seen.log } };

    ghost invariant = { λ p. (p.updates ≡ count_of p.seen.log) × AreFilled p.seen.log };
}

/// The word of a history: how many updates were published. The writer alone has it.
pub type Head = Word<Batch, u64, Grows>;

/// An empty history: its word, and its empty prefix. Takes no memory.
pub fn open() -> (Head, Prefix)
    ensures empty { result.1.batches ≡ [] }
    ensures head { result.0 ≡ head_of result.1.origin }
{
    // Event: open.
    let (seen, mut first, _second) = Seen::open(Start::alone(), 0, 0);
    let head = Word::tracked(0, &mut first);
    (head, Prefix { updates: 0, seen })
}

impl Prefix {
    /// How many updates it has.
    pub fn len(&self) -> u64
        ensures { result ≡ count_of self.now.batches }
    {
        self.updates
    }

    /// A copy. Takes no memory.
    pub fn again(&self) -> Prefix
        ensures { result ≡ self.now }
    {
        Prefix {
            updates: self.updates,
            seen: self.seen.again(),
        }
    }

    /// The longer of two prefixes, which begins with the other. Of two equal ones this one.
    pub fn longer(&self, other: &Prefix) -> Prefix
        requires own { other.now.origin ≡ self.now.origin }
        ensures longer { result.batches ≡ longer_of self.now.batches other.now.batches }
        ensures this { IsPrefix self.now.batches result.batches }
        ensures that { IsPrefix other.now.batches result.batches }
        ensures own { result.origin ≡ self.now.origin }
    {
        let mut both = self.seen.again();
        both.learn(&other.seen);
        if self.updates < other.updates {
            other.again()
        } else {
            self.again()
        }
    }

    /// Whether this prefix begins with the other one. Of one history the longer does.
    pub fn begins_with(&self, other: &Prefix) -> bool
        requires own { other.now.origin ≡ self.now.origin }
        ensures { OnTrue result (IsPrefix other.now.batches self.now.batches) }
    {
        let mut both = self.seen.again();
        both.learn(&other.seen);
        if other.updates > self.updates {
            return false;
        }
        true
    }

    /// Adds a batch to the history, of which this prefix is all.
    ///
    /// It waits until the word is as this writer left it. The writer alone has the word, so it is.
    pub(crate) fn publish<R: Wait>(&mut self, rt: &R, head: &Head, batch: &Vec<Update>)
        requires own { head.now ≡ head_of self.old.origin }
        requires some { 0 < vec_len batch.now }
        requires room { count_of self.old.batches + vec_len batch.now < 2 ^ 64 }
        ensures added { self.new.batches ≡ self.old.batches ++ batch.now.items ∷ [] }
        ensures own { self.new.origin ≡ self.old.origin }
    {
        for _turn in rt.forever() {
            let mut longer = self.again();
            if longer.exchange(head, batch) {
                *self = longer;
                return;
            }
        }
        unreachable!()
    }

    /// Adds the batch where this prefix is all of the history, and says whether it did.
    fn exchange(&mut self, head: &Head, batch: &Vec<Update>) -> bool
        requires own { head.now ≡ head_of self.old.origin }
        requires some { 0 < vec_len batch.now }
        requires room { count_of self.old.batches + vec_len batch.now < 2 ^ 64 }
        ensures added { OnTrue result
            (self.new.batches ≡ self.old.batches ++ batch.now.items ∷ []) }
        ensures own { self.new.origin ≡ self.old.origin }
    {
        let mut offer: Offer<Batch, u64, Grows, Nothing> = self
            .seen
            .plain::<Nothing, Vec<Update>, Publishes>(batch);
        let mut pen = self.seen.no_pen();
        let before = self.updates;
        let after = before + batch.len() as u64;
        // Event: publish. The batch is in the history, whatever others saw before.
        let found = head.compare_exchange::<Publishes, Nothing>(
            before,
            after,
            &mut self.seen,
            &mut offer,
            &mut pen,
        );
        self.updates = if found == before { after } else { found };
        found == before
    }
}
