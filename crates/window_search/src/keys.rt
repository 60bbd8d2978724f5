// Keys as a search reads them, and the counted reads.
ghost use Rattle.std.specs.Prelude.{◌≡◌, ◌+◌, ◌<◌, length, slice_index};

use budget::Steps;
use std::marker::{Model, PhantomData};
use std::sync::ledger::Ledger;

/// A list of keys that stays where it is: a slice, or what else can give a key by its place.
///
/// Seen as the list of the keys.
pub trait KeyList: Copy {
    ghost use Rattle.std.specs.Prelude.{List, ℕ};

    ghost listed: { Self → List ℕ };

    /// How many keys there are.
    fn len(&self) -> usize
        ensures { result ≡ length (listed self.now) };

    /// The key at a place.
    fn at(&self, place: usize) -> u64
        requires { place < length (listed self.now) }
        ensures { result ≡ slice_index (listed self.now) place };
}

impl KeyList for &[u64] {
    ghost listed = { λ keys. keys.now };

    #[inline(always)]
    fn len(&self) -> usize {
        let keys = *self;
        keys.len()
    }

    #[inline(always)]
    fn at(&self, place: usize) -> u64 {
        let keys = *self;
        keys[place]
    }
}

/// Keys of a search, whose only read is a step in a counter of the ledger `L`.
///
/// A search that is handed these alone can't look at a key that it doesn't count: it has no other
/// way to one, and can't make a counter of a ledger that its caller chose. They are the keys alone,
/// and cost nothing when they run.
#[derive(Drop)]
pub struct CountedKeys<K: KeyList, L: Ledger> {
    keys: K,
    of: PhantomData<L>,
}

impl<K: KeyList, L: Ledger> Model for CountedKeys<K, L> {
    ghost use Rattle.std.specs.Prelude.{ℕ, List};

    ghost Value = { List ℕ };

    ghost view = { λ counted. K.listed counted.keys };
}

impl<K: KeyList, L: Ledger> CountedKeys<K, L> {
    /// These keys, none of them read yet.
    #[inline(always)]
    pub fn new(keys: K) -> Self
        ensures { result ≡ K.listed keys }
    {
        CountedKeys {
            keys,
            of: PhantomData,
        }
    }

    /// How many keys there are. Takes no step.
    #[inline(always)]
    pub fn len(&self) -> usize
        ensures { result ≡ length self.now }
    {
        self.keys.len()
    }

    /// The key at a place. Takes one step.
    #[inline(always)]
    pub fn read(&self, place: usize, steps: &mut Steps<L>) -> u64
        requires { place < length self.now }
        ensures key { result ≡ slice_index self.now place }
        ensures cost { steps.new ≡ steps.old + 1 }
    {
        steps.tick();
        self.keys.at(place)
    }
}
