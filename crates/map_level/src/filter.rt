// What a level can deny without a search.
ghost use Rattle.std.specs.Prelude.{◌≡◌, ℕ, ◌+◌, ◌*◌, ◌<◌, ◌≤◌, ◌^◌, ◌↔◌};
ghost use Rattle.std.specs.Prelude.{length, IfOk, IsTrue};
ghost use Rattle.tombstones.specs.Entries.{IsAscending};
ghost use Rattle.map_level.specs.Levels.{level_keys};
ghost use Rattle.map_level.specs.Filters.{hash_of, slot_of, bits_of, Passes, ArePassed};

use budget::NoMemory;
use levels::Keys;
use std::alloc::Global;
use std::marker::Model;
use tombstones::Entry;

/// `2^64` by the golden ratio.
const FACTOR: u64 = 0x9E37_79B9_7F4A_7C15;

/// One more than the greatest word.
pub const WORDS: u128 = 1 << 64;

/// A blocked Bloom filter of keys: a few bits of one word for each key, set. Seen as the words.
///
/// ```text
/// a key's hash   bits 63..32: which word   ..   23..18, 17..12, 11..6, 5..0: its four bits there
/// words          | word 0: 64 bits | word 1 | word 2 | ..       a word for each four keys
/// ```
///
/// It denies no key that it was made of. Of others some five in a thousand pass, where the keys are
/// scattered: there is a word of 64 bits for each four keys, and each key sets four. A question
/// looks at one word.
///
/// Sources: Bloom, CACM 13(7), 1970; Putze, Sanders and Singler, Cache-, hash- and space-efficient
/// Bloom filters, WEA 2007.
#[derive(Drop)]
pub struct Filter {
    words: Vec<u64>,
}

impl Model for Filter {
    ghost use Rattle.std.specs.Prelude.{List, ℕ, ◌<◌, ◌≤◌, ◌^◌, length};

    ghost Value = { List ℕ };

    ghost view = { λ filter. filter.words.items };

    ghost invariant = { λ filter.
        (0 < length filter.words.items) × (length filter.words.items ≤ 2 ^ 32) };
}

impl Filter {
    /// Whether a key may be among those that the filter was made of.
    #[inline(always)]
    pub fn passes(&self, key: &HashedKey) -> bool
        ensures { IsTrue result ↔ Passes self.now (hash_of key.now) }
    {
        let words = self.words.as_slice();
        words[slot(key.hash, words.len())] & key.bits == key.bits
    }
}

/// A key with its hash, which is worked out once for all levels that are asked for the key. Seen as
/// the key.
#[derive(Drop)]
pub struct HashedKey {
    key: u64,
    hash: u64,
    /// The bits of the hash.
    bits: u64,
}

impl Model for HashedKey {
    ghost use Rattle.std.specs.Prelude.{ℕ, ◌≡◌};
    ghost use Rattle.map_level.specs.Filters.{hash_of, bits_of};

    ghost Value = { ℕ };

    ghost view = { λ hashed. hashed.key };

    ghost invariant = { λ hashed.
        (hashed.hash ≡ hash_of hashed.key) × (hashed.bits ≡ bits_of hashed.hash) };
}

impl HashedKey {
    /// A key with its hash.
    #[inline(always)]
    pub fn of(key: u64) -> HashedKey
        ensures { result ≡ key }
    {
        let hash = hash(key);
        HashedKey {
            key,
            hash,
            bits: bits(hash),
        }
    }

    /// The key.
    #[inline(always)]
    pub fn key(&self) -> u64
        ensures { result ≡ self.now }
    {
        self.key
    }
}

/// The keys of entries with a filter of them, in one pass.
pub fn keys_with_filter(alloc: Global, entries: &[Entry]) -> Result<(Keys, Filter), NoMemory>
    requires ascending { IsAscending entries.now }
    requires few { length entries.now < 2 ^ 32 }
    ensures keys { IfOk result (λ pair. pair.0 ≡ level_keys entries.now) }
    ensures filter { IfOk result (λ pair. ArePassed pair.1 (level_keys entries.now)) }
{
    let mut keys = Vec::with_capacity(alloc, entries.len())?;
    let mut words = vec![in alloc; 0; entries.len() / 4 + 1]?;
    for entry in entries {
        keys.push_reserved(entry.key);
        set(&mut words, hash(entry.key));
    }
    Ok((Keys::of_distinct(keys), Filter { words }))
}

/// The hash of a key.
#[inline(always)]
fn hash(key: u64) -> u64
    ensures { result ≡ hash_of key }
{
    let product = u128::from(key) * u128::from(FACTOR);
    (product % WORDS) as u64 ^ (product / WORDS) as u64
}

/// Sets the bits of a hash.
#[inline(always)]
fn set(words: &mut Vec<u64>, hash: u64)
    requires some { 0 < length words.old.items }
    requires few { length words.old.items ≤ 2 ^ 32 }
    ensures len { length words.new.items ≡ length words.old.items }
    ensures passes { Passes words.new.items hash }
    ensures others { (other : ℕ) → Passes words.old.items other → Passes words.new.items other }
{
    let slot = slot(hash, words.len());
    words[slot] |= bits(hash);
}

/// Which of the words has the bits of a hash.
#[tactic(auto, unfolding(crate::specs::Filters::slot_of))]
#[inline(always)]
fn slot(hash: u64, count: usize) -> usize
    requires some { 0 < count }
    requires few { count ≤ 2 ^ 32 }
    ensures slot { result ≡ slot_of hash count }
    ensures inside { result < count }
{
    ((hash >> 32) * count as u64 >> 32) as usize
}

/// The bits of a hash.
#[tactic(auto, unfolding(crate::specs::Filters::bits_of))]
#[inline(always)]
fn bits(hash: u64) -> u64
    ensures { result ≡ bits_of hash }
{
    let low = 1 << (hash % 64) | 1 << (hash / 64 % 64);
    low | (1 << (hash / 4096 % 64) | 1 << (hash / 262_144 % 64))
}
