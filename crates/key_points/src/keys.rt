// The keys of a file.
ghost use Rattle.std.specs.Prelude.{◌≡◌, ◌<◌, ◌≤◌, ◌^◌, length};
ghost use Rattle.std.specs.Prelude.{vec_len, IfOk, IfErr, Err, ℕ, IsTrue, ◌↔◌};
ghost use Rattle.std.specs.List.Sorted.{IsNonDecreasing, IsStrictlyIncreasing};
ghost use Rattle.key_points.specs.KeyPoints.{distinct_of, first_of, xs_of};
ghost use Rattle.key_points.specs.Falls.{IsFirstFall, IsRefusedFor};
ghost use Rattle.key_points.specs.declared.fault.KeysFault.TheVariants.{Falls, TooMany};

use crate::alone::count_distinct;
use crate::fault::KeysFault;
use crate::order::judge;
use crate::parts::{count_points, start_of_group};
use crate::points::KeyPoints;
use budget::NoMemory;
use std::alloc::Global;
use std::marker::Model;

/// The keys of a file, which may repeat. Seen as the list of the keys.
///
/// Each distinct key is a point at its first position in the file. A key that stands more than once
/// has a closing point behind it, one to its right at the position after its last one, unless the
/// next number is a key or past 64 bits.
///
/// 1. The keys never fall, and are fewer than 2^32.
/// 2. The keys alone are kept, 8 bytes each, with how many are distinct and how many points they
///    have. The points are made where they are asked for ([`Keys::points`]).
#[derive(Drop)]
pub struct Keys {
    file: Vec<u64>,
    distinct: u32,
    points: u32,
}

impl Model for Keys {
    ghost use Rattle.std.specs.Prelude.{List, ℕ};
    ghost use Rattle.key_points.specs.Shown.{AreOfKeys};

    ghost Value = { List ℕ };

    ghost view = { λ keys. keys.file.items };

    ghost invariant = { λ keys. AreOfKeys keys.file.items keys.distinct keys.points };
}

impl Keys {
    /// The keys of a file.
    ///
    /// They are gone through once for those that repeat, and where some do once more for their
    /// points. Cannot fail and takes no memory.
    pub fn of(sorted: Vec<u64>) -> Keys
        requires never_falls { IsNonDecreasing sorted.items }
        requires few { vec_len sorted < 2 ^ 32 }
        ensures { result ≡ sorted.items }
    {
        let distinct = count_distinct(&sorted);
        let points = count_points(&sorted, distinct);
        Keys {
            file: sorted,
            distinct: distinct as u32,
            points: points as u32,
        }
    }

    /// The keys of a file in which each key is below the next one: so they aren't gone through for
    /// repeats. Cannot fail and takes no memory.
    pub fn of_distinct(rising: Vec<u64>) -> Keys
        requires rises { IsStrictlyIncreasing rising.items }
        requires few { vec_len rising < 2 ^ 32 }
        ensures { result ≡ rising.items }
    {
        let count = rising.len() as u32;
        Keys {
            file: rising,
            distinct: count,
            points: count,
        }
    }

    /// The keys of a file, for a caller that hasn't shown that they are such: they are gone through
    /// once more, for a key that is below the one before it. Takes no memory.
    ///
    /// # Errors
    ///
    /// - `TooMany` where there are 2^32 keys or more. It is judged first.
    /// - `Falls` where a key is below the one before it, with the first place.
    ///
    /// After any the keys are given up.
    pub fn tested(keys: Vec<u64>) -> Result<Keys, KeysFault>
        ensures keys { IfOk result (λ tested. tested ≡ keys.items) }
        ensures too_many { 2 ^ 32 ≤ vec_len keys → result ≡ Err (TooMany (vec_len keys)) }
        ensures too_many_only { (count : ℕ) → result ≡ Err (TooMany count) →
            (count ≡ vec_len keys) × (2 ^ 32 ≤ count) }
        ensures falls { (place : ℕ) → vec_len keys < 2 ^ 32 → IsFirstFall keys.items place →
            result ≡ Err (Falls place) }
        ensures falls_only { (place : ℕ) → result ≡ Err (Falls place) →
            IsFirstFall keys.items place }
        ensures refused { IfErr result (IsRefusedFor keys.items) }
    {
        judge(&keys)?;
        Ok(Keys::of(keys))
    }

    /// The keys of the file, in order.
    pub fn as_slice(&self) -> &[u64]
        ensures keys { result.now ≡ self.now }
        ensures never_falls { IsNonDecreasing result.now }
        ensures few { length result.now < 2 ^ 32 }
    {
        &self.file
    }

    /// How many keys the file has.
    pub fn len(&self) -> u32
        ensures { result ≡ length self.now }
    {
        self.file.len() as u32
    }

    /// Whether the file has no key.
    pub fn is_empty(&self) -> bool
        ensures { IsTrue result ↔ (length self.now ≡ 0) }
    {
        self.file.is_empty()
    }

    /// How many keys the file has, where each of those that are equal counts once.
    pub fn distinct_count(&self) -> u32
        ensures { result ≡ length (distinct_of self.now) }
    {
        self.distinct
    }

    /// The keys without repeats, in order: a list of its own.
    ///
    /// # Errors
    ///
    /// `NoMemory` alone.
    pub fn distinct(&self, alloc: Global) -> Result<Vec<u64>, NoMemory>
        ensures { IfOk result (λ keys. keys.items ≡ distinct_of self.now) }
    {
        let mut keys = Vec::from_slice(alloc, &self.file)?;
        keys.dedup();
        Ok(keys)
    }

    /// How many keys of the file are below the `j`-th distinct key, counted from 0, and all of them
    /// where `j` is the number of distinct keys.
    ///
    /// Where keys repeat, all keys below are read. Cannot fail and takes no memory.
    pub fn first(&self, j: u32) -> u32
        requires { j ≤ length (distinct_of self.now) }
        ensures { result ≡ first_of self.now j }
    {
        if self.distinct as usize == self.file.len() {
            return j;
        }
        start_of_group(&self.file, j)
    }

    /// How many points the keys have. It is known: no key is read.
    pub fn point_count(&self) -> u32
        ensures { result ≡ length (xs_of self.now) }
    {
        self.points
    }

    /// The points of the keys, which are made: 4 bytes a key where none repeats, and at most 12
    /// where one does.
    ///
    /// # Errors
    ///
    /// `NoMemory` alone.
    pub fn points(&self, alloc: Global) -> Result<KeyPoints<'_>, NoMemory>
        ensures { IfOk result (λ points. points ≡ self.now) }
    {
        KeyPoints::counted(alloc, &self.file, self.distinct as usize)
    }
}
