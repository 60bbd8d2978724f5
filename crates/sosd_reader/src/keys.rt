// Reading a key file.
ghost use Rattle.std.specs.Prelude.{◌≡◌, ◌⊎◌, ◌<◌, ◌≤◌, ◌^◌, ◌+◌, ◌/◌, ℕ, List, Result};
ghost use Rattle.std.specs.Prelude.{All, length, take, vec_len, vec_capacity};
ghost use Rattle.std.specs.Prelude.{IfOk, IfErr, OnOk, IfSome, MatchResult};
ghost use Rattle.std.specs.List.Sorted.{IsNonDecreasing};
ghost use Rattle.byteorder.specs.Endian.{little_bytes};
ghost use Rattle.edge.specs.Risen.{StaysQuiet};
ghost use Rattle.sosd_reader.specs.NumberFiles.{IsKind, AllFollow};
ghost use Rattle.sosd_reader.specs.NumberFiles.Kind.{of_keys};
ghost use Rattle.sosd_reader.specs.KeyFiles.{key_width};
ghost use Rattle.sosd_reader.specs.KeyFileFaults.{ReadsAs, ReadingsAreOne};
ghost use Rattle.sosd_reader.specs.Reading.{GoesOn, StopsAs, ReadsFile};

use crate::KeyFault;
use crate::number_list::{NumberList, first_u32, first_u64};
use crate::reading::read_file;
use edge::Shelf;
use std::alloc::{AllocError, Global};

/// Any bytes have exactly one reading as a key file, with keys of 8 bytes and with keys of 4. It
/// does nothing.
pub fn readings_are_one()
    ensures wide { ReadingsAreOne 8 }
    ensures narrow { ReadingsAreOne 4 }
{}

/// The keys of the taken file, whose keys are 64 bits wide where `wide` is true, and else 32.
///
/// Memory is taken by chunks of at most 65,536 keys, each exactly and before its bytes are read,
/// and never by the file's own count. At most one byte past the last key is read, and none past a
/// count that is too great.
///
/// # Errors
///
/// The first fault in the order of the bytes that were left to read:
///
/// - `TooMany` where the first eight bytes say 2^32 keys or more.
/// - `Unsorted` where one of the keys that are whole is below the one before it. Keys are judged
///   after each chunk, so what is wrong behind that chunk isn't seen.
/// - `Short` where the bytes end before the count or the last key does, and the keys that are whole
///   never fall. `got` counts all bytes, those of the count too.
/// - `Trailing` where a byte follows the last key.
///
/// `ReadFault` at once where the shelf failed, and the keys of that chunk aren't judged; then
/// nothing is left. `NoMemory` where memory for the next chunk wasn't found. Never `Wide`. After
/// each the keys are given up.
///
/// Source: Kipf et al., "SOSD: A Benchmark for Learned Indexes", 2019.
pub fn read_keys<F: Shelf>(alloc: Global, shelf: &mut F, wide: bool) -> Result<Vec<u64>, KeyFault>
    // The files stay, and the count of faults rises only where the shelf failed. Where the shelf
    // tells the bytes: their one reading, unless it failed or memory ran out. What is left is what
    // was left, but for a front part: one byte past the last key, at most.
    ensures reading { ReadsFile F.Shelf (of_keys (key_width wide)) (λ keys. keys.items)
        shelf.old result shelf.new }
    ensures wherever { IfSome (F.rest shelf.old)
        (λ bytes. (reading : Result (List ℕ) KeyFault) → ReadsAs (key_width wide) bytes reading →
        StaysQuiet (F.faults shelf.old) (F.faults shelf.new) →
        MatchResult result (λ keys. reading ≡ Ok keys.items)
        (λ fault. (fault ≡ KeyFault.NoMemory) ⊎ (reading ≡ Err fault))) }

    // Told or not.
    ensures never_falls { IfOk result (λ keys. IsNonDecreasing keys.items) }
    ensures few { IfOk result (λ keys. vec_len keys < 2 ^ 32) }
    ensures each_fits { IfOk result (λ keys. All (λ key. key < 256 ^ key_width wide) keys.items) }
{
    let mut list = KeyList {
        keys: Vec::new(alloc),
        wide,
    };
    read_file(alloc, shelf, &mut list)?;
    let KeyList { keys, wide: _ } = list;
    Ok(keys)
}

/// Keys that never fall, of 8 bytes where they are wide, and else of 4.
#[derive(Drop)]
struct KeyList {
    keys: Vec<u64>,
    wide: bool,
}

impl NumberList for KeyList {
    ghost kind = { λ list. of_keys (key_width list.wide) };

    ghost list = { λ list. list.keys.items };

    ghost room = { λ list. vec_capacity list.keys };

    fn width(&self) -> usize {
        width_of(self.wide)
    }

    fn each(&self) -> usize {
        1
    }

    fn len(&self) -> usize {
        self.keys.len()
    }

    fn reserve(&mut self, more: usize) -> Result<(), AllocError> {
        self.keys.reserve_exact(more)
    }

    fn take_in(&mut self, bytes: &[u8]) -> Result<(), KeyFault> {
        if self.wide {
            push_keys::<8>(&mut self.keys, bytes)
        } else {
            push_keys::<4>(&mut self.keys, bytes)
        }
    }
}

/// How many bytes a key has.
fn width_of(wide: bool) -> usize
    ensures value { result ≡ key_width wide }
    ensures kind { IsKind (of_keys result) }
{
    if wide { 8 } else { 4 }
}

/// Adds the whole numbers of these bytes, and stops at one that is below the key before it.
fn push_keys<const WIDTH: usize>(keys: &mut Vec<u64>, bytes: &[u8]) -> Result<(), KeyFault>
    requires kind { IsKind (of_keys WIDTH) }
    requires all_follow { AllFollow (of_keys WIDTH) keys.old.items }
    requires room { vec_len keys.old + length bytes.now / WIDTH ≤ vec_capacity keys.old }
    ensures keys { OnOk result (GoesOn WIDTH keys.old.items bytes.now keys.new.items) }
    ensures len { OnOk result (vec_len keys.new ≡ vec_len keys.old + length bytes.now / WIDTH) }
    ensures all_follow { OnOk result (AllFollow (of_keys WIDTH) keys.new.items) }
    ensures fault { IfErr result
        (StopsAs (of_keys WIDTH) (length bytes.now / WIDTH) keys.old.items bytes.now) }
{
    let mut before = keys.last().copied().unwrap_or(0);
    for i in 0..bytes.len() / WIDTH {
        let key = first_number::<WIDTH>(&bytes[WIDTH * i..]);
        if key < before {
            let at = keys.len() as u64;
            return Err(KeyFault::Unsorted { at, before, key });
        }
        keys.push_reserved(key);
        before = key;
    }
    Ok(())
}

/// The number whose bytes are the first ones, as many as it is wide, the lowest first.
#[inline]
fn first_number<const WIDTH: usize>(bytes: &[u8]) -> u64
    requires kind { IsKind (of_keys WIDTH) }
    requires whole { WIDTH ≤ length bytes.now }
    ensures bytes { little_bytes WIDTH result ≡ take WIDTH bytes.now }
    ensures small { result < 256 ^ WIDTH }
{
    if WIDTH == 8 {
        first_u64(bytes)
    } else {
        u64::from(first_u32(bytes))
    }
}
