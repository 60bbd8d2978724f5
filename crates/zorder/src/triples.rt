//! Many codes of three coordinates decoded at once, by vectors of bytes.
//!
//! In each byte the bits are put in another order: place `q` gets bit `3 * q % 8`. Then of three
//! bytes in a row the lowest three places of the first, the next three of the second and the last
//! two of the third hold every third bit of the 24, from the lowest on:
//!
//!     place    7  6    5  4  3    2  1  0
//!     first    5  2    7  4  1   [6  3  0]
//!     second  13 10  [15 12  9]  14 11  8
//!     third  [21 18]  23 20 17   22 19 16
//!
//! Of the three bytes from byte `3 * m` of a code on, those eight bits are byte `m` of the first
//! coordinate. Taken from one byte before, they are the second's, three places too high, and from
//! two bytes before the third's, six places too high. The words of the clauses are in
//! `specs/Triples.antt`.

ghost use Rattle.std.specs.Prelude.{◌≡◌, ℕ, ◌+◌, ◌*◌, ◌/◌, ◌%◌, ◌^◌, ◌<◌, ◌≤◌, length, slice_index};
ghost use Rattle.std.specs.Int.{bit_at};
ghost use Rattle.zorder.specs.Codes.{coordinate};
ghost use Rattle.zorder.specs.Triples.{HasThirds};

use crate::columns::numbers_of;
use crate::spread::gather;
use std::simd::prelude::*;

/// What the low four bits of a byte become in the other order.
const OF_LOW: [u8; 16] = [0, 1, 8, 9, 64, 65, 72, 73, 2, 3, 10, 11, 66, 67, 74, 75];

/// What the high four bits of a byte become in the other order.
const OF_HIGH: [u8; 16] = [
    0, 16, 128, 144, 4, 20, 132, 148, 32, 48, 160, 176, 36, 52, 164, 180,
];

/// Where every third byte of two codes stands, from byte 0 on and then from byte 1 on; at 128 there
/// is none.
const FROM_0_AND_1: [u8; 16] = [0, 3, 6, 128, 8, 11, 14, 128, 1, 4, 7, 128, 9, 12, 15, 128];

/// The same from byte 2 on.
const FROM_2: [u8; 16] = [
    2, 5, 128, 128, 10, 13, 128, 128, 128, 128, 128, 128, 128, 128, 128, 128,
];

/// Bytes with their bits in the other order.
#[inline(always)]
fn bits_in_thirds(bytes: u8x16) -> u8x16
    ensures long { length result ≡ 16 }
    ensures bits { (l q : ℕ) → l < 16 → q < 8
        → bit_at (slice_index result l) q ≡ bit_at (slice_index bytes l) (3 * q % 8) }
{
    let low = u8x16::from_array(OF_LOW).swizzle_dyn(bytes & u8x16::splat(0x0f));
    let high = u8x16::from_array(OF_HIGH).swizzle_dyn(bytes >> u8x16::splat(4));
    low | high
}

/// Every third byte of two codes, as numbers: those from byte 0 on and then those from byte 1 on,
/// and, by themselves, those from byte 2 on.
#[inline(always)]
fn third_bytes(codes: u64x2) -> (u32x4, u32x4)
    ensures long { (length result.0 ≡ 4) × (length result.1 ≡ 4) }
    ensures from_0 { (i : ℕ) → i < 2
        → HasThirds 0 (slice_index codes i) (slice_index result.0 i) }
    ensures from_1 { (i : ℕ) → i < 2
        → HasThirds 1 (slice_index codes i) (slice_index result.0 (2 + i)) }
    ensures from_2 { (i : ℕ) → i < 2
        → HasThirds 2 (slice_index codes i) (slice_index result.1 i) }
{
    let bytes = bits_in_thirds(codes.to_le_bytes());
    let from_0_and_1 = bytes.swizzle_dyn(u8x16::from_array(FROM_0_AND_1));
    let from_2 = bytes.swizzle_dyn(u8x16::from_array(FROM_2));
    (numbers_of(from_0_and_1), numbers_of(from_2))
}

/// The same of four codes: those from byte 0 on, those from byte 1 on and those from byte 2 on.
#[inline(always)]
fn byte_thirds(codes: u64x4) -> (u32x4, u32x4, u32x4)
    ensures long { (length result.0 ≡ 4) × (length result.1 ≡ 4) × (length result.2 ≡ 4) }
    ensures from_0 { (i : ℕ) → i < 4
        → HasThirds 0 (slice_index codes i) (slice_index result.0 i) }
    ensures from_1 { (i : ℕ) → i < 4
        → HasThirds 1 (slice_index codes i) (slice_index result.1 i) }
    ensures from_2 { (i : ℕ) → i < 4
        → HasThirds 2 (slice_index codes i) (slice_index result.2 i) }
{
    let (a, a_from_2) = third_bytes(codes.extract::<0, 2>());
    let (b, b_from_2) = third_bytes(codes.extract::<2, 2>());
    let from_0 = a.shuffle(b, [0, 1, 4, 5]);
    let from_1 = a.shuffle(b, [2, 3, 6, 7]);
    let from_2 = a_from_2.shuffle(b_from_2, [0, 1, 4, 5]);
    (from_0, from_1, from_2)
}

/// In each byte the lowest three bits of `a`, the next three of `b` and the last two of `c`.
#[inline(always)]
fn three_in_turn(a: u32x4, b: u32x4, c: u32x4) -> u32x4
    ensures long { length result ≡ 4 }
    ensures first { (i j : ℕ) → i < 4 → j < 32 → j % 8 < 3
        → bit_at (slice_index result i) j ≡ bit_at (slice_index a i) j }
    ensures second { (i j : ℕ) → i < 4 → j < 32 → 3 ≤ j % 8 → j % 8 < 6
        → bit_at (slice_index result i) j ≡ bit_at (slice_index b i) j }
    ensures third { (i j : ℕ) → i < 4 → j < 32 → 6 ≤ j % 8
        → bit_at (slice_index result i) j ≡ bit_at (slice_index c i) j }
    ensures range { (i : ℕ) → i < 4 → slice_index result i < 2 ^ 32 }
{
    let of_a = a & u32x4::splat(0x0707_0707);
    let of_b = b & u32x4::splat(0x3838_3838);
    let of_c = c & u32x4::splat(0xc0c0_c0c0);
    of_a | of_b | of_c
}

/// The first, the second and the third coordinates of four codes.
#[inline(always)]
fn four_triples(codes: u64x4) -> (u32x4, u32x4, u32x4)
    ensures long { (length result.0 ≡ 4) × (length result.1 ≡ 4) × (length result.2 ≡ 4) }
    ensures first { (i : ℕ) → i < 4
        → slice_index result.0 i ≡ coordinate 3 0 (slice_index codes i) }
    ensures second { (i : ℕ) → i < 4
        → slice_index result.1 i ≡ coordinate 3 1 (slice_index codes i) }
    ensures third { (i : ℕ) → i < 4
        → slice_index result.2 i ≡ coordinate 3 2 (slice_index codes i) }
{
    let (from_0, from_1, from_2) = byte_thirds(codes);
    let before_0 = from_2 << u32x4::splat(8);
    let before_0_twice = from_1 << u32x4::splat(8);
    let first = three_in_turn(from_0, from_1, from_2);
    let second = three_in_turn(before_0, from_0, from_1) >> u32x4::splat(3);
    let third = three_in_turn(before_0_twice, before_0, from_0) >> u32x4::splat(6);
    (first, second, third)
}

/// The coordinates of codes of three coordinates: the first ones, the second ones and the third
/// ones, in the order of the codes, each of which may be any number.
///
/// They are written to the beginnings of three lists, which are at least as long as that of the
/// codes. The same as [`decode`](crate::decode) of each code, in about half the time; of a number
/// from 2^63 on, which is no code, the first coordinate has 22 bits. Cannot fail and takes no
/// memory. Source: Morton, IBM Ottawa, 1966.
pub fn decode_triples(codes: &[u64], firsts: &mut [u32], seconds: &mut [u32], thirds: &mut [u32])
    requires firsts { length codes.now ≤ length firsts.old }
    requires seconds { length codes.now ≤ length seconds.old }
    requires thirds { length codes.now ≤ length thirds.old }
    ensures firsts { (i : ℕ) → i < length codes.now
        → slice_index firsts.new i ≡ coordinate 3 0 (slice_index codes.now i) }
    ensures seconds { (i : ℕ) → i < length codes.now
        → slice_index seconds.new i ≡ coordinate 3 1 (slice_index codes.now i) }
    ensures thirds { (i : ℕ) → i < length codes.now
        → slice_index thirds.new i ≡ coordinate 3 2 (slice_index codes.now i) }
{
    for block in 0..codes.len() / 4 {
        let at = 4 * block;
        let (first, second, third) = four_triples(u64x4::from_slice(&codes[at..]));
        first.copy_to_slice(&mut firsts[at..]);
        second.copy_to_slice(&mut seconds[at..]);
        third.copy_to_slice(&mut thirds[at..]);
    }
    decode_last_triples(codes, codes.len() / 4 * 4, firsts, seconds, thirds);
}

/// The coordinates of the codes from a place on.
fn decode_last_triples(
    codes: &[u64],
    from: usize,
    firsts: &mut [u32],
    seconds: &mut [u32],
    thirds: &mut [u32],
)
    requires firsts { length codes.now ≤ length firsts.old }
    requires seconds { length codes.now ≤ length seconds.old }
    requires thirds { length codes.now ≤ length thirds.old }
    ensures firsts_before { (i : ℕ) → i < from
        → slice_index firsts.new i ≡ slice_index firsts.old i }
    ensures seconds_before { (i : ℕ) → i < from
        → slice_index seconds.new i ≡ slice_index seconds.old i }
    ensures thirds_before { (i : ℕ) → i < from
        → slice_index thirds.new i ≡ slice_index thirds.old i }
    ensures firsts { (i : ℕ) → from ≤ i → i < length codes.now
        → slice_index firsts.new i ≡ coordinate 3 0 (slice_index codes.now i) }
    ensures seconds { (i : ℕ) → from ≤ i → i < length codes.now
        → slice_index seconds.new i ≡ coordinate 3 1 (slice_index codes.now i) }
    ensures thirds { (i : ℕ) → from ≤ i → i < length codes.now
        → slice_index thirds.new i ≡ coordinate 3 2 (slice_index codes.now i) }
{
    for i in from..codes.len() {
        firsts[i] = gather(3, codes[i]);
        seconds[i] = gather(3, codes[i] >> 1);
        thirds[i] = gather(3, codes[i] >> 2);
    }
}
