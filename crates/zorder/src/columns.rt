//! Many codes decoded at once, coordinate by coordinate, by vectors of bytes.
//!
//! Two bytes of a code of two coordinates have four bits of each. Of four codes the even bytes are
//! one vector, and the odd bytes the other; three times bits change sides, and then the one has
//! the bytes of the first coordinates and the other those of the second:
//!
//!     even   y3 x3 y2 x2 y1 x1 y0 x0        y5 x5 y4 x4 y1 x1 y0 x0
//!     odd    y7 x7 y6 x6 y5 x5 y4 x4   4    y7 x7 y6 x6 y3 x3 y2 x2   2, 1
//!
//! The words of the clauses are in `specs/Columns.antt`.

ghost use Rattle.std.specs.Prelude.{◌≡◌, ℕ, ◌+◌, ◌*◌, ◌/◌, ◌^◌, ◌<◌, ◌≤◌, length, slice_index};
ghost use Rattle.std.specs.Int.{bit_at};
ghost use Rattle.zorder.specs.Codes.{coordinate};
ghost use Rattle.zorder.specs.Columns.{HasLanes, byte_of, crossing, lower_side, upper_side};

use crate::spread::gather;
use std::simd::prelude::*;

/// The even bytes of four codes, and the odd ones.
#[inline(always)]
fn byte_halves(codes: u64x4) -> (u8x16, u8x16)
    ensures even { HasLanes result.0 (λ l. byte_of codes (2 * l)) }
    ensures odd { HasLanes result.1 (λ l. byte_of codes (2 * l + 1)) }
{
    let bytes = codes.to_le_bytes();
    let even = bytes.swizzle::<16>([0, 2, 4, 6, 8, 10, 12, 14, 16, 18, 20, 22, 24, 26, 28, 30]);
    let odd = bytes.swizzle::<16>([1, 3, 5, 7, 9, 11, 13, 15, 17, 19, 21, 23, 25, 27, 29, 31]);
    (even, odd)
}

/// Where the mask has a one, whether the bits of `a` that stand `shift` higher and those of `b`
/// differ.
#[inline(always)]
fn crossing_bits(a: u8x16, b: u8x16, shift: u8, mask: u8) -> u8x16
    requires { shift < 8 }
    ensures { HasLanes result (λ l. crossing shift mask (slice_index a l) (slice_index b l)) }
{
    ((a >> u8x16::splat(shift)) ^ b) & u8x16::splat(mask)
}

/// Lets the bits of `b` under the mask, and those of `a` that stand `shift` higher, change sides.
#[inline(always)]
fn change_sides(a: u8x16, b: u8x16, shift: u8, mask: u8) -> (u8x16, u8x16)
    requires { shift < 8 }
    ensures lower { HasLanes result.0
        (λ l. lower_side shift mask (slice_index a l) (slice_index b l)) }
    ensures upper { HasLanes result.1
        (λ l. upper_side shift mask (slice_index a l) (slice_index b l)) }
{
    let crossing = crossing_bits(a, b, shift, mask);
    (a ^ (crossing << u8x16::splat(shift)), b ^ crossing)
}

/// The numbers of four bytes each, the lowest byte first.
#[inline(always)]
pub fn numbers_of(bytes: u8x16) -> u32x4
    ensures bits { (i m q : ℕ) → i < 4 → m < 4 → q < 8
        → bit_at (slice_index result i) (m * 8 + q) ≡ bit_at (slice_index bytes (4 * i + m)) q }
    ensures range { (i : ℕ) → i < 4 → slice_index result i < 2 ^ 32 }
    ensures long { length result ≡ 4 }
{
    u32x4::from_le_bytes(bytes)
}

/// The first and the second coordinates of four codes.
#[inline(always)]
fn four_pairs(codes: u64x4) -> (u32x4, u32x4)
    ensures long { (length result.0 ≡ 4) × (length result.1 ≡ 4) }
    ensures first { (i : ℕ) → i < 4
        → slice_index result.0 i ≡ coordinate 2 0 (slice_index codes i) }
    ensures second { (i : ℕ) → i < 4
        → slice_index result.1 i ≡ coordinate 2 1 (slice_index codes i) }
{
    let (even, odd) = byte_halves(codes);
    let (first_4, second_4) = change_sides(even, odd, 4, 0x0f);
    let (first_2, second_2) = change_sides(first_4, second_4, 2, 0x33);
    let (first, second) = change_sides(first_2, second_2, 1, 0x55);
    (numbers_of(first), numbers_of(second))
}

/// The coordinates of codes of two coordinates: the first ones and the second ones, in the order of
/// the codes, each of which may be any number.
///
/// They are written to the beginnings of two lists, which are at least as long as that of the
/// codes. The same as [`decode`](crate::decode) of each, in about half the time. Cannot fail and
/// takes no memory. Source: Morton, IBM Ottawa, 1966.
pub fn decode_pairs(codes: &[u64], firsts: &mut [u32], seconds: &mut [u32])
    requires firsts { length codes.now ≤ length firsts.old }
    requires seconds { length codes.now ≤ length seconds.old }
    ensures firsts { (i : ℕ) → i < length codes.now
        → slice_index firsts.new i ≡ coordinate 2 0 (slice_index codes.now i) }
    ensures seconds { (i : ℕ) → i < length codes.now
        → slice_index seconds.new i ≡ coordinate 2 1 (slice_index codes.now i) }
{
    for block in 0..codes.len() / 4 {
        let at = 4 * block;
        let (first, second) = four_pairs(u64x4::from_slice(&codes[at..]));
        first.copy_to_slice(&mut firsts[at..]);
        second.copy_to_slice(&mut seconds[at..]);
    }
    decode_last_pairs(codes, codes.len() / 4 * 4, firsts, seconds);
}

/// The coordinates of the codes from a place on.
fn decode_last_pairs(codes: &[u64], from: usize, firsts: &mut [u32], seconds: &mut [u32])
    requires firsts { length codes.now ≤ length firsts.old }
    requires seconds { length codes.now ≤ length seconds.old }
    ensures firsts_before { (i : ℕ) → i < from
        → slice_index firsts.new i ≡ slice_index firsts.old i }
    ensures seconds_before { (i : ℕ) → i < from
        → slice_index seconds.new i ≡ slice_index seconds.old i }
    ensures firsts { (i : ℕ) → from ≤ i → i < length codes.now
        → slice_index firsts.new i ≡ coordinate 2 0 (slice_index codes.now i) }
    ensures seconds { (i : ℕ) → from ≤ i → i < length codes.now
        → slice_index seconds.new i ≡ coordinate 2 1 (slice_index codes.now i) }
{
    for i in from..codes.len() {
        firsts[i] = gather(2, codes[i]);
        seconds[i] = gather(2, codes[i] >> 1);
    }
}
