// The codes of points, and the points of codes.
ghost use Rattle.std.specs.Prelude.{◌≡◌, ◌≢◌, ◌*◌, ◌/◌, ◌%◌, ◌^◌, ◌<◌, ◌≤◌, ◌↔◌, ℕ, IsTrue};
ghost use Rattle.std.specs.Prelude.{length, slice_index};
ghost use Rattle.std.specs.Option.{MatchOption};
ghost use Rattle.zorder.specs.Codes.{IsCode, IsDimension, IsInRange, code, coordinate};
ghost use Rattle.zorder.specs.Codes.{coordinate_bits};
ghost use Rattle.kuldebiq.specs.Answers.{gives, refuses};
ghost use Rattle.kuldebiq.specs.Points.{IsFirstTooGreat, AreCodesOf};
ghost use Rattle.hints.specs.Lookups.{IsSameOutside};

use crate::answer::{
    Answer, COORDINATE_TOO_GREAT, DIMS_OUT_OF_RANGE, NO_CODE, PART_OF_A_POINT, TOO_LITTLE_ROOM,
    given, refused,
};
use zorder::{decode, encode, fits_range};

/// The code of a point, whose number of coordinates is that of the list. The number is the code.
///
/// A refusal is `DIMS_OUT_OF_RANGE` or `COORDINATE_TOO_GREAT`, judged in this order. Takes no
/// memory.
#[unsafe(no_mangle)]
pub extern "C" fn kuldebiq_code(point: &[u32]) -> Answer
    ensures dims { ¬ IsDimension (length point.now) →
        result ≡ refuses DIMS_OUT_OF_RANGE (length point.now) }
    ensures great { IsDimension (length point.now) → (place : ℕ) →
        IsFirstTooGreat (length point.now) point.now place →
        result ≡ refuses COORDINATE_TOO_GREAT place }
    ensures done { IsDimension (length point.now) → IsInRange (length point.now) point.now →
        result ≡ gives (code (length point.now) point.now) }
{
    let dims = point.len();
    if dims < 2 || 4 < dims {
        return refused(DIMS_OUT_OF_RANGE, dims as u64);
    }
    if let Some(place) = first_too_great(dims as u32, point) {
        return refused(COORDINATE_TOO_GREAT, place as u64);
    }
    given(encode(dims as u32, point))
}

/// Writes the coordinates of a code, as many as there is room for. The number is how many.
///
/// A refusal is `DIMS_OUT_OF_RANGE` or `NO_CODE`, judged in this order, and nothing is written.
/// Takes no memory.
#[unsafe(no_mangle)]
pub extern "C" fn kuldebiq_point(code: u64, point: &mut [u32]) -> Answer
    ensures dims { ¬ IsDimension (length point.old) →
        result ≡ refuses DIMS_OUT_OF_RANGE (length point.old) }
    ensures none { IsDimension (length point.old) → ¬ IsCode (length point.old) code →
        result ≡ refuses NO_CODE 0 }
    ensures done { IsDimension (length point.old) → IsCode (length point.old) code →
        (result ≡ gives (length point.old)) × ((c : ℕ) → c < length point.old →
        slice_index point.new c ≡ coordinate (length point.old) c code) }
    ensures refused { result.status ≢ 0 → point.new ≡ point.old }
{
    let dims = point.len();
    if dims < 2 || 4 < dims {
        return refused(DIMS_OUT_OF_RANGE, dims as u64);
    }
    if !is_code(dims as u32, code) {
        return refused(NO_CODE, 0);
    }
    point.copy_from_slice(&decode(dims as u32, code)[..dims]);
    given(dims as u64)
}

/// Writes the codes of points, whose coordinates are given, all those of the first point, then
/// those of the second, and so on. The number is how many points there are. What lies behind their
/// codes stays.
///
/// A refusal is `DIMS_OUT_OF_RANGE`, `PART_OF_A_POINT`, `COORDINATE_TOO_GREAT` or
/// `TOO_LITTLE_ROOM`, judged in this order, and then nothing is written. Takes no memory.
#[unsafe(no_mangle)]
pub extern "C" fn kuldebiq_codes(dims: u32, coordinates: &[u32], codes: &mut [u64]) -> Answer
    ensures dims { ¬ IsDimension dims → result ≡ refuses DIMS_OUT_OF_RANGE dims }
    ensures part { IsDimension dims → length coordinates.now % dims ≢ 0 →
        result ≡ refuses PART_OF_A_POINT (length coordinates.now) }
    ensures great { IsDimension dims → length coordinates.now % dims ≡ 0 → (place : ℕ) →
        IsFirstTooGreat dims coordinates.now place →
        result ≡ refuses COORDINATE_TOO_GREAT place }
    ensures room { IsDimension dims → length coordinates.now % dims ≡ 0 →
        ((c : ℕ) → c < length coordinates.now →
        slice_index coordinates.now c < 2 ^ coordinate_bits dims) →
        length codes.old < length coordinates.now / dims →
        result ≡ refuses TOO_LITTLE_ROOM (length coordinates.now / dims) }
    ensures done { IsDimension dims → length coordinates.now % dims ≡ 0 →
        ((c : ℕ) → c < length coordinates.now →
        slice_index coordinates.now c < 2 ^ coordinate_bits dims) →
        length coordinates.now / dims ≤ length codes.old →
        (result ≡ gives (length coordinates.now / dims)) ×
        AreCodesOf dims coordinates.now codes.new (length coordinates.now / dims) }
    ensures rest { IsSameOutside 0 (length coordinates.now / dims) codes.old codes.new }
    ensures refused { result.status ≢ 0 → codes.new ≡ codes.old }
{
    if dims < 2 || 4 < dims {
        return refused(DIMS_OUT_OF_RANGE, u64::from(dims));
    }
    let size = coordinates.len();
    if size % dims as usize != 0 {
        return refused(PART_OF_A_POINT, size as u64);
    }
    if let Some(place) = first_too_great(dims, coordinates) {
        return refused(COORDINATE_TOO_GREAT, place as u64);
    }
    let count = size / dims as usize;
    if codes.len() < count {
        return refused(TOO_LITTLE_ROOM, count as u64);
    }
    write_codes(dims, coordinates, count, codes);
    given(count as u64)
}

/// Writes the codes of so many points.
fn write_codes(dims: u32, coordinates: &[u32], count: usize, codes: &mut [u64])
    requires dimension { IsDimension dims }
    requires range { (c : ℕ) → c < length coordinates.now →
        slice_index coordinates.now c < 2 ^ coordinate_bits dims }
    requires points { count * dims ≤ length coordinates.now }
    requires room { count ≤ length codes.old }
    ensures codes { AreCodesOf dims coordinates.now codes.new count }
    ensures rest { IsSameOutside 0 count codes.old codes.new }
{
    let size = dims as usize;
    for i in 0..count {
        codes[i] = encode(dims, &coordinates[i * size..i * size + size]);
    }
}

/// The first place of a number that is too great for a coordinate, if there is one.
pub(crate) fn first_too_great(dims: u32, coordinates: &[u32]) -> Option<usize>
    requires { IsDimension dims }
    ensures { MatchOption result ((c : ℕ) → c < length coordinates.now →
        slice_index coordinates.now c < 2 ^ coordinate_bits dims)
        (IsFirstTooGreat dims coordinates.now) }
{
    for place in 0..coordinates.len() {
        if !fits_range(dims, coordinates[place]) {
            return Some(place);
        }
    }
    None
}

/// Whether a number is a code of a point of so many coordinates.
fn is_code(dims: u32, code: u64) -> bool
    requires { IsDimension dims }
    ensures { IsTrue result ↔ IsCode dims code }
{
    dims != 3 || code < 1 << 63
}
