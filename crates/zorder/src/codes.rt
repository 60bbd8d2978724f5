//! Codes of points: encoding, decoding and the range of a coordinate.

ghost use Rattle.std.specs.Prelude.{◌≡◌, ℕ, ◌/◌, ◌^◌, ◌<◌, ◌≤◌, ◌↔◌, List, IsTrue};
ghost use Rattle.std.specs.Prelude.{length, slice_index};
ghost use Rattle.zorder.specs.Codes.{IsCode, IsCodeOf, IsDimension, IsInRange, IsNowhereAbove};
ghost use Rattle.zorder.specs.Codes.{code, coordinate, coordinate_bits};

use crate::spread::{gather, spread};

/// The Morton code of a point.
///
/// `d` is how many coordinates the point has, from 2 to 4, and `coords` begins with them, each in
/// range: of at most 32, 21 or 16 bits for 2, 3 or 4 coordinates. Bit `b` of coordinate `c` goes to
/// bit `b * d + c` of the code, so codes and points are one to one, and raising a coordinate never
/// lowers the code. Cannot fail and takes no memory. Source: Morton, IBM Ottawa, 1966.
pub fn encode(d: u32, coords: &[u32]) -> u64
    requires dimension { IsDimension d }
    requires enough { d ≤ length coords.now }
    requires range { IsInRange d coords.now }
    ensures bits { IsCodeOf d coords.now result }
    ensures code { result ≡ code d coords.now }
    ensures range { IsCode d result }
    ensures decodes { (c : ℕ) → c < d → coordinate d c result ≡ slice_index coords.now c }
    ensures rises { (lower : List ℕ) → IsNowhereAbove d lower coords.now → code d lower ≤ result }
{
    let mut code = 0;
    for c in 0..d {
        code |= spread(d, coords[c as usize]) << c;
    }
    code
}

/// The coordinates of a Morton code; the unused ones, from `d` on, are 0.
///
/// `d` is how many coordinates the code has, from 2 to 4. A code of three coordinates is below
/// 2^63; of two or four, any number is a code. Cannot fail and takes no memory.
/// Source: Morton, IBM Ottawa, 1966.
#[inline(always)]
pub fn decode(d: u32, z: u64) -> [u32; 4]
    requires dimension { IsDimension d }
    requires code { IsCode d z }
    ensures coordinates { (c : ℕ) → c < d → slice_index result c ≡ coordinate d c z }
    ensures unused { (c : ℕ) → d ≤ c → slice_index result c ≡ 0 }
    ensures range { IsInRange d result }
    ensures bits { IsCodeOf d result z }
    ensures encodes { code d result ≡ z }
{
    let mut coords = [0; 4];
    for c in 0..d {
        coords[c as usize] = gather(d, z >> c);
    }
    coords
}

/// Whether a number is in the range of a coordinate: below 2^32, 2^21 or 2^16, as `d`, the number
/// of coordinates, is 2, 3 or 4. Cannot fail and takes no memory.
pub fn fits_range(d: u32, value: u32) -> bool
    requires { IsDimension d }
    ensures { IsTrue result ↔ (value < 2 ^ coordinate_bits d) }
{
    u64::from(value) < 1 << (64 / d)
}
