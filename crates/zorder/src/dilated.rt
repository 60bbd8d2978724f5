// Coordinates of a code at their places in it, where they compare as they do by themselves.
ghost use Rattle.std.specs.Prelude.{◌≡◌, ℕ, ◌%◌, ◌<◌};
ghost use Rattle.std.specs.Int.{bit_at};
ghost use Rattle.zorder.specs.Codes.{IsDimension};
ghost use Rattle.zorder.specs.Dilated.{dilated};

/// Every `d`-th place, from the lowest on.
#[inline(always)]
fn places(d: u32) -> u64
    requires { IsDimension d }
    ensures ones { (i : ℕ) → i < 64 → i % d ≡ 0 → bit_at result i ≡ 1 }
    ensures zeros { (i : ℕ) → i < 64 → 0 < i % d → bit_at result i ≡ 0 }
{
    match d {
        2 => 0x5555_5555_5555_5555,
        3 => 0x9249_2492_4924_9249,
        _ => 0x1111_1111_1111_1111,
    }
}

/// The dilated coordinate `c` of a code: the code without the bits of the other coordinates (Raman
/// and Wise, 2008).
#[inline(always)]
pub fn dilated_coordinate(d: u32, c: u32, z: u64) -> u64
    requires dimension { IsDimension d }
    requires within { c < d }
    ensures { result ≡ dilated d c z }
{
    z & (places(d) << c)
}
