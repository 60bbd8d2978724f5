// Numbers filled below their highest ones, coordinate by coordinate.
ghost use Rattle.zorder.specs.Codes.{IsDimension};
ghost use Rattle.bigmin.specs.Openings.{IsFilledDown};

/// The number that has a one at each place at which another has one, and at the places of the same
/// coordinate below it.
///
/// All coordinates are filled at once, in steps that double in length. Where `d` is a literal, no
/// loop is left.
#[inline(always)]
pub fn filled_down(d: u32, bits: u64) -> u64
    requires { IsDimension d }
    ensures { IsFilledDown d bits result }
{
    let mut filled = bits;
    let mut shift = d;
    while shift < 64 {
        filled |= filled >> shift;
        shift *= 2;
    }
    filled
}
