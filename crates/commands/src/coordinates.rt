// The coordinates of a point, behind other words of a text line.
ghost use Rattle.std.specs.Prelude.{◌≡◌, ◌∷◌, ◌≤◌, ◌+◌, ◌*◌, ◌++◌, ℕ, List, length};
ghost use Rattle.std.specs.List.{join_with_byte};
ghost use Rattle.zorder.specs.Codes.{IsCode, IsDimension};
ghost use Rattle.commands.specs.Texts.Coordinates.{coordinate_words};

use written::TextLine;
use zorder::decode;

/// Adds the coordinates of a code, each after a space and of at most ten digits.
pub fn push_coordinates(line: &mut TextLine, d: u32, code: u64)
    requires dimension { IsDimension d }
    requires code { IsCode d code }
    requires room { length line.old ≤ 37 }
    ensures text { (first : List ℕ) (words : List (List ℕ))
        → line.old ≡ join_with_byte 32 (first ∷ words)
        → line.new ≡ join_with_byte 32 (first ∷ (words ++ coordinate_words d code d)) }
    ensures room { length line.new ≤ length line.old + d * 11 }
{
    let coordinates = decode(d, code);
    for c in 0..d {
        line.push_number(coordinates[c as usize]);
    }
}
