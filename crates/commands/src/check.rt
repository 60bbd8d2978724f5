// The command `check`.
ghost use Rattle.std.specs.Prelude.{◌≡◌};
ghost use Rattle.written.specs.Writing.{WritesText};
ghost use Rattle.commands.specs.Texts.Check.{IsChecked, check_line};

use edge::Sink;
use written::{TextLine, Unfinished, hand_over};

/// Writes how many levels and runs a saved index has that was found right.
pub fn write<S: Sink>(levels: u32, runs: u64, out: &mut S) -> Result<(), Unfinished>
    ensures { WritesText S.Sink out.old result out.new (IsChecked levels runs) }
{
    let mut line = TextLine::new();
    fill_line(&mut line, levels, runs);
    Ok(hand_over(out, line.as_bytes())?)
}

fn fill_line(line: &mut TextLine, levels: u32, runs: u64)
    ensures { line.new ≡ check_line levels runs }
{
    line.clear();
    line.push(b"check levels");
    line.push_number(levels);
    line.push(b" runs");
    line.push_number(runs);
    line.push(b"\n");
}
