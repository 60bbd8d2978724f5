// Numbers at the ends of their lengths.

use crate::expected::expect;
use written::TextLine;

/// A number, and its text.
static ENDS: [(u64, &[u8]); 12] = [
    (0, b" 0"),
    (9, b" 9"),
    (10, b" 10"),
    (99, b" 99"),
    (100, b" 100"),
    (9_999, b" 9999"),
    (10_000, b" 10000"),
    (4_294_967_295, b" 4294967295"),
    (9_999_999_999_999_999, b" 9999999999999999"),
    (9_999_999_999_999_999_999, b" 9999999999999999999"),
    (10_000_000_000_000_000_000, b" 10000000000000000000"),
    (u64::MAX, b" 18446744073709551615"),
];

/// Whether a number is written the same in both ways, whatever the lines held before.
fn is_one_text(copied: &mut TextLine, written: &mut TextLine, number: u64) -> bool {
    copied.clear();
    copied.push_number(number);
    written.clear();
    written.push_u64(number);
    written.as_bytes() == copied.as_bytes()
}

#[test]
fn numbers(rt: HostRuntime) {
    let mut copied = TextLine::new();
    let mut written = TextLine::new();
    for (number, text) in &ENDS {
        let is_one = is_one_text(&mut copied, &mut written, *number);
        let found = (is_one, written.as_bytes() == *text);
        expect(&rt, *number, found, (true, true));
    }
}

/// All lengths, at both ends.
#[test]
fn lengths(rt: HostRuntime) {
    let mut copied = TextLine::new();
    let mut written = TextLine::new();
    let mut power = 1u64;
    for _ in 0..20 {
        let below = is_one_text(&mut copied, &mut written, power.saturating_sub(1));
        let at = is_one_text(&mut copied, &mut written, power);
        expect(&rt, power, (below, at), (true, true));
        power = power.saturating_mul(10);
    }
}

#[test]
fn places(rt: HostRuntime) {
    let mut line = TextLine::new();
    line.push_places(b"run", 0, u32::MAX);
    let is_wanted = line.as_bytes() == b"run 0 4294967295".as_slice();
    expect(&rt, "run 0 4294967295", is_wanted, true);
}
