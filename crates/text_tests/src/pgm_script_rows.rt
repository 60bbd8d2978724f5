// Worked scripts.
ghost use Rattle.std.specs.Prelude.{◌<◌, ◌≤◌, ◌^◌, IsTrue};
ghost use Rattle.pgm_script.specs.Scripts.{IsKind};

use crate::expected::expect;
use crate::shelves::shelf_of;
use edge::{MemShelf, Shelf};
use pgm_script::{Finds, ScriptFault, ScriptKind, ScriptLine, Why, parse, parse_as, read_text};
use std::alloc::Global;
use std::process::Abort;
use zorder::Region;

/// A kind and a text; and its lines, or the line of its first fault and what that is.
type Script<'a> = (ScriptKind, &'a [u8], Result<&'a [ScriptLine], (u64, Why)>);

/// Texts of questions, and their lines.
static FINDS: [Script; 9] = [
    (ScriptKind::Find, b"", Ok(&[])),
    (ScriptKind::Find, b"\n\n \t\n", Ok(&[])),
    (ScriptKind::Find, b"find 7", Ok(&[ScriptLine::Find(7)])),
    (ScriptKind::Find, b"find 7\n", Ok(&[ScriptLine::Find(7)])),
    (ScriptKind::Find, b"find 007\r", Ok(&[ScriptLine::Find(7)])),
    (
        ScriptKind::Find,
        b"# find 1\r\n\tfind \t 2 \t\r\n  #\n#find 3\nfind 4\n",
        Ok(&[ScriptLine::Find(2), ScriptLine::Find(4)]),
    ),
    (
        ScriptKind::Find,
        b"find 18446744073709551615\n",
        Ok(&[ScriptLine::Find(u64::MAX)]),
    ),
    (
        ScriptKind::Find,
        b"find 000000000000000000000000000000\n",
        Ok(&[ScriptLine::Find(0)]),
    ),
    (
        ScriptKind::Find,
        b"# \xc3\xa9\nfind 5",
        Ok(&[ScriptLine::Find(5)]),
    ),
];

/// Texts that are none, each with its first fault: by the first word and the text, ..
static NO_COMMANDS: [Script; 8] = [
    (ScriptKind::Find, b"look 1", Err((1, Why::Word))),
    (ScriptKind::Find, b"finds 1", Err((1, Why::Word))),
    (ScriptKind::Find, b"put 1 1", Err((1, Why::Word))),
    (ScriptKind::Find, b"find 1\r\n\r\r\n", Err((2, Why::Word))),
    (ScriptKind::Find, b"\xef\xbb\xbffind 1", Err((1, Why::Word))),
    (ScriptKind::Find, b"\xff", Err((1, Why::NotUtf8))),
    (ScriptKind::Find, b"find 1\n# \xff", Err((2, Why::NotUtf8))),
    (
        ScriptKind::Find,
        b"# \xed\xa0\x80\nlook",
        Err((1, Why::NotUtf8)),
    ),
];

/// .. and by its numbers.
static NO_NUMBERS: [Script; 13] = [
    (ScriptKind::Find, b"find 1 2", Err((1, Why::Extra))),
    (ScriptKind::Find, b"\nfind", Err((2, Why::Missing))),
    (ScriptKind::Find, b"find -1", Err((1, Why::Number))),
    (ScriptKind::Find, b"find +1", Err((1, Why::Number))),
    (ScriptKind::Find, b"find 1x", Err((1, Why::Number))),
    (
        ScriptKind::Find,
        b"find 18446744073709551616",
        Err((1, Why::Number)),
    ),
    (
        ScriptKind::Find,
        b"find 100000000000000000000",
        Err((1, Why::Number)),
    ),
    (
        ScriptKind::Find,
        b"find 18446744073709551616\n",
        Err((1, Why::Number)),
    ),
    (
        ScriptKind::Find,
        b"find 00000000018446744073709551616\n",
        Err((1, Why::Number)),
    ),
    (
        ScriptKind::Find,
        b"find 99999999999999999999\n",
        Err((1, Why::Number)),
    ),
    (ScriptKind::Find, b"find x y", Err((1, Why::Number))),
    (ScriptKind::Find, b"find 1\r\r", Err((1, Why::Number))),
    (ScriptKind::Find, b"find 1\x0b", Err((1, Why::Number))),
];

static REGIONS: [Script; 4] = [
    (
        ScriptKind::Region(3),
        b"box 1 2 3 0 5 2097151\n",
        Ok(&[ScriptLine::Region(Region {
            d: 3,
            low: [1, 2, 3, 0],
            high: [0, 5, 2_097_151, 0],
        })]),
    ),
    (
        ScriptKind::Region(4),
        b"box 0 0 0 65536 0 0 0 0",
        Err((1, Why::Number)),
    ),
    (
        ScriptKind::Region(2),
        b"box 0 0 1 4294967296",
        Err((1, Why::Number)),
    ),
    (ScriptKind::Region(2), b"box 0 0 1", Err((1, Why::Missing))),
];

/// Lines of centres of so many coordinates, at the ends of their ranges, and what they are.
static CENTRES: [Script; 6] = [
    (
        ScriptKind::Near(2),
        b"near 0 0 0",
        Ok(&[ScriptLine::Near([0, 0, 0, 0], 0)]),
    ),
    (
        ScriptKind::Near(2),
        b"near 2 3 5\r\n",
        Ok(&[ScriptLine::Near([2, 3, 0, 0], 5)]),
    ),
    (
        ScriptKind::Near(2),
        b"near 4294967295 4294967295 4294967295",
        Ok(&[ScriptLine::Near([u32::MAX, u32::MAX, 0, 0], u32::MAX)]),
    ),
    (
        ScriptKind::Near(3),
        b"\tnear 2097151  2097151 2097151 0004294967295",
        Ok(&[ScriptLine::Near([2_097_151, 2_097_151, 2_097_151, 0], u32::MAX)]),
    ),
    (
        ScriptKind::Near(3),
        b"# near 1\nnear 1 2 3 2097152",
        Ok(&[ScriptLine::Near([1, 2, 3, 0], 2_097_152)]),
    ),
    (
        ScriptKind::Near(4),
        b"near 65535 65535 65535 65535 65536",
        Ok(&[ScriptLine::Near([65_535, 65_535, 65_535, 65_535], 65_536)]),
    ),
];

/// Lines that are none, each with what is wrong with it first.
static NO_CENTRES: [Script; 18] = [
    (ScriptKind::Near(2), b"near", Err((1, Why::Missing))),
    (ScriptKind::Near(2), b"near 1 2", Err((1, Why::Missing))),
    (ScriptKind::Near(3), b"near 1 2 3", Err((1, Why::Missing))),
    (ScriptKind::Near(4), b"near 1 2 3 4", Err((1, Why::Missing))),
    (ScriptKind::Near(2), b"near 1 2 3 4", Err((1, Why::Extra))),
    (ScriptKind::Near(3), b"near 1 2 3 4 5", Err((1, Why::Extra))),
    (
        ScriptKind::Near(4),
        b"near 1 2 3 4 5 6",
        Err((1, Why::Extra)),
    ),
    (
        ScriptKind::Near(2),
        b"near 1 2 4294967296",
        Err((1, Why::Number)),
    ),
    (
        ScriptKind::Near(3),
        b"near 1 2 3 4294967296",
        Err((1, Why::Number)),
    ),
    (
        ScriptKind::Near(4),
        b"near 1 2 3 4 4294967296",
        Err((1, Why::Number)),
    ),
    (
        ScriptKind::Near(2),
        b"near 1 4294967296 3",
        Err((1, Why::Number)),
    ),
    (
        ScriptKind::Near(3),
        b"near 1 2 2097152 4",
        Err((1, Why::Number)),
    ),
    (
        ScriptKind::Near(4),
        b"near 65536 2 3 4 5",
        Err((1, Why::Number)),
    ),
    (
        ScriptKind::Near(2),
        b"near 4294967296",
        Err((1, Why::Number)),
    ),
    (ScriptKind::Near(2), b"near 1 2 -3", Err((1, Why::Number))),
    (ScriptKind::Near(2), b"near 1 2 3x 4", Err((1, Why::Number))),
    (ScriptKind::Near(2), b"box 1 2 3 4", Err((1, Why::Word))),
    (ScriptKind::Near(2), b"nearest 1 2 3", Err((1, Why::Word))),
];

/// Updates of a map and questions to it, which a replay and a mix may have.
const FIVE_LINES: &[ScriptLine] = &[
    ScriptLine::Put(1, 10),
    ScriptLine::Del(2),
    ScriptLine::Get(3),
    ScriptLine::Next(4),
    ScriptLine::Count(5, 6),
];

/// The first five lines of a replay are those of a mix, and a sweep is none.
static REPLAYS: [Script; 4] = [
    (
        ScriptKind::Replay,
        b"put 1 10\ndel 2\nget 3\nnext 4\ncount 5 6\nsweep 7 8",
        Ok(&[
            ScriptLine::Put(1, 10),
            ScriptLine::Del(2),
            ScriptLine::Get(3),
            ScriptLine::Next(4),
            ScriptLine::Count(5, 6),
            ScriptLine::Sweep(7, 8),
        ]),
    ),
    (
        ScriptKind::Replay,
        b"put 1 10\ndel 2\nget 3\nnext 4\ncount 5 6\n",
        Ok(FIVE_LINES),
    ),
    (
        ScriptKind::Mix,
        b"put 1 10\ndel 2\nget 3\nnext 4\ncount 5 6\n",
        Ok(FIVE_LINES),
    ),
    (
        ScriptKind::Mix,
        b"put 1 10\n\nsweep 7 8\n",
        Err((3, Why::Word)),
    ),
];

/// Whether a kind is one, with a number of coordinates that there is.
fn is_kind(kind: ScriptKind) -> bool
    ensures { IsTrue result → IsKind kind }
{
    match kind {
        ScriptKind::Region(d) | ScriptKind::Near(d) => d == 2 || d == 3 || d == 4,
        _ => true,
    }
}

/// Whether the lines of a text as a script of a kind are these.
fn is_script(
    alloc: Global,
    kind: ScriptKind,
    text: &[u8],
    wanted: &[ScriptLine],
) -> Result<bool, ScriptFault>
    requires { IsKind kind }
{
    let lines = parse(alloc, kind, text)?;
    Ok(lines.as_slice() == wanted)
}

/// What is wanted of the reading of a text, and the lines that it is compared with.
fn wanted_of<'a>(
    wanted: Result<&'a [ScriptLine], (u64, Why)>,
) -> (Result<bool, ScriptFault>, &'a [ScriptLine]) {
    match wanted {
        Ok(lines) => (Ok(true), lines),
        Err((line, why)) => (Err(ScriptFault::At { line, why }), &[]),
    }
}

fn check_rows(rt: &impl Abort, alloc: Global, rows: &[Script<'_>]) {
    for (kind, text, wanted) in rows {
        let (kind, text) = (*kind, *text);
        let (wanted, lines) = wanted_of(*wanted);
        assert!(rt; is_kind(kind));
        expect(
            rt,
            (kind, text),
            is_script(alloc, kind, text, lines),
            wanted,
        );
    }
}

#[test]
fn questions(rt: HostRuntime) {
    check_rows(&rt, rt.alloc(), &FINDS);
    check_rows(&rt, rt.alloc(), &NO_COMMANDS);
    check_rows(&rt, rt.alloc(), &NO_NUMBERS);
}

#[test]
fn regions_and_centres(rt: HostRuntime) {
    check_rows(&rt, rt.alloc(), &REGIONS);
    check_rows(&rt, rt.alloc(), &CENTRES);
    check_rows(&rt, rt.alloc(), &NO_CENTRES);
}

#[test]
fn replays(rt: HostRuntime) {
    check_rows(&rt, rt.alloc(), &REPLAYS);
}

/// Whether these are the numbers of the lines.
fn are_numbers(numbers: &[u64], lines: &[ScriptLine]) -> bool {
    for (number, line) in numbers.iter().zip(lines) {
        if *line != ScriptLine::Find(*number) {
            return false;
        }
    }
    numbers.len() == lines.len()
}

/// Whether the lines of a text, kept as their numbers, are these.
fn has_numbers(alloc: Global, text: &[u8], lines: &[ScriptLine]) -> Result<bool, ScriptFault> {
    let finds: Finds = parse_as(alloc, ScriptKind::Find, text)?;
    Ok(are_numbers(&finds.numbers, lines))
}

#[test]
fn finds(rt: HostRuntime) {
    for (_, text, wanted) in &FINDS {
        let (wanted, lines) = wanted_of(*wanted);
        expect(&rt, *text, has_numbers(rt.alloc(), text, lines), wanted);
    }
}

/// The text of two questions: these digits behind so many zeros, and 7.
fn padded(alloc: Global, zeros: u32, digits: &[u8]) -> Option<Vec<u8>> {
    let mut text = Vec::from_slice(alloc, b"find ").ok()?;
    for _ in 0..zeros {
        text.push(b'0').ok()?;
    }
    text.extend_from_slice(digits).ok()?;
    text.extend_from_slice(b"\nfind 7").ok()?;
    Some(text)
}

/// Whether they are read as this value.
fn is_value(alloc: Global, zeros: u32, digits: &[u8], value: u64) -> Option<bool> {
    let text = padded(alloc, zeros, digits)?;
    let wanted = [ScriptLine::Find(value), ScriptLine::Find(7)];
    has_numbers(alloc, &text, &wanted).ok()
}

/// Numbers of each length, with and without leading zeros.
#[test]
fn lengths(rt: HostRuntime) {
    let digits = b"12345678901234567890";
    let mut value = 0u64;
    for len in 1..21 {
        value = value
            .wrapping_mul(10)
            .wrapping_add(u64::from(digits[len - 1].wrapping_sub(48)));
        for zeros in 0..20 {
            let found = is_value(rt.alloc(), zeros, &digits[..len], value);
            expect(&rt, (len, zeros), found, Some(true));
        }
    }
}

/// Bytes that are no digits, and what is wrong with them.
static NO_DIGITS: [(u8, Why); 5] = [
    (b'/', Why::Number),
    (b':', Why::Number),
    (b'\0', Why::Number),
    (b'p', Why::Number),
    (0xb0, Why::NotUtf8),
];

/// How a question is read with this byte in this place.
fn read_with(alloc: Global, byte: u8, place: usize) -> Result<bool, ScriptFault>
    requires { place < 26 }
{
    let mut text = *b"find 12345678901234567890\n";
    text[place] = byte;
    is_script(alloc, ScriptKind::Find, &text, &[])
}

/// A byte beside the digits, in each place of a number of 20 digits.
#[test]
fn no_digits(rt: HostRuntime) {
    for (byte, why) in &NO_DIGITS {
        for place in 5..25 {
            let wanted = Err(ScriptFault::At { line: 1, why: *why });
            expect(
                &rt,
                (*byte, place),
                read_with(rt.alloc(), *byte, place),
                wanted,
            );
        }
    }
}

/// Whether the text that is read is this.
fn is_text(
    alloc: Global,
    shelf: &mut MemShelf,
    limit: u64,
    wanted: &[u8],
) -> Result<bool, ScriptFault>
    requires { limit < 2 ^ 63 }
{
    let text = read_text(alloc, shelf, limit)?;
    Ok(text.as_slice() == wanted)
}

/// What is read of a file: whether it is the whole, or why it isn't read; nothing where memory
/// wasn't found.
type Reading = Option<Result<bool, ScriptFault>>;

fn reading(alloc: Global, bytes: &[u8], failing: &[u64], most: usize, limit: u64) -> Reading
    requires most { 1 ≤ most }
    requires limit { limit < 2 ^ 63 }
{
    let mut shelf = shelf_of(alloc, bytes, failing, most)?;
    Some(is_text(alloc, &mut shelf, limit, bytes))
}

/// Texts, calls that fail, how many bytes a read gives at most, and what is read of three bytes.
/// Calls 2 to 5 read the text a byte at a time, and its end.
static READS: [(&[u8], &[u64], usize, Result<bool, ScriptFault>); 6] = [
    (b"abc", &[], 1, Ok(true)),
    (b"abc", &[], 2, Ok(true)),
    (b"abc", &[], 1000, Ok(true)),
    (b"abc", &[2], 1, Err(ScriptFault::ReadFault)),
    (b"abc", &[4], 1, Err(ScriptFault::ReadFault)),
    (b"abc", &[5], 1, Err(ScriptFault::ReadFault)),
];

#[test]
fn texts(rt: HostRuntime) {
    for (bytes, failing, most, wanted) in &READS {
        assert!(rt; 1 <= *most);
        let found = reading(rt.alloc(), bytes, failing, *most, 3);
        expect(&rt, (*failing, *most), found, Some(*wanted));
    }
    expect(
        &rt,
        "no byte",
        reading(rt.alloc(), b"", &[], 1, 0),
        Some(Ok(true)),
    );
}

/// How a text of six bytes is read where three are allowed, and how many the next read gives.
fn too_long(alloc: Global, most: usize) -> Option<(Result<bool, ScriptFault>, usize)>
    requires { 1 ≤ most }
{
    let mut shelf = shelf_of(alloc, b"abcdef", &[], most)?;
    let read = is_text(alloc, &mut shelf, 3, b"abcdef");
    let mut left = [0; 4];
    let count = shelf.read(&mut left).ok()?;
    Some((read, count))
}

/// One byte past the limit is gone, so two are left.
#[test]
fn long_texts(rt: HostRuntime) {
    let fault = Err(ScriptFault::TooLong { got: 4 });
    expect(&rt, "1 byte", too_long(rt.alloc(), 1), Some((fault, 1)));
    expect(&rt, "2 bytes", too_long(rt.alloc(), 2), Some((fault, 2)));
    expect(
        &rt,
        "1000 bytes",
        too_long(rt.alloc(), 1000),
        Some((fault, 2)),
    );
}

/// How one byte more than two chunks hold is read.
fn long_reading(alloc: Global, limit: u64) -> Reading
    requires { limit < 2 ^ 63 }
{
    let bytes = vec![in alloc; 7; 131_073].ok()?;
    reading(alloc, &bytes, &[], usize::MAX, limit)
}

/// One byte more than two chunks hold.
#[test]
fn three_chunks(rt: HostRuntime) {
    let fault = Err(ScriptFault::TooLong { got: 131_073 });
    expect(
        &rt,
        "room",
        long_reading(rt.alloc(), 200_000),
        Some(Ok(true)),
    );
    expect(
        &rt,
        "all",
        long_reading(rt.alloc(), 131_073),
        Some(Ok(true)),
    );
    expect(&rt, "less", long_reading(rt.alloc(), 131_072), Some(fault));
}

/// Whether a fault is told so.
fn is_told(alloc: Global, fault: ScriptFault, wanted: &str) -> bool {
    match format!(in alloc; "{fault}") {
        Ok(text) => text.as_str() == wanted,
        Err(_) => false,
    }
}

#[test]
fn messages(rt: HostRuntime) {
    let (line, why) = (2, Why::Word);
    let fault = ScriptFault::At { line, why };
    let text = "line 2 of the script: the first word is no command";
    expect(&rt, text, is_told(rt.alloc(), fault, text), true);
}
