// Worked files, read from a shelf in memory, worked levels, and saved indexes, right and wrong.
ghost use Rattle.std.specs.Prelude.{◌≤◌};

use crate::common::{Points, expect, never_falls, rises};
use edge::{MemShelf, Shelf};
use exact_cross::{Line, PointList, Segment, Side, Witness};
use index_file::{
    CheckFault, IndexFault, Saved, SavedCut, SavedRun, check, read_index, spell_head, spell_level,
};
use std::alloc::Global;
use std::process::Abort;
use std::test::Fail;

/// The index of the keys 0, 1, 2, 10 with both error bounds 0: a head of 20 bytes, level 0 of 38
/// and level 1 of 17.
const HEAD: &[u8] = b"PGMINDEX\0\0\0\0\0\0\0\0\x02\0\0\0";

const LEVEL_0: &[u8] =
    b"\x02\0\0\0\0\0\0\0\0\0\0\0\x01\0\0\0\x02\0\0\0\0\x01\0\0\0\x03\0\0\0\x03\0\0\0\x03\0\0\0\0";

const LEVEL_1: &[u8] = b"\x01\0\0\0\0\0\0\0\0\0\0\0\x01\0\0\0\0";

/// The parts of a file.
type Parts = &'static [&'static [u8]];

const WHOLE: Parts = &[HEAD, LEVEL_0, LEVEL_1];

/// Bytes that are the spelling of no index, each with its fault.
static FAULTY_FILES: [(&str, &[u8], IndexFault); 14] = [
    ("no byte", b"", IndexFault::Short { got: 0 }),
    ("one byte", b"X", IndexFault::Magic { at: 0 }),
    ("a small letter", b"PGMINDEx", IndexFault::Magic { at: 7 }),
    ("two that differ", b"PGXINDEX", IndexFault::Magic { at: 2 }),
    (
        "three bytes of a bound",
        b"PGMINDEX\xff\xff\xff",
        IndexFault::Short { got: 11 },
    ),
    (
        "a bound of 1,048,577",
        b"PGMINDEX\x01\0\x10\0",
        IndexFault::Epsilon { value: 1_048_577 },
    ),
    (
        "the greatest bound of the levels above",
        b"PGMINDEX\0\0\x10\0\xff\xff\xff\xff\x07",
        IndexFault::Epsilon {
            value: 4_294_967_295,
        },
    ),
    (
        "both bounds too great",
        b"PGMINDEX\x02\0\x10\0\x03\0\x10\0\0\0\0\0",
        IndexFault::Epsilon { value: 1_048_578 },
    ),
    (
        "no level of 4,294,967,295",
        b"PGMINDEX\0\0\0\0\0\0\0\0\xff\xff\xff\xff",
        IndexFault::Short { got: 20 },
    ),
    (
        "two empty levels of 4,294,967,295, and two bytes",
        b"PGMINDEX\0\0\0\0\0\0\0\0\xff\xff\xff\xff\0\0\0\0\0\0\0\0\x01\x02",
        IndexFault::Short { got: 30 },
    ),
    (
        "six bytes of 4,294,967,295 runs",
        b"PGMINDEX\0\0\0\0\0\0\0\0\x01\0\0\0\xff\xff\xff\xff\0\0\0\0\0\0",
        IndexFault::Short { got: 30 },
    ),
    (
        "the side 3, with nothing behind it",
        b"PGMINDEX\0\0\0\0\0\0\0\0\x01\0\0\0\x09\0\0\0\0\0\0\0\0\0\0\0\0\0\0\0\x03",
        IndexFault::Side { at: 36, byte: 3 },
    ),
    (
        "a byte behind no level",
        b"PGMINDEX\0\0\0\0\0\0\0\0\0\0\0\0\0",
        IndexFault::Trailing { byte: 0 },
    ),
    (
        "a byte behind an empty level",
        b"PGMINDEX\0\0\0\0\0\0\0\0\x01\0\0\0\0\0\0\0\xff",
        IndexFault::Trailing { byte: 255 },
    ),
];

/// The index of the keys 0, 10, 11, 12, 13, 100 with both error bounds 0: three levels, of 51, 38
/// and 17 bytes.
const HIGH_HEAD: &[u8] = b"PGMINDEX\0\0\0\0\0\0\0\0\x03\0\0\0";

const HIGH_0: &[u8] = b"\x03\0\0\0\
    \0\0\0\0\0\0\0\0\x01\0\0\0\x01\
    \x02\0\0\0\x02\0\0\0\x03\0\0\0\x02\x02\0\0\0\x03\0\0\0\
    \x05\0\0\0\x05\0\0\0\x05\0\0\0\0";

const HIGH_1: &[u8] =
    b"\x02\0\0\0\0\0\0\0\0\0\0\0\x01\0\0\0\x02\0\0\0\0\x01\0\0\0\x02\0\0\0\x02\0\0\0\x02\0\0\0\0";

const HIGH_2: &[u8] = b"\x01\0\0\0\0\0\0\0\0\0\0\0\x01\0\0\0\0";

const HIGH: Parts = &[HIGH_HEAD, HIGH_0, HIGH_1, HIGH_2];

/// What that file is found to be with one byte made greater by 1, by 2 and by 128, for each byte
/// from an offset on: a digit for the level that is wrong, `.` for none, `m` for Magic, `e` for
/// Epsilon, `b` for Side, `s` for Short and `t` for Trailing. A slow program in another language
/// found them, which makes the whole index by trying all lines.
static CHANGED: [(usize, u8, &str); 12] = [
    (0, 1, "mmmmmmmm000e111essss"),
    (0, 2, "mmmmmmmm000e111essss"),
    (0, 128, "mmmmmmmm00ee11eessss"),
    (20, 1, LEVEL_0_BY_1),
    (20, 2, LEVEL_0_BY_2),
    (20, 128, LEVEL_0_BY_128),
    (71, 1, "1sss111111111111b111111111111111111111"),
    (71, 2, "ssss111111111111b11111111111111111111t"),
    (71, 128, "ssss111111111111b11111111111111111111b"),
    (109, 1, "ssss2222222222222"),
    (109, 2, "ssss222222222222s"),
    (109, 128, "ssss222222222222b"),
];

const LEVEL_0_BY_1: &str = "ssss0000000000000000000000000b000000000000000000000";

const LEVEL_0_BY_2: &str = "0sss000000000000b000000000000b00000000000000000000t";

const LEVEL_0_BY_128: &str = "ssss000000000000b000000000000b00000000000000000000b";

/// The bytes of the parts.
fn joined(alloc: Global, parts: &[&[u8]]) -> Result<Vec<u8>, Fail> {
    let mut bytes = Vec::new(alloc);
    for part in parts {
        bytes.extend_from_slice(part)?;
    }
    Ok(bytes)
}

/// The index of two levels.
fn whole(alloc: Global) -> Result<Vec<u8>, Fail> {
    joined(alloc, WHOLE)
}

/// The index of three levels.
fn high(alloc: Global) -> Result<Vec<u8>, Fail> {
    joined(alloc, HIGH)
}

/// A shelf whose one file is taken, of which a read gives at most `most` bytes. The taking is call
/// 1.
fn shelf_of(alloc: Global, bytes: &[u8], failing: &[u64], most: usize) -> Result<MemShelf, Fail>
    requires { 1 ≤ most }
{
    let file = (String::from_str(alloc, "index")?, bytes.to_vec(alloc)?);
    let mut shelf = MemShelf::new(vec![in alloc; file]?, failing.to_vec(alloc)?, most);
    shelf.take_file("index")?;
    Ok(shelf)
}

/// What a reading of the bytes gives, at most so many of them at once.
fn read(
    alloc: Global,
    bytes: &[u8],
    failing: &[u64],
    most: usize,
) -> Result<Result<Saved, IndexFault>, Fail>
    requires { 1 ≤ most }
{
    let mut shelf = shelf_of(alloc, bytes, failing, most)?;
    Ok(read_index(alloc, &mut shelf))
}

/// Why no index is read.
fn fault_of(
    alloc: Global,
    bytes: &[u8],
    failing: &[u64],
    most: usize,
) -> Result<Option<IndexFault>, Fail>
    requires { 1 ≤ most }
{
    Ok(read(alloc, bytes, failing, most)?.err())
}

/// What a saved index is found to be over points, as a letter.
fn checked(alloc: Global, points: Points<'_>, saved: &Saved) -> u8 {
    let (xs, ys) = points;
    if !rises(xs) || !never_falls(ys) || xs.len() != ys.len() || xs.len() > 1000 {
        return b'?';
    }
    match check(alloc, PointList::new(xs, ys), saved) {
        Ok(()) => b'.',
        Err(CheckFault::Wrong { level }) => b'0' + level.min(9) as u8,
        Err(CheckFault::NoMemory) => b'?',
    }
}

/// What the bytes are found to be over these points, as a letter.
fn found(alloc: Global, points: Points<'_>, bytes: &[u8]) -> Result<u8, Fail> {
    match read(alloc, bytes, &[], 1000)? {
        Ok(saved) => Ok(checked(alloc, points, &saved)),
        Err(fault) => Ok(letter(fault)),
    }
}

fn letter(fault: IndexFault) -> u8 {
    match fault {
        IndexFault::Short { got: _ } => b's',
        IndexFault::Magic { at: _ } => b'm',
        IndexFault::Epsilon { value: _ } => b'e',
        IndexFault::Side { at: _, byte: _ } => b'b',
        IndexFault::Trailing { byte: _ } => b't',
        IndexFault::ReadFault | IndexFault::NoMemory => b'?',
    }
}

const FOUR_KEYS: Points<'static> = (&[0, 1, 2, 10], &[0, 1, 2, 3]);

const SIX_KEYS: Points<'static> = (&[0, 10, 11, 12, 13, 100], &[0, 1, 2, 3, 4, 5]);

const RUNS_0: [SavedRun; 2] = [
    SavedRun {
        start: 0,
        a: 0,
        b: 1,
        cut: SavedCut::Under(0, 1),
    },
    SavedRun {
        start: 3,
        a: 3,
        b: 3,
        cut: SavedCut::Last,
    },
];

const RUNS_1: [SavedRun; 1] = [SavedRun {
    start: 0,
    a: 0,
    b: 1,
    cut: SavedCut::Last,
}];

/// What is read of it: the bytes at once, the bounds, and the runs of each level.
type ReadRow = (
    &'static str,
    Parts,
    usize,
    (u32, u32),
    &'static [&'static [SavedRun]],
);

static READ_ROWS: [ReadRow; 3] = [
    ("at once", WHOLE, 1000, (0, 0), &[&RUNS_0, &RUNS_1]),
    ("byte by byte", WHOLE, 1, (0, 0), &[&RUNS_0, &RUNS_1]),
    (
        "the greatest bounds, and an empty index",
        &[b"PGMINDEX\0\0\x10\0\x04\0\0\0\0\0\0\0"],
        7,
        (1_048_576, 4),
        &[],
    ),
];

/// Whether the levels that were read are these.
fn has_levels(saved: &Saved, levels: &[&[SavedRun]]) -> bool {
    let count = saved.levels();
    if count as usize != levels.len() {
        return false;
    }
    for i in 0..count {
        if saved.runs(i) != levels[i as usize] {
            return false;
        }
    }
    true
}

/// Whether a row is read as it says.
fn reads_row(alloc: Global, row: &ReadRow) -> Result<bool, Fail> {
    let (_, parts, most, bounds, levels) = *row;
    if most == 0 {
        return Ok(false);
    }
    let bytes = joined(alloc, parts)?;
    match read(alloc, &bytes, &[], most)? {
        Ok(saved) => Ok((saved.eps(), saved.eps_rec()) == bounds && has_levels(&saved, levels)),
        Err(_) => Ok(false),
    }
}

#[test]
fn reads(rt: HostRuntime) -> Result<(), Fail> {
    for row in &READ_ROWS {
        let same = reads_row(rt.alloc(), row)?;
        expect(&rt, row.0, same);
    }
    Ok(())
}

/// Fails with the fault that was found in place of the one that is wanted, and with where.
fn expect_fault(
    rt: &impl Abort,
    name: &str,
    number: u64,
    found: Option<IndexFault>,
    wanted: IndexFault,
) {
    assert_eq!(rt; found, Some(wanted), "{name}: {number}");
}

#[test]
fn faulty_files(rt: HostRuntime) -> Result<(), Fail> {
    for (name, bytes, fault) in &FAULTY_FILES {
        let at_once = fault_of(rt.alloc(), bytes, &[], 1000)?;
        expect_fault(&rt, name, 1000, at_once, *fault);
        let byte_by_byte = fault_of(rt.alloc(), bytes, &[], 1)?;
        expect_fault(&rt, name, 1, byte_by_byte, *fault);
    }
    Ok(())
}

/// The fault of the index of two levels, where call `failing` fails.
fn fault_at(alloc: Global, failing: u64) -> Result<Option<IndexFault>, Fail> {
    let bytes = whole(alloc)?;
    fault_of(alloc, &bytes, &[failing], 1000)
}

/// The same index with the side of the first run made over.
fn fault_of_side(alloc: Global) -> Result<Option<IndexFault>, Fail> {
    let mut bytes = whole(alloc)?;
    if bytes.len() == 75 {
        bytes[36] = 1;
    }
    fault_of(alloc, &bytes, &[], 1000)
}

/// The same index cut to a length.
fn fault_of_cut(alloc: Global, len: usize) -> Result<Option<IndexFault>, Fail> {
    let mut bytes = whole(alloc)?;
    bytes.truncate(len);
    fault_of(alloc, &bytes, &[], 1000)
}

/// The two places of the first run are read as the next run.
#[test]
fn changed_side(rt: HostRuntime) -> Result<(), Fail> {
    let fault = fault_of_side(rt.alloc())?;
    expect_fault(
        &rt,
        "changed side",
        36,
        fault,
        IndexFault::Side { at: 49, byte: 3 },
    );
    Ok(())
}

/// The file cut to each length.
#[test]
fn cut_files(rt: HostRuntime) -> Result<(), Fail> {
    assert_eq!(rt; HEAD.len() + LEVEL_0.len() + LEVEL_1.len(), 75);
    for got in 0..75 {
        let fault = fault_of_cut(rt.alloc(), got as usize)?;
        expect_fault(&rt, "cut", got, fault, IndexFault::Short { got });
    }
    Ok(())
}

/// Call 2 reads the eight bytes, 3 to 5 the head's numbers, and so on.
#[test]
fn read_faults(rt: HostRuntime) -> Result<(), Fail> {
    for failing in 2..12 {
        let fault = fault_at(rt.alloc(), failing)?;
        expect_fault(&rt, "failing call", failing, fault, IndexFault::ReadFault);
    }
    Ok(())
}

const CUT: Witness = Witness {
    p: 0,
    q: 1,
    r: 3,
    side: Side::Under,
};

const CUT_OVER: Witness = Witness {
    p: 0,
    q: 1,
    r: 3,
    side: Side::Over,
};

const ONES: Line = Line {
    x0: 0,
    y0: 0,
    rise: 1,
    run: 1,
};

const LEVEL: Line = Line {
    x0: 10,
    y0: 3,
    rise: 0,
    run: 1,
};

/// A run's start, its pair, its line and its cut.
type Run = (u32, u32, u32, Line, Option<Witness>);

/// What levels are spelled as.
static SPELLED: [(&str, &[Run], &[u8]); 3] = [
    (
        "under",
        &[(0, 0, 1, ONES, Some(CUT)), (3, 3, 3, LEVEL, None)],
        LEVEL_0,
    ),
    (
        "over",
        &[(0, 0, 1, ONES, Some(CUT_OVER))],
        b"\x01\0\0\0\0\0\0\0\0\0\0\0\x01\0\0\0\x01",
    ),
    ("alone", &[(0, 0, 1, ONES, None)], LEVEL_1),
];

/// The segments of these runs.
fn segments_of(alloc: Global, runs: &[Run]) -> Result<Vec<Segment>, Fail> {
    let mut segments = Vec::new(alloc);
    for (start, a, b, line, cut) in runs {
        segments.push(Segment {
            start: *start,
            a: *a,
            b: *b,
            line: *line,
            cut: *cut,
        })?;
    }
    Ok(segments)
}

/// Whether a level of these runs is spelled so.
fn is_spelled(alloc: Global, runs: &[Run], wanted: &[u8]) -> Result<bool, Fail> {
    let segments = segments_of(alloc, runs)?;
    if segments.len() > 1000 {
        return Ok(false);
    }
    let bytes = spell_level(alloc, &segments)?;
    Ok(bytes.as_slice() == wanted)
}

/// Whether the head is spelled so.
fn head_is_spelled(alloc: Global) -> Result<bool, Fail> {
    let bytes = spell_head(alloc, 0, 0, 2)?;
    Ok(bytes.as_slice() == HEAD)
}

#[test]
fn spells(rt: HostRuntime) -> Result<(), Fail> {
    let same = head_is_spelled(rt.alloc())?;
    expect(&rt, "head", same);
    for (name, runs, wanted) in &SPELLED {
        let same = is_spelled(rt.alloc(), runs, wanted)?;
        expect(&rt, name, same);
    }
    Ok(())
}

/// Points, a file, and what it is found to be over them.
static CHECKED: [(&str, Points<'static>, Parts, u8); 9] = [
    ("its four keys", FOUR_KEYS, WHOLE, b'.'),
    (
        "four that one line fits",
        (&[0, 1, 2, 3], &[0, 1, 2, 3]),
        WHOLE,
        b'0',
    ),
    ("no key", (&[], &[]), WHOLE, b'0'),
    ("the least key alone", (&[0], &[0]), WHOLE, b'0'),
    ("its six keys", SIX_KEYS, HIGH, b'.'),
    ("no level where there is no key", (&[], &[]), NO_LEVEL, b'.'),
    ("no level where there is one", (&[5], &[0]), NO_LEVEL, b'0'),
    (
        "a level too few",
        FOUR_KEYS,
        &[b"PGMINDEX\0\0\0\0\0\0\0\0\x01\0\0\0", LEVEL_0],
        b'1',
    ),
    (
        "one too many, without runs",
        FOUR_KEYS,
        &[
            b"PGMINDEX\0\0\0\0\0\0\0\0\x03\0\0\0",
            LEVEL_0,
            LEVEL_1,
            b"\0\0\0\0",
        ],
        b'2',
    ),
];

const NO_LEVEL: Parts = &[b"PGMINDEX\x07\0\0\0\x04\0\0\0\0\0\0\0"];

/// What the file of these parts is found to be.
fn found_in(alloc: Global, points: Points<'_>, parts: Parts) -> Result<u8, Fail> {
    let bytes = joined(alloc, parts)?;
    found(alloc, points, &bytes)
}

#[test]
fn checks(rt: HostRuntime) -> Result<(), Fail> {
    for (name, points, parts, wanted) in &CHECKED {
        let found = found_in(rt.alloc(), *points, parts)?;
        expect(&rt, name, found == *wanted);
    }
    Ok(())
}

/// What the file of three levels is found to be with one byte made greater.
fn found_changed(alloc: Global, at: usize, by: u8) -> Result<u8, Fail> {
    let mut bytes = high(alloc)?;
    if at >= bytes.len() {
        return Ok(b'?');
    }
    bytes[at] = bytes[at].wrapping_add(by);
    found(alloc, SIX_KEYS, &bytes)
}

/// The first byte from an offset on that isn't found as wanted, where it is made greater by as
/// much.
fn unlike(alloc: Global, from: usize, want: &str, by: u8) -> Result<Option<usize>, Fail> {
    let want = want.as_bytes();
    for i in 0..want.len() {
        let at = from.saturating_add(i);
        if found_changed(alloc, at, by)? != want[i] {
            return Ok(Some(at));
        }
    }
    Ok(None)
}

/// Fails with the byte that isn't found as wanted.
fn expect_alike(rt: &impl Abort, by: u8, unlike: Option<usize>) {
    assert_eq!(rt; unlike, None, "greater by {by}");
}

#[test]
fn changed_bytes(rt: HostRuntime) -> Result<(), Fail> {
    assert_eq!(rt;
        HIGH_HEAD.len() + HIGH_0.len() + HIGH_1.len() + HIGH_2.len(),
        126
    );
    for (from, by, want) in &CHANGED {
        let unlike = unlike(rt.alloc(), *from, want, *by)?;
        expect_alike(&rt, *by, unlike);
    }
    Ok(())
}

/// Whether the fault of a reading is written so.
fn reads_as(alloc: Global, fault: IndexFault, wanted: &str) -> Result<bool, Fail> {
    let text = format!(in alloc; "{}", fault)?;
    Ok(text.as_str() == wanted)
}

/// Whether the fault of a check is written so.
fn checks_as(alloc: Global, fault: CheckFault, wanted: &str) -> Result<bool, Fail> {
    let text = format!(in alloc; "{}", fault)?;
    Ok(text.as_str() == wanted)
}

static READ_MESSAGES: [(IndexFault, &str); 2] = [
    (
        IndexFault::Side { at: 49, byte: 3 },
        "byte 49 is 3, which says no side",
    ),
    (IndexFault::Short { got: 7 }, "the file ends after 7 bytes"),
];

#[test]
fn messages(rt: HostRuntime) -> Result<(), Fail> {
    for (fault, wanted) in &READ_MESSAGES {
        let same = reads_as(rt.alloc(), *fault, wanted)?;
        expect(&rt, wanted, same);
    }
    let wanted = "level 2 is not that of the index";
    let same = checks_as(rt.alloc(), CheckFault::Wrong { level: 2 }, wanted)?;
    expect(&rt, wanted, same);
    Ok(())
}
