// Worked key files and point files, read from a shelf in memory.
ghost use Rattle.std.specs.Prelude.{◌≤◌};

use crate::expected::expect;
use crate::shelves::shelf_of;
use edge::{MemShelf, Shelf};
use sosd_reader::{KeyFault, read_keys, read_points};
use std::alloc::Global;
use std::process::Abort;

/// How a file is read: as keys, of 64 bits or of 32, or as points of so many coordinates.
#[derive(Clone, Copy)]
enum Format {
    Wide,
    Narrow,
    Points(u32),
}

/// Whether a file is the list that is wanted, or why it is none; nothing where memory wasn't found.
type Reading = Option<Result<bool, KeyFault>>;

/// A name, a format, the bytes of a file and the calls that fail; and its numbers, or its fault.
type Row<'a> = (
    &'a str,
    Format,
    &'a [u8],
    &'a [u64],
    Result<&'a [u64], KeyFault>,
);

/// The file of the keys 0, 1, 2, 10, a byte a column: the count, then the keys.
const WHOLE: &[u8] =
    b"\x04\0\0\0\0\0\0\0\0\0\0\0\0\0\0\0\x01\0\0\0\0\0\0\0\x02\0\0\0\0\0\0\0\x0a\0\0\0\0\0\0\0";

/// Files and their keys.
static KEY_FILES: [Row; 5] = [
    ("no key", Format::Wide, b"\0\0\0\0\0\0\0\0", &[], Ok(&[])),
    (
        "keys 0, 1, 2, 10",
        Format::Wide,
        WHOLE,
        &[],
        Ok(&[0, 1, 2, 10]),
    ),
    (
        "keys 5, 5, 5, 9",
        Format::Wide,
        b"\x04\0\0\0\0\0\0\0\x05\0\0\0\0\0\0\0\x05\0\0\0\0\0\0\0\x05\0\0\0\0\0\0\0\t\0\0\0\0\0\0\0",
        &[],
        Ok(&[5, 5, 5, 9]),
    ),
    (
        "a key of eight bytes",
        Format::Wide,
        b"\x01\0\0\0\0\0\0\0\x08\x07\x06\x05\x04\x03\x02\x01",
        &[],
        Ok(&[0x0102_0304_0506_0708]),
    ),
    (
        "32-bit keys 5, 9",
        Format::Narrow,
        b"\x02\0\0\0\0\0\0\0\x05\0\0\0\x09\0\0\0",
        &[],
        Ok(&[5, 9]),
    ),
];

/// Bytes that are the key file of no list, each with its fault. Calls 2 to 4 read the count, the
/// keys and what follows them.
static FAULTY_FILES: [Row; 15] = [
    (
        "seven bytes",
        Format::Wide,
        b"\0\0\0\0\0\0\0",
        &[],
        Err(KeyFault::Short { got: 7 }),
    ),
    (
        "keys 3, 2",
        Format::Wide,
        b"\x02\0\0\0\0\0\0\0\x03\0\0\0\0\0\0\0\x02\0\0\0\0\0\0\0",
        &[],
        Err(KeyFault::Unsorted {
            at: 1,
            before: 3,
            key: 2,
        }),
    ),
    (
        "keys 3, 2 of three",
        Format::Wide,
        b"\x03\0\0\0\0\0\0\0\x03\0\0\0\0\0\0\0\x02\0\0\0\0\0\0\0",
        &[],
        Err(KeyFault::Unsorted {
            at: 1,
            before: 3,
            key: 2,
        }),
    ),
    (
        "2^32 keys",
        Format::Wide,
        b"\0\0\0\0\x01\0\0\0",
        &[],
        Err(KeyFault::TooMany {
            count: 4_294_967_296,
        }),
    ),
    (
        "the greatest count",
        Format::Wide,
        b"\xff\xff\xff\xff\xff\xff\xff\xff",
        &[],
        Err(KeyFault::TooMany {
            count: 18_446_744_073_709_551_615,
        }),
    ),
    (
        "no key of 4,294,967,295",
        Format::Wide,
        b"\xff\xff\xff\xff\0\0\0\0",
        &[],
        Err(KeyFault::Short { got: 8 }),
    ),
    (
        "three of 4,000,000,000 keys",
        Format::Wide,
        b"\x00\x28\x6b\xee\0\0\0\0\x01\0\0\0\0\0\0\0\x02\0\0\0\0\0\0\0\x03\0\0\0\0\0\0\0",
        &[],
        Err(KeyFault::Short { got: 32 }),
    ),
    (
        "a byte past the key 7",
        Format::Wide,
        b"\x01\0\0\0\0\0\0\0\x07\0\0\0\0\0\0\0\xff",
        &[],
        Err(KeyFault::Trailing { byte: 255 }),
    ),
    (
        "a byte 0 past the keys 0, 1, 2, 10",
        Format::Wide,
        b"\x04\0\0\0\0\0\0\0\0\0\0\0\0\0\0\0\x01\0\0\0\0\0\0\0\x02\0\0\0\0\0\0\0\n\0\0\0\0\0\0\0\0",
        &[],
        Err(KeyFault::Trailing { byte: 0 }),
    ),
    (
        "fourteen bytes",
        Format::Narrow,
        b"\x02\0\0\0\0\0\0\0\0\0\0\0\0\0",
        &[],
        Err(KeyFault::Short { got: 14 }),
    ),
    (
        "32-bit keys 16777225, 10",
        Format::Narrow,
        b"\x02\0\0\0\0\0\0\0\x09\0\0\x01\x0a\0\0\0",
        &[],
        Err(KeyFault::Unsorted {
            at: 1,
            before: 16_777_225,
            key: 10,
        }),
    ),
    (
        "a byte past the 32-bit key 5",
        Format::Narrow,
        b"\x01\0\0\0\0\0\0\0\x05\0\0\0\x07",
        &[],
        Err(KeyFault::Trailing { byte: 7 }),
    ),
    (
        "call 2",
        Format::Wide,
        WHOLE,
        &[2],
        Err(KeyFault::ReadFault),
    ),
    (
        "call 3",
        Format::Wide,
        WHOLE,
        &[3],
        Err(KeyFault::ReadFault),
    ),
    (
        "call 4",
        Format::Wide,
        WHOLE,
        &[4],
        Err(KeyFault::ReadFault),
    ),
];

/// Point files, with their coordinates.
static POINT_FILES: [Row; 4] = [
    (
        "no point",
        Format::Points(2),
        b"\0\0\0\0\0\0\0\0",
        &[],
        Ok(&[]),
    ),
    (
        "points (2, 0), (1, 3)",
        Format::Points(2),
        b"\x02\0\0\0\0\0\0\0\x02\0\0\0\0\0\0\0\x01\0\0\0\x03\0\0\0",
        &[],
        Ok(&[2, 0, 1, 3]),
    ),
    (
        "wide coordinates",
        Format::Points(2),
        b"\x01\0\0\0\0\0\0\0\xff\xff\xff\xff\x04\x03\x02\x01",
        &[],
        Ok(&[4_294_967_295, 0x0102_0304]),
    ),
    (
        "four coordinates",
        Format::Points(4),
        b"\x01\0\0\0\0\0\0\0\xff\xff\0\0\x07\0\0\0\0\0\0\0\x01\0\0\0",
        &[],
        Ok(&[65_535, 7, 0, 1]),
    ),
];

/// Bytes that are the file of no points of the dimension, each with its fault.
static FAULTY_POINTS: [Row; 9] = [
    (
        "no byte",
        Format::Points(2),
        b"",
        &[],
        Err(KeyFault::Short { got: 0 }),
    ),
    (
        "2^32 points",
        Format::Points(4),
        b"\0\0\0\0\x01\0\0\0",
        &[],
        Err(KeyFault::TooMany {
            count: 4_294_967_296,
        }),
    ),
    (
        "the point (2097152, 0, 0)",
        Format::Points(3),
        b"\x01\0\0\0\0\0\0\0\0\0\x20\0\0\0\0\0\0\0\0\0",
        &[],
        Err(KeyFault::Wide {
            at: 0,
            value: 2_097_152,
        }),
    ),
    (
        "the coordinates 0 and 2097152 of two points",
        Format::Points(3),
        b"\x02\0\0\0\0\0\0\0\0\0\0\0\0\0\x20\0",
        &[],
        Err(KeyFault::Wide {
            at: 1,
            value: 2_097_152,
        }),
    ),
    (
        "the coordinate 65536",
        Format::Points(4),
        b"\x01\0\0\0\0\0\0\0\0\0\0\0\0\0\0\0\0\0\0\0\0\0\x01\0\xff",
        &[],
        Err(KeyFault::Wide {
            at: 3,
            value: 65_536,
        }),
    ),
    (
        "a point and a half",
        Format::Points(2),
        b"\x02\0\0\0\0\0\0\0\x02\0\0\0\0\0\0\0\x01\0\0\0",
        &[],
        Err(KeyFault::Short { got: 20 }),
    ),
    (
        "two coordinates of three",
        Format::Points(3),
        b"\x01\0\0\0\0\0\0\0\x02\0\0\0\0\0\0\0",
        &[],
        Err(KeyFault::Short { got: 16 }),
    ),
    (
        "a byte past the point (7, 9)",
        Format::Points(2),
        b"\x01\0\0\0\0\0\0\0\x07\0\0\0\x09\0\0\0\xff",
        &[],
        Err(KeyFault::Trailing { byte: 255 }),
    ),
    (
        "call 3 of points",
        Format::Points(2),
        b"\x02\0\0\0\0\0\0\0\x02\0\0\0\0\0\0\0\x01\0\0\0\x03\0\0\0",
        &[3],
        Err(KeyFault::ReadFault),
    ),
];

/// Whether the coordinates are these numbers.
fn are_same(coordinates: &[u32], numbers: &[u64]) -> bool {
    for (coordinate, number) in coordinates.iter().zip(numbers) {
        if u64::from(*coordinate) != *number {
            return false;
        }
    }
    coordinates.len() == numbers.len()
}

/// Whether what is left on a shelf is the file of these keys.
fn are_keys(
    alloc: Global,
    shelf: &mut MemShelf,
    wide: bool,
    keys: &[u64],
) -> Result<bool, KeyFault> {
    let read = read_keys(alloc, shelf, wide)?;
    Ok(read.as_slice() == keys)
}

/// Whether it is the file of these points; never where there are none of so many coordinates.
fn are_points(
    alloc: Global,
    shelf: &mut MemShelf,
    d: u32,
    points: &[u64],
) -> Result<bool, KeyFault> {
    if d < 2 || 4 < d {
        return Ok(false);
    }
    let read = read_points(alloc, shelf, d)?;
    Ok(are_same(&read, points))
}

/// Whether it is the file of these numbers.
fn are_numbers(
    alloc: Global,
    shelf: &mut MemShelf,
    format: Format,
    numbers: &[u64],
) -> Result<bool, KeyFault> {
    match format {
        Format::Wide => are_keys(alloc, shelf, true, numbers),
        Format::Narrow => are_keys(alloc, shelf, false, numbers),
        Format::Points(d) => are_points(alloc, shelf, d, numbers),
    }
}

/// What is read of a file of which a read gives at most `most` bytes.
fn reading(
    alloc: Global,
    format: Format,
    bytes: &[u8],
    failing: &[u64],
    most: usize,
    numbers: &[u64],
) -> Reading
    requires { 1 ≤ most }
{
    let mut shelf = shelf_of(alloc, bytes, failing, most)?;
    Some(are_numbers(alloc, &mut shelf, format, numbers))
}

/// The readings of a row, by 1000, 5, 3 and 1 bytes.
fn readings(alloc: Global, row: &Row, numbers: &[u64]) -> [Reading; 4] {
    let (_, format, bytes, failing, _) = *row;
    [
        reading(alloc, format, bytes, failing, 1000, numbers),
        reading(alloc, format, bytes, failing, 5, numbers),
        reading(alloc, format, bytes, failing, 3, numbers),
        reading(alloc, format, bytes, failing, 1, numbers),
    ]
}

/// What is wanted of the readings of a row, and the numbers that they are compared with.
fn wanted_of<'a>(wanted: Result<&'a [u64], KeyFault>) -> (Reading, &'a [u64]) {
    match wanted {
        Ok(numbers) => (Some(Ok(true)), numbers),
        Err(fault) => (Some(Err(fault)), &[]),
    }
}

fn check_rows(rt: &impl Abort, alloc: Global, rows: &[Row<'_>]) {
    for row in rows {
        let (wanted, numbers) = wanted_of(row.4);
        expect(rt, row.0, readings(alloc, row, numbers), [wanted; 4]);
    }
}

#[test]
fn key_files(rt: HostRuntime) {
    check_rows(&rt, rt.alloc(), &KEY_FILES);
}

#[test]
fn faulty_files(rt: HostRuntime) {
    check_rows(&rt, rt.alloc(), &FAULTY_FILES);
}

#[test]
fn point_files(rt: HostRuntime) {
    check_rows(&rt, rt.alloc(), &POINT_FILES);
}

#[test]
fn faulty_points(rt: HostRuntime) {
    check_rows(&rt, rt.alloc(), &FAULTY_POINTS);
}

/// How an empty shelf is read.
fn untaken_reading(alloc: Global) -> Result<bool, KeyFault> {
    let mut shelf = MemShelf::new(Vec::new(alloc), Vec::new(alloc), 1000);
    are_keys(alloc, &mut shelf, true, &[])
}

#[test]
fn no_file_is_taken(rt: HostRuntime) {
    let short = Err(KeyFault::Short { got: 0 });
    expect(&rt, "no file is taken", untaken_reading(rt.alloc()), short);
}

/// The file of the keys 0, 1, 2, 10, cut to each length.
#[test]
fn cut_files(rt: HostRuntime) {
    expect(&rt, "the whole file", WHOLE.len(), 40);
    for got in 0..40 {
        let read = reading(rt.alloc(), Format::Wide, &WHOLE[..got], &[], 1000, &[]);
        let short = KeyFault::Short { got: got as u64 };
        expect(&rt, got, read, Some(Err(short)));
    }
}

/// Whether a fault is told so.
fn is_told(alloc: Global, fault: KeyFault, wanted: &str) -> bool {
    match format!(in alloc; "{fault}") {
        Ok(text) => text.as_str() == wanted,
        Err(_) => false,
    }
}

#[test]
fn messages(rt: HostRuntime) {
    let (at, before, key) = (1, 3, 2);
    let unsorted = KeyFault::Unsorted { at, before, key };
    let text = "key 1 is 2, below 3 before it";
    expect(&rt, text, is_told(rt.alloc(), unsorted, text), true);
    let text = "the file ends after 7 bytes";
    let short = KeyFault::Short { got: 7 };
    expect(&rt, text, is_told(rt.alloc(), short, text), true);
}

/// How a file of no key is read that three bytes follow, and what the next read gives.
fn trailing_reading(alloc: Global) -> Option<(Result<bool, KeyFault>, usize, [u8; 8])> {
    let mut shelf = shelf_of(alloc, b"\0\0\0\0\0\0\0\0\x01\x02\x03", &[], 1000)?;
    let read = are_keys(alloc, &mut shelf, true, &[]);
    let mut left = [0; 8];
    let count = shelf.read(&mut left).ok()?;
    Some((read, count, left))
}

/// One byte past the last key is read, and no more.
#[test]
fn bytes_past_the_keys(rt: HostRuntime) {
    let trailing = Err(KeyFault::Trailing { byte: 1 });
    let wanted = Some((trailing, 2, [2, 3, 0, 0, 0, 0, 0, 0]));
    expect(&rt, "bytes 1, 2, 3", trailing_reading(rt.alloc()), wanted);
}

/// The numbers 0, 1, 2, .., so many.
fn first_numbers(alloc: Global, count: u64) -> Option<Vec<u64>> {
    let mut numbers = Vec::with_capacity(alloc, count as usize).ok()?;
    for number in 0..count {
        numbers.push(number).ok()?;
    }
    Some(numbers)
}

/// The file of a count and of the numbers, each of its first eight bytes, or of fewer.
fn file_of(alloc: Global, count: u64, numbers: &[u64], width: usize) -> Option<Vec<u8>>
    requires { width ≤ 8 }
{
    let mut bytes = Vec::from_slice(alloc, &count.to_le_bytes()).ok()?;
    for number in numbers {
        bytes
            .extend_from_slice(&number.to_le_bytes()[..width])
            .ok()?;
    }
    Some(bytes)
}

/// How the file of the first numbers is read.
fn long_reading(alloc: Global, format: Format, count: u64, numbers: u64, width: usize) -> Reading
    requires { width ≤ 8 }
{
    let numbers = first_numbers(alloc, numbers)?;
    let bytes = file_of(alloc, count, &numbers, width)?;
    reading(alloc, format, &bytes, &[], usize::MAX, &numbers)
}

/// The keys 0 to 131,072, one more than two chunks hold.
#[test]
fn three_chunks(rt: HostRuntime) {
    let read = long_reading(rt.alloc(), Format::Wide, 131_073, 131_073, 8);
    expect(&rt, "keys 0 to 131,072", read, Some(Ok(true)));
}

/// 30,000 points of three coordinates, of which one stands in two chunks.
#[test]
fn points_in_two_chunks(rt: HostRuntime) {
    let read = long_reading(rt.alloc(), Format::Points(3), 30_000, 90_000, 4);
    expect(&rt, "coordinates 0 to 89,999", read, Some(Ok(true)));
}
