// What no clause says: worked rows through the whole program, that it gives answers at all, and
// that threads run beside one another.
use edge::{FileShelf, Gate, MemShelf, MemSink, OpenGate, OutSink, Shelf, Sink};
use program::{Status, run};
use std::fs;
use std::process::Abort;
use std::sync::Wait;
use std::test::Fail;
use std::thread::Threads;

mod build;
mod damage;
mod drill;
mod explain;
mod hint_files;
mod holds;
mod mix;
mod neighbours;
mod query;
mod readers;
mod refusals;
mod regions;
mod relax;
mod replay;
mod saved;
mod workers;

/// A device of the tests: the call that fails, 0 for none, and the most bytes that one call moves.
#[derive(Clone, Copy)]
struct Device {
    failing: u64,
    most: usize,
}

const WHOLE: Device = Device {
    failing: 0,
    most: 65_536,
};

const ONE_BYTE: Device = Device {
    failing: 0,
    most: 1,
};

/// A run of the program: its words after the program's name, with spaces between them, and the
/// bytes of the files `keys` and `script`.
#[derive(Clone, Copy)]
struct Given<'a> {
    words: &'a str,
    keys: &'a [u8],
    script: &'a [u8],
}

/// What a run says and writes, and how many calls of the shelf and of the sink it makes.
#[derive(Drop)]
struct Seen {
    status: Status,
    written: Vec<u8>,
    reads: u64,
    puts: u64,
}

fn words_of<R: AllocGlobal>(rt: &R, words: &str) -> Result<Vec<String>, Fail> {
    let mut all = Vec::new(rt.alloc());
    all.push(String::from_str(rt.alloc(), "pgmtool")?)?;
    for word in words.split_whitespace() {
        all.push(String::from_str(rt.alloc(), word)?)?;
    }
    Ok(all)
}

fn named<R: AllocGlobal>(rt: &R, name: &str, bytes: &[u8]) -> Result<(String, Vec<u8>), Fail> {
    let name = String::from_str(rt.alloc(), name)?;
    Ok((name, bytes.to_vec(rt.alloc())?))
}

fn shelf_of<R: AllocGlobal>(rt: &R, given: Given<'_>, device: Device) -> Result<MemShelf, Fail> {
    let mut files = Vec::new(rt.alloc());
    files.push(named(rt, "keys", given.keys)?)?;
    files.push(named(rt, "script", given.script)?)?;
    let failing = vec![in rt.alloc(); device.failing]?;
    Ok(MemShelf::new(files, failing, device.most.max(1)))
}

/// A run over such devices, whose threads pass the gate.
fn observed<R: AllocGlobal + Threads + Wait + Sync, G: Gate>(
    rt: &R,
    given: Given<'_>,
    reading: Device,
    writing: Device,
    gate: &G,
) -> Result<Seen, Fail> {
    let words = words_of(rt, given.words)?;
    let mut shelf = shelf_of(rt, given, reading)?;
    let failing = vec![in rt.alloc(); writing.failing]?;
    let mut sink = MemSink::new(rt.alloc(), 65_536, failing, writing.most.max(1))?;
    let status = run(rt, &words, &mut shelf, &mut sink, gate);
    Ok(Seen {
        status,
        written: sink.bytes().to_vec(rt.alloc())?,
        reads: shelf.calls(),
        puts: sink.calls(),
    })
}

/// Fails with the row's name, and the number of the call that was to fail.
fn expect<R: AllocGlobal + Abort>(
    rt: &R,
    name: &str,
    failing: u64,
    found: &Seen,
    status: Status,
    written: &[u8],
) {
    assert_eq!(rt; found.status, status, "{name} {failing}");
    assert_eq!(rt; found.written.as_slice(), written, "{name} {failing}");
}

/// What is written over a device for both, and no call of which is refused.
fn check_at<R: AllocGlobal + Abort + Threads + Wait + Sync>(
    rt: &R,
    name: &str,
    given: Given<'_>,
    device: Device,
    text: &[u8],
) -> Result<(), Fail> {
    let found = observed(rt, given, device, device, &OpenGate)?;
    expect(rt, name, 0, &found, Status::Done, text);
    Ok(())
}

/// A run and its text: a name, the words after the program's name, the numbers of the file `keys`,
/// those of 8 bytes before those of 4, the script, and the text.
type Row = (
    &'static str,
    &'static str,
    &'static str,
    &'static str,
    &'static str,
    &'static str,
);

fn file_of<R: AllocGlobal>(rt: &R, wide: &str, narrow: &str) -> Result<Vec<u8>, Fail> {
    let mut bytes = Vec::new(rt.alloc());
    for word in wide.split_whitespace() {
        let number: u64 = word.parse()?;
        bytes.extend_from_slice(&number.to_le_bytes())?;
    }
    for word in narrow.split_whitespace() {
        let number: u32 = word.parse()?;
        bytes.extend_from_slice(&number.to_le_bytes())?;
    }
    Ok(bytes)
}

/// What is written with more words behind the row's own, by whole devices and by such that move a
/// byte at a time.
fn check_row<R: AllocGlobal + Abort + Threads + Wait + Sync>(
    rt: &R,
    row: &Row,
    more: &str,
    text: &[u8],
) -> Result<(), Fail> {
    let (name, words, wide, narrow, script, _) = *row;
    let keys = file_of(rt, wide, narrow)?;
    let words = format!(in rt.alloc(); "{words} {more}")?;
    let given = Given {
        words: &words,
        keys: &keys,
        script: script.as_bytes(),
    };
    check_at(rt, name, given, WHOLE, text)?;
    check_at(rt, name, given, ONE_BYTE, text)
}

fn check_rows<R: AllocGlobal + Abort + Threads + Wait + Sync>(
    rt: &R,
    rows: &[Row],
    more: &[&str],
) -> Result<(), Fail> {
    for row in rows {
        for words in more {
            check_row(rt, row, words, row.5.as_bytes())?;
        }
    }
    Ok(())
}

/// Numbers of text lines: the first, and by how much each is above the one before it.
type Numbers = (u64, u64);

/// So many text lines that each put a value at a key.
fn puts<R: AllocGlobal>(
    rt: &R,
    count: u64,
    keys: Numbers,
    values: Numbers,
) -> Result<Vec<u8>, Fail> {
    let mut script = Vec::new(rt.alloc());
    let (mut key, mut value) = (keys.0, values.0);
    for _line in 0..count {
        script.extend_from_slice(format!(in rt.alloc(); "put {key} {value}\n")?.as_bytes())?;
        key = key.saturating_add(keys.1);
        value = value.saturating_add(values.1);
    }
    Ok(script)
}

/// It leaves no file behind.
#[test]
fn adapters_carry_real_bytes(rt: HostRuntime) -> Result<(), Fail> {
    let mut sink = OutSink::new(rt.alloc(), fs::create(&rt, "bytes")?, 4)?;
    assert_eq!(rt; sink.put(b"carried")?, 7);
    sink.flush()?;
    let mut shelf = FileShelf::new(&rt);
    shelf.take_file("bytes")?;
    let mut buffer = [0u8; 16];
    let read = shelf.read(&mut buffer)?;
    fs::remove_file(&rt, "bytes")?;
    assert_eq!(rt; &buffer[..read], b"carried".as_slice());
    assert_eq!(rt; shelf.read(&mut buffer)?, 0);
    assert!(rt; shelf.take_file("bytes").is_err());
    Ok(())
}
