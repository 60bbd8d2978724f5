// Updates and questions, worked out by hand or by an independent program: what `replay` writes.
use super::*;
use damage::{Case, check_puts, check_reads};

const ROWS: [Row; 8] = [
    (
        "a sweep takes away what it finds",
        "replay script",
        "",
        "",
        "put 1 1\nput 2 2\nput 3 3\nsweep 2 9\nget 2\nget 1\ncount 0 9\n",
        "updates 4\nend get 2 none\nend get 1 1\nend count 0 9 1\nlive 1\n",
    ),
    (
        "questions before, between and behind the updates",
        "replay script --levels=26 --batch 1 --workers 64",
        "",
        "",
        "get 5\nput 5 1\nnext 0\nput 5 2\nnext 5\nnext 6\ndel 9\ncount 9 5\n",
        "updates 3\nend get 5 2\nend next 0 5 2\nend next 5 5 2\nend next 6 none\n\
            end count 9 5 0\nlive 1\n",
    ),
    (
        "both ends of the keys, and of the values",
        "replay script --levels 1",
        "",
        "",
        "put 18446744073709551615 0\nput 0 18446744073709551615\n\
            next 1\nget 0\ncount 0 18446744073709551615\n",
        "updates 2\nend next 1 18446744073709551615 0\nend get 0 18446744073709551615\n\
            end count 0 18446744073709551615 2\nlive 2\n",
    ),
    (
        "no updates",
        "replay script --workers 1",
        "",
        "",
        "get 1\nnext 0\ncount 0 9\n",
        "updates 0\nend get 1 none\nend next 0 none\nend count 0 9 0\nlive 0\n",
    ),
    (
        "no questions",
        "replay script",
        "",
        "",
        "put 7 1\ndel 7\n",
        "updates 2\nlive 0\n",
    ),
    (
        "an empty script",
        "replay script",
        "",
        "",
        "",
        "updates 0\nlive 0\n",
    ),
    (
        "blank lines, comments and byte 13",
        "replay script --batch 65536",
        "",
        "",
        "# updates\r\n\r\n  put\t1  2\r\nget 001\r\n",
        "updates 1\nend get 1 2\nlive 1\n",
    ),
    (
        "a sweep whose low end is above its high end",
        "replay script",
        "",
        "",
        "put 4 4\nsweep 9 0\nget 4\n",
        "updates 2\nend get 4 4\nlive 1\n",
    ),
];

#[test]
fn updates_and_questions(rt: HostRuntime) -> Result<(), Fail> {
    check_rows(&rt, &ROWS, &[""])
}

const ONE_LEVEL: &str = "replay script --levels 1";

const TWO_LEVELS: &str = "replay script --levels 2";

/// A name, words, how many times a key is put and by how much it is above the one before it, what
/// else the script says, and what comes. A sweep counts what it takes away.
type Entries = (
    &'static str,
    &'static str,
    (u64, u64),
    &'static [u8],
    Status,
    &'static str,
);

const ENTRIES: [Entries; 7] = [
    (
        "as many as fit",
        ONE_LEVEL,
        (127, 0),
        b"",
        Status::Done,
        "updates 127\nlive 1\n",
    ),
    (
        "one more",
        ONE_LEVEL,
        (128, 0),
        b"",
        Status::Full,
        "fault full 128 127\n",
    ),
    (
        "one more, and a level more",
        TWO_LEVELS,
        (128, 0),
        b"",
        Status::Done,
        "updates 128\nlive 1\n",
    ),
    (
        "all swept",
        ONE_LEVEL,
        (100, 1),
        b"sweep 0 200\n",
        Status::Full,
        "fault full 200 127\n",
    ),
    (
        "all swept, and a level more",
        TWO_LEVELS,
        (100, 1),
        b"sweep 0 200\n",
        Status::Done,
        "updates 101\nlive 0\n",
    ),
    (
        "as many swept as fit",
        ONE_LEVEL,
        (100, 1),
        b"sweep 1 27\ncount 0 200\nnext 0\n",
        Status::Done,
        "updates 101\nend count 0 200 73\nend next 0 28 28\nlive 73\n",
    ),
    (
        "one more swept",
        ONE_LEVEL,
        (100, 1),
        b"sweep 1 28\n",
        Status::Full,
        "fault full 128 127\n",
    ),
];

/// Calls that move much at a time are refused in turn, and puts of a byte.
fn check_entries<R: AllocGlobal + Abort + Threads + Wait + Sync>(
    rt: &R,
    row: &Entries,
) -> Result<(), Fail> {
    let (name, words, (count, step), rest, status, text) = *row;
    let mut script = puts(rt, count, (1, step), (1, step))?;
    script.extend_from_slice(rest)?;
    let case = Case {
        name,
        words,
        keys: b"",
        script: &script,
        status,
        text,
    };
    check_reads(rt, case, WHOLE)?;
    check_puts(rt, case, ONE_BYTE)
}

#[test]
fn a_map_accepts_so_many_entries(rt: HostRuntime) -> Result<(), Fail> {
    for row in &ENTRIES {
        check_entries(&rt, row)?;
    }
    Ok(())
}
