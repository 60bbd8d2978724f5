// What each refusal writes, and how the program ends, whichever of its calls is refused.
use super::*;
use damage::{Case, EXPLAIN, FOUR, check_calls};

const QUERY: &str = "query keys script";

const BOX: &str = "box keys script";

const SPACE: &str = "box keys script --dims 3";

const NEAR: &str = "near keys script";

/// A point file without points.
const NO_POINT: &[u8] = b"\0\0\0\0\0\0\0\0";

/// A name, words, the files `keys` and `script`, and the fault line.
type Refused = (
    &'static str,
    &'static str,
    &'static [u8],
    &'static [u8],
    &'static str,
);

const USAGE: [Refused; 10] = [
    ("no command", "", FOUR, b"", "fault usage\n"),
    (
        "a command that isn't there",
        "nothing keys",
        FOUR,
        b"",
        "fault usage\n",
    ),
    ("no script", "query keys", FOUR, b"", "fault usage\n"),
    (
        "an error bound past its range",
        "explain keys --eps 1048577",
        FOUR,
        b"",
        "fault usage\n",
    ),
    ("no centres", "near keys", FOUR, b"", "fault usage\n"),
    (
        "centres of five coordinates",
        "near keys script --dims 5",
        NO_POINT,
        b"",
        "fault usage\n",
    ),
    (
        "a drill of nothing",
        "drill 0 1",
        FOUR,
        b"",
        "fault usage\n",
    ),
    (
        "a drill of too many",
        "drill 1000001 1",
        FOUR,
        b"",
        "fault usage\n",
    ),
    (
        "a seed past its range",
        "drill 1 2147483648",
        FOUR,
        b"",
        "fault usage\n",
    ),
    (
        "a seed below its range",
        "drill 1 -1",
        FOUR,
        b"",
        "fault usage\n",
    ),
];

const MISSING: [Refused; 4] = [
    ("a file", "explain none", FOUR, b"", "fault read\n"),
    ("a script", "query keys none", FOUR, b"", "fault read\n"),
    ("updates", "replay nowhere", b"", b"", "fault read\n"),
    (
        "keys, before a bad script",
        "query none script",
        FOUR,
        b"look",
        "fault read\n",
    ),
];

const BAD_KEYS: [Refused; 16] = [
    (
        "bad keys before a script that isn't there",
        "query keys none",
        b"\0\0\0\0\0\0\0",
        b"",
        "fault keys short 7\n",
    ),
    (
        "bad keys before a bad script",
        QUERY,
        b"\0\0\0\0\0\0\0",
        b"look",
        "fault keys short 7\n",
    ),
    (
        "seven bytes",
        EXPLAIN,
        b"\0\0\0\0\0\0\0",
        b"",
        "fault keys short 7\n",
    ),
    (
        "keys that fall",
        EXPLAIN,
        b"\x02\0\0\0\0\0\0\0\x03\0\0\0\0\0\0\0\x02\0\0\0\0\0\0\0",
        b"",
        "fault keys unsorted 1 3 2\n",
    ),
    (
        "keys that fall before the file ends",
        EXPLAIN,
        b"\x03\0\0\0\0\0\0\0\x03\0\0\0\0\0\0\0\x02\0\0\0\0\0\0\0",
        b"",
        "fault keys unsorted 1 3 2\n",
    ),
    (
        "too many keys",
        EXPLAIN,
        b"\0\0\0\0\x01\0\0\0",
        b"",
        "fault keys too many 4294967296\n",
    ),
    (
        "the greatest count",
        EXPLAIN,
        b"\xff\xff\xff\xff\xff\xff\xff\xff",
        b"",
        "fault keys too many 18446744073709551615\n",
    ),
    (
        "the greatest count that may be, and no key",
        EXPLAIN,
        b"\xff\xff\xff\xff\0\0\0\0",
        b"",
        "fault keys short 8\n",
    ),
    (
        "a count of 4000000000 and three keys, with memory for one chunk",
        EXPLAIN,
        b"\x00\x28\x6b\xee\0\0\0\0\x01\0\0\0\0\0\0\0\x02\0\0\0\0\0\0\0\x03\0\0\0\0\0\0\0",
        b"",
        "fault keys short 32\n",
    ),
    (
        "a byte too much",
        EXPLAIN,
        b"\x01\0\0\0\0\0\0\0\x07\0\0\0\0\0\0\0\xff",
        b"",
        "fault keys trailing 255\n",
    ),
    (
        "a byte behind the last key",
        EXPLAIN,
        b"\x04\0\0\0\0\0\0\0\0\0\0\0\0\0\0\0\x01\0\0\0\0\0\0\0\
            \x02\0\0\0\0\0\0\0\x0a\0\0\0\0\0\0\0\0",
        b"",
        "fault keys trailing 0\n",
    ),
    (
        "narrow keys that end early",
        "build keys --narrow",
        b"\x02\0\0\0\0\0\0\0\0\0\0\0\0\0",
        b"",
        "fault keys short 14\n",
    ),
    (
        "a coordinate out of range",
        SPACE,
        b"\x01\0\0\0\0\0\0\0\0\0\x20\0\0\0\0\0\0\0\0\0",
        b"box 0 0 0",
        "fault keys wide 0 2097152\n",
    ),
    (
        "a coordinate out of range before the file ends",
        SPACE,
        b"\x02\0\0\0\0\0\0\0\0\0\0\0\0\0\x20\0",
        b"",
        "fault keys wide 1 2097152\n",
    ),
    (
        "a point without its last coordinate",
        BOX,
        b"\x01\0\0\0\0\0\0\0\x02\0\0\0",
        b"box 0 0 1 1",
        "fault keys short 12\n",
    ),
    (
        "a point cut off before a bad script of centres",
        NEAR,
        b"\x01\0\0\0\0\0\0\0\x02\0\0\0",
        b"near 0",
        "fault keys short 12\n",
    ),
];

const BAD_SCRIPTS: [Refused; 15] = [
    (
        "a line that isn't UTF-8",
        QUERY,
        FOUR,
        b"\xff",
        "fault script 1 utf8\n",
    ),
    (
        "a comment that isn't UTF-8",
        QUERY,
        FOUR,
        b"find 1\n# \xff",
        "fault script 2 utf8\n",
    ),
    (
        "a command of another kind",
        QUERY,
        FOUR,
        b"put 1 1",
        "fault script 1 word\n",
    ),
    (
        "a number past 64 bits",
        QUERY,
        FOUR,
        b"find 18446744073709551616",
        "fault script 1 number\n",
    ),
    (
        "a number missing",
        QUERY,
        FOUR,
        b"\nfind",
        "fault script 2 missing\n",
    ),
    (
        "a word too much",
        QUERY,
        FOUR,
        b"find 1 2",
        "fault script 1 extra\n",
    ),
    (
        "a box without its last coordinate",
        BOX,
        b"\0\0\0\0\0\0\0\0",
        b"box 0 0 1",
        "fault script 1 missing\n",
    ),
    (
        "a box out of range",
        SPACE,
        b"\0\0\0\0\0\0\0\0",
        b"box 0 0 0 1 1 1\nbox 0 0 0 1 1 2097152",
        "fault script 2 number\n",
    ),
    (
        "a centre without a number of points",
        NEAR,
        NO_POINT,
        b"near 1 2",
        "fault script 1 missing\n",
    ),
    (
        "a number of points past 32 bits",
        NEAR,
        NO_POINT,
        b"near 1 2 4294967296",
        "fault script 1 number\n",
    ),
    (
        "a centre out of range",
        "near keys script --dims 4",
        NO_POINT,
        b"near 1 2 3 4 5\nnear 1 2 3 65536 5",
        "fault script 2 number\n",
    ),
    (
        "a box among centres",
        NEAR,
        NO_POINT,
        b"box 1 1 2 2",
        "fault script 1 word\n",
    ),
    (
        "a question about keys in a replay",
        "replay script --levels 20",
        b"",
        b"find 1\n",
        "fault script 1 word\n",
    ),
    (
        "a sweep without its high end",
        "replay script --levels 20",
        b"",
        b"put 1 1\nsweep 1\n",
        "fault script 2 missing\n",
    ),
    (
        "a count of three numbers",
        "replay script --levels 20",
        b"",
        b"count 1 2 3\n",
        "fault script 1 extra\n",
    ),
];

fn check_refused<R: AllocGlobal + Abort + Threads + Wait + Sync>(
    rt: &R,
    rows: &[Refused],
    status: Status,
) -> Result<(), Fail> {
    for (name, words, keys, script, text) in rows {
        let case = Case {
            name: *name,
            words: *words,
            keys: *keys,
            script: *script,
            status,
            text: *text,
        };
        check_calls(rt, case)?;
    }
    Ok(())
}

#[test]
fn words_that_are_no_command(rt: HostRuntime) -> Result<(), Fail> {
    check_refused(&rt, &USAGE, Status::Usage)
}

#[test]
fn files_that_are_not_there(rt: HostRuntime) -> Result<(), Fail> {
    check_refused(&rt, &MISSING, Status::ReadFault)
}

#[test]
fn key_files_have_their_fault_line(rt: HostRuntime) -> Result<(), Fail> {
    check_refused(&rt, &BAD_KEYS, Status::BadKeys)
}

#[test]
fn scripts_have_their_fault_line(rt: HostRuntime) -> Result<(), Fail> {
    check_refused(&rt, &BAD_SCRIPTS, Status::BadScript)
}

fn check_cut<R: AllocGlobal + Abort + Threads + Wait + Sync>(
    rt: &R,
    keys: &[u8],
) -> Result<(), Fail> {
    let len = keys.len();
    let text = format!(in rt.alloc(); "fault keys short {len}\n")?;
    let case = Case {
        name: "cut off",
        words: EXPLAIN,
        keys,
        script: b"",
        status: Status::BadKeys,
        text: &text,
    };
    check_calls(rt, case)
}

#[test]
fn a_key_file_cut_anywhere_is_short(rt: HostRuntime) -> Result<(), Fail> {
    for (len, _) in FOUR.iter().enumerate() {
        check_cut(&rt, &FOUR[..len])?;
    }
    Ok(())
}
