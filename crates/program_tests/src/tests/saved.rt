// Saved indexes, byte by byte from their definition: what `save` writes, and what `check` says of
// the file `script`, which is the saved index here.
use super::*;
use damage::{Case, FOUR, check_calls};

/// The index of the keys 0, 1, 2 and 10 with both error bounds 0.
const FOUR_SAVED: &[u8] = b"PGMINDEX\0\0\0\0\0\0\0\0\x02\0\0\0\
    \x02\0\0\0\0\0\0\0\0\0\0\0\x01\0\0\0\x02\0\0\0\0\x01\0\0\0\x03\0\0\0\x03\0\0\0\x03\0\0\0\0\
    \x01\0\0\0\0\0\0\0\0\0\0\0\x01\0\0\0\0";

/// That index with the side of the first run made over, and with its steep pair told another way.
const OTHER_SIDE: &[u8] = b"PGMINDEX\0\0\0\0\0\0\0\0\x02\0\0\0\
    \x02\0\0\0\0\0\0\0\0\0\0\0\x01\0\0\0\x01\0\0\0\0\x01\0\0\0\x03\0\0\0\x03\0\0\0\x03\0\0\0\0\
    \x01\0\0\0\0\0\0\0\0\0\0\0\x01\0\0\0\0";

const OTHER_PAIR: &[u8] = b"PGMINDEX\0\0\0\0\0\0\0\0\x02\0\0\0\
    \x02\0\0\0\0\0\0\0\0\0\0\0\x02\0\0\0\x02\0\0\0\0\x01\0\0\0\x03\0\0\0\x03\0\0\0\x03\0\0\0\0\
    \x01\0\0\0\0\0\0\0\0\0\0\0\x01\0\0\0\0";

/// The keys 0, 1, 2 and 3, and the same as 0, 1, 2 and 10 of 4 bytes.
const EVEN: &[u8] =
    b"\x04\0\0\0\0\0\0\0\0\0\0\0\0\0\0\0\x01\0\0\0\0\0\0\0\x02\0\0\0\0\0\0\0\x03\0\0\0\0\0\0\0";

const FOUR_NARROW: &[u8] = b"\x04\0\0\0\0\0\0\0\0\0\0\0\x01\0\0\0\x02\0\0\0\x0a\0\0\0";

const NO_KEY: &[u8] = b"\0\0\0\0\0\0\0\0";

const NO_LEVEL: &[u8] = b"PGMINDEX\0\0\0\0\0\0\0\0\0\0\0\0";

const SAVE: &str = "save keys --eps 0 --rec 0";

const CHECK: &str = "check keys script";

/// A name, words, the files `keys` and `script`, and what is written.
type Done = (
    &'static str,
    &'static str,
    &'static [u8],
    &'static [u8],
    &'static [u8],
);

const DONE: [Done; 6] = [
    ("four keys", SAVE, FOUR, b"", FOUR_SAVED),
    (
        "four narrow keys",
        "save keys --narrow --eps 0 --rec 0 --workers 2",
        FOUR_NARROW,
        b"",
        FOUR_SAVED,
    ),
    ("no key", SAVE, NO_KEY, b"", NO_LEVEL),
    (
        "the index of four keys",
        CHECK,
        FOUR,
        FOUR_SAVED,
        b"check levels 2 runs 3\n",
    ),
    (
        "that of four narrow keys",
        "check keys script --narrow",
        FOUR_NARROW,
        FOUR_SAVED,
        b"check levels 2 runs 3\n",
    ),
    (
        "that of no key",
        CHECK,
        NO_KEY,
        NO_LEVEL,
        b"check levels 0 runs 0\n",
    ),
];

/// A name, the files `keys` and `script`, and the fault line of `check`.
type Refused = (&'static str, &'static [u8], &'static [u8], &'static str);

const REFUSED: [Refused; 9] = [
    (
        "the side of another run",
        FOUR,
        OTHER_SIDE,
        "fault index side 49 3\n",
    ),
    ("another pair", FOUR, OTHER_PAIR, "fault index wrong 0\n"),
    ("other keys", EVEN, FOUR_SAVED, "fault index wrong 0\n"),
    (
        "no level for four keys",
        FOUR,
        NO_LEVEL,
        "fault index wrong 0\n",
    ),
    ("no byte", FOUR, b"", "fault index short 0\n"),
    ("no head", FOUR, b"PGMINDEX\0\0", "fault index short 10\n"),
    ("another name", FOUR, b"PGMindex", "fault index magic 3\n"),
    (
        "a bound too great",
        FOUR,
        b"PGMINDEX\x01\0\x10\0",
        "fault index epsilon 1048577\n",
    ),
    (
        "a byte behind the index",
        NO_KEY,
        b"PGMINDEX\0\0\0\0\0\0\0\0\0\0\0\0\x07",
        "fault index trailing 7\n",
    ),
];

#[test]
fn rows_have_their_bytes(rt: HostRuntime) -> Result<(), Fail> {
    for (name, words, keys, script, text) in &DONE {
        let given = Given {
            words: *words,
            keys: *keys,
            script: *script,
        };
        check_at(&rt, *name, given, WHOLE, *text)?;
        check_at(&rt, *name, given, ONE_BYTE, *text)?;
    }
    Ok(())
}

#[test]
fn bad_indexes_have_their_fault_line(rt: HostRuntime) -> Result<(), Fail> {
    for (name, keys, script, text) in &REFUSED {
        let case = Case {
            name: *name,
            words: CHECK,
            keys: *keys,
            script: *script,
            status: Status::BadIndex,
            text: *text,
        };
        check_calls(&rt, case)?;
    }
    Ok(())
}
