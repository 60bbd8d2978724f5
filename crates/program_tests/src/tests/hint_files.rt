// Hints, by hand from their format, and what `find` answers whatever a file of hints holds:
// the texts are those of the keys and the script alone.
use super::*;
use damage::FOUR;

/// The hints of the keys 0, 1, 2 and 10 with the error bound 0: a head, a table of three numbers,
/// and two lines.
const FOUR_HINTS: &[u8] = b"KBQHINT1\0\0\0\0\0\0\0\0\
    \x02\0\0\0\0\0\0\0\x03\0\0\0\0\0\0\0\x02\0\0\0\0\0\0\0\0\0\0\0\0\0\0\0\
    \0\0\0\0\0\0\0\0\x01\0\0\0\0\0\0\0\x01\0\0\0\0\0\0\0\
    \0\0\0\0\0\0\0\0\x08\0\0\0\0\0\0\0\x03\0\0\0\0\0\0\0\
    \x0a\0\0\0\0\0\0\0\0\0\0\0\0\0\0\0\x81\x01\0\0\0\0\0\0";

const FOUR_NARROW: &[u8] = b"\x04\0\0\0\0\0\0\0\0\0\0\0\x01\0\0\0\x02\0\0\0\x0a\0\0\0";

/// The keys 5 and 4.
const FALLING: &[u8] = b"\x02\0\0\0\0\0\0\0\x05\0\0\0\0\0\0\0\x04\0\0\0\0\0\0\0";

const NO_KEY: &[u8] = b"\0\0\0\0\0\0\0\0";

const FIND: &str = "find keys hints script";

const ASKED: &[u8] = b"find 0\nfind 1\nfind 3\nfind 11\n";

const ANSWERED: &[u8] = b"find 0 0\nfind 1 1\nfind 3 3\nfind 11 4\n";

/// A run over the files `keys`, `hints` and `script`. Where there are no bytes of hints, there is
/// no such file.
#[derive(Clone, Copy)]
struct Asked<'a> {
    words: &'a str,
    keys: &'a [u8],
    hints: Option<&'a [u8]>,
    script: &'a [u8],
}

/// What comes of it over such a shelf.
fn seen<R: AllocGlobal + Threads + Wait + Sync>(
    rt: &R,
    asked: Asked<'_>,
    device: Device,
) -> Result<Seen, Fail> {
    let mut files = Vec::new(rt.alloc());
    files.push(named(rt, "keys", asked.keys)?)?;
    files.push(named(rt, "script", asked.script)?)?;
    if let Some(hints) = asked.hints {
        files.push(named(rt, "hints", hints)?)?;
    }
    let failing = vec![in rt.alloc(); device.failing]?;
    let mut shelf = MemShelf::new(files, failing, device.most.max(1));
    let mut sink = MemSink::new(rt.alloc(), 65_536, Vec::new(rt.alloc()), device.most.max(1))?;
    let words = words_of(rt, asked.words)?;
    let status = run(rt, &words, &mut shelf, &mut sink, &OpenGate);
    Ok(Seen {
        status,
        written: sink.bytes().to_vec(rt.alloc())?,
        reads: shelf.calls(),
        puts: sink.calls(),
    })
}

/// The text over devices that move much at a time and over such that move a byte.
fn check_text<R: AllocGlobal + Abort + Threads + Wait + Sync>(
    rt: &R,
    name: &str,
    asked: Asked<'_>,
    text: &[u8],
) -> Result<(), Fail> {
    expect(rt, name, 0, &seen(rt, asked, WHOLE)?, Status::Done, text);
    expect(rt, name, 0, &seen(rt, asked, ONE_BYTE)?, Status::Done, text);
    Ok(())
}

/// The hints that `hints` makes of keys.
fn made<'a, R: AllocGlobal + Abort + Threads + Wait + Sync>(
    rt: &R,
    keys: &'a [u8],
    words: &'a str,
) -> Result<Vec<u8>, Fail> {
    let asked = Asked {
        words,
        keys,
        hints: None,
        script: b"",
    };
    let found = seen(rt, asked, WHOLE)?;
    assert_eq!(rt; found.status, Status::Done);
    Ok(found.written)
}

#[test]
fn hints_have_their_bytes(rt: HostRuntime) -> Result<(), Fail> {
    for (words, keys) in [
        ("hints keys --eps 0", FOUR),
        ("hints keys --narrow --eps=0", FOUR_NARROW),
    ] {
        let asked = Asked {
            words,
            keys,
            hints: None,
            script: b"",
        };
        check_text(&rt, words, asked, FOUR_HINTS)?;
    }
    Ok(())
}

/// The error bound where no other is given, and one line for all keys that it takes in.
#[test]
fn hints_have_their_error_bound(rt: HostRuntime) -> Result<(), Fail> {
    let head = b"KBQHINT1\x20\0\0\0\0\0\0\0\x01\0\0\0\0\0\0\0";
    let hints = made(&rt, FOUR, "hints keys")?;
    assert!(rt; hints.starts_with(head));
    assert_eq!(rt; hints.len() % 8, 0);
    Ok(())
}

/// A name, the words of `find`, the numbers of the file of keys, the script, and the text.
type Answered = (&'static str, &'static str, &'static str, &'static str);

const ROWS: [Answered; 6] = [
    (
        "four keys",
        "4 0 1 2 10",
        "find 0\nfind 1\nfind 3\nfind 11\n",
        "find 0 0\nfind 1 1\nfind 3 3\nfind 11 4\n",
    ),
    (
        "a repeated key",
        "4 7 7 7 9",
        "find 7\nfind 8\nfind 9\nfind 6\nfind 10\n",
        "find 7 0\nfind 8 3\nfind 9 3\nfind 6 0\nfind 10 4\n",
    ),
    (
        "no key",
        "0",
        "find 0\nfind 18446744073709551615\n",
        "find 0 0\nfind 18446744073709551615 0\n",
    ),
    (
        "the ends of keys",
        "2 0 18446744073709551615",
        "find 0\nfind 1\nfind 18446744073709551615\n",
        "find 0 0\nfind 1 1\nfind 18446744073709551615 1\n",
    ),
    (
        "the greatest key twice",
        "3 5 18446744073709551615 18446744073709551615",
        "find 5\nfind 6\nfind 18446744073709551615\n",
        "find 5 0\nfind 6 1\nfind 18446744073709551615 1\n",
    ),
    ("no question", "1 5", "# find 5\n\n", ""),
];

/// Over the hints of the keys themselves, over those of others, and over what is no hints.
#[test]
fn finds_are_answered_whatever_the_hints(rt: HostRuntime) -> Result<(), Fail> {
    let zeros = [0u8; 120];
    let ones = [255u8; 120];
    let others = made(&rt, &file_of(&rt, "3 5 6 7", "")?, "hints keys --eps 0")?;
    for (name, keys, script, text) in &ROWS {
        let keys = file_of(&rt, *keys, "")?;
        let exact = made(&rt, &keys, "hints keys --eps 0")?;
        let wide = made(&rt, &keys, "hints keys --eps 1048576")?;
        let all: [&[u8]; 8] = [
            b"",
            b"KBQHINT1",
            &zeros,
            &ones,
            &others,
            FOUR_HINTS,
            &exact,
            &wide,
        ];
        for hints in all {
            let asked = Asked {
                words: FIND,
                keys: &keys,
                hints: Some(hints),
                script: script.as_bytes(),
            };
            check_text(&rt, *name, asked, text.as_bytes())?;
        }
    }
    Ok(())
}

/// What is asked of the four keys, with these hints.
fn of_four<'a>(hints: &'a [u8]) -> Asked<'a> {
    Asked {
        words: FIND,
        keys: FOUR,
        hints: Some(hints),
        script: ASKED,
    }
}

#[test]
fn finds_are_answered_over_hints_cut_anywhere(rt: HostRuntime) -> Result<(), Fail> {
    for end in 0..FOUR_HINTS.len() + 1 {
        let cut = &FOUR_HINTS[..end];
        let found = seen(&rt, of_four(cut), WHOLE)?;
        expect(&rt, "cut", end as u64, &found, Status::Done, ANSWERED);
    }
    Ok(())
}

/// Every fifth byte is changed in three ways.
#[test]
fn finds_are_answered_over_changed_hints(rt: HostRuntime) -> Result<(), Fail> {
    let mut hints = FOUR_HINTS.to_vec(rt.alloc())?;
    for at in 0..hints.len() {
        if at % 5 != 0 {
            continue;
        }
        let right = hints[at];
        for change in [1u8, 128, 255] {
            hints[at] = right ^ change;
            let found = seen(&rt, of_four(&hints), WHOLE)?;
            expect(&rt, "changed", at as u64, &found, Status::Done, ANSWERED);
        }
        hints[at] = right;
    }
    Ok(())
}

/// Four hints a key and 4,096 are taken of a file of hints; one byte more makes it none. Narrow
/// keys have the same answers.
#[test]
fn finds_are_answered_over_too_many_hints(rt: HostRuntime) -> Result<(), Fail> {
    let room = 8 * (4 * 4 + 4_096);
    let mut hints = vec![in rt.alloc(); 255u8; room]?;
    hints[..FOUR_HINTS.len()].copy_from_slice(FOUR_HINTS);
    check_text(&rt, "as many as are taken", of_four(&hints), ANSWERED)?;
    hints.push(0)?;
    check_text(&rt, "one byte too many", of_four(&hints), ANSWERED)?;
    let narrow = Asked {
        words: "find --narrow keys hints script",
        keys: FOUR_NARROW,
        ..of_four(FOUR_HINTS)
    };
    check_text(&rt, "narrow keys", narrow, ANSWERED)
}

/// Each call on the files refused in turn.
#[test]
fn files_that_fail_are_told(rt: HostRuntime) -> Result<(), Fail> {
    for most in [65_536, 16] {
        let asked = of_four(FOUR_HINTS);
        let all = seen(&rt, asked, Device { failing: 0, most })?;
        expect(&rt, "failing", 0, &all, Status::Done, ANSWERED);
        for failing in 1..all.reads.saturating_add(1) {
            let found = seen(&rt, asked, Device { failing, most })?;
            expect(
                &rt,
                "failing",
                failing,
                &found,
                Status::ReadFault,
                b"fault read\n",
            );
        }
    }
    Ok(())
}

/// The file of keys is judged first, then that of hints, then the script.
#[test]
fn the_first_bad_file_is_told(rt: HostRuntime) -> Result<(), Fail> {
    let none = Asked {
        hints: None,
        ..of_four(b"")
    };
    let found = seen(&rt, none, WHOLE)?;
    expect(
        &rt,
        "no hints",
        0,
        &found,
        Status::ReadFault,
        b"fault read\n",
    );
    let short = Asked {
        keys: b"\x01",
        script: b"find",
        ..none
    };
    let found = seen(&rt, short, WHOLE)?;
    expect(
        &rt,
        "no keys",
        0,
        &found,
        Status::BadKeys,
        b"fault keys short 1\n",
    );
    let bare = Asked {
        script: b"find",
        ..none
    };
    let found = seen(&rt, bare, WHOLE)?;
    expect(
        &rt,
        "no hints and no script",
        0,
        &found,
        Status::ReadFault,
        b"fault read\n",
    );
    let bare = Asked {
        hints: Some(b"any"),
        ..bare
    };
    let found = seen(&rt, bare, WHOLE)?;
    expect(
        &rt,
        "no script",
        0,
        &found,
        Status::BadScript,
        b"fault script 1 missing\n",
    );
    let falling = Asked {
        words: "hints keys",
        keys: FALLING,
        ..none
    };
    let found = seen(&rt, falling, WHOLE)?;
    expect(
        &rt,
        "falling",
        0,
        &found,
        Status::BadKeys,
        b"fault keys unsorted 1 5 4\n",
    );
    Ok(())
}
