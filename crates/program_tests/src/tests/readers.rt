// Readers beside the writer: whatever the order in which threads get on, each line is one that may
// be written. The lines are judged here anew, over scripts whose answers are easily told.
use super::*;
use edge::Place;
use holds::Holds;

/// The text of a replay whose threads pass the gate.
fn replayed<R: AllocGlobal + Abort + Threads + Wait + Sync, G: Gate>(
    rt: &R,
    words: &str,
    script: &[u8],
    gate: &G,
) -> Result<Vec<u8>, Fail> {
    let given = Given {
        words,
        keys: b"",
        script,
    };
    let found = observed(rt, given, WHOLE, WHOLE, gate)?;
    assert_eq!(rt; found.status, Status::Done, "{words}");
    Ok(found.written)
}

/// Whether the text is one of these, each with the same first and last lines.
fn is_one_of<R: AllocGlobal>(
    rt: &R,
    text: &[u8],
    first: &str,
    between: &[&str],
    last: &str,
) -> Result<bool, Fail> {
    for lines in between {
        if format!(in rt.alloc(); "{first}{lines}{last}")?.as_bytes() == text {
            return Ok(true);
        }
    }
    Ok(false)
}

/// The first publication waits for the first reader, and that one for the second publication.
#[test]
fn a_reader_that_begins_late_sees_all(rt: HostRuntime) -> Result<(), Fail> {
    let look = Place::Look { reader: 0, turn: 0 };
    let gate = Holds::new((Place::Published(1), look), (look, Place::Published(2)));
    let words = "replay script --batch 1 --readers 2";
    let script = b"put 1 10\nput 2 20\nget 1\nget 2\n";
    let text = replayed(&rt, words, script, &gate)?;
    assert!(rt; gate.is_passed());
    let first = "updates 2\nreader 0 2 get 1 10\nreader 0 2 get 2 20\n";
    let between = [
        "reader 1 0 get 1 none\nreader 1 0 get 2 none\n",
        "reader 1 0 get 1 none\nreader 1 1 get 2 none\n",
        "reader 1 0 get 1 none\nreader 1 2 get 2 20\n",
        "reader 1 1 get 1 10\nreader 1 1 get 2 none\n",
        "reader 1 1 get 1 10\nreader 1 2 get 2 20\n",
        "reader 1 2 get 1 10\nreader 1 2 get 2 20\n",
    ];
    let last = "reader 0 last 2\nreader 1 last 2\nend get 1 10\nend get 2 20\nlive 2\n";
    let is_told = is_one_of(&rt, &text, first, &between, last)?;
    assert!(rt; is_told, "{text:?}");
    Ok(())
}

/// The reader waits until a level is being built, and the building until the reader's next look.
#[test]
fn a_look_is_answered_while_a_level_is_built(rt: HostRuntime) -> Result<(), Fail> {
    let look = Place::Look { reader: 0, turn: 0 };
    let next = Place::Look { reader: 0, turn: 1 };
    let begun = Place::PieceBegun(0);
    let gate = Holds::new((look, begun), (begun, next));
    let words = "replay script --levels 4 --batch 64 --readers 1 --workers 2";
    let mut script = puts(&rt, 64, (0, 1), (7, 0))?;
    script.extend_from_slice(b"get 5\nget 6\n")?;
    let text = replayed(&rt, words, &script, &gate)?;
    assert!(rt; gate.is_passed());
    let first = "updates 64\nreader 0 0 get 5 none\n";
    let between = ["reader 0 0 get 6 none\n", "reader 0 64 get 6 7\n"];
    let last = "reader 0 last 64\nend get 5 7\nend get 6 7\nlive 64\n";
    let is_told = is_one_of(&rt, &text, first, &between, last)?;
    assert!(rt; is_told, "{text:?}");
    Ok(())
}

fn number(word: Option<&str>) -> Option<u64> {
    word?.parse::<u64>().ok()
}

/// What `reader R K get 1 V` tells, with 0 for no value.
fn told(line: &str) -> Option<(u64, u64, u64)> {
    let mut words = line.split(' ');
    if words.next() != Some("reader") {
        return None;
    }
    let reader = number(words.next())?;
    let length = number(words.next())?;
    if words.next() != Some("get") || words.next() != Some("1") {
        return None;
    }
    let value = match words.next()? {
        "none" => 0,
        word => number(Some(word))?,
    };
    if words.next().is_some() {
        return None;
    }
    Some((reader, length, value))
}

/// Batches, readers, and how often the key 1 is put, to 1 and up, and asked for.
type Counted = (u64, u64, u64, u64);

const COUNTED: [Counted; 6] = [
    (1, 1, 20, 5),
    (7, 16, 300, 20),
    (65_536, 16, 300, 5),
    (3, 1, 0, 4),
    (16, 16, 100, 0),
    (16, 0, 100, 3),
];

/// Judges a reader's line, whose last one was at that length: after so many updates the value is
/// their number.
fn judge<R: AllocGlobal + Abort>(
    rt: &R,
    line: &str,
    reader: u64,
    least: u64,
    (batch, _, count, _): Counted,
) -> Result<u64, Fail> {
    let Some((number, length, value)) = told(line) else {
        return Err(Fail::from("a line that is none of a reader's"));
    };
    let whole = length.checked_rem(batch) == Some(0) && length <= count;
    assert_eq!(rt; (number, value), (reader, length), "{line}");
    assert!(rt; (whole || length == count) && least <= length, "{line}");
    Ok(length)
}

/// Judges the text, line by line.
fn judge_all<R: AllocGlobal + Abort>(rt: &R, text: &str, row: Counted) -> Result<(), Fail> {
    let (_, readers, count, asked) = row;
    let mut lines = text.lines().skip(1);
    for reader in 0..readers {
        let mut least = 0;
        for _question in 0..asked {
            least = judge(rt, lines.next().unwrap_or(""), reader, least, row)?;
        }
    }
    for reader in 0..readers {
        let last = format!(in rt.alloc(); "reader {reader} last {count}")?;
        assert_eq!(rt; lines.next(), Some(last.as_str()));
    }
    for _question in 0..asked {
        assert!(rt; lines.next().is_some(), "{text}");
    }
    assert!(rt; lines.next().is_some() && lines.next().is_none(), "{text}");
    Ok(())
}

fn check_counted<R: AllocGlobal + Abort + Threads + Wait + Sync>(
    rt: &R,
    row: Counted,
) -> Result<(), Fail> {
    let (batch, readers, count, asked) = row;
    let mut script = puts(rt, count, (1, 0), (1, 1))?;
    for _question in 0..asked {
        script.extend_from_slice(b"get 1\n")?;
    }
    let words = format!(in rt.alloc(); "replay script --batch {batch} --readers {readers}")?;
    let bytes = replayed(rt, &words, &script, &OpenGate)?;
    match std::str::from_utf8(&bytes) {
        Ok(text) => judge_all(rt, text, row),
        Err(_) => Err(Fail::from("no text")),
    }
}

#[test]
fn readers_and_batches_of_every_size(rt: HostRuntime) -> Result<(), Fail> {
    for row in &COUNTED {
        check_counted(&rt, *row)?;
    }
    Ok(())
}
