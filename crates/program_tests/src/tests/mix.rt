// Updates of several senders: whatever the order in which threads get on, each text is one that may
// be written. It is judged here anew, over scripts whose answers are easily told.
use super::*;
use edge::Place;
use holds::Holds;
use std::sync::atomic::{AtomicU64, Ordering};

const ROWS: [Row; 5] = [
    (
        "one sender",
        "mix script --senders 1",
        "",
        "",
        "put 1 10\nput 2 20\nget 1\n",
        "updates 2\nfrom 0\nfrom 0\nend get 1 10\nlive 2\n",
    ),
    (
        "one update, and the senders that are taken where none are told",
        "mix script",
        "",
        "",
        "put 1 10\nnext 0\n",
        "updates 1\nfrom 0\nend next 0 1 10\nlive 1\n",
    ),
    (
        "no update",
        "mix script --senders 16 --readers 1",
        "",
        "",
        "get 1\n",
        "updates 0\nreader 0 0 get 1 none\nreader 0 last 0\nend get 1 none\nlive 0\n",
    ),
    (
        "no question",
        "mix script --senders 1 --readers 2 --batch 1",
        "",
        "",
        "put 1 10\ndel 1\n",
        "updates 2\nfrom 0\nfrom 0\nreader 0 last 2\nreader 1 last 2\nlive 0\n",
    ),
    ("nothing", "mix script", "", "", "", "updates 0\nlive 0\n"),
];

#[test]
fn rows_have_their_text(rt: HostRuntime) -> Result<(), Fail> {
    let workers = ["--workers 1", "--workers 3"];
    check_rows(&rt, &ROWS, &workers)
}

/// The text of a mix whose threads pass the gate.
fn mixed<R: AllocGlobal + Abort + Threads + Wait + Sync, G: Gate>(
    rt: &R,
    words: &str,
    script: &[u8],
    gate: &G,
) -> Result<Vec<u8>, Fail> {
    let given = Given {
        words,
        keys: b"",
        script,
    };
    let found = observed(rt, given, WHOLE, WHOLE, gate)?;
    assert_eq!(rt; found.status, Status::Done, "{words}");
    Ok(found.written)
}

/// The first sender waits until the second one's update is published. A program that sends in the
/// order of the script never gets there.
#[test]
fn senders_send_at_once(rt: HostRuntime) -> Result<(), Fail> {
    let first = Place::Send { sender: 0, turn: 0 };
    let held = (first, Place::Published(1));
    let gate = Holds::new(held, held);
    let words = "mix script --senders 2 --batch 1";
    let text = mixed(&rt, words, b"put 1 10\nput 1 20\nget 1\n", &gate)?;
    assert!(rt; gate.is_passed());
    let expected = b"updates 2\nfrom 1\nfrom 0\nend get 1 10\nlive 1\n";
    assert_eq!(rt; text.as_slice(), expected.as_slice());
    Ok(())
}

/// A gate that holds two places, and keeps the number of the last publication.
#[derive(Drop)]
struct Counted {
    holds: Holds,
    published: AtomicU64,
}

impl Gate for Counted {
    fn at(&self, place: Place) {
        if let Place::Published(number) = place {
            self.published.store(number, Ordering::SeqCst);
        }
        self.holds.at(place);
    }
}

/// Mixes so many puts of one sender in batches of three. Both holds have to be passed, and there
/// have to be so many publications.
fn check_batches<R: AllocGlobal + Abort + Threads + Wait + Sync>(
    rt: &R,
    count: u64,
    holds: Holds,
    published: u64,
) -> Result<(), Fail> {
    let gate = Counted {
        holds,
        published: AtomicU64::new(0),
    };
    let script = puts(rt, count, (1, 1), (1, 1))?;
    let text = mixed(rt, "mix script --senders 1 --batch 3", &script, &gate)?;
    assert!(rt; gate.holds.is_passed());
    assert_eq!(rt; gate.published.load(Ordering::SeqCst), published);
    let live = format!(in rt.alloc(); "from 0\nlive {count}\n")?;
    assert!(rt; text.ends_with(live.as_bytes()), "{text:?}");
    Ok(())
}

/// The sender waits with its second update until the first is published, and with its third until
/// the second is. A writer that waits for whole batches, or publishes at the end, never gets there.
#[test]
fn an_update_by_itself_is_published(rt: HostRuntime) -> Result<(), Fail> {
    let second = Place::Send { sender: 0, turn: 1 };
    let third = Place::Send { sender: 0, turn: 2 };
    let holds = Holds::new((second, Place::Published(1)), (third, Place::Published(2)));
    check_batches(&rt, 3, holds, 3)
}

/// The writer waits, its first update published, until the sender has sent three more and is about
/// to send the fifth. They are one batch, and the fifth the next.
#[test]
fn updates_that_wait_are_published_at_once(rt: HostRuntime) -> Result<(), Fail> {
    let second = Place::Send { sender: 0, turn: 1 };
    let fifth = Place::Send { sender: 0, turn: 4 };
    let first = Place::Published(1);
    let holds = Holds::new((second, first), (first, fifth));
    check_batches(&rt, 5, holds, 3)
}

/// What a script of puts to the key 1 is mixed with: the batch, readers, senders, how many puts
/// there are, of the values 1 and up, and how often the key is asked for.
type Mix = (u64, u64, u64, u64, u64);

const MIXES: [Mix; 8] = [
    (1, 1, 1, 20, 3),
    (1, 1, 2, 300, 20),
    (65_536, 16, 16, 300, 5),
    (7, 16, 16, 1000, 4),
    (16, 1, 3, 0, 4),
    (16, 16, 2, 200, 0),
    (3, 2, 16, 5, 2),
    (16, 0, 5, 137, 1),
];

fn number(word: Option<&str>) -> Option<u64> {
    word?.parse::<u64>().ok()
}

/// The two numbers behind the words, and that no word stands behind them.
fn ends_with(line: &str, before: &str) -> Option<u64> {
    number(line.strip_prefix(before))
}

/// The values of all puts in the order in which they came, by the lines that tell their senders:
/// the next value of a sender is so many above the one before.
fn values_of<'a, R: AllocGlobal + Abort>(
    rt: &R,
    lines: &mut std::str::Lines<'a>,
    (_, _, senders, count, _): Mix,
) -> Result<Vec<u64>, Fail> {
    let mut next = Vec::new(rt.alloc());
    for sender in 0..senders {
        next.push(sender + 1)?;
    }
    let mut values = Vec::new(rt.alloc());
    for _update in 0..count {
        let line = lines.next().unwrap_or("");
        let Some(sender) = ends_with(line, "from ") else {
            return Err(Fail::from("a line that tells no sender"));
        };
        let Some(value) = next.get_mut(sender as usize) else {
            return Err(Fail::from("a sender that isn't there"));
        };
        values.push(*value)?;
        *value = value.saturating_add(senders);
    }
    for (sender, value) in next.iter().enumerate() {
        let dealt = count
            .saturating_add(senders)
            .saturating_sub(sender as u64 + 1)
            / senders.max(1);
        let sent = value.saturating_sub(sender as u64 + 1) / senders.max(1);
        assert_eq!(rt; sent, dealt, "{sender}");
    }
    Ok(values)
}

/// The answer after so many updates.
fn answer_after<R: AllocGlobal>(rt: &R, values: &[u64], length: u64) -> Result<String, Fail> {
    match values.get((length as usize).wrapping_sub(1)) {
        Some(value) => Ok(format!(in rt.alloc(); "get 1 {value}")?),
        None => Ok(format!(in rt.alloc(); "get 1 none")?),
    }
}

/// After how many updates the answer of a reader's line is.
fn length_in(line: &str, reader: u64) -> Option<u64> {
    let mut words = line.split(' ');
    if words.next() != Some("reader") || number(words.next()) != Some(reader) {
        return None;
    }
    number(words.next())
}

/// Judges a reader's lines: each answer is after so many updates, and after no fewer than the one
/// before.
fn judge_reader<'a, R: AllocGlobal + Abort>(
    rt: &R,
    lines: &mut std::str::Lines<'a>,
    reader: u64,
    values: &[u64],
    asked: u64,
) -> Result<(), Fail> {
    let mut least = 0;
    for _question in 0..asked {
        let line = lines.next().unwrap_or("");
        let Some(length) = length_in(line, reader) else {
            return Err(Fail::from("a line that is none of the reader's"));
        };
        assert!(rt; least <= length && length <= values.len() as u64, "{line}");
        let answer = answer_after(rt, values, length)?;
        let due = format!(in rt.alloc(); "reader {reader} {length} {answer}")?;
        assert_eq!(rt; line, due.as_str());
        least = length;
    }
    Ok(())
}

/// Judges the text, line by line.
fn judge<R: AllocGlobal + Abort>(rt: &R, text: &str, row: Mix) -> Result<(), Fail> {
    let (_, readers, _, count, asked) = row;
    let mut lines = text.lines();
    let first = format!(in rt.alloc(); "updates {count}")?;
    assert_eq!(rt; lines.next(), Some(first.as_str()));
    let values = values_of(rt, &mut lines, row)?;
    for reader in 0..readers {
        judge_reader(rt, &mut lines, reader, &values, asked)?;
    }
    for reader in 0..readers {
        let last = format!(in rt.alloc(); "reader {reader} last {count}")?;
        assert_eq!(rt; lines.next(), Some(last.as_str()));
    }
    let answer = answer_after(rt, &values, count)?;
    let end = format!(in rt.alloc(); "end {answer}")?;
    for _question in 0..asked {
        assert_eq!(rt; lines.next(), Some(end.as_str()));
    }
    let live = if count == 0 { "live 0" } else { "live 1" };
    assert_eq!(rt; lines.next(), Some(live));
    assert!(rt; lines.next().is_none(), "{text}");
    Ok(())
}

fn check_mix<R: AllocGlobal + Abort + Threads + Wait + Sync>(rt: &R, row: Mix) -> Result<(), Fail> {
    let (batch, readers, senders, count, asked) = row;
    let mut script = puts(rt, count, (1, 0), (1, 1))?;
    for _question in 0..asked {
        script.extend_from_slice(b"get 1\n")?;
    }
    let words = format!(in rt.alloc();
        "mix script --batch {batch} --readers {readers} --senders {senders}"
    )?;
    let bytes = mixed(rt, &words, &script, &OpenGate)?;
    match std::str::from_utf8(&bytes) {
        Ok(text) => judge(rt, text, row),
        Err(_) => Err(Fail::from("no text")),
    }
}

#[test]
fn senders_readers_and_batches_of_every_size(rt: HostRuntime) -> Result<(), Fail> {
    for _round in 0..8 {
        for row in &MIXES {
            check_mix(&rt, *row)?;
        }
    }
    Ok(())
}

/// A name, the words, the script, the status and what is written.
type Refusal = (
    &'static str,
    &'static str,
    &'static [u8],
    Status,
    &'static [u8],
);

const REFUSALS: [Refusal; 4] = [
    (
        "a sweep",
        "mix script",
        b"put 1 1\nsweep 1 2\n",
        Status::BadScript,
        b"fault script 2 word\n",
    ),
    (
        "no sender",
        "mix script --senders 0",
        b"",
        Status::Usage,
        b"fault usage\n",
    ),
    (
        "too many senders",
        "mix script --senders 17",
        b"",
        Status::Usage,
        b"fault usage\n",
    ),
    (
        "senders of a replay",
        "replay script --senders 2",
        b"",
        Status::Usage,
        b"fault usage\n",
    ),
];

#[test]
fn refusals_have_their_line(rt: HostRuntime) -> Result<(), Fail> {
    for (name, words, script, status, line) in &REFUSALS {
        let given = Given {
            words,
            keys: b"",
            script,
        };
        let found = observed(&rt, given, WHOLE, WHOLE, &OpenGate)?;
        expect(&rt, name, 0, &found, *status, line);
    }
    Ok(())
}

/// A map of one level has room for 127 updates.
#[test]
fn as_many_updates_as_the_map_has_room_for(rt: HostRuntime) -> Result<(), Fail> {
    let words = "mix script --levels 1 --senders 16 --batch 5";
    let fits = puts(&rt, 127, (1, 1), (1, 1))?;
    let text = mixed(&rt, words, &fits, &OpenGate)?;
    assert!(rt; text.ends_with(b"live 127\n"));
    let script = puts(&rt, 128, (1, 1), (1, 1))?;
    let given = Given {
        words,
        keys: b"",
        script: &script,
    };
    let found = observed(&rt, given, WHOLE, WHOLE, &OpenGate)?;
    expect(
        &rt,
        "one more",
        0,
        &found,
        Status::Full,
        b"fault full 128 127\n",
    );
    Ok(())
}
