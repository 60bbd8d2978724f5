// What comes of a run when each of its calls is refused in turn: texts break off there, and files
// that can't be read have their fault line. Texts are worked out by hand.
use super::*;

/// A run, and what comes where no call is refused.
#[derive(Clone, Copy)]
pub struct Case<'a> {
    pub name: &'static str,
    pub words: &'static str,
    pub keys: &'a [u8],
    pub script: &'a [u8],
    pub status: Status,
    pub text: &'a str,
}

impl<'a> Case<'a> {
    fn given(self) -> Given<'a> {
        Given {
            words: self.words,
            keys: self.keys,
            script: self.script,
        }
    }
}

pub const EXPLAIN: &str = "explain keys --eps 0 --rec 0";

/// The keys 0, 1, 2 and 10.
pub const FOUR: &[u8] =
    b"\x04\0\0\0\0\0\0\0\0\0\0\0\0\0\0\0\x01\0\0\0\0\0\0\0\x02\0\0\0\0\0\0\0\x0a\0\0\0\0\0\0\0";

/// The squares of 0 to 5.
pub const SQUARES: &[u8] = b"\x06\0\0\0\0\0\0\0\
    \0\0\0\0\0\0\0\0\x01\0\0\0\0\0\0\0\x04\0\0\0\0\0\0\0\
    \x09\0\0\0\0\0\0\0\x10\0\0\0\0\0\0\0\x19\0\0\0\0\0\0\0";

/// The points of the square of side 4, in no order.
const SIDE_4: &[u8] = b"\x10\0\0\0\0\0\0\0\
    \x03\0\0\0\x03\0\0\0\0\0\0\0\0\0\0\0\
    \x02\0\0\0\x01\0\0\0\x01\0\0\0\x02\0\0\0\
    \0\0\0\0\x03\0\0\0\x03\0\0\0\0\0\0\0\
    \x01\0\0\0\x01\0\0\0\x02\0\0\0\x02\0\0\0\
    \0\0\0\0\x01\0\0\0\x01\0\0\0\0\0\0\0\
    \x03\0\0\0\x01\0\0\0\x01\0\0\0\x03\0\0\0\
    \x02\0\0\0\0\0\0\0\0\0\0\0\x02\0\0\0\
    \x03\0\0\0\x02\0\0\0\x02\0\0\0\x03\0\0\0";

/// Keys of 32 bits: 5 and 9.
const NARROW: &[u8] = b"\x02\0\0\0\0\0\0\0\x05\0\0\0\x09\0\0\0";

/// Words, the files `keys` and `script`, and the text.
const TEXTS: [(&str, &[u8], &[u8], &str); 12] = [
    (
        EXPLAIN,
        FOUR,
        b"",
        "keys 4 distinct 4 levels 2\nlevel 0 list 4 eps 0 runs 2\n\
            run 0 3 pair 0 1 line 0 0 1 1 cut under 0 1 3\nrun 3 4 pair 3 3 line 10 3 0 1 end\n\
            level 1 list 2 eps 0 runs 1\nrun 0 2 pair 0 1 line 0 0 1 10 end\n",
    ),
    (
        "query keys script --eps 0 --rec 0 --windows",
        SQUARES,
        b"find 17\n",
        "find 17 5\nwindow 2 0 2\nwindow 1 1 3\nwindow 0 3 5\n",
    ),
    (
        "box keys script",
        SIDE_4,
        b"box 1 1 2 2\n",
        "box 4 8\npoint 3 1 1\npoint 6 2 1\npoint 9 1 2\npoint 12 2 2\n",
    ),
    (
        "box keys script",
        b"\x01\0\0\0\0\0\0\0\x02\0\0\0\x01\0\0\0",
        b"box 0 0 3 3",
        "box 1 1\npoint 6 2 1\n",
    ),
    (
        "near keys script",
        SIDE_4,
        b"near 0 0 3\n",
        "near 3 2\npoint 0 0 0 0\npoint 1 1 1 0\npoint 2 1 0 1\n",
    ),
    (
        "replay script --batch 1",
        b"",
        b"put 1 10\nput 2 20\nget 1\nget 2\n",
        "updates 2\nend get 1 10\nend get 2 20\nlive 2\n",
    ),
    (
        "drill 2 1",
        b"",
        b"",
        "drill 2 1\nkeys 2 distinct 2 levels 1 runs 1\nfinds 2 sum 1\n\
            points 2 found 0 looked 2\nupdates 2 live 2\n",
    ),
    ("query keys script", FOUR, b"find 007\r", "find 7 3\n"),
    (
        "query keys script --narrow --buckets 0",
        NARROW,
        b"find 6\n",
        "find 6 1\n",
    ),
    (
        "query keys script --narrow --buckets 1",
        NARROW,
        b"find 6\n",
        "find 6 1\n",
    ),
    (
        "query keys script --narrow --buckets 4",
        NARROW,
        b"find 6\n",
        "find 6 1\n",
    ),
    (
        "query keys script --narrow --buckets 20",
        NARROW,
        b"find 6\n",
        "find 6 1\n",
    ),
];

/// Past any run's number of calls.
const MANY: u64 = 4096;

/// The shelf's calls fail in turn: each leaves one fault line, until a run makes fewer calls.
pub fn check_reads<R: AllocGlobal + Abort + Threads + Wait + Sync>(
    rt: &R,
    case: Case<'_>,
    device: Device,
) -> Result<(), Fail> {
    for failing in 1..MANY {
        let reading = Device { failing, ..device };
        let found = observed(rt, case.given(), reading, WHOLE, &OpenGate)?;
        if found.reads < failing {
            let text = case.text.as_bytes();
            expect(rt, case.name, failing, &found, case.status, text);
            assert_eq!(rt; found.reads, failing - 1);
            return Ok(());
        }
        let fault = b"fault read\n";
        expect(rt, case.name, failing, &found, Status::ReadFault, fault);
        assert_eq!(rt; found.reads, failing);
    }
    assert!(rt; false, "{}: reads without end", case.name);
    Ok(())
}

/// What so many puts take of a text: a text line each, or a byte each.
fn front_of<R: AllocGlobal>(rt: &R, text: &str, calls: u64, most: usize) -> Result<Vec<u8>, Fail> {
    let mut front = Vec::new(rt.alloc());
    let mut taken = 0u64;
    for byte in text.as_bytes() {
        if taken >= calls {
            break;
        }
        front.push(*byte)?;
        if most == 1 || *byte == b'\n' {
            taken += 1;
        }
    }
    Ok(front)
}

/// The sink's calls fail in turn: each leaves what the calls before it took, until they took all. A
/// text then ends as a fault of writing, and the fault line of a refusal leaves its status.
pub fn check_puts<R: AllocGlobal + Abort + Threads + Wait + Sync>(
    rt: &R,
    case: Case<'_>,
    device: Device,
) -> Result<(), Fail> {
    let broken = match case.status {
        Status::Done => Status::WriteFault,
        refused => refused,
    };
    for failing in 1..MANY {
        let writing = Device { failing, ..device };
        let found = observed(rt, case.given(), WHOLE, writing, &OpenGate)?;
        let front = front_of(rt, case.text, failing - 1, device.most)?;
        if front.len() == case.text.len() {
            expect(rt, case.name, failing, &found, case.status, &front);
            assert_eq!(rt; found.puts, failing - 1);
            return Ok(());
        }
        expect(rt, case.name, failing, &found, broken, &front);
        assert_eq!(rt; found.puts, failing);
    }
    assert!(rt; false, "{}: puts without end", case.name);
    Ok(())
}

/// Each call refused in turn, of devices that move much at a time and of such that move a byte.
pub fn check_calls<R: AllocGlobal + Abort + Threads + Wait + Sync>(
    rt: &R,
    case: Case<'_>,
) -> Result<(), Fail> {
    check_reads(rt, case, WHOLE)?;
    check_puts(rt, case, WHOLE)?;
    check_reads(rt, case, ONE_BYTE)?;
    check_puts(rt, case, ONE_BYTE)
}

#[test]
fn texts_break_off_at_a_refused_call(rt: HostRuntime) -> Result<(), Fail> {
    for (words, keys, script, text) in &TEXTS {
        let case = Case {
            name: *words,
            words: *words,
            keys: *keys,
            script: *script,
            status: Status::Done,
            text: *text,
        };
        check_calls(&rt, case)?;
    }
    Ok(())
}
