//! Rows by hand, and readers beside the writer in threads of their own.

ghost use Rattle.std.specs.Prelude.{◌≡◌};

use edge::OpenGate;
use log_levels::{MapFault, Update};
use options::Workers;
use published::{Door, Look, PlainDoor, Reader, ShutDoor, Writer, start_map};
use std::alloc::Global;
use std::process::Abort;
use std::sync::Wait;
use std::test::Fail;
use std::thread;
use std::thread::Threads;

/// How often a reader looks again before a test fails.
const TURNS: u64 = 1_000_000;

/// How many looks a reader takes beside the writer, if that isn't done before.
const LOOKS: u64 = 100_000;

/// Stages and publishes, and answers the published length.
fn push<R: Threads + Wait + Sync>(
    rt: &R,
    alloc: Global,
    writer: &mut Writer,
    updates: &[Update],
) -> Option<u64>
    ensures own { writer.new.origin ≡ writer.old.origin }
{
    if writer
        .stage(rt, alloc, updates, Workers { count: 2 }, &OpenGate)
        .is_err()
    {
        return None;
    }
    writer.publish(rt).ok()
}

/// Looks until the reader is let in.
fn look(reader: Reader) -> Option<Look> {
    let mut reader = reader;
    let mut refusals = 0;
    for _turn in 0..TURNS {
        match reader.look(&mut refusals) {
            Ok(look) => return Some(look),
            Err(back) => reader = back,
        }
    }
    None
}

#[test]
fn a_note_is_seen(rt: HostRuntime) -> Result<(), Fail> {
    let many = Vec::from_elem(rt.alloc(), Update::Put(1, 1), 128)?;
    let mut shut = ShutDoor::new(Vec::from_slice(rt.alloc(), &[1])?);
    let mut plain = PlainDoor::new();
    let (mut writer, mut readers) = start_map(&rt, rt.alloc(), 1, 1)?;
    let full = writer.stage(&rt, rt.alloc(), &many, Workers { count: 1 }, &OpenGate);
    let published = push(&rt, rt.alloc(), &mut writer, &[Update::Put(1, 10)]);
    let told = writer.tell();
    let length = told.length();
    let again = writer.publish(&rt);
    let mut answers = None;
    if let Some(mut reader) = readers.pop() {
        reader.learn(told);
        if let Err(reader) = reader.look_through(&mut shut) {
            let seen = reader.seen();
            if let Ok(look) = reader.look_through(&mut plain) {
                answers = Some((seen, look.seen(), look.get(1), look.leave().seen()));
            }
        }
    }
    writer.close(&rt);
    assert_eq!(rt; full, Err(MapFault::Full { accepted: 0 }));
    assert_eq!(rt; published, Some(1));
    assert_eq!(rt; length, 1);
    assert_eq!(rt; again, Ok(1));
    assert_eq!(rt; answers, Some((1, 1, Some(10), 1)));
    Ok(())
}

/// Two stages appear at once, and a sweep is one update. What is only staged isn't seen.
#[test]
fn stages_appear_at_once(rt: HostRuntime) -> Result<(), Fail> {
    let (mut writer, mut readers) = start_map(&rt, rt.alloc(), 2, 1)?;
    let first = [Update::Put(1, 10), Update::Put(2, 20), Update::Put(3, 30)];
    let second = [Update::Sweep(2, 9), Update::Put(5, 50)];
    let staged = writer
        .stage(&rt, rt.alloc(), &first, Workers { count: 1 }, &OpenGate)
        .is_ok()
        && writer
            .stage(&rt, rt.alloc(), &second, Workers { count: 1 }, &OpenGate)
            .is_ok();
    let mut before = None;
    let mut after = None;
    let mut published = None;
    if let Some(reader) = readers.pop() {
        if let Some(first_look) = look(reader) {
            before = Some((first_look.seen(), first_look.get(1), first_look.next(0)));
            published = writer.publish(&rt).ok();
            if let Some(look) = look(first_look.leave()) {
                after = Some((
                    (look.seen(), look.get(1), look.get(2)),
                    (look.first(), look.last(), look.contains(1), look.is_empty()),
                    (
                        look.next(2),
                        look.next(6),
                        look.count(0, 4),
                        look.count(0, 9),
                    ),
                ));
            }
        }
    }
    writer.close(&rt);
    assert!(rt; staged);
    assert_eq!(rt; published, Some(5));
    assert_eq!(rt; before, Some((0, None, None)));
    assert_eq!(rt;
        after,
        Some((
            (5, Some(10), None),
            (Some((1, 10)), Some((5, 50)), true, false),
            (Some((5, 50)), None, 1, 2)
        ))
    );
    Ok(())
}

/// What a reader saw: how often it looked, and whether what it saw was whole and never fell.
#[derive(Drop)]
struct Seen {
    reader: Option<Reader>,
    looks: u64,
    whole: bool,
}

/// Publishes the values 1 to `most` of the key 1, each alone, and answers the last length.
fn write_all<R: Threads + Wait + Sync>(
    rt: &R,
    alloc: Global,
    writer: &mut Writer,
    most: u64,
) -> u64 {
    let mut length = 0;
    for value in 0..most {
        if let Some(published) = push(rt, alloc, writer, &[Update::Put(1, value + 1)]) {
            length = published;
        }
    }
    length
}

/// Looks until all `most` updates are seen, or often enough. After so many updates the value is
/// their number.
fn read_all(reader: Reader, most: u64) -> Seen {
    let mut reader = reader;
    let (mut looks, mut whole, mut last) = (0u64, true, 0);
    for _turn in 0..LOOKS {
        let Some(look) = look(reader) else {
            return Seen {
                reader: None,
                looks,
                whole,
            };
        };
        let seen = look.seen();
        whole = whole && last <= seen && look.get(1).unwrap_or(0) == seen;
        last = seen;
        looks = looks.saturating_add(1);
        reader = look.leave();
        if seen == most {
            break;
        }
    }
    Seen {
        reader: Some(reader),
        looks,
        whole,
    }
}

/// Sixteen readers beside the writer: each look is whole, and none shows less than the one before.
#[test]
fn beside_the_writer(rt: HostRuntime) -> Result<(), Fail> {
    let (mut writer, readers) = start_map(&rt, rt.alloc(), 10, 16)?;
    let alloc = rt.alloc();
    let handle = &rt;
    let pen = &mut writer;
    let (length, seen) = thread::join(
        handle,
        || write_all(handle, alloc, pen, 1000),
        || thread::map_vec(handle, readers, &|reader| read_all(reader, 1000)),
    );
    writer.close(&rt);
    assert_eq!(rt; length, 1000);
    let seen = seen?;
    assert_eq!(rt; seen.len(), 16);
    for one in &seen {
        assert!(rt; one.whole && one.looks > 0 && one.reader.is_some());
    }
    Ok(())
}
