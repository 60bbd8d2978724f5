//! What readers learn of the writer's notes, which no clause follows through their slots.

use edge::{Gate, Place};
use log_levels::Update;
use map_replay::{Question, Reading, replay};
use options::{Plan, Workers};
use std::sync::atomic::{AtomicBool, Ordering};
use std::test::Fail;
use std::thread::yield_now;

/// How often a reader tries again before a test fails.
const TURNS: u64 = 1_000_000;

/// A gate that lets the first reader look once a batch is published, and the second one once the
/// first reader looked.
#[derive(Drop)]
struct OneByOne {
    published: AtomicBool,
    looked: AtomicBool,
    gave_up: AtomicBool,
}

impl OneByOne {
    fn new() -> OneByOne {
        OneByOne {
            published: AtomicBool::new(false),
            looked: AtomicBool::new(false),
            gave_up: AtomicBool::new(false),
        }
    }

    fn wait_for(&self, reached: &AtomicBool) {
        for _turn in 0..TURNS {
            if reached.load(Ordering::SeqCst) {
                return;
            }
            yield_now();
        }
        self.gave_up.store(true, Ordering::SeqCst);
    }
}

impl Gate for OneByOne {
    fn at(&self, place: Place) {
        match place {
            Place::Published(_) => self.published.store(true, Ordering::SeqCst),
            Place::Look { reader: 0, turn: 0 } => self.wait_for(&self.published),
            Place::Look { reader: 0, turn: 1 } => self.looked.store(true, Ordering::SeqCst),
            Place::Look { reader: 1, turn: 0 } => self.wait_for(&self.looked),
            _ => {}
        }
    }
}

/// How many updates a reader knew of when it looked for the first question.
fn known_by(readings: &[Reading], reader: usize) -> Option<u64> {
    Some(readings.get(reader)?.sightings.first()?.known)
}

/// Each reader finds the note of the one batch in its own slot, and knows of it before it looks.
/// The first one has taken its note when the second one comes.
#[test]
fn each_reader_learns_its_own_note(rt: HostRuntime) -> Result<(), Fail> {
    let updates = [Update::Put(1, 10), Update::Put(2, 20)];
    let questions = [Question::Get(1), Question::Get(2)];
    let plan = Plan {
        levels: 1,
        batch: 2,
        readers: 2,
        workers: Workers { count: 1 },
    };
    let gate = OneByOne::new();
    let left = replay(&rt, rt.alloc(), &updates, &questions, plan, &gate)?;
    let known = (known_by(left.readings(), 0), known_by(left.readings(), 1));
    left.close(&rt);
    assert!(rt; !gate.gave_up.load(Ordering::SeqCst));
    assert_eq!(rt; known, (Some(2), Some(2)));
    Ok(())
}
