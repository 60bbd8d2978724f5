//! The examples that the READMEs of the crates quote, word for word.

use crate::tombstones_rows::{del, put};
use boxes::Boxes;
use cut_witness::check_cover;
use drill_inputs::Inputs;
use exact_cross::PointList;
use hints::{hints_of, position, upper_bound};
use levels::{Bounds, Index, Keys, OpenGate};
use log_levels::{LogMap, Update};
use map_level::{HashedKey, Here, Level, latest_of};
use options::{Drill, Senders, Workers};
use published::start_map;
use segmenter::segment;
use senders::start_senders;
use std::test::Fail;
use tombstones::{is_ascending, merge};
use zorder::Region;

#[test]
fn levels_example(rt: HostRuntime) -> Result<(), Fail> {
    let list = vec![in rt.alloc(); 1, 4, 9, 9, 16]?;
    let keys = Keys::tested(list)?;
    let bounds = Bounds {
        eps: 64,
        eps_rec: 4,
    };
    let index = Index::of(rt.alloc(), keys, bounds)?;
    assert_eq!(rt; index.position(9), 2);
    assert_eq!(rt; index.position(10), 4);
    Ok(())
}

#[test]
fn hints_example(rt: HostRuntime) -> Result<(), Fail> {
    let list = vec![in rt.alloc(); 1, 4, 9, 9, 16]?;
    let keys = list.as_slice();
    let hints = hints_of(rt.alloc(), keys, 1)?;
    assert_eq!(rt; position(keys, &hints, 9), 2);
    assert_eq!(rt; upper_bound(keys, &hints, 9), 4);
    assert_eq!(rt; position(keys, &[], 9), 2);
    Ok(())
}

#[test]
fn boxes_example(rt: HostRuntime) -> Result<(), Fail> {
    let boxes = Boxes::build(&rt, rt.alloc(), 2, &[2, 0, 1, 3])?;
    let low = [1, 0, 0, 0];
    let high = [2, 3, 0, 0];
    let found = boxes.search(rt.alloc(), &Region { d: 2, low, high })?;
    assert_eq!(rt; found.codes(), [4, 11].as_slice());
    assert_eq!(rt; found.looked(), 2);
    Ok(())
}

#[test]
fn map_level_example(rt: HostRuntime) -> Result<(), Fail> {
    let here = Here { alloc: rt.alloc() };
    let puts = [put(9, 90), put(3, 30), del(8), put(3, 31)];
    let entries = latest_of(&here, rt.alloc(), &puts)?;
    assert!(rt; entries.len() <= 4);
    let level = Level::of(&here, rt.alloc(), entries)?;
    assert_eq!(rt;
        level.entries(),
        [put(3, 31), del(8), put(9, 90)].as_slice()
    );
    assert_eq!(rt; level.entry(&HashedKey::of(8)).copied(), Some(del(8)));
    assert_eq!(rt; level.place(level.start(5), 5), 1);
    Ok(())
}

#[test]
fn log_levels_example(rt: HostRuntime) -> Result<(), Fail> {
    let mut map = LogMap::new(rt.alloc(), 20)?;
    map.put(rt.alloc(), 5, 50)?;
    let updates = [Update::Put(7, 70), Update::Del(5), Update::Sweep(8, 90)];
    map.apply_here(rt.alloc(), &updates)?;
    assert_eq!(rt; map.get(5), None);
    assert_eq!(rt; map.next(0), Some((7, 70)));
    assert_eq!(rt; map.count(0, 100), 1);
    Ok(())
}

#[test]
fn published_example(rt: HostRuntime) -> Result<(), Fail> {
    let (mut writer, mut readers) = start_map(&rt, rt.alloc(), 20, 1)?;
    let updates = [Update::Put(1, 10), Update::Put(2, 20)];
    let staged = writer.stage(&rt, rt.alloc(), &updates, Workers { count: 1 }, &OpenGate);
    let published = writer.publish(&rt);
    let (mut value, mut refusals) = (None, 0);
    if let Some(mut reader) = readers.pop() {
        reader.learn(writer.tell());
        if let Ok(look) = reader.look(&mut refusals) {
            value = look.get(1);
            let _reader = look.leave();
        }
    }
    writer.close(&rt);
    assert_eq!(rt; (staged, published, value), (Ok(()), Ok(2), Some(10)));
    Ok(())
}

#[test]
fn cut_witness_example(rt: HostRuntime) -> Result<(), Fail> {
    let points = PointList::new(&[0, 1, 2, 10], &[0, 1, 2, 3]);
    let segments = segment(rt.alloc(), points, 0, 0, 4)?;
    assert_eq!(rt; segments.len(), 2);
    assert!(rt; check_cover(points, 0, &segments));
    Ok(())
}

#[test]
fn tombstones_example(rt: HostRuntime) -> Result<(), Fail> {
    let newer = [put(1, 11), del(2)];
    let older = [put(2, 20), put(3, 30)];
    assert!(rt; is_ascending(&newer));
    assert!(rt; is_ascending(&older));
    let merged = merge(rt.alloc(), &newer, &older, false)?;
    assert_eq!(rt;
        merged.as_slice(),
        [put(1, 11), del(2), put(3, 30)].as_slice()
    );
    let deepest = merge(rt.alloc(), &newer, &older, true)?;
    assert_eq!(rt; deepest.as_slice(), [put(1, 11), put(3, 30)].as_slice());
    Ok(())
}

#[test]
fn drill_inputs_example(rt: HostRuntime) -> Result<(), Fail> {
    let drill = Drill { number: 2, seed: 1 };
    let inputs = Inputs::drawn(rt.alloc(), drill)?;
    assert_eq!(rt; inputs.keys.as_slice(), [6, 20].as_slice());
    let updates = [Update::Put(0, 4086), Update::Put(1, 12767)];
    assert_eq!(rt; inputs.updates.as_slice(), updates.as_slice());
    Ok(())
}

#[test]
fn senders_example(rt: HostRuntime) -> Result<(), Fail> {
    let (mut inbox, mut senders) = start_senders(rt.alloc(), Senders { count: 1 }, 1)?;
    let Some(mut sender) = senders.pop() else {
        unreachable!()
    };
    assert_eq!(rt; sender.send(&rt, Update::Put(1, 10)), Ok(()));
    assert_eq!(rt; sender.send(&rt, Update::Del(1)), Err(Update::Del(1)));
    assert_eq!(rt; inbox.take(&rt), Some((0, Update::Put(1, 10))));
    senders.push(sender)?;
    assert_eq!(rt; inbox.close(senders), 0);
    Ok(())
}
