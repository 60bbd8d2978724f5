//! Many updates of a map: by workers, which all make the same levels, and drawn, with the answers
//! of a program in another language.

ghost use Rattle.std.specs.Prelude.{◌≡◌, ◌<◌, ◌≤◌, ◌^◌, length};
ghost use Rattle.options.specs.declared.map.TheConstants.{MAX_LEVELS};

use drill_inputs::Generator;
use edge::{Gate, OpenGate, Place};
use log_levels::{Entry, LogMap, Update};
use options::Workers;
use std::alloc::{AllocError, Global};
use std::process::Abort;
use std::sync::atomic::{AtomicU64, Ordering};
use std::test::Fail;

/// Counts the pieces that pass.
#[derive(Drop)]
struct Counting {
    begun: AtomicU64,
    done: AtomicU64,
}

impl Gate for Counting {
    fn at(&self, place: Place) {
        match place {
            Place::PieceBegun(_) => {
                self.begun.fetch_add(1, Ordering::SeqCst);
            }
            Place::PieceDone(_) => {
                self.done.fetch_add(1, Ordering::SeqCst);
            }
            _ => {}
        }
    }
}

/// 330 entries have five blocks: level 2 of 256 keys and level 0 of 64. Each is too short for more
/// than one piece.
#[test]
fn pieces_pass_the_gate(rt: HostRuntime) -> Result<(), Fail> {
    let gate = Counting {
        begun: AtomicU64::new(0),
        done: AtomicU64::new(0),
    };
    let mut updates = Vec::new(rt.alloc());
    for key in 0..330 {
        updates.push(Update::Put(key, key))?;
    }
    let mut map = LogMap::new(rt.alloc(), 4)?;
    let applied = map.apply(&rt, rt.alloc(), &updates, Workers { count: 2 }, &gate);
    assert_eq!(rt; applied, Ok(()));
    assert_eq!(rt; gate.begun.load(Ordering::SeqCst), 2);
    assert_eq!(rt; gate.done.load(Ordering::SeqCst), 2);
    Ok(())
}

/// The entries of a level; none where it isn't occupied.
fn level(map: &LogMap, i: u32) -> &[Entry]
    requires { i < length map.now.levels }
{
    match map.level_len(i) {
        Some(_) => map.entries(i),
        None => &[],
    }
}

/// 64 puts, 64 more of which half are of the same keys, and 64 deletions.
fn three_blocks(alloc: Global) -> Result<Vec<Update>, AllocError> {
    let mut updates = Vec::new(alloc);
    for key in 0..64 {
        updates.push(Update::Put(key, key))?;
    }
    for key in 32..96 {
        updates.push(Update::Put(key, 1000))?;
    }
    for key in 0..64 {
        updates.push(Update::Del(key))?;
    }
    Ok(updates)
}

/// What the map after them holds: the keys 0 to 95 in level 1, the deepest, and in level 0 the
/// deletions.
fn check_three_blocks<R: Abort + AllocGlobal>(rt: &R, map: &LogMap) -> Result<(), Fail>
    requires { length map.now.levels ≡ 3 }
{
    let mut puts = Vec::new(rt.alloc());
    let mut deletions = Vec::new(rt.alloc());
    for key in 0..96u64 {
        let value = if key < 32 { key } else { 1000 };
        puts.push(Entry {
            key,
            value: Some(value),
        })?;
    }
    for key in 0..64u64 {
        deletions.push(Entry { key, value: None })?;
    }
    assert_eq!(rt; level(map, 0), deletions.as_slice());
    assert_eq!(rt; level(map, 1), puts.as_slice());
    assert_eq!(rt; level(map, 2).len(), 0);
    assert_eq!(rt; map.count(0, u64::MAX), 32);
    assert_eq!(rt; map.next(0), Some((64, 1000)));
    Ok(())
}

/// The keys of level 1 lie on a line, so its index has one level of one run.
#[test]
fn three_blocks_by_workers(rt: HostRuntime) -> Result<(), Fail> {
    let updates = three_blocks(rt.alloc())?;
    let mut one = LogMap::new(rt.alloc(), 3)?;
    let mut two = LogMap::new(rt.alloc(), 3)?;
    let mut three = LogMap::new(rt.alloc(), 3)?;
    let by_one = one.apply(&rt, rt.alloc(), &updates, Workers { count: 1 }, &OpenGate);
    let by_two = two.apply(&rt, rt.alloc(), &updates, Workers { count: 2 }, &OpenGate);
    let by_three = three.apply(&rt, rt.alloc(), &updates, Workers { count: 3 }, &OpenGate);
    assert_eq!(rt; (by_one, by_two, by_three), (Ok(()), Ok(()), Ok(())));
    check_three_blocks(&rt, &one)?;
    check_three_blocks(&rt, &two)?;
    check_three_blocks(&rt, &three)?;
    if three.level_len(1).is_some() {
        let index = three.index(1);
        assert_eq!(rt; index.keys().len(), 96);
        assert_eq!(rt; index.level_count(), 1);
        assert_eq!(rt; index.position(0), 0);
        assert_eq!(rt; index.position(40), 40);
        assert_eq!(rt; index.position(96), 96);
    }
    Ok(())
}

/// A draw below `n`.
fn draw(draws: &mut Generator, n: u64) -> u64
    requires { 0 < n }
    ensures { result < n }
{
    u64::from(draws.next()) % n
}

/// So many random puts and deletions.
fn draw_updates(alloc: Global, count: u64, seed: u32) -> Result<Vec<Update>, AllocError>
    requires { seed < 2 ^ 31 }
{
    let mut draws = Generator::new(seed);
    let mut updates = Vec::new(alloc);
    for _ in 0..count {
        let kind = draw(&mut draws, 4);
        let key = draw(&mut draws, 30_000);
        let value = draw(&mut draws, 1000);
        updates.push(if kind == 0 {
            Update::Del(key)
        } else {
            Update::Put(key, value)
        })?;
    }
    Ok(updates)
}

/// Whether two maps have the same levels.
fn have_same_levels(one: &LogMap, other: &LogMap) -> bool
    requires one { length one.now.levels ≡ 12 }
    requires other { length other.now.levels ≡ 12 }
{
    for i in 0..12 {
        if level(one, i) != level(other, i) {
            return false;
        }
    }
    true
}

/// Lists so long that they are merged in parts; the second updates find levels.
#[test]
fn many_updates_by_workers(rt: HostRuntime) -> Result<(), Fail> {
    let first = draw_updates(rt.alloc(), 50_000, 1)?;
    let second = draw_updates(rt.alloc(), 40_000, 2)?;
    let mut one = LogMap::new(rt.alloc(), 12)?;
    let mut three = LogMap::new(rt.alloc(), 12)?;
    let by_one = one.apply(&rt, rt.alloc(), &first, Workers { count: 1 }, &OpenGate);
    let by_three = three.apply(&rt, rt.alloc(), &first, Workers { count: 3 }, &OpenGate);
    assert_eq!(rt; (by_one, by_three), (Ok(()), Ok(())));
    assert!(rt; have_same_levels(&one, &three));
    let by_one = one.apply(&rt, rt.alloc(), &second, Workers { count: 1 }, &OpenGate);
    let by_three = three.apply(&rt, rt.alloc(), &second, Workers { count: 3 }, &OpenGate);
    assert_eq!(rt; (by_one, by_three), (Ok(()), Ok(())));
    assert!(rt; have_same_levels(&one, &three));
    assert_eq!(rt; three.accepted(), 90_000);
    Ok(())
}

/// A sum of answers in order.
fn mixed(sum: u64, answer: u64) -> u64
    ensures { result < 2 ^ 32 }
{
    (sum % (1 << 32) * 31 + answer % (1 << 32)) % (1 << 32)
}

/// One random update or question, and the sum of the answers so far.
fn step<R: Abort + AllocGlobal>(rt: &R, map: &mut LogMap, draws: &mut Generator, sum: u64) -> u64 {
    let kind = draw(draws, 16);
    let key = draw(draws, 300);
    let value = draw(draws, 1000);
    if kind < 9 {
        let _ = map.put(rt.alloc(), key, value);
        sum
    } else if kind < 13 {
        let _ = map.del(rt.alloc(), key);
        sum
    } else if kind < 14 {
        match map.sweep(rt.alloc(), key, key + value / 40) {
            Ok(count) => mixed(sum, count),
            Err(_) => sum,
        }
    } else {
        let got = mixed(sum, map.get(key).unwrap_or(1001));
        let next = match map.next(key) {
            Some((key, value)) => key % 1000 * 1000 + value % 1000,
            None => 999_999,
        };
        mixed(mixed(got, next), map.count(key, key + value))
    }
}

/// So many random steps: the sum of the answers, the entries accepted and the keys left.
fn walk<R: Abort + AllocGlobal>(
    rt: &R,
    levels: u32,
    seed: u32,
    steps: u64,
) -> Result<(u64, u64, u64), Fail>
    requires some { 1 ≤ levels }
    requires few { levels ≤ MAX_LEVELS }
    requires seed { seed < 2 ^ 31 }
{
    let mut map = LogMap::new(rt.alloc(), levels)?;
    let mut draws = Generator::new(seed);
    let mut sum = 0;
    for _ in 0..steps {
        sum = step(rt, &mut map, &mut draws, sum);
    }
    Ok((sum, map.accepted(), map.count(0, u64::MAX)))
}

/// The expected numbers are those of a program in another language, over its own map.
#[test]
fn random_updates(rt: HostRuntime) -> Result<(), Fail> {
    assert_eq!(rt; walk(&rt, 10, 7, 4000)?, (1906539009, 4309, 104));
    assert_eq!(rt; walk(&rt, 12, 1, 3000)?, (1676100069, 3274, 91));
    assert_eq!(rt; walk(&rt, 5, 11, 3000)?, (288382159, 2047, 99));
    Ok(())
}
