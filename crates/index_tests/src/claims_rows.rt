//! Draws in a known order, and draws of two threads.

ghost use Rattle.std.specs.Prelude.{◌≡◌, ◌≤◌, IfOk};
ghost use Rattle.options.specs.declared.index.TheConstants.{MAX_PIECES};

use budget::NoMemory;
use claims::{Claims, Seat};
use std::alloc::Global;
use std::thread;
use std::thread::Threads;

/// Claims on some numbers, and their two seats.
fn two(alloc: Global, pieces: u32) -> Result<(Claims, Seat, Seat), NoMemory>
    requires some { 1 ≤ pieces }
    requires few { pieces ≤ MAX_PIECES }
    ensures workers { IfOk result (λ made. made.0.workers ≡ 2) }
    ensures first { IfOk result (λ made. made.1.origin ≡ made.0.origin) }
    ensures second { IfOk result (λ made. made.2.origin ≡ made.0.origin) }
{
    let (claims, mut seats) = Claims::new(alloc, pieces, 2)?;
    let Some(second) = seats.pop() else {
        unreachable!()
    };
    let Some(first) = seats.pop() else {
        unreachable!()
    };
    Ok((claims, first, second))
}

/// The word, once both seats are back.
fn closed(alloc: Global, claims: Claims, first: Seat, second: Seat) -> Result<u64, NoMemory>
    requires workers { claims.workers ≡ 2 }
    requires first { first.origin ≡ claims.origin }
    requires second { second.origin ≡ claims.origin }
{
    let mut seats = Vec::new(alloc);
    seats.push(first)?;
    seats.push(second)?;
    Ok(claims.close(seats))
}

/// Draws in turns, one worker twice, the other twice, and the first one twice again.
fn draws(claims: &Claims, first: &mut Seat, second: &mut Seat) -> [Option<u32>; 6]
    requires first { first.old.origin ≡ claims.now.origin }
    requires second { second.old.origin ≡ claims.now.origin }
    ensures first { first.new.origin ≡ claims.now.origin }
    ensures second { second.new.origin ≡ claims.now.origin }
{
    let (zero, one) = (first.draw(claims), first.draw(claims));
    let (two, none) = (second.draw(claims), second.draw(claims));
    // A seat that has ended takes no step.
    let (ended, still) = (first.draw(claims), first.draw(claims));
    [zero, one, two, none, ended, still]
}

/// What is drawn in turns of three pieces, and the word at the end.
fn drawn(alloc: Global) -> Result<([Option<u32>; 6], u64), NoMemory> {
    let (claims, mut first, mut second) = two(alloc, 3)?;
    let draws = draws(&claims, &mut first, &mut second);
    Ok((draws, closed(alloc, claims, first, second)?))
}

/// Three pieces: one worker draws 0 and 1, the other 2, and then both nothing. That are five draws.
#[test]
fn in_turns(rt: HostRuntime) -> Result<(), NoMemory> {
    let (draws, word) = drawn(rt.alloc())?;
    let wanted = [Some(0), Some(1), Some(2), None, None, None];
    assert!(rt; draws == wanted && word == 5, "{draws:?}, {word}");
    Ok(())
}

/// Draws up to the first `None`, or `most` numbers, and says how many there were.
fn drain(claims: &Claims, mut seat: Seat, most: u32) -> (Seat, u32)
    requires { seat.origin ≡ claims.now.origin }
    ensures { result.0.origin ≡ seat.origin }
{
    let mut count = 0;
    for turn in 0..most {
        if seat.draw(claims).is_none() {
            break;
        }
        count = turn + 1;
    }
    (seat, count)
}

/// How much two threads draw of a thousand numbers, and the word at the end.
fn drained<R: Threads + AllocGlobal + Sync>(rt: &R) -> Result<(u32, u32, u64), NoMemory> {
    let (claims, first, second) = two(rt.alloc(), 1000)?;
    let shared = &claims;
    let ((first, left), (second, right)) = thread::join(
        rt,
        move || drain(shared, first, 2000),
        move || drain(shared, second, 2000),
    );
    Ok((left, right, closed(rt.alloc(), claims, first, second)?))
}

/// Two threads draw all of a thousand numbers, and each ends with one draw more.
#[test]
fn by_two_threads(rt: HostRuntime) -> Result<(), NoMemory> {
    let (left, right, word) = drained(&rt)?;
    assert!(rt; left <= 1000 && right <= 1000);
    assert_eq!(rt; (left + right, word), (1000, 1002));
    Ok(())
}
