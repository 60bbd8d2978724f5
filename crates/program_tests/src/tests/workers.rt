// Workers of one index are at work at once, and draw its pieces one by one: each command that
// builds one does so by the workers that it is told, or by one alone, and lets them pass its gate.
use super::*;
use damage::SQUARES;
use edge::Place;
use holds::{Hold, Holds};

/// By two workers. The six squares are six pieces, and the keys of the drill three or more.
const WORDS: [&str; 6] = [
    "build keys --workers 2",
    "explain keys --workers 2",
    "query keys script --windows --workers 2",
    "relax keys script --pieces 6 --workers 2",
    "save keys --workers 2",
    "drill 6 1 --workers 2",
];

const ALONE: [&str; 6] = [
    "build keys --workers 1",
    "explain keys --workers 1",
    "query keys script --windows --workers 1",
    "relax keys script --pieces 6 --workers 1",
    "save keys --workers 1",
    "drill 6 1 --workers 1",
];

/// How often a worker by itself looks for another one before it goes on.
const TURNS: u64 = 100_000;

/// Runs the words, whose threads pass the gate.
fn check_done<R: AllocGlobal + Abort + Threads + Wait + Sync, G: Gate>(
    rt: &R,
    words: &str,
    gate: &G,
) -> Result<(), Fail> {
    let given = Given {
        words,
        keys: SQUARES,
        script: b"find 17\n",
    };
    let found = observed(rt, given, WHOLE, WHOLE, gate)?;
    assert_eq!(rt; found.status, Status::Done, "{words}");
    Ok(())
}

fn check_held<R: AllocGlobal + Abort + Threads + Wait + Sync>(
    rt: &R,
    words: &str,
    one: (Place, Place),
    other: (Place, Place),
) -> Result<(), Fail> {
    let gate = Holds::new(one, other);
    check_done(rt, words, &gate)?;
    assert!(rt; gate.is_passed(), "{words}");
    Ok(())
}

#[test]
fn two_pieces_are_built_at_once(rt: HostRuntime) -> Result<(), Fail> {
    let (one, other) = (Place::PieceBegun(0), Place::PieceBegun(1));
    for words in &WORDS {
        check_held(&rt, words, (one, other), (other, one))?;
    }
    Ok(())
}

/// Where each worker had every second piece as its own, the one that is held would be waited for.
#[test]
fn a_worker_draws_on_while_another_is_held(rt: HostRuntime) -> Result<(), Fail> {
    let pair = (Place::PieceBegun(0), Place::PieceDone(2));
    for words in &WORDS {
        check_held(&rt, words, pair, pair)?;
    }
    Ok(())
}

/// Nobody else begins the next piece while the only worker is held at its first.
#[test]
fn one_worker_is_alone(rt: HostRuntime) -> Result<(), Fail> {
    let pair = (Place::PieceBegun(0), Place::PieceBegun(1));
    for words in &ALONE {
        let gate = Hold::new(pair, TURNS);
        check_done(&rt, words, &gate)?;
        assert!(rt; gate.is_in_vain(), "{words}");
    }
    Ok(())
}
