//! The examples that the READMEs of the crates quote, word for word.

ghost use Rattle.std.specs.Prelude.{◌≡◌, ◌+◌, ◌<◌, length};
ghost use Rattle.budget.specs.Ledgers.{IsNewLedger};

use boxes::Boxes;
use bucketed::Buckets;
use budget::{NoMemory, Steps};
use claims::Claims;
use edge::{MemShelf, OpenGate, Shelf};
use exact_cross::{Line, PointList};
use hulls::{Hulls, Offer};
use index_file::{check, read_index, spell_head, spell_level};
use key_points::Keys;
use key_search::positions_among;
use levels::{Bounds, Index};
use near::nearest;
use options::Workers;
use piece_join::{segment_in_pieces, uneven_cuts};
use radix_table::RadixTable;
use segmenter::segment;
use std::alloc::Global;
use std::marker::Brand;
use std::process::Abort;
use std::sync::ledger::{Blank, Ledger};
use std::test::Fail;
use window_search::{CountedKeys, lower_in, window};

#[test]
fn key_points_example(rt: HostRuntime) -> Result<(), Fail> {
    let keys = Keys::tested(vec![in rt.alloc(); 5, 5, 5, 9]?)?;
    assert_eq!(rt; (keys.len(), keys.distinct_count()), (4, 2));
    let points = keys.points(rt.alloc())?;
    assert_eq!(rt; points.points().xs, [5, 6, 9].as_slice());
    assert_eq!(rt; points.points().ys, [0, 3, 3].as_slice());
    Ok(())
}

#[test]
fn key_search_example(rt: HostRuntime) -> Result<(), Fail> {
    let mut positions = Vec::with_capacity(rt.alloc(), 2)?;
    positions_among(&[1, 4, 9, 9, 16], &[9, 10], &mut positions);
    assert_eq!(rt; positions.as_slice(), [2, 4].as_slice());
    Ok(())
}

#[test]
fn near_example(rt: HostRuntime) -> Result<(), Fail> {
    let boxes = Boxes::build(&rt, rt.alloc(), 2, &[2, 0, 1, 3])?;
    let near = nearest(rt.alloc(), &boxes, &[2, 2, 0, 0], 5)?;
    assert_eq!(rt; near.points(), [(1, 11), (2, 4)].as_slice());
    assert_eq!(rt; near.boxes(), 3);
    Ok(())
}

#[test]
fn bucketed_example(rt: HostRuntime) -> Result<(), Fail> {
    let keys = Keys::tested(vec![in rt.alloc(); 0, 1, 4, 9, 16, 25]?)?;
    let bounds = Bounds { eps: 0, eps_rec: 0 };
    let index = Index::of(rt.alloc(), keys, bounds)?;
    let buckets = Buckets::build(rt.alloc(), &index, 4)?;
    assert_eq!(rt; (buckets.entry(0), buckets.entry(1)), (0, 3));
    assert_eq!(rt; buckets.position(17), 5);
    Ok(())
}

#[test]
fn radix_table_example(rt: HostRuntime) -> Result<(), Fail> {
    let table = RadixTable::over(rt.alloc(), &[0, 4, 16], 1936)?;
    assert!(rt; table.places(9).is_some());
    Ok(())
}

#[test]
fn segmenter_example(rt: HostRuntime) -> Result<(), Fail> {
    let points = PointList::new(&[0, 1, 2, 10], &[0, 1, 2, 3]);
    let segments = segment(rt.alloc(), points, 0, 0, 4)?;
    assert_eq!(rt; segments.len(), 2);
    Ok(())
}

#[test]
fn piece_join_example(rt: HostRuntime) -> Result<(), Fail> {
    let points = PointList::new(&[0, 1, 2, 10], &[0, 1, 2, 3]);
    let workers = Workers { count: 2 };
    let cuts = uneven_cuts(rt.alloc(), 4, workers)?;
    let segments = segment_in_pieces(&rt, rt.alloc(), points, 0, &cuts, workers, &OpenGate)?;
    assert_eq!(rt; segments.len(), 2);
    Ok(())
}

#[test]
fn budget_example(rt: HostRuntime) -> Result<(), NoMemory> {
    let keys: [u64; 2] = [3, 5];
    let doubled = keys.iter().map(|key| key.wrapping_mul(2));
    let doubled: Vec<u64> = doubled.collect(rt.alloc())?;
    assert_eq!(rt; doubled.as_slice(), [6, 10].as_slice());
    Ok(())
}

#[test]
fn claims_example(rt: HostRuntime) -> Result<(), Fail> {
    let (claims, mut seats) = Claims::new(rt.alloc(), 2, 1)?;
    let Some(mut seat) = seats.pop() else {
        unreachable!()
    };
    assert_eq!(rt; seat.draw(&claims), Some(0));
    assert_eq!(rt; seat.draw(&claims), Some(1));
    assert_eq!(rt; seat.draw(&claims), None);
    let word = claims.close(vec![in rt.alloc(); seat]?);
    assert_eq!(rt; word, 3);
    Ok(())
}

#[test]
fn index_file_example(rt: HostRuntime) -> Result<(), Fail> {
    let points = PointList::new(&[0, 1, 2, 10], &[0, 1, 2, 3]);
    let low = segment(rt.alloc(), points, 0, 0, 4)?;
    let high = segment(rt.alloc(), PointList::new(&[0, 10], &[0, 1]), 0, 0, 2)?;
    let mut bytes = spell_head(rt.alloc(), 0, 0, 2)?;
    bytes.extend_from_slice(&spell_level(rt.alloc(), &low)?)?;
    bytes.extend_from_slice(&spell_level(rt.alloc(), &high)?)?;
    let file = (String::from_str(rt.alloc(), "books.index")?, bytes);
    let mut shelf = MemShelf::new(vec![in rt.alloc(); file]?, Vec::new(rt.alloc()), 4096);
    shelf.take_file("books.index")?;
    let saved = read_index(rt.alloc(), &mut shelf)?;
    assert_eq!(rt; (saved.levels(), saved.run_count()), (2, 3));
    assert!(rt; check(rt.alloc(), points, &saved).is_ok());
    Ok(())
}

fn hulls_example(alloc: Global, steps: &mut Steps<impl Ledger>) -> Result<(u32, Line), NoMemory> {
    let points = PointList::new(&[0, 1, 2, 10], &[0, 1, 2, 3]);
    let mut hulls = Hulls::new(alloc, 0, 4)?;
    hulls.start(0, points.xs[0], points.ys[0]);
    for place in 1..points.xs.len() {
        let offer = hulls.offer(points.xs[place], points.ys[place], false, steps);
        if let Offer::Cut(witness) = offer {
            // The run ends before the place 3, and its line has the slope 1.
            return Ok((witness.r, hulls.line().2));
        }
    }
    Ok((4, hulls.line().2))
}

fn window_search_example(rt: &impl Abort, steps: &mut Steps<impl Ledger>) {
    let line = Line {
        x0: 0,
        y0: -1,
        rise: 3,
        run: 10,
    };
    let (from, to) = window(&line, 0, 3, 1, 11, 4);
    assert_eq!(rt; (from, to), (0, 4));
    let keys = CountedKeys::new([0u64, 10, 11, 12].as_slice());
    assert_eq!(rt; lower_in(&keys, 0, 4, 11, steps), 2);
}

/// Whether the key at a place is below another.
fn is_below<L: Ledger>(keys: &[u64], place: usize, key: u64, steps: &mut Steps<L>) -> bool
    requires { place < length keys.now }
    ensures cost { steps.new ≡ steps.old + 1 }
{
    steps.tick();
    keys[place] < key
}

/// The examples that are handed a counter.
fn counted<R: Abort + AllocGlobal, L: Ledger>(rt: &R, blank: Blank) -> Result<(), Fail>
    requires ledger { IsNewLedger blank L.name L.parts }
{
    let mut steps = Steps::<L>::new(blank);
    assert!(rt; is_below(&[3, 5], 1, 6, &mut steps));
    window_search_example(rt, &mut steps);
    let (end, line) = hulls_example(rt.alloc(), &mut steps)?;
    assert_eq!(rt; (end, line.rise, line.run), (3, 1, 1));
    Ok(())
}

#[test]
fn examples_that_count(rt: HostRuntime) -> Result<(), Fail> {
    counted::<HostRuntime, Brand>(&rt, Blank::new(1))
}
