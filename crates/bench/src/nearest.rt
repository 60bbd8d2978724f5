// Times the search for the nearest points: `bench near POINTS DIMS SCRIPT..`.
ghost use Rattle.std.specs.Prelude.{All, IfOk};
ghost use Rattle.zorder.specs.Codes.{IsDimension, IsInRange};
ghost use Rattle.pgm_script.specs.declared.script.ScriptKind.{ScriptKind};
ghost use Rattle.pgm_script.specs.Scripts.{IsLineOf};

use crate::regions::{SCRIPT_LIMIT, points_of};
use crate::shared::{ROUNDS, least_of, nanos_each, number};
use anyhow::{Result, bail, ensure};
use boxes::Boxes;
use edge::{FileShelf, Shelf};
use hints::hints_of;
use near::{nearest_into, room_for};
use neighbours::{Centre, Chebyshev, Euclid, Metric, Neighbour, nearest_places};
use options::EPS;
use pgm_script::{ScriptKind, ScriptLine, parse, read_text};
use std::alloc::{AllocError, Global};
use std::rt::{Clock, Files};
use std::thread::Threads;
use std::time::{Duration, Instant};

/// How many numbers have 32 bits.
const TWO_TO_32: f64 = 4_294_967_296.0;

/// What stands in the room for places before they are found.
const NOWHERE: Neighbour = Neighbour {
    place: 0,
    distance: 0,
    distance_high: 0,
};

/// What the answers of a script have together.
#[derive(Clone, Copy, Default)]
struct Answered {
    points: u64,
    distances: u64,
    boxes: u64,
}

/// Builds the boxes of a file of points of DIMS coordinates, 2 to 4, and answers scripts of lines
/// `near`, in the boxes and in their codes alone, led by hints.
pub fn run<R: AllocGlobal + Files + Print + Clock + Threads + Sync>(
    rt: &R,
    words: &[String],
) -> Result<()> {
    match words {
        [points, dims, scripts @ ..] => {
            let dims = number(dims.as_str(), "the number of coordinates")?;
            ensure!(2 <= dims && dims <= 4, "a point has 2 to 4 coordinates");
            let points = points_of(rt, points.as_str(), dims)?;
            let boxes = Boxes::build(rt, rt.alloc(), dims, &points)?;
            let hints = hints_of(rt.alloc(), boxes.codes(), EPS)?;
            for script in scripts {
                answer_script(rt, &boxes, &hints, script.as_str())?;
            }
            Ok(())
        }
        _ => bail!("usage: bench near POINTS DIMS SCRIPT.."),
    }
}

/// Answers the centres of a script in each way, and prints what the answers have and how long one
/// takes.
fn answer_script<R: AllocGlobal + Files + Print + Clock>(
    rt: &R,
    boxes: &Boxes,
    hints: &[u64],
    name: &str,
) -> Result<()> {
    let lines = lines_of(rt, name, boxes.dims())?;
    let (taken, all) = least_of(
        rt,
        ROUNDS,
        ||
            requires { All (IsLineOf (ScriptKind.Near boxes.now.dims)) lines.items }
        { Ok(answer_all(rt.alloc(), boxes, &lines)?) },
    )?;
    tell(rt, name, lines.len(), taken, &all)?;
    answer_by_hints(rt, boxes, hints, &lines)
}

fn tell<R: Print>(
    rt: &R,
    name: &str,
    centres: usize,
    taken: Duration,
    all: &Answered,
) -> Result<()> {
    let each = nanos_each(taken, centres);
    println!(rt; "script {name} centres {centres} points {}", all.points)?;
    println!(rt;
        "distances {} boxes {} nanoseconds {each:.1}",
        all.distances, all.boxes
    )?;
    Ok(())
}

/// The lines of a script.
fn lines_of<R: AllocGlobal + Files>(rt: &R, name: &str, dims: u32) -> Result<Vec<ScriptLine>>
    requires { IsDimension dims }
    ensures { IfOk result (λ lines. All (IsLineOf (ScriptKind.Near dims)) lines.items) }
{
    let mut files = FileShelf::new(rt);
    ensure!(files.take_file(name).is_ok(), "a script isn't there");
    let text = read_text(rt.alloc(), &mut files, SCRIPT_LIMIT)?;
    Ok(parse(rt.alloc(), ScriptKind::Near(dims), &text)?)
}

/// Finds the nearest points of each centre in turn, in one list.
fn answer_all(alloc: Global, boxes: &Boxes, lines: &[ScriptLine]) -> Result<Answered, AllocError>
    requires { All (IsLineOf (ScriptKind.Near boxes.now.dims)) lines.now }
{
    let mut points = Vec::new(alloc);
    let mut all = Answered::default();
    for i in 0..lines.len() {
        answer_line(boxes, &lines[i], &mut points, &mut all)?;
    }
    Ok(all)
}

/// Takes room for the nearest points of the centre of a line, and adds them up.
fn answer_line(
    boxes: &Boxes,
    line: &ScriptLine,
    points: &mut Vec<(u32, u64)>,
    all: &mut Answered,
) -> Result<(), AllocError>
    requires { IsLineOf (ScriptKind.Near boxes.now.dims) line.now }
{
    if let ScriptLine::Near(place, k) = line {
        points.clear();
        points.reserve(room_for(boxes, place, *k))?;
        answer_one(boxes, place, *k, points, all);
    }
    Ok(())
}

/// Finds the nearest points of a centre, in a list that has room for them, and adds them up.
fn answer_one(
    boxes: &Boxes,
    place: &[u32; 4],
    k: u32,
    points: &mut Vec<(u32, u64)>,
    all: &mut Answered,
)
    requires { IsInRange boxes.now.dims place.now }
{
    if points.capacity() < room_for(boxes, place, k) {
        return;
    }
    let count = nearest_into(boxes, place, k, points);
    all.points = all.points.wrapping_add(points.len() as u64);
    all.boxes = all.boxes.wrapping_add(u64::from(count));
    for i in 0..points.len() {
        all.distances = all.distances.wrapping_add(u64::from(points[i].0));
    }
}

/// Answers all centres in the codes by both metrics, and prints what the answers have and how long
/// one takes.
fn answer_by_hints<R: AllocGlobal + Print + Clock>(
    rt: &R,
    boxes: &Boxes,
    hints: &[u64],
    lines: &[ScriptLine],
) -> Result<()>
    requires { All (IsLineOf (ScriptKind.Near boxes.now.dims)) lines.now }
{
    let (each, all) = time_places::<R, Chebyshev>(rt, boxes, hints, lines)?;
    println!(rt;
        "chebyshev {} distances {} nanoseconds {each:.1}",
        all.points, all.distances
    )?;
    let (each, all) = time_places::<R, Euclid>(rt, boxes, hints, lines)?;
    let distances = sum_of_roots(rt.alloc(), boxes, hints, lines)?;
    println!(rt;
        "euclid {} distances {distances:.3} nanoseconds {each:.1}",
        all.points
    )?;
    Ok(())
}

/// Answers all centres by a metric, and gives the nanoseconds of one and what the answers have.
fn time_places<R: AllocGlobal + Clock, M: Metric>(
    rt: &R,
    boxes: &Boxes,
    hints: &[u64],
    lines: &[ScriptLine],
) -> Result<(f64, Answered)>
    requires { All (IsLineOf (ScriptKind.Near boxes.now.dims)) lines.now }
{
    let mut taken = Duration::MAX;
    let mut all = Answered::default();
    for _ in 0..ROUNDS {
        let start = Instant::now(rt)?;
        all = find_all::<M>(rt.alloc(), boxes, hints, lines)?;
        taken = taken.min(start.elapsed(rt)?);
    }
    Ok((nanos_each(taken, lines.len()), all))
}

/// Room for as many places as a centre asks for at most.
fn room_for_places(
    alloc: Global,
    boxes: &Boxes,
    lines: &[ScriptLine],
) -> Result<Vec<Neighbour>, AllocError> {
    let mut most = 0;
    for line in lines {
        if let ScriptLine::Near(_, k) = line {
            most = most.max(*k as usize);
        }
    }
    let most = most.min(boxes.codes().len());
    vec![in alloc; NOWHERE; most]
}

/// Finds the nearest places of each centre in turn, in one room.
fn find_all<M: Metric>(
    alloc: Global,
    boxes: &Boxes,
    hints: &[u64],
    lines: &[ScriptLine],
) -> Result<Answered, AllocError>
    requires { All (IsLineOf (ScriptKind.Near boxes.now.dims)) lines.now }
{
    let mut room = room_for_places(alloc, boxes, lines)?;
    let mut all = Answered::default();
    for i in 0..lines.len() {
        let found = find_one::<M>(boxes, hints, &lines[i], &mut room);
        all.points = all.points.wrapping_add(found.len() as u64);
        for neighbour in found {
            all.distances = all.distances.wrapping_add(neighbour.distance);
        }
    }
    Ok(all)
}

/// The sum of all distances by Euclid, whose squares are found.
fn sum_of_roots(
    alloc: Global,
    boxes: &Boxes,
    hints: &[u64],
    lines: &[ScriptLine],
) -> Result<f64, AllocError>
    requires { All (IsLineOf (ScriptKind.Near boxes.now.dims)) lines.now }
{
    let mut room = room_for_places(alloc, boxes, lines)?;
    let mut sum = 0.0;
    for i in 0..lines.len() {
        for neighbour in find_one::<Euclid>(boxes, hints, &lines[i], &mut room) {
            sum += root(neighbour);
        }
    }
    Ok(sum)
}

/// The root of a distance.
fn root(neighbour: &Neighbour) -> f64 {
    let high = real(neighbour.distance_high);
    (high * TWO_TO_32 * TWO_TO_32 + real(neighbour.distance)).sqrt()
}

/// The float that is nearest to a number.
fn real(number: u64) -> f64 {
    let high = (number >> 32) as u32;
    let low = (number % (1 << 32)) as u32;
    f64::from(high) * TWO_TO_32 + f64::from(low)
}

/// The nearest places of the centre of a line.
fn find_one<'a, M: Metric>(
    boxes: &Boxes,
    hints: &[u64],
    line: &ScriptLine,
    room: &'a mut [Neighbour],
) -> &'a [Neighbour]
    requires { IsLineOf (ScriptKind.Near boxes.now.dims) line.now }
{
    let ScriptLine::Near(coords, k) = line else {
        return &[];
    };
    let centre = Centre {
        d: boxes.dims(),
        coords: *coords,
    };
    let many = room.len().min(*k as usize);
    let found = nearest_places::<M>(boxes.codes(), hints, &centre, &mut room[..many]);
    &room[..found]
}
