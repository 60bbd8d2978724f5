// Times the search of boxes: `bench box POINTS DIMS SCRIPT..`.
ghost use Rattle.std.specs.Prelude.{◌≡◌, All, IfOk, IfSome};
ghost use Rattle.zorder.specs.Codes.{IsCode, IsDimension};
ghost use Rattle.zorder.specs.Points.{ArePoints};
ghost use Rattle.zorder.specs.Regions.{IsRegion};
ghost use Rattle.pgm_script.specs.declared.script.ScriptKind.{ScriptKind};
ghost use Rattle.pgm_script.specs.Scripts.{IsLineOf};

use crate::shared::{ROUNDS, bytes_of, hints_for, least_of, nanos_each, number};
use crate::visiting::Visit;
use anyhow::{Result, bail, ensure};
use bigmin::next_in_box;
use boxes::{Boxes, count_places};
use edge::{FileShelf, Shelf};
use options::EPS;
use pgm_script::{ScriptKind, ScriptLine, parse, read_text};
use sosd_reader::read_points;
use std::alloc::{AllocError, Global};
use std::rt::{Clock, Files};
use std::thread::Threads;
use std::time::{Duration, Instant};
use zorder::{Corners, Region, encode, inside};

/// How often a script is answered in each way.
const ANSWERS: u32 = 5;

/// How many bytes a script has at most.
pub const SCRIPT_LIMIT: u64 = 67_108_864;

/// How many codes of each box are jumped from at most.
const JUMPS: usize = 16;

/// What the boxes of a script have together.
#[derive(Clone, Copy, PartialEq, Eq, Default)]
struct Answered {
    found: u64,
    looked: u64,
}

impl Answered {
    fn add(&mut self, found: u64, looked: u64) {
        self.found = self.found.wrapping_add(found);
        self.looked = self.looked.wrapping_add(looked);
    }
}

/// A code from which the next one inside a box is sought.
#[derive(Clone, Copy)]
struct Jump {
    region: Region,
    code: u64,
    ghost region_is: { IsRegion region },
    ghost code_is: { IsCode region.d code },
}

/// Builds the boxes of a file of points of DIMS coordinates, 2 to 4, and answers scripts of lines
/// `box` by counting, by counting among the codes where they stand, led by hints, by filling a
/// list, by going over the points, and by jumping.
pub fn run<R: AllocGlobal + Files + Print + Clock + Threads + Sync>(
    rt: &R,
    words: &[String],
) -> Result<()> {
    match words {
        [points, dims, scripts @ ..] => {
            let dims = number(dims.as_str(), "the number of coordinates")?;
            ensure!(2 <= dims && dims <= 4, "a point has 2 to 4 coordinates");
            let points = points_of(rt, points.as_str(), dims)?;
            time_building(rt, dims, &points)?;
            let boxes = Boxes::build(rt, rt.alloc(), dims, &points)?;
            let hints = hints_of_codes(rt, boxes.codes())?;
            answer_scripts(rt, &boxes, &hints, scripts)
        }
        _ => bail!("usage: bench box POINTS DIMS SCRIPT.."),
    }
}

/// Reads points, and prints how long that takes.
pub fn points_of<R: AllocGlobal + Files + Print + Clock>(
    rt: &R,
    name: &str,
    dims: u32,
) -> Result<Vec<u32>>
    requires { IsDimension dims }
    ensures { IfOk result (λ points. ArePoints dims points.items) }
{
    let start = Instant::now(rt)?;
    let mut files = FileShelf::new(rt);
    ensure!(files.take_file(name).is_ok(), "the point file isn't there");
    let points = read_points(rt.alloc(), &mut files, dims)?;
    let reading = start.elapsed(rt)?.as_secs_f64();
    println!(rt; "read {reading}")?;
    Ok(points)
}

/// Times building the boxes of points.
fn time_building<R: AllocGlobal + Print + Clock + Threads + Sync>(
    rt: &R,
    dims: u32,
    points: &[u32],
) -> Result<()>
    requires dimension { IsDimension dims }
    requires points { ArePoints dims points.now }
{
    let mut least = Duration::MAX;
    let mut many = 0;
    for _ in 0..ROUNDS {
        let start = Instant::now(rt)?;
        many = count_built(rt, rt.alloc(), dims, points)?;
        least = least.min(start.elapsed(rt)?);
    }
    let building = least.as_secs_f64();
    println!(rt; "points {many} build {building}")?;
    Ok(())
}

fn count_built<R: Threads + Sync>(
    rt: &R,
    alloc: Global,
    dims: u32,
    points: &[u32],
) -> Result<usize, AllocError>
    requires dimension { IsDimension dims }
    requires points { ArePoints dims points.now }
{
    let boxes = Boxes::build(rt, alloc, dims, points)?;
    Ok(boxes.codes().len())
}

/// The hints of codes. Prints how many bytes the codes and the hints have, and the seconds of
/// making the hints.
fn hints_of_codes<R: AllocGlobal + Print + Clock>(rt: &R, codes: &[u64]) -> Result<Vec<u64>> {
    let (hints, building) = hints_for(rt, codes, EPS)?;
    let (codes, bytes) = (bytes_of(codes), bytes_of(&hints));
    println!(rt; "codes {codes} hints {bytes} build {building}")?;
    Ok(hints)
}

/// Answers the boxes of each script in each way, and jumps.
fn answer_scripts<R: AllocGlobal + Files + Print + Clock>(
    rt: &R,
    boxes: &Boxes,
    hints: &[u64],
    scripts: &[String],
) -> Result<()> {
    for script in scripts {
        let name = script.as_str();
        let lines = lines_of(rt, name, boxes.dims())?;
        println!(rt; "script {name} boxes {}", lines.len())?;
        answer(rt, boxes, hints, &lines)?;
        time_jumps(rt, boxes, &lines)?;
    }
    Ok(())
}

/// The lines of a script.
fn lines_of<R: AllocGlobal + Files>(rt: &R, name: &str, dims: u32) -> Result<Vec<ScriptLine>>
    requires { IsDimension dims }
    ensures { IfOk result (λ lines. All (IsLineOf (ScriptKind.Region dims)) lines.items) }
{
    let mut files = FileShelf::new(rt);
    ensure!(files.take_file(name).is_ok(), "a script isn't there");
    let text = read_text(rt.alloc(), &mut files, SCRIPT_LIMIT)?;
    Ok(parse(rt.alloc(), ScriptKind::Region(dims), &text)?)
}

/// Answers all boxes of a script in each way, and prints what they have and what each took.
fn answer<R: AllocGlobal + Print + Clock>(
    rt: &R,
    boxes: &Boxes,
    hints: &[u64],
    lines: &[ScriptLine],
) -> Result<()>
    requires { All (IsLineOf (ScriptKind.Region boxes.now.dims)) lines.now }
{
    let (counting, counted) = least_of(rt, ANSWERS, || Ok(count_all(boxes, lines)))?;
    let (placing, placed) = least_of(rt, ANSWERS, || Ok(count_all_places(boxes, hints, lines)))?;
    let (filling, filled) = least_of(
        rt,
        ANSWERS,
        ||
            requires { All (IsLineOf (ScriptKind.Region boxes.now.dims)) lines.now }
        { Ok(fill_all(rt.alloc(), boxes, lines)?) },
    )?;
    let (visiting, (visited, sum)) = least_of(rt, ANSWERS, || Ok(visit_all(boxes, lines)))?;
    ensure!(counted == filled && counted == visited, "the ways differ");
    let Answered { found, looked } = counted;
    ensure!(placed == found, "the places differ");
    println!(rt; "found {found} looked {looked} checksum {sum}")?;
    tell(rt, "count", counting, lines.len())?;
    tell(rt, "places", placing, lines.len())?;
    tell(rt, "fill", filling, lines.len())?;
    tell(rt, "visit", visiting, lines.len())
}

fn tell<R: Print>(rt: &R, way: &str, taken: Duration, many: usize) -> Result<()> {
    let each = nanos_each(taken, many);
    println!(rt; "{way} {each:.1}")?;
    Ok(())
}

/// The region of a line.
#[inline(always)]
fn region_in(dims: u32, line: &ScriptLine) -> Option<Region>
    requires { IsLineOf (ScriptKind.Region dims) line.now }
    ensures dims { IfSome result (λ region. region.d ≡ dims) }
    ensures region { IfSome result (λ region. IsRegion region) }
{
    match line {
        ScriptLine::Region(region) => Some(*region),
        _ => None,
    }
}

/// Counts the points of all boxes.
fn count_all(boxes: &Boxes, lines: &[ScriptLine]) -> Answered
    requires { All (IsLineOf (ScriptKind.Region boxes.now.dims)) lines.now }
{
    let mut all = Answered::default();
    for i in 0..lines.len() {
        if let Some(region) = region_in(boxes.dims(), &lines[i]) {
            let (found, looked) = boxes.count(&region);
            all.add(found, looked);
        }
    }
    all
}

/// Counts the places of the codes of all boxes, which stay where they are.
fn count_all_places(boxes: &Boxes, hints: &[u64], lines: &[ScriptLine]) -> u64
    requires { All (IsLineOf (ScriptKind.Region boxes.now.dims)) lines.now }
{
    let codes = boxes.codes();
    let mut found = 0u64;
    for i in 0..lines.len() {
        if let Some(region) = region_in(boxes.dims(), &lines[i]) {
            let many = count_places(codes, hints, &Corners::of(&region));
            found = found.wrapping_add(many as u64);
        }
    }
    found
}

/// Fills a list with the points of each box in turn.
fn fill_all(alloc: Global, boxes: &Boxes, lines: &[ScriptLine]) -> Result<Answered, AllocError>
    requires { All (IsLineOf (ScriptKind.Region boxes.now.dims)) lines.now }
{
    let mut found = Vec::with_capacity(alloc, boxes.codes().len())?;
    let mut all = Answered::default();
    for i in 0..lines.len() {
        if let Some(region) = region_in(boxes.dims(), &lines[i]) {
            let looked = fill_one(boxes, &region, &mut found);
            all.add(found.len() as u64, looked);
        }
    }
    Ok(all)
}

/// Fills a list that has room for all points, and gives at how many places was looked.
fn fill_one(boxes: &Boxes, region: &Region, found: &mut Vec<u64>) -> u64
    requires region { IsRegion region.now }
    requires dims { region.now.d ≡ boxes.now.dims }
{
    found.clear();
    let codes = boxes.codes();
    if found.capacity() < codes.len() {
        return 0;
    }
    boxes.fill(region, found)
}

/// Goes over the points of each box in turn, and sums up their coordinates.
fn visit_all(boxes: &Boxes, lines: &[ScriptLine]) -> (Answered, u64)
    requires { All (IsLineOf (ScriptKind.Region boxes.now.dims)) lines.now }
{
    let mut all = Answered::default();
    let mut visit = Visit::new(boxes.dims());
    for i in 0..lines.len() {
        if let Some(region) = region_in(boxes.dims(), &lines[i]) {
            let (found, looked) = visit_one(boxes, &region, &mut visit);
            all.add(found, looked);
        }
    }
    (all, visit.sum())
}

/// Goes over the points of a box, by the stretches in which they stand.
fn visit_one(boxes: &Boxes, region: &Region, visit: &mut Visit) -> (u64, u64)
    requires region { IsRegion region.now }
    requires dims { region.now.d ≡ boxes.now.dims }
{
    let codes = boxes.codes();
    let corners = Corners::of(region);
    let mut walk = boxes.walk(&corners);
    let mut found = 0u64;
    while walk.at < codes.len() {
        let stretch = boxes.next_stretch(&corners, &mut walk);
        found = found.wrapping_add(stretch.len() as u64);
        visit.take(stretch);
    }
    (found, walk.looked)
}

/// Times jumps from the codes between the corners of the boxes, where they are outside.
fn time_jumps<R: AllocGlobal + Print + Clock>(
    rt: &R,
    boxes: &Boxes,
    lines: &[ScriptLine],
) -> Result<()>
    requires { All (IsLineOf (ScriptKind.Region boxes.now.dims)) lines.now }
{
    let mut jumps = Vec::new(rt.alloc());
    for i in 0..lines.len() {
        if let Some(region) = region_in(boxes.dims(), &lines[i]) {
            add_jumps(&mut jumps, boxes, &region)?;
        }
    }
    let (taken, sum) = least_of(rt, ANSWERS, || Ok(jump_all(&jumps)))?;
    println!(rt; "jumps {} sum {sum}", jumps.len())?;
    tell(rt, "jump", taken, jumps.len())
}

/// Adds codes between the corners of a box that are outside of it.
fn add_jumps(jumps: &mut Vec<Jump>, boxes: &Boxes, region: &Region) -> Result<(), AllocError>
    requires region { IsRegion region.now }
    requires dims { region.now.d ≡ boxes.now.dims }
{
    let codes = boxes.codes();
    let low = encode(region.d, &region.low);
    let high = encode(region.d, &region.high);
    let from = codes.partition_point(|code| *code < low);
    let to = codes.partition_point(|code| *code < high);
    let step = to.saturating_sub(from) / JUMPS + 1;
    for k in 0..JUMPS {
        let place = from.saturating_add(step.saturating_mul(k));
        if place < to.min(codes.len()) && !inside(region, codes[place]) {
            jumps.push(Jump {
                region: *region,
                code: codes[place],
            })?;
        }
    }
    Ok(())
}

/// Makes all jumps, and sums up the codes to which they lead.
fn jump_all(jumps: &[Jump]) -> u64 {
    let mut sum = 0u64;
    for jump in jumps {
        let next = next_in_box(jump.code, &jump.region);
        sum = sum.wrapping_add(next.unwrap_or(0));
    }
    sum
}
