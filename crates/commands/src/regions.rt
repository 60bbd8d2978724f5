// The command `box`.
ghost use Rattle.std.specs.Prelude.{◌≡◌, ◌≤◌, ℕ, List, All};
ghost use Rattle.std.specs.Prelude.{length, map, vec_capacity};
ghost use Rattle.zorder.specs.Codes.{IsCode, IsDimension};
ghost use Rattle.zorder.specs.declared.regions.Region.{Region as SearchedRegion};
ghost use Rattle.boxes.specs.BoxAnswers.{codes_inside};
ghost use Rattle.written.specs.Writing.{WritesPieces, WritesTold, WritesText};
ghost use Rattle.zorder.specs.Regions.{IsRegionOf};
ghost use Rattle.written.specs.InTurn.{TellsEach};
ghost use Rattle.commands.specs.Texts.Regions.{IsSearched, TellsRegion, box_line, point_line};

use crate::coordinates::push_coordinates;
use crate::task::Search;
use boxes::Boxes;
use edge::{Failed, Sink};
use std::alloc::Global;
use std::thread::Threads;
use written::{TextLine, Unfinished, hand_over};
use zorder::Region;

/// Writes the points in each region, and at how many places was looked.
///
/// All memory is taken before the first byte: for the sorted codes, their index, and the codes of
/// the greatest answer.
pub fn write<R: Threads + Sync, S: Sink>(
    rt: &R,
    alloc: Global,
    search: Search,
    out: &mut S,
) -> Result<(), Unfinished>
    ensures { WritesText S.Sink out.old result out.new
        (IsSearched search.points.dims search.points.coords.items search.regions.items) }
{
    let boxes = Boxes::build(rt, alloc, search.points.dims, &search.points.coords)?;
    let room = greatest_answer(&boxes, &search.regions);
    let mut found = Vec::with_capacity(alloc, room)?;
    Ok(write_answers(out, &boxes, &search.regions, &mut found)?)
}

/// How many codes are inside the region that has the most.
fn greatest_answer(boxes: &Boxes, regions: &[Region]) -> usize
    requires { All (IsRegionOf boxes.now.dims) regions.now }
    ensures most { All (λ region. length (codes_inside region boxes.now.codes) ≤ result)
        regions.now }
    ensures answered { All (λ region. (pieces : List (List ℕ))
        × TellsRegion boxes.now.codes region pieces) regions.now }
{
    let mut most = 0;
    for i in 0..regions.len() {
        let (count, _) = boxes.count(&regions[i]);
        if most < count as usize {
            most = count as usize;
        }
    }
    most
}

/// Writes the text lines of each region.
fn write_answers<S: Sink>(
    out: &mut S,
    boxes: &Boxes,
    regions: &[Region],
    found: &mut Vec<u64>,
) -> Result<(), Failed>
    requires each { All (IsRegionOf boxes.now.dims) regions.now }
    requires room { All (λ region. length (codes_inside region boxes.now.codes)
        ≤ vec_capacity found.old) regions.now }
    requires codes { All (IsCode boxes.now.dims) boxes.now.codes }
    requires answered { All (λ region. (pieces : List (List ℕ))
        × TellsRegion boxes.now.codes region pieces) regions.now }
    ensures { WritesTold S.Sink out.old result out.new
        (TellsEach (TellsRegion boxes.now.codes) regions.now) }
{
    let mut line = TextLine::new();
    for i in 0..regions.len() {
        write_answer(out, &mut line, boxes, &regions[i], found)?;
    }
    Ok(())
}

/// Writes the text lines of a region.
fn write_answer<S: Sink>(
    out: &mut S,
    line: &mut TextLine,
    boxes: &Boxes,
    region: &Region,
    found: &mut Vec<u64>,
) -> Result<(), Failed>
    requires region { IsRegionOf boxes.now.dims region.now }
    requires codes { All (IsCode boxes.now.dims) boxes.now.codes }
    requires room { length (codes_inside region.now boxes.now.codes) ≤ vec_capacity found.old }
    ensures told { WritesTold S.Sink out.old result out.new
        (TellsRegion boxes.now.codes region.now) }
    ensures capacity { vec_capacity found.old ≤ vec_capacity found.new }
{
    found.clear();
    let looked = boxes.fill(region, found);
    fill_box_line(line, found.len(), looked);
    hand_over(out, line.as_bytes())?;
    write_points(out, line, region.d, found)
}

/// Writes a text line for each code.
fn write_points<S: Sink>(
    out: &mut S,
    line: &mut TextLine,
    d: u32,
    codes: &[u64],
) -> Result<(), Failed>
    requires dimension { IsDimension d }
    requires codes { All (IsCode d) codes.now }
    ensures { WritesPieces S.Sink out.old result out.new (map (point_line d) codes.now) }
{
    for i in 0..codes.len() {
        fill_point_line(line, d, codes[i]);
        hand_over(out, line.as_bytes())?;
    }
    Ok(())
}

fn fill_box_line(line: &mut TextLine, found: usize, looked: u64)
    ensures { line.new ≡ box_line found looked }
{
    line.clear();
    line.push(b"box");
    line.push_number(found);
    line.push_number(looked);
    line.push(b"\n");
}

fn fill_point_line(line: &mut TextLine, d: u32, code: u64)
    requires dimension { IsDimension d }
    requires code { IsCode d code }
    ensures { line.new ≡ point_line d code }
{
    line.clear();
    line.push(b"point");
    line.push_number(code);
    push_coordinates(line, d, code);
    line.push(b"\n");
}

/// Points and regions have one text of `box`: it depends on nothing else, so not on the order in
/// which threads sort. It does nothing.
pub fn one_box()
    ensures { (d : ℕ) (coords : List ℕ) (regions : List SearchedRegion)
        (one two : List (List ℕ)) → IsSearched d coords regions one
        → IsSearched d coords regions two → one ≡ two }
{}
