// The command `near`.
ghost use Rattle.std.specs.Prelude.{◌≡◌, ◌≤◌, ℕ, List, All, length, map, min, vec_capacity};
ghost use Rattle.zorder.specs.Codes.{IsCode, IsDimension, IsInRange};
ghost use Rattle.written.specs.Writing.{WritesPieces, WritesTold, WritesText};
ghost use Rattle.commands.specs.declared.task.Centre.{Centre as Asked};
ghost use Rattle.written.specs.InTurn.{TellsEach};
ghost use Rattle.commands.specs.Texts.Neighbours.{IsNearest, TellsNear, near_line};
ghost use Rattle.commands.specs.Texts.Neighbours.{neighbour_line};

use crate::coordinates::push_coordinates;
use crate::task::{Centre, Neighbours};
use boxes::Boxes;
use edge::{Failed, Sink};
use near::{nearest_into, room_for};
use std::alloc::Global;
use std::thread::Threads;
use written::{TextLine, Unfinished, hand_over};

/// Writes the points that are nearest to each centre, and in how many boxes they are looked for.
///
/// All memory is taken before the first byte: for the sorted codes, their index, and the longest
/// answer.
pub fn write<R: Threads + Sync, S: Sink>(
    rt: &R,
    alloc: Global,
    neighbours: Neighbours,
    out: &mut S,
) -> Result<(), Unfinished>
    ensures { WritesText S.Sink out.old result out.new
        (IsNearest neighbours.points.dims neighbours.points.coords.items
        neighbours.centres.items) }
{
    let boxes = Boxes::build(rt, alloc, neighbours.points.dims, &neighbours.points.coords)?;
    let room = greatest_room(&boxes, &neighbours.centres);
    let mut points = Vec::with_capacity(alloc, room)?;
    Ok(write_answers(out, &boxes, &neighbours.centres, &mut points)?)
}

/// How many points the longest answer has.
fn greatest_room(boxes: &Boxes, centres: &[Centre]) -> usize
    ensures room { All (λ centre. min (length boxes.now.codes) centre.count ≤ result) centres.now }
    ensures answered { All (λ centre. (pieces : List (List ℕ))
        × TellsNear boxes.now.dims boxes.now.codes centre pieces) centres.now }
{
    let mut most = 0;
    for i in 0..centres.len() {
        let room = room_for(boxes, &centres[i].place, centres[i].count);
        if most < room {
            most = room;
        }
    }
    most
}

/// Writes the text lines of each centre.
fn write_answers<S: Sink>(
    out: &mut S,
    boxes: &Boxes,
    centres: &[Centre],
    points: &mut Vec<(u32, u64)>,
) -> Result<(), Failed>
    requires each { All (λ centre. IsInRange boxes.now.dims centre.place) centres.now }
    requires room { All (λ centre. min (length boxes.now.codes) centre.count
        ≤ vec_capacity points.old) centres.now }
    requires codes { All (IsCode boxes.now.dims) boxes.now.codes }
    requires answered { All (λ centre. (pieces : List (List ℕ))
        × TellsNear boxes.now.dims boxes.now.codes centre pieces) centres.now }
    ensures { WritesTold S.Sink out.old result out.new
        (TellsEach (TellsNear boxes.now.dims boxes.now.codes) centres.now) }
{
    let mut line = TextLine::new();
    for i in 0..centres.len() {
        write_answer(out, &mut line, boxes, &centres[i], points)?;
    }
    Ok(())
}

/// Writes the text lines of a centre.
fn write_answer<S: Sink>(
    out: &mut S,
    line: &mut TextLine,
    boxes: &Boxes,
    centre: &Centre,
    points: &mut Vec<(u32, u64)>,
) -> Result<(), Failed>
    requires centre { IsInRange boxes.now.dims centre.now.place }
    requires codes { All (IsCode boxes.now.dims) boxes.now.codes }
    requires room { min (length boxes.now.codes) centre.now.count ≤ vec_capacity points.old }
    ensures told { WritesTold S.Sink out.old result out.new
        (TellsNear boxes.now.dims boxes.now.codes centre.now) }
    ensures capacity { vec_capacity points.old ≤ vec_capacity points.new }
{
    let looked = nearest_into(boxes, &centre.place, centre.count, points);
    fill_near_line(line, points.len(), looked);
    hand_over(out, line.as_bytes())?;
    write_points(out, line, boxes.dims(), points)
}

/// Writes a text line for each point, of its distance and its code.
fn write_points<S: Sink>(
    out: &mut S,
    line: &mut TextLine,
    d: u32,
    points: &[(u32, u64)],
) -> Result<(), Failed>
    requires dimension { IsDimension d }
    requires codes { All (λ point. IsCode d point.1) points.now }
    ensures { WritesPieces S.Sink out.old result out.new (map (neighbour_line d) points.now) }
{
    for i in 0..points.len() {
        fill_neighbour_line(line, d, points[i]);
        hand_over(out, line.as_bytes())?;
    }
    Ok(())
}

fn fill_near_line(line: &mut TextLine, found: usize, looked: u32)
    ensures { line.new ≡ near_line found looked }
{
    line.clear();
    line.push(b"near");
    line.push_number(found);
    line.push_number(looked);
    line.push(b"\n");
}

fn fill_neighbour_line(line: &mut TextLine, d: u32, point: (u32, u64))
    requires dimension { IsDimension d }
    requires code { IsCode d point.1 }
    ensures { line.new ≡ neighbour_line d point }
{
    line.clear();
    line.push(b"point");
    line.push_number(point.1);
    line.push_number(point.0);
    push_coordinates(line, d, point.1);
    line.push(b"\n");
}

/// Points and centres have one text of `near`: it depends on nothing else, so not on the order in
/// which threads sort. It does nothing.
pub fn one_near()
    ensures { (d : ℕ) (coords : List ℕ) (centres : List Asked) (one two : List (List ℕ))
        → IsDimension d → IsNearest d coords centres one → IsNearest d coords centres two
        → one ≡ two }
{}
