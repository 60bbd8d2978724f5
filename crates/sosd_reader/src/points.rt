// Reading a point file.
ghost use Rattle.std.specs.Prelude.{◌≡◌, ◌⊎◌, ◌≤◌, ◌+◌, ◌/◌, ℕ, List, Result};
ghost use Rattle.std.specs.Prelude.{length, vec_len, vec_capacity};
ghost use Rattle.std.specs.Prelude.{IfOk, IfErr, OnOk, IfSome, MatchResult};
ghost use Rattle.edge.specs.Risen.{StaysQuiet};
ghost use Rattle.zorder.specs.Codes.{IsDimension};
ghost use Rattle.zorder.specs.Points.{ArePoints};
ghost use Rattle.sosd_reader.specs.NumberFiles.{AllFollow};
ghost use Rattle.sosd_reader.specs.NumberFiles.Kind.{of_points};
ghost use Rattle.sosd_reader.specs.PointFiles.{ReadsAsPoints, PointReadingsAreOne};
ghost use Rattle.sosd_reader.specs.Reading.{GoesOn, StopsAs, ReadsFile};

use crate::KeyFault;
use crate::number_list::{NumberList, first_u32};
use crate::reading::read_file;
use edge::Shelf;
use std::alloc::{AllocError, Global};
use zorder::fits_range;

/// Any bytes have exactly one reading as a point file, of each dimension. It does nothing.
pub fn point_readings_are_one()
    ensures { (d : ℕ) → PointReadingsAreOne d }
{}

/// The points of the taken file: the `d` coordinates of the first point, then those of the second,
/// and so on. `d` is from 2 to 4.
///
/// Memory is taken by chunks of at most 65,536 coordinates, each exactly and before its bytes are
/// read, and never by the file's own count. At most one byte past the last coordinate is read, and
/// none past a count that is too great.
///
/// # Errors
///
/// The first fault in the order of the bytes that were left to read:
///
/// - `TooMany` where the first eight bytes say 2^32 points or more.
/// - `Wide` where one of the coordinates that are whole is out of the range of `d`: is 2^32, 2^21
///   or 2^16 or more, as `d` is 2, 3 or 4. Coordinates are judged after each chunk, so what is
///   wrong behind that chunk isn't seen.
/// - `Short` where the bytes end before the count or the last coordinate does, and the coordinates
///   that are whole are in range. `got` counts all bytes, those of the count too.
/// - `Trailing` where a byte follows the last coordinate.
///
/// `ReadFault` at once where the shelf failed, and the coordinates of that chunk aren't judged;
/// then nothing is left. `NoMemory` where memory for the next chunk wasn't found. Never `Unsorted`.
/// After each the coordinates are given up.
pub fn read_points<F: Shelf>(alloc: Global, shelf: &mut F, d: u32) -> Result<Vec<u32>, KeyFault>
    requires { IsDimension d }
    // The files stay, and the count of faults rises only where the shelf failed. Where the shelf
    // tells the bytes: their one reading, unless it failed or memory ran out. What is left is what
    // was left, but for a front part: one byte past the last coordinate, at most.
    ensures reading { ReadsFile F.Shelf (of_points d) (λ points. points.items)
        shelf.old result shelf.new }
    ensures wherever { IfSome (F.rest shelf.old)
        (λ bytes. (reading : Result (List ℕ) KeyFault) → ReadsAsPoints d bytes reading →
        StaysQuiet (F.faults shelf.old) (F.faults shelf.new) →
        MatchResult result (λ points. reading ≡ Ok points.items)
        (λ fault. (fault ≡ KeyFault.NoMemory) ⊎ (reading ≡ Err fault))) }

    // Told or not.
    ensures are_points { IfOk result (λ points. ArePoints d points.items) }
{
    let mut list = PointList {
        coords: Vec::new(alloc),
        d,
    };
    read_file(alloc, shelf, &mut list)?;
    let PointList { coords, d: _ } = list;
    Ok(coords)
}

/// The coordinates of points, all in range.
#[derive(Drop)]
struct PointList {
    coords: Vec<u32>,
    d: u32,
    ghost dimension: { IsDimension d },
}

impl NumberList for PointList {
    ghost kind = { λ list. of_points list.d };

    ghost list = { λ list. list.coords.items };

    ghost room = { λ list. vec_capacity list.coords };

    fn width(&self) -> usize {
        4
    }

    fn each(&self) -> usize {
        self.d as usize
    }

    fn len(&self) -> usize {
        self.coords.len()
    }

    fn reserve(&mut self, more: usize) -> Result<(), AllocError> {
        self.coords.reserve_exact(more)
    }

    fn take_in(&mut self, bytes: &[u8]) -> Result<(), KeyFault> {
        push_coords(self.d, &mut self.coords, bytes)
    }
}

/// Adds the whole numbers of these bytes, and stops at one that is out of range.
fn push_coords(d: u32, coords: &mut Vec<u32>, bytes: &[u8]) -> Result<(), KeyFault>
    requires dimension { IsDimension d }
    requires all_follow { AllFollow (of_points d) coords.old.items }
    requires room { vec_len coords.old + length bytes.now / 4 ≤ vec_capacity coords.old }
    ensures coords { OnOk result (GoesOn 4 coords.old.items bytes.now coords.new.items) }
    ensures len { OnOk result (vec_len coords.new ≡ vec_len coords.old + length bytes.now / 4) }
    ensures all_follow { OnOk result (AllFollow (of_points d) coords.new.items) }
    ensures fault { IfErr result
        (StopsAs (of_points d) (length bytes.now / 4) coords.old.items bytes.now) }
{
    for i in 0..bytes.len() / 4 {
        let value = first_u32(&bytes[4 * i..]);
        if !fits_range(d, value) {
            let at = coords.len() as u64;
            return Err(KeyFault::Wide { at, value });
        }
        coords.push_reserved(value);
    }
    Ok(())
}
