// Points, by their sorted codes and an index over them.
ghost use Rattle.std.specs.Prelude.{◌≡◌, ◌+◌, ◌<◌, ◌^◌, length, All, IfOk};
ghost use Rattle.std.specs.List.Sorted.{IsNonDecreasing};
ghost use Rattle.zorder.specs.Codes.{IsCode, IsDimension};
ghost use Rattle.zorder.specs.Points.{ArePoints};
ghost use Rattle.levels.specs.Indexes.{IsIndex};
ghost use Rattle.window_search.specs.Searches.{lb};
ghost use Rattle.boxes.specs.PointCodes.{AreSortedCodes};

use crate::codes::sorted_codes;
use budget::NoMemory;
use levels::{Index, Keys};
use options::{Bounds, EPS, EPS_REC};
use std::alloc::Global;
use std::marker::Model;
use std::thread::Threads;

/// Points of two, three or four coordinates, kept for the search of boxes. Seen as a record of
/// their number of coordinates, of their codes, sorted, each as often as there are points with it,
/// and of the index over the codes.
///
/// 1. The codes never fall, and are fewer than 2^32.
/// 2. They stand once, as the keys of the index.
/// 3. The index has the error bound 64 at level 0, and 4 above it.
#[derive(Drop)]
pub struct Boxes {
    d: u32,
    index: Index,
}

impl Model for Boxes {
    ghost use Rattle.boxes.specs.PointCodes.{PointCodes, AreCodes};

    ghost Value = { PointCodes };

    ghost view = { λ boxes. record {
      dims = boxes.d;
      codes = boxes.index.keys;
      index = boxes.index;
    } };

    ghost invariant = { λ boxes. AreCodes boxes.d boxes.index.keys };
}

impl Boxes {
    /// The points whose coordinates are given, all those of the first point, then those of the
    /// second, and so on.
    ///
    /// `d` is how many coordinates a point has, from 2 to 4; there are fewer than 2^32 points, and
    /// each coordinate is in the range of `d`. The codes are sorted by threads; where none can be
    /// started the caller sorts.
    ///
    /// # Errors
    ///
    /// `NoMemory` alone.
    pub fn build(
        rt: &(impl Threads + Sync),
        alloc: Global,
        d: u32,
        points: &[u32],
    ) -> Result<Boxes, NoMemory>
        requires dimension { IsDimension d }
        requires points { ArePoints d points.now }
        ensures dims { IfOk result (λ boxes. boxes.dims ≡ d) }
        ensures codes { IfOk result (λ boxes. AreSortedCodes d points.now boxes.codes) }
        ensures each { IfOk result (λ boxes. All (λ z. IsCode d z) boxes.codes) }
        ensures index { IfOk result (λ boxes. IsIndex boxes.codes 64 4 boxes.index.levels) }
    {
        let codes = sorted_codes(rt, alloc, d, points)?;
        let keys = Keys::of(codes);
        let bounds = Bounds {
            eps: EPS,
            eps_rec: EPS_REC,
        };
        let index = Index::of(alloc, keys, bounds)?;
        Ok(Boxes { d, index })
    }

    /// How many coordinates each point has, from 2 to 4. Takes no memory.
    pub fn dims(&self) -> u32
        ensures dims { result ≡ self.now.dims }
        ensures dimension { IsDimension result }
    {
        self.d
    }

    /// The codes of the points, sorted, each as often as there are points with it. Takes no memory.
    pub fn codes(&self) -> &[u64]
        ensures codes { result.now ≡ self.now.codes }
        ensures never_falls { IsNonDecreasing result.now }
        ensures few { length result.now < 2 ^ 32 }
        ensures each { All (λ z. IsCode self.now.dims z) result.now }
        ensures dimension { IsDimension self.now.dims }
    {
        self.index.keys().as_slice()
    }

    /// The lower bound of a code: how many of the codes are below it. Takes no memory.
    pub fn lower_bound(&self, code: u64) -> usize
        ensures { result ≡ lb self.now.codes code }
    {
        let start = self.index.start_near(code) as usize;
        self.index.position_near(start, code) as usize
    }
}
