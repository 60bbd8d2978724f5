// The points of keys, made where they are asked for.
ghost use Rattle.std.specs.Prelude.{◌≡◌, ◌<◌, ◌^◌, length, IfOk};
ghost use Rattle.std.specs.List.Sorted.{IsNonDecreasing, IsStrictlyIncreasing};
ghost use Rattle.key_points.specs.KeyPoints.{distinct_of, xs_of, ys_of};

use crate::alone::count_distinct;
use crate::parts::{Parts, parts_of};
use crate::placed::places_of;
use budget::NoMemory;
use exact_cross::PointList;
use std::alloc::Global;
use std::marker::Model;

/// The points of sorted keys, which are borrowed. Seen as the list of the keys.
///
/// They are made for those who build or check an index, and dropped after: no lookup reads them.
/// Where no key repeats, the keys are the x, and the y alone are made.
#[derive(Drop)]
pub struct KeyPoints<'a> {
    keys: &'a [u64],
    /// The x, where they aren't the keys.
    xs: Option<Vec<u64>>,
    ys: Vec<u32>,
}

impl<'a> Model for KeyPoints<'a> {
    ghost use Rattle.std.specs.Prelude.{◌≡◌, List, ℕ};
    ghost use Rattle.std.specs.Option.{MatchOption};
    ghost use Rattle.key_points.specs.KeyPoints.{xs_of};
    ghost use Rattle.key_points.specs.Shown.{HasHeights};

    ghost Value = { List ℕ };

    ghost view = { λ points. points.keys.now };

    ghost invariant = { λ points. HasHeights points.keys.now points.ys.items
        × MatchOption points.xs (xs_of points.keys.now ≡ points.keys.now)
        (λ xs. xs.items ≡ xs_of points.keys.now) };
}

impl<'a> KeyPoints<'a> {
    /// The points of keys.
    ///
    /// It takes 4 bytes a key where none repeats, and at most 12 where one does.
    ///
    /// # Errors
    ///
    /// `NoMemory` alone.
    pub fn of(alloc: Global, keys: &'a [u64]) -> Result<KeyPoints<'a>, NoMemory>
        requires never_falls { IsNonDecreasing keys.now }
        requires few { length keys.now < 2 ^ 32 }
        ensures { IfOk result (λ points. points ≡ keys.now) }
    {
        KeyPoints::counted(alloc, keys, count_distinct(keys))
    }

    /// The points of keys of which it is known how many are distinct.
    pub(crate) fn counted(
        alloc: Global,
        keys: &'a [u64],
        count: usize,
    ) -> Result<KeyPoints<'a>, NoMemory>
        requires never_falls { IsNonDecreasing keys.now }
        requires few { length keys.now < 2 ^ 32 }
        requires counted { count ≡ length (distinct_of keys.now) }
        ensures { IfOk result (λ points. points ≡ keys.now) }
    {
        if count == keys.len() {
            let ys = places_of(alloc, keys.len() as u32)?;
            return Ok(KeyPoints { keys, xs: None, ys });
        }
        let Parts { xs, ys } = parts_of(alloc, keys, count)?;
        Ok(KeyPoints {
            keys,
            xs: Some(xs),
            ys,
        })
    }

    /// The keys, in order.
    pub fn keys(&self) -> &[u64]
        ensures keys { result.now ≡ self.now }
        ensures never_falls { IsNonDecreasing result.now }
        ensures few { length result.now < 2 ^ 32 }
    {
        self.keys
    }

    /// The points: their x, which rise, and for each x how many of the keys are below it.
    pub fn points(&self) -> PointList<'_>
        ensures xs { result.xs.now ≡ xs_of self.now }
        ensures ys { result.ys.now ≡ ys_of self.now }
    {
        PointList::new(self.xs(), &self.ys)
    }

    fn xs(&self) -> &[u64]
        ensures points { result.now ≡ xs_of self.now }
        ensures rising { IsStrictlyIncreasing result.now }
        ensures few { length result.now < 2 ^ 32 }
    {
        match &self.xs {
            Some(xs) => xs,
            None => self.keys,
        }
    }
}
