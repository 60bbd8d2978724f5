// What a region asks for: counted, filled in, or as a whole.
ghost use Rattle.std.specs.Prelude.{◌≡◌, ◌≤◌, ℕ, List, length, vec_len, vec_capacity, IfOk};
ghost use Rattle.zorder.specs.declared.regions.Region.{Region};
ghost use Rattle.zorder.specs.Regions.{IsRegion};
ghost use Rattle.boxes.specs.PointCodes.{AreSortedCodes};
ghost use Rattle.boxes.specs.BoxAnswers.{codes_inside, IsLooked};

use crate::{Boxes, Found};
use budget::NoMemory;
use std::alloc::Global;
use zorder::{Corners, Region};

impl Boxes {
    /// The codes that are inside a region, and at how many places was looked.
    ///
    /// The region has as many coordinates as the points, and the ends of its intervals are in their
    /// range. An empty region has no code inside, and for it no place is looked at.
    ///
    /// # Errors
    ///
    /// `NoMemory` alone, before the codes are gone through.
    ///
    /// Source: Tropf and Herzog, Angewandte Informatik 2/1981.
    pub fn search(&self, alloc: Global, region: &Region) -> Result<Found, NoMemory>
        requires region { IsRegion region.now }
        requires dims { region.now.d ≡ self.now.dims }
        ensures codes { IfOk result
            (λ found. found.codes ≡ codes_inside region.now self.now.codes) }
        ensures looked { IfOk result (λ found. IsLooked region.now self.now.codes found.looked) }
    {
        let (count, _) = self.count(region);
        let mut codes = Vec::with_capacity(alloc, count as usize)?;
        let looked = self.fill(region, &mut codes);
        Ok(Found::new(codes, looked))
    }

    /// How many codes are inside a region, and at how many places was looked.
    ///
    /// The conditions are those of [`Boxes::search`]. Cannot fail and takes no memory.
    pub fn count(&self, region: &Region) -> (u64, u64)
        requires region { IsRegion region.now }
        requires dims { region.now.d ≡ self.now.dims }
        ensures found { result.0 ≡ length (codes_inside region.now self.now.codes) }
        ensures looked { IsLooked region.now self.now.codes result.1 }
    {
        let corners = Corners::of(region);
        let mut walk = self.walk(&corners);
        let mut found = 0;
        while walk.at < self.codes().len() {
            found += self.next_stretch(&corners, &mut walk).len() as u64;
        }
        (found, walk.looked)
    }

    /// Fills a vector with the codes that are inside a region, in rising order, and gives at how
    /// many places was looked.
    ///
    /// The vector is empty and has room for as many as [`Boxes::count`] says. The other conditions
    /// are those of [`Boxes::search`]. Cannot fail and takes no memory.
    pub fn fill(&self, region: &Region, into: &mut Vec<u64>) -> u64
        requires region { IsRegion region.now }
        requires dims { region.now.d ≡ self.now.dims }
        requires empty { vec_len into.old ≡ 0 }
        requires room { length (codes_inside region.now self.now.codes) ≤ vec_capacity into.old }
        ensures codes { into.new.items ≡ codes_inside region.now self.now.codes }
        ensures looked { IsLooked region.now self.now.codes result }
        ensures capacity { vec_capacity into.old ≤ vec_capacity into.new }
    {
        let corners = Corners::of(region);
        let mut walk = self.walk(&corners);
        while walk.at < self.codes().len() {
            let stretch = self.next_stretch(&corners, &mut walk);
            into.extend_from_slice(stretch).unwrap();
        }
        walk.looked
    }
}

/// Points have one list of sorted codes, and a region asks those for one number of places that are
/// looked at. It does nothing.
pub fn one_answer()
    ensures codes { (d : ℕ) (points one two : List ℕ) → AreSortedCodes d points one
        → AreSortedCodes d points two → one ≡ two }
    ensures looked { (region : Region) (codes : List ℕ) (one two : ℕ) → IsLooked region codes one
        → IsLooked region codes two → one ≡ two }
{}
