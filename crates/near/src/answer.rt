// What was found near a centre.
ghost use Rattle.std.specs.Prelude.{◌≡◌};

use std::marker::Model;

/// The answer for a centre: the nearest points, and in how many boxes they were looked for. Seen as
/// a record of the list of their distances and codes, and that number.
#[derive(Drop)]
pub struct Near {
    points: Vec<(u32, u64)>,
    boxes: u32,
}

impl Model for Near {
    ghost use Rattle.near.specs.Nearest.{NearAnswer};

    ghost Value = { NearAnswer };

    ghost view = { λ near. record { points = near.points.items; boxes = near.boxes } };
}

impl Near {
    /// An answer of its parts.
    pub(crate) fn new(points: Vec<(u32, u64)>, boxes: u32) -> Near
        ensures points { result.points ≡ points.items }
        ensures boxes { result.boxes ≡ boxes }
    {
        Near { points, boxes }
    }

    /// Of each point how far it is from the centre and its code, by distance, and those that are
    /// equally far by code. Takes no memory.
    pub fn points(&self) -> &[(u32, u64)]
        ensures { result.now ≡ self.now.points }
    {
        &self.points
    }

    /// In how many boxes was looked: 0 where no point was found, and at most 33. Takes no memory.
    pub fn boxes(&self) -> u32
        ensures { result ≡ self.now.boxes }
    {
        self.boxes
    }
}
