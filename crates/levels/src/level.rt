// A level as it is kept.

use crate::model::RunModel;
use exact_cross::Segment;

// What the docs say that a run takes.
const _: () = prove!(size_of::<Segment>() == 72);

const _: () = prove!(size_of::<RunModel>() == 48);

/// The segments of a level with the models of their runs, and above level 0 the x of its points:
/// the first x of the runs below.
#[derive(Drop)]
pub struct Level {
    pub segments: Vec<Segment>,
    pub models: Vec<RunModel>,
    pub xs: Vec<u64>,
}

/// The segments over a list of points, with the models of their runs.
#[derive(Drop)]
pub struct Runs {
    pub segments: Vec<Segment>,
    pub models: Vec<RunModel>,
}
