// What there is to do when all inputs are read.
ghost use Rattle.std.specs.Prelude.{◌≡◌, ◌*◌, ◌/◌, ◌<◌, ◌≤◌, ◌^◌, All, length, vec_len};
ghost use Rattle.std.specs.List.Sorted.{IsNonDecreasing};
ghost use Rattle.exact_cross.specs.declared.TheConstants.{MAX_EPSILON};
ghost use Rattle.zorder.specs.Codes.{IsDimension, IsInRange, coordinate_bits};
ghost use Rattle.zorder.specs.Regions.{IsRegionOf};

use map_commands::{History, Mixing};
use options::{Bounds, Drill, Pieces, Table, Workers};
use zorder::Region;

/// The keys of a file: they never fall, and are fewer than 2^32.
#[derive(Drop)]
pub struct SortedKeys {
    pub keys: Vec<u64>,
    pub ghost never_falls: { IsNonDecreasing keys.items },
    pub ghost few: { vec_len keys < 2 ^ 32 },
}

/// The keys of a file, and how their index is built.
#[derive(Drop)]
pub struct Indexing {
    pub sorted: SortedKeys,
    pub bounds: Bounds,
    pub workers: Workers,
}

/// The keys of a file, how their index is built, and the questions that are asked.
#[derive(Drop)]
pub struct Asking {
    pub indexing: Indexing,
    /// The questions, in turn.
    pub questions: Vec<u64>,
    /// Write the windows along each question's lookup, too.
    pub windows: bool,
    pub table: Table,
}

/// The keys of a file, how their relaxed index is built, and the questions that are asked.
#[derive(Drop)]
pub struct Relaxing {
    pub indexing: Indexing,
    pub pieces: Pieces,
    /// The questions, in turn.
    pub questions: Vec<u64>,
}

/// The points of a file.
#[derive(Drop)]
pub struct Points {
    /// How many coordinates a point has, from 2 to 4.
    pub dims: u32,
    /// All coordinates of the first point, then those of the second, and so on.
    pub coords: Vec<u32>,
    pub ghost dimension: { IsDimension dims },
    pub ghost whole: { length coords.items ≡ dims * (length coords.items / dims) },
    pub ghost few_points: { length coords.items / dims < 2 ^ 32 },
    pub ghost range: { All (λ value. value < 2 ^ coordinate_bits dims) coords.items },
}

/// Points, and the regions that are asked for.
#[derive(Drop)]
pub struct Search {
    pub points: Points,
    /// The regions, in turn.
    pub regions: Vec<Region>,
    pub ghost each: { All (IsRegionOf points.dims) regions.items },
}

/// A centre, and how many of the points nearest to it are asked for.
#[derive(Clone, Copy, Debug)]
pub struct Centre {
    /// Its coordinates, with 0 for those that points don't have.
    pub place: [u32; 4],
    /// How many points are asked for.
    pub count: u32,
}

/// Points, and the centres whose nearest points are asked for.
#[derive(Drop)]
pub struct Neighbours {
    pub points: Points,
    /// The centres, in turn.
    pub centres: Vec<Centre>,
    pub ghost each: { All (λ centre. IsInRange points.dims centre.place) centres.items },
}

/// The keys of a file, and the error bound of the hints that are made of them.
#[derive(Drop)]
pub struct Fitting {
    pub sorted: SortedKeys,
    /// The error bound ε, in places.
    pub eps: u32,
    pub ghost bounded: { eps ≤ MAX_EPSILON },
}

/// The keys of a file, hints that say where among them to look first, and questions.
#[derive(Drop)]
pub struct Lookups {
    pub sorted: SortedKeys,
    /// Any hints: no answer depends on them.
    pub hints: Vec<u64>,
    /// The questions, in turn.
    pub questions: Vec<u64>,
}

/// A command, with its inputs and its options.
#[derive(Drop)]
pub enum Task {
    /// Write how many keys and levels there are, and of each level how many runs.
    Build {
        indexing: Indexing,
    },
    /// Write the same, and each run.
    Explain {
        indexing: Indexing,
    },
    /// Write the position of each question's key, and, where asked for, the windows along its
    /// lookup in the index: those of the definition, whatever finds the position.
    Query {
        asking: Asking,
    },
    /// Write how many keys and levels a relaxed index has, of each level how many runs, how many of
    /// them level 0 may have too many, and the position of each question's key.
    Relax {
        relaxing: Relaxing,
    },
    /// Write the points in each region, and at how many places was looked.
    Box {
        search: Search,
    },
    /// Write the points that are nearest to each centre, and in how many boxes they are looked for.
    Near {
        neighbours: Neighbours,
    },
    /// Write what a map answers beside updates and after them, and how many keys it has.
    Replay {
        history: History,
    },
    /// Write in which order updates came of senders, and what a map answers beside them and after
    /// them.
    Mix {
        mixing: Mixing,
    },
    /// Write hints that say where among the keys to look first, as bytes.
    Hints {
        fitting: Fitting,
    },
    /// Write the position of each question's key, by lookups that such hints lead.
    Find {
        lookups: Lookups,
    },
    /// Write what is counted of inputs of every kind that are drawn.
    Drill {
        drill: Drill,
        bounds: Bounds,
        workers: Workers,
    },
    /// Write the index, as bytes that can be read again.
    Save {
        indexing: Indexing,
    },
    /// Write how many levels and runs a saved index has that was found right.
    Check {
        levels: u32,
        runs: u64,
    },
}
