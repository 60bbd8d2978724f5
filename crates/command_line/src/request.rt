// What the words ask for.
ghost use Rattle.std.specs.Prelude.{◌≤◌};
ghost use Rattle.exact_cross.specs.declared.TheConstants.{MAX_EPSILON};
ghost use Rattle.command_line.specs.declared.request.TheConstants.{MAX_BATCH};

use options::{Bounds, Drill, Pieces, Plan, Senders, Table, Workers};

/// How many updates a batch has at most.
pub const MAX_BATCH: u32 = 65_536;

/// A key file, and how its index is built.
#[derive(Clone, Copy, Debug)]
pub struct Building<'a> {
    /// The name of the key file.
    pub file: &'a str,
    /// Keys are 32 bits wide, and not 64.
    pub narrow: bool,
    pub bounds: Bounds,
    pub workers: Workers,
}

/// A file of points, and a script of what is asked of them.
#[derive(Clone, Copy, Debug)]
pub struct Searching<'a> {
    /// The name of the file of points.
    pub file: &'a str,
    /// The name of the script.
    pub script: &'a str,
    /// How many coordinates each point has, from 2 to 4.
    pub dims: u32,
    pub ghost some: { 2 ≤ dims },
    pub ghost few: { dims ≤ 4 },
}

/// A script of updates and questions, and how the map for them is kept.
#[derive(Clone, Copy, Debug)]
pub struct Replaying<'a> {
    /// The name of the script.
    pub script: &'a str,
    /// A batch has at most [`MAX_BATCH`] updates.
    pub plan: Plan,
    pub ghost few_updates: { plan.batch ≤ MAX_BATCH },
}

/// A key file, and the error bound of the hints that are made of its keys.
#[derive(Clone, Copy, Debug)]
pub struct Hinting<'a> {
    /// The name of the key file.
    pub file: &'a str,
    /// Keys are 32 bits wide, and not 64.
    pub narrow: bool,
    /// The error bound ε, in places.
    pub eps: u32,
    pub ghost bounded: { eps ≤ MAX_EPSILON },
}

/// A key file, a file of hints of keys, and a script of questions.
#[derive(Clone, Copy, Debug)]
pub struct Finding<'a> {
    /// The name of the key file.
    pub file: &'a str,
    /// The name of the file of hints.
    pub hints: &'a str,
    /// The name of the script.
    pub script: &'a str,
    /// Keys are 32 bits wide, and not 64.
    pub narrow: bool,
}

/// How many inputs of each kind are drawn, and how an index of the keys is built.
#[derive(Clone, Copy, Debug)]
pub struct Drilling {
    pub drill: Drill,
    pub bounds: Bounds,
    pub workers: Workers,
}

/// A key file, and a saved index that is checked over its keys.
#[derive(Clone, Copy, Debug)]
pub struct Checking<'a> {
    /// The name of the key file.
    pub file: &'a str,
    /// The name of the file of the saved index.
    pub index: &'a str,
    /// Keys are 32 bits wide, and not 64.
    pub narrow: bool,
}

/// A command, with the names of its files and its options.
#[derive(Clone, Copy, Debug)]
pub enum Request<'a> {
    /// Write how many keys and levels there are, and of each level how many runs.
    Build {
        building: Building<'a>,
    },
    /// Write the same, and each run.
    Explain {
        building: Building<'a>,
    },
    /// Write the position of each question's key in the file.
    Query {
        building: Building<'a>,
        /// The name of the script of questions.
        script: &'a str,
        /// Write the windows along each question's lookup in the index, too: those of the
        /// definition, whatever finds its position.
        windows: bool,
        /// How the segments are found.
        table: Table,
    },
    /// Write what [`Request::Build`] writes of a relaxed index, how many runs its level 0 may have
    /// too many, and the position of each question's key in the file.
    Relax {
        building: Building<'a>,
        /// The name of the script of questions.
        script: &'a str,
        pieces: Pieces,
    },
    /// Write the points in each box of a script.
    Box {
        searching: Searching<'a>,
    },
    /// Write the points that are nearest to each centre of a script.
    Near {
        searching: Searching<'a>,
    },
    /// Write what the questions of a script get beside its updates and after all of them.
    Replay {
        replaying: Replaying<'a>,
    },
    /// Write in which order the updates of a script came of their senders, and what its questions
    /// get beside them and after all of them.
    Mix {
        replaying: Replaying<'a>,
        senders: Senders,
    },
    /// Write hints of the keys, which tell a lookup where to look first.
    Hints {
        hinting: Hinting<'a>,
    },
    /// Write the position of each question's key in the file, by lookups over the keys and hints,
    /// whatever the hints are.
    Find {
        finding: Finding<'a>,
    },
    /// Write what is counted of inputs of every kind that are drawn.
    Drill {
        drilling: Drilling,
    },
    /// Write the index, as bytes that can be read again.
    Save {
        building: Building<'a>,
    },
    /// Write how many levels and runs a saved index has, where it is that of the keys.
    Check {
        checking: Checking<'a>,
    },
}
