// How an index is built, and looked into.
ghost use Rattle.std.specs.Prelude.{◌≤◌};
ghost use Rattle.exact_cross.specs.declared.TheConstants.{MAX_EPSILON};
ghost use Rattle.options.specs.declared.index.TheConstants.{MAX_BITS, MAX_PIECES, MAX_WORKERS};

/// The bound ε of level 0, in places, that serves most keys.
pub const EPS: u32 = 64;

/// The bound ε' of the levels above level 0, in places, that goes with [`EPS`].
pub const EPS_REC: u32 = 4;

/// How many workers build an index at most.
pub const MAX_WORKERS: u32 = 64;

/// How many bits of a key a table goes by at most.
pub const MAX_BITS: u32 = 20;

/// Into how many pieces the points of a relaxed index are cut at most.
pub const MAX_PIECES: u32 = 65_536;

/// The error bounds of an index, in places of the lists that its levels stand on.
#[derive(Clone, Copy, Debug)]
pub struct Bounds {
    /// The bound ε of level 0.
    pub eps: u32,
    /// The bound ε' of the levels above.
    pub eps_rec: u32,
    pub ghost bounded: { eps ≤ MAX_EPSILON },
    pub ghost bounded_above: { eps_rec ≤ MAX_EPSILON },
}

/// How many workers build an index, from 1 to [`MAX_WORKERS`], and among how many very many
/// questions are shared at most. No answer depends on it.
#[derive(Clone, Copy, Debug)]
pub struct Workers {
    pub count: u32,
    pub ghost staffed: { 1 ≤ count },
    pub ghost few: { count ≤ MAX_WORKERS },
}

/// Whether a table takes the place of the levels above level 0. No text depends on it.
#[derive(Clone, Copy, Debug)]
pub struct Table {
    /// How many bits of a key the table goes by, at most [`MAX_BITS`]; 0 where there is no table.
    pub bits: u32,
    pub ghost few: { bits ≤ MAX_BITS },
}

/// Into how many even pieces the points of a relaxed index are cut, from 1 to [`MAX_PIECES`].
#[derive(Clone, Copy, Debug)]
pub struct Pieces {
    pub count: u32,
    pub ghost some: { 1 ≤ count },
    pub ghost few: { count ≤ MAX_PIECES },
}
