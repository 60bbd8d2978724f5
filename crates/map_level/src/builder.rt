// How levels are made: on the calling thread, or by workers.
ghost use Rattle.std.specs.Prelude.{IfOk};
ghost use Rattle.tombstones.specs.Entries.{IsAscending, IsMerge};
ghost use Rattle.levels.specs.Indexes.{IsIndexOf};
ghost use Rattle.map_level.specs.Builders.{Merges, Builds};

use budget::NoMemory;
use edge::Gate;
use levels::{Index, Keys};
use options::{Bounds, EPS, EPS_REC, Pieces, Workers};
use piece_join::even_cuts;
use std::alloc::Global;
use std::thread::Threads;
use tombstones::{Entry, merge};

/// The merge of two lists of entries, unless memory ran out.
pub type Merged = Result<Vec<Entry>, NoMemory>;

/// An index, unless memory ran out.
pub type Built = Result<Index, NoMemory>;

/// Who makes levels: it merges lists of entries, and builds the indexes of their keys. All make the
/// same.
pub trait Builder {
    /// What its calls need: that they may be made, and make the same.
    ghost ready: { Self → Type 0 };

    /// Merges two lists of entries, as [`merge`] does.
    fn merge(&self, newer: &[Entry], older: &[Entry], deepest: bool) -> Merged
        requires ready { ready self.now }
        requires newer_ascending { IsAscending newer.now }
        requires older_ascending { IsAscending older.now }
        ensures { IfOk result (λ merged. IsMerge newer.now older.now deepest merged.items) };

    /// Builds the index of a level's keys.
    fn index(&self, keys: Keys) -> Built
        requires { ready self.now }
        ensures { IfOk result (IsIndexOf keys EPS EPS_REC) };
}

/// The calling thread.
#[derive(Drop)]
pub struct Here {
    pub alloc: Global,
}

impl Builder for Here {
    ghost ready = { λ _. Unit {0} };

    fn merge(&self, newer: &[Entry], older: &[Entry], deepest: bool) -> Merged {
        merge(self.alloc, newer, older, deepest)
    }

    fn index(&self, keys: Keys) -> Built {
        let bounds = Bounds {
            eps: EPS,
            eps_rec: EPS_REC,
        };
        Index::of(self.alloc, keys, bounds)
    }
}

/// Workers, as the two calls that they do: the methods of a trait can't start threads by a handle
/// of their type.
#[derive(Drop)]
pub struct ByWorkers<M, I> {
    pub merge: M,
    pub index: I,
}

impl<M: Fn(&[Entry], &[Entry], bool) -> Merged, I: Fn(Keys) -> Built> Builder for ByWorkers<M, I> {
    ghost ready = { λ workers. Merges M.Fn workers.merge × Builds I.Fn workers.index };

    fn merge(&self, newer: &[Entry], older: &[Entry], deepest: bool) -> Merged {
        (self.merge)(newer, older, deepest)
    }

    fn index(&self, keys: Keys) -> Built {
        (self.index)(keys)
    }
}

/// How many points a piece of an index has at least. A run of scattered keys has some ten
/// thousand, and the last one of a piece is fitted anew; and a thread takes as long to start as a
/// thousand points to segment.
const PIECE: u32 = 131_072;

/// The index of keys, built by several workers: in as many pieces, but in fewer where these would
/// be short. The gate is passed before and after each piece.
///
/// # Errors
///
/// `NoMemory` alone.
pub fn index_in_pieces<R: Threads + Sync, G: Gate>(
    rt: &R,
    alloc: Global,
    keys: Keys,
    workers: Workers,
    gate: &G,
) -> Built
    ensures { IfOk result (IsIndexOf keys EPS EPS_REC) }
{
    let points = keys.point_count();
    let pieces = Pieces {
        count: (points / PIECE).clamp(1, workers.count),
    };
    let cuts = even_cuts(alloc, points, pieces)?;
    let bounds = Bounds {
        eps: EPS,
        eps_rec: EPS_REC,
    };
    Index::build(rt, alloc, keys, bounds, &cuts, workers, gate)
}
