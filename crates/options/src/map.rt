// How a map takes updates beside readers.
ghost use Rattle.std.specs.Prelude.{◌≤◌};
ghost use Rattle.options.specs.declared.map.TheConstants.{MAX_LEVELS, MAX_READERS, MAX_SENDERS};

use crate::index::Workers;

/// How many levels a map has at most.
pub const MAX_LEVELS: u32 = 26;

/// How many readers ask beside the writer at most.
pub const MAX_READERS: u32 = 16;

/// Among how many senders updates are dealt out at most.
pub const MAX_SENDERS: u32 = 16;

/// For how many updates the queue between senders and writer has room at most.
pub const MAX_ROOM: u32 = 65_536;

/// How updates are replayed.
#[derive(Clone, Copy, Debug)]
pub struct Plan {
    /// How many levels the map has, from 1 to [`MAX_LEVELS`].
    pub levels: u32,
    /// How many updates a batch has; the last may be shorter.
    pub batch: u32,
    /// How many readers ask beside the writer, at most [`MAX_READERS`].
    pub readers: u32,
    /// How many workers build a level. No text depends on it.
    pub workers: Workers,
    pub ghost some_levels: { 1 ≤ levels },
    pub ghost few_levels: { levels ≤ MAX_LEVELS },
    pub ghost some_updates: { 1 ≤ batch },
    pub ghost few_readers: { readers ≤ MAX_READERS },
}

/// Among how many senders updates are dealt out, from 1 to [`MAX_SENDERS`].
#[derive(Clone, Copy, Debug)]
pub struct Senders {
    pub count: u32,
    pub ghost some: { 1 ≤ count },
    pub ghost few: { count ≤ MAX_SENDERS },
}
