// What a script holds.

use zorder::Region;

/// Which commands a script has.
#[derive(Clone, Copy, Debug, PartialEq, Eq)]
pub enum ScriptKind {
    /// `find Q`, questions for a lower bound.
    Find,
    /// `box LOW .. HIGH ..`, questions for the points of a region of so many coordinates, from 2 to
    /// 4.
    Region(u32),
    /// `near CENTRE .. K`, questions for the points nearest to a centre of so many coordinates,
    /// from 2 to 4.
    Near(u32),
    /// `put K V`, `del K` and `sweep A B`, updates of a map, and `get K`, `next Q` and `count A B`,
    /// questions to it.
    Replay,
    /// Updates of senders and questions, as `Replay` without `sweep A B`.
    Mix,
}

/// A line of a script that is neither blank nor a comment.
#[derive(Clone, Copy, Debug, PartialEq, Eq)]
pub enum ScriptLine {
    /// The lower bound of this key.
    Find(u64),
    /// The points of this region.
    Region(Region),
    /// The points nearest to this centre, with 0 for its unused coordinates, so many.
    Near([u32; 4], u32),
    /// At this key this value.
    Put(u64, u64),
    /// Nothing at this key.
    Del(u64),
    /// The value at this key.
    Get(u64),
    /// The least key from this one on, with its value.
    Next(u64),
    /// How many keys there are from the first to the second, both included.
    Count(u64, u64),
    /// Nothing at the keys from the first to the second, both included.
    Sweep(u64, u64),
}
