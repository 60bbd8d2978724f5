// What is done to a map.

/// An update of a map.
#[derive(Clone, Copy, Debug, PartialEq, Eq)]
pub enum Update {
    /// At this key this value.
    Put(u64, u64),
    /// Nothing at this key.
    Del(u64),
    /// Nothing at the keys from the first to the second, both included.
    Sweep(u64, u64),
}
