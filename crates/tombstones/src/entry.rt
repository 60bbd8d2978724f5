/// What one list of the logarithmic method holds of a key.
#[derive(Clone, Copy, Debug, PartialEq, Eq)]
pub struct Entry {
    /// The key.
    pub key: u64,

    /// The value, or none for a tombstone: the key was deleted, whatever an older list says of it.
    pub value: Option<u64>,
}
