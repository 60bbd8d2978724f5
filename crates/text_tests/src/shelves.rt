//! Shelves in memory.
ghost use Rattle.std.specs.Prelude.{◌≤◌};

use edge::{MemShelf, Shelf};
use std::alloc::Global;

/// A shelf whose one file is taken, of which a read gives at most `most` bytes; none where memory
/// wasn't found. The taking is call 1.
pub(crate) fn shelf_of(
    alloc: Global,
    bytes: &[u8],
    failing: &[u64],
    most: usize,
) -> Option<MemShelf>
    requires { 1 ≤ most }
{
    let file = (
        String::from_str(alloc, "file").ok()?,
        bytes.to_vec(alloc).ok()?,
    );
    let files = vec![in alloc; file].ok()?;
    let mut shelf = MemShelf::new(files, failing.to_vec(alloc).ok()?, most);
    shelf.take_file("file").ok()?;
    Some(shelf)
}
