// The keys of entries, as a search reads them.
ghost use Rattle.map_level.specs.Levels.{level_keys};

use tombstones::Entry;
use window_search::KeyList;

/// The keys of entries that stay where they are.
#[derive(Clone, Copy)]
pub struct EntryKeys<'a> {
    pub entries: &'a [Entry],
}

impl<'a> KeyList for EntryKeys<'a> {
    ghost listed = { λ keys. level_keys keys.entries.now };

    #[inline(always)]
    fn len(&self) -> usize {
        let entries = self.entries;
        entries.len()
    }

    #[inline(always)]
    fn at(&self, place: usize) -> u64 {
        let entries = self.entries;
        entries[place].key
    }
}
