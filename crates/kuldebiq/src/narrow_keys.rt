// Keys of 32 bits: read where they lie, judged, and copied where hints of them are made.
ghost use Rattle.std.specs.Prelude.{◌≡◌, IfErr, IfOk, IfSome, None, OnOk};
ghost use Rattle.std.specs.List.Sorted.{IsNonDecreasing};
ghost use Rattle.key_points.specs.Falls.{AreKeys, IsFirstFall, IsRefusedFor};

use budget::NoMemory;
use key_points::KeysFault;
use std::alloc::Global;
use window_search::KeyList;

/// Keys of 32 bits each, where they lie.
#[derive(Clone, Copy)]
pub(crate) struct NarrowKeys<'a> {
    pub(crate) keys: &'a [u32],
}

impl<'a> KeyList for NarrowKeys<'a> {
    ghost listed = { λ narrow. narrow.keys.now };

    #[inline(always)]
    fn len(&self) -> usize {
        let keys = self.keys;
        keys.len()
    }

    #[inline(always)]
    fn at(&self, place: usize) -> u64 {
        let keys = self.keys;
        u64::from(keys[place])
    }
}

/// Judges keys of 32 bits as `key_points::judge` does those of 64. Takes no memory.
pub(crate) fn judge_narrow(keys: &[u32]) -> Result<(), KeysFault>
    ensures keys { OnOk result (AreKeys keys.now) }
    ensures refused { IfErr result (IsRefusedFor keys.now) }
{
    let count = keys.len();
    if count > u32::MAX as usize {
        return Err(KeysFault::TooMany { count });
    }
    match first_fall(keys) {
        Some(place) => Err(KeysFault::Falls { place }),
        None => Ok(()),
    }
}

/// The first place at which a key is below the one before it, if there is one.
fn first_fall(keys: &[u32]) -> Option<usize>
    ensures falls { IfSome result (IsFirstFall keys.now) }
    ensures none { result ≡ None → IsNonDecreasing keys.now }
{
    for place in 1..keys.len() {
        if keys[place] < keys[place - 1] {
            return Some(place);
        }
    }
    None
}

/// The same keys of 64 bits each.
pub(crate) fn widened(alloc: Global, keys: &[u32]) -> Result<Vec<u64>, NoMemory>
    ensures { IfOk result (λ wide. wide.items ≡ keys.now) }
{
    let mut wide = Vec::with_capacity(alloc, keys.len())?;
    for place in 0..keys.len() {
        wide.push(u64::from(keys[place]))?;
    }
    Ok(wide)
}
