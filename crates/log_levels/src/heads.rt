// The next keys of several levels, and which comes first.
ghost use Rattle.std.specs.Prelude.{◌≡◌, ◌<◌, [], length, slice_set, IfSome, IsNone};
ghost use Rattle.log_levels.specs.Kept.{IsFirst};

use arrayvec::ArrayVec;
use options::MAX_LEVELS;

/// How many levels a map has at most, as a length.
pub(crate) const LEVELS: usize = MAX_LEVELS as usize;

/// Keys, each with its level, by rising level. They aren't in the order of the keys: in a trial it
/// took longer to keep them so than to look at all, since the processor can't foresee where a key
/// goes.
pub type Heads = ArrayVec<(u64, usize), LEVELS>;

/// A head: its place among the others, its key and its level.
#[derive(Clone, Copy)]
pub struct First {
    pub place: usize,
    pub key: u64,
    pub level: usize,
}

/// The head that comes first, if there is one: with the least key, and of one key of the newest
/// level.
#[inline(always)]
pub fn first_head(heads: &Heads) -> Option<First>
    ensures none { IsNone result → heads.now.items ≡ [] }
    ensures first { IfSome result (λ first. IsFirst heads.now.items first) }
{
    let items = heads.as_slice();
    if items.is_empty() {
        return None;
    }
    let (mut key, _) = items[0];
    let mut place = 0;
    for k in 1..items.len() {
        let (other, _) = items[k];
        if other < key {
            key = other;
            place = k;
        }
    }
    let (_, level) = items[place];
    Some(First { place, key, level })
}

/// Puts a head in place of another.
#[inline(always)]
pub fn put_head(heads: &mut Heads, place: usize, head: (u64, usize))
    requires { place < length heads.old.items }
    ensures { heads.new.items ≡ slice_set heads.old.items place head }
{
    heads.as_mut_slice()[place] = head;
}
