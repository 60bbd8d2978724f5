// The level at which lookups start.
ghost use Rattle.std.specs.Prelude.{◌+◌, ◌-◌, ◌*◌, ◌<◌, ◌≤◌, ℕ};
ghost use Rattle.levels.specs.Entries.{IsEntry, share_of};
ghost use Rattle.levels.specs.Stored.{AreStored, segments_of};

use crate::level::Level;
use key_points::Keys;

/// The most first x of runs that a lookup halves: 2 MB of them.
const HALVED_TO_RUNS: u64 = 1 << 18;

/// The lowest level at which a lookup may start. The first x of its runs are halved in place of the
/// levels above, where that takes no more steps than they may.
pub fn entry_of(_keys: &Keys, eps_rec: u32, levels: &[Level]) -> u32
    requires stored { (eps : ℕ) × AreStored _keys.now eps eps_rec levels.now }
    ensures { IsEntry _keys.now eps_rec (segments_of levels.now) result }
{
    let share = 4 * (2 * u64::from(eps_rec) + 3);
    let mut top = levels.len().saturating_sub(1);
    let mut most: u64 = 1;
    while top > 0 {
        let level = &levels[top];
        let count = level.xs.len() as u64;
        most = most.saturating_mul(share);
        if count > HALVED_TO_RUNS || 2 * count > most {
            return top as u32;
        }
        top -= 1;
    }
    0
}

/// Two to the number of steps that the levels above level 0 may take, or as much of it as 64 bits
/// hold.
pub fn share(eps_rec: u32, levels: usize) -> u64
    requires { 1 ≤ levels }
    ensures { result ≤ share_of eps_rec levels }
{
    let each = 4 * (2 * u64::from(eps_rec) + 3);
    let mut most: u64 = 1;
    for _level in 1..levels {
        most = most.saturating_mul(each);
    }
    most
}
