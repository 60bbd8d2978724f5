// Other names of calls.
ghost use Rattle.std.specs.Prelude.{◌≡◌, ◌/◌, ◌<◌, ◌↔◌, length, IsNone};
ghost use Rattle.std.specs.Option.{option_map};
ghost use Rattle.std.specs.Int.{bit_at};
ghost use Rattle.log_levels.specs.Shapes.{level_of};

use crate::log_map::{BLOCK, LogMap};

impl LogMap {
    /// Another name of [`LogMap::level_len`].
    pub fn shape(&self, i: u32) -> Option<u64>
        requires { i < length self.now.levels }
        ensures count { result ≡ option_map length (level_of self.now i) }
        ensures free { IsNone result ↔ (bit_at (self.now.accepted / BLOCK) i ≡ 0) }
    {
        self.level_len(i)
    }
}
