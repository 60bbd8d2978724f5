// The pairs of a range, and the pair before a key.
ghost use Rattle.std.specs.Prelude.{◌≡◌, ◌+◌, ◌<◌, ◌≤◌, ◌++◌};
ghost use Rattle.std.specs.Prelude.{List, length, take, drop, min};
ghost use Rattle.log_levels.specs.declared.update.Update.{Update};
ghost use Rattle.log_levels.specs.Maps.{map_after, count_between, pairs_between};
ghost use Rattle.log_levels.specs.Shapes.{StandsFor};

use crate::log_map::LogMap;

impl LogMap {
    /// Writes the first pairs of key and value from `from` to `to`, both included, by rising key,
    /// as many as there is room for, and gives how many; none where `from` is above `to`. What lies
    /// behind them in the room stays as it was.
    ///
    /// Where the room was filled, the rest comes from the last key plus 1 on, unless that key is
    /// `to`. Each level is searched once, and from there on gone along key by key, past deleted
    /// ones. Takes no memory.
    pub fn range(&self, from: u64, to: u64, pairs: &mut [(u64, u64)]) -> usize
        ensures count { (updates : List Update) → StandsFor self.now updates →
            result ≡ min (length pairs.old) (count_between (map_after updates) from to) }
        ensures pairs { (updates : List Update) → StandsFor self.now updates → pairs.new ≡
            take result (pairs_between (map_after updates) from to) ++ drop result pairs.old }
        ensures within { result ≤ length pairs.old }
    {
        let start = self.bare.behind(from);
        let mut walk = self.walk(start);
        let mut low = u128::from(start);
        let mut count = 0;
        while count < pairs.len() {
            let Some((key, value)) = self.next_pair(&mut walk, low) else {
                return count;
            };
            if key > to {
                return count;
            }
            pairs[count] = (key, value);
            count += 1;
            low = u128::from(key) + 1;
        }
        count
    }
}
