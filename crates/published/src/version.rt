// A version of the map, which readers take whole.
ghost use Rattle.std.specs.Prelude.{◌≡◌, ◌↔◌, ◌++◌, [], IfOk, IsTrue, length, take, drop, min};
ghost use Rattle.std.specs.Prelude.{is_some, map};
ghost use Rattle.std.specs.Arc.{arc_value};
ghost use Rattle.log_levels.specs.Shapes.{StandsFor};
ghost use Rattle.log_levels.specs.Maps.{map_after, value_at, next_from, count_between};
ghost use Rattle.log_levels.specs.Maps.{previous_to, pairs_between, first_of, last_of};
ghost use Rattle.published.specs.Histories.{updates_of};

use crate::history::Prefix;
use left_right::Absorb;
use log_levels::LogMap;
use std::alloc::AllocError;
use std::marker::Model;
use std::sync::Arc;

/// A finished version of the map, seen as the history that it stands for. It is never changed.
#[derive(Drop)]
pub struct Version {
    map: Arc<LogMap>,
    prefix: Prefix,
}

impl Model for Version {
    ghost use Rattle.std.specs.Arc.{arc_value};
    ghost use Rattle.log_levels.specs.Shapes.{StandsFor};
    ghost use Rattle.published.specs.Histories.{Front, updates_of};

    ghost Value = { Front };

    ghost view = { λ v. v.prefix };

    ghost invariant = { λ v. StandsFor (arc_value v.map) (updates_of v.prefix.batches) };
}

impl Version {
    /// A version of this map, which stands for the updates of this history.
    pub fn new(map: Arc<LogMap>, prefix: Prefix) -> Version
        requires { StandsFor (arc_value map) (updates_of prefix.batches) }
        ensures { result ≡ prefix }
    {
        Version { map, prefix }
    }

    /// Another share of the version.
    pub fn share(&self) -> Result<Version, AllocError>
        ensures { IfOk result (λ version. version ≡ self.now) }
    {
        Ok(Version {
            map: Arc::try_clone(&self.map)?,
            prefix: self.prefix.again(),
        })
    }

    /// The history that it stands for.
    pub fn prefix(&self) -> &Prefix
        ensures { result.now ≡ self.now }
    {
        &self.prefix
    }

    /// The value of a key.
    pub fn get(&self, key: u64) -> Option<u64>
        ensures { result ≡ value_at (map_after (updates_of self.now.batches)) key }
    {
        self.map.get(key)
    }

    /// Writes the value of each key at its place.
    pub fn get_many(&self, keys: &[u64], values: &mut [Option<u64>])
        requires { length values.old ≡ length keys.now }
        ensures { values.new ≡
            map (value_at (map_after (updates_of self.now.batches))) keys.now }
    {
        self.map.get_many(keys, values);
    }

    /// The least key not below this one, with its value.
    pub fn next(&self, q: u64) -> Option<(u64, u64)>
        ensures { result ≡ next_from (map_after (updates_of self.now.batches)) q }
    {
        self.map.next(q)
    }

    /// The greatest key not above this one, with its value.
    pub fn previous(&self, q: u64) -> Option<(u64, u64)>
        ensures { result ≡ previous_to (map_after (updates_of self.now.batches)) q }
    {
        self.map.previous(q)
    }

    /// Whether it has a key.
    pub fn contains(&self, key: u64) -> bool
        ensures { result ≡
            is_some (value_at (map_after (updates_of self.now.batches)) key) }
    {
        self.map.contains(key)
    }

    /// Whether it has no key.
    pub fn is_empty(&self) -> bool
        ensures { IsTrue result ↔ (map_after (updates_of self.now.batches) ≡ []) }
    {
        self.map.is_empty()
    }

    /// The least key with its value, if there is one.
    pub fn first(&self) -> Option<(u64, u64)>
        ensures { result ≡ first_of (map_after (updates_of self.now.batches)) }
    {
        self.map.first()
    }

    /// The greatest key with its value, if there is one.
    pub fn last(&self) -> Option<(u64, u64)>
        ensures { result ≡ last_of (map_after (updates_of self.now.batches)) }
    {
        self.map.last()
    }

    /// Writes the first pairs between these two keys, and gives how many.
    pub fn range(&self, from: u64, to: u64, pairs: &mut [(u64, u64)]) -> usize
        ensures count { result ≡ min (length pairs.old)
            (count_between (map_after (updates_of self.now.batches)) from to) }
        ensures pairs { pairs.new ≡
            take result (pairs_between (map_after (updates_of self.now.batches)) from to)
            ++ drop result pairs.old }
    {
        self.map.range(from, to, pairs)
    }

    /// How many keys there are between these two.
    pub fn count(&self, a: u64, b: u64) -> u64
        ensures { result ≡ count_between (map_after (updates_of self.now.batches)) a b }
    {
        self.map.count(a, b)
    }
}

impl Absorb<Version> for Version {
    type State = Version;

    ghost state = { λ version. version };

    ghost applied = { λ _ operation. operation };

    /// The first of the copies takes a share of the version.
    fn absorb_first(&mut self, operation: &Version, _other: &Version) -> Result<(), AllocError> {
        *self = operation.share()?;
        Ok(())
    }

    /// The second one takes the version itself.
    fn absorb_second(&mut self, operation: Version, _other: &Version) -> Result<(), Version> {
        *self = operation;
        Ok(())
    }
}
