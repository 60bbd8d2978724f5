// Why a map refused updates, or pairs.
ghost use Rattle.std.specs.Prelude.{◌≡◌};
ghost use Rattle.log_levels.specs.declared.fault.MapFault.TheVariants.{NoMemory};
ghost use Rattle.log_levels.specs.Kept.{load_fault};

use std::alloc::AllocError;
use thiserror::Error;

/// Why a map refused updates. It is as it was then.
#[derive(Clone, Copy, Debug, PartialEq, Eq, Error)]
pub enum MapFault {
    /// The entries would be more than the map can accept.
    #[error("the map has no room behind {accepted} entries")]
    Full {
        /// How many entries it has accepted; of [`LogMap::compacted`], how many the new map can
        /// accept.
        accepted: u64,
    },
    /// Memory wasn't found.
    #[error("out of memory")]
    NoMemory,
}

impl From<AllocError> for MapFault {
    ghost from_gives = { λ _ fault. fault ≡ NoMemory };

    fn from(_: AllocError) -> Self {
        MapFault::NoMemory
    }
}

/// Why a list of pairs isn't loaded into a map.
#[derive(Clone, Copy, Debug, PartialEq, Eq, Error)]
pub enum LoadFault {
    /// The keys don't rise strictly.
    #[error("the key at place {place} isn't above the one before it")]
    Unsorted {
        /// The first place, from 0, whose key isn't above the one before it.
        place: u64,
    },
    /// The pairs are more than the map can accept.
    #[error("the map has no room behind {accepted} pairs")]
    Full {
        /// How many it can accept.
        accepted: u64,
    },
    /// Memory wasn't found.
    #[error("out of memory")]
    NoMemory,
}

impl From<MapFault> for LoadFault {
    ghost from_gives = { λ fault load. load ≡ load_fault fault };

    fn from(fault: MapFault) -> Self {
        match fault {
            MapFault::Full { accepted } => LoadFault::Full { accepted },
            MapFault::NoMemory => LoadFault::NoMemory,
        }
    }
}

impl From<AllocError> for LoadFault {
    ghost use Rattle.log_levels.specs.declared.fault.LoadFault.TheVariants.{NoMemory};

    ghost from_gives = { λ _ fault. fault ≡ NoMemory };

    fn from(_: AllocError) -> Self {
        LoadFault::NoMemory
    }
}
