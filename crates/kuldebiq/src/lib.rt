//! Lookups by hints, boxes in sorted codes, the index and the map for C and C++.
//!
//! Each call is named `kuldebiq_..` and is declared in `include/kuldebiq.h`, which says for each
//! what C owes. A lookup by hints is given these and keys, and answers a place. Each other call
//! answers a status and a number ([`Answer`]): what a call can test is tested, and refused with a
//! number that says why. Those of the index, the map and hints are passed the place of a handle,
//! which is a pointer in C's memory, null where it holds nothing.
//!
//! Main clauses: the one of [`kuldebiq_find`], `done`, `judged` and `refused` of
//! [`kuldebiq_index_build`], `answer` of [`kuldebiq_position`], `done` of [`kuldebiq_positions`]
//! and of each call that updates a map, and `answer` of each that asks one. The words of the
//! clauses are in `specs/`.
#![tactic(auto)]

mod answer;
mod box_calls;
mod building;
mod code_calls;
mod end_calls;
mod find_calls;
mod get_many;
mod hints_calls;
mod hints_handle;
mod index_calls;
mod index_handle;
mod kept_hints;
mod kept_index;
mod load_calls;
mod loose;
mod making;
mod many;
mod map_calls;
mod map_handle;
mod narrow_keys;
mod near_calls;
mod past_many;
mod range_calls;
#[cfg(test)]
mod rows;
mod segment_parts;
mod updates;

ghost use Rattle.std.specs.Prelude.{◌≡◌};

use answer::Answer;
use box_calls::{RegionParts, Stretch};
use find_calls::HintsFacts;
use hints_handle::HintsHandle;
use index_handle::IndexHandle;
use map_calls::Pair;
use map_handle::MapHandle;
use neighbours::Neighbour;
use segment_parts::SegmentParts;
use updates::UpdateParts;

/// The version of the library: `1_002_003` would be 1.2.3.
pub const VERSION: u32 = 1_000;

// The sizes that the header asserts.
const _: () = prove!(size_of::<Answer>() == 16);

const _: () = prove!(size_of::<IndexHandle>() == 8);

const _: () = prove!(size_of::<HintsHandle>() == 8);

const _: () = prove!(size_of::<MapHandle>() == 8);

const _: () = prove!(size_of::<SegmentParts>() == 64);

const _: () = prove!(size_of::<Pair>() == 16);

const _: () = prove!(size_of::<UpdateParts>() == 24);

const _: () = prove!(size_of::<RegionParts>() == 36);

const _: () = prove!(size_of::<Stretch>() == 16);

const _: () = prove!(size_of::<HintsFacts>() == 24);

const _: () = prove!(size_of::<Neighbour>() == 24);

/// The version of the library, [`VERSION`].
#[unsafe(no_mangle)]
pub extern "C" fn kuldebiq_version() -> u32
    ensures { result ≡ VERSION }
{
    VERSION
}

/// Handles may go to another thread: this is checked only where both are [`Send`]. It runs nothing.
pub fn handles_may_move() {
    moves::<IndexHandle>();
    moves::<HintsHandle>();
    moves::<MapHandle>();
}

fn moves<T: Send>() {}
