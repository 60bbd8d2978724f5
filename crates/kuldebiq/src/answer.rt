// What a call answers.
ghost use Rattle.std.specs.Prelude.{◌≡◌};
ghost use Rattle.kuldebiq.specs.Answers.{gives, refuses, found};
ghost use Rattle.kuldebiq.specs.Changes.{fault_as};

use log_levels::MapFault;

/// The call was done.
pub const DONE: u32 = 0;

/// Memory wasn't found. The number is 0.
pub const NO_MEMORY: u32 = 1;

/// The handle holds nothing. The number is 0.
pub const NOTHING_HELD: u32 = 2;

/// There is no such key. The number is 0.
pub const ABSENT: u32 = 3;

/// The keys fall. The number is the first place whose key is below the key before it.
pub const UNSORTED: u32 = 4;

/// There are 2^32 keys or more. The number is how many.
pub const TOO_MANY_KEYS: u32 = 5;

/// An error bound is above 1,048,576. The number is that bound.
pub const EPSILON_TOO_GREAT: u32 = 6;

/// There is no such level. The number is how many levels there are.
pub const NO_SUCH_LEVEL: u32 = 7;

/// There is no such segment. The number is how many segments the level has.
pub const NO_SUCH_SEGMENT: u32 = 8;

/// There isn't room for all that is to be written. The number is how much room is needed.
pub const TOO_LITTLE_ROOM: u32 = 9;

/// A map has 1 to 26 levels. The number is how many were asked for.
pub const LEVELS_OUT_OF_RANGE: u32 = 10;

/// The map can't accept as many entries. The number is how many it has accepted.
pub const FULL: u32 = 11;

/// There is no key at such a place. The number is how many keys there are.
pub const NO_SUCH_PLACE: u32 = 12;

/// An update is neither a put nor a deletion nor a sweep. The number is the first place of one.
pub const NO_SUCH_KIND: u32 = 13;

/// A point or a region has no such number of coordinates, which is 2, 3 or 4. The number is that
/// number.
pub const DIMS_OUT_OF_RANGE: u32 = 14;

/// A number is too great for a coordinate. The number is the first place of one.
pub const COORDINATE_TOO_GREAT: u32 = 15;

/// A coordinate of a region has a low above its high, or a high that is too great. The number is
/// the first such coordinate.
pub const NO_INTERVAL: u32 = 16;

/// A number from 2^63 on is no code of a point of three coordinates. The number is 0.
pub const NO_CODE: u32 = 17;

/// The coordinates end within a point. The number is how many they are.
pub const PART_OF_A_POINT: u32 = 18;

/// There is no such metric. The number is what was given.
pub const NO_SUCH_METRIC: u32 = 19;

/// What a call answers: how it ended, and a number, which is what was asked for where the call was
/// done, and else tells why it was refused.
#[repr(C)]
#[derive(Clone, Copy)]
pub struct Answer {
    /// 0 where the call was done, and else why it wasn't.
    pub status: u32,
    /// The answer, or what the status says.
    pub number: u64,
}

/// The call was done, and this is its number.
#[inline(always)]
pub(crate) fn given(number: u64) -> Answer
    ensures { result ≡ gives number }
{
    Answer {
        status: DONE,
        number,
    }
}

/// The call was refused, and this number tells why.
#[inline(always)]
pub(crate) fn refused(status: u32, number: u64) -> Answer
    ensures { result ≡ refuses status number }
{
    Answer { status, number }
}

/// The value that was found, or that there is none.
#[inline(always)]
pub(crate) fn found_or_absent(value: Option<u64>) -> Answer
    ensures { result ≡ found value }
{
    match value {
        Some(value) => given(value),
        None => refused(ABSENT, 0),
    }
}

/// Why an update of a map was refused.
#[inline(always)]
pub(crate) fn fault_as(fault: MapFault) -> Answer
    ensures { result ≡ fault_as fault }
{
    match fault {
        MapFault::Full { accepted } => refused(FULL, accepted),
        MapFault::NoMemory => refused(NO_MEMORY, 0),
    }
}
