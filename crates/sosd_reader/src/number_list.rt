// The numbers of a file as they are taken in: keys, or the coordinates of points.
ghost use Rattle.std.specs.Prelude.{◌≡◌, ◌+◌, ◌/◌, ◌<◌, ◌≤◌, ◌^◌, ℕ, List};
ghost use Rattle.std.specs.Prelude.{length, take, OnOk, IfErr};
ghost use Rattle.byteorder.specs.Endian.{little_bytes};
ghost use Rattle.sosd_reader.specs.NumberFiles.{Kind, IsKind, number_width};
ghost use Rattle.sosd_reader.specs.NumberFiles.{numbers_each, AllFollow};
ghost use Rattle.sosd_reader.specs.Reading.{GoesOn, StopsAs};

use crate::KeyFault;
use byteorder::{ByteOrder, LittleEndian};
use std::alloc::AllocError;

/// A list of numbers that is taken in from a file of its kind.
pub trait NumberList {
    ghost kind: { Self → Kind };

    ghost list: { Self → List ℕ };

    ghost room: { Self → ℕ };

    /// How many bytes a number has.
    fn width(&self) -> usize
        ensures width { result ≡ number_width (kind self.now) }
        ensures kind { IsKind (kind self.now) };

    /// How many numbers stand in the file for each that its count counts.
    fn each(&self) -> usize
        ensures each { result ≡ numbers_each (kind self.now) }
        ensures few { result ≤ 4 };

    /// How many numbers there are so far.
    fn len(&self) -> usize
        ensures { result ≡ length (list self.now) };

    /// Takes memory for just so many more numbers.
    fn reserve(&mut self, more: usize) -> Result<(), AllocError>
        ensures kind { kind self.new ≡ kind self.old }
        ensures list { list self.new ≡ list self.old }
        ensures room { OnOk result (length (list self.new) + more ≤ room self.new) };

    /// Adds the whole numbers of these bytes, and stops at one that may not stand where it does.
    fn take_in(&mut self, bytes: &[u8]) -> Result<(), KeyFault>
        requires all_follow { AllFollow (kind self.old) (list self.old) }
        requires room { length (list self.old) + length bytes.now / number_width (kind self.old)
            ≤ room self.old }
        ensures kind { kind self.new ≡ kind self.old }
        ensures numbers { OnOk result
            (GoesOn (number_width (kind self.old)) (list self.old) bytes.now (list self.new)) }
        ensures len { OnOk result (length (list self.new)
            ≡ length (list self.old) + length bytes.now / number_width (kind self.old)) }
        ensures all_follow { OnOk result (AllFollow (kind self.old) (list self.new)) }
        ensures fault { IfErr result (StopsAs (kind self.old)
            (length bytes.now / number_width (kind self.old)) (list self.old) bytes.now) };
}

/// The number of the first eight bytes, the lowest first.
#[inline]
pub fn first_u64(bytes: &[u8]) -> u64
    requires { 8 ≤ length bytes.now }
    ensures bytes { little_bytes 8 result ≡ take 8 bytes.now }
    ensures small { result < 256 ^ 8 }
{
    LittleEndian::read_u64(bytes)
}

/// The number of the first four bytes, the lowest first.
#[inline]
pub fn first_u32(bytes: &[u8]) -> u32
    requires { 4 ≤ length bytes.now }
    ensures bytes { little_bytes 4 result ≡ take 4 bytes.now }
    ensures small { result < 256 ^ 4 }
{
    LittleEndian::read_u32(bytes)
}
