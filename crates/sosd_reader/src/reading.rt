// Reading a file of numbers: its count, the numbers by chunks, and that nothing follows.
ghost use Rattle.std.specs.Prelude.{◌≡◌, ◌<◌, ◌^◌, ◌+◌, ◌*◌, [], ℕ, All, length, OnOk};
ghost use Rattle.std.specs.List.{flat_map};
ghost use Rattle.byteorder.specs.Endian.{little_bytes};
ghost use Rattle.edge.specs.Readers.{Reads, GivesPiece};
ghost use Rattle.edge.specs.Unread.{AreAtMost};
ghost use Rattle.sosd_reader.specs.NumberFiles.{Kind, IsKind, number_width};
ghost use Rattle.sosd_reader.specs.NumberFiles.{AllFollow, AreNumbersOf};
ghost use Rattle.sosd_reader.specs.Reading.{ReadsNumbers, StopsAs, FailsAsFile, ReadsFile};
ghost use Rattle.sosd_reader.specs.Reading.{origin_of};

use crate::KeyFault;
use crate::number_list::{NumberList, first_u64};
use edge::{Shelf, fill, next_byte};
use std::alloc::Global;

/// How many numbers a chunk has at most: so far memory is taken ahead of the bytes.
const CHUNK: usize = 65_536;

/// Takes in the numbers of the taken file: the count, the numbers, and nothing after them.
pub fn read_file<F: Shelf, T: NumberList>(
    alloc: Global,
    shelf: &mut F,
    numbers: &mut T,
) -> Result<(), KeyFault>
    requires empty { length (T.list numbers.old) ≡ 0 }
    ensures numbers { OnOk result
        ((count : ℕ) × AreNumbersOf (T.kind numbers.old) count (T.list numbers.new)) }
    ensures reading { ReadsFile F.Shelf (T.kind numbers.old) (λ _. T.list numbers.new)
        shelf.old result shelf.new }
{
    let count = read_count(shelf)?;
    let total = count as usize * numbers.each();
    read_list(alloc, shelf, total, numbers)?;
    let after = next_byte(shelf)?;
    if let Some(byte) = after {
        return Err(KeyFault::Trailing { byte });
    }
    Ok(())
}

/// How many there are, by the first eight bytes. The kind of the file plays no part.
fn read_count<F: Shelf>(shelf: &mut F) -> Result<u32, KeyFault>
    ensures { (kind : Kind) → Reads F.Shelf (origin_of kind) (GivesPiece (little_bytes 8))
        (FailsAsFile kind) (AreAtMost 8) shelf.old result shelf.new }
{
    let mut header = [0; 8];
    let got = fill(shelf, &mut header)?;
    if got < 8 {
        return Err(KeyFault::Short { got: got as u64 });
    }
    let count = first_u64(&header);
    if count > u32::MAX as u64 {
        return Err(KeyFault::TooMany { count });
    }
    Ok(count as u32)
}

/// The next numbers, `total` in all, by chunks, for each of which memory is taken before it is
/// read.
fn read_list<F: Shelf, T: NumberList>(
    alloc: Global,
    shelf: &mut F,
    total: usize,
    numbers: &mut T,
) -> Result<(), KeyFault>
    requires empty { length (T.list numbers.old) ≡ 0 }
    requires few { total < 2 ^ 35 }
    ensures kind { T.kind numbers.new ≡ T.kind numbers.old }
    ensures len { OnOk result (length (T.list numbers.new) ≡ total) }
    ensures all_follow { OnOk result (AllFollow (T.kind numbers.old) (T.list numbers.new)) }
    ensures each_fits { OnOk result
        (All (λ number. number < 256 ^ number_width (T.kind numbers.old)) (T.list numbers.new)) }
    ensures reading { Reads F.Shelf (origin_of (T.kind numbers.old)) (GivesPiece
        (λ _. flat_map (little_bytes (number_width (T.kind numbers.old))) (T.list numbers.new)))
        (StopsAs (T.kind numbers.old) total [])
        (AreAtMost (number_width (T.kind numbers.old) * total)) shelf.old result shelf.new }
{
    let width = numbers.width();
    let mut bytes = vec![in alloc; 0; width * total.min(CHUNK)]?;
    let mut done = 0;
    while done < total {
        let next = (total - done).min(CHUNK);
        read_chunk(shelf, next, numbers, &mut bytes[..width * next])?;
        done += next;
    }
    Ok(())
}

/// Takes in the next numbers, as many as these bytes have room for: takes their memory, reads,
/// judges the whole numbers in order, and then whether all were there. The file has a count of
/// eight bytes before all numbers.
fn read_chunk<F: Shelf, T: NumberList>(
    shelf: &mut F,
    room: usize,
    numbers: &mut T,
    bytes: &mut [u8],
) -> Result<(), KeyFault>
    requires room { length bytes.old ≡ number_width (T.kind numbers.old) * room }
    requires few { length (T.list numbers.old) + room < 2 ^ 35 }
    requires all_follow { AllFollow (T.kind numbers.old) (T.list numbers.old) }
    ensures kind { T.kind numbers.new ≡ T.kind numbers.old }
    ensures len { OnOk result (length (T.list numbers.new) ≡ length (T.list numbers.old) + room) }
    ensures all_follow { OnOk result (AllFollow (T.kind numbers.old) (T.list numbers.new)) }
    ensures reading { Reads F.Shelf (origin_of (T.kind numbers.old)) (λ _. ReadsNumbers
        (number_width (T.kind numbers.old)) (T.list numbers.old) (T.list numbers.new))
        (StopsAs (T.kind numbers.old) room (T.list numbers.old))
        (AreAtMost (number_width (T.kind numbers.old) * room)) shelf.old result shelf.new }
{
    let before = bytes_before(numbers);
    numbers.reserve(room)?;
    let got = fill(shelf, bytes)?;
    numbers.take_in(&bytes[..got])?;
    if got < bytes.len() {
        let got = before + got as u64;
        return Err(KeyFault::Short { got });
    }
    Ok(())
}

/// How many bytes the count and the numbers so far have.
fn bytes_before<T: NumberList>(numbers: &T) -> u64
    requires { length (T.list numbers.now) < 2 ^ 35 }
    ensures value { result ≡ 8 + number_width (T.kind numbers.now)
        * length (T.list numbers.now) }
    ensures small { result < 2 ^ 39 }
    ensures kind { IsKind (T.kind numbers.now) }
{
    8 + (numbers.width() * numbers.len()) as u64
}
