// The points of keys that repeat, and how many they are.
ghost use Rattle.std.specs.Prelude.{◌≡◌, ◌+◌, ◌<◌, ◌≤◌, ◌^◌};
ghost use Rattle.std.specs.Prelude.{◌-◌, length, min, slice_index, vec_len, vec_capacity};
ghost use Rattle.std.specs.Prelude.{IfOk, IsTrue};
ghost use Rattle.std.specs.List.Sorted.{IsNonDecreasing};
ghost use Rattle.key_points.specs.KeyPoints.{distinct_of, first_of, is_closed, xs_of, ys_of};
ghost use Rattle.key_points.specs.Groups.{HoldsUpTo, IsGroupStart, IsGroupEnd};

use budget::NoMemory;
use std::alloc::Global;

/// The points of keys that repeat: their x and y.
#[derive(Drop)]
pub struct Parts {
    pub xs: Vec<u64>,
    pub ys: Vec<u32>,
}

/// The points of sorted keys, one group of equal keys after the other.
///
/// Room is taken once: 12 bytes a point, for two points of each of the distinct keys, of which
/// there are `count`, but no more than there are keys.
///
/// # Errors
///
/// `NoMemory` alone.
pub fn parts_of(alloc: Global, file: &[u64], count: usize) -> Result<Parts, NoMemory>
    requires never_falls { IsNonDecreasing file.now }
    requires few { length file.now < 2 ^ 32 }
    requires counted { count ≡ length (distinct_of file.now) }
    ensures xs { IfOk result (λ parts. parts.xs.items ≡ xs_of file.now) }
    ensures ys { IfOk result (λ parts. parts.ys.items ≡ ys_of file.now) }
{
    let most = count.saturating_mul(2).min(file.len());
    let mut parts = Parts {
        xs: Vec::with_capacity(alloc, most)?,
        ys: Vec::with_capacity(alloc, most)?,
    };
    let mut at = 0;
    while at < file.len() {
        let end = end_of(file, at);
        add_group(&mut parts, file, at, end);
        at = end;
    }
    Ok(parts)
}

/// How many points sorted keys have, where `count` of the keys are distinct: as many where all are,
/// and else they are counted group by group. Takes no memory.
pub fn count_points(file: &[u64], count: usize) -> usize
    requires never_falls { IsNonDecreasing file.now }
    requires counted { count ≡ length (distinct_of file.now) }
    ensures { result ≡ length (xs_of file.now) }
{
    if count == file.len() {
        return count;
    }
    let mut points = 0;
    let mut at = 0;
    while at < file.len() {
        let end = end_of(file, at);
        points += if is_closed_group(file, at, end) { 2 } else { 1 };
        at = end;
    }
    points
}

/// Where the `j`-th distinct key, counted from 0, stands first, and the number of keys where there
/// are `j`. All keys before it are read.
pub fn start_of_group(file: &[u64], j: u32) -> u32
    requires never_falls { IsNonDecreasing file.now }
    requires few { length file.now < 2 ^ 32 }
    requires inside { j ≤ length (distinct_of file.now) }
    ensures { result ≡ first_of file.now j }
{
    let mut at = 0;
    for _ in 0..j {
        at = end_of(file, at);
    }
    at as u32
}

/// Where the equal keys that begin at this place end.
fn end_of(file: &[u64], at: usize) -> usize
    requires never_falls { IsNonDecreasing file.now }
    requires inside { at < length file.now }
    ensures { IsGroupEnd file.now at result }
{
    let key = file[at];
    let mut end = at + 1;
    while end < file.len() && file[end] == key {
        end += 1;
    }
    end
}

/// Whether the equal keys of these places have a closing point.
fn is_closed_group(file: &[u64], at: usize, end: usize) -> bool
    requires never_falls { IsNonDecreasing file.now }
    requires start { IsGroupStart file.now at }
    requires end { IsGroupEnd file.now at end }
    ensures closed { result ≡ is_closed file.now (slice_index file.now at) }
    ensures next { IsTrue result → slice_index file.now at < 18446744073709551615 }
    ensures many { IsTrue result → at + 2 ≤ end }
{
    if end - at == 1 || file[at] == u64::MAX {
        return false;
    }
    end == file.len() || file[end] > file[at] + 1
}

/// Adds the equal keys of these places, for which there is room.
fn add_group(parts: &mut Parts, file: &[u64], at: usize, end: usize)
    requires never_falls { IsNonDecreasing file.now }
    requires few { length file.now < 2 ^ 32 }
    requires so_far { HoldsUpTo file.now at parts.old.xs.items parts.old.ys.items }
    requires start { IsGroupStart file.now at }
    requires end { IsGroupEnd file.now at end }
    requires xs_room { vec_len parts.old.xs + min 2 (end - at) ≤ vec_capacity parts.old.xs }
    requires ys_room { vec_len parts.old.ys + min 2 (end - at) ≤ vec_capacity parts.old.ys }
    ensures holds { HoldsUpTo file.now end parts.new.xs.items parts.new.ys.items }
    ensures xs_len { vec_len parts.new.xs ≤ vec_len parts.old.xs + min 2 (end - at) }
    ensures ys_len { vec_len parts.new.ys ≤ vec_len parts.old.ys + min 2 (end - at) }
    ensures xs_capacity { vec_capacity parts.new.xs ≡ vec_capacity parts.old.xs }
    ensures ys_capacity { vec_capacity parts.new.ys ≡ vec_capacity parts.old.ys }
{
    let key = file[at];
    parts.xs.push_reserved(key);
    parts.ys.push_reserved(at as u32);
    if is_closed_group(file, at, end) {
        parts.xs.push_reserved(key + 1);
        parts.ys.push_reserved(end as u32);
    }
}
