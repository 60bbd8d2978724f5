// A merge by threads: both lists are cut at the same keys, and the parts are merged side by side.
ghost use Rattle.std.specs.Prelude.{◌≡◌, ◌<◌, ◌≤◌, length, max, IfOk};
ghost use Rattle.tombstones.specs.Entries.{IsAscending, IsMerge, entry_at};
ghost use Rattle.tombstones.specs.Parts.{IsBetween, IsCutAt, IsMergedPart, edge_of, longer_of};
ghost use Rattle.tombstones.specs.Parts.{merged_at};

use crate::{Entry, merge, place_of};
use budget::NoMemory;
use options::Workers;
use std::alloc::Global;
use std::thread;
use std::thread::Threads;

/// How many entries of the longer list a part has at least, so that the start of a thread is small
/// beside its work. A guess; it wasn't measured.
const SHORTEST: usize = 4096;

/// Merges two lists of entries as [`merge`] does, by several workers: the same list for every
/// number of workers.
///
/// Both lists are cut before the same keys, those at even places of the longer one. Each worker
/// merges a part of both into a list of its own, and these are put one behind the other. Worker
/// threads are joined before the call returns; where one can't be started the caller does its work.
/// No more of them are started than there are parts of 4,096 entries of the longer list, and none
/// for one part.
///
/// Room is taken for as many entries as both lists have, and as much again for the workers' lists,
/// until the call returns: with two parts or more each entry is copied twice.
///
/// # Errors
///
/// `NoMemory` where that room is not to be had.
pub fn merge_in_pieces<R: Threads + Sync>(
    rt: &R,
    alloc: Global,
    newer: &[Entry],
    older: &[Entry],
    deepest: bool,
    workers: Workers,
) -> Result<Vec<Entry>, NoMemory>
    requires newer_ascending { IsAscending newer.now }
    requires older_ascending { IsAscending older.now }
    ensures { IfOk result (λ merged. IsMerge newer.now older.now deepest merged.items) }
{
    let longest = newer.len().max(older.len());
    let parts = (workers.count as usize).min(longest / SHORTEST);
    merge_parts(rt, alloc, newer, older, deepest, parts)
}

/// The merge in `most` parts, but in no more than the longer list has entries.
fn merge_parts<R: Threads + Sync>(
    rt: &R,
    alloc: Global,
    newer: &[Entry],
    older: &[Entry],
    deepest: bool,
    most: usize,
) -> Result<Vec<Entry>, NoMemory>
    requires newer_ascending { IsAscending newer.now }
    requires older_ascending { IsAscending older.now }
    ensures { IfOk result (λ merged. IsMerge newer.now older.now deepest merged.items) }
{
    let parts = most.min(newer.len().max(older.len()));
    if parts < 2 {
        return merge(alloc, newer, older, deepest);
    }
    let part = |i: usize| -> Result<Vec<Entry>, NoMemory>
        requires newer_ascending { IsAscending newer.now }
        requires older_ascending { IsAscending older.now }
        requires inside { i < parts }
        requires few { parts ≤ max (length newer.now) (length older.now) }
        ensures { IfOk result (λ list.
            IsMergedPart newer.entry.now older.entry.now deepest parts i list.items) }
    { merge_part(alloc, newer, older, deepest, parts, i) };
    let lists = thread::map_indices(rt, alloc, parts, &part)?;
    let mut merged = Vec::with_capacity(alloc, newer.len() + older.len())?;
    for list in &lists {
        match list {
            Ok(list) => merged.extend_from_slice(list)?,
            Err(_) => return Err(NoMemory),
        }
    }
    Ok(merged)
}

/// The merge of part `i` of `parts`.
fn merge_part(
    alloc: Global,
    newer: &[Entry],
    older: &[Entry],
    deepest: bool,
    parts: usize,
    i: usize,
) -> Result<Vec<Entry>, NoMemory>
    requires newer_ascending { IsAscending newer.now }
    requires older_ascending { IsAscending older.now }
    requires inside { i < parts }
    requires few { parts ≤ max (length newer.now) (length older.now) }
    ensures { IfOk result
        (λ list. IsMergedPart newer.now older.now deepest parts i list.items) }
{
    let longer = longer_of(newer, older);
    let (low, high) = (edge(longer, parts, i), edge(longer, parts, i + 1));
    merge_between(alloc, newer, older, deepest, low, high)
}

/// The list with more entries, the newer one of two as long.
fn longer_of<'a>(newer: &'a [Entry], older: &'a [Entry]) -> &'a [Entry]
    ensures longer { result.now ≡ longer_of newer.now older.now }
    ensures len { length result.now ≡ max (length newer.now) (length older.now) }
{
    if newer.len() < older.len() {
        older
    } else {
        newer
    }
}

/// The edge before part `i` of `parts`. None is behind the last part.
fn edge(longer: &[Entry], parts: usize, i: usize) -> Option<u64>
    requires some { 0 < parts }
    requires few { parts ≤ length longer.now }
    ensures { result ≡ edge_of longer.now parts i }
{
    if i == 0 {
        return Some(0);
    }
    if i >= parts {
        return None;
    }
    Some(longer[i * (longer.len() / parts)].key)
}

/// The merge of what two lists have from one edge to below another.
fn merge_between(
    alloc: Global,
    newer: &[Entry],
    older: &[Entry],
    deepest: bool,
    low: Option<u64>,
    high: Option<u64>,
) -> Result<Vec<Entry>, NoMemory>
    requires newer_ascending { IsAscending newer.now }
    requires older_ascending { IsAscending older.now }
    ensures { IfOk result (λ merged.
        IsBetween low high (merged_at newer.now older.now deepest) merged.items) }
{
    let (newer, older) = (between(newer, low, high), between(older, low, high));
    merge(alloc, newer, older, deepest)
}

/// What a list has from one edge to below another.
fn between(entries: &[Entry], low: Option<u64>, high: Option<u64>) -> &[Entry]
    requires { IsAscending entries.now }
    ensures { IsBetween low high (entry_at entries.now) result.now }
{
    let (_, rest) = cut_at(entries, low);
    let (part, _) = cut_at(rest, high);
    part
}

/// The entries below an edge, and the others. No entry is behind none.
fn cut_at(entries: &[Entry], edge: Option<u64>) -> (&[Entry], &[Entry])
    requires { IsAscending entries.now }
    ensures cut { IsCutAt edge entries.now result.0.now result.1.now }
    ensures rest { IsAscending result.1.now }
{
    let place = match edge {
        Some(key) => place_of(entries, key),
        None => entries.len(),
    };
    entries.split_at(place)
}
