//! Entry lists, as the levels of the logarithmic method hold them, and their merge.
//!
//! A map that changes is kept as lists of entries, each strictly ascending by key, with the newer
//! entries in the smaller lists (Bentley and Saxe, Decomposable searching problems, J. Algorithms
//! 1(4), 1980). A deletion is an entry too: one without a value, a tombstone, which hides what
//! older lists have at its key (O'Neil, Cheng, Gawlick and O'Neil, The log-structured merge-tree,
//! Acta Informatica 33, 1996). Where two lists are merged, the newer entry of a key stays. A
//! tombstone stays as well, unless no older list is left below the merged one:
//!
//!     newer     5 none        7 1
//!     older     5 3     6 2
//!     merged    5 none  6 2   7 1
//!     deepest           6 2   7 1
//!
//! [`merge_in_pieces`] gives the same list by several workers.
//!
//! Main clause: that of [`merge`] and of [`merge_in_pieces`], `IsMerge`. The words of the clauses
//! are in `specs/Entries.antt`.
#![tactic(auto)]

ghost use Rattle.std.specs.Prelude.{◌≡◌, ◌+◌, ◌<◌, ◌≤◌, ◌++◌};
ghost use Rattle.std.specs.Prelude.{◌∷◌, ◌↔◌, []};
ghost use Rattle.std.specs.Prelude.{Some, IfOk, IsTrue, MatchOption};
ghost use Rattle.std.specs.Prelude.{length, take, drop, All, vec_len, vec_capacity};
ghost use Rattle.tombstones.specs.Entries.{IsAscending, IsMerge, kept};

mod entry;
mod pieces;
mod remaining;

pub use budget::NoMemory;
pub use entry::Entry;
pub use pieces::merge_in_pieces;
use remaining::{Heads, Remaining};
use std::alloc::Global;

/// Whether the keys rise strictly, as [`merge`] needs them. An empty list's do. Takes no memory.
pub fn is_ascending(entries: &[Entry]) -> bool
    ensures { IsTrue result ↔ IsAscending entries.now }
{
    entries.is_sorted_by(|x, y| x.key < y.key)
}

/// How many entries of a list, strictly ascending by key, are below a key: the place of the first
/// one that isn't, or the length. Takes no memory.
pub fn place_of(entries: &[Entry], key: u64) -> usize
    requires { IsAscending entries.now }
    ensures within { result ≤ length entries.now }
    ensures below { All (λ entry. entry.key < key) (take result entries.now) }
    ensures from { All (λ entry. key ≤ entry.key) (drop result entries.now) }
{
    entries.partition_point(|entry| entry.key < key)
}

/// Merges two lists of entries, each strictly ascending by key, into one.
///
/// At each key of either list the result has the newer's entry, where there is one, else the
/// older's. With `deepest`, for a result that no older list lies below, tombstones are left out,
/// whichever list they come from. The result is strictly ascending too. It is made in one pass, and
/// its room is taken once, for as many entries as both lists have.
///
/// # Errors
///
/// `NoMemory` where that room is not to be had.
///
/// Source: Bentley and Saxe, 1980; for tombstones O'Neil, Cheng, Gawlick and O'Neil, 1996.
pub fn merge(
    alloc: Global,
    newer: &[Entry],
    older: &[Entry],
    deepest: bool,
) -> Result<Vec<Entry>, NoMemory>
    requires newer_ascending { IsAscending newer.now }
    requires older_ascending { IsAscending older.now }
    ensures { IfOk result (λ merged. IsMerge newer.now older.now deepest merged.items) }
{
    let room = Vec::with_capacity(alloc, newer.len() + older.len())?;
    Ok(merged_in(room, newer, older, deepest))
}

/// Merges two lists into one that is empty and has room for all.
///
/// Not inlined, since only so the compiler knows that nothing else holds the list that it writes.
#[inline(never)]
fn merged_in(room: Vec<Entry>, newer: &[Entry], older: &[Entry], deepest: bool) -> Vec<Entry>
    requires newer_ascending { IsAscending newer.now }
    requires older_ascending { IsAscending older.now }
    requires empty { room.items ≡ [] }
    requires room { length newer.now + length older.now ≤ vec_capacity room }
    ensures { IsMerge newer.now older.now deepest result.items }
{
    let mut merged = room;
    let mut remaining = Remaining { newer, older };
    'rounds: loop {
        // So often both lists have an entry and one behind it, whichever of them lose theirs.
        let shorter = remaining.newer.len().min(remaining.older.len());
        let mut sure = shorter.saturating_sub(1);
        if sure == 0 {
            break;
        }
        let (new_key, old_key) = (remaining.newer[0].key, remaining.older[0].key);
        let mut heads = Heads {
            remaining,
            new_key,
            old_key,
        };
        'steps: while sure > 0 {
            let entry = heads.take_lesser();
            push_kept(&mut merged, entry, deepest);
            sure -= 1;
        }
        remaining = heads.remaining;
    }
    while let Some(entry) = remaining.take_least() {
        push_kept(&mut merged, entry, deepest);
    }
    merged
}

/// Appends an entry, unless it is a tombstone and the result is the deepest list.
#[inline(always)]
fn push_kept(merged: &mut Vec<Entry>, entry: Entry, deepest: bool)
    requires { vec_len merged.old < vec_capacity merged.old }
    ensures items { MatchOption (kept deepest (Some entry)) (merged.new.items ≡ merged.old.items)
        (λ _. merged.new.items ≡ merged.old.items ++ entry ∷ []) }
    ensures len { vec_len merged.new ≤ vec_len merged.old + 1 }
    ensures capacity { vec_capacity merged.new ≡ vec_capacity merged.old }
{
    if !deepest || entry.value.is_some() {
        merged.push_reserved(entry);
    }
}
