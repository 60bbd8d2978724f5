// Many updates of a map at once.
ghost use Rattle.std.specs.Prelude.{◌≡◌, ◌≢◌, ◌⊎◌, ◌<◌, ◌≤◌, ◌++◌, List, length, map, take};
ghost use Rattle.std.specs.Prelude.{All, IfOk, slice_index_or};
ghost use Rattle.log_levels.specs.declared.update.Update.{Update};
ghost use Rattle.log_levels.specs.Accepted.{entries_of};
ghost use Rattle.log_levels.specs.Shapes.{StandsFor, capacity_of};
ghost use Rattle.kuldebiq.specs.Answers.{gives, refuses, IsDone};
ghost use Rattle.kuldebiq.specs.Changes.{Adds};
ghost use Rattle.kuldebiq.specs.Updates.{IsUpdate, update_of, RefusesUpdates};

use crate::answer::{Answer, FULL, NO_MEMORY, NO_SUCH_KIND, fault_as, given, refused};
use budget::NoMemory;
use log_levels::{LogMap, Update};
use std::alloc::Global;

/// An update: what is done, and at which keys.
#[repr(C)]
#[derive(Clone, Copy)]
pub struct UpdateParts {
    /// 0 puts a value at a key, 1 takes a key out, 2 takes out all keys from one to another, both
    /// included.
    pub kind: u32,
    /// The key; of a sweep the lowest one.
    pub key: u64,
    /// The value of a put; of a sweep the highest key.
    pub value: u64,
}

/// Has a map take updates in order, all or none. The number is how many there are.
///
/// A refusal is `NO_SUCH_KIND`, which is judged first, `FULL` or `NO_MEMORY`, and then the map is
/// as it was.
pub(crate) fn apply(alloc: Global, held: &mut LogMap, parts: &[UpdateParts]) -> Answer
    ensures done { IsDone result → Adds (map update_of parts.now) held.old held.new }
    ensures judged { IsDone result → All IsUpdate parts.now }
    ensures number { IsDone result → result ≡ gives (length parts.now) }
    ensures full { (before : List Update) → All IsUpdate parts.now → StandsFor held.old before →
        capacity_of held.old < length (entries_of (before ++ map update_of parts.now)) →
        (result ≡ refuses FULL held.old.accepted) ⊎ (result ≡ refuses NO_MEMORY 0) }
    ensures refused { result.status ≢ 0 → RefusesUpdates held.old parts.now result }
    ensures unchanged { result.status ≢ 0 → held.new ≡ held.old }
{
    let known = known_len(parts);
    if known < parts.len() {
        return refused(NO_SUCH_KIND, known as u64);
    }
    match updates_of(alloc, parts) {
        Ok(updates) => match held.apply_here(alloc, &updates) {
            Ok(()) => given(parts.len() as u64),
            Err(fault) => fault_as(fault),
        },
        Err(_) => refused(NO_MEMORY, 0),
    }
}

/// How many updates there are before the first that is none.
fn known_len(parts: &[UpdateParts]) -> usize
    ensures within { result ≤ length parts.now }
    ensures known { All IsUpdate (take result parts.now) }
    ensures other { (d : UpdateParts) → result < length parts.now →
        IsUpdate (slice_index_or parts.now result d) → ⊥ }
{
    for (i, part) in parts.iter().enumerate() {
        if part.kind > 2 {
            return i;
        }
    }
    parts.len()
}

/// The updates, in a list of their own.
fn updates_of(alloc: Global, parts: &[UpdateParts]) -> Result<Vec<Update>, NoMemory>
    ensures { IfOk result (λ updates. updates.items ≡ map update_of parts.now) }
{
    let mut updates = Vec::with_capacity(alloc, parts.len())?;
    for part in parts {
        updates.push(update_of(*part))?;
    }
    Ok(updates)
}

fn update_of(parts: UpdateParts) -> Update
    ensures { result ≡ update_of parts }
{
    match parts.kind {
        0 => Update::Put(parts.key, parts.value),
        1 => Update::Del(parts.key),
        _ => Update::Sweep(parts.key, parts.value),
    }
}
