// What goes with a writer's calls.

use published::{MapName, Slot};
use std::alloc::Global;

/// What a writer's calls work with: the runtime, the memory, the gate, and a slot for each reader's
/// newest note.
#[derive(Drop)]
pub struct Context<'a, M: MapName, R, G> {
    pub rt: &'a R,
    pub alloc: Global,
    pub slots: &'a [Slot<M>],
    pub gate: &'a G,
}
