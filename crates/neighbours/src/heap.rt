// The nearest places so far, as a heap that has the last of them in front.
//
// Source: Williams, Heapsort, Communications of the ACM 7(6), 1964.
ghost use Rattle.std.specs.Prelude.{◌+◌, ◌*◌, ◌<◌, ◌≤◌, ℕ, [], ◌∷◌, length};
ghost use Rattle.std.specs.Prelude.{slice_index_or};
ghost use Rattle.std.specs.List.Sorted.{IsPermutation};
ghost use Rattle.neighbours.specs.Chosen.{Always, AreStillKept, IsHeap};
ghost use Rattle.neighbours.specs.Neighbours.{neighbour_at, rank_of};

use crate::Neighbour;

/// Makes a heap.
pub fn make_heap(heap: &mut [Neighbour])
    ensures heap { IsHeap 0 heap.new }
    ensures same { IsPermutation heap.old heap.new }
{
    for i in 0..heap.len() / 2 {
        sink(heap, heap.len() / 2 - 1 - i);
    }
}

/// Keeps a neighbour in place of the one in front, if it stands before that.
#[inline(always)]
pub fn keep(heap: &mut [Neighbour], one: Neighbour)
    requires some { 0 < length heap.old }
    requires heap { IsHeap 0 heap.old }
    ensures kept { AreStillKept Always heap.old (one ∷ []) heap.new }
    ensures heap { IsHeap 0 heap.new }
{
    if one.stands_before(heap[0]) {
        heap[0] = one;
        sink(heap, 0);
    }
}

/// Lets the one at a place of a heap change places with the later of the two below it, as long as
/// it stands before that.
fn sink(heap: &mut [Neighbour], from: usize)
    requires heap { IsHeap (from + 1) heap.old }
    ensures heap { IsHeap from heap.new }
    ensures same { IsPermutation heap.old heap.new }
{
    let mut at = from;
    while at < heap.len() / 2 {
        let child = later_child(heap, at);
        if !heap[at].stands_before(heap[child]) {
            return;
        }
        heap.swap(at, child);
        at = child;
    }
}

/// The place of the later of the two below a place.
#[inline(always)]
fn later_child(heap: &[Neighbour], at: usize) -> usize
    requires { at * 2 + 1 < length heap.now }
    ensures from { at * 2 + 1 ≤ result }
    ensures to { result ≤ at * 2 + 2 }
    ensures within { result < length heap.now }
    ensures later { (k : ℕ) → at * 2 + 1 ≤ k → k ≤ at * 2 + 2 → k < length heap.now
        → rank_of (slice_index_or heap.now k (neighbour_at 0 0))
        ≤ rank_of (slice_index_or heap.now result (neighbour_at 0 0)) }
{
    let left = at * 2 + 1;
    let right = left + 1;
    if right < heap.len() && heap[left].stands_before(heap[right]) {
        right
    } else {
        left
    }
}
