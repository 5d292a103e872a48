//! The fourth check: each root leads to the new place of its object.
ghost use Rattle.std.specs.Prelude.{◌≡◌, ◌<◌, length, ℕ, IfErr, OnOk};
ghost use Rattle.moved_heaps.specs.Moved.{IsRoot};
ghost use Rattle.moved_heaps.specs.MovedFaults.{IsFirstFault, PassesOverlaps};

use crate::fault::MovedFault;
use crate::index::Index;
use crate::leading::led;
use crate::moved_heap::MovedHeap;
use heap_layout::MarkedHeap;

/// Checks that each root is the new address of its object, or null if it was null. The checks before must
/// have passed, and the index must be that of the heap.
pub(crate) fn check_roots(
    heap: &MarkedHeap,
    index: &Index,
    moved: &MovedHeap,
) -> Result<(), MovedFault>
    requires index { index.now ≡ heap.now.marks }
    requires passed { PassesOverlaps heap.now moved.now }
    ensures right { OnOk result ((i : ℕ) → i < length heap.now.roots → IsRoot heap.now moved.now i) }
    ensures first { IfErr result (IsFirstFault heap.now moved.now) }
{
    for (i, &root) in heap.roots().iter().enumerate() {
        if moved.roots()[i] != led(heap, index, moved.places(), root) {
            return Err(MovedFault::WrongRoot(i as u64));
        }
    }
    Ok(())
}
