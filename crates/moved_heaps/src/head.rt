//! The first check: the edition, and the numbers of places and roots.
ghost use Rattle.std.specs.Prelude.{◌≡◌, ◌↔◌, IfErr, IsTrue, OnOk};
ghost use Rattle.moved_heaps.specs.Moved.{HasHead};
ghost use Rattle.moved_heaps.specs.MovedFaults.{IsFirstFault};

use crate::fault::{HeadPart, MovedFault};
use crate::moved_heap::MovedHeap;
use heap_layout::{Edition, MarkedHeap};

/// Checks that the edition is the heap's, that there is a place for each marked object, and a root for each root.
pub(crate) fn check_head(heap: &MarkedHeap, moved: &MovedHeap) -> Result<(), MovedFault>
    ensures right { OnOk result (HasHead heap.now moved.now) }
    ensures first { IfErr result (IsFirstFault heap.now moved.now) }
{
    if !is_same(moved.edition(), heap.edition()) {
        return Err(MovedFault::WrongHead(HeadPart::Edition));
    }
    if moved.places().len() != heap.marks().len() {
        return Err(MovedFault::WrongHead(HeadPart::Places));
    }
    if moved.roots().len() != heap.roots().len() {
        return Err(MovedFault::WrongHead(HeadPart::Roots));
    }
    Ok(())
}

// Whether the two editions are equal.
fn is_same(edition: Edition, other: Edition) -> bool
    ensures { IsTrue result ↔ edition ≡ other }
{
    edition == other
}
