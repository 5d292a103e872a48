//! The third check: no two marked objects overlap.
ghost use Rattle.std.specs.Prelude.{ℕ, IfErr, IfOk, OnOk};
ghost use Rattle.moved_heaps.specs.Moved.{HasHead};
ghost use Rattle.moved_heaps.specs.MovedFaults.{Overlaps, PassesPlaces, IsFirstFault};
ghost use Rattle.moved_heaps.specs.Ordered.{AreByPlace, IsListed};

use crate::fault::MovedFault;
use crate::moved_heap::MovedHeap;
use crate::places::size_at;
use heap_layout::MarkedHeap;
use std::alloc::{AllocError, Global};

/// Checks that no marked object begins inside one that comes before it. All must lie inside the words.
pub(crate) fn check_overlaps(
    alloc: Global,
    heap: &MarkedHeap,
    moved: &MovedHeap,
) -> Result<(), MovedFault>
    requires { PassesPlaces heap.now moved.now }
    ensures none { OnOk result ((k l : ℕ) → Overlaps heap.now moved.now k l → ⊥) }
    ensures first { IfErr result (IsFirstFault heap.now moved.now) }
{
    let mut row = numbered(alloc, heap, moved)?;
    row.sort_unstable();
    check_neighbours(heap, moved, &row)
}

// The place of each marked object, with the object's number.
fn numbered(
    alloc: Global,
    heap: &MarkedHeap,
    moved: &MovedHeap,
) -> Result<Vec<(u32, u32)>, AllocError>
    requires { HasHead heap.now moved.now }
    ensures { IfOk result (λ row. IsListed moved.now.places row.items) }
{
    let count = heap.marks().len();
    let mut row = Vec::with_capacity(alloc, count)?;
    for k in 0..count {
        row.push((moved.places()[k], k as u32))?;
    }
    Ok(row)
}

// Checks that no object begins inside the one before it, in the order of the places. The row has each place with its
// number.
fn check_neighbours(
    heap: &MarkedHeap,
    moved: &MovedHeap,
    row: &[(u32, u32)],
) -> Result<(), MovedFault>
    requires places { PassesPlaces heap.now moved.now }
    requires row { AreByPlace moved.now row.now }
    ensures none { OnOk result ((k l : ℕ) → Overlaps heap.now moved.now k l → ⊥) }
    ensures first { IfErr result (IsFirstFault heap.now moved.now) }
{
    for i in 1..row.len() {
        let (place, k) = row[i - 1];
        let (next, l) = row[i];
        if u64::from(next) < u64::from(place) + u64::from(size_at(heap, k as usize)) {
            return Err(MovedFault::Overlap(u64::from(k), u64::from(l)));
        }
    }
    Ok(())
}
