//! The second check: each marked object lies inside the words.
ghost use Rattle.std.specs.Prelude.{◌≡◌, ◌<◌, length, ℕ, IfErr, IfOk};
ghost use Rattle.heap_layout.specs.Heap.{live, IsClosed};
ghost use Rattle.page_plan.specs.Sliding.{live_words};
ghost use Rattle.moved_heaps.specs.Moved.{IsInside, HasHead, size_at};
ghost use Rattle.moved_heaps.specs.MovedFaults.{IsFirstFault};

use crate::fault::MovedFault;
use crate::moved_heap::MovedHeap;
use heap_layout::MarkedHeap;

/// How many words the marked object with this number has. There must be such an object.
pub(crate) fn size_at(heap: &MarkedHeap, k: usize) -> u32
    requires { k < length heap.now.marks }
    ensures size { result ≡ size_at heap.now k }
    ensures closed { IsClosed heap.now }
{
    heap.header_at(heap.marks()[k] as usize).size()
}

/// Checks that each marked object lies inside the words at its new place. Answers how many words they have together.
pub(crate) fn check_places(heap: &MarkedHeap, moved: &MovedHeap) -> Result<u64, MovedFault>
    requires { HasHead heap.now moved.now }
    ensures inside { IfOk result (λ _. (k : ℕ) → k < length heap.now.marks → IsInside heap.now moved.now k) }
    ensures words { IfOk result (λ words. words ≡ live_words (live heap.now)) }
    ensures first { IfErr result (IsFirstFault heap.now moved.now) }
{
    let end = moved.words().len() as u64;
    let mut words = 0;
    for (k, &place) in moved.places().iter().enumerate() {
        let size = u64::from(size_at(heap, k));
        if u64::from(place) + size > end {
            return Err(MovedFault::PlaceOutside(k as u64));
        }
        words += size;
    }
    Ok(words)
}
