//! Where a word leads after the move.
ghost use Rattle.std.specs.Prelude.{◌≡◌, ◌<◌, length, IfSome};
ghost use Rattle.heap_layout.specs.Heap.{live};
ghost use Rattle.moved_heaps.specs.Moved.{led_value};
ghost use Rattle.page_plan.specs.Sliding.{number_of};

use crate::index::Index;
use heap_layout::{FROM_SPACE, MarkedHeap, TO_SPACE};

/// Where a root, a reference or a weak word leads once the marked objects are at these places: to the new place of its
/// object, and to null if it is null or no marked object is there. An immediate stays as it is. The index must be that
/// of the heap, and there must be a place for each marked object.
pub(crate) fn led(heap: &MarkedHeap, index: &Index, places: &[u32], word: u64) -> u64
    requires index { index.now ≡ heap.now.marks }
    requires places { length places.now ≡ length heap.now.marks }
    ensures { result ≡ led_value heap.now.edition (live heap.now) places.now word }
{
    if heap.edition().is_immediate(word) {
        return word;
    }
    match number_of(heap, index, word) {
        Some(k) => TO_SPACE + u64::from(places[k]),
        None => 0,
    }
}

// The number of the marked object at this address. None if none is there.
fn number_of(heap: &MarkedHeap, index: &Index, address: u64) -> Option<usize>
    requires { index.now ≡ heap.now.marks }
    ensures number { result ≡ number_of (live heap.now) address }
    ensures inside { IfSome result (λ k. k < length heap.now.marks) }
{
    // For the proof alone: its clauses say that the heap was accepted.
    let _ = heap.marks();
    if address < FROM_SPACE {
        return None;
    }
    index.number_at(address - FROM_SPACE)
}
