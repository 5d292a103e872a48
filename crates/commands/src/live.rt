ghost use Rattle.std.specs.Prelude.{◌≡◌};
ghost use Rattle.heap_layout.specs.Heap.{live};
ghost use Rattle.page_plan.specs.Sliding.{live_words};

use heap_layout::MarkedHeap;

/// How many words the marked objects of a heap have, with their headers.
pub fn live_words(heap: &MarkedHeap) -> u64
    ensures { result ≡ live_words (live heap.now) }
{
    let mut words = 0;
    for &mark in heap.marks() {
        words += u64::from(heap.header_at(mark as usize).size());
    }
    words
}
