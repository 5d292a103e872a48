//! The fifth check: each marked object stands whole at its new place.
ghost use Rattle.std.specs.Prelude.{◌≡◌, ◌<◌, length, ℕ, slice_index, IfErr, MatchOption, OnOk};
ghost use Rattle.heap_layout.specs.Heap.{live};
ghost use Rattle.moved_heaps.specs.Moved.{marked, size_at, words_after, IsWhole, IsWord};
ghost use Rattle.moved_heaps.specs.MovedFaults.{IsFirstFault, IsLeast, PassesRoots};

use crate::fault::MovedFault;
use crate::index::Index;
use crate::leading::led;
use crate::moved_heap::MovedHeap;
use crate::places::size_at;
use heap_layout::{Kind, MarkedHeap};

/// Checks that each marked object stands whole at its new place. The checks before must have passed, and the index
/// must be that of the heap.
pub(crate) fn check_words(
    heap: &MarkedHeap,
    index: &Index,
    moved: &MovedHeap,
) -> Result<(), MovedFault>
    requires index { index.now ≡ heap.now.marks }
    requires passed { PassesRoots heap.now moved.now }
    ensures whole { OnOk result ((k : ℕ) → k < length heap.now.marks → IsWhole heap.now moved.now k) }
    ensures first { IfErr result (IsFirstFault heap.now moved.now) }
{
    for k in 0..heap.marks().len() {
        if let Some(offset) = wrong_word(heap, index, moved, k) {
            return Err(MovedFault::WrongWord(k as u64, offset as u64));
        }
    }
    Ok(())
}

// The least offset at which the marked object with this number has a wrong word at its new place. None if it stands
// whole there.
fn wrong_word(heap: &MarkedHeap, index: &Index, moved: &MovedHeap, k: usize) -> Option<usize>
    requires index { index.now ≡ heap.now.marks }
    requires passed { PassesRoots heap.now moved.now }
    requires there { k < length heap.now.marks }
    ensures { MatchOption result (IsWhole heap.now moved.now k) (IsLeast (IsWord heap.now moved.now k) (size_at heap.now k)) }
{
    let place = moved.places()[k] as usize;
    for offset in 0..size_at(heap, k) as usize {
        if moved.words()[place + offset] != word_after(heap, index, moved.places(), k, offset) {
            return Some(offset);
        }
    }
    None
}

// The word that the marked object with this number must have at this offset after the move.
fn word_after(heap: &MarkedHeap, index: &Index, places: &[u32], k: usize, offset: usize) -> u64
    requires index { index.now ≡ heap.now.marks }
    requires places { length places.now ≡ length heap.now.marks }
    requires there { k < length heap.now.marks }
    requires inside { offset < size_at heap.now k }
    ensures { result ≡ slice_index (words_after (live heap.now) places.now (marked heap.now k)) offset }
{
    let mark = heap.marks()[k] as usize;
    let header = heap.header_at(mark);
    let word = heap.words()[mark + offset];
    if 0 < offset && offset < header.first(Kind::Data) as usize {
        led(heap, index, places, word)
    } else {
        word
    }
}
