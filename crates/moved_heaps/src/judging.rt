//! The judgement of a moved heap.
ghost use Rattle.moved_heaps.specs.MovedFaults.{Judges};

use crate::fault::MovedFault;
use crate::head::check_head;
use crate::index::Index;
use crate::moved_heap::MovedHeap;
use crate::overlaps::check_overlaps;
use crate::places::check_places;
use crate::roots::check_roots;
use crate::whole::check_words;
use heap_layout::MarkedHeap;
use std::alloc::Global;

/// What a lawful collection moved.
#[derive(Clone, Copy, Debug, PartialEq, Eq)]
pub struct Moves {
    /// How many objects moved: those that were marked.
    pub objects: u64,
    /// How many words they have together, with their headers.
    pub words: u64,
}

/// Whether a collection may have left this: each marked object of the heap stands whole at its new place, inside the
/// words, and no two overlap; each root leads to the new place of its object. The answer is what moved, or the first
/// fault in the order of `MovedFault`. `OutOfMemory` comes only after the head and the places were found right.
///
/// It sorts the places, of which it makes a list of eight bytes each. All else takes time in proportion to the words
/// and roots of the heap, and a bit and a half of memory for each word.
pub fn judge(alloc: Global, heap: &MarkedHeap, moved: &MovedHeap) -> Result<Moves, MovedFault>
    ensures { Judges heap.now moved.now result }
{
    check_head(heap, moved)?;
    let words = check_places(heap, moved)?;
    check_overlaps(alloc, heap, moved)?;
    let index = Index::new(alloc, heap)?;
    check_roots(heap, &index, moved)?;
    check_words(heap, &index, moved)?;
    Ok(Moves {
        objects: heap.marks().len() as u64,
        words,
    })
}
