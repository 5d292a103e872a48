//! Whether a watermark may go up: whether the words up to an index are a row of objects by their headers.
ghost use Rattle.std.specs.Prelude.{◌≡◌, ◌+◌, ◌<◌, ◌≤◌, ◌⊎◌, length, IfErr, IfNone, IfSome, OnOk};
ghost use Rattle.heap_layout.specs.Header.{size_of};
ghost use Rattle.heap_layout.specs.Heap.{header_at, IsPlaced};
ghost use Rattle.heap_layout.specs.Limits.{most_object_words};
ghost use Rattle.young_heap.specs.Raising.{IsBrokenAt};
ghost use Rattle.young_heap.specs.Rows.{IsRowTo};

use crate::shape::shape_of;
use heap_layout::Edition;

// Where the object at index `i` ends, if it has no more words than the edition allows and ends at or below `end`.
fn placed_end(edition: Edition, words: &[u64], end: usize, i: usize) -> Option<usize>
    requires low { i < end }
    requires inside { end ≤ length words.now }
    ensures placed { IfSome result (λ next. IsPlaced edition words.now i) }
    ensures end { IfSome result (λ next. next ≡ i + size_of (header_at edition words.now i)) }
    ensures order { IfSome result (λ next. (i < next) × (next ≤ end)) }
    ensures breaks { IfNone result ((most_object_words edition < size_of (header_at edition words.now i))
        ⊎ (end < i + size_of (header_at edition words.now i))) }
{
    let size = shape_of(edition, words[i]).size;
    if size > edition.max_object_words() || size > end - i {
        return None;
    }
    Some(i + size)
}

/// Ok if the words from index `from` up to `end` are a row of objects. Err with where the row breaks: the index of an
/// object that is too long, or that ends behind `end`. It reads their headers alone.
pub(crate) fn check_row(
    edition: Edition,
    words: &[u64],
    from: usize,
    end: usize,
) -> Result<(), usize>
    requires order { from ≤ end }
    requires inside { end ≤ length words.now }
    ensures row { OnOk result (IsRowTo edition words.now end from) }
    ensures broken { IfErr result (λ i. IsBrokenAt edition words.now from end i) }
{
    let mut next = from;
    while next < end {
        match placed_end(edition, words, end, next) {
            Some(behind) => next = behind,
            None => return Err(next),
        }
    }
    Ok(())
}
