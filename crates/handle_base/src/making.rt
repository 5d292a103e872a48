//! Heaps are made of what C hands in.
ghost use Rattle.std.specs.Prelude.{◌≡◌, None, IfErr, IfOk};
ghost use Rattle.heap_layout.specs.Faults.{IsAccepted};
ghost use Rattle.reachability.specs.Reachable.{AreReachable};
ghost use Rattle.handle_base.specs.Making.{given, Accepts, AcceptsReached, IsWhy, IsWhyReached, MakesHeap, MarksHeap};

use crate::answer::Answer;
use crate::handle::Handle;
use crate::kept::Kept;
use crate::opening::{is_full, keep};
use crate::status;
use heap_layout::{Edition, LayoutFault, MarkedHeap, check_sizes, edition_of};
use reachability::reachable_heap;
use std::alloc::{AllocError, Global};

// A copy of these words. Err if out of memory.
fn copied(alloc: Global, words: &[u64]) -> Result<Vec<u64>, AllocError>
    ensures { IfOk result (λ list. list.items ≡ words.now) }
{
    let mut list = Vec::with_capacity(alloc, words.len())?;
    list.extend_from_slice(words)?;
    Ok(list)
}

/// A copy of these marks. Err if out of memory.
pub fn copied_marks(alloc: Global, marks: &[u32]) -> Result<Vec<u32>, AllocError>
    ensures { IfOk result (λ list. list.items ≡ marks.now) }
{
    let mut list = Vec::with_capacity(alloc, marks.len())?;
    list.extend_from_slice(marks)?;
    Ok(list)
}

// The heap of these words, marks and roots. They are not copied if there are too many.
fn heap_of(
    alloc: Global,
    edition: Edition,
    words: &[u64],
    marks: &[u32],
    roots: &[u64],
) -> Result<MarkedHeap, LayoutFault>
    ensures made { IfOk result (λ heap. heap ≡ given edition words.now marks.now roots.now) }
    ensures accepted { IfOk result IsAccepted }
    ensures fault { IfErr result (IsWhy (given edition words.now marks.now roots.now)) }
{
    check_sizes(edition, words.len(), marks.len(), roots.len())?;
    let words = copied(alloc, words)?;
    let marks = copied_marks(alloc, marks)?;
    let roots = copied(alloc, roots)?;
    MarkedHeap::from_parts_of(edition, words, marks, roots)
}

// Puts the heap of these words, marks and roots into the handle, which is empty, or answers why it is refused.
fn accept(
    alloc: Global,
    out: &mut Handle,
    edition: Edition,
    words: &[u64],
    marks: &[u32],
    roots: &[u64],
) -> Answer
    requires { out.old.kept ≡ None }
    ensures { Accepts (given edition words.now marks.now roots.now) out.new.kept result }
{
    match heap_of(alloc, edition, words, marks, roots) {
        Ok(heap) => {
            if keep(alloc, out, Kept::Heap(heap)) {
                Answer::done(0)
            } else {
                Answer::unaccepted(LayoutFault::OutOfMemory)
            }
        }
        Err(fault) => Answer::unaccepted(fault),
    }
}

/// Makes a marked heap of this edition, 1 to 4, from its words, its marks and its roots, and puts it into an empty
/// handle. If it is refused, the handle stays as it is. A heap that is too large is refused before memory is asked for.
pub fn put_heap(
    alloc: Global,
    edition: u32,
    words: &[u64],
    marks: &[u32],
    roots: &[u64],
    out: &mut Handle,
) -> Answer
    ensures { MakesHeap edition words.now marks.now roots.now out.old.kept out.new.kept result }
{
    if is_full(alloc, out) {
        return Answer::bare(status::NOT_EMPTY, 0);
    }
    match edition_of(edition, true) {
        Some(found) => accept(alloc, out, found, words, marks, roots),
        None => Answer::bare(status::BAD_EDITION, u64::from(edition)),
    }
}

// The heap of these words and roots, in which exactly the objects are marked that the roots reach. They are not copied
// if there are too many.
fn reached_heap(
    alloc: Global,
    edition: Edition,
    words: &[u64],
    roots: &[u64],
) -> Result<MarkedHeap, LayoutFault>
    ensures made { IfOk result (λ heap. heap ≡ given edition words.now heap.marks roots.now) }
    ensures reachable { IfOk result (λ heap. AreReachable edition words.now roots.now heap.marks) }
    ensures accepted { IfOk result IsAccepted }
    ensures fault { IfErr result (IsWhyReached edition words.now roots.now) }
{
    check_sizes(edition, words.len(), 0, roots.len())?;
    let words = copied(alloc, words)?;
    let roots = copied(alloc, roots)?;
    reachable_heap(alloc, edition, words, roots)
}

// Puts that heap into the handle, which is empty, or answers why it is refused.
fn accept_reached(
    alloc: Global,
    out: &mut Handle,
    edition: Edition,
    words: &[u64],
    roots: &[u64],
) -> Answer
    requires { out.old.kept ≡ None }
    ensures { AcceptsReached edition words.now roots.now out.new.kept result }
{
    match reached_heap(alloc, edition, words, roots) {
        Ok(heap) => {
            if keep(alloc, out, Kept::Heap(heap)) {
                Answer::done(0)
            } else {
                Answer::unaccepted(LayoutFault::OutOfMemory)
            }
        }
        Err(fault) => Answer::unaccepted(fault),
    }
}

/// Makes a heap of this edition, 1 to 4, from its words and its roots, in which exactly the objects are marked that the
/// roots reach, and puts it into an empty handle. If it is refused, the handle stays as it is. A heap that is too large
/// is refused before memory is asked for.
pub fn put_marked(
    alloc: Global,
    edition: u32,
    words: &[u64],
    roots: &[u64],
    out: &mut Handle,
) -> Answer
    ensures { MarksHeap edition words.now roots.now out.old.kept out.new.kept result }
{
    if is_full(alloc, out) {
        return Answer::bare(status::NOT_EMPTY, 0);
    }
    match edition_of(edition, true) {
        Some(found) => accept_reached(alloc, out, found, words, roots),
        None => Answer::bare(status::BAD_EDITION, u64::from(edition)),
    }
}
