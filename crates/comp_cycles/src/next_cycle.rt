//! The heap with which the next cycle begins.
ghost use Rattle.std.specs.Prelude.{◌≡◌, ℕ, ◌*◌, ◌^◌, ◌<◌, ◌&&◌, nat_lt, IfErr, IfOk, List, [], length, map};
ghost use Rattle.heap_layout.specs.Bits.{bit};
ghost use Rattle.heap_layout.specs.Faults.{mark_faults, IsAccepted, Reports};
ghost use Rattle.heap_layout.specs.Heap.{is_start, IsStored};
ghost use Rattle.comp_cycles.specs.Cycles.{heap_after, IsChapter, IsCycleOf};
ghost use Rattle.comp_cycles.specs.Ends.{checked_faults, checked_heap, cycle_of, cycle_with, next_sizes, setup_in, AreMoved, IsEndOf, IsRefusedFor, IsRefusedWithin};
ghost use Rattle.comp_cycles.specs.NextHeap.{held, lowered, next_faults};
ghost use Rattle.comp_cycles.specs.Stable.{StableHeap};
ghost use Rattle.comp_cycles.specs.NumberedHeaps.{IsNumberedAs};
ghost use Rattle.comp_cycles.specs.Finishes.{journals_of, pages_of, roots_of};

use crate::finished::Finished;
use crate::laws;
use crate::moving::{Moved, moved_words};
use heap_layout::{
    Edition, FROM_SPACE, LayoutFault, MarkedHeap, OutOfMemory, TO_SPACE, check_sizes, is_set,
};
use page_plan::Builder;
use std::alloc::Global;

/// A refused `next_cycle`: the cause, and the finished heap as it was.
#[derive(Drop)]
pub struct NotCycled {
    /// The first fault of the next heap, or out of memory.
    pub fault: LayoutFault,
    /// The finished heap, unchanged.
    pub finished: Finished,
}

// Checks the marks one by one: each must be greater than the one before it, and its bit must be set.
fn check_marks(starts: &[u64], marks: &[u32]) -> Result<(), LayoutFault>
    requires { 64 * length starts.now < 2 ^ 64 }
    ensures { (row : List ℕ) → ((i : ℕ) → is_start row i ≡ (nat_lt i (64 * length starts.now) && bit starts.now i)) → Reports (mark_faults row 0 marks.now) result }
{
    let mut low = 0;
    for &mark in marks {
        let mark = mark as usize;
        if mark < low {
            return Err(LayoutFault::MarksNotRising(mark as u64));
        }
        if mark >= 64 * starts.len() || !is_set(starts, mark) {
            return Err(LayoutFault::MarkNotStart(mark as u64));
        }
        low = mark + 1;
    }
    Ok(())
}

// A word that is no address of from-space.
const NOWHERE: u64 = 1;

// A root as an address of the next heap's from-space. Null stays null, and an immediate stays as it is. A word below
// the to-space addresses leads nowhere; it is not taken as null.
fn lowered_root(edition: Edition, root: u64) -> u64
    ensures { result ≡ lowered edition (held root) }
{
    if root == 0 {
        0
    } else if root < TO_SPACE {
        NOWHERE
    } else if edition.is_immediate(root) {
        root
    } else {
        root - FROM_SPACE
    }
}

/// Roots, which are to-space addresses, null or immediates, as roots of the next heap of this edition. A word that is
/// none of these becomes one that is no address of that heap.
pub fn lowered_roots(
    alloc: Global,
    edition: Edition,
    roots: &[u64],
) -> Result<Vec<u64>, OutOfMemory>
    ensures { IfOk result (λ all. all.items ≡ map (lowered edition) (map held roots.now)) }
{
    Ok(
        roots
            .iter()
            .map(|&root| lowered_root(edition, root))
            .collect(alloc)?,
    )
}

// Checks the numbers of words, marks and roots of the next heap.
fn check_next_sizes(finished: &Finished, marks: &[u32], roots: &[u64]) -> Result<(), LayoutFault>
    requires { 64 * length (pages_of finished.now) < 2 ^ 64 }
    ensures { Reports (next_sizes finished.now marks.now roots.now) result }
{
    check_sizes(
        finished.edition(),
        64 * finished.pages().len(),
        marks.len(),
        roots.len(),
    )
}

// The heap with which the next cycle begins, made of words that were moved. Its sizes must be within the limits.
fn next_of<B: Builder>(
    alloc: Global,
    _builder: &B,
    finished: &Finished,
    moved: Moved,
    marks: Vec<u32>,
    roots: &[u64],
) -> Result<MarkedHeap, LayoutFault>
    requires of { IsEndOf (B.heap _builder.now) finished.now }
    requires moved { AreMoved (setup_in (B.heap _builder.now) finished.now) (journals_of finished.now) (64 * length (pages_of finished.now)) moved.words.items moved.starts.items }
    requires bits { length moved.starts.items ≡ length (pages_of finished.now) }
    requires sizes { next_sizes finished.now marks.items roots.now ≡ [] }
    ensures next { IfOk result (λ heap. heap ≡ checked_heap (B.heap _builder.now) finished.now roots.now marks.items) }
    ensures stored { IfOk result IsStored }
    ensures heap_accepted { IfOk result IsAccepted }
    ensures accepted { IfOk result (λ _. checked_faults (B.heap _builder.now) finished.now roots.now marks.items ≡ []) }
    ensures refused { IfErr result (IsRefusedFor (checked_faults (B.heap _builder.now) finished.now roots.now marks.items)) }
{
    if let Err(fault) = check_marks(&moved.starts, &marks) {
        return Err(fault);
    }
    let edition = finished.edition();
    let Ok(roots) = lowered_roots(alloc, edition, roots) else {
        return Err(LayoutFault::OutOfMemory);
    };
    MarkedHeap::from_parts_of(edition, moved.words, marks, roots)
}

// The heap with which the next cycle begins, given its roots and marks; its first fault if it is not accepted.
fn next_with<B: Builder>(
    alloc: Global,
    builder: &B,
    finished: &Finished,
    marks: Vec<u32>,
    roots: &[u64],
) -> Result<MarkedHeap, LayoutFault>
    requires { IsEndOf (B.heap builder.now) finished.now }
    ensures next { IfOk result (λ heap. heap ≡ checked_heap (B.heap builder.now) finished.now roots.now marks.items) }
    ensures stored { IfOk result IsStored }
    ensures heap_accepted { IfOk result IsAccepted }
    ensures accepted { IfOk result (λ _. checked_faults (B.heap builder.now) finished.now roots.now marks.items ≡ []) }
    ensures refused { IfErr result (IsRefusedFor (checked_faults (B.heap builder.now) finished.now roots.now marks.items)) }
    ensures memory { IfErr result (IsRefusedWithin (next_sizes finished.now marks.items roots.now)) }
{
    if let Err(fault) = check_next_sizes(finished, &marks, roots) {
        return Err(fault);
    }
    let Ok(moved) = moved_words(alloc, builder, finished) else {
        return Err(LayoutFault::OutOfMemory);
    };
    next_of(alloc, builder, finished, moved, marks, roots)
}

// The same, made of words that were moved already.
fn next_with_moved<B: Builder>(
    alloc: Global,
    builder: &B,
    finished: &Finished,
    moved: Moved,
    marks: Vec<u32>,
    roots: &[u64],
) -> Result<MarkedHeap, LayoutFault>
    requires of { IsEndOf (B.heap builder.now) finished.now }
    requires moved { AreMoved (setup_in (B.heap builder.now) finished.now) (journals_of finished.now) (64 * length (pages_of finished.now)) moved.words.items moved.starts.items }
    requires bits { length moved.starts.items ≡ length (pages_of finished.now) }
    ensures next { IfOk result (λ heap. heap ≡ checked_heap (B.heap builder.now) finished.now roots.now marks.items) }
    ensures stored { IfOk result IsStored }
    ensures heap_accepted { IfOk result IsAccepted }
    ensures accepted { IfOk result (λ _. checked_faults (B.heap builder.now) finished.now roots.now marks.items ≡ []) }
    ensures refused { IfErr result (IsRefusedFor (checked_faults (B.heap builder.now) finished.now roots.now marks.items)) }
    ensures memory { IfErr result (IsRefusedWithin (next_sizes finished.now marks.items roots.now)) }
{
    if let Err(fault) = check_next_sizes(finished, &marks, roots) {
        return Err(fault);
    }
    next_of(alloc, builder, finished, moved, marks, roots)
}

impl Finished {
    /// Makes the heap with which the next cycle begins. Its words are all to-space words, 64 for each page; for a page
    /// that was never built they are the words that the builder makes of it. Each reference, weak word and root that is
    /// not null is lowered by `2^32`. `marks` are the rising indices of the words at which the marked objects start, as
    /// a marking phase found them. The roots are those of the flipped heap, forwarded. The builder must be that of the
    /// flip.
    ///
    /// Refusals, in this order: `TooLarge`; mark by mark `MarksNotRising`, then `MarkNotStart`, also if the word
    /// belongs to no object; then `BadRoot`; then `UnmarkedTarget`. `OutOfMemory` may replace any other answer but
    /// `TooLarge`. After a refusal the finished heap is handed back unchanged.
    pub fn next_cycle<B: Builder>(
        self,
        alloc: Global,
        builder: &B,
        marks: Vec<u32>,
    ) -> Result<MarkedHeap, NotCycled>
        requires { IsEndOf (B.heap builder.now) self }
        ensures next { IfOk result (λ heap. heap ≡ heap_after (cycle_of (B.heap builder.now) self marks.items)) }
        ensures stored { IfOk result IsStored }
        ensures accepted { IfOk result IsAccepted }
        ensures cycle { IfOk result (λ _. IsCycleOf (B.heap builder.now) (cycle_of (B.heap builder.now) self marks.items)) }
        ensures chapter { IfOk result (λ _. (numbers : List ℕ) (stable : StableHeap) → IsNumberedAs (B.heap builder.now) numbers stable
            → IsChapter (cycle_of (B.heap builder.now) self marks.items) numbers stable) }
        ensures refused { IfErr result (λ left. IsRefusedFor (next_faults (setup_in (B.heap builder.now) self) (journals_of self) (heap_after (cycle_of (B.heap builder.now) self marks.items))) left.fault) }
        ensures memory { IfErr result (λ left. IsRefusedWithin (next_sizes self marks.items (roots_of self)) left.fault) }
        ensures back { IfErr result (λ left. left.finished ≡ self) }
    {
        laws::one_chapter();
        match next_with(alloc, builder, &self, marks, self.roots()) {
            Ok(heap) => Ok(heap),
            Err(fault) => Err(NotCycled {
                fault,
                finished: self,
            }),
        }
    }

    /// As `next_cycle`, with other roots: those of the next heap are `roots`. Each is a to-space address, the start of
    /// an object that slid or was made, or null. A mutator's stack and registers at the end of the cycle are such
    /// roots. In the life of a heap whose objects never move, the roots lead to the objects at these addresses before
    /// the marked objects are kept.
    ///
    /// Refusals are those of `next_cycle`, in the same order: `TooLarge` also if there are more roots than the edition
    /// allows; `BadRoot(k)` if root k is neither null nor the start of a marked object. After a refusal the finished
    /// heap is handed back unchanged.
    pub fn next_cycle_with<B: Builder>(
        self,
        alloc: Global,
        builder: &B,
        marks: Vec<u32>,
        roots: &[u64],
    ) -> Result<MarkedHeap, NotCycled>
        requires { IsEndOf (B.heap builder.now) self }
        ensures next { IfOk result (λ heap. heap ≡ heap_after (cycle_with (B.heap builder.now) self roots.now marks.items)) }
        ensures stored { IfOk result IsStored }
        ensures accepted { IfOk result IsAccepted }
        ensures cycle { IfOk result (λ _. IsCycleOf (B.heap builder.now) (cycle_with (B.heap builder.now) self roots.now marks.items)) }
        ensures chapter { IfOk result (λ _. (numbers : List ℕ) (stable : StableHeap) → IsNumberedAs (B.heap builder.now) numbers stable
            → IsChapter (cycle_with (B.heap builder.now) self roots.now marks.items) numbers stable) }
        ensures refused { IfErr result (λ left. IsRefusedFor (checked_faults (B.heap builder.now) self roots.now marks.items) left.fault) }
        ensures memory { IfErr result (λ left. IsRefusedWithin (next_sizes self marks.items roots.now) left.fault) }
        ensures back { IfErr result (λ left. left.finished ≡ self) }
    {
        laws::one_chapter();
        match next_with(alloc, builder, &self, marks, roots) {
            Ok(heap) => Ok(heap),
            Err(fault) => Err(NotCycled {
                fault,
                finished: self,
            }),
        }
    }

    /// As `next_cycle`, out of the words that `moved_words` made of this finished heap: for a caller that has looked at
    /// them, to find the marks. The builder must be that of the flip.
    pub fn next_moved<B: Builder>(
        self,
        alloc: Global,
        builder: &B,
        moved: Moved,
        marks: Vec<u32>,
    ) -> Result<MarkedHeap, NotCycled>
        requires of { IsEndOf (B.heap builder.now) self }
        requires moved { AreMoved (setup_in (B.heap builder.now) self) (journals_of self) (64 * length (pages_of self)) moved.words.items moved.starts.items }
        requires bits { length moved.starts.items ≡ length (pages_of self) }
        ensures next { IfOk result (λ heap. heap ≡ heap_after (cycle_of (B.heap builder.now) self marks.items)) }
        ensures stored { IfOk result IsStored }
        ensures accepted { IfOk result IsAccepted }
        ensures cycle { IfOk result (λ _. IsCycleOf (B.heap builder.now) (cycle_of (B.heap builder.now) self marks.items)) }
        ensures chapter { IfOk result (λ _. (numbers : List ℕ) (stable : StableHeap) → IsNumberedAs (B.heap builder.now) numbers stable
            → IsChapter (cycle_of (B.heap builder.now) self marks.items) numbers stable) }
        ensures refused { IfErr result (λ left. IsRefusedFor (next_faults (setup_in (B.heap builder.now) self) (journals_of self) (heap_after (cycle_of (B.heap builder.now) self marks.items))) left.fault) }
        ensures memory { IfErr result (λ left. IsRefusedWithin (next_sizes self marks.items (roots_of self)) left.fault) }
        ensures back { IfErr result (λ left. left.finished ≡ self) }
    {
        laws::one_chapter();
        match next_with_moved(alloc, builder, &self, moved, marks, self.roots()) {
            Ok(heap) => Ok(heap),
            Err(fault) => Err(NotCycled {
                fault,
                finished: self,
            }),
        }
    }

    /// As `next_cycle_with`, out of the words that `moved_words` made of this finished heap. The builder must be that
    /// of the flip.
    pub fn next_moved_with<B: Builder>(
        self,
        alloc: Global,
        builder: &B,
        moved: Moved,
        marks: Vec<u32>,
        roots: &[u64],
    ) -> Result<MarkedHeap, NotCycled>
        requires of { IsEndOf (B.heap builder.now) self }
        requires moved { AreMoved (setup_in (B.heap builder.now) self) (journals_of self) (64 * length (pages_of self)) moved.words.items moved.starts.items }
        requires bits { length moved.starts.items ≡ length (pages_of self) }
        ensures next { IfOk result (λ heap. heap ≡ heap_after (cycle_with (B.heap builder.now) self roots.now marks.items)) }
        ensures stored { IfOk result IsStored }
        ensures accepted { IfOk result IsAccepted }
        ensures cycle { IfOk result (λ _. IsCycleOf (B.heap builder.now) (cycle_with (B.heap builder.now) self roots.now marks.items)) }
        ensures chapter { IfOk result (λ _. (numbers : List ℕ) (stable : StableHeap) → IsNumberedAs (B.heap builder.now) numbers stable
            → IsChapter (cycle_with (B.heap builder.now) self roots.now marks.items) numbers stable) }
        ensures refused { IfErr result (λ left. IsRefusedFor (checked_faults (B.heap builder.now) self roots.now marks.items) left.fault) }
        ensures memory { IfErr result (λ left. IsRefusedWithin (next_sizes self marks.items roots.now) left.fault) }
        ensures back { IfErr result (λ left. left.finished ≡ self) }
    {
        laws::one_chapter();
        match next_with_moved(alloc, builder, &self, moved, marks, roots) {
            Ok(heap) => Ok(heap),
            Err(fault) => Err(NotCycled {
                fault,
                finished: self,
            }),
        }
    }
}
