//! Heaps marked by what their roots reach.
ghost use Rattle.std.specs.Prelude.{◌≡◌, List, ℕ, [], ◌++◌, length, IfErr, IfOk};
ghost use Rattle.std.specs.List.{flat_map};
ghost use Rattle.heap_layout.specs.declared.fault.LayoutFault.TheVariants as layout;
ghost use Rattle.heap_layout.specs.Faults.{faults, object_faults, size_faults, IsAccepted};
ghost use Rattle.heap_layout.specs.Heap.{starts, IsStored};
ghost use Rattle.reachability.specs.Reachable.{AreReachable, RefusesFor};

use crate::laws;
use crate::marker::reachable_marks;
use crate::rounds::reachable_marks_by_threads;
use heap_layout::{Edition, LayoutFault, MarkedHeap, OutOfMemory};
use std::alloc::Global;
use std::thread::Threads;

// The heap of these words and roots with these marks, which must be those of the objects that the roots reach, or the
// reason why there are none.
fn heap_of(
    edition: Edition,
    words: Vec<u64>,
    roots: Vec<u64>,
    marks: Result<Vec<u32>, LayoutFault>,
) -> Result<MarkedHeap, LayoutFault>
    requires reachable { IfOk marks (λ marks. AreReachable edition words.items roots.items marks.items) }
    requires refused { IfErr marks (RefusesFor (size_faults edition (length words.items) 0 (length roots.items)
        ++ flat_map (object_faults edition words.items) (starts edition words.items))) }
    requires faultless { IfOk marks (λ _. size_faults edition (length words.items) 0 (length roots.items)
        ++ flat_map (object_faults edition words.items) (starts edition words.items) ≡ []) }
    requires memory { IfErr marks (λ fault. fault ≡ layout.OutOfMemory → size_faults edition (length words.items) 0 (length roots.items) ≡ []) }
    ensures made { IfOk result (λ heap. heap ≡ record { edition = edition; words = words.items; marks = heap.marks; roots = roots.items }) }
    ensures reachable { IfOk result (λ heap. AreReachable edition words.items roots.items heap.marks) }
    ensures accepted { IfOk result IsAccepted }
    ensures stored { IfOk result IsStored }
    ensures refused { IfErr result (λ fault. (marks : List ℕ) → AreReachable edition words.items roots.items marks
        → RefusesFor (faults (record { edition = edition; words = words.items; marks = marks; roots = roots.items })) fault) }
    ensures memory { IfErr result (λ fault. fault ≡ layout.OutOfMemory → size_faults edition (length words.items) 0 (length roots.items) ≡ []) }
{
    match marks {
        Ok(marks) => MarkedHeap::from_parts_of(edition, words, marks, roots),
        Err(fault) => Err(fault),
    }
}

/// Makes a heap of this edition from words and roots, and marks exactly the objects that the roots reach. Err with the
/// first fault of the heap with these marks, or with `OutOfMemory`; the words and roots are then gone. The marks have
/// no fault, so it is never `MarkNotStart` or `MarksNotRising`. A field of an object that is not reached is no fault.
/// `TooLarge` comes before `OutOfMemory`.
pub fn reachable_heap(
    alloc: Global,
    edition: Edition,
    words: Vec<u64>,
    roots: Vec<u64>,
) -> Result<MarkedHeap, LayoutFault>
    ensures made { IfOk result (λ heap. heap ≡ record { edition = edition; words = words.items; marks = heap.marks; roots = roots.items }) }
    ensures reachable { IfOk result (λ heap. AreReachable edition words.items roots.items heap.marks) }
    ensures accepted { IfOk result IsAccepted }
    ensures stored { IfOk result IsStored }
    ensures refused { IfErr result (λ fault. (marks : List ℕ) → AreReachable edition words.items roots.items marks
        → RefusesFor (faults (record { edition = edition; words = words.items; marks = marks; roots = roots.items })) fault) }
    ensures memory { IfErr result (λ fault. fault ≡ layout.OutOfMemory → size_faults edition (length words.items) 0 (length roots.items) ≡ []) }
{
    let marks = reachable_marks(alloc, edition, &words, &roots);
    heap_of(edition, words, roots, marks)
}

/// Like `reachable_heap`, marked in so many threads, the caller among them: the same heap, or the same fault.
/// `reachable_marks_by_threads` says what is gained, and what it costs. The checks of the heap are the caller's alone.
pub fn reachable_heap_by_threads<R: Threads + Sync>(
    alloc: Global,
    rt: &R,
    threads: usize,
    edition: Edition,
    words: Vec<u64>,
    roots: Vec<u64>,
) -> Result<MarkedHeap, LayoutFault>
    ensures made { IfOk result (λ heap. heap ≡ record { edition = edition; words = words.items; marks = heap.marks; roots = roots.items }) }
    ensures reachable { IfOk result (λ heap. AreReachable edition words.items roots.items heap.marks) }
    ensures accepted { IfOk result IsAccepted }
    ensures stored { IfOk result IsStored }
    ensures refused { IfErr result (λ fault. (marks : List ℕ) → AreReachable edition words.items roots.items marks
        → RefusesFor (faults (record { edition = edition; words = words.items; marks = marks; roots = roots.items })) fault) }
    ensures memory { IfErr result (λ fault. fault ≡ layout.OutOfMemory → size_faults edition (length words.items) 0 (length roots.items) ≡ []) }
{
    let marks = reachable_marks_by_threads(alloc, rt, threads, edition, &words, &roots);
    heap_of(edition, words, roots, marks)
}

// The same heap with these marks, which must be those of the objects that the roots reach, or the reason why there are
// none.
fn remarked_with(
    alloc: Global,
    heap: &MarkedHeap,
    marks: Result<Vec<u32>, LayoutFault>,
) -> Result<MarkedHeap, OutOfMemory>
    requires reachable { IfOk marks (λ marks. AreReachable heap.now.edition heap.now.words heap.now.roots marks.items) }
    requires refused { IfErr marks (RefusesFor (size_faults heap.now.edition (length heap.now.words) 0 (length heap.now.roots)
        ++ flat_map (object_faults heap.now.edition heap.now.words) (starts heap.now.edition heap.now.words))) }
    ensures made { IfOk result (λ next. next ≡ record { edition = heap.now.edition; words = heap.now.words; marks = next.marks; roots = heap.now.roots }) }
    ensures reachable { IfOk result (λ next. AreReachable heap.now.edition heap.now.words heap.now.roots next.marks) }
    ensures accepted { IfOk result IsAccepted }
    ensures stored { IfOk result IsStored }
{
    laws::reachable_are_least();
    let edition = heap.edition();
    let words = heap.words();
    let roots = heap.roots();
    match marks {
        Ok(marks) => {
            let words = Vec::from_slice(alloc, words)?;
            let roots = Vec::from_slice(alloc, roots)?;
            Ok(MarkedHeap::of_accepted(edition, words, marks, roots))
        }
        Err(fault) => {
            let memory = matches!(fault, LayoutFault::OutOfMemory);
            prove!(memory);
            Err(OutOfMemory)
        }
    }
}

/// This heap with exactly the objects marked that its roots reach, in place of those that were marked. The heap that is
/// read stays as it is; its words and roots are copied, and not checked again. Err if memory runs out, and never
/// otherwise.
pub fn remarked_heap(alloc: Global, heap: &MarkedHeap) -> Result<MarkedHeap, OutOfMemory>
    ensures made { IfOk result (λ next. next ≡ record { edition = heap.now.edition; words = heap.now.words; marks = next.marks; roots = heap.now.roots }) }
    ensures reachable { IfOk result (λ next. AreReachable heap.now.edition heap.now.words heap.now.roots next.marks) }
    ensures accepted { IfOk result IsAccepted }
    ensures stored { IfOk result IsStored }
{
    let marks = reachable_marks(alloc, heap.edition(), heap.words(), heap.roots());
    remarked_with(alloc, heap, marks)
}

/// Like `remarked_heap`, in so many threads, the caller among them: the same heap. `reachable_marks_by_threads` says
/// what is gained, and what it costs.
pub fn remarked_heap_by_threads<R: Threads + Sync>(
    alloc: Global,
    rt: &R,
    threads: usize,
    heap: &MarkedHeap,
) -> Result<MarkedHeap, OutOfMemory>
    ensures made { IfOk result (λ next. next ≡ record { edition = heap.now.edition; words = heap.now.words; marks = next.marks; roots = heap.now.roots }) }
    ensures reachable { IfOk result (λ next. AreReachable heap.now.edition heap.now.words heap.now.roots next.marks) }
    ensures accepted { IfOk result IsAccepted }
    ensures stored { IfOk result IsStored }
{
    let marks = reachable_marks_by_threads(
        alloc,
        rt,
        threads,
        heap.edition(),
        heap.words(),
        heap.roots(),
    );
    remarked_with(alloc, heap, marks)
}
