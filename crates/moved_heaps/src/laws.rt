//! Laws of moved heaps. Each is the contract of a function that does nothing.
ghost use Rattle.std.specs.Prelude.{◌≡◌, ◌≢◌, ◌<◌, ◌++◌, Bool, ℕ, List, length, slice_index, zip, Ok, Err, Some};
ghost use Rattle.std.specs.List.Sorted.{IsPermutation};
ghost use Rattle.heap_layout.specs.Heap.{Heap, from_address, live, IsClosed};
ghost use Rattle.heap_layout.specs.Versions.{IsRead};
ghost use Rattle.comp_cycles.specs.NumberedHeaps.{IsNumberedAs};
ghost use Rattle.comp_cycles.specs.Stable.{StableHeap};
ghost use Rattle.page_plan.specs.Sliding.{forward, to_address};
ghost use Rattle.comp_dump.specs.declared.fault.DumpFault.TheVariants.{TrailingBytes};
ghost use Rattle.moved_heaps.specs.Moved.{place, Moved, IsLawful};
ghost use Rattle.moved_heaps.specs.MovedFaults.{IsFirstFault};
ghost use Rattle.moved_heaps.specs.MovedFiles.{moved_bytes, IsStored};
ghost use Rattle.moved_heaps.specs.MovedNumbers.{IsLow, listed_by, IsNumberedAt};
ghost use Rattle.moved_heaps.specs.MovedReading.{read_whole};
ghost use Rattle.moved_heaps.specs.Slid.{slid};
ghost use Rattle.moved_heaps.specs.declared.fault.MovedFault.{MovedFault as AFault};
ghost use Rattle.moved_heaps.specs.declared.fault.MovedFault.TheVariants as faults;

/// Of a lawful heap no fault is the first one. So `judge` refuses it only if memory runs out.
pub fn lawful_has_no_fault()
    ensures { (heap : Heap) (moved : Moved) (fault : AFault) → IsLawful heap moved → IsFirstFault heap moved fault → fault ≡ faults.OutOfMemory }
{}

/// There is only one first fault, but for memory that runs out.
pub fn one_first_fault()
    ensures { (heap : Heap) (moved : Moved) (fault other : AFault) → IsFirstFault heap moved fault → IsFirstFault heap moved other → fault ≢ faults.OutOfMemory → other ≢ faults.OutOfMemory → fault ≡ other }
{}

/// Sliding is lawful: the slid words of an accepted heap, with the places and the roots that the plan gives. The place
/// of an object is where the plan forwards its old address to (`forward` of a plan), the roots are those that the plan
/// forwards, and the words are those that the plan builds, page by page. So what a compaction leaves of a heap, as long
/// as nothing is written into it, is accepted by `judge`.
pub fn sliding_is_lawful()
    ensures lawful { (heap : Heap) → IsClosed heap → IsLawful heap (slid heap) }
    ensures places { (heap : Heap) (k : ℕ) → IsClosed heap → k < length heap.marks → forward (live heap) (from_address (slice_index heap.marks k)) ≡ Some (to_address (place (slid heap) k)) }
{}

/// A lawful heap is the same heap in object numbers. If a stable heap stands for the marked objects of an accepted
/// heap, it stands for the moved heap too, with the new place of each object in the order of the marks; and so it does
/// in any other order, as that of the new places. In edition four the new addresses must be below 2^63.
pub fn same_in_object_numbers()
    ensures marks { (heap : Heap) (moved : Moved) (numbers : List ℕ) (stable : StableHeap) → IsClosed heap → IsLawful heap moved → IsNumberedAs heap numbers stable → IsLow moved
        → IsNumberedAt moved (zip moved.places numbers) stable }
    ensures order { (heap : Heap) (moved : Moved) (numbers : List ℕ) (stable : StableHeap) (row : List (ℕ × ℕ)) → IsClosed heap → IsLawful heap moved → IsNumberedAs heap numbers stable → IsLow moved
        → IsPermutation (zip moved.places numbers) row → IsNumberedAt moved row (listed_by row stable) }
{}

/// The bytes of a moved heap in range are read as that heap, if files of its edition are read. With more bytes after
/// them they are refused.
pub fn moved_is_read_again()
    ensures again { (large : Bool) (moved : Moved) → IsRead large moved.edition → IsStored moved → read_whole large (moved_bytes moved) ≡ Ok moved }
    ensures more { (large : Bool) (moved : Moved) (rest : List ℕ) → IsRead large moved.edition → IsStored moved → 0 < length rest → read_whole large (moved_bytes moved ++ rest) ≡ Err TrailingBytes }
{}
