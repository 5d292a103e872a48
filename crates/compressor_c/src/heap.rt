//! Exports that make a marked heap, or act on one.
ghost use Rattle.std.specs.Prelude.{◌≡◌, None};
ghost use Rattle.flip_handle.specs.Facts.{CountsHeap};
ghost use Rattle.file_handle.specs.Imaging.{ReadsImage, WritesImage};
ghost use Rattle.handle_base.specs.HandleKinds.{heap_in, Asks, Turns};
ghost use Rattle.handle_base.specs.Making.{MakesHeap, MarksHeap};
ghost use Rattle.file_handle.specs.Moves.{JudgesMoved};
ghost use Rattle.flip_handle.specs.Turning.{IsUnplanned, Plans};

use flip_handle::HeapFacts;
use handle_base::{Answer, Handle};
use std::alloc::Global;

/// Makes a marked heap of this edition, 1 to 4.
#[unsafe(no_mangle)]
pub extern "C" fn compressor_c_heap_by_marks(
    alloc: Global,
    edition: u32,
    words: &[u64],
    marks: &[u32],
    roots: &[u64],
    heap: &mut Handle,
) -> Answer
    ensures { MakesHeap edition words.now marks.now roots.now heap.old.kept heap.new.kept result }
{
    handle_base::put_heap(alloc, edition, words, marks, roots, heap)
}

/// Makes a heap of this edition, 1 to 4, in which exactly the objects are marked that its roots reach.
#[unsafe(no_mangle)]
pub extern "C" fn compressor_c_heap_by_roots(
    alloc: Global,
    edition: u32,
    words: &[u64],
    roots: &[u64],
    heap: &mut Handle,
) -> Answer
    ensures { MarksHeap edition words.now roots.now heap.old.kept heap.new.kept result }
{
    handle_base::put_marked(alloc, edition, words, roots, heap)
}

/// Copies the counts of a marked heap.
#[unsafe(no_mangle)]
pub extern "C" fn compressor_heap_facts_of(
    alloc: Global,
    heap: &mut Handle,
    facts: &mut HeapFacts,
) -> Answer
    ensures same { heap.new.kept ≡ heap.old.kept }
    ensures counts { Asks 0 heap_in (CountsHeap facts.new) (facts.new ≡ facts.old) heap.old.kept result }
{
    flip_handle::heap_facts(alloc, heap, facts)
}

/// Makes a marked heap of an image, of any edition.
#[unsafe(no_mangle)]
pub extern "C" fn compressor_c_heap_read(alloc: Global, bytes: &[u8], heap: &mut Handle) -> Answer
    ensures { ReadsImage bytes.now heap.old.kept heap.new.kept result }
{
    file_handle::read_image(alloc, bytes, heap)
}

/// Copies the image of a marked heap.
#[unsafe(no_mangle)]
pub extern "C" fn compressor_c_heap_write(
    alloc: Global,
    heap: &mut Handle,
    out: &mut [u8],
) -> Answer
    ensures same { heap.new.kept ≡ heap.old.kept }
    ensures copies { Asks 0 heap_in (WritesImage out.old out.new) (out.new ≡ out.old) heap.old.kept result }
{
    file_handle::write_image(alloc, heap, out)
}

/// Judges what another collection left of a marked heap.
#[unsafe(no_mangle)]
pub extern "C" fn compressor_c_heap_judge(alloc: Global, heap: &mut Handle, bytes: &[u8]) -> Answer
    ensures same { heap.new.kept ≡ heap.old.kept }
    ensures judges { Asks 0 heap_in (JudgesMoved bytes.now) (Unit {0}) heap.old.kept result }
{
    file_handle::judge_moved(alloc, heap, bytes)
}

/// Plans a heap. The handle of the plan keeps it then, and that of the heap is empty.
#[unsafe(no_mangle)]
pub extern "C" fn compressor_heap_plan(
    alloc: Global,
    heap: &mut Handle,
    plan: &mut Handle,
) -> Answer
    ensures { Turns heap_in Plans IsUnplanned heap.old.kept heap.new.kept plan.old.kept plan.new.kept result }
{
    flip_handle::plan_heap(alloc, heap, plan)
}

/// Drops a heap. Its handle is empty then.
#[unsafe(no_mangle)]
pub extern "C" fn compressor_heap_drop(alloc: Global, heap: &mut Handle)
    ensures { heap.new.kept ≡ None }
{
    flip_handle::drop_kept(alloc, heap);
}
