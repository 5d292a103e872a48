//! The life of a heap: what one handle keeps goes, and another one keeps what is made of it.
ghost use Rattle.std.specs.Prelude.{◌≡◌, None, Some, IfErr, IfOk, IsFalse, IsTrue};
ghost use Rattle.heap_layout.specs.Faults.{Reports};
ghost use Rattle.comp_crew.specs.Ends.{next_sizes};
ghost use Rattle.comp_crew.specs.Finishing.{finished_of, IsEnded};
ghost use Rattle.handle_base.specs.Keeping.{IsKept};
ghost use Rattle.handle_base.specs.HandleKinds.{crew_in, end_in, heap_in, Turns, TurnsKept};
ghost use Rattle.flip_handle.specs.Turning.{of_finish, Finishes, Follows, FollowsReached, IsUnfinished, IsUnfollowed, IsUnplanned, IsUnreached, Plans};
ghost use Rattle.handle_base.specs.declared.kept.Kept.TheVariants as kinds;

use comp_crew::{Ended, FinishFault, finish};
use handle_base::{
    Answer, Handle, Kept, Opened, Turned, copied_marks, into_crew, into_end, into_heap, is_full,
    open, settle, status,
};
use heap_layout::{LayoutFault, MarkedHeap, check_sizes};
use page_plan::Plan;
use std::alloc::Global;
use std::sync::Arc;

// The plan of a heap. If memory runs out, the heap comes back.
fn plan_for(alloc: Global, heap: MarkedHeap) -> Result<Arc<Plan>, MarkedHeap>
    ensures plan { IfOk result (λ plan. plan.value ≡ heap) }
    ensures back { IfErr result (λ left. left ≡ heap) }
{
    let plan = Plan::new_alone(alloc, heap)?;
    match Arc::new(alloc, plan) {
        Ok(plan) => Ok(plan),
        Err(left) => Err(left.value.into_heap()),
    }
}

fn planned(alloc: Global, kept: Kept, full: bool) -> Turned
    requires { IsKept kept }
    ensures kept { IsKept result.kept }
    ensures free { IsTrue result.goes → IsFalse full }
    ensures turns { TurnsKept heap_in Plans IsUnplanned full kept result.kept result.goes result.answer }
{
    let heap = match into_heap(kept) {
        Ok(heap) => heap,
        Err(kept) => return Turned::stays(kept, Answer::bare(status::WRONG_HANDLE, 0)),
    };
    if full {
        return Turned::stays(Kept::Heap(heap), Answer::bare(status::NOT_EMPTY, 1));
    }
    match plan_for(alloc, heap) {
        Ok(plan) => Turned::gone(Kept::Plan(plan), 0),
        Err(heap) => Turned::stays(Kept::Heap(heap), Answer::bare(status::OUT_OF_MEMORY, 0)),
    }
}

/// Plans the heap that a handle keeps; another one, which was empty, keeps the plan then, and that of the heap is
/// empty. If memory runs out, both stay as they were.
pub fn plan_heap(alloc: Global, heap: &mut Handle, plan: &mut Handle) -> Answer
    ensures { Turns heap_in Plans IsUnplanned heap.old.kept heap.new.kept plan.old.kept plan.new.kept result }
{
    let full = is_full(alloc, plan);
    let Some(Opened { room, kept }) = open(alloc, heap) else {
        return Answer::bare(status::EMPTY_HANDLE, 0);
    };
    let turned = planned(alloc, kept, full);
    settle(heap, plan, room, turned)
}

// The answer of a crew that is not finished.
fn unfinished(fault: FinishFault) -> Answer
    ensures { result ≡ of_finish fault }
{
    match fault {
        FinishFault::OutOfMemory => Answer::bare(status::OUT_OF_MEMORY, 0),
        FinishFault::MutatorMissing(k) => Answer::bare(status::MUTATOR_MISSING, u64::from(k)),
        FinishFault::StillShared => Answer::bare(status::STILL_SHARED, 0),
    }
}

fn finished(alloc: Global, kept: Kept, full: bool) -> Turned
    requires { IsKept kept }
    ensures kept { IsKept result.kept }
    ensures free { IsTrue result.goes → IsFalse full }
    ensures turns { TurnsKept crew_in Finishes IsUnfinished full kept result.kept result.goes result.answer }
{
    let bench = match into_crew(kept) {
        Ok(bench) => bench,
        Err(kept) => return Turned::stays(kept, Answer::bare(status::WRONG_HANDLE, 0)),
    };
    if full {
        return Turned::stays(Kept::Crew(bench), Answer::bare(status::NOT_EMPTY, 1));
    }
    match finish(alloc, bench) {
        Ok(ended) => {
            let live = ended.finished().live_words();
            Turned::gone(Kept::Ended(ended), live)
        }
        Err(left) => Turned::stays(Kept::Crew(left.bench), unfinished(left.fault)),
    }
}

/// Finishes the crew that a handle keeps; another one, which was empty, keeps the finished heap then, and that of the
/// crew is empty. The answer has the number of live words. If it is refused, the crew has all mutators that it had.
pub fn finish_crew(alloc: Global, crew: &mut Handle, end: &mut Handle) -> Answer
    ensures { Turns crew_in Finishes IsUnfinished crew.old.kept crew.new.kept end.old.kept end.new.kept result }
{
    let full = is_full(alloc, end);
    let Some(Opened { room, kept }) = open(alloc, crew) else {
        return Answer::bare(status::EMPTY_HANDLE, 0);
    };
    let turned = finished(alloc, kept, full);
    settle(crew, end, room, turned)
}

// Checks the numbers of words, marks and roots of the next heap.
fn check_next(ended: &Ended, marks: &[u32], roots: &[u64]) -> Result<(), LayoutFault>
    requires { IsEnded ended.now }
    ensures { Reports (next_sizes (finished_of ended.now) marks.now roots.now) result }
{
    let finished = ended.finished();
    check_sizes(
        finished.edition(),
        64 * finished.pages().len(),
        marks.len(),
        roots.len(),
    )
}

// The next heap with these marks and roots.
fn next_with(alloc: Global, ended: Ended, marks: &[u32], roots: &[u64]) -> Turned
    requires { IsEnded ended }
    ensures kept { IsKept result.kept }
    ensures next { IsTrue result.goes → Follows roots.now marks.now ended (Some result.kept) result.answer }
    ensures refused { IsFalse result.goes → (result.kept ≡ kinds.Ended ended) × IsUnfollowed roots.now marks.now ended result.answer }
{
    if let Err(fault) = check_next(&ended, marks, roots) {
        return Turned::stays(Kept::Ended(ended), Answer::unaccepted(fault));
    }
    let Ok(marks) = copied_marks(alloc, marks) else {
        let answer = Answer::unaccepted(LayoutFault::OutOfMemory);
        return Turned::stays(Kept::Ended(ended), answer);
    };
    match ended.next_heap(alloc, marks, roots) {
        Ok(heap) => Turned::gone(Kept::Heap(heap), 0),
        Err(left) => Turned::stays(Kept::Ended(left.ended), Answer::unaccepted(left.fault)),
    }
}

fn followed(alloc: Global, kept: Kept, full: bool, marks: &[u32], roots: &[u64]) -> Turned
    requires { IsKept kept }
    ensures kept { IsKept result.kept }
    ensures free { IsTrue result.goes → IsFalse full }
    ensures turns { TurnsKept end_in (Follows roots.now marks.now) (IsUnfollowed roots.now marks.now) full kept result.kept result.goes result.answer }
{
    let ended = match into_end(kept) {
        Ok(ended) => ended,
        Err(kept) => return Turned::stays(kept, Answer::bare(status::WRONG_HANDLE, 0)),
    };
    if full {
        return Turned::stays(Kept::Ended(ended), Answer::bare(status::NOT_EMPTY, 1));
    }
    next_with(alloc, ended, marks, roots)
}

/// Makes the heap with which the next cycle begins of the finished heap that a handle keeps; another one, which was
/// empty, keeps the new heap then, and that of the finished one is empty. `marks` are the rising indices of the words
/// at which the marked objects start. Its roots are `roots`, to-space addresses of the finished heap or null. If it is
/// refused, both handles stay as they were. A next heap that is too large is refused before memory is asked for.
pub fn follow(
    alloc: Global,
    end: &mut Handle,
    marks: &[u32],
    roots: &[u64],
    heap: &mut Handle,
) -> Answer
    ensures { Turns end_in (Follows roots.now marks.now) (IsUnfollowed roots.now marks.now) end.old.kept end.new.kept heap.old.kept heap.new.kept result }
{
    let full = is_full(alloc, heap);
    let Some(Opened { room, kept }) = open(alloc, end) else {
        return Answer::bare(status::EMPTY_HANDLE, 0);
    };
    let turned = followed(alloc, kept, full, marks, roots);
    settle(end, heap, room, turned)
}

fn reached(alloc: Global, kept: Kept, full: bool, roots: &[u64]) -> Turned
    requires { IsKept kept }
    ensures kept { IsKept result.kept }
    ensures free { IsTrue result.goes → IsFalse full }
    ensures turns { TurnsKept end_in (FollowsReached roots.now) (IsUnreached roots.now) full kept result.kept result.goes result.answer }
{
    let ended = match into_end(kept) {
        Ok(ended) => ended,
        Err(kept) => return Turned::stays(kept, Answer::bare(status::WRONG_HANDLE, 0)),
    };
    if full {
        return Turned::stays(Kept::Ended(ended), Answer::bare(status::NOT_EMPTY, 1));
    }
    match ended.next_reached(alloc, roots) {
        Ok(heap) => Turned::gone(Kept::Heap(heap), 0),
        Err(left) => Turned::stays(Kept::Ended(left.ended), Answer::unaccepted(left.fault)),
    }
}

/// Makes the heap with which the next cycle begins, as `follow` does by marks: exactly the objects are marked that the
/// roots reach.
pub fn follow_reached(alloc: Global, end: &mut Handle, roots: &[u64], heap: &mut Handle) -> Answer
    ensures { Turns end_in (FollowsReached roots.now) (IsUnreached roots.now) end.old.kept end.new.kept heap.old.kept heap.new.kept result }
{
    let full = is_full(alloc, heap);
    let Some(Opened { room, kept }) = open(alloc, end) else {
        return Answer::bare(status::EMPTY_HANDLE, 0);
    };
    let turned = reached(alloc, kept, full, roots);
    settle(end, heap, room, turned)
}

/// Drops what the handle keeps. It is empty then.
pub fn drop_kept(alloc: Global, h: &mut Handle)
    ensures { h.new.kept ≡ None }
{
    drop(h.take(alloc));
}
