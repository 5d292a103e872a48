//! The words of the next heap, and the marks of the objects that its roots reach.
ghost use Rattle.std.specs.Prelude.{◌≡◌, ◌*◌, All, IfErr, IfOk, length};
ghost use Rattle.heap_layout.specs.Bits.{leads};
ghost use Rattle.heap_layout.specs.Values.{or_immediate};
ghost use Rattle.heap_layout.specs.Faults.{root_faults_by, Reports};
ghost use Rattle.comp_history.specs.Objects.{LeadsToObject};
ghost use Rattle.comp_cycles.specs.Ends.{setup_in, AreLowered, AreMoved, IsEndOf};
ghost use Rattle.comp_cycles.specs.Finishes.{journals_of, pages_of};
ghost use Rattle.reachable_cycles.specs.NextMarks.{IsFound};
ghost use Rattle.reachable_cycles.specs.NextRoots.{Fits, IsRefusedWith};

use comp_cycles::{Finished, Moved, lowered_roots, moved_words};
use heap_layout::{Edition, FROM_SPACE, LayoutFault, check_sizes, is_set};
use page_plan::Builder;
use reachability::{reachable_marks, reachable_marks_by_threads};
use std::alloc::Global;
use std::thread::Threads;

/// The words of the next heap, the marks of the objects that its roots reach, rising, and its roots.
#[derive(Drop)]
pub(crate) struct Marked {
    pub(crate) moved: Moved,
    pub(crate) marks: Vec<u32>,
    pub(crate) roots: Vec<u64>,
}

// The words of the next heap and its roots. It has no marks yet.
#[derive(Drop)]
struct Unmarked {
    moved: Moved,
    roots: Vec<u64>,
}

// Whether a root of the next heap is null, an immediate or the address of an object. `starts` has a bit for each word
// of that heap, which is set if an object starts there.
fn is_root(edition: Edition, starts: &[u64], root: u64) -> bool
    ensures { result ≡ or_immediate edition (leads starts.now) root }
{
    edition.is_immediate(root) || is_target(starts, root)
}

// Whether a root of the next heap is null or the address of an object.
fn is_target(starts: &[u64], root: u64) -> bool
    ensures { result ≡ leads starts.now root }
{
    if root < FROM_SPACE {
        return root == 0;
    }
    let i = root - FROM_SPACE;
    i / 64 < starts.len() as u64 && is_set(starts, i as usize)
}

// Checks that each root of the next heap is null, an immediate or the address of an object.
fn check_roots(edition: Edition, starts: &[u64], roots: &[u64]) -> Result<(), LayoutFault>
    ensures { Reports (root_faults_by (or_immediate edition (leads starts.now)) roots.now) result }
{
    for (k, &root) in roots.iter().enumerate() {
        if !is_root(edition, starts, root) {
            return Err(LayoutFault::BadRoot(k as u64));
        }
    }
    Ok(())
}

// Moves the words of the next heap. `roots` are to-space addresses, immediates or null, and become the roots of that
// heap. Refusals, in this order: `TooLarge`; `BadRoot` for the first root that is neither null nor an immediate nor the
// start of an object. `OutOfMemory` may replace any other answer but `TooLarge`.
fn move_next<B: Builder>(
    alloc: Global,
    builder: &B,
    finished: &Finished,
    roots: &[u64],
) -> Result<Unmarked, LayoutFault>
    requires { IsEndOf (B.heap builder.now) finished.now }
    ensures moved { IfOk result (λ next. AreMoved (setup_in (B.heap builder.now) finished.now) (journals_of finished.now) (64 * length (pages_of finished.now)) next.moved.words.items next.moved.starts.items) }
    ensures roots { IfOk result (λ next. AreLowered finished.now roots.now next.roots.items) }
    ensures fits { IfOk result (λ _. Fits (setup_in (B.heap builder.now) finished.now) roots.now) }
    ensures lead { IfOk result (λ _. All (LeadsToObject (setup_in (B.heap builder.now) finished.now) (journals_of finished.now)) roots.now) }
    ensures refused { IfErr result (IsRefusedWith (setup_in (B.heap builder.now) finished.now) (journals_of finished.now) roots.now) }
{
    let edition = finished.edition();
    let words = 64 * finished.pages().len();
    check_sizes(edition, words, 0, roots.len())?;
    let Ok(moved) = moved_words(alloc, builder, finished) else {
        return Err(LayoutFault::OutOfMemory);
    };
    let Ok(lowered) = lowered_roots(alloc, edition, roots) else {
        return Err(LayoutFault::OutOfMemory);
    };
    check_roots(edition, &moved.starts, &lowered)?;
    Ok(Unmarked {
        moved,
        roots: lowered,
    })
}

/// Moves the words of the next heap, and finds the marks there. `roots` are to-space addresses, immediates or null, and
/// become the roots of that heap. Refusals, in this order: `TooLarge`; `BadRoot` for the first root that is neither
/// null nor an immediate nor the start of an object. `OutOfMemory` may replace any other answer but `TooLarge`.
pub(crate) fn mark_next<B: Builder>(
    alloc: Global,
    builder: &B,
    finished: &Finished,
    roots: &[u64],
) -> Result<Marked, LayoutFault>
    requires { IsEndOf (B.heap builder.now) finished.now }
    ensures found { IfOk result (IsFound (B.heap builder.now) finished.now roots.now) }
    ensures refused { IfErr result (IsRefusedWith (setup_in (B.heap builder.now) finished.now) (journals_of finished.now) roots.now) }
{
    let next = move_next(alloc, builder, finished, roots)?;
    let marks = reachable_marks(alloc, finished.edition(), &next.moved.words, &next.roots)?;
    Ok(Marked {
        moved: next.moved,
        marks,
        roots: next.roots,
    })
}

/// Like `mark_next`, in so many threads, the caller among them: the same words, marks and roots.
pub(crate) fn mark_next_by_threads<R: Threads + Sync, B: Builder>(
    alloc: Global,
    rt: &R,
    threads: usize,
    builder: &B,
    finished: &Finished,
    roots: &[u64],
) -> Result<Marked, LayoutFault>
    requires { IsEndOf (B.heap builder.now) finished.now }
    ensures found { IfOk result (IsFound (B.heap builder.now) finished.now roots.now) }
    ensures refused { IfErr result (IsRefusedWith (setup_in (B.heap builder.now) finished.now) (journals_of finished.now) roots.now) }
{
    let next = move_next(alloc, builder, finished, roots)?;
    let edition = finished.edition();
    let (words, roots) = (&next.moved.words, &next.roots);
    let marks = reachable_marks_by_threads(alloc, rt, threads, edition, words, roots)?;
    Ok(Marked {
        moved: next.moved,
        marks,
        roots: next.roots,
    })
}
