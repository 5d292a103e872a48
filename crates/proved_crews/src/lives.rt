//! A heap that lives through two cycles.
ghost use Rattle.std.specs.Prelude.{◌≡◌, IfSome, IsTrue};
ghost use Rattle.heap_layout.specs.Heap.{Heap};
ghost use Rattle.proved_crews.specs.Crews.{IsFollowed, KeepsHeap, KeepsNext, LivesTwice};

use crate::calls::{finish, flip, follow, plan};
use crate::mixed::{end, mix_up};
use handle_base::{Handle, Kept};
use heap_layout::MarkedHeap;
use std::alloc::Global;

// The handles of a cycle.
struct Handles {
    plan: Handle,
    first: Handle,
    second: Handle,
    first_end: Handle,
    second_end: Handle,
}

// Flips the heap of a handle for two crews, mixes their mutators up, and finishes both. Of what the first crew left it
// makes the next heap, with these roots, which the same handle keeps then.
fn turn(alloc: Global, heap: &mut Handle, own: &mut Handles, roots: &[u64]) -> bool
    ensures { IsTrue result → (h : Heap) → KeepsHeap h heap.old.kept → KeepsNext h roots.now heap.new.kept }
{
    if !plan(alloc, heap, &mut own.plan) {
        return false;
    }
    if !flip(alloc, &mut own.plan, 1, 2, &mut own.first) {
        return false;
    }
    if !flip(alloc, &mut own.plan, 2, 1, &mut own.second) {
        return false;
    }
    if !mix_up(alloc, &mut own.first, &mut own.second) {
        return false;
    }
    if !finish(alloc, &mut own.second, &mut own.second_end) {
        return false;
    }
    if !finish(alloc, &mut own.first, &mut own.first_end) {
        return false;
    }
    follow(alloc, &mut own.first_end, roots, heap)
}

// The heap that a handle keeps.
fn heap_in(alloc: Global, h: &mut Handle) -> Option<MarkedHeap>
    ensures { (heap : Heap) → KeepsHeap heap h.old.kept → IfSome result (λ found. found ≡ heap) }
{
    let mut room = h.take(alloc)?;
    match Box::replace(&mut room, Kept::Nothing) {
        Kept::Heap(heap) => Some(heap),
        _ => None,
    }
}

/// One cycle of a heap, by two crews of one plan: the heap with which the next cycle begins, with these roots, as some
/// lawful cycle leaves it. None if a call is refused.
fn cycle(alloc: Global, heap: MarkedHeap, roots: &[u64]) -> Option<MarkedHeap>
    ensures { IfSome result (IsFollowed heap roots.now) }
{
    let Ok(room) = Box::new(alloc, Kept::Heap(heap)) else {
        return None;
    };
    let mut h = Handle::empty(alloc);
    h.put(room);
    let mut own = Handles {
        plan: Handle::empty(alloc),
        first: Handle::empty(alloc),
        second: Handle::empty(alloc),
        first_end: Handle::empty(alloc),
        second_end: Handle::empty(alloc),
    };
    let next = if turn(alloc, &mut h, &mut own, roots) {
        heap_in(alloc, &mut h)
    } else {
        None
    };
    end(alloc, h);
    let Handles {
        plan,
        first,
        second,
        first_end,
        second_end,
    } = own;
    end(alloc, plan);
    end(alloc, first);
    end(alloc, second);
    end(alloc, first_end);
    end(alloc, second_end);
    next
}

/// Compacts a heap twice, each time by two crews of one plan. Answers the heap with which a third cycle begins. There
/// are two lawful cycles, one after the other, that lead to it: after the first exactly the objects are kept that
/// `roots` reach, and after the second those that `last_roots` reach, and the two are one life of the heap that is
/// handed in. What was written in them is not said. `None` is for a refused call; no clause says when that is.
pub fn live_twice(
    alloc: Global,
    heap: MarkedHeap,
    roots: &[u64],
    last_roots: &[u64],
) -> Option<MarkedHeap>
    ensures { IfSome result (LivesTwice heap roots.now last_roots.now) }
{
    comp_cycles::one_life();
    // Reading the heap makes known what its type keeps.
    let _ = heap.marks();
    let next = cycle(alloc, heap, roots)?;
    cycle(alloc, next, last_roots)
}
