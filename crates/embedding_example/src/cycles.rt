//! Two cycles of a runtime's heap, one after the other.
ghost use Rattle.std.specs.Prelude.{◌≡◌, IfSome};
ghost use Rattle.comp_mutator.specs.Ends.{IsEndOf};
ghost use Rattle.comp_mutator.specs.Finishes.{IsOfFlip};
ghost use Rattle.embedding_example.specs.Lives.{IsFollowed, LivesTwice};

use crate::cycle::go_on;
use comp_mutator::{Finished, flip};
use heap_layout::MarkedHeap;
use page_plan::Plan;
use std::alloc::Global;
use std::marker::Brand;
use std::sync::ledger::{Blank, Ledger};
use std::sync::{Arc, Wait};
use std::thread::Threads;

/// Compacts a heap twice. In each cycle one mutator works while two sweep. After the first cycle the objects at `marks`
/// are kept, and after the second those at `last_marks`. Answers the heap with which a third cycle begins, or `None` if
/// a call is refused. The two cycles are one life of the heap that is handed in.
pub fn live_twice<R: Threads + Wait + Sync>(
    alloc: Global,
    rt: &R,
    heap: MarkedHeap,
    marks: Vec<u32>,
    last_marks: Vec<u32>,
) -> Option<MarkedHeap>
    ensures lives { IfSome result (λ last. LivesTwice heap marks.items last_marks.items last) }
{
    comp_cycles::one_life();
    let plan = planned(alloc, rt, heap)?;
    let left = compacted(alloc, rt, &plan)?;
    let next = followed(alloc, &plan, left, marks)?;
    let second = planned(alloc, rt, next)?;
    let left_again = compacted(alloc, rt, &second)?;
    followed(alloc, &second, left_again, last_marks)
}

/// The plan of a heap.
pub fn planned<R: Threads + Sync>(alloc: Global, rt: &R, heap: MarkedHeap) -> Option<Arc<Plan>>
    ensures { IfSome result (λ plan. plan.value ≡ heap) }
{
    let Ok(plan) = Plan::new(alloc, rt, heap) else {
        return None;
    };
    match Arc::new(alloc, plan) {
        Ok(plan) => Some(plan),
        Err(_) => None,
    }
}

/// Compacts the heap of a plan while one mutator works and two sweep. What is left is the end of that heap's cycle.
pub fn compacted<R: Threads + Wait + Sync>(
    alloc: Global,
    rt: &R,
    plan: &Arc<Plan>,
) -> Option<Finished>
    ensures end { IfSome result (λ left. IsEndOf plan.now.value left) }
    ensures flipped { IfSome result (λ left. IsOfFlip 3 8 left) }
{
    let Ok(builder) = plan.clone() else {
        return None;
    };
    run::<Brand, R>(alloc, rt, Blank::new(3), builder)
}

// From the flip to the finish, with eight fresh pages.
fn run<L: Ledger + Send + Sync, R: Threads + Wait + Sync>(
    alloc: Global,
    rt: &R,
    blank: Blank,
    plan: Arc<Plan>,
) -> Option<Finished>
    requires name { blank.name ≡ L.name }
    requires parts { blank.parts ≡ L.parts }
    requires count { blank.parts ≡ 3 }
    ensures end { IfSome result (λ left. IsEndOf plan.value left) }
    ensures flipped { IfSome result (λ left. IsOfFlip 3 8 left) }
{
    let Ok((space, mutators)) = flip::<L, Plan>(alloc, blank, plan, 3, 8) else {
        return None;
    };
    let mutators = go_on(alloc, rt, &space, mutators)?;
    match space.finish(alloc, mutators) {
        Ok(finished) => Some(finished),
        Err(_) => None,
    }
}

/// The heap with which the next cycle begins, if the objects at these indices are marked in it.
pub fn followed(alloc: Global, plan: &Plan, left: Finished, marks: Vec<u32>) -> Option<MarkedHeap>
    requires { IsEndOf plan.now left }
    ensures { IfSome result (λ next. IsFollowed plan.now left marks.items next) }
{
    comp_cycles::first_numbering();
    match left.next_cycle(alloc, plan, marks) {
        Ok(next) => Some(next),
        Err(_) => None,
    }
}
