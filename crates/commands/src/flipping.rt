//! How a heap is planned, flipped for some mutators, and finished. Each of these fails only if memory runs out.
ghost use Rattle.std.specs.Prelude.{◌≡◌, ℕ, ◌<◌, ◌≤◌, map, IfOk, IfErr};
ghost use Rattle.heap_layout.specs.Heap.{live};
ghost use Rattle.page_plan.specs.Sliding.{pages};
ghost use Rattle.comp_mutator.specs.CellViews.{steps_of, AreNew};
ghost use Rattle.comp_mutator.specs.Finishes.{IsFinished, IsOfFlip};
ghost use Rattle.comp_mutator.specs.Mutators.{cells_of, pass_of, setup_of, AreMutatorsOf};
ghost use Rattle.comp_mutator.specs.Orders.{HasNumber, IsInOrder};
ghost use Rattle.comp_mutator.specs.Refusal.TheVariants as calls;
ghost use Rattle.command_io.specs.declared.refusal.CommandRefusal.TheVariants as refusals;

use command_io::CommandRefusal;
use comp_mutator::{FinishFault, Finished, FlipFault, Mutator, Refusal, Space, flip};
use heap_layout::MarkedHeap;
use page_plan::Plan;
use std::alloc::Global;
use std::sync::Arc;
use std::sync::ledger::{Blank, Ledger};
use std::thread::Threads;

/// Plans a heap. The plan is shared, so that a space can keep it.
pub fn plan_heap(
    alloc: Global,
    rt: &(impl Threads + Sync),
    heap: MarkedHeap,
) -> Result<Arc<Plan>, CommandRefusal>
    ensures plan { IfOk result (λ plan. plan.value ≡ heap) }
    ensures cause { IfErr result (λ refusal. refusal ≡ refusals.OutOfMemory) }
{
    let plan = Plan::new(alloc, rt, heap)?;
    match Arc::new(alloc, plan) {
        Ok(shared) => Ok(shared),
        Err(_) => Err(CommandRefusal::OutOfMemory),
    }
}

/// Flips the heap of a plan for 1 to 64 mutators and at most 4,096 fresh pages.
#[tactic(auto, using(heap_layout::proofs::Bounds::fresh_pages_least))]
pub fn flip_plan<L: Ledger>(
    alloc: Global,
    blank: Blank,
    plan: Arc<Plan>,
    mutators: u8,
    fresh: u32,
) -> Result<(Space<L, Plan>, Vec<Mutator<L>>), CommandRefusal>
    requires name { blank.name ≡ L.name }
    requires parts { blank.parts ≡ L.parts }
    requires count { blank.parts ≡ mutators }
    requires mutators { (1 ≤ mutators) × (mutators ≤ 64) }
    requires fresh { fresh ≤ 4096 }
    ensures heap { IfOk result (λ flipped. (setup_of flipped.0).heap ≡ plan.value) }
    ensures compacted { IfOk result (λ flipped. (setup_of flipped.0).compacted ≡ pages (live plan.value)) }
    ensures fresh { IfOk result (λ flipped. (setup_of flipped.0).fresh ≡ fresh) }
    ensures mutators { IfOk result (λ flipped. (setup_of flipped.0).mutators ≡ mutators) }
    ensures of { IfOk result (λ flipped. AreMutatorsOf flipped.0 flipped.1.items) }
    ensures new { IfOk result (λ flipped. AreNew (steps_of (cells_of flipped.0)) mutators (map pass_of flipped.1.items)) }
    ensures cause { IfErr result (λ refusal. refusal ≡ refusals.Mutator calls.OutOfMemory) }
{
    match flip(alloc, blank, plan, mutators, fresh) {
        Ok(flipped) => Ok(flipped),
        Err(FlipFault::OutOfMemory) => Err(Refusal::OutOfMemory.into()),
        Err(FlipFault::BadCounts) => unreachable!(),
    }
}

/// Finishes a space, of whose mutators none is missing.
pub fn finish_all<L: Ledger>(
    alloc: Global,
    space: Space<L, Plan>,
    mutators: Vec<Mutator<L>>,
) -> Result<Finished, CommandRefusal>
    requires of { AreMutatorsOf space mutators.items }
    requires whole { (setup_of space).mutators ≡ L.parts }
    requires all { (k : ℕ) → k < (setup_of space).mutators → HasNumber mutators.items k }
    ensures ordered { IfOk result (λ f. IsInOrder (setup_of space).mutators mutators.items mutators.items → IsFinished (setup_of space) (map pass_of mutators.items) f) }
    ensures flipped { IfOk result (IsOfFlip (setup_of space).mutators (setup_of space).fresh) }
    ensures cause { IfErr result (λ refusal. refusal ≡ refusals.Mutator calls.OutOfMemory) }
{
    match space.finish(alloc, mutators) {
        Ok(finished) => Ok(finished),
        Err(left) => match left.fault {
            FinishFault::OutOfMemory => Err(Refusal::OutOfMemory.into()),
            FinishFault::MutatorMissing(_) => unreachable!(),
        },
    }
}
