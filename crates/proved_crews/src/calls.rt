//! Calls by handles. Each answers whether it was done.
ghost use Rattle.std.specs.Prelude.{◌≡◌, IsTrue};
ghost use Rattle.heap_layout.specs.Heap.{Heap};
ghost use Rattle.comp_crew.specs.Members.{setup_in};
ghost use Rattle.comp_crew.specs.declared.crew.Crew.{Crew};
ghost use Rattle.handle_base.specs.HandleKinds.{plan_in};
ghost use Rattle.std.specs.Prelude.{Some};
ghost use Rattle.proved_crews.specs.Crews.{AreFellows, AreOfOneCrew, HasGiven, HasTaken, HaveMet, KeepsCrew, KeepsEnd, KeepsFlip, KeepsHeap, KeepsMutator, KeepsNext};

use handle_base::Handle;
use std::alloc::Global;

/// Plans the heap of a handle. The handle of the plan keeps it then.
pub fn plan(alloc: Global, h: &mut Handle, plan: &mut Handle) -> bool
    ensures { IsTrue result → (heap : Heap) → KeepsHeap heap h.old.kept → plan_in plan.new.kept ≡ Some heap }
{
    flip_handle::plan_heap(alloc, h, plan).status == 0
}

/// Flips the heap of a plan for a crew of this name.
pub fn flip(alloc: Global, plan: &mut Handle, name: u64, n: u32, crew: &mut Handle) -> bool
    ensures same { plan.new.kept ≡ plan.old.kept }
    ensures flipped { IsTrue result → (heap : Heap) × (plan_in plan.old.kept ≡ Some heap) × KeepsFlip heap name crew.new.kept }
{
    flip_handle::flip_crew(alloc, plan, name, n, 2, crew).status == 0
}

/// Takes a mutator out of a crew, into a handle of its own.
pub fn take(alloc: Global, crew: &mut Handle, m: &mut Handle) -> bool
    ensures taken { IsTrue result → HasTaken crew.old.kept crew.new.kept m.new.kept }
    ensures crews { IsTrue result → (c : Crew) → KeepsCrew c crew.old.kept → KeepsCrew c crew.new.kept × KeepsMutator c m.new.kept }
{
    flip_handle::take_member(alloc, crew, m).status == 0
}

/// Lets two mutators of one crew meet.
pub fn meet(alloc: Global, m: &mut Handle, other: &mut Handle) -> bool
    requires { AreFellows m.old.kept other.old.kept }
    ensures met { IsTrue result → HaveMet m.old.kept other.old.kept m.new.kept other.new.kept }
    ensures crews { IsTrue result → (c : Crew) → KeepsMutator c m.old.kept → KeepsMutator c other.old.kept → KeepsMutator c m.new.kept × KeepsMutator c other.new.kept }
{
    flip_handle::meet_members(alloc, m, other).status == 0
}

/// Hands a mutator back to its crew. Its handle is empty then.
pub fn give(alloc: Global, crew: &mut Handle, m: &mut Handle) -> bool
    requires { AreOfOneCrew crew.old.kept m.old.kept }
    ensures given { IsTrue result → HasGiven crew.old.kept m.old.kept crew.new.kept m.new.kept }
    ensures crews { IsTrue result → (c : Crew) → KeepsCrew c crew.old.kept → KeepsCrew c crew.new.kept }
{
    flip_handle::give_member(alloc, crew, m).status == 0
}

/// Finishes a crew. The handle of the end keeps the finished heap then.
pub fn finish(alloc: Global, crew: &mut Handle, end: &mut Handle) -> bool
    ensures { IsTrue result → (c : Crew) → KeepsCrew c crew.old.kept → KeepsEnd (setup_in c).heap end.new.kept }
{
    flip_handle::finish_crew(alloc, crew, end).status == 0
}

/// Makes the heap with which the next cycle begins. The handle of the heap keeps it then.
pub fn follow(alloc: Global, end: &mut Handle, roots: &[u64], next: &mut Handle) -> bool
    ensures { IsTrue result → (heap : Heap) → KeepsEnd heap end.old.kept → KeepsNext heap roots.now next.new.kept }
{
    flip_handle::follow_reached(alloc, end, roots, next).status == 0
}
