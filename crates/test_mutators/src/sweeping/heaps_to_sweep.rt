//! The heaps of the cases, and their mutators.
ghost use Rattle.comp_mutator.specs.Mutators.{AreMutatorsOf, IsMutatorOf};

use crate::sweeping::swept_heaps::{Object, SweptHeap};
use comp_mutator::{Builder, Mutator, Space};
use heap_layout::MarkedHeap;
use page_plan::Plan;
use std::alloc::Global;
use std::process::Abort;
use std::sync::ledger::Ledger as Named;
use std::thread::Threads;
use test_support::{Worked, counting_object, heap, worked_heap, zeros_object};

// The words of equal objects, one after another.
fn equal_objects(rt: &impl Abort, alloc: Global, object: Object, objects: usize) -> Vec<u64> {
    let words = match object {
        Object::Zeros(data_words) => zeros_object(alloc, data_words),
        Object::Counting(data_words) => counting_object(alloc, data_words),
        Object::ManyFields => zeros_object(alloc, 0),
    };
    words
        .expect(rt, "memory for an object")
        .repeat(alloc, objects)
        .expect(rt, "memory for a heap")
}

// The heap of the case.
fn heap_of(rt: &impl Abort, alloc: Global, case: &SweptHeap) -> MarkedHeap {
    let made = match case.object {
        Object::ManyFields => worked_heap(alloc, Worked::ManyFields),
        _ => {
            let words = equal_objects(rt, alloc, case.object, case.marks.len());
            heap(alloc, &words, case.marks, &[])
        }
    };
    made.expect(rt, "a heap")
}

/// The plan of the heap of the case.
pub fn plan_of(rt: &(impl Abort + Threads + Sync), alloc: Global, case: &SweptHeap) -> Plan {
    Plan::new(alloc, rt, heap_of(rt, alloc, case)).expect(rt, "a plan")
}

/// The last of these mutators, and the others.
pub fn without_last<L: Named, B: Builder>(
    rt: &impl Abort,
    _space: &Space<L, B>,
    mut mutators: Vec<Mutator<L>>,
) -> (Vec<Mutator<L>>, Mutator<L>)
    requires of { AreMutatorsOf _space.now mutators.items }
    ensures others { AreMutatorsOf _space.now result.0.items }
    ensures last { IsMutatorOf _space.now result.1 }
{
    let last = mutators.pop().expect(rt, "a mutator");
    (mutators, last)
}
