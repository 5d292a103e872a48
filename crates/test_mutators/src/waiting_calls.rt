//! The calls that wait, of a mutator that is alone. Each answers at once.
use crate::endings::End;
use crate::mutated_heaps::{BuiltBy, MutatedHeap, play_heap};
use crate::mutator_steps::MutatorStep;
use comp_mutator::{Refusal, Touched};
use test_support::{T, Worked};

// Each of these calls, with an object that is made on a fresh page.
static AT_ONCE: MutatedHeap = MutatedHeap {
    name: "answers at once when no page is busy",
    heap: Worked::Three,
    built_by: BuiltBy::Plan,
    mutators: 1,
    fresh_pages: 1,
    steps: &[
        MutatorStep::AtLast(&MutatorStep::Touch(0, Ok(Touched::Built))),
        MutatorStep::AtLast(&MutatorStep::Touch(0, Ok(Touched::AlreadyBuilt))),
        MutatorStep::AtLast(&MutatorStep::Alloc(1, 0, 4, Ok(T + 64))),
        MutatorStep::AtLast(&MutatorStep::WriteRef(T + 64, 0, T + 2, Ok(1))),
        MutatorStep::AtLast(&MutatorStep::ReadRef(T + 64, 0, Ok(T + 2))),
        MutatorStep::AtLast(&MutatorStep::WriteData(T, 0, 9, Ok(2))),
        MutatorStep::AtLast(&MutatorStep::ReadData(T, 0, Ok(9))),
        MutatorStep::AtLast(&MutatorStep::ReadData(0, 0, Err(Refusal::Null))),
    ],
    end: End::Unchecked,
};

#[test]
fn calls_that_wait_answer_at_once_when_no_page_is_busy(rt: HostRuntime) {
    play_heap(&rt, rt.alloc(), &AT_ONCE);
}
