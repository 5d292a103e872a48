//! Objects that mutators make, and the finished heaps.
use crate::endings::{End, Ending};
use crate::mutated_heaps::{BuiltBy, MutatedHeap, play_heap};
use crate::mutator_steps::MutatorStep;
use comp_journal::Entry;
use comp_mutator::Refusal;
use heap_layout::{Kind, TO_SPACE as T};
use test_support::Worked;

// Objects of one mutator until its two fresh pages are full. At the end 1 word slid, and 64 + 1 + 63 words were made.
static FULL_PAGES: MutatedHeap = MutatedHeap {
    name: "fills fresh pages",
    heap: Worked::Smallest,
    built_by: BuiltBy::Plan,
    mutators: 1,
    fresh_pages: 2,
    steps: &[
        MutatorStep::Alloc(0, 63, 0, Ok(T + 64)),
        MutatorStep::Alloc(0, 0, 5, Ok(T + 128)),
        MutatorStep::Alloc(0, 64, 0, Err(Refusal::ObjectTooLarge)),
        MutatorStep::Alloc(0, 63, 0, Err(Refusal::OutOfPages)),
        MutatorStep::Alloc(0, 62, 0, Ok(T + 129)),
        MutatorStep::Alloc(0, 0, 0, Err(Refusal::OutOfPages)),
        MutatorStep::Alloc(u16::MAX, u16::MAX, u32::MAX, Err(Refusal::ObjectTooLarge)),
        MutatorStep::Unposted(128),
    ],
    end: End::Contents(Ending {
        live_words: 129,
        roots: &[T],
        pages: &[false, true, true],
        entries: 3,
        builds: Some((&[1, 2], &[])),
    }),
};

#[test]
fn new_objects_fill_fresh_pages(rt: HostRuntime) {
    play_heap(&rt, rt.alloc(), &FULL_PAGES);
}

// The entries of page 1 after those calls: the header, and two writes of its reference.
const ENTRIES: [Entry; 3] = [
    Entry {
        stamp: 0,
        writer: 0,
        kind: Kind::Header,
        offset: 0,
        value: 17_179_869_185,
    },
    Entry {
        stamp: 1,
        writer: 0,
        kind: Kind::Reference,
        offset: 1,
        value: T + 2,
    },
    Entry {
        stamp: 3,
        writer: 1,
        kind: Kind::Reference,
        offset: 1,
        value: 0,
    },
];

// Eight calls of two mutators that make two objects and write references. The first mutator makes an object with a
// reference to a slid object, whose reference is then set to the new object. The second one reads both references,
// clears the first and makes an object of its own. At the end 4 words slid, and 2 and 1 words were made.
static LINKED_AND_CLEARED: MutatedHeap = MutatedHeap {
    name: "writes and allocates",
    heap: Worked::Three,
    built_by: BuiltBy::Plan,
    mutators: 2,
    fresh_pages: 2,
    steps: &[
        MutatorStep::Alloc(1, 0, 4, Ok(T + 64)),
        MutatorStep::WriteRef(T + 64, 0, T + 2, Ok(1)),
        MutatorStep::WriteRef(T + 2, 0, T + 64, Ok(2)),
        MutatorStep::By(1),
        MutatorStep::ReadRef(T + 64, 0, Ok(T + 2)),
        MutatorStep::ReadRef(T + 2, 0, Ok(T + 64)),
        MutatorStep::WriteRef(T + 64, 0, 0, Ok(3)),
        MutatorStep::Alloc(0, 0, 0, Ok(T + 128)),
        MutatorStep::Builds(&[2]),
        MutatorStep::Unposted(1),
        MutatorStep::By(0),
        MutatorStep::Page(1, &[17_179_869_185], &ENTRIES),
        MutatorStep::Builds(&[1, 0]),
        MutatorStep::Unposted(2),
    ],
    end: End::Contents(Ending {
        live_words: 7,
        roots: &[T + 2],
        pages: &[true, true, true],
        entries: 5,
        builds: Some((&[1, 0], &[2])),
    }),
};

#[test]
fn new_objects_of_two_mutators_refer_to_one_another(rt: HostRuntime) {
    play_heap(&rt, rt.alloc(), &LINKED_AND_CLEARED);
}
