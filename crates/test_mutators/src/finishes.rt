//! Settled and unsettled words, a finish with a mutator missing, and the pages that are lent at the end.
use crate::endings::{End, Ending, Lent};
use crate::mutated_heaps::{BuiltBy, MutatedHeap, play_heap};
use crate::mutator_steps::MutatorStep;
use test_support::{T, Worked};

// The empty heap: one of two mutators is handed in alone, then both.
static HANDED_BACK: MutatedHeap = MutatedHeap {
    name: "hands back where one is missing",
    heap: Worked::Empty,
    built_by: BuiltBy::Plan,
    mutators: 2,
    fresh_pages: 0,
    steps: &[],
    end: End::Contents(Ending {
        live_words: 0,
        roots: &[],
        pages: &[],
        entries: 0,
        builds: Some((&[], &[])),
    }),
};

#[test]
fn a_finish_with_a_mutator_missing_hands_back_the_others(rt: HostRuntime) {
    play_heap(&rt, rt.alloc(), &HANDED_BACK);
}

// An object of 3 words and one of 5.
const THREE: MutatorStep = MutatorStep::Alloc(0, 2, 0, Ok(T + 64));

const FIVE: MutatorStep = MutatorStep::Alloc(1, 3, 0, Ok(T + 128));

// 10 words slid and 8 were made. Of three pages the first was never touched.
const EIGHTEEN: Ending = Ending {
    live_words: 18,
    roots: &[],
    pages: &[false, true, true],
    entries: 2,
    builds: Some((&[1], &[2])),
};

// Two mutators make objects of 3 and of 5 words, and the first settles.
static SETTLED: MutatedHeap = MutatedHeap {
    name: "the first one settles",
    heap: Worked::Zeros(9),
    built_by: BuiltBy::Plan,
    mutators: 2,
    fresh_pages: 2,
    steps: &[
        THREE,
        MutatorStep::By(1),
        FIVE,
        MutatorStep::By(0),
        MutatorStep::Unposted(3),
        MutatorStep::Settle,
        MutatorStep::Unposted(0),
    ],
    end: End::Contents(EIGHTEEN),
};

#[test]
fn live_words_are_counted_if_a_mutator_has_settled(rt: HostRuntime) {
    play_heap(&rt, rt.alloc(), &SETTLED);
}

// Four objects of 64 words fill the four fresh pages. Each mutator settles the words of two pages.
static FULL: MutatedHeap = MutatedHeap {
    name: "each settles two full pages",
    heap: Worked::Zeros(9),
    built_by: BuiltBy::Plan,
    mutators: 2,
    fresh_pages: 4,
    steps: &[
        MutatorStep::Alloc(0, 63, 0, Ok(T + 64)),
        MutatorStep::Alloc(0, 63, 0, Ok(T + 192)),
        MutatorStep::Unposted(128),
        MutatorStep::Settle,
        MutatorStep::Unposted(0),
        MutatorStep::By(1),
        MutatorStep::Alloc(0, 63, 0, Ok(T + 128)),
        MutatorStep::Alloc(0, 63, 0, Ok(T + 256)),
        MutatorStep::Unposted(128),
        MutatorStep::Settle,
        MutatorStep::Unposted(0),
    ],
    end: End::Contents(Ending {
        live_words: 266,
        roots: &[],
        pages: &[false, true, true, true, true],
        entries: 4,
        builds: Some((&[1, 3], &[2, 4])),
    }),
};

#[test]
fn the_words_of_two_full_pages_are_settled_at_once(rt: HostRuntime) {
    play_heap(&rt, rt.alloc(), &FULL);
}

// They make the same objects, and neither settles.
static UNSETTLED: MutatedHeap = MutatedHeap {
    name: "none settles",
    heap: Worked::Zeros(9),
    built_by: BuiltBy::Plan,
    mutators: 2,
    fresh_pages: 2,
    steps: &[THREE, MutatorStep::By(1), FIVE],
    end: End::Contents(EIGHTEEN),
};

#[test]
fn live_words_are_counted_if_no_mutator_has_settled(rt: HostRuntime) {
    play_heap(&rt, rt.alloc(), &UNSETTLED);
}

// Both mutators write the data word of the first object. The second one makes an object on page 2, its own fresh page,
// and writes 9 into it. Nobody touches page 1.
static LENDING: MutatedHeap = MutatedHeap {
    name: "lends the words that were written last",
    heap: Worked::Three,
    built_by: BuiltBy::Plan,
    mutators: 2,
    fresh_pages: 2,
    steps: &[
        MutatorStep::WriteData(T, 0, 7, Ok(0)),
        MutatorStep::By(1),
        MutatorStep::WriteData(T, 0, 8, Ok(1)),
        MutatorStep::Alloc(0, 1, 0, Ok(T + 128)),
        MutatorStep::WriteData(T + 128, 0, 9, Ok(3)),
    ],
    end: End::Words(&[
        Lent(0, 0, Some(4_295_032_832)),
        Lent(0, 1, Some(8)),
        Lent(0, 3, Some(T)),
        Lent(0, 63, Some(0)),
        Lent(1, 0, None),
        Lent(2, 0, Some(65_536)),
        Lent(2, 1, Some(9)),
        Lent(2, 63, Some(0)),
        Lent(3, 0, None),
        Lent(usize::MAX, 0, None),
    ]),
};

#[test]
fn a_finished_heap_lends_the_words_that_were_written_last(rt: HostRuntime) {
    play_heap(&rt, rt.alloc(), &LENDING);
}
