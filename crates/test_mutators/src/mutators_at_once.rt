//! Mutators in threads.
ghost use Rattle.comp_mutator.specs.Mutators.{AreMutatorsOf, IsMutatorOf};

use crate::endings::{End, Ending};
use crate::mutated_heaps::{BuiltBy, MutatedHeap, play_heap};
use crate::mutator_steps::{MutatorStep, expect_step};
use crate::written_by_turns::ENTRIES;
use comp_journal::Entry;
use comp_mutator::{Builder, Mutator, Space, Touched};
use heap_layout::Kind;
use std::alloc::Global;
use std::process::Abort;
use std::sync::Wait;
use std::sync::ledger::Ledger as Named;
use std::thread::{self, Threads};
use test_support::{At, T, Worked};

// The steps of a mutator, one after another.
fn play_alone<L: Named, B: Builder, R: Abort + Wait>(
    rt: &R,
    alloc: Global,
    space: &Space<L, B>,
    m: &mut Mutator<L>,
    at: At,
    steps: &[MutatorStep],
)
    requires of { IsMutatorOf space.now m.old }
    ensures of { IsMutatorOf space.now m.new }
{
    for step in steps {
        expect_step(rt, alloc, space, m, at, step);
    }
}

// The most threads, and thus the most mutators that have a thread of their own.
const MAX_THREADS: usize = 4;

/// Runs threads at once: the first steps in one, for the first mutator, and the second steps in each other one, for
/// another mutator.
pub fn at_once<L: Named + Send + Sync, B: Builder, R: Abort + Threads + Wait + Sync>(
    rt: &R,
    alloc: Global,
    space: &Space<L, B>,
    mutators: &mut [Mutator<L>],
    first: &[MutatorStep],
    second: &[MutatorStep],
    at: At,
)
    requires of { AreMutatorsOf space.now mutators.old }
    ensures of { AreMutatorsOf space.now mutators.new }
{
    thread::for_each_mut(
        rt,
        mutators,
        MAX_THREADS,
        &|number, m: &mut Mutator<L>|
            requires { IsMutatorOf space.now m.old }
            ensures { IsMutatorOf space.entry.now m.new }
        {
            let steps = if number == 0 { first } else { second };
            play_alone(rt, alloc, space, m, at, steps);
        },
    );
}

// The root of the heap of the three objects.
const ROOTS: &[u64] = &[T + 2];

// A thread writes 7 into the first data word of the first object, and reads it.
const SEVEN: [MutatorStep; 2] = [
    MutatorStep::WriteData(T, 0, 7, Ok(0)),
    MutatorStep::ReadData(T, 0, Ok(7)),
];

// One thread writes, then the other mutator reads. The page of the three objects has that word and one entry.
static ONE_THEN_OTHER: MutatedHeap = MutatedHeap {
    name: "reads what another thread wrote",
    heap: Worked::Three,
    built_by: BuiltBy::Plan,
    mutators: 2,
    fresh_pages: 2,
    steps: &[
        MutatorStep::AtOnce(&SEVEN, &[]),
        MutatorStep::By(1),
        MutatorStep::ReadData(T, 0, Ok(7)),
        MutatorStep::Page(
            0,
            &[4_295_032_832, 7, 12_884_901_889, T],
            &[Entry {
                stamp: 0,
                writer: 0,
                kind: Kind::Data,
                offset: 1,
                value: 7,
            }],
        ),
    ],
    end: End::Contents(Ending {
        live_words: 4,
        roots: ROOTS,
        pages: &[true, false, false],
        entries: 1,
        builds: Some((&[0], &[])),
    }),
};

#[test]
fn a_mutator_reads_what_another_thread_wrote(rt: HostRuntime) {
    play_heap(&rt, rt.alloc(), &ONE_THEN_OTHER);
}

// Two threads touch one page at once.
static RACE: MutatedHeap = MutatedHeap {
    name: "builds once in a race",
    heap: Worked::Three,
    built_by: BuiltBy::Plan,
    mutators: 2,
    fresh_pages: 0,
    steps: &[MutatorStep::AtOnce(&[MutatorStep::Race], &[MutatorStep::Race])],
    end: End::Contents(Ending {
        live_words: 4,
        roots: ROOTS,
        pages: &[true],
        entries: 0,
        builds: None,
    }),
};

#[test]
fn a_page_is_built_once_by_two_mutators(rt: HostRuntime) {
    play_heap(&rt, rt.alloc(), &RACE);
}

// Two threads write to one page. Each waits while the other holds it.
static TURNS: MutatedHeap = MutatedHeap {
    name: "writes one page by turns",
    heap: Worked::Three,
    built_by: BuiltBy::Plan,
    mutators: 2,
    fresh_pages: 0,
    steps: &[
        MutatorStep::AtOnce(
            &[MutatorStep::Writes(0, ENTRIES)],
            &[MutatorStep::Writes(1000, ENTRIES)],
        ),
        MutatorStep::Turns(0),
    ],
    end: End::Contents(Ending {
        live_words: 4,
        roots: ROOTS,
        pages: &[true],
        entries: 200,
        builds: None,
    }),
};

#[test]
fn two_mutators_write_one_page_by_turns(rt: HostRuntime) {
    play_heap(&rt, rt.alloc(), &TURNS);
}

// Two threads each make 16 objects of 4 words, write to one page and settle, and then the heap is finished. The slid
// page is built before them.
static OBJECTS_AT_ONCE: MutatedHeap = MutatedHeap {
    name: "finishes after two threads",
    heap: Worked::Three,
    built_by: BuiltBy::Plan,
    mutators: 2,
    fresh_pages: 4,
    steps: &[
        MutatorStep::Touch(0, Ok(Touched::Built)),
        MutatorStep::AtOnce(&[MutatorStep::Objects(16)], &[MutatorStep::Objects(16)]),
        MutatorStep::Unposted(0),
        MutatorStep::By(1),
        MutatorStep::Unposted(0),
    ],
    end: End::Contents(Ending {
        live_words: 4 + 2 * 16 * 4,
        roots: ROOTS,
        pages: &[true, true, true, false, false],
        entries: 64,
        builds: Some((&[0, 1], &[2])),
    }),
};

#[test]
fn two_mutators_make_objects_at_once(rt: HostRuntime) {
    play_heap(&rt, rt.alloc(), &OBJECTS_AT_ONCE);
}

// Two threads write to different pages, whose builds wait for one another. Then each reads what the other has written.
static TWO_PAGES: MutatedHeap = MutatedHeap {
    name: "writes two pages at once",
    heap: Worked::Zeros(255),
    built_by: BuiltBy::Meeting,
    mutators: 2,
    fresh_pages: 0,
    steps: &[
        MutatorStep::AtOnce(&[MutatorStep::Word(0, 5)], &[MutatorStep::Word(100, 6)]),
        MutatorStep::By(1),
        MutatorStep::ReadData(T, 0, Ok(5)),
        MutatorStep::By(0),
        MutatorStep::ReadData(T, 100, Ok(6)),
    ],
    end: End::Contents(Ending {
        live_words: 256,
        roots: &[],
        pages: &[true, true, false, false],
        entries: 2,
        builds: Some((&[0], &[1])),
    }),
};

#[test]
fn two_mutators_build_two_pages_at_once(rt: HostRuntime) {
    play_heap(&rt, rt.alloc(), &TWO_PAGES);
}

// One thread counts a word up without waiting while another one reads it. No call is refused.
static READS_BESIDE_WRITES: MutatedHeap = MutatedHeap {
    name: "reads while another thread writes",
    heap: Worked::Three,
    built_by: BuiltBy::Plan,
    mutators: 2,
    fresh_pages: 0,
    steps: &[
        MutatorStep::By(1),
        MutatorStep::Touch(0, Ok(Touched::Built)),
        MutatorStep::AtOnce(
            &[MutatorStep::WritesAtOnce(100, 1_024)],
            &[MutatorStep::Follows(2_000)],
        ),
        MutatorStep::ReadData(T, 0, Ok(1_123)),
    ],
    end: End::Contents(Ending {
        live_words: 4,
        roots: ROOTS,
        pages: &[true],
        entries: 1_024,
        builds: Some((&[], &[0])),
    }),
};

#[test]
fn a_mutator_reads_while_another_one_writes(rt: HostRuntime) {
    play_heap(&rt, rt.alloc(), &READS_BESIDE_WRITES);
}

// One mutator writes to a page, and all others read it; the page is built before. No read is refused, and no value
// falls.
static READERS_BESIDE_A_WRITER: MutatedHeap = MutatedHeap {
    name: "races where all but one only read",
    heap: Worked::Three,
    built_by: BuiltBy::Plan,
    mutators: 4,
    fresh_pages: 0,
    steps: &[
        MutatorStep::Touch(0, Ok(Touched::Built)),
        MutatorStep::AtOnce(
            &[MutatorStep::WritesAtOnce(100, 1_024)],
            &[
                MutatorStep::Touch(0, Ok(Touched::AlreadyBuilt)),
                MutatorStep::Follows(2_000),
            ],
        ),
        MutatorStep::By(3),
        MutatorStep::ReadData(T, 0, Ok(1_123)),
    ],
    end: End::Contents(Ending {
        live_words: 4,
        roots: ROOTS,
        pages: &[true],
        entries: 1_024,
        builds: Some((&[0], &[])),
    }),
};

#[test]
fn three_mutators_read_while_one_writes(rt: HostRuntime) {
    play_heap(&rt, rt.alloc(), &READERS_BESIDE_A_WRITER);
}
