//! What is said of the first fault of dumps with some fields changed; `explained_loose_words` has the loose words,
//! `explained_entries` the entries that do not fit, and `explained_builds` the lists of builds. All numbers are worked
//! by hand: after the slide the three objects are the first at word 0 and the last at word 2, and the new object is on
//! page 1.
use crate::dump_bytes::{Change, Whole, changed};
use crate::dumps_in_memory::read;
use crate::expected::expect_eq;
use comp_audit::{
    Dump, DumpCounts, Explanation, HeadCause, OutOfPlace, RootAt, SlidObject, StampLost, StampUses,
    Totals, Verdict, WrongWordAt, audit, count, explain,
};
use heap_layout::{Edition, Header};
use page_plan::Plan;
use std::alloc::Global;
use std::process::Abort;
use std::thread::Threads;
use test_support::{
    At, FIRST_DATA, LAST_WORD, REFERENCE, REFERENCE_STAMP, ROOT, T, TOTAL, VERSION, Worked, plan_of,
};

/// A dump, the changes of it, and what is said of its first fault; None if it has none.
#[derive(Drop)]
pub struct ExplainedDump(pub Whole, pub &'static [Change], pub Option<Explanation>);

// Positions in the dump after a new object: the number of fresh pages, the number of roots, the header of the last
// object, and word 5 of the page of the new object.
const FRESH: usize = 16;

const ROOTS: usize = 24;

const SLID_HEADER: usize = 53;

const NEW_WORD_5: usize = 613;

// The first marked object after the slide.
fn first() -> SlidObject {
    SlidObject {
        number: 0,
        index: 0,
        address: T,
        header: Header::new(0, 1, 1).word(),
    }
}

/// The second marked object after the slide.
pub fn last() -> SlidObject {
    SlidObject {
        number: 1,
        index: 5,
        address: T + 2,
        header: Header::new(1, 0, 3).word(),
    }
}

/// The second marked object, and another header at its address.
pub fn last_out_of_place() -> OutOfPlace {
    OutOfPlace {
        object: last(),
        is: 5,
    }
}

// For the plan of the three objects.
static TOLD: [ExplainedDump; 10] = [
    ExplainedDump(Whole::Linked, &[], None),
    // A word after all objects, and one of a fresh page.
    ExplainedDump(
        Whole::Linked,
        &[Change(LAST_WORD, 8, 8, 1)],
        Some(Explanation::WrongWord(WrongWordAt {
            page: 0,
            offset: 63,
            is: 1,
            should_be: 0,
            object: None,
            out_of_place: None,
        })),
    ),
    ExplainedDump(
        Whole::Linked,
        &[Change(NEW_WORD_5, 8, 8, 9)],
        Some(Explanation::WrongWord(WrongWordAt {
            page: 1,
            offset: 5,
            is: 9,
            should_be: 0,
            object: None,
            out_of_place: None,
        })),
    ),
    // Head: edition two; one fresh page for two; no root; a null root.
    ExplainedDump(
        Whole::Linked,
        &[Change(VERSION, 1, 1, 2)],
        Some(Explanation::WrongHead(HeadCause::Edition(Edition::Two, Edition::One))),
    ),
    ExplainedDump(
        Whole::Linked,
        &[Change(FRESH, 1, 1, 1)],
        Some(Explanation::WrongHead(HeadCause::Pages(3, 2))),
    ),
    ExplainedDump(
        Whole::Linked,
        &[Change(ROOTS, 12, 4, 0)],
        Some(Explanation::WrongHead(HeadCause::Roots(0, 1))),
    ),
    ExplainedDump(
        Whole::Linked,
        &[Change(ROOT, 8, 8, 0)],
        Some(Explanation::WrongHead(HeadCause::Root(RootAt {
            number: 0,
            is: 0,
            should_be: T + 2,
        }))),
    ),
    // Stamps 0 and 0; stamps 0 and 2.
    ExplainedDump(
        Whole::Linked,
        &[Change(REFERENCE_STAMP, 8, 8, 0)],
        Some(Explanation::StampRepeated(StampUses {
            stamp: 0,
            entries: 2,
            first_page: 0,
            last_page: 1,
        })),
    ),
    ExplainedDump(
        Whole::Linked,
        &[Change(REFERENCE_STAMP, 8, 8, 2)],
        Some(Explanation::StampMissing(StampLost {
            stamp: 1,
            entries: 2,
        })),
    ),
    // Total: 6 for 5.
    ExplainedDump(
        Whole::Linked,
        &[Change(TOTAL, 8, 8, 6)],
        Some(Explanation::WrongTotal(Totals {
            is: 6,
            should_be: 5,
        })),
    ),
];

// The same, of words of objects.
fn told_of_objects() -> [ExplainedDump; 4] {
    [
        // Word: 12 for 11.
        ExplainedDump(
            Whole::Linked,
            &[Change(FIRST_DATA, 8, 8, 12)],
            Some(Explanation::WrongWord(WrongWordAt {
                page: 0,
                offset: 1,
                is: 12,
                should_be: 11,
                object: Some(first()),
                out_of_place: None,
            })),
        ),
        // The same, and the last object has another header.
        ExplainedDump(
            Whole::Linked,
            &[Change(FIRST_DATA, 8, 8, 12), Change(SLID_HEADER, 8, 8, 5)],
            Some(Explanation::WrongWord(WrongWordAt {
                page: 0,
                offset: 1,
                is: 12,
                should_be: 11,
                object: Some(first()),
                out_of_place: Some(last_out_of_place()),
            })),
        ),
        ExplainedDump(
            Whole::Linked,
            &[Change(SLID_HEADER, 8, 8, 5)],
            Some(Explanation::WrongWord(WrongWordAt {
                page: 0,
                offset: 2,
                is: 5,
                should_be: Header::new(1, 0, 3).word(),
                object: Some(last()),
                out_of_place: Some(last_out_of_place()),
            })),
        ),
        // The reference is that of before the entry.
        ExplainedDump(
            Whole::Linked,
            &[Change(REFERENCE, 8, 8, T)],
            Some(Explanation::WrongWord(WrongWordAt {
                page: 0,
                offset: 3,
                is: T,
                should_be: T + 64,
                object: Some(last()),
                out_of_place: None,
            })),
        ),
    ]
}

/// How much of each dump there is.
pub fn counts_of(whole: &Whole) -> DumpCounts {
    match whole {
        Whole::Put => DumpCounts {
            built: 1,
            pages: 65,
            entries: 1,
        },
        _ => DumpCounts {
            built: 2,
            pages: 3,
            entries: 2,
        },
    }
}

/// What is said of the first fault of a dump; None if it has none.
pub fn explained(
    rt: &impl Abort,
    alloc: Global,
    plan: &Plan,
    dump: &Dump<'_>,
) -> Option<Explanation> {
    match audit(alloc, plan, dump).expect(rt, "an audit") {
        Verdict::Yes => None,
        Verdict::No(fault) => {
            Some(explain(alloc, plan, dump, fault).expect(rt, "an explanation"))
        }
    }
}

/// Checks what is said of all dumps of this table, and the counts, for the plan of the three objects.
pub fn expect_explained(rt: &(impl Abort + AllocGlobal + Threads + Sync), dumps: &[ExplainedDump]) {
    let alloc = rt.alloc();
    let plan = plan_of(rt, alloc, Worked::Three).expect(rt, "a plan");
    for (at, ExplainedDump(whole, changes, wanted)) in dumps.iter().enumerate() {
        let bytes = changed(rt, alloc, whole, changes);
        let dump = read(alloc, &bytes).expect(rt, "a dump");
        expect_eq(rt, At::new("counts", at), count(&dump), counts_of(whole));
        let found = explained(rt, alloc, &plan, &dump);
        expect_eq(rt, At::new("told", at), found, *wanted);
    }
}

#[test]
fn each_fault_is_explained_with_its_numbers(rt: HostRuntime) {
    expect_explained(&rt, &TOLD);
}

#[test]
fn a_wrong_word_of_an_object_is_explained_with_the_object(rt: HostRuntime) {
    expect_explained(&rt, &told_of_objects());
}
