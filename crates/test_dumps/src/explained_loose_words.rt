//! What is said of loose references: the word, and the last entry at its offset. All numbers are worked by hand.
use crate::dump_bytes::{Change, Whole, changed};
use crate::dumps_in_memory::read;
use crate::expected::expect_eq;
use crate::explained_entries::{ENTRIES, NONE_ON_0, NONE_ON_1, REFERENCE_END};
use crate::explained_faults::{ExplainedDump, expect_explained};
use comp_audit::{AuditFault, EntryCause, Explanation, LooseEntry, LooseWordAt, explain};
use comp_journal::Entry;
use heap_layout::Kind;
use page_plan::Plan;
use std::alloc::Global;
use std::process::Abort;
use test_support::{At, REFERENCE, REFERENCE_VALUE, T, Worked, plan_of};

// The end of an entry that writes T + 1: the writer is 0, the kind 1, the offset 3.
const INTO_FIRST: u64 = (1 << 8) + (3 << 16) + ((T + 1) << 24);

// For the plan of the three objects.
static LOOSE: [ExplainedDump; 2] = [
    // A reference into an object, by the one entry of page 0.
    ExplainedDump(
        Whole::Linked,
        &[
            Change(REFERENCE, 8, 8, T + 1),
            Change(REFERENCE_VALUE, 8, 8, T + 1),
        ],
        Some(Explanation::LooseReference(LooseWordAt {
            page: 0,
            offset: 3,
            is: T + 1,
            entry: Some(LooseEntry {
                number: 0,
                entry: Entry {
                    stamp: 1,
                    writer: 0,
                    kind: Kind::Reference,
                    offset: 3,
                    value: T + 1,
                },
                cause: Some(EntryCause::LeadsNowhere),
            }),
        })),
    ),
    // By the second of two entries, after one that leads to an object.
    ExplainedDump(
        Whole::Linked,
        &[
            Change(REFERENCE, 8, 8, T + 1),
            Change(ENTRIES, 4, 4, 2),
            Change(REFERENCE_VALUE, 8, 8, T),
            Change(REFERENCE_END, 0, 8, 2),
            Change(REFERENCE_END, 0, 11, INTO_FIRST),
            NONE_ON_1,
        ],
        Some(Explanation::LooseReference(LooseWordAt {
            page: 0,
            offset: 3,
            is: T + 1,
            entry: Some(LooseEntry {
                number: 1,
                entry: Entry {
                    stamp: 2,
                    writer: 0,
                    kind: Kind::Reference,
                    offset: 3,
                    value: T + 1,
                },
                cause: Some(EntryCause::LeadsNowhere),
            }),
        })),
    ),
];

#[test]
fn a_loose_reference_is_explained_by_the_last_entry_at_its_offset(rt: HostRuntime) {
    expect_explained(&rt, &LOOSE);
}

// Changes of the dump after a new object, an address, and what is said if it is asked for as a loose reference.
struct AskedWord(&'static [Change], u64, Explanation);

static ASKED: [AskedWord; 7] = [
    // A header that an object slid with; a reference to the new object; the header of that object.
    AskedWord(&[], T, Explanation::NoSuchFault),
    AskedWord(&[], T + 3, Explanation::NoSuchFault),
    AskedWord(&[], T + 64, Explanation::NoSuchFault),
    // A page that was never built, and below to-space.
    AskedWord(&[], T + 128, Explanation::NoSuchFault),
    AskedWord(&[], 0, Explanation::NoSuchFault),
    // The word is another than the one that the entry wrote, with which nothing is wrong.
    AskedWord(
        &[Change(REFERENCE, 8, 8, T + 1)],
        T + 3,
        Explanation::LooseReference(LooseWordAt {
            page: 0,
            offset: 3,
            is: T + 1,
            entry: Some(LooseEntry {
                number: 0,
                entry: Entry {
                    stamp: 1,
                    writer: 0,
                    kind: Kind::Reference,
                    offset: 3,
                    value: T + 64,
                },
                cause: None,
            }),
        }),
    ),
    // No entry of page 0 is at its offset.
    AskedWord(
        &[Change(REFERENCE, 8, 8, T + 1), NONE_ON_0],
        T + 3,
        Explanation::LooseReference(LooseWordAt {
            page: 0,
            offset: 3,
            is: T + 1,
            entry: None,
        }),
    ),
];

// Checks what is said of words that are loose, and of others.
fn expect_asked(rt: &impl Abort, alloc: Global, plan: &Plan) {
    for (at, AskedWord(changes, address, wanted)) in ASKED.iter().enumerate() {
        let bytes = changed(rt, alloc, &Whole::Linked, changes);
        let dump = read(alloc, &bytes).expect(rt, "a dump");
        let fault = AuditFault::LooseReference(*address);
        let found = explain(alloc, plan, &dump, fault).expect(rt, "an explanation");
        expect_eq(rt, At::new("asked", at), found, *wanted);
    }
}

#[test]
fn a_word_that_is_asked_for_is_explained_if_it_is_loose(rt: HostRuntime) {
    let plan = plan_of(&rt, rt.alloc(), Worked::Three).expect(&rt, "a plan");
    expect_asked(&rt, rt.alloc(), &plan);
}
