//! How explanations read; `explained_entries` has those of entries that do not fit, and `explained_builds` those of
//! lists of builds.
use crate::dump_bytes::Whole;
use crate::expected::expect_eq;
use crate::explained_faults::{counts_of, last, last_out_of_place};
use comp_audit::{
    EntryCause, Explanation, HeadCause, LooseEntry, LooseWordAt, RootAt, StampLost, StampUses,
    Totals, WrongWordAt,
};
use comp_journal::Entry;
use heap_layout::{Edition, Kind};
use std::alloc::Global;
use std::process::Abort;
use test_support::{At, T};

// An entry that wrote a loose weak word.
const STORED: Entry = Entry {
    stamp: 5,
    writer: 1,
    kind: Kind::Weak,
    offset: 3,
    value: T + 1,
};

/// An explanation, and how it reads.
#[derive(Drop)]
pub struct WordedExplanation(pub Explanation, pub &'static str);

// Each arm but those of entries and of claims, and each line that is left out if there is nothing to say.
static WORDED: [WordedExplanation; 12] = [
    WordedExplanation(
        Explanation::WrongWord(WrongWordAt {
            page: 0,
            offset: 63,
            is: 1,
            should_be: 0,
            object: None,
            out_of_place: None,
        }),
        "page 0 offset 63 has 1, not 0",
    ),
    // No entry at the offset; one with nothing wrong; one with a cause.
    WordedExplanation(
        Explanation::LooseReference(LooseWordAt {
            page: 0,
            offset: 3,
            is: T + 1,
            entry: None,
        }),
        "page 0 offset 3 has 8589934593, where no object starts",
    ),
    WordedExplanation(
        Explanation::LooseReference(LooseWordAt {
            page: 7,
            offset: 3,
            is: T + 1,
            entry: Some(LooseEntry {
                number: 2,
                entry: STORED,
                cause: None,
            }),
        }),
        "page 7 offset 3 has 8589934593, where no object starts\nwritten by entry 2 of page 7: stamp 5, writer 1, weak word, offset 3, value 8589934593",
    ),
    WordedExplanation(
        Explanation::LooseReference(LooseWordAt {
            page: 7,
            offset: 3,
            is: T + 1,
            entry: Some(LooseEntry {
                number: 2,
                entry: STORED,
                cause: Some(EntryCause::LeadsNowhere),
            }),
        }),
        "page 7 offset 3 has 8589934593, where no object starts\nwritten by entry 2 of page 7: stamp 5, writer 1, weak word, offset 3, value 8589934593\nwhy: no object starts at its value",
    ),
    WordedExplanation(
        Explanation::StampRepeated(StampUses {
            stamp: 0,
            entries: 2,
            first_page: 5,
            last_page: 7,
        }),
        "2 entries have stamp 0, the first on page 5, the last on page 7",
    ),
    WordedExplanation(
        Explanation::StampMissing(StampLost {
            stamp: 1,
            entries: 2,
        }),
        "none of 2 entries has stamp 1",
    ),
    WordedExplanation(
        Explanation::WrongTotal(Totals {
            is: 6,
            should_be: 5,
        }),
        "live words 6, not 5",
    ),
    WordedExplanation(
        Explanation::WrongHead(HeadCause::Edition(Edition::Two, Edition::One)),
        "edition 2, not 1",
    ),
    WordedExplanation(
        Explanation::WrongHead(HeadCause::Pages(3, 2)),
        "pages 3, not 2",
    ),
    WordedExplanation(
        Explanation::WrongHead(HeadCause::Roots(0, 1)),
        "roots 0, not 1",
    ),
    WordedExplanation(
        Explanation::WrongHead(HeadCause::Root(RootAt {
            number: 0,
            is: 0,
            should_be: T + 2,
        })),
        "root 0 is 0, not 8589934594",
    ),
    WordedExplanation(
        Explanation::NoSuchFault,
        "the dump does not have this fault",
    ),
];

// A wrong word of an object, while the objects are out of place.
fn of_an_object() -> WordedExplanation {
    WordedExplanation(
        Explanation::WrongWord(WrongWordAt {
            page: 3,
            offset: 17,
            is: 5,
            should_be: T + 8,
            object: Some(last()),
            out_of_place: Some(last_out_of_place()),
        }),
        "page 3 offset 17 has 5, not 8589934600\nobject 1 at index 5, address 8589934594, header 12884901889\nfirst out of place: object 1 at index 5, should start at 8589934594, there is 5",
    )
}

/// Checks how all explanations of this table read.
pub fn expect_worded(rt: &impl Abort, alloc: Global, explanations: &[WordedExplanation]) {
    for (at, WordedExplanation(explanation, wanted)) in explanations.iter().enumerate() {
        let found = format!(in alloc; "{explanation}").expect(rt, "a text");
        expect_eq(rt, At::new("worded", at), found.as_str(), *wanted);
    }
}

#[test]
fn explanations_are_printed_as_these_lines(rt: HostRuntime) {
    expect_worded(&rt, rt.alloc(), &WORDED);
    expect_worded(&rt, rt.alloc(), &[of_an_object()]);
}

// Checks how the counts of the dump after a new object read.
fn expect_counts_worded(rt: &impl Abort, alloc: Global) {
    let counts = counts_of(&Whole::Linked);
    let found = format!(in alloc; "{counts}").expect(rt, "a text");
    expect_eq(
        rt,
        At::new("counts", 0),
        found.as_str(),
        "built 2 of 3 pages\nentries 2",
    );
}

#[test]
fn counts_of_a_dump_are_printed_as_these_lines(rt: HostRuntime) {
    expect_counts_worded(&rt, rt.alloc());
}
