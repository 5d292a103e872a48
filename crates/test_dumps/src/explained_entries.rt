//! What is said of entries that do not fit, and how it reads: a dump for each cause. All numbers are worked by hand.
use crate::dump_bytes::{Change, Whole};
use crate::expected::expect_eq;
use crate::explained_faults::{ExplainedDump, expect_explained};
use crate::worded_explanations::{WordedExplanation, expect_worded};
use comp_audit::{BadEntryAt, EntryCause, Explanation};
use comp_journal::Entry;
use heap_layout::Kind;
use std::alloc::Global;
use std::process::Abort;
use test_support::{
    At, HEADER_OFFSET, HEADER_STAMP, REFERENCE, REFERENCE_KIND, REFERENCE_STAMP, REFERENCE_VALUE, T,
};

/// The number of entries of page 0 in the dump after a new object.
pub const ENTRIES: usize = 549;

/// The end of its entry.
pub const REFERENCE_END: usize = 572;

// Other positions in this dump: the number of mutators; on page 0, the offset of its entry; on page 1, the number of
// entries, and the writer, the kind, the value and the end of its entry; the end of the list of builds.
const MUTATORS: usize = 12;

const REFERENCE_OFFSET: usize = 563;

const NEW_ENTRIES: usize = 1_085;

const HEADER_WRITER: usize = 1_097;

const HEADER_KIND: usize = 1_098;

const HEADER_VALUE: usize = 1_100;

const HEADER_END: usize = 1_108;

const BUILDS_END: usize = 1_121;

/// No entry on page 0: 23 bytes, the number of entries and one entry, are the number 0.
pub const NONE_ON_0: Change = Change(ENTRIES, 23, 4, 0);

/// No entry on page 1.
pub const NONE_ON_1: Change = Change(NEW_ENTRIES, 23, 4, 0);

// For the plan of the three objects.
static BAD_ENTRIES: [ExplainedDump; 11] = [
    // A second entry on page 0, of the stamp of the first. It is a header too, but the stamp is looked at first.
    ExplainedDump(
        Whole::Linked,
        &[
            Change(ENTRIES, 4, 4, 2),
            Change(REFERENCE_END, 0, 19, 1),
            NONE_ON_1,
        ],
        Some(Explanation::BadEntry(BadEntryAt {
            page: 0,
            number: 1,
            entry: Entry {
                stamp: 1,
                writer: 0,
                kind: Kind::Header,
                offset: 0,
                value: 0,
            },
            stamp_before: Some(1),
            maker: None,
            filled: 0,
            cause: EntryCause::StampNotAbove(1),
        })),
    ),
    // A header on a compacted page.
    ExplainedDump(
        Whole::Linked,
        &[Change(REFERENCE_KIND, 1, 1, 0)],
        Some(Explanation::BadEntry(BadEntryAt {
            page: 0,
            number: 0,
            entry: Entry {
                stamp: 1,
                writer: 0,
                kind: Kind::Header,
                offset: 3,
                value: T + 64,
            },
            stamp_before: None,
            maker: None,
            filled: 0,
            cause: EntryCause::NoFreshPage,
        })),
    ),
    // Two mutators, and the header is of the second, on a page of the first.
    ExplainedDump(
        Whole::Linked,
        &[
            Change(MUTATORS, 1, 1, 2),
            Change(HEADER_WRITER, 1, 1, 1),
            Change(BUILDS_END, 0, 4, 0),
        ],
        Some(Explanation::BadEntry(BadEntryAt {
            page: 1,
            number: 0,
            entry: Entry {
                stamp: 0,
                writer: 1,
                kind: Kind::Header,
                offset: 0,
                value: 0,
            },
            stamp_before: None,
            maker: Some(0),
            filled: 0,
            cause: EntryCause::OtherMaker(0),
        })),
    ),
    // A gap before the header.
    ExplainedDump(
        Whole::Linked,
        &[Change(HEADER_OFFSET, 1, 1, 1)],
        Some(Explanation::BadEntry(BadEntryAt {
            page: 1,
            number: 0,
            entry: Entry {
                stamp: 0,
                writer: 0,
                kind: Kind::Header,
                offset: 1,
                value: 0,
            },
            stamp_before: None,
            maker: Some(0),
            filled: 0,
            cause: EntryCause::NotNext(0),
        })),
    ),
    // An object of 65 words, with 64 references.
    ExplainedDump(
        Whole::Linked,
        &[Change(HEADER_VALUE, 8, 8, 64)],
        Some(Explanation::BadEntry(BadEntryAt {
            page: 1,
            number: 0,
            entry: Entry {
                stamp: 0,
                writer: 0,
                kind: Kind::Header,
                offset: 0,
                value: 64,
            },
            stamp_before: None,
            maker: Some(0),
            filled: 0,
            cause: EntryCause::PastPage(65),
        })),
    ),
    // A reference at the data word of the first object; after the last slid word; and data on a page without objects.
    ExplainedDump(
        Whole::Linked,
        &[Change(REFERENCE_OFFSET, 1, 1, 1)],
        Some(Explanation::BadEntry(BadEntryAt {
            page: 0,
            number: 0,
            entry: Entry {
                stamp: 1,
                writer: 0,
                kind: Kind::Reference,
                offset: 1,
                value: T + 64,
            },
            stamp_before: None,
            maker: None,
            filled: 0,
            cause: EntryCause::OtherWord(Some(Kind::Data)),
        })),
    ),
    ExplainedDump(
        Whole::Linked,
        &[Change(REFERENCE_OFFSET, 1, 1, 4)],
        Some(Explanation::BadEntry(BadEntryAt {
            page: 0,
            number: 0,
            entry: Entry {
                stamp: 1,
                writer: 0,
                kind: Kind::Reference,
                offset: 4,
                value: T + 64,
            },
            stamp_before: None,
            maker: None,
            filled: 0,
            cause: EntryCause::OtherWord(None),
        })),
    ),
    ExplainedDump(
        Whole::Linked,
        &[Change(HEADER_KIND, 1, 1, 2)],
        Some(Explanation::BadEntry(BadEntryAt {
            page: 1,
            number: 0,
            entry: Entry {
                stamp: 0,
                writer: 0,
                kind: Kind::Data,
                offset: 0,
                value: 0,
            },
            stamp_before: None,
            maker: Some(0),
            filled: 0,
            cause: EntryCause::OtherWord(None),
        })),
    ),
    // A new object with one reference and one data word, and data at the reference: the kind is 2 and the offset 1.
    ExplainedDump(
        Whole::Linked,
        &[
            NONE_ON_0,
            Change(NEW_ENTRIES, 4, 4, 2),
            Change(HEADER_VALUE, 8, 8, 65_537),
            Change(HEADER_END, 0, 8, 1),
            Change(HEADER_END, 0, 11, 66_048),
        ],
        Some(Explanation::BadEntry(BadEntryAt {
            page: 1,
            number: 1,
            entry: Entry {
                stamp: 1,
                writer: 0,
                kind: Kind::Data,
                offset: 1,
                value: 0,
            },
            stamp_before: Some(0),
            maker: Some(0),
            filled: 3,
            cause: EntryCause::OtherWord(Some(Kind::Reference)),
        })),
    ),
    // A reference into an object, and T over it: the writer is 0, the kind 1, the offset 3.
    ExplainedDump(
        Whole::Linked,
        &[
            Change(REFERENCE, 8, 8, T),
            Change(ENTRIES, 4, 4, 2),
            Change(REFERENCE_STAMP, 8, 8, 0),
            Change(REFERENCE_VALUE, 8, 8, T + 1),
            Change(REFERENCE_END, 0, 8, 1),
            Change(REFERENCE_END, 0, 11, (1 << 8) + (3 << 16) + (T << 24)),
            NONE_ON_1,
        ],
        Some(Explanation::BadEntry(BadEntryAt {
            page: 0,
            number: 0,
            entry: Entry {
                stamp: 0,
                writer: 0,
                kind: Kind::Reference,
                offset: 3,
                value: T + 1,
            },
            stamp_before: None,
            maker: None,
            filled: 0,
            cause: EntryCause::LeadsNowhere,
        })),
    ),
    // A reference to an object that was made later.
    ExplainedDump(
        Whole::Linked,
        &[
            Change(REFERENCE_STAMP, 8, 8, 0),
            Change(HEADER_STAMP, 8, 8, 1),
        ],
        Some(Explanation::BadEntry(BadEntryAt {
            page: 0,
            number: 0,
            entry: Entry {
                stamp: 0,
                writer: 0,
                kind: Kind::Reference,
                offset: 3,
                value: T + 64,
            },
            stamp_before: None,
            maker: None,
            filled: 0,
            cause: EntryCause::LeadsAhead(1),
        })),
    ),
];

#[test]
fn an_entry_that_does_not_fit_is_explained_by_its_cause(rt: HostRuntime) {
    expect_explained(&rt, &BAD_ENTRIES);
}

// What is said of a header, and of a reference on a compacted page.
static ENTRIES_WORDED: [WordedExplanation; 2] = [
    WordedExplanation(
        Explanation::BadEntry(BadEntryAt {
            page: 1,
            number: 4,
            entry: Entry {
                stamp: 0,
                writer: 0,
                kind: Kind::Header,
                offset: 1,
                value: 0,
            },
            stamp_before: Some(3),
            maker: Some(0),
            filled: 2,
            cause: EntryCause::StampNotAbove(3),
        }),
        "entry 4 of page 1: stamp 0, writer 0, header, offset 1, value 0\nthe entry before it has stamp 3\nits page is of mutator 0, and the objects before it end at offset 2\nwhy: its stamp is not above 3",
    ),
    WordedExplanation(
        Explanation::BadEntry(BadEntryAt {
            page: 0,
            number: 0,
            entry: Entry {
                stamp: 0,
                writer: 0,
                kind: Kind::Reference,
                offset: 3,
                value: T + 64,
            },
            stamp_before: None,
            maker: None,
            filled: 0,
            cause: EntryCause::LeadsAhead(1),
        }),
        "entry 0 of page 0: stamp 0, writer 0, reference, offset 3, value 8589934656\nits page is compacted\nwhy: it leads to an object whose header has stamp 1",
    ),
];

#[test]
fn explanations_of_entries_are_printed_as_these_lines(rt: HostRuntime) {
    expect_worded(&rt, rt.alloc(), &ENTRIES_WORDED);
}

// How each cause reads.
static CAUSES: [(EntryCause, &str); 9] = [
    (EntryCause::StampNotAbove(7), "its stamp is not above 7"),
    (
        EntryCause::NoFreshPage,
        "it is a header, and its page is not fresh",
    ),
    (
        EntryCause::OtherMaker(1),
        "it is a header, and its page is of mutator 1",
    ),
    (
        EntryCause::NotNext(5),
        "it is a header, and the objects before it end at offset 5",
    ),
    (
        EntryCause::PastPage(65),
        "its object would end at offset 65, past the page",
    ),
    (
        EntryCause::OtherWord(Some(Kind::Weak)),
        "the word at its offset is a weak word",
    ),
    (
        EntryCause::OtherWord(None),
        "the word at its offset belongs to no object",
    ),
    (EntryCause::LeadsNowhere, "no object starts at its value"),
    (
        EntryCause::LeadsAhead(2),
        "it leads to an object whose header has stamp 2",
    ),
];

// Checks how each cause reads.
fn expect_causes(rt: &impl Abort, alloc: Global) {
    for (at, (cause, wanted)) in CAUSES.iter().enumerate() {
        let found = format!(in alloc; "{cause}").expect(rt, "a text");
        expect_eq(rt, At::new("cause", at), found.as_str(), *wanted);
    }
}

#[test]
fn causes_of_entries_are_printed_in_these_words(rt: HostRuntime) {
    expect_causes(&rt, rt.alloc());
}
