//! Dumps of worked heaps, written and read.
use crate::dump_bytes::Whole;
use crate::dumped_runs::{AnsweredCall, Call, DumpedRun, expect_run};
use crate::dumps_in_memory::{PageParts, expect_counts, page_parts};
use crate::expected::expect_eq;
use crate::large_dump_bytes::{DATA, FRESH, WEAK};
use comp_audit::Dump;
use comp_journal::Entry;
use heap_layout::{Header, Kind};
use std::process::Abort;
use test_support::{At, F, T, Worked, page_words};

static RUNS: [DumpedRun; 11] = [
    // The empty heap, and two mutators that do nothing.
    DumpedRun {
        name: "an empty heap",
        heap: Worked::Empty,
        mutators: 2,
        fresh_pages: 0,
        calls: &[],
        last_first: false,
        length: 44,
        parts: Whole::Nothing,
    },
    // The smallest heap. Its one mutator touches its page.
    DumpedRun {
        name: "the smallest heap",
        heap: Worked::Smallest,
        mutators: 1,
        fresh_pages: 0,
        calls: &[
            AnsweredCall(0, Call::Pages, 1),
            AnsweredCall(0, Call::Touch(0), 1),
        ],
        last_first: false,
        length: 569,
        parts: Whole::Touched,
    },
    // The three objects and two fresh pages. The one mutator stores a new object of one word in the last.
    DumpedRun {
        name: "a reference to a new object",
        heap: Worked::Three,
        mutators: 1,
        fresh_pages: 2,
        calls: &[
            AnsweredCall(0, Call::Alloc, T + 64),
            AnsweredCall(0, Call::WriteRef(T + 2, 0, T + 64), 1),
        ],
        last_first: false,
        length: 1_129,
        parts: Whole::Linked,
    },
    // The three objects and 64 fresh pages. The first of two mutators loads an address from the last object and writes
    // 7 into the object there; the second one does the same and reads 7.
    DumpedRun {
        name: "what one of two put",
        heap: Worked::Three,
        mutators: 2,
        fresh_pages: 64,
        calls: &[
            AnsweredCall(0, Call::ReadRef(T + 2, 0), T),
            AnsweredCall(0, Call::WriteData(T, 0, 7), 0),
            AnsweredCall(1, Call::ReadRef(T + 2, 0), T),
            AnsweredCall(1, Call::ReadData(T, 0), 7),
        ],
        last_first: true,
        length: 656,
        parts: Whole::Put,
    },
    // One mutator alone writes a number that looks like an address of from-space into the first of the three objects,
    // and reads it.
    DumpedRun {
        name: "what looks like an address",
        heap: Worked::Three,
        mutators: 1,
        fresh_pages: 0,
        calls: &[
            AnsweredCall(0, Call::WriteData(T, 0, F), 0),
            AnsweredCall(0, Call::ReadData(T, 0), F),
        ],
        last_first: false,
        length: 588,
        parts: Whole::Address,
    },
    // Two objects of 640 words each: twenty pages. The two mutators build the regions in turn.
    DumpedRun {
        name: "twenty pages",
        heap: Worked::Twenty,
        mutators: 2,
        fresh_pages: 0,
        calls: &[
            AnsweredCall(0, Call::Touch(0), 1),
            AnsweredCall(0, Call::Touch(1), 1),
            AnsweredCall(0, Call::Touch(2), 1),
            AnsweredCall(0, Call::Touch(3), 1),
            AnsweredCall(0, Call::Touch(4), 1),
            AnsweredCall(0, Call::Touch(5), 1),
            AnsweredCall(0, Call::Touch(6), 1),
            AnsweredCall(0, Call::Touch(7), 1),
            AnsweredCall(1, Call::Touch(8), 1),
            AnsweredCall(1, Call::Touch(9), 1),
            AnsweredCall(1, Call::Touch(10), 1),
            AnsweredCall(1, Call::Touch(11), 1),
            AnsweredCall(1, Call::Touch(12), 1),
            AnsweredCall(1, Call::Touch(13), 1),
            AnsweredCall(1, Call::Touch(14), 1),
            AnsweredCall(1, Call::Touch(15), 1),
            AnsweredCall(0, Call::Touch(16), 1),
            AnsweredCall(0, Call::Touch(17), 1),
            AnsweredCall(0, Call::Touch(18), 1),
            AnsweredCall(0, Call::Touch(19), 1),
        ],
        last_first: true,
        length: 10_464,
        parts: Whole::Twenty,
    },
    // The three objects of edition two. Their one mutator touches their page.
    DumpedRun {
        name: "the three objects of edition two",
        heap: Worked::Weak,
        mutators: 1,
        fresh_pages: 0,
        calls: &[AnsweredCall(0, Call::Touch(0), 1)],
        last_first: false,
        length: 569,
        parts: Whole::WeakTouched,
    },
    // Their one mutator makes a new object with a weak word, writes its address into a weak word of the first, and the
    // address of the first into its weak word.
    DumpedRun {
        name: "weak words that are written",
        heap: Worked::Weak,
        mutators: 1,
        fresh_pages: 1,
        calls: &[
            AnsweredCall(0, Call::AllocWeak, T + 64),
            AnsweredCall(0, Call::WriteWeak(T, 0, T + 64), 1),
            AnsweredCall(0, Call::WriteWeak(T + 64, 0, T), 2),
            AnsweredCall(0, Call::ReadWeak(T, 0), T + 64),
            AnsweredCall(0, Call::ReadWeak(T, 1), T + 4),
        ],
        last_first: false,
        length: 1_147,
        parts: Whole::WeakLinked,
    },
    // The three objects of edition two in edition three. Their one mutator touches their page.
    DumpedRun {
        name: "the three objects of edition three",
        heap: Worked::Mixed,
        mutators: 1,
        fresh_pages: 0,
        calls: &[AnsweredCall(0, Call::Touch(0), 1)],
        last_first: false,
        length: 569,
        parts: Whole::MixedTouched,
    },
    // The heap with many fields, and one fresh page. The second of two mutators writes the last data word; the first
    // one makes a new object and writes its address into the last weak word.
    DumpedRun {
        name: "many fields that are written",
        heap: Worked::ManyFields,
        mutators: 2,
        fresh_pages: 1,
        calls: &[
            AnsweredCall(0, Call::Pages, 3_283),
            AnsweredCall(0, Call::Touch(1_024), 1),
            AnsweredCall(0, Call::ReadAt(Kind::Reference, T, 65_536), T),
            AnsweredCall(1, Call::WriteAt(Kind::Data, DATA, 69_999, 77), 0),
            AnsweredCall(1, Call::ReadAt(Kind::Data, DATA, 69_999), 77),
            AnsweredCall(0, Call::Alloc, T + 210_048),
            AnsweredCall(0, Call::WriteAt(Kind::Weak, WEAK, 69_999, FRESH), 2),
            AnsweredCall(0, Call::ReadAt(Kind::Weak, WEAK, 69_999), T + 210_048),
        ],
        last_first: true,
        length: 5_488,
        parts: Whole::ManyWritten,
    },
    // The heap with many fields. Its one mutator touches all pages.
    DumpedRun {
        name: "many fields",
        heap: Worked::ManyFields,
        mutators: 1,
        fresh_pages: 0,
        calls: &[
            AnsweredCall(0, Call::TouchAll, 3_282),
            AnsweredCall(0, Call::Touch(3_281), 0),
        ],
        last_first: false,
        length: 1_709_986,
        parts: Whole::ManySwept,
    },
];

#[test]
fn dumps_of_worked_heaps_have_these_bytes(rt: HostRuntime) {
    for run in &RUNS {
        expect_run(&rt, rt.alloc(), run);
    }
}

static STORED: [Entry; 1] = [Entry {
    stamp: 1,
    writer: 0,
    kind: Kind::Reference,
    offset: 3,
    value: T + 64,
}];

// The words of page 0 that are not 0, which come first.
fn stored_words() -> [u64; 4] {
    [
        Header::new(0, 1, 1).word(),
        11,
        Header::new(1, 0, 3).word(),
        T + 64,
    ]
}

static MADE: [Entry; 1] = [Entry {
    stamp: 0,
    writer: 0,
    kind: Kind::Header,
    offset: 0,
    value: 0,
}];

// The words and the journal of each page.
fn linked_pages() -> [Option<PageParts<'static>>; 3] {
    [
        Some((page_words(&stored_words()), &STORED)),
        Some((page_words(&[]), &MADE)),
        None,
    ]
}

/// Checks the dump of the three objects, of which the last refers to a new one on the first of two fresh pages. Its one
/// list of builds has page 1 and page 0.
pub fn expect_linked(rt: &impl Abort, dump: &Dump<'_>) {
    expect_counts(rt, dump, &[1, 2, 1, 3, 1, 5]);
    expect_eq(rt, At::new("roots", 0), dump.roots(), [T + 2].as_slice());
    let built = dump.builds().first().expect(rt, "builds");
    expect_eq(
        rt,
        At::new("builds", 0),
        built.as_slice(),
        [1, 0].as_slice(),
    );
    for (page, wanted) in linked_pages().iter().enumerate() {
        expect_eq(rt, At::new("page", page), page_parts(dump, page), *wanted);
    }
}
