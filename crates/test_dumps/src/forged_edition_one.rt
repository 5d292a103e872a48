//! The dump after a new object, with some fields changed, and the fault of each.
use crate::dump_bytes::{Change, PAGE_1, PAGE_1_AND_TWO, PAGES_0_AND_2, Whole};
use crate::expected_reports::{
    BAD_HEADER, BAD_SLID, MISSING_1, REPEATED_0, UNCLAIMED_0, WRONG_HEAD, WRONG_TOTAL,
    WRONG_WORD_1, YES,
};
use crate::judged_dumps::{JudgedDump, Report, expect_judged};
use comp_audit::{AuditFault, DumpFault, Verdict};
use heap_layout::TO_SPACE as T;
use test_support::{
    FIRST_DATA, HEADER_OFFSET, HEADER_STAMP, LAST_PAGE, LAST_WORD, REFERENCE, REFERENCE_STAMP,
    REFERENCE_VALUE, ROOT, TOTAL, VERSION, Worked,
};

// The positions of its fields.
const FRESH: usize = 16;

const BUILDS: usize = 1_109;

const END: usize = 1_129;

// Reports that no other file expects.
const UNCLAIMED_2: Report = Ok(Verdict::No(AuditFault::BuildUnclaimed(2)));

const WRONG_LAST: Report = Ok(Verdict::No(AuditFault::WrongWord(T + 63)));

const LOOSE: Report = Ok(Verdict::No(AuditFault::LooseReference(T + 3)));

// The root is null.
const NULL_ROOT: Change = Change(ROOT, 8, 8, 0);

const ONE_FRESH: Change = Change(FRESH, 1, 1, 1);

const DATA_12: Change = Change(FIRST_DATA, 8, 8, 12);

// A word after all objects.
const LAST_1: Change = Change(LAST_WORD, 8, 8, 1);

// A reference into an object, and its entry.
const INNER: Change = Change(REFERENCE, 8, 8, T + 1);

const INNER_VALUE: Change = Change(REFERENCE_VALUE, 8, 8, T + 1);

const LINK_0: Change = Change(REFERENCE_STAMP, 8, 8, 0);

const LINK_2: Change = Change(REFERENCE_STAMP, 8, 8, 2);

const LINK_MAX: Change = Change(REFERENCE_STAMP, 8, 8, u64::MAX);

const HEADER_1: Change = Change(HEADER_STAMP, 8, 8, 1);

const HEADER_2: Change = Change(HEADER_STAMP, 8, 8, 2);

// The header stands in word 1 of its page.
const GAP: Change = Change(HEADER_OFFSET, 1, 1, 1);

// Both builds are of page 0.
const CLAIM_0: Change = Change(BUILDS + 4, 1, 1, 0);

const TOTAL_4: Change = Change(TOTAL, 8, 8, 4);

const TOTAL_6: Change = Change(TOTAL, 8, 8, 6);

// The dump as it is, and with each kind of fault but that of the lists of builds.
static FORGED: [JudgedDump; 14] = [
    // No change.
    JudgedDump(Whole::Linked, &[], YES),
    // Head: the root is null.
    JudgedDump(Whole::Linked, &[NULL_ROOT], WRONG_HEAD),
    // Head: one fresh page.
    JudgedDump(Whole::Linked, &[ONE_FRESH], WRONG_HEAD),
    // Entry: a gap before it.
    JudgedDump(Whole::Linked, &[GAP], BAD_HEADER),
    // Word: 12 for 11.
    JudgedDump(Whole::Linked, &[DATA_12], WRONG_WORD_1),
    // Word: 1 after all objects.
    JudgedDump(Whole::Linked, &[LAST_1], WRONG_LAST),
    // Reference into an object.
    JudgedDump(Whole::Linked, &[INNER, INNER_VALUE], LOOSE),
    // Stamps 0 and 0.
    JudgedDump(Whole::Linked, &[LINK_0], REPEATED_0),
    // Stamps 0 and 2.
    JudgedDump(Whole::Linked, &[LINK_2], MISSING_1),
    // Stamps 2 and 0.
    JudgedDump(Whole::Linked, &[LINK_0, HEADER_2], MISSING_1),
    // Stamps 0 and the largest.
    JudgedDump(Whole::Linked, &[LINK_MAX], MISSING_1),
    // A reference to an object that was made later.
    JudgedDump(Whole::Linked, &[LINK_0, HEADER_1], BAD_SLID),
    // Total: 6 for 5.
    JudgedDump(Whole::Linked, &[TOTAL_6], WRONG_TOTAL),
    // Total: only the words that slid.
    JudgedDump(Whole::Linked, &[TOTAL_4], WRONG_TOTAL),
];

#[test]
fn a_forged_dump_is_refused_for_its_fault(rt: HostRuntime) {
    expect_judged(&rt, Worked::Three, "forged", &FORGED);
}

// Lists of builds that have a built page not once, or a page that was never built.
static CLAIMED: [JudgedDump; 4] = [
    // A page left out.
    JudgedDump(Whole::Linked, &[Change(BUILDS, 12, 8, PAGE_1)], UNCLAIMED_0),
    // A page that was never built.
    JudgedDump(
        Whole::Linked,
        &[
            Change(BUILDS, 12, 8, PAGE_1_AND_TWO),
            Change(BUILDS + 12, 0, 8, PAGES_0_AND_2),
        ],
        UNCLAIMED_2,
    ),
    // A page twice.
    JudgedDump(
        Whole::Linked,
        &[
            Change(BUILDS, 12, 8, PAGE_1_AND_TWO),
            Change(BUILDS + 12, 0, 8, 0),
        ],
        UNCLAIMED_0,
    ),
    // No page.
    JudgedDump(Whole::Linked, &[Change(BUILDS, 12, 4, 0)], UNCLAIMED_0),
];

#[test]
fn lists_that_do_not_have_each_built_page_once_are_refused(rt: HostRuntime) {
    expect_judged(&rt, Worked::Three, "claimed", &CLAIMED);
}

// Of two faults, the one that is checked first is reported.
static FIRST_OF_TWO: [JudgedDump; 6] = [
    // Head, total.
    JudgedDump(Whole::Linked, &[NULL_ROOT, TOTAL_6], WRONG_HEAD),
    // Build, entry.
    JudgedDump(Whole::Linked, &[GAP, CLAIM_0], UNCLAIMED_0),
    // Entry, word.
    JudgedDump(Whole::Linked, &[LAST_1, GAP], BAD_HEADER),
    // Word, stamp.
    JudgedDump(Whole::Linked, &[LAST_1, LINK_0], WRONG_LAST),
    // Repeated, total.
    JudgedDump(Whole::Linked, &[LINK_0, TOTAL_6], REPEATED_0),
    // Missing, total.
    JudgedDump(Whole::Linked, &[LINK_2, TOTAL_6], MISSING_1),
];

#[test]
fn of_two_faults_the_first_one_is_reported(rt: HostRuntime) {
    expect_judged(&rt, Worked::Three, "first of two", &FIRST_OF_TWO);
}

// Bytes that are no dump.
static NO_DUMPS: [JudgedDump; 4] = [
    // The last byte left out.
    JudgedDump(
        Whole::Linked,
        &[Change(END - 1, 1, 0, 0)],
        Err(DumpFault::Truncated),
    ),
    // One byte more.
    JudgedDump(
        Whole::Linked,
        &[Change(END, 0, 1, 0)],
        Err(DumpFault::TrailingBytes),
    ),
    // Version 9.
    JudgedDump(
        Whole::Linked,
        &[Change(VERSION, 1, 1, 9)],
        Err(DumpFault::BadMagic),
    ),
    // Neither built nor not built.
    JudgedDump(
        Whole::Linked,
        &[Change(LAST_PAGE, 1, 1, 2)],
        Err(DumpFault::BadField),
    ),
];

#[test]
fn bytes_that_are_no_dump_are_refused(rt: HostRuntime) {
    expect_judged(&rt, Worked::Three, "no dumps", &NO_DUMPS);
}
