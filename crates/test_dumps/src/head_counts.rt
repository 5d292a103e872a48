//! Heads of dumps: counts out of range, and counts that the rest of the dump does not have.
use crate::dump_bytes::{Change, Whole, changed};
use crate::dumps_in_memory::{expect_counts, read};
use crate::expected_reports::{BAD_FIELD, TRUNCATED};
use crate::judged_dumps::{JudgedDump, expect_judged};
use test_support::Worked;

// The version and the numbers of mutators, fresh pages, pages and roots, with nothing after them.
static TOO_LARGE: [JudgedDump; 10] = [
    // No mutator.
    JudgedDump(Whole::Head(0, 0, 0, 0), &[], BAD_FIELD),
    // 65 mutators.
    JudgedDump(Whole::Head(65, 0, 0, 0), &[], BAD_FIELD),
    // 256 mutators.
    JudgedDump(Whole::Head(256, 0, 0, 0), &[], BAD_FIELD),
    // 4,097 fresh pages.
    JudgedDump(Whole::Head(1, 4_097, 20_480, 0), &[], BAD_FIELD),
    // No page, but one fresh page.
    JudgedDump(Whole::Head(1, 1, 0, 0), &[], BAD_FIELD),
    // More fresh pages than pages.
    JudgedDump(Whole::Head(1, 4_096, 4_095, 0), &[], BAD_FIELD),
    // 20,481 pages.
    JudgedDump(Whole::Head(1, 0, 20_481, 0), &[], BAD_FIELD),
    // 4,097 roots.
    JudgedDump(Whole::Head(1, 0, 0, 4_097), &[], BAD_FIELD),
    // The most mutators that the field holds.
    JudgedDump(Whole::Head(4_294_967_295, 0, 0, 0), &[], BAD_FIELD),
    // The most pages that the field holds.
    JudgedDump(Whole::Head(1, 0, 4_294_967_295, 0), &[], BAD_FIELD),
];

#[test]
fn head_counts_out_of_range_are_refused(rt: HostRuntime) {
    expect_judged(&rt, Worked::Three, "too large", &TOO_LARGE);
}

// The largest counts, or some of them, without all that they announce.
static LEFT_OUT: [JudgedDump; 4] = [
    // No root.
    JudgedDump(Whole::Head(64, 4_096, 20_480, 4_096), &[], TRUNCATED),
    // No page.
    JudgedDump(Whole::Head(64, 4_096, 20_480, 0), &[], TRUNCATED),
    // No list.
    JudgedDump(Whole::Head(64, 0, 0, 0), &[], TRUNCATED),
    // No entry.
    JudgedDump(
        Whole::Head(64, 4_096, 20_480, 0),
        // A page that was built, its words, and the number of its entries.
        &[Change(28, 0, 1 + 512, 1), Change(28, 0, 4, 1_024)],
        TRUNCATED,
    ),
];

#[test]
fn a_dump_without_what_its_head_announces_is_truncated(rt: HostRuntime) {
    expect_judged(&rt, Worked::Three, "left out", &LEFT_OUT);
}

// The largest counts.
static LARGEST: Whole = Whole::Head(64, 4_096, 20_480, 4_096);

// After the largest counts: null roots, pages that were never built, empty lists of builds, and 0 live words.
static ALL_ZEROS: [Change; 1] = [Change(28, 0, 8 * 4_096 + 20_480 + 4 * 64 + 8, 0)];

// Mutators, fresh pages, roots, pages and lists of builds.
#[test]
fn a_dump_with_the_largest_counts_is_read(rt: HostRuntime) {
    let bytes = changed(&rt, rt.alloc(), &LARGEST, &ALL_ZEROS);
    let dump = read(rt.alloc(), &bytes).expect(&rt, "a dump");
    expect_counts(&rt, &dump, &[64, 4_096, 4_096, 20_480, 64, 0]);
}
