//! Dumps that end early or late, and dumps with another magic or version.
use crate::dump_bytes::{Change, Whole, encoded};
use crate::expected::expect_eq;
use crate::expected_reports::{BAD_MAGIC, TOO_LONG};
use crate::judged_dumps::{JudgedDump, expect_judged, report_on};
use comp_audit::DumpFault;
use page_plan::Plan;
use std::alloc::Global;
use std::process::Abort;
use test_support::{At, Worked, plan_of};

// Checks that each proper beginning of a dump of `length` bytes is refused as truncated.
fn expect_truncated(rt: &impl Abort, alloc: Global, plan: &Plan, bytes: &[u8], length: usize) {
    expect_eq(rt, At::new("bytes", length), bytes.len(), length);
    for n in 0..bytes.len() {
        let cut = report_on(alloc, plan, &bytes[..n]);
        expect_eq(
            rt,
            At::new("a beginning", n),
            cut,
            Err(DumpFault::Truncated),
        );
    }
}

// Each beginning of the dump of the smallest heap, of that after a new object, and of one of edition two.
#[test]
fn each_beginning_of_a_dump_is_truncated(rt: HostRuntime) {
    let alloc = rt.alloc();
    let plan = plan_of(&rt, alloc, Worked::Three).expect(&rt, "a plan");
    let smallest = encoded(&rt, alloc, &Whole::Smallest);
    expect_truncated(&rt, alloc, &plan, &smallest, 569);
    let linked = encoded(&rt, alloc, &Whole::Linked);
    expect_truncated(&rt, alloc, &plan, &linked, 1_129);
    let weak = encoded(&rt, alloc, &Whole::WeakLinked);
    expect_truncated(&rt, alloc, &plan, &weak, 1_147);
}

// Dumps with one byte more.
static LONGER: [JudgedDump; 3] = [
    // One byte more after the smallest heap.
    JudgedDump(Whole::Smallest, &[Change(569, 0, 1, 0)], TOO_LONG),
    // One byte more after the new object.
    JudgedDump(Whole::Linked, &[Change(1_129, 0, 1, 0)], TOO_LONG),
    // One byte more after weak words.
    JudgedDump(Whole::WeakLinked, &[Change(1_147, 0, 1, 0)], TOO_LONG),
];

#[test]
fn a_dump_with_a_byte_more_is_refused(rt: HostRuntime) {
    expect_judged(&rt, Worked::Three, "longer", &LONGER);
}

// Each byte of the magic and of the version with bit 3 changed, and the versions just outside the range.
static OTHER_MAGICS: [JudgedDump; 15] = [
    JudgedDump(Whole::Smallest, &[Change(0, 1, 1, 75)], BAD_MAGIC),
    JudgedDump(Whole::Smallest, &[Change(1, 1, 1, 71)], BAD_MAGIC),
    JudgedDump(Whole::Smallest, &[Change(2, 1, 1, 69)], BAD_MAGIC),
    JudgedDump(Whole::Smallest, &[Change(3, 1, 1, 88)], BAD_MAGIC),
    JudgedDump(Whole::Smallest, &[Change(4, 1, 1, 76)], BAD_MAGIC),
    JudgedDump(Whole::Smallest, &[Change(5, 1, 1, 93)], BAD_MAGIC),
    JudgedDump(Whole::Smallest, &[Change(6, 1, 1, 69)], BAD_MAGIC),
    JudgedDump(Whole::Smallest, &[Change(7, 1, 1, 88)], BAD_MAGIC),
    JudgedDump(Whole::Smallest, &[Change(8, 1, 1, 9)], BAD_MAGIC),
    JudgedDump(Whole::Smallest, &[Change(9, 1, 1, 8)], BAD_MAGIC),
    JudgedDump(Whole::Smallest, &[Change(10, 1, 1, 8)], BAD_MAGIC),
    JudgedDump(Whole::Smallest, &[Change(11, 1, 1, 8)], BAD_MAGIC),
    // Versions 0 and 3.
    JudgedDump(Whole::Smallest, &[Change(8, 4, 4, 0)], BAD_MAGIC),
    JudgedDump(Whole::Smallest, &[Change(8, 4, 4, 3)], BAD_MAGIC),
    JudgedDump(Whole::WeakLinked, &[Change(8, 4, 4, 3)], BAD_MAGIC),
];

#[test]
fn a_dump_with_another_magic_or_version_is_refused(rt: HostRuntime) {
    expect_judged(&rt, Worked::Three, "others", &OTHER_MAGICS);
}
