//! Fields after the head of a dump that are out of range, and the printed refusals.
use crate::dump_bytes::{Change, REST, Whole};
use crate::expected::expect_eq;
use crate::expected_reports::{BAD_FIELD, TRUNCATED};
use crate::judged_dumps::{JudgedDump, expect_judged, report_on_changed};
use comp_audit::{AuditFault, DumpFault, Verdict};
use page_plan::Plan;
use std::alloc::Global;
use std::process::Abort;
use test_support::{At, Worked, plan_of};

// A number in a field: a dump, the position of the field, its number of bytes, and the number, which is out of range.
struct FieldOutOfRange(Whole, usize, usize, u64);

static FIELDS: [FieldOutOfRange; 16] = [
    // Neither built nor not built.
    FieldOutOfRange(Whole::Linked, 36, 1, 2),
    // 1,025 entries.
    FieldOutOfRange(Whole::Linked, 549, 4, 1_025),
    // The writer is no mutator.
    FieldOutOfRange(Whole::Linked, 561, 1, 1),
    // Kinds 3 and 9.
    FieldOutOfRange(Whole::Linked, 562, 1, 3),
    FieldOutOfRange(Whole::Linked, 562, 1, 9),
    // Kinds 4 and 255 in edition two, of the entries of both pages.
    FieldOutOfRange(Whole::WeakLinked, 562, 1, 4),
    FieldOutOfRange(Whole::WeakLinked, 562, 1, 255),
    FieldOutOfRange(Whole::WeakLinked, 1_098, 1, 4),
    FieldOutOfRange(Whole::WeakLinked, 1_117, 1, 4),
    // Offset 64.
    FieldOutOfRange(Whole::Linked, 563, 1, 64),
    // A flag of the last page that is out of range.
    FieldOutOfRange(Whole::Linked, 1_108, 1, 255),
    // 4 builds of 3 pages.
    FieldOutOfRange(Whole::Linked, 1_109, 4, 4),
    // A build of page 3, and of one far beyond.
    FieldOutOfRange(Whole::Linked, 1_113, 4, 3),
    FieldOutOfRange(Whole::Linked, 1_117, 4, 16_777_216),
    // The writer is none of two mutators.
    FieldOutOfRange(Whole::Put, 561, 1, 2),
    // 66 builds of 65 pages.
    FieldOutOfRange(Whole::Put, 644, 4, 66),
];

// Checks that a dump with such a number is refused as soon as the field is complete, whatever follows, and no sooner.
fn expect_fields(rt: &impl Abort, alloc: Global, plan: &Plan) {
    for FieldOutOfRange(dump, at, size, number) in &FIELDS {
        let (at, size, number) = (*at, *size, *number);
        let among = [Change(at, size, size, number)];
        let found = report_on_changed(rt, alloc, plan, dump, &among);
        expect_eq(rt, At::new("field at", at), found, BAD_FIELD);
        let last = [Change(at, REST, size, number)];
        let found = report_on_changed(rt, alloc, plan, dump, &last);
        expect_eq(rt, At::new("last field at", at), found, BAD_FIELD);
        let short = [Change(at, REST, size.saturating_sub(1), number)];
        let found = report_on_changed(rt, alloc, plan, dump, &short);
        expect_eq(rt, At::new("field cut at", at), found, TRUNCATED);
    }
}

#[test]
fn a_field_out_of_range_is_refused_as_soon_as_it_is_complete(rt: HostRuntime) {
    let plan = plan_of(&rt, rt.alloc(), Worked::Three).expect(&rt, "a plan");
    expect_fields(&rt, rt.alloc(), &plan);
}

// The writer, the offset and the page of the one build are the last in range. The bytes are a dump, of which one page
// is in no list of builds.
static LAST_IN_RANGE: [JudgedDump; 1] = [JudgedDump(
    Whole::Put,
    &[
        Change(561, 1, 1, 1),
        Change(563, 1, 1, 63),
        Change(640, 1, 1, 64),
    ],
    Ok(Verdict::No(AuditFault::BuildUnclaimed(0))),
)];

#[test]
fn fields_that_are_the_last_in_range_are_read(rt: HostRuntime) {
    expect_judged(&rt, Worked::Three, "last in range", &LAST_IN_RANGE);
}

static TEXTS: [(DumpFault, &str); 6] = [
    (DumpFault::Truncated, "B1 Truncated"),
    (DumpFault::TrailingBytes, "B2 TrailingBytes"),
    (DumpFault::BadMagic, "B3 BadMagic"),
    (DumpFault::BadField, "B4 BadField"),
    (DumpFault::OutOfMemory, "B5 OutOfMemory"),
    (DumpFault::Device, "B6 Device"),
];

fn expect_text(rt: &impl Abort, alloc: Global, fault: DumpFault, text: &str) {
    let printed = fault.to_string(alloc).expect(rt, "memory");
    expect_eq(rt, At::new("printed faults", 0), printed.as_str(), text);
}

#[test]
fn dump_faults_are_printed_with_number_and_name(rt: HostRuntime) {
    for (fault, text) in &TEXTS {
        expect_text(&rt, rt.alloc(), *fault, text);
    }
}
