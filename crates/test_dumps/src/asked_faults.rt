//! What is said of faults that a dump does not have: only that. The dump is the one after a new object, of three pages,
//! the first of them compacted, and of two entries; the last page was never built.
use crate::dump_bytes::{Whole, encoded};
use crate::dumps_in_memory::read;
use crate::expected::expect_eq;
use comp_audit::{AuditFault, Explanation, explain};
use test_support::{At, T, Worked, plan_of};

static ABSENT: [AuditFault; 19] = [
    // A word of an object, one of a fresh page, one of the page that was never built, and one past all pages.
    AuditFault::WrongWord(T + 1),
    AuditFault::WrongWord(T + 64),
    AuditFault::WrongWord(T + 128),
    AuditFault::WrongWord(T + 192),
    AuditFault::LooseReference(T + 3),
    // Both entries, and entries that there are not.
    AuditFault::BadEntry(0, 0),
    AuditFault::BadEntry(1, 0),
    AuditFault::BadEntry(0, 1),
    AuditFault::BadEntry(9, 0),
    // A stamp that stands once, and one that no entry has.
    AuditFault::StampRepeated(0),
    AuditFault::StampRepeated(2),
    // Both stamps, and one that is not below the number of entries.
    AuditFault::StampMissing(0),
    AuditFault::StampMissing(1),
    AuditFault::StampMissing(2),
    AuditFault::WrongTotal,
    AuditFault::BuildUnclaimed(0),
    AuditFault::BuildUnclaimed(2),
    AuditFault::WrongHead,
    // The page that was never built is a fresh one.
    AuditFault::PageMissing(2),
];

#[test]
fn of_a_fault_that_a_dump_does_not_have_nothing_else_is_said(rt: HostRuntime) {
    let alloc = rt.alloc();
    let plan = plan_of(&rt, alloc, Worked::Three).expect(&rt, "a plan");
    let bytes = encoded(&rt, alloc, &Whole::Linked);
    let dump = read(alloc, &bytes).expect(&rt, "a dump");
    for (at, fault) in ABSENT.iter().enumerate() {
        let found = explain(alloc, &plan, &dump, *fault).expect(&rt, "an explanation");
        expect_eq(&rt, At::new("absent", at), found, Explanation::NoSuchFault);
    }
}
