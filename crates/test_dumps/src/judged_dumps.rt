//! Reports on bytes that are read as a dump, and tables of them.
use crate::dump_bytes::{Change, Whole, changed};
use crate::dumps_in_memory::{read, read_large};
use crate::expected::expect_eq;
use comp_audit::{Dump, DumpFault, Verdict, audit};
use page_plan::Plan;
use std::alloc::Global;
use std::process::Abort;
use std::thread::Threads;
use test_support::{At, Worked, plan_of};

/// The report on bytes: the fault if they are no dump, else the verdict of the audit.
pub type Report = Result<Verdict, DumpFault>;

/// A dump, the changes of it, and the report on the result for the compacted heap of its table.
pub struct JudgedDump(pub Whole, pub &'static [Change], pub Report);

// The verdict of the audit on a dump.
fn judged(alloc: Global, plan: &Plan, dump: &Dump<'_>) -> Report {
    Ok(audit(alloc, plan, dump)?)
}

/// The report on these bytes, read by the call that reads editions one and two.
pub fn report_on(alloc: Global, plan: &Plan, bytes: &[u8]) -> Report {
    match read(alloc, bytes) {
        Ok(dump) => judged(alloc, plan, &dump),
        Err(fault) => Err(fault),
    }
}

/// The report on these bytes, read by the call that reads all editions.
pub fn report_on_large(alloc: Global, plan: &Plan, bytes: &[u8]) -> Report {
    match read_large(alloc, bytes) {
        Ok(dump) => judged(alloc, plan, &dump),
        Err(fault) => Err(fault),
    }
}

/// The report on the bytes of this dump with these changes, which are in order.
pub fn report_on_changed(
    rt: &impl Abort,
    alloc: Global,
    plan: &Plan,
    dump: &Whole,
    changes: &[Change],
) -> Report {
    let bytes = changed(rt, alloc, dump, changes);
    report_on(alloc, plan, &bytes)
}

/// Checks that this dump of `length` bytes is accepted by the audit for this plan.
pub fn expect_yes(rt: &impl Abort, alloc: Global, plan: &Plan, dump: &Dump<'_>, length: usize) {
    let found = judged(alloc, plan, dump);
    expect_eq(
        rt,
        At::new("a dump of bytes", length),
        found,
        Ok(Verdict::Yes),
    );
}

/// Checks all dumps of the table of this name for this heap, which is compacted.
pub fn expect_judged(
    rt: &(impl Abort + AllocGlobal + Threads + Sync),
    heap: Worked,
    name: &str,
    dumps: &[JudgedDump],
) {
    let alloc = rt.alloc();
    let plan = plan_of(rt, alloc, heap).expect(rt, "a plan");
    for (at, JudgedDump(dump, changes, wanted)) in dumps.iter().enumerate() {
        let found = report_on_changed(rt, alloc, &plan, dump, changes);
        expect_eq(rt, At::new(name, at), found, *wanted);
    }
}

/// Checks all dumps of the table of this name, read by the call that reads all editions.
pub fn expect_large_judged(
    rt: &(impl Abort + AllocGlobal + Threads + Sync),
    heap: Worked,
    name: &str,
    dumps: &[JudgedDump],
) {
    let alloc = rt.alloc();
    let plan = plan_of(rt, alloc, heap).expect(rt, "a plan");
    for (at, JudgedDump(dump, changes, wanted)) in dumps.iter().enumerate() {
        let bytes = changed(rt, alloc, dump, changes);
        let found = report_on_large(alloc, &plan, &bytes);
        expect_eq(rt, At::new(name, at), found, *wanted);
    }
}
