//! The audit of a dump: its verdict is yes if the checks find no fault, else the first fault.
ghost use Rattle.std.specs.Prelude.{IfOk};
ghost use Rattle.comp_audit.specs.Judged.{faults, missing_pages, whole_faults, Judges};

use crate::checks::{CheckEnd, Setting, check};
use crate::verdict::Verdict;
use comp_dump::{AuditFault, Dump, DumpedPages};
use heap_layout::OutOfMemory;
use page_plan::Plan;
use std::alloc::Global;

/// Whether a compaction by this plan can have left the dump: yes, or the first fault.
///
/// Faults count in the order of the checks: the head (edition, pages, roots), the builds, each entry after those before
/// it on its page, the words, the references and weak words, repeated stamps, missing stamps, the age of the objects to
/// which entries lead, and the total. Within a check the least page, entry, address or stamp counts first. It fails
/// only if memory runs out.
pub fn audit(alloc: Global, plan: &Plan, dump: &Dump<'_>) -> Result<Verdict, OutOfMemory>
    ensures { IfOk result (Judges (faults plan.now dump.now)) }
{
    match check(alloc, Setting { plan, dump }) {
        Ok(()) => Ok(Verdict::Yes),
        Err(CheckEnd::Fault(fault)) => Ok(Verdict::No(fault)),
        Err(CheckEnd::OutOfMemory) => Err(OutOfMemory),
    }
}

/// Whether a compaction by this plan can have left the dump with each compacted page built: yes, or the first fault.
///
/// The faults are those of `audit`, in its order, and after them the compacted pages that were never built
/// (`PageMissing`), the least first. It fails only if memory runs out.
pub fn audit_whole(alloc: Global, plan: &Plan, dump: &Dump<'_>) -> Result<Verdict, OutOfMemory>
    ensures { IfOk result (Judges (whole_faults plan.now dump.now)) }
{
    match audit(alloc, plan, dump)? {
        Verdict::Yes => Ok(missing_page(plan.pages(), dump.pages())),
        Verdict::No(fault) => Ok(Verdict::No(fault)),
    }
}

// Whether each of the first `count` pages was built.
fn missing_page(count: u64, records: &DumpedPages<'_>) -> Verdict
    ensures { Judges (missing_pages count records.now) result }
{
    for p in 0..count {
        if records.page(p as usize).is_none() {
            return Verdict::No(AuditFault::PageMissing(p));
        }
    }
    Verdict::Yes
}
