//! What is said of a fault of a dump, with numbers.
ghost use Rattle.std.specs.Prelude.{IfOk};
ghost use Rattle.comp_audit.specs.Explained.{Explains};

mod causes;
mod claims;
mod entries;
mod heads;
mod made;
mod objects;
mod stamps;
mod sums;
mod words;

use crate::explanation::Explanation;
use comp_dump::{AuditFault, Dump};
use heap_layout::OutOfMemory;
use page_plan::Plan;
use std::alloc::Global;
pub use sums::count;

/// What is wrong, if the dump has this fault: what is in the dump, and what should be there. `NoSuchFault` if and only
/// if the dump does not have it: see `Explains`. It takes time in proportion to the dump and the heap, and copies one
/// page. Err if out of memory.
pub fn explain(
    alloc: Global,
    plan: &Plan,
    dump: &Dump<'_>,
    fault: AuditFault,
) -> Result<Explanation, OutOfMemory>
    ensures { IfOk result (Explains plan.now dump.now fault) }
{
    match fault {
        AuditFault::WrongWord(address) => words::explain_word(alloc, plan, dump, address),
        AuditFault::LooseReference(address) => Ok(words::explain_loose(plan, dump, address)),
        AuditFault::BadEntry(page, number) => Ok(entries::explain_entry(plan, dump, page, number)),
        AuditFault::StampRepeated(stamp) => Ok(stamps::explain_repeated(dump, stamp)),
        AuditFault::StampMissing(stamp) => Ok(stamps::explain_missing(dump, stamp)),
        AuditFault::WrongTotal => Ok(sums::explain_total(plan, dump)),
        AuditFault::BuildUnclaimed(page) => Ok(claims::explain_claims(dump, page)),
        AuditFault::WrongHead => heads::explain_head(alloc, plan, dump),
        AuditFault::PageMissing(page) => Ok(claims::explain_missing_page(plan, dump, page)),
    }
}
