//! The head of a dump: its edition, the number of its pages, and its roots.
ghost use Rattle.std.specs.Prelude.{◌≡◌, ◌≢◌, IfOk, length, map};
ghost use Rattle.std.specs.Bool.{OnFalse, OnTrue};
ghost use Rattle.heap_layout.specs.Heap.{Heap, live};
ghost use Rattle.page_plan.specs.Sliding.{forwarded_value};
ghost use Rattle.comp_dump.specs.Dumped.{Dumped};
ghost use Rattle.comp_dump.specs.declared.fault.AuditFault.TheVariants as fault;
ghost use Rattle.comp_audit.specs.Explained.{Explains, HasItsPages};

use crate::explanation::{Explanation, HeadCause, RootAt};
use comp_dump::Dump;
use heap_layout::{Edition, OutOfMemory};
use page_plan::Plan;
use std::alloc::Global;

/// What is said of a wrong head. Err if out of memory.
pub fn explain_head(alloc: Global, plan: &Plan, dump: &Dump<'_>) -> Result<Explanation, OutOfMemory>
    ensures { IfOk result (Explains plan.now dump.now fault.WrongHead) }
{
    if differ(dump.edition(), plan.heap().edition()) {
        return Ok(Explanation::WrongHead(HeadCause::Edition(
            dump.edition(),
            plan.heap().edition(),
        )));
    }
    let pages = dump.pages().len() as u64;
    let right_pages = plan.pages() + u64::from(dump.fresh_pages());
    if pages != right_pages {
        return Ok(Explanation::WrongHead(HeadCause::Pages(pages, right_pages)));
    }
    let right_roots = plan.forward_roots(alloc)?;
    Ok(explain_roots(dump.roots(), &right_roots))
}

// Whether two editions differ.
fn differ(one: Edition, other: Edition) -> bool
    ensures differ { OnTrue result (one ≢ other) }
    ensures same { OnFalse result (one ≡ other) }
{
    one != other
}

// What is said of these roots, if the edition and the number of pages are right. `right` are the forwarded roots.
fn explain_roots(roots: &[u64], right: &[u64]) -> Explanation
    ensures { (heap : Heap) (dump : Dumped) → HasItsPages heap dump → dump.roots ≡ roots.now
        → right.now ≡ map (forwarded_value heap.edition (live heap)) heap.roots → Explains heap dump fault.WrongHead result }
{
    if roots.len() != right.len() {
        return Explanation::WrongHead(HeadCause::Roots(roots.len() as u64, right.len() as u64));
    }
    for (number, &is) in roots.iter().enumerate() {
        if is != right[number] {
            return Explanation::WrongHead(HeadCause::Root(RootAt {
                number: number as u64,
                is,
                should_be: right[number],
            }));
        }
    }
    Explanation::NoSuchFault
}
