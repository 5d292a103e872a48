//! What the audit says of a heap that was finished.
ghost use Rattle.std.specs.Prelude.{◌≡◌, IfSome};
ghost use Rattle.comp_audit.specs.declared.verdict.Verdict.TheVariants.{Yes};
ghost use Rattle.comp_mutator.specs.Mutators.{setup_of, AreMutatorsOf};

use comp_audit::{Dump, Verdict, audit};
use comp_mutator::{Builder, Mutator, Space};
use page_plan::Plan;
use std::alloc::Global;
use std::sync::ledger::Ledger as Named;

/// Finishes a heap, and audits its dump by the plan of the same heap. If all succeed, the verdict is yes.
pub fn finish_and_audit<L: Named, B: Builder>(
    alloc: Global,
    plan: &Plan,
    space: Space<L, B>,
    mutators: Vec<Mutator<L>>,
    count: u8,
    fresh: u32,
) -> Option<Verdict>
    requires of { AreMutatorsOf space mutators.items }
    requires whole { (setup_of space).mutators ≡ L.parts }
    requires heap { (setup_of space).heap ≡ plan.now }
    requires count { (setup_of space).mutators ≡ count }
    requires fresh { (setup_of space).fresh ≡ fresh }
    ensures yes { IfSome result (λ verdict. verdict ≡ Yes) }
{
    let Ok(finished) = space.finish(alloc, mutators) else {
        return None;
    };
    let Ok(dump) = Dump::of(alloc, &finished, count, fresh) else {
        return None;
    };
    page_plan::heap_is_closed(plan);
    comp_audit::lawful_is_yes();
    // For the proof alone: the numbers of a dump are in the ranges of its fields.
    let _words = dump.live_words();
    match audit(alloc, plan, &dump) {
        Ok(verdict) => Some(verdict),
        Err(_) => None,
    }
}
