//! Audits of finished heaps.
ghost use Rattle.std.specs.Prelude.{◌≡◌};
ghost use Rattle.comp_mutator.specs.Finishes.{IsOfFlip};
ghost use Rattle.comp_mutator.specs.Mutators.{setup_of, AreMutatorsOf};

use crate::expected::expect_eq;
use crate::text_runs::TextRun;
use comp_audit::{Dump, Verdict, audit};
use comp_mutator::{Builder, Finished, Mutator, Space};
use page_plan::Plan;
use std::alloc::Global;
use std::process::Abort;
use std::sync::ledger::Ledger;
use test_support::At;

// Panics unless the audit accepts the dump of a finished heap that this plan compacted.
fn expect_lawful(rt: &impl Abort, alloc: Global, plan: &Plan, finished: &Finished, case: TextRun)
    requires { IsOfFlip case.mutators case.fresh_pages finished.now }
{
    let dump = Dump::of(alloc, finished, case.mutators, case.fresh_pages).expect(rt, case.name);
    let verdict = audit(alloc, plan, &dump).expect(rt, case.name);
    expect_eq(rt, At::new(case.name, 0), verdict, Verdict::Yes);
}

/// Finishes a heap with all its mutators. Panics unless the audit for this plan accepts it.
pub fn finish_lawfully<L: Ledger, B: Builder>(
    rt: &impl Abort,
    alloc: Global,
    case: TextRun,
    plan: &Plan,
    space: Space<L, B>,
    mutators: Vec<Mutator<L>>,
) -> Finished
    requires of { AreMutatorsOf space mutators.items }
    requires whole { (setup_of space).mutators ≡ L.parts }
    requires mutators { (setup_of space).mutators ≡ case.mutators }
    requires fresh { (setup_of space).fresh ≡ case.fresh_pages }
{
    let finished = match space.finish(alloc, mutators) {
        Ok(finished) => finished,
        Err(_unfinished) => rt.panic(case.name),
    };
    expect_lawful(rt, alloc, plan, &finished, case);
    finished
}
