//! One fight, from the flip to the audit.
ghost use Rattle.std.specs.Prelude.{◌≡◌};
ghost use Rattle.comp_mutator.specs.Finishes.{IsOfFlip};
ghost use Rattle.comp_mutator.specs.Mutators.{setup_of, AreMutatorsOf};

use crate::contention::fights::Fight;
use crate::contention::left_journals::expect_page;
use crate::contention::racing_writes::{count_entries, expect_full, write_at_once};
use crate::expected::expect_eq;
use comp_audit::{Dump, Verdict, audit};
use comp_mutator::{Finished, Mutator, Space, flip};
use page_plan::Plan;
use std::alloc::Global;
use std::process::Abort;
use std::sync::ledger::{Blank, Ledger as Named};
use std::sync::{Arc, Wait};
use std::thread::Threads;

// Panics unless the audit accepts the dump of the finished heap.
fn expect_lawful(rt: &impl Abort, alloc: Global, plan: &Plan, finished: &Finished, fight: Fight)
    requires { IsOfFlip fight.mutators 0 finished.now }
{
    let dump = Dump::of(alloc, finished, fight.mutators, 0).expect(rt, fight.name);
    let verdict = audit(alloc, plan, &dump).expect(rt, fight.name);
    expect_eq(rt, fight.at(0), verdict, Verdict::Yes);
}

// Finishes the heap, and panics unless it has all that was written.
fn end<L: Named>(
    rt: &impl Abort,
    alloc: Global,
    space: Space<L, Plan>,
    mutators: Vec<Mutator<L>>,
    plan: &Plan,
    fight: Fight,
)
    requires of { AreMutatorsOf space mutators.items }
    requires whole { (setup_of space).mutators ≡ L.parts }
    requires mutators { (setup_of space).mutators ≡ fight.mutators }
    requires fresh { (setup_of space).fresh ≡ 0 }
{
    let entries = count_entries(&mutators);
    let finished = match space.finish(alloc, mutators) {
        Ok(finished) => finished,
        Err(_unfinished) => rt.panic(fight.name),
    };
    expect_page(rt, &finished, entries, fight);
    expect_lawful(rt, alloc, plan, &finished, fight);
}

/// Flips the heap, lets all mutators write at once, finishes, dumps and audits.
pub fn fight_named<L: Named + Send + Sync, R: Abort + Threads + Wait + Sync>(
    rt: &R,
    alloc: Global,
    blank: Blank,
    builder: Arc<Plan>,
    plan: &Plan,
    fight: Fight,
)
    requires name { blank.name ≡ L.name }
    requires parts { blank.parts ≡ L.parts }
    requires count { blank.parts ≡ fight.mutators }
{
    let Ok((space, mut mutators)) = flip::<L, Plan>(alloc, blank, builder, fight.mutators, 0) else {
        panic!(rt; "a flipped heap");
    };
    write_at_once(rt, alloc, &space, &mut mutators, fight);
    if fight.fills {
        expect_full(rt, alloc, &space, &mut mutators, fight);
    }
    end(rt, alloc, space, mutators, plan, fight);
}
