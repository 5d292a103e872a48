//! Loops on heaps that are flipped, and whose pages are all built.
ghost use Rattle.std.specs.Prelude.{◌≡◌};
ghost use Rattle.comp_mutator.specs.Mutators.{IsMutatorOf, AreMutatorsOf};

use crate::asked::{Asked, Loop};
use crate::heaps::chained;
use crate::loops::{Done, make_calls};
use comp_mutator::{Mutator, Space, flip};
use heap_layout::MAX_FRESH_PAGES;
use page_plan::Plan;
use std::alloc::Global;
use std::marker::Brand;
use std::sync::Arc;
use std::sync::ledger::{Blank, Ledger as Named};
use std::thread::Threads;

// Builds all pages, compacted and fresh. Answers whether each was built.
fn build_all<L: Named>(alloc: Global, space: &Space<L, Plan>, m: &mut Mutator<L>) -> bool
    requires of { IsMutatorOf space.now m.old }
    ensures of { IsMutatorOf space.now m.new }
{
    for p in 0..space.pages() {
        if space.try_touch(alloc, m, p).is_err() {
            return false;
        }
    }
    true
}

// The loop on a flipped heap, by its one mutator.
fn done_by<L: Named>(
    alloc: Global,
    space: &Space<L, Plan>,
    mut mutators: Vec<Mutator<L>>,
    asked: Asked,
    which: Loop,
) -> Option<Done>
    requires of { AreMutatorsOf space.now mutators.items }
{
    if mutators.is_empty() {
        return None;
    }
    let m = &mut mutators[0];
    if !build_all(alloc, space, m) {
        return None;
    }
    Some(make_calls(alloc, space, m, asked, which))
}

// The loop on the heap of a plan, which is flipped with as many fresh pages as there may be.
fn done_named<L: Named>(
    alloc: Global,
    blank: Blank,
    plan: Arc<Plan>,
    asked: Asked,
    which: Loop,
) -> Option<Done>
    requires name { blank.name ≡ L.name }
    requires parts { blank.parts ≡ L.parts }
    requires count { blank.parts ≡ 1 }
{
    match flip::<L, Plan>(alloc, blank, plan, 1, MAX_FRESH_PAGES) {
        Ok((space, mutators)) => done_by(alloc, &space, mutators, asked, which),
        Err(_) => None,
    }
}

// The loop on one heap.
fn done_once(rt: &(impl Threads + Sync), alloc: Global, asked: Asked, which: Loop) -> Option<Done> {
    let plan = Plan::new(alloc, rt, chained(alloc, asked)?).ok()?;
    let plan = Arc::new(alloc, plan).ok()?;
    done_named::<Brand>(alloc, Blank::new(1), plan, asked, which)
}

/// What a loop does on as many heaps as were asked for; `None` if memory runs out before a loop begins.
pub fn run(rt: &(impl Threads + Sync), alloc: Global, asked: Asked, which: Loop) -> Option<Done> {
    let mut all = Done::NOTHING;
    for _ in 0..asked.heaps {
        all = all.and(done_once(rt, alloc, asked, which)?);
    }
    Some(all)
}
