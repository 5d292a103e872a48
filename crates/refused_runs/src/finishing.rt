//! Sweeps and finishes, made again if memory is refused.
ghost use Rattle.std.specs.Prelude.{◌≡◌, IfSome};
ghost use Rattle.comp_mutator.specs.Finishes.{IsOfFlip};
ghost use Rattle.comp_mutator.specs.Mutators.{setup_of, AreMutatorsOf};

use comp_mutator::{Builder, FinishFault, Finished, Mutator, Space, Unfinished};
use comp_sweep::{Open, SweepFault, sweep};
use std::alloc::Global;
use std::sync::Wait;
use std::sync::ledger::Ledger as Named;
use std::thread::Threads;

// What mutators wrote, what they have not posted, and how many pages they built, in all.
#[derive(Clone, Copy)]
struct Work {
    entries: u64,
    unposted: u64,
    builds: usize,
}

fn work_of<L: Named>(mutators: &[Mutator<L>]) -> Work {
    let mut work = Work {
        entries: 0,
        unposted: 0,
        builds: 0,
    };
    for m in mutators {
        work.entries = work.entries.wrapping_add(m.entries());
        work.unposted = work.unposted.wrapping_add(m.unposted());
        work.builds = work.builds.wrapping_add(m.builds().len());
    }
    work
}

// Whether nothing was written or posted in between.
fn wrote_nothing(before: Work, after: Work) -> bool {
    after.entries == before.entries && after.unposted == before.unposted
}

// Finishes with what a finish that was refused memory handed back. The mutators must be as they were.
fn finish_again<L: Named, B: Builder>(
    alloc: Global,
    left: Unfinished<L, B>,
    before: Work,
) -> Option<Finished>
    requires of { AreMutatorsOf left.space left.mutators.items }
    requires whole { (setup_of left.space).mutators ≡ L.parts }
    ensures flipped { IfSome result (IsOfFlip (setup_of left.space).mutators (setup_of left.space).fresh) }
{
    let after = work_of(&left.mutators);
    if !wrote_nothing(before, after) || after.builds != before.builds {
        return None;
    }
    match left.fault {
        FinishFault::OutOfMemory => match left.space.finish(alloc, left.mutators) {
            Ok(finished) => Some(finished),
            Err(_) => None,
        },
        FinishFault::MutatorMissing(_) => None,
    }
}

/// Finishes the heap with all its mutators.
pub fn finish<L: Named, B: Builder>(
    alloc: Global,
    space: Space<L, B>,
    mutators: Vec<Mutator<L>>,
) -> Option<Finished>
    requires of { AreMutatorsOf space mutators.items }
    requires whole { (setup_of space).mutators ≡ L.parts }
    ensures flipped { IfSome result (IsOfFlip (setup_of space).mutators (setup_of space).fresh) }
{
    let before = work_of(&mutators);
    match space.finish(alloc, mutators) {
        Ok(finished) => Some(finished),
        Err(left) => finish_again(alloc, left, before),
    }
}

// Whether a sweep was refused memory, and names a page that exists.
fn is_memory(fault: SweepFault, pages: u64) -> bool {
    match fault {
        SweepFault::OutOfMemory(p) => p < pages,
        SweepFault::Resources => true,
        SweepFault::NoWorkers => false,
    }
}

/// Sweeps the heap with all mutators. If memory is refused, they have written nothing and lost no build, and sweep
/// again.
pub fn swept<L: Named + Send, B: Builder, R: Threads + Wait + Sync>(
    rt: &R,
    alloc: Global,
    space: &Space<L, B>,
    mutators: Vec<Mutator<L>>,
) -> Option<Vec<Mutator<L>>>
    requires of { AreMutatorsOf space.now mutators.items }
    ensures of { IfSome result (λ back. AreMutatorsOf space.now back.items) }
{
    let before = work_of(&mutators);
    let back = match sweep(alloc, rt, space, mutators, &Open) {
        Ok(report) => return Some(report.mutators),
        Err(refused) => {
            let after = work_of(&refused.mutators);
            let same = wrote_nothing(before, after) && after.builds >= before.builds;
            if !same || !is_memory(refused.fault, space.compacted_pages()) {
                return None;
            }
            refused.mutators
        }
    };
    match sweep(alloc, rt, space, back, &Open) {
        Ok(report) => Some(report.mutators),
        Err(_) => None,
    }
}
