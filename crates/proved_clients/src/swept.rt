//! What a caller can conclude about a heap that it swept.
ghost use Rattle.std.specs.Prelude.{◌≡◌, ℕ, ◌<◌, IfSome, IsSome};
ghost use Rattle.page_plan.specs.Heap.{live};
ghost use Rattle.page_plan.specs.Sliding.{pages};
ghost use Rattle.page_cells.specs.Closing.{page_at};
ghost use Rattle.comp_mutator.specs.Finishes.{pages_of};
ghost use Rattle.comp_sweep.specs.Sweeps.{SomeSeesBuilt};

use comp_mutator::{Builder, Finished, flip};
use comp_sweep::{Open, SweepReport, sweep};
use std::alloc::Global;
use std::sync::ledger::{Blank, Ledger as Named};
use std::sync::{Arc, Wait};
use std::thread::Threads;

/// Flips a heap and sweeps it. If both succeed, a mutator that came back has seen each page of the slid words built.
pub fn flip_and_sweep<L: Named + Send, B: Builder, R: Threads + Wait + Sync>(
    alloc: Global,
    rt: &R,
    blank: Blank,
    builder: Arc<B>,
    n: u8,
) -> Option<SweepReport<L>>
    requires name { blank.name ≡ L.name }
    requires parts { blank.parts ≡ L.parts }
    requires count { blank.parts ≡ n }
    ensures { IfSome result (λ report. (p : ℕ) → p < pages (live (B.heap builder.value)) → SomeSeesBuilt report.mutators.items p) }
{
    let Ok((space, mutators)) = flip::<L, B>(alloc, blank, builder, n, 0) else {
        return None;
    };
    match sweep(alloc, rt, &space, mutators, &Open) {
        Ok(report) => Some(report),
        Err(_) => None,
    }
}

/// Flips a heap, sweeps it with all its mutators and finishes it. If all three succeed, each page of the slid words
/// exists.
pub fn sweep_and_finish<L: Named + Send, B: Builder, R: Threads + Wait + Sync>(
    alloc: Global,
    rt: &R,
    blank: Blank,
    builder: Arc<B>,
    n: u8,
) -> Option<Finished>
    requires name { blank.name ≡ L.name }
    requires parts { blank.parts ≡ L.parts }
    requires count { blank.parts ≡ n }
    ensures { IfSome result (λ f. (p : ℕ) → p < pages (live (B.heap builder.value)) → IsSome (page_at (pages_of f) p)) }
{
    let Ok((space, mutators)) = flip::<L, B>(alloc, blank, builder, n, 0) else {
        return None;
    };
    let Ok(report) = sweep(alloc, rt, &space, mutators, &Open) else {
        return None;
    };
    match space.finish(alloc, report.mutators) {
        Ok(finished) => Some(finished),
        Err(_) => None,
    }
}
