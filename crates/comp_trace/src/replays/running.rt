//! Runs a trace over a heap by one thread, from the flip to the finish.
ghost use Rattle.std.specs.Prelude.{◌≡◌, ◌≤◌, map, length, IfErr, IfOk};
ghost use Rattle.heap_layout.specs.Heap.{live, IsClosed};
ghost use Rattle.page_plan.specs.Sliding.{pages};
ghost use Rattle.comp_mutator.specs.CellViews.{steps_of, AreNew};
ghost use Rattle.comp_mutator.specs.Finishes.{IsOfFlip};
ghost use Rattle.comp_mutator.specs.Mutators.{cells_of, pass_of, setup_of, AreMutatorsOf};
ghost use Rattle.comp_trace.specs.TraceLines.{IsParsedFor};
ghost use Rattle.comp_trace.specs.Traces.{lines_of, mutators_of, roots_of};
ghost use Rattle.comp_trace.specs.Heaps.{HasRunOver, HasRunWith, IsHaltOf};

use crate::replays::replaying::{Stopped, replay_registers};
use crate::steps::Shown;
use crate::text::Trace;
use comp_mutator::{FinishFault, Finished, FlipFault, Mutator, Space, flip};
use page_plan::Plan;
use std::alloc::Global;
use std::marker::Brand;
use std::sync::Arc;
use std::sync::ledger::{Blank, Ledger};

/// A heap over which a trace was run, from the flip to the finish.
#[derive(Drop)]
pub struct Ran {
    /// The plan of the compacted heap. It is the builder that `Finished::next_cycle` requires.
    pub plan: Arc<Plan>,
    /// The values that the `get` lines showed, in the order of the lines.
    pub shown: Vec<Shown>,
    /// The words in the registers of each mutator at the end of the run, in the order of their numbers.
    pub registers: Vec<[u64; 16]>,
    /// The heap at the end.
    pub finished: Finished,
}

/// Why a run over a heap did not come to its end.
#[derive(Drop)]
pub enum Halt {
    /// Out of memory for the plan of the heap. No line has run.
    Unplanned,
    /// Out of memory for the flip. No line has run.
    Unflipped,
    /// A line was refused, or memory ran out for the values.
    Cut(Stopped),
    /// Out of memory for the finish. All lines were run; these are the values that they showed, in order.
    Unfinished(Vec<Shown>),
}

/// Flips the heap of a plan, runs a trace over it by one thread, and finishes it. Requires 1 to 64 mutators, at most
/// 4,096 fresh pages, and a trace that was parsed for these mutators and the heap's roots. The space keeps `plan`, and
/// the answer has `kept`, which is the same plan.
pub fn run_over(
    alloc: Global,
    plan: Arc<Plan>,
    kept: Arc<Plan>,
    trace: &Trace,
    mutators: u8,
    fresh: u32,
) -> Result<Ran, Halt>
    requires mutators { (1 ≤ mutators) × (mutators ≤ 64) }
    requires fresh { fresh ≤ 4096 }
    requires parsed { (mutators_of trace.now ≡ mutators) × (roots_of trace.now ≡ length plan.value.roots) }
    ensures run { IfOk result (λ run. HasRunOver mutators fresh (lines_of trace.now) run.shown.items plan.value run.finished) }
    ensures plan { IfOk result (λ run. run.plan.value ≡ kept.value) }
    ensures registers { IfOk result (λ run. HasRunWith mutators fresh (lines_of trace.now) run.shown.items plan.value run.finished run.registers.items) }
    ensures flipped { IfOk result (λ run. IsOfFlip mutators fresh run.finished) }
    ensures halted { IfErr result (IsHaltOf mutators fresh (lines_of trace.now) plan.value) }
{
    page_plan::heap_is_closed(&plan);
    flipped_and_run::<Brand>(
        alloc,
        Blank::new(u64::from(mutators)),
        plan,
        kept,
        trace,
        mutators,
        fresh,
    )
}

// Like `run_over`, for the ledger that `L` names.
#[tactic(auto, using(heap_layout::proofs::Bounds::fresh_pages_least))]
fn flipped_and_run<L: Ledger>(
    alloc: Global,
    blank: Blank,
    plan: Arc<Plan>,
    kept: Arc<Plan>,
    trace: &Trace,
    mutators: u8,
    fresh: u32,
) -> Result<Ran, Halt>
    requires name { blank.name ≡ L.name }
    requires parts { blank.parts ≡ L.parts }
    requires count { blank.parts ≡ mutators }
    requires mutators { (1 ≤ mutators) × (mutators ≤ 64) }
    requires fresh { fresh ≤ 4096 }
    requires closed { IsClosed plan.value }
    requires parsed { (mutators_of trace.now ≡ mutators) × (roots_of trace.now ≡ length plan.value.roots) }
    ensures run { IfOk result (λ run. HasRunOver mutators fresh (lines_of trace.now) run.shown.items plan.value run.finished) }
    ensures plan { IfOk result (λ run. run.plan.value ≡ kept.value) }
    ensures registers { IfOk result (λ run. HasRunWith mutators fresh (lines_of trace.now) run.shown.items plan.value run.finished run.registers.items) }
    ensures flipped { IfOk result (λ run. IsOfFlip mutators fresh run.finished) }
    ensures halted { IfErr result (IsHaltOf mutators fresh (lines_of trace.now) plan.value) }
{
    match flip::<L, Plan>(alloc, blank, plan, mutators, fresh) {
        Ok((space, made)) => run_and_finish(alloc, space, made, kept, trace),
        Err(FlipFault::OutOfMemory) => Err(Halt::Unflipped),
        Err(FlipFault::BadCounts) => unreachable!(),
    }
}

// Runs a trace over a space whose mutators did nothing yet, and finishes the space.
fn run_and_finish<L: Ledger>(
    alloc: Global,
    space: Space<L, Plan>,
    mut mutators: Vec<Mutator<L>>,
    kept: Arc<Plan>,
    trace: &Trace,
) -> Result<Ran, Halt>
    requires of { AreMutatorsOf space mutators.items }
    requires new { AreNew (steps_of (cells_of space)) (setup_of space).mutators (map pass_of mutators.items) }
    requires whole { (setup_of space).mutators ≡ L.parts }
    requires compacted { (setup_of space).compacted ≡ pages (live (setup_of space).heap) }
    requires closed { IsClosed (setup_of space).heap }
    requires parsed { IsParsedFor (setup_of space) trace.now }
    ensures run { IfOk result (λ run. HasRunOver (setup_of space).mutators (setup_of space).fresh (lines_of trace.now) run.shown.items (setup_of space).heap run.finished) }
    ensures plan { IfOk result (λ run. run.plan.value ≡ kept.value) }
    ensures registers { IfOk result (λ run. HasRunWith (setup_of space).mutators (setup_of space).fresh (lines_of trace.now) run.shown.items (setup_of space).heap run.finished run.registers.items) }
    ensures flipped { IfOk result (λ run. IsOfFlip (setup_of space).mutators (setup_of space).fresh run.finished) }
    ensures halted { IfErr result (IsHaltOf (setup_of space).mutators (setup_of space).fresh (lines_of trace.now) (setup_of space).heap) }
{
    // For the proof alone: the lines name only mutators and roots that are there.
    let _ = trace.lines();
    match replay_registers(alloc, trace, &space, &mut mutators) {
        Ok(ran) => match space.finish(alloc, mutators) {
            Ok(finished) => Ok(Ran {
                plan: kept,
                shown: ran.shown,
                registers: ran.registers,
                finished,
            }),
            Err(left) => match left.fault {
                FinishFault::OutOfMemory => Err(Halt::Unfinished(ran.shown)),
                FinishFault::MutatorMissing(_) => unreachable!(),
            },
        },
        Err(stopped) => Err(Halt::Cut(stopped)),
    }
}
