//! The command `race`: each mutator of a trace runs its lines in a thread of its own.
ghost use Rattle.std.specs.Prelude.{◌≡◌, ℕ, ◌≤◌, List, map, length, IfOk, IfErr};
ghost use Rattle.heap_layout.specs.Heap.{live};
ghost use Rattle.page_plan.specs.Sliding.{pages};
ghost use Rattle.comp_mutator.specs.CellViews.{steps_of, AreNew};
ghost use Rattle.comp_mutator.specs.Finishes.{IsOfFlip};
ghost use Rattle.comp_mutator.specs.Mutators.{cells_of, pass_of, setup_of, AreMutatorsOf};
ghost use Rattle.comp_trace.specs.TraceLines.{IsParsedFor};
ghost use Rattle.comp_trace.specs.Traces.{lines_of, mutators_of, roots_of};
ghost use Rattle.command_io.specs.Texts.{HasLines};
ghost use Rattle.commands.specs.TaskAnswers.{halted_outcome, outcome_of, IsAnswered, IsLawful};
ghost use Rattle.commands.specs.Inputs.{RefusesTraceAt, SomeTrace};
ghost use Rattle.commands.specs.TraceTasks.{InterruptsRace, IsHaltedRun, IsRaced, IsRacedHeap};

use crate::answers::{Answer, Left, halted};
use crate::by_line::{by_line, first_refused_line};
use crate::flipping::{finish_all, flip_plan, plan_heap};
use crate::replay::trace_over;
use command_io::{CommandRefusal, Files};
use command_line::TraceRun;
use comp_mutator::{Finished, Mutator, Space};
use comp_trace::{Halt, Run, Shown, Stopped, Trace, TraceFault, race};
use heap_layout::MarkedHeap;
use page_plan::Plan;
use std::alloc::Global;
use std::marker::Brand;
use std::sync::ledger::{Blank, Ledger};
use std::sync::{Arc, Wait};
use std::thread::Threads;

/// Runs a trace as a race over the heap whose image is at a path: each mutator runs its lines in a thread of its own,
/// if one can be started. The values are in the order of the lines. If lines are refused, the values are all that the
/// mutators had shown, and the refusal is that of the least of these lines.
pub fn race_at<R: Threads + Wait + Sync, F: Files>(
    alloc: Global,
    rt: &R,
    files: &mut F,
    asked: &TraceRun<'_>,
) -> Result<Answer, CommandRefusal>
    requires mutators { (1 ≤ asked.now.mutators) × (asked.now.mutators ≤ 64) }
    requires fresh { asked.now.fresh ≤ 4096 }
    ensures { IsAnswered (F.disk files.old) files.old files.new (λ outcome. SomeTrace (F.disk files.old) asked.now.large asked.now.image.now asked.now.trace.now asked.now.mutators (λ lines heap. IsRaced asked.now.mutators asked.now.fresh lines heap outcome)) (RefusesTraceAt (F.disk files.old) asked.now.large asked.now.image.now asked.now.trace.now asked.now.mutators) result }
{
    let (heap, trace) = trace_over(
        alloc,
        files,
        asked.image,
        asked.trace,
        asked.mutators,
        asked.large,
    )?;
    Ok(raced(alloc, rt, heap, &trace, asked.mutators, asked.fresh))
}

// What a race over a heap leaves.
fn raced<R: Threads + Wait + Sync>(
    alloc: Global,
    rt: &R,
    heap: MarkedHeap,
    trace: &Trace,
    mutators: u8,
    fresh: u32,
) -> Answer
    requires mutators { (1 ≤ mutators) × (mutators ≤ 64) }
    requires fresh { fresh ≤ 4096 }
    requires parsed { (mutators_of trace.now ≡ mutators) × (roots_of trace.now ≡ length heap.roots) }
    requires read { (text : List ℕ) × HasLines mutators (length heap.roots) (lines_of trace.now) text }
    ensures outcome { IsRaced mutators fresh (lines_of trace.now) heap (outcome_of result) }
    ensures lawful { IsLawful result }
{
    match race_heap(alloc, rt, heap, trace, mutators, fresh) {
        Ok((shown, finished)) => Answer::Ran(Left {
            shown,
            finished,
            mutators,
            fresh,
        }),
        Err(halt) => halted(alloc, halt),
    }
}

// Flips a heap, lets the mutators of a trace run their lines concurrently, each in a thread of its own if one can be
// started, and finishes the heap. There are 1 to 64 mutators and at most 4,096 fresh pages. The trace was parsed for
// these mutators and for the heap's roots.
//
// The values are in the order of their lines. If lines are refused, the fault is that of the least of them, and the
// values are those that each mutator showed until it came to its end. Any other halt is out of memory.
fn race_heap<R: Threads + Wait + Sync>(
    alloc: Global,
    rt: &R,
    heap: MarkedHeap,
    trace: &Trace,
    mutators: u8,
    fresh: u32,
) -> Result<(Vec<Shown>, Finished), Halt>
    requires mutators { (1 ≤ mutators) × (mutators ≤ 64) }
    requires fresh { fresh ≤ 4096 }
    requires parsed { (mutators_of trace.now ≡ mutators) × (roots_of trace.now ≡ length heap.roots) }
    requires read { (text : List ℕ) × HasLines mutators (length heap.roots) (lines_of trace.now) text }
    ensures raced { IfOk result (λ run. IsRacedHeap mutators fresh (lines_of trace.now) run.0.items run.1 heap) }
    ensures flipped { IfOk result (λ run. IsOfFlip mutators fresh run.1) }
    ensures halted { IfErr result (λ halt. IsHaltedRun (InterruptsRace mutators fresh heap) (lines_of trace.now) (halted_outcome halt)) }
{
    let Ok(plan) = plan_heap(alloc, rt, heap) else {
        return Err(Halt::Unplanned);
    };
    flipped_and_raced::<Brand, R>(
        alloc,
        rt,
        Blank::new(u64::from(mutators)),
        plan,
        trace,
        mutators,
        fresh,
    )
}

// The same for a plan, with the name of its ledger.
fn flipped_and_raced<L: Ledger + Send + Sync, R: Threads + Wait + Sync>(
    alloc: Global,
    rt: &R,
    blank: Blank,
    plan: Arc<Plan>,
    trace: &Trace,
    mutators: u8,
    fresh: u32,
) -> Result<(Vec<Shown>, Finished), Halt>
    requires name { blank.name ≡ L.name }
    requires parts { blank.parts ≡ L.parts }
    requires count { blank.parts ≡ mutators }
    requires mutators { (1 ≤ mutators) × (mutators ≤ 64) }
    requires fresh { fresh ≤ 4096 }
    requires parsed { (mutators_of trace.now ≡ mutators) × (roots_of trace.now ≡ length plan.value.roots) }
    requires read { (text : List ℕ) × HasLines mutators (length plan.value.roots) (lines_of trace.now) text }
    ensures raced { IfOk result (λ run. IsRacedHeap mutators fresh (lines_of trace.now) run.0.items run.1 plan.value) }
    ensures flipped { IfOk result (λ run. IsOfFlip mutators fresh run.1) }
    ensures halted { IfErr result (λ halt. IsHaltedRun (InterruptsRace mutators fresh plan.value) (lines_of trace.now) (halted_outcome halt)) }
{
    match flip_plan::<L>(alloc, blank, plan, mutators, fresh) {
        Ok((space, made)) => race_and_finish(alloc, rt, space, made, trace),
        Err(_) => Err(Halt::Unflipped),
    }
}

// Races a trace over a space whose mutators did nothing yet, and finishes the space. Memory for all values is
// allocated before the first line runs.
fn race_and_finish<L: Ledger + Send + Sync, R: Threads + Wait + Sync>(
    alloc: Global,
    rt: &R,
    space: Space<L, Plan>,
    mutators: Vec<Mutator<L>>,
    trace: &Trace,
) -> Result<(Vec<Shown>, Finished), Halt>
    requires of { AreMutatorsOf space mutators.items }
    requires new { AreNew (steps_of (cells_of space)) (setup_of space).mutators (map pass_of mutators.items) }
    requires whole { (setup_of space).mutators ≡ L.parts }
    requires few { (setup_of space).mutators ≤ 64 }
    requires compacted { (setup_of space).compacted ≡ pages (live (setup_of space).heap) }
    requires parsed { IsParsedFor (setup_of space) trace.now }
    requires read { (text : List ℕ) × HasLines (setup_of space).mutators (length (setup_of space).heap.roots) (lines_of trace.now) text }
    ensures raced { IfOk result (λ run. IsRacedHeap (setup_of space).mutators (setup_of space).fresh (lines_of trace.now) run.0.items run.1 (setup_of space).heap) }
    ensures flipped { IfOk result (λ run. IsOfFlip (setup_of space).mutators (setup_of space).fresh run.1) }
    ensures halted { IfErr result (λ halt. IsHaltedRun (InterruptsRace (setup_of space).mutators (setup_of space).fresh (setup_of space).heap) (lines_of trace.now) (halted_outcome halt)) }
{
    let lines = trace.lines();
    let Ok(room) = Vec::with_capacity(alloc, lines.len()) else {
        return Err(Halt::Cut(Stopped {
            shown: Vec::new(alloc),
            fault: TraceFault::OutOfMemory,
        }));
    };
    let raced = match race(alloc, rt, trace, &space, mutators) {
        Ok(raced) => raced,
        Err(not) => {
            return Err(Halt::Cut(Stopped {
                shown: room,
                fault: not.fault,
            }));
        }
    };
    let runs: &[Run] = &raced.runs;
    let shown = by_line(lines, runs, room);
    match first_refused_line(runs) {
        Some(stop) => Err(Halt::Cut(Stopped {
            shown,
            fault: TraceFault::Refused(stop.line, stop.refusal),
        })),
        None => match finish_all(alloc, space, raced.mutators) {
            Ok(finished) => Ok((shown, finished)),
            Err(_) => Err(Halt::Unfinished(shown)),
        },
    }
}
