//! The command `replay`, and what all commands that run a trace read.
ghost use Rattle.std.specs.Prelude.{◌≡◌, ◌≤◌, length, IfErr, IfOk};
ghost use Rattle.comp_trace.specs.Traces.{lines_of, mutators_of, roots_of};
ghost use Rattle.command_io.specs.FileCalls.{LeavesRead};
ghost use Rattle.command_io.specs.Images.{IsHeapAt};
ghost use Rattle.command_io.specs.Texts.{HasLinesAt};
ghost use Rattle.commands.specs.TaskAnswers.{outcome_of, IsAnswered, IsLawful};
ghost use Rattle.commands.specs.Inputs.{RefusesTraceAt, SomeTrace};
ghost use Rattle.commands.specs.TraceTasks.{IsReplayed};

use crate::answers::{Answer, Left, halted};
use command_io::{CommandRefusal, Files, heap_at, trace_at};
use command_line::TraceRun;
use comp_trace::{Trace, run_cycle};
use heap_layout::MarkedHeap;
use std::alloc::Global;
use std::thread::Threads;

/// Runs a trace by one thread over the heap whose image is at a path.
pub fn replay_at<F: Files>(
    alloc: Global,
    rt: &(impl Threads + Sync),
    files: &mut F,
    asked: &TraceRun<'_>,
) -> Result<Answer, CommandRefusal>
    requires mutators { (1 ≤ asked.now.mutators) × (asked.now.mutators ≤ 64) }
    requires fresh { asked.now.fresh ≤ 4096 }
    ensures { IsAnswered (F.disk files.old) files.old files.new (λ outcome. SomeTrace (F.disk files.old) asked.now.large asked.now.image.now asked.now.trace.now asked.now.mutators (λ lines heap. IsReplayed asked.now.mutators asked.now.fresh lines heap outcome)) (RefusesTraceAt (F.disk files.old) asked.now.large asked.now.image.now asked.now.trace.now asked.now.mutators) result }
{
    let (heap, trace) = trace_over(
        alloc,
        files,
        asked.image,
        asked.trace,
        asked.mutators,
        asked.large,
    )?;
    Ok(replayed(alloc, rt, heap, &trace, asked.mutators, asked.fresh))
}

/// Reads the heap whose image is at a path, of edition three or four only if `large`, and then the trace for it at
/// another path. The files count a failed call if the refusal names one; else they stay as they were.
pub fn trace_over<F: Files>(
    alloc: Global,
    files: &mut F,
    image: &str,
    trace: &str,
    mutators: u8,
    large: bool,
) -> Result<(MarkedHeap, Trace), CommandRefusal>
    ensures heap { IfOk result (λ read. IsHeapAt (F.disk files.old) large image.now read.0) }
    ensures lines { IfOk result (λ read. HasLinesAt (F.disk files.old) trace.now mutators (length read.0.roots) (lines_of read.1)) }
    ensures counts { IfOk result (λ read. (mutators_of read.1 ≡ mutators) × (roots_of read.1 ≡ length read.0.roots)) }
    ensures cause { IfErr result (RefusesTraceAt (F.disk files.old) large image.now trace.now mutators) }
    ensures left { LeavesRead (F.disk files.old) files.old files.new result }
{
    let heap = heap_at(alloc, files, image, large)?;
    let roots = heap.roots().len() as u32;
    let trace = trace_at(alloc, files, trace, mutators, roots)?;
    Ok((heap, trace))
}

// Flips a heap, runs a trace over it by one thread, and finishes it. There are 1 to 64 mutators and at most 4,096 fresh
// pages. The trace was parsed for these mutators and for the heap's roots.
fn replayed(
    alloc: Global,
    rt: &(impl Threads + Sync),
    heap: MarkedHeap,
    trace: &Trace,
    mutators: u8,
    fresh: u32,
) -> Answer
    requires mutators { (1 ≤ mutators) × (mutators ≤ 64) }
    requires fresh { fresh ≤ 4096 }
    requires parsed { (mutators_of trace.now ≡ mutators) × (roots_of trace.now ≡ length heap.roots) }
    ensures outcome { IsReplayed mutators fresh (lines_of trace.now) heap (outcome_of result) }
    ensures lawful { IsLawful result }
{
    match run_cycle(alloc, rt, heap, trace, mutators, fresh) {
        Ok(ran) => Answer::Ran(Left {
            shown: ran.shown,
            finished: ran.finished,
            mutators,
            fresh,
        }),
        Err(halt) => halted(alloc, halt),
    }
}
