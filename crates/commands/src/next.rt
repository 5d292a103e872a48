//! The command `next`.
ghost use Rattle.std.specs.Prelude.{◌≤◌, IfErr, IfOk};
ghost use Rattle.command_io.specs.FileCalls.{LeavesRead};
ghost use Rattle.commands.specs.TaskAnswers.{IsAnswered};
ghost use Rattle.commands.specs.TraceTasks.{IsFollowed};
ghost use Rattle.commands.specs.Following.{given_by, IsGivenWithin};
ghost use Rattle.commands.specs.Inputs.{IsGivenAt, RefusesCycleAt, RefusesGivenAt, SomeCycle};

use crate::answers::Answer;
use crate::cycling::{Handed, cycle_heap};
use crate::replay::trace_over;
use command_io::{CommandRefusal, Files, marks_at, roots_at};
use command_line::{NextMarks, NextRun};
use comp_trace::Marking;
use std::alloc::Global;
use std::thread::Threads;

/// Reads the image, then the trace for its heap, and then the marks or the roots, if they are given. It runs the trace
/// over the heap by one thread, with 1 to 64 mutators and at most 4,096 fresh pages, and makes the heap with which the
/// next cycle begins, with these marks, or else marked by what its roots reach: those that are given, or else those
/// that stay. At most `asked.workers` threads mark what they reach.
pub fn next_at<F: Files>(
    alloc: Global,
    rt: &(impl Threads + Sync),
    files: &mut F,
    asked: &NextRun<'_>,
) -> Result<Answer, CommandRefusal>
    requires mutators { (1 ≤ asked.now.mutators) × (asked.now.mutators ≤ 64) }
    requires fresh { asked.now.fresh ≤ 4096 }
    ensures { IsAnswered (F.disk files.old) files.old files.new (λ outcome. SomeCycle (F.disk files.old) asked.now (λ lines given heap. IsFollowed asked.now.mutators asked.now.fresh lines given heap outcome)) (RefusesCycleAt (F.disk files.old) asked.now) result }
{
    let (heap, trace) = trace_over(
        alloc,
        files,
        asked.image,
        asked.trace,
        asked.mutators,
        asked.large,
    )?;
    let handed = handed_at(alloc, files, &asked.marks, asked.mutators)?;
    cycle_heap(
        alloc,
        rt,
        heap,
        &trace,
        handed,
        asked.mutators,
        asked.fresh,
        asked.workers,
    )
}

// What is handed in for the next heap: the marks or the roots at the path that is asked for, or neither.
fn handed_at<F: Files>(
    alloc: Global,
    files: &mut F,
    asked: &NextMarks<'_>,
    mutators: u8,
) -> Result<Handed, CommandRefusal>
    ensures given { IfOk result (λ handed. IsGivenAt (F.disk files.old) mutators asked.now (given_by handed)) }
    ensures within { IfOk result (λ handed. IsGivenWithin mutators (given_by handed)) }
    ensures cause { IfErr result (RefusesGivenAt (F.disk files.old) mutators asked.now) }
    ensures left { LeavesRead (F.disk files.old) files.old files.new result }
{
    match asked {
        NextMarks::Given(path) => match marks_at(alloc, files, path) {
            Ok(marks) => Ok(Handed::Marked(Marking::Given(marks))),
            Err(refusal) => Err(refusal),
        },
        NextMarks::Reachable => Ok(Handed::Marked(Marking::Reachable)),
        NextMarks::ReachableFrom(path) => match roots_at(alloc, files, path, mutators) {
            Ok(roots) => Ok(Handed::Roots(roots)),
            Err(refusal) => Err(refusal),
        },
    }
}
