//! The command `audit`, and what other commands read for an audit.
ghost use Rattle.std.specs.Prelude.{◌≡◌, ◌-◌, ◌^◌, ◌<◌, IfOk, IfErr};
ghost use Rattle.heap_layout.specs.Counted.{inner_of, failures_of};
ghost use Rattle.comp_audit.specs.Judged.{Judges};
ghost use Rattle.command_io.specs.Disk.{RefusesFile, SomeFile};
ghost use Rattle.command_io.specs.FileCalls.{LeavesRead};
ghost use Rattle.command_io.specs.Images.{IsHeapAt};
ghost use Rattle.command_io.specs.Reading.{CountsRead};
ghost use Rattle.command_io.specs.declared.refusal.Input.TheVariants as inputs;
ghost use Rattle.commands.specs.TaskAnswers.{IsAnswered, IsComing};
ghost use Rattle.commands.specs.HeapTasks.{faults_by, IsAudited};
ghost use Rattle.commands.specs.Inputs.{IsDumpIn, RefusesAuditAt, RefusesDump, SomeAudit};

use crate::answers::Answer;
use crate::explained::explained;
use command_io::{CommandRefusal, Files, Input, end_reading, heap_at};
use command_line::AuditRun;
use comp_audit::{Dump, Verdict, audit, audit_whole, read_dump, read_large_dump, read_words};
use heap_layout::{Counted, MarkedHeap, OutOfMemory};
use page_plan::Plan;
use std::alloc::Global;
use std::io::Read;
use std::thread::Threads;

/// Audits the dump at `run.dump` against the heap image at `run.image`, which is read first. Both are of edition three
/// or four only if `run.large`. With `run.words` it is a file of words and roots, which stands for a dump. With
/// `run.whole` each compacted page must be built too. With `run.explain` it is said how much the dump has, and of a
/// fault what is wrong where.
pub fn audit_at<F: Files>(
    alloc: Global,
    rt: &(impl Threads + Sync),
    files: &mut F,
    run: &AuditRun<'_>,
) -> Result<Answer, CommandRefusal>
    ensures { IsAnswered (F.disk files.old) files.old files.new (λ outcome. SomeAudit (F.disk files.old) run.now.words run.now.large run.now.image.now run.now.dump.now (λ heap dump. IsAudited run.now.whole run.now.explain heap dump outcome)) (RefusesAuditAt (F.disk files.old) run.now.words run.now.large run.now.image.now run.now.dump.now) result }
{
    let (heap, dump) = audited_at(alloc, files, run)?;
    audited(alloc, rt, heap, &dump, run.whole, run.explain)
}

// What an audit of the dump comes to.
fn audited(
    alloc: Global,
    rt: &(impl Threads + Sync),
    heap: MarkedHeap,
    dump: &Dump<'_>,
    whole: bool,
    explain: bool,
) -> Result<Answer, CommandRefusal>
    ensures { IsComing (IsAudited whole explain heap dump.now) result }
{
    let plan = Plan::new(alloc, rt, heap)?;
    if explain {
        return explained(alloc, &plan, dump, whole);
    }
    match verdict_by(alloc, &plan, dump, whole)? {
        Verdict::Yes => Ok(Answer::Passed(dump.live_words())),
        Verdict::No(fault) => Err(CommandRefusal::Audit(fault)),
    }
}

/// Whether a compaction by this plan can have left the dump, with each compacted page built if it is to be `whole`. Err
/// if out of memory.
pub(crate) fn verdict_by(
    alloc: Global,
    plan: &Plan,
    dump: &Dump<'_>,
    whole: bool,
) -> Result<Verdict, OutOfMemory>
    ensures { IfOk result (Judges (faults_by whole plan.now dump.now)) }
{
    if whole {
        audit_whole(alloc, plan, dump)
    } else {
        audit(alloc, plan, dump)
    }
}

/// Reads the heap of an image, and then what is audited. The files count a failed call if the refusal names one; else
/// they stay as they were.
pub(crate) fn audited_at<F: Files>(
    alloc: Global,
    files: &mut F,
    run: &AuditRun<'_>,
) -> Result<(MarkedHeap, Dump<'static>), CommandRefusal>
    ensures heap { IfOk result (λ read. IsHeapAt (F.disk files.old) run.now.large run.now.image.now read.0) }
    ensures dump { IfOk result (λ read. SomeFile (F.disk files.old) inputs.Dump run.now.dump.now (IsDumpIn run.now.words run.now.large read.1)) }
    ensures cause { IfErr result (RefusesAuditAt (F.disk files.old) run.now.words run.now.large run.now.image.now run.now.dump.now) }
    ensures left { LeavesRead (F.disk files.old) files.old files.new result }
{
    let heap = heap_at(alloc, files, run.image, run.large)?;
    let dump = dump_at(alloc, files, run)?;
    Ok((heap, dump))
}

// Reads what is audited.
fn dump_at<F: Files>(
    alloc: Global,
    files: &mut F,
    run: &AuditRun<'_>,
) -> Result<Dump<'static>, CommandRefusal>
    ensures dump { IfOk result (λ dump. SomeFile (F.disk files.old) inputs.Dump run.now.dump.now (IsDumpIn run.now.words run.now.large dump)) }
    ensures cause { IfErr result (RefusesFile (F.disk files.old) inputs.Dump run.now.dump.now (RefusesDump run.now.words run.now.large)) }
    ensures left { LeavesRead (F.disk files.old) files.old files.new result }
{
    let mut reader = Counted::new(files.open(Input::Dump, run.dump)?);
    let read = dump_in(alloc, &mut reader, run);
    end_reading(files, reader, read)
}

// Reads what is audited to the end of the reader.
fn dump_in<S: Read>(
    alloc: Global,
    r: &mut Counted<S>,
    run: &AuditRun<'_>,
) -> Result<Dump<'static>, CommandRefusal>
    requires read { failures_of r.old < 2 ^ 64 - 1 }
    ensures dump { IfOk result (λ dump. IsDumpIn run.now.words run.now.large dump (S.remaining (inner_of r.old))) }
    ensures cause { IfErr result (λ refusal. RefusesDump run.now.words run.now.large refusal (S.remaining (inner_of r.old))) }
    ensures reads { CountsRead (failures_of r.old) (failures_of r.new) result }
{
    comp_dump::dump_is_read_again();
    if run.words {
        Ok(read_words(alloc, r, run.large)?)
    } else if run.large {
        Ok(read_large_dump(alloc, r)?)
    } else {
        Ok(read_dump(alloc, r)?)
    }
}
