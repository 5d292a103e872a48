//! Does a task: reads its files, finds what it comes to, and delivers that.
ghost use Rattle.std.specs.Prelude.{◌≡◌, ◌-◌, ◌^◌, ◌<◌, true, IfErr, OnOk};
ghost use Rattle.heap_layout.specs.Counted.{inner_of, failures_of, is_flushed_of, writer_of};
ghost use Rattle.command_line.specs.AskedTasks.{HasLawfulCounts};
ghost use Rattle.command_io.specs.Printing.{CountsPrint, LeavesFlushed};
ghost use Rattle.commands.specs.TaskAnswers.{IsAnswered};
ghost use Rattle.commands.specs.Tasks.{path_of, DoesTask, IsOutcomeOf, RefusesInputs, RefusesTask};

use crate::answers::Answer;
use crate::audit::audit_at;
use crate::collect::collect_at;
use crate::compact::compact_at;
use crate::delivering::deliver;
use crate::long_version::long_version;
use crate::mapping::map_at;
use crate::mark::mark_at;
use crate::moved::moves_at;
use crate::next::next_at;
use crate::plan::plan_at;
use crate::races::race_at;
use crate::replay::replay_at;
use crate::word::word_at;
use command_io::{CommandRefusal, Files};
use command_line::Task;
use heap_layout::Counted;
use std::alloc::Global;
use std::io::Write;
use std::sync::Wait;
use std::thread::Threads;

/// Does a task, with these files, and flushes the output. It reads the files of the task in order; finds what the task
/// comes to; makes the file of that, and keeps it; and last prints its lines. The first of these steps that is refused
/// ends it. A file is begun only once all that it is made of was found, and nothing is printed before it is kept.
///
/// The counts of the task must be lawful: 1 to 64 mutators or workers, at most 4,096 fresh pages. Fewer than `u64::MAX`
/// calls of the output must have failed before.
pub fn perform<R: Threads + Wait + Sync, F: Files, O: Write>(
    alloc: Global,
    rt: &R,
    files: &mut F,
    task: Task,
    out: &mut Counted<&mut O>,
) -> Result<(), CommandRefusal>
    requires written { failures_of out.old < 2 ^ 64 - 1 }
    requires lawful { HasLawfulCounts task }
    ensures done { OnOk result (DoesTask (F.disk files.old) files.old files.new (O.contents (inner_of out.old).now) (O.contents (inner_of out.new).now) task.entry) }
    ensures cause { IfErr result (RefusesTask (F.disk files.old) files.old files.new (failures_of out.old) (failures_of out.new) (O.contents (inner_of out.old).now) (O.contents (inner_of out.new).now) task.entry) }
    ensures counts { CountsPrint (failures_of out.old) (failures_of out.new) result }
    ensures flushed { OnOk result (is_flushed_of out.new ≡ true) }
    ensures sent { IfErr result (LeavesFlushed (is_flushed_of out.old) (is_flushed_of out.new)) }
    ensures same_writer { writer_of out.new ≡ writer_of out.old }
{
    let path = path_of(&task);
    let answer = answer_of(alloc, rt, files, task)?;
    deliver(alloc, files, path, &answer, out)
}

// The path of the file that a task makes; it is empty if the task makes no file.
fn path_of<'a>(task: &Task<'a>) -> &'a str
    ensures { result.now ≡ path_of task.now }
{
    match task {
        Task::Replay(run) | Task::Race(run) => run.dump,
        Task::Compact { dump, .. } => dump,
        Task::Next(run) => run.new,
        Task::Mark { new, .. } | Task::Collect { new, .. } => new,
        Task::Map(run) => run.out,
        Task::Plan { .. }
        | Task::Word { .. }
        | Task::Audit(_)
        | Task::Moved { .. }
        | Task::Help { .. }
        | Task::Version
        | Task::VersionLong => "",
    }
}

// What a task comes to.
fn answer_of<R: Threads + Wait + Sync, F: Files>(
    alloc: Global,
    rt: &R,
    files: &mut F,
    task: Task,
) -> Result<Answer, CommandRefusal>
    requires { HasLawfulCounts task }
    ensures { IsAnswered (F.disk files.old) files.old files.new (IsOutcomeOf (F.disk files.old) task.entry) (RefusesInputs (F.disk files.old) task.entry) result }
{
    match task {
        Task::Plan { image, large } => plan_at(alloc, rt, files, image, large),
        Task::Word {
            image,
            index,
            large,
        } => word_at(alloc, rt, files, image, index, large),
        Task::Replay(run) => replay_at(alloc, rt, files, &run),
        Task::Race(run) => race_at(alloc, rt, files, &run),
        Task::Compact {
            image,
            dump: _,
            workers,
            large,
        } => compact_at(alloc, rt, files, image, workers, large),
        Task::Audit(run) => audit_at(alloc, rt, files, &run),
        Task::Next(run) => next_at(alloc, rt, files, &run),
        Task::Mark {
            image,
            new: _,
            workers,
            large,
        } => mark_at(alloc, rt, files, image, workers, large),
        Task::Collect {
            image,
            new: _,
            workers,
            large,
        } => collect_at(alloc, rt, files, image, workers, large),
        Task::Moved {
            image,
            moved,
            large,
        } => moves_at(alloc, files, image, moved, large),
        Task::Map(run) => map_at(alloc, rt, files, &run),
        Task::Help { text } => Ok(Answer::Help(text)),
        Task::Version => Ok(Answer::Version),
        Task::VersionLong => long_version(alloc, files),
    }
}
