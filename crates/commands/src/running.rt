//! Runs the program: reads its words, does what they ask for, and answers a status.
ghost use Rattle.std.specs.Prelude.{◌≡◌, ◌≢◌, ◌-◌, ◌^◌, ◌<◌, ◌≤◌, true, map, IfErr, OnOk};
ghost use Rattle.std.specs.String.{string_bytes};
ghost use Rattle.std.specs.Io.KnownBytes.{Keeps};
ghost use Rattle.clap.specs.Words.{kind_of};
ghost use Rattle.clap.specs.declared.error.kind.ErrorKind.TheVariants as kind;
ghost use Rattle.heap_layout.specs.Counted.{inner_of, failures_of, is_flushed_of, writer_of};
ghost use Rattle.command_line.specs.AskedTasks.{AsksNoCommand};
ghost use Rattle.command_io.specs.declared.refusal.CommandRefusal.{CommandRefusal as ARefusal};
ghost use Rattle.command_io.specs.declared.refusal.CommandRefusal.TheVariants.{OutOfMemory};
ghost use Rattle.commands.specs.Tasks.{status_of, DoesAsked, HasAnswered, IsReason, IsUnanswered, LeavesSent, Reports, Says};
ghost use Rattle.commands.specs.declared.running.Unanswered.TheVariants.{Misused, Refused};

use crate::performing::perform;
use clap::error::ErrorKind;
use command_io::{CommandRefusal, Files, RuntimeFiles, flush, print_refusal};
use command_line::read_task;
use heap_layout::Counted;
use std::alloc::Global;
use std::io::Write;
use std::rt;
use std::sync::Wait;
use std::thread::Threads;

/// The status of a run that did what it was asked for, or printed help or the version.
pub const DONE: u8 = 0;

/// The status of a run that was refused, with a line on standard error.
pub const REFUSED: u8 = 1;

/// The status of a run whose words ask for nothing that the program does.
pub const MISUSED: u8 = 2;

/// Does what the words after the program's name ask for, and answers the status: `DONE`, `REFUSED` or `MISUSED`. It
/// opens files and starts threads through `rt`, and flushes `out` at the end. A refusal prints its line on `err`; so
/// does a call of `out` that fails. If a call of `err` fails, a beginning of the line was printed, and the call is
/// counted. If the words ask for nothing that the program does, it prints on `err` what is wrong with them, and nothing
/// on `out`. Fewer than `u64::MAX` calls of `err` must have failed before.
pub fn run<R: rt::Files + AllocGlobal + Threads + Wait + Sync, O: Write, E: Write>(
    rt: &R,
    words: Vec<String>,
    out: &mut O,
    err: &mut Counted<&mut E>,
) -> u8
    requires written { failures_of err.old < 2 ^ 64 - 1 }
    ensures status { result ≤ 2 }
    ensures done { result ≡ 0 → HasAnswered (map string_bytes words.items) (O.contents out.old) (O.contents out.new) }
    ensures wrong { result ≡ 2 → AsksNoCommand (map string_bytes words.items) }
    ensures misused { result ≡ 2 → Keeps (O.contents out.old) (O.contents out.new) }
    ensures refused { result ≡ 1 → (refusal : ARefusal) × IsReason (map string_bytes words.items) (O.contents out.old) (O.contents out.new) refusal
        × Says (failures_of err.old) (failures_of err.new) (E.contents (inner_of err.old).now) (E.contents (inner_of err.new).now) refusal }
{
    let mut out = Counted::new(out);
    let answered = answer(rt.alloc(), rt, &mut RuntimeFiles::new(rt), &words, &mut out);
    respond(answered, err)
}

/// Why words were not answered.
#[derive(Debug, Drop)]
pub enum Unanswered {
    /// What the words ask for was refused, or memory ran out before they were read.
    Refused(CommandRefusal),
    /// The words ask for nothing that the program does. The parser says what is wrong with them.
    Misused(clap::Error),
}

/// Does what the words after the program's name ask for, with these files, and flushes the output. A refusal is that of
/// their task, with its cause. A task that makes no file leaves the files as they were, if it is done. If the words ask
/// for nothing that the program does, neither the files nor the output are touched. Fewer than `u64::MAX` calls of the
/// output must have failed before.
pub fn answer<R: Threads + Wait + Sync, F: Files, O: Write>(
    alloc: Global,
    rt: &R,
    files: &mut F,
    words: &[String],
    out: &mut Counted<&mut O>,
) -> Result<(), Unanswered>
    requires written { failures_of out.old < 2 ^ 64 - 1 }
    ensures done { OnOk result (DoesAsked (F.disk files.old) files.old files.new (O.contents (inner_of out.old).now) (O.contents (inner_of out.new).now) (map string_bytes words.now)) }
    ensures flushed { OnOk result (is_flushed_of out.new ≡ true) }
    ensures counts { OnOk result (failures_of out.new ≡ failures_of out.old) }
    ensures cause { IfErr result (IsUnanswered (F.disk files.old) files.old files.new (failures_of out.old) (failures_of out.new) (O.contents (inner_of out.old).now) (O.contents (inner_of out.new).now) (map string_bytes words.now)) }
    ensures sent { IfErr result (LeavesSent (is_flushed_of out.old) (is_flushed_of out.new)) }
    ensures same_writer { writer_of out.new ≡ writer_of out.old }
{
    match read_task(alloc, words) {
        Ok(task) => match perform(alloc, rt, files, task, out) {
            Ok(()) => Ok(()),
            Err(refusal) => Err(Unanswered::Refused(refusal)),
        },
        Err(error) => Err(unread(error)),
    }
}

// Why words that could not be read are not answered: memory ran out, or they ask for nothing that the program does.
fn unread(error: clap::Error) -> Unanswered
    ensures refused { kind_of error ≡ kind.OutOfMemory → result ≡ Refused OutOfMemory }
    ensures misused { kind_of error ≢ kind.OutOfMemory → result ≡ Misused error }
{
    if error.kind() == ErrorKind::OutOfMemory {
        Unanswered::Refused(CommandRefusal::OutOfMemory)
    } else {
        Unanswered::Misused(error)
    }
}

// The status of an answer. A refusal prints its line on `err`; if the words are wrong, it prints the parser's report.
fn respond<E: Write>(answered: Result<(), Unanswered>, err: &mut Counted<&mut E>) -> u8
    requires written { failures_of err.old < 2 ^ 64 - 1 }
    ensures status { result ≡ status_of answered }
    ensures said { IfErr answered (Reports (failures_of err.old) (failures_of err.new) (E.contents (inner_of err.old).now) (E.contents (inner_of err.new).now)) }
{
    match answered {
        Ok(()) => DONE,
        Err(Unanswered::Refused(refusal)) => {
            say(refusal, err);
            REFUSED
        }
        Err(Unanswered::Misused(error)) => {
            let _ = write!(err, "{error}");
            MISUSED
        }
    }
}

// Prints the line of a refusal on `err`, and flushes it. If that fails, nothing more is done.
pub(crate) fn say<E: Write>(refusal: CommandRefusal, err: &mut Counted<&mut E>)
    requires written { failures_of err.old < 2 ^ 64 - 1 }
    ensures { Says (failures_of err.old) (failures_of err.new) (E.contents (inner_of err.old).now) (E.contents (inner_of err.new).now) refusal }
{
    if let Ok(()) = print_refusal(refusal, err) {
        let _ = flush(err);
    }
}
