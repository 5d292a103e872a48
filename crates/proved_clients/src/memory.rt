//! What a caller of the commands can conclude about files in memory.
ghost use Rattle.std.specs.Prelude.{◌≡◌, ◌≢◌, ◌-◌, ◌^◌, ◌<◌, ◌≤◌, Err, IfErr, OnOk};
ghost use Rattle.heap_layout.specs.Counted.{failures_of};
ghost use Rattle.command_io.specs.declared.refusal.CommandRefusal.TheVariants as refusals;
ghost use Rattle.proved_clients.specs.KeptInMemory.{KeepsRaced, KeepsReplayed, KeptOrNot};

use command_io::{CommandRefusal, MemoryFiles};
use command_line::{Task, TraceRun};
use commands::perform;
use heap_layout::Counted;
use std::alloc::Global;
use std::io::Write;
use std::sync::Wait;
use std::thread::Threads;

/// Replays a trace over files in memory. If it is done, the dump of the run is at its path, whole, and each other path
/// has what it had. If a call of the output failed, that holds, or all files are as they were. After any other refusal
/// all files are as they were.
pub fn replay_in_memory<R: Threads + Wait + Sync, O: Write>(
    alloc: Global,
    rt: &R,
    files: &mut MemoryFiles,
    asked: TraceRun<'_>,
    out: &mut Counted<&mut O>,
) -> Result<(), CommandRefusal>
    requires mutators { (1 ≤ asked.mutators) × (asked.mutators ≤ 64) }
    requires fresh { asked.fresh ≤ 4096 }
    requires written { failures_of out.old < 2 ^ 64 - 1 }
    ensures kept { OnOk result (KeepsReplayed files.old asked.entry files.new) }
    ensures unprinted { result ≡ Err refusals.CannotPrint → KeptOrNot (KeepsReplayed files.old asked.entry files.new) files.old files.new }
    ensures refused { IfErr result (λ refusal. refusal ≢ refusals.CannotPrint → files.new ≡ files.old) }
{
    command_io::written_is_there();
    perform(alloc, rt, files, Task::Replay(asked), out)
}

/// Races a trace over files in memory. If it is done, the dump of the run is at its path, whole, and each other path
/// has what it had; if not, the files are as `replay_in_memory` says.
pub fn race_in_memory<R: Threads + Wait + Sync, O: Write>(
    alloc: Global,
    rt: &R,
    files: &mut MemoryFiles,
    asked: TraceRun<'_>,
    out: &mut Counted<&mut O>,
) -> Result<(), CommandRefusal>
    requires mutators { (1 ≤ asked.mutators) × (asked.mutators ≤ 64) }
    requires fresh { asked.fresh ≤ 4096 }
    requires written { failures_of out.old < 2 ^ 64 - 1 }
    ensures kept { OnOk result (KeepsRaced files.old asked.entry files.new) }
    ensures unprinted { result ≡ Err refusals.CannotPrint → KeptOrNot (KeepsRaced files.old asked.entry files.new) files.old files.new }
    ensures refused { IfErr result (λ refusal. refusal ≢ refusals.CannotPrint → files.new ≡ files.old) }
{
    command_io::written_is_there();
    perform(alloc, rt, files, Task::Race(asked), out)
}
