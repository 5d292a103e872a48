//! What a caller of `next` can conclude about files in memory.
ghost use Rattle.std.specs.Prelude.{◌≡◌, ◌-◌, ◌^◌, ◌<◌, ◌≤◌, OnOk};
ghost use Rattle.heap_layout.specs.Counted.{failures_of};
ghost use Rattle.proved_clients.specs.TwoNexts.{LivesOn};

use command_io::{CommandRefusal, MemoryFiles};
use command_line::{NextRun, Task};
use commands::perform;
use heap_layout::Counted;
use std::alloc::Global;
use std::io::Write;
use std::sync::Wait;
use std::thread::Threads;

/// Runs `next` twice over files in memory: the second run reads the image that the first one left. The two cycles are
/// one life of a heap whose objects never move.
pub fn next_twice_in_memory<R: Threads + Wait + Sync, O: Write>(
    alloc: Global,
    rt: &R,
    files: &mut MemoryFiles,
    first: NextRun<'_>,
    second: NextRun<'_>,
    out: &mut Counted<&mut O>,
) -> Result<(), CommandRefusal>
    requires mutators { (1 ≤ first.mutators) × (first.mutators ≤ 64) }
    requires fresh { first.fresh ≤ 4096 }
    requires workers { (1 ≤ first.workers) × (first.workers ≤ 64) }
    requires second_mutators { (1 ≤ second.mutators) × (second.mutators ≤ 64) }
    requires second_fresh { second.fresh ≤ 4096 }
    requires second_workers { (1 ≤ second.workers) × (second.workers ≤ 64) }
    requires follows { second.image.now ≡ first.new.now }
    requires written { failures_of out.old < 2 ^ 64 - 1 }
    ensures { OnOk result (LivesOn files.old first.entry second.entry files.new) }
{
    command_io::written_is_there();
    commands::nexts_are_one_life();
    perform(alloc, rt, files, Task::Next(first), out)?;
    perform(alloc, rt, files, Task::Next(second), out)
}
