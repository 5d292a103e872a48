//! The ways from each worker to the deques of the others.
ghost use Rattle.std.specs.Prelude.{◌<◌, [], length, OnOk};
ghost use Rattle.comp_sweep.specs.Queues.{HasLinked, Linked, standings};

use crate::queues::RegionQueue;
use heap_layout::OutOfMemory;

// Makes a way from worker `from` to the deque of worker `to`.
fn link_to(queues: &mut Vec<RegionQueue>, from: usize, to: usize) -> Result<(), OutOfMemory>
    requires from { from < length queues.old.items }
    requires to { to < length queues.old.items }
    requires linked { Linked (standings queues.old.items) [] }
    ensures { OnOk result (HasLinked queues.old.items queues.new.items) }
{
    let goal = &mut queues[to];
    let way = goal.way(to)?;
    let holder = &mut queues[from];
    holder.hold(way)?;
    Ok(())
}

// Makes ways from this worker to all others, first to the next one: so idle workers do not all begin with the same
// deque.
fn link_all(queues: &mut Vec<RegionQueue>, from: usize) -> Result<(), OutOfMemory>
    requires from { from < length queues.old.items }
    requires linked { Linked (standings queues.old.items) [] }
    ensures { OnOk result (HasLinked queues.old.items queues.new.items) }
{
    let count = queues.len();
    for step in 1..count {
        link_to(queues, from, (from + step) % count)?;
    }
    Ok(())
}

/// Makes ways from each worker to all others.
pub(crate) fn link(queues: &mut Vec<RegionQueue>) -> Result<(), OutOfMemory>
    requires { Linked (standings queues.old.items) [] }
    ensures { OnOk result (HasLinked queues.old.items queues.new.items) }
{
    for from in 0..queues.len() {
        link_all(queues, from)?;
    }
    Ok(())
}
