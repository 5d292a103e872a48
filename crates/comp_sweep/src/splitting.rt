//! Distributes the regions of a heap to the workers.
ghost use Rattle.std.specs.Prelude.{◌≡◌, ℕ, ◌<◌, length, OnOk, IfOk};
ghost use Rattle.comp_sweep.specs.Queues.{AreDistributed, standings, taken_in};

use crate::linking::link;
use crate::queues::RegionQueue;
use heap_layout::OutOfMemory;
use std::alloc::Global;

// Makes a region queue for each worker, with no region and no way, and with room for `room` regions.
fn empty_queues(alloc: Global, room: usize, workers: usize) -> Result<Vec<RegionQueue>, OutOfMemory>
    ensures count { IfOk result (λ queues. length queues.items ≡ workers) }
    ensures distributed { IfOk result (λ queues. AreDistributed 0 (standings queues.items)) }
    ensures none { IfOk result (λ queues. (x : ℕ) → taken_in x queues.items ≡ 0) }
{
    let mut queues = Vec::with_capacity(alloc, workers)?;
    for _ in 0..workers {
        queues.push_reserved(RegionQueue::new(alloc, room)?);
    }
    Ok(queues)
}

// Puts each region below `regions` into one of the region queues: region q into queue q modulo the number of queues. No
// clause promises which.
fn put_all(queues: &mut Vec<RegionQueue>, regions: u64) -> Result<(), OutOfMemory>
    requires some { 0 < length queues.old.items }
    requires distributed { AreDistributed 0 (standings queues.old.items) }
    ensures count { OnOk result (length queues.new.items ≡ length queues.old.items) }
    ensures distributed { OnOk result (AreDistributed regions (standings queues.new.items)) }
    ensures taken { OnOk result ((x : ℕ) → taken_in x queues.new.items ≡ taken_in x queues.old.items) }
{
    for region in 0..regions {
        let at = (region % (queues.len() as u64)) as usize;
        let queue = &mut queues[at];
        queue.put(region)?;
    }
    Ok(())
}

/// Makes a region queue for each worker, with ways to all others, and puts each region below `regions` into one of
/// them. Requires at least one worker.
pub fn distribute(
    alloc: Global,
    regions: u64,
    workers: usize,
) -> Result<Vec<RegionQueue>, OutOfMemory>
    requires { 0 < workers }
    ensures count { IfOk result (λ queues. length queues.items ≡ workers) }
    ensures distributed { IfOk result (λ queues. AreDistributed regions (standings queues.items)) }
    ensures none { IfOk result (λ queues. (x : ℕ) → taken_in x queues.items ≡ 0) }
{
    let room = regions.div_ceil(workers as u64) as usize;
    let mut queues = empty_queues(alloc, room, workers)?;
    put_all(&mut queues, regions)?;
    link(&mut queues)?;
    Ok(queues)
}
