//! Gathers the ways of region queues after their workers have ended.
ghost use Rattle.std.specs.Prelude.{◌≡◌, ℕ, [], length, map};
ghost use Rattle.comp_mutator.specs.Lists.{Each};
ghost use Rattle.comp_sweep.specs.Queues.{HasGathered, IsAlone, Linked, put_in, standings, taken_in, way_name};

use crate::deques::Way;
use crate::queues::RegionQueue;
use std::alloc::Global;

// Gives each of these ways back to the deque to which it leads.
fn give_back(queues: &mut Vec<RegionQueue>, ways: Vec<Way>)
    requires { Linked (standings queues.old.items) (map way_name ways.items) }
    ensures { HasGathered queues.old.items queues.new.items ways.items }
{
    for way in ways {
        let at = way.index();
        let queue = &mut queues[at];
        queue.absorb(way);
    }
}

/// Gives each way back to the deque to which it leads. What was put and what was taken in all is unchanged.
///
/// Requires that the region queues hold all ways to their deques, and no others. `distribute` makes them so, and
/// `next_region` keeps them so.
pub fn gather(alloc: Global, queues: &mut Vec<RegionQueue>)
    requires { Linked (standings queues.old.items) [] }
    ensures count { length queues.new.items ≡ length queues.old.items }
    ensures alone { Each (standings queues.new.items) IsAlone }
    ensures put { (x : ℕ) → put_in x (standings queues.new.items) ≡ put_in x (standings queues.old.items) }
    ensures taken { (x : ℕ) → taken_in x queues.new.items ≡ taken_in x queues.old.items }
{
    for k in 0..queues.len() {
        let queue = &mut queues[k];
        let ways = queue.free(alloc);
        give_back(queues, ways);
    }
}
