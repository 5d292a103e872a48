//! Exports for the lanes of a marking by several markers, while the threads of the heap go on.
ghost use Rattle.std.specs.Prelude.{◌≡◌, None};
ghost use Rattle.handle_base.specs.HandleKinds.{lane_in, Asks};
ghost use Rattle.beside_handle.specs.Lanes.{BeginsLane, GivesInLane, JoinsLanes, LooksInLane, MeetsInLane, SharesLane, TakesInLane, WholesLane};
ghost use Rattle.beside_handle.specs.Looks.{CopiesWaiting};

use handle_base::{Answer, Handle};
use std::alloc::Global;

/// Begins to mark a heap of this edition, 3 or 4, and of so many words, by several markers.
#[unsafe(no_mangle)]
pub extern "C" fn compressor_lane_begin(
    alloc: Global,
    edition: u32,
    count: u64,
    lane: &mut Handle,
) -> Answer
    ensures { BeginsLane edition count lane.old.kept lane.new.kept result }
{
    beside_handle::begin_lane(alloc, edition, count, lane)
}

/// Another lane of a marking, for another marker.
#[unsafe(no_mangle)]
pub extern "C" fn compressor_lane_share(
    alloc: Global,
    lane: &mut Handle,
    other: &mut Handle,
) -> Answer
    ensures same { lane.new.kept ≡ lane.old.kept }
    ensures shares { SharesLane lane.old.kept other.old.kept other.new.kept result }
{
    beside_handle::share_lane(alloc, lane, other)
}

/// Copies the indices of the objects that wait to be looked at.
#[unsafe(no_mangle)]
pub extern "C" fn compressor_c_lane_waiting(
    alloc: Global,
    lane: &mut Handle,
    indices: &mut [u64],
) -> Answer
    ensures same { lane.new.kept ≡ lane.old.kept }
    ensures copies { Asks 0 lane_in (λ own a. CopiesWaiting indices.old indices.new own.own a) (indices.new ≡ indices.old) lane.old.kept result }
{
    beside_handle::waiting_lane(alloc, lane, indices)
}

/// Meets the objects to which these values lead.
#[unsafe(no_mangle)]
pub extern "C" fn compressor_c_lane_meet(alloc: Global, lane: &mut Handle, values: &[u64]) -> Answer
    ensures { MeetsInLane values.now lane.old.kept lane.new.kept result }
{
    beside_handle::meet_lane(alloc, lane, values)
}

/// Looks at the next objects that wait, one for each row.
#[unsafe(no_mangle)]
pub extern "C" fn compressor_c_lane_look(alloc: Global, lane: &mut Handle, rows: &[u64]) -> Answer
    ensures { LooksInLane rows.now lane.old.kept lane.new.kept result }
{
    beside_handle::look_lane(alloc, lane, rows)
}

/// Gives the last objects that wait away.
#[unsafe(no_mangle)]
pub extern "C" fn compressor_c_lane_give(
    alloc: Global,
    lane: &mut Handle,
    indices: &mut [u64],
) -> Answer
    ensures { GivesInLane indices.old indices.new lane.old.kept lane.new.kept result }
{
    beside_handle::give_lane(alloc, lane, indices)
}

/// Takes over the objects at these indices.
#[unsafe(no_mangle)]
pub extern "C" fn compressor_c_lane_take(
    alloc: Global,
    lane: &mut Handle,
    indices: &[u64],
) -> Answer
    ensures { TakesInLane indices.now lane.old.kept lane.new.kept result }
{
    beside_handle::take_lane(alloc, lane, indices)
}

/// Joins another lane to this one. The handle of the other one is empty then.
#[unsafe(no_mangle)]
pub extern "C" fn compressor_lane_join(
    alloc: Global,
    lane: &mut Handle,
    other: &mut Handle,
) -> Answer
    ensures { JoinsLanes lane.old.kept lane.new.kept other.old.kept other.new.kept result }
{
    beside_handle::join_lanes(alloc, lane, other)
}

/// The whole marking. Its handle keeps it then, and that of the lane is empty.
#[unsafe(no_mangle)]
pub extern "C" fn compressor_lane_whole(
    alloc: Global,
    lane: &mut Handle,
    looks: &mut Handle,
) -> Answer
    ensures { WholesLane lane.old.kept lane.new.kept looks.old.kept looks.new.kept result }
{
    beside_handle::whole_lane(alloc, lane, looks)
}

/// Drops a lane. Its handle is empty then.
#[unsafe(no_mangle)]
pub extern "C" fn compressor_lane_drop(alloc: Global, lane: &mut Handle)
    ensures { lane.new.kept ≡ None }
{
    flip_handle::drop_kept(alloc, lane);
}
