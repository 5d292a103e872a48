//! The rule of the lanes, and the steps that are made there.
ghost use Rattle.mark_job.specs.Lanes.{Holds, takes, puts, first_view};

use crate::image::Image;
use crate::lane::Lane;
use crate::view::View;
use atomic_table::{Play, TableRule};

/// The rule: a lane that no helper has is one of objects that the roots of this heap reach.
pub struct LaneRule;

impl TableRule<Lane, View, Image> for LaneRule {
    ghost holds = { Holds };

    ghost first = { first_view };
}

/// Takes a lane, by a swap.
pub struct TakeLane;

impl Play<Lane, View> for TakeLane {
    ghost then = { takes };
}

/// Puts it back, by a store.
pub struct PutLane;

impl Play<Lane, View> for PutLane {
    ghost then = { puts };
}
