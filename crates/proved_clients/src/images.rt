//! What the mark tables and the plan of an image agree on.
ghost use Rattle.std.specs.Prelude.{◌≡◌, ◌-◌, ◌^◌, ◌<◌, Some, IfSome, IsSome};
ghost use Rattle.heap_layout.specs.Counted.{failures_of};
ghost use Rattle.page_plan.specs.Sliding.{to_address};

use heap_layout::{Counted, FROM_SPACE, read_image};
use mark_tables::Tables;
use page_plan::Plan;
use std::alloc::Global;
use std::io::Read;
use std::thread::Threads;

/// Reads an image, and answers where its marked object with this number slides: its to-space index by the mark tables,
/// and its forwarding address by the plan. If the heap has this object and all succeed, both are known and agree.
pub fn place_marked<R: Read>(
    alloc: Global,
    rt: &(impl Threads + Sync),
    image: &mut Counted<R>,
    number: usize,
) -> Option<(Option<u64>, Option<u64>)>
    requires { failures_of image.old < 2 ^ 64 - 1 }
    ensures known { IfSome result (λ found. IsSome found.0) }
    ensures agree { IfSome result (λ found. IfSome found.0 (λ place. found.1 ≡ Some (to_address place))) }
{
    let Ok(heap) = read_image(alloc, image) else {
        return None;
    };
    if number >= heap.marks().len() {
        return None;
    }
    let index = u64::from(heap.marks()[number]);
    let Ok(tables) = Tables::build(alloc, rt, &heap) else {
        return None;
    };
    let Ok(plan) = Plan::new(alloc, rt, heap) else {
        return None;
    };
    Some((tables.new_place(index), plan.forward(FROM_SPACE + index)))
}
