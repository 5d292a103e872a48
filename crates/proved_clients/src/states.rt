//! What a pass that is alone finds in the cell of a page.
ghost use Rattle.std.specs.Prelude.{◌≡◌, ◌≤◌, IfSome};
ghost use Rattle.cell_steps.specs.declared.state.CellState.TheVariants.{Empty, BuiltBy};

use cell_steps::{CellState, Steps};
use page_plan::Plan;
use std::alloc::Global;

/// Makes cells for one pass, which begins to build a page, loads the state word of the page, and gives the build up. If
/// there is memory and a page `p`, it found the cell empty, and then that it builds the page.
pub fn claim_and_load(
    alloc: Global,
    plan: &Plan,
    fresh: u32,
    p: u64,
) -> Option<(CellState, CellState)>
    requires fresh { fresh ≤ 4096 }
    ensures empty { IfSome result (λ found. found.0 ≡ Empty) }
    ensures builds { IfSome result (λ found. found.1 ≡ BuiltBy 0) }
{
    let Ok((steps, mut pass)) = Steps::new(alloc, plan, fresh, 1) else {
        return None;
    };
    if p >= steps.pages() {
        return None;
    }
    let empty = steps.claim_empty(&mut pass, p);
    let builds = steps.load_state(&mut pass, p);
    steps.give_up(&mut pass, p);
    Some((empty, builds))
}
