ghost use Rattle.std.specs.Prelude.{◌≡◌};
ghost use Rattle.heap_layout.specs.Heap.{live};
ghost use Rattle.page_plan.specs.Sliding as sliding;
ghost use Rattle.page_cells.specs.CellViews.{setup_of};
ghost use Rattle.comp_cycles.specs.Forwarded.{AreForwarded};

use page_cells::Cells;
use page_plan::Plan;
use std::sync::Arc;

/// What the mutators of a crew share: the cells, the plan and the forwarded roots. The name tells crews apart.
#[derive(Drop)]
pub struct Crew {
    pub(crate) cells: Cells<Plan>,
    pub(crate) plan: Arc<Plan>,
    pub(crate) roots: Vec<u64>,
    pub(crate) mutators: u8,
    pub(crate) name: u64,
    ghost planned: { (setup_of cells).heap ≡ plan.value },
    ghost slid: { (setup_of cells).compacted ≡ sliding.pages (live (setup_of cells).heap) },
    ghost forwarded: { AreForwarded (setup_of cells).heap roots.items },
    ghost all: { mutators ≡ (setup_of cells).mutators },
}
