//! What a pass finds on a page that it built.
ghost use Rattle.std.specs.Prelude.{◌≡◌, Ok, false, IfOk};
ghost use Rattle.page_cells.specs.CellViews.{IsPassOf};
ghost use Rattle.page_cells.specs.Passes.{Rests};

use page_cells::{CellRefusal, Cells, Pass};
use page_plan::Builder;
use std::alloc::Global;

/// Builds a page twice. After the first, the second is never refused and answers that the page was built before.
pub fn build_twice<B: Builder>(
    alloc: Global,
    cells: &Cells<B>,
    pass: &mut Pass,
    p: u64,
) -> Result<Result<bool, CellRefusal>, CellRefusal>
    requires of { IsPassOf cells.now pass.old }
    requires rests { Rests pass.old }
    ensures before { IfOk result (λ again. again ≡ Ok false) }
{
    cells.try_build(alloc, pass, p)?;
    Ok(cells.try_build(alloc, pass, p))
}
