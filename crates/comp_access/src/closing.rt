//! The end of all hands.
ghost use Rattle.std.specs.Prelude.{◌+◌, ◌*◌, ◌≤◌};
ghost use Rattle.heap_layout.specs.Heap.{live};
ghost use Rattle.page_plan.specs.Sliding.{live_words};
ghost use Rattle.cell_steps.specs.Setup.{pages};
ghost use Rattle.page_cells.specs.CellEnds.{AreOf, IsInOrder};
ghost use Rattle.page_cells.specs.CellViews.{mutators_of, setup_of};
ghost use Rattle.page_cells.specs.Rooms.{IsRoomFor};
ghost use Rattle.comp_cycles.specs.Ends.{IsEndOf};
ghost use Rattle.comp_cycles.specs.Finishes.{allocated_by, IsFinished, IsOfFlip};
ghost use Rattle.comp_cycles.specs.declared.finished.Finished.{Finished as AFinished};
ghost use Rattle.comp_access.specs.Endings.{IsLeft};

use cell_steps::Pass;
use page_cells::{Cells, Closed, Room};
use page_plan::Builder;

/// Ends the passes of all hands, which are in the order of their numbers, and answers the pages and what each pass
/// built. Takes no memory.
///
/// These are a finished heap together with the heap's edition, its forwarded roots, and as many live words as slid and
/// as the passes allocated (`finished`). It is the end of the cycle of the heap that was flipped (`end`). These words
/// fit on the pages (`fits`).
///
/// Requires that the passes were made with these cells and hold no page, that none of them is missing, and the room
/// that `closing_room` gives.
pub fn close_row<B: Builder>(cells: Cells<B>, passes: Vec<Pass>, room: Room) -> Closed
    requires of { AreOf cells passes.items }
    requires ordered { IsInOrder (mutators_of cells) passes.items passes.items }
    requires room { IsRoomFor (mutators_of cells) room }
    ensures fits { live_words (live (setup_of cells).heap) + allocated_by passes.items ≤ 64 * pages (setup_of cells) }
    ensures finished { (f : AFinished) → IsLeft (setup_of cells) passes.items result f → IsFinished (setup_of cells) passes.items f }
    ensures flipped { (f : AFinished) → IsLeft (setup_of cells) passes.items result f → IsOfFlip (setup_of cells).mutators (setup_of cells).fresh f }
    ensures end { (f : AFinished) → IsLeft (setup_of cells) passes.items result f → IsEndOf (setup_of cells).heap f }
{
    page_plan::heap_is_closed(cells.plan());
    comp_history::one_history();
    comp_history::beginnings_are_points();
    comp_history::merged_references_are_starts();
    comp_history::own_entries();
    comp_history::writers_add_up();
    comp_history::objects_fit();
    comp_cycles::finished_is_end();
    cells.close_row(passes, room)
}
