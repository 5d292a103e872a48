//! The heap in cells of pages.
ghost use Rattle.std.specs.Prelude.{◌^◌, ◌<◌, ◌≤◌, OnOk};
ghost use Rattle.std.specs.String.{string_bytes};
ghost use Rattle.heap_map.specs.Cells.{AddsCells, IsShade};
ghost use Rattle.heap_map.specs.Layout.{cell_count};

use crate::grid::{Grid, put_numbered};
use heap_layout::MarkedHeap;
use page_plan::Plan;
use std::alloc::AllocError;

/// The shade of a cell of so many words of which so many are live: 0 if none is, then 1 up to a quarter, 2 up to a
/// half, 3 up to three quarters, 4 below all, and 5 if all are.
pub fn shade(live: u64, words: u64) -> u64
    requires { 0 < words }
    ensures { result ≤ 5 }
{
    if live == 0 {
        0
    } else if live >= words {
        5
    } else {
        1 + (live.saturating_mul(4) - 1) / words
    }
}

/// How much of from-space is live, cell by cell, in one pass over the marks.
#[derive(Clone, Copy)]
pub struct LiveWords {
    // The number of the first mark whose object does not end before `begin`.
    mark: usize,
    // All cells below this index were counted.
    begin: u64,
}

impl LiveWords {
    /// Before the first cell.
    pub fn new() -> LiveWords {
        LiveWords { mark: 0, begin: 0 }
    }

    /// How many words are live from where the last call ended up to the index `end`.
    pub fn up_to(&mut self, heap: &MarkedHeap, end: u64) -> u64 {
        let marks = heap.marks();
        let mut live = 0u64;
        while self.mark < marks.len() {
            let start = marks[self.mark];
            let past = u64::from(start) + size_at(heap, start);
            let first = u64::from(start).max(self.begin);
            live = live.saturating_add(past.min(end).saturating_sub(first));
            if past > end {
                break;
            }
            self.mark += 1;
        }
        self.begin = end;
        live
    }
}

// How many words the object at an index has: 0 if there is no word there.
fn size_at(heap: &MarkedHeap, start: u32) -> u64
    ensures { result < 2 ^ 32 }
{
    if (start as usize) < heap.words().len() {
        u64::from(heap.header_at(start as usize).size())
    } else {
        0
    }
}

/// Adds the cells of from-space, each by how much of it is live.
pub fn draw_from_pages(
    picture: &mut String,
    grid: &Grid,
    heap: &MarkedHeap,
) -> Result<(), AllocError>
    requires { grid.now.pages < 2 ^ 58 }
    ensures { OnOk result (AddsCells grid.now.top (cell_count grid.now.scale grid.now.pages) (λ _ name. IsShade name) (string_bytes picture.old) (string_bytes picture.new)) }
{
    let words = grid.scale.words_of_cell();
    let mut live_words = LiveWords::new();
    for cell in 0..grid.cells() {
        let begin = grid.cell_start(cell);
        let live = live_words.up_to(heap, begin.saturating_add(words));
        put_numbered(picture, "s", shade(live, words), grid.corner_of(cell))?;
    }
    Ok(())
}

/// How many slid words the cell that begins at an index has.
pub fn slid_in(plan: &Plan, begin: u64, words: u64) -> u64 {
    plan.live_words().saturating_sub(begin).min(words)
}

/// Adds the cells of the slid words, as the plan has them.
pub fn draw_slid_pages(picture: &mut String, grid: &Grid, plan: &Plan) -> Result<(), AllocError>
    requires { grid.now.pages < 2 ^ 58 }
    ensures { OnOk result (AddsCells grid.now.top (cell_count grid.now.scale grid.now.pages) (λ _ name. IsShade name) (string_bytes picture.old) (string_bytes picture.new)) }
{
    let words = grid.scale.words_of_cell();
    for cell in 0..grid.cells() {
        let begin = grid.cell_start(cell);
        let shade = shade(slid_in(plan, begin, words), words);
        put_numbered(picture, "s", shade, grid.corner_of(cell))?;
    }
    Ok(())
}
