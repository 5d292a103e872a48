//! To-space as a dump has it, in cells of pages.
ghost use Rattle.std.specs.Prelude.{◌≡◌, ℕ, ◌+◌, ◌/◌, ◌^◌, ◌<◌, ◌≤◌, [], ◌∷◌, false, IsSome, IsTrue, None, OnOk, slice_index_or};
ghost use Rattle.std.specs.String.{string_bytes};
ghost use Rattle.heap_map.specs.Cells.{Adds, AddsCells};
ghost use Rattle.heap_map.specs.Layout.{cell_count, shape_text};
ghost use Rattle.heap_map.specs.Pictures.{cell_name, IsDumpCell};
ghost use Rattle.heap_map.specs.declared.layout.Scale.TheVariants as scales;

use crate::dumped::builder_of;
use crate::grid::{Grid, Point, put, put_numbered};
use crate::made::new_words;
use crate::pages::{shade, slid_in};
use crate::palette::Colour;
use comp_dump::Dump;
use page_plan::Plan;
use std::alloc::AllocError;

/// Adds the compacted pages of a dump in cells of `2^k` pages.
pub fn draw_compacted_cells(
    picture: &mut String,
    grid: &Grid,
    plan: &Plan,
    dump: &Dump<'_>,
    builders: &[Option<u8>],
    k: u8,
) -> Result<(), AllocError>
    requires scale { grid.now.scale ≡ scales.Pages k }
    requires few { grid.now.pages < 2 ^ 57 }
    ensures { OnOk result (AddsCells grid.now.top (cell_count (scales.Pages k) grid.now.pages) (IsDumpCell k dump.now 0 grid.now.pages) (string_bytes picture.old) (string_bytes picture.new)) }
{
    let words = grid.scale.words_of_cell();
    for cell in 0..grid.cells() {
        let begin = grid.cell_start(cell);
        let counts = counts_of(dump, builders, begin / 64, words / 64, grid.pages);
        let shade = shade(slid_in(plan, begin, words), words);
        let built = is_built(dump, 0, grid.pages, cell, k);
        draw_cell(picture, grid.corner_of(cell), built, shade, counts)?;
    }
    Ok(())
}

/// Adds the fresh pages of a dump, from page `first` on, in cells of `2^k` pages.
pub fn draw_fresh_cells(
    picture: &mut String,
    grid: &Grid,
    dump: &Dump<'_>,
    builders: &[Option<u8>],
    first: u64,
    k: u8,
) -> Result<(), AllocError>
    requires scale { grid.now.scale ≡ scales.Pages k }
    requires few { grid.now.pages < 2 ^ 57 }
    requires low { first < 2 ^ 57 }
    ensures { OnOk result (AddsCells grid.now.top (cell_count (scales.Pages k) grid.now.pages) (IsDumpCell k dump.now first grid.now.pages) (string_bytes picture.old) (string_bytes picture.new)) }
{
    let words = grid.scale.words_of_cell();
    let end = dump.pages().len() as u64;
    for cell in 0..grid.cells() {
        let from = first.saturating_add(grid.cell_start(cell) / 64);
        let counts = counts_of(dump, builders, from, words / 64, end);
        let shade = shade(counts.new_words, words);
        let built = is_built(dump, first, grid.pages, cell, k);
        draw_cell(picture, grid.corner_of(cell), built, shade, counts)?;
    }
    Ok(())
}

// Whether a page was built of a cell of `2^k` pages, in a space of so many pages that begins with page `first`.
fn is_built(dump: &Dump<'_>, first: u64, pages: u64, cell: u64, k: u8) -> bool
    requires few { pages < 2 ^ 57 }
    requires low { first < 2 ^ 57 }
    ensures none { result ≡ false → (p : ℕ) → p < pages → p / 2 ^ k ≡ cell → slice_index_or dump.now.pages (first + p) None ≡ None }
    ensures some { IsTrue result → (p : ℕ) × (p < pages) × (p / 2 ^ k ≡ cell) × IsSome (slice_index_or dump.now.pages (first + p) None) }
{
    let step = 2u64.saturating_pow(u32::from(k));
    let begin = cell.saturating_mul(step);
    any_built(dump, first, begin, begin.saturating_add(step).min(pages))
}

// Whether one of the pages from `begin` to `end` was built, which are counted from page `first` on.
fn any_built(dump: &Dump<'_>, first: u64, begin: u64, end: u64) -> bool
    requires few { end < 2 ^ 57 }
    requires low { first < 2 ^ 57 }
    ensures none { result ≡ false → (p : ℕ) → begin ≤ p → p < end → slice_index_or dump.now.pages (first + p) None ≡ None }
    ensures some { IsTrue result → (p : ℕ) × (begin ≤ p) × (p < end) × IsSome (slice_index_or dump.now.pages (first + p) None) }
{
    for p in begin..end {
        if dump.pages().page((first + p) as usize).is_some() {
            return true;
        }
    }
    false
}

/// What a cell of pages of a dump has.
#[derive(Clone, Copy)]
struct CellCounts {
    // How many entries its pages have.
    entries: u64,
    // How many words of new objects.
    new_words: u64,
    // The builder of the first of them that a list names.
    builder: Option<u8>,
}

// What the pages from `first` on have, at most `many` of them, and only those below `end`.
fn counts_of(
    dump: &Dump<'_>,
    builders: &[Option<u8>],
    first: u64,
    many: u64,
    end: u64,
) -> CellCounts {
    let mut counts = CellCounts {
        entries: 0,
        new_words: 0,
        builder: None,
    };
    for p in first..first.saturating_add(many).min(end) {
        if let Some(page) = dump.pages().page(p as usize) {
            counts.entries = counts.entries.saturating_add(page.journal().len() as u64);
            let new_words = new_words(dump.edition(), page.journal());
            counts.new_words = counts.new_words.saturating_add(u64::from(new_words));
        }
        counts.builder = counts.builder.or(builder_of(builders, p));
    }
    counts
}

// Adds a cell of pages: hatched if none was built; else its shade, and a dot for its entries; and a frame in the colour
// of its builder.
fn draw_cell(
    picture: &mut String,
    corner: Point,
    built: bool,
    shade: u64,
    counts: CellCounts,
) -> Result<(), AllocError>
    ensures { OnOk result (Adds (shape_text (cell_name built shade) corner.x corner.y ∷ []) (string_bytes picture.old) (string_bytes picture.new)) }
{
    put_cell(picture, corner, built, shade)?;
    note_cell(picture, corner, counts)
}

// Adds the shade of a cell of pages, or hatches it if none of them was built.
fn put_cell(picture: &mut String, corner: Point, built: bool, shade: u64) -> Result<(), AllocError>
    ensures { OnOk result (Adds (shape_text (cell_name built shade) corner.x corner.y ∷ []) (string_bytes picture.old) (string_bytes picture.new)) }
{
    if built {
        put_numbered(picture, "s", shade, corner)
    } else {
        put(picture, "miss", corner)
    }
}

// Adds the frame of a cell in the colour of its builder, and a dot for its entries.
fn note_cell(picture: &mut String, corner: Point, counts: CellCounts) -> Result<(), AllocError>
    ensures { OnOk result (Adds [] (string_bytes picture.old) (string_bytes picture.new)) }
{
    frame_cell(picture, corner, counts.builder)?;
    dot_cell(picture, corner, heat(counts.entries))
}

// Adds the frame of a cell in the colour of its builder, if it has one.
fn frame_cell(picture: &mut String, corner: Point, builder: Option<u8>) -> Result<(), AllocError>
    ensures { OnOk result (Adds [] (string_bytes picture.old) (string_bytes picture.new)) }
{
    match builder {
        None => Ok(()),
        Some(mutator) => {
            let colour = Colour::of_number(u64::from(mutator));
            put_numbered(picture, "m", colour.number(), corner)
        }
    }
}

// Adds the dot of this step in a cell, or none for step 0.
fn dot_cell(picture: &mut String, corner: Point, step: u64) -> Result<(), AllocError>
    ensures { OnOk result (Adds [] (string_bytes picture.old) (string_bytes picture.new)) }
{
    if step == 0 {
        Ok(())
    } else {
        put_numbered(picture, "e", step, corner)
    }
}

// The step of so many entries: 0 if there are none, then 1 below 16, 2 below 128, 3 below 512, and else 4.
fn heat(entries: u64) -> u64 {
    match entries {
        0 => 0,
        1..=15 => 1,
        16..=127 => 2,
        128..=511 => 3,
        _ => 4,
    }
}
