//! To-space as a dump has it, in cells of words: who built each page, its entries, and the fresh pages with their new
//! objects.
ghost use Rattle.std.specs.Prelude.{◌≡◌, ◌^◌, ◌<◌, ◌≤◌, [], ◌∷◌, IfOk, OnOk, None, slice_index_or};
ghost use Rattle.std.specs.String.{string_bytes};
ghost use Rattle.heap_map.specs.Cells.{Adds};
ghost use Rattle.heap_map.specs.Pictures.{entries_text, hatched_row, page_row, page_rows};
ghost use Rattle.heap_map.specs.declared.layout.Scale.TheVariants as scales;

use crate::grid::{Grid, Point, RIGHT, put, put_numbered};
use crate::made::made_at;
use crate::palette::Colour;
use crate::words::{Slide, draw_page, kind_at, put_word, skip_page};
use comp_dump::Dump;
use comp_journal::Entry;
use heap_layout::{Edition, Header};
use page_plan::Plan;
use std::alloc::{AllocError, Global};

/// For each page of a dump the mutator that built it, by the lists of the dump. If several lists name a page, it is the
/// last of these. Err if the answer can not be allocated.
pub fn builders(alloc: Global, dump: &Dump<'_>) -> Result<Vec<Option<u8>>, AllocError> {
    let mut builders = Vec::with_capacity(alloc, dump.pages().len())?;
    for _ in 0..dump.pages().len() {
        builders.push(None)?;
    }
    let mut number = 0u8;
    for list in dump.builds() {
        for &p in list {
            if let Some(slot) = builders.get_mut(p as usize) {
                *slot = Some(number);
            }
        }
        number = number.saturating_add(1);
    }
    Ok(builders)
}

/// The mutator that built page `p`. None if no list names it.
pub fn builder_of(builders: &[Option<u8>], p: u64) -> Option<u8> {
    builders.get(p as usize).copied().flatten()
}

/// Adds the compacted pages of a dump in cells of words.
pub fn draw_compacted_rows(
    picture: &mut String,
    grid: &Grid,
    plan: &Plan,
    dump: &Dump<'_>,
    builders: &[Option<u8>],
) -> Result<(), AllocError>
    requires scale { grid.now.scale ≡ scales.Words }
    requires few { grid.now.pages < 2 ^ 57 }
    ensures { OnOk result (Adds (page_rows grid.now.top dump.now 0 grid.now.pages) (string_bytes picture.old) (string_bytes picture.new)) }
{
    let mut slide = Slide::new();
    for p in 0..grid.pages {
        let next = draw_compacted(picture, grid, plan, dump, p, slide)?;
        slide = next;
        draw_row(picture, grid, p, dump, p, builder_of(builders, p))?;
    }
    Ok(())
}

/// Adds the fresh pages of a dump, from page `first` on, in cells of words.
pub fn draw_fresh_rows(
    picture: &mut String,
    grid: &Grid,
    dump: &Dump<'_>,
    builders: &[Option<u8>],
    first: u64,
) -> Result<(), AllocError>
    requires scale { grid.now.scale ≡ scales.Words }
    requires few { grid.now.pages < 2 ^ 57 }
    requires low { first < 2 ^ 57 }
    ensures { OnOk result (Adds (page_rows grid.now.top dump.now first grid.now.pages) (string_bytes picture.old) (string_bytes picture.new)) }
{
    for row in 0..grid.pages {
        let p = first + row;
        draw_fresh(picture, grid, row, dump, p)?;
        draw_row(picture, grid, row, dump, p, builder_of(builders, p))?;
    }
    Ok(())
}

// Adds the words of a compacted page. Answers the colours for the next page.
fn draw_compacted(
    picture: &mut String,
    grid: &Grid,
    plan: &Plan,
    dump: &Dump<'_>,
    p: u64,
    slide: Slide,
) -> Result<Slide, AllocError>
    ensures { OnOk result (Adds [] (string_bytes picture.old) (string_bytes picture.new)) }
{
    if p >= plan.pages() {
        return Ok(slide);
    }
    match dump.pages().page(p as usize) {
        None => Ok(skip_page(plan, p, slide)),
        Some(_) => draw_page(picture, grid, plan, p, slide),
    }
}

// Adds the new objects of a fresh page in row `row`.
fn draw_fresh(
    picture: &mut String,
    grid: &Grid,
    row: u64,
    dump: &Dump<'_>,
    p: u64,
) -> Result<(), AllocError>
    ensures { OnOk result (Adds [] (string_bytes picture.old) (string_bytes picture.new)) }
{
    match dump.pages().page(p as usize) {
        None => Ok(()),
        Some(page) => draw_new_objects(picture, grid, row, dump.edition(), page.journal()),
    }
}

// Adds the objects that the entries of a page made, each where those before it end.
fn draw_new_objects(
    picture: &mut String,
    grid: &Grid,
    row: u64,
    edition: Edition,
    journal: &[Entry],
) -> Result<(), AllocError>
    ensures { OnOk result (Adds [] (string_bytes picture.old) (string_bytes picture.new)) }
{
    let mut end = 0;
    for entry in journal {
        let next = draw_entry(picture, grid, row, edition, *entry, end)?;
        end = next;
    }
    Ok(())
}

// Adds the object that an entry makes at the offset `end`, if it makes one there. Answers where the next starts.
fn draw_entry(
    picture: &mut String,
    grid: &Grid,
    row: u64,
    edition: Edition,
    entry: Entry,
    end: u32,
) -> Result<u32, AllocError>
    requires { end ≤ 64 }
    ensures low { IfOk result (λ next. next ≤ 64) }
    ensures grows { OnOk result (Adds [] (string_bytes picture.old) (string_bytes picture.new)) }
{
    match made_at(edition, entry, end) {
        None => Ok(end),
        Some(header) => {
            draw_new_object(picture, grid, row, end, header)?;
            Ok(end + header.size())
        }
    }
}

// Adds a new object that starts at an offset of a page.
fn draw_new_object(
    picture: &mut String,
    grid: &Grid,
    row: u64,
    offset: u32,
    header: Header,
) -> Result<(), AllocError>
    ensures { OnOk result (Adds [] (string_bytes picture.old) (string_bytes picture.new)) }
{
    for within in 0..header.size() {
        let index = row
            .saturating_mul(64)
            .saturating_add(u64::from(offset) + u64::from(within));
        put_word(
            picture,
            grid,
            index,
            kind_at(header, within),
            Colour::of_new(),
        )?;
    }
    Ok(())
}

// Adds what is said of a page: hatched cells if it was never built; else its entries, and a frame in the colour of its
// builder.
fn draw_row(
    picture: &mut String,
    grid: &Grid,
    row: u64,
    dump: &Dump<'_>,
    p: u64,
    builder: Option<u8>,
) -> Result<(), AllocError>
    requires scale { grid.now.scale ≡ scales.Words }
    requires few { row < 2 ^ 57 }
    ensures { OnOk result (Adds (page_row grid.now.top row (slice_index_or dump.now.pages p None)) (string_bytes picture.old) (string_bytes picture.new)) }
{
    note_page(picture, grid, row, dump, p)?;
    frame_page(picture, grid.corner(row * 64), builder)
}

// Hatches the cells of a page that was never built, or says how many entries it has.
fn note_page(
    picture: &mut String,
    grid: &Grid,
    row: u64,
    dump: &Dump<'_>,
    p: u64,
) -> Result<(), AllocError>
    requires scale { grid.now.scale ≡ scales.Words }
    requires few { row < 2 ^ 57 }
    ensures { OnOk result (Adds (page_row grid.now.top row (slice_index_or dump.now.pages p None)) (string_bytes picture.old) (string_bytes picture.new)) }
{
    match dump.pages().page(p as usize) {
        None => hatch(picture, grid, row),
        Some(page) => note_entries(picture, grid, row, page.journal().len()),
    }
}

// Hatches the cells of a page that was never built.
fn hatch(picture: &mut String, grid: &Grid, row: u64) -> Result<(), AllocError>
    requires scale { grid.now.scale ≡ scales.Words }
    requires few { row < 2 ^ 57 }
    ensures { OnOk result (Adds (hatched_row grid.now.top row) (string_bytes picture.old) (string_bytes picture.new)) }
{
    for offset in 0..64 {
        let corner = grid.corner(row * 64 + offset);
        put(picture, "miss", corner)?;
    }
    Ok(())
}

// Says at a row how many entries its page has.
fn note_entries(
    picture: &mut String,
    grid: &Grid,
    row: u64,
    entries: usize,
) -> Result<(), AllocError>
    requires scale { grid.now.scale ≡ scales.Words }
    requires few { row < 2 ^ 57 }
    ensures { OnOk result (Adds (entries_text grid.now.top row entries ∷ []) (string_bytes picture.old) (string_bytes picture.new)) }
{
    let y = grid.corner(row * 64).base();
    // 976 is 32 to the right of the number of its mutator.
    write!(
        picture,
        "<text x=\"976\" y=\"{y}\">entries {entries}</text>\n"
    )
}

// Frames a row in the colour of the mutator that built its page, and says its number, if there is one.
fn frame_page(picture: &mut String, corner: Point, builder: Option<u8>) -> Result<(), AllocError>
    ensures { OnOk result (Adds [] (string_bytes picture.old) (string_bytes picture.new)) }
{
    match builder {
        None => Ok(()),
        Some(mutator) => frame_by(picture, corner, mutator),
    }
}

// Frames a row in the colour of a mutator, and says its number.
fn frame_by(picture: &mut String, corner: Point, mutator: u8) -> Result<(), AllocError>
    ensures { OnOk result (Adds [] (string_bytes picture.old) (string_bytes picture.new)) }
{
    let colour = Colour::of_number(u64::from(mutator));
    put_numbered(picture, "b", colour.number(), corner)?;
    let y = corner.base();
    write!(picture, "<text x=\"{RIGHT}\" y=\"{y}\">m{mutator}</text>\n")
}
