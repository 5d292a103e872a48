//! The heap in cells of words.
ghost use Rattle.std.specs.Prelude.{◌≡◌, ◌+◌, ◌^◌, ◌<◌, ◌≤◌, [], ◌++◌, decimal, length, OnOk};
ghost use Rattle.std.specs.String.{string_bytes};
ghost use Rattle.heap_layout.specs.Heap.{live};
ghost use Rattle.heap_layout.specs.Header.{size_of};
ghost use Rattle.heap_map.specs.Layout.{cell_at, cell_text};
ghost use Rattle.heap_map.specs.Cells.{from_place, kind_in, letter_of, live_cells, object_cells, to_place, Adds};
ghost use Rattle.heap_map.specs.declared.layout.Scale.TheVariants as scales;
ghost use Rattle.page_plan.specs.Planned.{IsKindOf};
ghost use Rattle.page_plan.specs.Sliding.{pages};

use crate::grid::{Grid, put_numbered};
use crate::palette::{Colour, shape_of};
use heap_layout::{Header, Kind, MarkedHeap};
use page_plan::Plan;
use std::alloc::AllocError;

/// What the word at an offset of an object with this header is. The object must have that word.
pub fn kind_at(header: Header, offset: u32) -> Kind
    requires { offset < size_of header }
    ensures kind { IsKindOf header offset result }
    ensures same { result ≡ kind_in header offset }
{
    if offset == 0 {
        Kind::Header
    } else if offset < header.first(Kind::Weak) {
        Kind::Reference
    } else if offset < header.first(Kind::Data) {
        Kind::Weak
    } else {
        Kind::Data
    }
}

/// Adds a word of this kind and colour in its cell.
pub fn put_word(
    picture: &mut String,
    grid: &Grid,
    index: u64,
    kind: Kind,
    colour: Colour,
) -> Result<(), AllocError>
    ensures grows { OnOk result (Adds [] (string_bytes picture.old) (string_bytes picture.new)) }
    ensures cell { OnOk result (string_bytes picture.new ≡ string_bytes picture.old ++ cell_text grid.now.top (letter_of kind ++ decimal colour.0) (cell_at grid.now.scale index)) }
{
    put_numbered(picture, shape_of(kind), colour.number(), grid.corner(index))
}

/// Adds the words of from-space: each object in its colour, and in grey if it is not marked.
pub fn draw_from_words(
    picture: &mut String,
    grid: &Grid,
    heap: &MarkedHeap,
) -> Result<(), AllocError>
    requires { grid.now.scale ≡ scales.Words }
    ensures { OnOk result (Adds (live_cells grid.now.top heap.now (from_place heap.now)) (string_bytes picture.old) (string_bytes picture.new)) }
{
    let mut end = 0;
    for (number, &mark) in heap.marks().iter().enumerate() {
        let header = heap.header_at(mark as usize);
        draw_unmarked(picture, grid, heap, end, mark as usize)?;
        let colour = Colour::of_number(number as u64);
        draw_object(picture, grid, u64::from(mark), header, colour)?;
        end = mark as usize + header.size() as usize;
    }
    draw_unmarked(picture, grid, heap, end, heap.words().len())
}

// Adds the objects from one index to another, of which none is marked.
fn draw_unmarked(
    picture: &mut String,
    grid: &Grid,
    heap: &MarkedHeap,
    begin: usize,
    end: usize,
) -> Result<(), AllocError>
    requires scale { grid.now.scale ≡ scales.Words }
    requires within { end ≤ length heap.now.words }
    requires few { end < 2 ^ 63 }
    ensures { OnOk result (Adds [] (string_bytes picture.old) (string_bytes picture.new)) }
{
    let mut start = begin;
    while start < end {
        let header = heap.header_at(start);
        let colour = Colour::of_unmarked();
        draw_object(picture, grid, start as u64, header, colour)?;
        start = start.saturating_add(header.size() as usize);
    }
    Ok(())
}

// Adds the words of an object that starts at an index.
fn draw_object(
    picture: &mut String,
    grid: &Grid,
    start: u64,
    header: Header,
    colour: Colour,
) -> Result<(), AllocError>
    requires scale { grid.now.scale ≡ scales.Words }
    requires few { start < 2 ^ 63 }
    ensures { OnOk result (Adds (object_cells grid.now.top colour.0 start header) (string_bytes picture.old) (string_bytes picture.new)) }
{
    for offset in 0..header.size() {
        let index = start + u64::from(offset);
        put_word(picture, grid, index, kind_at(header, offset), colour)?;
    }
    Ok(())
}

/// The colours of the slid objects: that of the object whose words come, and that of the next.
#[derive(Clone, Copy)]
pub struct Slide {
    now: Colour,
    next: Colour,
}

impl Slide {
    /// Before the first slid object.
    pub fn new() -> Slide {
        Slide {
            now: Colour::of_number(0),
            next: Colour::of_number(0),
        }
    }

    /// Takes the next slid word, by its kind, and answers its colour.
    pub fn take(&mut self, kind: Kind) -> Colour {
        if kind == Kind::Header {
            self.now = self.next;
            self.next = self.next.after();
        }
        self.now
    }
}

/// Adds the slid objects, side by side.
pub fn draw_slid_words(
    picture: &mut String,
    grid: &Grid,
    heap: &MarkedHeap,
) -> Result<(), AllocError>
    requires { grid.now.scale ≡ scales.Words }
    ensures { OnOk result (Adds (live_cells grid.now.top heap.now (to_place heap.now)) (string_bytes picture.old) (string_bytes picture.new)) }
{
    let mut place = 0u64;
    for (number, &mark) in heap.marks().iter().enumerate() {
        let header = heap.header_at(mark as usize);
        let colour = Colour::of_number(number as u64);
        draw_object(picture, grid, place, header, colour)?;
        place += u64::from(header.size());
    }
    Ok(())
}

/// Adds the slid words of a page. Answers the colours for the next page.
pub fn draw_page(
    picture: &mut String,
    grid: &Grid,
    plan: &Plan,
    p: u64,
    slide: Slide,
) -> Result<Slide, AllocError>
    requires { p < pages (live plan.now) }
    ensures { OnOk result (Adds [] (string_bytes picture.old) (string_bytes picture.new)) }
{
    let kinds = plan.page_kinds(p);
    let mut slide = slide;
    for offset in 0..64 {
        let index = p.saturating_mul(64).saturating_add(offset as u64);
        let next = put_slid(picture, grid, index, kinds[offset], slide)?;
        slide = next;
    }
    Ok(slide)
}

// Adds the slid word with this index, if there is one. Answers the colours for the next.
fn put_slid(
    picture: &mut String,
    grid: &Grid,
    index: u64,
    kind: Option<Kind>,
    slide: Slide,
) -> Result<Slide, AllocError>
    ensures { OnOk result (Adds [] (string_bytes picture.old) (string_bytes picture.new)) }
{
    let mut slide = slide;
    match kind {
        None => Ok(slide),
        Some(kind) => {
            put_word(picture, grid, index, kind, slide.take(kind))?;
            Ok(slide)
        }
    }
}

/// The colours after a page whose words are not drawn.
pub fn skip_page(plan: &Plan, p: u64, slide: Slide) -> Slide
    requires { p < pages (live plan.now) }
{
    let mut slide = slide;
    for kind in plan.page_kinds(p) {
        if let Some(kind) = kind {
            slide.take(kind);
        }
    }
    slide
}
