//! Draws a heap.
ghost use Rattle.std.specs.Prelude.{◌≡◌, ◌-◌, ◌^◌, ◌<◌, length, IfOk, OnOk, Some};
ghost use Rattle.std.specs.Option.{option_map};
ghost use Rattle.std.specs.String.{string_bytes};
ghost use Rattle.heap_layout.specs.Heap.{live};
ghost use Rattle.page_plan.specs.Sliding.{pages};
ghost use Rattle.heap_map.specs.Cells.{AddsText};
ghost use Rattle.heap_map.specs.Pictures.{fresh_pages, from_pages, to_pages, IsPictureOf, IsWhole, ShowsDump, ShowsFrom, ShowsSpace, ShowsTo};

use crate::arrows::{
    MOST_ARROWS, draw_arcs, draw_dumped_arcs, draw_roots, references_of, roots_of,
};
use crate::dumped::{builders, draw_compacted_rows, draw_fresh_rows};
use crate::dumped_cells::{draw_compacted_cells, draw_fresh_cells};
use crate::faulty::{lines_told, mark_fault, tell_fault};
use crate::frame::Frame;
use crate::grid::{Grid, rule, rule_regions};
use crate::layout::Scale;
use crate::legend::{arcs_drawn, begin, count, explain};
use crate::pages::{draw_from_pages, draw_slid_pages};
use crate::palette::define_shapes;
use crate::view::DumpView;
use crate::words::{draw_from_words, draw_slid_words};
use comp_dump::Dump;
use page_plan::Plan;
use std::alloc::{AllocError, Global};

/// The picture of the heap of a plan, as the text of an SVG: from-space above, to-space below. With a dump, to-space is
/// drawn as the dump has it. A cell is a word, or some pages if there are many. Of words each live object is drawn, in
/// order, word by word; of a dump each page, in order: hatched if it was never built, else with its entries. A picture
/// has less than 2 MB. Err if memory runs out.
pub fn draw(alloc: Global, plan: &Plan, view: Option<&DumpView<'_>>) -> Result<String, AllocError>
    ensures whole { IfOk result (λ picture. IsWhole (string_bytes picture)) }
    ensures shows { IfOk result (λ picture. IsPictureOf plan.now (option_map (λ view. view.now.dump.now) view.entry) (string_bytes picture)) }
{
    let dump = dump_of(view);
    let lines = view.map_or(0, lines_told);
    let frame = Frame::new(plan, dump, lines);
    let mut picture = String::new(alloc);
    draw_head(&mut picture, &frame, plan, view)?;
    draw_from(&mut picture, &frame.from, plan)?;
    // No contract speaks of what stands between the cells and behind them, so each is written apart, and then added.
    let between = between_spaces(alloc, &frame, view)?;
    picture.push_str(between.as_str())?;
    draw_to(alloc, &mut picture, &frame, plan, dump)?;
    let behind = behind_cells(alloc, &frame, plan, view)?;
    picture.push_str(behind.as_str())?;
    picture.push_str("</svg>\n")?;
    Ok(picture)
}

// The dump of a view, if there is one.
fn dump_of<'a>(view: Option<&DumpView<'a>>) -> Option<&'a Dump<'a>>
    ensures { option_map (λ d. d.now) result ≡ option_map (λ view. view.now.dump.now) view.entry }
{
    match view {
        None => None,
        Some(view) => Some(view.dump),
    }
}

// Adds all that stands before the cells of from-space.
fn draw_head(
    picture: &mut String,
    frame: &Frame,
    plan: &Plan,
    view: Option<&DumpView<'_>>,
) -> Result<(), AllocError> {
    begin(picture, frame, plan)?;
    define_shapes(picture)?;
    count(picture, plan, view.map(|view| view.dump))?;
    if let Some(view) = view {
        if let Some(fault) = view.fault {
            tell_fault(picture, view, fault)?;
        }
    }
    let roots = roots_of(plan, view.map(|view| view.dump));
    explain(
        picture,
        frame,
        view.is_some(),
        references_of(plan.heap()),
        roots,
    )?;
    rule(picture, "from-space", &frame.from)
}

// Adds the cells of from-space.
fn draw_from(picture: &mut String, grid: &Grid, plan: &Plan) -> Result<(), AllocError>
    requires pages { grid.now.pages ≡ from_pages plan.now }
    requires few { grid.now.pages < 2 ^ 57 }
    ensures { OnOk result (AddsText (ShowsFrom grid.now.scale grid.now.top plan.now) (string_bytes picture.old) (string_bytes picture.new)) }
{
    match grid.scale {
        Scale::Words => draw_from_words(picture, grid, plan.heap()),
        Scale::Pages(_) => draw_from_pages(picture, grid, plan.heap()),
    }
}

// What stands between the cells of from-space and those of to-space.
fn between_spaces(
    alloc: Global,
    frame: &Frame,
    view: Option<&DumpView<'_>>,
) -> Result<String, AllocError> {
    let mut between = String::new(alloc);
    rule_regions(&mut between, &frame.from)?;
    if view.is_none() {
        rule(&mut between, "to-space", &frame.to)?;
        return Ok(between);
    }
    rule(&mut between, "to-space, as dumped", &frame.to)?;
    if frame.fresh.pages != 0 {
        rule(&mut between, "fresh pages", &frame.fresh)?;
    }
    Ok(between)
}

// Adds the cells of to-space: as the plan has it, or as a dump has it.
fn draw_to(
    alloc: Global,
    picture: &mut String,
    frame: &Frame,
    plan: &Plan,
    dump: Option<&Dump<'_>>,
) -> Result<(), AllocError>
    requires to { frame.now.to.pages ≡ to_pages plan.now (option_map (λ d. d.now) dump) }
    requires fresh { frame.now.fresh.pages ≡ fresh_pages (option_map (λ d. d.now) dump) }
    requires same { frame.now.fresh.scale ≡ frame.now.to.scale }
    requires few { (frame.now.to.pages < 2 ^ 57) × (frame.now.fresh.pages < 2 ^ 57) }
    ensures { OnOk result (AddsText (ShowsSpace frame.now.to.scale frame.now.to.top frame.now.fresh.top plan.now (option_map (λ d. d.now) dump.entry)) (string_bytes picture.old) (string_bytes picture.new)) }
{
    match dump {
        None => draw_slid(picture, &frame.to, plan),
        Some(dump) => draw_dump(alloc, picture, frame, plan, dump),
    }
}

// Adds the cells of to-space as the plan has it.
fn draw_slid(picture: &mut String, grid: &Grid, plan: &Plan) -> Result<(), AllocError>
    requires pages { grid.now.pages ≡ pages (live plan.now) }
    requires few { grid.now.pages < 2 ^ 57 }
    ensures { OnOk result (AddsText (ShowsTo grid.now.scale grid.now.top plan.now) (string_bytes picture.old) (string_bytes picture.new)) }
{
    match grid.scale {
        Scale::Words => draw_slid_words(picture, grid, plan.heap()),
        Scale::Pages(_) => draw_slid_pages(picture, grid, plan),
    }
}

// Adds the cells of to-space as a dump has it, and those of its fresh pages.
fn draw_dump(
    alloc: Global,
    picture: &mut String,
    frame: &Frame,
    plan: &Plan,
    dump: &Dump<'_>,
) -> Result<(), AllocError>
    requires to { frame.now.to.pages ≡ length dump.now.pages - dump.now.fresh }
    requires fresh { frame.now.fresh.pages ≡ dump.now.fresh }
    requires same { frame.now.fresh.scale ≡ frame.now.to.scale }
    requires few { (frame.now.to.pages < 2 ^ 57) × (frame.now.fresh.pages < 2 ^ 57) }
    ensures { OnOk result (AddsText (ShowsSpace frame.now.to.scale frame.now.to.top frame.now.fresh.top plan.now (Some dump.now)) (string_bytes picture.old) (string_bytes picture.new)) }
{
    let builders = builders(alloc, dump)?;
    draw_compacted(picture, &frame.to, plan, dump, &builders)?;
    draw_fresh(picture, &frame.fresh, dump, &builders, frame.to.pages)
}

// Adds the cells of the compacted pages of a dump.
fn draw_compacted(
    picture: &mut String,
    grid: &Grid,
    plan: &Plan,
    dump: &Dump<'_>,
    builders: &[Option<u8>],
) -> Result<(), AllocError>
    requires { grid.now.pages < 2 ^ 57 }
    ensures { OnOk result (AddsText (ShowsDump grid.now.scale grid.now.top dump.now 0 grid.now.pages) (string_bytes picture.old) (string_bytes picture.new)) }
{
    match grid.scale {
        Scale::Words => draw_compacted_rows(picture, grid, plan, dump, builders),
        Scale::Pages(k) => draw_compacted_cells(picture, grid, plan, dump, builders, k),
    }
}

// Adds the cells of the fresh pages of a dump, which begin with page `first`.
fn draw_fresh(
    picture: &mut String,
    grid: &Grid,
    dump: &Dump<'_>,
    builders: &[Option<u8>],
    first: u64,
) -> Result<(), AllocError>
    requires few { grid.now.pages < 2 ^ 57 }
    requires low { first < 2 ^ 57 }
    ensures { OnOk result (AddsText (ShowsDump grid.now.scale grid.now.top dump.now first grid.now.pages) (string_bytes picture.old) (string_bytes picture.new)) }
{
    match grid.scale {
        Scale::Words => draw_fresh_rows(picture, grid, dump, builders, first),
        Scale::Pages(k) => draw_fresh_cells(picture, grid, dump, builders, first, k),
    }
}

// What stands behind the cells: the rules before regions, the mark of a fault, and the arrows.
fn behind_cells(
    alloc: Global,
    frame: &Frame,
    plan: &Plan,
    view: Option<&DumpView<'_>>,
) -> Result<String, AllocError> {
    let mut behind = String::new(alloc);
    rule_regions(&mut behind, &frame.to)?;
    if let Some(view) = view {
        rule_regions(&mut behind, &frame.fresh)?;
        if let Some(fault) = view.fault {
            mark_fault(&mut behind, frame, view.dump, fault)?;
        }
    }
    draw_arrows(&mut behind, frame, plan, view.map(|view| view.dump))?;
    Ok(behind)
}

// Adds roots and references, as far as there are not too many.
fn draw_arrows(
    picture: &mut String,
    frame: &Frame,
    plan: &Plan,
    dump: Option<&Dump<'_>>,
) -> Result<(), AllocError> {
    if roots_of(plan, dump) <= MOST_ARROWS {
        draw_roots(picture, frame, plan, dump)?;
    }
    if !arcs_drawn(frame, references_of(plan.heap())) {
        return Ok(());
    }
    picture.push_str("<g fill=\"none\" stroke=\"#000\" stroke-opacity=\".6\">\n")?;
    draw_arcs(picture, frame, plan, dump.is_none())?;
    if let Some(dump) = dump {
        draw_dumped_arcs(picture, frame, plan, dump)?;
    }
    picture.push_str("</g>\n")
}
