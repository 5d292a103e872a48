//! Where the parts of the picture stand.
ghost use Rattle.std.specs.Prelude.{◌≡◌, ◌+◌, ◌-◌, ◌^◌, ◌<◌, length};
ghost use Rattle.std.specs.Option.{option_map};
ghost use Rattle.heap_map.specs.Layout.{IsScaleOf};
ghost use Rattle.heap_map.specs.Pictures.{fresh_pages, from_pages, to_pages};

use crate::grid::{Grid, Point};
use crate::layout::Scale;
use comp_dump::Dump;
use page_plan::Plan;

/// The width of the picture.
pub const WIDTH: u32 = 1_080;

/// The base of the first line of text under the counts.
pub const TOLD: u32 = 86;

/// How far two lines of text are apart.
pub const LINE: u32 = 16;

/// The most lines that are told of a fault.
pub const MOST_LINES: usize = 40;

// How high the legend is, with the heading of from-space.
const LEGEND: u32 = 120;

// How far the cells of two spaces are apart.
const GAP: u32 = 40;

/// Where the parts of a picture stand.
#[derive(Clone, Copy)]
pub struct Frame {
    /// The base of the first line of the legend.
    pub legend: u32,
    /// From-space.
    pub from: Grid,
    /// To-space, without its fresh pages.
    pub to: Grid,
    /// The fresh pages, if a dump is drawn.
    pub fresh: Grid,
    /// The height of the picture.
    pub height: u32,
}

impl Frame {
    /// The frame of the heap of a plan, of a dump if one is drawn, and of so many lines that are told of a fault.
    pub fn new(plan: &Plan, dump: Option<&Dump<'_>>, lines: u32) -> Frame
        ensures scale { IsScaleOf result.from.pages (result.to.pages + result.fresh.pages) result.from.scale }
        ensures to { (result.to.scale ≡ result.from.scale) × (result.to.pages ≡ to_pages plan.now (option_map (λ d. d.now) dump.entry)) }
        ensures fresh { (result.fresh.scale ≡ result.from.scale) × (result.fresh.pages ≡ fresh_pages (option_map (λ d. d.now) dump.entry)) }
        ensures from { result.from.pages ≡ from_pages plan.now }
        ensures few { (result.from.pages < 2 ^ 57) × (result.to.pages < 2 ^ 57) × (result.fresh.pages < 2 ^ 57) }
    {
        let from_pages = (plan.heap().words().len() as u64).div_ceil(64);
        let (to_pages, fresh_pages) = pages_of(plan, dump);
        let scale = Scale::of_spaces(from_pages, to_pages.saturating_add(fresh_pages));
        let legend = TOLD.saturating_add(lines.saturating_mul(LINE));
        let from = Grid {
            scale,
            top: legend.saturating_add(LEGEND),
            pages: from_pages,
        };
        let to = grid_below(&from, to_pages);
        let fresh = grid_below(&to, fresh_pages);
        Frame {
            legend,
            from,
            to,
            fresh,
            height: fresh.below().saturating_add(GAP),
        }
    }

    /// The upper left corner of the cell of the to-space word with this index. None if there is no such word.
    pub fn to_corner(&self, index: u64) -> Option<Point> {
        if self.to.has(index) {
            return Some(self.to.corner(index));
        }
        let past = index.saturating_sub(self.to.pages.saturating_mul(64));
        if self.fresh.has(past) {
            Some(self.fresh.corner(past))
        } else {
            None
        }
    }
}

// How many pages are drawn under to-space, and how many as fresh pages.
fn pages_of(plan: &Plan, dump: Option<&Dump<'_>>) -> (u64, u64)
    ensures to { result.0 ≡ to_pages plan.now (option_map (λ d. d.now) dump.entry) }
    ensures fresh { result.1 ≡ fresh_pages (option_map (λ d. d.now) dump.entry) }
    ensures few { (result.0 < 2 ^ 57) × (result.1 < 2 ^ 57) }
{
    match dump {
        None => (plan.pages(), 0),
        Some(dump) => dumped_pages(dump),
    }
}

// The same for a dump.
fn dumped_pages(dump: &Dump<'_>) -> (u64, u64)
    ensures to { result.0 ≡ length dump.now.pages - dump.now.fresh }
    ensures fresh { result.1 ≡ dump.now.fresh }
    ensures few { (result.0 < 2 ^ 57) × (result.1 < 2 ^ 57) }
{
    // The last number of the dump is read for the proof alone: it makes known that the dump has its fresh pages.
    let _ = dump.live_words();
    let pages = dump.pages().len() as u64;
    let fresh = u64::from(dump.fresh_pages());
    (pages - fresh, fresh)
}

// The cells of so many pages, below those of a grid.
fn grid_below(above: &Grid, pages: u64) -> Grid
    ensures scale { result.scale ≡ above.now.scale }
    ensures pages { result.pages ≡ pages }
{
    let scale = above.scale;
    Grid {
        scale,
        top: above.below().saturating_add(GAP),
        pages,
    }
}
