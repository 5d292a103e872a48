//! Where the cells of a space stand in the picture.
ghost use Rattle.std.specs.Prelude.{◌≡◌, ◌+◌, ◌*◌, ◌/◌, ◌^◌, ◌<◌, [], ◌++◌, decimal, OnOk};
ghost use Rattle.std.specs.String.{string_bytes};
ghost use Rattle.heap_map.specs.Cells.{Adds};
ghost use Rattle.heap_map.specs.Layout.{cell_at, cell_count, nth_cell, shape_text};

use crate::layout::Scale;
use std::alloc::AllocError;

/// The left side of the cells.
pub const LEFT: u64 = 160;

/// The left side of what is said of a row, at the right of its cells.
pub const RIGHT: u64 = 944;

/// How far two rows of cells are apart.
pub const ROW: u64 = 18;

// The most rows of a space: 8,192 cells.
const MOST_ROWS: u64 = 128;

/// A point of the picture, from its left and from its top.
#[derive(Clone, Copy, Debug, PartialEq, Eq)]
pub struct Point {
    pub x: u64,
    pub y: u64,
}

impl Point {
    /// The base of a line of text at the cell with this upper left corner.
    pub fn base(self) -> u64
        ensures { self.y < 2 ^ 63 → result ≡ self.y + 11 }
    {
        self.y.saturating_add(11)
    }
}

/// The cells of a space, from its first word on.
#[derive(Clone, Copy, Debug, PartialEq, Eq)]
pub struct Grid {
    /// What a cell stands for.
    pub scale: Scale,
    /// The top of the first row.
    pub top: u32,
    /// How many pages the space has.
    pub pages: u64,
}

impl Grid {
    /// The upper left corner of the cell of the word with this index.
    pub fn corner(&self, index: u64) -> Point
        ensures x { result.x ≡ 160 + 12 * (cell_at self.now.scale index).column }
        ensures y { result.y ≡ self.now.top + 18 * (cell_at self.now.scale index).row }
        ensures small { result.y < 2 ^ 63 }
    {
        let top = self.top;
        let cell = self.scale.cell_of(index);
        Point {
            x: LEFT + cell.column * 12,
            y: u64::from(top) + cell.row * ROW,
        }
    }

    /// The upper left corner of the cell with this number.
    pub fn corner_of(&self, cell: u64) -> Point
        ensures x { result.x ≡ 160 + 12 * (nth_cell cell).column }
        ensures y { result.y ≡ self.now.top + 18 * (nth_cell cell).row }
    {
        let top = self.top;
        Point {
            x: LEFT + cell % 64 * 12,
            y: u64::from(top) + cell / 64 * ROW,
        }
    }

    /// Whether there is a word with this index.
    pub fn has(&self, index: u64) -> bool {
        index / 64 < self.pages
    }

    /// How many cells there are.
    pub fn cells(&self) -> u64
        ensures { self.now.pages < 2 ^ 58 → result ≡ cell_count self.now.scale self.now.pages }
    {
        self.scale.cells_of(self.pages)
    }

    /// How many rows the cells have.
    pub fn rows(&self) -> u64 {
        self.cells().div_ceil(64)
    }

    /// The index of the first word of a row.
    pub fn row_start(&self, row: u64) -> u64 {
        row.saturating_mul(64)
            .saturating_mul(self.scale.words_of_cell())
    }

    /// The index of the first word of a cell.
    pub fn cell_start(&self, cell: u64) -> u64 {
        cell.saturating_mul(self.scale.words_of_cell())
    }

    /// The top of what stands below the cells.
    pub fn below(&self) -> u32 {
        let rows = self.rows().min(MOST_ROWS) as u32;
        self.top.saturating_add(rows * ROW as u32)
    }
}

/// Adds a shape with its upper left corner at a point.
pub fn put(picture: &mut String, shape: &str, at: Point) -> Result<(), AllocError>
    ensures bytes { OnOk result (string_bytes picture.new ≡ string_bytes picture.old ++ shape_text shape.now at.x at.y) }
    ensures grows { OnOk result (Adds [] (string_bytes picture.old) (string_bytes picture.new)) }
{
    let Point { x, y } = at;
    write!(
        picture,
        "<use xlink:href=\"#{shape}\" x=\"{x}\" y=\"{y}\"/>\n"
    )
}

/// Adds a shape of this name and number with its upper left corner at a point.
pub fn put_numbered(
    picture: &mut String,
    shape: &str,
    number: u64,
    at: Point,
) -> Result<(), AllocError>
    ensures bytes { OnOk result (string_bytes picture.new ≡ string_bytes picture.old ++ shape_text (shape.now ++ decimal number) at.x at.y) }
    ensures grows { OnOk result (Adds [] (string_bytes picture.old) (string_bytes picture.new)) }
{
    let Point { x, y } = at;
    write!(
        picture,
        "<use xlink:href=\"#{shape}{number}\" x=\"{x}\" y=\"{y}\"/>\n"
    )
}

/// Adds the heading of a space, and its rows by number: the page that each begins with, and the region of that page. In
/// cells of words each page has a frame, and each region a rule above it.
pub fn rule(picture: &mut String, heading: &str, grid: &Grid) -> Result<(), AllocError> {
    let y = grid.top.saturating_sub(10);
    write!(
        picture,
        "<text x=\"{LEFT}\" y=\"{y}\" font-size=\"14\" font-weight=\"bold\">{heading}</text>\n"
    )?;
    for row in 0..grid.rows() {
        rule_row(picture, grid, row)?;
    }
    Ok(())
}

// Adds what stands at a row before its cells.
fn rule_row(picture: &mut String, grid: &Grid, row: u64) -> Result<(), AllocError> {
    let start = grid.row_start(row);
    let corner = grid.corner(start);
    if grid.scale == Scale::Words {
        put(picture, "page", corner)?;
        if row % 8 == 0 {
            put(picture, "region", corner)?;
        }
    }
    let page = start / 64;
    let region = page / 8;
    let y = corner.base();
    if page % 8 == 0 {
        write!(picture, "<text x=\"8\" y=\"{y}\">region {region}</text>")?;
    }
    write!(
        picture,
        "<text x=\"152\" y=\"{y}\" text-anchor=\"end\">{page}</text>\n"
    )
}

/// Adds a rule before each region, in cells of at most half a region.
pub fn rule_regions(picture: &mut String, grid: &Grid) -> Result<(), AllocError> {
    let step = match grid.scale {
        Scale::Pages(0) => 8,
        Scale::Pages(1) => 4,
        Scale::Pages(2) => 2,
        _ => return Ok(()),
    };
    let top = grid.top;
    let bottom = grid.below();
    for column in 0..65 {
        if column % step == 0 {
            let x = LEFT + column * 12;
            write!(
                picture,
                "<path d=\"M{x} {top}V{bottom}\" stroke=\"#000\" stroke-width=\"2\"/>\n"
            )?;
        }
    }
    Ok(())
}
