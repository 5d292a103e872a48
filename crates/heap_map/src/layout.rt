//! Which word goes to which cell.
ghost use Rattle.std.specs.Prelude.{◌≡◌, ◌/◌, ◌^◌, ◌<◌};
ghost use Rattle.heap_map.specs.Layout.{cell_at, cell_count, cell_number, IsLeast, IsScaleOf};

// The most pages of a space of which each word is drawn.
const MOST_PAGES_OF_WORDS: u64 = 64;

// The most cells of a space of which whole pages are drawn.
const MOST_CELLS: u128 = 8_192;

// By this scale 8,192 cells stand for more than `u64::MAX` pages.
const LAST_SCALE: u8 = 52;

/// A cell of a space: its column from the left and its row from the top, from 0. A row has 64 cells.
#[derive(Clone, Copy, Debug, PartialEq, Eq)]
pub struct Cell {
    pub column: u64,
    pub row: u64,
}

/// What a cell stands for.
#[derive(Clone, Copy, Debug, PartialEq, Eq)]
pub enum Scale {
    /// A word. A row is a page.
    Words,
    /// `2^k` pages, for the given `k`.
    Pages(u8),
}

impl Scale {
    /// The scale of two spaces of so many pages: words if neither has more than 64 pages. Else cells of `2^k` pages,
    /// with the least `k` by which neither space has more than 8,192 cells.
    pub fn of_spaces(from_pages: u64, to_pages: u64) -> Scale
        ensures { IsScaleOf from_pages to_pages result }
    {
        let most = from_pages.max(to_pages);
        if most <= MOST_PAGES_OF_WORDS {
            return Scale::Words;
        }
        Scale::Pages(least_scale(most))
    }

    /// How many words a cell stands for, or `u64::MAX` if they are more.
    #[tactic(auto, using(crate::proofs::Powers::pow_pos))]
    pub fn words_of_cell(self) -> u64
        ensures { 0 < result }
    {
        match self {
            Scale::Words => 1,
            Scale::Pages(k) => 64u64.saturating_mul(2u64.saturating_pow(u32::from(k))),
        }
    }

    /// The cell of the word with this index in its space.
    pub fn cell_of(self, index: u64) -> Cell
        ensures cell { result ≡ cell_at self index }
        ensures column { result.column < 64 }
        ensures row { result.row < 2 ^ 58 }
    {
        let cell = self.cell_number(index);
        Cell {
            column: cell % 64,
            row: cell / 64,
        }
    }

    /// How many cells so many pages have.
    pub fn cells_of(self, pages: u64) -> u64
        ensures { pages < 2 ^ 58 → result ≡ cell_count self pages }
    {
        match self {
            Scale::Words => pages.saturating_mul(64),
            Scale::Pages(k) => {
                if pages == 0 {
                    0
                } else {
                    by_power(pages - 1, k) + 1
                }
            }
        }
    }

    // The number of that cell, row by row.
    fn cell_number(self, index: u64) -> u64
        ensures { result ≡ cell_number self index }
    {
        match self {
            Scale::Words => index,
            Scale::Pages(k) => by_power(index / 64, k),
        }
    }
}

// A number, divided by `2^k` and rounded down.
#[tactic(auto, using(crate::proofs::Powers::past_shift))]
fn by_power(n: u64, k: u8) -> u64
    ensures { result ≡ n / 2 ^ k }
{
    if k < 64 { n >> u32::from(k) } else { 0 }
}

// The least `k` by which cells of `2^k` pages are at most 8,192 for so many pages.
#[tactic(auto, using(crate::proofs::Powers::room_doubles))]
fn least_scale(pages: u64) -> u8
    requires { 64 < pages }
    ensures { IsLeast pages result }
{
    // The pages of 8,192 cells: more than `u64::MAX` in the last round.
    let mut room = MOST_CELLS;
    for k in 0..LAST_SCALE {
        if u128::from(pages) <= room {
            return k;
        }
        room *= 2;
    }
    LAST_SCALE
}
