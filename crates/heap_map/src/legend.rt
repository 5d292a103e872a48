//! The head of the picture: its title, its counts and its legend.
use crate::arrows::MOST_ARROWS;
use crate::frame::{Frame, LINE, WIDTH};
use crate::grid::{Point, put, put_numbered};
use crate::layout::Scale;
use comp_dump::Dump;
use heap_layout::Edition;
use page_plan::Plan;
use std::alloc::AllocError;

// The name of an edition.
fn name_of(edition: Edition) -> &'static str {
    match edition {
        Edition::One => "one",
        Edition::Two => "two",
        Edition::Three => "three",
        Edition::Four => "four",
    }
}

/// Begins a picture, with its title and a description for those who do not see it.
pub fn begin(picture: &mut String, frame: &Frame, plan: &Plan) -> Result<(), AllocError> {
    let height = frame.height;
    write!(
        picture,
        "<?xml version=\"1.0\" encoding=\"UTF-8\"?>\n<svg xmlns=\"http://www.w3.org/2000/svg\" xmlns:xlink=\"http://www.w3.org/1999/xlink\" role=\"img\" aria-labelledby=\"title desc\" width=\"{WIDTH}\" height=\"{height}\" viewBox=\"0 0 {WIDTH} {height}\" font-family=\"monospace\" font-size=\"10\">\n"
    )?;
    let edition = name_of(plan.heap().edition());
    write!(
        picture,
        "<title id=\"title\">Heap of edition {edition}, before and after the slide</title>\n"
    )?;
    describe(picture, frame, plan)?;
    write!(
        picture,
        "<rect width=\"{WIDTH}\" height=\"{height}\" fill=\"#fff\"/>\n<text x=\"12\" y=\"28\" font-size=\"18\">Heap of edition {edition}, before and after the slide</text>\n"
    )
}

// Adds the description.
fn describe(picture: &mut String, frame: &Frame, plan: &Plan) -> Result<(), AllocError> {
    let words = plan.heap().words().len();
    let marks = plan.heap().marks().len();
    let (from_pages, to_pages, fresh) = (frame.from.pages, frame.to.pages, frame.fresh.pages);
    let live = plan.live_words();
    write!(
        picture,
        "<desc id=\"desc\">Above, from-space: {words} words on {from_pages} pages, {marks} marked objects. Below, to-space: {live} live words, {to_pages} pages, and {fresh} fresh pages.</desc>\n"
    )
}

/// Adds the counts of the heap, and those of the dump if one is drawn.
pub fn count(picture: &mut String, plan: &Plan, dump: Option<&Dump<'_>>) -> Result<(), AllocError> {
    let live = plan.live_words();
    let pages = plan.pages();
    let words = plan.heap().words().len();
    let marks = plan.heap().marks().len();
    let roots = plan.heap().roots().len();
    write!(
        picture,
        "<text x=\"12\" y=\"50\" font-size=\"12\">live words {live}, pages {pages}; words {words}, marks {marks}, roots {roots}</text>\n"
    )?;
    match dump {
        None => Ok(()),
        Some(dump) => count_dump(picture, dump),
    }
}

// Adds the counts of a dump.
fn count_dump(picture: &mut String, dump: &Dump<'_>) -> Result<(), AllocError> {
    let edition = name_of(dump.edition());
    let mutators = dump.mutators();
    let pages = dump.pages().len();
    let fresh = dump.fresh_pages();
    let live = dump.live_words();
    write!(
        picture,
        "<text x=\"12\" y=\"68\" font-size=\"12\">dump of edition {edition}: mutators {mutators}, pages {pages}, of them fresh {fresh}; live words {live}</text>\n"
    )
}

// Adds an item of the legend: a shape, and what it stands for.
fn item(picture: &mut String, shape: &str, x: u64, y: u32, told: &str) -> Result<(), AllocError> {
    let top = y.saturating_sub(11);
    put(
        picture,
        shape,
        Point {
            x,
            y: u64::from(top),
        },
    )?;
    let text = x.saturating_add(18);
    write!(picture, "<text x=\"{text}\" y=\"{y}\">{told}</text>\n")
}

/// Adds the legend. `references` is how many references the marked objects have, and `roots` how many roots there are.
pub fn explain(
    picture: &mut String,
    frame: &Frame,
    dumped: bool,
    references: u64,
    roots: u64,
) -> Result<(), AllocError> {
    let y = frame.legend;
    match frame.from.scale {
        Scale::Words => explain_words(picture, y)?,
        Scale::Pages(_) => explain_shades(picture, y)?,
    }
    let next = y.saturating_add(LINE + 4);
    item(picture, "root", 12, next, "root")?;
    if dumped {
        explain_dump(picture, frame.from.scale, next)?;
    }
    let last = next.saturating_add(LINE + 4);
    explain_scale(picture, frame, last)?;
    explain_arrows(
        picture,
        last.saturating_add(LINE),
        arcs_drawn(frame, references),
        references,
        roots,
    )
}

/// Whether the references are drawn as arcs: in cells of words, if they are at most 400.
pub fn arcs_drawn(frame: &Frame, references: u64) -> bool {
    frame.from.scale == Scale::Words && references <= MOST_ARROWS
}

// The shapes of words.
fn explain_words(picture: &mut String, y: u32) -> Result<(), AllocError> {
    item(picture, "h0", 12, y, "header")?;
    item(picture, "r0", 120, y, "reference")?;
    item(picture, "w0", 240, y, "weak word")?;
    item(picture, "d0", 360, y, "data word")?;
    item(picture, "h8", 480, y, "not marked")?;
    item(picture, "d8", 600, y, "its data word")
}

// The shades of pages.
fn explain_shades(picture: &mut String, y: u32) -> Result<(), AllocError> {
    item(picture, "s0", 12, y, "nothing live")?;
    item(picture, "s1", 140, y, "up to 25 % live")?;
    item(picture, "s2", 280, y, "up to 50 %")?;
    item(picture, "s3", 400, y, "up to 75 %")?;
    item(picture, "s4", 520, y, "below all")?;
    item(picture, "s5", 640, y, "all live")
}

// The shapes of a dump.
fn explain_dump(picture: &mut String, scale: Scale, y: u32) -> Result<(), AllocError> {
    item(picture, "miss", 120, y, "never built")?;
    item(picture, "m0", 240, y, "frame: its mutator")?;
    item(picture, "bad", 940, y, "fault")?;
    match scale {
        Scale::Words => item(picture, "h7", 480, y, "new object"),
        Scale::Pages(_) => explain_heat(picture, y),
    }
}

// The dots of entries.
fn explain_heat(picture: &mut String, y: u32) -> Result<(), AllocError> {
    item(picture, "e1", 480, y, "entries: below 16")?;
    item(picture, "e2", 620, y, "below 128")?;
    item(picture, "e3", 720, y, "below 512")?;
    item(picture, "e4", 820, y, "512 or more")
}

// What a cell and a row are.
fn explain_scale(picture: &mut String, frame: &Frame, y: u32) -> Result<(), AllocError> {
    match frame.from.scale {
        Scale::Words => write!(
            picture,
            "<text x=\"12\" y=\"{y}\">A cell is a word, a row a page of 64 words; 8 pages are a region. An object has one colour before and after.</text>\n"
        ),
        Scale::Pages(_) => {
            let pages = frame.from.scale.words_of_cell() / 64;
            write!(
                picture,
                "<text x=\"12\" y=\"{y}\">Pages in a cell: {pages}. A row has 64 cells; 8 pages are a region. A page has 64 words.</text>\n"
            )
        }
    }
}

// Whether references and roots are drawn.
fn explain_arrows(
    picture: &mut String,
    y: u32,
    arcs: bool,
    references: u64,
    roots: u64,
) -> Result<(), AllocError> {
    let arcs = if arcs { "arcs" } else { "no arcs" };
    let arrows = if roots <= MOST_ARROWS {
        "arrows"
    } else {
        "no arrows"
    };
    write!(
        picture,
        "<text x=\"12\" y=\"{y}\">{arcs}: {references} references; {arrows}: {roots} roots.</text>\n"
    )
}
