//! The fault that the audit of a dump found: where it is, and what is said of it.
use crate::frame::{Frame, LINE, MOST_LINES, TOLD};
use crate::grid::put;
use crate::layout::Scale;
use crate::markup::escape;
use crate::view::DumpView;
use comp_dump::{AuditFault, Dump};
use heap_layout::TO_SPACE;
use std::alloc::AllocError;

// What a fault is about.
enum Place {
    // The to-space word with this index.
    Word(u64),
    // This page.
    Page(u64),
    // No word and no page.
    Nowhere,
}

// What a fault of a dump is about.
fn place_of(dump: &Dump<'_>, fault: AuditFault) -> Place {
    match fault {
        AuditFault::WrongWord(address) | AuditFault::LooseReference(address) => {
            Place::Word(address.saturating_sub(TO_SPACE))
        }
        AuditFault::BadEntry(page, entry) => place_of_entry(dump, page, entry),
        AuditFault::BuildUnclaimed(page) | AuditFault::PageMissing(page) => Place::Page(page),
        AuditFault::StampRepeated(_)
        | AuditFault::StampMissing(_)
        | AuditFault::WrongTotal
        | AuditFault::WrongHead => Place::Nowhere,
    }
}

// The word of an entry of a page, or the page if it has no such entry.
fn place_of_entry(dump: &Dump<'_>, page: u64, entry: u64) -> Place {
    if let Some(built) = dump.pages().page(page as usize) {
        if let Some(found) = built.journal().get(entry as usize) {
            let offset = u64::from(found.offset);
            return Place::Word(page.saturating_mul(64).saturating_add(offset));
        }
    }
    Place::Page(page)
}

/// Adds a thick frame and a `!` at the word or the page of a fault.
pub fn mark_fault(
    picture: &mut String,
    frame: &Frame,
    dump: &Dump<'_>,
    fault: AuditFault,
) -> Result<(), AllocError> {
    let (index, shape) = match place_of(dump, fault) {
        Place::Nowhere => return Ok(()),
        Place::Word(index) => (index, "bad"),
        Place::Page(page) => (page.saturating_mul(64), shape_of_page(frame)),
    };
    match frame.to_corner(index) {
        None => Ok(()),
        Some(corner) => put(picture, shape, corner),
    }
}

// The shape that marks a page.
fn shape_of_page(frame: &Frame) -> &'static str {
    match frame.to.scale {
        Scale::Words => "badpage",
        Scale::Pages(_) => "bad",
    }
}

/// How many lines are told of a fault: the fault itself, and what is said of it.
pub fn lines_told(view: &DumpView<'_>) -> u32 {
    match view.fault {
        None => 0,
        Some(_) => 1 + view.told.lines().count().min(MOST_LINES) as u32,
    }
}

/// Adds the lines that are told of a fault.
pub fn tell_fault(
    picture: &mut String,
    view: &DumpView<'_>,
    fault: AuditFault,
) -> Result<(), AllocError> {
    let mut y = TOLD;
    write!(
        picture,
        "<text x=\"12\" y=\"{y}\" font-size=\"12\" font-weight=\"bold\">! {fault}</text>\n"
    )?;
    for line in view.told.lines().take(MOST_LINES) {
        y = y.saturating_add(LINE);
        write!(picture, "<text x=\"24\" y=\"{y}\" font-size=\"12\">")?;
        escape(picture, line)?;
        picture.push_str("</text>\n")?;
    }
    Ok(())
}
