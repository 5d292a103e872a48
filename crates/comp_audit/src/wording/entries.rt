//! How an entry reads, and why it does not fit.
ghost use Rattle.std.specs.Prelude.{◌≡◌, Some};
ghost use Rattle.comp_audit.specs.Wording.{bad_entry_text, cause_line, cause_text, entry_text, kind_text, page_line, stamp_before_line, text_of_some};

use crate::explanation::{BadEntryAt, EntryCause};
use comp_journal::Entry;
use heap_layout::Kind;
use std::fmt::{Display, Formatter, Result, Write};

/// An entry, with its page and its number there.
#[derive(Clone, Copy)]
pub(super) struct EntryLine {
    pub(super) page: u64,
    pub(super) number: u64,
    pub(super) entry: Entry,
}

impl Display for EntryLine {
    ghost output = { λ line. Some (entry_text line.page line.number line.entry) };

    fn fmt<W: Write>(&self, f: &mut Formatter<W>) -> Result {
        let entry = self.entry;
        write!(
            f,
            "entry {} of page {}: stamp {}, writer {}, ",
            self.number, self.page, entry.stamp, entry.writer
        )?;
        write!(
            f,
            "{}, offset {}, value {}",
            kind_name(entry.kind),
            entry.offset,
            entry.value
        )
    }
}

impl Display for EntryCause {
    ghost output = { λ cause. Some (cause_text cause) };

    fn fmt<W: Write>(&self, f: &mut Formatter<W>) -> Result {
        match self {
            EntryCause::StampNotAbove(stamp) => write!(f, "its stamp is not above {stamp}"),
            EntryCause::NoFreshPage => f.write_str("it is a header, and its page is not fresh"),
            EntryCause::OtherMaker(maker) => {
                write!(f, "it is a header, and its page is of mutator {maker}")
            }
            EntryCause::NotNext(end) => {
                write!(
                    f,
                    "it is a header, and the objects before it end at offset {end}"
                )
            }
            EntryCause::PastPage(end) => {
                write!(f, "its object would end at offset {end}, past the page")
            }
            EntryCause::OtherWord(None) => {
                f.write_str("the word at its offset belongs to no object")
            }
            EntryCause::OtherWord(Some(kind)) => {
                write!(f, "the word at its offset is a {}", kind_name(*kind))
            }
            EntryCause::LeadsNowhere => f.write_str("no object starts at its value"),
            EntryCause::LeadsAhead(stamp) => {
                write!(f, "it leads to an object whose header has stamp {stamp}")
            }
        }
    }
}

/// The line that says why an entry does not fit, if it does not.
#[derive(Clone, Copy)]
pub(super) struct CauseLine(pub(super) Option<EntryCause>);

impl Display for CauseLine {
    ghost output = { λ line. Some (text_of_some cause_line line.0) };

    fn fmt<W: Write>(&self, f: &mut Formatter<W>) -> Result {
        match self.0 {
            Some(cause) => write!(f, "\nwhy: {cause}"),
            None => Ok(()),
        }
    }
}

// The line of the stamp of the entry before, if there is one.
#[derive(Clone, Copy)]
struct StampBeforeLine(Option<u64>);

impl Display for StampBeforeLine {
    ghost output = { λ line. Some (text_of_some stamp_before_line line.0) };

    fn fmt<W: Write>(&self, f: &mut Formatter<W>) -> Result {
        match self.0 {
            Some(stamp) => write!(f, "\nthe entry before it has stamp {stamp}"),
            None => Ok(()),
        }
    }
}

// The line of an entry's page: the mutator that makes objects there, if one does, and the offset where the objects end
// that were made before the entry.
#[derive(Clone, Copy)]
struct PageLine {
    maker: Option<u64>,
    filled: u64,
}

impl Display for PageLine {
    ghost output = { λ line. Some (page_line line.maker line.filled) };

    fn fmt<W: Write>(&self, f: &mut Formatter<W>) -> Result {
        match self.maker {
            None => f.write_str("\nits page is compacted"),
            Some(maker) => write!(
                f,
                "\nits page is of mutator {maker}, and the objects before it end at offset {}",
                self.filled
            ),
        }
    }
}

impl Display for BadEntryAt {
    ghost output = { λ bad. Some (bad_entry_text bad) };

    fn fmt<W: Write>(&self, f: &mut Formatter<W>) -> Result {
        let entry = EntryLine {
            page: self.page,
            number: self.number,
            entry: self.entry,
        };
        let stamp_before = StampBeforeLine(self.stamp_before);
        let page = PageLine {
            maker: self.maker,
            filled: self.filled,
        };
        let cause = self.cause;
        write!(f, "{entry}{stamp_before}{page}\nwhy: {cause}")
    }
}

// What an entry writes.
fn kind_name(kind: Kind) -> &'static str
    ensures { result.now ≡ kind_text kind }
{
    match kind {
        Kind::Header => "header",
        Kind::Reference => "reference",
        Kind::Weak => "weak word",
        Kind::Data => "data word",
    }
}
