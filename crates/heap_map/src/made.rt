//! The new objects of a fresh page that are drawn: each starts where those before it end, and ends on its page. The
//! third check of the audit asks the same of the entries that make objects, so of a page without a fault all are drawn;
//! and of any page at most 64 words are.
ghost use Rattle.std.specs.Prelude.{◌≡◌, ◌≤◌, ◌+◌, IfSome};
ghost use Rattle.heap_layout.specs.Header.{size_of};

use comp_journal::Entry;
use heap_layout::{Edition, Header, Kind};

/// The header of the object that an entry makes at the offset `end` of its page, where the objects before it end. None
/// if it makes no object there, or one that would end past the page.
pub fn made_at(edition: Edition, entry: Entry, end: u32) -> Option<Header>
    requires { end ≤ 64 }
    ensures next { IfSome result (λ header. entry.offset ≡ end) }
    ensures inside { IfSome result (λ header. end + size_of header ≤ 64) }
{
    let header = Header::from_word_of(edition, entry.value);
    let is_next = entry.kind == Kind::Header && u32::from(entry.offset) == end;
    if is_next && header.size() <= 64 - end {
        Some(header)
    } else {
        None
    }
}

/// How many words of a page the objects have that its entries make.
pub fn new_words(edition: Edition, journal: &[Entry]) -> u32
    ensures { result ≤ 64 }
{
    let mut end = 0;
    for entry in journal {
        if let Some(header) = made_at(edition, *entry, end) {
            end += header.size();
        }
    }
    end
}
