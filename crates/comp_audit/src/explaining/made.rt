//! What entries make: the words of objects, and headers.
ghost use Rattle.std.specs.Prelude.{◌≡◌, ◌^◌, ℕ, List, [], ◌∷◌, ◌++◌, ◌||◌, ◌<◌, length, nat_lt, slice_get, Some};
ghost use Rattle.heap_layout.specs.Header.{size_of};
ghost use Rattle.comp_dump.specs.Entry.{Entry};
ghost use Rattle.comp_dump.specs.Lawful.{kinds_by, kinds_in, kinds_of_header};
ghost use Rattle.comp_dump.specs.Merged.{with_page};
ghost use Rattle.comp_audit.specs.Checks.{all_entries, makes};
ghost use Rattle.comp_audit.specs.Noted.{is_below};
ghost use Rattle.comp_audit.specs.EntryCauses.{IsHeaderStamp};

use crate::checks::journal_of;
use comp_dump::Dump;
use comp_journal::Entry;
use heap_layout::{Edition, Header, Kind};
use page_plan::TO_SPACE;

/// How many words the object has that an entry makes, 0 if it makes none.
pub fn words_made(edition: Edition, entry: Entry) -> u64
    ensures words { result ≡ length (kinds_by edition entry.kind entry.value) }
    ensures few { result < 2 ^ 32 }
{
    match entry.kind {
        Kind::Header => u64::from(Header::from_word_of(edition, entry.value).size()),
        Kind::Reference => 0,
        Kind::Weak => 0,
        Kind::Data => 0,
    }
}

/// The kind of the word at this offset of a fresh page with this journal; None if it belongs to no object.
pub fn kind_made(edition: Edition, journal: &[Entry], offset: u8) -> Option<Kind>
    ensures { result ≡ slice_get (kinds_in edition journal.now) offset }
{
    let mut left = u64::from(offset);
    for &entry in journal {
        let words = words_made(edition, entry);
        if left < words {
            return Some(kind_within(Header::from_word_of(edition, entry.value), left as u32));
        }
        left -= words;
    }
    None
}

// The kind of word `n` of an object with this header.
fn kind_within(header: Header, n: u32) -> Kind
    requires { n < size_of header }
    ensures { slice_get (kinds_of_header header) n ≡ Some result }
{
    if n == 0 {
        Kind::Header
    } else if n < header.first(Kind::Weak) {
        Kind::Reference
    } else if n < header.first(Kind::Data) {
        Kind::Weak
    } else {
        Kind::Data
    }
}

/// The least stamp of an entry that writes a header at the address; None if none does.
pub fn header_stamp(dump: &Dump<'_>, address: u64) -> Option<u64>
    ensures { IsHeaderStamp (all_entries dump.now.pages) address result }
{
    comp_dump::dump_is_stored(dump);
    let mut least = None;
    for p in 0..dump.pages().len() {
        least = least_on(p as u64, journal_of(dump.pages(), p), address, least);
    }
    least
}

// The least of `least` and of the stamps of the headers that these entries of page `p` write at the address.
fn least_on(p: u64, journal: &[Entry], address: u64, least: Option<u64>) -> Option<u64>
    requires { p < 2 ^ 26 }
    ensures { (all : List (ℕ × Entry)) → IsHeaderStamp all address least → IsHeaderStamp (all ++ with_page p journal.now) address result }
{
    let mut least = least;
    for &entry in journal {
        least = least_with(p, entry, address, least);
    }
    least
}

// The same for one entry.
fn least_with(p: u64, entry: Entry, address: u64, least: Option<u64>) -> Option<u64>
    requires { p < 2 ^ 26 }
    ensures { (all : List (ℕ × Entry)) → IsHeaderStamp all address least → IsHeaderStamp (all ++ (p, entry) ∷ []) address result }
{
    if makes(p, entry, address) {
        Some(lesser(least, entry.stamp))
    } else {
        least
    }
}

// Whether this entry of page `p` writes a header at the address.
fn makes(p: u64, entry: Entry, address: u64) -> bool
    requires { p < 2 ^ 26 }
    ensures { result ≡ makes address (p, entry) }
{
    match entry.kind {
        Kind::Header => TO_SPACE + 64 * p + u64::from(entry.offset) == address,
        Kind::Reference => false,
        Kind::Weak => false,
        Kind::Data => false,
    }
}

// The lesser of this stamp and the one before, if there is one.
fn lesser(least: Option<u64>, stamp: u64) -> u64
    ensures { (n : ℕ) → nat_lt result n ≡ (is_below least n || nat_lt stamp n) }
{
    match least {
        Some(other) => other.min(stamp),
        None => stamp,
    }
}
