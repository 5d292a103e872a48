//! Dumps written to memory, read from there, and compared part by part.
use crate::expected::{expect_eq, expect_so};
use crate::judged_dumps::expect_yes;
use comp_audit::{Dump, DumpFault, read_dump, read_large_dump, write_dump};
use comp_journal::Entry;
use heap_layout::{Counted, Edition};
use page_plan::Plan;
use std::alloc::Global;
use std::process::Abort;
use test_support::At;

// The bytes of a dump.
fn written(rt: &impl Abort, alloc: Global, dump: &Dump<'_>) -> Vec<u8> {
    let mut writer = Counted::new(Vec::new(alloc));
    write_dump(dump, &mut writer).expect(rt, "writing into memory");
    writer.into_inner()
}

/// What these bytes are read as by the call that reads editions one and two.
pub fn read(alloc: Global, bytes: &[u8]) -> Result<Dump<'static>, DumpFault> {
    read_dump(alloc, &mut Counted::new(bytes))
}

/// What these bytes are read as by the call that reads all editions.
pub fn read_large(alloc: Global, bytes: &[u8]) -> Result<Dump<'static>, DumpFault> {
    read_large_dump(alloc, &mut Counted::new(bytes))
}

// The numbers of mutators, fresh pages, roots, pages and lists of builds of a dump, and its live words.
fn counts(dump: &Dump<'_>) -> [u64; 6] {
    [
        u64::from(dump.mutators()),
        u64::from(dump.fresh_pages()),
        dump.roots().len() as u64,
        dump.pages().len() as u64,
        dump.builds().len() as u64,
        dump.live_words(),
    ]
}

/// Checks the numbers of mutators, fresh pages, roots, pages and lists of builds of a dump, and its live words.
pub fn expect_counts(rt: &impl Abort, dump: &Dump<'_>, wanted: &[u64; 6]) {
    let found = counts(dump);
    expect_eq(
        rt,
        At::new("counts", 0),
        found.as_slice(),
        wanted.as_slice(),
    );
}

/// The words and the journal of a page.
pub type PageParts<'a> = ([u64; 64], &'a [Entry]);

/// The words and the journal of this page, or `None` if it was not built.
pub fn page_parts<'a>(dump: &'a Dump<'_>, page: usize) -> Option<PageParts<'a>> {
    match dump.pages().page(page) {
        Some(page) => Some((page.words(), page.journal())),
        None => None,
    }
}

/// Whether two dumps have the same edition, parts and pages.
pub fn are_same(one: &Dump<'_>, other: &Dump<'_>) -> bool {
    let mut same = one.edition() == other.edition()
        && counts(one).as_slice() == counts(other).as_slice()
        && one.roots() == other.roots()
        && one.builds() == other.builds();
    for page in 0..one.pages().len() {
        same = same && page_parts(one, page) == page_parts(other, page);
    }
    same
}

// Whether these bytes are read as this dump by the call that reads editions one and two, or refused by it if they are
// of edition three.
fn is_same_or_large(alloc: Global, dump: &Dump<'_>, bytes: &[u8]) -> bool {
    let is_large = dump.edition() == Edition::Three;
    match read(alloc, bytes) {
        Ok(again) => !is_large && are_same(dump, &again),
        Err(fault) => is_large && fault == DumpFault::BadMagic,
    }
}

// Checks that these bytes are read as this dump, and that the audit for this plan accepts it.
fn expect_again(rt: &impl Abort, alloc: Global, plan: &Plan, dump: &Dump<'_>, bytes: &[u8]) {
    let so = is_same_or_large(alloc, dump, bytes);
    expect_so(rt, At::new("read or refused", bytes.len()), so);
    let again = read_large(alloc, bytes).expect(rt, "a dump");
    expect_so(
        rt,
        At::new("read again", bytes.len()),
        are_same(dump, &again),
    );
    expect_yes(rt, alloc, plan, &again, bytes.len());
}

/// Checks that the dump has these bytes, that they are read as the same dump, and that the audit for this plan accepts
/// both.
pub fn expect_dump(rt: &impl Abort, alloc: Global, plan: &Plan, dump: &Dump<'_>, wanted: &[u8]) {
    expect_yes(rt, alloc, plan, dump, wanted.len());
    let bytes = written(rt, alloc, dump);
    expect_eq(rt, At::new("bytes", wanted.len()), bytes.as_slice(), wanted);
    expect_again(rt, alloc, plan, dump, &bytes);
}
