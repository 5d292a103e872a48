//! What a fight leaves on the page.
use crate::contention::fights::Fight;
use crate::contention::racing_writes::value_at;
use crate::expected::{expect_eq, expect_so};
use comp_journal::Entry;
use comp_mutator::{ClosedPage, Finished};
use heap_layout::Kind;
use std::process::Abort;

// Whether the entry has this stamp and is a write of one of the mutators into the first data word of the first object.
fn is_entry(entry: &Entry, stamp: u64, fight: Fight) -> bool {
    entry.stamp == stamp
        && entry.writer < fight.mutators
        && entry.kind == Kind::Data
        && entry.offset == fight.offset
}

// Whether the values of a writer rise and are among those that it wrote. If no write may be refused, they must be all
// of them.
fn are_of_writer(journal: &[Entry], writer: u8, fight: Fight) -> bool {
    let mut step = 0u64;
    for entry in journal {
        if entry.writer == writer {
            let first = value_at(writer, step);
            let last = value_at(writer, fight.writes);
            if entry.value < first || entry.value >= last || fight.waits && entry.value != first {
                return false;
            }
            step = entry
                .value
                .wrapping_sub(value_at(writer, 0))
                .wrapping_add(1);
        }
    }
    !fight.waits || step == fight.writes
}

// Whether the word is that of the last entry.
fn has_last(page: &ClosedPage<'_>, fight: Fight) -> bool {
    let offset = usize::from(fight.offset);
    match page.journal().last() {
        Some(last) => page.words().as_slice().get(offset) == Some(&last.value),
        None => false,
    }
}

// Panics unless the journal has `entries` entries, their stamps count from 0, and the values of each writer rise.
fn expect_journal(rt: &impl Abort, journal: &[Entry], entries: u64, fight: Fight) {
    expect_eq(rt, fight.at(0), journal.len() as u64, entries);
    for (stamp, entry) in journal.iter().enumerate() {
        let stamp = stamp as u64;
        expect_so(rt, fight.at(stamp), is_entry(entry, stamp, fight));
    }
    for writer in 0..fight.mutators {
        let so = are_of_writer(journal, writer, fight);
        expect_so(rt, fight.at(u64::from(writer)), so);
    }
}

/// Panics unless the one page has as many entries as the mutators counted, and its word is that of the last entry.
pub fn expect_page(rt: &impl Abort, finished: &Finished, entries: u64, fight: Fight) {
    match finished.pages().page(0) {
        Some(page) => {
            expect_journal(rt, page.journal(), entries, fight);
            expect_so(rt, fight.at(entries), has_last(&page, fight));
        }
        None => rt.panic(fight.name),
    }
    if fight.fills {
        expect_eq(rt, fight.at(0), entries, 1_024);
    }
}
