//! The ninth check: the total is the number of words that slid and of words of new objects.
ghost use Rattle.std.specs.Prelude.{◌≡◌, ◌+◌, ◌^◌, ◌<◌, ◌≤◌, All, length};
ghost use Rattle.heap_layout.specs.Heap.{live};
ghost use Rattle.page_plan.specs.Sliding.{live_words};
ghost use Rattle.comp_journal.specs.declared.entry.Entry.{Entry};
ghost use Rattle.comp_history.specs.Lists.{total as added};
ghost use Rattle.comp_history.specs.MadeWords.{allocated, words_by};
ghost use Rattle.comp_audit.specs.Checks.{all_entries, total_faults};
ghost use Rattle.comp_dump.specs.Dumped.{HasFewEntries};
ghost use Rattle.comp_audit.specs.Reported.{Reports};

use crate::checks::fault::CheckEnd;
use crate::checks::record::journal_of;
use comp_dump::{AuditFault, Dump, DumpedPages};
use comp_journal::Entry;
use heap_layout::{Edition, Header, Kind};
use page_plan::Plan;

/// Checks that the total is the number of words that slid and of words of new objects.
pub fn check_total(plan: &Plan, dump: &Dump<'_>) -> Result<(), CheckEnd>
    ensures { Reports (total_faults plan.now dump.now.total dump.now.pages) result }
{
    if u128::from(dump.live_words()) != right_total(plan, dump) {
        return Err(CheckEnd::Fault(AuditFault::WrongTotal));
    }
    Ok(())
}

/// The number of words that slid and of words of new objects.
pub fn right_total(plan: &Plan, dump: &Dump<'_>) -> u128
    ensures { result ≡ live_words (live plan.now) + allocated plan.now.edition (all_entries dump.now.pages) }
{
    comp_dump::dump_is_stored(dump);
    u128::from(plan.live_words()) + all_words(plan.heap().edition(), dump.pages())
}

// The words of the objects that all entries make.
fn all_words(edition: Edition, records: &DumpedPages<'_>) -> u128
    requires few { length records.now ≤ 2 ^ 26 }
    requires pages { All HasFewEntries records.now }
    ensures words { result ≡ allocated edition (all_entries records.now) }
    ensures few { result ≤ 2 ^ 68 }
{
    let mut words = 0;
    for p in 0..records.len() {
        words += u128::from(words_on(edition, journal_of(records, p)));
    }
    words
}

// The words of the objects that the entries of a page make.
fn words_on(edition: Edition, journal: &[Entry]) -> u64
    requires { length journal.now ≤ 1024 }
    ensures words { result ≡ added (λ (e : Entry). words_by edition e.kind e.value) journal.now }
    ensures few { result ≤ 2 ^ 42 }
{
    let mut words = 0;
    for entry in journal {
        words += words_made(edition, *entry);
    }
    words
}

// The words of the object that an entry makes, 0 if it makes none.
fn words_made(edition: Edition, entry: Entry) -> u64
    ensures words { result ≡ words_by edition entry.kind entry.value }
    ensures few { result < 2 ^ 32 }
{
    match entry.kind {
        Kind::Header => u64::from(Header::from_word_of(edition, entry.value).size()),
        Kind::Reference => 0,
        Kind::Weak => 0,
        Kind::Data => 0,
    }
}
