//! The third check: each entry of a page fits the entries before it.
ghost use Rattle.std.specs.Prelude.{◌≡◌, ℕ, List, ◌+◌, ◌*◌, ◌<◌, ◌≤◌, [], All, None, length, slice_index_or, true};
ghost use Rattle.heap_layout.specs.Heap.{Heap, live};
ghost use Rattle.page_plan.specs.Sliding.{kind};
ghost use Rattle.comp_journal.specs.declared.entry.Entry.{Entry};
ghost use Rattle.comp_history.specs.Setup.{fresh_page, pages, Setup};
ghost use Rattle.comp_history.specs.Lawful.{kinds_by, kinds_in};
ghost use Rattle.comp_audit.specs.Checks.{each_built, entry_faults, fits, journal_faults, setup_for};
ghost use Rattle.comp_dump.specs.Dumped.{IsStoredEntry};
ghost use Rattle.comp_audit.specs.Reported.{Reports};
ghost use Rattle.comp_audit.specs.Noted.{setup_at};

use crate::checks::fault::CheckEnd;
use crate::checks::kinds::{is_of, is_word_of};
use crate::checks::setting::Setting;
use comp_dump::AuditFault;
use comp_history::add_kinds;
use comp_journal::Entry;
use heap_layout::{Edition, Header, Kind};
use std::alloc::Global;

/// Checks that the journal of each page that was built is lawful, and that its stamps rise.
pub fn check_journals(alloc: Global, setting: Setting<'_>) -> Result<(), CheckEnd>
    requires { length setting.dump.now.pages ≡ pages (setup_at setting) }
    ensures { Reports (each_built (journal_faults (setup_at setting.entry)) setting.entry.dump.now.pages) result }
{
    comp_dump::dump_is_stored(setting.dump);
    let records = setting.dump.pages();
    for p in 0..records.len() {
        if let Some(page) = records.page(p) {
            check_journal(alloc, setting, p as u64, page.journal())?;
        }
    }
    Ok(())
}

// Checks that the journal of page `p` is lawful, and that its stamps rise.
fn check_journal(
    alloc: Global,
    setting: Setting<'_>,
    p: u64,
    journal: &[Entry],
) -> Result<(), CheckEnd>
    requires inside { p < pages (setup_at setting) }
    requires stored { All (IsStoredEntry setting.dump.now.edition setting.dump.now.mutators) journal.now }
    ensures { Reports (entry_faults (setup_at setting.entry) p 0 0 [] journal.now) result }
{
    comp_dump::dump_is_stored(setting.dump);
    let compacted = setting.plan.pages();
    if p < compacted {
        check_compacted(setting, p, journal)
    } else {
        check_fresh(alloc, setting, (p - compacted) as u32, p, journal)
    }
}

// The same for a compacted page.
fn check_compacted(setting: Setting<'_>, p: u64, journal: &[Entry]) -> Result<(), CheckEnd>
    requires compacted { p < (setup_at setting).compacted }
    requires stored { All (IsStoredEntry setting.dump.now.edition setting.dump.now.mutators) journal.now }
    ensures { Reports (entry_faults (setup_at setting.entry) p 0 0 [] journal.now) result }
{
    if journal.is_empty() {
        return Ok(());
    }
    let kinds = setting.plan.page_kinds(p);
    let mut low = 0;
    for (k, &entry) in journal.iter().enumerate() {
        if u128::from(entry.stamp) < low || !may_change(&kinds, entry) {
            return Err(CheckEnd::Fault(AuditFault::BadEntry(p, k as u64)));
        }
        low = u128::from(entry.stamp) + 1;
    }
    Ok(())
}

// Whether an entry may stand in the journal of a compacted page whose words have these kinds: it makes no object, and
// it writes a word of its own kind.
fn may_change(kinds: &[Option<Kind>; 64], entry: Entry) -> bool
    requires inside { entry.offset < 64 }
    ensures { (u : Setup) (p : ℕ) (before : List Entry) → p < u.compacted
        → ((offset : ℕ) → offset < 64 → slice_index_or kinds.now offset None ≡ kind (live u.heap) (64 * p + offset))
        → result ≡ fits u p before entry.kind entry.writer entry.offset entry.value }
{
    match entry.kind {
        Kind::Header => false,
        Kind::Reference | Kind::Weak | Kind::Data => is_word_of(
            kinds[entry.offset as usize],
            entry.kind,
        ),
    }
}

// The same for page `p`, which is fresh page `number`.
fn check_fresh(
    alloc: Global,
    setting: Setting<'_>,
    number: u32,
    p: u64,
    journal: &[Entry],
) -> Result<(), CheckEnd>
    requires number { p ≡ fresh_page (setup_at setting) number }
    requires fresh { number < setting.dump.now.fresh }
    requires stored { All (IsStoredEntry setting.dump.now.edition setting.dump.now.mutators) journal.now }
    ensures { Reports (entry_faults (setup_at setting.entry) p 0 0 [] journal.now) result }
{
    comp_dump::dump_is_stored(setting.dump);
    let edition = setting.plan.heap().edition();
    let mutators = setting.dump.mutators();
    let mut kinds = Vec::with_capacity(alloc, 64)?;
    let mut low = 0;
    for (k, &entry) in journal.iter().enumerate() {
        if u128::from(entry.stamp) < low || !may_follow(&kinds, edition, number, entry, mutators) {
            return Err(CheckEnd::Fault(AuditFault::BadEntry(p, k as u64)));
        }
        add_kinds(&mut kinds, edition, entry);
        low = u128::from(entry.stamp) + 1;
    }
    Ok(())
}

// Whether an entry may follow those before it on fresh page `number`. `kinds` has the kinds of the words that they gave
// to objects.
fn may_follow(kinds: &[Kind], edition: Edition, number: u32, entry: Entry, mutators: u8) -> bool
    requires some { 0 < mutators }
    requires few { length kinds.now ≤ 64 }
    requires inside { entry.offset < 64 }
    ensures room { result ≡ true → length kinds.now + length (kinds_by edition entry.kind entry.value) ≤ 64 }
    ensures fits { (heap : Heap) (fresh : ℕ) (before : List Entry) → heap.edition ≡ edition → number < fresh → kinds_in heap.edition before ≡ kinds.now
        → result ≡ fits (setup_for heap fresh mutators) (fresh_page (setup_for heap fresh mutators) number) before entry.kind entry.writer entry.offset entry.value }
{
    match entry.kind {
        Kind::Header => {
            u32::from(entry.writer) == number % u32::from(mutators)
                && entry.offset as usize == kinds.len()
                && kinds.len() + Header::from_word_of(edition, entry.value).size() as usize <= 64
        }
        Kind::Reference | Kind::Weak | Kind::Data => is_of(kinds, entry.offset, entry.kind),
    }
}
