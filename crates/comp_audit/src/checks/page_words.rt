//! The fourth check: the words of each page are what its journal makes of its base.
ghost use Rattle.std.specs.Prelude.{◌≡◌, ◌^◌, ◌<◌, All, IfOk, length};
ghost use Rattle.comp_journal.specs.Journal.{replayed};
ghost use Rattle.comp_history.specs.Setup.{base_of};
ghost use Rattle.comp_audit.specs.Checks.{each_built, same_words, word_faults};
ghost use Rattle.comp_dump.specs.Dumped.{IsStoredPage};
ghost use Rattle.comp_audit.specs.Reported.{Reports};
ghost use Rattle.comp_audit.specs.Noted.{setup_at};

use crate::checks::fault::CheckEnd;
use crate::checks::setting::Setting;
use comp_dump::{AuditFault, DumpedPage};
use comp_journal::Entry;
use heap_layout::{OutOfMemory, PageWords};
use page_plan::TO_SPACE;
use std::alloc::Global;

/// Checks that the words of each page that was built are what its journal makes of its base.
pub fn check_words(alloc: Global, setting: Setting<'_>) -> Result<(), CheckEnd>
    ensures { Reports (each_built (word_faults (setup_at setting.entry)) setting.entry.dump.now.pages) result }
{
    comp_dump::dump_is_stored(setting.dump);
    let records = setting.dump.pages();
    for p in 0..records.len() {
        if let Some(page) = records.page(p) {
            check_page(alloc, setting, p as u64, &page)?;
        }
    }
    Ok(())
}

// Checks that the words of page `p` are what its journal makes of its base.
fn check_page(
    alloc: Global,
    setting: Setting<'_>,
    p: u64,
    page: &DumpedPage<'_>,
) -> Result<(), CheckEnd>
    requires inside { p < 2 ^ 26 }
    requires stored { IsStoredPage setting.dump.now.edition setting.dump.now.mutators page.now }
    ensures { Reports (word_faults (setup_at setting.entry) p page.now) result }
{
    let right = right_words(alloc, setting, p, page.journal())?;
    check_same(right.as_array(), p, &page.words())
}

/// The words that a journal makes of the base of page `p`. Err if out of memory.
pub fn right_words(
    alloc: Global,
    setting: Setting<'_>,
    p: u64,
    journal: &[Entry],
) -> Result<PageWords, OutOfMemory>
    requires { All (λ entry. entry.offset < 64) journal.now }
    ensures { IfOk result (λ words. words ≡ replayed (base_of (setup_at setting.entry) p) journal.now) }
{
    let mut words = base(alloc, setting, p)?;
    replay(&mut words, journal);
    Ok(words)
}

// The words with which page `p` began.
fn base(alloc: Global, setting: Setting<'_>, p: u64) -> Result<PageWords, OutOfMemory>
    ensures { IfOk result (λ words. words ≡ base_of (setup_at setting.entry) p) }
{
    if p < setting.plan.pages() {
        setting.plan.build_page(alloc, p)
    } else {
        PageWords::zeros(alloc)
    }
}

// Puts the entries of a journal into the words of a page, in order.
fn replay(words: &mut PageWords, journal: &[Entry])
    requires { All (λ entry. entry.offset < 64) journal.now }
    ensures { words.new ≡ replayed words.old journal.now }
{
    for entry in journal {
        words.set(entry.offset, entry.value);
    }
}

// Checks that the words of page `p` are equal to `right`.
fn check_same(right: &[u64], p: u64, words: &[u64]) -> Result<(), CheckEnd>
    requires inside { p < 2 ^ 26 }
    requires long { length right.now ≡ 64 }
    requires as_long { length words.now ≡ 64 }
    ensures { Reports (same_words right.now p words.now) result }
{
    for (offset, &word) in words.iter().enumerate() {
        if word != right[offset] {
            let address = TO_SPACE + 64 * p + offset as u64;
            return Err(CheckEnd::Fault(AuditFault::WrongWord(address)));
        }
    }
    Ok(())
}
