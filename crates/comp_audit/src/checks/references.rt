//! The fifth check: each reference and weak word is null, or the address of an object.
ghost use Rattle.std.specs.Prelude.{◌≡◌, ◌^◌, ◌<◌, [], length, slice_index_or, None};
ghost use Rattle.comp_history.specs.Lawful.{IsLawful};
ghost use Rattle.comp_history.specs.Setup.{pages};
ghost use Rattle.comp_history.specs.Objects.{AreLawful};
ghost use Rattle.comp_audit.specs.Checks.{each_built, some_refers, journals_in, loose_faults, reference_faults, word_faults};
ghost use Rattle.comp_dump.specs.Dumped.{IsStoredPage};
ghost use Rattle.comp_audit.specs.Reported.{Reports};
ghost use Rattle.comp_audit.specs.Noted.{leads, setup_at};

use crate::checks::fault::CheckEnd;
use crate::checks::kinds::refers;
use crate::checks::setting::Setting;
use crate::checks::starts::Starts;
use comp_dump::{AuditFault, DumpedPage};
use comp_history::kinds_on;
use heap_layout::Kind;
use page_plan::{Plan, TO_SPACE};
use std::alloc::Global;

/// Checks that each reference and weak word on each page that was built is null, or the address of an object. The words
/// of each page must be what its journal makes of its base.
pub fn check_references(
    alloc: Global,
    setting: Setting<'_>,
    starts: &Starts,
) -> Result<(), CheckEnd>
    requires slots { length setting.dump.now.pages ≡ pages (setup_at setting) }
    requires lawful { AreLawful (setup_at setting) (journals_in setting.dump.now.pages) }
    requires words { each_built (word_faults (setup_at setting)) setting.dump.now.pages ≡ [] }
    ensures { Reports (each_built (reference_faults (leads setting.entry.plan.now starts.now) (setup_at setting.entry)) setting.entry.dump.now.pages) result }
{
    comp_dump::dump_is_stored(setting.dump);
    let records = setting.dump.pages();
    for p in 0..records.len() {
        if let Some(page) = records.page(p) {
            check_page(alloc, setting, starts, p as u64, &page)?;
        }
    }
    Ok(())
}

// The same for page `p`. Without an entry its words are those of its base, where each reference and weak word is null
// or leads to a slid object.
fn check_page(
    alloc: Global,
    setting: Setting<'_>,
    starts: &Starts,
    p: u64,
    page: &DumpedPage<'_>,
) -> Result<(), CheckEnd>
    requires few { p < 2 ^ 26 }
    requires inside { p < pages (setup_at setting) }
    requires stored { IsStoredPage setting.dump.now.edition setting.dump.now.mutators page.now }
    requires lawful { IsLawful (setup_at setting) p page.now.journal }
    requires words { word_faults (setup_at setting) p page.now ≡ [] }
    ensures { Reports (reference_faults (leads setting.entry.plan.now starts.now) (setup_at setting.entry) p page.now) result }
{
    let journal = page.journal();
    if journal.is_empty() {
        return Ok(());
    }
    let kinds = kinds_on(alloc, setting.plan, p, journal)?;
    check_loose(setting.plan, starts, &kinds, p, &page.words())
}

// Checks that each reference and weak word among these words of page `p` is null, or the address of an object. `kinds`
// has the kind of each word.
fn check_loose(
    plan: &Plan,
    starts: &Starts,
    kinds: &[Option<Kind>; 64],
    p: u64,
    words: &[u64],
) -> Result<(), CheckEnd>
    requires inside { p < 2 ^ 26 }
    requires long { length words.now ≡ 64 }
    ensures { Reports (loose_faults plan.now.edition (λ offset. some_refers (slice_index_or kinds.now offset None)) (leads plan.now starts.now) p words.now) result }
{
    let edition = plan.heap().edition();
    for (offset, &word) in words.iter().enumerate() {
        if refers(kinds[offset]) && !edition.leads_nowhere(word) && !starts.leads(plan, word) {
            let address = TO_SPACE + 64 * p + offset as u64;
            return Err(CheckEnd::Fault(AuditFault::LooseReference(address)));
        }
    }
    Ok(())
}
