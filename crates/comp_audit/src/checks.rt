//! The nine checks of a dump, in the order of their faults. Each answers its first fault.
ghost use Rattle.std.specs.Prelude.{◌≡◌, [], length};
ghost use Rattle.comp_history.specs.Setup.{pages};
ghost use Rattle.comp_history.specs.Objects.{AreLawful};
ghost use Rattle.comp_audit.specs.Checks.{each_built, journals_in, word_faults};
ghost use Rattle.comp_audit.specs.Judged.{faults};
ghost use Rattle.comp_audit.specs.Noted.{setup_at};
ghost use Rattle.comp_audit.specs.Reported.{history_faults, page_faults, Reports};

mod claims;
mod fault;
mod head;
mod journals;
mod kinds;
mod late;
mod page_words;
mod record;
mod references;
mod setting;
mod stamps;
mod starts;
mod totals;

use crate::checks::claims::check_builds;
use crate::checks::head::check_head;
use crate::checks::journals::check_journals;
use crate::checks::late::check_late;
use crate::checks::page_words::check_words;
use crate::checks::references::check_references;
use crate::checks::stamps::check_stamps;
use crate::checks::starts::starts_of;
use crate::checks::totals::check_total;
pub use fault::CheckEnd;
pub use kinds::{is_word_of, refers};
pub use page_words::right_words;
pub use record::journal_of;
pub use setting::Setting;
use std::alloc::Global;
pub use totals::right_total;

/// Checks whether a compaction by the plan can have left the dump. If there are faults, answers the first of them in
/// the order of the nine checks. It may stop early if memory runs out.
pub fn check(alloc: Global, setting: Setting<'_>) -> Result<(), CheckEnd>
    ensures { Reports (faults setting.entry.plan.now setting.entry.dump.now) result }
{
    check_head(alloc, setting)?;
    check_pages(alloc, setting)?;
    check_history(alloc, setting)?;
    check_total(setting.plan, setting.dump)
}

// The checks of single pages: who built them, their journals and their words.
fn check_pages(alloc: Global, setting: Setting<'_>) -> Result<(), CheckEnd>
    requires { length setting.dump.now.pages ≡ pages (setup_at setting) }
    ensures { Reports (page_faults (setup_at setting.entry) setting.entry.dump.now.builds setting.entry.dump.now.pages) result }
{
    check_builds(alloc, setting.dump)?;
    check_journals(alloc, setting)?;
    check_words(alloc, setting)
}

// The checks between pages: the targets of references and weak words, the stamps, and the age of the targets.
fn check_history(alloc: Global, setting: Setting<'_>) -> Result<(), CheckEnd>
    requires slots { length setting.dump.now.pages ≡ pages (setup_at setting) }
    requires lawful { AreLawful (setup_at setting) (journals_in setting.dump.now.pages) }
    requires words { each_built (word_faults (setup_at setting)) setting.dump.now.pages ≡ [] }
    ensures { Reports (history_faults (setup_at setting.entry) setting.entry.dump.now.pages) result }
{
    let starts = starts_of(alloc, setting)?;
    check_references(alloc, setting, &starts)?;
    let records = setting.dump.pages();
    check_stamps(alloc, records)?;
    check_late(setting.plan, &starts, records)
}
