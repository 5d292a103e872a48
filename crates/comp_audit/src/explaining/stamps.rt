//! The entries that have a stamp.
ghost use Rattle.std.specs.Prelude.{◌≡◌, ◌<◌, ◌≤◌, map, length};
ghost use Rattle.heap_layout.specs.Heap.{Heap};
ghost use Rattle.comp_dump.specs.Entry.{Entry};
ghost use Rattle.comp_dump.specs.Lists.{times};
ghost use Rattle.comp_dump.specs.declared.fault.AuditFault.TheVariants as fault;
ghost use Rattle.comp_audit.specs.Checks.{all_stamps};
ghost use Rattle.comp_audit.specs.Explained.{Explains, IsFirstUse, IsLastUse};

use crate::checks::journal_of;
use crate::explaining::sums::count;
use crate::explanation::{Explanation, StampLost, StampUses};
use comp_dump::Dump;
use comp_journal::Entry;

/// What is said of a stamp that stands twice or more often.
pub fn explain_repeated(dump: &Dump<'_>, stamp: u64) -> Explanation
    ensures { (heap : Heap) → Explains heap dump.now (fault.StampRepeated stamp) result }
{
    let entries = uses(dump, stamp);
    if entries < 2 {
        return Explanation::NoSuchFault;
    }
    match first_use(dump, stamp) {
        None => Explanation::NoSuchFault,
        Some(first_page) => Explanation::StampRepeated(StampUses {
            stamp,
            entries,
            first_page,
            last_page: last_use(dump, stamp),
        }),
    }
}

/// What is said of a stamp that no entry has, and that is below the number of entries.
pub fn explain_missing(dump: &Dump<'_>, stamp: u64) -> Explanation
    ensures { (heap : Heap) → Explains heap dump.now (fault.StampMissing stamp) result }
{
    let entries = count(dump).entries;
    if stamp >= entries || uses(dump, stamp) != 0 {
        return Explanation::NoSuchFault;
    }
    Explanation::StampMissing(StampLost { stamp, entries })
}

// The first page with an entry of this stamp.
fn first_use(dump: &Dump<'_>, stamp: u64) -> Option<u64>
    ensures { IsFirstUse dump.now stamp result }
{
    for p in 0..dump.pages().len() {
        if uses_on(journal_of(dump.pages(), p), stamp) != 0 {
            return Some(p as u64);
        }
    }
    None
}

// The last page with an entry of this stamp, 0 if there is none.
fn last_use(dump: &Dump<'_>, stamp: u64) -> u64
    ensures { IsLastUse dump.now stamp result }
{
    let mut last = 0;
    for p in 0..dump.pages().len() {
        if uses_on(journal_of(dump.pages(), p), stamp) != 0 {
            last = p as u64;
        }
    }
    last
}

// How many entries have this stamp.
fn uses(dump: &Dump<'_>, stamp: u64) -> u64
    ensures { result ≡ times stamp (all_stamps dump.now.pages) }
{
    comp_dump::dump_is_stored(dump);
    let mut uses = 0;
    for p in 0..dump.pages().len() {
        uses += uses_on(journal_of(dump.pages(), p), stamp);
    }
    uses
}

// How many of these entries have this stamp.
fn uses_on(journal: &[Entry], stamp: u64) -> u64
    ensures uses { result ≡ times stamp (map (λ (e : Entry). e.stamp) journal.now) }
    ensures few { result ≤ length journal.now }
{
    let mut uses = 0;
    for entry in journal {
        if entry.stamp == stamp {
            uses += 1;
        }
    }
    uses
}
