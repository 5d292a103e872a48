//! The eighth check: each reference and weak word that was written is null or an immediate, or leads to an object that
//! is older.
ghost use Rattle.std.specs.Prelude.{◌≡◌, ℕ, List, ◌==◌, ◌++◌, not, Some};
ghost use Rattle.comp_audit.specs.Checks.{is_led, late_faults, late_on, late_with, unless};
ghost use Rattle.comp_audit.specs.Reported.{Reports};
ghost use Rattle.comp_audit.specs.Noted.{is_noted_before, IsEarliest};
ghost use Rattle.comp_dump.specs.declared.fault.AuditFault.{AuditFault};
ghost use Rattle.comp_dump.specs.declared.fault.AuditFault.TheVariants.{BadEntry};

use crate::checks::fault::CheckEnd;
use crate::checks::record::journal_of;
use crate::checks::starts::Starts;
use comp_dump::{AuditFault, DumpedPages};
use comp_journal::Entry;
use page_plan::Plan;

/// An entry that writes a reference or weak word that is neither null nor the address of an older object: its stamp,
/// its page, and its number there.
#[derive(Clone, Copy)]
pub struct Late {
    pub stamp: u64,
    pub page: u64,
    pub number: u64,
}

/// Checks that each reference and weak word that was written is null or an immediate, or leads to a slid object, or to
/// a new object whose header has a smaller stamp.
pub fn check_late(plan: &Plan, starts: &Starts, records: &DumpedPages<'_>) -> Result<(), CheckEnd>
    ensures { Reports (late_faults (is_led plan.now (is_noted_before starts.now)) records.now) result }
{
    match earliest(plan, starts, records) {
        None => Ok(()),
        Some(late) => Err(CheckEnd::Fault(AuditFault::BadEntry(late.page, late.number))),
    }
}

// Of the entries that fail the eighth check, the one with the least stamp.
fn earliest(plan: &Plan, starts: &Starts, records: &DumpedPages<'_>) -> Option<Late>
    ensures { IsEarliest (late_with (is_led plan.now (is_noted_before starts.now)) records.now) result }
{
    let mut found = None;
    for p in 0..records.len() {
        found = earliest_on(plan, starts, p as u64, journal_of(records, p), found);
    }
    found
}

// The earliest of `found` and of the entries on page `p` that fail it.
fn earliest_on(
    plan: &Plan,
    starts: &Starts,
    p: u64,
    journal: &[Entry],
    found: Option<Late>,
) -> Option<Late>
    ensures { (faults : ℕ → List AuditFault) → IsEarliest faults found
        → IsEarliest (λ s. faults s ++ late_on (is_led plan.now (is_noted_before starts.now)) s p journal.now) result }
{
    let mut found = found;
    for (k, &entry) in journal.iter().enumerate() {
        if !is_led(plan, starts, entry) {
            found = Some(earlier(
                found,
                Late {
                    stamp: entry.stamp,
                    page: p,
                    number: k as u64,
                },
            ));
        }
    }
    found
}

// The earlier of `found` and of an entry after it.
fn earlier(found: Option<Late>, late: Late) -> Late
    ensures { (faults : ℕ → List AuditFault) → IsEarliest faults found
        → IsEarliest (λ s. faults s ++ unless (not (late.stamp == s)) (BadEntry late.page late.number)) (Some result) }
{
    match found {
        None => late,
        Some(other) if other.stamp <= late.stamp => other,
        Some(_) => late,
    }
}

// Whether the entry is no reference or weak word, or is null, or leads to an object that is older.
fn is_led(plan: &Plan, starts: &Starts, entry: Entry) -> bool
    ensures { result ≡ is_led plan.now (is_noted_before starts.now) entry }
{
    !entry.kind.refers()
        || plan.heap().edition().leads_nowhere(entry.value)
        || plan.is_start(entry.value)
        || starts.is_before(entry.value, entry.stamp)
}
