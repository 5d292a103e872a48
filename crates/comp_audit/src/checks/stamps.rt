//! The sixth and seventh checks: the stamps of n entries are the numbers below n, each once.
ghost use Rattle.std.specs.Prelude.{◌≡◌, ℕ, ◌<◌, ◌≤◌, ◌+◌, ◌++◌, IfOk, OnOk, length, map, slice_index};
ghost use Rattle.comp_journal.specs.declared.entry.Entry.{Entry};
ghost use Rattle.comp_audit.specs.Checks.{all_stamps, missing_faults, repeat_faults};
ghost use Rattle.comp_audit.specs.Reported.{Reports};

use crate::checks::fault::CheckEnd;
use crate::checks::record::journal_of;
use comp_dump::{AuditFault, DumpedPages};
use comp_journal::Entry;
use std::alloc::{AllocError, Global};

/// Checks that the stamps of all n entries are the numbers below n, each once.
pub fn check_stamps(alloc: Global, records: &DumpedPages<'_>) -> Result<(), CheckEnd>
    ensures { Reports (repeat_faults (all_stamps records.now) ++ missing_faults (all_stamps records.now)) result }
{
    let mut stamps = gather_stamps(alloc, records)?;
    check_numbers(&mut stamps)
}

// The stamps of all entries, page by page.
fn gather_stamps(alloc: Global, records: &DumpedPages<'_>) -> Result<Vec<u64>, AllocError>
    ensures { IfOk result (λ stamps. stamps.items ≡ all_stamps records.now) }
{
    let mut stamps = Vec::new(alloc);
    for p in 0..records.len() {
        add_stamps(&mut stamps, journal_of(records, p))?;
    }
    Ok(stamps)
}

// Appends the stamps of a page.
fn add_stamps(stamps: &mut Vec<u64>, journal: &[Entry]) -> Result<(), AllocError>
    ensures { OnOk result (stamps.new.items ≡ stamps.old.items ++ map (λ (e : Entry). e.stamp) journal.now) }
{
    for entry in journal {
        stamps.push(entry.stamp)?;
    }
    Ok(())
}

// Sorts n numbers, and checks that they are the numbers below n, each once.
fn check_numbers(stamps: &mut [u64]) -> Result<(), CheckEnd>
    ensures { Reports (repeat_faults stamps.old ++ missing_faults stamps.old) result }
{
    stamps.sort_unstable();
    check_sorted(stamps)
}

// Checks that n sorted numbers are the numbers below n, each once.
fn check_sorted(stamps: &[u64]) -> Result<(), CheckEnd>
    requires sorted { (i j : ℕ) → i ≤ j → j < length stamps.now → slice_index stamps.now i ≤ slice_index stamps.now j }
    ensures { Reports (repeat_faults stamps.now ++ missing_faults stamps.now) result }
{
    check_repeats(stamps)?;
    check_missing(stamps)
}

// Checks that none of these sorted numbers stands twice.
fn check_repeats(stamps: &[u64]) -> Result<(), CheckEnd>
    requires sorted { (i j : ℕ) → i ≤ j → j < length stamps.now → slice_index stamps.now i ≤ slice_index stamps.now j }
    ensures reported { Reports (repeat_faults stamps.now) result }
    ensures rises { OnOk result ((k : ℕ) → k + 1 < length stamps.now → slice_index stamps.now k < slice_index stamps.now (k + 1)) }
{
    for i in 1..stamps.len() {
        if stamps[i] == stamps[i - 1] {
            return Err(CheckEnd::Fault(AuditFault::StampRepeated(stamps[i])));
        }
    }
    Ok(())
}

// Checks that n rising numbers lack none below n.
fn check_missing(stamps: &[u64]) -> Result<(), CheckEnd>
    requires sorted { (i j : ℕ) → i ≤ j → j < length stamps.now → slice_index stamps.now i ≤ slice_index stamps.now j }
    requires rises { (k : ℕ) → k + 1 < length stamps.now → slice_index stamps.now k < slice_index stamps.now (k + 1) }
    ensures { Reports (missing_faults stamps.now) result }
{
    for (i, &stamp) in stamps.iter().enumerate() {
        if stamp != i as u64 {
            return Err(CheckEnd::Fault(AuditFault::StampMissing(i as u64)));
        }
    }
    Ok(())
}
