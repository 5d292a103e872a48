//! The second check: the lists of builds name each page that was built, exactly once, and no other page.
ghost use Rattle.std.specs.Prelude.{◌≡◌, ℕ, List, ◌+◌, ◌<◌, ◌≤◌, All, IfOk, length, min, slice_index};
ghost use Rattle.comp_history.specs.Lists.{times};
ghost use Rattle.comp_history.specs.CellEnds.{lists as items_of};
ghost use Rattle.comp_history.specs.Builds.{named};
ghost use Rattle.comp_audit.specs.Checks.{build_faults, is_claimed};
ghost use Rattle.comp_dump.specs.Dumped.{IsStoredList};
ghost use Rattle.comp_audit.specs.Reported.{Reports};

use crate::checks::fault::CheckEnd;
use comp_dump::{AuditFault, Dump, DumpedPage};
use std::alloc::{AllocError, Global};

/// Checks that the lists of builds name each page that was built exactly once, and no other page.
pub fn check_builds(alloc: Global, dump: &Dump<'_>) -> Result<(), CheckEnd>
    ensures { Reports (build_faults dump.now.builds dump.now.pages) result }
{
    comp_dump::dump_is_stored(dump);
    let records = dump.pages();
    let counts = count_builds(alloc, records.len(), dump.builds())?;
    for p in 0..records.len() {
        if !is_claimed(counts[p], &records.page(p)) {
            return Err(CheckEnd::Fault(AuditFault::BuildUnclaimed(p as u64)));
        }
    }
    Ok(())
}

// Whether the lists of builds fit this page, if they name it `count` times, where 2 stands for two or more: once if it
// was built, else never.
fn is_claimed(count: u8, slot: &Option<DumpedPage<'_>>) -> bool
    ensures { (builds : List (List ℕ)) (p : ℕ) → count ≡ min (named p builds) 2 → result ≡ is_claimed builds (p, slot.now) }
{
    match slot {
        None => count == 0,
        Some(_) => count == 1,
    }
}

// How often the lists of builds name each page, counted up to 2.
fn count_builds(alloc: Global, slots: usize, builds: &[Vec<u32>]) -> Result<Vec<u8>, AllocError>
    requires { All (IsStoredList slots) (items_of builds.now) }
    ensures length { IfOk result (λ counts. length counts.items ≡ slots) }
    ensures counts { IfOk result (λ counts. (p : ℕ) → slice_index counts.items p ≡ min (named p (items_of builds.now)) 2) }
{
    let mut counts = vec![in alloc; 0u8; slots]?;
    count_lists(&mut counts, builds);
    Ok(counts)
}

// Counts how often some lists name each page, up to 2.
fn count_lists(counts: &mut [u8], lists: &[Vec<u32>])
    requires below { All (IsStoredList (length counts.old)) (items_of lists.now) }
    requires few { (p : ℕ) → slice_index counts.old p ≤ 2 }
    ensures length { length counts.new ≡ length counts.old }
    ensures counts { (p : ℕ) → slice_index counts.new p ≡ min (slice_index counts.old p + named p (items_of lists.now)) 2 }
{
    for list in lists {
        count_in(counts, list);
    }
}

// Counts how often one list names each page, up to 2.
fn count_in(counts: &mut [u8], list: &[u32])
    requires below { All (λ p. p < length counts.old) list.now }
    requires few { (p : ℕ) → slice_index counts.old p ≤ 2 }
    ensures length { length counts.new ≡ length counts.old }
    ensures counts { (p : ℕ) → slice_index counts.new p ≡ min (slice_index counts.old p + times p list.now) 2 }
{
    for &p in list {
        if counts[p as usize] < 2 {
            counts[p as usize] += 1;
        }
    }
}
