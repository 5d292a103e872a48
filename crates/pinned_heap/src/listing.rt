//! Lists the runs of free words that a slide around objects leaves.
ghost use Rattle.std.specs.Prelude.{◌≡◌, ◌*◌, ◌≤◌, length, IfOk};
ghost use Rattle.heap_layout.specs.Bits.{bit};
ghost use Rattle.pinned_heap.specs.Listing.{runs_below};
ghost use Rattle.pinned_heap.specs.Tables.{end_below, AreBases};

use crate::placing::place_of;
use crate::run::Run;
use heap_layout::is_set;
use std::alloc::{AllocError, Global};
use stopped_heap::next_set;

/// Where the live words below index `i` end after the slide.
pub(crate) fn end_at(bits: &[u64], stays: &[u64], bases: &[u32], i: usize) -> u64
    requires bases { AreBases bits.now stays.now bases.now }
    requires known { i ≤ 64 * length bits.now }
    ensures end { result ≡ end_below (bit bits.now) (bit stays.now) i }
    ensures few { result ≤ i }
{
    if i == 0 {
        return 0;
    }
    place_of(bits, stays, bases, i - 1) + u64::from(is_set(bits, i - 1))
}

/// The runs of free words, in order: one right before each object that stays, unless it has no words.
pub(crate) fn list_runs(
    alloc: Global,
    bits: &[u64],
    stays: &[u64],
    bases: &[u32],
) -> Result<Vec<Run>, AllocError>
    requires bases { AreBases bits.now stays.now bases.now }
    ensures { IfOk result (λ runs. runs.items ≡ runs_below (bit bits.now) (bit stays.now) (64 * length stays.now)) }
{
    let mut runs = Vec::new(alloc);
    let limit = 64 * stays.len();
    let mut next = 0;
    while next < limit {
        let end = next_set(stays, next);
        if end >= limit {
            return Ok(runs);
        }
        let start = end_at(bits, stays, bases, end);
        if start < end as u64 {
            runs.push(Run {
                start,
                end: end as u64,
            })?;
        }
        next = end + 1;
    }
    Ok(runs)
}
