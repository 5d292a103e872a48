//! A heap at rest, in memory of the caller, is collected within its words around objects that stay.
ghost use Rattle.std.specs.Prelude.{◌≡◌, ◌*◌, ◌≤◌, length};
ghost use Rattle.rest_handle.specs.Pinning.{of_pinned, AreListed, CollectsPinned, CollectsPinnedOf};

use handle_base::{Answer, status};
use heap_layout::{Edition, edition_of};
use pinned_heap::{CollectPinnedFault, Run};
use std::alloc::Global;

// The answer of a heap that is not collected around objects that stay.
fn unpinned(fault: CollectPinnedFault) -> Answer
    ensures { result ≡ of_pinned fault }
{
    match fault {
        CollectPinnedFault::Survey(fault) => Answer::unsurveyed(fault),
        CollectPinnedFault::BadPin(k) => Answer::bare(status::BAD_PIN, k),
        CollectPinnedFault::TooManyRuns(count) => Answer::bare(status::TOO_SHORT, count),
    }
}

// Lists the runs, each by its two ends, at the front of a buffer that has room for them.
fn list_runs(runs: &[Run], out: &mut [u64])
    requires { 2 * length runs.now ≤ length out.old }
    ensures { AreListed runs.now out.old out.new }
{
    for k in 0..runs.len() {
        let run = runs[k];
        out[2 * k] = run.start;
        out[2 * k + 1] = run.end;
    }
}

// Collects a heap of this edition.
fn collect_pinned_of(
    alloc: Global,
    edition: Edition,
    words: &mut [u64],
    roots: &mut [u64],
    pins: &[u64],
    runs: &mut [u64],
    run_count: &mut u64,
) -> Answer
    ensures { CollectsPinnedOf edition words.old words.new roots.old roots.new pins.now runs.old runs.new run_count.old run_count.new result }
{
    match pinned_heap::collect_pinned(alloc, edition, words, roots, pins, runs.len() / 2) {
        Ok(left) => {
            list_runs(&left.runs, runs);
            *run_count = left.runs.len() as u64;
            Answer::done(left.end)
        }
        Err(fault) => unpinned(fault),
    }
}

/// Collects the heap of these words and roots, of this edition, 1 to 4, within the words, and leaves the objects at the
/// pins where they are. Each pin keeps its object as a root does; the others slide down around them. The answer has
/// where the last live object ends. The runs of free words below that are at the front of `runs` then, each as the
/// index of its first word and the one behind its last word, and `run_count` is how many they are: at most as many as
/// pins. If it is refused, words, roots, `runs` and `run_count` are as they were: a pin may not be the address of an
/// object, and `runs` may be too short.
pub fn collect_pinned(
    alloc: Global,
    edition: u32,
    words: &mut [u64],
    roots: &mut [u64],
    pins: &[u64],
    runs: &mut [u64],
    run_count: &mut u64,
) -> Answer
    ensures { CollectsPinned edition words.old words.new roots.old roots.new pins.now runs.old runs.new run_count.old run_count.new result }
{
    match edition_of(edition, true) {
        Some(found) => collect_pinned_of(alloc, found, words, roots, pins, runs, run_count),
        None => Answer::bare(status::BAD_EDITION, u64::from(edition)),
    }
}
