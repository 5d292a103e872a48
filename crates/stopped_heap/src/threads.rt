//! The whole collection by several threads.
ghost use Rattle.std.specs.Prelude.{◌≡◌, ◌+◌, ◌<◌, ◌≤◌, ℕ, List, length, slice_index, IfOk, IfErr, OnErr};
ghost use Rattle.heap_layout.specs.Heap.{live};
ghost use Rattle.page_plan.specs.Sliding.{live_words};
ghost use Rattle.stopped_heap.specs.Collecting.{HasCollected, RefusesCollection};
ghost use Rattle.rest_slide.specs.Settled.{settled_words};
ghost use Rattle.rest_marks.specs.Surveys.{heap_of};

use crate::survey::Survey;
use heap_layout::Edition;
use rest_marks::{CollectFault, MAX_WORKERS};
use std::alloc::Global;
use std::thread;
use std::thread::Threads;

// Slides the part of to-space that begins at word `start`.
fn slide_at(survey: &Survey<'_>, start: usize, part: &mut [u64])
    requires { start + length part.old ≤ live_words (live (heap_of survey.now)) }
    ensures words { (k : ℕ) → k < length part.old → slice_index part.new k ≡ slice_index (settled_words (live (heap_of survey.now))) (start + k) }
    ensures length { length part.new ≡ length part.old }
{
    survey.slide(start as u64, part);
}

// Slides into `to`, in at most so many threads: each has a part of it. No more words than live may be there.
fn slide_by_threads<R: Threads + Sync>(rt: &R, survey: &Survey<'_>, to: &mut [u64], workers: usize)
    requires { length to.old ≤ live_words (live (heap_of survey.now)) }
    ensures words { (k : ℕ) → k < length to.old → slice_index to.new k ≡ slice_index (settled_words (live (heap_of survey.now))) k }
    ensures length { length to.new ≡ length to.old }
{
    let size = to.len() / workers.clamp(1, MAX_WORKERS) + 1;
    thread::for_each_chunk_mut(rt, to, size, &|start, part| slide_at(survey, start, part));
}

/// Like `collect`, in at most `workers` threads, and 64 at most: they survey together, as `Survey::of_by_threads` says,
/// and then each fills a part of `to`. With 0 or 1 the thread that calls does it alone. What is left is the same.
pub fn collect_by_threads<R: Threads + Sync>(
    alloc: Global,
    rt: &R,
    edition: Edition,
    words: &[u64],
    roots: &mut [u64],
    to: &mut [u64],
    workers: usize,
) -> Result<u64, CollectFault>
    ensures collected { IfOk result (λ live. HasCollected edition words.now roots.old live roots.new to.old to.new) }
    ensures fault { IfErr result (RefusesCollection edition words.now roots.old (length to.old)) }
    ensures roots_stay { OnErr result (roots.new ≡ roots.old) }
    ensures to_stays { OnErr result (to.new ≡ to.old) }
{
    let survey = match Survey::of_by_threads(alloc, rt, workers, edition, words, roots) {
        Ok(survey) => survey,
        Err(fault) => return Err(CollectFault::Survey(fault)),
    };
    let live = survey.live_words();
    if live > to.len() as u64 {
        return Err(CollectFault::NoRoom(live));
    }
    slide_by_threads(rt, &survey, &mut to[..live as usize], workers);
    // Each root was surveyed, so none leads astray, and none becomes null.
    survey.forward_weak(roots);
    Ok(live)
}
