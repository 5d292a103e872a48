//! The whole collection.
ghost use Rattle.std.specs.Prelude.{◌≡◌, ◌<◌, ℕ, List, length, IfOk, IfErr, OnErr};
ghost use Rattle.stopped_heap.specs.Collecting.{HasCollected, RefusesCollection};

use crate::survey::Survey;
use heap_layout::Edition;
use rest_marks::CollectFault;
use std::alloc::Global;

/// Collects the heap of these words and roots: slides what the roots reach to the beginning of `to`, and makes the
/// roots lead there. Ok with the number of words that are there then; they are the words of a heap again, and the
/// words of `to` behind them are as they were. Err if the heap is refused, if its live words do not fit, or if memory
/// runs out; then neither the roots nor `to` have changed.
pub fn collect(
    alloc: Global,
    edition: Edition,
    words: &[u64],
    roots: &mut [u64],
    to: &mut [u64],
) -> Result<u64, CollectFault>
    ensures collected { IfOk result (λ live. HasCollected edition words.now roots.old live roots.new to.old to.new) }
    ensures fault { IfErr result (RefusesCollection edition words.now roots.old (length to.old)) }
    ensures roots_stay { OnErr result (roots.new ≡ roots.old) }
    ensures to_stays { OnErr result (to.new ≡ to.old) }
{
    let survey = match Survey::of(alloc, edition, words, roots) {
        Ok(survey) => survey,
        Err(fault) => return Err(CollectFault::Survey(fault)),
    };
    let live = survey.live_words();
    if live > to.len() as u64 {
        return Err(CollectFault::NoRoom(live));
    }
    survey.slide(0, &mut to[..live as usize]);
    // Each root was surveyed, so none leads astray, and none becomes null.
    survey.forward_weak(roots);
    Ok(live)
}
