//! What a caller can conclude about the words that a page of a finished heap began with.
ghost use Rattle.std.specs.Prelude.{◌≡◌, ◌<◌, IfSome};
ghost use Rattle.page_plan.specs.Heap.{live};
ghost use Rattle.page_plan.specs.Sliding.{page, pages};
ghost use Rattle.comp_mutator.specs.Ends.{IsEndOf};
ghost use Rattle.comp_mutator.specs.Finishes.{journals_of};
ghost use Rattle.comp_mutator.specs.Journal.{replayed};
ghost use Rattle.comp_mutator.specs.Mutators.{setup_of, AreMutatorsOf};

use comp_mutator::{Builder, Finished, Mutator, Space};
use std::alloc::Global;
use std::sync::ledger::Ledger as Named;

// The words that page `p` of the slid words began with, and its words at the end. None if it was never built, or if out
// of memory.
fn base_and_words<B: Builder>(
    alloc: Global,
    builder: &B,
    finished: &Finished,
    p: usize,
) -> Option<([u64; 64], [u64; 64])>
    requires end { IsEndOf (B.heap builder.now) finished.now }
    requires slid { p < pages (live (B.heap builder.now)) }
    ensures base { IfSome result (λ found. found.0 ≡ page (live (B.heap builder.now)) p) }
    ensures words { IfSome result (λ found. found.1 ≡ replayed found.0 (journals_of finished.now p)) }
{
    let page = finished.pages().journaled(alloc, builder, p).ok()??;
    Some((*page.base(), *page.words()))
}

/// Finishes a heap, and asks what page `p` of the slid words began with, and for its words. If there is memory and the
/// page was built, it began with the page that sliding compaction defines, and its words are those that the writes of
/// its journal make of that page.
pub fn finish_and_ask<L: Named, B: Builder>(
    alloc: Global,
    builder: &B,
    space: Space<L, B>,
    mutators: Vec<Mutator<L>>,
    p: usize,
) -> Option<(Finished, [u64; 64], [u64; 64])>
    requires of { AreMutatorsOf space mutators.items }
    requires whole { (setup_of space).mutators ≡ L.parts }
    requires heap { (setup_of space).heap ≡ B.heap builder.now }
    requires slid { p < pages (live (B.heap builder.now)) }
    ensures base { IfSome result (λ found. found.1 ≡ page (live (B.heap builder.now)) p) }
    ensures words { IfSome result (λ found. found.2 ≡ replayed found.1 (journals_of found.0 p)) }
{
    let Ok(finished) = space.finish(alloc, mutators) else {
        return None;
    };
    let (base, words) = base_and_words(alloc, builder, &finished, p)?;
    Some((finished, base, words))
}
