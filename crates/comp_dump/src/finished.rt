//! Dumps of finished heaps.
ghost use Rattle.std.specs.Prelude.{◌≡◌, ◌^◌, ◌<◌, All, IfOk, map};
ghost use Rattle.comp_cycles.specs.CellEnds.{lists as items_of};
ghost use Rattle.comp_cycles.specs.Finishes.{edition_in, builds_in, live_of, pages_of, roots_of, IsOfFlip};
ghost use Rattle.comp_dump.specs.Lent.{record_of};

use crate::dump::Dump;
use crate::kept_pages::DumpedPages;
use crate::page::numbers_are_typed;
use comp_cycles::Finished;
use heap_layout::OutOfMemory;
use std::alloc::Global;

impl<'a> Dump<'a> {
    /// The dump of a finished heap, which borrows its pages. `mutators` and `fresh_pages` must be those of the heap's
    /// flip. It fails only if memory runs out.
    pub fn of(
        alloc: Global,
        finished: &'a Finished,
        mutators: u8,
        fresh_pages: u32,
    ) -> Result<Dump<'a>, OutOfMemory>
        requires { IsOfFlip mutators fresh_pages finished.now }
        ensures edition { IfOk result (λ dump. dump.edition ≡ edition_in finished.now) }
        ensures mutators { IfOk result (λ dump. dump.mutators ≡ mutators) }
        ensures fresh { IfOk result (λ dump. dump.fresh ≡ fresh_pages) }
        ensures roots { IfOk result (λ dump. dump.roots ≡ roots_of finished.now) }
        ensures pages { IfOk result (λ dump. dump.pages ≡ map record_of (pages_of finished.now)) }
        ensures builds { IfOk result (λ dump. dump.builds ≡ builds_in finished.now) }
        ensures total { IfOk result (λ dump. dump.total ≡ live_of finished.now) }
    {
        let roots = copied(alloc, finished.roots())?;
        let builds = all_shortened(alloc, finished.builds())?;
        Ok(Dump::from_parts(
            finished.edition(),
            mutators,
            fresh_pages,
            roots,
            DumpedPages::lent(finished.pages()),
            builds,
            finished.live_words(),
        ))
    }
}

// A copy of the roots.
fn copied(alloc: Global, roots: &[u64]) -> Result<Vec<u64>, OutOfMemory>
    ensures same { IfOk result (λ copy. copy.items ≡ roots.now) }
    ensures typed { All (λ root. root < 2 ^ 64) roots.now }
{
    // For the proof alone: the roots fit their type.
    numbers_are_typed(roots);
    Ok(roots.to_vec(alloc)?)
}

// The same page numbers, in 4 bytes each.
fn shortened(alloc: Global, list: &[u64]) -> Result<Vec<u32>, OutOfMemory>
    requires { All (λ p. p < 2 ^ 32) list.now }
    ensures { IfOk result (λ short. short.items ≡ list.now) }
{
    let mut short = Vec::with_capacity(alloc, list.len())?;
    for p in list {
        short.push_reserved(*p as u32);
    }
    Ok(short)
}

// The same lists of page numbers, in 4 bytes each.
fn all_shortened(alloc: Global, lists: &[Vec<u64>]) -> Result<Vec<Vec<u32>>, OutOfMemory>
    requires { All (λ list. All (λ p. p < 2 ^ 32) list) (items_of lists.now) }
    ensures { IfOk result (λ short. items_of short.items ≡ items_of lists.now) }
{
    let mut short = Vec::with_capacity(alloc, lists.len())?;
    for list in lists {
        short.push_reserved(shortened(alloc, list)?);
    }
    Ok(short)
}
