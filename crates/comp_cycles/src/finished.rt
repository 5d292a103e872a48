//! The heap at the end of a cycle.
ghost use Rattle.std.specs.Prelude.{◌≡◌, length};

use cell_steps::ClosedPages;
use heap_layout::Edition;

/// A compacted heap after all its mutators were handed back. `Space::finish` of comp_mutator makes it, and its contract
/// says what is known of it.
#[derive(Drop)]
pub struct Finished {
    /// The edition of the heap.
    pub edition: Edition,
    /// The pages, the compacted ones first; None for a page that nobody touched.
    pub pages: ClosedPages,
    /// Where the roots of the heap lead: to-space addresses, or 0.
    pub roots: Vec<u64>,
    /// The number of words of all objects: those that slid, and those that mutators made.
    pub live: u64,
    /// The numbers of the pages that each mutator built, in order; one list for each mutator.
    pub builds: Vec<Vec<u64>>,
}

impl Finished {
    ghost use Rattle.comp_history.specs.CellEnds.{lists};
    ghost use Rattle.comp_cycles.specs.Finishes.{builds_in, edition_in, live_of, pages_of, roots_of};

    /// The edition of the heap.
    pub fn edition(&self) -> Edition
        ensures { result ≡ edition_in self.now }
    {
        self.edition
    }

    /// The pages, the compacted ones first; None for a page that nobody touched.
    pub fn pages(&self) -> &ClosedPages
        ensures { result.now ≡ pages_of self.now }
    {
        &self.pages
    }

    /// Where the roots of the heap lead: to-space addresses, or 0.
    pub fn roots(&self) -> &[u64]
        ensures { result.now ≡ roots_of self.now }
    {
        &self.roots
    }

    /// The number of words of all objects: those that slid, and those that mutators made.
    pub fn live_words(&self) -> u64
        ensures { result ≡ live_of self.now }
    {
        self.live
    }

    /// The numbers of the pages that each mutator built, in order; one list for each mutator.
    pub fn builds(&self) -> &[Vec<u64>]
        ensures lists { lists result.now ≡ builds_in self.now }
        ensures count { length result.now ≡ length (builds_in self.now) }
    {
        &self.builds
    }
}
