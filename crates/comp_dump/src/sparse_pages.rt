//! Pages that were read: a page that was never built takes no room.
ghost use Rattle.std.specs.Prelude.{◌≡◌, ◌+◌, ◌-◌, ◌^◌, ◌<◌, ◌++◌, ◌∷◌, ℕ, [], IfOk, IfSome, None, Some, length, slice_index, slice_index_or};
ghost use Rattle.comp_dump.specs.Sparse.{AreRising};

use crate::page::{DumpedPage, OwnedPage};
use heap_layout::OutOfMemory;
use std::alloc::Global;
use std::marker::Model;

/// The pages of a dump, in its own memory, by number. None stands for a page that was never built.
#[derive(Drop)]
pub(crate) struct SparsePages {
    // How many pages there are, built or not.
    count: u32,
    // The numbers of the pages that were built, rising.
    numbers: Vec<u32>,
    // These pages.
    pages: Vec<OwnedPage>,
}

impl Model for SparsePages {
    ghost use Rattle.std.specs.Prelude.{List, Option};
    ghost use Rattle.comp_dump.specs.Dumped.{BuiltPage};
    ghost use Rattle.comp_dump.specs.Sparse.{spread, AreNumbered};

    ghost Value = { List (Option BuiltPage) };

    ghost view = { λ kept. spread kept.count kept.numbers.items kept.pages.items };

    ghost invariant = { λ kept. AreNumbered kept.count kept.numbers.items kept.pages.items };
}

impl SparsePages {
    /// No pages.
    pub(crate) fn new(alloc: Global) -> SparsePages
        ensures { result ≡ [] }
    {
        SparsePages {
            count: 0,
            numbers: Vec::new(alloc),
            pages: Vec::new(alloc),
        }
    }

    /// How many pages there are, built or not.
    pub(crate) fn len(&self) -> usize
        ensures { result ≡ length self.now }
    {
        self.count as usize
    }

    /// Adds a page. One that was never built takes no memory.
    pub(crate) fn push(&mut self, page: Option<OwnedPage>) -> Result<(), OutOfMemory>
        requires { length self.old < 2 ^ 32 - 1 }
        ensures { IfOk result (λ _. self.new ≡ self.old ++ page ∷ []) }
    {
        match page {
            None => {
                self.push_unbuilt();
                Ok(())
            }
            Some(page) => self.push_built(page),
        }
    }

    // Adds a page that was never built.
    fn push_unbuilt(&mut self)
        requires { length self.old < 2 ^ 32 - 1 }
        ensures { self.new ≡ self.old ++ None ∷ [] }
    {
        self.count += 1;
    }

    // Adds a page that was built.
    fn push_built(&mut self, page: OwnedPage) -> Result<(), OutOfMemory>
        requires { length self.old < 2 ^ 32 - 1 }
        ensures { IfOk result (λ _. self.new ≡ self.old ++ Some page ∷ []) }
    {
        self.numbers.reserve(1)?;
        self.pages.reserve(1)?;
        self.numbers.push_reserved(self.count);
        self.pages.push_reserved(page);
        self.count += 1;
        Ok(())
    }

    /// Page `p`. None if it was never built, or if there is no such page.
    pub(crate) fn page(&self, p: usize) -> Option<DumpedPage<'_>>
        ensures { result ≡ slice_index_or self.now p None }
    {
        if p >= self.count as usize {
            return None;
        }
        match place_of(&self.numbers, p as u32) {
            None => None,
            Some(place) => Some(DumpedPage::owned(&self.pages[place])),
        }
    }
}

// Where this number stands among rising numbers.
fn place_of(numbers: &[u32], number: u32) -> Option<usize>
    requires { AreRising numbers.now }
    ensures found { IfSome result (λ place. (place < length numbers.now) × (slice_index numbers.now place ≡ number)) }
    ensures missed { result ≡ None → (i : ℕ) → i < length numbers.now → slice_index numbers.now i ≡ number → ⊥ }
{
    // It stands at its own place if all numbers below it do.
    let first = number as usize;
    if first < numbers.len() && numbers[first] == number {
        return Some(first);
    }
    match numbers.binary_search(&number) {
        Ok(place) => Some(place),
        Err(_) => None,
    }
}
