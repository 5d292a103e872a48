//! The pages of a dump, by number.
ghost use Rattle.std.specs.Prelude.{◌≡◌, All, None, length, map, slice_index_or};
ghost use Rattle.comp_dump.specs.Lent.{record_of, IsTypedRecord};

use crate::page::{DumpedPage, page_is_typed};
use crate::sparse_pages::SparsePages;
use cell_steps::ClosedPages;
use std::marker::Model;

// Where the pages of a dump are.
#[derive(Drop)]
enum KeptPages<'a> {
    // In a finished heap, where its cells had them.
    Lent(&'a ClosedPages),
    // In the dump's own memory.
    Owned(SparsePages),
}

/// All pages of a dump, compacted pages first: those of a finished heap, or those that were read.
#[derive(Drop)]
pub struct DumpedPages<'a> {
    kept: KeptPages<'a>,
}

impl<'a> Model for DumpedPages<'a> {
    ghost use Rattle.std.specs.Prelude.{List, Option};
    ghost use Rattle.comp_dump.specs.Dumped.{BuiltPage};
    ghost use Rattle.comp_dump.specs.Lent.{kept_view};

    ghost Value = { List (Option BuiltPage) };

    ghost view = { λ pages. kept_view pages.kept };
}

impl<'a> DumpedPages<'a> {
    /// Borrows the pages of a finished heap.
    pub(crate) fn lent(pages: &'a ClosedPages) -> DumpedPages<'a>
        ensures lent { result ≡ map record_of pages.now }
        ensures typed { All IsTypedRecord result }
    {
        // For the proof alone: the numbers of the pages fit their types.
        pages_are_typed(pages);
        DumpedPages {
            kept: KeptPages::Lent(pages),
        }
    }

    /// Takes pages that were read.
    pub(crate) fn owned(pages: SparsePages) -> DumpedPages<'a>
        ensures { result ≡ pages }
    {
        DumpedPages {
            kept: KeptPages::Owned(pages),
        }
    }

    /// How many pages there are, built or not.
    pub fn len(&self) -> usize
        ensures { result ≡ length self.now }
    {
        match &self.kept {
            KeptPages::Lent(pages) => pages.len(),
            KeptPages::Owned(pages) => pages.len(),
        }
    }

    /// Page `p`. None if it was never built, or if there is no such page.
    pub fn page(&self, p: usize) -> Option<DumpedPage<'_>>
        ensures { result ≡ slice_index_or self.now p None }
    {
        match &self.kept {
            KeptPages::Lent(pages) => match pages.page(p) {
                None => None,
                Some(page) => Some(DumpedPage::lent(page)),
            },
            KeptPages::Owned(pages) => pages.page(p),
        }
    }
}

// The pages of a finished heap fit their types. This follows from the types only after each page is read.
fn pages_are_typed(pages: &ClosedPages)
    ensures { All IsTypedRecord (map record_of pages.now) }
{
    for p in 0..pages.len() {
        if let Some(page) = pages.page(p) {
            page_is_typed(&page);
        }
    }
}
