ghost use Rattle.std.specs.Prelude.{◌≡◌};
ghost use Rattle.comp_cycles.specs.CellEnds.{lists as items_of};
ghost use Rattle.comp_dump.specs.Dumped.{IsStored};

use crate::kept_pages::DumpedPages;
use heap_layout::Edition;
use std::marker::Model;

/// What a cycle left: the edition of the heap, its pages with their journals, the roots, the pages that each
/// mutator built, and the live words.
///
/// A dump of a finished heap borrows its pages; a dump that was read owns them. All numbers are in the range of
/// their fields. Of a dump that was read nothing else is known.
#[derive(Drop)]
pub struct Dump<'a> {
    edition: Edition,
    mutators: u8,
    fresh: u32,
    roots: Vec<u64>,
    pages: DumpedPages<'a>,
    builds: Vec<Vec<u32>>,
    total: u64,
}

impl<'a> Model for Dump<'a> {
    ghost use Rattle.comp_cycles.specs.CellEnds.{lists as items_of};
    ghost use Rattle.comp_dump.specs.Dumped.{Dumped, IsStored};

    ghost Value = { Dumped };

    ghost view = { λ dump. record {
      edition = dump.edition;
      mutators = dump.mutators;
      fresh = dump.fresh;
      roots = dump.roots.items;
      pages = dump.pages;
      builds = items_of dump.builds.items;
      total = dump.total;
    } };

    ghost invariant = { λ dump. IsStored (record {
      edition = dump.edition;
      mutators = dump.mutators;
      fresh = dump.fresh;
      roots = dump.roots.items;
      pages = dump.pages;
      builds = items_of dump.builds.items;
      total = dump.total;
    }) };
}

impl<'a> Dump<'a> {
    /// Makes a dump of these parts.
    pub(crate) fn from_parts(
        edition: Edition,
        mutators: u8,
        fresh: u32,
        roots: Vec<u64>,
        pages: DumpedPages<'a>,
        builds: Vec<Vec<u32>>,
        total: u64,
    ) -> Dump<'a>
        requires { IsStored (record { edition = edition; mutators = mutators; fresh = fresh; roots = roots.items; pages = pages; builds = items_of builds.items; total = total }) }
        ensures { result ≡ record { edition = edition; mutators = mutators; fresh = fresh; roots = roots.items; pages = pages.entry; builds = items_of builds.items; total = total } }
    {
        Dump {
            edition,
            mutators,
            fresh,
            roots,
            pages,
            builds,
            total,
        }
    }

    /// The edition of the heap. In a dump that was read it follows from the version.
    pub fn edition(&self) -> Edition
        ensures { result ≡ self.now.edition }
    {
        self.edition
    }

    /// The number of mutators, 1 to 64.
    pub fn mutators(&self) -> u8
        ensures { result ≡ self.now.mutators }
    {
        self.mutators
    }

    /// The number of fresh pages, at most as many as the edition allows.
    pub fn fresh_pages(&self) -> u32
        ensures { result ≡ self.now.fresh }
    {
        self.fresh
    }

    /// The roots of the heap, after the flip.
    pub fn roots(&self) -> &[u64]
        ensures { result.now ≡ self.now.roots }
    {
        &self.roots
    }

    /// All pages, by number, compacted pages first. A page that was never built is None.
    pub fn pages(&self) -> &DumpedPages<'a>
        ensures { result.now ≡ self.now.pages }
    {
        &self.pages
    }

    /// For each mutator the numbers of the pages that it built, in order.
    pub fn builds(&self) -> &[Vec<u32>]
        ensures { items_of result.now ≡ self.now.builds }
    {
        &self.builds
    }

    /// The words of all objects: of those that slid and of those that mutators made.
    pub fn live_words(&self) -> u64
        ensures total { result ≡ self.now.total }
        ensures stored { IsStored self.now }
    {
        self.total
    }
}
