//! How many bytes a dump has, counted without writing it.
ghost use Rattle.std.specs.Prelude.{◌≡◌, ◌*◌, ◌+◌, ◌^◌, ◌≤◌, All, length};
ghost use Rattle.std.specs.List.{flat_map};
ghost use Rattle.comp_dump.specs.CellEnds.{lists as items_of};
ghost use Rattle.comp_dump.specs.DumpEncoding.{builds_bytes, dump_bytes, page_bytes};
ghost use Rattle.file_handle.specs.Dumping.{IsSized};

use comp_dump::{Dump, DumpedPage, DumpedPages};

// How many bytes a page has in a dump.
fn page_size(page: &Option<DumpedPage<'_>>) -> u64
    requires { IsSized page.now }
    ensures size { result ≡ length (page_bytes page.now) }
    ensures few { result ≤ 19973 }
{
    match page {
        None => 1,
        Some(page) => 517 + 19 * page.journal().len() as u64,
    }
}

// How many bytes all pages have.
fn pages_size(pages: &DumpedPages<'_>) -> u64
    requires few { length pages.now ≤ 2 ^ 26 }
    requires sized { All IsSized pages.now }
    ensures size { result ≡ length (flat_map page_bytes pages.now) }
    ensures few { result ≤ 19973 * 2 ^ 26 }
{
    let mut size: u64 = 0;
    for p in 0..pages.len() {
        size += page_size(&pages.page(p));
    }
    size
}

// How many bytes the lists of builds have.
fn builds_size(lists: &[Vec<u32>]) -> u64
    requires some { length lists.now ≤ 64 }
    requires few { All (λ list. length list ≤ 2 ^ 26) (items_of lists.now) }
    ensures size { result ≡ length (flat_map builds_bytes (items_of lists.now)) }
    ensures few { result ≤ 64 * (4 + 4 * 2 ^ 26) }
{
    let mut size: u64 = 0;
    for list in lists {
        size += 4 + 4 * list.len() as u64;
    }
    size
}

/// How many bytes a dump has.
pub(crate) fn dump_len(dump: &Dump<'_>) -> u64
    ensures { result ≡ length (dump_bytes dump.now) }
{
    comp_dump::dump_is_stored(dump);
    36 + 8 * dump.roots().len() as u64 + pages_size(dump.pages()) + builds_size(dump.builds())
}
