//! Exports for a slide of a heap at rest, page by page, by whoever touches a page first.
ghost use Rattle.std.specs.Prelude.{◌≡◌, None};
ghost use Rattle.beside_handle.specs.Paging.{BeginsPages, EndsPages, SharesPages};
ghost use Rattle.beside_handle.specs.Touching.{Builds, Claims, Publishes, Touches};

use handle_base::{Answer, Handle};
use std::alloc::Global;

/// Begins to slide a surveyed heap, in pages of so many words. The handle of the survey is empty then.
#[unsafe(no_mangle)]
pub extern "C" fn compressor_pages_begin(
    alloc: Global,
    survey: &mut Handle,
    page_words: u64,
    pages: &mut Handle,
) -> Answer
    ensures { BeginsPages page_words survey.old.kept survey.new.kept pages.old.kept pages.new.kept result }
{
    beside_handle::begin_pages(alloc, survey, page_words, pages)
}

/// Another share of the pages, for another thread. It has no turn.
#[unsafe(no_mangle)]
pub extern "C" fn compressor_pages_share(
    alloc: Global,
    pages: &mut Handle,
    other: &mut Handle,
) -> Answer
    ensures same { pages.new.kept ≡ pages.old.kept }
    ensures shares { SharesPages pages.old.kept other.old.kept other.new.kept result }
{
    beside_handle::share_pages(alloc, pages, other)
}

/// Takes the turn for a page.
#[unsafe(no_mangle)]
pub extern "C" fn compressor_pages_claim(alloc: Global, pages: &mut Handle, page: u64) -> Answer
    ensures { Touches (Claims page) (Unit {0}) pages.old.kept pages.new.kept result }
{
    beside_handle::claim_page(alloc, pages, page)
}

/// Fills the memory of the page whose turn the handle has.
#[unsafe(no_mangle)]
pub extern "C" fn compressor_c_pages_build(
    alloc: Global,
    pages: &mut Handle,
    words: &[u64],
    page: &mut [u64],
) -> Answer
    ensures { Touches (Builds words.now page.old page.new) (page.new ≡ page.old) pages.old.kept pages.new.kept result }
{
    beside_handle::build_page(alloc, pages, words, page)
}

/// Says to all handles that the page that was built is home.
#[unsafe(no_mangle)]
pub extern "C" fn compressor_pages_publish(alloc: Global, pages: &mut Handle) -> Answer
    ensures { Touches Publishes (Unit {0}) pages.old.kept pages.new.kept result }
{
    beside_handle::publish_page(alloc, pages)
}

/// Ends the pages, all of which are home. The handle of the survey keeps it again, and that of the pages is empty.
#[unsafe(no_mangle)]
pub extern "C" fn compressor_pages_end(
    alloc: Global,
    pages: &mut Handle,
    survey: &mut Handle,
) -> Answer
    ensures { EndsPages pages.old.kept pages.new.kept survey.old.kept survey.new.kept result }
{
    beside_handle::end_pages(alloc, pages, survey)
}

/// Drops a share of the pages. Its handle is empty then. A page whose turn it had never comes home.
#[unsafe(no_mangle)]
pub extern "C" fn compressor_pages_drop(alloc: Global, pages: &mut Handle)
    ensures { pages.new.kept ≡ None }
{
    flip_handle::drop_kept(alloc, pages);
}
