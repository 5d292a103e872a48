//! Exports that act on a finished cycle.
ghost use Rattle.std.specs.Prelude.{◌≡◌, None};
ghost use Rattle.handle_base.specs.Copying.{CopiesEndRoots};
ghost use Rattle.file_handle.specs.Dumping.{WritesDump};
ghost use Rattle.flip_handle.specs.Ending.{pages_at_end, CopiesEntry, CopiesPage, Tells};
ghost use Rattle.flip_handle.specs.Facts.{CountsEnd};
ghost use Rattle.handle_base.specs.HandleKinds.{end_in, Asks, Turns};
ghost use Rattle.flip_handle.specs.Settling.{RestsAt};
ghost use Rattle.flip_handle.specs.Turning.{Follows, FollowsReached, IsUnfollowed, IsUnreached};
ghost use Rattle.flip_handle.specs.declared.ending.Question.TheVariants as questions;

use flip_handle::{EndFacts, Question, Written};
use handle_base::{Answer, Handle};
use std::alloc::Global;

/// Copies the counts of a finished cycle.
#[unsafe(no_mangle)]
pub extern "C" fn compressor_end_facts_of(
    alloc: Global,
    end: &mut Handle,
    facts: &mut EndFacts,
) -> Answer
    ensures same { end.new.kept ≡ end.old.kept }
    ensures counts { Asks 0 end_in (CountsEnd facts.new) (facts.new ≡ facts.old) end.old.kept result }
{
    flip_handle::end_facts(alloc, end, facts)
}

/// Copies the 64 words of a page of a finished heap.
#[unsafe(no_mangle)]
pub extern "C" fn compressor_end_page(
    alloc: Global,
    end: &mut Handle,
    page: u64,
    out: &mut [u64; 64],
) -> Answer
    ensures same { end.new.kept ≡ end.old.kept }
    ensures copies { Asks 0 end_in (λ e. CopiesPage page (pages_at_end e) out.old out.new) (out.new ≡ out.old) end.old.kept result }
{
    flip_handle::page_words(alloc, end, page, out)
}

/// Copies an entry of the journal of a page of a finished heap.
#[unsafe(no_mangle)]
pub extern "C" fn compressor_end_entry(
    alloc: Global,
    end: &mut Handle,
    page: u64,
    number: u64,
    entry: &mut Written,
) -> Answer
    ensures same { end.new.kept ≡ end.old.kept }
    ensures copies { Asks 0 end_in (λ e. CopiesEntry page number (pages_at_end e) entry.old entry.new) (entry.new ≡ entry.old) end.old.kept result }
{
    flip_handle::page_entry(alloc, end, page, number, entry)
}

/// Copies all roots of a finished heap.
#[unsafe(no_mangle)]
pub extern "C" fn compressor_c_end_roots(alloc: Global, end: &mut Handle, out: &mut [u64]) -> Answer
    ensures same { end.new.kept ≡ end.old.kept }
    ensures copies { Asks 0 end_in (CopiesEndRoots out.old out.new) (out.new ≡ out.old) end.old.kept result }
{
    handle_base::end_roots(alloc, end, out)
}

/// How many pages a mutator of the cycle built.
#[unsafe(no_mangle)]
pub extern "C" fn compressor_end_builds(alloc: Global, end: &mut Handle, mutator: u32) -> Answer
    ensures same { end.new.kept ≡ end.old.kept }
    ensures looks { Asks 0 end_in (Tells (questions.EndBuildCount mutator)) (Unit {0}) end.old.kept result }
{
    flip_handle::ask(alloc, end, Question::EndBuildCount(mutator))
}

/// The page that a mutator of the cycle built as the one with this number.
#[unsafe(no_mangle)]
pub extern "C" fn compressor_end_build(
    alloc: Global,
    end: &mut Handle,
    mutator: u32,
    number: u64,
) -> Answer
    ensures same { end.new.kept ≡ end.old.kept }
    ensures looks { Asks 0 end_in (Tells (questions.EndBuild mutator number)) (Unit {0}) end.old.kept result }
{
    flip_handle::ask(alloc, end, Question::EndBuild(mutator, number))
}

/// Makes the heap with which the next cycle begins, with these marks and these roots, to-space addresses of the
/// finished heap or null. The handle of the heap keeps it then, and that of the end is empty.
#[unsafe(no_mangle)]
pub extern "C" fn compressor_c_end_next_by_marks(
    alloc: Global,
    end: &mut Handle,
    marks: &[u32],
    roots: &[u64],
    heap: &mut Handle,
) -> Answer
    ensures { Turns end_in (Follows roots.now marks.now) (IsUnfollowed roots.now marks.now) end.old.kept end.new.kept heap.old.kept heap.new.kept result }
{
    flip_handle::follow(alloc, end, marks, roots, heap)
}

/// Makes the heap with which the next cycle begins, with these roots: exactly the objects are marked that they reach.
#[unsafe(no_mangle)]
pub extern "C" fn compressor_c_end_next_by_roots(
    alloc: Global,
    end: &mut Handle,
    roots: &[u64],
    heap: &mut Handle,
) -> Answer
    ensures { Turns end_in (FollowsReached roots.now) (IsUnreached roots.now) end.old.kept end.new.kept heap.old.kept heap.new.kept result }
{
    flip_handle::follow_reached(alloc, end, roots, heap)
}

/// Copies the words of all pages, and all roots, as a heap at rest.
#[unsafe(no_mangle)]
pub extern "C" fn compressor_c_end_rest(
    alloc: Global,
    end: &mut Handle,
    words: &mut [u64],
    roots: &mut [u64],
) -> Answer
    ensures same { end.new.kept ≡ end.old.kept }
    ensures rests { Asks 0 end_in (RestsAt words.old words.new roots.old roots.new) ((words.new ≡ words.old) × (roots.new ≡ roots.old)) end.old.kept result }
{
    flip_handle::rest_end(alloc, end, words, roots)
}

/// Copies the dump of a finished heap.
#[unsafe(no_mangle)]
pub extern "C" fn compressor_c_end_write(alloc: Global, end: &mut Handle, out: &mut [u8]) -> Answer
    ensures same { end.new.kept ≡ end.old.kept }
    ensures copies { Asks 0 end_in (WritesDump out.old out.new) (out.new ≡ out.old) end.old.kept result }
{
    file_handle::copy_dump_of(alloc, end, out)
}

/// Drops a finished cycle. Its handle is empty then.
#[unsafe(no_mangle)]
pub extern "C" fn compressor_end_drop(alloc: Global, end: &mut Handle)
    ensures { end.new.kept ≡ None }
{
    flip_handle::drop_kept(alloc, end);
}
