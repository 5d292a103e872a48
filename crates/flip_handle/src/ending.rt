//! What is left of a crew, by its handle.
ghost use Rattle.std.specs.Prelude.{◌≡◌, None, Some, MatchOption};
ghost use Rattle.flip_handle.specs.Ending.{built_by, pages_at_end, CopiesEntry, CopiesPage, IsBuildOf, IsCountOf, Tells};
ghost use Rattle.comp_dump.specs.Codes.{kind_code};
ghost use Rattle.handle_base.specs.HandleKinds.{end_in, Asks};

use comp_crew::Ended;
use handle_base::{Answer, Handle, as_end, status};
use heap_layout::Kind;
use std::alloc::Global;

/// A question about a finished heap.
#[derive(Clone, Copy)]
pub enum Question {
    /// How many pages the mutator of this number built.
    EndBuildCount(u32),
    /// The page that the mutator of this number built as the one with the second number.
    EndBuild(u32, u64),
}

// The pages that the mutator of this number built. None if there is no such mutator.
fn built(e: &Ended, k: u32) -> Option<&[u64]>
    ensures { MatchOption result (built_by e.now k ≡ None) (λ list. built_by e.now k ≡ Some list.now) }
{
    match e.finished().builds().get(k as usize) {
        Some(list) => Some(list.as_slice()),
        None => None,
    }
}

// How many pages that mutator built.
fn build_count(e: &Ended, k: u32) -> Answer
    ensures { IsCountOf k (built_by e.now k) result }
{
    match built(e, k) {
        Some(list) => Answer::done(list.len() as u64),
        None => Answer::bare(status::NO_SUCH_MUTATOR, u64::from(k)),
    }
}

// The page that it built as the one with this number.
fn build_at(e: &Ended, k: u32, i: u64) -> Answer
    ensures { IsBuildOf k i (built_by e.now k) result }
{
    match built(e, k) {
        Some(list) => Answer::place(list, i, status::NO_SUCH_BUILD),
        None => Answer::bare(status::NO_SUCH_MUTATOR, u64::from(k)),
    }
}

// Answers a question.
fn look(e: &Ended, question: Question) -> Answer
    ensures { Tells question e.now result }
{
    match question {
        Question::EndBuildCount(k) => build_count(e, k),
        Question::EndBuild(k, i) => build_at(e, k, i),
    }
}

/// Answers a question about the finished heap that a handle keeps.
pub fn ask(alloc: Global, h: &mut Handle, question: Question) -> Answer
    ensures same { h.new.kept ≡ h.old.kept }
    ensures looks { Asks 0 end_in (Tells question) (Unit {0}) h.old.kept result }
{
    let Some(kept) = h.take(alloc) else {
        return Answer::bare(status::EMPTY_HANDLE, 0);
    };
    let answer = match as_end(kept.as_ref()) {
        Some(e) => look(e, question),
        None => Answer::bare(status::WRONG_HANDLE, 0),
    };
    h.put_back(kept);
    answer
}

// Copies the words of a page.
fn copy_page(e: &Ended, p: u64, out: &mut [u64; 64]) -> Answer
    ensures { CopiesPage p (pages_at_end e.now) out.old out.new result }
{
    let pages = e.finished().pages();
    if p >= pages.len() as u64 {
        return Answer::bare(status::NO_SUCH_PAGE, p);
    }
    match pages.page(p as usize) {
        Some(page) => {
            *out = page.words();
            Answer::done(page.journal().len() as u64)
        }
        None => Answer::bare(status::NOT_BUILT, p),
    }
}

/// Copies the words of a page of the finished heap that a handle keeps. The answer has the number of entries of its
/// journal.
pub fn page_words(alloc: Global, h: &mut Handle, p: u64, out: &mut [u64; 64]) -> Answer
    ensures same { h.new.kept ≡ h.old.kept }
    ensures copies { Asks 0 end_in (λ e. CopiesPage p (pages_at_end e) out.old out.new) (out.new ≡ out.old) h.old.kept result }
{
    let Some(kept) = h.take(alloc) else {
        return Answer::bare(status::EMPTY_HANDLE, 0);
    };
    let answer = match as_end(kept.as_ref()) {
        Some(e) => copy_page(e, p, out),
        None => Answer::bare(status::WRONG_HANDLE, 0),
    };
    h.put_back(kept);
    answer
}

/// An entry of a journal, as C sees it. The kind is 0 for a header, 1 for a reference, 2 for a data word and 3 for a
/// weak word, as in a dump.
#[repr(C)]
#[derive(Clone, Copy, Debug, PartialEq, Eq)]
pub struct Written {
    /// The stamp.
    pub stamp: u64,
    /// The value that was written.
    pub value: u64,
    /// The number of the mutator that wrote it.
    pub writer: u8,
    /// The kind.
    pub kind: u8,
    /// The offset of the word on its page.
    pub offset: u8,
}

// The number of a kind.
fn kind_number(kind: Kind) -> u8
    ensures { result ≡ kind_code kind }
{
    match kind {
        Kind::Header => 0,
        Kind::Reference => 1,
        Kind::Data => 2,
        Kind::Weak => 3,
    }
}

// Copies an entry of a page.
fn copy_entry(e: &Ended, p: u64, i: u64, out: &mut Written) -> Answer
    ensures { CopiesEntry p i (pages_at_end e.now) out.old out.new result }
{
    let pages = e.finished().pages();
    if p >= pages.len() as u64 {
        return Answer::bare(status::NO_SUCH_PAGE, p);
    }
    let Some(page) = pages.page(p as usize) else {
        return Answer::bare(status::NOT_BUILT, p);
    };
    let journal = page.journal();
    if i >= journal.len() as u64 {
        return Answer::bare(status::NO_SUCH_ENTRY, i);
    }
    let entry = journal[i as usize];
    *out = Written {
        stamp: entry.stamp,
        value: entry.value,
        writer: entry.writer,
        kind: kind_number(entry.kind),
        offset: entry.offset,
    };
    Answer::done(0)
}

/// Copies an entry of the journal of a page of the finished heap that a handle keeps.
pub fn page_entry(alloc: Global, h: &mut Handle, p: u64, i: u64, out: &mut Written) -> Answer
    ensures same { h.new.kept ≡ h.old.kept }
    ensures copies { Asks 0 end_in (λ e. CopiesEntry p i (pages_at_end e) out.old out.new) (out.new ≡ out.old) h.old.kept result }
{
    let Some(kept) = h.take(alloc) else {
        return Answer::bare(status::EMPTY_HANDLE, 0);
    };
    let answer = match as_end(kept.as_ref()) {
        Some(e) => copy_entry(e, p, i, out),
        None => Answer::bare(status::WRONG_HANDLE, 0),
    };
    h.put_back(kept);
    answer
}
