//! Makes the to-space words of a finished heap the from-space words of the next heap.
ghost use Rattle.std.specs.Prelude.{◌≡◌, ℕ, ◌+◌, ◌*◌, ◌^◌, ◌<◌, ◌≤◌, true, List, IfOk, OnOk, length, slice_index, slice_index_or, vec_capacity, vec_len, Some, None};
ghost use Rattle.comp_history.specs.Lawful.{kind_at};
ghost use Rattle.comp_history.specs.Locks.{Journals};
ghost use Rattle.comp_history.specs.Setup.{Setup};
ghost use Rattle.comp_history.specs.Objects.{word_on};
ghost use Rattle.comp_cycles.specs.Finishes.{journals_of, pages_of};
ghost use Rattle.comp_cycles.specs.Ends.{setup_in, words_at, AreMoved, IsEndOf};
ghost use Rattle.comp_cycles.specs.BlankPages.{IsBlank};
ghost use Rattle.comp_cycles.specs.NextHeap.{kind_in, lowered_as, word_in};

use crate::finished::Finished;
use comp_history::kinds_on;
use comp_journal::Entry;
use heap_layout::{Edition, FROM_SPACE, Kind, OutOfMemory, set};
use page_plan::Builder;
use std::alloc::{AllocError, Global};

/// The words of the next heap, and one bit for each of them: it is set if an object starts at the word.
#[derive(Drop)]
pub struct Moved {
    /// The words.
    pub words: Vec<u64>,
    /// The bits.
    pub starts: Vec<u64>,
}

// A to-space word of this kind as a word of the next heap, which has this edition.
fn lowered_word(edition: Edition, kind: Option<Kind>, word: u64) -> u64
    ensures { result ≡ lowered_as edition kind word }
{
    match kind {
        Some(kind) if kind.refers() && !edition.is_immediate(word) => {
            word.saturating_sub(FROM_SPACE)
        }
        _ => word,
    }
}

// Adds one word. Requires room for it.
fn add_word(
    words: &mut Vec<u64>,
    starts: &mut [u64],
    edition: Edition,
    kind: Option<Kind>,
    word: u64,
)
    requires room { vec_len words.old < vec_capacity words.old }
    requires bits { vec_len words.old < 64 * length starts.old }
    ensures moved { (u : Setup) (journals : Journals) (n : ℕ) → AreMoved u journals n words.old.items starts.old → edition ≡ u.heap.edition → kind ≡ kind_in u journals n → word ≡ word_in u journals n
        → AreMoved u journals (n + 1) words.new.items starts.new }
    ensures len { vec_len words.new ≡ vec_len words.old + 1 }
    ensures capacity { vec_capacity words.new ≡ vec_capacity words.old }
    ensures bits { length starts.new ≡ length starts.old }
{
    let i = words.len();
    words.push_reserved(lowered_word(edition, kind, word));
    if kind == Some(Kind::Header) {
        set(starts, i);
    }
}

// Adds the words of page `p`. Requires room for them.
fn add_page(
    words: &mut Vec<u64>,
    starts: &mut [u64],
    edition: Edition,
    kinds: &[Option<Kind>; 64],
    page: &[u64; 64],
)
    requires room { vec_len words.old + 64 ≤ vec_capacity words.old }
    requires bits { vec_len words.old + 64 ≤ 64 * length starts.old }
    ensures moved { (u : Setup) (journals : Journals) (p : ℕ) → AreMoved u journals (64 * p) words.old.items starts.old → edition ≡ u.heap.edition
        → ((offset : ℕ) → offset < 64 → slice_index_or kinds.now offset None ≡ kind_at u p (journals p) offset)
        → ((offset : ℕ) → offset < 64 → slice_index page.now offset ≡ word_on u journals p offset)
        → AreMoved u journals (64 * (p + 1)) words.new.items starts.new }
    ensures len { vec_len words.new ≡ vec_len words.old + 64 }
    ensures capacity { vec_capacity words.new ≡ vec_capacity words.old }
    ensures bits { length starts.new ≡ length starts.old }
{
    for offset in 0..64 {
        add_word(words, starts, edition, kinds[offset], page[offset]);
    }
}

// Adds the words of a page that no object is on. Requires room for them.
fn add_blank(words: &mut Vec<u64>)
    requires room { vec_len words.old + 64 ≤ vec_capacity words.old }
    ensures moved { (u : Setup) (journals : Journals) (p : ℕ) (starts : List ℕ) → AreMoved u journals (64 * p) words.old.items starts → IsBlank u journals p
        → AreMoved u journals (64 * (p + 1)) words.new.items starts }
    ensures len { vec_len words.new ≡ vec_len words.old + 64 }
    ensures capacity { vec_capacity words.new ≡ vec_capacity words.old }
{
    let mut offset = 0_usize;
    while offset < 64 {
        words.push_reserved(0);
        offset += 1;
    }
}

// The journal of page `p`; empty if the page was never built.
fn journal_on(finished: &Finished, p: usize) -> &[Entry]
    requires { p < length (pages_of finished.now) }
    ensures { result.now ≡ journals_of finished.now p }
{
    match finished.pages().page(p) {
        Some(page) => page.journal(),
        None => &[],
    }
}

// Whether page `p` is a fresh page on which nothing was made.
fn is_blank<B: Builder>(builder: &B, finished: &Finished, p: usize) -> bool
    requires of { IsEndOf (B.heap builder.now) finished.now }
    requires inside { p < length (pages_of finished.now) }
    ensures { result ≡ true → IsBlank (setup_in (B.heap builder.now) finished.now) (journals_of finished.now) p }
{
    if (p as u64) < builder.plan().pages() {
        return false;
    }
    if journal_on(finished, p).len() > 0 {
        return false;
    }
    true
}

// The kind of each word of page `p`.
fn kinds_of<B: Builder>(
    alloc: Global,
    builder: &B,
    finished: &Finished,
    p: usize,
) -> Result<[Option<Kind>; 64], AllocError>
    requires of { IsEndOf (B.heap builder.now) finished.now }
    requires inside { p < length (pages_of finished.now) }
    ensures { IfOk result (λ kinds. (offset : ℕ) → offset < 64
        → slice_index_or kinds offset None ≡ kind_at (setup_in (B.heap builder.now) finished.now) p (journals_of finished.now p) offset) }
{
    kinds_on(alloc, builder.plan(), p as u64, journal_on(finished, p))
}

// The words of page `p`. If the page was never built, they are the words with which it would have begun.
fn words_on<B: Builder>(
    alloc: Global,
    builder: &B,
    finished: &Finished,
    p: usize,
) -> Result<[u64; 64], OutOfMemory>
    requires of { IsEndOf (B.heap builder.now) finished.now }
    requires inside { p < length (pages_of finished.now) }
    ensures { IfOk result (λ words. words ≡ words_at (B.heap builder.now) finished.now p) }
{
    match finished.pages().page(p) {
        Some(page) => Ok(page.words()),
        None => {
            if (p as u64) < builder.plan().pages() {
                let page = builder.build(alloc, p as u64)?;
                Ok(*page.as_array())
            } else {
                Ok([0; 64])
            }
        }
    }
}

// Moves the words of page `p`. Requires room for them.
fn move_page<B: Builder>(
    alloc: Global,
    builder: &B,
    finished: &Finished,
    words: &mut Vec<u64>,
    starts: &mut [u64],
    p: usize,
) -> Result<(), OutOfMemory>
    requires of { IsEndOf (B.heap builder.now) finished.now }
    requires inside { p < length (pages_of finished.now) }
    requires room { vec_len words.old + 64 ≤ vec_capacity words.old }
    requires bits { vec_len words.old + 64 ≤ 64 * length starts.old }
    requires before { AreMoved (setup_in (B.heap builder.now) finished.now) (journals_of finished.now) (64 * p) words.old.items starts.old }
    ensures moved { OnOk result (AreMoved (setup_in (B.heap builder.now) finished.now) (journals_of finished.now) (64 * (p + 1)) words.new.items starts.new) }
    ensures len { OnOk result (vec_len words.new ≡ vec_len words.old + 64) }
    ensures capacity { OnOk result (vec_capacity words.new ≡ vec_capacity words.old) }
    ensures bits { OnOk result (length starts.new ≡ length starts.old) }
{
    if is_blank(builder, finished, p) {
        add_blank(words);
        return Ok(());
    }
    let kinds = kinds_of(alloc, builder, finished, p)?;
    let page = words_on(alloc, builder, finished, p)?;
    add_page(words, starts, finished.edition(), &kinds, &page);
    Ok(())
}

// Moves the words of all pages. Requires room for them.
fn move_pages<B: Builder>(
    alloc: Global,
    builder: &B,
    finished: &Finished,
    words: &mut Vec<u64>,
    starts: &mut [u64],
) -> Result<(), OutOfMemory>
    requires of { IsEndOf (B.heap builder.now) finished.now }
    requires room { 64 * length (pages_of finished.now) ≤ vec_capacity words.old }
    requires bits { length starts.old ≡ length (pages_of finished.now) }
    requires begun { AreMoved (setup_in (B.heap builder.now) finished.now) (journals_of finished.now) 0 words.old.items starts.old }
    ensures moved { OnOk result (AreMoved (setup_in (B.heap builder.now) finished.now) (journals_of finished.now) (64 * length (pages_of finished.now)) words.new.items starts.new) }
{
    for p in 0..finished.pages().len() {
        move_page(alloc, builder, finished, words, starts, p)?;
    }
    Ok(())
}

/// All words of the next heap.
pub fn moved_words<B: Builder>(
    alloc: Global,
    builder: &B,
    finished: &Finished,
) -> Result<Moved, OutOfMemory>
    requires of { IsEndOf (B.heap builder.now) finished.now }
    requires few { 64 * length (pages_of finished.now) < 2 ^ 64 }
    ensures moved { IfOk result (λ moved. AreMoved (setup_in (B.heap builder.now) finished.now) (journals_of finished.now) (64 * length (pages_of finished.now)) moved.words.items moved.starts.items) }
    ensures bits { IfOk result (λ moved. length moved.starts.items ≡ length (pages_of finished.now)) }
{
    let pages = finished.pages().len();
    let mut words = Vec::with_capacity(alloc, 64 * pages)?;
    let mut starts = vec![in alloc; 0u64; pages]?;
    move_pages(alloc, builder, finished, &mut words, &mut starts)?;
    Ok(Moved { words, starts })
}
