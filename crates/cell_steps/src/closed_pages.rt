//! The pages of a closed table.
ghost use Rattle.std.specs.Prelude.{◌≡◌, ◌*◌, ◌^◌, ◌<◌, ◌≤◌, length, slice_index, Some, IfOk, IsSome};
ghost use Rattle.std.specs.Mem.Slots.{slots_items, IsFull};
ghost use Rattle.comp_journal.specs.Journal.{Reserved, replayed};
ghost use Rattle.cell_steps.specs.Bases.{base_in, journaled, HasBaseIn};
ghost use Rattle.cell_steps.specs.Closing.{page_at, HasWords};

use crate::plays::Slot;
use atomic_table::Closed;
use comp_journal::{Entry, JournalRefusal, JournaledPage, KeptLog, PageLog};
use heap_layout::{OutOfMemory, PAGE_WORDS, PageWords};
use page_plan::Builder;
use std::alloc::Global;
use std::marker::Model;

/// All pages at the end, compacted and fresh ones, in order. Their words and logs are where the cells had them, so
/// nothing is copied.
pub struct ClosedPages {
    closed: Closed<Slot, Global>,
    // The index in the table of the first word of page 0. The words of the other pages follow, 64 for each.
    first: usize,
}

impl Model for ClosedPages {
    ghost use Rattle.std.specs.Prelude.{List};
    ghost use Rattle.std.specs.Mem.Slots.{slots_items, IsFull};
    ghost use Rattle.cell_steps.specs.View.{Slot};
    ghost use Rattle.cell_steps.specs.Closing.{HasWords};

    ghost Value = { List Slot };

    ghost view = { λ pages. slots_items pages.closed.slots };

    ghost invariant = { λ pages. IsFull pages.closed.slots × IsFull pages.closed.words × HasWords pages.first (slots_items pages.closed.words) (slots_items pages.closed.slots) };
}

/// A page that was built, as it is at the end: its words, and all writes into it.
#[derive(Drop)]
pub struct ClosedPage<'a> {
    pages: &'a ClosedPages,
    p: usize,
    log: &'a KeptLog,
}

impl<'a> Model for ClosedPage<'a> {
    ghost use Rattle.std.specs.Prelude.{◌≡◌, Some, length};
    ghost use Rattle.comp_journal.specs.Journal.{Reserved, replayed};
    ghost use Rattle.cell_steps.specs.Closing.{page_at};

    ghost Value = { Reserved };

    ghost view = { λ page. page.log.now };

    ghost invariant = { λ page. (page_at page.pages.now page.p ≡ Some page.log.now) × (length (replayed page.log.now.page.base page.log.now.page.journal) ≡ 64) };
}

// Frees a table, with all that is in its slots.
fn discard(mut closed: Closed<Slot, Global>)
    requires { IsFull closed.slots }
{
    for p in 0..closed.slot_count() {
        let slot = closed.take(p);
        drop(slot);
    }
    closed.free();
}

// The words that page `p` begins with, built anew: those of the plan, or zeros if it comes after the pages of the plan.
// Err if out of memory.
fn base_of<B: Builder>(alloc: Global, builder: &B, p: usize) -> Result<PageWords, OutOfMemory>
    ensures { IfOk result (λ words. words ≡ base_in (B.heap builder.now) p) }
{
    let p = p as u64;
    if p < builder.plan().pages() {
        builder.build(alloc, p)
    } else {
        PageWords::zeros(alloc)
    }
}

// A log with this base and a copy of this journal. Err if out of memory.
fn log_of(alloc: Global, base: PageWords, journal: &[Entry]) -> Result<PageLog, OutOfMemory>
    requires { length journal.now ≤ 1024 }
    ensures { IfOk result (λ log. log.page ≡ record { base = base; journal = journal.now }) }
{
    let mut log = PageLog::new(alloc, base);
    for entry in journal {
        match log.reserve_entry() {
            Ok(()) => log.append_reserved(*entry),
            Err(JournalRefusal::OutOfMemory) => return Err(OutOfMemory),
            Err(JournalRefusal::JournalFull) => unreachable!(),
        }
    }
    Ok(log)
}

impl ClosedPages {
    // The pages of a table, the words of whose first page begin at word `first`.
    pub(crate) fn of(closed: Closed<Slot, Global>, first: usize) -> ClosedPages
        requires full { IsFull closed.slots × IsFull closed.words }
        requires words { HasWords first (slots_items closed.words) (slots_items closed.slots) }
        ensures { result ≡ slots_items closed.slots }
    {
        ClosedPages { closed, first }
    }

    /// How many pages there are, compacted and fresh together.
    pub fn len(&self) -> usize
        ensures count { result ≡ length self.now }
        ensures few { 64 * result < 2 ^ 64 }
    {
        self.closed.slot_count()
    }

    /// Page `p`. None if it was never built, or if there is no such page.
    pub fn page(&self, p: usize) -> Option<ClosedPage<'_>>
        ensures { result ≡ page_at self.now p }
    {
        if p >= self.len() {
            return None;
        }
        match self.closed.slots.get(p) {
            Some(log) => Some(ClosedPage {
                pages: self,
                p,
                log,
            }),
            None => None,
        }
    }

    /// Page `p` with the words that it began with, which this builder builds anew, and copies of its words and of its
    /// journal. The page must begin with the words that the builder's heap defines. None if it was never built, or if
    /// there is no such page. Err if out of memory, which leaves the pages as they are.
    pub fn journaled<B: Builder>(
        &self,
        alloc: Global,
        builder: &B,
        p: usize,
    ) -> Result<Option<JournaledPage>, OutOfMemory>
        requires base { HasBaseIn (B.heap builder.now) p (page_at self.now p) }
        ensures { IfOk result (λ made. journaled made ≡ journaled (page_at self.now p)) }
    {
        let Some(page) = self.page(p) else {
            return Ok(None);
        };
        let base = base_of(alloc, builder, p)?;
        let log = log_of(alloc, base, page.journal())?;
        let words = PageWords::copied(alloc, &page.words())?;
        Ok(Some(log.with_words(words)))
    }

    // The word at an offset of page `p`, which was built.
    fn word(&self, p: usize, offset: u8) -> u64
        requires built { IsSome (page_at self.now p) }
        requires inside { offset < 64 }
        ensures { (page : Reserved) → page_at self.now p ≡ Some page → result ≡ slice_index (replayed page.page.base page.page.journal) offset }
    {
        self.closed.word(self.first + 64 * p + usize::from(offset))
    }
}

impl<'a> ClosedPage<'a> {
    /// The words of the page.
    pub fn words(&self) -> [u64; PAGE_WORDS]
        ensures { result ≡ replayed self.now.page.base self.now.page.journal }
    {
        let mut words = [0; PAGE_WORDS];
        for offset in 0..64_u8 {
            words[offset as usize] = self.pages.word(self.p, offset);
        }
        words
    }

    /// All writes into the page, in order.
    pub fn journal(&self) -> &'a [Entry]
        ensures entries { result.now ≡ self.now.page.journal }
        ensures few { length self.now.page.journal ≤ 1024 }
    {
        self.log.journal()
    }
}

impl Drop for ClosedPages {
    fn drop(self) {
        let ClosedPages { closed, first: _ } = self;
        discard(closed);
    }
}
