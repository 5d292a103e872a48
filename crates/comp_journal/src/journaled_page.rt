ghost use Rattle.std.specs.Prelude.{◌≡◌, ◌↔◌, ◌+◌, ◌<◌, ◌≤◌, [], ◌∷◌, ◌++◌, length, None, OnOk, OnErr, IsErrOf, IsSome};
ghost use Rattle.std.specs.Option.{unwrap_or};
ghost use Rattle.comp_journal.specs.Journal.{replayed};
ghost use Rattle.comp_journal.specs.declared.refusal.JournalRefusal.TheVariants.{JournalFull};

use crate::entry::Entry;
use crate::page_log::PageLog;
use crate::refusal::JournalRefusal;
use heap_layout::{MAX_ENTRIES, PAGE_WORDS, PageWords};
use std::alloc::Global;
use std::marker::Model;

/// A page with its journal. Its words are the base with all writes of the journal applied in order.
#[derive(Debug, Drop)]
pub struct JournaledPage {
    log: PageLog,
    // The words of the page. There are none only if there are no entries and no room for one is reserved: the words are
    // then the base.
    words: Option<PageWords>,
}

impl Model for JournaledPage {
    ghost use Rattle.std.specs.Prelude.{◌≡◌, [], None};
    ghost use Rattle.std.specs.Option.{unwrap_or};
    ghost use Rattle.comp_journal.specs.Journal.{replayed, Reserved};

    ghost Value = { Reserved };

    ghost view = { λ page. page.log };

    ghost invariant = { λ page. (unwrap_or page.words page.log.page.base ≡ replayed page.log.page.base page.log.page.journal)
        × (page.words ≡ None → (page.log.page.journal ≡ []) × (page.log.room ≡ 0)) };
}

// Keeps a copy of the base as the words, if none are kept yet. Err with `OutOfMemory` changes nothing.
fn keep_words(
    words: &mut Option<PageWords>,
    alloc: Global,
    base: &[u64; PAGE_WORDS],
) -> Result<(), JournalRefusal>
    ensures same { unwrap_or words.new base.now ≡ unwrap_or words.old base.now }
    ensures kept { OnOk result (IsSome words.new) }
    ensures refused { OnErr result (words.new ≡ words.old) }
    ensures full { IsErrOf result JournalFull → ⊥ }
{
    if words.is_none() {
        let Ok(copy) = PageWords::copied(alloc, base) else {
            return Err(JournalRefusal::OutOfMemory);
        };
        *words = Some(copy);
    }
    Ok(())
}

impl JournaledPage {
    /// A page with these words and an empty journal. This does not allocate. The journal will take its memory from
    /// `alloc`.
    pub fn new(alloc: Global, words: PageWords) -> JournaledPage
        ensures page { result.page ≡ record { base = words; journal = [] } }
        ensures room { result.room ≡ 0 }
    {
        JournaledPage {
            log: PageLog::new(alloc, words),
            words: None,
        }
    }

    /// The page of this log. The words must be those that its journal makes of its base. There may be none only if
    /// nothing was written and no room for an entry is reserved.
    pub(crate) fn of_log(log: PageLog, words: Option<PageWords>) -> JournaledPage
        requires words { unwrap_or words log.page.base ≡ replayed log.page.base log.page.journal }
        requires unwritten { words ≡ None → (log.page.journal ≡ []) × (log.room ≡ 0) }
        ensures { result ≡ log }
    {
        JournaledPage { log, words }
    }

    /// The words of the page.
    pub fn words(&self) -> &[u64; PAGE_WORDS]
        ensures { result.now ≡ replayed self.now.page.base self.now.page.journal }
    {
        match &self.words {
            Some(words) => words.as_array(),
            None => self.log.base(),
        }
    }

    /// All writes into the page, in order.
    pub fn journal(&self) -> &[Entry]
        ensures entries { result.now ≡ self.now.page.journal }
        ensures few { length self.now.page.journal ≤ 1024 }
    {
        self.log.journal()
    }

    /// The words that the page began with.
    pub fn base(&self) -> &[u64; PAGE_WORDS]
        ensures { result.now ≡ self.now.page.base }
    {
        self.log.base()
    }

    /// Reserves room for one entry.
    ///
    /// Err with `JournalFull` if the journal has 1,024 entries; this is checked first. Err with `OutOfMemory` if an
    /// allocation fails. A refusal leaves the page unchanged.
    pub fn reserve_entry(&mut self) -> Result<(), JournalRefusal>
        ensures same { self.new.page ≡ self.old.page }
        ensures room { OnOk result (0 < self.new.room) }
        ensures full { IsErrOf result JournalFull ↔ (length self.old.page.journal ≡ 1024) }
        ensures err { OnErr result (self.new.room ≡ self.old.room) }
    {
        if self.log.journal().len() == MAX_ENTRIES {
            return Err(JournalRefusal::JournalFull);
        }
        let alloc = self.log.allocator();
        keep_words(&mut self.words, alloc, self.log.base())?;
        self.log.reserve_entry()
    }

    /// Writes the value of the entry at its offset, and appends the entry to the journal. There must be room for it,
    /// and the offset must be below 64. This does not allocate.
    pub fn append_reserved(&mut self, entry: Entry)
        requires room { 0 < self.old.room }
        requires offset { entry.offset < 64 }
        ensures base { self.new.page.base ≡ self.old.page.base }
        ensures journal { self.new.page.journal ≡ self.old.page.journal ++ entry ∷ [] }
        ensures room { self.new.room + 1 ≡ self.old.room }
    {
        if let Some(words) = &mut self.words {
            words.set(entry.offset, entry.value);
        }
        self.log.append_reserved(entry);
    }
}
