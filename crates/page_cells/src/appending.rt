ghost use Rattle.std.specs.Prelude.{◌≡◌, ◌↔◌, ℕ, ◌+◌, ◌<◌, [], ◌∷◌, ◌++◌, length, slice_index, All, IfOk, OnOk, OnErr, IsErrOf, true};
ghost use Rattle.heap_layout.specs.declared.kind.Kind.TheVariants.{Header};
ghost use Rattle.heap_layout.specs.Header.{size_of, header_of};
ghost use Rattle.heap_layout.specs.Kinds.{refers};
ghost use Rattle.comp_journal.specs.declared.entry.Entry.{Entry as Written};
ghost use Rattle.comp_journal.specs.declared.refusal.JournalRefusal.TheVariants.{JournalFull};
ghost use Rattle.cell_steps.specs.Lawful.{Fits, FitsEntry};
ghost use Rattle.cell_steps.specs.Knowing.{WritesEntry};
ghost use Rattle.cell_steps.specs.Plays.{stamped};
ghost use Rattle.cell_steps.specs.Passes.{builds_of, did, number_of, page_with, seen, view_of, Holds, IsSame, KnowsFresh, MayRefer};
ghost use Rattle.page_cells.specs.CellViews.{journal_of, page_number, page_of, setup_of, steps_of, words_of, Has, IsPassOf};
ghost use Rattle.page_cells.specs.Calls.{Grows};

use crate::cells::Cells;
use crate::taking::Taken;
use cell_steps::Pass;
use comp_journal::{Entry, JournalRefusal, MAX_ENTRIES};
use heap_layout::Kind;
use page_plan::Builder;

impl<B: Builder> Cells<B> {
    /// Writes one entry into the page that the pass has taken, and answers the entry's stamp. If the entry is a header,
    /// the start bit of the new object is set too. Refusals: `JournalFull` if the journal has 1,024 entries, and
    /// `OutOfMemory`. After either nothing has changed.
    ///
    /// Requires that the pass was made with these cells, an offset below 64, and that the entry may follow those of the
    /// page (`Fits`). A value for a reference or weak field must be null, an immediate of edition four, or a start that
    /// the pass knows.
    pub fn append(
        &self,
        pass: &mut Pass,
        taken: &mut Taken,
        kind: Kind,
        offset: u8,
        value: u64,
    ) -> Result<u64, JournalRefusal>
        requires of { IsPassOf self.now pass.old }
        requires has { Has self.now pass.old taken.old }
        requires offset { offset < 64 }
        requires fits { Fits (setup_of self.now) (page_number taken.old) (journal_of taken.old) kind (number_of pass.old) offset value }
        requires leads { refers kind ≡ true → MayRefer pass.old value }
        ensures of { IsPassOf self.now pass.new × Has self.now pass.new taken.new }
        ensures grows { Grows pass.old pass.new × (builds_of pass.new ≡ builds_of pass.old) }
        ensures page { page_number taken.new ≡ page_number taken.old }
        ensures full { IsErrOf result JournalFull ↔ (length (journal_of taken.old) ≡ 1024) }
        ensures journal { IfOk result (λ stamp. journal_of taken.new ≡ journal_of taken.old ++ record { stamp = stamp; writer = number_of pass.old; kind = kind; offset = offset; value = value } ∷ []) }
        ensures did { IfOk result (λ stamp. did pass.new ≡ did pass.old ++ (page_number taken.old, record { stamp = stamp; writer = number_of pass.old; kind = kind; offset = offset; value = value }) ∷ []) }
        ensures above { IfOk result (λ stamp. (q : ℕ) → All (λ (entry : Written). entry.stamp < stamp) (seen pass.old q)) }
        ensures start { OnOk result (kind ≡ Header → KnowsFresh pass.new (page_number taken.old) offset) }
        ensures zeros { OnOk result (kind ≡ Header → (o : ℕ) → offset < o → o < offset + size_of (header_of (setup_of self.now).heap.edition value) → slice_index (words_of taken.new) o ≡ 0) }
        ensures refused { OnErr result (IsSame pass.old pass.new × (page_of taken.new ≡ page_of taken.old)) }
    {
        prove!(taken.page.journal().len() <= MAX_ENTRIES);
        taken.page.reserve_entry()?;
        let draft = Entry {
            stamp: 0,
            writer: pass.number(),
            kind,
            offset,
            value,
        };
        Ok(self.write_reserved(pass, taken, draft))
    }

    // Writes an entry for which room is reserved, and sets the start bit if the entry is a header. It allocates no
    // memory.
    fn write_reserved(&self, pass: &mut Pass, taken: &mut Taken, draft: Entry) -> u64
        requires of { IsPassOf self.now pass.old }
        requires has { Has self.now pass.old taken.old }
        requires room { (0 < taken.old.page.room) × (length (journal_of taken.old) < 1024) }
        requires draft { (draft.writer ≡ number_of pass.old) × (draft.offset < 64) }
        requires fits { FitsEntry (setup_of self.now) (page_number taken.old) (journal_of taken.old) draft }
        requires leads { refers draft.kind ≡ true → MayRefer pass.old draft.value }
        ensures of { IsPassOf self.now pass.new × (number_of pass.new ≡ number_of pass.old) }
        ensures holds { Holds (page_number taken.old) pass.new }
        ensures writes { WritesEntry (page_number taken.old) (stamped draft result) (view_of pass.old) (view_of pass.new) }
        ensures page { (page_number taken.new ≡ page_number taken.old) × (page_of taken.new ≡ page_with (steps_of self.now) (page_number taken.old) (seen pass.new (page_number taken.old))) }
        ensures start { draft.kind ≡ Header → KnowsFresh pass.new (page_number taken.old) draft.offset }
    {
        let number = taken.number;
        let stamp = self.steps.draw_stamp(pass, number, &mut taken.page, draft);
        let entry = Entry { stamp, ..draft };
        self.steps.store_word(pass, number, entry);
        if let Kind::Header = draft.kind {
            self.steps.set_start(pass, number, draft.offset);
        }
        stamp
    }
}
