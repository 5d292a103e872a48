//! The call of tables with a watermark by which it goes up, and nothing is collected.
ghost use Rattle.std.specs.Prelude.{◌≡◌, ℕ, ◌<◌, ◌≤◌, true, IfErr, OnErr, OnOk};
ghost use Rattle.heap_layout.specs.Bits.{bit};
ghost use Rattle.young_heap.specs.Raising.{AreRaisable, RefusesRaise};
ghost use Rattle.young_heap.specs.Rows.{IsInRow};
ghost use Rattle.young_heap.specs.Young.{AreKeptBelow, AreOld};

use crate::fault::RaiseFault;
use crate::old_tables::OldTables;
use crate::promoting::promote_within;
use crate::raising::check_row;
use heap_layout::Edition;

impl OldTables {
    /// Raises the watermark to index `end`, and collects nothing: all that lies below is old then, what is dead too. It
    /// walks the objects from the watermark up to `end` by their headers, and reads no other word. No word changes.
    ///
    /// So what is pinned and young stays where it is: in place of a young collection the runtime raises the watermark
    /// to the end of all that was allocated. And after a collection by which these tables did not go, of crate
    /// pinned_heap or of another one, tables of watermark 0 are raised to the end of what it left, which is a row of
    /// objects, and young collections go on: `collect_all` of no words makes the watermark 0.
    ///
    /// Of the objects that become old each reference and each weak word on a clean card must lead below `end`, to an
    /// object, before the next young collection (`raised_is_clean`). They all do so if `end` is that of all that was
    /// allocated, and then each card may be clean; else the cards of these objects are marked that have others.
    ///
    /// Err if there are too many words, no room for them, fewer words than `end`, or if `end` is below the watermark,
    /// in this order; then, if the words from the watermark up to `end` are no row of objects, with the index where it
    /// breaks. Then the tables are as they were.
    pub fn raise(&mut self, edition: Edition, words: &[u64], end: usize) -> Result<(), RaiseFault>
        ensures watermark { OnOk result (self.new.watermark ≡ end) }
        ensures survived { OnOk result (self.new.survived ≡ end) }
        ensures raisable { OnOk result (AreRaisable edition words.now self.old end) }
        ensures old { OnOk result (AreOld edition words.now self.old.starts self.old.watermark
            → AreOld edition words.now self.new.starts end) }
        ensures starts { OnOk result ((j : ℕ) → self.old.watermark ≤ j → j < end → bit self.new.starts j ≡ true
            → IsInRow edition words.now end self.old.watermark j) }
        ensures all { OnOk result ((j : ℕ) → IsInRow edition words.now end self.old.watermark j
            → bit self.new.starts j ≡ true) }
        ensures fault { IfErr result (RefusesRaise edition words.now self.old end) }
        ensures only { OnErr result (AreRaisable edition words.now self.old end → ⊥) }
        ensures tables_stay { OnErr result (self.new ≡ self.old) }
        ensures starts_stay { AreKeptBelow self.old.watermark self.old.starts self.new.starts }
        ensures room { self.new.room ≡ self.old.room }
    {
        if words.len() > edition.max_words() {
            return Err(RaiseFault::TooLarge);
        }
        if words.len() > self.room {
            return Err(RaiseFault::ShortTables(self.room as u64));
        }
        if words.len() < end {
            return Err(RaiseFault::FewWords(end as u64));
        }
        if end < self.watermark {
            return Err(RaiseFault::BelowWatermark(self.watermark as u64));
        }
        if let Err(i) = check_row(edition, words, self.watermark, end) {
            return Err(RaiseFault::NotARow(i as u64));
        }
        promote_within(
            edition,
            words,
            self.watermark,
            end,
            &mut self.heads,
            &mut self.bits,
            &mut self.counts,
        );
        self.watermark = end;
        self.survived = end;
        Ok(())
    }
}
