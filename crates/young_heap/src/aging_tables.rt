//! The call of tables with a watermark by which an object becomes old when it has survived two collections.
ghost use Rattle.std.specs.Prelude.{◌≡◌, ℕ, ◌<◌, ◌≤◌, false, true, length, slice_index, IfErr, IfOk, OnErr, OnOk};
ghost use Rattle.young_heap.specs.Aging.{IsAgingCollected, RefusesAging};
ghost use Rattle.young_heap.specs.Cards.{is_dirty, AreCleanCards};
ghost use Rattle.young_heap.specs.Dirty.{AreMade};
ghost use Rattle.young_heap.specs.Tables.{IsYoungCollected};
ghost use Rattle.young_heap.specs.Young.{is_below_led, AreKeptBelow, AreOld};

use crate::aging::collect_by_age;
use crate::fault::YoungFault;
use crate::old_tables::{OldTables, check_room};
use crate::remembering::CARD;
use heap_layout::Edition;

impl OldTables {
    /// Collects what is young of the heap of these words and roots, within the words, as `collect_young` does; but an
    /// object becomes old only when it has survived two collections. Ok with the number of words that are there then.
    /// The watermark is then behind those objects that the last collection left: what was allocated since stays young.
    /// An object that ended behind the words that the last collection left counts as allocated since (`AreParted`).
    ///
    /// The cards are made anew: just those are dirty that have a reference or a weak word of an old object that does
    /// not lead below the watermark (`AreMade`). So what the next young collection believes holds (`AreCleanCards`), as
    /// long as the mutator keeps it. For that only the objects that become old are looked at, and the words on dirty
    /// cards that led above. The cards are more than those below the watermark: one for each 64 words that the last
    /// collection left, since so many words may be old afterwards.
    ///
    /// What it believes, its faults and their order are those of `collect_young`; `FewCards` is asked by these cards.
    /// Err leaves words, roots and cards, the watermark, and what is known of the last collection, as they were.
    pub fn collect_aging(
        &mut self,
        edition: Edition,
        words: &mut [u64],
        cards: &mut [u8],
        roots: &mut [u64],
    ) -> Result<u64, YoungFault>
        ensures collected { IfOk result (λ live. AreOld edition words.old self.old.starts self.old.watermark
            → AreCleanCards edition words.old self.old.starts self.old.watermark cards.old
            → IsYoungCollected edition words.old roots.old self.old.starts self.old.watermark cards.old
            live roots.new words.new) }
        ensures aged { IfOk result (λ live. AreOld edition words.old self.old.starts self.old.watermark
            → AreCleanCards edition words.old self.old.starts self.old.watermark cards.old
            → IsAgingCollected edition words.old roots.old self.old cards.old live self.new.watermark
            roots.new words.new) }
        ensures watermark { OnOk result ((self.old.watermark ≤ self.new.watermark)
            × (self.new.watermark ≤ self.old.survived)) }
        ensures survived { IfOk result (λ live. self.new.survived ≡ live) }
        ensures old { OnOk result (AreOld edition words.old self.old.starts self.old.watermark
            → AreCleanCards edition words.old self.old.starts self.old.watermark cards.old
            → AreOld edition words.new self.new.starts self.new.watermark) }
        ensures made { OnOk result (AreOld edition words.old self.old.starts self.old.watermark
            → AreCleanCards edition words.old self.old.starts self.old.watermark cards.old
            → AreMade edition words.new self.new.starts self.new.watermark cards.new) }
        ensures clean { OnOk result (AreOld edition words.old self.old.starts self.old.watermark
            → AreCleanCards edition words.old self.old.starts self.old.watermark cards.old
            → AreCleanCards edition words.new self.new.starts self.new.watermark cards.new) }
        ensures order { IfOk result (λ live. (self.new.watermark ≤ live) × (live ≤ length words.old)) }
        ensures clean_stay { (j : ℕ) → j < self.old.watermark → is_dirty cards.old j ≡ false
            → slice_index words.new j ≡ slice_index words.old j }
        ensures below_stay { (j : ℕ) → j < self.old.watermark
            → is_below_led edition self.old.starts self.old.watermark (slice_index words.old j) ≡ true
            → slice_index words.new j ≡ slice_index words.old j }
        ensures fault { IfErr result (RefusesAging edition words.old roots.old self.old cards.old) }
        ensures words_stay { OnErr result (words.new ≡ words.old) }
        ensures roots_stay { OnErr result (roots.new ≡ roots.old) }
        ensures cards_stay { OnErr result (cards.new ≡ cards.old) }
        ensures watermark_stays { OnErr result (self.new.watermark ≡ self.old.watermark) }
        ensures survived_stays { OnErr result (self.new.survived ≡ self.old.survived) }
        ensures starts_stay { AreKeptBelow self.old.watermark self.old.starts self.new.starts }
        ensures length { length words.new ≡ length words.old }
        ensures cards_length { length cards.new ≡ length cards.old }
        ensures room { self.new.room ≡ self.old.room }
    {
        if let Err(fault) = check_room(edition, words, roots, self.room) {
            return Err(fault);
        }
        if words.len() < self.watermark {
            return Err(YoungFault::FewWords(self.watermark as u64));
        }
        let wanted = self.survived.div_ceil(CARD);
        if cards.len() < wanted {
            return Err(YoungFault::FewCards(wanted as u64));
        }
        let collected = collect_by_age(
            edition,
            self.watermark,
            self.survived,
            words,
            cards,
            roots,
            &mut self.heads,
            &mut self.bits,
            &mut self.counts,
            &mut self.queue,
            &mut self.fields,
            &mut self.weaks,
        );
        match collected {
            Ok((live, middle)) => {
                self.watermark = middle;
                self.survived = live as usize;
                Ok(live)
            }
            Err(fault) => Err(YoungFault::Survey(fault)),
        }
    }
}
