//! The tables of young collections, which know a watermark.
ghost use Rattle.std.specs.Prelude.{◌≡◌, ℕ, ◌*◌, ◌<◌, ◌≤◌, false, true, [], length, slice_index, IfErr, IfOk, OnErr, OnOk};
ghost use Rattle.std.specs.List.Sorted.{IsPermutation};
ghost use Rattle.reachability.specs.Queue.{has};
ghost use Rattle.stopped_heap.specs.Collecting.{HasCollected};
ghost use Rattle.young_heap.specs.Cards.{is_dirty, AreCleanCards, AreListed};
ghost use Rattle.young_heap.specs.Listing.{AreFields};
ghost use Rattle.young_heap.specs.OldFaults.{IsOldFaultOf};
ghost use Rattle.young_heap.specs.Tables.{AreFitting, IsCollectedBy, IsYoungCollected, RefusesAll, RefusesRoom, RefusesYoung, RefusesYoungBy};
ghost use Rattle.young_heap.specs.Young.{is_below_led, AreKeptBelow, AreOld, AreRemembered};

use crate::checking::check_old;
use crate::fault::{OldFault, YoungFault};
use crate::listing::collect_by_list;
use crate::promoting::set_below;
use crate::remembering::CARD;
use crate::young::collect_by_cards;
use heap_layout::Edition;
use std::alloc::{AllocError, Global};
use std::marker::Model;
use std::mem;

// As many words as the largest heap of any edition has.
const MOST_WORDS: usize = 1 << 31;

/// Tables for collections of heaps of at most so many words, which know a watermark: the words below it are old. They
/// are what the last collection left, or as much of it as has survived two, or what `raise` made old. No collection
/// allocates. Contracts see a `Watermarked`: `room`, the number of words of the largest heap; `watermark`, an index of
/// words; `survived`, how many words the last collection left, or `raise`, which is not below the watermark; and
/// `starts`, a bit for each word, set below the watermark at the first word of each old object.
///
/// They have three bits for each word, 4 bytes for each 64 words, and 12 bytes for each word, of which a collection
/// touches 4 for each young object that it meets, and 4 for each word of an old one that leads above. It passes over
/// the bits and counts of the words that it is handed, from the watermark on, whatever room there is.
#[derive(Drop)]
pub struct OldTables {
    pub(crate) room: usize,
    pub(crate) watermark: usize,
    pub(crate) survived: usize,
    pub(crate) heads: Vec<u64>,
    pub(crate) spare: Vec<u64>,
    pub(crate) bits: Vec<u64>,
    pub(crate) counts: Vec<u32>,
    pub(crate) queue: Vec<u32>,
    pub(crate) fields: Vec<u32>,
    pub(crate) weaks: Vec<u32>,
}

impl Model for OldTables {
    ghost use Rattle.std.specs.Prelude.{vec_capacity};
    ghost use Rattle.young_heap.specs.Tables.{Watermarked, AreOldTables};

    ghost Value = { Watermarked };

    ghost view = { λ tables. record {
      room = tables.room;
      watermark = tables.watermark;
      survived = tables.survived;
      starts = tables.heads.items;
    } };

    ghost invariant = { λ tables. AreOldTables tables.room tables.watermark tables.survived tables.heads.items
        tables.spare.items tables.bits.items tables.counts.items (vec_capacity tables.queue)
        (vec_capacity tables.fields) (vec_capacity tables.weaks) };
}

/// Err if there are more words or roots than the edition allows, or no room for the words.
pub(crate) fn check_room(
    edition: Edition,
    words: &[u64],
    roots: &[u64],
    room: usize,
) -> Result<(), YoungFault>
    ensures fitting { OnOk result (AreFitting edition words.now roots.now room) }
    ensures refused { IfErr result (RefusesRoom edition words.now roots.now room) }
{
    if words.len() > edition.max_words() || roots.len() > edition.max_roots() {
        return Err(YoungFault::TooLarge);
    }
    if words.len() > room {
        return Err(YoungFault::ShortTables(room as u64));
    }
    Ok(())
}

impl OldTables {
    /// Tables with room for any heap of at most so many words, and watermark 0. Err if an allocation fails.
    pub fn reserve(alloc: Global, words: usize) -> Result<OldTables, AllocError>
        ensures room { IfOk result (λ tables. tables.room ≡ words) }
        ensures watermark { IfOk result (λ tables. tables.watermark ≡ 0) }
        ensures survived { IfOk result (λ tables. tables.survived ≡ 0) }
    {
        let most = words.min(MOST_WORDS);
        let blocks = most.div_ceil(64);
        Ok(OldTables {
            room: words,
            watermark: 0,
            survived: 0,
            heads: vec![in alloc; 0; blocks]?,
            spare: vec![in alloc; 0; blocks]?,
            bits: vec![in alloc; 0; blocks]?,
            counts: vec![in alloc; 0; blocks + 1]?,
            queue: Vec::with_capacity(alloc, most)?,
            fields: Vec::with_capacity(alloc, most)?,
            weaks: Vec::with_capacity(alloc, most)?,
        })
    }

    /// For collections of how many words there is room.
    pub fn room(&self) -> usize
        ensures { result ≡ self.now.room }
    {
        self.room
    }

    /// The watermark: the objects below this index are old. It is 0 before the first collection.
    pub fn old(&self) -> usize
        ensures { result ≡ self.now.watermark }
    {
        self.watermark
    }

    /// Collects the heap of these words and roots within the words, as `stopped_heap::collect_in_place` does, whatever
    /// is old: what the roots reach slides down to the beginning of the words. Ok with the number of live words, which
    /// is the watermark then: all that lives is old, and each card may be clean (`remembered_is_clean`). The words
    /// behind are as they were.
    ///
    /// Err if there are too many words or roots, if there is no room for the words, or with a fault that is there, in
    /// this order. `FewWords`, `FewCards` and `NotAField` never come. Then words, roots and the tables are as they
    /// were.
    pub fn collect_all(
        &mut self,
        edition: Edition,
        words: &mut [u64],
        roots: &mut [u64],
    ) -> Result<u64, YoungFault>
        ensures collected { IfOk result
            (λ live. HasCollected edition words.old roots.old live roots.new words.old words.new) }
        ensures watermark { IfOk result (λ live. self.new.watermark ≡ live) }
        ensures survived { IfOk result (λ live. self.new.survived ≡ live) }
        ensures old { IfOk result (λ live. AreOld edition words.new self.new.starts live) }
        ensures remembered { IfOk result (λ live. AreRemembered edition words.new self.new.starts live [] []) }
        ensures order { IfOk result (λ live. live ≤ length words.old) }
        ensures fault { IfErr result (RefusesAll edition words.old roots.old self.old.room) }
        ensures words_stay { OnErr result (words.new ≡ words.old) }
        ensures roots_stay { OnErr result (roots.new ≡ roots.old) }
        ensures tables_stay { OnErr result (self.new ≡ self.old) }
        ensures length { length words.new ≡ length words.old }
        ensures room { self.new.room ≡ self.old.room }
    {
        if let Err(fault) = check_room(edition, words, roots, self.room) {
            return Err(fault);
        }
        let collected = collect_by_cards(
            edition,
            0,
            words,
            &[],
            roots,
            &mut self.spare,
            &mut self.bits,
            &mut self.counts,
            &mut self.queue,
            &mut self.fields,
            &mut self.weaks,
        );
        match collected {
            Ok(total) => {
                mem::swap(&mut self.heads, &mut self.spare);
                self.watermark = total as usize;
                self.survived = total as usize;
                Ok(total)
            }
            Err(fault) => {
                set_below(&mut self.bits, &mut self.counts, self.watermark);
                Err(YoungFault::Survey(fault))
            }
        }
    }

    /// Collects what is young of the heap of these words and roots, within the words. The objects below the watermark
    /// stay where they are; the young objects that the roots reach, or old objects by their references on dirty cards,
    /// slide down to them, each behind the one before. The roots, and the references on dirty cards that led above,
    /// lead there then. A weak word of an old object keeps nothing alive: if it led above, it leads to where its object
    /// is then, or is null if that died. Ok with the number of words that are there then, the new watermark: all of
    /// them are old, and each card may be clean. The words behind are as they were.
    ///
    /// Card `k` has the words from `CARD * k` on, and is dirty if its byte is not 0. The mutator keeps two things,
    /// which `stored_is_clean` says of its stores: no header of an old object changes (`AreOld`), and of old objects
    /// each reference and each weak word on a clean card leads below the watermark, to an object (`AreCleanCards`).
    /// `check` says whether it did. If it did not, the words that are left may be wrong; yet of the words below the
    /// watermark only those change that are on dirty cards and do not lead below.
    ///
    /// The tables know no edition: the premises name one, and with another one than that of the last collection they do
    /// not hold, unless both read the old headers alike.
    ///
    /// Err if there are too many words or roots, no room for the words, fewer words than the watermark, or fewer cards
    /// than they want, in this order; then with a fault that is there, where there may be others too: it looks at the
    /// weak words on dirty cards, at the roots, at the references on dirty cards, and at the young objects in the order
    /// in which they are met. `BadRoot` and `BadReference` are a root, a word on a dirty card, or a reference of a
    /// young object that leads neither to a young word nor to the start of an old object; `BadWeak` is a word on a
    /// dirty card or a weak word of a young object that leads to no word. `NotAField` never comes. Then words, roots
    /// and the watermark are as they were.
    pub fn collect_young(
        &mut self,
        edition: Edition,
        words: &mut [u64],
        cards: &[u8],
        roots: &mut [u64],
    ) -> Result<u64, YoungFault>
        ensures collected { IfOk result (λ live. AreOld edition words.old self.old.starts self.old.watermark
            → AreCleanCards edition words.old self.old.starts self.old.watermark cards.now
            → IsYoungCollected edition words.old roots.old self.old.starts self.old.watermark cards.now
            live roots.new words.new) }
        ensures watermark { IfOk result (λ live. self.new.watermark ≡ live) }
        ensures survived { IfOk result (λ live. self.new.survived ≡ live) }
        ensures old { IfOk result (λ live. AreOld edition words.old self.old.starts self.old.watermark
            → AreCleanCards edition words.old self.old.starts self.old.watermark cards.now
            → AreOld edition words.new self.new.starts live) }
        ensures remembered { IfOk result (λ live. AreOld edition words.old self.old.starts self.old.watermark
            → AreCleanCards edition words.old self.old.starts self.old.watermark cards.now
            → AreRemembered edition words.new self.new.starts live [] []) }
        ensures order { IfOk result (λ live. (self.old.watermark ≤ live) × (live ≤ length words.old)) }
        ensures clean_stay { (j : ℕ) → j < self.old.watermark → is_dirty cards.now j ≡ false
            → slice_index words.new j ≡ slice_index words.old j }
        ensures below_stay { (j : ℕ) → j < self.old.watermark
            → is_below_led edition self.old.starts self.old.watermark (slice_index words.old j) ≡ true
            → slice_index words.new j ≡ slice_index words.old j }
        ensures fault { IfErr result (RefusesYoung edition words.old roots.old self.old cards.now) }
        ensures words_stay { OnErr result (words.new ≡ words.old) }
        ensures roots_stay { OnErr result (roots.new ≡ roots.old) }
        ensures watermark_stays { OnErr result (self.new.watermark ≡ self.old.watermark) }
        ensures survived_stays { OnErr result (self.new.survived ≡ self.old.survived) }
        ensures starts_stay { AreKeptBelow self.old.watermark self.old.starts self.new.starts }
        ensures length { length words.new ≡ length words.old }
        ensures room { self.new.room ≡ self.old.room }
    {
        if let Err(fault) = check_room(edition, words, roots, self.room) {
            return Err(fault);
        }
        if words.len() < self.watermark {
            return Err(YoungFault::FewWords(self.watermark as u64));
        }
        let wanted = self.watermark.div_ceil(CARD);
        if cards.len() < wanted {
            return Err(YoungFault::FewCards(wanted as u64));
        }
        let collected = collect_by_cards(
            edition,
            self.watermark,
            words,
            cards,
            roots,
            &mut self.heads,
            &mut self.bits,
            &mut self.counts,
            &mut self.queue,
            &mut self.fields,
            &mut self.weaks,
        );
        match collected {
            Ok(live) => {
                self.watermark = live as usize;
                self.survived = live as usize;
                Ok(live)
            }
            Err(fault) => Err(YoungFault::Survey(fault)),
        }
    }

    /// Collects what is young, as `collect_young` does, by a list of words in place of cards: the indices of words of
    /// old objects into which the mutator stored since the last collection, in any order, each maybe several times. It
    /// is sorted in place. The young objects that the roots reach, or old objects by listed references, slide down to
    /// the old ones; a listed weak word leads to where its object is then, or is null if that died. Afterwards nothing
    /// need be listed.
    ///
    /// The mutator keeps two things, which `stored_is_clean` says of its stores: no header of an old object changes
    /// (`AreOld`), and of old objects each reference and each weak word that is not listed leads below the watermark,
    /// to an object (`AreListed`). If it did not, the words that are left may be wrong; yet of the words below the
    /// watermark only those change that are listed and do not lead below.
    ///
    /// Err if there are too many words or roots, no room for the words, or fewer words than the watermark, in this
    /// order; then, if a listed word is no reference and no weak word of an old object, `NotAField` with such a
    /// word; then with a fault that is there, as `collect_young` does, where `BadReference` and `BadWeak` may be listed
    /// words. `FewCards` never comes. Where the words below the watermark are no row of objects, another listed word
    /// may be answered, or none. Then words, roots and the watermark are as they were.
    pub fn collect_young_by(
        &mut self,
        edition: Edition,
        words: &mut [u64],
        fields: &mut [u64],
        roots: &mut [u64],
    ) -> Result<u64, YoungFault>
        ensures collected { IfOk result (λ live. AreOld edition words.old self.old.starts self.old.watermark
            → AreListed edition words.old self.old.starts self.old.watermark fields.old
            → IsCollectedBy edition words.old roots.old self.old.starts self.old.watermark (has fields.old)
            live roots.new words.new) }
        ensures watermark { IfOk result (λ live. self.new.watermark ≡ live) }
        ensures survived { IfOk result (λ live. self.new.survived ≡ live) }
        ensures old { IfOk result (λ live. AreOld edition words.old self.old.starts self.old.watermark
            → AreListed edition words.old self.old.starts self.old.watermark fields.old
            → AreOld edition words.new self.new.starts live) }
        ensures remembered { IfOk result (λ live. AreOld edition words.old self.old.starts self.old.watermark
            → AreListed edition words.old self.old.starts self.old.watermark fields.old
            → AreRemembered edition words.new self.new.starts live [] []) }
        ensures order { IfOk result (λ live. (self.old.watermark ≤ live) × (live ≤ length words.old)) }
        ensures listed { OnOk result (AreOld edition words.old self.old.starts self.old.watermark
            → AreFields edition words.old self.old.starts self.old.watermark fields.old) }
        ensures unlisted_stay { (j : ℕ) → j < self.old.watermark → has fields.old j ≡ false
            → slice_index words.new j ≡ slice_index words.old j }
        ensures below_stay { (j : ℕ) → j < self.old.watermark
            → is_below_led edition self.old.starts self.old.watermark (slice_index words.old j) ≡ true
            → slice_index words.new j ≡ slice_index words.old j }
        ensures fault { IfErr result (RefusesYoungBy edition words.old roots.old self.old fields.old) }
        ensures words_stay { OnErr result (words.new ≡ words.old) }
        ensures roots_stay { OnErr result (roots.new ≡ roots.old) }
        ensures watermark_stays { OnErr result (self.new.watermark ≡ self.old.watermark) }
        ensures survived_stays { OnErr result (self.new.survived ≡ self.old.survived) }
        ensures starts_stay { AreKeptBelow self.old.watermark self.old.starts self.new.starts }
        ensures list { IsPermutation fields.old fields.new }
        ensures length { length words.new ≡ length words.old }
        ensures room { self.new.room ≡ self.old.room }
    {
        fields.sort_unstable();
        if let Err(fault) = check_room(edition, words, roots, self.room) {
            return Err(fault);
        }
        if self.watermark > words.len() {
            return Err(YoungFault::FewWords(self.watermark as u64));
        }
        let collected = collect_by_list(
            edition,
            self.watermark,
            words,
            fields,
            roots,
            &mut self.heads,
            &mut self.bits,
            &mut self.counts,
            &mut self.queue,
            &mut self.fields,
            &mut self.weaks,
        );
        match collected {
            Ok(live) => {
                self.watermark = live as usize;
                self.survived = live as usize;
                Ok(live)
            }
            Err(fault) => Err(fault),
        }
    }

    /// Whether the words below the watermark are a row of objects that start where they did after the last collection,
    /// and each of their references and weak words on a clean card leads below: what `collect_young` believes. It reads
    /// all old objects, so it is for debug builds. Of a card that is not handed in it takes that it is clean. Err with
    /// a fault that is there; it is `NotARow` if there is no such row.
    pub fn check(&self, edition: Edition, words: &[u64], cards: &[u8]) -> Result<(), OldFault>
        ensures old { OnOk result (AreOld edition words.now self.now.starts self.now.watermark) }
        ensures clean { OnOk result (AreCleanCards edition words.now self.now.starts self.now.watermark cards.now) }
        ensures fault { IfErr result (IsOldFaultOf edition words.now self.now.starts self.now.watermark cards.now) }
        ensures only { OnErr result (AreOld edition words.now self.now.starts self.now.watermark
            → AreCleanCards edition words.now self.now.starts self.now.watermark cards.now → ⊥) }
    {
        check_old(edition, self.watermark, words, &self.heads, cards)
    }
}
