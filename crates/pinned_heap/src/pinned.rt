//! Objects that stay where they are while the others slide around them.
ghost use Rattle.std.specs.Prelude.{◌≡◌, ℕ, [], true, length, map, slice_index, List, EachIndex, IfErr, IfOk};
ghost use Rattle.pinned_heap.specs.Around.{end_from, runs_from, stays, IsSlidAround};
ghost use Rattle.pinned_heap.specs.Pinned.{is_object, is_still, led_in, objects_in, IsPinFault};
ghost use Rattle.rest_marks.specs.Given.{heap_now};
ghost use Rattle.stopped_heap.specs.Growth.{IsFoundIn};

use crate::bases::bases;
use crate::fault::PinFault;
use crate::listing::{end_at, list_runs};
use crate::parts::slide_around_by_threads;
use crate::pinning::pin_all;
use crate::placing::settle_all;
use crate::run::Run;
use crate::sliding::slide_around;
use std::alloc::Global;
use std::marker::Model;
use std::thread::Threads;
use stopped_heap::{LiveBits, Places};

/// What a survey found, of which some objects stay where they are. Beside the tables of the survey it keeps a bit a
/// word, 4 bytes for each 64 words, and the runs of free words that the slide leaves. Contracts see what was found, and
/// the indices of the objects that stay, as `still`; `objects_in` are the live objects as they are in some words, and
/// `led_in` says where words lead.
#[derive(Drop)]
pub struct Pinned<'p> {
    places: &'p Places,
    heads: &'p [u64],
    bits: &'p [u64],
    counts: &'p [u32],
    stays: Vec<u64>,
    bases: Vec<u32>,
    runs: Vec<Run>,
    end: u64,
}

impl<'p> Model for Pinned<'p> {
    ghost use Rattle.rest_marks.specs.Surveys.{marks_of};
    ghost use Rattle.pinned_heap.specs.Pinned.{AreTablesAround, FoundAround};

    ghost Value = { FoundAround };

    ghost view = { λ pinned. record { found = pinned.places.now; still = marks_of pinned.stays.items } };

    ghost invariant = { λ pinned. AreTablesAround pinned.places.now pinned.heads.now pinned.bits.now pinned.counts.now
        pinned.stays.items pinned.bases.items pinned.runs.items pinned.end };
}

impl<'p> Pinned<'p> {
    /// Pins the objects at these addresses: they stay where they are. Err with the first pin that is not the address of
    /// a live object, or if memory runs out.
    pub fn of(alloc: Global, places: &'p Places, pins: &[u64]) -> Result<Pinned<'p>, PinFault>
        ensures found { IfOk result (λ pinned. pinned.found ≡ places.now) }
        ensures staying { IfOk result (λ pinned. (i : ℕ) → is_still pinned i ≡ stays pins.now i) }
        ensures objects { IfOk result (λ _. EachIndex pins.now (λ k. is_object places.now (slice_index pins.now k) ≡ true)) }
        ensures fault { IfErr result (IsPinFault places.now pins.now) }
    {
        let LiveBits {
            heads,
            bits,
            counts,
        } = places.live_bits();
        let mut stays = vec![in alloc; 0u64; heads.len()]?;
        if let Err(k) = pin_all(places.edition(), heads, &mut stays, pins) {
            return Err(PinFault::BadPin(k as u64));
        }
        let bases = bases(alloc, bits, &stays)?;
        let runs = list_runs(alloc, bits, &stays, &bases)?;
        let end = end_at(bits, &stays, &bases, 64 * bits.len());
        Ok(Pinned {
            places,
            heads,
            bits,
            counts,
            stays,
            bases,
            runs,
            end,
        })
    }

    /// How many words the live objects have.
    pub fn live_words(&self) -> u64
        ensures { result ≡ length self.now.found.indices }
    {
        self.places.live_words()
    }

    /// Where the last live object ends after the slide: all words from there on are free.
    pub fn end(&self) -> u64
        ensures { (words : List ℕ) → IsFoundIn self.now.found words → result ≡ end_from (is_still self.now) 0 (objects_in self.now.found words) }
    {
        self.end
    }

    /// The free words below that, after the slide: a run right before each object that stays, unless it has no words.
    pub fn runs(&self) -> &[Run]
        ensures { (words : List ℕ) → IsFoundIn self.now.found words → result.now ≡ runs_from (is_still self.now) 0 (objects_in self.now.found words) }
    {
        &self.runs
    }

    /// The free words below the end, as `runs` has them, to be kept.
    pub fn into_runs(self) -> Vec<Run>
        ensures { (words : List ℕ) → IsFoundIn self.entry.found words → result.items ≡ runs_from (is_still self.entry) 0 (objects_in self.entry.found words) }
    {
        self.runs
    }

    /// Slides the objects within the words in which they were found, around those that stay, and fills the runs of free
    /// words between them with objects that nobody looks at. The words behind the last object stay as they are.
    pub fn slide_within(&self, words: &mut [u64])
        requires found { IsFoundIn self.now.found words.old }
        ensures { IsSlidAround (heap_now self.now.found words.old []) (is_still self.now) words.new }
    {
        slide_around(
            self.places.edition(),
            self.heads,
            self.bits,
            self.counts,
            &self.stays,
            &self.bases,
            words,
        );
    }

    /// The same in at most `threads` threads, the caller among them, and 64 at most. Between two objects that stay all
    /// words are independent of the others: the words are cut where objects that stay start, so that about as many live
    /// words are in each part, and each thread slides a part. So it gains where some objects stay that lie apart; where
    /// none stays, or there are less than two threads, the caller slides alone. What is left is the same, word for
    /// word, and no memory is asked for.
    pub fn slide_within_by_threads<R: Threads + Sync>(
        &self,
        rt: &R,
        threads: usize,
        words: &mut [u64],
    )
        requires found { IsFoundIn self.now.found words.old }
        ensures { IsSlidAround (heap_now self.now.found words.old []) (is_still self.now) words.new }
    {
        slide_around_by_threads(
            rt,
            threads,
            self.places.edition(),
            self.heads,
            self.bits,
            self.counts,
            &self.stays,
            &self.bases,
            words,
        );
    }

    /// Makes these weak words, of tables of the caller's own, lead to where their objects are after the slide. One that
    /// leads to no live object becomes null, and an immediate stays.
    pub fn forward_weak(&self, weak: &mut [u64])
        ensures { (words : List ℕ) → IsFoundIn self.now.found words → weak.new ≡ map (led_in self.now words) weak.old }
    {
        settle_all(
            self.places.edition(),
            self.heads,
            self.bits,
            &self.stays,
            &self.bases,
            weak,
        );
    }
}
