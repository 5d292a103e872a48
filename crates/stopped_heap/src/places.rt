//! What a survey found, kept without the words.
ghost use Rattle.std.specs.Prelude.{◌≡◌, ℕ, ◌<◌, false, true, cond, drop, length, map, slice_index, take, All, IfErr, OnErr, OnOk};
ghost use Rattle.heap_layout.specs.Heap.{is_value, IsValue};
ghost use Rattle.mark_tables.specs.MarkBitmap.{set_bits, AreOffsets};
ghost use Rattle.rest_marks.specs.Places.{led_by, words_now, IsAsFound, IsSlideFault};
ghost use Rattle.rest_marks.specs.Surveys.{marks_of};
ghost use Rattle.rest_marks.specs.declared.fault.SlideFault.TheVariants as slide;

use crate::tables::Tables;
use heap_layout::Edition;
use rest_marks::{SlideFault, check_kept, settle_all};
use rest_slide::try_slide_part;
use std::marker::Model;

/// The tables of a survey, to be read: a bit for each word, 64 of them in each block.
pub struct LiveBits<'t> {
    /// The bits of the first words of live objects.
    pub heads: &'t [u64],
    /// The bits of all words of live objects.
    pub bits: &'t [u64],
    /// How many of `bits` are set before each block, and last how many are set in all.
    pub counts: &'t [u32],
}

/// What a survey found, without the words that it looked at. Nothing is borrowed, so anything may have been written to
/// the words since; no call asks that they are as they were. Contracts see what was found: the edition, the number of
/// words, the indices of the live objects as `marks` and those of all their words as `indices`, and the room of the
/// tables.
#[derive(Drop)]
pub struct Places {
    pub(crate) edition: Edition,
    pub(crate) count: usize,
    pub(crate) room: usize,
    pub(crate) heads: Vec<u64>,
    pub(crate) bits: Vec<u64>,
    pub(crate) counts: Vec<u32>,
    pub(crate) starts: Vec<u32>,
    pub(crate) queue: Vec<u32>,
}

impl Model for Places {
    ghost use Rattle.std.specs.Prelude.{◌*◌, ◌≤◌, vec_capacity};
    ghost use Rattle.rest_marks.specs.Places.{found_in, AreTablesOf, Found};
    ghost use Rattle.rest_marks.specs.Starts.{AreStarts};
    ghost use Rattle.stopped_heap.specs.Tables.{HaveRoom};

    ghost Value = { Found };

    ghost view = { λ places. found_in places.edition places.count places.heads.items places.bits.items places.room };

    ghost invariant = { λ places. AreTablesOf places.edition places.count places.heads.items places.bits.items places.counts.items
        × HaveRoom places.room (vec_capacity places.heads) (vec_capacity places.bits) (vec_capacity places.counts) (vec_capacity places.queue)
        × AreStarts places.heads.items places.starts.items × (places.room ≤ 64 * vec_capacity places.starts) };
}

impl Places {
    /// How many words the live objects have.
    pub fn live_words(&self) -> u64
        ensures { result ≡ length self.now.indices }
    {
        u64::from(self.counts[self.bits.len()])
    }

    /// The edition of the heap.
    pub fn edition(&self) -> Edition
        ensures { result ≡ self.now.edition }
    {
        self.edition
    }

    /// How many words were surveyed.
    pub fn count(&self) -> usize
        ensures { result ≡ self.now.count }
    {
        self.count
    }

    /// Its tables, for a slide of the caller's own.
    pub fn live_bits(&self) -> LiveBits<'_>
        ensures marks { marks_of result.heads.now ≡ self.now.marks }
        ensures indices { set_bits result.bits.now ≡ self.now.indices }
        ensures offsets { AreOffsets result.bits.now result.counts.now }
        ensures same { length result.heads.now ≡ length result.bits.now }
    {
        LiveBits {
            heads: &self.heads,
            bits: &self.bits,
            counts: &self.counts,
        }
    }

    /// Fills a part of the memory into which the heap slides, from word `first` on, with the words of the objects as
    /// they are in these words now. It is safe for any words, and writes nothing but the part. Calls for several parts
    /// may run at once.
    ///
    /// Ok if each object that has a word in the part has as many words as when it was surveyed, and each of its
    /// references there leads to a live object, or is null or an immediate. If the words are those that were surveyed
    /// and the part ends within the live words, it is Ok, and the part is that of `Survey::slide`. Err with a fault
    /// that is there: first `NoSuchPart`, then `OtherCount`, then object by object. After `NoSuchPart` and `OtherCount`
    /// the part is as it was; after the others some of its words are written.
    pub fn try_slide(&self, words: &[u64], first: u64, part: &mut [u64]) -> Result<(), SlideFault>
        ensures slid { OnOk result (part.new ≡ take (length part.old) (drop first (words_now self.now words.now))) }
        ensures as_found { OnOk result (IsAsFound self.now words.now first (length part.old)) }
        ensures fault { IfErr result (IsSlideFault self.now words.now first (length part.old)) }
        ensures no_part { IfErr result (λ fault. fault ≡ slide.NoSuchPart → part.new ≡ part.old) }
        ensures other_count { IfErr result (λ fault. fault ≡ slide.OtherCount → part.new ≡ part.old) }
    {
        let live = self.live_words();
        if first > live || part.len() as u64 > live - first {
            return Err(SlideFault::NoSuchPart);
        }
        if words.len() != self.count {
            return Err(SlideFault::OtherCount);
        }
        try_slide_part(
            self.edition,
            words,
            &self.heads,
            &self.bits,
            &self.counts,
            &self.starts,
            first,
            part,
        )
    }

    /// Makes these roots lead to where their objects are after the collection. Err with the number of the first root
    /// that is neither null nor the address of a live object, nor an immediate; then the roots are as they were.
    pub fn forward_roots(&self, roots: &mut [u64]) -> Result<(), usize>
        ensures all { OnOk result (All (IsValue self.now.edition self.now.marks) roots.old) }
        ensures forwarded { OnOk result (roots.new ≡ map (led_by self.now) roots.old) }
        ensures inside { IfErr result (λ k. k < length roots.old) }
        ensures stray { IfErr result (λ k. is_value self.now.edition self.now.marks (slice_index roots.old k) ≡ false) }
        ensures first { IfErr result (λ k. (j : ℕ) → j < k → is_value self.now.edition self.now.marks (slice_index roots.old j) ≡ true) }
        ensures stay { OnErr result (roots.new ≡ roots.old) }
    {
        if let Err(k) = check_kept(self.edition, &self.heads, roots) {
            return Err(k);
        }
        settle_all(self.edition, &self.heads, &self.bits, &self.counts, roots);
        Ok(())
    }

    /// Makes these weak words, of tables of the caller's own, lead to where their objects are after the collection. One
    /// that leads to no live object becomes null, and an immediate stays.
    pub fn forward_weak(&self, words: &mut [u64])
        ensures { words.new ≡ map (led_by self.now) words.old }
    {
        settle_all(self.edition, &self.heads, &self.bits, &self.counts, words);
    }

    /// Gives the tables of the survey back, with the room that they had.
    pub fn into_tables(self) -> Tables
        ensures { result.room ≡ self.room }
    {
        let Places {
            edition: _,
            count: _,
            room,
            heads,
            bits,
            counts,
            starts,
            queue,
        } = self;
        Tables {
            room,
            heads,
            bits,
            counts,
            starts,
            queue,
        }
    }
}
