//! A marking of a heap while its threads go on. Its owner hands in the words of one object after the other, as they are
//! then; nothing here reads the heap.
ghost use Rattle.std.specs.Prelude.{◌≡◌, ℕ, ◌+◌, ◌-◌, ◌/◌, ◌<◌, ◌≤◌, ◌++◌, Bool, true, List, [], length, slice_index, take, drop, min, All, IfErr, IfOk, IfSome, IfNone};
ghost use Rattle.heap_layout.specs.Bits.{bit};
ghost use Rattle.heap_layout.specs.declared.edition.Edition.{Edition};
ghost use Rattle.heap_layout.specs.Heap.{object_at, Heap, IsPlaced, IsValue};
ghost use Rattle.heap_layout.specs.Limits.{most_roots};
ghost use Rattle.rest_marks.specs.Given.{heap_now};
ghost use Rattle.rest_marks.specs.LookFaults.{IsFinishFault, IsLookAgainFault, IsLookFault, IsMeetFault, IsRowsFault};
ghost use Rattle.rest_marks.specs.Looks.{met_by, met_by_rows, rows_of, Looking, AreLooked, AreRowsAt, AreSame, AreSameBut, IsAt, IsSameAt};
ghost use Rattle.rest_marks.specs.Marks.{AllKept};
ghost use Rattle.rest_marks.specs.Places.{IsFoundOf};
ghost use Rattle.rest_marks.specs.Reached.{IsFaultOf, IsWordOf};

use crate::places::Places;
use heap_layout::{Edition, is_set};
use rest_marks::{
    FinishFault, LookFault, MeetFault, Stop, SurveyFault, look_again_at, look_at, look_each,
    meet_all,
};
use std::alloc::Global;
use std::marker::Model;

/// A marking that goes on: which objects were met, and which of them were looked at. Contracts see a `Looking`.
/// `AreLooked looking words` says that the objects which were looked at are, in these words, as they must be. Each look
/// carries this from words to words, whatever they are: so at the end it holds of the words of then, if each object
/// that was looked at is as it was at its last look.
#[derive(Drop)]
pub struct Looks {
    pub(crate) edition: Edition,
    pub(crate) count: usize,
    pub(crate) heads: Vec<u64>,
    pub(crate) bits: Vec<u64>,
    pub(crate) queue: Vec<u32>,
    pub(crate) next: usize,
}

impl Model for Looks {
    ghost use Rattle.std.specs.Prelude.{◌≡◌, ◌*◌, ◌+◌, ◌/◌, ◌≤◌, length};
    ghost use Rattle.heap_layout.specs.Limits.{most_words};
    ghost use Rattle.rest_marks.specs.Looks.{Looking};
    ghost use Rattle.rest_marks.specs.Meeting.{AreMet, AreOnce};

    ghost Value = { Looking };

    ghost view = { λ looks. record { edition = looks.edition; count = looks.count; met = looks.queue.items; looked = looks.next; heads = looks.heads.items; bits = looks.bits.items } };

    ghost invariant = { λ looks. (looks.count ≤ most_words looks.edition) × (length looks.heads.items ≡ (looks.count + 63) / 64) × (length looks.bits.items ≡ (looks.count + 63) / 64)
        × AreMet looks.queue.items looks.heads.items × AreOnce looks.count looks.queue.items × (looks.next ≤ length looks.queue.items) };
}

impl Looks {
    /// Begins to mark what these roots reach, in a heap of so many words, and meets the objects to which they lead. No
    /// object was looked at, so any words will do. Err if there are too many words or roots, with a root that leads to
    /// none of the words, or if memory runs out.
    pub fn begin(
        alloc: Global,
        edition: Edition,
        count: usize,
        roots: &[u64],
    ) -> Result<Looks, SurveyFault>
        ensures edition { IfOk result (λ looks. looks.edition ≡ edition) }
        ensures count { IfOk result (λ looks. looks.count ≡ count) }
        ensures none { IfOk result (λ looks. looks.looked ≡ 0) }
        ensures met { IfOk result (λ looks. looks.met ≡ met_by count [] roots.now) }
        ensures fault { IfErr result (λ fault. (words : List ℕ) → length words ≡ count
            → IsFaultOf edition words roots.now fault) }
        ensures looked { IfOk result (λ looks. (words : List ℕ) → AreLooked looks words) }
    {
        if count > edition.max_words() || roots.len() > edition.max_roots() {
            return Err(SurveyFault::TooLarge);
        }
        let blocks = count.div_ceil(64);
        let mut heads = vec![in alloc; 0u64; blocks]?;
        let bits = vec![in alloc; 0u64; blocks]?;
        let mut queue = Vec::new(alloc);
        match meet_all(edition, count, &mut heads, &mut queue, roots) {
            Ok(()) => {}
            Err(Stop::Memory) => return Err(SurveyFault::OutOfMemory),
            Err(Stop::Stray(k)) => return Err(SurveyFault::BadRoot(k as u64)),
        }
        Ok(Looks {
            edition,
            count,
            heads,
            bits,
            queue,
            next: 0,
        })
    }

    /// The index of the object that waits to be looked at next, if there is one.
    pub fn waiting(&self) -> Option<usize>
        ensures some { IfSome result (λ i.
            (self.now.looked < length self.now.met) × (i ≡ slice_index self.now.met self.now.looked)) }
        ensures none { IfNone result (length self.now.met ≤ self.now.looked) }
    {
        if self.next >= self.queue.len() {
            return None;
        }
        Some(self.queue[self.next] as usize)
    }

    /// Copies the indices of the objects that wait into `indices`, from the one that is looked at next on, as many as
    /// there is room for, and answers how many. What is behind them in `indices` stays.
    pub fn waiting_in(&self, indices: &mut [u64]) -> usize
        ensures many { result ≡ min (length self.now.met - self.now.looked) (length indices.old) }
        ensures indices { indices.new ≡ take result (drop self.now.looked self.now.met) ++ drop result indices.old }
    {
        let many = (self.queue.len() - self.next).min(indices.len());
        for k in 0..many {
            indices[k] = u64::from(self.queue[self.next + k]);
        }
        many
    }

    /// How many of the objects that were met were looked at, in the order in which they were met.
    pub fn looked(&self) -> usize
        ensures { result ≡ self.now.looked }
    {
        self.next
    }

    /// Whether an object was met at this index.
    pub fn is_met(&self, i: usize) -> bool
        ensures { result ≡ bit self.now.heads i }
    {
        i < self.count && is_set(&self.heads, i)
    }

    /// Meets the objects to which these values lead, those that were not met: roots as they are now, or the addresses
    /// of new objects. They wait then. Err with the number of a value that leads to none of the words, or if memory
    /// runs out; the marking ends then.
    pub fn meet(self, values: &[u64]) -> Result<Looks, MeetFault>
        ensures edition { IfOk result (λ looks. looks.edition ≡ self.edition) }
        ensures count { IfOk result (λ looks. looks.count ≡ self.count) }
        ensures many { IfOk result (λ looks. looks.looked ≡ self.looked) }
        ensures met { IfOk result (λ looks. looks.met ≡ met_by self.count self.met values.now) }
        ensures stay { IfOk result (λ looks. (k : ℕ) → k < length self.met
            → slice_index looks.met k ≡ slice_index self.met k) }
        ensures looked { IfOk result (λ looks. (words : List ℕ) → AreLooked self words → AreLooked looks words) }
        ensures fault { IfErr result (IsMeetFault self values.now) }
    {
        let Looks {
            edition,
            count,
            mut heads,
            bits,
            mut queue,
            next,
        } = self;
        match meet_all(edition, count, &mut heads, &mut queue, values) {
            Ok(()) => {}
            Err(Stop::Memory) => return Err(MeetFault::OutOfMemory),
            Err(Stop::Stray(k)) => return Err(MeetFault::BadValue(k as u64)),
        }
        Ok(Looks {
            edition,
            count,
            heads,
            bits,
            queue,
            next,
        })
    }

    /// Looks at the next object that waits. `run` has its words, as they are now, from its header on: the header, the
    /// references and the weak words at least. In all words in which these stand there, and the objects that were
    /// looked at before are as they must be, so are those that were looked at then. Err with a fault that is there; the
    /// marking ends then.
    pub fn look(self, run: &[u64]) -> Result<Looks, LookFault>
        ensures edition { IfOk result (λ looks. looks.edition ≡ self.edition) }
        ensures count { IfOk result (λ looks. looks.count ≡ self.count) }
        ensures waited { IfOk result (λ _. self.looked < length self.met) }
        ensures one { IfOk result (λ looks. looks.looked ≡ self.looked + 1) }
        ensures met { IfOk result (λ looks.
            looks.met ≡ met_by self.count self.met (object_at self.edition run.now 0).references) }
        ensures stay { IfOk result (λ looks. (k : ℕ) → k < length self.met
            → slice_index looks.met k ≡ slice_index self.met k) }
        ensures looked { IfOk result (λ looks. (words : List ℕ) → length words ≡ self.count
            → IsAt words (slice_index self.met self.looked) run.now → AreLooked self words → AreLooked looks words) }
        ensures fault { IfErr result (IsLookFault self run.now) }
    {
        let Looks {
            edition,
            count,
            mut heads,
            mut bits,
            mut queue,
            next,
        } = self;
        if next >= queue.len() {
            return Err(LookFault::NoSuchObject);
        }
        let i = queue[next] as usize;
        look_at(edition, count, &mut heads, &mut bits, &mut queue, i, run)?;
        Ok(Looks {
            edition,
            count,
            heads,
            bits,
            queue,
            next: next + 1,
        })
    }

    /// Looks at the next objects that wait, in the order in which they wait, one for each row. The rows stand one
    /// behind the other. A row has the header, the references and the weak words of its object, as they are now, and no
    /// data words. In all words in which these stand there, and the objects that were looked at before are as they must
    /// be, so are those that were looked at then. Err with a fault that is there: that of a row, after those before it
    /// were looked at. The marking ends then.
    pub fn look_rows(self, rows: &[u64]) -> Result<Looks, LookFault>
        ensures edition { IfOk result (λ looks. looks.edition ≡ self.edition) }
        ensures count { IfOk result (λ looks. looks.count ≡ self.count) }
        ensures waited { IfOk result (λ looks. looks.looked ≤ length looks.met) }
        ensures many { IfOk result (λ looks. looks.looked ≡ self.looked + length (rows_of self.edition rows.now)) }
        ensures met { IfOk result (λ looks.
            looks.met ≡ met_by_rows self.edition self.count self.met (rows_of self.edition rows.now)) }
        ensures stay { IfOk result (λ looks. (k : ℕ) → k < length self.met
            → slice_index looks.met k ≡ slice_index self.met k) }
        ensures looked { IfOk result (λ looks. (words : List ℕ) → length words ≡ self.count
            → AreRowsAt words looks.met self.looked (rows_of self.edition rows.now)
            → AreLooked self words → AreLooked looks words) }
        ensures fault { IfErr result (IsRowsFault self (rows_of self.edition rows.now)) }
    {
        let Looks {
            edition,
            count,
            mut heads,
            mut bits,
            mut queue,
            next,
        } = self;
        let next = look_each(
            edition, count, &mut heads, &mut bits, &mut queue, next, rows,
        )?;
        Ok(Looks {
            edition,
            count,
            heads,
            bits,
            queue,
            next,
        })
    }

    /// Looks again at the object at index `i`, which was met, since it may have been written to. `run` has its words as
    /// they are now, from its header on: the header, the references and the weak words at least. It carries what is
    /// known from the words of before to those of now, if all other objects that were looked at are the same in both,
    /// and this one is as long if it was looked at. If it waits still, it waits as before. Err with a fault that is
    /// there; the marking ends then.
    pub fn look_again(self, i: usize, run: &[u64]) -> Result<Looks, LookFault>
        ensures edition { IfOk result (λ looks. looks.edition ≡ self.edition) }
        ensures count { IfOk result (λ looks. looks.count ≡ self.count) }
        ensures known { IfOk result (λ _. bit self.heads i ≡ true) }
        ensures many { IfOk result (λ looks. looks.looked ≡ self.looked) }
        ensures met { IfOk result (λ looks.
            looks.met ≡ met_by self.count self.met (object_at self.edition run.now 0).references) }
        ensures stay { IfOk result (λ looks. (k : ℕ) → k < length self.met
            → slice_index looks.met k ≡ slice_index self.met k) }
        ensures looked { IfOk result (λ looks. (before now : List ℕ)
            → length before ≡ self.count → length now ≡ self.count → IsAt now i run.now
            → AreSameBut self.edition before now self.met self.looked i → AreLooked self before → AreLooked looks now) }
        ensures fault { IfErr result (IsLookAgainFault self i run.now) }
    {
        if !self.is_met(i) {
            return Err(LookFault::NoSuchObject);
        }
        let Looks {
            edition,
            count,
            mut heads,
            bits,
            mut queue,
            next,
        } = self;
        look_again_at(edition, count, &mut heads, &mut queue, i, run)?;
        Ok(Looks {
            edition,
            count,
            heads,
            bits,
            queue,
            next,
        })
    }

    /// Ends the marking, when no object waits: what a survey by marks would find. It looks at no word of the heap, so
    /// it costs by the bits and the roots. If the objects that were looked at are in these words as they must be, and
    /// the roots lead to objects that were met, it is found of the heap of these words and roots: then no part that
    /// slides is refused. And whether or not they are, `slid_is_sound` says what a slide of all parts shows.
    pub fn finish(self, alloc: Global, roots: &[u64]) -> Result<Places, FinishFault>
        ensures edition { IfOk result (λ places. places.edition ≡ self.edition) }
        ensures count { IfOk result (λ places. places.count ≡ self.count) }
        ensures found { IfOk result (λ places. (heap : Heap) × IsFoundOf places heap) }
        ensures few_roots { IfOk result (λ _. length roots.now ≤ most_roots self.edition) }
        ensures roots { IfOk result (λ places. All (IsValue places.edition places.marks) roots.now) }
        ensures looked { IfOk result (λ places. (words : List ℕ) → length words ≡ self.count → AreLooked self words → IsFoundOf places (heap_now places words roots.now)) }
        ensures fault { IfErr result (IsFinishFault self roots.now) }
    {
        if self.next < self.queue.len() {
            return Err(FinishFault::StillWaiting);
        }
        match Places::of_bits(
            alloc,
            self.edition,
            self.count,
            roots,
            &self.heads,
            &self.bits,
        ) {
            Ok(places) => Ok(places),
            Err(fault) => Err(FinishFault::Bits(fault)),
        }
    }
}

/// Where nobody wrote since to the objects that were looked at, but to data words, what is known of the words of before
/// is known of those of now. So with `look_again` of each object to which somebody wrote, it is known of the words of
/// now.
pub fn same_is_looked()
    ensures { (looking : Looking) (before now : List ℕ) → length before ≡ length now → AreSame looking before now → AreLooked looking before → AreLooked looking now }
{}

/// An object none of whose cards was written to is the same. A card has 64 words: `clean` says of which nobody wrote to
/// since. So a runtime whose stores mark a card looks again at the objects with a word on such a card, and at no
/// others.
pub fn clean_is_same()
    ensures { (edition : Edition) (before now : List ℕ) (clean : ℕ → Bool) (i : ℕ) → length before ≡ length now
        → ((j : ℕ) → j < length before → clean (j / 64) ≡ true → slice_index before j ≡ slice_index now j) → IsPlaced edition before i
        → ((j : ℕ) → IsWordOf edition before i j → clean (j / 64) ≡ true) → IsSameAt edition before now i }
{}
