//! What the roots reach, and where it slides.
ghost use Rattle.std.specs.Prelude.{◌≡◌, ℕ, ◌+◌, ◌/◌, ◌<◌, ◌≤◌, false, true, length, drop, map, take, slice_index, All, IfErr, IfOk, OnErr, OnOk};
ghost use Rattle.std.specs.Option.{option_map};
ghost use Rattle.heap_layout.specs.Heap.{live, is_value, IsValue};
ghost use Rattle.page_plan.specs.Sliding.{forward_value, live_words};
ghost use Rattle.rest_marks.specs.Reached.{AreReached, IsSound, IsFaultOf};
ghost use Rattle.rest_slide.specs.Settled.{lowered, settled_word, settled_words};
ghost use Rattle.rest_marks.specs.Surveys.{heap_of, marks_of, with_roots};
ghost use Rattle.rest_marks.specs.Marks.{IsMarksFaultOf};
ghost use Rattle.rest_marks.specs.Places.{IsFoundOf};
ghost use Rattle.stopped_heap.specs.Tables.{IsLentFaultOf, IsMarksLentFaultOf};

use crate::lending::{fill, fill_by_marks};
use crate::making::{Found, tables_of};
use crate::places::Places;
use crate::tables::{NotSurveyed, NotTaken, Tables};
use heap_layout::{Edition, FROM_SPACE};
use rest_marks::{
    LentFault, MarksFault, MarksLentFault, SurveyFault, below, check_kept, is_kept, offsets,
    put_starts, settle_all, starts_of, take_marks,
};
use rest_slide::slide_part;
use std::alloc::Global;
use std::marker::Model;

/// What the roots of a heap reach, and where it slides. It borrows the words of the heap, so that nothing is written
/// there as long as it lives: what was found is so for all its calls. Beside them it keeps two bits a word, and 8
/// bytes for each 64 words. Contracts see the edition, the words, the indices of the live objects as `marks`, and the
/// room of its tables; `heap_of` is the heap of these with no roots.
#[derive(Drop)]
pub struct Survey<'w> {
    pub(crate) edition: Edition,
    pub(crate) words: &'w [u64],
    pub(crate) room: usize,
    pub(crate) heads: Vec<u64>,
    pub(crate) bits: Vec<u64>,
    pub(crate) counts: Vec<u32>,
    pub(crate) starts: Vec<u32>,
    pub(crate) queue: Vec<u32>,
}

impl<'w> Model for Survey<'w> {
    ghost use Rattle.std.specs.Prelude.{◌≡◌, ◌+◌, ◌*◌, ◌/◌, ◌≤◌, length, vec_capacity};
    ghost use Rattle.rest_marks.specs.Starts.{AreStarts};
    ghost use Rattle.rest_marks.specs.Surveys.{surveyed, Surveyed, AreTables};
    ghost use Rattle.stopped_heap.specs.Tables.{HaveRoom};

    ghost Value = { Surveyed };

    ghost view = { λ survey. surveyed survey.edition survey.words.now survey.heads.items survey.room };

    ghost invariant = { λ survey. AreTables survey.edition survey.words.now survey.heads.items survey.bits.items survey.counts.items
        × HaveRoom survey.room (vec_capacity survey.heads) (vec_capacity survey.bits) (vec_capacity survey.counts) (vec_capacity survey.queue)
        × AreStarts survey.heads.items survey.starts.items × (survey.room ≤ 64 * vec_capacity survey.starts)
        × (length survey.heads.items ≡ (length survey.words.now + 63) / 64) };
}

impl<'w> Survey<'w> {
    /// Surveys the heap of these words and roots: finds what the roots reach, and where it slides. It looks at no word
    /// that is not in a reached object, and costs by what is reached, and by some bits a word. Err with `TooLarge` if
    /// there are too many words or roots for the edition; if not, with a fault that is there, or with `OutOfMemory`.
    pub fn of(
        alloc: Global,
        edition: Edition,
        words: &'w [u64],
        roots: &[u64],
    ) -> Result<Survey<'w>, SurveyFault>
        ensures reached { IfOk result (λ survey. AreReached edition words.now roots.now survey.marks) }
        ensures sound { IfOk result (λ survey. IsSound (with_roots survey roots.now)) }
        ensures words { IfOk result (λ survey. survey.words ≡ words.now) }
        ensures edition { IfOk result (λ survey. survey.edition ≡ edition) }
        ensures room { IfOk result (λ survey. survey.room ≡ 0) }
        ensures fault { IfErr result (IsFaultOf edition words.now roots.now) }
    {
        let Found {
            heads,
            bits,
            counts,
        } = tables_of(alloc, edition, words, roots)?;
        let starts = starts_of(alloc, &heads)?;
        Ok(Survey {
            edition,
            words,
            room: 0,
            heads,
            bits,
            counts,
            starts,
            queue: Vec::new(alloc),
        })
    }

    /// Surveys as `of` does, in tables that were made before, with no allocation, so that `OutOfMemory` never comes.
    /// Err if the words or roots are too many for the edition; if not, if the tables have room for fewer words; and if
    /// not, with a fault of the heap. The tables come back with the fault, with the room that they had. They are
    /// cleared for these words only, and not for all their room.
    pub fn of_lent(
        tables: Tables,
        edition: Edition,
        words: &'w [u64],
        roots: &[u64],
    ) -> Result<Survey<'w>, NotSurveyed>
        ensures reached { IfOk result (λ survey. AreReached edition words.now roots.now survey.marks) }
        ensures sound { IfOk result (λ survey. IsSound (with_roots survey roots.now)) }
        ensures words { IfOk result (λ survey. survey.words ≡ words.now) }
        ensures edition { IfOk result (λ survey. survey.edition ≡ edition) }
        ensures room { IfOk result (λ survey. survey.room ≡ tables.room) }
        ensures fits { IfOk result (λ _. length words.now ≤ tables.room) }
        ensures fault { IfErr result (λ refused. IsLentFaultOf edition words.now roots.now tables.room refused.fault) }
        ensures back { IfErr result (λ refused. refused.tables.room ≡ tables.room) }
    {
        if words.len() > edition.max_words() || roots.len() > edition.max_roots() {
            let fault = LentFault::Survey(SurveyFault::TooLarge);
            return Err(NotSurveyed { fault, tables });
        }
        if words.len() > tables.room {
            let fault = LentFault::ShortTables(tables.room as u64);
            return Err(NotSurveyed { fault, tables });
        }
        let Tables {
            room,
            mut heads,
            mut bits,
            mut counts,
            mut starts,
            mut queue,
        } = tables;
        let filled = fill(
            edition,
            words,
            roots,
            &mut heads,
            &mut bits,
            &mut counts,
            &mut queue,
        );
        if let Err(fault) = filled {
            let tables = Tables {
                room,
                heads,
                bits,
                counts,
                starts,
                queue,
            };
            let fault = LentFault::Survey(fault);
            return Err(NotSurveyed { fault, tables });
        }
        put_starts(&heads, &mut starts);
        Ok(Survey {
            edition,
            words,
            room,
            heads,
            bits,
            counts,
            starts,
            queue,
        })
    }

    /// Lets the words go, and keeps what was found. The heap that was surveyed is one of which that was found.
    pub fn release(self) -> Places
        ensures found { IsFoundOf result (heap_of self.entry) }
        ensures room { result.room ≡ self.entry.room }
    {
        let Survey {
            edition,
            words,
            room,
            heads,
            bits,
            counts,
            starts,
            queue,
        } = self;
        Places {
            edition,
            count: words.len(),
            room,
            heads,
            bits,
            counts,
            starts,
            queue,
        }
    }

    /// Gives the tables back in which it was made, with the room that they had. Those of `of`, `of_by_threads` and
    /// `of_marks` have room for no words.
    pub fn into_tables(self) -> Tables
        ensures { result.room ≡ self.entry.room }
    {
        self.release().into_tables()
    }

    /// Surveys the heap of these words and roots by marks of the caller's own: its marked objects are those at the set
    /// bits of `marks`, one bit for each word. It looks at no word that is not in a marked object. Err if the words or
    /// roots are too many for the edition; if not, with `WrongLength`, if there is not one block of bits for each 64
    /// words; and if not, with a fault that is there, or with `OutOfMemory`: each root, and each reference of a marked
    /// object, must lead to a marked object, so that nothing that the roots reach is lost.
    pub fn of_marks(
        alloc: Global,
        edition: Edition,
        words: &'w [u64],
        roots: &[u64],
        marks: &[u64],
    ) -> Result<Survey<'w>, MarksFault>
        ensures marks { IfOk result (λ survey. survey.marks ≡ marks_of marks.now) }
        ensures sound { IfOk result (λ survey. IsSound (with_roots survey roots.now)) }
        ensures words { IfOk result (λ survey. survey.words ≡ words.now) }
        ensures edition { IfOk result (λ survey. survey.edition ≡ edition) }
        ensures long { IfOk result (λ _. length marks.now ≡ (length words.now + 63) / 64) }
        ensures room { IfOk result (λ survey. survey.room ≡ 0) }
        ensures fault { IfErr result (IsMarksFaultOf edition words.now roots.now marks.now) }
    {
        if words.len() > edition.max_words() || roots.len() > edition.max_roots() {
            return Err(MarksFault::TooLarge);
        }
        let blocks = words.len().div_ceil(64);
        if marks.len() != blocks {
            return Err(MarksFault::WrongLength);
        }
        if let Err(k) = check_kept(edition, marks, roots) {
            return Err(MarksFault::BadRoot(k as u64));
        }
        let mut bits = vec![in alloc; 0u64; blocks]?;
        if let Err(fault) = take_marks(edition, words, marks, &mut bits) {
            return Err(fault);
        }
        let heads = Vec::from_slice(alloc, marks)?;
        let counts = offsets(alloc, &bits)?;
        let starts = starts_of(alloc, marks)?;
        Ok(Survey {
            edition,
            words,
            room: 0,
            heads,
            bits,
            counts,
            starts,
            queue: Vec::new(alloc),
        })
    }

    /// Surveys as `of_marks` does, in tables that were made before, with no allocation, so that `OutOfMemory` never
    /// comes. Err if the words or roots are too many for the edition; if not, if the tables have room for fewer words;
    /// if not, with `WrongLength`; and if not, with a fault of the words, the roots or the marks. The tables come back
    /// with the fault, with the room that they had.
    pub fn of_marks_lent(
        tables: Tables,
        edition: Edition,
        words: &'w [u64],
        roots: &[u64],
        marks: &[u64],
    ) -> Result<Survey<'w>, NotTaken>
        ensures marks { IfOk result (λ survey. survey.marks ≡ marks_of marks.now) }
        ensures sound { IfOk result (λ survey. IsSound (with_roots survey roots.now)) }
        ensures words { IfOk result (λ survey. survey.words ≡ words.now) }
        ensures edition { IfOk result (λ survey. survey.edition ≡ edition) }
        ensures long { IfOk result (λ _. length marks.now ≡ (length words.now + 63) / 64) }
        ensures room { IfOk result (λ survey. survey.room ≡ tables.room) }
        ensures fits { IfOk result (λ _. length words.now ≤ tables.room) }
        ensures fault { IfErr result (λ refused. IsMarksLentFaultOf edition words.now roots.now marks.now tables.room refused.fault) }
        ensures back { IfErr result (λ refused. refused.tables.room ≡ tables.room) }
    {
        if words.len() > edition.max_words() || roots.len() > edition.max_roots() {
            let fault = MarksLentFault::Marks(MarksFault::TooLarge);
            return Err(NotTaken { fault, tables });
        }
        if tables.room < words.len() {
            let fault = MarksLentFault::ShortTables(tables.room as u64);
            return Err(NotTaken { fault, tables });
        }
        if marks.len() != words.len().div_ceil(64) {
            let fault = MarksLentFault::Marks(MarksFault::WrongLength);
            return Err(NotTaken { fault, tables });
        }
        let Tables {
            room,
            mut heads,
            mut bits,
            mut counts,
            mut starts,
            queue,
        } = tables;
        let filled = fill_by_marks(
            edition,
            words,
            roots,
            marks,
            &mut heads,
            &mut bits,
            &mut counts,
        );
        if let Err(fault) = filled {
            let tables = Tables {
                room,
                heads,
                bits,
                counts,
                starts,
                queue,
            };
            let fault = MarksLentFault::Marks(fault);
            return Err(NotTaken { fault, tables });
        }
        put_starts(marks, &mut starts);
        Ok(Survey {
            edition,
            words,
            room,
            heads,
            bits,
            counts,
            starts,
            queue,
        })
    }

    /// How many words the live objects have.
    pub fn live_words(&self) -> u64
        ensures { result ≡ live_words (live (heap_of self.now)) }
    {
        u64::from(self.counts[self.bits.len()])
    }

    /// Where a word leads after the collection: null to null, an immediate to itself, the address of a live object to
    /// the address that it has then. None for every other word. Takes constant time.
    pub fn forward(&self, word: u64) -> Option<u64>
        ensures { result ≡ option_map (lowered self.now.edition) (forward_value self.now.edition (live (heap_of self.now)) word) }
    {
        if word == 0 || self.edition.is_immediate(word) {
            return Some(word);
        }
        if !is_kept(&self.heads, word) {
            return None;
        }
        Some(FROM_SPACE + below(&self.bits, &self.counts, (word - FROM_SPACE) as usize))
    }

    /// Fills a part of the memory into which the heap slides: with the words that stand there after the collection,
    /// from word `first` on. Calls for several parts may run at once. The part must end within the live words.
    pub fn slide(&self, first: u64, part: &mut [u64])
        requires { first + length part.old ≤ live_words (live (heap_of self.now)) }
        ensures { part.new ≡ take (length part.old) (drop first (settled_words (live (heap_of self.now)))) }
    {
        slide_part(
            self.edition,
            self.words,
            &self.heads,
            &self.bits,
            &self.counts,
            &self.starts,
            first,
            part,
        );
    }

    /// Makes these roots lead to where their objects are after the collection. Err with the number of the first root
    /// that is neither null nor the address of a live object, nor an immediate; then the roots are as they were.
    pub fn forward_roots(&self, roots: &mut [u64]) -> Result<(), usize>
        ensures all { OnOk result (All (IsValue self.now.edition self.now.marks) roots.old) }
        ensures forwarded { OnOk result (roots.new ≡ map (settled_word self.now.edition (live (heap_of self.now))) roots.old) }
        ensures inside { IfErr result (λ k. k < length roots.old) }
        ensures stray { IfErr result (λ k. is_value self.now.edition self.now.marks (slice_index roots.old k) ≡ false) }
        ensures first { IfErr result (λ k. (j : ℕ) → j < k → is_value self.now.edition self.now.marks (slice_index roots.old j) ≡ true) }
        ensures stay { OnErr result (roots.new ≡ roots.old) }
    {
        if let Err(k) = check_kept(self.edition, &self.heads, roots) {
            return Err(k);
        }
        settle_all(self.edition, &self.heads, &self.bits, &self.counts, roots);
        Ok(())
    }

    /// Makes these weak words, of tables of the caller's own, lead to where their objects are after the collection. One
    /// that leads to no live object becomes null, and an immediate stays.
    pub fn forward_weak(&self, words: &mut [u64])
        ensures { words.new ≡ map (settled_word self.now.edition (live (heap_of self.now))) words.old }
    {
        settle_all(self.edition, &self.heads, &self.bits, &self.counts, words);
    }
}
