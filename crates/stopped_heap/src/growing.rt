//! A survey that grows. It marks what roots reach; then what more roots reach, at the cost of what they newly reach;
//! and in between it says whether an object is kept so far. So a runtime has what weak words alone do not give: values
//! that live as long as their keys (ephemerons), and objects that are seen once more before they go (guardians).
ghost use Rattle.std.specs.Prelude.{◌≡◌, ℕ, ◌<◌, ◌≤◌, List, [], ◌++◌, length, vec_capacity, All, IfErr, IfOk, OnOk};
ghost use Rattle.heap_layout.specs.Heap.{is_value, IsValue};
ghost use Rattle.stopped_heap.specs.Ephemerons.{AreHeld, IsHeldFaultOf};
ghost use Rattle.rest_marks.specs.Growing.{roots_on, AreReady, IsGrown, IsGrownIn, IsMoreFaultOf, IsSeenFaultOf};
ghost use Rattle.rest_marks.specs.Marks.{AllKept};
ghost use Rattle.rest_marks.specs.Reached.{AreReached, IsFaultOf};
ghost use Rattle.rest_marks.specs.Surveys.{marks_of};
ghost use Rattle.stopped_heap.specs.Tables.{IsLentFaultOf};
ghost use Rattle.rest_marks.specs.declared.fault.SurveyFault.TheVariants as survey;

use crate::ephemerons::keep_values;
use crate::lending::clear;
use crate::survey::Survey;
use crate::tables::{NotSurveyed, Tables};
use heap_layout::Edition;
use rest_marks::{LentFault, SurveyFault, leads_to, mark_in, put_offsets, put_starts};
use std::alloc::Global;
use std::marker::Model;

/// What the roots of a heap reach so far. It borrows the words of the heap, so that nothing is written there as long as
/// it lives. Contracts see the edition, the words, the indices of the objects that are kept so far as `marks`, and the
/// room of its tables, as those of a survey.
#[derive(Drop)]
pub struct Growing<'w> {
    pub(crate) edition: Edition,
    pub(crate) words: &'w [u64],
    pub(crate) room: usize,
    pub(crate) heads: Vec<u64>,
    pub(crate) bits: Vec<u64>,
    pub(crate) counts: Vec<u32>,
    pub(crate) starts: Vec<u32>,
    pub(crate) queue: Vec<u32>,
}

impl<'w> Model for Growing<'w> {
    ghost use Rattle.std.specs.Prelude.{◌+◌, ◌*◌, ◌≤◌, length, vec_capacity};
    ghost use Rattle.rest_marks.specs.Growing.{IsGrown};
    ghost use Rattle.rest_marks.specs.Surveys.{surveyed, Surveyed};
    ghost use Rattle.stopped_heap.specs.Tables.{HaveRoom};

    ghost Value = { Surveyed };

    ghost view = { λ growing. surveyed growing.edition growing.words.now growing.heads.items growing.room };

    ghost invariant = { λ growing. IsGrown growing.edition growing.words.now growing.queue.items growing.heads.items growing.bits.items
        × HaveRoom growing.room (vec_capacity growing.heads) (vec_capacity growing.bits) (vec_capacity growing.counts) (vec_capacity growing.queue)
        × (length growing.bits.items + 1 ≤ vec_capacity growing.counts) × (length growing.heads.items ≤ vec_capacity growing.starts)
        × (growing.room ≤ 64 * vec_capacity growing.starts) };
}

/// Marks what more roots reach, beside what was marked.
pub(crate) fn grow(
    edition: Edition,
    words: &[u64],
    more: &[u64],
    heads: &mut [u64],
    bits: &mut [u64],
    queue: &mut Vec<u32>,
) -> Result<(), SurveyFault>
    requires grown { IsGrown edition words.now queue.old.items heads.old bits.old }
    ensures grown { OnOk result (IsGrown edition words.now queue.new.items heads.new bits.new) }
    ensures reached { OnOk result (AreReached edition words.now (roots_on (marks_of heads.old) more.now) (marks_of heads.new)) }
    ensures leads { OnOk result (AllKept edition heads.new more.now) }
    ensures fault { IfErr result (IsMoreFaultOf edition words.now (marks_of heads.old) more.now) }
    ensures short { IfErr result (λ fault. fault ≡ survey.OutOfMemory → vec_capacity queue.old < length words.now) }
    ensures same { length heads.new ≡ length heads.old }
    ensures long { length bits.new ≡ length bits.old }
    ensures capacity { vec_capacity queue.old ≤ vec_capacity queue.new }
{
    if let Err(fault) = grow_in(edition, words, more, heads, bits, queue) {
        return Err(fault);
    }
    Ok(())
}

/// Marks what more roots reach in words that may have been written to since. Whatever words were seen then, and are the
/// same where no bit is set: of these is all that is found.
pub(crate) fn grow_in(
    edition: Edition,
    words: &[u64],
    more: &[u64],
    heads: &mut [u64],
    bits: &mut [u64],
    queue: &mut Vec<u32>,
) -> Result<(), SurveyFault>
    requires ready { AreReady edition (length words.now) queue.old.items heads.old bits.old }
    ensures ready { OnOk result (AreReady edition (length words.now) queue.new.items heads.new bits.new) }
    ensures grown { OnOk result ((seen : List ℕ) → IsGrownIn edition words.now seen queue.old.items heads.old bits.old → IsGrownIn edition words.now seen queue.new.items heads.new bits.new) }
    ensures reached { OnOk result ((seen : List ℕ) → IsGrownIn edition words.now seen queue.old.items heads.old bits.old → AreReached edition seen (roots_on (marks_of heads.old) more.now) (marks_of heads.new)) }
    ensures leads { OnOk result ((seen : List ℕ) → IsGrownIn edition words.now seen queue.old.items heads.old bits.old → AllKept edition heads.new more.now) }
    ensures fault { IfErr result (λ fault. (seen : List ℕ) → IsGrownIn edition words.now seen queue.old.items heads.old bits.old → IsSeenFaultOf edition words.now seen (marks_of heads.old) more.now fault) }
    ensures short { IfErr result (λ fault. fault ≡ survey.OutOfMemory → vec_capacity queue.old < length words.now) }
    ensures same { length heads.new ≡ length heads.old }
    ensures long { length bits.new ≡ length bits.old }
    ensures capacity { vec_capacity queue.old ≤ vec_capacity queue.new }
{
    if more.len() > edition.max_roots() {
        return Err(SurveyFault::TooLarge);
    }
    if let Err(fault) = mark_in(edition, words, more, heads, bits, queue) {
        return Err(fault);
    }
    Ok(())
}

/// Why a survey did not grow, and the tables that it had.
#[derive(Drop)]
pub struct NotGrown {
    pub fault: SurveyFault,
    pub tables: Tables,
}

impl<'w> Growing<'w> {
    /// Begins a survey of these words, which has marked nothing. Err if they are too many, or memory runs out.
    pub fn begin(
        alloc: Global,
        edition: Edition,
        words: &'w [u64],
    ) -> Result<Growing<'w>, SurveyFault>
        ensures none { IfOk result (λ growing. growing.marks ≡ []) }
        ensures words { IfOk result (λ growing. growing.words ≡ words.now) }
        ensures edition { IfOk result (λ growing. growing.edition ≡ edition) }
        ensures room { IfOk result (λ growing. growing.room ≡ 0) }
        ensures fault { IfErr result (IsFaultOf edition words.now []) }
    {
        if words.len() > edition.max_words() {
            return Err(SurveyFault::TooLarge);
        }
        let blocks = words.len().div_ceil(64);
        let heads = vec![in alloc; 0u64; blocks]?;
        let bits = vec![in alloc; 0u64; blocks]?;
        let counts = Vec::with_capacity(alloc, blocks + 1)?;
        let starts = Vec::with_capacity(alloc, blocks)?;
        Ok(Growing {
            edition,
            words,
            room: 0,
            heads,
            bits,
            counts,
            starts,
            queue: Vec::new(alloc),
        })
    }

    /// Begins a survey in tables that were made before, with no allocation, now and when it grows. It has marked
    /// nothing. Err if the words are too many for the edition; and if not, if the tables have room for fewer words.
    /// They come back with the fault.
    pub fn begin_lent(
        tables: Tables,
        edition: Edition,
        words: &'w [u64],
    ) -> Result<Growing<'w>, NotSurveyed>
        ensures none { IfOk result (λ growing. growing.marks ≡ []) }
        ensures words { IfOk result (λ growing. growing.words ≡ words.now) }
        ensures edition { IfOk result (λ growing. growing.edition ≡ edition) }
        ensures room { IfOk result (λ growing. growing.room ≡ tables.room) }
        ensures fits { IfOk result (λ _. length words.now ≤ tables.room) }
        ensures fault { IfErr result (λ refused. IsLentFaultOf edition words.now [] tables.room refused.fault) }
        ensures back { IfErr result (λ refused. refused.tables.room ≡ tables.room) }
    {
        if words.len() > edition.max_words() {
            let fault = LentFault::Survey(SurveyFault::TooLarge);
            return Err(NotSurveyed { fault, tables });
        }
        if words.len() > tables.room {
            let fault = LentFault::ShortTables(tables.room as u64);
            return Err(NotSurveyed { fault, tables });
        }
        let Tables {
            room,
            mut heads,
            mut bits,
            counts,
            starts,
            mut queue,
        } = tables;
        let blocks = words.len().div_ceil(64);
        clear(&mut heads, blocks);
        clear(&mut bits, blocks);
        queue.clear();
        Ok(Growing {
            edition,
            words,
            room,
            heads,
            bits,
            counts,
            starts,
            queue,
        })
    }

    /// Marks what more roots reach, beside what is kept so far. It looks at no word of an object that is kept already.
    /// If what was kept is what some roots reach, it is then what these and the more ones reach together.
    ///
    /// Err with `TooLarge` if the more roots are too many for the edition; if not, with a fault that is there, or with
    /// `OutOfMemory`, which never comes if the tables have room for the words. Then the survey is over, and its tables
    /// come back, with the room that they had.
    pub fn also(self, more: &[u64]) -> Result<Growing<'w>, NotGrown>
        ensures grown { IfOk result (λ after. AreReached self.entry.edition self.entry.words (roots_on self.entry.marks more.now) after.marks) }
        ensures together { IfOk result (λ after. (roots : List ℕ) → AreReached self.entry.edition self.entry.words roots self.entry.marks
            → AreReached self.entry.edition self.entry.words (roots ++ more.now) after.marks) }
        ensures leads { IfOk result (λ after. All (IsValue self.entry.edition after.marks) more.now) }
        ensures words { IfOk result (λ after. after.words ≡ self.entry.words) }
        ensures edition { IfOk result (λ after. after.edition ≡ self.entry.edition) }
        ensures room { IfOk result (λ after. after.room ≡ self.entry.room) }
        ensures fault { IfErr result (λ refused. IsMoreFaultOf self.entry.edition self.entry.words self.entry.marks more.now refused.fault) }
        ensures lent { IfErr result (λ refused. refused.fault ≡ survey.OutOfMemory → self.entry.room < length self.entry.words) }
        ensures back { IfErr result (λ refused. refused.tables.room ≡ self.entry.room) }
    {
        let Growing {
            edition,
            words,
            room,
            mut heads,
            mut bits,
            counts,
            starts,
            mut queue,
        } = self;
        let grown = grow(edition, words, more, &mut heads, &mut bits, &mut queue);
        if let Err(fault) = grown {
            let tables = Tables {
                room,
                heads,
                bits,
                counts,
                starts,
                queue,
            };
            return Err(NotGrown { fault, tables });
        }
        Ok(Growing {
            edition,
            words,
            room,
            heads,
            bits,
            counts,
            starts,
            queue,
        })
    }

    /// Keeps the values of ephemerons: of those whose holder and key are kept, or immediates, and of those whose holder
    /// and key are kept then, and so on; and all that they reach. An ephemeron is three words, holder, key and value;
    /// words behind the last three are not looked at. A holder or key that is null is not kept.
    ///
    /// Each round asks all of them, and the last one finds none. After some rounds that kept little it looks up what
    /// they kept in an index, of 8 bytes an ephemeron, which stays as long as the survey. So it costs as the ephemerons
    /// and what they keep, times a logarithm. Lent tables have room for an index of one ephemeron in 64 words; with
    /// more, or without memory, there are rounds alone. Err with a fault that is there, or with `OutOfMemory`, which
    /// never comes if the tables have room for the words. Then the survey is over, and its tables come back, with the
    /// room that they had.
    pub fn also_values(self, ephemerons: &[u64]) -> Result<Growing<'w>, NotGrown>
        ensures held { IfOk result (λ after. AreHeld self.entry.edition self.entry.words self.entry.marks ephemerons.now after.marks) }
        ensures words { IfOk result (λ after. after.words ≡ self.entry.words) }
        ensures edition { IfOk result (λ after. after.edition ≡ self.entry.edition) }
        ensures room { IfOk result (λ after. after.room ≡ self.entry.room) }
        ensures fault { IfErr result (λ refused. IsHeldFaultOf self.entry.edition self.entry.words self.entry.marks ephemerons.now refused.fault) }
        ensures lent { IfErr result (λ refused. refused.fault ≡ survey.OutOfMemory → self.entry.room < length self.entry.words) }
        ensures back { IfErr result (λ refused. refused.tables.room ≡ self.entry.room) }
    {
        let Growing {
            edition,
            words,
            room,
            mut heads,
            mut bits,
            mut counts,
            mut starts,
            mut queue,
        } = self;
        let kept = keep_values(
            edition,
            words,
            ephemerons,
            room > 0,
            &mut heads,
            &mut bits,
            &mut counts,
            &mut starts,
            &mut queue,
        );
        if let Err(fault) = kept {
            let tables = Tables {
                room,
                heads,
                bits,
                counts,
                starts,
                queue,
            };
            return Err(NotGrown { fault, tables });
        }
        Ok(Growing {
            edition,
            words,
            room,
            heads,
            bits,
            counts,
            starts,
            queue,
        })
    }

    /// Whether a word leads to an object that is kept so far. Null and immediates lead to none, and are kept too. Takes
    /// constant time.
    pub fn keeps(&self, word: u64) -> bool
        ensures { result ≡ is_value self.now.edition self.now.marks word }
    {
        leads_to(self.edition, &self.heads, word)
    }

    /// Where all slides that is kept: the survey of it. It takes no memory, and is done by some bits a word.
    pub fn settle(self) -> Survey<'w>
        ensures edition { result.edition ≡ self.entry.edition }
        ensures words { result.words ≡ self.entry.words }
        ensures marks { result.marks ≡ self.entry.marks }
        ensures room { result.room ≡ self.entry.room }
    {
        let Growing {
            edition,
            words,
            room,
            heads,
            bits,
            mut counts,
            mut starts,
            queue,
        } = self;
        put_offsets(&bits, &mut counts);
        put_starts(&heads, &mut starts);
        Survey {
            edition,
            words,
            room,
            heads,
            bits,
            counts,
            starts,
            queue,
        }
    }
}
