//! A survey that grows and keeps no words: they are handed in at each call. So a handle may keep it between two calls.
ghost use Rattle.std.specs.Prelude.{◌≡◌, ℕ, ◌≤◌, List, [], length, All, IfErr, IfOk};
ghost use Rattle.heap_layout.specs.Heap.{is_value, Heap, IsValue};
ghost use Rattle.stopped_heap.specs.Growth.{HasGrown, HasHeld, IsFoundIn};
ghost use Rattle.rest_marks.specs.Places.{IsFoundOf};
ghost use Rattle.rest_marks.specs.Reached.{IsFaultOf};
ghost use Rattle.stopped_heap.specs.Tables.{IsLentFaultOf};

use crate::ephemerons::keep_values;
use crate::growing::{Growing, NotGrown, grow_in};
use crate::places::Places;
use crate::tables::{NotSurveyed, Tables};
use heap_layout::Edition;
use rest_marks::{SurveyFault, leads_to, put_offsets, put_starts};
use std::alloc::Global;
use std::marker::Model;

/// What roots reach so far, without the words in which it was found. Nothing is borrowed, so anything may have been
/// written to the words between two calls, and no call asks that they are as they were. Contracts see what was found so
/// far, as those of `Places` do.
///
/// Words of objects that are kept already are not looked at again. If these objects have as many words as when they
/// were found, and lead to one another, then all is as if the words had not changed. If not, what is found is so in the
/// words of before where objects are kept, and in those of the call elsewhere; and `Places::try_slide` tells which
/// object changed.
#[derive(Drop)]
pub struct Growth {
    pub(crate) edition: Edition,
    pub(crate) count: usize,
    pub(crate) room: usize,
    pub(crate) heads: Vec<u64>,
    pub(crate) bits: Vec<u64>,
    pub(crate) counts: Vec<u32>,
    pub(crate) starts: Vec<u32>,
    pub(crate) queue: Vec<u32>,
}

impl Model for Growth {
    ghost use Rattle.std.specs.Prelude.{◌+◌, ◌*◌, ◌≤◌, length, vec_capacity};
    ghost use Rattle.stopped_heap.specs.Growth.{AreGrownOf};
    ghost use Rattle.rest_marks.specs.Places.{found_in, Found};
    ghost use Rattle.stopped_heap.specs.Tables.{HaveRoom};

    ghost Value = { Found };

    ghost view = { λ growth. found_in growth.edition growth.count growth.heads.items growth.bits.items growth.room };

    ghost invariant = { λ growth. AreGrownOf growth.edition growth.count growth.queue.items growth.heads.items growth.bits.items
        × HaveRoom growth.room (vec_capacity growth.heads) (vec_capacity growth.bits) (vec_capacity growth.counts) (vec_capacity growth.queue)
        × (length growth.bits.items + 1 ≤ vec_capacity growth.counts) × (length growth.heads.items ≤ vec_capacity growth.starts)
        × (growth.room ≤ 64 * vec_capacity growth.starts) };
}

/// Why a growth did not go on.
#[derive(Drop)]
pub enum NotGrowth {
    /// There are not as many words as it has. Nothing was looked at, and it comes back as it was.
    WrongLength(Growth),
    /// There is a fault, or memory ran out. It is over, and its tables come back.
    Over(NotGrown),
}

// The survey that grows, without its words.
fn paused(growing: Growing<'_>) -> Growth
    ensures found { IsFoundIn result growing.entry.words }
    ensures edition { result.edition ≡ growing.entry.edition }
    ensures count { result.count ≡ length growing.entry.words }
    ensures marks { result.marks ≡ growing.entry.marks }
    ensures room { result.room ≡ growing.entry.room }
{
    let Growing {
        edition,
        words,
        room,
        heads,
        bits,
        counts,
        starts,
        queue,
    } = growing;
    Growth {
        edition,
        count: words.len(),
        room,
        heads,
        bits,
        counts,
        starts,
        queue,
    }
}

impl Growth {
    ghost use Rattle.stopped_heap.specs.NotGrowth.{IsNotGrown, IsNotHeld};

    /// Begins a survey of these words, which has marked nothing. Err if they are too many, or memory runs out.
    pub fn begin(alloc: Global, edition: Edition, words: &[u64]) -> Result<Growth, SurveyFault>
        ensures none { IfOk result (λ growth. growth.marks ≡ []) }
        ensures found { IfOk result (λ growth. IsFoundIn growth words.now) }
        ensures edition { IfOk result (λ growth. growth.edition ≡ edition) }
        ensures count { IfOk result (λ growth. growth.count ≡ length words.now) }
        ensures room { IfOk result (λ growth. growth.room ≡ 0) }
        ensures fault { IfErr result (IsFaultOf edition words.now []) }
    {
        match Growing::begin(alloc, edition, words) {
            Ok(growing) => Ok(paused(growing)),
            Err(fault) => Err(fault),
        }
    }

    /// Begins a survey in tables that were made before, with no allocation, now and when it grows. It has marked
    /// nothing. Err if the words are too many for the edition; and if not, if the tables have room for fewer words.
    /// They come back with the fault.
    pub fn begin_lent(
        tables: Tables,
        edition: Edition,
        words: &[u64],
    ) -> Result<Growth, NotSurveyed>
        ensures none { IfOk result (λ growth. growth.marks ≡ []) }
        ensures found { IfOk result (λ growth. IsFoundIn growth words.now) }
        ensures edition { IfOk result (λ growth. growth.edition ≡ edition) }
        ensures count { IfOk result (λ growth. growth.count ≡ length words.now) }
        ensures room { IfOk result (λ growth. growth.room ≡ tables.room) }
        ensures fits { IfOk result (λ _. length words.now ≤ tables.room) }
        ensures fault { IfErr result (λ refused. IsLentFaultOf edition words.now [] tables.room refused.fault) }
        ensures back { IfErr result (λ refused. refused.tables.room ≡ tables.room) }
    {
        match Growing::begin_lent(tables, edition, words) {
            Ok(growing) => Ok(paused(growing)),
            Err(refused) => Err(refused),
        }
    }

    /// Marks what more roots reach, beside what is kept so far. It looks at no word of an object that is kept already.
    ///
    /// Err with `WrongLength` if there are not as many words as it has; then it comes back as it was. If there are,
    /// with `TooLarge` if the more roots are too many for the edition; if not, with a fault that is there, or with
    /// `OutOfMemory`, which never comes if the tables have room for the words. Then the survey is over, and its tables
    /// come back, with the room that they had.
    pub fn also(self, words: &[u64], more: &[u64]) -> Result<Growth, NotGrowth>
        ensures grown { IfOk result (HasGrown self words.now more.now) }
        ensures long { IfOk result (λ _. length words.now ≡ self.count) }
        ensures leads { IfOk result (λ after. All (IsValue self.edition after.marks) more.now) }
        ensures fault { IfErr result (IsNotGrown self words.now more.now) }
    {
        if words.len() != self.count {
            return Err(NotGrowth::WrongLength(self));
        }
        let Growth {
            edition,
            count,
            room,
            mut heads,
            mut bits,
            counts,
            starts,
            mut queue,
        } = self;
        let grown = grow_in(edition, words, more, &mut heads, &mut bits, &mut queue);
        if let Err(fault) = grown {
            let tables = Tables {
                room,
                heads,
                bits,
                counts,
                starts,
                queue,
            };
            return Err(NotGrowth::Over(NotGrown { fault, tables }));
        }
        Ok(Growth {
            edition,
            count,
            room,
            heads,
            bits,
            counts,
            starts,
            queue,
        })
    }

    /// Keeps the values of ephemerons, as `Growing::also_values` does. Err as that of `also`; a bad root is a value.
    pub fn also_values(self, words: &[u64], ephemerons: &[u64]) -> Result<Growth, NotGrowth>
        ensures held { IfOk result (HasHeld self words.now ephemerons.now) }
        ensures long { IfOk result (λ _. length words.now ≡ self.count) }
        ensures fault { IfErr result (IsNotHeld self words.now ephemerons.now) }
    {
        if self.count != words.len() {
            return Err(NotGrowth::WrongLength(self));
        }
        let Growth {
            edition,
            count,
            room,
            mut heads,
            mut bits,
            mut counts,
            mut starts,
            mut queue,
        } = self;
        let kept = keep_values(
            edition,
            words,
            ephemerons,
            room > 0,
            &mut heads,
            &mut bits,
            &mut counts,
            &mut starts,
            &mut queue,
        );
        if let Err(fault) = kept {
            let tables = Tables {
                room,
                heads,
                bits,
                counts,
                starts,
                queue,
            };
            return Err(NotGrowth::Over(NotGrown { fault, tables }));
        }
        Ok(Growth {
            edition,
            count,
            room,
            heads,
            bits,
            counts,
            starts,
            queue,
        })
    }

    /// Whether a word leads to an object that is kept so far. Null and immediates lead to none, and are kept too. Takes
    /// constant time.
    pub fn keeps(&self, word: u64) -> bool
        ensures { result ≡ is_value self.now.edition self.now.marks word }
    {
        leads_to(self.edition, &self.heads, word)
    }

    /// How many objects are kept so far.
    pub fn kept(&self) -> u64
        ensures { result ≡ length self.now.marks }
    {
        self.queue.len() as u64
    }

    /// Where all slides that is kept. It takes no memory, and is done by some bits a word.
    pub fn settle(self) -> Places
        ensures same { result ≡ self }
        ensures found { (heap : Heap) × IsFoundOf result heap }
    {
        let Growth {
            edition,
            count,
            room,
            heads,
            bits,
            mut counts,
            mut starts,
            queue,
        } = self;
        put_offsets(&bits, &mut counts);
        put_starts(&heads, &mut starts);
        Places {
            edition,
            count,
            room,
            heads,
            bits,
            counts,
            starts,
            queue,
        }
    }

    /// Gives its tables back, with the room that they had.
    pub fn into_tables(self) -> Tables
        ensures { result.room ≡ self.room }
    {
        let Growth {
            edition: _,
            count: _,
            room,
            heads,
            bits,
            counts,
            starts,
            queue,
        } = self;
        Tables {
            room,
            heads,
            bits,
            counts,
            starts,
            queue,
        }
    }
}
