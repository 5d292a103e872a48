//! A marking, from its beginning to its end.
ghost use Rattle.std.specs.Prelude.{◌≡◌, ◌≢◌, ℕ, ◌*◌, ◌^◌, ◌<◌, ◌≤◌, true, false, length, All, IfErr, IfNone, IfOk, IfSome, OnErr, OnOk};
ghost use Rattle.heap_layout.specs.Bits.{bit};
ghost use Rattle.heap_layout.specs.Heap.{Heap, from_address, IsValue};
ghost use Rattle.heap_layout.specs.Limits.{most_object_words, most_roots, most_words};
ghost use Rattle.rest_marks.specs.Places.{IsFoundOf};
ghost use Rattle.rest_marks.specs.Reached.{is_within};
ghost use Rattle.mark_job.specs.Heads.{AreAmong};
ghost use Rattle.mark_job.specs.Marking.{AreKept, AreMarked, IsBeginFaultOf, IsEndFaultOf, IsMeetFaultOf, IsTakingFaultOf, LeadsAstray, LeadWithin, MayBegin};

use crate::desk::{BATCH, zeros};
use crate::following::{Marks, index_of};
use crate::heads::{Blocks, Heads, Met};
use crate::help::Help;
use crate::lane::Lane;
use crate::marking_fault::{MarkingEnd, MarkingFault, MeetFault, WrongLength};
use crate::waiting::{Waiting, Wanted};
use heap_layout::{Edition, FROM_SPACE, is_set, set};
use std::alloc::{AllocError, Global};
use std::marker::Model;
use std::sync::atomic::{AtomicU64, Ordering};
use stopped_heap::{BitsFault, Places};

/// The marking of a heap by whichever threads help, over words that are lent at each call. Nothing is believed of them
/// between two calls, and nothing is kept of them but two bits a word: those of the objects that were met, and those of
/// the words of the objects at which a helper looked. Threads may share it, by reference or in an `Arc`. If it is
/// dropped, at whatever time, all that it holds is freed.
#[derive(Drop)]
pub struct Marking {
    marks: Marks,
    waiting: Waiting,
}

impl Model for Marking {
    ghost use Rattle.std.specs.Prelude.{◌≤◌};
    ghost use Rattle.heap_layout.specs.Limits.{most_words, most_object_words};
    ghost use Rattle.mark_job.specs.Met.{Begun};

    ghost Value = { Begun };

    ghost view = { λ marking. record { edition = marking.marks.edition; count = marking.marks.count; met = marking.marks.heads.table.shared.key; table = marking.marks.heads.table.shared.table_id } };

    ghost invariant = { λ marking. (marking.marks.count ≤ most_words marking.marks.edition) × (most_words marking.marks.edition ≤ most_object_words marking.marks.edition) };
}

// Whether a word is neither null nor the address of one of so many words, nor an immediate.
fn is_astray(edition: Edition, count: usize, word: u64) -> bool
    requires { count ≤ 2 ^ 31 }
    ensures astray { result ≡ true → is_within edition count word ≡ false }
    ensures within { result ≡ false → is_within edition count word ≡ true }
{
    word.wrapping_sub(FROM_SPACE) >= count as u64 && !edition.leads_nowhere(word)
}

// The number of the first of these words that is astray.
fn first_astray(edition: Edition, count: usize, words: &[u64]) -> Option<usize>
    requires { count ≤ 2 ^ 31 }
    ensures astray { IfSome result (LeadsAstray edition count words.now) }
    ensures within { IfNone result (LeadWithin edition count words.now) }
{
    for k in 0..words.len() {
        if is_astray(edition, count, words[k]) {
            return Some(k);
        }
    }
    None
}

// Sets the bit of the object to which a word leads, and puts the object at the end of a list, if its bit is not set.
fn begin_with(
    count: usize,
    heads: &mut [u64],
    objects: &mut Vec<u32>,
    word: u64,
) -> Result<(), AllocError>
    requires few { count ≤ 2 ^ 31 }
    requires room { count < 64 * length heads.old }
    ensures length { length heads.new ≡ length heads.old }
    ensures stay { AreAmong heads.old heads.new }
    ensures marked { OnOk result ((i : ℕ) → i < count → word ≡ from_address i → bit heads.new i ≡ true) }
{
    let Some(i) = index_of(count, word) else {
        return Ok(());
    };
    if is_set(heads, i) {
        return Ok(());
    }
    set(heads, i);
    objects.push(i as u32)?;
    Ok(())
}

// The same for each of these words.
fn begin_with_all(
    count: usize,
    heads: &mut [u64],
    objects: &mut Vec<u32>,
    from: &[u64],
) -> Result<(), AllocError>
    requires few { count ≤ 2 ^ 31 }
    requires room { count < 64 * length heads.old }
    ensures length { length heads.new ≡ length heads.old }
    ensures marked { OnOk result (AreMarked count from.now heads.new) }
{
    for k in 0..from.len() {
        begin_with(count, heads, objects, from[k])?;
    }
    Ok(())
}

// What these words are.
fn values_of(alloc: Global, words: Vec<AtomicU64>) -> Result<Vec<u64>, AllocError>
    ensures { IfOk result (λ values. length values.items ≡ length words.items) }
{
    let mut values = Vec::with_capacity(alloc, words.len())?;
    for k in 0..words.len() {
        values.push(words[k].load(Ordering::SeqCst))?;
    }
    Ok(values)
}

impl Marking {
    /// Begins to mark a heap of so many words from these roots. It takes two bits for each word, and in the course of
    /// the marking 4 bytes for each object that is met. Err if there are too many words or roots for the edition, if it
    /// is edition one or two, if a root is neither null nor the address of one of the words, nor an immediate, or if
    /// memory runs out.
    pub fn begin(
        alloc: Global,
        edition: Edition,
        count: usize,
        roots: &[u64],
    ) -> Result<Marking, MarkingFault>
        ensures edition { IfOk result (λ marking. marking.edition ≡ edition) }
        ensures count { IfOk result (λ marking. marking.count ≡ count) }
        ensures taken { OnOk result (MayBegin edition count roots.now) }
        ensures met { IfOk result (λ marking. AreMarked count roots.now marking.met) }
        ensures fault { IfErr result (IsBeginFaultOf edition count roots.now) }
    {
        if edition.max_object_words() < edition.max_words() {
            return Err(MarkingFault::ShortObjects);
        }
        if count > edition.max_words() || roots.len() > edition.max_roots() {
            return Err(MarkingFault::TooLarge);
        }
        if let Some(k) = first_astray(edition, count, roots) {
            return Err(MarkingFault::BadRoot(k as u64));
        }
        let mut blocks = vec![in alloc; 0u64; count / 64 + 1]?;
        let mut first = Lane::new(alloc);
        begin_with_all(count, &mut blocks, &mut first.objects, roots)?;
        let heads = Heads::new(alloc, &Blocks { blocks })?;
        let live = zeros(alloc, count.div_ceil(64))?;
        let waiting = Waiting::new(alloc, first)?;
        Ok(Marking {
            marks: Marks {
                edition,
                count,
                heads,
                live,
            },
            waiting,
        })
    }

    /// A receipt of what was met at the beginning, for a thread that means to call `meet`, and for `finish`.
    pub fn enter(&self) -> Met
        ensures table { result.table ≡ self.now.table }
        ensures begun { AreAmong self.now.met result.bits }
    {
        self.marks.heads.enter()
    }

    /// Looks at some of the objects that wait, at most 1,024: marks their words, and meets the objects to which their
    /// references lead. The words are those of the heap as they are now; data words are not read. Any threads may call
    /// it at the same time, as often as they like. It waits for no other thread, and tries no step again. `who` is any
    /// number: threads with different ones seldom get in each other's way.
    ///
    /// After `Idle` other threads have all that waits; call again a little later, since more may come to wait. After
    /// `Done` nothing is left to help with: all that was met was looked at, or a helper gave up. Err if these are more
    /// or fewer words than the marking is of; then nothing was done.
    pub fn help(&self, alloc: Global, words: &[u64], who: usize) -> Result<Help, WrongLength>
        ensures length { OnOk result (length words.now ≡ self.now.count) }
        ensures fault { OnErr result (length words.now ≢ self.now.count) }
    {
        if words.len() != self.marks.count {
            return Err(WrongLength);
        }
        if self.waiting.is_done() {
            return Ok(Help::Done);
        }
        let Some(mut taken) = self.waiting.pick(alloc, who, Wanted::Some) else {
            return Ok(Help::Idle);
        };
        let before = taken.lane.waiting();
        let mut met = self.enter();
        if let Err(why) = self.marks.look(words, &mut met, &mut taken.lane, BATCH) {
            self.waiting.give_up(why);
        }
        let k = taken.k;
        self.waiting.share(alloc, k, &mut taken.lane);
        self.waiting.put(taken, before);
        Ok(Help::Worked)
    }

    /// Meets the objects to which these values lead, as roots of now, or objects that are new or were written over. Any
    /// threads may call it at the same time, beside those that help. All that a receipt knows stays marked. Err if a
    /// value is neither null nor the address of one of the words, nor an immediate, if other threads had all lanes a
    /// moment ago, or if memory runs out.
    pub fn meet(&self, alloc: Global, values: &[u64], met: &mut Met) -> Result<(), MeetFault>
        requires { met.old.table ≡ self.now.table }
        ensures within { OnOk result (LeadWithin self.now.edition self.now.count values.now) }
        ensures met { OnOk result (AreMarked self.now.count values.now met.new.bits) }
        ensures stay { AreAmong met.old.bits met.new.bits }
        ensures table { met.new.table ≡ met.old.table }
        ensures fault { IfErr result (IsMeetFaultOf self.now.edition self.now.count values.now) }
    {
        if let Some(k) = first_astray(self.marks.edition, self.marks.count, values) {
            return Err(MeetFault::BadValue(k as u64));
        }
        let Some(mut taken) = self.waiting.pick(alloc, 0, Wanted::Any) else {
            return Err(MeetFault::Busy);
        };
        let before = taken.lane.waiting();
        let done = self.meet_into(values, met, &mut taken.lane);
        self.waiting.put(taken, before);
        done
    }

    // The same, into this lane.
    fn meet_into(&self, values: &[u64], met: &mut Met, lane: &mut Lane) -> Result<(), MeetFault>
        requires { met.old.table ≡ self.now.table }
        ensures met { OnOk result (AreMarked self.now.count values.now met.new.bits) }
        ensures stay { AreAmong met.old.bits met.new.bits }
        ensures table { met.new.table ≡ met.old.table }
        ensures fault { IfErr result (IsMeetFaultOf self.now.edition self.now.count values.now) }
    {
        if lane.objects.reserve(values.len()).is_err() {
            return Err(MeetFault::OutOfMemory);
        }
        if let Err(why) = self.marks.meet_each(met, &mut lane.objects, values) {
            // There is room, so this is not reached.
            self.waiting.give_up(why);
            return Err(MeetFault::OutOfMemory);
        }
        Ok(())
    }

    /// Ends the marking with these roots: where each object that was met slides, as `Places::of_bits` says it of the
    /// bits. It looks at no word of the heap. Whether an object is as the bits say, and leads to objects that were met,
    /// `Places::try_slide` asks. Err if objects wait still, if a helper gave up, if a root leads to no object that was
    /// met, if there are too many roots, or if memory runs out.
    pub fn finish(self, alloc: Global, roots: &[u64], met: Met) -> Result<Places, MarkingEnd>
        requires { met.table ≡ self.table }
        ensures edition { IfOk result (λ places. places.edition ≡ self.edition) }
        ensures count { IfOk result (λ places. places.count ≡ self.count) }
        ensures found { IfOk result (λ places. (heap : Heap) × IsFoundOf places heap) }
        ensures few_roots { IfOk result (λ _. length roots.now ≤ most_roots self.edition) }
        ensures roots { IfOk result (λ places. All (IsValue places.edition places.marks) roots.now) }
        ensures begun { IfOk result (λ places. AreKept self.count self.met places.marks) }
        ensures met { IfOk result (λ places. AreKept self.count met.bits places.marks) }
        ensures fault { IfErr result (IsEndFaultOf self.edition roots.now) }
    {
        if let Some(why) = self.waiting.not_ended() {
            return Err(why);
        }
        let Marking { marks, waiting } = self;
        drop(waiting);
        match taken(alloc, marks, roots, met) {
            Ok(places) => Ok(places),
            Err(fault) => Err(MarkingEnd::Bits(fault)),
        }
    }
}

// Takes the bits of a marking, with these roots.
fn taken(alloc: Global, marks: Marks, roots: &[u64], met: Met) -> Result<Places, BitsFault>
    requires few { marks.count ≤ most_words marks.edition }
    requires long { most_words marks.edition ≤ most_object_words marks.edition }
    requires table { met.table ≡ marks.heads.table.shared.table_id }
    ensures edition { IfOk result (λ places. places.edition ≡ marks.edition) }
    ensures count { IfOk result (λ places. places.count ≡ marks.count) }
    ensures found { IfOk result (λ places. (heap : Heap) × IsFoundOf places heap) }
    ensures few_roots { IfOk result (λ _. length roots.now ≤ most_roots marks.edition) }
    ensures roots { IfOk result (λ places. All (IsValue places.edition places.marks) roots.now) }
    ensures begun { IfOk result (λ places. AreKept marks.count marks.heads.table.shared.key places.marks) }
    ensures met { IfOk result (λ places. AreKept marks.count met.bits places.marks) }
    ensures fault { IfErr result (IsTakingFaultOf marks.edition roots.now) }
{
    let Marks {
        edition,
        count,
        heads,
        live,
    } = marks;
    let heads = heads.close(alloc, met, count.div_ceil(64))?;
    let bits = values_of(alloc, live)?;
    let places = Places::of_bits(alloc, edition, count, roots, &heads, &bits)?;
    Ok(places)
}
