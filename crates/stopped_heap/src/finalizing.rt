//! Finalizers in order, and weak words of both kinds. An object waits for its finalizer if nothing keeps it. It is
//! ready if no object that waits leads to it: its finalizer then finds whole all that the object leads to, and runs
//! before the finalizers of what waits there.
//!
//! A *short* weak word becomes null before finalizers see its object: `Growing::clear_dead` asks what is kept so far.
//! A *long* one still leads to an object that a finalizer brings back: `Survey::forward_weak`, once all is settled. So
//! a runtime marks its roots (`also`, `also_values`), clears its short weak words, keeps what its finalizers are to see
//! (`also_ready`, and `also_values` again), settles, and forwards its long ones, and its short ones that are left.
ghost use Rattle.std.specs.Prelude.{◌≡◌, ◌≢◌, ℕ, ◌+◌, ◌-◌, ◌^◌, ◌<◌, ◌≤◌, List, ◌++◌, map, filter, length, slice_index, take, All, IfErr, IfOk, OnOk};
ghost use Rattle.heap_layout.specs.Heap.{from_address, object_at, IsValue};
ghost use Rattle.heap_layout.specs.Limits.{most_words, most_roots};
ghost use Rattle.rest_marks.specs.Growing.{roots_on, IsMoreFaultOf};
ghost use Rattle.stopped_heap.specs.Guarded.{is_lost};
ghost use Rattle.rest_marks.specs.Meeting.{AllLead};
ghost use Rattle.stopped_heap.specs.Ordered.{references_of_all, or_null, AreOrdered, IsAddress, ReachEach};
ghost use Rattle.rest_marks.specs.Reached.{AreReached, IsHeapFaultOf, IsReachedFrom};
ghost use Rattle.rest_marks.specs.declared.fault.SurveyFault.TheVariants as survey;

use crate::growing::{Growing, NotGrown};
use crate::guarding::{part, push_lost};
use heap_layout::{Edition, FROM_SPACE};
use rest_marks::{SurveyFault, check_leads, references, shape_of};
use std::alloc::Global;

/// What is found of objects that wait.
#[derive(Drop)]
pub struct Ordered<'w> {
    /// The survey, which keeps all of them.
    pub growing: Growing<'w>,
    /// The words that wait, those first whose objects are ready.
    pub order: Vec<u64>,
    /// How many are ready.
    pub ready: usize,
}

// The tables of a survey that is over, with the fault.
fn refuse(growing: Growing<'_>, fault: SurveyFault) -> NotGrown
    ensures fault { result.fault ≡ fault }
    ensures room { result.tables.room ≡ growing.entry.room }
{
    NotGrown {
        fault,
        tables: growing.settle().into_tables(),
    }
}

// The references of the object to which a word leads. They lead to words.
fn references_at(edition: Edition, words: &[u64], word: u64) -> Result<&[u64], SurveyFault>
    requires few { length words.now ≤ 2 ^ 31 }
    requires address { IsAddress words.now word }
    ensures references { IfOk result (λ found. found.now ≡ (object_at edition words.now (word - 2 ^ 32)).references) }
    ensures lead { IfOk result (λ found. AllLead edition (length words.now) found.now) }
    ensures fault { IfErr result (λ fault. (roots : List ℕ) → IsReachedFrom edition words.now roots (word - 2 ^ 32) → IsHeapFaultOf edition words.now roots fault) }
    ensures never { IfErr result (λ fault. (k : ℕ) → fault ≢ survey.BadRoot k) }
{
    let i = (word - FROM_SPACE) as usize;
    let shape = shape_of(edition, words[i]);
    if shape.size > edition.max_object_words() {
        return Err(SurveyFault::ObjectTooLong(i as u64));
    }
    if shape.size > words.len() - i {
        return Err(SurveyFault::ObjectPastEnd(i as u64));
    }
    let found = references(edition, words, i, shape.refs);
    if let Err(k) = check_leads(edition, words.len(), found) {
        return Err(SurveyFault::BadReference((i + 1 + k) as u64));
    }
    Ok(found)
}

// The references of the objects to which these words lead. None of the words may be null or an immediate.
fn references_of(
    alloc: Global,
    edition: Edition,
    words: &[u64],
    waiting: &[u64],
) -> Result<Vec<u64>, SurveyFault>
    requires few { length words.now ≤ 2 ^ 31 }
    requires addresses { (k : ℕ) → k < length waiting.now → IsAddress words.now (slice_index waiting.now k) }
    ensures all { IfOk result (λ found. found.items ≡ references_of_all edition words.now waiting.now) }
    ensures lead { IfOk result (λ found. AllLead edition (length words.now) found.items) }
    ensures fault { IfErr result (λ fault. (roots : List ℕ) → ReachEach edition words.now roots waiting.now → IsHeapFaultOf edition words.now roots fault) }
    ensures never { IfErr result (λ fault. (k : ℕ) → fault ≢ survey.BadRoot k) }
{
    let mut all = Vec::new(alloc);
    for k in 0..waiting.len() {
        let found = match references_at(edition, words, waiting[k]) {
            Ok(found) => found,
            Err(fault) => return Err(fault),
        };
        if let Err(_) = all.extend_from_slice(found) {
            return Err(SurveyFault::OutOfMemory);
        }
    }
    Ok(all)
}

// The references of those objects that wait: to which these words lead, and which are not kept so far.
fn references_of_lost(
    alloc: Global,
    edition: Edition,
    words: &[u64],
    growing: &Growing<'_>,
    waiting: &[u64],
) -> Result<Vec<u64>, SurveyFault>
    requires edition { growing.now.edition ≡ edition }
    requires few { length words.now ≤ 2 ^ 31 }
    ensures few { IfOk result (λ _. length waiting.now ≤ most_roots edition) }
    ensures waiting { IfOk result (λ _. AllLead edition (length words.now) waiting.now) }
    ensures all { IfOk result (λ found. found.items ≡ references_of_all edition words.now (filter (is_lost edition growing.now.marks) waiting.now)) }
    ensures lead { IfOk result (λ found. AllLead edition (length words.now) found.items) }
    ensures fault { IfErr result (IsMoreFaultOf edition words.now growing.now.marks waiting.now) }
{
    if waiting.len() > edition.max_roots() {
        return Err(SurveyFault::TooLarge);
    }
    if let Err(k) = check_leads(edition, words.len(), waiting) {
        return Err(SurveyFault::BadRoot(k as u64));
    }
    let mut lost = Vec::new(alloc);
    if let Err(_) = push_lost(growing, waiting, &mut lost) {
        return Err(SurveyFault::OutOfMemory);
    }
    match references_of(alloc, edition, words, &lost) {
        Ok(found) => Ok(found),
        Err(fault) => Err(fault),
    }
}

// Marks what the words of a list reach that stand from place `next` on, before place `end`.
fn also_piece<'w>(
    growing: Growing<'w>,
    edition: Edition,
    words: &[u64],
    more: &[u64],
    next: usize,
    end: usize,
) -> Result<Growing<'w>, NotGrown>
    requires edition { growing.edition ≡ edition }
    requires words { growing.words ≡ words.now }
    requires lead { AllLead edition (length words.now) more.now }
    requires order { next ≤ end }
    requires inside { end ≤ length more.now }
    requires few { end ≤ next + most_roots edition }
    ensures grown { IfOk result (λ after. (roots : List ℕ) → AreReached edition words.now (roots ++ take next more.now) growing.entry.marks → AreReached edition words.now (roots ++ take end more.now) after.marks) }
    ensures words { IfOk result (λ after. after.words ≡ words.now) }
    ensures edition { IfOk result (λ after. after.edition ≡ edition) }
    ensures room { IfOk result (λ after. after.room ≡ growing.entry.room) }
    ensures fault { IfErr result (λ refused. (roots : List ℕ) → AreReached edition words.now (roots ++ take next more.now) growing.entry.marks → IsHeapFaultOf edition words.now (roots ++ more.now) refused.fault) }
    ensures never { IfErr result (λ refused. (k : ℕ) → refused.fault ≢ survey.BadRoot k) }
    ensures back { IfErr result (λ refused. refused.tables.room ≡ growing.entry.room) }
{
    // Only the clauses read them.
    let _ = edition;
    let _ = words;
    match growing.also(&more[next..end]) {
        Ok(grown) => Ok(grown),
        Err(refused) => Err(refused),
    }
}

// Marks what these words reach, however many they are: so many at once as there may be roots.
fn also_all<'w>(
    mut growing: Growing<'w>,
    edition: Edition,
    words: &[u64],
    more: &[u64],
) -> Result<Growing<'w>, NotGrown>
    requires edition { growing.edition ≡ edition }
    requires words { growing.words ≡ words.now }
    requires lead { AllLead edition (length words.now) more.now }
    ensures grown { IfOk result (λ after. (roots : List ℕ) → AreReached edition words.now roots growing.entry.marks → AreReached edition words.now (roots ++ more.now) after.marks) }
    ensures words { IfOk result (λ after. after.words ≡ words.now) }
    ensures edition { IfOk result (λ after. after.edition ≡ edition) }
    ensures room { IfOk result (λ after. after.room ≡ growing.entry.room) }
    ensures fault { IfErr result (λ refused. (roots : List ℕ) → AreReached edition words.now roots growing.entry.marks → IsHeapFaultOf edition words.now (roots ++ more.now) refused.fault) }
    ensures never { IfErr result (λ refused. (k : ℕ) → refused.fault ≢ survey.BadRoot k) }
    ensures back { IfErr result (λ refused. refused.tables.room ≡ growing.entry.room) }
{
    let mut next = 0;
    while next < more.len() {
        let end = more.len().min(next + edition.max_roots());
        match also_piece(growing, edition, words, more, next, end) {
            Ok(grown) => growing = grown,
            Err(refused) => return Err(refused),
        }
        next = end;
    }
    Ok(growing)
}

// Marks what the objects that wait lead to, but not the objects.
fn also_led<'w>(
    growing: Growing<'w>,
    alloc: Global,
    waiting: &[u64],
) -> Result<Growing<'w>, NotGrown>
    ensures led { IfOk result (λ after. AreReached growing.entry.edition growing.entry.words (roots_on growing.entry.marks (references_of_all growing.entry.edition growing.entry.words (filter (is_lost growing.entry.edition growing.entry.marks) waiting.now))) after.marks) }
    ensures few { IfOk result (λ _. length waiting.now ≤ most_roots growing.entry.edition) }
    ensures many { IfOk result (λ _. length growing.entry.words ≤ most_words growing.entry.edition) }
    ensures waiting { IfOk result (λ _. AllLead growing.entry.edition (length growing.entry.words) waiting.now) }
    ensures words { IfOk result (λ after. after.words ≡ growing.entry.words) }
    ensures edition { IfOk result (λ after. after.edition ≡ growing.entry.edition) }
    ensures room { IfOk result (λ after. after.room ≡ growing.entry.room) }
    ensures fault { IfErr result (λ refused. IsMoreFaultOf growing.entry.edition growing.entry.words growing.entry.marks waiting.now refused.fault) }
    ensures back { IfErr result (λ refused. refused.tables.room ≡ growing.entry.room) }
{
    let edition = growing.edition;
    let words = growing.words;
    let references = match references_of_lost(alloc, edition, words, &growing, waiting) {
        Ok(references) => references,
        Err(fault) => return Err(refuse(growing, fault)),
    };
    match also_all(growing, edition, words, &references) {
        Ok(led) => Ok(led),
        Err(refused) => Err(refused),
    }
}

// A word that leads to an object that is kept so far, an immediate, or null in place of any other.
fn kept_or_null(growing: &Growing<'_>, word: u64) -> u64
    ensures { result ≡ or_null growing.now.edition growing.now.marks word }
{
    if growing.keeps(word) { word } else { 0 }
}

impl<'w> Growing<'w> {
    /// Tells the objects that wait for their finalizers apart, and keeps them all. Those of these words that lead to
    /// objects that are not kept so far are of objects that wait. An object that waits is ready if no object that waits
    /// leads to it, through whatever objects. The words of the ready ones come first, and the other ones behind them,
    /// both in the order that they had. One that is not ready waits on: another one leads to it, or it leads to itself,
    /// directly or in a circle; those in a circle are never ready, so their finalizers never run. A word that is null
    /// or an immediate is not ready either, nor is one whose object is kept so far.
    ///
    /// All that the words reach is kept then: the ready ones, so that they are seen once more, and what they lead to.
    /// That is one finalizer of a chain in each collection.
    ///
    /// Err with `TooLarge` if there are more words than there may be roots; if not, with a fault that is there, or with
    /// `OutOfMemory`: a list of the words, one of the references of the objects that wait and one of the answer are
    /// made, with lent tables too. `BadRoot` has the number of a word. Then the survey is over, and its tables come
    /// back, with the room that they had.
    pub fn also_ready(self, alloc: Global, waiting: &[u64]) -> Result<Ordered<'w>, NotGrown>
        ensures ordered { IfOk result (λ found. AreOrdered self.entry.edition self.entry.words self.entry.marks waiting.now found.order.items found.ready) }
        ensures grown { IfOk result (λ found. AreReached self.entry.edition self.entry.words (roots_on self.entry.marks waiting.now) found.growing.marks) }
        ensures leads { IfOk result (λ found. All (IsValue self.entry.edition found.growing.marks) waiting.now) }
        ensures words { IfOk result (λ found. found.growing.words ≡ self.entry.words) }
        ensures edition { IfOk result (λ found. found.growing.edition ≡ self.entry.edition) }
        ensures room { IfOk result (λ found. found.growing.room ≡ self.entry.room) }
        ensures fault { IfErr result (λ refused. IsMoreFaultOf self.entry.edition self.entry.words self.entry.marks waiting.now refused.fault) }
        ensures back { IfErr result (λ refused. refused.tables.room ≡ self.entry.room) }
    {
        let led = match also_led(self, alloc, waiting) {
            Ok(led) => led,
            Err(refused) => return Err(refused),
        };
        let parted = match part(alloc, &led, waiting) {
            Ok(parted) => parted,
            Err(_) => return Err(refuse(led, SurveyFault::OutOfMemory)),
        };
        match led.also(&parted.order[..parted.lost]) {
            Ok(growing) => Ok(Ordered {
                growing,
                order: parted.order,
                ready: parted.lost,
            }),
            Err(refused) => Err(refused),
        }
    }

    /// Makes those of these words null that lead to no object that is kept so far: short weak words, which a finalizer
    /// does not see again. Immediates stay.
    pub fn clear_dead(&self, words: &mut [u64])
        ensures { words.new ≡ map (or_null self.now.edition self.now.marks) words.old }
    {
        for k in 0..words.len() {
            words[k] = kept_or_null(self, words[k]);
        }
    }
}
