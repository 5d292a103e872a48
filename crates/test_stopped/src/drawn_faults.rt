//! Pseudorandom heaps with one fault in what is reached, and none elsewhere: it is named, and nothing has changed.
use crate::drawn_heaps::{expect_untouched, untouched};
use crate::expected::{expect_eq, expect_so, expect_words};
use crate::plain_heap::{Plain, PlainHeap};
use heap_layout::{Edition, FIRST_IMMEDIATE as I, FROM_SPACE as F};
use std::alloc::{AllocError, Global};
use std::process::Abort;
use std::thread::Threads;
use stopped_heap::{CollectFault, SurveyFault, collect, collect_by_threads};
use test_support::{At, Random};

// The number of heaps of each edition for each kind of fault, and the least of them where the fault must be possible:
// an object of the right shape must be there.
const HEAPS: u64 = 60;

const LEAST: u64 = 60;

// The kinds of faults.
#[derive(Clone, Copy)]
enum Broken {
    Root,
    Reference,
    Weak,
    Overlap,
    Inside,
    PastEnd,
}

// A fault of a heap, or the other name that it may have.
type Faults = (SurveyFault, SurveyFault);

// A word that is neither null nor the address of one of the words, nor an immediate.
fn astray(heap: &PlainHeap, random: &mut Random) -> u64 {
    let past = F.saturating_add(heap.count());
    match random.below(7) {
        0 => past,
        1 => F - 1,
        2 => 1,
        3 => I - 1,
        4 if heap.edition != Edition::Four => I,
        5 if heap.edition != Edition::Four => I.wrapping_add(F),
        _ => past.saturating_add(random.below(1 << 31)),
    }
}

// The word of a mixed header, without a tag.
fn mixed(object: Plain, data: u64) -> u64 {
    object.refs | data << 16 | object.weak << 32
}

impl PlainHeap {
    // Some kept object, if one is soon found.
    fn some_kept(&self, random: &mut Random) -> Option<Plain> {
        for _ in 0..20 {
            let number = random.below(self.objects.len() as u64);
            match self.objects.get(number as usize) {
                Some(object) if object.kept => return Some(*object),
                _ => {}
            }
        }
        None
    }

    // The first kept object behind this index.
    fn kept_behind(&self, at: u64) -> Option<Plain> {
        for object in &self.objects {
            if object.kept && object.at > at {
                return Some(*object);
            }
        }
        None
    }

    // The last kept object.
    fn last_kept(&self) -> Option<Plain> {
        let mut last = None;
        for object in &self.objects {
            if object.kept {
                last = Some(*object);
            }
        }
        last
    }

    // Makes an object end behind the word at this index, by data words.
    fn stretch(&mut self, object: Plain, at: u64) {
        let data = at.saturating_add(1).saturating_sub(object.first_data());
        self.set(object.at, mixed(object, data));
    }

    // Makes a root lead astray.
    fn break_root(&mut self, random: &mut Random) -> Option<Faults> {
        let number = random.below(self.roots.len() as u64);
        let word = astray(self, random);
        *self.roots.get_mut(number as usize)? = word;
        Some((SurveyFault::BadRoot(number), SurveyFault::BadRoot(number)))
    }

    // Makes a reference of a kept object lead astray.
    fn break_reference(&mut self, random: &mut Random) -> Option<Faults> {
        let object = self.some_kept(random)?;
        if object.refs == 0 {
            return None;
        }
        let at = object.first_ref().saturating_add(random.below(object.refs));
        self.set(at, astray(self, random));
        Some((SurveyFault::BadReference(at), SurveyFault::BadReference(at)))
    }

    // Makes a weak word of a kept object lead astray.
    fn break_weak(&mut self, random: &mut Random) -> Option<Faults> {
        let object = self.some_kept(random)?;
        if object.weak == 0 {
            return None;
        }
        let at = object
            .first_weak()
            .saturating_add(random.below(object.weak));
        self.set(at, astray(self, random));
        Some((SurveyFault::BadWeak(at), SurveyFault::BadWeak(at)))
    }

    // Makes a kept object take the first word of the next kept one, and no other word of it.
    fn break_overlap(&mut self, random: &mut Random) -> Option<Faults> {
        let object = self.some_kept(random)?;
        let next = self.kept_behind(object.at)?;
        self.stretch(object, next.at);
        Some((
            SurveyFault::Overlap(object.at),
            SurveyFault::Overlap(next.at),
        ))
    }

    // Makes a data word of a kept object the header of an object of one word, to which its first reference leads. That
    // is the last word of the object.
    fn break_inside(&mut self, random: &mut Random) -> Option<Faults> {
        let object = self.some_kept(random)?;
        if object.refs == 0 || object.data == 0 {
            return None;
        }
        let inside = object.end().saturating_sub(1);
        self.set(inside, 0);
        self.set(object.first_ref(), F.saturating_add(inside));
        Some((
            SurveyFault::Overlap(object.at),
            SurveyFault::Overlap(inside),
        ))
    }

    // Makes the last kept object end one word behind the words.
    fn break_end(&mut self) -> Option<Faults> {
        let object = self.last_kept()?;
        self.stretch(object, self.count());
        Some((
            SurveyFault::ObjectPastEnd(object.at),
            SurveyFault::ObjectPastEnd(object.at),
        ))
    }

    // Makes one fault of this kind, or none if no object is found that can have it.
    fn make_fault(&mut self, kind: Broken, random: &mut Random) -> Option<Faults> {
        match kind {
            Broken::Root => self.break_root(random),
            Broken::Reference => self.break_reference(random),
            Broken::Weak => self.break_weak(random),
            Broken::Overlap => self.break_overlap(random),
            Broken::Inside => self.break_inside(random),
            Broken::PastEnd => self.break_end(),
        }
    }
}

// Fails unless an answer is the fault, or that memory was refused, which is an error.
fn expect_fault(
    rt: &impl Abort,
    case: &str,
    answer: Option<CollectFault>,
    faults: Faults,
) -> Result<(), AllocError> {
    let (one, other) = faults;
    if answer == Some(CollectFault::Survey(SurveyFault::OutOfMemory)) {
        return Err(AllocError);
    }
    if answer != Some(CollectFault::Survey(other)) {
        let wanted = Some(CollectFault::Survey(one));
        expect_eq(rt, At::new(case, 0), answer, wanted);
    }
    Ok(())
}

// Collects a heap with a fault by one thread, and then by two.
fn refuse(
    rt: &(impl Abort + Threads + Sync),
    alloc: Global,
    heap: &PlainHeap,
    case: &str,
    faults: Faults,
) -> Result<(), AllocError> {
    let mut to = untouched(alloc, heap.words.len())?;
    let mut roots = heap.roots.to_vec(alloc)?;
    let edition = heap.edition;
    let alone = collect(alloc, edition, &heap.words, &mut roots, &mut to);
    expect_untouched(rt, case, &to);
    expect_words(rt, case, &roots, &heap.roots);
    let both = collect_by_threads(alloc, rt, edition, &heap.words, &mut roots, &mut to, 2);
    expect_untouched(rt, case, &to);
    expect_words(rt, case, &roots, &heap.roots);
    expect_fault(rt, case, alone.err(), faults)?;
    expect_fault(rt, case, both.err(), faults)
}

// Draws a heap, makes a fault and has it refused. Answers whether there was one.
fn run(
    rt: &(impl Abort + Threads + Sync),
    alloc: Global,
    edition: Edition,
    kind: Broken,
    seed: u64,
) -> Result<bool, AllocError> {
    let case = format!(in alloc; "seed {seed}")?;
    let mut random = Random { state: seed };
    let mut heap = PlainHeap::draw(alloc, edition, &mut random)?;
    match heap.make_fault(kind, &mut random) {
        Some(faults) => {
            refuse(rt, alloc, &heap, &case, faults)?;
            Ok(true)
        }
        None => Ok(false),
    }
}

// Heaps with this kind of fault, of all editions that have weak words.
fn run_all(rt: &(impl Abort + Threads + Sync), alloc: Global, kind: Broken) {
    let mut refused = 0u64;
    for edition in [Edition::Two, Edition::Three, Edition::Four] {
        for seed in 2_000..2_000 + HEAPS {
            if run(rt, alloc, edition, kind, seed) == Ok(true) {
                refused = refused.saturating_add(1);
            }
        }
    }
    expect_so(rt, At::new("refused", refused as usize), refused >= LEAST);
}

#[test]
fn a_root_that_leads_astray_is_refused(rt: HostRuntime) {
    run_all(&rt, rt.alloc(), Broken::Root);
}

#[test]
fn a_reference_that_leads_astray_is_refused(rt: HostRuntime) {
    run_all(&rt, rt.alloc(), Broken::Reference);
}

#[test]
fn a_weak_word_that_leads_astray_is_refused(rt: HostRuntime) {
    run_all(&rt, rt.alloc(), Broken::Weak);
}

#[test]
fn objects_with_one_word_in_common_are_refused(rt: HostRuntime) {
    run_all(&rt, rt.alloc(), Broken::Overlap);
}

#[test]
fn a_reference_into_its_own_object_is_refused(rt: HostRuntime) {
    run_all(&rt, rt.alloc(), Broken::Inside);
}

#[test]
fn a_last_object_that_ends_past_the_words_is_refused(rt: HostRuntime) {
    run_all(&rt, rt.alloc(), Broken::PastEnd);
}
