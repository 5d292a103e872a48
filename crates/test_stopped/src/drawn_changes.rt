//! Words that change between a survey and a slide: each word of a small heap in turn becomes several others. What comes
//! is the part as the objects are now, or a refusal that says what changed.
use crate::drawing::garbage;
use crate::expected::{expect_eq, expect_so, expect_words};
use crate::plain_heap::{BEFORE, Plain, PlainHeap};
use heap_layout::{Edition, FIRST_IMMEDIATE as I, FROM_SPACE as F};
use std::alloc::{AllocError, Global};
use std::process::Abort;
use stopped_heap::{Places, SlideFault, Survey};
use test_support::{At, Random};

// The number of pseudorandom heaps of each edition, and the most words of one whose words are changed.
const HEAPS: u64 = 40;

const FEW_WORDS: u64 = 40;

// The least slides of each kind in an edition.
const LEAST: u64 = 20;

// What was seen of the slides: how many were Ok, and how many were refused for an object, and for a reference.
#[derive(Clone, Copy)]
struct Seen {
    slid: u64,
    changed: u64,
    unmarked: u64,
}

impl Seen {
    // One answer more.
    fn add(&mut self, answer: Result<(), SlideFault>) {
        match answer {
            Ok(()) => self.slid = self.slid.saturating_add(1),
            Err(SlideFault::Changed(_)) => self.changed = self.changed.saturating_add(1),
            Err(_) => self.unmarked = self.unmarked.saturating_add(1),
        }
    }
}

// The object that a header at an index says.
fn told(edition: Edition, at: u64, header: u64) -> Plain {
    let many = header & 0x7fff_ffff;
    let few = header >> 31 & 0x1_ffff;
    let form = match edition {
        Edition::One | Edition::Two => 0,
        Edition::Three | Edition::Four => header >> 62,
    };
    let weak = match edition {
        Edition::One => 0,
        Edition::Two | Edition::Three | Edition::Four => header >> 32 & 0xffff,
    };
    let (refs, weak, data) = match form {
        0 => (header & 0xffff, weak, header >> 16 & 0xffff),
        1 => (many, 0, few),
        2 => (few, 0, many),
        _ => (0, many, few),
    };
    Plain {
        at,
        header,
        refs,
        weak,
        data,
        kept: true,
        to: 0,
    }
}

impl PlainHeap {
    // Adds what stands in a part after the slide of one object, as it is now. Answers why there is none.
    fn put_now(
        &self,
        object: Plain,
        first: u64,
        end: u64,
        part: &mut Vec<u64>,
    ) -> Result<Option<SlideFault>, AllocError> {
        let from = first.max(object.to);
        let stop = end.min(object.to.saturating_add(object.size()));
        let now = told(self.edition, object.at, self.word(object.at));
        if from < stop && now.size() != object.size() {
            return Ok(Some(SlideFault::Changed(object.at)));
        }
        for place in from..stop {
            let at = object.at.saturating_add(place.saturating_sub(object.to));
            let word = self.word(at);
            let moved = self.moved(word);
            if at == object.at || at >= now.first_data() {
                part.push(word)?;
            } else if at < now.first_weak() && word != 0 && moved == 0 {
                return Ok(Some(SlideFault::Unmarked(at)));
            } else {
                part.push(moved)?;
            }
        }
        Ok(None)
    }

    // The words from `first` up to `end` after the slide of the objects that were found, as they are now, and why there
    // are none.
    fn slid_now(
        &self,
        alloc: Global,
        first: u64,
        end: u64,
    ) -> Result<(Vec<u64>, Option<SlideFault>), AllocError> {
        let mut part = Vec::new(alloc);
        for object in &self.objects {
            if object.kept {
                let fault = self.put_now(*object, first, end, &mut part)?;
                if fault.is_some() {
                    return Ok((part, fault));
                }
            }
        }
        Ok((part, None))
    }

    // The address of the first object that is kept, or is not; null if there is none.
    fn first_that_is(&self, kept: bool) -> u64 {
        for object in &self.objects {
            if object.kept == kept {
                return object.address();
            }
        }
        0
    }

    // What a word becomes: null; as a header, an object with a data word more, or with one less and a reference more;
    // the addresses of an object that is kept and of one that is not; an immediate; all ones; anything.
    fn others(&self, word: u64, random: &mut Random) -> [u64; 8] {
        [
            0,
            word.wrapping_add(1 << 16),
            word.wrapping_sub(1 << 16).wrapping_add(1),
            self.first_that_is(true),
            self.first_that_is(false),
            I + 5,
            u64::MAX,
            garbage(random),
        ]
    }
}

// Slides the words from `first` up to `end`, by what was found, into the middle of a memory: beside the part nothing
// may be written.
fn expect_now(
    rt: &impl Abort,
    alloc: Global,
    heap: &PlainHeap,
    places: &Places,
    first: u64,
    end: u64,
    case: &str,
) -> Result<Result<(), SlideFault>, AllocError> {
    let (wanted, fault) = heap.slid_now(alloc, first, end)?;
    let behind = (end.saturating_sub(first) as usize).min(FEW_WORDS as usize) + 1;
    let mut to = vec![in alloc; BEFORE; behind + 1]?;
    let answer = places.try_slide(&heap.words, first, &mut to[1..behind]);
    expect_eq(rt, At::new(case, first as usize), answer.err(), fault);
    if answer.is_ok() {
        expect_words(rt, case, &to[1..behind], &wanted);
    }
    expect_eq(rt, At::new(case, 0), to.first().copied(), Some(BEFORE));
    expect_eq(rt, At::new(case, behind), to.last().copied(), Some(BEFORE));
    Ok(answer)
}

// Changes each word in turn, and slides all words then, and those of some part.
fn change_each(
    rt: &impl Abort,
    alloc: Global,
    heap: &mut PlainHeap,
    places: &Places,
    random: &mut Random,
    seen: &mut Seen,
    case: &str,
) -> Result<(), AllocError> {
    let live = places.live_words();
    for at in 0..heap.count() {
        let before = heap.word(at);
        for other in heap.others(before, random) {
            heap.set(at, other);
            seen.add(expect_now(rt, alloc, heap, places, 0, live, case)?);
            let first = random.below(live.saturating_add(1));
            let end = live.saturating_sub(random.below(live.saturating_sub(first)));
            seen.add(expect_now(rt, alloc, heap, places, first, end, case)?);
        }
        heap.set(at, before);
    }
    Ok(())
}

// Draws a heap, and changes its words if they are few.
fn run(
    rt: &impl Abort,
    alloc: Global,
    edition: Edition,
    seed: u64,
    seen: &mut Seen,
) -> Result<(), AllocError> {
    let case = format!(in alloc; "seed {seed}")?;
    let mut random = Random { state: seed };
    let mut heap = PlainHeap::draw(alloc, edition, &mut random)?;
    if heap.count() > FEW_WORDS {
        return Ok(());
    }
    let places = match Survey::of(alloc, edition, &heap.words, &heap.roots) {
        Ok(survey) => survey.release(),
        Err(_) => return Err(AllocError),
    };
    change_each(rt, alloc, &mut heap, &places, &mut random, seen, &case)
}

#[test]
fn a_word_that_changed_is_slid_as_it_is_or_told(rt: HostRuntime) {
    for edition in [Edition::One, Edition::Two, Edition::Three, Edition::Four] {
        let mut seen = Seen {
            slid: 0,
            changed: 0,
            unmarked: 0,
        };
        for seed in 3_000..3_000 + HEAPS {
            // Memory that was refused ends the round.
            let _ = run(&rt, rt.alloc(), edition, seed, &mut seen);
        }
        expect_so(&rt, At::new("slid", seen.slid as usize), seen.slid > LEAST);
        expect_so(
            &rt,
            At::new("changed", seen.changed as usize),
            seen.changed > LEAST,
        );
        expect_so(
            &rt,
            At::new("unmarked", seen.unmarked as usize),
            seen.unmarked > LEAST,
        );
    }
}
