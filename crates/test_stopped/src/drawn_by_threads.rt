//! Large pseudorandom heaps, surveyed by several threads as by one.
use crate::expected::{expect_eq, expect_so};
use heap_layout::{Edition, FIRST_IMMEDIATE as I, FROM_SPACE as F, Header};
use std::alloc::{AllocError, Global};
use std::process::Abort;
use std::thread::Threads;
use stopped_heap::{Survey, SurveyFault};
use test_support::{At, Random};

// A heap, and where its objects begin.
#[derive(Drop)]
struct Large {
    edition: Edition,
    words: Vec<u64>,
    roots: Vec<u64>,
    starts: Vec<u64>,
}

impl Large {
    // Adds objects of two to six words, with a word that is no object before one in five.
    fn put_objects(&mut self, random: &mut Random, objects: u64) -> Result<(), AllocError> {
        for _ in 0..objects {
            if random.below(5) == 0 {
                self.words.push(u64::MAX)?;
            }
            let refs = random.small(3).saturating_add(1);
            let weak = random.small(2);
            let data = random.small(2);
            self.starts.push(self.words.len() as u64)?;
            self.words
                .push(Header::new_weak(refs, weak, data, 7).word())?;
            for _ in 0..refs.saturating_add(weak).saturating_add(data) {
                self.words.push(random.below(1 << 31))?;
            }
        }
        Ok(())
    }

    // The address of some object, or null if there is none.
    fn some_object(&self, random: &mut Random) -> u64 {
        let number = random.below(self.starts.len() as u64);
        match self.starts.get(number as usize) {
            Some(start) => F.saturating_add(*start),
            None => 0,
        }
    }

    // A root, a reference or a weak word: the address of an object, or null or an immediate. One in so many leads to
    // the word behind the header of an object.
    fn some_word(&self, random: &mut Random, stray: u64) -> u64 {
        let object = self.some_object(random);
        if random.below(stray) == 1 {
            return object.saturating_add(1);
        }
        match random.below(8) {
            0 => 0,
            1 if self.edition == Edition::Four => object | I,
            _ => object,
        }
    }

    // Draws the references and weak words of all objects.
    fn draw_fields(&mut self, random: &mut Random, stray: u64) {
        for number in 0..self.starts.len() {
            let start = self.starts.get(number).copied().unwrap_or(0);
            let header = self.words.get(start as usize).copied().unwrap_or(0);
            let fields = (header & 3).saturating_add(header >> 32 & 1);
            for k in 0..fields {
                let word = self.some_word(random, stray);
                let at = start.saturating_add(k).saturating_add(1);
                if let Some(field) = self.words.get_mut(at as usize) {
                    *field = word;
                }
            }
        }
    }

    // Makes roots of so many objects from all over the heap: each is another, if there are as many and 7,919 does not
    // divide their number.
    fn put_roots(&mut self, roots: usize) -> Result<(), AllocError> {
        for k in 0..roots {
            let number = k.wrapping_mul(7_919).checked_rem(self.starts.len());
            let start = self.starts.get(number.unwrap_or(0)).copied();
            self.roots.push(F.saturating_add(start.unwrap_or(0)))?;
        }
        Ok(())
    }

    // A heap of so many objects and roots.
    fn draw(
        alloc: Global,
        edition: Edition,
        objects: u64,
        roots: usize,
        stray: u64,
    ) -> Result<Large, AllocError> {
        let mut random = Random {
            state: objects ^ stray,
        };
        let mut heap = Large {
            edition,
            words: Vec::new(alloc),
            roots: Vec::new(alloc),
            starts: Vec::new(alloc),
        };
        heap.put_objects(&mut random, objects)?;
        heap.draw_fields(&mut random, stray);
        heap.put_roots(roots)?;
        Ok(heap)
    }
}

// The words that are left of a heap.
fn left(alloc: Global, survey: &Survey<'_>) -> Result<Vec<u64>, AllocError> {
    let mut to = vec![in alloc; 0; survey.live_words() as usize]?;
    survey.slide(0, &mut to);
    Ok(to)
}

// Whether both surveys forward the addresses of all objects alike.
fn forward_alike(heap: &Large, one: &Survey<'_>, other: &Survey<'_>) -> bool {
    for start in &heap.starts {
        let address = F.saturating_add(*start);
        if one.forward(address) != other.forward(address) {
            return false;
        }
    }
    true
}

// Fails unless both surveys leave the same, and forward the address of each object alike.
fn expect_alike(
    rt: &impl Abort,
    alloc: Global,
    heap: &Large,
    one: &Survey<'_>,
    other: &Survey<'_>,
    case: &str,
) -> Result<(), AllocError> {
    let words = left(alloc, one)?;
    let others = left(alloc, other)?;
    expect_so(rt, At::new(case, 0), others.as_slice() == words.as_slice());
    expect_so(rt, At::new(case, 1), forward_alike(heap, one, other));
    Ok(())
}

// Surveys a heap by one thread and by several: the same survey, or the same fault.
fn survey_both(
    rt: &(impl Abort + Threads + Sync),
    alloc: Global,
    heap: &Large,
    workers: usize,
) -> Result<(), AllocError> {
    let case = format!(in alloc; "{workers} threads")?;
    let edition = heap.edition;
    let one = Survey::of(alloc, edition, &heap.words, &heap.roots);
    let other = Survey::of_by_threads(alloc, rt, workers, edition, &heap.words, &heap.roots);
    match (&one, &other) {
        (Ok(one), Ok(other)) => expect_alike(rt, alloc, heap, one, other, &case),
        (Err(SurveyFault::OutOfMemory), _) | (_, Err(SurveyFault::OutOfMemory)) => Err(AllocError),
        (Err(one), Err(other)) => {
            expect_eq(rt, At::new(&case, 0), *other, *one);
            Ok(())
        }
        _ => {
            expect_so(rt, At::new(&case, 0), false);
            Ok(())
        }
    }
}

// Draws a heap, and surveys it by none to eight threads.
fn survey_by_all(
    rt: &(impl Abort + Threads + Sync),
    alloc: Global,
    edition: Edition,
    objects: u64,
    roots: usize,
    stray: u64,
) -> Result<(), AllocError> {
    let heap = Large::draw(alloc, edition, objects, roots, stray)?;
    for workers in 0..9 {
        survey_both(rt, alloc, &heap, workers)?;
    }
    Ok(())
}

// Fails if more than one was cut off: a run of the tests may refuse one allocation.
fn expect_one_refused(rt: &impl Abort, refused: usize) {
    expect_so(rt, At::new("refused", refused), refused <= 1);
}

// So many roots are followed by threads at once; from few of them threads are started when many objects wait.
#[test]
fn threads_survey_large_heaps_as_one_does(rt: HostRuntime) {
    let mut refused = 0usize;
    for (edition, objects, roots) in [(Edition::Two, 40_000, 40), (Edition::Four, 20_000, 9_000)] {
        if survey_by_all(&rt, rt.alloc(), edition, objects, roots, u64::MAX).is_err() {
            refused = refused.saturating_add(1);
        }
    }
    expect_one_refused(&rt, refused);
}

// One field in so many leads to the word behind a header. With few such fields a heap may have no fault.
#[test]
fn threads_find_the_fault_that_one_finds(rt: HostRuntime) {
    let mut refused = 0usize;
    for stray in [100, 5_000, 60_000] {
        if survey_by_all(&rt, rt.alloc(), Edition::Four, 20_000, 9_000, stray).is_err() {
            refused = refused.saturating_add(1);
        }
    }
    expect_one_refused(&rt, refused);
}
