//! Surveys by several threads beside those by one, of heaps that they share out and of heaps that they leave to one.
//! Nothing but time tells whether they did, so each test asks that both find the same, on both sides of each limit.
use crate::expected::{expect_eq, expect_so};
use crate::shared_heaps::{SharedHeap, lists, row, row_behind_table, scattered, table};
use heap_layout::{Edition, FIRST_IMMEDIATE as I, FROM_SPACE as F};
use std::alloc::{AllocError, Global};
use std::process::Abort;
use std::test::Fail;
use std::thread::Threads;
use stopped_heap::{Survey, SurveyFault, collect, collect_by_threads};
use test_support::At;

// What a survey leaves of the heap.
fn left(alloc: Global, survey: &Survey<'_>) -> Result<Vec<u64>, AllocError> {
    let mut to = vec![in alloc; 0; survey.live_words() as usize]?;
    survey.slide(0, &mut to);
    Ok(to)
}

// Whether both surveys forward these roots alike.
fn forward_alike(roots: &[u64], one: &Survey<'_>, other: &Survey<'_>) -> bool {
    for root in roots {
        if one.forward(*root) != other.forward(*root) {
            return false;
        }
    }
    true
}

// Expects a survey by threads to be the one that is made alone, or to be refused with the same fault. Row 0 are the
// live words, row 1 all words that are left, and row 2 where the roots lead.
fn expect_found(
    rt: &(impl Abort + AllocGlobal),
    at: At,
    roots: &[u64],
    shared: &Result<Survey<'_>, SurveyFault>,
    alone: &Result<Survey<'_>, SurveyFault>,
) -> Result<(), AllocError> {
    match (alone, shared) {
        (Ok(alone), Ok(shared)) => {
            expect_eq(rt, at, shared.live_words(), alone.live_words());
            let (words, wanted) = (left(rt.alloc(), shared)?, left(rt.alloc(), alone)?);
            let same = words.as_slice() == wanted.as_slice();
            expect_so(rt, at.after(1), same);
            let same = forward_alike(roots, shared, alone);
            expect_so(rt, at.after(2), same);
        }
        (Ok(_), Err(fault)) => expect_eq(rt, at, Some(*fault), None),
        (Err(fault), Ok(_)) => expect_eq(rt, at, None, Some(*fault)),
        (Err(fault), Err(other)) => expect_eq(rt, at, *other, *fault),
    }
    Ok(())
}

// Surveys a heap by one thread and by each of these numbers of threads, which are the rounds of the case, and expects
// the same survey, or the same fault.
fn expect_same<R: Abort + AllocGlobal + Threads + Sync>(
    rt: &R,
    case: &str,
    heap: &SharedHeap,
    numbers: &[usize],
) -> Result<(), AllocError> {
    let (edition, words, roots) = (heap.edition, heap.words.as_slice(), heap.roots.as_slice());
    let alone = Survey::of(rt.alloc(), edition, words, roots);
    for workers in numbers {
        let shared = Survey::of_by_threads(rt.alloc(), rt, *workers, edition, words, roots);
        let at = At::of_round(case, *workers);
        expect_found(rt, at, roots, &shared, &alone)?;
    }
    Ok(())
}

// So many roots are shared out at once.
const WIDE: u64 = 9_000;

const UP_TO_EIGHT: [usize; 9] = [0, 1, 2, 3, 4, 5, 6, 7, 8];

#[test]
fn threads_find_what_one_finds_from_many_roots(rt: HostRuntime) -> Result<(), Fail> {
    for seed in 0..3 {
        let case = format!(in rt.alloc(); "seed {seed}")?;
        let objects = 16_500 + 149 * seed;
        let mut heap = scattered(rt.alloc(), Edition::Four, objects, WIDE, seed, 0)?;
        heap.roots.push(I)?;
        heap.roots.push(0)?;
        expect_same(&rt, &case, &heap, &UP_TO_EIGHT)?;
    }
    Ok(())
}

// From 4,000 roots 8,192 objects come to wait; from three never.
#[test]
fn threads_find_what_one_finds_from_few_roots(rt: HostRuntime) -> Result<(), Fail> {
    let mut heap = scattered(rt.alloc(), Edition::Two, 120_000, 4_000, 1, 0)?;
    expect_same(&rt, "4,000 roots", &heap, &[0, 1, 2, 5])?;
    heap.roots = Vec::from_slice(rt.alloc(), &[F, 0, F + 160])?;
    expect_same(&rt, "three roots", &heap, &[0, 1, 2, 5])?;
    Ok(())
}

// Of some of these heaps no field leads astray.
#[test]
fn threads_refuse_what_one_refuses(rt: HostRuntime) -> Result<(), Fail> {
    for (workers, seeds) in [(2, 0..8), (3, 8..16), (8, 16..24)] {
        for seed in seeds {
            let case = format!(in rt.alloc(); "seed {seed}")?;
            let heap = scattered(rt.alloc(), Edition::Three, 16_500, WIDE, seed, 32_768)?;
            expect_same(&rt, &case, &heap, &[workers])?;
        }
    }
    Ok(())
}

#[test]
fn threads_refuse_the_roots_that_one_refuses(rt: HostRuntime) -> Result<(), Fail> {
    for (name, root) in [
        ("into an object", F + 1),
        ("past the words", F + 66_000),
        ("below the words", 1),
    ] {
        let mut heap = scattered(rt.alloc(), Edition::Three, 16_500, WIDE, 99, 0)?;
        heap.roots.push(root)?;
        expect_same(&rt, name, &heap, &[4])?;
    }
    Ok(())
}

#[test]
fn one_heap_is_surveyed_many_times(rt: HostRuntime) -> Result<(), Fail> {
    let heap = scattered(rt.alloc(), Edition::Three, 16_500, WIDE, 5, 0)?;
    expect_same(&rt, "four threads", &heap, &[4; 20])?;
    Ok(())
}

// The live words of a heap that is surveyed by so many threads.
fn live_by_threads<R: AllocGlobal + Threads + Sync>(
    rt: &R,
    heap: &SharedHeap,
    workers: usize,
) -> Result<u64, SurveyFault> {
    let (edition, words, roots) = (heap.edition, heap.words.as_slice(), heap.roots.as_slice());
    let survey = Survey::of_by_threads(rt.alloc(), rt, workers, edition, words, roots)?;
    Ok(survey.live_words())
}

// Of so many lists as many objects wait all the time: those of one place of the lists.
#[test]
fn lists_are_followed_to_their_ends(rt: HostRuntime) -> Result<(), Fail> {
    for (name, place, live) in [
        ("from the first", 0, 2 * WIDE),
        ("from the third", 2, 6 * WIDE),
        ("from the last", 5, 12 * WIDE),
    ] {
        let heap = lists(rt.alloc(), WIDE, 6, place)?;
        let found = live_by_threads(&rt, &heap, 3);
        expect_eq(&rt, At::new(name, 3), found, Ok(live));
        expect_same(&rt, name, &heap, &[1, 2, 5])?;
    }
    Ok(())
}

// Two objects of a list never wait. The caller looks how the work goes after each 4,096 objects, and gives up once that
// are more than 8,192 and one waits.
#[test]
fn a_list_is_left_to_one_thread(rt: HostRuntime) -> Result<(), Fail> {
    for (name, objects) in [
        ("one object", 1),
        ("as many as are followed", 12_288),
        ("one more", 12_289),
        ("the whole list", 40_000),
    ] {
        let heap = lists(rt.alloc(), 1, 40_000, objects - 1)?;
        let found = live_by_threads(&rt, &heap, 2);
        expect_eq(&rt, At::new(name, 2), found, Ok(2 * objects));
        expect_same(&rt, name, &heap, &[2])?;
    }
    Ok(())
}

// Objects that lie 512 words apart are near, and left to one thread, whether they wait or a table leads to them.
#[test]
fn objects_that_lie_near_are_left_to_one_thread(rt: HostRuntime) -> Result<(), Fail> {
    for (name, size) in [("near", 2), ("just near", 512), ("just apart", 513)] {
        let waiting = row(rt.alloc(), size)?;
        expect_same(&rt, name, &waiting, &[3])?;
        let led_to = row_behind_table(rt.alloc(), size)?;
        expect_same(&rt, name, &led_to, &[4])?;
    }
    Ok(())
}

// Of 98,304 references threads are started, and not of one less.
#[test]
fn the_references_of_one_object_are_shared_out(rt: HostRuntime) -> Result<(), Fail> {
    for seed in 0..3 {
        for references in [98_303, 98_304] {
            let case = format!(in rt.alloc(); "seed {seed}, {references} references")?;
            let mut heap = table(rt.alloc(), references, 5_000, seed)?;
            expect_same(&rt, &case, &heap, &[1, 2, 5])?;
            // One that leads into the object itself.
            if let Some(word) = heap.words.get_mut(377) {
                *word = F + 2;
            }
            expect_same(&rt, &case, &heap, &[3])?;
        }
    }
    Ok(())
}

// From two roots 8,192 objects never wait.
#[test]
fn a_long_heap_is_left_to_one_thread(rt: HostRuntime) -> Result<(), Fail> {
    let mut heap = scattered(rt.alloc(), Edition::Two, 60_000, 0, 1, 0)?;
    heap.roots = Vec::from_slice(rt.alloc(), &[F, F + 4])?;
    expect_same(&rt, "two roots", &heap, &[0, 1, 2, 3, usize::MAX])?;
    let (words, roots) = (heap.words.as_slice(), [F, 1]);
    let stray = Survey::of_by_threads(rt.alloc(), &rt, 4, heap.edition, words, &roots);
    let wanted = Some(SurveyFault::BadRoot(1));
    expect_eq(&rt, At::new("a bad root", 4), stray.err(), wanted);
    Ok(())
}

// Collects a heap by one thread and by so many, which are the round of the case, and expects the same. Row 0 is the
// answer, row 1 the roots, and row 2 the memory into which it slides.
fn expect_same_collected<R: Abort + AllocGlobal + Threads + Sync>(
    rt: &R,
    case: &str,
    heap: &SharedHeap,
    workers: usize,
) -> Result<(), AllocError> {
    let (alloc, edition, words) = (rt.alloc(), heap.edition, heap.words.as_slice());
    let at = At::of_round(case, workers);
    let mut roots = heap.roots.to_vec(alloc)?;
    let mut to = vec![in alloc; 7; words.len()]?;
    let found = collect_by_threads(alloc, rt, edition, words, &mut roots, &mut to, workers);
    let mut wanted_roots = heap.roots.to_vec(alloc)?;
    let mut wanted_to = vec![in alloc; 7; words.len()]?;
    let wanted = collect(alloc, edition, words, &mut wanted_roots, &mut wanted_to);
    expect_eq(rt, at, found, wanted);
    let same = roots.as_slice() == wanted_roots.as_slice();
    expect_so(rt, at.after(1), same);
    let same = to.as_slice() == wanted_to.as_slice();
    expect_so(rt, at.after(2), same);
    Ok(())
}

#[test]
fn threads_collect_what_one_collects(rt: HostRuntime) -> Result<(), Fail> {
    let mut heap = scattered(rt.alloc(), Edition::Four, 16_500, WIDE, 7, 0)?;
    for workers in [0, 1, 2, 3, 8, usize::MAX] {
        expect_same_collected(&rt, "sound", &heap, workers)?;
    }
    heap.roots.push(1)?;
    expect_same_collected(&rt, "a bad root", &heap, 3)?;
    Ok(())
}
