//! The rounds of a mode. Each does the same with the same words: none changes them.
use crate::asked::{Asked, Mode};
use crate::heaps::Heap;
use heap_layout::Edition;
use std::alloc::Global;
use std::thread::Threads;
use stopped_heap::{Survey, Tables, collect, collect_by_threads, collect_in_place, collect_lent};

// How many threads collect.
const WORKERS: usize = 4;

/// What a round left: the number of live words, and where the root leads.
#[derive(Clone, Copy)]
pub struct Left {
    pub live: u64,
    pub root: u64,
}

impl Left {
    // No collection: the root leads where it led.
    fn nothing(heap: &Heap) -> Left {
        Left {
            live: 0,
            root: heap.root,
        }
    }
}

// Surveys with these roots.
fn survey_all(alloc: Global, asked: Asked, heap: &Heap, roots: &[u64]) -> Option<Left> {
    let mut left = Left::nothing(heap);
    for _ in 0..asked.rounds {
        let survey = Survey::of(alloc, Edition::Three, &heap.words, roots).ok()?;
        left.live = survey.live_words();
    }
    Some(left)
}

// The same by so many threads.
fn survey_all_by_threads<R: AllocGlobal + Threads + Sync>(
    rt: &R,
    asked: Asked,
    heap: &Heap,
    workers: usize,
) -> Option<Left> {
    let mut left = Left::nothing(heap);
    let roots = [heap.root];
    for _ in 0..asked.rounds {
        let survey = Survey::of_by_threads(
            rt.alloc(),
            rt,
            workers,
            Edition::Three,
            &heap.words,
            &roots,
        ).ok()?;
        left.live = survey.live_words();
    }
    Some(left)
}

// Slides all that a survey found.
fn slide_once(survey: &Survey<'_>, heap: &Heap, to: &mut [u64]) -> Option<Left> {
    let live = survey.live_words();
    if live > to.len() as u64 {
        return None;
    }
    survey.slide(0, &mut to[..live as usize]);
    let root = survey.forward(heap.root)?;
    Some(Left { live, root })
}

// Surveys once, and slides in each round. So what a slide takes is not lost beside what a survey takes.
fn slide_all(alloc: Global, asked: Asked, heap: &Heap, to: &mut [u64]) -> Option<Left> {
    let survey = Survey::of(alloc, Edition::Three, &heap.words, &[heap.root]).ok()?;
    let mut left = Left::nothing(heap);
    for _ in 0..asked.rounds {
        left = slide_once(&survey, heap, to)?;
    }
    Some(left)
}

// Collects.
fn collect_all(alloc: Global, asked: Asked, heap: &Heap, to: &mut [u64]) -> Option<Left> {
    let mut left = Left::nothing(heap);
    for _ in 0..asked.rounds {
        let mut roots = [heap.root];
        let live = collect(alloc, Edition::Three, &heap.words, &mut roots, to).ok()?;
        left = Left {
            live,
            root: roots[0],
        };
    }
    Some(left)
}

// Copies the words of the heap.
fn copy(heap: &Heap, to: &mut [u64]) -> Option<()> {
    if to.len() != heap.words.len() {
        return None;
    }
    to.copy_from_slice(&heap.words);
    Some(())
}

// Copies, and does nothing else.
fn copy_all(asked: Asked, heap: &Heap, to: &mut [u64]) -> Option<Left> {
    for _ in 0..asked.rounds {
        copy(heap, to)?;
    }
    Some(Left::nothing(heap))
}

// Collects copies of the heap within their words.
fn collect_all_in_place(alloc: Global, asked: Asked, heap: &Heap, to: &mut [u64]) -> Option<Left> {
    let mut left = Left::nothing(heap);
    for _ in 0..asked.rounds {
        copy(heap, to)?;
        let mut roots = [heap.root];
        let live = collect_in_place(alloc, Edition::Three, to, &mut roots).ok()?;
        left = Left {
            live,
            root: roots[0],
        };
    }
    Some(left)
}

// Collects by the same tables in each round.
fn collect_all_lent(alloc: Global, asked: Asked, heap: &Heap, to: &mut [u64]) -> Option<Left> {
    let mut tables = Tables::reserve(alloc, heap.words.len()).ok()?;
    let mut left = Left::nothing(heap);
    for _ in 0..asked.rounds {
        let mut roots = [heap.root];
        let words = &heap.words;
        let live = collect_lent(&mut tables, Edition::Three, words, &mut roots, to).ok()?;
        left = Left {
            live,
            root: roots[0],
        };
    }
    Some(left)
}

// Collects by threads.
fn collect_all_by_threads<R: AllocGlobal + Threads + Sync>(
    rt: &R,
    asked: Asked,
    heap: &Heap,
    to: &mut [u64],
) -> Option<Left> {
    let mut left = Left::nothing(heap);
    for _ in 0..asked.rounds {
        let mut roots = [heap.root];
        let live = collect_by_threads(
            rt.alloc(),
            rt,
            Edition::Three,
            &heap.words,
            &mut roots,
            to,
            WORKERS,
        )
        .ok()?;
        left = Left {
            live,
            root: roots[0],
        };
    }
    Some(left)
}

/// What the last round of a mode left, in `to` too; `None` if a round is refused, for memory or for room.
pub fn run<R: AllocGlobal + Threads + Sync>(
    rt: &R,
    asked: Asked,
    mode: Mode,
    heap: &Heap,
    to: &mut [u64],
) -> Option<Left> {
    match mode {
        Mode::Make => Some(Left::nothing(heap)),
        Mode::Clear => survey_all(rt.alloc(), asked, heap, &[]),
        Mode::Mark => survey_all(rt.alloc(), asked, heap, &[heap.root]),
        Mode::Slide => slide_all(rt.alloc(), asked, heap, to),
        Mode::Collect => collect_all(rt.alloc(), asked, heap, to),
        Mode::CollectInPlace => collect_all_in_place(rt.alloc(), asked, heap, to),
        Mode::CollectLent => collect_all_lent(rt.alloc(), asked, heap, to),
        Mode::CollectByThreads => collect_all_by_threads(rt, asked, heap, to),
        Mode::Copy => copy_all(asked, heap, to),
        Mode::MarkByThreads(workers) => survey_all_by_threads(rt, asked, heap, workers),
    }
}
