//! Pages of a desk, beside what slides at once.
ghost use Rattle.std.specs.Prelude.{◌≡◌, IfSome};
ghost use Rattle.first_touch.specs.Asked.{slid_page};
ghost use Rattle.first_touch.specs.Seen.{IsPutBack};

use crate::expected::{expect_eq, expect_so, expect_words};
use crate::slides::{crosses, found, moved, slid_at_once};
use crate::trees::{put_word, tree};
use first_touch::{Desk, NotBuilt, Sight};
use heap_layout::Header;
use std::alloc::{AllocError, Global};
use std::process::Abort;
use std::thread;
use std::thread::Threads;
use stopped_heap::Places;
use test_support::At;

// One page of a desk, by what its calls promise.
fn page_of<'m>(desk: &Desk<'m>, page: usize) -> Option<&'m mut [u64]>
    ensures { IfSome result (λ own. own.now ≡ slid_page desk.now.asked page) }
{
    match desk.touch(page) {
        Ok(built) => Some(desk.publish(moved(built)).page),
        Err(_) => None,
    }
}

// What a thread saw of a page of a desk that is refused, by what its calls promise.
fn refused_of<'m>(desk: &Desk<'m>, page: usize) -> Option<Sight<'m>>
    ensures { IfSome result (IsPutBack desk.now.id page) }
{
    match desk.touch(page) {
        Err(NotBuilt::Refused(refused)) => Some(moved(refused).sight),
        _ => None,
    }
}

// What was found comes back from a desk that is ended.
fn found_at_the_end(desk: Desk<'_>) -> Option<Places>
    ensures { IfSome result (λ places. places ≡ desk.entry.asked.found) }
{
    match desk.end() {
        Ok(ended) => Some(ended.into_places()),
        Err(_) => None,
    }
}

// Touches each `step`-th page.
fn touch_all(desk: &Desk, step: usize) {
    for page in 0..desk.count() {
        if page % step.max(1) == 0 {
            let _ = page_of(desk, page);
        }
    }
}

#[test]
fn pages_that_are_touched_are_the_collected_heap(rt: HostRuntime) {
    let alloc = rt.alloc();
    let words = tree(alloc, 1000).expect(&rt, "words");
    let places = found(&rt, &words);
    let wanted = slid_at_once(&rt, &places, &words);
    let mut to = vec![in alloc; 7u64; wanted.len()].expect(&rt, "words");
    match Desk::begin(alloc, places, &words, &mut to, 64) {
        Ok(desk) => {
            crosses(&desk);
            touch_all(&desk, 7);
            let desk = match desk.end() {
                Ok(_) => panic!(&rt; "it ended early"),
                Err(refused) => refused.desk,
            };
            touch_all(&desk, 1);
            let _ = found_at_the_end(desk).expect(&rt, "all pages are home");
        }
        Err(_) => panic!(&rt; "a desk"),
    }
    expect_words(&rt, "touched", &to, &wanted);
}

#[test]
fn a_page_that_is_refused_waits_again(rt: HostRuntime) {
    let alloc = rt.alloc();
    let mut words = tree(alloc, 1000).expect(&rt, "words");
    let places = found(&rt, &words);
    let mut to = vec![in alloc; 7u64; places.live_words() as usize].expect(&rt, "words");
    // The first object is another one.
    put_word(&mut words, 3, Header::new(0, 0, 256).word());
    match Desk::begin(alloc, places, &words, &mut to, 64) {
        Ok(desk) => {
            let first = refused_of(&desk, 0).is_some();
            expect_so(&rt, At::new("refused", 0), first);
            let again = refused_of(&desk, 0).is_some();
            expect_so(&rt, At::new("refused", 1), again);
            let next = page_of(&desk, 1).is_some();
            expect_so(&rt, At::new("built", 1), next);
        }
        Err(_) => panic!(&rt; "a desk"),
    }
}

// Touches all pages, by so many threads, each from a page of its own on. Answers how many each thread built.
fn touch_by<R: Threads + Sync>(
    rt: &R,
    alloc: Global,
    desk: &Desk,
    threads: usize,
) -> Result<Vec<u64>, AllocError> {
    thread::map_indices(
        rt,
        alloc,
        threads,
        &|k| {
            let mut built = 0u64;
            for d in 0..desk.count() {
                let page = k.wrapping_mul(5).wrapping_add(d) % desk.count().max(1);
                if page_of(desk, page).is_some() {
                    built = built.saturating_add(1);
                }
            }
            built
        },
    )
}

#[test]
fn each_page_is_built_by_one_of_four_threads(rt: HostRuntime) {
    let alloc = rt.alloc();
    let words = tree(alloc, 5000).expect(&rt, "words");
    let places = found(&rt, &words);
    let wanted = slid_at_once(&rt, &places, &words);
    let mut to = vec![in alloc; 7u64; wanted.len()].expect(&rt, "words");
    match Desk::begin(alloc, places, &words, &mut to, 64) {
        Ok(desk) => {
            let built = touch_by(&rt, alloc, &desk, 4).expect(&rt, "threads");
            let mut sum = 0u64;
            for k in 0..built.len() {
                sum = sum.saturating_add(built[k]);
            }
            expect_eq(&rt, At::new("built", 0), sum, desk.count() as u64);
            let _ = found_at_the_end(desk).expect(&rt, "all pages are home");
        }
        Err(_) => panic!(&rt; "a desk"),
    }
    expect_words(&rt, "touched", &to, &wanted);
}
