//! If an allocation is refused, as a switch of the test run asks, a collection changes nothing, and says so.
use crate::expected::{expect_eq, expect_words};
use crate::plain_heap::BEFORE;
use heap_layout::{Edition, FROM_SPACE as F};
use std::alloc::{AllocError, Global};
use std::process::Abort;
use stopped_heap::{CollectFault, MarksFault, Survey, SurveyFault, collect, collect_by_threads};
use test_support::At;

// Twenty objects, each of a header and a reference to the next one. The last reference is null. They lie behind a word
// that is no object.
fn chain() -> [u64; 41] {
    let mut words = [0; 41];
    for (at, word) in words.iter_mut().enumerate() {
        *word = match at {
            0 => u64::MAX,
            40 => 0,
            _ if at % 2 == 1 => 1,
            _ => F.saturating_add(at as u64).saturating_add(1),
        };
    }
    words
}

// The same objects after the slide, and a word behind them that is as it was.
fn slid() -> [u64; 41] {
    let mut words = [BEFORE; 41];
    for (at, word) in words.iter_mut().enumerate() {
        *word = match at {
            39 => 0,
            40 => BEFORE,
            _ if at % 2 == 0 => 1,
            _ => F.saturating_add(at as u64).saturating_add(1),
        };
    }
    words
}

fn judge(rt: &impl Abort, answer: Result<u64, CollectFault>, roots: &[u64], to: &[u64]) {
    match answer {
        Ok(live) => {
            expect_eq(rt, At::new("live", 0), live, 40);
            expect_words(rt, "roots", roots, &[F, 0]);
            expect_words(rt, "to", to, &slid());
        }
        Err(fault) => {
            let wanted = CollectFault::Survey(SurveyFault::OutOfMemory);
            expect_eq(rt, At::new("fault", 0), fault, wanted);
            expect_words(rt, "roots", roots, &[F + 1, 0]);
            expect_words(rt, "to", to, &[BEFORE; 41]);
        }
    }
}

#[test]
fn a_collection_without_memory_changes_nothing(rt: HostRuntime) {
    let mut roots = [F + 1, 0];
    let mut to = [BEFORE; 41];
    let answer = collect(rt.alloc(), Edition::Two, &chain(), &mut roots, &mut to);
    judge(&rt, answer, &roots, &to);
}

#[test]
fn a_collection_by_threads_without_memory_changes_nothing(rt: HostRuntime) {
    let mut roots = [F + 1, 0];
    let mut to = [BEFORE; 41];
    let words = chain();
    let edition = Edition::Four;
    let answer = collect_by_threads(rt.alloc(), &rt, edition, &words, &mut roots, &mut to, 3);
    judge(&rt, answer, &roots, &to);
}

// After a survey that was refused memory the next one is whole.
#[test]
fn surveys_without_memory_are_refused(rt: HostRuntime) {
    let words = chain();
    let roots = [F + 1, 0];
    let mut surveyed = 0;
    for _ in 0..2 {
        match Survey::of(rt.alloc(), Edition::Two, &words, &roots) {
            Ok(survey) => {
                expect_eq(&rt, At::new("live", 0), survey.live_words(), 40);
                surveyed = 1;
            }
            Err(fault) => expect_eq(&rt, At::new("of", 0), fault, SurveyFault::OutOfMemory),
        }
    }
    expect_eq(&rt, At::new("surveyed", 0), surveyed, 1);
}

// The marks are the odd bits below 40.
#[test]
fn surveys_by_marks_without_memory_are_refused(rt: HostRuntime) {
    const MARKS: u64 = 0xaa_aaaa_aaaa;
    let words = chain();
    let roots = [F + 1, 0];
    let mut surveyed = 0;
    for _ in 0..2 {
        match Survey::of_marks(rt.alloc(), Edition::Two, &words, &roots, &[MARKS]) {
            Ok(survey) => {
                expect_eq(&rt, At::new("live", 0), survey.live_words(), 40);
                surveyed = 1;
            }
            Err(fault) => expect_eq(&rt, At::new("of_marks", 0), fault, MarksFault::OutOfMemory),
        }
    }
    expect_eq(&rt, At::new("surveyed", 0), surveyed, 1);
}

// The addresses of the first words, each far from the one before: threads are started only then. 7,919 must not divide
// their number.
fn addresses(alloc: Global, count: u64) -> Result<Vec<u64>, AllocError> {
    let mut addresses = Vec::new(alloc);
    for at in 0..count {
        let word = at.saturating_mul(7_919).checked_rem(count).unwrap_or(0);
        addresses.push(F.saturating_add(word))?;
    }
    Ok(addresses)
}

// Each word is an object, and so many roots are followed by threads. Where one allocation is refused meanwhile, one
// thread surveys alone.
#[test]
fn a_survey_by_threads_is_made_though_memory_was_refused_once(rt: HostRuntime) {
    let Ok(words) = vec![in rt.alloc(); 0; 70_000] else {
        return;
    };
    let Ok(roots) = addresses(rt.alloc(), 9_000) else {
        return;
    };
    let survey = Survey::of_by_threads(rt.alloc(), &rt, 3, Edition::Three, &words, &roots);
    let live = match survey {
        Ok(survey) => survey.live_words(),
        Err(_) => 0,
    };
    expect_eq(&rt, At::new("live", 0), live, 9_000);
}
