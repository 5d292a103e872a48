//! Pages of turns, which are lent at each call, beside what slides at once.
ghost use Rattle.std.specs.Prelude.{◌≡◌, true, IfSome};
ghost use Rattle.first_touch.specs.Asked.{slid_page};
ghost use Rattle.first_touch.specs.Seen.{asked_of, IsPutBack};

use crate::expected::{expect_eq, expect_so, expect_words};
use crate::slides::{crosses, found, moved, slid_at_once};
use crate::trees::{put_word, tree};
use first_touch::{Turn, TurnSight, Turns};
use heap_layout::Header;
use std::sync::Arc;
use stopped_heap::Places;
use test_support::At;

// One page of turns, by what their calls promise.
fn fill(turns: &Turns, page: usize, words: &[u64], part: &mut [u64]) -> bool
    ensures { result ≡ true → part.new ≡ slid_page (asked_of turns.now words.now) page }
{
    let Ok(turn) = turns.claim(page) else {
        return false;
    };
    match turns.build(moved(turn), words, part) {
        Ok(filled) => {
            let _home = turns.publish(moved(filled));
            true
        }
        Err(_) => false,
    }
}

// What a thread saw of a page of turns that is refused, by what their calls promise.
fn refused_turn(turns: &Turns, turn: Turn, words: &[u64], part: &mut [u64]) -> Option<TurnSight>
    requires { turn.desk ≡ turns.now.id }
    ensures { IfSome result (IsPutBack turns.now.id turn.page) }
{
    match turns.build(turn, words, part) {
        Ok(_) => None,
        Err(refused) => Some(moved(refused).sight),
    }
}

// What was found comes back from turns that are ended.
fn found_of(turns: Turns) -> Option<Arc<Places>>
    ensures { IfSome result (λ places. places.value ≡ turns.found) }
{
    match turns.end() {
        Ok(ended) => Some(ended.into_places()),
        Err(_) => None,
    }
}

// Whether a page of turns waits and is refused.
fn is_refused(turns: &Turns, page: usize, words: &[u64], part: &mut [u64]) -> bool {
    match turns.claim(page) {
        Ok(turn) => refused_turn(turns, turn, words, part).is_some(),
        Err(_) => false,
    }
}

// Fills all pages of so many words. Answers how many.
fn fill_all(turns: &Turns, words: &[u64], to: &mut [u64], size: usize) -> usize {
    let mut filled = 0usize;
    for page in 0..turns.count() {
        let first = page.saturating_mul(size).min(to.len());
        let end = first.saturating_add(size).min(to.len());
        if fill(turns, page, words, &mut to[first..end]) {
            filled = filled.saturating_add(1);
        }
    }
    filled
}

#[test]
fn pages_that_are_lent_at_each_call_are_the_collected_heap(rt: HostRuntime) {
    let alloc = rt.alloc();
    let mut words = tree(alloc, 1000).expect(&rt, "words");
    let places = found(&rt, &words);
    let wanted = slid_at_once(&rt, &places, &words);
    let mut to = vec![in alloc; 7u64; wanted.len()].expect(&rt, "words");
    let places = Arc::new(alloc, places).expect(&rt, "a share");
    let turns = match Turns::begin(alloc, places, 100) {
        Ok(turns) => turns,
        Err(_) => panic!(&rt; "turns"),
    };
    expect_so(&rt, At::new("pages", 0), turns.count() > 1);
    // The first object is another one for a while, so the first page is refused.
    crosses(&turns);
    let header = put_word(&mut words, 3, Header::new(0, 0, 256).word());
    let refused = is_refused(&turns, 0, &words, &mut to);
    expect_so(&rt, At::new("refused", 0), refused);
    let _ = fill_all(&turns, &words, &mut to, 100);
    put_word(&mut words, 3, header);
    let filled = fill_all(&turns, &words, &mut to, 100);
    expect_eq(&rt, At::new("filled", 0), filled, 1);
    let _ = found_of(turns).expect(&rt, "all pages are home");
    expect_words(&rt, "lent", &to, &wanted);
}
