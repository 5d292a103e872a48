//! What slides at once, and what may cross threads.
ghost use Rattle.std.specs.Prelude.{◌≡◌};

use heap_layout::{Edition, FROM_SPACE as F};
use std::process::Abort;
use stopped_heap::{Places, Survey};

/// What the survey of a tree from its second object on found.
pub fn found(rt: &(impl Abort + AllocGlobal), words: &[u64]) -> Places {
    match Survey::of(rt.alloc(), Edition::One, words, &[F.wrapping_add(3)]) {
        Ok(survey) => survey.release(),
        Err(_) => panic!(rt; "a survey"),
    }
}

/// The words that slide, at once.
pub fn slid_at_once(rt: &(impl Abort + AllocGlobal), places: &Places, words: &[u64]) -> Vec<u64> {
    let live = places.live_words() as usize;
    let mut to = vec![in rt.alloc(); 0u64; live].expect(rt, "words");
    if places.try_slide(words, 0, &mut to).is_err() {
        panic!(rt; "a slide");
    }
    to
}

/// It may be shared by threads, and moved to another one.
pub fn crosses<T: Send + Sync>(value: &T) {
    let _ = value;
}

/// It may be moved to another thread.
pub fn moved<T: Send>(value: T) -> T
    ensures { result ≡ value }
{
    value
}
