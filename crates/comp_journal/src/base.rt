ghost use Rattle.std.specs.Prelude.{◌≡◌, ℕ, List};
ghost use base.Fml.{ftrue};

use heap_layout::PAGE_WORDS;
use std::marker::Model;

// The words that a page began with, which clauses alone know: it has no bytes and owns nothing, and may go to any
// thread.
#[derive(Drop)]
pub(crate) struct Base {
    pub(crate) ghost words: { List ℕ },
}

impl Model for Base {
    ghost also_owns = { λ _. ftrue };
}

impl Base {
    // What a page is known to begin with.
    pub(crate) fn of(words: &[u64; PAGE_WORDS]) -> Base
        ensures { result.words ≡ words.now }
    {
        Base {}
    }
}

unsafe impl Send for Base {}

unsafe impl Sync for Base {}
