//! What slides.
ghost use Rattle.std.specs.Prelude.{◌≡◌, length};

use std::marker::Model;
use stopped_heap::Places;

/// What a survey found, the words of from-space, and how many words a page has. The last page may have fewer. Nobody
/// changes it.
#[derive(Drop)]
pub struct Source<'m> {
    pub(crate) places: Places,
    pub(crate) words: &'m [u64],
    pub(crate) size: usize,
}

impl<'m> Model for Source<'m> {
    ghost use Rattle.first_touch.specs.Asked.{Asked};

    ghost Value = { Asked };

    ghost view = { λ source. record {
      found = source.places;
      words = source.words.now;
      size = source.size;
    } };
}

impl<'m> Source<'m> {
    /// How many words slide.
    pub(crate) fn live_words(&self) -> u64
        ensures { result ≡ length self.now.found.indices }
    {
        self.places.live_words()
    }

    /// How many words a page has.
    pub(crate) fn size(&self) -> usize
        ensures { result ≡ self.now.size }
    {
        self.size
    }
}
