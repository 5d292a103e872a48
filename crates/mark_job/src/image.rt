//! The heap that is marked.
ghost use Rattle.std.specs.Prelude.{◌≡◌, ◌^◌, ◌<◌, length, IfSome};
ghost use Rattle.heap_layout.specs.Header.{refs_of, size_of};
ghost use Rattle.heap_layout.specs.Heap.{from_address, header_at, object_at};

use heap_layout::{Edition, FROM_SPACE};
use std::marker::Model;
use stopped_heap::Shape;

/// The words and roots of a heap, which nobody changes.
#[derive(Drop)]
pub struct Image {
    pub(crate) edition: Edition,
    pub(crate) words: Vec<u64>,
    pub(crate) roots: Vec<u64>,
}

impl Model for Image {
    ghost use Rattle.std.specs.Prelude.{◌^◌, ◌≤◌, length};
    ghost use Rattle.mark_job.specs.Asked.{Asked};

    ghost Value = { Asked };

    ghost view = { λ image. record { edition = image.edition; words = image.words.items; roots = image.roots.items } };

    ghost invariant = { λ image. length image.words.items ≤ 2 ^ 31 };
}

impl Image {
    pub(crate) fn edition(&self) -> Edition
        ensures { result ≡ self.now.edition }
    {
        self.edition
    }

    pub(crate) fn words(&self) -> &[u64]
        ensures { result.now ≡ self.now.words }
    {
        &self.words
    }

    pub(crate) fn roots(&self) -> &[u64]
        ensures { result.now ≡ self.now.roots }
    {
        &self.roots
    }

    /// The index of the word whose address this is, if it is that of a word of the heap.
    #[inline(always)]
    pub(crate) fn index_of(&self, word: u64) -> Option<usize>
        ensures small { IfSome result (λ i. i < 2 ^ 32) }
        ensures inside { IfSome result (λ i. i < length self.now.words) }
        ensures address { IfSome result (λ i. word ≡ from_address i) }
    {
        let i = word.wrapping_sub(FROM_SPACE);
        if i >= self.words.len() as u64 {
            return None;
        }
        Some(i as usize)
    }

    /// The references of the object at index `i`, which has this shape. None if it is too long for the edition or ends
    /// past the words.
    #[inline(always)]
    pub(crate) fn references(&self, i: usize, shape: Shape) -> Option<&[u64]>
        requires inside { i < length self.now.words }
        requires refs { shape.refs ≡ refs_of (header_at self.now.edition self.now.words i) }
        requires size { shape.size ≡ size_of (header_at self.now.edition self.now.words i) }
        ensures { IfSome result (λ from. from.now ≡ (object_at self.now.edition self.now.words i).references) }
    {
        if shape.size > self.edition.max_object_words() || shape.size > self.words.len() - i {
            return None;
        }
        Some(&self.words[i + 1..i + 1 + shape.refs])
    }
}
