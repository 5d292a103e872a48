ghost use Rattle.std.specs.Prelude.{◌≡◌};

use heap_layout::Edition;
use std::marker::Model;

/// What a moving collection left: the new place of each marked object, as a to-space index in words, in the order of
/// the marks; the roots, each a to-space address, or 0 for null; and the words of to-space, from index 0 on. To-space
/// word `i` has the address `2^33 + i`. Nothing is checked before it is judged.
#[derive(Debug, Drop)]
pub struct MovedHeap {
    edition: Edition,
    places: Vec<u32>,
    roots: Vec<u64>,
    words: Vec<u64>,
}

impl Model for MovedHeap {
    ghost use Rattle.moved_heaps.specs.Moved.{Moved};

    ghost Value = { Moved };

    ghost view = { λ moved. record { edition = moved.edition; places = moved.places.items; roots = moved.roots.items; words = moved.words.items } };
}

impl MovedHeap {
    /// Makes a moved heap of these parts, whatever they are.
    pub fn new(edition: Edition, places: Vec<u32>, roots: Vec<u64>, words: Vec<u64>) -> MovedHeap
        ensures { result ≡ record { edition = edition; places = places.items; roots = roots.items; words = words.items } }
    {
        MovedHeap {
            edition,
            places,
            roots,
            words,
        }
    }

    /// The layout by which the objects are read.
    pub fn edition(&self) -> Edition
        ensures { result ≡ self.now.edition }
    {
        self.edition
    }

    /// The new place of each marked object: its to-space index, in words, in the order of the marks.
    pub fn places(&self) -> &[u32]
        ensures { result.now ≡ self.now.places }
    {
        &self.places
    }

    /// The roots: to-space addresses, or 0 for null.
    pub fn roots(&self) -> &[u64]
        ensures { result.now ≡ self.now.roots }
    {
        &self.roots
    }

    /// The words of to-space, from index 0 on.
    pub fn words(&self) -> &[u64]
        ensures { result.now ≡ self.now.words }
    {
        &self.words
    }
}
