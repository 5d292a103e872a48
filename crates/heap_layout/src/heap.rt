ghost use Rattle.std.specs.Prelude.{◌≡◌, ◌<◌, length, IfOk, IfErr};
ghost use Rattle.std.specs.List.{flat_map};
ghost use Rattle.heap_layout.specs.Heap.{header_at, objects, words_of, IsStored, IsClosed};
ghost use Rattle.heap_layout.specs.Faults.{faults, IsAccepted, IsAnswered};
ghost use Rattle.heap_layout.specs.declared.edition.Edition.TheVariants.{One};

use crate::checks;
use crate::edition::Edition;
use crate::fault::LayoutFault;
use crate::header::Header;
use std::marker::Model;

/// A heap as marking left it: the from-space words, the rising indices of the marked objects, and the roots. The words
/// are objects side by side, without gaps. Every root, and every reference of a marked object, is null or the address
/// of a marked object. Every weak word of a marked object is null or the address of an object. In edition four each of
/// them may also be an immediate. From-space word `i` has the address `2^32 + i`.
#[derive(Debug, Drop)]
pub struct MarkedHeap {
    edition: Edition,
    words: Vec<u64>,
    marks: Vec<u32>,
    roots: Vec<u64>,
}

impl Model for MarkedHeap {
    ghost use Rattle.heap_layout.specs.Heap.{Heap};
    ghost use Rattle.heap_layout.specs.Faults.{IsAccepted};

    ghost Value = { Heap };

    ghost view = { λ heap. record { edition = heap.edition; words = heap.words.items; marks = heap.marks.items; roots = heap.roots.items } };

    ghost invariant = { λ heap. IsAccepted (record { edition = heap.edition; words = heap.words.items; marks = heap.marks.items; roots = heap.roots.items }) };
}

impl MarkedHeap {
    /// Makes a heap of edition one from words, marks and roots, as `from_parts_of` does.
    pub fn from_parts(
        words: Vec<u64>,
        marks: Vec<u32>,
        roots: Vec<u64>,
    ) -> Result<MarkedHeap, LayoutFault>
        ensures made { IfOk result (λ heap. heap ≡ record { edition = One; words = words.items; marks = marks.items; roots = roots.items }) }
        ensures accepted { IfOk result IsAccepted }
        ensures stored { IfOk result IsStored }
        ensures fault { IfErr result
            (IsAnswered (faults (record { edition = One; words = words.items; marks = marks.items; roots = roots.items }))) }
    {
        MarkedHeap::from_parts_of(Edition::One, words, marks, roots)
    }

    /// Makes a heap of this edition from words, marks and roots. Err with the first fault if the heap is not accepted.
    /// It allocates a bit for each word, and `OutOfMemory` may replace any other answer but `TooLarge`.
    pub fn from_parts_of(
        edition: Edition,
        words: Vec<u64>,
        marks: Vec<u32>,
        roots: Vec<u64>,
    ) -> Result<MarkedHeap, LayoutFault>
        ensures made { IfOk result (λ heap. heap ≡ record { edition = edition; words = words.items; marks = marks.items; roots = roots.items }) }
        ensures accepted { IfOk result IsAccepted }
        ensures stored { IfOk result IsStored }
        ensures fault { IfErr result
            (IsAnswered (faults (record { edition = edition; words = words.items; marks = marks.items; roots = roots.items }))) }
    {
        let alloc = *words.allocator();
        checks::check(alloc, edition, &words, &marks, &roots)?;
        Ok(MarkedHeap {
            edition,
            words,
            marks,
            roots,
        })
    }

    /// Makes a heap of this edition from words, marks and roots that are known to be accepted. It looks at none of
    /// them, and does not allocate.
    pub fn of_accepted(
        edition: Edition,
        words: Vec<u64>,
        marks: Vec<u32>,
        roots: Vec<u64>,
    ) -> MarkedHeap
        requires { IsAccepted (record { edition = edition; words = words.items; marks = marks.items; roots = roots.items }) }
        ensures made { result ≡ record { edition = edition; words = words.items; marks = marks.items; roots = roots.items } }
        ensures stored { IsStored result }
    {
        MarkedHeap {
            edition,
            words,
            marks,
            roots,
        }
    }

    /// The layout by which the objects are read.
    pub fn edition(&self) -> Edition
        ensures { result ≡ self.now.edition }
    {
        self.edition
    }

    /// The from-space words, from index 0 on: the words of all objects, one object after the other.
    pub fn words(&self) -> &[u64]
        ensures words { result.now ≡ self.now.words }
        ensures accepted { IsAccepted self.now }
        ensures row { self.now.words ≡ flat_map words_of (objects self.now) }
        ensures closed { IsClosed self.now }
    {
        &self.words
    }

    /// The word at index `i`, read as a header. There must be a word at `i`.
    pub fn header_at(&self, i: usize) -> Header
        requires { i < length self.now.words }
        ensures { result ≡ header_at self.now.edition self.now.words i }
    {
        Header::from_word_of(self.edition, self.words[i])
    }

    /// The indices of the marked objects, rising.
    pub fn marks(&self) -> &[u32]
        ensures marks { result.now ≡ self.now.marks }
        ensures closed { IsClosed self.now }
    {
        &self.marks
    }

    /// The roots. Each is null or the address of a marked object, or in edition four an immediate.
    pub fn roots(&self) -> &[u64]
        ensures roots { result.now ≡ self.now.roots }
        ensures closed { IsClosed self.now }
    {
        &self.roots
    }
}
