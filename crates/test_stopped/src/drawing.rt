//! Pseudorandom heaps of the plain model.
use crate::plain_heap::{Plain, PlainHeap};
use heap_layout::{Edition, FIRST_IMMEDIATE as I, FROM_SPACE as F};
use std::alloc::{AllocError, Global};
use test_support::Random;

// The most words of a heap.
const MOST_WORDS: u64 = 300;

/// A word that may be anything: a large number, an address, a header of a small object, an immediate.
pub fn garbage(random: &mut Random) -> u64 {
    match random.below(6) {
        0 => random.below(1 << 31).wrapping_mul(8_589_934_593),
        1 => F.wrapping_add(random.below(MOST_WORDS)),
        2 => random.below(4) | random.below(4) << 16,
        3 => I.wrapping_add(F).wrapping_add(random.below(MOST_WORDS)),
        4 => u64::MAX,
        _ => random.below(3),
    }
}

// The numbers of references, weak words and data words of an object. Few objects have many of a kind.
fn counts(edition: Edition, random: &mut Random) -> (u64, u64, u64) {
    let refs = random.below(4);
    let weak = match edition {
        Edition::One => 0,
        Edition::Two | Edition::Three | Edition::Four => random.below(3),
    };
    let data = random.below(4);
    match random.below(24) {
        0 => (refs, weak, random.below(140)),
        1 => (random.below(70), weak, data),
        _ => (refs, weak, data),
    }
}

// The word of a header with these counts and some tag, worked out bit by bit. Editions three and four have headers of
// four forms, of which one is drawn that can say the counts.
fn header(edition: Edition, counts: (u64, u64, u64), random: &mut Random) -> u64 {
    let (refs, weak, data) = counts;
    let tag = random.below(16_384) << 48;
    let mixed = refs | data << 16 | weak << 32 | tag;
    match edition {
        Edition::One | Edition::Two => mixed,
        Edition::Three | Edition::Four => match random.below(3) {
            0 if weak == 0 => refs | data << 31 | tag | 1 << 62,
            1 if weak == 0 => data | refs << 31 | tag | 2 << 62,
            2 if refs == 0 => weak | data << 31 | tag | 3 << 62,
            _ => mixed,
        },
    }
}

impl PlainHeap {
    // Adds words that are no object.
    fn put_garbage(&mut self, random: &mut Random, words: u64) -> Result<(), AllocError> {
        for _ in 0..words {
            self.words.push(garbage(random))?;
        }
        Ok(())
    }

    // Adds a gap and an object behind it, if they end within so many words. Answers whether they do.
    fn put_object(&mut self, random: &mut Random, limit: u64) -> Result<bool, AllocError> {
        let gap = random.below(6).saturating_sub(2);
        let counts = counts(self.edition, random);
        let (refs, weak, data) = counts;
        let object = Plain {
            at: self.count().saturating_add(gap),
            header: header(self.edition, counts, random),
            refs,
            weak,
            data,
            kept: false,
            to: 0,
        };
        if object.end() > limit {
            return Ok(false);
        }
        self.put_garbage(random, gap)?;
        self.words.push(object.header)?;
        self.put_garbage(random, object.size().saturating_sub(1))?;
        self.objects.push(object)?;
        Ok(true)
    }

    // The address of some object, or null if there is none.
    fn some_object(&self, random: &mut Random) -> u64 {
        let number = random.below(self.objects.len() as u64);
        match self.objects.get(number as usize) {
            Some(object) => object.address(),
            None => 0,
        }
    }

    // A root or a reference: null, an immediate, or the address of an object.
    fn some_value(&self, random: &mut Random) -> u64 {
        match random.below(8) {
            0 => 0,
            1 if self.edition == Edition::Four => match random.below(3) {
                0 => I,
                1 => u64::MAX,
                _ => I.wrapping_add(self.some_object(random)),
            },
            _ => self.some_object(random),
        }
    }

    // A weak word: it may also lead to a word that is no object.
    fn some_weak(&self, random: &mut Random) -> u64 {
        match random.below(4) {
            0 => F.wrapping_add(random.below(self.count())),
            _ => self.some_value(random),
        }
    }

    // Draws the references and weak words of all objects.
    fn draw_fields(&mut self, random: &mut Random) {
        for number in 0..self.objects.len() {
            let Some(object) = self.objects.get(number).copied() else {
                continue;
            };
            for at in object.first_ref()..object.first_weak() {
                let value = self.some_value(random);
                self.set(at, value);
            }
            for at in object.first_weak()..object.first_data() {
                let value = self.some_weak(random);
                self.set(at, value);
            }
        }
    }

    /// Makes the words of all objects that are not kept anything.
    pub fn scribble(&mut self, random: &mut Random) {
        for number in 0..self.objects.len() {
            let Some(object) = self.objects.get(number).copied() else {
                continue;
            };
            if !object.kept {
                for at in object.at..object.end() {
                    self.set(at, garbage(random));
                }
            }
        }
    }

    /// A heap of this edition, marked and slid. In one of two heaps the last object ends at the last word, and in one
    /// of two no object is left that is not kept.
    pub fn draw(
        alloc: Global,
        edition: Edition,
        random: &mut Random,
    ) -> Result<PlainHeap, AllocError> {
        let mut heap = PlainHeap {
            edition,
            words: Vec::new(alloc),
            objects: Vec::new(alloc),
            roots: Vec::new(alloc),
        };
        let limit = random.below(MOST_WORDS + 1);
        for _ in 0..limit {
            if !heap.put_object(random, limit)? {
                break;
            }
        }
        if random.below(2) == 0 {
            let rest = limit.saturating_sub(heap.count());
            heap.put_garbage(random, rest)?;
        }
        heap.draw_fields(random);
        for _ in 0..random.below(12) {
            let root = heap.some_value(random);
            heap.roots.push(root)?;
        }
        heap.mark();
        heap.slide();
        if random.below(2) == 0 {
            heap.scribble(random);
        }
        Ok(heap)
    }
}
