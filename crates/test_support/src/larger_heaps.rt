//! Heaps of more than one block, of many objects, and of pseudorandom objects.
use crate::heaps::{F, heap, heap_of};
use heap_layout::{Edition, Header, MarkedHeap};
use std::alloc::{AllocError, Global};

/// Three objects of 40, 10 and 41 words. The first and the last are marked, and the last refers to itself. Its data
/// counts from 1.
pub fn step(alloc: Global) -> Option<MarkedHeap> {
    let mut words = [0u64; 91];
    words[0] = Header::new(0, 39, 0).word();
    words[40] = Header::new(0, 9, 0).word();
    words[50] = Header::new(1, 39, 0).word();
    words[51] = F + 50;
    for k in 1..40usize {
        words[51 + k] = k as u64;
    }
    heap(alloc, &words, &[0, 50], &[])
}

// Appends `count` objects of one word, whose tags are their indices, and a mark for every second one.
fn push_objects(words: &mut Vec<u64>, marks: &mut Vec<u32>, count: u32) -> Result<(), AllocError> {
    for i in 0..count {
        words.push(Header::new(0, 0, i).word())?;
        if i % 2 == 0 {
            marks.push(i)?;
        }
    }
    Ok(())
}

/// `count` objects of one word. The tag of each is its index, and every second one is marked.
pub fn every_second(alloc: Global, count: u32) -> Option<MarkedHeap> {
    let mut words = Vec::new(alloc);
    let mut marks = Vec::new(alloc);
    push_objects(&mut words, &mut marks, count).ok()?;
    heap(alloc, &words, &marks, &[])
}

/// An object of 63 words that is not marked, and a marked one after it, whose data is in the next block.
pub fn across_blocks(alloc: Global) -> Option<MarkedHeap> {
    let mut words = [0u64; 66];
    words[0] = Header::new(0, 62, 0).word();
    words[63] = Header::new(0, 2, 0).word();
    words[64] = 5;
    words[65] = 6;
    heap(alloc, &words, &[63], &[])
}

// The next pseudorandom number.
fn next(state: u64) -> u64 {
    state
        .wrapping_mul(6_364_136_223_846_793_005)
        .wrapping_add(1_442_695_040_888_963_407)
}

// A heap that is drawn: its words and marks, the starts of its objects, and the indices of its weak words.
#[derive(Drop)]
struct Drawn {
    edition: Edition,
    words: Vec<u64>,
    marks: Vec<u32>,
    starts: Vec<u64>,
    weak_words: Vec<usize>,
}

impl Drawn {
    // Draws objects. References refer to the marked object before. Answers the last state.
    fn draw(&mut self, seed: u64, objects: u32, often: u64) -> Result<u64, AllocError> {
        let mut state = seed;
        let mut target = 0;
        for _ in 0..objects {
            state = next(state);
            let start = self.words.len();
            self.starts.push(F.saturating_add(start as u64))?;
            if (state >> 20) % 4 < often {
                self.marks.push(u32::try_from(start).unwrap_or(u32::MAX))?;
                target = F.saturating_add(start as u64);
            }
            self.push(state, target)?;
        }
        Ok(state)
    }

    // Appends an object of up to 3 references, all to one target, up to 4 data words, and except in edition one up to 2
    // weak words, which are null.
    fn push(&mut self, state: u64, target: u64) -> Result<(), AllocError> {
        let refs = ((state >> 33) % 4) as u16;
        let data_words = ((state >> 40) % 5) as u16;
        let weak = match self.edition {
            Edition::One => 0,
            Edition::Two | Edition::Three | Edition::Four => ((state >> 47) % 3) as u16,
        };
        let header = match self.edition {
            Edition::One => Header::new(refs, data_words, 7),
            Edition::Two => Header::new_weak(refs, weak, data_words, 7),
            Edition::Three | Edition::Four => Header::new_mixed(refs, weak, data_words, 7),
        };
        self.words.push(header.word())?;
        for _ in 0..refs {
            self.words.push(target)?;
        }
        for _ in 0..weak {
            self.weak_words.push(self.words.len())?;
            self.words.push(0)?;
        }
        for k in 0..data_words {
            self.words.push(state ^ u64::from(k))?;
        }
        Ok(())
    }
}

// Puts the start of some object, marked or not, into each of these weak words, or leaves it null.
fn scatter(words: &mut [u64], weak_words: &[usize], starts: &[u64], seed: u64) {
    let mut state = seed;
    for at in weak_words {
        state = next(state);
        let target = (state >> 33).checked_rem(starts.len() as u64).unwrap_or(0);
        if let (Some(word), Some(start)) = (words.get_mut(*at), starts.get(target as usize)) {
            if (state >> 20) % 8 > 0 {
                *word = *start;
            }
        }
    }
}

/// A heap of small pseudorandom objects. References refer to the marked object before, and weak words to any object.
/// Of four objects `often` are marked.
pub fn scattered(
    alloc: Global,
    edition: Edition,
    seed: u64,
    objects: u32,
    often: u64,
) -> Option<MarkedHeap> {
    let mut drawn = Drawn {
        edition,
        words: Vec::new(alloc),
        marks: Vec::new(alloc),
        starts: Vec::new(alloc),
        weak_words: Vec::new(alloc),
    };
    let state = drawn.draw(seed, objects, often).ok()?;
    scatter(&mut drawn.words, &drawn.weak_words, &drawn.starts, state);
    heap_of(alloc, edition, &drawn.words, &drawn.marks, &[])
}
