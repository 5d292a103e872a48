//! The heaps on which calls are made.
use crate::asked::{Asked, OBJECT_WORDS};
use heap_layout::{FROM_SPACE, Header, MarkedHeap, OutOfMemory};
use std::alloc::Global;

/// The address of object `k` of a space that begins at `base`. All objects are marked, so none slides to another index.
pub fn object_at(base: u64, k: u32) -> u64 {
    base.wrapping_add(u64::from(k).wrapping_mul(u64::from(OBJECT_WORDS)))
}

/// The number of the object that is a step further on than object `k`, round the end.
pub fn further(asked: Asked, k: u32) -> u32 {
    let next = k.wrapping_add(asked.step);
    if next < asked.objects {
        next
    } else {
        next.wrapping_sub(asked.objects)
    }
}

// Appends object `k`, whose data word is its number.
fn push_object(words: &mut Vec<u64>, asked: Asked, k: u32) -> Result<(), OutOfMemory> {
    words.reserve(3)?;
    words.push_reserved(Header::new(1, 1, 0).word());
    words.push_reserved(object_at(FROM_SPACE, further(asked, k)));
    words.push_reserved(u64::from(k));
    Ok(())
}

// The words of all objects, and their marks.
fn parts(alloc: Global, asked: Asked) -> Result<(Vec<u64>, Vec<u32>), OutOfMemory> {
    let mut words = Vec::new(alloc);
    let mut marks = Vec::new(alloc);
    for k in 0..asked.objects {
        push_object(&mut words, asked, k)?;
        marks.reserve(1)?;
        marks.push_reserved(k.wrapping_mul(OBJECT_WORDS));
    }
    Ok((words, marks))
}

/// The heap of these objects, all marked, with no roots; `None` if memory runs out.
pub fn chained(alloc: Global, asked: Asked) -> Option<MarkedHeap> {
    let (words, marks) = parts(alloc, asked).ok()?;
    MarkedHeap::from_parts(words, marks, Vec::new(alloc)).ok()
}
