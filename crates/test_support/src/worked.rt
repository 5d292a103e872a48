//! The worked heaps by name, and their plans.
use crate::heaps::{
    counting_heap, counting_object, empty, heap, seventeen_pages, smallest, three, weak,
    zeros_heap, zeros_object,
};
use crate::larger_heaps::{across_blocks, every_second, scattered, step};
use crate::many_fields::{immediates, many_fields, many_roots, mixed};
use heap_layout::{Edition, MarkedHeap};
use page_plan::Plan;
use std::alloc::Global;
use std::thread::Threads;

/// A worked heap.
#[derive(Clone, Copy)]
pub enum Worked {
    /// The empty heap.
    Empty,
    /// One object of one word, which the root refers to.
    Smallest,
    /// Three objects. The first and the last are marked, and the root refers to the last.
    Three,
    /// Three objects of edition two. The first, which has two weak words, and the last are marked, and the root refers
    /// to the last.
    Weak,
    /// An object of one word and one of 1,024 words.
    Seventeen,
    /// An object without references and with this many data words, which count from 1.
    Counting(u16),
    /// An object as that of `Counting`, not marked.
    Unmarked(u16),
    /// An object without references and with this many data words, which are 0.
    Zeros(u16),
    /// Two objects of 640 words without references. Their data words are 0.
    Twenty,
    /// Three objects of 40, 10 and 41 words. The first and the last are marked.
    Step,
    /// Objects of one word, this many. Every second one is marked.
    EverySecond(u32),
    /// A marked object after one that is not marked. Its data is in the next block.
    AcrossBlocks,
    /// Three hundred small pseudorandom objects: the edition, the seed, and how many in four are marked.
    Scattered(Edition, u64, u64),
    /// The three objects of edition two, in edition three.
    Mixed,
    /// The three objects of edition two, in edition four, with a second root that is the immediate with payload 5.
    Immediates,
    /// The three objects of edition two, in edition three, with this many roots, of which number 65,536 and number
    /// 69,999 refer to the last object.
    ManyRoots(u32),
    /// Three objects of edition three with 70,000 references, data words and weak words, after one that is not marked.
    ManyFields,
}

// The object that is not marked.
fn unmarked(alloc: Global, data_words: u16) -> Option<MarkedHeap> {
    heap(alloc, &counting_object(alloc, data_words).ok()?, &[], &[])
}

// The two objects of 640 words.
fn twenty(alloc: Global) -> Option<MarkedHeap> {
    let mut words = zeros_object(alloc, 639).ok()?;
    let second = zeros_object(alloc, 639).ok()?;
    words.extend_from_slice(&second).ok()?;
    heap(alloc, &words, &[0, 640], &[])
}

/// A worked heap, or `None` if memory runs out.
pub fn worked_heap(alloc: Global, worked: Worked) -> Option<MarkedHeap> {
    match worked {
        Worked::Empty => empty(alloc),
        Worked::Smallest => smallest(alloc),
        Worked::Three => three(alloc),
        Worked::Weak => weak(alloc),
        Worked::Seventeen => seventeen_pages(alloc),
        Worked::Counting(data_words) => counting_heap(alloc, data_words),
        Worked::Unmarked(data_words) => unmarked(alloc, data_words),
        Worked::Zeros(data_words) => zeros_heap(alloc, data_words),
        Worked::Twenty => twenty(alloc),
        Worked::Step => step(alloc),
        Worked::EverySecond(count) => every_second(alloc, count),
        Worked::AcrossBlocks => across_blocks(alloc),
        Worked::Scattered(edition, seed, often) => scattered(alloc, edition, seed, 300, often),
        Worked::Mixed => mixed(alloc),
        Worked::Immediates => immediates(alloc),
        Worked::ManyRoots(count) => many_roots(alloc, count),
        Worked::ManyFields => many_fields(alloc),
    }
}

/// The plan of a worked heap, or `None` if memory runs out.
pub fn plan_of(rt: &(impl Threads + Sync), alloc: Global, worked: Worked) -> Option<Plan> {
    Plan::new(alloc, rt, worked_heap(alloc, worked)?).ok()
}
