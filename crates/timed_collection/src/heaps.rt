//! The heaps that are collected.
use crate::asked::{Asked, Shape};
use crate::shapes::made_of_all;
use heap_layout::{FROM_SPACE, Header};
use std::alloc::{AllocError, Global};

/// A heap of edition three with one root.
#[derive(Drop)]
pub struct Heap {
    pub words: Vec<u64>,
    pub root: u64,
}

// A number that looks as if it were drawn, the same for the same `k`.
fn drawn(k: u64) -> u64 {
    let x = k.wrapping_add(0x9e37_79b9_7f4a_7c15);
    let x = (x ^ (x >> 30)).wrapping_mul(0xbf58_476d_1ce4_e5b9);
    let x = (x ^ (x >> 27)).wrapping_mul(0x94d0_49bb_1331_11eb);
    x ^ (x >> 31)
}

/// A number below `count` that looks as if it were drawn, and 0 if there is none.
pub fn drawn_below(k: u64, count: u32) -> u32 {
    (drawn(k) >> 33).checked_rem(u64::from(count)).unwrap_or(0) as u32
}

// The index of the first word of object `k`.
fn index_of(asked: Asked, k: u32) -> u64 {
    u64::from(k) * u64::from(asked.object_words())
}

// The address of object `k`.
fn address_of(asked: Asked, k: u32) -> u64 {
    FROM_SPACE.wrapping_add(index_of(asked, k))
}

// The numbers of the objects that are reached, rising.
fn reached(alloc: Global, asked: Asked) -> Result<Vec<u32>, AllocError> {
    let mut order = Vec::new(alloc);
    for k in 0..asked.objects() {
        if drawn(u64::from(k)) % 100 < u64::from(asked.live) {
            order.push(k)?;
        }
    }
    Ok(order)
}

// Puts them into an order that looks as if it were drawn.
fn shuffle(order: &mut [u32]) {
    let count = order.len();
    for j in 0..count {
        let k = j + (drawn(j as u64) >> 33) as usize % (count - j);
        order.swap(j, k);
    }
}

// Appends object `k`, whose references lead anywhere, and whose data words count from its number on.
fn push_object(words: &mut Vec<u64>, asked: Asked, k: u32) -> Result<(), AllocError> {
    words.push(Header::new_mixed(asked.refs, 0, asked.data_words, 7).word())?;
    for r in 0..asked.refs {
        let target = drawn_below(u64::from(k) * 7 + u64::from(r), asked.objects());
        words.push(address_of(asked, target))?;
    }
    for d in 0..asked.data_words {
        words.push(u64::from(k) + u64::from(d))?;
    }
    Ok(())
}

// The words of all objects, as if none were reached. The words behind the last one are 0.
fn filled(alloc: Global, asked: Asked) -> Result<Vec<u64>, AllocError> {
    let mut words = Vec::with_capacity(alloc, asked.words as usize)?;
    for k in 0..asked.objects() {
        push_object(&mut words, asked, k)?;
    }
    for _ in words.len()..asked.words as usize {
        words.push(0)?;
    }
    Ok(words)
}

// The address of the object with this place in the order, or null if there is none.
fn address_at(asked: Asked, order: &[u32], place: usize) -> u64 {
    match order.get(place) {
        Some(&k) => address_of(asked, k),
        None => 0,
    }
}

// The place to which a reference leads of the object at place `j`. The first two make a binary tree of all objects.
fn place_of_target(order: &[u32], j: usize, r: u16) -> usize {
    if r < 2 {
        j.wrapping_mul(2).wrapping_add(1 + usize::from(r))
    } else {
        let of = (j as u64).wrapping_mul(5).wrapping_add(u64::from(r));
        (drawn(of) >> 33)
            .checked_rem(order.len() as u64)
            .unwrap_or(0) as usize
    }
}

/// Writes a word, if there is a place for it.
pub fn put(words: &mut [u64], at: u64, word: u64) {
    if let Some(place) = words.get_mut(at as usize) {
        *place = word;
    }
}

// Has the references of the object at place `j` lead to those behind it in the order.
fn link(words: &mut [u64], asked: Asked, order: &[u32], j: usize, k: u32) {
    for r in 0..asked.refs {
        let target = address_at(asked, order, place_of_target(order, j, r));
        put(
            words,
            index_of(asked, k).wrapping_add(1 + u64::from(r)),
            target,
        );
    }
}

// The root leads to a binary tree of the objects that are reached, which lie there level by level, or in an order that
// looks as if it were drawn.
fn made_of_live(alloc: Global, asked: Asked, is_drawn: bool) -> Result<Heap, AllocError> {
    let mut order = reached(alloc, asked)?;
    if is_drawn {
        shuffle(&mut order);
    }
    let mut words = filled(alloc, asked)?;
    for j in 0..order.len() {
        link(&mut words, asked, &order, j, order[j]);
    }
    Ok(Heap {
        words,
        root: address_at(asked, &order, 0),
    })
}

/// The heap that is asked for.
pub fn made(alloc: Global, asked: Asked) -> Result<Heap, AllocError> {
    match asked.shape {
        Shape::Drawn => made_of_live(alloc, asked, true),
        Shape::Levels => made_of_live(alloc, asked, false),
        shape => made_of_all(alloc, asked, shape),
    }
}

/// A number in which each of these words counts, begun with one.
pub fn sum(begun: u64, words: &[u64]) -> u64 {
    let mut sum = begun;
    for &word in words {
        sum = sum.wrapping_mul(31).wrapping_add(word);
    }
    sum
}
