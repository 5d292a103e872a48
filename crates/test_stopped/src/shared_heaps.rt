//! Large heaps, of which several threads survey some together and leave others to one: it depends on how many objects
//! wait at once, how many references one object has, and how far what waits lies apart.
use heap_layout::{Edition, FROM_SPACE as F, Header};
use std::alloc::{AllocError, Global};
use test_support::Random;

/// A heap.
#[derive(Drop)]
pub struct SharedHeap {
    pub edition: Edition,
    pub words: Vec<u64>,
    pub roots: Vec<u64>,
}

// A reference or a weak word: null, or the address of one of so many objects of four words. One in `stray` leads into
// an object or past the last one; none if that is 0.
fn some_field(random: &mut Random, objects: u64, stray: u64) -> u64 {
    let at = F.wrapping_add(random.below(objects).wrapping_mul(4));
    if random.below(stray) == 1 {
        return at.wrapping_add(random.below(7));
    }
    match random.below(5) {
        0 => 0,
        _ => at,
    }
}

// The addresses of so many of these objects of `size` words, each far from the one before. The first object has the
// address `first`. 7,919 must not divide `objects`.
fn spread(
    alloc: Global,
    first: u64,
    count: u64,
    objects: u64,
    size: u64,
) -> Result<Vec<u64>, AllocError> {
    let mut addresses = Vec::new(alloc);
    for k in 0..count {
        let number = k.wrapping_mul(7_919).checked_rem(objects).unwrap_or(0);
        addresses.push(first.wrapping_add(number.wrapping_mul(size)))?;
    }
    Ok(addresses)
}

/// So many objects of four words: a header, two references and a weak word, which lead to objects anywhere. One in
/// `stray` of them leads astray, and none if that is 0. So many objects from all over the heap have a root.
pub fn scattered(
    alloc: Global,
    edition: Edition,
    objects: u64,
    roots: u64,
    seed: u64,
    stray: u64,
) -> Result<SharedHeap, AllocError> {
    let mut random = Random { state: seed };
    let mut words = Vec::new(alloc);
    for _ in 0..objects {
        words.push(Header::new_weak(2, 1, 0, 1).word())?;
        for _ in 0..3 {
            words.push(some_field(&mut random, objects, stray))?;
        }
    }
    Ok(SharedHeap {
        edition,
        words,
        roots: spread(alloc, F, roots, objects, 4)?,
    })
}

/// So many lists of so many objects of two words, in edition three, and a root for the object at this place of each
/// list. The object with number `i` has a reference to the one before it in its list, which has number `i - lists`.
pub fn lists(alloc: Global, lists: u64, length: u64, place: u64) -> Result<SharedHeap, AllocError> {
    let mut words = Vec::new(alloc);
    for i in 0..lists.wrapping_mul(length) {
        words.push(Header::new(1, 0, 0).word())?;
        words.push(match i.checked_sub(lists) {
            Some(before) => F.wrapping_add(before.wrapping_mul(2)),
            None => 0,
        })?;
    }
    let first = F.wrapping_add(place.wrapping_mul(lists).wrapping_mul(2));
    Ok(SharedHeap {
        edition: Edition::Three,
        words,
        roots: spread(alloc, first, lists, lists, 2)?,
    })
}

// The words of an object of edition three with these references.
fn put_table(words: &mut Vec<u64>, references: &[u64]) -> Result<(), AllocError> {
    let count = references.len() as u64 % (1 << 31);
    if let Some(header) = Header::of_large_counts(count as u32, 0, 0, 0) {
        words.push(header.word())?;
    }
    for reference in references {
        words.push(*reference)?;
    }
    Ok(())
}

/// An object of edition three with so many references, to which the root leads, and so many objects of two words, to
/// which those lead at random. Each of those has a reference to the first.
pub fn table(
    alloc: Global,
    references: u64,
    objects: u64,
    seed: u64,
) -> Result<SharedHeap, AllocError> {
    let mut random = Random { state: seed };
    let first = F.wrapping_add(references).wrapping_add(1);
    let mut leading = Vec::new(alloc);
    for _ in 0..references {
        let number = random.below(objects);
        leading.push(first.wrapping_add(number.wrapping_mul(2)))?;
    }
    let mut words = Vec::new(alloc);
    put_table(&mut words, &leading)?;
    for _ in 0..objects {
        words.push(Header::new(1, 0, 0).word())?;
        words.push(F)?;
    }
    Ok(SharedHeap {
        edition: Edition::Three,
        words,
        roots: vec![in alloc; F]?,
    })
}

// How many objects of a row are long, and how many short ones lie behind them.
const LONG: u64 = 1_024;

const SHORT: u64 = 8_000;

// The addresses of the objects of a row, so many times in order. The first one has the address `first`, and the long
// ones have so many words.
fn in_order(alloc: Global, first: u64, size: u16, times: u64) -> Result<Vec<u64>, AllocError> {
    let size = u64::from(size);
    let short = first.wrapping_add(LONG.wrapping_mul(size));
    let mut addresses = Vec::new(alloc);
    for _ in 0..times {
        for k in 0..LONG {
            addresses.push(first.wrapping_add(k.wrapping_mul(size)))?;
        }
        for k in 0..SHORT {
            addresses.push(short.wrapping_add(k.wrapping_mul(2)))?;
        }
    }
    Ok(addresses)
}

// Adds objects side by side without references: 1,024 of so many words, and 8,000 of two words.
fn put_row(words: &mut Vec<u64>, size: u16) -> Result<(), AllocError> {
    let data_words = size.saturating_sub(1);
    for _ in 0..LONG {
        words.push(Header::new(0, data_words, 0).word())?;
        for _ in 0..data_words {
            words.push(7)?;
        }
    }
    for _ in 0..SHORT {
        words.push(Header::new(0, 1, 0).word())?;
        words.push(7)?;
    }
    Ok(())
}

/// A row of objects in edition three, with a root for each, in order: 1,024 objects of so many words, and 8,000 of two
/// words behind them.
pub fn row(alloc: Global, size: u16) -> Result<SharedHeap, AllocError> {
    let mut words = Vec::new(alloc);
    put_row(&mut words, size)?;
    Ok(SharedHeap {
        edition: Edition::Three,
        words,
        roots: in_order(alloc, F, size, 1)?,
    })
}

/// The same objects behind one that leads to all of them in order, eleven times, and to which the root leads.
pub fn row_behind_table(alloc: Global, size: u16) -> Result<SharedHeap, AllocError> {
    let references = LONG.wrapping_add(SHORT).wrapping_mul(11);
    let first = F.wrapping_add(references).wrapping_add(1);
    let mut words = Vec::new(alloc);
    put_table(&mut words, &in_order(alloc, first, size, 11)?)?;
    put_row(&mut words, size)?;
    Ok(SharedHeap {
        edition: Edition::Three,
        words,
        roots: vec![in alloc; F]?,
    })
}
