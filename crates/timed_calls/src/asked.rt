//! What the words ask.
use heap_layout::MAX_WORDS;

/// The number of words of an object: a header, a reference and a data word.
pub const OBJECT_WORDS: u32 = 3;

/// A loop of calls.
#[derive(Clone, Copy)]
pub enum Loop {
    /// No calls.
    None,
    /// Reads: each reads the reference of the object that the one before answered.
    Read,
    /// Writes of data words: each into the object that is a step further on.
    Write,
    /// Allocations of objects, until the fresh pages are full.
    Alloc,
}

/// What the words ask of each loop.
#[derive(Clone, Copy)]
pub struct Asked {
    /// The most calls on each heap.
    pub calls: u32,
    /// The number of objects of a heap.
    pub objects: u32,
    /// How many objects further on the object is that an object refers to, and that is written next.
    pub step: u32,
    /// How many heaps are made.
    pub heaps: u32,
}

// The number that the word at a position is.
fn number(words: &[String], at: usize) -> Option<u32> {
    words.get(at)?.parse::<u32>().ok()
}

/// What the first four words ask; `None` if they are not four numbers, or a heap would have no object or too many, or
/// the step is not below the number of objects.
pub fn asked_by(words: &[String]) -> Option<Asked> {
    let asked = Asked {
        calls: number(words, 0)?,
        objects: number(words, 1)?,
        step: number(words, 2)?,
        heaps: number(words, 3)?,
    };
    let most = MAX_WORDS as u32 / OBJECT_WORDS;
    if asked.objects > most || asked.step >= asked.objects {
        return None;
    }
    Some(asked)
}

/// The loop of this name.
pub fn loop_of(name: &str) -> Option<Loop> {
    match name {
        "none" => Some(Loop::None),
        "read" => Some(Loop::Read),
        "write" => Some(Loop::Write),
        "alloc" => Some(Loop::Alloc),
        _ => None,
    }
}
