//! The tables of a survey, made before it.
ghost use Rattle.std.specs.Prelude.{◌≡◌, IfOk};

use rest_marks::{LentFault, MarksLentFault};
use std::alloc::{AllocError, Global};
use std::marker::Model;

/// Room for the tables of a survey, so that it allocates nothing: two bits for each word, 8 bytes for each 64 words,
/// and a queue of 4 bytes for each word. They may be used again and again, for any heap that is not larger. Contracts
/// see `room`, the number of words of the largest one.
#[derive(Drop)]
pub struct Tables {
    pub(crate) room: usize,
    pub(crate) heads: Vec<u64>,
    pub(crate) bits: Vec<u64>,
    pub(crate) counts: Vec<u32>,
    pub(crate) starts: Vec<u32>,
    pub(crate) queue: Vec<u32>,
}

impl Model for Tables {
    ghost use Rattle.std.specs.Prelude.{◌*◌, ◌≤◌, vec_capacity};
    ghost use Rattle.stopped_heap.specs.Tables.{Reserved, HaveRoom};

    ghost Value = { Reserved };

    ghost view = { λ tables. record { room = tables.room } };

    ghost invariant = { λ tables. HaveRoom tables.room (vec_capacity tables.heads) (vec_capacity tables.bits) (vec_capacity tables.counts) (vec_capacity tables.queue)
        × (tables.room ≤ 64 * vec_capacity tables.starts) };
}

/// The tables that were lent, and why the heap is not surveyed by them.
#[derive(Drop)]
pub struct NotSurveyed {
    pub fault: LentFault,
    pub tables: Tables,
}

/// The tables that were lent, and why the words are not surveyed in them by marks of the caller's own.
#[derive(Drop)]
pub struct NotTaken {
    pub fault: MarksLentFault,
    pub tables: Tables,
}

impl Tables {
    /// Room for a survey of any heap of at most so many words. Err if an allocation fails.
    ///
    /// The queue is asked for at its most, 4 bytes a word; of it a survey touches 4 bytes for each object that is
    /// reached. Where the system gives memory when it is first touched, the rest costs nothing.
    pub fn reserve(alloc: Global, words: usize) -> Result<Tables, AllocError>
        ensures { IfOk result (λ tables. tables.room ≡ words) }
    {
        let blocks = words.div_ceil(64);
        Ok(Tables {
            room: words,
            heads: Vec::with_capacity(alloc, blocks)?,
            bits: Vec::with_capacity(alloc, blocks)?,
            counts: Vec::with_capacity(alloc, blocks + 1)?,
            starts: Vec::with_capacity(alloc, blocks)?,
            queue: Vec::with_capacity(alloc, words)?,
        })
    }

    /// For a survey of how many words there is room.
    pub fn room(&self) -> usize
        ensures { result ≡ self.now.room }
    {
        self.room
    }
}
