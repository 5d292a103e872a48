//! The loops of calls.
ghost use Rattle.comp_mutator.specs.Mutators.{IsMutatorOf};

use crate::asked::{Asked, Loop};
use crate::heaps::{further, object_at};
use comp_mutator::{Mutator, Space};
use heap_layout::TO_SPACE;
use page_plan::Plan;
use std::alloc::Global;
use std::sync::ledger::Ledger as Named;

/// What a loop did: how many calls answered Ok, the sum of their answers, and how many words were allocated.
#[derive(Clone, Copy)]
pub struct Done {
    pub calls: u64,
    pub sum: u64,
    pub words: u64,
}

impl Done {
    /// Nothing.
    pub const NOTHING: Done = Done {
        calls: 0,
        sum: 0,
        words: 0,
    };

    // With one more answer.
    fn with(self, answer: u64) -> Done {
        Done {
            calls: self.calls.wrapping_add(1),
            sum: self.sum.wrapping_add(answer),
            words: self.words,
        }
    }

    /// What both did.
    pub fn and(self, other: Done) -> Done {
        Done {
            calls: self.calls.wrapping_add(other.calls),
            sum: self.sum.wrapping_add(other.sum),
            words: self.words.wrapping_add(other.words),
        }
    }
}

// Reads references, from the first object on, each of the object that the read before answered.
fn read_all<L: Named>(
    alloc: Global,
    space: &Space<L, Plan>,
    m: &mut Mutator<L>,
    asked: Asked,
) -> Done
    requires of { IsMutatorOf space.now m.old }
    ensures of { IsMutatorOf space.now m.new }
{
    let mut done = Done::NOTHING;
    let mut object = TO_SPACE;
    for _ in 0..asked.calls {
        match space.try_read_ref(alloc, m, object, 0) {
            Ok(answer) => {
                done = done.with(answer);
                object = answer;
            }
            Err(_) => return done,
        }
    }
    done
}

// Writes data words, from the first object on, each into the object that is a step further on. The answers are the
// stamps.
fn write_all<L: Named>(
    alloc: Global,
    space: &Space<L, Plan>,
    m: &mut Mutator<L>,
    asked: Asked,
) -> Done
    requires of { IsMutatorOf space.now m.old }
    ensures of { IsMutatorOf space.now m.new }
{
    let mut done = Done::NOTHING;
    let mut k = 0;
    for value in 0..asked.calls {
        match space.try_write_data(alloc, m, object_at(TO_SPACE, k), 0, u64::from(value)) {
            Ok(stamp) => {
                done = done.with(stamp);
                k = further(asked, k);
            }
            Err(_) => return done,
        }
    }
    done
}

// Makes objects, until the fresh pages are full.
fn alloc_all<L: Named>(
    alloc: Global,
    space: &Space<L, Plan>,
    m: &mut Mutator<L>,
    asked: Asked,
) -> Done
    requires of { IsMutatorOf space.now m.old }
    ensures of { IsMutatorOf space.now m.new }
{
    let mut done = Done::NOTHING;
    for _ in 0..asked.calls {
        match space.try_alloc(alloc, m, 1, 1, 0) {
            Ok(address) => done = done.with(address),
            Err(_) => return done,
        }
    }
    done
}

/// Makes the calls of a loop, until one is refused.
pub fn make_calls<L: Named>(
    alloc: Global,
    space: &Space<L, Plan>,
    m: &mut Mutator<L>,
    asked: Asked,
    which: Loop,
) -> Done
    requires of { IsMutatorOf space.now m.old }
    ensures of { IsMutatorOf space.now m.new }
{
    let done = match which {
        Loop::None => Done::NOTHING,
        Loop::Read => read_all(alloc, space, m, asked),
        Loop::Write => write_all(alloc, space, m, asked),
        Loop::Alloc => alloc_all(alloc, space, m, asked),
    };
    Done {
        words: m.unposted(),
        ..done
    }
}
