//! Writes of many threads at once into the first data word of a heap.
ghost use Rattle.comp_mutator.specs.Mutators.{AreMutatorsOf, IsMutatorOf};

use crate::contention::fights::Fight;
use crate::expected::{expect_eq, expect_so};
use comp_mutator::{Builder, Mutator, Refusal, Space};
use std::alloc::Global;
use std::process::Abort;
use std::sync::Wait;
use std::sync::ledger::Ledger as Named;
use std::thread::{self, Threads};
use test_support::T;

/// The value that a mutator writes at this step: 100 times its number, plus the step.
pub fn value_at(number: u8, step: u64) -> u64 {
    u64::from(number).wrapping_mul(100).wrapping_add(step)
}

// Writes this value. Answers whether an entry was written. The only refusal is Busy, of a write that does not wait, or
// a full journal.
fn writes<L: Named, B: Builder, R: Abort + Wait>(
    rt: &R,
    alloc: Global,
    space: &Space<L, B>,
    m: &mut Mutator<L>,
    value: u64,
    fight: Fight,
) -> bool
    requires of { IsMutatorOf space.now m.old }
    ensures of { IsMutatorOf space.now m.new }
{
    let answer = match fight.waits {
        true => space.write_data(alloc, rt, m, T, 0, value),
        false => space.try_write_data(alloc, m, T, 0, value),
    };
    let busy = !fight.waits && answer == Err(Refusal::Busy(0));
    expect_so(rt, fight.at(value), answer.is_ok() || busy);
    answer.is_ok()
}

// Writes all values of a mutator. Panics unless it counts as many entries as were written.
fn write_all<L: Named, B: Builder, R: Abort + Wait>(
    rt: &R,
    alloc: Global,
    space: &Space<L, B>,
    m: &mut Mutator<L>,
    fight: Fight,
)
    requires of { IsMutatorOf space.now m.old }
    ensures of { IsMutatorOf space.now m.new }
{
    let number = m.number();
    let mut count = 0u64;
    for step in 0..fight.writes {
        if writes(rt, alloc, space, m, value_at(number, step), fight) {
            count = count.wrapping_add(1);
        }
    }
    expect_eq(rt, fight.at(u64::from(number)), m.entries(), count);
}

/// Lets each mutator write in a thread of its own.
pub fn write_at_once<L: Named + Send + Sync, B: Builder, R: Abort + Threads + Wait + Sync>(
    rt: &R,
    alloc: Global,
    space: &Space<L, B>,
    mutators: &mut [Mutator<L>],
    fight: Fight,
)
    requires of { AreMutatorsOf space.now mutators.old }
    ensures of { AreMutatorsOf space.now mutators.new }
{
    thread::for_each_mut(
        rt,
        mutators,
        64,
        &|_number, m: &mut Mutator<L>|
            requires { IsMutatorOf space.now m.old }
            ensures { IsMutatorOf space.entry.now m.new }
        { write_all(rt, alloc, space, m, fight) },
    );
}

/// The number of entries that all mutators wrote.
pub fn count_entries<L: Named>(mutators: &[Mutator<L>]) -> u64 {
    let mut count = 0u64;
    for m in mutators {
        count = count.wrapping_add(m.entries());
    }
    count
}

/// Panics unless one more write is refused because the journal is full, and counts no entry.
pub fn expect_full<L: Named, B: Builder>(
    rt: &impl Abort,
    alloc: Global,
    space: &Space<L, B>,
    mutators: &mut [Mutator<L>],
    fight: Fight,
)
    requires of { AreMutatorsOf space.now mutators.old }
    ensures of { AreMutatorsOf space.now mutators.new }
{
    assert!(rt; mutators.len() > 0);
    let m = &mut mutators[0];
    let before = m.entries();
    let answer = space.try_write_data(alloc, m, T, 0, 0);
    let after = m.entries();
    expect_eq(rt, fight.at(before), answer, Err(Refusal::JournalFull(0)));
    expect_eq(rt, fight.at(before), after, before);
}
