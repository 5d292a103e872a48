//! Heaps that are flipped and finished.
ghost use Rattle.std.specs.Prelude.{◌≡◌};
ghost use Rattle.comp_mutator.specs.Mutators.{setup_of, AreMutatorsOf};

use crate::expected::expect_eq;
use comp_mutator::{Builder, FinishFault, Finished, Mutator, Space, Unfinished, flip};
use std::alloc::Global;
use std::process::Abort;
use std::sync::Arc;
use std::sync::ledger::{Blank, Ledger as Named};
use test_support::At;

/// The builder, shared.
pub fn shared<B: Builder>(rt: &impl Abort, alloc: Global, builder: B) -> Arc<B> {
    let Ok(builder) = Arc::new(alloc, builder) else {
        panic!(rt; "memory for the builder");
    };
    builder
}

/// A flipped heap and its mutators.
pub fn flipped<L: Named, B: Builder>(
    rt: &impl Abort,
    alloc: Global,
    blank: Blank,
    builder: Arc<B>,
    mutators: u8,
    fresh_pages: u32,
) -> (Space<L, B>, Vec<Mutator<L>>)
    requires name { blank.name ≡ L.name }
    requires parts { blank.parts ≡ L.parts }
    requires count { blank.parts ≡ mutators }
    ensures of { AreMutatorsOf result.0 result.1.items }
    ensures whole { (setup_of result.0).mutators ≡ L.parts }
{
    let Ok(flipped) = flip(alloc, blank, builder, mutators, fresh_pages) else {
        panic!(rt; "a flipped heap");
    };
    flipped
}

/// Tries to finish with one mutator missing. The refusal hands back the space and the others, and the missing one is
/// added.
pub fn hand_back<L: Named, B: Builder>(
    rt: &impl Abort,
    alloc: Global,
    case: &'static str,
    space: Space<L, B>,
    mut mutators: Vec<Mutator<L>>,
) -> Unfinished<L, B>
    requires of { AreMutatorsOf space mutators.items }
    requires whole { (setup_of space).mutators ≡ L.parts }
    ensures of { AreMutatorsOf result.space result.mutators.items }
    ensures whole { (setup_of result.space).mutators ≡ L.parts }
{
    let last = mutators.pop().expect(rt, "a mutator");
    let Err(mut left) = space.finish(alloc, mutators) else {
        panic!(rt; "a mutator is missing");
    };
    expect_missing(rt, case, left.fault, left.mutators.len(), last.number());
    left.mutators.push(last).ok().expect(rt, "room for all");
    left
}

// Checks that the finish was refused because the mutator of this number was missing, and that this many mutators came
// back.
fn expect_missing(
    rt: &impl Abort,
    case: &'static str,
    fault: FinishFault,
    back: usize,
    number: u8,
) {
    let at = At::new(case, usize::from(number));
    expect_eq(rt, at, fault, FinishFault::MutatorMissing(number));
    expect_eq(rt, at, back, usize::from(number));
}

/// Finishes with all mutators, the first one last in the list. If memory is refused once, it finishes with what came
/// back.
pub fn finish<L: Named, B: Builder>(
    rt: &impl Abort,
    alloc: Global,
    space: Space<L, B>,
    mut mutators: Vec<Mutator<L>>,
) -> Finished
    requires of { AreMutatorsOf space mutators.items }
    requires whole { (setup_of space).mutators ≡ L.parts }
{
    assert!(rt; mutators.len() > 0);
    mutators.rotate_left(1);
    match space.finish(alloc, mutators) {
        Ok(finished) => finished,
        Err(left) => finish_again(rt, alloc, left),
    }
}

// Finishes with what came back from a finish that was refused memory.
fn finish_again<L: Named, B: Builder>(
    rt: &impl Abort,
    alloc: Global,
    left: Unfinished<L, B>,
) -> Finished
    requires of { AreMutatorsOf left.space left.mutators.items }
    requires whole { (setup_of left.space).mutators ≡ L.parts }
{
    assert!(rt; left.fault == FinishFault::OutOfMemory);
    left.space
        .finish(alloc, left.mutators)
        .ok()
        .expect(rt, "no mutator is missing")
}
