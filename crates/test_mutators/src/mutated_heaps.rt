//! What the mutators of a flipped heap do, by turns and at once, and what they leave.
ghost use Rattle.std.specs.Prelude.{◌≡◌};
ghost use Rattle.comp_mutator.specs.Mutators.{setup_of, AreMutatorsOf, IsMutatorOf};

use crate::endings::{End, expect_ending, expect_words};
use crate::expected::{expect_eq, expect_so};
use crate::flip_and_finish::{finish, hand_back, shared};
use crate::mutator_steps::{MutatorStep, expect_step};
use crate::mutators_at_once::at_once;
use comp_mutator::{Builder, Finished, FlipFault, Mutator, Space, flip};
use page_plan::Plan;
use std::alloc::Global;
use std::marker::Brand;
use std::process::Abort;
use std::sync::ledger::{Blank, Ledger as Named};
use std::sync::{Arc, Wait};
use std::thread::Threads;
use test_support::{At, Counting, Meeting, Refusing, Worked, plan_of};

/// Who builds the pages of a case.
#[derive(Clone, Copy)]
pub enum BuiltBy {
    /// The plan itself.
    Plan,
    /// A builder whose first build of this page asks for more memory than there is.
    Refusing(u64),
    /// A builder that has built this many pages at the end.
    Counting(u64),
    /// A builder whose builds of pages 0 and 1 wait for one another.
    Meeting,
}

/// A heap that is flipped, what its mutators do, and how it ends.
pub struct MutatedHeap {
    /// The name that a failing test prints.
    pub name: &'static str,
    pub heap: Worked,
    pub built_by: BuiltBy,
    pub mutators: u8,
    pub fresh_pages: u32,
    pub steps: &'static [MutatorStep],
    pub end: End,
}

// Two mutators after a meeting: the first has met the second, or the second the first.
fn met<L: Named, B: Builder>(
    space: &Space<L, B>,
    mut m0: Mutator<L>,
    mut m1: Mutator<L>,
    back: bool,
) -> (Mutator<L>, Mutator<L>)
    requires first { IsMutatorOf space.now m0 }
    requires second { IsMutatorOf space.now m1 }
    ensures first { IsMutatorOf space.now result.0 }
    ensures second { IsMutatorOf space.now result.1 }
{
    if back {
        space.meet(&mut m1, &mut m0);
    } else {
        space.meet(&mut m0, &mut m1);
    }
    (m0, m1)
}

// The two mutators of a case meet.
fn meet<L: Named, B: Builder>(
    rt: &impl Abort,
    space: &Space<L, B>,
    mutators: &mut Vec<Mutator<L>>,
    back: bool,
)
    requires of { AreMutatorsOf space.now mutators.old.items }
    ensures of { AreMutatorsOf space.now mutators.new.items }
{
    let m1 = mutators.pop().expect(rt, "a second mutator");
    let m0 = mutators.pop().expect(rt, "a first mutator");
    let (m0, m1) = met(space, m0, m1, back);
    mutators.push_reserved(m0);
    mutators.push_reserved(m1);
}

// A step of the mutator of this number.
fn play_one<L: Named, B: Builder, R: Abort + Wait>(
    rt: &R,
    alloc: Global,
    space: &Space<L, B>,
    mutators: &mut Vec<Mutator<L>>,
    number: usize,
    at: At,
    row: &MutatorStep,
)
    requires of { AreMutatorsOf space.now mutators.old.items }
    ensures of { AreMutatorsOf space.now mutators.new.items }
{
    assert!(rt; number < mutators.len());
    expect_step(rt, alloc, space, &mut mutators[number], at, row);
}

// Checks that there are this many mutators, numbered from 0, none of which has done anything.
fn expect_new<L: Named>(rt: &impl Abort, at: At, mutators: &[Mutator<L>], count: u64) {
    expect_eq(rt, at, mutators.len() as u64, count);
    for (number, m) in mutators.iter().enumerate() {
        let idle = m.builds().is_empty() && m.entries() == 0 && m.unposted() == 0;
        expect_so(rt, at, idle && usize::from(m.number()) == number);
    }
}

// A step of the mutator of this number, or of two mutators. Answers the number of the mutator of the next step.
fn play_step<L: Named + Send + Sync, B: Builder, R: Abort + Threads + Wait + Sync>(
    rt: &R,
    alloc: Global,
    space: &Space<L, B>,
    mutators: &mut Vec<Mutator<L>>,
    number: usize,
    at: At,
    row: &MutatorStep,
) -> usize
    requires of { AreMutatorsOf space.now mutators.old.items }
    ensures of { AreMutatorsOf space.now mutators.new.items }
{
    match row {
        MutatorStep::By(next) => return *next,
        MutatorStep::Meet => meet(rt, space, mutators, false),
        MutatorStep::MeetBack => meet(rt, space, mutators, true),
        MutatorStep::New(count) => expect_new(rt, at, mutators, *count),
        MutatorStep::AtOnce(first, second) => at_once(
            rt, alloc, space, mutators, first, second, at,
        ),
        _ => play_one(rt, alloc, space, mutators, number, at, row),
    }
    number
}

// The steps of a case, one after another.
fn play_steps<L: Named + Send + Sync, B: Builder, R: Abort + Threads + Wait + Sync>(
    rt: &R,
    alloc: Global,
    space: &Space<L, B>,
    mutators: &mut Vec<Mutator<L>>,
    case: &MutatedHeap,
)
    requires of { AreMutatorsOf space.now mutators.old.items }
    ensures of { AreMutatorsOf space.now mutators.new.items }
{
    let mut number = 0;
    for (row, call) in case.steps.iter().enumerate() {
        let at = At::new(case.name, row);
        number = play_step(rt, alloc, space, mutators, number, at, call);
    }
}

impl MutatedHeap {
    // What a failing test prints after all steps.
    fn after_steps(&self) -> At<'static> {
        At::new(self.name, self.steps.len())
    }
}

// Checks that the finished heap is that of the case.
fn expect_end(rt: &impl Abort, case: &MutatedHeap, finished: &Finished) {
    let at = case.after_steps();
    match &case.end {
        End::Refused(_) => expect_so(rt, at, false),
        End::Unchecked => {}
        End::Contents(ending) => expect_ending(rt, at, case.mutators, finished, ending),
        End::Words(words) => expect_words(rt, case.name, finished.pages(), words),
    }
}

// Checks that the flip of the case is refused for this cause.
fn expect_refused(rt: &impl Abort, case: &MutatedHeap, fault: FlipFault) {
    let refused = match case.end {
        End::Refused(wanted) => wanted == fault,
        _ => false,
    };
    expect_so(rt, case.after_steps(), refused);
}

// The steps of a flipped heap, and the finish. One mutator is missing in the first try to finish.
fn play_to_end<L: Named + Send + Sync, B: Builder, R: Abort + Threads + Wait + Sync>(
    rt: &R,
    alloc: Global,
    space: Space<L, B>,
    mut mutators: Vec<Mutator<L>>,
    case: &MutatedHeap,
)
    requires of { AreMutatorsOf space mutators.items }
    requires whole { (setup_of space).mutators ≡ L.parts }
{
    play_steps(rt, alloc, &space, &mut mutators, case);
    let left = hand_back(rt, alloc, case.name, space, mutators);
    let finished = finish(rt, alloc, left.space, left.mutators);
    expect_end(rt, case, &finished);
}

// The flip of the case, which may be refused, and the rest if it is not.
fn play_flipped<L: Named + Send + Sync, B: Builder, R: Abort + Threads + Wait + Sync>(
    rt: &R,
    alloc: Global,
    blank: Blank,
    builder: Arc<B>,
    case: &MutatedHeap,
)
    requires name { blank.name ≡ L.name }
    requires parts { blank.parts ≡ L.parts }
    requires count { blank.parts ≡ case.now.mutators }
{
    match flip::<L, B>(alloc, blank, builder, case.mutators, case.fresh_pages) {
        Ok((space, mutators)) => play_to_end(rt, alloc, space, mutators, case),
        Err(fault) => expect_refused(rt, case, fault),
    }
}

// The case with this builder.
fn play_built<B: Builder, R: Abort + Threads + Wait + Sync>(
    rt: &R,
    alloc: Global,
    builder: Arc<B>,
    case: &MutatedHeap,
) {
    let blank = Blank::new(u64::from(case.mutators));
    play_flipped::<Brand, B, R>(rt, alloc, blank, builder, case);
}

// The case with a builder that counts, and a check of the count.
fn play_counted<R: Abort + Threads + Wait + Sync>(
    rt: &R,
    alloc: Global,
    plan: Plan,
    case: &MutatedHeap,
    builds: u64,
) {
    let counts = shared(rt, alloc, Counting::new(plan));
    let builder = counts.clone().ok().expect(rt, "a second reference");
    play_built(rt, alloc, builder, case);
    expect_eq(rt, case.after_steps(), counts.count(), builds);
}

/// Plays the case with the builder that it names.
pub fn play_heap<R: Abort + Threads + Wait + Sync>(rt: &R, alloc: Global, case: &MutatedHeap) {
    let plan = plan_of(rt, alloc, case.heap).expect(rt, "a plan");
    match case.built_by {
        BuiltBy::Plan => play_built(rt, alloc, shared(rt, alloc, plan), case),
        BuiltBy::Refusing(page) => {
            let builder = Refusing::new(plan, page);
            play_built(rt, alloc, shared(rt, alloc, builder), case)
        }
        BuiltBy::Counting(builds) => play_counted(rt, alloc, plan, case, builds),
        BuiltBy::Meeting => play_built(rt, alloc, shared(rt, alloc, Meeting::new(plan)), case),
    }
}
