//! Runs of mutators on flipped heaps.
ghost use Rattle.std.specs.Prelude.{◌≡◌};
ghost use Rattle.comp_mutator.specs.Mutators.{setup_of, AreMutatorsOf};

use crate::answered_calls::AnsweredCall;
use crate::answers::is_answered;
use crate::finishing::{finish, swept};
use crate::making::Making;
use comp_mutator::{Finished, FlipFault, Mutator, Space, flip};
use std::alloc::Global;
use std::marker::Brand;
use std::sync::ledger::{Blank, Ledger as Named};
use std::sync::{Arc, Wait};
use std::thread::Threads;
use test_support::{Worked, plan_of};

/// A run: a heap that is flipped, what its mutators do, and what they leave.
pub struct MutatorRun {
    pub name: &'static str,
    pub heap: Worked,
    pub mutators: u8,
    pub fresh_pages: u32,
    pub calls: &'static [AnsweredCall],
    /// Whether the first mutator settles after the calls.
    pub settles: bool,
    /// Whether all mutators sweep after that.
    pub sweeps: bool,
    /// The number of words at the end.
    pub live_words: u64,
    /// The pages that each mutator built.
    pub builds: &'static [&'static [u64]],
}

// Whether the call of the mutator that it names is answered.
fn is_done<L: Named>(
    alloc: Global,
    space: &Space<L, Making>,
    mutators: &mut Vec<Mutator<L>>,
    making: &Making,
    call: &AnsweredCall,
) -> bool
    requires of { AreMutatorsOf space.now mutators.old.items }
    ensures of { AreMutatorsOf space.now mutators.new.items }
{
    let number = call.0;
    if number >= mutators.len() {
        return false;
    }
    is_answered(alloc, space, &mut mutators[number], making, call)
}

// Whether the calls of all mutators are answered, one after another.
fn are_answered<L: Named>(
    alloc: Global,
    space: &Space<L, Making>,
    mutators: &mut Vec<Mutator<L>>,
    making: &Making,
    calls: &[AnsweredCall],
) -> bool
    requires of { AreMutatorsOf space.now mutators.old.items }
    ensures of { AreMutatorsOf space.now mutators.new.items }
{
    for call in calls {
        if !is_done(alloc, space, mutators, making, call) {
            return false;
        }
    }
    true
}

// Whether the first mutator settles, which takes no memory.
fn is_settled<L: Named, R: Wait>(
    rt: &R,
    space: &Space<L, Making>,
    mutators: &mut Vec<Mutator<L>>,
) -> bool
    requires of { AreMutatorsOf space.now mutators.old.items }
    ensures of { AreMutatorsOf space.now mutators.new.items }
{
    if mutators.is_empty() {
        return false;
    }
    let m = &mut mutators[0];
    let settled = space.settle(rt, m).is_ok();
    let unposted = m.unposted();
    settled && unposted == 0
}

// Whether each mutator built these pages, and no others.
fn are_builds(builds: &[Vec<u64>], wanted: &[&[u64]]) -> bool {
    if builds.len() != wanted.len() {
        return false;
    }
    for (number, built) in builds.iter().enumerate() {
        if Some(&built.as_slice()) != wanted.get(number) {
            return false;
        }
    }
    true
}

// Whether the finished heap is that of the run.
fn is_end(finished: &Option<Finished>, run: &MutatorRun) -> bool {
    match finished {
        Some(finished) => {
            finished.live_words() == run.live_words && are_builds(finished.builds(), run.builds)
        }
        None => false,
    }
}

// Sweeps a flipped heap if the run says so, and finishes it.
fn ends<L: Named + Send, R: Threads + Wait + Sync>(
    rt: &R,
    alloc: Global,
    space: Space<L, Making>,
    mutators: Vec<Mutator<L>>,
    run: &MutatorRun,
) -> bool
    requires of { AreMutatorsOf space mutators.items }
    requires whole { (setup_of space).mutators ≡ L.parts }
{
    let back = match run.sweeps {
        true => swept(rt, alloc, &space, mutators),
        false => Some(mutators),
    };
    match back {
        Some(mutators) => is_end(&finish(alloc, space, mutators), run),
        None => false,
    }
}

// The run on a flipped heap.
fn plays<L: Named + Send, R: Threads + Wait + Sync>(
    rt: &R,
    alloc: Global,
    space: Space<L, Making>,
    mut mutators: Vec<Mutator<L>>,
    making: &Making,
    run: &MutatorRun,
) -> bool
    requires of { AreMutatorsOf space mutators.items }
    requires whole { (setup_of space).mutators ≡ L.parts }
{
    let answered = are_answered(alloc, &space, &mut mutators, making, run.calls);
    let settled = !run.settles || is_settled(rt, &space, &mut mutators);
    ends(rt, alloc, space, mutators, run) && answered && settled
}

// The run, or `None` if there is no memory for its flip.
fn plays_named<L: Named + Send, R: Threads + Wait + Sync>(
    rt: &R,
    alloc: Global,
    blank: Blank,
    builder: Arc<Making>,
    making: &Making,
    run: &MutatorRun,
) -> Option<bool>
    requires name { blank.name ≡ L.name }
    requires parts { blank.parts ≡ L.parts }
    requires count { blank.parts ≡ run.now.mutators }
{
    match flip::<L, Making>(alloc, blank, builder, run.mutators, run.fresh_pages) {
        Ok((space, mutators)) => Some(plays(rt, alloc, space, mutators, making, run)),
        Err(FlipFault::OutOfMemory) => None,
        Err(FlipFault::BadCounts) => Some(false),
    }
}

// The run, or `None` if there is no memory for its heap.
fn plays_once<R: Threads + Wait + Sync>(rt: &R, alloc: Global, run: &MutatorRun) -> Option<bool> {
    let making = Arc::new(alloc, Making::new(plan_of(rt, alloc, run.heap)?)).ok()?;
    let builder = making.clone().ok()?;
    let blank = Blank::new(u64::from(run.mutators));
    plays_named::<Brand, R>(rt, alloc, blank, builder, &making, run)
}

/// Whether the run is as expected. It begins again if its heap is refused memory.
pub fn is_played<R: Threads + Wait + Sync>(rt: &R, alloc: Global, run: &MutatorRun) -> bool {
    match plays_once(rt, alloc, run) {
        Some(well) => well,
        None => plays_once(rt, alloc, run) == Some(true),
    }
}
