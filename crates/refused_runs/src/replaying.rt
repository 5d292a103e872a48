//! A replay. Its heap is dumped and audited.
ghost use Rattle.std.specs.Prelude.{◌≡◌};
ghost use Rattle.comp_mutator.specs.Mutators.{setup_of};
ghost use Rattle.comp_trace.specs.AllMutators.{AreAll};
ghost use Rattle.comp_trace.specs.WrittenEntries.{DidNothingYet};

use crate::finishing::finish;
use crate::flipped::flipped;
use crate::judging::is_lawful;
use comp_mutator::{Mutator, Refusal, Space};
use comp_trace::{Shown, Stopped, TraceFault, replay_text};
use page_plan::Plan;
use std::alloc::Global;
use std::marker::Brand;
use std::sync::Arc;
use std::sync::ledger::{Blank, Ledger as Named};
use std::thread::Threads;
use test_support::{Worked, plan_of};

// Mutator 0 writes 7, and line 6 of mutator 1 shows it.
const TEXT: &[u8] = b"0 root 0 0\n0 load 1 0 0\n0 put 1 0 7\n1 root 0 0\n1 load 1 0 0\n1 get 1 0\n";

// Whether a replay was refused memory and showed nothing before line 6.
fn is_memory(stopped: &Stopped) -> bool {
    let refused = match stopped.fault {
        TraceFault::OutOfMemory => true,
        TraceFault::Refused(_, refusal) => refusal == Refusal::OutOfMemory,
        _ => false,
    };
    refused && stopped.shown.is_empty()
}

// Whether line 6 showed 7 and nothing else was shown.
fn is_shown(shown: &[Shown]) -> bool {
    match shown.first() {
        Some(first) => shown.len() == 1 && first.line == 6 && first.value == 7,
        None => false,
    }
}

// Replays on a flipped heap, which is then finished and audited. `None` if the replay was refused memory.
fn replays<L: Named>(
    alloc: Global,
    space: Space<L, Plan>,
    mut mutators: Vec<Mutator<L>>,
    plan: &Plan,
) -> Option<bool>
    requires all { AreAll space mutators.items }
    requires new { DidNothingYet mutators.items }
    requires whole { (setup_of space).mutators ≡ L.parts }
    requires two { (setup_of space).mutators ≡ 2 }
    requires fresh { (setup_of space).fresh ≡ 64 }
{
    let count = space.roots().len();
    if count != 1 {
        return Some(false);
    }
    let well = match replay_text(alloc, TEXT, 2, 1, &space, &mut mutators) {
        Ok(shown) => is_shown(&shown),
        Err(stopped) => {
            if is_memory(&stopped) {
                return None;
            }
            false
        }
    };
    match finish(alloc, space, mutators) {
        Some(finished) => Some(well && is_lawful(alloc, plan, &finished)),
        None => Some(false),
    }
}

// The replay, or `None` if there is no memory for its flip.
fn replays_named<L: Named>(
    alloc: Global,
    blank: Blank,
    builder: Arc<Plan>,
    plan: &Plan,
) -> Option<bool>
    requires name { blank.name ≡ L.name }
    requires parts { blank.parts ≡ L.parts }
    requires count { blank.parts ≡ 2 }
{
    let (space, mutators) = flipped::<L>(alloc, blank, builder, 64)?;
    replays(alloc, space, mutators, plan)
}

// The replay, or `None` if there is no memory for its heaps.
fn replays_once(rt: &(impl Threads + Sync), alloc: Global) -> Option<bool> {
    let plan = plan_of(rt, alloc, Worked::Three)?;
    let builder = Arc::new(alloc, plan_of(rt, alloc, Worked::Three)?).ok()?;
    replays_named::<Brand>(alloc, Blank::new(2), builder, &plan)
}

/// Whether the replay is as expected. It begins again if memory is refused before its end.
pub fn is_replayed(rt: &(impl Threads + Sync), alloc: Global) -> bool {
    match replays_once(rt, alloc) {
        Some(well) => well,
        None => replays_once(rt, alloc) == Some(true),
    }
}
