//! Texts that are replayed or raced on flipped heaps, which are then finished and audited.
ghost use Rattle.std.specs.Prelude.{◌≡◌};

use crate::audited_heaps::finish_lawfully;
use crate::text_runs::{TextRun, flipped, read_for, root_count};
use comp_mutator::{Builder, Finished};
use comp_trace::{Raced, Run, Shown, Stopped, race, replay_text};
use page_plan::Plan;
use std::alloc::Global;
use std::process::Abort;
use std::sync::Wait;
use std::sync::ledger::{Blank, Ledger};
use std::thread::Threads;

/// Replays a text on the heap of this builder, by one thread. Answers the shown values and the finished heap, which the
/// audit for this plan must accept.
pub fn replayed<L: Ledger>(
    rt: &impl Abort,
    alloc: Global,
    blank: Blank,
    case: TextRun,
    builder: Plan,
    plan: &Plan,
) -> (Result<Vec<Shown>, Stopped>, Finished)
    requires name { blank.name ≡ L.name }
    requires parts { blank.parts ≡ L.parts }
    requires count { blank.parts ≡ case.mutators }
{
    let n = case.mutators;
    let (space, mut mutators) = flipped::<L, Plan>(rt, alloc, blank, builder, case);
    let roots = root_count(rt, &space);
    let run = replay_text(alloc, case.text, n, roots, &space, &mut mutators);
    let finished = finish_lawfully(rt, alloc, case, plan, space, mutators);
    (run, finished)
}

/// Races a text on the heap of this builder, one thread a mutator. Answers the runs and the finished heap, which the
/// audit for this plan must accept.
pub fn raced<L: Ledger + Send + Sync, B: Builder, R: Abort + Threads + Wait + Sync>(
    rt: &R,
    alloc: Global,
    blank: Blank,
    case: TextRun,
    builder: B,
    plan: &Plan,
) -> (Vec<Run>, Finished)
    requires name { blank.name ≡ L.name }
    requires parts { blank.parts ≡ L.parts }
    requires count { blank.parts ≡ case.mutators }
{
    let (space, mutators) = flipped::<L, B>(rt, alloc, blank, builder, case);
    let trace = read_for(rt, alloc, &space, case);
    match race(alloc, rt, &trace, &space, mutators) {
        Ok(Raced { mutators, runs }) => {
            let finished = finish_lawfully(rt, alloc, case, plan, space, mutators);
            (runs, finished)
        }
        Err(_not_raced) => rt.panic(case.name),
    }
}
