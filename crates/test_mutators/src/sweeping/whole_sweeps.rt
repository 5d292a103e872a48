//! Swept heaps from the flip to the end.
ghost use Rattle.std.specs.Prelude.{◌≡◌};

use crate::flip_and_finish::{finish, flipped, shared};
use crate::sweeping::heaps_to_sweep::plan_of;
use crate::sweeping::sweep_checks::{expect_built_once, expect_whole};
use crate::sweeping::sweeps::{beside_reader, looked_at, refused, sweep_case};
use crate::sweeping::swept_heaps::{Beside, SweptHeap};
use crate::sweeping::watching_gate::Watch;
use comp_mutator::Builder;
use comp_sweep::SweepFault;
use std::alloc::Global;
use std::marker::Brand;
use std::process::Abort;
use std::sync::Wait;
use std::sync::ledger::{Blank, Ledger as Named};
use std::thread::Threads;
use test_support::Refusing;

// Sweeps a flipped heap beside a reader or while one looks at each region, or sweeps it, sweeps it again without
// workers, and finishes.
fn play<L: Named + Send + Sync, B: Builder, R: Abort + Threads + Wait + Sync>(
    rt: &R,
    alloc: Global,
    blank: Blank,
    builder: B,
    gate: &Watch,
    mutators: u8,
    case: &SweptHeap,
)
    requires name { blank.name ≡ L.name }
    requires parts { blank.parts ≡ L.parts }
    requires count { blank.parts ≡ mutators }
{
    let builder = shared(rt, alloc, builder);
    let (space, mutators) = flipped::<L, B>(rt, alloc, blank, builder, mutators, 0);
    if let Beside::Reader(word) = case.beside {
        return beside_reader(rt, alloc, &space, mutators, case, word);
    }
    if let Beside::Looks = case.beside {
        return looked_at(rt, alloc, &space, mutators, case);
    }
    let mutators = sweep_case(rt, alloc, &space, mutators, gate, case);
    expect_built_once(rt, case, &mutators);
    let none = Vec::new(alloc);
    refused(rt, alloc, &space, none, case, SweepFault::NoWorkers, 0);
    let finished = finish(rt, alloc, space, mutators);
    expect_whole(rt, case, &finished);
}

// The case with this builder.
fn play_built<B: Builder, R: Abort + Threads + Wait + Sync>(
    rt: &R,
    alloc: Global,
    builder: B,
    case: &SweptHeap,
) {
    let gate = Watch::new(case.beside);
    let blank = Blank::new(u64::from(case.mutators));
    play::<Brand, B, R>(rt, alloc, blank, builder, &gate, case.mutators, case);
    gate.expect_none_missed(rt, case.name);
}

// The case with the builder that it names.
fn play_case<R: Abort + Threads + Wait + Sync>(rt: &R, alloc: Global, case: &SweptHeap) {
    let plan = plan_of(rt, alloc, case);
    match case.beside {
        Beside::Refusal => play_built(rt, alloc, Refusing::new(plan, 9), case),
        _ => play_built(rt, alloc, plan, case),
    }
}

/// Plays each of these cases.
pub fn play_all<R: Abort + Threads + Wait + Sync>(rt: &R, alloc: Global, cases: &[SweptHeap]) {
    for case in cases {
        play_case(rt, alloc, case);
    }
}
