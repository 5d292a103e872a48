//! Runs a trace by its mutators side by side.
ghost use Rattle.std.specs.Prelude.{◌≡◌, ℕ, ◌≤◌, [], map, length, IfErr, IfOk, vec_capacity};
ghost use mathlib.Core.Option.{some};
ghost use lib.ListN.{get_elem?};
ghost use Rattle.comp_mutator.specs.Lists.{Each};
ghost use Rattle.comp_mutator.specs.Mutators.{setup_of};
ghost use Rattle.comp_trace.specs.Chains.{AreChained};
ghost use Rattle.comp_trace.specs.Races.{HaveRaced};
ghost use Rattle.comp_trace.specs.AllMutators.{AreAll};
ghost use Rattle.comp_trace.specs.Runners.{mutator_of, room_in, room_of, run_of, RanItsLines, HaveRooms, IsBlank, IsReady};
ghost use Rattle.comp_trace.specs.TraceLines.{AllFit, IsParsedFor};
ghost use Rattle.comp_trace.specs.Traces.{lines_of};

use crate::races::chains::{Chains, chained};
use crate::races::runner::{Runner, run_own};
use crate::steps::{Shown, meet_all};
use crate::text::{Line, RefusedLine, Trace, TraceFault};
use comp_mutator::{Builder, Mutator, Space};
use heap_layout::OutOfMemory;
use std::alloc::Global;
use std::sync::Wait;
use std::sync::ledger::Ledger;
use std::thread;
use std::thread::Threads;

/// The values that a mutator's lines showed, and the line that was refused, if there is one.
#[derive(Debug, Drop)]
pub struct Run {
    pub shown: Vec<Shown>,
    pub fault: Option<RefusedLine>,
}

/// The mutators after a race, in the order of their numbers, and what each of them ran.
#[derive(Drop)]
pub struct Raced<L: Ledger> {
    pub mutators: Vec<Mutator<L>>,
    pub runs: Vec<Run>,
}

/// A race that did not begin: the fault, which is out of memory, and the mutators as they were handed in.
#[derive(Drop)]
pub struct NotRaced<L: Ledger> {
    pub fault: TraceFault,
    pub mutators: Vec<Mutator<L>>,
}

// The race did not begin, since memory ran out.
fn not_raced<L: Ledger>(mutators: Vec<Mutator<L>>) -> NotRaced<L>
    ensures fault { result.fault ≡ TraceFault.OutOfMemory }
    ensures back { result.mutators ≡ mutators }
{
    NotRaced {
        fault: TraceFault::OutOfMemory,
        mutators,
    }
}

// Reserves room for the values that each mutator's lines may show.
fn rooms<L: Ledger>(
    alloc: Global,
    lines: &[Line],
    chains: &Chains,
    mutators: &[Mutator<L>],
) -> Result<Vec<Vec<Shown>>, OutOfMemory>
    requires { AreChained lines.now chains.now }
    ensures rooms { IfOk result (λ rooms. HaveRooms lines.now mutators.now rooms.items) }
{
    let mut rooms = Vec::with_capacity(alloc, mutators.len())?;
    for m in mutators {
        let room = Vec::with_capacity(alloc, chains.counts[m.number() as usize])?;
        rooms.push_reserved(room);
    }
    Ok(rooms)
}

// Makes a runner of each mutator and its room. Nothing has run yet.
fn readied<L: Ledger>(
    mutators: Vec<Mutator<L>>,
    mut rooms: Vec<Vec<Shown>>,
    mut runners: Vec<Runner<L>>,
) -> Vec<Runner<L>>
    requires rooms { length rooms.items ≡ length mutators.items }
    requires empty { (runners.items ≡ []) × (length mutators.items ≤ vec_capacity runners) }
    ensures mutators { map mutator_of result.items ≡ mutators.items }
    ensures rooms { map room_of result.items ≡ map room_in rooms.items }
    ensures blank { Each result.items IsBlank }
{
    for mutator in mutators {
        let shown = rooms.remove(0);
        runners.push_reserved(Runner {
            mutator,
            registers: [0; 16],
            shown,
            fault: None,
        });
    }
    runners
}

// Lets each runner run its lines in its own thread, or in the caller's if no thread can be started.
fn run_all<L: Ledger + Send + Sync, B: Builder, R: Threads + Wait + Sync>(
    alloc: Global,
    rt: &R,
    space: &Space<L, B>,
    lines: &[Line],
    chains: &Chains,
    runners: &mut [Runner<L>],
)
    requires fits { AllFit (setup_of space.now) lines.now }
    requires chained { AreChained lines.now chains.now }
    requires ready { Each runners.old (IsReady space.now lines.now) }
    ensures long { length runners.new ≡ length runners.old }
    ensures ran { (k : ℕ) (before after : Runner L) → get_elem? runners.old k ≡ some before → get_elem? runners.new k ≡ some after → RanItsLines space.now lines.now before after }
{
    let threads = runners.len().max(1);
    thread::for_each_mut(
        rt,
        runners,
        threads,
        &|_, runner: &mut Runner<L>|
            requires { AllFit (setup_of space.now) lines.now × AreChained lines.now chains.now × IsReady space.now lines.now runner.old }
            ensures { RanItsLines space.entry.now lines.entry.now runner.old runner.new }
        {
            run_own(alloc, rt, space, lines, chains, runner);
        },
    );
}

// Takes the runners apart: their mutators, and what each of them ran.
fn parted<L: Ledger>(
    runners: Vec<Runner<L>>,
    mut mutators: Vec<Mutator<L>>,
    mut runs: Vec<Run>,
) -> Raced<L>
    requires mutators { (mutators.items ≡ []) × (length runners.items ≤ vec_capacity mutators) }
    requires runs { (runs.items ≡ []) × (length runners.items ≤ vec_capacity runs) }
    ensures mutators { result.mutators.items ≡ map mutator_of runners.items }
    ensures runs { result.runs.items ≡ map run_of runners.items }
{
    for runner in runners {
        mutators.push_reserved(runner.mutator);
        runs.push_reserved(Run {
            shown: runner.shown,
            fault: runner.fault,
        });
    }
    Raced { mutators, runs }
}

/// Lets each mutator run its own lines of a trace, in order. Each runs in its own thread, or in the caller's if no
/// thread can be started, and waits for busy pages. A refused line ends the run of its mutator. When all have run, they
/// meet: each has then seen all that any of them did.
///
/// Memory for the chains of lines and for all values is reserved first. If it runs out, the fault is `OutOfMemory`, no
/// line has run, and the mutators come back unchanged.
///
/// Requires all mutators of the space, in the order of their numbers, and a trace that was parsed for the numbers of
/// mutators and roots that there are.
pub fn race<L: Ledger + Send + Sync, B: Builder, R: Threads + Wait + Sync>(
    alloc: Global,
    rt: &R,
    trace: &Trace,
    space: &Space<L, B>,
    mutators: Vec<Mutator<L>>,
) -> Result<Raced<L>, NotRaced<L>>
    requires all { AreAll space.now mutators.items }
    requires parsed { IsParsedFor (setup_of space.now) trace.now }
    ensures raced { IfOk result (λ raced. HaveRaced space.now (lines_of trace.now) mutators.items raced.mutators.items raced.runs.items) }
    ensures fault { IfErr result (λ not. not.fault ≡ TraceFault.OutOfMemory) }
    ensures back { IfErr result (λ not. not.mutators ≡ mutators) }
{
    let lines = trace.lines();
    let Ok(chains) = chained(alloc, lines) else {
        return Err(not_raced(mutators));
    };
    let Ok(rooms) = rooms(alloc, lines, &chains, &mutators) else {
        return Err(not_raced(mutators));
    };
    let Ok(runners) = Vec::with_capacity(alloc, mutators.len()) else {
        return Err(not_raced(mutators));
    };
    let Ok(raced) = Vec::with_capacity(alloc, mutators.len()) else {
        return Err(not_raced(mutators));
    };
    let Ok(runs) = Vec::with_capacity(alloc, mutators.len()) else {
        return Err(not_raced(mutators));
    };
    let mut runners = readied(mutators, rooms, runners);
    run_all(alloc, rt, space, lines, &chains, &mut runners);
    let mut after = parted(runners, raced, runs);
    meet_all(space, &mut after.mutators);
    Ok(after)
}
