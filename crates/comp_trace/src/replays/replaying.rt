//! Runs a trace by one thread.
ghost use Rattle.std.specs.Prelude.{◌≡◌, ◌<◌, ◌≤◌, ◌+◌, ℕ, length, replicate, vec_capacity, IfErr, IfOk, IsErrOf, OnErr, OnOk};
ghost use Rattle.comp_mutator.specs.Mutators.{setup_of};
ghost use Rattle.comp_mutator.specs.Refusal.TheVariants.{Busy};
ghost use Rattle.comp_trace.specs.Acting.{null_registers, Fits};
ghost use Rattle.comp_trace.specs.WrittenEntries.{HaveSeenAll, HaveStart};
ghost use Rattle.comp_trace.specs.AllMutators.{AreAll};
ghost use Rattle.comp_trace.specs.Replays.{CannotGoOn, GoesOn, HaveReplayed, HaveReplayedWith, HaveStopped, IsRefusal, RanNothing};
ghost use Rattle.comp_trace.specs.RoundsOfMeetings.{AreLater, DidNothing};
ghost use Rattle.comp_trace.specs.TraceLines.{AllFit, IsParsedFor};
ghost use Rattle.comp_trace.specs.Traces.{lines_of};

use crate::steps::{Shown, show, step};
use crate::text::{Line, Trace, TraceFault};
use comp_mutator::{Builder, Mutator, Refusal, Space};
use std::alloc::{AllocError, Global};
use std::sync::ledger::Ledger;

/// The values that were shown before a replay stopped, and the fault that stopped it.
#[derive(Debug, Drop)]
pub struct Stopped {
    pub shown: Vec<Shown>,
    pub fault: TraceFault,
}

/// What a replay left: the values that were shown, and the words in the registers.
#[derive(Debug, Drop)]
pub struct Replayed {
    /// The values that the `get` lines showed, in order.
    pub shown: Vec<Shown>,
    /// The words in the registers of each mutator, in the order of their numbers.
    pub registers: Vec<[u64; 16]>,
}

// Runs line `number`.
fn run_line<L: Ledger, B: Builder>(
    alloc: Global,
    space: &Space<L, B>,
    mutators: &mut [Mutator<L>],
    registers: &mut [[u64; 16]],
    line: Line,
    number: u64,
    shown: &mut Vec<Shown>,
) -> Result<(), Refusal>
    requires all { AreAll space.now mutators.old }
    requires wide { length registers.old ≡ length mutators.old }
    requires line { (line.mutator < length mutators.old) × Fits (setup_of space.now) line.action }
    requires room { length shown.old.items < vec_capacity shown.old }
    ensures all { AreAll space.now mutators.new }
    ensures later { AreLater mutators.old mutators.new }
    ensures seen { HaveSeenAll mutators.new }
    ensures start { HaveStart (setup_of space.now) mutators.old }
    ensures ran { OnOk result (GoesOn (setup_of space.now) line number mutators.old mutators.new registers.old registers.new shown.old.items shown.new.items) }
    ensures room { (vec_capacity shown.new ≡ vec_capacity shown.old) × (length shown.new.items ≤ length shown.old.items + 1) }
    ensures did { OnErr result (DidNothing mutators.old mutators.new × (shown.new.items ≡ shown.old.items)) }
    ensures refused { IfErr result (CannotGoOn (setup_of space.now) line mutators.old mutators.new registers.old shown.old.items) }
    ensures busy { (p : ℕ) → IsErrOf result (Busy p) → ⊥ }
{
    let i = usize::from(line.mutator);
    let own = &mut registers[i];
    let answer = step(alloc, space, mutators, own, i, line.action);
    match answer {
        Ok(value) => {
            show(shown, number, line.action, value);
            Ok(())
        }
        Err(refusal) => Err(refusal),
    }
}

// The registers of `n` mutators, all null.
#[tactic(auto, using(crate::proofs::Standing::replicate_more))]
fn all_null(alloc: Global, n: usize) -> Result<Vec<[u64; 16]>, AllocError>
    ensures { IfOk result (λ registers. registers.items ≡ replicate n null_registers) }
{
    let mut registers = Vec::with_capacity(alloc, n)?;
    for _i in 0..n {
        registers.push_reserved([0; 16]);
    }
    Ok(registers)
}

// Runs the lines in order.
fn run_lines<L: Ledger, B: Builder>(
    alloc: Global,
    lines: &[Line],
    space: &Space<L, B>,
    mutators: &mut [Mutator<L>],
) -> Result<Replayed, Stopped>
    requires all { AreAll space.now mutators.old }
    requires lines { AllFit (setup_of space.now) lines.now }
    ensures all { AreAll space.now mutators.new }
    ensures later { AreLater mutators.old mutators.new }
    ensures empty { length lines.now ≡ 0 → IfOk result (λ ran. RanNothing mutators.old mutators.new ran.shown.items) }
    ensures start { 0 < length lines.now → OnOk result (HaveStart (setup_of space.now) mutators.old) }
    ensures started { IfErr result (λ stopped. IsRefusal stopped.fault → HaveStart (setup_of space.now) mutators.old) }
    ensures wide { IfOk result (λ ran. length ran.registers.items ≡ length mutators.old) }
    ensures ran { IfOk result (λ ran. HaveReplayedWith (setup_of space.now) mutators.old mutators.new lines.now ran.shown.items ran.registers.items) }
    ensures stopped { IfErr result (λ stopped. HaveStopped (setup_of space.now) mutators.old mutators.new lines.now stopped.shown.items stopped.fault) }
{
    let Ok(mut shown) = Vec::with_capacity(alloc, lines.len()) else {
        return Err(Stopped {
            shown: Vec::new(alloc),
            fault: TraceFault::OutOfMemory,
        });
    };
    let Ok(mut registers) = all_null(alloc, mutators.len()) else {
        return Err(Stopped {
            shown: Vec::new(alloc),
            fault: TraceFault::OutOfMemory,
        });
    };
    for (j, line) in lines.iter().enumerate() {
        let number = j as u64 + 1;
        let ran = run_line(
            alloc,
            space,
            mutators,
            &mut registers,
            *line,
            number,
            &mut shown,
        );
        match ran {
            Ok(()) => {}
            Err(refusal) => {
                return Err(Stopped {
                    shown,
                    fault: TraceFault::Refused(number, refusal),
                });
            }
        }
    }
    Ok(Replayed { shown, registers })
}

/// Runs the lines of a trace in order by one thread, each call once, and answers the values that the `get` lines show.
/// Before and after each line its mutator meets all others, so each line sees all that was done before it.
///
/// Whatever the answer, the mutators have seen, built and know no less than before. After a line was run, each of them
/// has seen all that was there at the start, and all that the run added. A trace without lines shows nothing, and
/// leaves the mutators unchanged.
///
/// Room for all values and for the registers is reserved first. If there is no memory for it, the fault is
/// `OutOfMemory`, and no line has run. If the call of a line is refused, for memory too, the lines before it were run,
/// and the fault is `Refused` with the number of the line, counted from 1, and the refusal. No page is busy: all
/// mutators are in hand.
///
/// Requires all mutators of the space, in the order of their numbers, and a trace that was parsed for the numbers of
/// mutators and roots that there are.
pub fn replay<L: Ledger, B: Builder>(
    alloc: Global,
    trace: &Trace,
    space: &Space<L, B>,
    mutators: &mut Vec<Mutator<L>>,
) -> Result<Vec<Shown>, Stopped>
    requires all { AreAll space.now mutators.old.items }
    requires parsed { IsParsedFor (setup_of space.now) trace.now }
    ensures all { AreAll space.now mutators.new.items }
    ensures later { AreLater mutators.old.items mutators.new.items }
    ensures empty { length (lines_of trace.now) ≡ 0 → IfOk result (λ shown. RanNothing mutators.old.items mutators.new.items shown.items) }
    ensures start { 0 < length (lines_of trace.now) → OnOk result (HaveStart (setup_of space.now) mutators.old.items) }
    ensures started { IfErr result (λ stopped. IsRefusal stopped.fault → HaveStart (setup_of space.now) mutators.old.items) }
    ensures ran { IfOk result (λ shown. HaveReplayed (setup_of space.now) mutators.old.items mutators.new.items (lines_of trace.now) shown.items) }
    ensures stopped { IfErr result (λ stopped. HaveStopped (setup_of space.now) mutators.old.items mutators.new.items (lines_of trace.now) stopped.shown.items stopped.fault) }
{
    match replay_registers(alloc, trace, space, mutators) {
        Ok(ran) => Ok(ran.shown),
        Err(stopped) => Err(stopped),
    }
}

/// As `replay`, and answers the words in the registers at the end of the run as well.
pub fn replay_registers<L: Ledger, B: Builder>(
    alloc: Global,
    trace: &Trace,
    space: &Space<L, B>,
    mutators: &mut Vec<Mutator<L>>,
) -> Result<Replayed, Stopped>
    requires all { AreAll space.now mutators.old.items }
    requires parsed { IsParsedFor (setup_of space.now) trace.now }
    ensures all { AreAll space.now mutators.new.items }
    ensures later { AreLater mutators.old.items mutators.new.items }
    ensures empty { length (lines_of trace.now) ≡ 0 → IfOk result (λ ran. RanNothing mutators.old.items mutators.new.items ran.shown.items) }
    ensures start { 0 < length (lines_of trace.now) → OnOk result (HaveStart (setup_of space.now) mutators.old.items) }
    ensures started { IfErr result (λ stopped. IsRefusal stopped.fault → HaveStart (setup_of space.now) mutators.old.items) }
    ensures wide { IfOk result (λ ran. length ran.registers.items ≡ length mutators.old.items) }
    ensures ran { IfOk result (λ ran. HaveReplayedWith (setup_of space.now) mutators.old.items mutators.new.items (lines_of trace.now) ran.shown.items ran.registers.items) }
    ensures stopped { IfErr result (λ stopped. HaveStopped (setup_of space.now) mutators.old.items mutators.new.items (lines_of trace.now) stopped.shown.items stopped.fault) }
{
    run_lines(alloc, trace.lines(), space, mutators)
}
