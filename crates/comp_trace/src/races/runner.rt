//! Runs the lines of one mutator.
ghost use Rattle.std.specs.Prelude.{◌≡◌, ◌≤◌, [], None, length, vec_capacity};
ghost use Rattle.comp_mutator.specs.Mutators.{pass_of, setup_of, IsMutatorOf};
ghost use Rattle.comp_mutator.specs.Orders.{number_of_mutator};
ghost use Rattle.comp_trace.specs.Acting.{null_registers};
ghost use Rattle.comp_trace.specs.Races.{numbered, own_lines, Ran};
ghost use Rattle.comp_trace.specs.Chains.{AreChained};
ghost use Rattle.comp_trace.specs.TraceLines.{AllFit};

use crate::races::chains::Chains;
use crate::races::waiting::act_waiting;
use crate::steps::{Shown, show};
use crate::text::{Line, RefusedLine};
use comp_mutator::{Builder, Mutator, Space};
use std::alloc::Global;
use std::sync::Wait;
use std::sync::ledger::Ledger;

/// A mutator that runs its lines: its registers, the values that its lines showed, and its refused line.
#[derive(Drop)]
pub(crate) struct Runner<L: Ledger> {
    pub(crate) mutator: Mutator<L>,
    pub(crate) registers: [u64; 16],
    pub(crate) shown: Vec<Shown>,
    pub(crate) fault: Option<RefusedLine>,
}

/// Runs the lines of one mutator, in order, up to the first that is refused. Requires null registers, the chains of the
/// lines, and room for the values that the mutator's lines show.
pub(crate) fn run_own<L: Ledger, B: Builder>(
    alloc: Global,
    rt: &impl Wait,
    space: &Space<L, B>,
    lines: &[Line],
    chains: &Chains,
    runner: &mut Runner<L>,
)
    requires of { IsMutatorOf space.now runner.old.mutator }
    requires fits { AllFit (setup_of space.now) lines.now }
    requires chained { AreChained lines.now chains.now }
    requires new { (runner.old.registers ≡ null_registers) × (runner.old.shown.items ≡ []) × (runner.old.fault ≡ None) }
    requires room { length (own_lines (number_of_mutator runner.old.mutator) (numbered 1 lines.now)) ≤ vec_capacity runner.old.shown }
    ensures of { IsMutatorOf space.now runner.new.mutator }
    ensures ran { Ran (setup_of space.now) (own_lines (number_of_mutator runner.old.mutator) (numbered 1 lines.now)) (pass_of runner.old.mutator) (pass_of runner.new.mutator) runner.new.shown.items runner.new.fault }
{
    let mut position = chains.firsts[runner.mutator.number() as usize];
    while position < lines.len() {
        let action = lines[position].action;
        let number = position as u64 + 1;
        let answer = act_waiting(
            alloc,
            rt,
            space,
            &mut runner.mutator,
            &mut runner.registers,
            action,
        );
        match answer {
            Ok(value) => show(&mut runner.shown, number, action, value),
            Err(refusal) => {
                runner.fault = Some(RefusedLine {
                    line: number,
                    refusal,
                });
                return;
            }
        }
        position = chains.nexts[position];
    }
}
