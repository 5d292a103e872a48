//! What one mutator does for a line. It is done again while a page is busy.
ghost use Rattle.std.specs.Prelude.{◌≡◌, ℕ, IfErr, IfOk, IsErrOf, OnErr};
ghost use Rattle.comp_mutator.specs.Passes.{did};
ghost use Rattle.comp_mutator.specs.Calls.{Grows};
ghost use Rattle.comp_mutator.specs.Mutators.{pass_of, setup_of, IsMutatorOf};
ghost use Rattle.comp_mutator.specs.Refusal.TheVariants.{Busy};
ghost use Rattle.comp_trace.specs.Acting.{registers_after, Fits, Refuses, Steps};

use crate::steps::act;
use crate::text::Action;
use comp_mutator::{Builder, Mutator, Refusal, Space, retried};
use std::alloc::Global;
use std::sync::Wait;
use std::sync::ledger::Ledger;

/// Like `act`, but retries while the page is busy. Requires a mutator of this space, and a line whose registers and
/// root exist.
pub(crate) fn act_waiting<L: Ledger, B: Builder>(
    alloc: Global,
    rt: &impl Wait,
    space: &Space<L, B>,
    m: &mut Mutator<L>,
    registers: &mut [u64; 16],
    action: Action,
) -> Result<u64, Refusal>
    requires of { IsMutatorOf space.now m.old }
    requires fits { Fits (setup_of space.now) action }
    ensures of { IsMutatorOf space.now m.new }
    ensures went { IfOk result (Steps (setup_of space.now) action registers.old (pass_of m.old) (pass_of m.new)) }
    ensures registers { IfOk result (λ answer. registers.new ≡ registers_after action registers.old answer) }
    ensures grows { OnErr result (Grows (pass_of m.old) (pass_of m.new)) }
    ensures did { OnErr result ((did (pass_of m.new) ≡ did (pass_of m.old)) × (registers.new ≡ registers.old)) }
    ensures busy { (p : ℕ) → IsErrOf result (Busy p) → ⊥ }
    ensures refused { IfErr result (Refuses (setup_of space.now) action registers.old (pass_of m.old) (pass_of m.new)) }
{
    retried!(rt, act(alloc, space, m, registers, action))
}
