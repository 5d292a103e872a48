//! Runs a line between two rounds of meetings.
ghost use Rattle.std.specs.Prelude.{◌≡◌, ◌≢◌, ◌<◌, ℕ, length, IfErr, IfOk, IsErrOf, OnErr};
ghost use Rattle.comp_mutator.specs.Mutators.{setup_of, AreMutatorsOf};
ghost use Rattle.comp_mutator.specs.Refusal.TheVariants.{Busy};
ghost use Rattle.comp_trace.specs.Acting.{registers_after, Fits};
ghost use Rattle.comp_trace.specs.LineBuilds.{touched, BuildOn, SeeBuiltOn};
ghost use Rattle.comp_trace.specs.WrittenEntries.{HaveSeenAll, HaveStart};
ghost use Rattle.comp_trace.specs.AllMutators.{AreAll};
ghost use Rattle.comp_trace.specs.RoundsOfMeetings.{AreLater, DidNothing, HasMetAll, HaveMet, RanLine, WasTurnedDown};

use crate::steps::acting::act;
use crate::text::Action;
use comp_mutator::{Builder, Mutator, Refusal, Space};
use std::alloc::Global;
use std::sync::ledger::Ledger;

// Lets the mutators at indices `k` and `i` meet.
fn meet_at<L: Ledger, B: Builder>(
    space: &Space<L, B>,
    mutators: &mut [Mutator<L>],
    k: usize,
    i: usize,
)
    requires of { AreMutatorsOf space.now mutators.old }
    requires inside { (k < length mutators.old) × (i < length mutators.old) × (k ≢ i) }
    ensures of { AreMutatorsOf space.now mutators.new }
    ensures met { HaveMet k i mutators.old mutators.new }
{
    if k < i {
        let (front, back) = mutators.split_at_mut(i);
        space.meet(&mut front[k], &mut back[0]);
    } else {
        let (front, back) = mutators.split_at_mut(k);
        space.meet(&mut back[0], &mut front[i]);
    }
}

/// Lets mutator `i` meet each other mutator. Mutator `i` has then seen all that any of them had seen, and each of the
/// others has seen all that mutator `i` had seen before.
pub(crate) fn meet_others<L: Ledger, B: Builder>(
    space: &Space<L, B>,
    mutators: &mut [Mutator<L>],
    i: usize,
)
    requires of { AreMutatorsOf space.now mutators.old }
    requires inside { i < length mutators.old }
    ensures of { AreMutatorsOf space.now mutators.new }
    ensures met { HasMetAll i mutators.old mutators.new }
{
    for k in 0..i {
        meet_at(space, mutators, k, i);
    }
    for k in i + 1..mutators.len() {
        meet_at(space, mutators, k, i);
    }
}

/// Runs a line by mutator `i`, between two rounds of meetings. So the line acts on all that all mutators did before,
/// and all mutators have then seen all that was done. If its call is refused, the registers are as before, no mutator
/// has written anything, and the second round is held all the same. No page is busy: all mutators are in hand, and rest
/// during the call. Requires all mutators of the space, in the order of
/// their numbers, with mutator `i` among them, and a line whose registers and root exist.
pub fn step<L: Ledger, B: Builder>(
    alloc: Global,
    space: &Space<L, B>,
    mutators: &mut [Mutator<L>],
    registers: &mut [u64; 16],
    i: usize,
    action: Action,
) -> Result<u64, Refusal>
    requires all { AreAll space.now mutators.old }
    requires inside { i < length mutators.old }
    requires fits { Fits (setup_of space.now) action }
    ensures all { AreAll space.now mutators.new }
    ensures later { AreLater mutators.old mutators.new }
    ensures seen { HaveSeenAll mutators.new }
    ensures start { HaveStart (setup_of space.now) mutators.old }
    ensures did { OnErr result (DidNothing mutators.old mutators.new) }
    ensures kept { OnErr result (registers.new ≡ registers.old) }
    ensures registers { IfOk result (λ answer. registers.new ≡ registers_after action registers.old answer) }
    ensures builds { IfOk result (λ answer. BuildOn i (touched (setup_of space.now) action registers.old answer) mutators.old mutators.new) }
    ensures built { IfOk result (λ answer. SeeBuiltOn i (touched (setup_of space.now) action registers.old answer) mutators.old mutators.new) }
    ensures ran { IfOk result (RanLine (setup_of space.now) i mutators.old mutators.new action registers.old) }
    ensures refused { IfErr result (WasTurnedDown (setup_of space.now) i mutators.old mutators.new action registers.old) }
    ensures busy { (p : ℕ) → IsErrOf result (Busy p) → ⊥ }
{
    meet_others(space, mutators, i);
    let m = &mut mutators[i];
    let answer = act(alloc, space, m, registers, action);
    meet_others(space, mutators, i);
    answer
}
