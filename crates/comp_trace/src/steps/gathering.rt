//! A meeting of all mutators of a space.
ghost use Rattle.std.specs.Prelude.{map};
ghost use Rattle.comp_mutator.specs.Mutators.{pass_of, setup_of};
ghost use Rattle.comp_trace.specs.AllMet.{HaveAllMet, HaveOnlyMet};
ghost use Rattle.comp_trace.specs.AllMutators.{AreAll};

use crate::steps::stepping::meet_others;
use comp_mutator::{Builder, Mutator, Space};
use std::sync::ledger::Ledger;

/// Lets all mutators of a space meet: the first one meets each of the others, and then each of them again. Afterwards
/// all have seen exactly what they all did. They write and build nothing, and no memory is allocated. Requires all
/// mutators of the space, in the order of their numbers.
pub fn meet_all<L: Ledger, B: Builder>(space: &Space<L, B>, mutators: &mut [Mutator<L>])
    requires { AreAll space.now mutators.old }
    ensures all { AreAll space.now mutators.new }
    ensures met { HaveAllMet (setup_of space.now) (map pass_of mutators.new) }
    ensures only { HaveOnlyMet mutators.old mutators.new }
{
    if mutators.is_empty() {
        return;
    }
    meet_others(space, mutators, 0);
    meet_others(space, mutators, 0);
}
