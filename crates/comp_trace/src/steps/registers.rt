//! Registers, the roots and immediates that they take, and the kind of the field that a load or a store names.
ghost use Rattle.std.specs.Prelude.{◌≡◌, ◌<◌, ◌^◌, Some, true, length, slice_index, IfErr, IfOk};
ghost use Rattle.heap_layout.specs.Kinds.{refers};
ghost use Rattle.heap_layout.specs.Heap.{live};
ghost use Rattle.comp_mutator.specs.Sliding.{forward_value};
ghost use Rattle.comp_mutator.specs.Mutators.{setup_of};
ghost use Rattle.comp_trace.specs.LineBuilds.{kind_if};
ghost use Rattle.comp_trace.specs.Immediates.{HasNoImmediate, IsImmediateWith};

use comp_mutator::{Builder, Refusal, Space};
use heap_layout::{FIRST_IMMEDIATE, Kind};
use std::sync::ledger::Ledger;

/// The word in a register. There are 16 registers.
pub(crate) fn held(registers: &[u64; 16], register: u8) -> u64
    requires { register < 16 }
    ensures { result ≡ slice_index registers.now register }
{
    registers[usize::from(register)]
}

/// The forwarded root of this number. Requires that the heap has it.
pub(crate) fn root_at<L: Ledger, B: Builder>(space: &Space<L, B>, root: u32) -> u64
    requires { root < length (setup_of space.now).heap.roots }
    ensures { forward_value (setup_of space.now).heap.edition (live (setup_of space.now).heap) (slice_index (setup_of space.now).heap.roots root) ≡ Some result }
{
    space.roots()[root as usize]
}

/// The immediate with this payload, or `NotInEdition` if the heap's edition has no immediates.
pub(crate) fn immediate_with<L: Ledger, B: Builder>(
    space: &Space<L, B>,
    payload: u64,
) -> Result<u64, Refusal>
    requires { payload < 2 ^ 63 }
    ensures word { IfOk result (IsImmediateWith (setup_of space.now) payload) }
    ensures refused { IfErr result (HasNoImmediate (setup_of space.now) payload) }
{
    let word = FIRST_IMMEDIATE + payload;
    if space.edition().is_immediate(word) {
        Ok(word)
    } else {
        Err(Refusal::NotInEdition)
    }
}

/// The kind of the field that a load or a store names: weak if `weak`, and else a reference. Both kinds refer.
pub(crate) fn kind_if(weak: bool) -> Kind
    ensures kind { result ≡ kind_if weak }
    ensures refers { refers result ≡ true }
{
    if weak { Kind::Weak } else { Kind::Reference }
}
