//! What one mutator does for a line. Each call is made once.
ghost use Rattle.std.specs.Prelude.{◌≡◌, IfErr, IfOk, OnErr};
ghost use Rattle.comp_mutator.specs.Passes.{did};
ghost use Rattle.comp_mutator.specs.Calls.{Grows};
ghost use Rattle.comp_mutator.specs.Mutators.{pass_of, setup_of, IsMutatorOf};
ghost use Rattle.comp_trace.specs.Acting.{registers_after, Fits, Refuses, Steps};

use crate::steps::registers::{held, immediate_with, kind_if, root_at};
use crate::text::Action;
use comp_mutator::{Builder, Mutator, Refusal, Space};
use std::alloc::Global;
use std::sync::ledger::Ledger;

/// Does what a line says, and answers what its call answers; a line `root` answers the forwarded root, a line `nil` 0,
/// and a line `imm` the immediate. Does not wait for a busy page. If the call or the immediate is refused, the
/// registers are as before, and the mutator has written nothing. Requires a mutator of this space, and a line whose
/// registers and root exist, and whose payload is one.
pub fn act<L: Ledger, B: Builder>(
    alloc: Global,
    space: &Space<L, B>,
    m: &mut Mutator<L>,
    registers: &mut [u64; 16],
    action: Action,
) -> Result<u64, Refusal>
    requires of { IsMutatorOf space.now m.old }
    requires fits { Fits (setup_of space.now) action }
    ensures of { IsMutatorOf space.now m.new }
    ensures went { IfOk result (Steps (setup_of space.now) action registers.old (pass_of m.old) (pass_of m.new)) }
    ensures registers { IfOk result (λ answer. registers.new ≡ registers_after action registers.old answer) }
    ensures grows { OnErr result (Grows (pass_of m.old) (pass_of m.new)) }
    ensures did { OnErr result ((did (pass_of m.new) ≡ did (pass_of m.old)) × (registers.new ≡ registers.old)) }
    ensures refused { IfErr result (Refuses (setup_of space.now) action registers.old (pass_of m.old) (pass_of m.new)) }
{
    match action {
        Action::Root { to, root } => {
            let reference = root_at(space, root);
            registers[usize::from(to)] = reference;
            Ok(reference)
        }
        Action::Load {
            weak,
            to,
            object,
            field,
        } => {
            let kind = kind_if(weak);
            let answer = space.try_read_referring(
                alloc,
                m,
                kind,
                held(registers, object),
                field as u32,
            );
            if let Ok(word) = answer {
                registers[usize::from(to)] = word;
            }
            answer
        }
        Action::Get { object, field } => {
            space.try_read_data(alloc, m, held(registers, object), field)
        }
        Action::Store {
            weak,
            object,
            field,
            value,
        } => {
            let value = held(registers, value);
            let kind = kind_if(weak);
            space.try_write_referring(alloc, m, kind, held(registers, object), field as u32, value)
        }
        Action::Put {
            object,
            field,
            value,
        } => space.try_write_data(alloc, m, held(registers, object), field, value),
        Action::New {
            to,
            refs,
            weak,
            data_words,
            tag,
        } => {
            let reference = space.try_alloc_weak(alloc, m, refs, weak, data_words, tag)?;
            registers[usize::from(to)] = reference;
            Ok(reference)
        }
        Action::Nil { to } => {
            registers[usize::from(to)] = 0;
            Ok(0)
        }
        Action::Immediate { to, payload } => {
            let word = immediate_with(space, payload)?;
            registers[usize::from(to)] = word;
            Ok(word)
        }
    }
}
