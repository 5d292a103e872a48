//! Calls on fields of any number. All that a test's proof knows after a call is that the mutator belongs to the space.
ghost use Rattle.comp_mutator.specs.Mutators.{IsMutatorOf};

use comp_mutator::{Builder, Mutator, Refusal, Space};
use heap_layout::Kind;
use std::alloc::Global;
use std::sync::Wait;
use std::sync::ledger::Ledger as Named;

/// A field: its kind, its object and its number.
#[derive(Clone, Copy)]
pub struct Field(pub Kind, pub u64, pub u32);

/// Reads a field. If `waits` holds, the call waits while the page is busy.
pub fn read<L: Named, B: Builder, R: Wait>(
    rt: &R,
    alloc: Global,
    space: &Space<L, B>,
    m: &mut Mutator<L>,
    field: Field,
    waits: bool,
) -> Result<u64, Refusal>
    requires of { IsMutatorOf space.now m.old }
    ensures of { IsMutatorOf space.now m.new }
{
    let Field(kind, object, number) = field;
    match (kind, waits) {
        (Kind::Reference, false) => {
            space.try_read_referring(alloc, m, Kind::Reference, object, number)
        }
        (Kind::Reference, true) => {
            space.read_referring(alloc, rt, m, Kind::Reference, object, number)
        }
        (Kind::Weak, false) => space.try_read_referring(alloc, m, Kind::Weak, object, number),
        (Kind::Weak, true) => space.read_referring(alloc, rt, m, Kind::Weak, object, number),
        (_, false) => space.try_read_data_at(alloc, m, object, number),
        (_, true) => space.read_data_at(alloc, rt, m, object, number),
    }
}

/// Writes a field. If `waits` holds, the call waits while the page is busy.
pub fn write<L: Named, B: Builder, R: Wait>(
    rt: &R,
    alloc: Global,
    space: &Space<L, B>,
    m: &mut Mutator<L>,
    field: Field,
    value: u64,
    waits: bool,
) -> Result<u64, Refusal>
    requires of { IsMutatorOf space.now m.old }
    ensures of { IsMutatorOf space.now m.new }
{
    let Field(kind, object, number) = field;
    match (kind, waits) {
        (Kind::Reference, false) => {
            space.try_write_referring(alloc, m, Kind::Reference, object, number, value)
        }
        (Kind::Reference, true) => {
            space.write_referring(alloc, rt, m, Kind::Reference, object, number, value)
        }
        (Kind::Weak, false) => {
            space.try_write_referring(alloc, m, Kind::Weak, object, number, value)
        }
        (Kind::Weak, true) => {
            space.write_referring(alloc, rt, m, Kind::Weak, object, number, value)
        }
        (_, false) => space.try_write_data_at(alloc, m, object, number, value),
        (_, true) => space.write_data_at(alloc, rt, m, object, number, value),
    }
}
