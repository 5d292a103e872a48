//! What a mutator alone reads of what it wrote and made.
ghost use Rattle.std.specs.Prelude.{◌≡◌, IfOk};
ghost use Rattle.comp_mutator.specs.Mutators.{setup_of, IsMutatorOf};

use comp_mutator::{Builder, Mutator, Refusal, Space};
use std::alloc::Global;
use std::sync::ledger::Ledger as Named;

// Writes a value into a data field and reads the field. If both succeed, the word is the value.
fn write_and_read<L: Named, B: Builder>(
    alloc: Global,
    space: &Space<L, B>,
    m: &mut Mutator<L>,
    object: u64,
    field: u16,
    value: u64,
) -> (Result<u64, Refusal>, Result<u64, Refusal>)
    requires of { IsMutatorOf space.now m.old }
    requires alone { (setup_of space.now).mutators ≡ 1 }
    ensures read { IfOk result.0 (λ stamp. IfOk result.1 (λ word. word ≡ value)) }
{
    let stamp = space.try_write_data(alloc, m, object, field, value);
    let word = space.try_read_data(alloc, m, object, field);
    comp_mutator::alone_sees_its_own(space);
    comp_mutator::fields_keep_their_addresses(space);
    page_cells::last_written();
    (stamp, word)
}

/// Writes null or a start into a weak field and reads the field. If both succeed, the word is what was written.
pub fn write_weak_and_read<L: Named, B: Builder>(
    alloc: Global,
    space: &Space<L, B>,
    m: &mut Mutator<L>,
    object: u64,
    field: u16,
    value: u64,
) -> (Result<u64, Refusal>, Result<u64, Refusal>)
    requires of { IsMutatorOf space.now m.old }
    requires alone { (setup_of space.now).mutators ≡ 1 }
    ensures read { IfOk result.0 (λ stamp. IfOk result.1 (λ word. word ≡ value)) }
{
    let stamp = space.try_write_weak(alloc, m, object, field, value);
    let word = space.try_read_weak(alloc, m, object, field);
    comp_mutator::alone_sees_its_own(space);
    comp_mutator::fields_keep_their_addresses(space);
    page_cells::last_written();
    (stamp, word)
}

/// Writes 7 into a data field and reads the field. If both succeed, the word is 7.
pub fn write_seven_and_read<L: Named, B: Builder>(
    alloc: Global,
    space: &Space<L, B>,
    m: &mut Mutator<L>,
    object: u64,
    field: u16,
) -> Result<u64, Refusal>
    requires of { IsMutatorOf space.now m.old }
    requires alone { (setup_of space.now).mutators ≡ 1 }
    ensures seven { IfOk result (λ word. word ≡ 7) }
{
    let (stamp, word) = write_and_read(alloc, space, m, object, field, 7);
    stamp?;
    word
}

/// Makes an object of one reference and one data word and reads both fields. If the reads succeed, they are null and 0.
pub fn make_and_read<L: Named, B: Builder>(
    alloc: Global,
    space: &Space<L, B>,
    m: &mut Mutator<L>,
    tag: u32,
) -> Result<(Result<u64, Refusal>, Result<u64, Refusal>), Refusal>
    requires of { IsMutatorOf space.now m.old }
    requires alone { (setup_of space.now).mutators ≡ 1 }
    ensures null { IfOk result (λ words. IfOk words.0 (λ reference. reference ≡ 0)) }
    ensures zero { IfOk result (λ words. IfOk words.1 (λ word. word ≡ 0)) }
{
    let object = space.try_alloc(alloc, m, 1, 1, tag)?;
    let reference = space.try_read_ref(alloc, m, object, 0);
    let data = space.try_read_data(alloc, m, object, 0);
    comp_mutator::alone_sees_its_own(space);
    comp_mutator::fields_keep_their_addresses(space);
    comp_mutator::made_objects_start(space);
    Ok((reference, data))
}

/// Makes an object of one weak word and reads it. If the read succeeds, it is null.
pub fn make_weak_and_read<L: Named, B: Builder>(
    alloc: Global,
    space: &Space<L, B>,
    m: &mut Mutator<L>,
    tag: u32,
) -> Result<Result<u64, Refusal>, Refusal>
    requires of { IsMutatorOf space.now m.old }
    requires alone { (setup_of space.now).mutators ≡ 1 }
    ensures null { IfOk result (λ weak. IfOk weak (λ word. word ≡ 0)) }
{
    let object = space.try_alloc_weak(alloc, m, 0, 1, 0, tag)?;
    let weak = space.try_read_weak(alloc, m, object, 0);
    comp_mutator::alone_sees_its_own(space);
    comp_mutator::fields_keep_their_addresses(space);
    comp_mutator::made_objects_start(space);
    Ok(weak)
}
