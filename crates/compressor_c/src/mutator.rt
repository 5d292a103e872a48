//! Exports that act on a mutator.
ghost use Rattle.std.specs.Prelude.{◌≡◌, None};
ghost use Rattle.flip_handle.specs.Calling.{Calls, Does};
ghost use Rattle.handle_base.specs.Copying.{CopiesRoots};
ghost use Rattle.flip_handle.specs.Facts.{Counts};
ghost use Rattle.flip_handle.specs.Joining.{AreApart, Brings};
ghost use Rattle.handle_base.specs.HandleKinds.{mutator_in, Asks};
ghost use Rattle.flip_handle.specs.Seeing.{SeesBy};
ghost use Rattle.flip_handle.specs.declared.calling.Call.TheVariants as calls;

use flip_handle::{Call, MutatorFacts};
use handle_base::{Answer, Handle};
use std::alloc::Global;

/// Reads a reference field.
#[unsafe(no_mangle)]
pub extern "C" fn compressor_mutator_read_ref(
    alloc: Global,
    mutator: &mut Handle,
    object: u64,
    field: u32,
) -> Answer
    ensures { Calls (Does (calls.ReadRef object field)) mutator.old.kept mutator.new.kept result }
{
    flip_handle::make_call(alloc, mutator, Call::ReadRef(object, field))
}

/// Reads a weak field.
#[unsafe(no_mangle)]
pub extern "C" fn compressor_mutator_read_weak(
    alloc: Global,
    mutator: &mut Handle,
    object: u64,
    field: u32,
) -> Answer
    ensures { Calls (Does (calls.ReadWeak object field)) mutator.old.kept mutator.new.kept result }
{
    flip_handle::make_call(alloc, mutator, Call::ReadWeak(object, field))
}

/// Reads a data field.
#[unsafe(no_mangle)]
pub extern "C" fn compressor_mutator_read_data(
    alloc: Global,
    mutator: &mut Handle,
    object: u64,
    field: u32,
) -> Answer
    ensures { Calls (Does (calls.ReadData object field)) mutator.old.kept mutator.new.kept result }
{
    flip_handle::make_call(alloc, mutator, Call::ReadData(object, field))
}

/// Reads the header of an object.
#[unsafe(no_mangle)]
pub extern "C" fn compressor_mutator_header(
    alloc: Global,
    mutator: &mut Handle,
    object: u64,
) -> Answer
    ensures { Calls (Does (calls.Header object)) mutator.old.kept mutator.new.kept result }
{
    flip_handle::make_call(alloc, mutator, Call::Header(object))
}

/// Writes a reference field.
#[unsafe(no_mangle)]
pub extern "C" fn compressor_mutator_write_ref(
    alloc: Global,
    mutator: &mut Handle,
    object: u64,
    field: u32,
    value: u64,
) -> Answer
    ensures { Calls (Does (calls.WriteRef object field value)) mutator.old.kept mutator.new.kept result }
{
    flip_handle::make_call(alloc, mutator, Call::WriteRef(object, field, value))
}

/// Writes a weak field.
#[unsafe(no_mangle)]
pub extern "C" fn compressor_mutator_write_weak(
    alloc: Global,
    mutator: &mut Handle,
    object: u64,
    field: u32,
    value: u64,
) -> Answer
    ensures { Calls (Does (calls.WriteWeak object field value)) mutator.old.kept mutator.new.kept result }
{
    flip_handle::make_call(alloc, mutator, Call::WriteWeak(object, field, value))
}

/// Writes a data field.
#[unsafe(no_mangle)]
pub extern "C" fn compressor_mutator_write_data(
    alloc: Global,
    mutator: &mut Handle,
    object: u64,
    field: u32,
    value: u64,
) -> Answer
    ensures { Calls (Does (calls.WriteData object field value)) mutator.old.kept mutator.new.kept result }
{
    flip_handle::make_call(alloc, mutator, Call::WriteData(object, field, value))
}

/// Makes an object with this header word.
#[unsafe(no_mangle)]
pub extern "C" fn compressor_mutator_alloc(
    alloc: Global,
    mutator: &mut Handle,
    header: u64,
) -> Answer
    ensures { Calls (Does (calls.Alloc header)) mutator.old.kept mutator.new.kept result }
{
    flip_handle::make_call(alloc, mutator, Call::Alloc(header))
}

/// Builds a page if nobody has.
#[unsafe(no_mangle)]
pub extern "C" fn compressor_mutator_touch(alloc: Global, mutator: &mut Handle, page: u64) -> Answer
    ensures { Calls (Does (calls.Touch page)) mutator.old.kept mutator.new.kept result }
{
    flip_handle::make_call(alloc, mutator, Call::Touch(page))
}

/// Copies the 64 words of a page as the mutator has then seen it.
#[unsafe(no_mangle)]
pub extern "C" fn compressor_mutator_page(
    alloc: Global,
    mutator: &mut Handle,
    page: u64,
    out: &mut [u64; 64],
) -> Answer
    ensures { SeesBy page out.old out.new mutator.old.kept mutator.new.kept result }
{
    flip_handle::seen_page(alloc, mutator, page, out)
}

/// The forwarded root with this number.
#[unsafe(no_mangle)]
pub extern "C" fn compressor_mutator_root(
    alloc: Global,
    mutator: &mut Handle,
    number: u64,
) -> Answer
    ensures { Calls (Does (calls.Root number)) mutator.old.kept mutator.new.kept result }
{
    flip_handle::make_call(alloc, mutator, Call::Root(number))
}

/// Copies all forwarded roots.
#[unsafe(no_mangle)]
pub extern "C" fn compressor_c_mutator_roots(
    alloc: Global,
    mutator: &mut Handle,
    out: &mut [u64],
) -> Answer
    ensures same { mutator.new.kept ≡ mutator.old.kept }
    ensures copies { Asks 0 mutator_in (CopiesRoots out.old out.new) (out.new ≡ out.old) mutator.old.kept result }
{
    handle_base::mutator_roots(alloc, mutator, out)
}

/// The page that the mutator built as the one with this number.
#[unsafe(no_mangle)]
pub extern "C" fn compressor_mutator_build(
    alloc: Global,
    mutator: &mut Handle,
    number: u64,
) -> Answer
    ensures { Calls (Does (calls.Build number)) mutator.old.kept mutator.new.kept result }
{
    flip_handle::make_call(alloc, mutator, Call::Build(number))
}

/// Copies the counts of a mutator.
#[unsafe(no_mangle)]
pub extern "C" fn compressor_mutator_facts_of(
    alloc: Global,
    mutator: &mut Handle,
    facts: &mut MutatorFacts,
) -> Answer
    ensures same { mutator.new.kept ≡ mutator.old.kept }
    ensures counts { Asks 0 mutator_in (Counts facts.new) (facts.new ≡ facts.old) mutator.old.kept result }
{
    flip_handle::mutator_facts(alloc, mutator, facts)
}

/// Lets two mutators meet.
#[unsafe(no_mangle)]
pub extern "C" fn compressor_mutator_meet(
    alloc: Global,
    mutator: &mut Handle,
    other: &mut Handle,
) -> Answer
    requires { AreApart mutator.old.kept other.old.kept }
    ensures { Brings mutator.old.kept other.old.kept mutator.new.kept other.new.kept result }
{
    flip_handle::meet_members(alloc, mutator, other)
}

/// Drops a mutator. Its handle is empty then.
#[unsafe(no_mangle)]
pub extern "C" fn compressor_mutator_drop(alloc: Global, mutator: &mut Handle)
    ensures { mutator.new.kept ≡ None }
{
    flip_handle::drop_kept(alloc, mutator);
}
