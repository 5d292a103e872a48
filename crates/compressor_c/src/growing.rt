//! Exports for a survey of a heap at rest that grows.
ghost use Rattle.std.specs.Prelude.{◌≡◌, None};
ghost use Rattle.rest_handle.specs.Growing.{BeginsGrowing, BeginsLent, GivesBack, Grows, GrowsByValues, IsNever, IsUnbegun, SaysKept, SettlesGrowing};
ghost use Rattle.handle_base.specs.HandleKinds.{growing_in, room_in, tables_in, Asks, Turns};

use handle_base::{Answer, Handle};
use std::alloc::Global;

/// Begins a survey of these words, of this edition, 1 to 4, that has marked nothing.
#[unsafe(no_mangle)]
pub extern "C" fn compressor_c_growing_begin(
    alloc: Global,
    edition: u32,
    words: &[u64],
    growing: &mut Handle,
) -> Answer
    ensures { BeginsGrowing edition words.now growing.old.kept growing.new.kept result }
{
    rest_handle::begin_growing(alloc, edition, words, growing)
}

/// Begins such a survey by tables that were made before. The handle of the survey keeps it then, and that of the tables
/// is empty.
#[unsafe(no_mangle)]
pub extern "C" fn compressor_c_growing_begin_lent(
    alloc: Global,
    tables: &mut Handle,
    edition: u32,
    words: &[u64],
    growing: &mut Handle,
) -> Answer
    ensures { Turns tables_in (BeginsLent edition words.now) (IsUnbegun edition words.now) tables.old.kept tables.new.kept growing.old.kept growing.new.kept result }
{
    rest_handle::begin_growing_lent(alloc, tables, edition, words, growing)
}

/// Marks what more roots reach.
#[unsafe(no_mangle)]
pub extern "C" fn compressor_c_growing_also(
    alloc: Global,
    growing: &mut Handle,
    words: &[u64],
    roots: &[u64],
) -> Answer
    ensures { Grows words.now roots.now growing.old.kept growing.new.kept result }
{
    rest_handle::grow(alloc, growing, words, roots)
}

/// Keeps the values of ephemerons.
#[unsafe(no_mangle)]
pub extern "C" fn compressor_c_growing_also_values(
    alloc: Global,
    growing: &mut Handle,
    words: &[u64],
    ephemerons: &[u64],
) -> Answer
    ensures { GrowsByValues words.now ephemerons.now growing.old.kept growing.new.kept result }
{
    rest_handle::grow_by_values(alloc, growing, words, ephemerons)
}

/// Whether a word is kept so far.
#[unsafe(no_mangle)]
pub extern "C" fn compressor_growing_keeps(
    alloc: Global,
    growing: &mut Handle,
    value: u64,
) -> Answer
    ensures same { growing.new.kept ≡ growing.old.kept }
    ensures says { Asks 0 growing_in (SaysKept value) (Unit {0}) growing.old.kept result }
{
    rest_handle::keeps(alloc, growing, value)
}

/// Ends the growth of a survey. The handle of the survey keeps it then, and that of the growth is empty.
#[unsafe(no_mangle)]
pub extern "C" fn compressor_growing_settle(
    alloc: Global,
    growing: &mut Handle,
    survey: &mut Handle,
) -> Answer
    ensures { SettlesGrowing growing.old.kept growing.new.kept survey.old.kept survey.new.kept result }
{
    rest_handle::settle_growing(alloc, growing, survey)
}

/// Ends a survey that grows, or that is over, and gives its tables back. The handle of the tables keeps them then, and
/// that of the survey is empty.
#[unsafe(no_mangle)]
pub extern "C" fn compressor_growing_return(
    alloc: Global,
    growing: &mut Handle,
    tables: &mut Handle,
) -> Answer
    ensures { Turns room_in GivesBack IsNever growing.old.kept growing.new.kept tables.old.kept tables.new.kept result }
{
    rest_handle::return_growing(alloc, growing, tables)
}

/// Drops a survey that grows. Its handle is empty then.
#[unsafe(no_mangle)]
pub extern "C" fn compressor_growing_drop(alloc: Global, growing: &mut Handle)
    ensures { growing.new.kept ≡ None }
{
    flip_handle::drop_kept(alloc, growing);
}
