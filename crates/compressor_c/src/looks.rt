//! Exports for a marking of a heap while its threads go on, by looks at one object after the other.
ghost use Rattle.std.specs.Prelude.{◌≡◌, None};
ghost use Rattle.handle_base.specs.HandleKinds.{looks_in, Asks};
ghost use Rattle.beside_handle.specs.Lanes.{Checks};
ghost use Rattle.beside_handle.specs.Looking.{LooksAgain, LooksAtRows, MeetsValues};
ghost use Rattle.beside_handle.specs.Looks.{BeginsLooks, CopiesWaiting, EndsLooks};

use handle_base::{Answer, Handle};
use std::alloc::Global;

/// Begins to mark what these roots reach, in a heap of this edition, 3 or 4, and of so many words.
#[unsafe(no_mangle)]
pub extern "C" fn compressor_c_looks_begin(
    alloc: Global,
    edition: u32,
    count: u64,
    roots: &[u64],
    looks: &mut Handle,
) -> Answer
    ensures { BeginsLooks edition count roots.now looks.old.kept looks.new.kept result }
{
    beside_handle::begin_looks(alloc, edition, count, roots, looks)
}

/// Copies the indices of the objects that wait to be looked at.
#[unsafe(no_mangle)]
pub extern "C" fn compressor_c_looks_waiting(
    alloc: Global,
    looks: &mut Handle,
    indices: &mut [u64],
) -> Answer
    ensures same { looks.new.kept ≡ looks.old.kept }
    ensures copies { Asks 0 looks_in (CopiesWaiting indices.old indices.new) (indices.new ≡ indices.old) looks.old.kept result }
{
    beside_handle::waiting_looks(alloc, looks, indices)
}

/// Looks at the next objects that wait, one for each row.
#[unsafe(no_mangle)]
pub extern "C" fn compressor_c_looks_look(alloc: Global, looks: &mut Handle, rows: &[u64]) -> Answer
    ensures { LooksAtRows rows.now looks.old.kept looks.new.kept result }
{
    beside_handle::look_rows(alloc, looks, rows)
}

/// Looks again at the object at this index.
#[unsafe(no_mangle)]
pub extern "C" fn compressor_c_looks_again(
    alloc: Global,
    looks: &mut Handle,
    index: u64,
    row: &[u64],
) -> Answer
    ensures { LooksAgain index row.now looks.old.kept looks.new.kept result }
{
    beside_handle::look_again(alloc, looks, index, row)
}

/// Meets the objects to which these values lead.
#[unsafe(no_mangle)]
pub extern "C" fn compressor_c_looks_meet(
    alloc: Global,
    looks: &mut Handle,
    values: &[u64],
) -> Answer
    ensures { MeetsValues values.now looks.old.kept looks.new.kept result }
{
    beside_handle::meet_looks(alloc, looks, values)
}

/// Ends a marking of which no object waits. The handle of the survey keeps what was found then, and that of the marking
/// is empty.
#[unsafe(no_mangle)]
pub extern "C" fn compressor_c_looks_finish(
    alloc: Global,
    looks: &mut Handle,
    roots: &[u64],
    survey: &mut Handle,
) -> Answer
    ensures { EndsLooks roots.now looks.old.kept looks.new.kept survey.old.kept survey.new.kept result }
{
    beside_handle::finish_looks(alloc, looks, roots, survey)
}

/// Asks of all objects that were looked at whether they are in these words as they must be.
#[unsafe(no_mangle)]
pub extern "C" fn compressor_c_looks_check(
    alloc: Global,
    looks: &mut Handle,
    words: &[u64],
) -> Answer
    ensures same { looks.new.kept ≡ looks.old.kept }
    ensures checks { Asks 0 looks_in (Checks words.now) (Unit {0}) looks.old.kept result }
{
    beside_handle::check_looks(alloc, looks, words)
}

/// Drops a marking. Its handle is empty then.
#[unsafe(no_mangle)]
pub extern "C" fn compressor_looks_drop(alloc: Global, looks: &mut Handle)
    ensures { looks.new.kept ≡ None }
{
    flip_handle::drop_kept(alloc, looks);
}
