//! Exports for the marking of a heap by many threads, over words that are lent at each call.
ghost use Rattle.std.specs.Prelude.{◌≡◌, None, length};
ghost use Rattle.handle_base.specs.HandleKinds.{marking_in, Asks, Turns};
ghost use Rattle.rest_handle.specs.Lending.{IsStillShared};
ghost use Rattle.beside_handle.specs.Marking.{BeginsMarking, EndsMarking, HelpsMarking, MeetsMarking, SharesMarking};

use handle_base::{Answer, Handle};
use std::alloc::Global;

/// Begins to mark what these roots reach, in a heap of this edition, 3 or 4, and of so many words.
#[unsafe(no_mangle)]
pub extern "C" fn compressor_c_marking_begin(
    alloc: Global,
    edition: u32,
    count: u64,
    roots: &[u64],
    marking: &mut Handle,
) -> Answer
    ensures { BeginsMarking edition count roots.now marking.old.kept marking.new.kept result }
{
    beside_handle::begin_marking(alloc, edition, count, roots, marking)
}

/// Another share of a marking, for another thread.
#[unsafe(no_mangle)]
pub extern "C" fn compressor_marking_share(
    alloc: Global,
    marking: &mut Handle,
    other: &mut Handle,
) -> Answer
    ensures same { marking.new.kept ≡ marking.old.kept }
    ensures shares { SharesMarking marking.old.kept other.old.kept other.new.kept result }
{
    beside_handle::share_marking(alloc, marking, other)
}

/// Looks at some of the objects that wait, in these words of the heap.
#[unsafe(no_mangle)]
pub extern "C" fn compressor_c_marking_help(
    alloc: Global,
    marking: &mut Handle,
    words: &[u64],
    who: u64,
) -> Answer
    ensures same { marking.new.kept ≡ marking.old.kept }
    ensures helps { Asks 0 marking_in (HelpsMarking (length words.now)) (Unit {0}) marking.old.kept result }
{
    beside_handle::help_marking(alloc, marking, words, who)
}

/// Meets the objects to which these values lead.
#[unsafe(no_mangle)]
pub extern "C" fn compressor_c_marking_meet(
    alloc: Global,
    marking: &mut Handle,
    values: &[u64],
) -> Answer
    ensures { MeetsMarking values.now marking.old.kept marking.new.kept result }
{
    beside_handle::meet_marking(alloc, marking, values)
}

/// Ends a marking. The handle of the survey keeps what was found then, and that of the marking is empty.
#[unsafe(no_mangle)]
pub extern "C" fn compressor_c_marking_finish(
    alloc: Global,
    marking: &mut Handle,
    roots: &[u64],
    survey: &mut Handle,
) -> Answer
    ensures { Turns marking_in (EndsMarking roots.now) IsStillShared marking.old.kept marking.new.kept survey.old.kept survey.new.kept result }
{
    beside_handle::finish_marking(alloc, marking, roots, survey)
}

/// Drops a share of a marking. Its handle is empty then.
#[unsafe(no_mangle)]
pub extern "C" fn compressor_marking_drop(alloc: Global, marking: &mut Handle)
    ensures { marking.new.kept ≡ None }
{
    flip_handle::drop_kept(alloc, marking);
}
