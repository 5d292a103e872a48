//! Exports that act on a crew.
ghost use Rattle.std.specs.Prelude.{◌≡◌, None};
ghost use Rattle.flip_handle.specs.Crewing.{Takes};
ghost use Rattle.flip_handle.specs.Joining.{Gives, IsToldFrom};
ghost use Rattle.handle_base.specs.HandleKinds.{crew_in, Turns};
ghost use Rattle.flip_handle.specs.Turning.{Finishes, IsUnfinished};

use handle_base::{Answer, Handle};
use std::alloc::Global;

/// Takes a mutator out of its crew.
#[unsafe(no_mangle)]
pub extern "C" fn compressor_crew_take(
    alloc: Global,
    crew: &mut Handle,
    mutator: &mut Handle,
) -> Answer
    ensures { Takes crew.old.kept crew.new.kept mutator.old.kept mutator.new.kept result }
{
    flip_handle::take_member(alloc, crew, mutator)
}

/// Hands a mutator back to its crew. Its handle is empty then.
#[unsafe(no_mangle)]
pub extern "C" fn compressor_crew_give(
    alloc: Global,
    crew: &mut Handle,
    mutator: &mut Handle,
) -> Answer
    requires { IsToldFrom crew.old.kept mutator.old.kept }
    ensures { Gives crew.old.kept crew.new.kept mutator.old.kept mutator.new.kept result }
{
    flip_handle::give_member(alloc, crew, mutator)
}

/// Finishes a crew whose mutators were all handed back. The handle of the end keeps the finished heap then, and that of
/// the crew is empty.
#[unsafe(no_mangle)]
pub extern "C" fn compressor_crew_finish(
    alloc: Global,
    crew: &mut Handle,
    end: &mut Handle,
) -> Answer
    ensures { Turns crew_in Finishes IsUnfinished crew.old.kept crew.new.kept end.old.kept end.new.kept result }
{
    flip_handle::finish_crew(alloc, crew, end)
}

/// Drops a crew with the mutators that are in it. Its handle is empty then.
#[unsafe(no_mangle)]
pub extern "C" fn compressor_crew_drop(alloc: Global, crew: &mut Handle)
    ensures { crew.new.kept ≡ None }
{
    flip_handle::drop_kept(alloc, crew);
}
