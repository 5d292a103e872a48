//! Exports that act on a plan.
ghost use Rattle.std.specs.Prelude.{◌≡◌, None};
ghost use Rattle.flip_handle.specs.Crewing.{Flips};
ghost use Rattle.flip_handle.specs.Facts.{CountsPlan};
ghost use Rattle.file_handle.specs.Judging.{JudgesBy};
ghost use Rattle.handle_base.specs.HandleKinds.{plan_in, Asks};
ghost use Rattle.flip_handle.specs.Planning.{CopiesPlanned, ForwardsBy};
ghost use Rattle.handle_base.specs.Sharing.{Shares};
ghost use Rattle.file_handle.specs.Telling.{ExplainsBy};

use flip_handle::PlanFacts;
use handle_base::{Answer, Handle};
use std::alloc::Global;

/// Copies the counts of a plan.
#[unsafe(no_mangle)]
pub extern "C" fn compressor_plan_facts_of(
    alloc: Global,
    plan: &mut Handle,
    facts: &mut PlanFacts,
) -> Answer
    ensures same { plan.new.kept ≡ plan.old.kept }
    ensures counts { Asks 0 plan_in (CountsPlan facts.new) (facts.new ≡ facts.old) plan.old.kept result }
{
    flip_handle::plan_facts(alloc, plan, facts)
}

/// Another share of a plan, for another thread.
#[unsafe(no_mangle)]
pub extern "C" fn compressor_plan_share(
    alloc: Global,
    plan: &mut Handle,
    other: &mut Handle,
) -> Answer
    ensures same { plan.new.kept ≡ plan.old.kept }
    ensures shares { Shares plan_in plan.old.kept other.old.kept other.new.kept result }
{
    flip_handle::share_plan(alloc, plan, other)
}

/// Makes addresses of from-space lead to where their objects slide.
#[unsafe(no_mangle)]
pub extern "C" fn compressor_c_plan_forward(
    alloc: Global,
    plan: &mut Handle,
    addresses: &mut [u64],
) -> Answer
    ensures same { plan.new.kept ≡ plan.old.kept }
    ensures forwards { Asks 0 plan_in (ForwardsBy addresses.old addresses.new) (addresses.new ≡ addresses.old) plan.old.kept result }
{
    flip_handle::forward_plan(alloc, plan, addresses)
}

/// Copies the 64 words of a compacted page, as nobody has written to it.
#[unsafe(no_mangle)]
pub extern "C" fn compressor_plan_page(
    alloc: Global,
    plan: &mut Handle,
    page: u64,
    out: &mut [u64; 64],
) -> Answer
    ensures same { plan.new.kept ≡ plan.old.kept }
    ensures copies { Asks 0 plan_in (CopiesPlanned page out.old out.new) (out.new ≡ out.old) plan.old.kept result }
{
    flip_handle::plan_page(alloc, plan, page, out)
}

/// Flips a planned heap for a new crew of this name.
#[unsafe(no_mangle)]
pub extern "C" fn compressor_c_plan_flip(
    alloc: Global,
    plan: &mut Handle,
    name: u64,
    mutators: u32,
    fresh_pages: u32,
    crew: &mut Handle,
) -> Answer
    ensures same { plan.new.kept ≡ plan.old.kept }
    ensures flips { Flips name mutators fresh_pages plan.old.kept crew.old.kept crew.new.kept result }
{
    flip_handle::flip_crew(alloc, plan, name, mutators, fresh_pages, crew)
}

/// Judges a dump, or a file of words, for the heap of a plan.
#[unsafe(no_mangle)]
pub extern "C" fn compressor_c_plan_audit(
    alloc: Global,
    plan: &mut Handle,
    bytes: &[u8],
    options: u32,
) -> Answer
    ensures same { plan.new.kept ≡ plan.old.kept }
    ensures judges { Asks 0 plan_in (JudgesBy options bytes.now) (Unit {0}) plan.old.kept result }
{
    file_handle::judge_dump(alloc, plan, bytes, options)
}

/// Copies what is wrong where with a dump, or a file of words.
#[unsafe(no_mangle)]
pub extern "C" fn compressor_c_plan_explain(
    alloc: Global,
    plan: &mut Handle,
    bytes: &[u8],
    options: u32,
    out: &mut [u8],
) -> Answer
    ensures same { plan.new.kept ≡ plan.old.kept }
    ensures explains { Asks 0 plan_in (ExplainsBy options bytes.now out.old out.new) (out.new ≡ out.old) plan.old.kept result }
{
    file_handle::explain_dump(alloc, plan, bytes, options, out)
}

/// Drops a plan. Its handle is empty then.
#[unsafe(no_mangle)]
pub extern "C" fn compressor_plan_drop(alloc: Global, plan: &mut Handle)
    ensures { plan.new.kept ≡ None }
{
    flip_handle::drop_kept(alloc, plan);
}
