//! Runs the text of a trace.
ghost use Rattle.std.specs.Prelude.{◌≡◌, length, map, IfErr, IfOk};
ghost use Rattle.comp_mutator.specs.Mutators.{pass_of, setup_of};
ghost use Rattle.comp_trace.specs.WrittenEntries.{DidNothingYet};
ghost use Rattle.comp_trace.specs.Bytes.{Shows, StopsShowing};
ghost use Rattle.comp_trace.specs.AllMutators.{AreAll};

use crate::replays::replaying::{Stopped, replay};
use crate::steps::Shown;
use crate::text::parse;
use comp_mutator::{Builder, Mutator, Space};
use std::alloc::Global;
use std::sync::ledger::Ledger;

/// Reads the text of a trace, and runs it over a space.
///
/// If the text is not a trace, or memory runs out for reading it, that fault is answered, and nothing is shown. Else
/// the fault is the one that stopped the replay.
///
/// Requires all mutators of the space, in the order of their numbers, which have written nothing yet. `count` is their
/// number, and `roots` the number of the heap's roots.
pub fn replay_text<L: Ledger, B: Builder>(
    alloc: Global,
    text: &[u8],
    count: u8,
    roots: u32,
    space: &Space<L, B>,
    mutators: &mut Vec<Mutator<L>>,
) -> Result<Vec<Shown>, Stopped>
    requires all { AreAll space.now mutators.old.items }
    requires new { DidNothingYet mutators.old.items }
    requires counts { (count ≡ (setup_of space.now).mutators) × (roots ≡ length (setup_of space.now).heap.roots) }
    ensures all { AreAll space.now mutators.new.items }
    ensures shows { IfOk result (λ shown. Shows (setup_of space.now) text.now shown.items) }
    ensures stopped { IfErr result (λ stopped. StopsShowing (setup_of space.now) (map pass_of mutators.old.items) text.now stopped.shown.items stopped.fault) }
{
    match parse(alloc, text, count, roots) {
        Ok(trace) => replay(alloc, &trace, space, mutators),
        Err(fault) => Err(Stopped {
            shown: Vec::new(alloc),
            fault,
        }),
    }
}
