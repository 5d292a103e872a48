//! What a caller can conclude about a word that was read before a trace was replayed.
ghost use Rattle.std.specs.Prelude.{◌≡◌, ◌<◌, length, IfSome};
ghost use Rattle.page_plan.specs.Kind.TheVariants.{Data};
ghost use Rattle.comp_mutator.specs.Mutators.{setup_of};
ghost use Rattle.proved_clients.specs.Histories.{StandsInHistory};
ghost use Rattle.comp_trace.specs.AllMutators.{AreAll};
ghost use Rattle.comp_trace.specs.TraceLines.{IsParsedFor};

use comp_mutator::{Builder, Finished, Mutator, Space};
use comp_trace::{Trace, replay};
use std::alloc::Global;
use std::sync::ledger::Ledger as Named;

/// A mutator reads a data word, all mutators replay a trace, and the heap is finished. If all three succeed, that read
/// stands in the one history.
pub fn read_replay_and_finish<L: Named, B: Builder>(
    alloc: Global,
    space: Space<L, B>,
    mut mutators: Vec<Mutator<L>>,
    k: usize,
    object: u64,
    field: u16,
    trace: &Trace,
) -> Option<(u64, Finished)>
    requires all { AreAll space mutators.items }
    requires whole { (setup_of space).mutators ≡ L.parts }
    requires inside { k < length mutators.items }
    requires parsed { IsParsedFor (setup_of space) trace.now }
    ensures { IfSome result (λ done. StandsInHistory (setup_of space) done.1 Data object field done.0) }
{
    let Ok(word) = space.try_read_data(alloc, &mut mutators[k], object, field) else {
        return None;
    };
    let Ok(_) = replay(alloc, trace, &space, &mut mutators) else {
        return None;
    };
    match space.finish(alloc, mutators) {
        Ok(finished) => Some((word, finished)),
        Err(_) => None,
    }
}
