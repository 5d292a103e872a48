//! Flipped heaps whose mutators replay.
ghost use Rattle.std.specs.Prelude.{◌≡◌, IfSome};
ghost use Rattle.comp_mutator.specs.Mutators.{setup_of};
ghost use Rattle.comp_trace.specs.AllMutators.{AreAll};
ghost use Rattle.comp_trace.specs.WrittenEntries.{DidNothingYet};

use comp_mutator::{Mutator, Space, flip};
use page_plan::Plan;
use std::alloc::Global;
use std::sync::Arc;
use std::sync::ledger::{Blank, Ledger as Named};

/// A flipped heap and its two mutators, or `None` if there is no memory for them.
pub fn flipped<L: Named>(
    alloc: Global,
    blank: Blank,
    plan: Arc<Plan>,
    fresh_pages: u32,
) -> Option<(Space<L, Plan>, Vec<Mutator<L>>)>
    requires name { blank.name ≡ L.name }
    requires parts { blank.parts ≡ L.parts }
    requires count { blank.parts ≡ 2 }
    ensures all { IfSome result (λ made. AreAll made.0 made.1.items) }
    ensures new { IfSome result (λ made. DidNothingYet made.1.items) }
    ensures whole { IfSome result (λ made. (setup_of made.0).mutators ≡ 2) }
    ensures fresh { IfSome result (λ made. (setup_of made.0).fresh ≡ fresh_pages) }
{
    match flip::<L, Plan>(alloc, blank, plan, 2, fresh_pages) {
        Ok(made) => Some(made),
        Err(_) => None,
    }
}
