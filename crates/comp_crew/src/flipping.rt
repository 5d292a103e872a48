ghost use Rattle.std.specs.Prelude.{◌≡◌, ◌↔◌, ◌^◌, ◌≤◌, map, vec_capacity, All, IfOk, IsErrOf};
ghost use Rattle.heap_layout.specs.Limits.{most_fresh_pages};
ghost use Rattle.page_cells.specs.CellViews.{setup_of, steps_of, AreNew};
ghost use Rattle.comp_access.specs.Hands.{pass_of, IsHandOf};
ghost use Rattle.comp_access.specs.declared.hand.Hand.{Hand as AHand};
ghost use Rattle.comp_crew.specs.Benches.{IsFlipped};
ghost use Rattle.comp_crew.specs.Members.{AreBadCounts};
ghost use Rattle.comp_crew.specs.declared.fault.CrewFault.TheVariants.{BadCounts};

use crate::bench::Bench;
use crate::crew::Crew;
use crate::fault::CrewFault;
use comp_access::Hand;
use heap_layout::{MAX_MUTATORS, OutOfMemory};
use page_cells::{Cells, Pass};
use page_plan::Plan;
use std::alloc::Global;
use std::sync::Arc;

// Makes a hand for each pass, in order, with room for no fewer than there are mutators.
fn new_hands(
    alloc: Global,
    cells: &Cells<Plan>,
    passes: Vec<Pass>,
    fresh: u32,
    mutators: u8,
) -> Result<Vec<Hand>, OutOfMemory>
    requires new { AreNew (steps_of cells.now) mutators passes.items }
    requires fresh { (fresh ≡ (setup_of cells.now).fresh) × (fresh ≤ 2 ^ 20) }
    requires mutators { (mutators ≡ (setup_of cells.now).mutators) × (1 ≤ mutators) × (mutators ≤ 64) }
    ensures passes { IfOk result (λ made. map pass_of made.items ≡ passes.items) }
    ensures of { IfOk result (λ made. All (λ (hand : AHand). IsHandOf cells.now hand) made.items) }
    ensures room { IfOk result (λ made. mutators ≤ vec_capacity made) }
{
    let mut made = Vec::with_capacity(alloc, passes.len())?;
    for pass in passes {
        made.push_reserved(Hand::new(alloc, cells, pass, fresh, mutators)?);
    }
    Ok(made)
}

// Flips a heap for these counts, which are good.
fn flip_good(
    alloc: Global,
    plan: Arc<Plan>,
    name: u64,
    n: u8,
    fresh_pages: u32,
) -> Result<Bench, OutOfMemory>
    requires some { 1 ≤ n }
    requires few { n ≤ 64 }
    requires fresh { fresh_pages ≤ most_fresh_pages plan.value.edition }
    ensures { IfOk result (IsFlipped plan.value name n fresh_pages) }
{
    let roots = plan.forward_roots(alloc)?;
    let kept = Arc::try_clone(&plan)?;
    let (cells, passes) = Cells::new(alloc, plan, fresh_pages, n)?;
    let crew = Crew {
        cells,
        plan: kept,
        roots,
        mutators: n,
        name,
    };
    let hands = new_hands(alloc, &crew.cells, passes, fresh_pages, n)?;
    match Arc::new(alloc, crew) {
        Ok(crew) => Ok(Bench { crew, hands }),
        Err(_) => Err(OutOfMemory),
    }
}

/// Flips a heap, and makes its crew of `n` mutators, which have done nothing, and `fresh_pages` fresh pages. From then
/// on all references and weak words lead into to-space, and the first touch of a page builds it. No page is built yet.
///
/// `n` must be 1 to 64, and `fresh_pages` at most as many as the edition of the heap allows; other counts are refused
/// first (`BadCounts`). The only other refusal is out of memory. The caller gives each crew a name of its own, by which
/// `meet` and `give` tell crews apart.
pub fn flip(
    alloc: Global,
    plan: Arc<Plan>,
    name: u64,
    n: u8,
    fresh_pages: u32,
) -> Result<Bench, CrewFault>
    ensures bad { IsErrOf result BadCounts ↔ AreBadCounts plan.value.edition n fresh_pages }
    ensures flipped { IfOk result (IsFlipped plan.value name n fresh_pages) }
{
    let most = plan.heap().edition().max_fresh_pages();
    if n < 1 || u32::from(n) > MAX_MUTATORS || fresh_pages > most {
        return Err(CrewFault::BadCounts);
    }
    match flip_good(alloc, plan, name, n, fresh_pages) {
        Ok(bench) => Ok(bench),
        Err(_) => Err(CrewFault::OutOfMemory),
    }
}
