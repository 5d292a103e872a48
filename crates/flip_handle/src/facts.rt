//! Counts are copied into plain structs, which anybody may read.
ghost use Rattle.std.specs.Prelude.{◌≡◌, ◌*◌, length};
ghost use Rattle.heap_layout.specs.Versions.{version_of};
ghost use Rattle.comp_crew.specs.Finishes.{pages_of};
ghost use Rattle.comp_crew.specs.Finishing.{finished_of, setup_at_end, IsEnded};
ghost use Rattle.comp_crew.specs.Members.{setup_of};
ghost use Rattle.flip_handle.specs.Facts.{facts_at_end, facts_of, heap_facts_of, plan_facts_of, Counts, CountsEnd, CountsHeap, CountsPlan};
ghost use Rattle.handle_base.specs.HandleKinds.{end_in, heap_in, mutator_in, plan_in, Asks};

use crate::crewing::most_fresh;
use comp_crew::{Ended, Member};
use handle_base::{Answer, Handle, as_end, as_heap, as_mutator, as_plan, status};
use heap_layout::{Edition, MarkedHeap};
use page_plan::Plan;
use std::alloc::Global;
use std::sync::Arc;

/// The counts of a marked heap, as C sees them.
#[repr(C)]
#[derive(Clone, Copy, Debug, PartialEq, Eq)]
pub struct HeapFacts {
    /// The words.
    pub words: u64,
    /// The marked objects.
    pub marked: u64,
    /// The roots.
    pub roots: u64,
    /// The edition, 1 to 4.
    pub edition: u32,
    /// 0.
    pub unused: u32,
}

/// The counts of a plan, as C sees them.
#[repr(C)]
#[derive(Clone, Copy, Debug, PartialEq, Eq)]
pub struct PlanFacts {
    /// The words of the marked objects.
    pub live_words: u64,
    /// The compacted pages, which these words fill.
    pub pages: u64,
    /// The most fresh pages of a flip.
    pub most_fresh_pages: u64,
    /// The roots of the heap.
    pub roots: u64,
    /// The edition of the heap, 1 to 4.
    pub edition: u32,
    /// 0.
    pub unused: u32,
}

/// The counts of a mutator, as C sees them.
#[repr(C)]
#[derive(Clone, Copy, Debug, PartialEq, Eq)]
pub struct MutatorFacts {
    /// All pages: the compacted ones, and the fresh ones behind them.
    pub pages: u64,
    /// The compacted pages.
    pub compacted_pages: u64,
    /// The pages that this mutator built.
    pub builds: u64,
    /// The writes and allocations of this mutator that were done.
    pub entries: u64,
    /// The words of all objects that it allocated.
    pub made_words: u64,
    /// The roots of the heap.
    pub roots: u64,
    /// The edition of the heap, 1 to 4.
    pub edition: u32,
    /// The mutators of the crew.
    pub mutators: u32,
    /// The number of this one.
    pub number: u32,
    /// 0.
    pub unused: u32,
}

/// The counts of a finished cycle, as C sees them.
#[repr(C)]
#[derive(Clone, Copy, Debug, PartialEq, Eq)]
pub struct EndFacts {
    /// The words of the objects that slid, and of the new ones.
    pub live_words: u64,
    /// All pages: the compacted ones, and the fresh ones behind them.
    pub pages: u64,
    /// The compacted pages.
    pub compacted_pages: u64,
    /// The words of all pages.
    pub rest_words: u64,
    /// The roots.
    pub roots: u64,
    /// The edition of the heap, 1 to 4.
    pub edition: u32,
    /// The mutators of the crew.
    pub mutators: u32,
}

// The number of an edition.
fn number_of(edition: Edition) -> u32
    ensures { result ≡ version_of edition }
{
    match edition {
        Edition::One => 1,
        Edition::Two => 2,
        Edition::Three => 3,
        Edition::Four => 4,
    }
}

// How many roots a mutator's heap has.
#[tactic(auto, using(crate::proofs::Counts::many))]
fn root_count(m: &Member) -> u64
    ensures { result ≡ length (setup_of m.now).heap.roots }
{
    m.roots().len() as u64
}

// The counts of a mutator.
fn facts_of(m: &Member) -> MutatorFacts
    ensures { result ≡ facts_of m.now }
{
    MutatorFacts {
        pages: m.pages(),
        compacted_pages: m.compacted_pages(),
        builds: m.builds().len() as u64,
        entries: m.entries(),
        made_words: m.made_words(),
        roots: root_count(m),
        edition: number_of(m.edition()),
        mutators: u32::from(m.mutators()),
        number: u32::from(m.number()),
        unused: 0,
    }
}

// Copies the counts of a mutator.
fn count(m: &Member, out: &mut MutatorFacts) -> Answer
    ensures { Counts out.new m.now result }
{
    *out = facts_of(m);
    Answer::done(0)
}

/// Copies the counts of the mutator that a handle keeps. Takes no memory.
pub fn mutator_facts(alloc: Global, h: &mut Handle, out: &mut MutatorFacts) -> Answer
    ensures same { h.new.kept ≡ h.old.kept }
    ensures counts { Asks 0 mutator_in (Counts out.new) (out.new ≡ out.old) h.old.kept result }
{
    let Some(kept) = h.take(alloc) else {
        return Answer::bare(status::EMPTY_HANDLE, 0);
    };
    let answer = match as_mutator(kept.as_ref()) {
        Some(m) => count(m, out),
        None => Answer::bare(status::WRONG_HANDLE, 0),
    };
    h.put_back(kept);
    answer
}

// How many pages of a finished heap are compacted ones.
#[tactic(auto, using(crate::proofs::Counts::fresh_within, crate::proofs::Counts::all_but_fresh))]
fn compacted_at_end(e: &Ended) -> u64
    requires { IsEnded e.now }
    ensures { result ≡ (setup_at_end e.now).compacted }
{
    e.finished().pages().len() as u64 - u64::from(e.fresh_pages())
}

// How many words all pages of a finished heap have.
fn words_at_end(e: &Ended) -> u64
    requires { IsEnded e.now }
    ensures { result ≡ 64 * length (pages_of (finished_of e.now)) }
{
    64 * e.finished().pages().len() as u64
}

// The counts of a finished cycle.
fn facts_at_end(e: &Ended) -> EndFacts
    requires { IsEnded e.now }
    ensures { result ≡ facts_at_end e.now }
{
    let finished = e.finished();
    EndFacts {
        live_words: finished.live_words(),
        pages: finished.pages().len() as u64,
        compacted_pages: compacted_at_end(e),
        rest_words: words_at_end(e),
        roots: finished.roots().len() as u64,
        edition: number_of(finished.edition()),
        mutators: u32::from(e.mutators()),
    }
}

// Copies the counts of a finished cycle.
fn count_end(e: &Ended, out: &mut EndFacts) -> Answer
    requires { IsEnded e.now }
    ensures { CountsEnd out.new e.now result }
{
    *out = facts_at_end(e);
    Answer::done(0)
}

/// Copies the counts of the finished cycle that a handle keeps. Takes no memory.
pub fn end_facts(alloc: Global, h: &mut Handle, out: &mut EndFacts) -> Answer
    ensures same { h.new.kept ≡ h.old.kept }
    ensures counts { Asks 0 end_in (CountsEnd out.new) (out.new ≡ out.old) h.old.kept result }
{
    let Some(kept) = h.take(alloc) else {
        return Answer::bare(status::EMPTY_HANDLE, 0);
    };
    let answer = match as_end(kept.as_ref()) {
        Some(e) => count_end(e, out),
        None => Answer::bare(status::WRONG_HANDLE, 0),
    };
    h.put_back(kept);
    answer
}

// The counts of a marked heap.
fn facts_in(heap: &MarkedHeap) -> HeapFacts
    ensures { result ≡ heap_facts_of heap.now }
{
    HeapFacts {
        words: heap.words().len() as u64,
        marked: heap.marks().len() as u64,
        roots: heap.roots().len() as u64,
        edition: number_of(heap.edition()),
        unused: 0,
    }
}

// Copies the counts of a marked heap.
fn count_heap(heap: &MarkedHeap, out: &mut HeapFacts) -> Answer
    ensures { CountsHeap out.new heap.now result }
{
    *out = facts_in(heap);
    Answer::done(0)
}

/// Copies the counts of the marked heap that a handle keeps. Takes no memory.
pub fn heap_facts(alloc: Global, h: &mut Handle, out: &mut HeapFacts) -> Answer
    ensures same { h.new.kept ≡ h.old.kept }
    ensures counts { Asks 0 heap_in (CountsHeap out.new) (out.new ≡ out.old) h.old.kept result }
{
    let Some(kept) = h.take(alloc) else {
        return Answer::bare(status::EMPTY_HANDLE, 0);
    };
    let answer = match as_heap(kept.as_ref()) {
        Some(heap) => count_heap(heap, out),
        None => Answer::bare(status::WRONG_HANDLE, 0),
    };
    h.put_back(kept);
    answer
}

// The counts of a plan.
fn facts_by(plan: &Plan) -> PlanFacts
    ensures { result ≡ plan_facts_of plan.now }
{
    PlanFacts {
        live_words: plan.live_words(),
        pages: plan.pages(),
        most_fresh_pages: most_fresh(plan),
        roots: plan.heap().roots().len() as u64,
        edition: number_of(plan.heap().edition()),
        unused: 0,
    }
}

// Copies the counts of a plan.
fn count_plan(plan: &Arc<Plan>, out: &mut PlanFacts) -> Answer
    ensures { CountsPlan out.new plan.now.value result }
{
    *out = facts_by(&**plan);
    Answer::done(0)
}

/// Copies the counts of the plan that a handle keeps. Takes no memory.
pub fn plan_facts(alloc: Global, h: &mut Handle, out: &mut PlanFacts) -> Answer
    ensures same { h.new.kept ≡ h.old.kept }
    ensures counts { Asks 0 plan_in (CountsPlan out.new) (out.new ≡ out.old) h.old.kept result }
{
    let Some(kept) = h.take(alloc) else {
        return Answer::bare(status::EMPTY_HANDLE, 0);
    };
    let answer = match as_plan(kept.as_ref()) {
        Some(plan) => count_plan(plan, out),
        None => Answer::bare(status::WRONG_HANDLE, 0),
    };
    h.put_back(kept);
    answer
}
