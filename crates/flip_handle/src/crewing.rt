//! A crew by its handle: it is made by a flip, its mutators go out to threads, and come back.
ghost use Rattle.std.specs.Prelude.{◌≡◌, ◌↔◌, ◌≤◌, ◌⊎◌, None, Some, IfErr, IfOk, IsFalse, IsTrue, MatchResult};
ghost use Rattle.comp_crew.specs.Benches.{IsBench, IsTaken};
ghost use Rattle.comp_crew.specs.Members.{IsMember};
ghost use Rattle.handle_base.specs.Answers.{bare};
ghost use Rattle.flip_handle.specs.Crewing.{most_fresh, Flips, FlipsOf, IsCount, IsUnflipped, IsUnshared, IsUnsplit, IsUntaken, Splits, Takes};
ghost use Rattle.handle_base.specs.Keeping.{IsKept};
ghost use Rattle.handle_base.specs.HandleKinds.{plan_in};
ghost use Rattle.handle_base.specs.Statuses.{not_empty};

use comp_crew::{Bench, Member, flip};
use handle_base::{
    Answer, Handle, Kept, Opened, as_plan, close, into_crew, is_full, keep, open, status,
};
use heap_layout::MAX_MUTATORS;
use page_plan::Plan;
use std::alloc::Global;
use std::sync::Arc;

// Whether a crew may have so many mutators.
fn is_count(n: u32) -> bool
    ensures { IsTrue result ↔ IsCount n }
{
    n >= 1 && n <= MAX_MUTATORS
}

/// The most fresh pages of a flip of the heap of this plan.
#[tactic(auto, using(heap_layout::proofs::Bounds::pages_most))]
pub(crate) fn most_fresh(plan: &Plan) -> u64
    ensures { result ≡ most_fresh plan.now }
{
    let edition = plan.heap().edition();
    let most = edition.max_fresh_pages();
    let rest = u64::from(edition.max_pages() - most) - plan.pages();
    u64::from(most).min(rest)
}

// A share of a plan, for a crew of these counts.
fn share(plan: &Arc<Plan>, n: u32, fresh_pages: u32) -> Result<Arc<Plan>, Answer>
    ensures plan { IfOk result (λ own. own.value ≡ plan.now.value) }
    ensures good { IfOk result (λ _. IsCount n × (fresh_pages ≤ most_fresh plan.now.value)) }
    ensures none { IfErr result (IsUnflipped plan.now.value n fresh_pages) }
{
    if !is_count(n) {
        return Err(Answer::bare(status::BAD_MUTATORS, u64::from(n)));
    }
    let most = most_fresh(&**plan);
    if u64::from(fresh_pages) > most {
        return Err(Answer::bare(status::TOO_MANY_PAGES, most));
    }
    match Arc::try_clone(plan) {
        Ok(plan) => Ok(plan),
        Err(_) => Err(Answer::bare(status::OUT_OF_MEMORY, 0)),
    }
}

// The same for a plan that is kept, given whether the handle of the crew is full.
fn share_for(plan: &Arc<Plan>, full: bool, n: u32, fresh_pages: u32) -> Result<Arc<Plan>, Answer>
    ensures plan { IfOk result (λ own. own.value ≡ plan.now.value) }
    ensures good { IfOk result (λ _. IsCount n × (fresh_pages ≤ most_fresh plan.now.value)) }
    ensures free { IfOk result (λ _. IsFalse full) }
    ensures none { IfErr result (λ a. (IsTrue full × (a ≡ bare not_empty 1)) ⊎ (IsFalse full × IsUnflipped plan.now.value n fresh_pages a)) }
{
    if full {
        Err(Answer::bare(status::NOT_EMPTY, 1))
    } else {
        share(plan, n, fresh_pages)
    }
}

// A share of the plan that the handle keeps, for a crew of these counts. The handle stays as it is.
fn plan_of(
    alloc: Global,
    h: &mut Handle,
    full: bool,
    n: u32,
    fresh_pages: u32,
) -> Result<Arc<Plan>, Answer>
    ensures same { h.new.kept ≡ h.old.kept }
    ensures plan { IfOk result (λ plan. plan_in h.old.kept ≡ Some plan.value) }
    ensures good { IfOk result (λ plan. IsCount n × (fresh_pages ≤ most_fresh plan.value)) }
    ensures free { IfOk result (λ _. IsFalse full) }
    ensures none { IfErr result (IsUnshared full n fresh_pages h.old.kept) }
{
    let Some(kept) = h.take(alloc) else {
        return Err(Answer::bare(status::EMPTY_HANDLE, 0));
    };
    let plan = match as_plan(kept.as_ref()) {
        Some(plan) => share_for(plan, full, n, fresh_pages),
        None => Err(Answer::bare(status::WRONG_HANDLE, 0)),
    };
    h.put_back(kept);
    plan
}

// Flips the heap of a plan for a crew of good counts, whose handle is empty.
fn flip_plan(
    alloc: Global,
    plan: Arc<Plan>,
    name: u64,
    n: u32,
    fresh_pages: u32,
    crew: &mut Handle,
) -> Answer
    requires count { IsCount n }
    requires few { fresh_pages ≤ most_fresh plan.value }
    requires empty { crew.old.kept ≡ None }
    ensures { FlipsOf plan.value name n fresh_pages crew.new.kept result }
{
    match flip(alloc, plan, name, n as u8, fresh_pages) {
        Ok(bench) => {
            if keep(alloc, crew, Kept::Crew(bench)) {
                Answer::done(u64::from(n))
            } else {
                Answer::bare(status::OUT_OF_MEMORY, 0)
            }
        }
        Err(_) => Answer::bare(status::OUT_OF_MEMORY, 0),
    }
}

/// Flips the heap of the plan that a handle keeps, for a new crew of this name, of `n` mutators, with `fresh_pages`
/// fresh pages, which goes into an empty handle, with all its mutators. The handle of the plan stays as it is. Bad
/// numbers of mutators are refused first, then more fresh pages than a next heap has room for, whatever memory there
/// is.
pub fn flip_crew(
    alloc: Global,
    plan: &mut Handle,
    name: u64,
    n: u32,
    fresh_pages: u32,
    crew: &mut Handle,
) -> Answer
    ensures same { plan.new.kept ≡ plan.old.kept }
    ensures flips { Flips name n fresh_pages plan.old.kept crew.old.kept crew.new.kept result }
{
    let full = is_full(alloc, crew);
    match plan_of(alloc, plan, full, n, fresh_pages) {
        Ok(plan) => flip_plan(alloc, plan, name, n, fresh_pages, crew),
        Err(answer) => answer,
    }
}

// A mutator that was taken, and the box for it.
#[derive(Drop)]
struct Seated {
    seat: Box<Kept>,
    member: Member,
}

// What a handle keeps after a mutator was taken, and the mutator, or why there is none.
#[derive(Drop)]
struct Split {
    kept: Kept,
    taken: Result<Seated, Answer>,
}

// Takes the mutator that came last out of a crew, with a box for it.
fn seat_one(alloc: Global, bench: &mut Bench) -> Result<Seated, Answer>
    requires { IsBench bench.old }
    ensures bench { IsBench bench.new }
    ensures taken { IfOk result (λ seated. IsTaken bench.old bench.new (Some seated.member)) }
    ensures untaken { IfErr result (λ a. (bench.new ≡ bench.old) × IsUntaken bench.old a) }
{
    if bench.is_empty() {
        return Err(Answer::bare(status::NO_MUTATOR_LEFT, 0));
    }
    let Ok(seat) = Box::new(alloc, Kept::Nothing) else {
        return Err(Answer::bare(status::OUT_OF_MEMORY, 0));
    };
    match bench.take() {
        Ok(Some(member)) => Ok(Seated { seat, member }),
        Ok(None) => Err(Answer::bare(status::NO_MUTATOR_LEFT, 0)),
        Err(_) => Err(Answer::bare(status::OUT_OF_MEMORY, 0)),
    }
}

fn split_off(alloc: Global, kept: Kept, full: bool) -> Split
    requires { IsKept kept }
    ensures kept { IsKept result.kept }
    ensures member { IfOk result.taken (λ seated. IsMember seated.member) }
    ensures free { IfOk result.taken (λ _. IsFalse full) }
    ensures splits { MatchResult result.taken (λ seated. Splits kept result.kept seated.member) (λ a. (result.kept ≡ kept) × IsUnsplit full kept a) }
{
    let mut bench = match into_crew(kept) {
        Ok(bench) => bench,
        Err(kept) => {
            return Split {
                kept,
                taken: Err(Answer::bare(status::WRONG_HANDLE, 0)),
            };
        }
    };
    let taken = if full {
        Err(Answer::bare(status::NOT_EMPTY, 1))
    } else {
        seat_one(alloc, &mut bench)
    };
    Split {
        kept: Kept::Crew(bench),
        taken,
    }
}

/// Takes the mutator that was handed back last out of the crew that a handle keeps; another handle, which was empty,
/// keeps that mutator then. The answer has the mutator's number. If it is refused, neither handle has changed. That
/// there is no mutator is answered whatever memory there is.
pub fn take_member(alloc: Global, crew: &mut Handle, out: &mut Handle) -> Answer
    ensures { Takes crew.old.kept crew.new.kept out.old.kept out.new.kept result }
{
    let full = is_full(alloc, out);
    let Some(Opened { room, kept }) = open(alloc, crew) else {
        return Answer::bare(status::EMPTY_HANDLE, 0);
    };
    let Split { kept, taken } = split_off(alloc, kept, full);
    close(crew, room, kept);
    match taken {
        Ok(Seated { seat, member }) => {
            let number = member.number();
            close(out, seat, Kept::Mutator(member));
            Answer::done(u64::from(number))
        }
        Err(answer) => answer,
    }
}
