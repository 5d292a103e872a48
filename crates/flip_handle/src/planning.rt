//! A plan by its handle: another share of it, what a page slides to, and where addresses lead.
ghost use Rattle.std.specs.Prelude.{◌≡◌, ◌⊎◌, None, Some, IfErr, IfOk, IsFalse, IsTrue};
ghost use Rattle.handle_base.specs.Answers.{bare};
ghost use Rattle.handle_base.specs.HandleKinds.{plan_in, Asks};
ghost use Rattle.flip_handle.specs.Planning.{led_by_plan, CopiesPlanned, ForwardsBy};
ghost use Rattle.handle_base.specs.Sharing.{IsUnsharedIn, Shares};
ghost use Rattle.handle_base.specs.Statuses.{not_empty, out_of_memory};

use handle_base::{Answer, Handle, Kept, as_plan, is_full, keep, status};
use page_plan::Plan;
use std::alloc::Global;
use std::sync::Arc;

// A share of a plan, for a handle that is full or not.
fn share(plan: &Arc<Plan>, full: bool) -> Result<Arc<Plan>, Answer>
    ensures same { IfOk result (λ own. own.value ≡ plan.now.value) }
    ensures free { IfOk result (λ _. IsFalse full) }
    ensures none { IfErr result (λ a. (IsTrue full × (a ≡ bare not_empty 1)) ⊎ (IsFalse full × (a ≡ bare out_of_memory 0))) }
{
    if full {
        return Err(Answer::bare(status::NOT_EMPTY, 1));
    }
    match Arc::try_clone(plan) {
        Ok(own) => Ok(own),
        Err(_) => Err(Answer::bare(status::OUT_OF_MEMORY, 0)),
    }
}

// The same of the plan that the handle keeps, which stays as it is.
fn share_of(alloc: Global, h: &mut Handle, full: bool) -> Result<Arc<Plan>, Answer>
    ensures same { h.new.kept ≡ h.old.kept }
    ensures own { IfOk result (λ own. plan_in h.old.kept ≡ Some own.value) }
    ensures free { IfOk result (λ _. IsFalse full) }
    ensures none { IfErr result (IsUnsharedIn plan_in full h.old.kept) }
{
    let Some(kept) = h.take(alloc) else {
        return Err(Answer::bare(status::EMPTY_HANDLE, 0));
    };
    let own = match as_plan(kept.as_ref()) {
        Some(plan) => share(plan, full),
        None => Err(Answer::bare(status::WRONG_HANDLE, 0)),
    };
    h.put_back(kept);
    own
}

/// Puts another share of the plan that a handle keeps into an empty handle, for another thread. If memory runs out, it
/// stays empty.
pub fn share_plan(alloc: Global, h: &mut Handle, other: &mut Handle) -> Answer
    ensures same { h.new.kept ≡ h.old.kept }
    ensures shares { Shares plan_in h.old.kept other.old.kept other.new.kept result }
{
    let full = is_full(alloc, other);
    match share_of(alloc, h, full) {
        Ok(own) => {
            if keep(alloc, other, Kept::Plan(own)) {
                Answer::done(0)
            } else {
                Answer::bare(status::OUT_OF_MEMORY, 0)
            }
        }
        Err(answer) => answer,
    }
}

// Copies the words of a compacted page.
fn copy_planned(alloc: Global, plan: &Plan, p: u64, out: &mut [u64; 64]) -> Answer
    ensures { CopiesPlanned p out.old out.new plan.now result }
{
    if p >= plan.pages() {
        return Answer::bare(status::NO_SUCH_PAGE, p);
    }
    match plan.build_page(alloc, p) {
        Ok(words) => {
            *out = *words.as_array();
            Answer::done(0)
        }
        Err(_) => Answer::bare(status::OUT_OF_MEMORY, 0),
    }
}

// The same by a share of a plan.
fn copy_shared(alloc: Global, plan: &Arc<Plan>, p: u64, out: &mut [u64; 64]) -> Answer
    ensures { CopiesPlanned p out.old out.new plan.now.value result }
{
    copy_planned(alloc, &**plan, p, out)
}

/// Copies the words of a compacted page by the plan that a handle keeps: as it is before anybody writes to it, with
/// zeros behind the last slid word. If there is no such page, or no memory, the buffer is as it was.
pub fn plan_page(alloc: Global, h: &mut Handle, p: u64, out: &mut [u64; 64]) -> Answer
    ensures same { h.new.kept ≡ h.old.kept }
    ensures copies { Asks 0 plan_in (CopiesPlanned p out.old out.new) (out.new ≡ out.old) h.old.kept result }
{
    let Some(kept) = h.take(alloc) else {
        return Answer::bare(status::EMPTY_HANDLE, 0);
    };
    let answer = match as_plan(kept.as_ref()) {
        Some(plan) => copy_shared(alloc, plan, p, out),
        None => Answer::bare(status::WRONG_HANDLE, 0),
    };
    h.put_back(kept);
    answer
}

// Where an address leads by a plan; null if its object does not slide.
fn led(plan: &Plan, address: u64) -> u64
    ensures { result ≡ led_by_plan plan.now address }
{
    plan.forward_value(address).unwrap_or(0)
}

// Forwards addresses by a plan.
fn forward_all(plan: &Plan, addresses: &mut [u64]) -> Answer
    ensures { ForwardsBy addresses.old addresses.new plan.now result }
{
    for k in 0..addresses.len() {
        addresses[k] = led(plan, addresses[k]);
    }
    Answer::done(0)
}

// The same by a share of a plan.
fn forward_shared(plan: &Arc<Plan>, addresses: &mut [u64]) -> Answer
    ensures { ForwardsBy addresses.old addresses.new plan.now.value result }
{
    forward_all(&**plan, addresses)
}

/// Makes these addresses of from-space, of tables of the caller's own, lead to where their objects slide, by the plan
/// that a handle keeps: to-space addresses. Null and immediates stay; a word that leads to no marked object becomes
/// null. Takes no memory.
pub fn forward_plan(alloc: Global, h: &mut Handle, addresses: &mut [u64]) -> Answer
    ensures same { h.new.kept ≡ h.old.kept }
    ensures forwards { Asks 0 plan_in (ForwardsBy addresses.old addresses.new) (addresses.new ≡ addresses.old) h.old.kept result }
{
    let Some(kept) = h.take(alloc) else {
        return Answer::bare(status::EMPTY_HANDLE, 0);
    };
    let answer = match as_plan(kept.as_ref()) {
        Some(plan) => forward_shared(plan, addresses),
        None => Answer::bare(status::WRONG_HANDLE, 0),
    };
    h.put_back(kept);
    answer
}
