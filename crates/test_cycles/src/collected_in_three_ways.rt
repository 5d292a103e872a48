//! One heap, worked by hand, collected in three ways: at rest, around a pin, and by a cycle whose one mutator does
//! nothing.
ghost use Rattle.std.specs.Prelude.{◌≡◌};
ghost use Rattle.comp_cycles.specs.Ends.{IsEndOf};

use crate::expected::expect_eq;
use comp_mutator::{Finished, flip};
use heap_layout::{Edition, FIRST_IMMEDIATE as I, FROM_SPACE as F, Header, MarkedHeap};
use page_plan::Plan;
use pinned_heap::collect_pinned;
use reachable_cycles::next_reachable;
use std::alloc::Global;
use std::marker::Brand;
use std::process::Abort;
use std::sync::Arc;
use std::sync::ledger::{Blank, Ledger};
use std::thread::Threads;
use stopped_heap::{Survey, collect};
use test_support::At;

// Six objects, side by side, of edition four. The roots reach those at 2, 9 and 13. Of the two weak words of the
// object at 2 the first leads to the object at 0, which dies, and so does that of the object at 9, which leads to the
// object at 8. The last word of the object at 2 looks like its own address, and is data.
fn six() -> [u64; 16] {
    [
        Header::new_weak(1, 0, 0, 1).word(),
        F + 9,
        Header::new_weak(2, 2, 1, 2).word(),
        F + 2,
        F + 9,
        F,
        F + 9,
        F + 2,
        Header::new_weak(0, 0, 0, 3).word(),
        Header::new_weak(2, 1, 0, 4).word(),
        F + 2,
        I + F,
        F + 8,
        Header::new_weak(0, 0, 0, 5).word(),
        Header::new_weak(0, 1, 0, 6).word(),
        F + 2,
    ]
}

const MARKS: [u32; 3] = [2, 9, 13];

const ROOTS: [u64; 5] = [0, F + 13, F + 2, I, F + 13];

// What is left of them.
fn three() -> [u64; 11] {
    [
        Header::new_weak(2, 2, 1, 2).word(),
        F,
        F + 6,
        0,
        F + 6,
        F + 2,
        Header::new_weak(2, 1, 0, 4).word(),
        F,
        I + F,
        0,
        Header::new_weak(0, 0, 0, 5).word(),
    ]
}

const MARKS_LEFT: [u32; 3] = [0, 6, 10];

const ROOTS_LEFT: [u64; 5] = [0, F + 10, F, I, F + 10];

fn planned(rt: &(impl Abort + AllocGlobal + Threads + Sync), alloc: Global) -> Arc<Plan> {
    let words = Vec::from_slice(alloc, &six()).expect(rt, "words");
    let marks = Vec::from_slice(alloc, &MARKS).expect(rt, "marks");
    let roots = Vec::from_slice(alloc, &ROOTS).expect(rt, "roots");
    let heap = MarkedHeap::from_parts_of(Edition::Four, words, marks, roots).expect(rt, "a heap");
    let plan = Plan::new(alloc, rt, heap).expect(rt, "a plan");
    Arc::new(alloc, plan).expect(rt, "a shared plan")
}

fn cycle<L: Ledger + Send + Sync>(
    rt: &(impl Abort + Threads + Sync),
    alloc: Global,
    blank: Blank,
    plan: &Arc<Plan>,
) -> Finished
    requires name { blank.name ≡ L.name }
    requires parts { blank.parts ≡ L.parts }
    requires count { blank.parts ≡ 1 }
    ensures end { IsEndOf plan.now.value result }
{
    let builder = plan.clone().expect(rt, "a builder");
    let Ok((space, mutators)) = flip::<L, Plan>(alloc, blank, builder, 1, 0) else {
        panic!(rt; "a flip");
    };
    match space.finish(alloc, mutators) {
        Ok(finished) => finished,
        Err(_left) => rt.panic("a finish"),
    }
}

// The end of that cycle.
fn ended(rt: &(impl Abort + Threads + Sync), alloc: Global, plan: &Arc<Plan>) -> Finished
    ensures end { IsEndOf plan.now.value result }
{
    cycle::<Brand>(rt, alloc, Blank::new(1), plan)
}

#[test]
fn a_cycle_leaves_what_is_reached(rt: HostRuntime) {
    let alloc = rt.alloc();
    let plan = planned(&rt, alloc);
    let finished = ended(&rt, alloc, &plan);
    let next = next_reachable(finished, alloc, &*plan)
        .ok()
        .expect(&rt, "a heap");
    let mut words = [0; 64];
    words[..11].copy_from_slice(&three());
    expect_eq(&rt, At::new("words", 0), next.words(), words.as_slice());
    expect_eq(
        &rt,
        At::new("marks", 0),
        next.marks(),
        MARKS_LEFT.as_slice(),
    );
    expect_eq(
        &rt,
        At::new("roots", 0),
        next.roots(),
        ROOTS_LEFT.as_slice(),
    );
}

#[test]
fn a_collection_at_rest_leaves_the_same(rt: HostRuntime) {
    let mut roots = ROOTS;
    let mut to = [7; 16];
    let live = collect(rt.alloc(), Edition::Four, &six(), &mut roots, &mut to).expect(
        &rt, "memory",
    );
    expect_eq(&rt, At::new("live", 0), live, 11);
    // The words behind the live ones stay as they were.
    let mut left = [7; 16];
    left[..11].copy_from_slice(&three());
    expect_eq(&rt, At::new("words", 0), to, left);
    expect_eq(&rt, At::new("roots", 0), roots, ROOTS_LEFT);
}

// What is left of them around the object at 2, which stays. The others slide to 8 and 12, and the two words before it
// are one object of two words. The weak word that was the address of the dead object at 8 is null, though an object
// stands there now.
fn around() -> [u64; 16] {
    [
        (1 << 63) + 1,
        F + 9,
        Header::new_weak(2, 2, 1, 2).word(),
        F + 2,
        F + 8,
        0,
        F + 8,
        F + 2,
        Header::new_weak(2, 1, 0, 4).word(),
        F + 2,
        I + F,
        0,
        Header::new_weak(0, 0, 0, 5).word(),
        Header::new_weak(0, 0, 0, 5).word(),
        Header::new_weak(0, 1, 0, 6).word(),
        F + 2,
    ]
}

#[test]
fn a_collection_around_a_pin_leaves_the_same_objects(rt: HostRuntime) {
    let mut words = six();
    let mut roots = ROOTS;
    let left = collect_pinned(
        rt.alloc(),
        Edition::Four,
        &mut words,
        &mut roots,
        &[F + 2],
        1,
    );
    let Ok(left) = left else {
        panic!(&rt; "it was refused");
    };
    expect_eq(&rt, At::new("end", 0), left.end, 13);
    expect_eq(&rt, At::new("runs", 0), left.runs.len(), 1);
    let Some(run) = left.runs.first() else {
        panic!(&rt; "no run");
    };
    expect_eq(&rt, At::new("run", 0), run.start, 0);
    expect_eq(&rt, At::new("run", 1), run.end, 2);
    expect_eq(
        &rt,
        At::new("roots", 0),
        roots,
        [0, F + 12, F + 2, I, F + 12],
    );
    expect_eq(&rt, At::new("words", 0), words, around());
}

#[test]
fn a_survey_forwards_the_same_marks(rt: HostRuntime) {
    let words = six();
    let survey = Survey::of(rt.alloc(), Edition::Four, &words, &ROOTS).expect(&rt, "memory");
    for (mark, left) in MARKS.into_iter().zip(MARKS_LEFT) {
        let place = F + u64::from(left);
        let found = survey.forward(F + u64::from(mark));
        expect_eq(&rt, At::new("mark", mark as usize), found, Some(place));
    }
    for lost in [0_u32, 8, 14] {
        let found = survey.forward(F + u64::from(lost));
        expect_eq(&rt, At::new("lost", lost as usize), found, None);
    }
}
