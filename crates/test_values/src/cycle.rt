//! One cycle of a heap of edition four: the flip, a mutator that reads and writes immediates, and the next heap.
ghost use Rattle.std.specs.Prelude.{◌≡◌, ◌+◌, ◌≤◌, length};
ghost use Rattle.comp_mutator.specs.Ends.{IsEndOf};
ghost use Rattle.comp_mutator.specs.Mutators.{AreMutatorsOf, IsMutatorOf};

use crate::tests::{B, FIRST, J, MARKS, ROOTS, THIRD, WORDS, made};
use comp_mutator::{Finished, Mutator, Refusal, Space, flip};
use heap_layout::{
    Edition, FIRST_IMMEDIATE as I, FROM_SPACE as F, LayoutFault, MarkedHeap, TO_SPACE as T,
};
use page_plan::Plan;
use reachable_cycles::{next_reachable, next_reachable_with};
use std::alloc::Global;
use std::marker::Brand;
use std::process::Abort;
use std::sync::Arc;
use std::sync::ledger::{Blank, Ledger};
use std::thread::Threads;

// The third object of the heap, in to-space, and the first new object.
const O: u64 = T + 5;

const N: u64 = T + 64;

// The header word of a new object with two references, a weak word, a data word and tag 4: 2 + 2^16 + 2^32 + 4 * 2^48.
const NEW: u64 = 1_125_904_201_875_458;

// Immediates are read as they are.
fn read<L: Ledger + Send + Sync>(
    rt: &impl Abort,
    alloc: Global,
    space: &Space<L, Plan>,
    m: &mut Mutator<L>,
)
    requires { IsMutatorOf space.now m.old }
    ensures { IsMutatorOf space.now m.new }
{
    assert_eq!(rt; space.roots(), [O, I, B, 0, J, T].as_slice());
    assert_eq!(rt; space.try_read_ref(alloc, m, T, 0), Ok(I));
    assert_eq!(rt; space.try_read_ref(alloc, m, T, 1), Ok(T));
    assert_eq!(rt; space.try_read_weak(alloc, m, T, 0), Ok(J));
    assert_eq!(rt; space.try_read_ref(alloc, m, O, 1), Ok(B));
    assert_eq!(rt; space.try_read_weak(alloc, m, O, 0), Ok(0));
}

// A word that is no object and no immediate is refused as the value of a reference and of a weak word.
fn refuse_value<L: Ledger + Send + Sync>(
    rt: &impl Abort,
    alloc: Global,
    space: &Space<L, Plan>,
    m: &mut Mutator<L>,
    word: u64,
)
    requires { IsMutatorOf space.now m.old }
    ensures { IsMutatorOf space.now m.new }
{
    let refused = Err(Refusal::NotAStart(word));
    assert_eq!(rt; space.try_write_ref(alloc, m, O, 0, word), refused);
    assert_eq!(rt; space.try_write_weak(alloc, m, O, 0, word), refused);
}

// Immediates are written as null is: any of them, and nothing below 2^63 that is no object.
fn write<L: Ledger + Send + Sync>(
    rt: &impl Abort,
    alloc: Global,
    space: &Space<L, Plan>,
    m: &mut Mutator<L>,
)
    requires { IsMutatorOf space.now m.old }
    ensures { IsMutatorOf space.now m.new }
{
    assert_eq!(rt; space.try_write_ref(alloc, m, O, 0, I + 7), Ok(0));
    assert_eq!(rt; space.try_write_weak(alloc, m, O, 0, I + T), Ok(1));
    refuse_value(rt, alloc, space, m, I - 1);
    refuse_value(rt, alloc, space, m, T + 1);
    refuse_value(rt, alloc, space, m, F);
    refuse_value(rt, alloc, space, m, 1);
    assert_eq!(rt; space.try_read_ref(alloc, m, O, 0), Ok(I + 7));
    assert_eq!(rt; space.try_read_weak(alloc, m, O, 0), Ok(I + T));
}

// A word is refused as the object of a call.
fn refuse_object<L: Ledger + Send + Sync>(
    rt: &impl Abort,
    alloc: Global,
    space: &Space<L, Plan>,
    m: &mut Mutator<L>,
    word: u64,
)
    requires { IsMutatorOf space.now m.old }
    ensures { IsMutatorOf space.now m.new }
{
    let refused = Err(Refusal::NotAStart(word));
    assert_eq!(rt; space.try_read_ref(alloc, m, word, 0), refused);
    assert_eq!(rt; space.try_read_weak(alloc, m, word, 0), refused);
    assert_eq!(rt; space.try_write_ref(alloc, m, word, 0, 0), refused);
    assert_eq!(rt; space.try_write_data(alloc, m, word, 0, 0), refused);
}

// No object is at an immediate, also where its low bits are an object's address.
fn name<L: Ledger + Send + Sync>(
    rt: &impl Abort,
    alloc: Global,
    space: &Space<L, Plan>,
    m: &mut Mutator<L>,
)
    requires { IsMutatorOf space.now m.old }
    ensures { IsMutatorOf space.now m.new }
{
    refuse_object(rt, alloc, space, m, I);
    refuse_object(rt, alloc, space, m, I + T);
    refuse_object(rt, alloc, space, m, I + O);
    refuse_object(rt, alloc, space, m, J);
}

// A new object, with an immediate as a reference, and as a data word.
fn make<L: Ledger + Send + Sync>(
    rt: &impl Abort,
    alloc: Global,
    space: &Space<L, Plan>,
    m: &mut Mutator<L>,
)
    requires { IsMutatorOf space.now m.old }
    ensures { IsMutatorOf space.now m.new }
{
    assert_eq!(rt; space.try_alloc_weak(alloc, m, 2, 1, 1, 4), Ok(N));
    assert_eq!(rt; space.try_write_ref(alloc, m, N, 0, J), Ok(3));
    assert_eq!(rt; space.try_write_weak(alloc, m, N, 0, O), Ok(4));
    assert_eq!(rt; space.try_write_data(alloc, m, N, 0, J), Ok(5));
    assert_eq!(rt; space.try_write_ref(alloc, m, T, 1, N), Ok(6));
}

// The work of the only mutator.
fn work<L: Ledger + Send + Sync>(
    rt: &impl Abort,
    alloc: Global,
    space: &Space<L, Plan>,
    m: &mut Mutator<L>,
)
    requires { IsMutatorOf space.now m.old }
    ensures { IsMutatorOf space.now m.new }
{
    read(rt, alloc, space, m);
    write(rt, alloc, space, m);
    name(rt, alloc, space, m);
    make(rt, alloc, space, m);
}

// The same, of the first of the mutators.
fn work_first<L: Ledger + Send + Sync>(
    rt: &impl Abort,
    alloc: Global,
    space: &Space<L, Plan>,
    mutators: &mut Vec<Mutator<L>>,
)
    requires of { AreMutatorsOf space.now mutators.old.items }
    ensures of { AreMutatorsOf space.now mutators.new.items }
{
    assert!(rt; mutators.len() > 0);
    work(rt, alloc, space, &mut mutators[0]);
}

fn cycle<L: Ledger + Send + Sync>(
    rt: &(impl Abort + Threads + Sync),
    alloc: Global,
    blank: Blank,
    plan: &Arc<Plan>,
) -> Finished
    requires name { blank.name ≡ L.name }
    requires parts { blank.parts ≡ L.parts }
    requires count { blank.parts ≡ 1 }
    ensures end { IsEndOf plan.now.value result }
{
    let builder = plan.clone().expect(rt, "a builder");
    let Ok((space, mut mutators)) = flip::<L, Plan>(alloc, blank, builder, 1, 1) else {
        panic!(rt; "a flip");
    };
    work_first(rt, alloc, &space, &mut mutators);
    match space.finish(alloc, mutators) {
        Ok(finished) => finished,
        Err(_left) => rt.panic("a finish"),
    }
}

// The end of that cycle.
fn ended(rt: &(impl Abort + Threads + Sync), alloc: Global, plan: &Arc<Plan>) -> Finished
    ensures end { IsEndOf plan.now.value result }
{
    cycle::<Brand>(rt, alloc, Blank::new(1), plan)
}

fn planned(rt: &(impl Abort + AllocGlobal + Threads + Sync), alloc: Global) -> Arc<Plan> {
    let heap = made(rt, Edition::Four, &WORDS, &MARKS, &ROOTS).expect(rt, "a heap");
    let plan = Plan::new(alloc, rt, heap).expect(rt, "a plan");
    Arc::new(alloc, plan).expect(rt, "a shared plan")
}

// The words of a heap from this one on.
fn expect_words(rt: &impl Abort, heap: &MarkedHeap, start: usize, words: &[u64])
    requires { start + length words.now ≤ length heap.now.words }
{
    assert_eq!(rt; &heap.words()[start..start + words.len()], words);
}

// The roots stay, so all three objects are kept. The first is at F, the third at F + 5, the new one at F + 64.
#[test]
fn immediates_live_through_a_cycle(rt: HostRuntime) {
    let alloc = rt.alloc();
    let plan = planned(&rt, alloc);
    let finished = ended(&rt, alloc, &plan);
    let next = next_reachable(finished, alloc, &*plan)
        .ok()
        .expect(&rt, "a heap");
    assert_eq!(&rt; next.edition(), Edition::Four);
    assert_eq!(&rt; next.roots(), [F + 5, I, B, 0, J, F].as_slice());
    assert_eq!(&rt; next.marks(), [0, 5, 64].as_slice());
    assert_eq!(&rt; next.words().len(), 128);
    expect_words(&rt, &next, 0, &[FIRST, I, F + 64, J, F]);
    expect_words(&rt, &next, 5, &[THIRD, I + 7, B, F, I + T, 0]);
    expect_words(&rt, &next, 64, &[NEW, J, 0, F + 5, J, 0]);
}

// Other roots, immediates among them: the third object is dropped, so a weak word that leads to it is no longer live.
#[test]
fn immediates_are_roots_of_the_next_heap(rt: HostRuntime) {
    let alloc = rt.alloc();
    let plan = planned(&rt, alloc);
    let finished = ended(&rt, alloc, &plan);
    let roots = [I + O, T, J, 0, I];
    let next = next_reachable_with(finished, alloc, &*plan, &roots)
        .ok()
        .expect(&rt, "a heap");
    assert_eq!(&rt; next.roots(), [I + O, F, J, 0, I].as_slice());
    assert_eq!(&rt; next.marks(), [0, 64].as_slice());
}

// A word below 2^63 that is no object's address is refused as before.
#[test]
fn next_heap_refuses_a_root_below_the_immediates(rt: HostRuntime) {
    let alloc = rt.alloc();
    let plan = planned(&rt, alloc);
    let finished = ended(&rt, alloc, &plan);
    match next_reachable_with(finished, alloc, &*plan, &[I, I - 1]) {
        Ok(_) => assert_eq!(&rt; true, false),
        Err(left) => assert_eq!(&rt; left.fault, LayoutFault::BadRoot(1)),
    }
}
