//! Lives of fifty cycles, in each edition. At the end of each cycle the roots are drawn anew, out of what registers and
//! roots lead to, and the next heap is marked by what they reach. The objects are those of the plain model; the words
//! of dropped objects are free again.
use crate::expected::expect_eq;
use crate::next_heaps::follow_from;
use crate::random_chains::{Chain, opening_heap};
use heap_layout::{Edition, MarkedHeap};
use std::alloc::{AllocError, Global};
use std::process::Abort;
use std::thread::Threads;
use test_support::{At, Random, T};

// The numbers of lives of each edition, and of cycles of a life.
const LIVES: u64 = 3;

const CYCLES: usize = 50;

// What the roots lead to from now on: each is null, as before, or what a register holds.
fn draw_roots(chain: &mut Chain, random: &mut Random) {
    for root in 0..chain.life.roots.len() {
        let number = match random.below(4) {
            0 => Some(0),
            1 => None,
            _ => Some(chain.drawn_register(random)),
        };
        if let (Some(number), Some(place)) = (number, chain.life.roots.get_mut(root)) {
            *place = number;
        }
    }
}

// The to-space addresses of the roots; immediates as they are.
fn addresses(chain: &Chain, alloc: Global) -> Result<Vec<u64>, AllocError> {
    let mut addresses = Vec::new(alloc);
    for number in &chain.life.roots {
        addresses.push(match chain.life.object(*number) {
            Some(object) => T.wrapping_add(object.at),
            None if chain.life.edition.is_immediate(*number) => *number,
            None => 0,
        })?;
    }
    Ok(addresses)
}

// The heap with which a cycle begins, and how many words of it are live.
#[derive(Drop)]
struct Begun {
    heap: MarkedHeap,
    live: u64,
}

// A cycle from here, and what the next one begins with.
fn live_on(
    rt: &(impl Abort + Threads + Sync),
    alloc: Global,
    chain: &mut Chain,
    random: &mut Random,
    begun: Begun,
    name: &str,
) -> Begun {
    let left = chain.run(rt, alloc, begun.heap, random, name);
    let found = left.plan.live_words();
    expect_eq(rt, At::new(name, 0), found, begun.live);
    draw_roots(chain, random);
    let roots = addresses(chain, alloc).expect(rt, "roots");
    let marks = chain.life.mark(alloc).expect(rt, "marks");
    let live = chain.life.kept_words();
    let heap = follow_from(rt, alloc, left, &roots);
    assert_eq!(rt; heap.marks(), marks.as_slice(), "{name}");
    chain.life.expect_heap(rt, &heap, name);
    chain.life.drop_others();
    Begun { heap, live }
}

// The life of this seed.
fn live(rt: &(impl Abort + Threads + Sync), alloc: Global, edition: Edition, seed: u64) {
    let mut random = Random { state: seed };
    let mut chain = Chain::new(alloc, edition).expect(rt, "two objects");
    let mut begun = Begun {
        heap: opening_heap(rt, alloc, edition),
        live: chain.life.kept_words(),
    };
    for cycle in 0..CYCLES {
        let name = format!(in alloc; "life {seed}, cycle {cycle}").expect(rt, "a name");
        begun = live_on(rt, alloc, &mut chain, &mut random, begun, &name);
    }
}

#[test]
fn long_lives_keep_what_changing_roots_reach(rt: HostRuntime) {
    for seed in 0..LIVES {
        live(&rt, rt.alloc(), Edition::One, seed);
        live(&rt, rt.alloc(), Edition::Two, seed);
        live(&rt, rt.alloc(), Edition::Three, seed);
        live(&rt, rt.alloc(), Edition::Four, seed);
    }
}
