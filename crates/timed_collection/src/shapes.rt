//! Heaps of which nearly all is reached: trees, graphs, tables, arrays and lists. Each has the root's object at index
//! 0.
use crate::asked::{Asked, Shape};
use crate::heaps::{Heap, drawn_below, put};
use heap_layout::{FROM_SPACE, Header};
use std::alloc::{AllocError, Global};

// How many references an array has, where there are many arrays.
const SLOTS: u32 = 500;

// Where the objects of a heap lie: some arrays of references, and behind them the objects.
#[derive(Clone, Copy)]
struct Plan {
    // The number of arrays, and of the references of each.
    arrays: u32,
    slots: u32,
    // The number of objects, and of the words of each.
    objects: u32,
    size: u32,
}

impl Plan {
    // The index of the first word of array `k`.
    fn array_at(self, k: u32) -> u64 {
        u64::from(k) * (u64::from(self.slots) + 1)
    }

    // The index of the first word of object `k`.
    fn object_at(self, k: u32) -> u64 {
        let before = u64::from(k) * u64::from(self.size);
        self.array_at(self.arrays).wrapping_add(before)
    }

    // The address of array `k`, or null if there is none.
    fn array(self, k: u32) -> u64 {
        if k < self.arrays {
            FROM_SPACE.wrapping_add(self.array_at(k))
        } else {
            0
        }
    }

    // The address of object `k`, or null if there is none.
    fn object(self, k: u32) -> u64 {
        if k < self.objects {
            FROM_SPACE.wrapping_add(self.object_at(k))
        } else {
            0
        }
    }
}

// How many objects there are, each with a reference that leads to it from an array, beside so many further words.
fn objects_beside(asked: Asked, further: u32) -> u32 {
    let words = asked.words.saturating_sub(further);
    let each = asked.object_words().saturating_add(1);
    words.checked_div(each).unwrap_or(0)
}

// Where the objects of a heap of this shape lie.
fn plan_of(asked: Asked, shape: Shape) -> Plan {
    let size = asked.object_words();
    let (arrays, slots, objects) = match shape {
        Shape::Chains | Shape::Array => {
            let objects = objects_beside(asked, 1);
            (1, objects, objects)
        }
        Shape::Arrays => {
            let each = size.saturating_add(1).saturating_mul(SLOTS);
            let arrays = asked.words.checked_div(each.saturating_add(1)).unwrap_or(0);
            (arrays, SLOTS, arrays.saturating_mul(SLOTS))
        }
        _ => (0, 0, asked.objects()),
    };
    Plan {
        arrays,
        slots,
        objects,
        size,
    }
}

// Writes the headers.
fn put_headers(words: &mut [u64], asked: Asked, plan: Plan) {
    if let Some(header) = Header::of_large_counts(plan.slots, 0, 0, 7) {
        for k in 0..plan.arrays {
            put(words, plan.array_at(k), header.word());
        }
    }
    let header = Header::new_mixed(asked.refs, 0, asked.data_words, 7).word();
    for k in 0..plan.objects {
        put(words, plan.object_at(k), header);
    }
}

// Has reference `r` of object `k` lead to object `target`.
fn link(words: &mut [u64], plan: Plan, k: u32, r: u16, target: u32) {
    let at = plan.object_at(k).wrapping_add(1 + u64::from(r));
    put(words, at, plan.object(target));
}

// Makes a binary tree of the objects: behind each lie those of its left subtree, and then those of its right one.
fn link_tree(alloc: Global, words: &mut [u64], plan: Plan) -> Result<(), AllocError> {
    let mut counts = vec![in alloc; 0u32; plan.objects as usize]?;
    if let Some(first) = counts.get_mut(0) {
        *first = plan.objects;
    }
    for k in 0..plan.objects {
        let all = counts.get(k as usize).copied().unwrap_or(0);
        let below = all.saturating_sub(1);
        let left = below - below / 2;
        let next = k.saturating_add(1);
        let sides = [(next, left), (next.saturating_add(left), below - left)];
        for r in 0..2u16 {
            let (target, count) = sides[r as usize];
            if count > 0 {
                link(words, plan, k, r, target);
                if let Some(place) = counts.get_mut(target as usize) {
                    *place = count;
                }
            }
        }
    }
    Ok(())
}

// Has each reference lead to any object.
fn link_graph(words: &mut [u64], asked: Asked, plan: Plan) {
    for k in 0..plan.objects {
        for r in 0..asked.refs {
            let target = drawn_below(u64::from(k) * 7 + u64::from(r), plan.objects);
            link(words, plan, k, r, target);
        }
    }
}

// Puts each object at the head of one of the chains that begin at the references of the array.
fn link_chains(words: &mut [u64], plan: Plan) {
    for k in 0..plan.objects {
        let slot = 1 + u64::from(drawn_below(u64::from(k), plan.slots));
        let next = words.get(slot as usize).copied().unwrap_or(0);
        put(words, plan.object_at(k).wrapping_add(1), next);
        put(words, slot, plan.object(k));
    }
}

// Has the references of an array lead to objects, as they lie, but the first two to the arrays below it in a binary
// tree, if there are any.
fn link_array(words: &mut [u64], plan: Plan, k: u32) {
    for s in 0..plan.slots {
        let below = plan.array(k.saturating_mul(2).saturating_add(s).saturating_add(1));
        let target = if s < 2 && below != 0 {
            below
        } else {
            plan.object(k.saturating_mul(plan.slots).saturating_add(s))
        };
        let at = plan.array_at(k).wrapping_add(1 + u64::from(s));
        put(words, at, target);
    }
}

// Has the first reference of each object lead to the next one.
fn link_list(words: &mut [u64], plan: Plan) {
    for k in 0..plan.objects {
        link(words, plan, k, 0, k.saturating_add(1));
    }
}

/// The heap of this shape.
pub fn made_of_all(alloc: Global, asked: Asked, shape: Shape) -> Result<Heap, AllocError> {
    let mut words = vec![in alloc; 0u64; asked.words as usize]?;
    let plan = plan_of(asked, shape);
    put_headers(&mut words, asked, plan);
    match shape {
        Shape::Tree => link_tree(alloc, &mut words, plan)?,
        Shape::Graph => link_graph(&mut words, asked, plan),
        Shape::Chains => link_chains(&mut words, plan),
        Shape::List => link_list(&mut words, plan),
        _ => {
            for k in 0..plan.arrays {
                link_array(&mut words, plan, k);
            }
        }
    }
    Ok(Heap {
        words,
        root: FROM_SPACE,
    })
}
