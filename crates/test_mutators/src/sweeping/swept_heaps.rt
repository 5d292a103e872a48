//! Heaps that are swept, and the printed refusals.
use crate::sweeping::sweep_checks::expect;
use crate::sweeping::whole_sweeps::play_all;
use comp_sweep::SweepFault;

/// What happens beside the sweep of a case.
#[derive(Clone, Copy)]
pub enum Beside {
    /// Nothing.
    Nothing,
    /// The gate counts how often each region begins and ends.
    Counts,
    /// The gate lets each of the regions 0 and 1 begin only after the other one has begun.
    Holds,
    /// The gate lets region 0 begin only after the regions 1 and 2 have ended.
    Steals,
    /// The gate lets each region below this number begin only after all of these have begun.
    Together(u64),
    /// The gate lets each region below the first number begin only after so many other regions as the second have
    /// ended.
    Frees(u64, u64),
    /// The last mutator does not sweep. In a thread of its own it reads the last data word of the second object, which
    /// is this.
    Reader(u64),
    /// The last mutator does not sweep. At each of the gate's calls, it looks in a thread of its own at the pages of
    /// the region: before the region its first page is not built, after it all its pages are.
    Looks,
    /// An earlier sweep asks for more memory than there is for page 9.
    Refusal,
}

/// An object without references, with this many data words.
#[derive(Clone, Copy)]
pub enum Object {
    /// Its data words are 0.
    Zeros(u16),
    /// Its data words count from 1.
    Counting(u16),
    /// In place of equal objects, those of edition three with many fields.
    ManyFields,
}

/// A sweep of a heap of equal objects. Afterwards the heap is swept again without workers, and finished.
pub struct SweptHeap {
    /// The name that a failing test prints.
    pub name: &'static str,
    /// Each of the objects.
    pub object: Object,
    /// The starts of the objects. All are marked.
    pub marks: &'static [u32],
    pub mutators: u8,
    pub beside: Beside,
    /// The number of mutators that sweep.
    pub workers: usize,
    /// The number of regions. Any worker may sweep any of them.
    pub regions: u64,
    pub pages: u64,
    pub live_words: u64,
}

// Nothing happens beside the sweep.
static ALONE: [SweptHeap; 4] = [
    SweptHeap {
        name: "three regions, two workers",
        object: Object::Zeros(639),
        marks: &[0, 640],
        mutators: 2,
        beside: Beside::Nothing,
        workers: 2,
        regions: 3,
        pages: 20,
        live_words: 1_280,
    },
    SweptHeap {
        name: "three regions, four workers",
        object: Object::Zeros(639),
        marks: &[0, 640],
        mutators: 4,
        beside: Beside::Nothing,
        workers: 4,
        regions: 3,
        pages: 20,
        live_words: 1_280,
    },
    SweptHeap {
        name: "no object at all, two workers",
        object: Object::Zeros(0),
        marks: &[],
        mutators: 2,
        beside: Beside::Nothing,
        workers: 2,
        regions: 0,
        pages: 0,
        live_words: 0,
    },
    SweptHeap {
        name: "objects over a thousand pages each, two workers",
        object: Object::ManyFields,
        marks: &[],
        mutators: 2,
        beside: Beside::Nothing,
        workers: 2,
        regions: 411,
        pages: 3_282,
        live_words: 210_007,
    },
];

#[test]
fn workers_build_each_page_once(rt: HostRuntime) {
    play_all(&rt, rt.alloc(), &ALONE);
}

// The gate counts.
static COUNTED: [SweptHeap; 1] = [SweptHeap {
    name: "a gate that counts",
    object: Object::Zeros(639),
    marks: &[0, 640],
    mutators: 2,
    beside: Beside::Counts,
    workers: 2,
    regions: 3,
    pages: 20,
    live_words: 1_280,
}];

#[test]
fn the_gate_is_called_once_before_and_after_each_region(rt: HostRuntime) {
    play_all(&rt, rt.alloc(), &COUNTED);
}

// The gate holds a region until another one has begun.
static HELD: [SweptHeap; 1] = [SweptHeap {
    name: "two regions at once, one for each of two workers",
    object: Object::Zeros(1_023),
    marks: &[0],
    mutators: 2,
    beside: Beside::Holds,
    workers: 2,
    regions: 2,
    pages: 16,
    live_words: 1_024,
}];

#[test]
fn two_regions_are_swept_at_once(rt: HostRuntime) {
    play_all(&rt, rt.alloc(), &HELD);
}

// The gate holds regions until as many have begun as there are workers.
static HELD_TOGETHER: [SweptHeap; 2] = [
    SweptHeap {
        name: "three regions at once, one for each of three workers",
        object: Object::Zeros(639),
        marks: &[0, 640],
        mutators: 3,
        beside: Beside::Together(3),
        workers: 3,
        regions: 3,
        pages: 20,
        live_words: 1_280,
    },
    SweptHeap {
        name: "five regions at once, one for each of five workers",
        object: Object::Zeros(639),
        marks: &[0, 640, 1_280, 1_920],
        mutators: 5,
        beside: Beside::Together(5),
        workers: 5,
        regions: 5,
        pages: 40,
        live_words: 2_560,
    },
];

#[test]
fn as_many_regions_are_swept_at_once_as_there_are_workers(rt: HostRuntime) {
    play_all(&rt, rt.alloc(), &HELD_TOGETHER);
}

// The gate holds a worker until the other regions have ended.
static STOLEN: [SweptHeap; 1] = [SweptHeap {
    name: "a worker that is held, and whose other region is stolen",
    object: Object::Zeros(639),
    marks: &[0, 640],
    mutators: 2,
    beside: Beside::Steals,
    workers: 2,
    regions: 3,
    pages: 20,
    live_words: 1_280,
}];

// The gate holds all workers but one until all other regions have ended.
static STOLEN_FROM_ALL: [SweptHeap; 3] = [
    SweptHeap {
        name: "three workers, of which one takes from both others",
        object: Object::Zeros(639),
        marks: &[0, 640, 1_280, 1_920, 2_560],
        mutators: 3,
        beside: Beside::Frees(2, 5),
        workers: 3,
        regions: 7,
        pages: 50,
        live_words: 3_200,
    },
    SweptHeap {
        name: "four workers, of which one takes from all others",
        object: Object::Zeros(639),
        marks: &[0, 640, 1_280, 1_920, 2_560],
        mutators: 4,
        beside: Beside::Frees(3, 4),
        workers: 4,
        regions: 7,
        pages: 50,
        live_words: 3_200,
    },
    SweptHeap {
        name: "nine workers, two of which have no region of their own",
        object: Object::Zeros(639),
        marks: &[0, 640, 1_280, 1_920, 2_560],
        mutators: 9,
        beside: Beside::Frees(6, 1),
        workers: 9,
        regions: 7,
        pages: 50,
        live_words: 3_200,
    },
];

#[test]
fn an_idle_worker_steals_from_each_other_worker(rt: HostRuntime) {
    play_all(&rt, rt.alloc(), &STOLEN_FROM_ALL);
}

#[test]
fn an_idle_worker_steals_a_region(rt: HostRuntime) {
    play_all(&rt, rt.alloc(), &STOLEN);
}

// A mutator reads beside the sweep.
static READ: [SweptHeap; 2] = [
    SweptHeap {
        name: "beside a reader",
        object: Object::Zeros(639),
        marks: &[0, 640],
        mutators: 3,
        beside: Beside::Reader(0),
        workers: 2,
        regions: 3,
        pages: 20,
        live_words: 1_280,
    },
    SweptHeap {
        name: "beside a reader, of words that count",
        object: Object::Counting(639),
        marks: &[0, 640],
        mutators: 3,
        beside: Beside::Reader(639),
        workers: 2,
        regions: 3,
        pages: 20,
        live_words: 1_280,
    },
];

#[test]
fn a_mutator_reads_beside_a_sweep(rt: HostRuntime) {
    play_all(&rt, rt.alloc(), &READ);
}

// A mutator looks at the pages at both calls of the gate.
static LOOKED_AT: [SweptHeap; 1] = [SweptHeap {
    name: "looked at, before and after each region",
    object: Object::Zeros(639),
    marks: &[0, 640],
    mutators: 3,
    beside: Beside::Looks,
    workers: 2,
    regions: 3,
    pages: 20,
    live_words: 1_280,
}];

#[test]
fn a_region_is_built_between_the_calls_of_the_gate(rt: HostRuntime) {
    play_all(&rt, rt.alloc(), &LOOKED_AT);
}

// A build of an earlier sweep finds no memory.
static REFUSED: [SweptHeap; 1] = [SweptHeap {
    name: "after a refusal",
    object: Object::Zeros(639),
    marks: &[0, 640],
    mutators: 2,
    beside: Beside::Refusal,
    workers: 2,
    regions: 3,
    pages: 20,
    live_words: 1_280,
}];

#[test]
fn a_sweep_builds_each_page_once_after_a_refused_sweep(rt: HostRuntime) {
    play_all(&rt, rt.alloc(), &REFUSED);
}

const TEXTS: [(SweepFault, &str); 3] = [
    (SweepFault::OutOfMemory(9), "W1 OutOfMemory(9)"),
    (SweepFault::NoWorkers, "W2 NoWorkers"),
    (SweepFault::Resources, "W3 Resources"),
];

#[test]
fn sweep_faults_are_printed_with_number_and_name(rt: HostRuntime) {
    for (fault, text) in &TEXTS {
        let printed = fault.to_string(rt.alloc()).expect(&rt, "memory for a text");
        expect(&rt, text, "as it is printed", printed.as_str() == *text);
    }
}
