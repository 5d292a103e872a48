//! Worked heaps that are flipped, worked on and finished, and their dumps.
ghost use Rattle.std.specs.Prelude.{◌≡◌};
ghost use Rattle.comp_mutator.specs.Mutators.{setup_of, AreMutatorsOf, IsMutatorOf};

use crate::dump_bytes::{Whole, encoded};
use crate::dumps_in_memory::expect_dump;
use crate::expected::expect_eq;
use comp_audit::Dump;
use comp_mutator::{Mutator, Refusal, Space, Touched, flip};
use heap_layout::Kind;
use page_plan::Plan;
use std::alloc::Global;
use std::marker::Brand;
use std::process::Abort;
use std::sync::Arc;
use std::sync::ledger::{Blank, Ledger as Named};
use std::thread::Threads;
use test_support::{At, Worked, plan_of};

/// A call of a mutator.
pub enum Call {
    /// The number of pages of the space.
    Pages,
    /// A touch of a page, which exists. The answer is 1 if this call built it, else 0.
    Touch(u64),
    /// A read of a reference field: the object and the field.
    ReadRef(u64, u16),
    /// A read of a data field: the object and the field.
    ReadData(u64, u16),
    /// A write of a reference field: the object, the field and the value. The answer is the stamp of the entry.
    WriteRef(u64, u16, u64),
    /// A write of a data field: the object, the field and the value. The answer is the stamp of the entry.
    WriteData(u64, u16, u64),
    /// A new object of one word with tag 0. The answer is its address.
    Alloc,
    /// A read of a weak field: the object and the field.
    ReadWeak(u64, u16),
    /// A write of a weak field: the object, the field and the value. The answer is the stamp of the entry.
    WriteWeak(u64, u16, u64),
    /// A new object of one weak word with tag 5. The answer is its address.
    AllocWeak,
    /// A read of a field of any number: its kind, the object and the field.
    ReadAt(Kind, u64, u32),
    /// A write of a field of any number: its kind, the object, the field and the value. The answer is the stamp of the
    /// entry.
    WriteAt(Kind, u64, u32, u64),
    /// A touch of each page, in order. The answer is the number of pages that it built.
    TouchAll,
}

/// The number of a mutator, its call, and the answer.
pub struct AnsweredCall(pub usize, pub Call, pub u64);

/// A run: a heap that is flipped, and what its mutators do.
pub struct DumpedRun {
    pub name: &'static str,
    pub heap: Worked,
    pub mutators: u8,
    pub fresh_pages: u32,
    pub calls: &'static [AnsweredCall],
    /// Whether the last mutator is handed in first.
    pub last_first: bool,
    /// The number of bytes of the dump.
    pub length: usize,
    /// The dump.
    pub parts: Whole,
}

// The answer of a read of a field of any number.
fn read_at<L: Named>(
    alloc: Global,
    space: &Space<L, Plan>,
    m: &mut Mutator<L>,
    kind: Kind,
    object: u64,
    field: u32,
) -> Result<u64, Refusal>
    requires of { IsMutatorOf space.now m.old }
    ensures of { IsMutatorOf space.now m.new }
{
    match kind {
        Kind::Reference => space.try_read_referring(alloc, m, Kind::Reference, object, field),
        Kind::Weak => space.try_read_referring(alloc, m, Kind::Weak, object, field),
        _ => space.try_read_data_at(alloc, m, object, field),
    }
}

// The answer of a write of a field of any number.
fn write_at<L: Named>(
    alloc: Global,
    space: &Space<L, Plan>,
    m: &mut Mutator<L>,
    kind: Kind,
    object: u64,
    field: u32,
    value: u64,
) -> Result<u64, Refusal>
    requires of { IsMutatorOf space.now m.old }
    ensures of { IsMutatorOf space.now m.new }
{
    match kind {
        Kind::Reference => {
            space.try_write_referring(alloc, m, Kind::Reference, object, field, value)
        }
        Kind::Weak => space.try_write_referring(alloc, m, Kind::Weak, object, field, value),
        _ => space.try_write_data_at(alloc, m, object, field, value),
    }
}

// The answer of touches of all pages.
fn touch_all<L: Named>(
    alloc: Global,
    space: &Space<L, Plan>,
    m: &mut Mutator<L>,
) -> Result<u64, Refusal>
    requires of { IsMutatorOf space.now m.old }
    ensures of { IsMutatorOf space.now m.new }
{
    let mut built = 0u64;
    for p in 0..space.pages() {
        if space.try_touch(alloc, m, p)? == Touched::Built {
            built = built.wrapping_add(1);
        }
    }
    Ok(built)
}

// The answer of a call.
fn answer<L: Named>(
    rt: &impl Abort,
    alloc: Global,
    space: &Space<L, Plan>,
    m: &mut Mutator<L>,
    call: &Call,
) -> Result<u64, Refusal>
    requires of { IsMutatorOf space.now m.old }
    ensures of { IsMutatorOf space.now m.new }
{
    match call {
        Call::Pages => Ok(space.pages()),
        Call::Touch(p) => {
            assert!(rt; *p < space.pages());
            let touched = space.try_touch(alloc, m, *p)?;
            Ok(u64::from(touched == Touched::Built))
        }
        Call::ReadRef(object, field) => space.try_read_ref(alloc, m, *object, *field),
        Call::ReadData(object, field) => space.try_read_data(alloc, m, *object, *field),
        Call::WriteRef(object, field, value) => {
            space.try_write_ref(alloc, m, *object, *field, *value)
        }
        Call::WriteData(object, field, value) => {
            space.try_write_data(alloc, m, *object, *field, *value)
        }
        Call::Alloc => space.try_alloc(alloc, m, 0, 0, 0),
        Call::ReadWeak(object, field) => space.try_read_weak(alloc, m, *object, *field),
        Call::WriteWeak(object, field, value) => {
            space.try_write_weak(alloc, m, *object, *field, *value)
        }
        Call::AllocWeak => space.try_alloc_weak(alloc, m, 0, 1, 0, 5),
        Call::ReadAt(kind, object, field) => read_at(alloc, space, m, *kind, *object, *field),
        Call::WriteAt(kind, object, field, value) => {
            write_at(alloc, space, m, *kind, *object, *field, *value)
        }
        Call::TouchAll => touch_all(alloc, space, m),
    }
}

// Checks the call of one mutator.
fn expect_call<L: Named>(
    rt: &impl Abort,
    alloc: Global,
    space: &Space<L, Plan>,
    mutators: &mut [Mutator<L>],
    at: usize,
    call: &AnsweredCall,
    name: &str,
)
    requires of { AreMutatorsOf space.now mutators.old }
    ensures of { AreMutatorsOf space.now mutators.new }
{
    let AnsweredCall(by, asked, wanted) = call;
    let by = *by;
    assert!(rt; by < mutators.len());
    let found = answer(rt, alloc, space, &mut mutators[by], asked);
    expect_eq(rt, At::new(name, at), found, Ok(*wanted));
}

// Checks the calls of a run, one after another.
fn expect_calls<L: Named>(
    rt: &impl Abort,
    alloc: Global,
    space: &Space<L, Plan>,
    mutators: &mut [Mutator<L>],
    run: &DumpedRun,
)
    requires of { AreMutatorsOf space.now mutators.old }
    ensures of { AreMutatorsOf space.now mutators.new }
{
    for (at, call) in run.calls.iter().enumerate() {
        expect_call(rt, alloc, space, mutators, at, call, run.name);
    }
    if run.last_first {
        mutators.reverse();
    }
}

// Checks the dump that a run left.
fn expect_left(
    rt: &(impl Abort + Threads + Sync),
    alloc: Global,
    run: &DumpedRun,
    dump: &Dump<'_>,
) {
    let plan = plan_of(rt, alloc, run.heap).expect(rt, "a plan");
    let wanted = encoded(rt, alloc, &run.parts);
    expect_eq(rt, At::new(run.name, 0), wanted.len(), run.length);
    expect_dump(rt, alloc, &plan, dump, &wanted);
}

// Finishes with all mutators, and checks the dump that the run left.
fn expect_finish<L: Named>(
    rt: &(impl Abort + Threads + Sync),
    alloc: Global,
    run: &DumpedRun,
    space: Space<L, Plan>,
    mutators: Vec<Mutator<L>>,
)
    requires of { AreMutatorsOf space mutators.items }
    requires whole { (setup_of space).mutators ≡ L.parts }
    requires mutators { (setup_of space).mutators ≡ run.now.mutators }
    requires fresh { (setup_of space).fresh ≡ run.now.fresh_pages }
{
    let finished = match space.finish(alloc, mutators) {
        Ok(finished) => finished,
        Err(_) => rt.panic(run.name),
    };
    let dump = Dump::of(alloc, &finished, run.mutators, run.fresh_pages).expect(rt, run.name);
    expect_left(rt, alloc, run, &dump);
}

fn expect_run_of<L: Named>(
    rt: &(impl Abort + Threads + Sync),
    alloc: Global,
    blank: Blank,
    run: &DumpedRun,
)
    requires name { blank.name ≡ L.name }
    requires parts { blank.parts ≡ L.parts }
    requires count { blank.parts ≡ run.now.mutators }
{
    let plan = plan_of(rt, alloc, run.heap).expect(rt, "a plan");
    let builder = Arc::new(alloc, plan).expect(rt, "memory");
    let flipped = flip::<L, Plan>(alloc, blank, builder, run.mutators, run.fresh_pages);
    let (space, mut mutators) = flipped.expect(rt, "a flip");
    expect_calls(rt, alloc, &space, &mut mutators, run);
    expect_finish(rt, alloc, run, space, mutators);
}

/// Checks the calls of a run and the dump that it left.
pub fn expect_run(rt: &(impl Abort + Threads + Sync), alloc: Global, run: &DumpedRun) {
    let blank = Blank::new(u64::from(run.mutators));
    expect_run_of::<Brand>(rt, alloc, blank, run);
}
