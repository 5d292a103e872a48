//! The steps of a mutator, one after another, and their answers.
ghost use Rattle.comp_mutator.specs.Mutators.{IsMutatorOf};

use crate::calls::{answer, copy, touch};
use crate::expected::{expect_eq, expect_so};
use crate::far_fields::{self, Field};
use crate::written_by_turns::is_by_turns;
use comp_journal::Entry;
use comp_mutator::{Builder, Mutator, PageCopy, Refusal, Space, Touched};
use heap_layout::Kind;
use std::alloc::Global;
use std::process::Abort;
use std::sync::Wait;
use std::sync::ledger::Ledger as Named;
use test_support::{At, Call, T, page_words};

/// A step of a mutator. A call has its arguments first and its answer last.
pub enum MutatorStep {
    /// The steps after this one are those of the mutator of this number. The first steps are those of mutator 0.
    By(usize),
    /// The first of two mutators meets the second one.
    Meet,
    /// The second one meets the first one.
    MeetBack,
    /// The steps of the first mutator, and those of each other mutator, each in a thread of its own.
    AtOnce(&'static [MutatorStep], &'static [MutatorStep]),
    /// A read of a reference field: the object and the field.
    ReadRef(u64, u16, Result<u64, Refusal>),
    /// A read of a weak field: the object and the field.
    ReadWeak(u64, u16, Result<u64, Refusal>),
    /// A read of a data field: the object and the field.
    ReadData(u64, u16, Result<u64, Refusal>),
    /// A write of a reference field: the object, the field and the value. The answer is the stamp of the entry.
    WriteRef(u64, u16, u64, Result<u64, Refusal>),
    /// A write of a weak field: the object, the field and the value. The answer is the stamp of the entry.
    WriteWeak(u64, u16, u64, Result<u64, Refusal>),
    /// A write of a data field: the object, the field and the value. The answer is the stamp of the entry.
    WriteData(u64, u16, u64, Result<u64, Refusal>),
    /// A read of a field of any number: its kind, the object and the field.
    ReadAt(Kind, u64, u32, Result<u64, Refusal>),
    /// A write of a field of any number: its kind, the object, the field and the value. The answer is the stamp of the
    /// entry.
    WriteAt(Kind, u64, u32, u64, Result<u64, Refusal>),
    /// A new object: its numbers of references and data words, and its tag. The answer is its address.
    Alloc(u16, u16, u32, Result<u64, Refusal>),
    /// A new object that may have weak words: its numbers of references, weak words and data words, and its tag.
    AllocWeak(u16, u16, u16, u32, Result<u64, Refusal>),
    /// A touch of a page, which exists.
    Touch(u64, Result<Touched, Refusal>),
    /// The call of this step, in the form that waits while the page is busy.
    AtLast(&'static MutatorStep),
    /// Writes of 0, 1, .. into a data field: the object, the field and the number of writes. Their stamps are 0, 1, ..
    /// too.
    Rising(u64, u16, u64),
    /// A write of this value into this data word of the first object, which must succeed.
    Word(u16, u64),
    /// Writes into the first data word of the first object: the first value, which counts up, and the number of writes.
    /// They wait, and must succeed.
    Writes(u64, u64),
    /// Such writes as those of `Writes`, without waiting.
    WritesAtOnce(u64, u64),
    /// Reads of that word without waiting, this many. Each answers 11 or a value of `WritesAtOnce(100, 1_024)`, and
    /// none is less than the one before.
    Follows(u64),
    /// New objects of 4 words, this many, each followed by a write into the first object and a settlement. They wait,
    /// and must succeed.
    Objects(u64),
    /// New objects of 64 words, this many, each of which fills a page. They must succeed.
    Fills(u64),
    /// A touch of page 0 at the same time as another thread. It built the page, as the mutator says, or it came too
    /// late.
    Race,
    /// The words that the mutator allocated are posted.
    Settle,
    /// There are this many mutators, numbered from 0, and none of them has done anything.
    New(u64),
    /// The number of pages of the space.
    Pages(u64),
    /// The number of its compacted pages.
    Compacted(u64),
    /// The roots of the space.
    Roots(&'static [u64]),
    /// The pages that the mutator has built, in order.
    Builds(&'static [u64]),
    /// The number of words that the mutator has not posted.
    Unposted(u64),
    /// The page, which exists: its first words (all others are 0), and the entries of its journal.
    Page(u64, &'static [u64], &'static [Entry]),
    /// The page, which exists, was written by two threads by turns.
    Turns(u64),
}

// A read of a field.
fn read_of(kind: Kind, object: u64, field: u16) -> Call {
    Call::Read {
        kind,
        object,
        field,
    }
}

// A write of a field.
fn write_of(kind: Kind, object: u64, field: u16, value: u64) -> Call {
    Call::Write {
        kind,
        object,
        field,
        value,
    }
}

// A new object.
fn alloc_of(references: u16, weak: u16, data_words: u16, tag: u32) -> Call {
    Call::Alloc {
        references,
        weak,
        data_words,
        tag,
    }
}

// The call of a step and its expected answer, or `None` if the step is no such call.
fn call_of(row: &MutatorStep) -> Option<(Call, Result<u64, Refusal>)> {
    let (call, wanted) = match *row {
        MutatorStep::ReadRef(object, field, wanted) => (
            read_of(Kind::Reference, object, field),
            wanted,
        ),
        MutatorStep::ReadWeak(object, field, wanted) => (
            read_of(Kind::Weak, object, field),
            wanted,
        ),
        MutatorStep::ReadData(object, field, wanted) => (
            read_of(Kind::Data, object, field),
            wanted,
        ),
        MutatorStep::WriteRef(object, field, value, wanted) => {
            (write_of(Kind::Reference, object, field, value), wanted)
        }
        MutatorStep::WriteWeak(object, field, value, wanted) => {
            (write_of(Kind::Weak, object, field, value), wanted)
        }
        MutatorStep::WriteData(object, field, value, wanted) => {
            (write_of(Kind::Data, object, field, value), wanted)
        }
        MutatorStep::Alloc(refs, data_words, tag, wanted) => (
            alloc_of(refs, 0, data_words, tag),
            wanted,
        ),
        MutatorStep::AllocWeak(refs, weak, data_words, tag, wanted) => {
            (alloc_of(refs, weak, data_words, tag), wanted)
        }
        _ => return None,
    };
    Some((call, wanted))
}

/// Checks a step of one mutator.
pub fn expect_step<L: Named, B: Builder, R: Abort + Wait>(
    rt: &R,
    alloc: Global,
    space: &Space<L, B>,
    m: &mut Mutator<L>,
    at: At,
    row: &MutatorStep,
)
    requires of { IsMutatorOf space.now m.old }
    ensures of { IsMutatorOf space.now m.new }
{
    let (row, waits) = match row {
        MutatorStep::AtLast(row) => (*row, true),
        _ => (row, false),
    };
    let Some((call, wanted)) = call_of(row) else {
        return expect_other(rt, alloc, space, m, at, row, waits);
    };
    let found = answer(rt, alloc, space, m, call, waits);
    expect_eq(rt, at, found, wanted);
}

// Whether the touch built page 0, as the mutator says, or found the page built or busy.
fn is_of_race(touched: Result<Touched, Refusal>, builds: &[u64]) -> bool {
    match touched {
        Ok(Touched::Built) => matches!(builds, [0]),
        Ok(Touched::AlreadyBuilt) | Err(Refusal::Busy(0)) => builds.is_empty(),
        Err(_) => false,
    }
}

// Checks a step that is not one of these calls: a touch, or what the space, the mutator or a page holds, or another.
fn expect_other<L: Named, B: Builder, R: Abort + Wait>(
    rt: &R,
    alloc: Global,
    space: &Space<L, B>,
    m: &mut Mutator<L>,
    at: At,
    row: &MutatorStep,
    waits: bool,
)
    requires of { IsMutatorOf space.now m.old }
    ensures of { IsMutatorOf space.now m.new }
{
    match *row {
        MutatorStep::Touch(p, wanted) => {
            let found = touch(rt, alloc, space, m, p, waits);
            expect_eq(rt, at, found, wanted)
        }
        MutatorStep::ReadAt(kind, object, number, wanted) => {
            let field = Field(kind, object, number);
            let found = far_fields::read(rt, alloc, space, m, field, waits);
            expect_eq(rt, at, found, wanted)
        }
        MutatorStep::WriteAt(kind, object, number, value, wanted) => {
            let field = Field(kind, object, number);
            let found = far_fields::write(rt, alloc, space, m, field, value, waits);
            expect_eq(rt, at, found, wanted)
        }
        MutatorStep::Pages(wanted) => expect_eq(rt, at, space.pages(), wanted),
        MutatorStep::Compacted(wanted) => expect_eq(rt, at, space.compacted_pages(), wanted),
        MutatorStep::Roots(wanted) => expect_eq(rt, at, space.roots(), wanted),
        MutatorStep::Builds(wanted) => expect_eq(rt, at, m.builds(), wanted),
        MutatorStep::Unposted(wanted) => expect_eq(rt, at, m.unposted(), wanted),
        MutatorStep::Page(p, begin, entries) => {
            let page = copy(rt, alloc, space, m, p);
            expect_copy(rt, at, &page, begin, entries)
        }
        _ => {
            let holds = step_holds(rt, alloc, space, m, row);
            expect_so(rt, at, holds)
        }
    }
}

// Whether a step holds that has no one answer: a settlement, several calls, or a page that two threads wrote.
fn step_holds<L: Named, B: Builder, R: Abort + Wait>(
    rt: &R,
    alloc: Global,
    space: &Space<L, B>,
    m: &mut Mutator<L>,
    row: &MutatorStep,
) -> bool
    requires of { IsMutatorOf space.now m.old }
    ensures of { IsMutatorOf space.now m.new }
{
    match *row {
        MutatorStep::Race => {
            let found = touch(rt, alloc, space, m, 0, false);
            is_of_race(found, m.builds())
        }
        MutatorStep::Settle => space.settle(rt, m).is_ok(),
        MutatorStep::Turns(p) => is_by_turns(&copy(rt, alloc, space, m, p)),
        MutatorStep::Follows(count) => follows(alloc, space, m, count),
        MutatorStep::Rising(_, _, count)
        | MutatorStep::Writes(_, count)
        | MutatorStep::WritesAtOnce(_, count)
        | MutatorStep::Objects(count)
        | MutatorStep::Fills(count) => { steps_succeed(rt, alloc, space, m, row, count) }
        _ => step_succeeds(rt, alloc, space, m, row, 0),
    }
}

// Checks that the copy of a page begins with these words and all others are 0, and that its journal has these entries.
fn expect_copy(rt: &impl Abort, at: At, page: &PageCopy, begin: &[u64], entries: &[Entry]) {
    let words = page_words(begin);
    expect_eq(rt, at, page.words.as_array().as_slice(), words.as_slice());
    expect_eq(rt, at, page.journal.as_slice(), entries);
}

// Whether each call of a step of several calls succeeds.
fn steps_succeed<L: Named, B: Builder, R: Wait>(
    rt: &R,
    alloc: Global,
    space: &Space<L, B>,
    m: &mut Mutator<L>,
    row: &MutatorStep,
    count: u64,
) -> bool
    requires of { IsMutatorOf space.now m.old }
    ensures of { IsMutatorOf space.now m.new }
{
    for step in 0..count {
        if !step_succeeds(rt, alloc, space, m, row, step) {
            return false;
        }
    }
    true
}

// Whether one call of a step succeeds.
fn step_succeeds<L: Named, B: Builder, R: Wait>(
    rt: &R,
    alloc: Global,
    space: &Space<L, B>,
    m: &mut Mutator<L>,
    row: &MutatorStep,
    step: u64,
) -> bool
    requires of { IsMutatorOf space.now m.old }
    ensures of { IsMutatorOf space.now m.new }
{
    match *row {
        MutatorStep::Rising(object, field, _) => {
            write(rt, alloc, space, m, object, field, step, false) == Ok(step)
        }
        MutatorStep::Word(field, value) => write(
            rt, alloc, space, m, T, field, value, false,
        ).is_ok(),
        MutatorStep::Writes(first, _) => {
            write(rt, alloc, space, m, T, 0, first.wrapping_add(step), true).is_ok()
        }
        MutatorStep::WritesAtOnce(first, _) => {
            write(rt, alloc, space, m, T, 0, first.wrapping_add(step), false).is_ok()
        }
        MutatorStep::Objects(_) => makes_and_settles(rt, alloc, space, m, step),
        MutatorStep::Fills(_) => answer(rt, alloc, space, m, alloc_of(0, 0, 63, 0), false).is_ok(),
        _ => false,
    }
}

// Writes a data field.
fn write<L: Named, B: Builder, R: Wait>(
    rt: &R,
    alloc: Global,
    space: &Space<L, B>,
    m: &mut Mutator<L>,
    object: u64,
    field: u16,
    value: u64,
    waits: bool,
) -> Result<u64, Refusal>
    requires of { IsMutatorOf space.now m.old }
    ensures of { IsMutatorOf space.now m.new }
{
    let call = write_of(Kind::Data, object, field, value);
    answer(rt, alloc, space, m, call, waits)
}

// Reads the first data word of the first object this many times while another thread counts it up. Answers whether the
// values are as the step says.
fn follows<L: Named, B: Builder>(
    alloc: Global,
    space: &Space<L, B>,
    m: &mut Mutator<L>,
    count: u64,
) -> bool
    requires of { IsMutatorOf space.now m.old }
    ensures of { IsMutatorOf space.now m.new }
{
    let mut last = 11;
    for _ in 0..count {
        let Ok(word) = space.try_read_data(alloc, m, T, 0) else {
            return false;
        };
        let written = word == 11 || (word >= 100 && word < 1_124);
        if word < last || !written {
            return false;
        }
        last = word;
    }
    true
}

// Makes an object of 4 words, writes into the first object and settles. Answers whether all three succeed.
fn makes_and_settles<L: Named, B: Builder, R: Wait>(
    rt: &R,
    alloc: Global,
    space: &Space<L, B>,
    m: &mut Mutator<L>,
    value: u64,
) -> bool
    requires of { IsMutatorOf space.now m.old }
    ensures of { IsMutatorOf space.now m.new }
{
    let made = answer(rt, alloc, space, m, alloc_of(1, 0, 2, 0), true);
    let stamp = write(rt, alloc, space, m, T, 0, value, true);
    made.is_ok() && stamp.is_ok() && space.settle(rt, m).is_ok()
}
