//! Calls of a mutator by its handle.
ghost use Rattle.std.specs.Prelude.{◌≡◌};
ghost use Rattle.comp_crew.specs.Members.{IsMember};
ghost use Rattle.flip_handle.specs.Calling.{Calls, Does, IsRoot, Touches};
ghost use Rattle.flip_handle.specs.declared.calling.Call.TheVariants as calls;

use comp_crew::{Member, Refusal, Touched};
use handle_base::{Answer, Handle, Kept, status};
use heap_layout::{Header, Kind};
use std::alloc::Global;

/// A call of a mutator.
#[derive(Clone, Copy)]
pub enum Call {
    /// Reads a reference field: the object, and the field's index.
    ReadRef(u64, u32),
    /// Reads a weak field: the object, and the field's index.
    ReadWeak(u64, u32),
    /// Reads a data field: the object, and the field's index.
    ReadData(u64, u32),
    /// Reads the header of an object.
    Header(u64),
    /// Writes a reference field: the object, the field's index and the value.
    WriteRef(u64, u32, u64),
    /// Writes a weak field: the object, the field's index and the value.
    WriteWeak(u64, u32, u64),
    /// Writes a data field: the object, the field's index and the value.
    WriteData(u64, u32, u64),
    /// Makes an object with this header word.
    Alloc(u64),
    /// Builds a page if nobody has.
    Touch(u64),
    /// The forwarded root with this number.
    Root(u64),
    /// The page that the mutator built as the one with this number.
    Build(u64),
}

// Builds a page if nobody has. The answer is 1 if this call built it, else 0.
fn touch(alloc: Global, m: &mut Member, p: u64) -> Answer
    requires { IsMember m.old }
    ensures of { IsMember m.new }
    ensures touches { Touches p m.old m.new result }
{
    if p >= m.pages() {
        return Answer::bare(status::NO_SUCH_PAGE, p);
    }
    match m.try_touch(alloc, p) {
        Ok(Touched::Built) => Answer::done(1),
        Ok(Touched::AlreadyBuilt) => Answer::done(0),
        Err(refusal) => Answer::refused(0, refusal),
    }
}

// The forwarded root with this number.
fn root(m: &Member, i: u64) -> Answer
    ensures { IsRoot i m.now result }
{
    let roots = m.roots();
    if i < roots.len() as u64 {
        Answer::done(roots[i as usize])
    } else {
        Answer::bare(status::NO_SUCH_ROOT, i)
    }
}

// Makes an object with this header word.
#[inline(always)]
fn alloc_word(alloc: Global, m: &mut Member, word: u64) -> Answer
    requires { IsMember m.old }
    ensures of { IsMember m.new }
    ensures does { Does (calls.Alloc word) m.old m.new result }
{
    let size = Header::from_word_of(m.edition(), word).size();
    Answer::of(size, m.try_alloc_word(alloc, word))
}

// Makes a call.
#[inline(always)]
fn perform(alloc: Global, m: &mut Member, call: Call) -> Answer
    requires { IsMember m.old }
    ensures of { IsMember m.new }
    ensures does { Does call m.old m.new result }
{
    match call {
        Call::ReadRef(object, field) => {
            Answer::of(
                field,
                m.try_read_referring(alloc, Kind::Reference, object, field),
            )
        }
        Call::ReadWeak(object, field) => {
            Answer::of(
                field,
                m.try_read_referring(alloc, Kind::Weak, object, field),
            )
        }
        Call::ReadData(object, field) => {
            Answer::of(field, m.try_read_data_at(alloc, object, field))
        }
        Call::Header(object) => Answer::of(0, m.try_header(alloc, object)),
        Call::WriteRef(object, field, value) => {
            Answer::of(
                field,
                m.try_write_referring(alloc, Kind::Reference, object, field, value),
            )
        }
        Call::WriteWeak(object, field, value) => {
            Answer::of(
                field,
                m.try_write_referring(alloc, Kind::Weak, object, field, value),
            )
        }
        Call::WriteData(object, field, value) => {
            Answer::of(field, m.try_write_data_at(alloc, object, field, value))
        }
        Call::Alloc(word) => alloc_word(alloc, m, word),
        Call::Touch(p) => touch(alloc, m, p),
        Call::Root(i) => root(m, i),
        Call::Build(i) => Answer::place(m.builds(), i, status::NO_SUCH_BUILD),
    }
}

/// Makes a call of the mutator that the handle keeps. If it keeps none, nothing happens, and the answer says why.
#[inline(always)]
pub fn make_call(alloc: Global, h: &mut Handle, call: Call) -> Answer
    ensures { Calls (Does call) h.old.kept h.new.kept result }
{
    let Some(mut kept) = h.take(alloc) else {
        return Answer::bare(status::EMPTY_HANDLE, 0);
    };
    let answer = match kept.as_mut() {
        Kept::Mutator(m) => perform(alloc, m, call),
        _ => Answer::bare(status::WRONG_HANDLE, 0),
    };
    h.put_back(kept);
    answer
}
