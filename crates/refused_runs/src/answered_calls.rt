//! The calls of a mutator and their answers.
use comp_journal::Entry;
use comp_mutator::Refusal;
use heap_layout::Kind;

/// A call of a mutator.
#[derive(Clone, Copy)]
pub enum Call {
    /// A touch of a page. The answer is 1 if this call built it, else 0.
    Touch(u64),
    /// A read of a field: its kind, the object and the field.
    Read(Kind, u64, u16),
    /// A write of a field: its kind, the object, the field and the value.
    Write(Kind, u64, u16, u64),
    /// A new object: its numbers of references and data words, and its tag.
    Alloc(u16, u16, u32),
    /// A copy of a page: its first words (all others are 0), and the entries of its journal. The answer is their
    /// number.
    Copy(u64, &'static [u64], &'static [Entry]),
}

/// A call: the number of the mutator, the call, the page that it touches, the number of entries of that page's journal
/// before the call, and the answer.
#[derive(Clone, Copy)]
pub struct AnsweredCall(
    pub usize,
    pub Call,
    pub u64,
    pub usize,
    pub Result<u64, Refusal>,
);
