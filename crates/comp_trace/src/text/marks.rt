//! Reads the texts of marks.
ghost use Rattle.std.specs.Prelude.{◌≡◌, ℕ, List, Ok, IfErr, IfNone, IfOk, IfSome};
ghost use Rattle.comp_trace.specs.declared.text.marks.MarksFault.TheVariants as faults;
ghost use Rattle.comp_trace.specs.MarksText.{marks_of, MarkBefore, RefusesMarks};

use crate::text::numbers::{below, number_before};
use std::alloc::{AllocFailed, Global};

/// Why marks were not read.
#[derive(Clone, Copy, Debug, PartialEq, Eq)]
pub enum MarksFault {
    /// The line of this number, counted from 1, is not a mark.
    BadMarks(u64),
    /// Out of memory.
    OutOfMemory,
}

impl<T: Drop> From<AllocFailed<T>> for MarksFault {
    ghost from_gives = { λ _ given. given ≡ faults.OutOfMemory };

    fn from(_fault: AllocFailed<T>) -> MarksFault {
        MarksFault::OutOfMemory
    }
}

/// Reads the text of marks: one index of 32 bits on each line, and each line ended by a line feed. If a line is not a
/// mark, the fault is `BadMarks` with the number of the first such line, counted from 1.
pub fn read_marks(alloc: Global, text: &[u8]) -> Result<Vec<u32>, MarksFault>
    ensures marks { IfOk result (λ marks. marks_of text.now ≡ Ok marks.items) }
    ensures cause { IfErr result (λ fault. RefusesMarks fault (marks_of text.now)) }
{
    let mut marks = Vec::new(alloc);
    let mut n = 1;
    let mut rest = text;
    while !rest.is_empty() {
        let Some((mark, more)) = read_mark(rest) else {
            return Err(MarksFault::BadMarks(n));
        };
        marks.push(mark)?;
        n += 1;
        rest = more;
    }
    Ok(marks)
}

// Reads the mark at the front of a text, a number of 32 bits before a line feed. Answers it and the text after the
// line feed.
fn read_mark(text: &[u8]) -> Option<(u32, &[u8])>
    ensures some { IfSome result (λ read. MarkBefore text.now read.0 read.1.now) }
    ensures none { IfNone result ((mark : ℕ) (rest : List ℕ) → MarkBefore text.now mark rest → ⊥) }
{
    let Some((number, rest)) = number_before(text, b'\n') else {
        return None;
    };
    let Some(mark) = below(number, 1 << 32) else {
        return None;
    };
    Some((mark as u32, rest))
}
