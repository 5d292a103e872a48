ghost use Rattle.std.specs.Prelude.{◌≡◌};
ghost use Rattle.comp_trace.specs.declared.text.fault.TraceFault.TheVariants as faults;

use comp_access::Refusal;
use std::alloc::{AllocError, AllocFailed};
use thiserror::Error;

/// Why a trace was not read, or not run. Each fault but the last has the number of its line, counted from 1.
#[derive(Clone, Copy, Debug, PartialEq, Eq, Error)]
pub enum TraceFault {
    /// The line does not have the form of a line.
    #[error("T1 BadLine({0})")]
    BadLine(u64),
    /// The line names a mutator that does not exist.
    #[error("T2 NoSuchMutator({0})")]
    NoSuchMutator(u64),
    /// The line names a register that is not below 16.
    #[error("T3 NoSuchRegister({0})")]
    NoSuchRegister(u64),
    /// A field, a count, a tag or a value is too large for its type.
    #[error("T4 NumberTooLarge({0})")]
    NumberTooLarge(u64),
    /// The line names a root that does not exist.
    #[error("T5 NoSuchRoot({0})")]
    NoSuchRoot(u64),
    /// The call of the line was refused. The lines before it were run.
    #[error("T6 Refused({0}, {1})")]
    Refused(u64, Refusal),
    /// Out of memory.
    #[error("T7 OutOfMemory")]
    OutOfMemory,
}

/// A line whose call was refused: its number, counted from 1, and the refusal.
#[derive(Clone, Copy, Debug, PartialEq, Eq)]
pub struct RefusedLine {
    pub line: u64,
    pub refusal: Refusal,
}

impl From<RefusedLine> for TraceFault {
    ghost from_gives = { λ stop given. given ≡ faults.Refused stop.line stop.refusal };

    fn from(stop: RefusedLine) -> TraceFault {
        TraceFault::Refused(stop.line, stop.refusal)
    }
}

impl From<AllocError> for TraceFault {
    ghost from_gives = { λ _ given. given ≡ faults.OutOfMemory };

    fn from(_fault: AllocError) -> TraceFault {
        TraceFault::OutOfMemory
    }
}

impl<T: Drop> From<AllocFailed<T>> for TraceFault {
    ghost from_gives = { λ _ given. given ≡ faults.OutOfMemory };

    fn from(_fault: AllocFailed<T>) -> TraceFault {
        TraceFault::OutOfMemory
    }
}
