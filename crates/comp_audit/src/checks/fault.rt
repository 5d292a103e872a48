//! Why a check of a dump ends early.
ghost use Rattle.std.specs.Prelude.{◌≡◌};
ghost use Rattle.comp_audit.specs.declared.checks.fault.CheckEnd.TheVariants as stop;

use comp_dump::AuditFault;
use heap_layout::OutOfMemory;
use std::alloc::{AllocError, AllocFailed};

/// Why a check ends early: an allocation failed, or there is a fault.
#[derive(Clone, Copy)]
pub enum CheckEnd {
    /// An allocation failed.
    OutOfMemory,
    /// The first fault of the check.
    Fault(AuditFault),
}

impl From<AllocError> for CheckEnd {
    ghost from_gives = { λ _ given. given ≡ stop.OutOfMemory };

    fn from(_error: AllocError) -> CheckEnd {
        CheckEnd::OutOfMemory
    }
}

impl From<OutOfMemory> for CheckEnd {
    ghost from_gives = { λ _ given. given ≡ stop.OutOfMemory };

    fn from(_error: OutOfMemory) -> CheckEnd {
        CheckEnd::OutOfMemory
    }
}

impl<T: Drop> From<AllocFailed<T>> for CheckEnd {
    ghost from_gives = { λ _ given. given ≡ stop.OutOfMemory };

    fn from(_failed: AllocFailed<T>) -> CheckEnd {
        CheckEnd::OutOfMemory
    }
}
