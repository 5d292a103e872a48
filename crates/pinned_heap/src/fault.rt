//! Why calls with pins are refused.
use std::alloc::AllocError;
use stopped_heap::SurveyFault;
use thiserror::Error;

/// Why objects are not pinned.
#[derive(Clone, Copy, Debug, PartialEq, Eq, Error)]
pub enum PinFault {
    /// The pin with this number is not the address of a live object; it may be null or an immediate. It is the first
    /// one that is not.
    #[error("pin {0} is not the address of a live object")]
    BadPin(u64),
    /// An allocation failed.
    #[error("out of memory")]
    OutOfMemory,
}

impl From<AllocError> for PinFault {
    ghost use Rattle.std.specs.Prelude.{◌≡◌};
    ghost use Rattle.pinned_heap.specs.declared.fault.PinFault.TheVariants as pin;

    ghost from_gives = { λ _ fault. fault ≡ pin.OutOfMemory };

    fn from(_error: AllocError) -> PinFault {
        PinFault::OutOfMemory
    }
}

/// Why a heap is not collected around pinned objects. `TooLarge` comes before the others. Among those no order is
/// promised: the fault that is answered is there, and there may be others too.
#[derive(Clone, Copy, Debug, PartialEq, Eq, Error)]
pub enum CollectPinnedFault {
    /// The heap is refused, or memory ran out. `TooLarge` may mean that there are more pins than the edition allows
    /// roots. An object that is reached may be reached from a pin.
    #[error("{0}")]
    Survey(SurveyFault),
    /// The pin with this number is not the address of one of the words; it may be null or an immediate.
    #[error("pin {0} is not the address of a word")]
    BadPin(u64),
    /// The collection would leave this many runs of free words, which are more than the caller wants.
    #[error("there are {0} runs of free words")]
    TooManyRuns(u64),
}
