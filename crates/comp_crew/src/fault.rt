ghost use Rattle.std.specs.Prelude.{◌≡◌};
ghost use Rattle.comp_crew.specs.declared.fault.CrewFault.TheVariants as crew;

use heap_layout::OutOfMemory;
use thiserror::Error;

/// Why a heap was not flipped for a crew.
#[derive(Clone, Copy, Debug, PartialEq, Eq, Error)]
pub enum CrewFault {
    /// Out of memory.
    #[error("M8 OutOfMemory")]
    OutOfMemory,
    /// The number of mutators is not 1 to 64, or the number of fresh pages is above the limit of the heap's edition.
    #[error("M10 BadCounts")]
    BadCounts,
}

impl From<OutOfMemory> for CrewFault {
    ghost from_gives = { λ _ given. given ≡ crew.OutOfMemory };

    fn from(_fault: OutOfMemory) -> CrewFault {
        CrewFault::OutOfMemory
    }
}

/// Why a crew was not finished.
#[derive(Clone, Copy, Debug, PartialEq, Eq, Error)]
pub enum FinishFault {
    /// Out of memory.
    #[error("M8 OutOfMemory")]
    OutOfMemory,
    /// This is the least number of a mutator that was not handed back.
    #[error("M9 MutatorMissing({0})")]
    MutatorMissing(u8),
    /// No mutator is missing, and the crew's cells have an owner besides the crew.
    #[error("M13 StillShared")]
    StillShared,
}
