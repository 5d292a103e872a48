ghost use Rattle.std.specs.Prelude.{◌≡◌};
ghost use Rattle.comp_mutator.specs.declared.fault.FlipFault.TheVariants as flip;

use heap_layout::OutOfMemory;
use thiserror::Error;

/// Why a heap was not flipped.
#[derive(Clone, Copy, Debug, PartialEq, Eq, Error)]
pub enum FlipFault {
    /// Out of memory.
    #[error("M8 OutOfMemory")]
    OutOfMemory,
    /// The number of mutators is not 1 to 64, or there are more fresh pages than the edition of the heap allows.
    #[error("M10 BadCounts")]
    BadCounts,
}

impl From<OutOfMemory> for FlipFault {
    ghost from_gives = { λ _ given. given ≡ flip.OutOfMemory };

    fn from(_fault: OutOfMemory) -> FlipFault {
        FlipFault::OutOfMemory
    }
}
