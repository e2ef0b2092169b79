ghost use Rattle.std.specs.Prelude.{◌≡◌};
ghost use Rattle.nf_meaning.specs.declared.fault.StepFault.TheVariants.{Memory};

use std::alloc::{AllocError, AllocFailed};
use thiserror::Error;

/// Why a packet has no step.
#[derive(Clone, Copy, Debug, PartialEq, Eq, Error)]
pub enum StepFault {
    /// A choice is not free, is missing or is left over.
    #[error("a choice is not free, is missing or is left over")]
    BadChoice,
    /// The allocator gave no memory.
    #[error("no memory is left")]
    Memory,
}

impl From<AllocError> for StepFault {
    ghost from_gives = { λ _ e. e ≡ Memory };

    fn from(_: AllocError) -> Self {
        StepFault::Memory
    }
}

impl<T: Drop> From<AllocFailed<T>> for StepFault {
    ghost from_gives = { λ _ e. e ≡ Memory };

    fn from(_: AllocFailed<T>) -> Self {
        StepFault::Memory
    }
}
