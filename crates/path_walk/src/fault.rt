ghost use Rattle.std.specs.Prelude.{◌≡◌};
ghost use Rattle.path_walk.specs.declared.fault.WalkFault.TheVariants.{Memory};

use std::alloc::{AllocError, AllocFailed};
use thiserror::Error;

/// Why the paths of a handler are not listed.
#[derive(Clone, Copy, Debug, PartialEq, Eq, Error)]
pub enum WalkFault {
    /// The handler has more than 4,096 feasible paths.
    #[error("more than 4096 paths")]
    TooManyPaths,
    /// Memory ran out.
    #[error("out of memory")]
    Memory,
}

impl From<AllocError> for WalkFault {
    ghost from_gives = { λ _ e. e ≡ Memory };

    fn from(_: AllocError) -> Self {
        WalkFault::Memory
    }
}

impl<T: Drop> From<AllocFailed<T>> for WalkFault {
    ghost from_gives = { λ _ e. e ≡ Memory };

    fn from(_: AllocFailed<T>) -> Self {
        WalkFault::Memory
    }
}
