// Why a call on a file has no answer.
ghost use Rattle.std.specs.Prelude.{◌≡◌};
ghost use Rattle.nf_files.specs.declared.fault.FilesFault.TheVariants.{Memory};

use std::alloc::{AllocError, AllocFailed};
use thiserror::Error;

/// Why a call on a file has no answer.
#[derive(Clone, Copy, Debug, PartialEq, Eq, Error)]
pub enum FilesFault {
    /// The outside failed, and its count of faults rose.
    #[error("file fault")]
    Failed,
    /// Memory ran out.
    #[error("out of memory")]
    Memory(AllocError),
}

impl From<AllocError> for FilesFault {
    ghost from_gives = { λ _ e. e ≡ Memory (record {}) };

    fn from(error: AllocError) -> Self {
        FilesFault::Memory(error)
    }
}

impl<T: Drop> From<AllocFailed<T>> for FilesFault {
    ghost from_gives = { λ _ e. e ≡ Memory (record {}) };

    fn from(_: AllocFailed<T>) -> Self {
        FilesFault::Memory(AllocError)
    }
}
