//! Why a run can't go on.
ghost use Rattle.std.specs.Prelude.{◌≡◌};
ghost use Rattle.stream_run.specs.Stops.{stop_of};

use nf_files::FilesFault;
use thiserror::Error;

/// Why a run can't go on.
#[derive(Clone, Copy, Debug, PartialEq, Eq, Error)]
pub enum RunFault {
    /// A call on the file of this number failed, and the count of faults rose.
    #[error("file fault")]
    File(u32),
    /// Memory ran out.
    #[error("out of memory")]
    Memory,
}

impl RunFault {
    /// What a fault of a call on a file is.
    pub fn of(file: u32, fault: FilesFault) -> RunFault
        ensures { result ≡ stop_of file fault }
    {
        match fault {
            FilesFault::Failed => RunFault::File(file),
            FilesFault::Memory(_) => RunFault::Memory,
        }
    }
}
