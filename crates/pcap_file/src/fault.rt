//! Why a capture can't be read or written.
ghost use Rattle.std.specs.Prelude.{◌≡◌};
ghost use Rattle.pcap_file.specs.Causes.{cap_fault};

use nf_files::FilesFault;
use thiserror::Error;

/// Why a capture can't be read or written.
#[derive(Clone, Copy, Debug, PartialEq, Eq, Error)]
pub enum CapFault {
    /// The header is short, or its magic number or link type is none that is read.
    #[error("not a capture")]
    NotCapture,
    /// A call on a file failed, and the count of faults rose.
    #[error("file fault")]
    File,
    /// Memory ran out.
    #[error("out of memory")]
    Memory,
}

impl From<FilesFault> for CapFault {
    ghost from_gives = { λ fault e. e ≡ cap_fault fault };

    fn from(fault: FilesFault) -> Self {
        match fault {
            FilesFault::Failed => CapFault::File,
            FilesFault::Memory(_) => CapFault::Memory,
        }
    }
}
