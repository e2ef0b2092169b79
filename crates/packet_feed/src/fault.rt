//! Why captures can't be read.
ghost use Rattle.std.specs.Prelude.{◌≡◌};
ghost use Rattle.packet_feed.specs.Faults.{fault_at};

use pcap_file::CapFault;
use thiserror::Error;

/// Why captures can't be read.
#[derive(Clone, Copy, Debug, PartialEq, Eq, Error)]
pub enum FeedFault {
    /// The capture of this port has a short or wrong header of its format, and that of no lesser port
    /// has.
    #[error("not a capture at port {port}")]
    NotCapture { port: u32 },
    /// A call on the file of this port's capture failed, and the count of faults rose.
    #[error("file fault at port {port}")]
    File { port: u32 },
    /// Memory ran out.
    #[error("out of memory")]
    Memory,
}

impl FeedFault {
    /// What a fault of the capture of a port is.
    pub(crate) fn at(port: u32, fault: CapFault) -> FeedFault
        ensures { result ≡ fault_at port fault }
    {
        match fault {
            CapFault::NotCapture => FeedFault::NotCapture { port },
            CapFault::File => FeedFault::File { port },
            CapFault::Memory => FeedFault::Memory,
        }
    }
}
