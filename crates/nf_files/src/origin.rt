// Which file of the system was opened.
ghost use Rattle.std.specs.Prelude.{◌≡◌};
ghost use Rattle.nf_files.specs.Origins.{is_same, node_of};

use std::fs::Metadata;
use std::os::unix::fs::MetadataExt;

/// A file of the system, by its device and its number there. Names may share one.
#[derive(Clone, Copy, Debug, PartialEq, Eq)]
pub(crate) struct Node {
    pub(crate) device: u64,
    pub(crate) number: u64,
}

impl Node {
    // The file of a device and a number there. No file has the number 0: it says that none is told.
    fn numbered(device: u64, number: u64) -> Option<Node>
        ensures { result ≡ node_of device number }
    {
        if number == 0 {
            None
        } else {
            Some(Node { device, number })
        }
    }

    /// The file that the system tells of, if it tells which it is.
    pub(crate) fn of(told: &Metadata) -> Option<Node> {
        Node::numbered(told.dev(), told.ino())
    }
}

/// Where the bytes of an input come from.
#[derive(Drop)]
pub(crate) struct Origin {
    pub(crate) name: Vec<u8>,
    pub(crate) node: Option<Node>,
}

impl Origin {
    /// Whether this is the file that was opened under a name.
    pub(crate) fn is_same(&self, name: &str, node: Option<Node>) -> bool
        ensures { result ≡ is_same self.now name.now node }
    {
        match (self.node, node) {
            (Some(own), Some(other)) => own == other,
            _ => self.name.as_slice() == name.as_bytes(),
        }
    }
}
