// A name that was asked for.

use crate::kind::Kind;

/// A name that was asked to be opened or created.
#[derive(Debug, Drop)]
pub struct Opening {
    pub name: Vec<u8>,
    /// What it was asked for: to be read, or to be emptied and written.
    pub kind: Kind,
}
