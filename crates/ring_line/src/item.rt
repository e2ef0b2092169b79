//! What goes out to a worker.

use crate::pack::Pack;

/// Packets, or the end of work: an item of its own, so that all that was sent before it comes first.
#[derive(Drop)]
pub enum Item {
    Work(Pack),
    End,
}
