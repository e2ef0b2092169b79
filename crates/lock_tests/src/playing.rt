//! Events, one after another.

use lock_core::{Event, Log, Placed};
use std::alloc::{AllocError, Global};

/// Plays an event, if it may come now.
pub fn step(alloc: Global, log: &mut Log, event: &Event) -> Result<Option<Placed>, AllocError> {
    if !log.is_valid(alloc, event)? {
        return Ok(None);
    }
    let mut placed = log.play(alloc, &[*event])?;
    Ok(placed.pop())
}
