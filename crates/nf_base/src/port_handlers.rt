ghost use Rattle.std.specs.Prelude.{◌≡◌, IfOk, length, map};
ghost use Rattle.nf_base.specs.Handlers.{blocks_of};

use crate::handler::Handler;
use crate::limited::Limited;
use std::alloc::{AllocError, Global};

/// What a port does with its packets, by their version of IP. Without a handler of the second kind
/// IPv6 frames are skipped.
#[derive(Drop)]
pub struct PortHandlers {
    pub four: Handler,
    pub six: Option<Handler>,
}

impl PortHandlers {
    pub fn copy(&self, alloc: Global) -> Result<PortHandlers, AllocError>
        ensures { IfOk result (λ copy. blocks_of copy ≡ blocks_of self.now) }
    {
        let four = self.four.copy(alloc)?;
        let six = match &self.six {
            Some(handler) => Some(handler.copy(alloc)?),
            None => None,
        };
        Ok(PortHandlers { four, six })
    }
}

pub(crate) fn copied_handlers(
    alloc: Global,
    handlers: &Limited<PortHandlers, 4>,
) -> Result<Limited<PortHandlers, 4>, AllocError>
    ensures same { IfOk result (λ copy. map blocks_of copy ≡ map blocks_of handlers.now) }
    ensures all { IfOk result (λ copy. length copy ≡ length handlers.now) }
{
    let mut all = Limited::new(alloc);
    for one in handlers.as_slice() {
        all.push(one.copy(alloc)?)?;
    }
    Ok(all)
}
