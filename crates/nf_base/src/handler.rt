ghost use Rattle.std.specs.Prelude.{◌≡◌, IfOk};
ghost use Rattle.nf_base.specs.Limits.{IsWithinLimits};
ghost use Rattle.nf_base.specs.View.{block_of};

use crate::block::Block;
use crate::copy::copied;
use std::alloc::{AllocError, Global};

/// What a port does with its packets: at most 32 `get`, `find` and `new`, at most 16 `new`, and at
/// most 64 blocks open in one another.
#[derive(Drop)]
pub struct Handler {
    pub block: Block,
    pub ghost within: { IsWithinLimits block },
}

impl Handler {
    pub fn copy(&self, alloc: Global) -> Result<Handler, AllocError>
        ensures { IfOk result (λ copy. block_of copy.block ≡ block_of self.now.block) }
    {
        let block = copied(alloc, &self.block)?;
        Ok(Handler { block })
    }
}
