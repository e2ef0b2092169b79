//! Calls on chains, which promise nothing: what the answers are is compared, and not proved.
use nf_base::share::Share;
use nf_base::size::Size;
use std::alloc::{AllocError, Global};
use vig_chain::Chain;

/// A chain of so many indices, all of them vacant, whose share's own are given out.
pub fn open(alloc: Global, size: Size, share: Share) -> Result<Chain, AllocError> {
    Chain::new(alloc, size, share)
}

pub fn allocate(chain: &mut Chain, time: u64) -> Option<u32> {
    chain.allocate(time)
}

pub fn take(chain: &mut Chain, index: u32, time: u64) -> bool {
    chain.take(index, time)
}

pub fn stamp(chain: &Chain, index: u32) -> Option<u64> {
    chain.stamp(index)
}

pub fn greatest(chain: &Chain) -> u64 {
    chain.greatest()
}

pub fn is_full(chain: &Chain) -> bool {
    chain.is_full()
}

pub fn due(chain: &Chain, time: u64, lifetime: u64) -> bool {
    chain.due(time, lifetime)
}

pub fn expire_one(chain: &mut Chain, time: u64, lifetime: u64) -> Option<u32> {
    chain.expire_one(time, lifetime)
}
