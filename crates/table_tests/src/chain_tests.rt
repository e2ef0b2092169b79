//! Chains.
ghost use Rattle.std.specs.Prelude.{◌≡◌, IfOk, length};

use crate::calls::{allocate, expire_one, greatest, is_full, open, stamp, take};
use nf_base::share::Share;
use nf_base::size::Size;
use std::alloc::{AllocError, Global};
use std::test::Fail;
use vig_chain::Chain;

fn free(chain: &mut Chain, index: u32) -> bool {
    chain.free(index)
}

/// Touches a live index: false where there is no entry.
fn touch(chain: &mut Chain, index: u32, time: u64) -> bool {
    let is_live = chain.stamp(index).is_some();
    if is_live {
        chain.touch(index, time);
    }
    is_live
}

#[test]
fn a_touched_entry_outlives_others(rt: HostRuntime) -> Result<(), Fail> {
    let mut chain = open(rt.alloc(), Size::new(3), Share { queue: 0, of: 1 })?;
    assert!(rt; take(&mut chain, 2, 10));
    assert!(rt; take(&mut chain, 0, 11));
    assert!(rt; !take(&mut chain, 2, 12));
    assert!(rt; !take(&mut chain, 3, 12));
    assert!(rt; touch(&mut chain, 2, 20));
    assert_eq!(rt; expire_one(&mut chain, 25, 10), Some(0));
    assert_eq!(rt; expire_one(&mut chain, 25, 10), None);
    assert_eq!(rt; expire_one(&mut chain, u64::MAX, u64::MAX), None);
    assert!(rt; free(&mut chain, 2));
    assert!(rt; !free(&mut chain, 2));
    assert!(rt; !is_full(&chain));
    assert_eq!(rt; stamp(&chain, 2), None);
    Ok(())
}

/// The one queue of sixteen that owns no index of a chain of four.
#[test]
fn an_empty_share_is_full(rt: HostRuntime) -> Result<(), Fail> {
    let mut chain = open(rt.alloc(), Size::new(4), Share { queue: 9, of: 16 })?;
    assert!(rt; is_full(&chain));
    assert_eq!(rt; allocate(&mut chain, 1), None);
    Ok(())
}

/// A chain of three indices whose index 1 was taken at time 10.
fn taken(alloc: Global) -> Result<Chain, AllocError>
    ensures { IfOk result (λ chain. length chain.slots ≡ 3) }
{
    let mut chain = Chain::new(alloc, Size::new(3), Share { queue: 0, of: 1 })?;
    chain.take(1, 10);
    Ok(chain)
}

/// A copy of a chain of three indices, in place of an empty one of another share.
fn copied(alloc: Global, chain: &Chain) -> Result<Chain, AllocError>
    requires { length chain.now.slots ≡ 3 }
{
    let mut copy = Chain::new(alloc, Size::new(3), Share { queue: 1, of: 2 })?;
    copy.copy_from(chain);
    Ok(copy)
}

#[test]
fn a_copy_goes_on_by_itself(rt: HostRuntime) -> Result<(), Fail> {
    let mut chain = taken(rt.alloc())?;
    let mut copy = copied(rt.alloc(), &chain)?;
    assert_eq!(rt;
        (stamp(&copy, 0), stamp(&copy, 1), greatest(&copy)),
        (None, Some(10), 10)
    );
    assert!(rt; take(&mut copy, 0, 5));
    assert_eq!(rt; (stamp(&copy, 0), stamp(&chain, 0)), (Some(10), None));
    assert!(rt; free(&mut chain, 1));
    assert_eq!(rt; (stamp(&copy, 1), stamp(&chain, 1)), (Some(10), None));
    Ok(())
}
