//! What the calls of a chain answer in a short run: five indices, of which the second of two queues owns 1 and 3.
use crate::calls::{allocate, due, expire_one, greatest, is_full, open, stamp, take};
use nf_base::share::Share;
use nf_base::size::Size;
use std::alloc::{AllocError, Global};
use std::test::Fail;
use vig_chain::Chain;

/// Two indices, the lesser first: no order is said in which indices are given out, or those of one
/// stamp expire.
fn in_order(a: Option<u32>, b: Option<u32>) -> Option<(u32, u32)> {
    let (a, b) = (a?, b?);
    Some((a.min(b), a.max(b)))
}

/// What a chain answers as it is filled: two indices, and what a third call and a taking answer.
#[derive(Clone, Copy)]
struct Filled {
    given: Option<(u32, u32)>,
    third: Option<u32>,
    taken: bool,
}

fn fill(chain: &mut Chain) -> Filled {
    let first = allocate(chain, 7);
    let second = allocate(chain, 3);
    let third = allocate(chain, 9);
    Filled {
        given: in_order(first, second),
        third,
        taken: take(chain, 0, 9),
    }
}

/// What a full chain says of itself.
#[derive(Clone, Copy)]
struct Full {
    is_full: bool,
    stamps: (Option<u64>, Option<u64>),
    due: (bool, bool),
}

fn ask(chain: &Chain) -> Full {
    Full {
        is_full: is_full(chain),
        stamps: (stamp(chain, 1), stamp(chain, 3)),
        due: (due(chain, 7, 0), due(chain, 8, 0)),
    }
}

/// What expires at 7 and at 8 nanoseconds, and once more.
#[derive(Clone, Copy)]
struct Expired {
    early: Option<u32>,
    both: Option<(u32, u32)>,
    again: Option<u32>,
}

fn expire(chain: &mut Chain) -> Expired {
    let early = expire_one(chain, 7, 0);
    let first = expire_one(chain, 8, 0);
    let second = expire_one(chain, 8, 0);
    Expired {
        early,
        both: in_order(first, second),
        again: expire_one(chain, 8, 0),
    }
}

/// What a chain answers in its short run, and last its greatest stamp.
fn short_run(alloc: Global) -> Result<(Filled, Full, Expired, u64), AllocError> {
    let mut chain = open(alloc, Size::new(5), Share { queue: 1, of: 2 })?;
    let filled = fill(&mut chain);
    let full = ask(&chain);
    let expired = expire(&mut chain);
    Ok((filled, full, expired, greatest(&chain)))
}

#[test]
fn a_short_run_is_answered_so(rt: HostRuntime) -> Result<(), Fail> {
    let (filled, full, expired, greatest) = short_run(rt.alloc())?;
    assert_eq!(rt;
        (filled.given, filled.third, filled.taken),
        (Some((1, 3)), None, false)
    );
    assert_eq!(rt;
        (full.is_full, full.stamps, full.due),
        (true, (Some(7), Some(7)), (false, true))
    );
    assert_eq!(rt;
        (expired.early, expired.both, expired.again),
        (None, Some((1, 3)), None)
    );
    assert_eq!(rt; greatest, 7);
    Ok(())
}
