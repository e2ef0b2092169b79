//! Laws of runs in mode `shard`. Each function's contract is a law; its body does nothing.
ghost use Rattle.sharded_run.specs.Laws.{TurnsAreOwn, SharesAreFull, QueuesAreOfHashes, NextIsNext};

/// Each packet's worker is one of so many, and each index that a packet is given is that of its worker
/// modulo their number.
pub fn turns_are_own()
    ensures { TurnsAreOwn }
{}

/// A run stops where the handler of the next packet comes to a `new` with no key taken, and no index of
/// the packet's share of that chain is vacant.
pub fn shares_are_full()
    ensures { SharesAreFull }
{}

/// A packet's queue is the low bits of its hash that index the table, modulo the number of workers, and 0
/// where it has none.
pub fn queues_are_of_hashes()
    ensures { QueuesAreOfHashes }
{}

/// The packet that a run stops at is the next one in capture order.
pub fn next_is_next()
    ensures { NextIsNext }
{}
