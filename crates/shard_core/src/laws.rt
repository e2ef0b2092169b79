//! What keys are worth to shards, and what each value stands on. Each function's contract is a law;
//! its body does nothing.
ghost use Rattle.shard_core.specs.Apart.{WorksAreCounted};
ghost use Rattle.shard_core.specs.Keyed.{KeysGiveOneQueue};
ghost use Rattle.shard_core.specs.Sharded.{SetupsExist};

/// Under keys by which packets that meet have equal hashes, packets that meet have one queue,
/// however many queues there are.
pub fn keys_give_one_queue()
    ensures { KeysGiveOneQueue }
{}

/// Shards have a setup, however many queues there are: so no clause that speaks of each setup of a
/// value is empty.
pub fn setups_exist()
    ensures { SetupsExist }
{}

/// The calls of workers that were taken apart are counted one by one, each for its worker.
pub fn works_are_counted()
    ensures { WorksAreCounted }
{}
