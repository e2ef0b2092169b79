// Answers in the order dispatched.
ghost use Rattle.std.specs.Prelude.{◌≡◌, ◌≤◌, ◌+◌, ℕ, [], length};
ghost use Rattle.std.specs.Vec.{vec_len, vec_capacity};
ghost use Rattle.shard_machine.specs.Machine.{Setup, Machine};
ghost use Rattle.shard_core.specs.Sharded.{StandsFor, IsWhole};
ghost use Rattle.shard_core.specs.Plays.{SameSize};
ghost use Rattle.shard_rounds.specs.Rounds.{CollectedAll};

use shard_core::{Collected, Shards};

/// Collects until the next packet is not worked or none is left. There is room for the answers.
pub fn collect_all(shards: &mut Shards, got: &mut Vec<Collected>)
    requires whole { IsWhole shards.old }
    requires none { got.old.items ≡ [] }
    requires room { vec_len got.old + length shards.old.queues.items ≤ vec_capacity got.old }
    ensures all { (x : Setup) → (m : Machine) → StandsFor x m shards.old →
        CollectedAll x m got.new.items shards.new }
    ensures size { SameSize shards.old shards.new }
{
    while let Some(collected) = shards.collect() {
        got.push_reserved(collected);
    }
}
