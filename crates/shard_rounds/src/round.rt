// One round.
ghost use Rattle.std.specs.Prelude.{◌≡◌, ◌≤◌, ◌<◌, ℕ, List, [], length, IfOk, OnOk, OnErr, All};
ghost use Rattle.std.specs.Vec.{vec_capacity};
ghost use Rattle.nf_base.specs.declared.packet.Packet as packet;
ghost use Rattle.nf_base.specs.Doors.{IsServed};
ghost use Rattle.nf_base.specs.Functions.{function_of};
ghost use Rattle.shard_machine.specs.Machine.{Setup, Machine};
ghost use Rattle.shard_core.specs.Sharded.{Sharded, StandsFor, IsWhole, SameButRooms};
ghost use Rattle.shard_core.specs.Plays.{SameSize};
ghost use Rattle.shard_rounds.specs.Rounds.{RanRound, all_dispatched};
ghost use Rattle.shard_rounds.specs.Workings.{WorkedAll};

use crate::collecting::collect_all;
use crate::giving::{give_all, take_room};
use crate::working::work_apart;
use nf_base::packet::Packet;
use nf_base::seq::Seq;
use nf_base::worker_turns::Turns;
use shard_core::{Collected, Shards, Stop};
use std::alloc::{AllocError, Global};
use std::thread::Threads;

/// What a round came to.
#[derive(Drop)]
pub struct Round {
    /// What was collected, in the order dispatched.
    pub handled: Seq<Collected>,
    /// The packet at which the next worker stopped, where all before it are collected.
    pub stop: Option<Stop>,
}

/// Gives a batch of packets to their queues, and takes the room for the answers of all that are then
/// there.
///
/// All room is taken before a packet is given: after an `Err` the shards are as before, but for their
/// room.
pub fn begin_round(
    alloc: Global,
    shards: &mut Shards,
    batch: &[Packet],
) -> Result<Vec<Collected>, AllocError>
    requires whole { IsWhole shards.old }
    requires ports { let ports = length shards.old.func.handlers in
        All (λ p. p.id.port < ports) batch.now }
    requires served { All (IsServed (function_of shards.old.func)) batch.now }
    ensures none { IfOk result (λ got. got.items ≡ []) }
    ensures room { IfOk result (λ got. length shards.new.queues.items ≤ vec_capacity got) }
    ensures given { (x : Setup) → (m : Machine) → StandsFor x m shards.old →
        OnOk result (StandsFor x (all_dispatched x batch.now m) shards.new) }
    ensures err { OnErr result (SameButRooms shards.old shards.new) }
    ensures stays { (x : Setup) → (m : Machine) → StandsFor x m shards.old →
        OnErr result (StandsFor x m shards.new) }
    ensures size { SameSize shards.old shards.new }
{
    let got = take_room(alloc, shards, batch.len())?;
    give_all(shards, batch);
    Ok(got)
}

/// Collects the answers of a round, in the order dispatched, into the room that was taken for them.
pub fn end_round(shards: &mut Shards, got: Vec<Collected>) -> Round
    requires whole { IsWhole shards.old }
    requires none { got.items ≡ [] }
    requires room { length shards.old.queues.items ≤ vec_capacity got }
    // Whatever machine the shards stood for, where a batch was given and its packets were worked since.
    ensures ran { (x : Setup) → (m : Machine) → (batch : List packet.Packet) → (before : Sharded) →
        StandsFor x m before → WorkedAll x (all_dispatched x batch m) shards.old →
        RanRound x m batch result shards.new }
    ensures size { SameSize shards.old shards.new }
{
    let mut handled = got;
    collect_all(shards, &mut handled);
    let handled = Seq::from_vec(handled);
    let stop = shards.stop();
    Round { handled, stop }
}

/// Gives a batch of packets to their queues, lets each worker work all that waits for it, in a
/// thread of its own where one can be made, and collects the answers in the order dispatched.
///
/// All room is taken before a packet is given or a worker starts: after an `Err` the shards are as
/// before, but for their room.
pub fn run_round<R: Threads + Sync, G: Turns + Sync>(
    rt: &R,
    alloc: Global,
    shards: &mut Shards,
    batch: &[Packet],
    turns: &G,
) -> Result<Round, AllocError>
    requires whole { IsWhole shards.old }
    requires ports { let ports = length shards.old.func.handlers in
        All (λ p. p.id.port < ports) batch.now }
    requires served { All (IsServed (function_of shards.old.func)) batch.now }
    // Whatever machine the shards stood for.
    ensures ran { (x : Setup) → (m : Machine) → StandsFor x m shards.old →
        IfOk result (λ round. RanRound x m batch.now round shards.new) }
    ensures err { OnErr result (SameButRooms shards.old shards.new) }
    ensures stays { (x : Setup) → (m : Machine) → StandsFor x m shards.old →
        OnErr result (StandsFor x m shards.new) }
    ensures size { SameSize shards.old shards.new }
{
    let got = begin_round(alloc, shards, batch)?;
    work_apart(rt, shards, turns);
    Ok(end_round(shards, got))
}
