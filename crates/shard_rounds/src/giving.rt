// Room for a batch, and its packets to their queues.
ghost use Rattle.std.specs.Prelude.{◌≡◌, ◌≤◌, ◌<◌, ◌+◌, ℕ, [], length, IfOk, OnOk, OnErr, All};
ghost use Rattle.std.specs.Vec.{vec_len, vec_capacity};
ghost use Rattle.nf_base.specs.Doors.{IsServed};
ghost use Rattle.nf_base.specs.Functions.{function_of};
ghost use Rattle.shard_machine.specs.Machine.{Setup, Machine};
ghost use Rattle.shard_machine.specs.Events.{dispatched};
ghost use Rattle.shard_core.specs.Sharded.{StandsFor, IsWhole, SameButRooms, HasRoom};
ghost use Rattle.shard_core.specs.Plays.{SameSize};
ghost use Rattle.shard_rounds.specs.Rounds.{all_dispatched};

use nf_base::packet::Packet;
use shard_core::{Collected, Shards};
use std::alloc::{AllocError, Global};

/// Makes room in the shards for so many packets, and for the answers of all that are then there.
pub fn take_room(alloc: Global, shards: &mut Shards, n: usize) -> Result<Vec<Collected>, AllocError>
    ensures none { IfOk result (λ got. got.items ≡ []) }
    ensures answers { IfOk result (λ got.
        length shards.new.queues.items + n ≤ vec_capacity got) }
    ensures room { OnOk result (HasRoom n shards.new) }
    ensures same { SameButRooms shards.old shards.new }
    ensures size { SameSize shards.old shards.new }
    ensures stands { (x : Setup) → (m : Machine) → StandsFor x m shards.old →
        StandsFor x m shards.new }
{
    shards.reserve(n)?;
    match shards.left().checked_add(n) {
        Some(all) => Vec::with_capacity(alloc, all),
        None => Err(AllocError),
    }
}

/// Gives packets to their queues, one after another: there is room for all.
pub fn give_all(shards: &mut Shards, batch: &[Packet])
    requires whole { IsWhole shards.old }
    requires ports { let ports = length shards.old.func.handlers in
        All (λ p. p.id.port < ports) batch.now }
    requires served { All (IsServed (function_of shards.old.func)) batch.now }
    requires room { HasRoom (length batch.now) shards.old }
    ensures stands { (x : Setup) → (m : Machine) → StandsFor x m shards.old →
        StandsFor x (all_dispatched x batch.now m) shards.new }
    ensures left { let queued = length shards.old.queues.items in
        length shards.new.queues.items ≡ queued + length batch.now }
    ensures size { SameSize shards.old shards.new }
{
    for i in 0..batch.len() {
        give_one(shards, &batch[i]);
    }
}

/// Gives a packet to its queue: there is room for it.
fn give_one(shards: &mut Shards, packet: &Packet)
    requires whole { IsWhole shards.old }
    requires port { packet.now.id.port < length shards.old.func.handlers }
    requires served { IsServed (function_of shards.old.func) packet.now }
    requires room { HasRoom 1 shards.old }
    ensures stands { (x : Setup) → (m : Machine) → StandsFor x m shards.old →
        StandsFor x (dispatched x packet.now m) shards.new }
    ensures left { length shards.new.queues.items ≡ length shards.old.queues.items + 1 }
    ensures room { (n : ℕ) → HasRoom (n + 1) shards.old → HasRoom n shards.new }
    ensures size { SameSize shards.old shards.new }
{
    match shards.dispatch(*packet) {
        Ok(()) => {}
        Err(_) => unreachable!(),
    }
}
