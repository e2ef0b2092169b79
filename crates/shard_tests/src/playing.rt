//! Events and rounds of the policer's shards, and what they come to.
ghost use Rattle.std.specs.Prelude.{◌≡◌, ◌<◌, true, length, All};
ghost use Rattle.nf_base.specs.Doors.{IsServed};
ghost use Rattle.nf_base.specs.Functions.{function_of};
ghost use Rattle.shard_core.specs.Plays.{IsValid};
ghost use Rattle.shard_core.specs.Sharded.{IsWhole};

use nf_base::func::Func;
use nf_base::packet::Packet;
use nf_base::value::door_of;
use shard_core::{Collected, Event, Shards};
use shard_rounds::{Round, Turns, run_round};
use std::alloc::{AllocError, Global};
use std::thread::Threads;

/// Whether a packet is skipped, or its port has a handler for it.
fn is_served(func: &Func, packet: &Packet) -> bool
    ensures { result ≡ true → IsServed (function_of func.now) packet.now }
{
    match &packet.fields {
        Some(fields) => func.handler_at(door_of(packet.id.port, fields)).is_some(),
        None => true,
    }
}

/// Whether each event is one of a function's ports and handlers and of so many workers.
fn are_valid(func: &Func, events: &[Event], workers: u32) -> bool
    ensures { result ≡ true → All (IsValid func.now workers) events.now }
{
    for i in 0..events.len() {
        if !is_valid(func, &events[i], workers) {
            return false;
        }
    }
    true
}

fn is_valid(func: &Func, event: &Event, workers: u32) -> bool
    ensures { result ≡ true → IsValid func.now workers event.now }
{
    match event {
        Event::Dispatch(packet) => {
            packet.id.port < func.handlers.len() && is_served(func, packet)
        }
        Event::Work(w) => *w < workers,
        Event::Collect => true,
    }
}

/// Plays events, and tells what was collected.
pub fn play(
    alloc: Global,
    shards: &mut Shards,
    events: &[Event],
) -> Result<Vec<Collected>, AllocError>
    requires whole { IsWhole shards.old }
    requires two { length shards.old.workers ≡ 2 }
    ensures whole { IsWhole shards.new }
    ensures two { length shards.new.workers ≡ 2 }
{
    if !are_valid(shards.func(), events, 2) {
        return Err(AllocError);
    }
    shards.play(alloc, events)
}

/// Whether each packet is of one of so many ports.
fn have_ports(batch: &[Packet], ports: u32) -> bool
    ensures { result ≡ true → All (λ p. p.id.port < ports) batch.now }
{
    batch.iter().all(|p| p.id.port < ports)
}

/// Whether each packet is skipped, or its port has a handler for it.
fn are_served(func: &Func, batch: &[Packet]) -> bool
    ensures { result ≡ true → All (IsServed (function_of func.now)) batch.now }
{
    batch.iter().all(|p| is_served(func, p))
}

/// Runs a round.
pub fn round<R: Threads + Sync, G: Turns + Sync>(
    rt: &R,
    alloc: Global,
    shards: &mut Shards,
    batch: &[Packet],
    turns: &G,
) -> Result<Round, AllocError>
    requires { IsWhole shards.old }
    ensures { IsWhole shards.new }
{
    let ports = shards.func().handlers.len();
    if !have_ports(batch, ports) || !are_served(shards.func(), batch) {
        return Err(AllocError);
    }
    run_round(rt, alloc, shards, batch, turns)
}
