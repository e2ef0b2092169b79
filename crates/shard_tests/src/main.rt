//! Plays events of a policer's two shards, runs rounds of them in threads, and prints what was
//! collected.
#![tactic(auto)]

mod meeting;
mod playing;
mod policer;

use meeting::Meeting;
use playing::{play, round};
use policer::{FAR, NEAR, open, packet, packet_of_ipv6};
use shard_core::{Collected, Event};
use shard_rounds::{Idle, Round};
use std::io;
use std::thread::Threads;

fn tell(rt: &HostRuntime, collected: &Collected) -> io::Result<()> {
    println!(rt;
        "queue {}, packet {} {}: {:?}, entries {:?}",
        collected.queue,
        collected.packet.id.port,
        collected.packet.id.seq,
        collected.done.action,
        collected.done.picks.as_slice()
    )
}

fn tell_round(rt: &HostRuntime, round: &Round) -> io::Result<()> {
    for collected in round.handled.as_slice() {
        tell(rt, collected)?;
    }
    match &round.stop {
        Some(stop) => println!(rt;
            "stop: chain {}, queue {}, packet {} {}",
            stop.chain, stop.queue, stop.packet.id.port, stop.packet.id.seq
        ),
        None => println!(rt; "no stop"),
    }
}

/// Plays events of new shards.
fn tell_events(rt: &HostRuntime, events: &[Event]) -> io::Result<()> {
    let alloc = rt.alloc();
    let mut shards = open(alloc)?;
    let got = play(alloc, &mut shards, events)?;
    for collected in got.as_slice() {
        tell(rt, collected)?;
    }
    println!(rt; "collected {}", got.len())
}

/// A packet of queue 1, dispatched.
fn far() -> Event {
    Event::Dispatch(packet(0, 0, FAR))
}

/// A packet of queue 0, dispatched.
fn near() -> Event {
    Event::Dispatch(packet(1, 10, NEAR))
}

/// Two packets' events in three orders.
fn tell_orders(rt: &HostRuntime) -> io::Result<()> {
    // the workers in either order
    tell_events(
        rt,
        &[
            far(),
            near(),
            Event::Work(1),
            Event::Work(0),
            Event::Collect,
            Event::Collect,
        ],
    )?;
    tell_events(
        rt,
        &[
            far(),
            near(),
            Event::Work(0),
            Event::Work(1),
            Event::Collect,
            Event::Collect,
        ],
    )?;
    // the second packet is worked, and the first isn't
    tell_events(rt, &[far(), near(), Event::Work(0), Event::Collect])
}

/// What the first round of `tell_rounds` does, event by event.
fn tell_as_events(rt: &HostRuntime) -> io::Result<()> {
    tell_events(
        rt,
        &[
            far(),
            near(),
            Event::Dispatch(packet(2, 10, FAR)),
            Event::Work(0),
            Event::Work(1),
            Event::Work(1),
            Event::Collect,
            Event::Collect,
            Event::Collect,
        ],
    )
}

/// Two rounds of the same shards. The second ends at a full share.
fn tell_rounds<R: Threads + Sync>(rt: &HostRuntime, threads: &R) -> io::Result<()> {
    let alloc = rt.alloc();
    let mut shards = open(alloc)?;
    let first = round(
        threads,
        alloc,
        &mut shards,
        &[packet(0, 0, FAR), packet(1, 10, NEAR), packet(2, 10, FAR)],
        &Idle,
    )?;
    tell_round(rt, &first)?;
    let second = round(
        threads,
        alloc,
        &mut shards,
        &[
            packet(3, 11, FAR + 1),
            packet(4, 12, FAR + 2),
            packet(5, 12, FAR + 3),
            packet(6, 12, NEAR),
        ],
        &Idle,
    )?;
    tell_round(rt, &second)
}

/// A round in which the first worker waits for the second.
fn tell_meeting<R: Threads + Sync>(rt: &HostRuntime, threads: &R) -> io::Result<()> {
    let alloc = rt.alloc();
    let mut shards = open(alloc)?;
    let meeting = Meeting::new();
    let met = round(
        threads,
        alloc,
        &mut shards,
        &[packet(0, 0, NEAR), packet(1, 10, FAR)],
        &meeting,
    )?;
    tell_round(rt, &met)?;
    println!(rt; "the workers met: {}", meeting.was_kept())
}

/// A packet of IPv6 at a port that has a handler for it.
fn tell_ipv6(rt: &HostRuntime) -> io::Result<()> {
    tell_events(
        rt,
        &[
            Event::Dispatch(packet_of_ipv6()),
            Event::Work(1),
            Event::Collect,
        ],
    )
}

fn main(rt: HostRuntime) -> io::Result<()> {
    tell_orders(&rt)?;
    tell_as_events(&rt)?;
    tell_rounds(&rt, &rt)?;
    tell_meeting(&rt, &rt)?;
    tell_ipv6(&rt)
}
