//! Workers of all queues, whose answers are collected in the order in which the packets were sent.
ghost use Rattle.std.specs.Prelude.{◌≡◌, ◌≤◌, ◌<◌, [], length, All};
ghost use Rattle.std.specs.Vec.{vec_capacity};
ghost use Rattle.std.specs.VecDeque.{deque_capacity};
ghost use Rattle.ring_line.specs.QueueWorkers.{all_in_flight};

use crate::queue_worker::QueueWorker;
use nf_base::packet::Packet;
use nf_base::seq::Seq;
use shard_core::{Collected, Stop};
use short_answers::Told;
use std::collections::VecDeque;
use vig_tables::Tables;

mod finish;
mod start;
mod travel;

/// How many packets are in flight at most: 64 for each of 16 queues.
const ALL_IN_FLIGHT: usize = 1024;

/// What is collected.
#[derive(Drop)]
pub enum Answered {
    /// The answer to the first packet that was sent and not collected.
    Done(Collected),
    /// That packet's share has no index left.
    Stop(Stop),
}

/// What has come of the first packet that was sent and not collected.
#[derive(Clone, Copy, Debug, PartialEq, Eq)]
pub enum First {
    /// Its answer lies ready.
    Answer,
    /// Its share has no index left.
    Stop(Stop),
}

/// The answer to the first packet that was sent and not collected, where it lies.
#[derive(Clone, Copy)]
pub struct CollectedRef<'a> {
    pub packet: &'a Packet,
    pub queue: u32,
    pub told: Told<'a>,
}

/// A worker of each queue, and the queues of the packets that were sent and not collected, in order.
/// Neither sending nor collecting takes memory.
#[derive(Drop)]
pub struct Line<G> {
    queue_workers: Seq<QueueWorker<G>>,
    order: VecDeque<u32>,
    /// Room for the workers' tables.
    parts: Vec<Tables>,
    /// That of the last handled packet that was collected, in nanoseconds: 0 before the first.
    time: u64,
    ghost flights: { all_in_flight queue_workers ≡ length order.items },
    ghost below: { All (λ q. q < length queue_workers) order.items },
    ghost room: { 1024 ≤ deque_capacity order },
    ghost none: { parts.items ≡ [] },
    ghost enough: { length queue_workers ≤ vec_capacity parts },
}
