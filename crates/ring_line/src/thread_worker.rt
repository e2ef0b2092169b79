//! One worker behind a ring out to it and a ring back, which carry packs.
ghost use Rattle.std.specs.Prelude.{◌≡◌, ◌≤◌, length};
ghost use Rattle.rtrb.specs.Ring.{IsPair};

use crate::bell::Looks;
use crate::halt::Halt;
use crate::item::Item;
use crate::pack::Pack;
use crate::worker_ends::{WorkerInput, WorkerResult};
use rtrb::{Consumer, Producer};
use std::sync::Arc;
use std::thread::{Parker, PromisedHandle};

pub(crate) mod start;
mod travel;

/// What comes next of a worker.
#[derive(Clone, Copy, Debug, PartialEq, Eq)]
pub enum Next {
    /// The answer to the first packet that was sent and not collected lies ready.
    Ready,
    /// The worker's share ended at it.
    Halted(Halt),
    /// It has not come yet.
    Nothing,
}

/// A worker in a thread of its own, with the packets that were sent to it and not collected.
///
/// There are as many packs as packets may be in flight, one that is filled and one whose answers
/// are collected, so neither sending nor collecting takes memory.
#[derive(Drop)]
pub struct ThreadWorker {
    to: Producer<Item>,
    back: Consumer<Pack>,
    child: PromisedHandle<WorkerResult, WorkerInput>,
    /// The worker's, and that of whoever collects.
    bell: Arc<Parker>,
    own_bell: Arc<Parker>,
    /// How often whoever collects looks again before it sleeps.
    looks: Looks,
    /// Packets that were not pushed yet.
    filling: Pack,
    /// The last pack that came back, and how many of its answers are collected.
    current: Pack,
    at: usize,
    spares: Vec<Pack>,
    /// How many packets are sent and not collected.
    in_flight: usize,
    /// How many packets fill a pack.
    size: usize,
    ghost paired: { IsPair to child.promise.ends.value.from × IsPair child.promise.ends.value.to back },
    ghost fits: { length filling.packets ≤ in_flight },
}
