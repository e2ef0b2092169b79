//! A worker without a thread: whoever collects works its packets when it would wait for them.
ghost use Rattle.std.specs.Prelude.{◌≤◌, length};

use crate::pack::Pack;
use crate::queue_handler::QueueHandler;

mod work;

/// A worker in the thread of whoever sends and collects.
#[derive(Drop)]
pub struct InlineWorker<G> {
    queue_handler: QueueHandler<G>,
    /// Packets that are not worked yet.
    filling: Pack,
    /// Those that were worked last, and how many of their answers are collected.
    current: Pack,
    at: usize,
    /// How many packets are sent and not collected.
    in_flight: usize,
    ghost fits: { length filling.packets ≤ in_flight },
}
