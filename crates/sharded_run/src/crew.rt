//! The workers of a run, and the packets whose answers are not written yet.
ghost use Rattle.std.specs.Prelude.{◌≡◌, length, is_some, true, Some};
ghost use Rattle.shard_core.specs.declared.collected.Stop.{Stop};

use crate::frames::Frames;
use crate::plain_answer::PlainAnswer;
use crate::result::ShareFull;
use crate::router::Router;
use ring_line::Line;
use shard_core::Stop;

mod start;

/// A worker of each queue, with the frames of the packets that were sent and not collected.
#[derive(Drop)]
pub struct Crew<G> {
    pub(crate) line: Line<G>,
    pub(crate) frames: Frames,
    pub(crate) router: Router,
    /// How many ports there are.
    pub(crate) ports: u32,
    pub(crate) plain: PlainAnswer,
    /// The share stop that was met, if one was.
    pub(crate) met: Option<Stop>,
    ghost as_many: { length frames ≡ length line.order.items },
    ghost queues: { length line.queue_workers ≡ router.workers },
}

impl<G> Crew<G> {
    /// The share stop that was met behind so many packets.
    pub(crate) fn share_full(&self, packets: u32) -> ShareFull
        requires { is_some self.now.met ≡ true }
        ensures { (stop : Stop) → self.now.met ≡ Some stop →
            result ≡ record { stop = stop; packets = packets } }
    {
        match self.met {
            Some(stop) => ShareFull { stop, packets },
            None => unreachable!(),
        }
    }
}
