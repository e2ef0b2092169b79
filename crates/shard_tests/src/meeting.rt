//! Two workers, one of which waits for the other.
use nf_base::packet::PacketId;
use shard_rounds::Turns;
use std::sync::atomic::{AtomicU64, Ordering};

/// Reads of a flag after which a worker gives up.
const READS: u64 = 200_000_000;

/// Holds worker 0 before its packet until worker 1 has handled one.
#[derive(Drop)]
pub struct Meeting {
    handled: AtomicU64,
    gave_up: AtomicU64,
}

impl Meeting {
    /// Before any packet.
    pub fn new() -> Meeting {
        Meeting {
            handled: AtomicU64::new(0),
            gave_up: AtomicU64::new(0),
        }
    }

    /// Whether worker 0 saw that worker 1 had handled a packet, each time it waited.
    pub fn was_kept(&self) -> bool {
        self.gave_up.load(Ordering::SeqCst) == 0
    }
}

impl Turns for Meeting {
    fn before(&self, worker: u32, _packet: PacketId) {
        if worker != 0 {
            return;
        }
        for _ in 0..READS {
            if self.handled.load(Ordering::SeqCst) > 0 {
                return;
            }
        }
        self.gave_up.store(1, Ordering::SeqCst);
    }

    fn after(&self, worker: u32, _packet: PacketId) {
        if worker == 1 {
            self.handled.store(1, Ordering::SeqCst);
        }
    }
}
