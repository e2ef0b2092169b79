//! Two workers, one of which waits for the other.
use nf_base::packet::PacketId;
use nf_base::worker_turns::Turns;
use std::sync::atomic::{AtomicU64, Ordering};

/// Reads of a count after which a worker gives up.
const READS: u64 = 200_000_000;

/// How many have come so far, and whether one gave up.
#[derive(Drop)]
pub struct Meeting {
    come: AtomicU64,
    gave_up: AtomicU64,
}

impl Meeting {
    /// Before anybody has come.
    pub fn new() -> Meeting {
        Meeting {
            come: AtomicU64::new(0),
            gave_up: AtomicU64::new(0),
        }
    }

    /// Whether nobody gave up.
    pub fn was_kept(&self) -> bool {
        self.gave_up.load(Ordering::SeqCst) == 0
    }

    /// Whether so many have come.
    pub fn has_come(&self, count: u64) -> bool {
        self.come.load(Ordering::SeqCst) == count
    }

    /// One more has come.
    pub fn comes(&self) {
        self.come.fetch_add(1, Ordering::SeqCst);
    }

    /// Waits until so many have come, or gives up.
    pub fn waits_for(&self, count: u64) {
        for _ in 0..READS {
            if self.come.load(Ordering::SeqCst) >= count {
                return;
            }
        }
        self.gave_up.store(1, Ordering::SeqCst);
    }
}

/// Worker 0 is held before its packet until worker 1 has handled one.
impl Turns for Meeting {
    fn before(&self, worker: u32, _packet: PacketId) {
        if worker == 0 {
            self.waits_for(1);
        }
    }

    fn after(&self, worker: u32, _packet: PacketId) {
        if worker == 1 {
            self.comes();
        }
    }
}
