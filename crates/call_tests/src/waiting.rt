// Workers and seats that wait for one another, and a gate that refuses.
use lock_mode::{Gate, MakeFault, Naming, PackGate, TableCopy, TableEntry, TablePair, TableReader};
use maestro_cli::Turns;
use nf_base::packet::PacketId;
use std::alloc::Global;
use std::sync::Wait;
use std::sync::atomic::{AtomicU64, Ordering};

/// Reads of a count after which a worker gives up.
const READS: u64 = 200_000_000;

/// How many are waited for, how many have come so far, and whether one gave up.
#[derive(Drop)]
pub struct Meeting {
    wanted: u64,
    come: AtomicU64,
    gave_up: AtomicU64,
}

impl Meeting {
    /// Before anybody has come.
    pub fn new(wanted: u64) -> Meeting {
        Meeting {
            wanted,
            come: AtomicU64::new(0),
            gave_up: AtomicU64::new(0),
        }
    }

    /// Whether nobody gave up, and as many have come as were waited for.
    pub fn was_kept(&self) -> bool {
        self.gave_up.load(Ordering::SeqCst) == 0 && self.come.load(Ordering::SeqCst) >= self.wanted
    }

    fn comes(&self) {
        self.come.fetch_add(1, Ordering::SeqCst);
    }

    fn waits(&self) {
        for _ in 0..READS {
            if self.come.load(Ordering::SeqCst) >= self.wanted {
                return;
            }
        }
        self.gave_up.store(1, Ordering::SeqCst);
    }
}

/// Worker 0 is held before its packet until worker 1 has handled as many as are wanted.
impl Turns for Meeting {
    fn before(&self, worker: u32, _packet: PacketId) {
        if worker == 0 {
            self.waits();
        }
    }

    fn after(&self, worker: u32, _packet: PacketId) {
        if worker == 1 {
            self.comes();
        }
    }
}

/// A gate whose seats wait for one another inside the tables, each the first time that it is there.
#[derive(Drop)]
pub struct Doors<'a> {
    gate: PackGate,
    meeting: &'a Meeting,
    entered: bool,
}

impl<'a> Doors<'a> {
    pub fn new(meeting: &'a Meeting) -> Doors<'a> {
        Doors {
            gate: PackGate::new(),
            meeting,
            entered: false,
        }
    }
}

impl<'a> Gate for Doors<'a> {
    ghost refused = { λ g. g.gate.refused };

    fn seat(&self) -> Doors<'a> {
        Doors {
            gate: self.gate.seat(),
            meeting: self.meeting,
            entered: false,
        }
    }

    fn enter<J: Naming>(
        &mut self,
        reader: TableReader<J>,
    ) -> Result<TableEntry<J>, TableReader<J>> {
        let entry = self.gate.enter(reader)?;
        if !self.entered {
            self.entered = true;
            self.meeting.comes();
            self.meeting.waits();
        }
        Ok(entry)
    }

    fn make<J: Naming, R: Wait>(
        &mut self,
        rt: &R,
        alloc: Global,
        first: TableCopy<J>,
        second: TableCopy<J>,
        seats: u32,
    ) -> Result<TablePair<J>, MakeFault> {
        self.gate.make(rt, alloc, first, second, seats)
    }
}

/// Refuses everybody, and counts it.
#[derive(Drop)]
pub struct Shut {
    refused: u64,
}

impl Shut {
    pub fn new() -> Shut {
        Shut { refused: 0 }
    }
}

impl Gate for Shut {
    ghost refused = { λ g. g.refused };

    fn seat(&self) -> Shut {
        Shut { refused: 0 }
    }

    fn enter<J: Naming>(
        &mut self,
        reader: TableReader<J>,
    ) -> Result<TableEntry<J>, TableReader<J>> {
        self.refused = self.refused.saturating_add(1);
        Err(reader)
    }

    fn make<J: Naming, R: Wait>(
        &mut self,
        _rt: &R,
        _alloc: Global,
        first: TableCopy<J>,
        second: TableCopy<J>,
        _seats: u32,
    ) -> Result<TablePair<J>, MakeFault> {
        drop(first);
        drop(second);
        self.refused = self.refused.saturating_add(1);
        Err(MakeFault::Refused)
    }
}
