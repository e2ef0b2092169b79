//! What a worker is given, what it hands back, and that the one keeps what the other promised.

use crate::halt::Halt;
use crate::item::Item;
use crate::pack::Pack;
use nf_base::func::Func;
use rtrb::{Consumer, Producer};
use std::snapshot::Snapshot;
use std::thread::Promise;
use vig_tables::Tables;

/// A worker's ends of its two rings.
#[derive(Drop)]
pub struct RingEnds {
    pub from: Consumer<Item>,
    pub to: Producer<Pack>,
}

/// What a worker hands back at its end: the ends of its rings, its tables, and where its share
/// ended, if it did.
#[derive(Drop)]
pub struct WorkerResult {
    pub ends: RingEnds,
    pub tables: Tables,
    pub halt: Option<Halt>,
}

/// What a worker was given: the ends of its rings, a function, and tables of a share of it.
#[derive(Drop)]
pub struct WorkerInput {
    pub ends: Snapshot<RingEnds>,
    pub func: Snapshot<Func>,
    pub tables: Snapshot<Tables>,
}

impl Promise<WorkerResult> for WorkerInput {
    ghost use Rattle.ring_line.specs.WorkerLoops.{Kept};

    ghost kept_by = { Kept };
}
