//! The tables of shards as those of the whole.
ghost use Rattle.std.specs.Prelude.{◌≡◌, ◌<◌, ◌+◌, [], ◌++◌, length, IfOk, OnOk};
ghost use Rattle.shard_core.specs.Finished.{tables_in, IsMergeOf, Finishes};
ghost use Rattle.shard_core.specs.Sharded.{StandsFor, IsWhole};
ghost use Rattle.shard_machine.specs.Laws.{TimesNeverFall, OneQueueWhereTheyMeet};
ghost use Rattle.shard_machine.specs.Machine.{Setup, Machine};

use super::Shards;
use crate::worker::Worker;
use nf_base::seq::Seq;
use std::alloc::{AllocError, Global};
use vig_tables::Tables;

impl Shards {
    /// The tables with the whole share, once all packets are collected: where their times don't
    /// fall and those that meet have one queue, what one worker would remember after all of them.
    ///
    /// At an `Err` the shards are given up.
    pub fn finish(self) -> Result<Tables, AllocError>
        requires whole { IsWhole self }
        requires collected { self.queues.items ≡ [] }
        ensures merge { IfOk result (IsMergeOf self) }
        ensures stands { (x : Setup) → (m : Machine) → StandsFor x m self →
            TimesNeverFall 0 m.dispatched → OneQueueWhereTheyMeet x m.dispatched →
            IfOk result (Finishes x m) }
    {
        self.merged()
    }

    fn merged(self) -> Result<Tables, AllocError>
        requires { IsWhole self }
        ensures { IfOk result (IsMergeOf self) }
    {
        let Shards {
            alloc,
            func,
            workers,
            time,
            keys: _,
            table: _,
            count: _,
            queues: _,
        } = self;
        match tables_of(alloc, workers) {
            Ok(parts) => Tables::merge(alloc, &func, parts.as_slice(), time),
            Err(fault) => Err(fault),
        }
    }
}

/// The tables of each worker.
fn tables_of(alloc: Global, workers: Seq<Worker>) -> Result<Vec<Tables>, AllocError>
    ensures { IfOk result (λ parts. parts.items ≡ tables_in workers) }
{
    let mut workers = workers;
    let mut parts = Vec::new(alloc);
    for w in 0..workers.len() {
        match move_first(&mut parts, &mut workers) {
            Ok(()) => {}
            Err(fault) => return Err(fault),
        }
    }
    Ok(parts)
}

/// Moves the tables of the first worker behind the others.
fn move_first(parts: &mut Vec<Tables>, workers: &mut Seq<Worker>) -> Result<(), AllocError>
    requires { 0 < length workers.old }
    ensures moved { OnOk result
        (parts.new.items ++ tables_in workers.new ≡ parts.old.items ++ tables_in workers.old) }
    ensures left { length workers.old ≡ length workers.new + 1 }
{
    let worker = workers.remove_first();
    let tables = worker.take_tables();
    parts.push(tables)?;
    Ok(())
}
