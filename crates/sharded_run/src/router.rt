//! The queues of packets.
ghost use Rattle.std.specs.Prelude.{◌≡◌, ◌<◌, length, IfOk};
ghost use Rattle.rss_table.specs.Tables.{even_table, AllBelow};
ghost use Rattle.stream_run.specs.Rules.{queue_by};

use nf_base::keys::Keys;
use nf_base::packet::Packet;
use nf_base::workers::Workers;
use rss_table::{ByteTables, Table};
use std::alloc::{AllocError, Global};

/// A key for each port, and a table of so many queues.
#[derive(Drop)]
pub(crate) struct Router {
    keys: ByteTables,
    table: Table,
    workers: Workers,
    ghost even: { table ≡ even_table keys.table workers },
    ghost below: { AllBelow workers table },
}

impl Router {
    pub(crate) fn new(alloc: Global, keys: &Keys, workers: Workers) -> Result<Router, AllocError>
        ensures keys { IfOk result (λ router. router.keys ≡ keys.now) }
        ensures workers { IfOk result (λ router. router.workers ≡ workers) }
    {
        Ok(Router {
            keys: ByteTables::new(alloc, keys)?,
            table: Table::even(workers, keys.table),
            workers,
        })
    }

    /// The queue of a packet.
    pub(crate) fn queue(&self, packet: &Packet) -> u32
        requires { packet.now.id.port < length self.now.keys.ports }
        ensures value { result ≡ queue_by self.now.keys self.now.workers packet.now }
        ensures below { result < self.now.workers }
    {
        self.table.queue_by(&self.keys, packet)
    }
}
